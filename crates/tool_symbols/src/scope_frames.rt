//! The registers from which the variables of procedures' frames count.

ghost use Rattle.std.specs.Prelude.{◌≡◌, ◌+◌, ◌<◌, ◌≤◌, ◌^◌, length, reverse};
ghost use Rattle.pdb.specs.Forms.{kind_at};
ghost use Rattle.pdb.specs.Views.{symbol_of, symbols_bytes, symbols_left, symbols_place};
ghost use Rattle.tool_symbols.specs.Depth.{depth_behind};
ghost use Rattle.tool_symbols.specs.ScopeFrames.{bases_at, bases_within, first_bases, has_frame, innermost, no_bases};

use crate::depth::depth_of;
use pdb::{FallibleIterator, Symbol, SymbolIndex, SymbolIter};
use pdb_records::Record;

/// The registers of a frame from which its variables count, as the frame's record encodes them: `local_base` and
/// `parameter_base` of `S_FRAMEPROC`. 0 where none is known.
#[derive(Clone, Copy, Debug, Eq, PartialEq)]
pub struct Bases {
    /// That of local variables.
    pub local: u8,
    /// That of parameters.
    pub parameter: u8,
}

/// Procedures stand in no scope but in made files. In a deeper one a frame isn't looked for: else a file of nested
/// procedures takes time by the square of its length.
const DEPTH: usize = 8;

/// No register is known.
fn no_bases() -> Bases
    ensures { result ≡ no_bases }
{
    Bases {
        local: 0,
        parameter: 0,
    }
}

/// The registers that a frame's record says; none for other records.
fn bases_at(symbol: &Symbol<'_>) -> Option<Bases>
    ensures { result ≡ bases_at (symbol_of symbol.now).bytes }
{
    if symbol.raw_kind() != 0x1012 {
        return None;
    }
    match Record::parse(symbol) {
        Ok(Record::FrameProcedure(frame)) => Some(Bases {
            local: frame.local_base,
            parameter: frame.parameter_base,
        }),
        Ok(_) => None,
        Err(_) => None,
    }
}

/// The depth behind a symbol.
fn depth_behind(depth: usize, symbol: &Symbol<'_>) -> usize
    requires { depth + 1 < 2 ^ 64 }
    ensures is { result ≡ depth_behind depth (kind_at (symbol_of symbol.now).bytes) }
    ensures bound { result ≤ depth + 1 }
{
    let at = depth_of(depth, symbol);
    if symbol.starts_scope() { at + 1 } else { at }
}

/// The registers of the first frame's record that stands directly in a scope, whose symbols an iterator has left.
fn bases_ahead(symbols: &mut SymbolIter<'_>) -> Bases
    ensures is { result ≡ first_bases 0 (symbols_left symbols.old).items }
    ensures bytes { symbols_bytes symbols.new ≡ symbols_bytes symbols.old }
{
    let mut inner = 0usize;
    loop {
        match symbols.next() {
            Ok(Some(symbol)) => {
                if inner == 0 {
                    if symbol.ends_scope() {
                        return no_bases();
                    }
                    if let Some(bases) = bases_at(&symbol) {
                        return bases;
                    }
                }
                inner = depth_behind(inner, &symbol);
            }
            Ok(None) => return no_bases(),
            Err(_) => return no_bases(),
        }
    }
}

/// The same, of an iterator that stands at an offset, and stands there again afterwards.
#[tactic(auto, using(crate::proofs::OpenScopes::back_again))]
fn first_bases(symbols: &mut SymbolIter<'_>, at: SymbolIndex) -> Bases
    requires place { symbols_place symbols.old ≡ at.0 }
    requires inside { at.0 ≤ length (symbols_bytes symbols.old) }
    ensures is { result ≡ first_bases 0 (symbols_left symbols.old).items }
    ensures left { symbols_left symbols.new ≡ symbols_left symbols.old }
{
    let bases = bases_ahead(symbols);
    symbols.seek(at);
    bases
}

/// Whether a kind is one of procedures or of separated code.
fn has_frame(kind: u16) -> bool
    ensures { result ≡ has_frame kind }
{
    matches!(
        kind,
        0x110f | 0x1110 | 0x1146 | 0x1147 | 0x1155 | 0x1156 | 0x100a | 0x100b | 0x1132
    )
}

/// The registers of the innermost scope that is open; they stand behind those of the scopes around it.
#[tactic(auto, using(crate::proofs::OpenScopes::last_is))]
pub fn innermost(around: &[Bases]) -> Bases
    ensures { result ≡ innermost (reverse around.now) }
{
    match around.last() {
        Some(bases) => *bases,
        None => no_bases(),
    }
}

/// The registers of a scope that a symbol starts, whose symbols an iterator has left.
pub fn bases_within(symbols: &mut SymbolIter<'_>, around: &[Bases], symbol: &Symbol<'_>) -> Bases
    requires place { symbols_place symbols.old ≡ (symbol_of symbol.now).index + 2 + length (symbol_of symbol.now).bytes }
    requires inside { symbols_place symbols.old ≤ length (symbols_bytes symbols.old) }
    requires small { length (symbols_bytes symbols.old) < 2 ^ 32 }
    ensures is { result ≡ bases_within (reverse around.now) (kind_at (symbol_of symbol.now).bytes) (symbols_left symbols.old).items }
    ensures left { symbols_left symbols.new ≡ symbols_left symbols.old }
{
    if !has_frame(symbol.raw_kind()) {
        return innermost(around);
    }
    if around.len() >= DEPTH {
        return no_bases();
    }
    let behind = symbol.index().0 + 2 + symbol.raw_bytes().len() as u32;
    first_bases(symbols, SymbolIndex(behind))
}

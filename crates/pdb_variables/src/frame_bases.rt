//! The registers from which the variables of a function's frame count.

ghost use Rattle.std.specs.Prelude.{◌≡◌, ◌+◌, ◌<◌, ◌≤◌, ◌^◌, length};
ghost use Rattle.pdb.specs.Forms.{kind_at};
ghost use Rattle.pdb.specs.Views.{symbol_of, symbols_bytes, symbols_left, symbols_place};
ghost use Rattle.pdb_variables.specs.VariableRecords.{base_of, bases_at, no_bases};
ghost use Rattle.pdb_variables.specs.VariableWalk.{bases_ahead, bases_behind};

use pdb::{FallibleIterator, Symbol, SymbolIndex, SymbolIter};
use pdb_records::Record;

/// The registers from which variables count, as the frame's record encodes them; 0 where none is known.
#[derive(Clone, Copy)]
pub(crate) struct Bases {
    /// That of local variables.
    pub(crate) local: u8,
    /// That of parameters.
    pub(crate) parameter: u8,
}

impl Bases {
    /// No register is known.
    pub(crate) fn none() -> Self
        ensures { result ≡ no_bases }
    {
        Bases {
            local: 0,
            parameter: 0,
        }
    }

    /// The register from which a variable counts.
    pub(crate) fn of(self, parameter: bool) -> u8
        ensures { result ≡ base_of self parameter }
    {
        if parameter {
            self.parameter
        } else {
            self.local
        }
    }
}

/// The registers that a frame's record says; none for other records.
fn bases_at(symbol: &Symbol<'_>) -> Option<Bases>
    ensures { result ≡ bases_at (symbol_of symbol.now) }
{
    match Record::parse(symbol) {
        Ok(Record::FrameProcedure(frame)) => Some(Bases {
            local: frame.local_base,
            parameter: frame.parameter_base,
        }),
        Ok(_) => None,
        Err(_) => None,
    }
}

/// The registers of the first frame's record that stands directly in a scope, of which an iterator has left the
/// symbols. It has then gone on.
fn bases_ahead(symbols: &mut SymbolIter<'_>) -> Bases
    ensures is { result ≡ bases_ahead 0 (symbols_left symbols.old).items }
    ensures bytes { symbols_bytes symbols.new ≡ symbols_bytes symbols.old }
{
    let mut depth = 0usize;
    loop {
        match symbols.next() {
            Ok(Some(symbol)) => {
                if depth == 0 {
                    if let Some(bases) = bases_at(&symbol) {
                        return bases;
                    }
                }
                if symbol.ends_scope() {
                    if depth == 0 {
                        return Bases::none();
                    }
                    depth -= 1;
                } else if symbol.starts_scope() {
                    depth += 1;
                }
            }
            Ok(None) => return Bases::none(),
            Err(_) => return Bases::none(),
        }
    }
}

/// Those of a function, of which an iterator has left the symbols.
pub(crate) fn bases_of(mut symbols: SymbolIter<'_>) -> Bases
    ensures { result ≡ bases_ahead 0 (symbols_left symbols.entry).items }
{
    bases_ahead(&mut symbols)
}

/// In how many scopes separated code may stand whose frame is looked for: else a file of separated code in separated
/// code takes time by the square of its length.
const DEPTH: usize = 8;

/// The registers in the scope that a symbol starts in so many others. An iterator stands behind the symbol, and stands
/// there again afterwards.
pub(crate) fn bases_behind(
    symbols: &mut SymbolIter<'_>,
    symbol: &Symbol<'_>,
    depth: usize,
    bases: Bases,
) -> Bases
    requires stands { symbols_place symbols.old ≡ (symbol_of symbol.now).index + 2 + length (symbol_of symbol.now).bytes }
    requires inside { symbols_place symbols.old ≤ length (symbols_bytes symbols.old) }
    requires small { length (symbols_bytes symbols.old) < 2 ^ 32 }
    ensures is { result ≡ bases_behind (kind_at (symbol_of symbol.now).bytes) depth bases (symbols_left symbols.old).items }
    ensures left { symbols_left symbols.new ≡ symbols_left symbols.old }
    ensures bytes { symbols_bytes symbols.new ≡ symbols_bytes symbols.old }
    ensures place { symbols_place symbols.new ≡ symbols_place symbols.old }
{
    if symbol.raw_kind() != 0x1132 || depth >= DEPTH {
        return bases;
    }
    let behind = symbol.index().0 + 2 + symbol.raw_bytes().len() as u32;
    let own = bases_ahead(symbols);
    symbols.seek(SymbolIndex(behind));
    own
}

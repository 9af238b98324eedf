//! The references of a line to code.

ghost use Rattle.std.specs.Prelude.{◌≡◌, ◌++◌, IfOk, OnOk, filter, option_to_list};
ghost use Rattle.std.specs.List.{list_any};
ghost use Rattle.pdb_stacks.specs.LineReferences.{candidates, counted, free_behind, has_dot, is_named, reference_of, references};
ghost use Rattle.pdb_stacks.specs.SymbolMarks.{IsNearest, IsSymbolMark};

use crate::bytes::{Kind, Span, is_of, run_end};
use crate::forms::form_at;
use crate::marks::Mark;
use crate::texts::{behind_text, stands};
use std::alloc::AllocError;

/// A reference of a line to code: a module, and an address in it.
#[derive(Clone, Copy, Debug, PartialEq, Eq)]
pub struct Reference {
    /// Its text.
    pub text: Span,
    /// The name of the module.
    pub module: Span,
    /// The name of the symbol from whose start the number counts; none where it is relative to the module.
    pub symbol: Option<Span>,
    /// The number.
    pub number: u64,
    /// Whether it is `NAME+0xHEX`, and the name has no dot: then the name may be that of a function.
    pub is_bare: bool,
    /// Whether a `)` follows, as where a sanitizer writes it.
    pub is_closed: bool,
}

/// Whether the name of a module has a dot.
fn has_dot(name: &[u8]) -> bool
    ensures { result ≡ has_dot name.now }
{
    name.iter().any(|b| *b == b'.')
}

/// The mark up to which the name of a symbol goes that stands behind `!` at an offset; without one, the mark so far.
fn symbol_mark(line: &[u8], at: usize, known: Mark) -> Mark
    requires { IsNearest line.now known }
    ensures known { IsNearest line.now result }
    ensures mark { IsSymbolMark line.now at result.at }
{
    match behind_text(line, at, b"!") {
        Some(start) => known.next(line, start),
        None => known,
    }
}

/// The reference of the module of a name, by the mark of its symbol.
#[tactic(auto, unfolding(crate::specs::LineReferences::reference_of))]
fn reference_of(line: &[u8], name: Span, mark: usize) -> Option<Reference>
    requires { IsSymbolMark line.now name.end mark }
    ensures { result ≡ reference_of line.now name }
{
    let has_dot = has_dot(name.of(line));
    let form = form_at(line, name.end, has_dot, mark)?;
    Some(Reference {
        text: Span {
            start: name.start,
            end: form.hex.end,
        },
        module: name,
        symbol: form.symbol,
        number: form.hex.number,
        is_bare: form.is_plain && !has_dot,
        is_closed: stands(line, form.hex.end, b")"),
    })
}

/// Appends the reference of a module, if there is one, and returns where the search goes on.
fn put_reference(
    out: &mut Vec<Reference>,
    name: Span,
    reference: Option<Reference>,
) -> Result<usize, AllocError>
    ensures puts { OnOk result (out.new.items ≡ out.old.items ++ option_to_list reference) }
    ensures free { IfOk result (λ free. free ≡ free_behind name reference) }
{
    match reference {
        Some(reference) => {
            out.push(reference)?;
            Ok(reference.text.end)
        }
        None => Ok(name.end),
    }
}

/// Appends the references of a line, from left to right, with bare names.
#[tactic(auto, unfolding(crate::specs::LineReferences::candidates, crate::specs::LineReferences::candidates_from))]
fn put_candidates(out: &mut Vec<Reference>, line: &[u8]) -> Result<(), AllocError>
    ensures { OnOk result (out.new.items ≡ out.old.items ++ candidates line.now) }
{
    let mut free = 0;
    let mut mark = Mark::last(line);
    for (at, byte) in line.iter().enumerate() {
        if at >= free && is_of(Kind::Module, *byte) {
            let name = Span {
                start: at,
                end: run_end(Kind::Module, line, at),
            };
            mark = symbol_mark(line, name.end, mark);
            free = put_reference(out, name, reference_of(line, name, mark.at))?;
        }
    }
    Ok(())
}

/// Whether one of some references is of no bare name.
fn has_named(references: &[Reference]) -> bool
    ensures { result ≡ list_any is_named references.now }
{
    references.iter().any(|reference| !reference.is_bare)
}

/// Leaves those that are of no bare name.
fn keep_named(references: &mut Vec<Reference>)
    ensures { references.new.items ≡ filter is_named references.old.items }
{
    references.retain(|reference| !reference.is_bare);
}

/// Puts the references of a line into a list, in place of what it has, from left to right. Where one is of another form than
/// `NAME+0xHEX`, or has a dot in its name, bare names don't count: they are functions there.
pub fn put_references(out: &mut Vec<Reference>, line: &[u8]) -> Result<(), AllocError>
    ensures { OnOk result (out.new.items ≡ references line.now) }
{
    out.clear();
    put_candidates(out, line)?;
    if has_named(out) {
        keep_named(out);
    }
    Ok(())
}

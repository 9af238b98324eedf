//! Where the name of a symbol ends: at the offset behind it, or at a byte that no name has.

ghost use Rattle.std.specs.Prelude.{◌≡◌};
ghost use Rattle.pdb_stacks.specs.SymbolMarks.{IsNearest, is_of_operator, is_stop, mark_at, nearest};

use crate::bytes::{Kind, kind_at};
use crate::hex_numbers::offset_at;
use crate::texts::stands;

/// The nearest mark from an offset on.
#[derive(Clone, Copy)]
pub(crate) struct Mark {
    /// The offset from which on it was looked for.
    pub(crate) from: usize,
    /// Its offset, or where the line ends.
    pub(crate) at: usize,
}

/// Whether a `!` at an offset would be of the name of an operator, as `operator!=` has it.
fn is_of_operator(line: &[u8], at: usize) -> bool
    ensures { result ≡ is_of_operator line.now at }
{
    line[..at.min(line.len())].ends_with(b"operator")
}

/// Whether no name of a symbol has the byte at an offset: a control, a blank before `[`, or a `!` that isn't an operator's.
#[tactic(auto, unfolding(crate::specs::SymbolMarks::is_stop))]
fn is_stop(line: &[u8], at: usize) -> bool
    ensures { result ≡ is_stop line.now at }
{
    kind_at(Kind::Control, line, at)
        || stands(line, at, b" [")
        || stands(line, at, b"!") && !is_of_operator(line, at)
}

/// The mark at an offset, if one stands there: what ends the name of a symbol that goes up to it.
#[tactic(auto, unfolding(crate::specs::SymbolMarks::mark_at))]
fn mark_at(line: &[u8], at: usize) -> Option<usize>
    ensures { result ≡ mark_at line.now at }
{
    if is_stop(line, at) || offset_at(line, at).is_some() {
        Some(at)
    } else {
        None
    }
}

/// The nearest mark from an offset on, or the end of the line.
#[tactic(auto, unfolding(crate::specs::SymbolMarks::nearest))]
fn nearest(line: &[u8], from: usize) -> usize
    ensures { result ≡ nearest line.now from }
{
    for at in from..line.len() {
        if let Some(mark) = mark_at(line, at) {
            return mark;
        }
    }
    from.max(line.len())
}

impl Mark {
    /// The nearest mark from a line's end on, which is the end itself.
    pub(crate) fn last(line: &[u8]) -> Mark
        ensures { IsNearest line.now result }
    {
        Mark {
            from: line.len(),
            at: line.len(),
        }
    }

    /// The nearest mark from a later offset on. It is the same one, unless that lies behind it: so each byte of a line is
    /// looked at once.
    pub(crate) fn next(self, line: &[u8], from: usize) -> Mark
        requires { IsNearest line.now self }
        ensures is { result.at ≡ nearest line.now from }
        ensures from { result.from ≡ from }
    {
        if self.from <= from && from <= self.at {
            Mark { from, at: self.at }
        } else {
            Mark {
                from,
                at: nearest(line, from),
            }
        }
    }
}

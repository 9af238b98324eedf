//! What a line is, before it is searched for references.

ghost use Rattle.std.specs.Prelude.{◌≡◌};
ghost use Rattle.pdb_stacks.specs.LineHeadings.{heading_of, without_module};

use crate::module_lists::{ListedModule, listed_module};
use crate::texts::{find_behind, stands};

/// What a line is.
#[derive(Clone, Copy, Debug, PartialEq, Eq)]
pub enum Heading {
    /// The list of unloaded modules begins. The line has no references.
    Unloaded,
    /// It lists a module, and has no references.
    Module(ListedModule),
    /// It is of an inlined function: the offset in it is that of the copy. It has no references.
    Inline,
    /// Another line, which may have references.
    Other,
}

/// What a line is that lists no module.
fn without_module(line: &[u8]) -> Heading
    ensures { result ≡ without_module line.now }
{
    if find_behind(line, b"(Inline").is_some() {
        Heading::Inline
    } else {
        Heading::Other
    }
}

/// What a line is: the first of these that fits.
#[tactic(auto, unfolding(crate::specs::LineHeadings::heading_of))]
pub fn heading_of(line: &[u8]) -> Heading
    ensures { result ≡ heading_of line.now }
{
    if stands(line, 0, b"Unloaded modules:") {
        return Heading::Unloaded;
    }
    match listed_module(line) {
        Some(module) => Heading::Module(module),
        None => without_module(line),
    }
}

//! What lines say of those behind them, and which addresses are return addresses.

ghost use Rattle.std.specs.Prelude.{◌≡◌, false};
ghost use Rattle.pdb_stacks.specs.Courses.{course_after, has_return_addresses};

use crate::headings::Heading;

/// Which addresses of a text are return addresses: those of the instruction behind a call.
#[derive(Clone, Copy, Debug, PartialEq, Eq)]
pub enum ReturnAddresses {
    /// None.
    Never,
    /// All.
    Always,
    /// All but those of each stack's first line.
    ButFirst,
}

/// What the lines so far say of the next one.
#[derive(Clone, Copy, Debug, PartialEq, Eq)]
pub struct Course {
    /// Whether the list of unloaded modules runs: the modules that it lists are in the process no more.
    pub lists_unloaded: bool,
    /// Whether the line before had references, lines of inlined functions left out of count. A fault's offset counts as none.
    pub had_references: bool,
}

impl Course {
    /// Before the first line.
    pub fn begin() -> Course
        ensures { result ≡ record { lists_unloaded = false; had_references = false } }
    {
        Course {
            lists_unloaded: false,
            had_references: false,
        }
    }

    /// Behind a line, which had references or none.
    pub fn after(self, heading: Heading, has_references: bool) -> Course
        ensures { result ≡ course_after self heading has_references }
    {
        match heading {
            Heading::Unloaded => Course {
                lists_unloaded: true,
                had_references: false,
            },
            Heading::Module(_) => Course {
                had_references: false,
                ..self
            },
            Heading::Inline => Course {
                lists_unloaded: false,
                ..self
            },
            Heading::Other => Course {
                lists_unloaded: false,
                had_references: has_references,
            },
        }
    }

    /// Whether the addresses of a line are return addresses, by the frame's number with which it begins (`frame_number`). A
    /// fault's offset never is one.
    pub fn has_return_addresses(self, which: ReturnAddresses, number: Option<u64>) -> bool
        ensures { result ≡ has_return_addresses which self.had_references number }
    {
        match which {
            ReturnAddresses::Never => false,
            ReturnAddresses::Always => true,
            ReturnAddresses::ButFirst => match number {
                Some(number) => number != 0,
                None => self.had_references,
            },
        }
    }
}

//! The frames of a run, from the innermost outwards.

ghost use Rattle.std.specs.Prelude.{◌≡◌};

use crate::error::Damaged;
use crate::index::Index;
use crate::nodes::{Frame, frame_at};
use crate::runs::Run;

/// What comes next.
#[derive(Clone, Copy, Debug)]
pub enum Next {
    /// The frame that tells nothing, and then the end.
    Unknown,
    /// The frame of a node, and those outside of it, at most so many.
    Node {
        /// The number of the node.
        number: u32,
        /// How many frames may come.
        left: u32,
    },
    /// Nothing.
    End,
}

/// The frames at a place, from the innermost outwards: an iterator. If the index is damaged, the last item is an error.
#[derive(Clone, Debug, Drop)]
pub struct Frames<'a> {
    index: Index<'a>,
    next: Next,
    is_damaged: bool,
}

impl<'a> Frames<'a> {
    ghost use Rattle.std.specs.Prelude.{false, [], ◌∷◌, ◌+◌};
    ghost use Rattle.pdb_index.specs.IndexViews.{frames_damage, frames_left, item_told};
    ghost use Rattle.pdb_index.specs.NodeFrames.{stack_of};
    ghost use Rattle.std.specs.Prelude.{Some};
    ghost use Rattle.pdb_index.specs.NodeFrames.{nothing};

    /// The one frame of code of which nothing is known.
    pub(crate) fn unknown(index: Index<'a>) -> Self
        ensures left { frames_left result ≡ Some nothing ∷ [] }
        ensures damage { frames_damage result ≡ false }
    {
        Frames {
            index,
            next: Next::Unknown,
            is_damaged: false,
        }
    }

    /// The frames of a run.
    pub(crate) fn from_run(index: Index<'a>, run: Run) -> Self
        ensures left { frames_left result ≡ stack_of index.entry.bytes.now index.entry.layout index.entry.layout.deepest run.node }
        ensures damage { frames_damage result ≡ run.is_damaged }
    {
        let left = index.layout.deepest;
        Frames {
            index,
            next: Next::Node {
                number: run.node,
                left,
            },
            is_damaged: run.is_damaged,
        }
    }

    /// Whether the module of this code is damaged in the PDB file: its frames are what was read before the damage.
    pub fn is_damaged(&self) -> bool
        ensures { result ≡ frames_damage self.now }
    {
        self.is_damaged
    }

    /// The frame of a node, of which and of those outside of it at most so many come.
    #[tactic(auto, unfolding(crate::specs::NodeFrames::stack_of))]
    fn step(&mut self, number: u32, left: u32) -> Result<Frame<'a>, Damaged>
        ensures { stack_of self.old.index.bytes.now self.old.index.layout left number ≡ item_told result ∷ frames_left self.new }
    {
        self.next = Next::End;
        if left == 0 {
            return Err(Damaged);
        }
        let (frame, outer) = frame_at(&self.index, number).ok_or(Damaged)?;
        if outer != 0 {
            self.next = Next::Node {
                number: number - outer,
                left: left - 1,
            };
        }
        Ok(frame)
    }
}

impl<'a> Iterator for Frames<'a> {
    ghost use Rattle.std.specs.Iterator.{YieldsFirstBy, item_count};
    ghost use Rattle.pdb_index.specs.IndexViews.{frames_left, item_told};

    type Item = Result<Frame<'a>, Damaged>;

    ghost next_gives = { YieldsFirstBy item_told frames_left };

    ghost remaining = { item_count frames_left };

    fn next(&mut self) -> Option<Result<Frame<'a>, Damaged>> {
        match self.next {
            Next::Unknown => {
                self.next = Next::End;
                Some(Ok(Frame::unknown()))
            }
            Next::Node { number, left } => Some(self.step(number, left)),
            Next::End => None,
        }
    }
}

//! Lists of line records.

ghost use Rattle.std.specs.Prelude.{◌≡◌, ◌≢◌, ◌+◌, ◌≤◌, ◌<◌, length, IsSome, ⊤};
ghost use Rattle.std.specs.Option.{ForSome};
ghost use Rattle.pdb_base.specs.declared.error.Error.TheVariants.{IoError, OutOfMemory};

use crate::line_info::LineInfo;
use crate::rows::Row;
use pdb_base::{Error, FallibleIterator, Result, Steps};
use std::alloc::AllocError;

/// Line records, in the order of their subsections. Where a block is damaged, the last record before it isn't given;
/// its fault comes instead of that record, and then the list has ended. It is `UnexpectedEof` where the block isn't
/// all there, and `InvalidStreamLength(LinesBlock)` where its size is below 12 or its entries don't fit.
#[derive(Drop)]
pub struct LineIterator<'a> {
    pub(crate) rows: &'a [Row],
    // Whether the records are given as if their subsection were the only one.
    pub(crate) is_own: bool,
    pub(crate) fault: Option<Error>,
    pub(crate) steps: Steps,
    // The bytes in which the records stand.
    pub(crate) part: &'a [u8],
    ghost counted: { steps.count + length rows.now ≤ length part.now + 1 },
    ghost waiting: { IsSome fault → steps.count + length rows.now ≤ length part.now },
    ghost going: { 0 < length rows.now → steps.count + length rows.now ≤ length part.now },
    ghost own: { ForSome fault (λ e. (e ≢ OutOfMemory) × (e ≢ IoError)) },
}

impl<'a> LineIterator<'a> {
    ghost use Rattle.std.specs.Prelude.{map};
    ghost use Rattle.pdb_modules.specs.KeptRows.{view_of};
    ghost use Rattle.pdb_modules.specs.LineViews.{lines_left, lines_part, lines_steps};

    // These rows, and then the fault.
    pub(crate) fn new(
        rows: &'a [Row],
        is_own: bool,
        fault: Option<Error>,
        part: &'a [u8],
    ) -> LineIterator<'a>
        requires room { length rows.now ≤ length part.now }
        requires own { ForSome fault (λ e. (e ≢ OutOfMemory) × (e ≢ IoError)) }
        ensures part { lines_part result ≡ part.entry.now }
        ensures left { lines_left result ≡ record { items = map (view_of is_own) rows.entry.now; fault = fault } }
        ensures steps { lines_steps result ≡ 0 }
    {
        LineIterator {
            rows,
            is_own,
            fault,
            steps: Steps::new(),
            part,
        }
    }
}

impl<'a> FallibleIterator for LineIterator<'a> {
    ghost use Rattle.std.specs.Prelude.{◌≡◌, ◌≢◌, ◌+◌, ◌≤◌, ◌<◌, ◌^◌, length, IfOk, IfErr, IfSome, IfNone};
    ghost use Rattle.pdb_base.specs.Left.{Yields};
    ghost use Rattle.pdb_modules.specs.declared.line_info.LineInfo.{LineInfo};
    ghost use Rattle.pdb_modules.specs.LineViews.{lines_left, lines_part, lines_steps};

    type Item = LineInfo;

    ghost Shown = { LineInfo };

    ghost shown = { λ x. x };

    ghost left = { lines_left };

    fn next(&mut self) -> Result<Option<LineInfo>>
        ensures yields { Yields (λ x. x) (lines_left self.old) result (lines_left self.new) }
        ensures few { length (lines_left self.old).items < 2 ^ 64 }
        ensures part { lines_part self.new ≡ lines_part self.old }
        ensures bound { lines_steps self.new ≤ length (lines_part self.new) + 1 }
        ensures stepped { IfOk result (λ o. IfSome o (λ _. lines_steps self.new ≡ lines_steps self.old + 1)) }
        ensures stepped_to_fault { IfErr result (λ _. lines_steps self.new ≡ lines_steps self.old + 1) }
        ensures rests { IfOk result (λ o. IfNone o (lines_steps self.new ≡ lines_steps self.old)) }
        ensures refused { IfErr result (λ e. (e ≢ OutOfMemory) × (e ≢ IoError)) }
    {
        if self.rows.is_empty() {
            return match self.fault {
                None => Ok(None),
                Some(error) => {
                    self.fault = None;
                    self.steps.tick();
                    Err(error)
                }
            };
        }
        let record = self.rows[0].shown(self.is_own);
        let (_, rest) = self.rows.split_at(1);
        self.rows = rest;
        self.steps.tick();
        Ok(Some(record))
    }
}

/// The same records, and the same steps so far.
impl Clone for LineIterator<'_> {
    ghost use Rattle.pdb_modules.specs.LineViews.{lines_left, lines_part, lines_steps};

    ghost is_clone = { λ a b. (lines_left b ≡ lines_left a) × (lines_part b ≡ lines_part a) × (lines_steps b ≡ lines_steps a) };

    ghost is_infallible = { λ _. ⊤ };

    fn clone(&self) -> std::result::Result<Self, AllocError> {
        Ok(LineIterator {
            rows: self.rows,
            is_own: self.is_own,
            fault: self.fault,
            steps: self.steps.clone()?,
            part: self.part,
        })
    }
}

/// No records.
impl Default for LineIterator<'_> {
    ghost use Rattle.std.specs.Prelude.{[]};
    ghost use Rattle.pdb_base.specs.Left.{ended};
    ghost use Rattle.pdb_modules.specs.LineViews.{lines_left, lines_part, lines_steps};

    ghost is_default = { λ it. (lines_left it ≡ ended) × (lines_part it ≡ []) × (lines_steps it ≡ 0) };

    fn default() -> Self {
        LineIterator::new(&[], false, None, &[])
    }
}

//! What both lists of line records are.

ghost use Rattle.std.specs.Prelude.{◌≢◌, ◌^◌, ◌<◌, length, IfErr};
ghost use Rattle.pdb_base.specs.Left.{Left, Yields};
ghost use Rattle.pdb_base.specs.declared.error.Error.TheVariants.{IoError, OutOfMemory};
ghost use Rattle.pdb_modules.specs.declared.line_info.LineInfo.{LineInfo};

use crate::inlined_lines::InlineeLineIterator;
use crate::line_info::LineInfo;
use crate::lines::LineIterator;
use pdb_base::{FallibleIterator, Result};

/// A list of line records: those of a line program, or those of a site of an inlined function. What takes one list
/// takes both.
pub trait LineRecords: Drop {
    // The records that are left, and perhaps a fault after them.
    ghost records: { Self → Left LineInfo };

    /// The first record that is left, then the fault once, then nothing: as `next` of the list.
    fn next_line(&mut self) -> Result<Option<LineInfo>>
        ensures yields { Yields (λ l. l) (records self.old) result (records self.new) }
        ensures few { length (records self.old).items < 2 ^ 64 }
        ensures refused { IfErr result (λ e. (e ≢ OutOfMemory) × (e ≢ IoError)) };
}

impl<'a> LineRecords for LineIterator<'a> {
    ghost use Rattle.pdb_modules.specs.LineViews.{lines_left};

    ghost records = { lines_left };

    fn next_line(&mut self) -> Result<Option<LineInfo>> {
        self.next()
    }
}

impl<'a> LineRecords for InlineeLineIterator<'a> {
    ghost use Rattle.pdb_modules.specs.InlinedViews.{inlined_left};

    ghost records = { inlined_left };

    fn next_line(&mut self) -> Result<Option<LineInfo>> {
        self.next()
    }
}

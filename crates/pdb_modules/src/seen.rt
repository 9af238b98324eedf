//! What annotations have said so far.

ghost use Rattle.std.specs.Prelude.{◌≡◌, [], ◌∷◌};

use crate::line_info::{LineInfo, LineInfoKind};
use pdb_base::{FileIndex, PdbInternalSectionOffset};
use pdb_symbols::BinaryAnnotation;

// What the annotations so far say of the code: what the next record says.
#[derive(Clone, Copy)]
pub(crate) struct Seen {
    pub offset: u32,
    pub base: u32,
    pub file_index: FileIndex,
    pub line: u32,
    pub line_count: u32,
    pub column_start: Option<u32>,
    pub column_end: Option<u32>,
    pub kind: LineInfoKind,
}

impl Seen {
    ghost use Rattle.pdb_modules.specs.Inlined.{seen, start, code_offset, record_of};

    // What is seen before the first annotation.
    pub(crate) fn new(offset: u32, file_index: FileIndex, line: u32) -> Self
        ensures { result ≡ start offset file_index line }
    {
        Seen {
            offset,
            base: 0,
            file_index,
            line,
            line_count: 1,
            column_start: None,
            column_end: None,
            kind: LineInfoKind::Statement,
        }
    }

    // Takes in one more annotation.
    #[inline]
    #[tactic(auto, unfolding(crate::specs::Inlined::seen))]
    pub(crate) fn take_in(&mut self, annotation: BinaryAnnotation)
        ensures { self.new ≡ seen self.old (annotation ∷ []) }
    {
        match annotation {
            BinaryAnnotation::CodeOffset(offset) => self.offset = offset,
            BinaryAnnotation::ChangeCodeOffsetBase(base) => self.base = base,
            BinaryAnnotation::ChangeCodeOffset(delta)
            | BinaryAnnotation::ChangeCodeLength(delta)
            | BinaryAnnotation::ChangeCodeLengthAndCodeOffset(_, delta) => {
                self.offset = self.offset.wrapping_add(delta);
            }
            BinaryAnnotation::ChangeFile(file_index) => self.file_index = file_index,
            BinaryAnnotation::ChangeLineOffset(lines) => {
                self.line = self.line.wrapping_add_signed(lines);
            }
            BinaryAnnotation::ChangeLineEndDelta(count) => self.line_count = count,
            BinaryAnnotation::ChangeRangeKind(0) => self.kind = LineInfoKind::Expression,
            BinaryAnnotation::ChangeRangeKind(1) => self.kind = LineInfoKind::Statement,
            BinaryAnnotation::ChangeRangeKind(_) => {}
            BinaryAnnotation::ChangeColumnStart(column) => self.column_start = Some(column),
            BinaryAnnotation::ChangeColumnEndDelta(columns) => {
                if let Some(column) = self.column_end {
                    self.column_end = Some(column.wrapping_add_signed(columns));
                }
            }
            BinaryAnnotation::ChangeCodeOffsetAndLineOffset(delta, lines) => {
                self.offset = self.offset.wrapping_add(delta);
                self.line = self.line.wrapping_add_signed(lines);
            }
            BinaryAnnotation::ChangeColumnEnd(column) => self.column_end = Some(column),
        }
    }

    // Where the code stands.
    #[inline]
    pub(crate) fn code_offset(&self) -> u32
        ensures { result ≡ code_offset self.now }
    {
        self.offset.wrapping_add(self.base)
    }

    // The record of what is seen, with a length.
    #[inline]
    pub(crate) fn record(&self, section: u16, length: Option<u32>) -> LineInfo
        ensures { result ≡ record_of section self.now length }
    {
        LineInfo {
            offset: PdbInternalSectionOffset::new(section, self.code_offset()),
            length,
            file_index: self.file_index,
            line_start: self.line,
            line_end: self.line.wrapping_add(self.line_count),
            column_start: self.column_start,
            column_end: self.column_end,
            kind: self.kind,
        }
    }
}

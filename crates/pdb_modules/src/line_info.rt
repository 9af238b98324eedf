//! Line records.

ghost use Rattle.std.specs.Prelude.{◌≡◌};
ghost use Rattle.pdb_modules.specs.LineCover.{bytes_cover};

use pdb_base::{FileIndex, PdbInternalSectionOffset};

/// What a line record's code is: bit 31 of `cvinfo.h`'s `CV_Line_t`.
#[derive(Clone, Copy, Debug, Eq, PartialEq)]
pub enum LineInfoKind {
    /// An expression.
    Expression,
    /// A statement.
    Statement,
}

/// Most code is a statement's.
impl Default for LineInfoKind {
    ghost use Rattle.std.specs.Prelude.{◌≡◌};
    ghost use Rattle.pdb_modules.specs.declared.line_info.LineInfoKind.{LineInfoKind};

    ghost is_default = { λ kind. kind ≡ LineInfoKind.Statement };

    fn default() -> Self {
        LineInfoKind::Statement
    }
}

/// A line record: which lines of which file a range of code comes from.
#[derive(Clone, Debug, Drop, PartialEq)]
pub struct LineInfo {
    /// Where the code begins: an offset in a section of the image.
    pub offset: PdbInternalSectionOffset,
    /// How many bytes of code it is, where that is known.
    pub length: Option<u32>,
    /// The file, by the offset of its checksum in the module's checksums.
    pub file_index: FileIndex,
    /// The first line.
    pub line_start: u32,
    /// The last line.
    pub line_end: u32,
    /// The column at which it starts, where it is known.
    pub column_start: Option<u32>,
    /// The column at which it ends, where it is known.
    pub column_end: Option<u32>,
    /// What the code is.
    pub kind: LineInfoKind,
}

/// Whether so many bytes from a place on have the one at another.
pub(crate) fn bytes_cover(
    place: PdbInternalSectionOffset,
    from: PdbInternalSectionOffset,
    length: u32,
) -> bool
    ensures { result ≡ bytes_cover place from length }
{
    from.section == place.section
        && from.offset <= place.offset
        && u64::from(place.offset) < u64::from(from.offset) + u64::from(length)
}

impl LineInfo {
    ghost use Rattle.std.specs.Prelude.{Decides};
    ghost use Rattle.pdb_modules.specs.LineCover.{Covers, line_covers};

    /// Whether a place is one of the record's bytes: it lies in the record's section, at or behind its offset, and
    /// before the end of its bytes. A record of which it isn't known how many it has covers no place.
    #[tactic(auto, using(crate::proofs::CoverLemmas::covers_decides))]
    pub fn covers(&self, place: PdbInternalSectionOffset) -> bool
        ensures says { Decides result (Covers place self.now) }
        ensures computed { result ≡ line_covers place self.now }
    {
        match self.length {
            Some(length) => bytes_cover(place, self.offset, length),
            None => false,
        }
    }
}

//! A range of code.

ghost use Rattle.std.specs.Prelude.{◌≡◌, ◌<◌, ◌^◌};
ghost use Rattle.pdb.specs.LineCover.{bytes_cover};
ghost use Rattle.pdb.specs.LineOrder.{order_of};

use crate::span::Span;
use pdb::PdbInternalSectionOffset;

/// A range of code: where it begins, how many bytes it has, and what stands for it.
#[derive(Clone, Copy)]
pub struct CodeRange {
    /// Where it begins.
    pub place: PdbInternalSectionOffset,
    /// How many bytes it has.
    pub length: u32,
    /// What is found where it covers a place.
    pub payload: u32,
    ghost fits: { place.offset < 2 ^ 32 },
}

/// Whether so many bytes from an offset on have the one at another.
#[inline]
pub fn bytes_cover(
    place: PdbInternalSectionOffset,
    from: PdbInternalSectionOffset,
    length: u32,
) -> bool
    ensures { result ≡ bytes_cover place from length }
{
    from.section == place.section
        && from.offset <= place.offset
        && u64::from(place.offset) < u64::from(from.offset) + u64::from(length)
}

/// A place among those of all sections, one section behind the other.
pub(crate) fn order_of(place: PdbInternalSectionOffset) -> u64
    ensures order { result ≡ order_of place }
    // A number of a place that was passed has its type's range.
    ensures fits { place.offset < 2 ^ 32 }
{
    u64::from(place.section) * 0x1_0000_0000 + u64::from(place.offset)
}

impl CodeRange {
    ghost use Rattle.pdb_places.specs.RangeOrder.{start_of, end_of};

    /// The range of so many bytes at a place.
    pub fn new(place: PdbInternalSectionOffset, length: u32, payload: u32) -> Self
        ensures place { result.place ≡ place }
        ensures length { result.length ≡ length }
        ensures payload { result.payload ≡ payload }
    {
        CodeRange {
            place,
            length,
            payload,
        }
    }

    // Where it begins among the places of all sections.
    pub(crate) fn start(self) -> u64
        ensures { result ≡ start_of self }
    {
        order_of(self.place)
    }

    // Where it ends among the places of all sections: at its section's end at the latest.
    pub(crate) fn end(self) -> u64
        ensures { result ≡ end_of self }
    {
        let end = u64::from(self.place.offset) + u64::from(self.length);
        u64::from(self.place.section) * 0x1_0000_0000 + end.min(0x1_0000_0000)
    }

    // The same among the places of all sections.
    pub(crate) fn span(self) -> Span
        ensures start { result.start ≡ start_of self }
        ensures end { result.end ≡ end_of self }
        ensures owner { result.owner ≡ self.payload }
    {
        Span {
            start: self.start(),
            end: self.end(),
            owner: self.payload,
        }
    }
}

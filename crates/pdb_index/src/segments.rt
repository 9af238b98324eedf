//! Segments: the places of addresses.

ghost use Rattle.std.specs.Prelude.{◌≡◌, ◌+◌, ◌*◌, ◌<◌, ◌≤◌};
ghost use Rattle.pdb_index.specs.IndexLayout.{start_of};
ghost use Rattle.pdb_index.specs.Segments.{IsPlaceOf, place_in as place_there};

use crate::cells::word;
use crate::index::Index;
use crate::search::last_upto;
use pdb_base::Steps;

/// A place in the image.
#[derive(Clone, Copy, Debug, PartialEq, Eq)]
pub struct Place {
    /// The number of the section, counted from 1.
    pub section: u16,
    /// The offset in the section.
    pub offset: u32,
}

/// The place of an address in a segment that begins at or before it; `None` where the segment names no section of an
/// image.
#[tactic(auto, unfolding(crate::specs::Segments::place_in))]
fn place_in(index: &Index<'_>, segment: u32, address: u32) -> Option<Option<Place>>
    requires there { segment < index.now.layout.segments.rows }
    requires begins { start_of index.now.bytes.now index.now.layout.segments segment ≤ address }
    ensures { result ≡ place_there index.now.bytes.now index.now.layout segment address }
{
    let segments = index.layout.segments;
    let start = word(index.bytes, segments, segment, 0);
    let section = u16::try_from(word(index.bytes, segments, segment, 4)).ok()?;
    if section == 0 {
        return Some(None);
    }
    let offset = word(index.bytes, segments, segment, 8).wrapping_add(address - start);
    Some(Some(Place { section, offset }))
}

/// The place of an address; `None` where the index is damaged.
pub(crate) fn find_place(
    index: &Index<'_>,
    address: u32,
    looks: &mut Steps,
) -> Option<Option<Place>>
    ensures place { IsPlaceOf index.now.bytes.now index.now.layout address result }
    ensures few { looks.new.count ≤ looks.old.count + 32 }
{
    let segments = index.layout.segments;
    let segment = last_upto(
        index.bytes,
        segments,
        0,
        segments.rows as u32,
        address,
        looks,
    )?;
    place_in(index, segment, address)
}

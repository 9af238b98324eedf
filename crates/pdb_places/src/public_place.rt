//! The place of a public symbol.

ghost use Rattle.std.specs.Prelude.{◌≡◌, ◌<◌, ◌^◌};

use crate::range::order_of;
use pdb::PdbInternalSectionOffset;

/// Where a public symbol stands, and its symbol's index.
#[derive(Clone, Copy)]
pub(crate) struct PublicPlace {
    pub(crate) place: PdbInternalSectionOffset,
    pub(crate) index: u32,
    ghost place_fits: { place.offset < 2 ^ 32 },
    ghost index_fits: { index < 2 ^ 32 },
}

impl PublicPlace {
    ghost use Rattle.pdb_places.specs.PublicTable.{key_of};

    pub(crate) fn new(place: PdbInternalSectionOffset, index: u32) -> Self
        ensures place { result.place ≡ place }
        ensures index { result.index ≡ index }
    {
        PublicPlace { place, index }
    }

    // Its number in the order of public symbols: by their places, and at one place those with a greater index first.
    pub(crate) fn key(self) -> u128
        ensures { result ≡ key_of self }
    {
        u128::from(order_of(self.place)) * 0x1_0000_0000 + u128::from(0xffff_ffff - self.index)
    }
}

//! The addresses of places.

ghost use Rattle.std.specs.Prelude.{◌≡◌, ◌+◌, ◌<◌, ◌^◌, ℕ, IsTrue, IfSome, ◌↔◌, option_copied};
ghost use Rattle.std.specs.Option.{option_map};
ghost use Rattle.pdb_places.specs.AddressPlaces.{pairs_of_table, Rises, translated};
ghost use Rattle.pdb_places.specs.PlaceAddresses.{address_among, address_for, address_inside, as_address, back_pairs_of, back_through, section_numbered};

use crate::address_places::through;
use crate::pairs::rises;
use pdb::{AddressMap, ImageSectionHeader, OMAPTable, PdbInternalSectionOffset, Steps};
use std::marker::Model;

/// What is known of the addresses of an image, by which places have theirs: the original sections, and the table back
/// from their addresses where the image was rearranged. A contract sees it as the file's address map, where that is
/// known.
#[derive(Drop)]
pub struct PlaceAddresses<'s> {
    map: Option<AddressMap<'s>>,
    // Whether no pair of the table begins before an earlier one.
    rises: bool,
}

impl<'s> Model for PlaceAddresses<'s> {
    ghost use Rattle.std.specs.Prelude.{Option, IsTrue, ◌↔◌};
    ghost use Rattle.pdb.specs.Tables.{Addresses};
    ghost use Rattle.pdb_places.specs.AddressPlaces.{Rises};
    ghost use Rattle.pdb_places.specs.PlaceAddresses.{back_pairs_of};

    ghost Value = { Option Addresses };

    ghost view = { λ p. p.map };

    ghost invariant = { λ p. IsTrue p.rises ↔ Rises (back_pairs_of p.map) };
}

/// Whether no pair of the table back begins before an earlier one.
fn back_rises(map: &Option<AddressMap<'_>>) -> bool
    ensures { IsTrue result ↔ Rises (back_pairs_of map.now) }
{
    match map {
        Some(map) => match map.omap_from_src() {
            Some(table) => rises(table.stream().as_slice()),
            None => true,
        },
        None => true,
    }
}

/// The section of a number, counted from 1.
fn section_numbered(sections: &[ImageSectionHeader], number: u16) -> Option<ImageSectionHeader>
    ensures { result ≡ section_numbered sections.now number }
{
    let before = number.checked_sub(1)?;
    sections.get(usize::from(before)).copied()
}

/// The address of an offset in a section, where the section has it.
fn address_inside(section: &ImageSectionHeader, offset: u32) -> Option<u64>
    ensures address { result ≡ address_inside offset section.now }
    ensures small { IfSome result (λ r. r < 2 ^ 33) }
{
    if offset < section.virtual_size {
        Some(u64::from(section.virtual_address) + u64::from(offset))
    } else {
        None
    }
}

/// The address of a place among sections.
fn address_among(sections: &[ImageSectionHeader], place: PdbInternalSectionOffset) -> Option<u64>
    ensures address { result ≡ address_among sections.now place }
    ensures small { IfSome result (λ r. r < 2 ^ 33) }
{
    let section = section_numbered(sections, place.section)?;
    address_inside(&section, place.offset)
}

/// An address that has four bytes.
fn as_address(address: u64) -> Option<u32>
    ensures { result ≡ as_address address }
{
    if address < 0x1_0000_0000 {
        Some(address as u32)
    } else {
        None
    }
}

/// Back through a table, where there is one.
fn back_through(table: Option<&OMAPTable<'_>>, rises: bool, address: u64) -> Option<u32>
    requires pairs { IsTrue rises ↔ Rises (pairs_of_table (option_map (λ t. t.now) table)) }
    requires small { address < 2 ^ 33 }
    ensures { result ≡ back_through (option_map (λ t. t.now) table.entry) address }
{
    as_address(through(table, rises, address, &mut Steps::new())?)
}

impl<'s> PlaceAddresses<'s> {
    /// The addresses by a file's address map; without one no place has an address. The table's pairs are read once, and
    /// no memory is taken.
    pub fn new(map: Option<AddressMap<'s>>) -> Self
        ensures { result ≡ map.entry }
    {
        let rises = back_rises(&map);
        PlaceAddresses { map, rises }
    }

    /// The relative virtual address of a place: its section's address and its offset, led on by the last listed pair at
    /// or before that where the image was rearranged. None where there is no such section, where the offset is not
    /// below its size in memory, where no pair leads on, and where the address would need more than four bytes. It
    /// takes no memory.
    #[tactic(auto, unfolding(crate::specs::PlaceAddresses::address_in))]
    pub fn address(&self, place: PdbInternalSectionOffset) -> Option<u32>
        ensures { result ≡ address_for self.now place }
    {
        let map = self.map.as_ref()?;
        let address = address_among(map.original_sections(), place)?;
        back_through(map.omap_from_src(), self.rises, address)
    }
}

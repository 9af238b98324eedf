//! The places of addresses.

ghost use Rattle.std.specs.Prelude.{◌≡◌, ◌+◌, ◌≤◌, ◌<◌, ◌^◌, ℕ, length, IfOk, IfErr, IsTrue, ◌↔◌};
ghost use Rattle.std.specs.Option.{option_map};
ghost use Rattle.pdb_places.specs.AddressPlaces.{pairs_of, pairs_of_table, sections_of, Rises, translated, place_for};
ghost use Rattle.pdb_places.specs.PaintedSections.{AreSectionCuts};

use crate::painted::Cut;
use crate::pairs::{rises, translate};
use crate::sections::{paint_sections, place_among};
use pdb::{AddressMap, Error, OMAPTable, PdbInternalSectionOffset, Result, Steps};
use std::alloc::Global;
use std::marker::Model;

/// What is known of the addresses of an image, of which the places are found: the original sections, and the table to
/// their addresses where the image was rearranged. A contract sees it as the file's address map, where that is known.
#[derive(Drop)]
pub struct AddressPlaces<'s> {
    map: Option<AddressMap<'s>>,
    // Whether no pair of the table begins before an earlier one.
    rises: bool,
    // The cuts of the original sections, between which one of them has all addresses.
    cuts: Vec<Cut>,
}

impl<'s> Model for AddressPlaces<'s> {
    ghost use Rattle.std.specs.Prelude.{Option, IsTrue, ◌↔◌};
    ghost use Rattle.pdb.specs.Tables.{Addresses};
    ghost use Rattle.pdb_places.specs.AddressPlaces.{pairs_of, sections_of, Rises};
    ghost use Rattle.pdb_places.specs.PaintedSections.{AreSectionCuts};

    ghost Value = { Option Addresses };

    ghost view = { λ p. p.map };

    ghost invariant = { λ p. (IsTrue p.rises ↔ Rises (pairs_of p.map)) × AreSectionCuts (sections_of p.map) p.cuts.items };
}

/// Whether no pair of a map's table begins before an earlier one.
fn map_rises(map: &Option<AddressMap<'_>>) -> bool
    ensures { IsTrue result ↔ Rises (pairs_of map.now) }
{
    match map {
        Some(map) => match map.omap_to_src() {
            Some(table) => rises(table.stream().as_slice()),
            None => true,
        },
        None => true,
    }
}

/// The cuts of a map's original sections; none without a map.
fn map_cuts(alloc: Global, map: &Option<AddressMap<'_>>) -> Result<Vec<Cut>>
    ensures cuts { IfOk result (λ cuts. AreSectionCuts (sections_of map.now) cuts.items) }
    ensures refused { IfErr result (λ e. e ≡ Error.OutOfMemory) }
{
    match map {
        Some(map) => paint_sections(alloc, map.original_sections()),
        None => paint_sections(alloc, &[]),
    }
}

/// Where an address goes by a table, where there is one.
pub(crate) fn through(
    table: Option<&OMAPTable<'_>>,
    rises: bool,
    address: u64,
    steps: &mut Steps,
) -> Option<u64>
    requires pairs { IsTrue rises ↔ Rises (pairs_of_table (option_map (λ t. t.now) table)) }
    requires small { address < 2 ^ 33 }
    ensures moved { result ≡ translated address (option_map (λ t. t.now) table.entry) }
    ensures halved { Rises (pairs_of_table (option_map (λ t. t.now) table.entry)) → (digits : ℕ) → length (pairs_of_table (option_map (λ t. t.now) table.entry)) < 2 ^ digits → steps.new.count ≤ steps.old.count + digits }
    ensures few { steps.new.count ≤ steps.old.count + length (pairs_of_table (option_map (λ t. t.now) table.entry)) }
{
    match table {
        Some(table) => translate(table.stream().as_slice(), rises, address, steps),
        None => Some(address),
    }
}

impl<'s> AddressPlaces<'s> {
    /// The places by a file's address map; without one no address has a place. The table's pairs and the sections are
    /// read once. It fails with out of memory alone.
    pub fn new(alloc: Global, map: Option<AddressMap<'s>>) -> Result<Self>
        ensures is { IfOk result (λ places. places ≡ map.entry) }
        ensures refused { IfErr result (λ e. e ≡ Error.OutOfMemory) }
    {
        let rises = map_rises(&map);
        let cuts = map_cuts(alloc, &map)?;
        Ok(AddressPlaces { map, rises, cuts })
    }

    /// The place of an address, as `place`, with a step for each look at a pair of the table or at a section. Where no
    /// pair begins before an earlier one there are at most as many looks at pairs as their number has binary digits,
    /// and never more than there are pairs; and of looks at sections at most one more than their number has binary
    /// digits, and never more than there are sections.
    pub fn place_counted(&self, address: u32, steps: &mut Steps) -> Option<PdbInternalSectionOffset>
        ensures place { result ≡ place_for self.now address }
        ensures halved { Rises (pairs_of self.now) → (digits : ℕ) → length (pairs_of self.now) < 2 ^ digits
            → steps.new.count ≤ steps.old.count + digits + length (sections_of self.now) }
        ensures few { steps.new.count ≤ steps.old.count + length (pairs_of self.now) + length (sections_of self.now) }
        ensures soon { (digits : ℕ) → length (sections_of self.now) < 2 ^ digits → steps.new.count ≤ steps.old.count + length (pairs_of self.now) + digits + 1 }
    {
        let Some(map) = &self.map else {
            return None;
        };
        match through(map.omap_to_src(), self.rises, u64::from(address), steps) {
            Some(at) => place_among(map.original_sections(), self.cuts.as_slice(), at, steps),
            None => None,
        }
    }

    /// The section and the offset in which a relative virtual address lies: the last listed pair at or before the
    /// address leads to an address of the image before it was rearranged, and the first original section that has that
    /// one counts. None where the pair drops the address, where there is no such pair or section, and in a section
    /// whose number isn't below 65536. It takes no memory.
    pub fn place(&self, address: u32) -> Option<PdbInternalSectionOffset>
        ensures { result ≡ place_for self.now address }
    {
        self.place_counted(address, &mut Steps::new())
    }
}

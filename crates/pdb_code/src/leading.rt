//! The jumps that a linker makes, by their sections.

ghost use Rattle.std.specs.Prelude.{◌≡◌, ◌==◌, ℕ, List, Some, if◌then◌else◌, IfOk, IfErr, OnOk};
ghost use Rattle.std.specs.Ordering.{nat_cmp};
ghost use Rattle.std.specs.BTreeMap.{get};
ghost use Rattle.pdb_code.specs.Kept.{AreLeastOf};
ghost use Rattle.pdb_code.specs.ModuleCode.{lesser};

use pdb::{Error, PdbInternalSectionOffset, Result, TrampolineType};
use pdb_places::range::CodeRange;
use std::alloc::Global;
use std::collections::BTreeMap;

/// A jump that a linker made: what for, where its code begins, how far that is behind the first of its section, and
/// where it leads.
#[derive(Clone, Copy)]
pub struct Leading {
    pub kind: TrampolineType,
    pub place: PdbInternalSectionOffset,
    pub number: u32,
    pub target: PdbInternalSectionOffset,
}

/// One more place of a section.
fn lower(least: &mut BTreeMap<u16, u32>, place: PdbInternalSectionOffset) -> Result<()>
    ensures lowered { OnOk result ((s : ℕ) → get nat_cmp least.new s ≡ (if place.section == s then Some (lesser place.offset (get nat_cmp least.old s)) else get nat_cmp least.old s)) }
    ensures refused { IfErr result (λ e. e ≡ Error.OutOfMemory) }
{
    let first = match least.get(&place.section) {
        Some(first) if *first < place.offset => *first,
        _ => place.offset,
    };
    least.insert(place.section, first)?;
    Ok(())
}

/// The least offset of ranges in each section.
pub fn least_of(alloc: Global, ranges: &[CodeRange]) -> Result<BTreeMap<u16, u32>>
    ensures least { IfOk result (λ least. AreLeastOf ranges.now least) }
    ensures refused { IfErr result (λ e. e ≡ Error.OutOfMemory) }
{
    let mut least = BTreeMap::new(alloc);
    for range in ranges {
        lower(&mut least, range.place)?;
    }
    Ok(least)
}

//! The search by halving among subsections that stand in their order.

ghost use Rattle.std.specs.Prelude.{◌≡◌, ℕ, true, false, ◌+◌, ◌-◌, ◌^◌, ◌<◌, ◌≤◌, length, slice_index_or};
ghost use Rattle.pdb_modules.specs.Lines.{Subsection};
ghost use Rattle.pdb_modules.specs.LineOrder.{order_of, is_upto, InOrder};
ghost use Rattle.pdb_modules.specs.LineProgram.{listed_subsections};

use crate::line_program::Listed;
use pdb_base::{PdbInternalSectionOffset, Steps};

/// The rank of a section's offset among those of all sections.
pub(crate) fn order_of(place: PdbInternalSectionOffset) -> u64
    ensures { result ≡ order_of place }
{
    u64::from(place.section) * 0x1_0000_0000 + u64::from(place.offset)
}

/// How a place stands to another one.
#[derive(Clone, Copy)]
pub enum Standing {
    /// In an earlier section.
    Earlier,
    /// In the same section, there or before it.
    Upto,
    /// Behind it.
    Behind,
}

/// How `place` stands to `other`: one comparison.
fn stands_to(place: PdbInternalSectionOffset, other: PdbInternalSectionOffset) -> Standing
    ensures earlier { result ≡ Standing.Earlier → (is_upto place other ≡ true) × (place.section ≡ other.section → ⊥) }
    ensures upto { result ≡ Standing.Upto → (is_upto place other ≡ true) × (place.section ≡ other.section) }
    ensures behind { result ≡ Standing.Behind → is_upto place other ≡ false }
{
    if order_of(place) > order_of(other) {
        Standing::Behind
    } else if place.section == other.section {
        Standing::Upto
    } else {
        Standing::Earlier
    }
}

/// How many subsections stand at or before a place, and whether the last of them lies in its section.
#[derive(Clone, Copy)]
pub struct Upto {
    pub(crate) count: usize,
    pub(crate) in_section: bool,
}

/// How many subsections stand at or before a place. It takes a step for each comparison with one of them.
pub(crate) fn count_upto(
    listed: &[Listed<'_>],
    place: PdbInternalSectionOffset,
    steps: &mut Steps,
) -> Upto
    requires { InOrder (listed_subsections listed.now) }
    ensures inside { result.count ≤ length listed.now }
    ensures below { (k : ℕ) (d : Subsection) → k < result.count → is_upto (slice_index_or (listed_subsections listed.now) k d).place place ≡ true }
    ensures above { (k : ℕ) (d : Subsection) → result.count ≤ k → k < length listed.now → is_upto (slice_index_or (listed_subsections listed.now) k d).place place ≡ false }
    ensures here { result.in_section ≡ true → (d : Subsection) → 0 < result.count → (slice_index_or (listed_subsections listed.now) (result.count - 1) d).place.section ≡ place.section }
    ensures elsewhere { result.in_section ≡ false → (d : Subsection) → 0 < result.count → (slice_index_or (listed_subsections listed.now) (result.count - 1) d).place.section ≡ place.section → ⊥ }
    ensures probes { (digits : ℕ) → length listed.now < 2 ^ digits → steps.new.count ≤ steps.old.count + digits }
    ensures grows { steps.old.count ≤ steps.new.count }
    ensures asks { 0 < length listed.now → steps.old.count < steps.new.count }
{
    let mut low = 0;
    let mut high = listed.len();
    let mut in_section = false;
    while low < high {
        let middle = low + (high - low) / 2;
        steps.tick();
        match stands_to(listed[middle].place(), place) {
            Standing::Behind => high = middle,
            Standing::Upto => {
                low = middle + 1;
                in_section = true;
            }
            Standing::Earlier => {
                low = middle + 1;
                in_section = false;
            }
        }
    }
    Upto {
        count: low,
        in_section,
    }
}

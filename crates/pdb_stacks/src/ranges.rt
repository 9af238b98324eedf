//! The ranges of addresses that modules have in a process.

ghost use Rattle.std.specs.Prelude.{◌≡◌, IfOk, OnOk};
ghost use Rattle.pdb_stacks.specs.ModuleRanges.{has, others, overlap, overlaps_any, range_of, with_range};

use std::alloc::{AllocError, Global};

/// The range of a module.
#[derive(Clone, Copy, Debug, PartialEq, Eq)]
pub struct ModuleRange {
    /// The module's load address.
    pub start: u64,
    /// Its size in bytes.
    pub size: u64,
    /// Which module it is, as the caller counts them.
    pub module: usize,
}

impl ModuleRange {
    /// Whether the range has an address.
    pub fn has(self, address: u64) -> bool
        ensures { result ≡ has self address }
    {
        self.start <= address && address - self.start < self.size
    }

    /// Whether it has an address that another one has.
    fn overlaps(self, other: ModuleRange) -> bool
        ensures { result ≡ overlap self other }
    {
        self.has(other.start) || other.has(self.start)
    }
}

/// Whether one of some ranges overlaps another one.
fn overlaps_any(ranges: &[ModuleRange], new: ModuleRange) -> bool
    ensures { result ≡ overlaps_any new ranges.now }
{
    for range in ranges {
        if range.overlaps(new) {
            return true;
        }
    }
    false
}

/// The ranges that another one doesn't overlap.
fn kept_ranges(
    alloc: Global,
    ranges: &[ModuleRange],
    new: ModuleRange,
) -> Result<Vec<ModuleRange>, AllocError>
    ensures { IfOk result (λ kept. kept.items ≡ others new ranges.now) }
{
    let mut kept = Vec::new(alloc);
    for range in ranges {
        if !range.overlaps(new) {
            kept.push(*range)?;
        }
    }
    Ok(kept)
}

/// Removes the ranges that another one overlaps, which mostly are none.
fn remove_overlapped(ranges: &mut Vec<ModuleRange>, new: ModuleRange) -> Result<(), AllocError>
    ensures { OnOk result (ranges.new.items ≡ others new ranges.old.items) }
{
    if overlaps_any(ranges, new) {
        *ranges = kept_ranges(*ranges.allocator(), ranges, new)?;
    }
    Ok(())
}

/// Adds a range, which replaces those that it overlaps. There are 4,096 at most: a further one is passed over.
pub fn add_range(ranges: &mut Vec<ModuleRange>, new: ModuleRange) -> Result<(), AllocError>
    ensures { OnOk result (ranges.new.items ≡ with_range ranges.old.items new) }
{
    remove_overlapped(ranges, new)?;
    if ranges.len() < 4096 {
        ranges.push(new)?;
    }
    Ok(())
}

/// The range that has an address.
pub fn range_of(ranges: &[ModuleRange], address: u64) -> Option<ModuleRange>
    ensures { result ≡ range_of ranges.now address }
{
    for range in ranges {
        if range.has(address) {
            return Some(*range);
        }
    }
    None
}

//! Ranges of code in the order in which they are listed, and the first that covers a place.

ghost use Rattle.std.specs.Prelude.{◌≡◌, ◌+◌, ◌≤◌, ◌<◌, ◌^◌, ℕ, filter, nat_lt, length, List, IfOk, IfErr, OnOk, IsTrue, ◌↔◌};
ghost use Rattle.pdb.specs.PdbInternalSectionOffset.{PdbInternalSectionOffset};
ghost use Rattle.pdb_places.specs.declared.range.CodeRange.{CodeRange};
ghost use Rattle.pdb_places.specs.RangeOrder.{Same, Goes, InOrder};
ghost use Rattle.pdb_places.specs.Covering.{payload_upto, covers, first_covering, AreApart};
ghost use Rattle.pdb_places.specs.Sorting.{has_bytes, IsSortOf};
ghost use Rattle.pdb_places.specs.Painting.{AreCuts};
ghost use Rattle.pdb_places.specs.PaintedRanges.{AreSpansOf, AreCutsOf};

use crate::painted::{Cut, find_painted, paint};
use crate::range::{CodeRange, bytes_cover, order_of};
use crate::span::Span;
use pdb::{Error, PdbInternalSectionOffset, Result, Steps};
use std::alloc::Global;
use std::marker::Model;

/// Those ranges that have bytes.
fn with_bytes(alloc: Global, rows: &[CodeRange]) -> Result<Vec<CodeRange>>
    ensures kept { IfOk result (λ kept. kept.items ≡ filter has_bytes rows.now) }
    ensures refused { IfErr result (λ e. e ≡ Error.OutOfMemory) }
{
    let Ok(mut kept) = Vec::with_capacity(alloc, rows.len()) else {
        return Err(Error::OutOfMemory);
    };
    for row in rows {
        if row.length > 0 {
            if kept.push(*row).is_err() {
                return Err(Error::OutOfMemory);
            }
        }
    }
    Ok(kept)
}

/// Sorts ranges by their places; those at one place stay in their order.
fn sort(ranges: &mut Vec<CodeRange>) -> Result<()>
    ensures sorted { OnOk result (IsSortOf ranges.old.items ranges.new.items) }
    ensures refused { IfErr result (λ e. e ≡ Error.OutOfMemory) }
{
    match ranges.sort_by_key(|range| range.start()) {
        Ok(()) => Ok(()),
        Err(_) => Err(Error::OutOfMemory),
    }
}

/// Whether both have the same bytes.
fn is_same(one: CodeRange, other: CodeRange) -> bool
    ensures { IsTrue result ↔ Same one other }
{
    one.place.section == other.place.section
        && one.place.offset == other.place.offset
        && one.length == other.length
}

/// Whether a range ends before the next one begins, or has the same bytes.
fn goes_on(one: CodeRange, next: CodeRange) -> bool
    ensures { IsTrue result ↔ Goes one next }
{
    is_same(one, next) || one.end() <= next.start()
}

/// Whether each range ends before the next ones begin, or has the same bytes.
fn is_in_order(ranges: &[CodeRange]) -> bool
    ensures { IsTrue result ↔ InOrder ranges.now }
{
    for i in 1..ranges.len() {
        if !goes_on(ranges[i - 1], ranges[i]) {
            return false;
        }
    }
    true
}

/// Whether a range covers a place.
pub(crate) fn covers(range: CodeRange, place: PdbInternalSectionOffset) -> bool
    ensures { result ≡ covers place range }
{
    bytes_cover(place, range.place, range.length)
}

/// What stands for a range, where it begins at or before a place.
fn payload_upto(at: u64, range: CodeRange) -> Option<u32>
    ensures { result ≡ payload_upto at range }
{
    if range.start() <= at {
        Some(range.payload)
    } else {
        None
    }
}

/// What stands for the first range that covers a place, where ranges stand in order. They are searched by halving, and
/// each look at a range takes a step.
fn halve(ranges: &[CodeRange], place: PdbInternalSectionOffset, steps: &mut Steps) -> Option<u32>
    requires { InOrder ranges.now }
    ensures found { result ≡ first_covering place ranges.now }
    ensures probes { (digits : ℕ) → length ranges.now < 2 ^ digits → steps.new.count ≤ steps.old.count + digits }
{
    let at = order_of(place);
    let mut low = 0;
    let mut high = ranges.len();
    let mut found = None;
    while low < high {
        let middle = low + (high - low) / 2;
        steps.tick();
        let range = ranges[middle];
        if range.end() <= at {
            low = middle + 1;
        } else {
            high = middle;
            found = payload_upto(at, range);
        }
    }
    found
}

/// The spans of ranges among the places of all sections.
fn spans_of(alloc: Global, ranges: &[CodeRange]) -> Result<Vec<Span>>
    ensures spans { IfOk result (λ spans. AreSpansOf ranges.now spans.items) }
    ensures refused { IfErr result (λ e. e ≡ Error.OutOfMemory) }
{
    let mut spans = Vec::with_capacity(alloc, ranges.len())?;
    for range in ranges {
        spans.push(range.span())?;
    }
    Ok(spans)
}

/// The cuts of ranges, between which one of them stands.
fn paint_ranges(alloc: Global, ranges: &[CodeRange]) -> Result<Vec<Cut>>
    ensures cuts { IfOk result (λ cuts. AreCutsOf ranges.now cuts.items) }
    ensures refused { IfErr result (λ e. e ≡ Error.OutOfMemory) }
{
    let spans = spans_of(alloc, ranges)?;
    paint(alloc, spans.as_slice())
}

/// What stands for the first listed range that covers a place, by the cuts of the ranges.
fn find_cut(cuts: &[Cut], place: PdbInternalSectionOffset, steps: &mut Steps) -> Option<u32>
    requires { AreCuts cuts.now }
    ensures found { (rs : List CodeRange) → AreCutsOf rs cuts.now → result ≡ first_covering place rs }
    ensures probes { (digits : ℕ) → length cuts.now ≤ 2 ^ digits → steps.new.count ≤ steps.old.count + digits }
{
    let at = order_of(place);
    find_painted(cuts, at, steps)
}

/// Ranges of code, of which the first listed one is found that covers a place. A contract sees them as a list.
#[derive(Drop)]
pub struct Ranges {
    ranges: Vec<CodeRange>,
    // Whether each ends before the next ones begin, or has the same bytes.
    in_order: bool,
    // Where they don't, the cuts between which one of them stands.
    cuts: Vec<Cut>,
}

impl Model for Ranges {
    ghost use Rattle.std.specs.Prelude.{List, IsTrue, ◌↔◌, ◌≡◌, false};
    ghost use Rattle.pdb_places.specs.declared.range.CodeRange.{CodeRange};
    ghost use Rattle.pdb_places.specs.RangeOrder.{InOrder};
    ghost use Rattle.pdb_places.specs.PaintedRanges.{AreCutsOf};

    ghost Value = { List CodeRange };

    ghost view = { λ x. x.ranges.items };

    ghost invariant = { λ x. (IsTrue x.in_order ↔ InOrder x.ranges.items) × (x.in_order ≡ false → AreCutsOf x.ranges.items x.cuts.items) };
}

impl Ranges {
    // These ranges, whichever overlap.
    fn of(alloc: Global, ranges: Vec<CodeRange>) -> Result<Self>
        ensures is { IfOk result (λ x. x ≡ ranges.items) }
        ensures refused { IfErr result (λ e. e ≡ Error.OutOfMemory) }
    {
        let in_order = is_in_order(ranges.as_slice());
        let cuts = paint_ranges(alloc, ranges.as_slice())?;
        Ok(Ranges {
            ranges,
            in_order,
            cuts,
        })
    }

    /// The ranges that are listed in `rows`. It fails with out of memory alone.
    pub fn new(alloc: Global, rows: &[CodeRange]) -> Result<Self>
        // What is found at a place is what stands for the first listed range that covers it.
        ensures same { IfOk result (λ ranges. (q : PdbInternalSectionOffset) → first_covering q ranges ≡ first_covering q rows.now) }
        // Where any two have the same bytes, or none in common, they are kept in order.
        ensures apart { IfOk result (λ ranges. AreApart rows.now → InOrder ranges) }
        ensures few { IfOk result (λ ranges. length ranges ≤ length rows.now) }
        ensures refused { IfErr result (λ e. e ≡ Error.OutOfMemory) }
    {
        let mut sorted = with_bytes(alloc, rows)?;
        sort(&mut sorted)?;
        if is_in_order(sorted.as_slice()) {
            return Ok(Ranges {
                ranges: sorted,
                in_order: true,
                cuts: Vec::new(alloc),
            });
        }
        Ranges::of(alloc, with_bytes(alloc, rows)?)
    }

    /// What stands for the first range that covers a place, with a step for each look at a range. There is at most one
    /// look more than the number of ranges has binary digits, none more where they are in order, and never more than
    /// there are ranges.
    pub fn find_counted(&self, place: PdbInternalSectionOffset, steps: &mut Steps) -> Option<u32>
        ensures found { result ≡ first_covering place self.now }
        ensures halved { InOrder self.now → (digits : ℕ) → length self.now < 2 ^ digits → steps.new.count ≤ steps.old.count + digits }
        ensures soon { (digits : ℕ) → length self.now < 2 ^ digits → steps.new.count ≤ steps.old.count + digits + 1 }
        ensures few { steps.new.count ≤ steps.old.count + length self.now }
    {
        if self.in_order {
            halve(self.ranges.as_slice(), place, steps)
        } else {
            find_cut(self.cuts.as_slice(), place, steps)
        }
    }

    /// What stands for the first range that covers a place. It takes no memory.
    pub fn find(&self, place: PdbInternalSectionOffset) -> Option<u32>
        ensures { result ≡ first_covering place self.now }
    {
        self.find_counted(place, &mut Steps::new())
    }
}

//! Address ranges, and lists of gaps and of numbers that are borrowed.

ghost use Rattle.std.specs.Prelude.{◌≡◌, ◌==◌, ◌<◌, ◌≤◌, ◌+◌, ◌^◌, length};
ghost use Rattle.pdb_records.specs.RecordFlags.{relation_of};
ghost use Rattle.pdb_records.specs.RecordLists.{gap_at, gaps_of, number_of_four, numbers_of, whole_items};

use pdb_base::little_endian::{u16_at, u32_at};
use pdb_base::{FallibleIterator, PdbInternalSectionOffset, Result};

// How many bytes a gap has.
const GAP_BYTES: usize = 4;

/// An address range: `CV_LVAR_ADDR_RANGE` of `cvinfo.h`.
#[derive(Clone, Copy, Debug, Eq, PartialEq)]
pub struct AddressRange {
    /// Where the range starts.
    pub start: PdbInternalSectionOffset,
    /// The range's length, in bytes.
    pub len: u16,
}

/// A gap in an address range, in which the record doesn't hold: `CV_LVAR_ADDR_GAP` of `cvinfo.h`.
#[derive(Clone, Copy, Debug, Eq, PartialEq)]
pub struct AddressGap {
    /// Where the gap starts, counted in bytes from the range's start.
    pub start: u16,
    /// The gap's length, in bytes.
    pub len: u16,
}

// A gap of four bytes at an offset.
#[inline]
fn read_gap(bytes: &[u8], at: usize) -> AddressGap
    requires { at + 4 ≤ length bytes.now }
    ensures { result ≡ gap_at bytes.now at }
{
    AddressGap {
        start: u16_at(bytes, at),
        len: u16_at(bytes, at + 2),
    }
}

// The bytes of the items of a size that are whole.
pub(crate) fn whole_items(bytes: &[u8], size: usize) -> &[u8]
    requires { 0 < size }
    ensures { result.now ≡ whole_items size bytes.now }
{
    let rest = bytes.len() % size;
    bytes.split_at(bytes.len() - rest).0
}

/// The gaps of an address range, as the record's bytes in which they stand.
#[derive(Clone, Copy, Debug)]
pub struct Gaps<'t> {
    bytes: &'t [u8],
}

/// Two lists are equal where they have the same gaps.
impl PartialEq for Gaps<'_> {
    ghost use Rattle.std.specs.Prelude.{nat_eq};
    ghost use Rattle.std.specs.Cmp.{on_per, partial_equiv_from_equiv};
    ghost use Rattle.std.specs.Cmp.Lexicographic.{nat_list_eq_equiv, pointwise};
    ghost use Rattle.pdb_records.specs.RecordViews.{whole_gaps};

    ghost eq = { λ a b. pointwise nat_eq (whole_gaps a) (whole_gaps b) };

    ghost laws = { on_per whole_gaps (partial_equiv_from_equiv nat_list_eq_equiv) };

    fn eq(&self, other: &Self) -> bool {
        whole_items(self.bytes, GAP_BYTES) == whole_items(other.bytes, GAP_BYTES)
    }
}

impl Eq for Gaps<'_> {
    ghost use Rattle.std.specs.Cmp.{on_equiv};
    ghost use Rattle.std.specs.Cmp.Lexicographic.{nat_list_eq_equiv};
    ghost use Rattle.pdb_records.specs.RecordViews.{whole_gaps};

    ghost laws = { on_equiv whole_gaps nat_list_eq_equiv };
}

impl<'t> Gaps<'t> {
    ghost use Rattle.std.specs.Prelude.{None};
    ghost use Rattle.pdb_records.specs.RecordViews.{gap_bytes, gaps_in, gaps_left};

    /// The gaps that stand in these bytes: as many as are whole, of four bytes each. Up to three bytes behind the
    /// last one mean nothing.
    pub fn new(bytes: &'t [u8]) -> Self
        ensures { gap_bytes result ≡ bytes.entry.now }
    {
        Gaps { bytes }
    }

    /// The number of gaps.
    #[tactic(auto, using(crate::proofs::ListSteps::items_all))]
    pub fn len(&self) -> usize
        ensures { result ≡ length (gaps_in self.now) }
    {
        self.bytes.len() / GAP_BYTES
    }

    /// Whether there is no gap.
    pub fn is_empty(&self) -> bool
        ensures { result ≡ (length (gaps_in self.now) == 0) }
    {
        self.len() == 0
    }

    /// The gaps, in order.
    pub fn iter(&self) -> GapsIter<'t>
        ensures { gaps_left result ≡ record { items = gaps_in self.now; fault = None } }
    {
        GapsIter {
            bytes: self.bytes,
            at: 0,
        }
    }
}

/// The gaps of a list, in order. This list has no error.
#[derive(Clone, Copy, Drop)]
pub struct GapsIter<'t> {
    bytes: &'t [u8],
    at: usize,
}

impl<'t> FallibleIterator for GapsIter<'t> {
    ghost use Rattle.std.specs.Prelude.{◌≢◌, IfErr, IsOk, None};
    ghost use Rattle.pdb_records.specs.RecordViews.{gaps_left};
    ghost use Rattle.pdb_base.specs.Left.{Yields};
    ghost use Rattle.pdb_base.specs.declared.error.Error.TheVariants.{IoError, OutOfMemory};
    ghost use Rattle.pdb_records.specs.declared.lists.AddressGap.{AddressGap};

    type Item = AddressGap;

    ghost Shown = { AddressGap };

    ghost shown = { λ gap. gap };

    ghost left = { gaps_left };

    #[tactic(auto, using(crate::proofs::ListSteps::items_few))]
    fn next(&mut self) -> Result<Option<AddressGap>>
        ensures yields { Yields (λ gap. gap) (gaps_left self.old) result (gaps_left self.new) }
        ensures few { length (gaps_left self.old).items < 2 ^ 64 }
        ensures refused { IfErr result (λ e. (e ≢ OutOfMemory) × (e ≢ IoError)) }
        // The list has no error.
        ensures ok { IsOk result }
    {
        if self.at >= self.bytes.len() / GAP_BYTES {
            return Ok(None);
        }
        let gap = read_gap(self.bytes, GAP_BYTES * self.at);
        self.at += 1;
        Ok(Some(gap))
    }
}

/// Numbers of four bytes, as the record's bytes in which they stand.
#[derive(Clone, Copy, Debug)]
pub struct Numbers<'t> {
    bytes: &'t [u8],
}

/// Two lists are equal where they have the same numbers.
impl PartialEq for Numbers<'_> {
    ghost use Rattle.std.specs.Prelude.{nat_eq};
    ghost use Rattle.std.specs.Cmp.{on_per, partial_equiv_from_equiv};
    ghost use Rattle.std.specs.Cmp.Lexicographic.{nat_list_eq_equiv, pointwise};
    ghost use Rattle.pdb_records.specs.RecordViews.{whole_numbers};

    ghost eq = { λ a b. pointwise nat_eq (whole_numbers a) (whole_numbers b) };

    ghost laws = { on_per whole_numbers (partial_equiv_from_equiv nat_list_eq_equiv) };

    fn eq(&self, other: &Self) -> bool {
        whole_items(self.bytes, 4) == whole_items(other.bytes, 4)
    }
}

impl Eq for Numbers<'_> {
    ghost use Rattle.std.specs.Cmp.{on_equiv};
    ghost use Rattle.std.specs.Cmp.Lexicographic.{nat_list_eq_equiv};
    ghost use Rattle.pdb_records.specs.RecordViews.{whole_numbers};

    ghost laws = { on_equiv whole_numbers nat_list_eq_equiv };
}

impl<'t> Numbers<'t> {
    ghost use Rattle.std.specs.Prelude.{None};
    ghost use Rattle.pdb_records.specs.RecordViews.{number_bytes, numbers_in_list, numbers_left};

    /// The numbers that stand in these bytes, the least byte first: as many as are whole. Up to three bytes behind
    /// the last one mean nothing.
    pub fn new(bytes: &'t [u8]) -> Self
        ensures { number_bytes result ≡ bytes.entry.now }
    {
        Numbers { bytes }
    }

    /// How many numbers there are.
    #[tactic(auto, using(crate::proofs::ListSteps::items_all))]
    pub fn len(&self) -> usize
        ensures { result ≡ length (numbers_in_list self.now) }
    {
        self.bytes.len() / 4
    }

    /// Whether there is no number.
    pub fn is_empty(&self) -> bool
        ensures { result ≡ (length (numbers_in_list self.now) == 0) }
    {
        self.len() == 0
    }

    /// The numbers, in order.
    pub fn iter(&self) -> NumbersIter<'t>
        ensures { numbers_left result ≡ record { items = numbers_in_list self.now; fault = None } }
    {
        NumbersIter {
            bytes: self.bytes,
            at: 0,
        }
    }
}

/// The numbers of a list, in order. This list has no error.
#[derive(Clone, Copy, Drop)]
pub struct NumbersIter<'t> {
    bytes: &'t [u8],
    at: usize,
}

impl<'t> FallibleIterator for NumbersIter<'t> {
    ghost use Rattle.std.specs.Prelude.{◌≢◌, IfErr, ℕ, IsOk, None};
    ghost use Rattle.pdb_records.specs.RecordViews.{numbers_left};
    ghost use Rattle.pdb_base.specs.Left.{Yields};
    ghost use Rattle.pdb_base.specs.declared.error.Error.TheVariants.{IoError, OutOfMemory};

    type Item = u32;

    ghost Shown = { ℕ };

    ghost shown = { λ n. n };

    ghost left = { numbers_left };

    #[tactic(auto, using(crate::proofs::ListSteps::items_few))]
    fn next(&mut self) -> Result<Option<u32>>
        ensures yields { Yields (λ n. n) (numbers_left self.old) result (numbers_left self.new) }
        ensures few { length (numbers_left self.old).items < 2 ^ 64 }
        ensures refused { IfErr result (λ e. (e ≢ OutOfMemory) × (e ≢ IoError)) }
        // The list has no error.
        ensures ok { IsOk result }
    {
        if self.at >= self.bytes.len() / 4 {
            return Ok(None);
        }
        let number = u32_at(self.bytes, 4 * self.at);
        self.at += 1;
        Ok(Some(number))
    }
}

/// How the functions of a list belong to the procedure in whose scope the list stands.
#[derive(Clone, Copy, Debug, Eq, PartialEq)]
pub enum Relation {
    /// The procedure calls them: `S_CALLEES` (0x115a).
    Callees,
    /// They call the procedure: `S_CALLERS` (0x115b).
    Callers,
    /// They are inlined in the procedure: `S_INLINEES` (0x1168).
    Inlinees,
}

impl Relation {
    // The relation that records of a kind have.
    #[inline]
    pub(crate) fn of(kind: u16) -> Self
        ensures { result ≡ relation_of kind }
    {
        match kind {
            0x115a => Relation::Callees,
            0x115b => Relation::Callers,
            _ => Relation::Inlinees,
        }
    }
}

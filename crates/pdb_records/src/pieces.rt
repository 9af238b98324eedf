//! The bytes of an address range that no gap has.

ghost use Rattle.std.specs.Prelude.{◌≡◌, ◌++◌, OnOk, min};
ghost use Rattle.std.specs.List.Sorted.{IsNonDecreasingBy, IsPermutation};
ghost use Rattle.pdb_records.specs.RangePieces.{end_in, pieces_of, run_between, runs_between};
ghost use Rattle.pdb_records.specs.RecordViews.{gaps_in, gaps_left};
ghost use Rattle.pdb_records.specs.PieceOrder.{start_of};

use crate::lists::{AddressGap, Gaps, GapsIter};
use pdb_base::FallibleIterator;
use std::alloc::{AllocError, Global};
use std::marker::Model;

/// A run of bytes of an address range that no gap has.
#[derive(Clone, Copy, Debug, Eq, PartialEq)]
pub struct Piece {
    /// Where it starts, counted in bytes from the range's start.
    pub start: u16,
    /// Its length, in bytes.
    pub len: u16,
}

/// Appends the gaps that an iterator has left.
fn push_gaps(sorted: &mut Vec<AddressGap>, mut gaps: GapsIter<'_>) -> Result<(), AllocError>
    ensures { OnOk result (sorted.new.items ≡ sorted.old.items ++ (gaps_left gaps.entry).items) }
{
    loop {
        match gaps.next() {
            Ok(Some(gap)) => sorted.push(gap)?,
            Ok(None) => return Ok(()),
            Err(_) => return Ok(()),
        }
    }
}

/// Sorts gaps by their starts.
fn sort(gaps: &mut Vec<AddressGap>) -> Result<(), AllocError>
    ensures rises { OnOk result (IsNonDecreasingBy start_of gaps.new.items) }
    ensures all { OnOk result (IsPermutation gaps.old.items gaps.new.items) }
{
    match gaps.sort_by_key(|gap| gap.start) {
        Ok(()) => Ok(()),
        Err(e) => Err(e),
    }
}

/// Appends the run from one byte up to another; nothing where it has no byte.
fn push_run(pieces: &mut Vec<Piece>, from: u16, to: u16) -> Result<(), AllocError>
    ensures { OnOk result (pieces.new.items ≡ pieces.old.items ++ run_between from to) }
{
    if from < to {
        pieces.push(Piece {
            start: from,
            len: to - from,
        })?;
    }
    Ok(())
}

/// Where a gap ends, no further than its range.
fn end_in(gap: AddressGap, len: u16) -> u16
    ensures { result ≡ end_in len gap }
{
    gap.start.saturating_add(gap.len).min(len)
}

/// Appends the runs of a range between gaps that are in the order of their starts.
fn push_runs(pieces: &mut Vec<Piece>, gaps: &[AddressGap], len: u16) -> Result<(), AllocError>
    ensures { OnOk result (pieces.new.items ≡ pieces.old.items ++ runs_between len 0 gaps.now) }
{
    let mut at = 0u16;
    for gap in gaps {
        if gap.len > 0 {
            push_run(pieces, at, gap.start.min(len))?;
            at = at.max(end_in(*gap, len));
        }
    }
    push_run(pieces, at, len)
}

/// The pieces of an address range: its longest runs of bytes that no gap has. Its memory is used again for the next
/// range. A contract sees it as the pieces that it has.
#[derive(Drop)]
pub struct Pieces {
    sorted: Vec<AddressGap>,
    found: Vec<Piece>,
}

impl Model for Pieces {
    ghost use Rattle.std.specs.Prelude.{List};
    ghost use Rattle.pdb_records.specs.declared.pieces.Piece.{Piece};

    ghost Value = { List Piece };

    ghost view = { λ p. p.found.items };
}

impl Pieces {
    ghost use Rattle.std.specs.Prelude.{[]};

    /// No pieces. It takes no memory.
    pub fn new(alloc: Global) -> Self
        ensures { result ≡ [] }
    {
        Pieces {
            sorted: Vec::new(alloc),
            found: Vec::new(alloc),
        }
    }

    /// Finds the pieces of a range of this length with these gaps, in place of those that it had. Gaps may overlap, and
    /// what a gap has behind the range's end counts for nothing.
    pub fn find(&mut self, len: u16, gaps: Gaps<'_>) -> Result<(), AllocError>
        ensures { OnOk result (self.new ≡ pieces_of len (gaps_in gaps.entry)) }
    {
        self.found.clear();
        self.sorted.clear();
        push_gaps(&mut self.sorted, gaps.iter())?;
        sort(&mut self.sorted)?;
        push_runs(&mut self.found, self.sorted.as_slice(), len)
    }

    /// The pieces, in the order of their starts.
    pub fn as_slice(&self) -> &[Piece]
        ensures { result.now ≡ self.now }
    {
        self.found.as_slice()
    }
}

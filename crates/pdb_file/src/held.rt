//! The bytes of a file that are held.

ghost use Rattle.std.specs.Prelude.{◌≡◌, ◌↔◌, ℕ, ◌+◌, ◌-◌, ◌<◌, ◌≤◌, ◌⊎◌, List, [], length, max, min, true, false, get_or, Bool, IfOk, IfErr, IfSome, IsSomeAnd, IsNone};
ghost use Rattle.std.specs.List.{All, AllWithin, Any};
ghost use Rattle.pdb_file.specs.HeldBytes.{Agrees, IsPart, IsRunOf, IsBefore, IsFree, IsKept, IsWith, HasByte, end_of};
ghost use Rattle.pdb_file.specs.declared.run.Run.{Run};

use crate::run::Run;
use std::alloc::{AllocError, Global};
use std::marker::Model;

/// How much of a file is read at once.
#[derive(Clone, Copy, Debug)]
pub(crate) struct Reach {
    /// How many bytes at least.
    pub(crate) least: u64,
    /// How far neighbours are apart at most that are read together.
    pub(crate) near: u64,
}

/// A file's size, and the runs of its bytes that are held. No byte is held twice.
#[derive(Drop)]
pub struct Held<'s> {
    size: u64,
    runs: Vec<Run<'s>>,
    // How many bytes are held. It only says how much is read at once.
    total: u64,
}

impl<'s> Model for Held<'s> {
    ghost use Rattle.pdb_file.specs.HeldBytes.{Kept, IsKept};

    ghost Value = { Kept };

    ghost view = { λ h. record { size = h.size; runs = h.runs.items } };

    ghost invariant = { λ h. IsKept (record { size = h.size; runs = h.runs.items }) };
}

/// Whether a run lies in a file of this size.
fn fits(size: u64, run: &Run<'_>) -> bool
    ensures { (result ≡ true) ↔ (end_of run.now ≤ size) }
{
    run.at <= size && run.bytes.len() as u64 <= size - run.at
}

/// Whether the one run ends before the other begins.
fn is_before(run: &Run<'_>, other: &Run<'_>) -> bool
    ensures { (result ≡ true) ↔ IsBefore run.now other.now }
{
    run.at <= other.at && run.bytes.len() as u64 <= other.at - run.at
}

/// Whether a run ends before the one with this index in the list begins, where there is one.
fn is_before_next(runs: &[Run<'_>], index: usize, run: &Run<'_>) -> bool
    ensures before { result ≡ true → (d : Run) → index < length runs.now → IsBefore run.now (get_or runs.now index d) }
    ensures reaches { result ≡ false → (index < length runs.now) × ((d : Run) → IsBefore run.now (get_or runs.now index d) → ⊥) }
{
    match runs.get(index) {
        Some(next) => is_before(run, next),
        None => true,
    }
}

/// Whether a run begins behind the end of the one before this index in the list, where there is one.
fn is_behind_last(runs: &[Run<'_>], index: usize, run: &Run<'_>) -> bool
    ensures behind { result ≡ true → (d : Run) → 0 < index → index ≤ length runs.now → IsBefore (get_or runs.now (index - 1) d) run.now }
    ensures reached { result ≡ false → (0 < index) × (index ≤ length runs.now) × ((d : Run) → IsBefore (get_or runs.now (index - 1) d) run.now → ⊥) }
{
    if index == 0 {
        return true;
    }
    match runs.get(index - 1) {
        Some(last) => is_before(last, run),
        None => true,
    }
}

/// The bytes of a run from an offset of the file on; none where there is none.
#[tactic(auto, using(crate::proofs::Parts::part_behind))]
fn behind<'s>(run: &Run<'s>, at: u64) -> Option<&'s [u8]>
    ensures part { (F : List ℕ) → IsRunOf F run.now → IfSome result (λ p. IsPart F at p.now) }
    ensures some { IfSome result (λ p. 0 < length p.now) }
    ensures found { HasByte at run.now → IsSomeAnd result (λ p. at + length p.now ≡ end_of run.now) }
    ensures held { IfSome result (λ p. (run.now.at ≤ at) × (at + length p.now ≡ end_of run.now)) }
{
    let skip = at.checked_sub(run.at)?;
    if skip >= run.bytes.len() as u64 {
        return None;
    }
    Some(run.bytes.split_at(skip as usize).1)
}

impl<'s> Held<'s> {
    /// A file of this size, of which nothing is held.
    pub fn new(alloc: Global, size: u64) -> Held<'s>
        ensures { result ≡ record { size = size; runs = [] } }
    {
        Held {
            size,
            runs: Vec::new(alloc),
            total: 0,
        }
    }

    /// How many bytes the file has. The runs that are held lie in it, in their order, and no byte is held twice.
    pub fn size(&self) -> u64
        ensures size { result ≡ self.now.size }
        ensures kept { IsKept self.now }
    {
        self.size
    }

    /// How many runs are held.
    pub fn count(&self) -> usize
        ensures { result ≡ length self.now.runs }
    {
        self.runs.len()
    }

    /// How many runs begin at or before an offset.
    fn before(&self, at: u64) -> usize
        ensures bound { result ≤ length self.now.runs }
        ensures front { AllWithin (λ r. r.at ≤ at) self.now.runs 0 result }
        ensures back { AllWithin (λ r. at < r.at) self.now.runs result (length self.now.runs) }
    {
        self.runs.partition_point(|run| run.at <= at)
    }

    /// The bytes that are held from an offset on, up to the end of their run; none where the byte there isn't held.
    pub fn from_place(&self, at: u64) -> Option<&'s [u8]>
        ensures part { (F : List ℕ) → Agrees F self.now → IfSome result (λ p. IsPart F at p.now) }
        ensures some { IfSome result (λ p. 0 < length p.now) }
        ensures found { (i : ℕ) → (d : Run) → i < length self.now.runs → HasByte at (get_or self.now.runs i d) → IsSomeAnd result (λ p. at + length p.now ≡ end_of (get_or self.now.runs i d)) }
        ensures held { IfSome result (λ p. Any (λ r. (r.at ≤ at) × (at + length p.now ≡ end_of r)) self.now.runs) }
    {
        let index = self.before(at).checked_sub(1)?;
        behind(self.runs.get(index)?, at)
    }

    /// Where the next run begins behind an offset, or this end where that comes first.
    pub fn next_place(&self, at: u64, end: u64) -> u64
        ensures most { result ≤ end }
        ensures least { All (λ r. at < r.at → result ≤ r.at) self.now.runs }
        ensures begins { (result ≡ end) ⊎ Any (λ r. (at < r.at) × (result ≡ r.at)) self.now.runs }
    {
        match self.runs.get(self.before(at)) {
            Some(run) => run.at.min(end),
            None => end,
        }
    }

    /// Where the last run ends that begins at or before an offset, or the offset where that comes first; 0 where there
    /// is none.
    fn end_before(&self, at: u64) -> u64
        ensures { result ≤ at }
    {
        let last = self.before(at).checked_sub(1);
        match last.and_then(|index| self.runs.get(index)) {
            Some(run) => run.at.saturating_add(run.bytes.len() as u64).min(at),
            None => 0,
        }
    }

    /// How much is read at once, by how many of the file's 64 parts are held: the gaps too where a text needs most of the
    /// file, and only what is asked for where little is left.
    ///
    /// The contract bounds it; how much it is, tests alone say.
    pub(crate) fn reach(&self) -> Reach
        ensures least { result.least ≤ 65536 }
        ensures near { result.near ≤ 163840 }
    {
        let (least, near) = match self.total / (self.size / 64 + 1) {
            0..=39 => (65_536, 49_152),
            40..=59 => (65_536, 163_840),
            60..=62 => (65_536, 12_288),
            _ => (0, 0),
        };
        Reach { least, near }
    }

    /// From which offset to which a part of the file is read. As many bytes more are read in front of the part as are held
    /// of it, up to `near`, so that parts in falling order don't take a read each. Once a quarter of the file is held, no
    /// gap of at most `near` bytes is left between the part and what is held beside it, or an end of the file.
    ///
    /// The contract bounds what is read more; that it is read, tests alone say.
    pub(crate) fn around(&self, from: u64, end: u64, near: u64) -> (u64, u64)
        ensures begins { result.0 ≤ from }
        ensures ends { end ≤ result.1 }
        ensures near { (from ≤ result.0 + near) × (result.1 ≤ end + near) }
        ensures inside { result.1 ≤ max end self.now.size }
    {
        if from >= end {
            return (from, end);
        }
        let last = self.end_before(from);
        let more = end - self.next_place(from, end);
        let begins = from - more.min(near).min(from - last);
        if self.total < self.size / 4 {
            return (begins, end);
        }
        let next = self.next_place(end, self.size);
        let is_near = next.saturating_sub(end) <= near && self.from_place(end).is_none();
        (
            if from - last <= near { last } else { begins },
            if is_near { next.max(end) } else { end },
        )
    }

    /// Holds a run, unless it has no byte, lies outside of the file, or a byte of it is held; returns whether it does.
    pub fn insert(&mut self, run: Run<'s>) -> Result<bool, AllocError>
        ensures exact { IfOk result (λ b. (b ≡ true) ↔ IsFree self.old run.entry) }
        ensures held { IfOk result (λ b. b ≡ true → IsWith self.old run.entry self.new) }
        ensures same { IfOk result (λ b. b ≡ false → self.new ≡ self.old) }
        ensures refused { IfErr result (λ _. self.new ≡ self.old) }
    {
        if run.bytes.is_empty() || !fits(self.size, &run) {
            return Ok(false);
        }
        let index = self.before(run.at);
        if !is_behind_last(&self.runs, index, &run) {
            return Ok(false);
        }
        if !is_before_next(&self.runs, index, &run) {
            return Ok(false);
        }
        let count = run.bytes.len() as u64;
        self.runs.insert(index, run)?;
        self.total = self.total.saturating_add(count);
        Ok(true)
    }
}

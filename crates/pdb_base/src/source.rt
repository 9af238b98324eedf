//! Where a file's bytes come from.

ghost use Rattle.std.specs.Prelude.{◌≡◌, ℕ, ◌+◌, ◌-◌, ◌^◌, ◌<◌, ◌≤◌, ◌↔◌, IsErrOf, List, length, min, true, false, IfOk, IsOk};
ghost use Rattle.std.specs.List.{list_all, flat_map, sum_by};
ghost use Rattle.pdb_base.specs.Refusal.{Gives};
ghost use Rattle.pdb_base.specs.Source.{State, Continues, MayFail, view_bytes, viewed, is_inside, slice_bytes, IsLent, in_memory};

use crate::error::{Error, Result};
use crate::part::append;
use std::alloc::{AllocError, Global};
use std::marker::Model;

/// A part of the file.
#[derive(Clone, Copy, Debug)]
pub struct SourceSlice {
    /// Where it begins in the file, in bytes.
    pub offset: u64,
    /// How many bytes it has.
    pub size: usize,
}

/// How many bytes slices have together, up to `usize::MAX`.
pub fn bytes_in(slices: &[SourceSlice]) -> usize
    ensures { result ≡ min (sum_by (λ s. s.size) slices.now) (2 ^ 64 - 1) }
{
    let mut size = 0usize;
    for slice in slices {
        size = size.saturating_add(slice.size);
    }
    size
}

/// Bytes of the file, borrowed or copied.
#[derive(Drop)]
pub enum View<'s> {
    /// Bytes borrowed from the source.
    Borrowed(&'s [u8]),
    /// A copy of bytes.
    Owned(Vec<u8>),
}

impl<'s> View<'s> {
    /// The bytes.
    pub fn as_slice(&self) -> &[u8]
        ensures { result.now ≡ view_bytes self.now }
    {
        match self {
            View::Borrowed(bytes) => bytes,
            View::Owned(bytes) => bytes.as_slice(),
        }
    }
}

/// What a source means: the bytes of the file, how many of its views failed so far, and whether it is steady, so
/// that none can. It stands apart from `Source`, since a type can keep facts only of a bound that names no lifetime.
pub trait Meaning: Drop {
    ghost state: { Self → State };
}

/// Where a file's bytes come from. No call changes the file that a source means.
pub trait Source<'s>: Meaning {
    /// The slices' bytes, one after the other. A slice past the file's end is `UnexpectedEof`, which comes before
    /// any other error and nowhere else. `IoError` comes only where the source isn't steady and `failures` rose in
    /// this call or stands at `u64::MAX`, and there every view inside the file is `IoError`. Else a view may want
    /// memory.
    fn view(&mut self, alloc: Global, slices: &[SourceSlice]) -> Result<View<'s>>
        ensures continues { Continues (Self.state self.old) (Self.state self.new) }
        ensures most { (Self.state self.new).failures < 2 ^ 64 }
        ensures failed { IsErrOf result Error.IoError → MayFail (Self.state self.old) (Self.state self.new) }
        ensures sized { IfOk result (λ v. length (view_bytes v) ≡ sum_by (λ s. s.size) slices.now) }
        ensures bytes { (Self.state self.new).told ≡ true → Gives view_bytes (MayFail (Self.state self.old) (Self.state self.new)) result (viewed (Self.state self.old).file slices.now) }
        ensures past { (Self.state self.new).told ≡ true → (IsErrOf result Error.UnexpectedEof ↔ (list_all (is_inside (Self.state self.old).file) slices.now ≡ false)) }
        ensures spent { (Self.state self.new).told ≡ true → (Self.state self.old).failures + 1 ≡ 2 ^ 64 → list_all (is_inside (Self.state self.old).file) slices.now ≡ true → IsErrOf result Error.IoError };

    /// How many views failed so far; it never falls, and stays at `u64::MAX`.
    fn failures(&self) -> u64
        ensures { result ≡ (Self.state self.now).failures };

    /// Whether no view can fail.
    fn steady(&self) -> bool
        ensures { result ≡ (Self.state self.now).steady };
}

/// A file in memory. It borrows one slice as it is, and copies several; its views never fail.
#[derive(Drop)]
pub struct MemorySource<'s> {
    bytes: &'s [u8],
}

impl<'s> Model for MemorySource<'s> {
    ghost use Rattle.std.specs.Prelude.{ℕ, List};

    ghost Value = { List ℕ };

    ghost view = { λ s. s.bytes.now };
}

impl<'s> MemorySource<'s> {
    /// The file of these bytes.
    pub fn new(bytes: &'s [u8]) -> Self
        ensures { result ≡ bytes.now }
    {
        MemorySource { bytes }
    }
}

fn all_inside(bytes: &[u8], slices: &[SourceSlice]) -> bool
    ensures { result ≡ list_all (is_inside bytes.now) slices.now }
{
    let len = bytes.len() as u64;
    slices
        .iter()
        .all(|s| s.offset <= len && s.size as u64 <= len - s.offset)
}

fn part<'b>(bytes: &'b [u8], s: SourceSlice) -> &'b [u8]
    requires { is_inside bytes.now s ≡ true }
    ensures { result.now ≡ slice_bytes bytes.now s }
{
    let start = s.offset as usize;
    &bytes[start..start + s.size]
}

fn copied(
    alloc: Global,
    bytes: &[u8],
    slices: &[SourceSlice],
) -> std::result::Result<Vec<u8>, AllocError>
    requires { list_all (is_inside bytes.now) slices.now ≡ true }
    ensures { IfOk result (λ all. all.items ≡ flat_map (slice_bytes bytes.now) slices.now) }
{
    let mut all = Vec::with_capacity(alloc, bytes_in(slices))?;
    for s in slices {
        append(&mut all, part(bytes, *s))?;
    }
    Ok(all)
}

impl<'s> Meaning for MemorySource<'s> {
    ghost use Rattle.pdb_base.specs.Source.{in_memory};

    ghost state = { in_memory };
}

impl<'s> Source<'s> for MemorySource<'s> {
    #[tactic(auto, using(crate::proofs::Views::one_slice), unfolding(crate::specs::Source::viewed))]
    fn view(&mut self, alloc: Global, slices: &[SourceSlice]) -> Result<View<'s>>
        ensures continues { Continues (in_memory self.old) (in_memory self.new) }
        ensures most { (in_memory self.new).failures < 2 ^ 64 }
        ensures failed { IsErrOf result Error.IoError → MayFail (in_memory self.old) (in_memory self.new) }
        ensures sized { IfOk result (λ v. length (view_bytes v) ≡ sum_by (λ s. s.size) slices.now) }
        ensures bytes { (in_memory self.new).told ≡ true → Gives view_bytes (MayFail (in_memory self.old) (in_memory self.new)) result (viewed self.old slices.now) }
        ensures past { (in_memory self.new).told ≡ true → (IsErrOf result Error.UnexpectedEof ↔ (list_all (is_inside self.old) slices.now ≡ false)) }
        ensures spent { (in_memory self.new).told ≡ true → (in_memory self.old).failures + 1 ≡ 2 ^ 64 → list_all (is_inside self.old) slices.now ≡ true → IsErrOf result Error.IoError }
        ensures lent { length slices.now ≡ 1 → list_all (is_inside self.old) slices.now ≡ true → IsOk result × IfOk result IsLent }
    {
        if !all_inside(self.bytes, slices) {
            return Err(Error::UnexpectedEof);
        }
        if slices.len() == 1 {
            return Ok(View::Borrowed(part(self.bytes, slices[0])));
        }
        Ok(View::Owned(copied(alloc, self.bytes, slices)?))
    }

    fn failures(&self) -> u64 {
        0
    }

    fn steady(&self) -> bool {
        true
    }
}

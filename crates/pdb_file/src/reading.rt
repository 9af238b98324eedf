//! What isn't held, read from a file.

ghost use Rattle.std.specs.Prelude.{◌≡◌, ◌+◌, ◌<◌, ◌≤◌, ◌^◌, ℕ, Bool, true, false, min, List, length, take, drop, vec_len, IfOk, IfErr, IfSome, IsErrOf, IsOkAnd, OnOk, None, Some, Option};
ghost use Rattle.std.specs.Option.{ForSome};
ghost use Rattle.std.specs.List.{All};
ghost use Rattle.std.specs.List.Sorted.{IsNonDecreasingBy, IsPermutation};
ghost use Rattle.pdb_file.specs.HeldBytes.{AreHeld, IsAllHeld, IsHeldAt, IsOf, IsPart, size_where_steady};

use crate::held::Held;
use crate::run::Run;
use crate::source::is_all_held;
use bumpalo::Bump;
use bumpalo::collections::into_bump_slice;
use pdb_base::SourceSlice;
use std::alloc::{AllocError, Global};
use std::fs::File;
use std::io;
use std::os::unix::fs::FileExt;

/// What can be read at an offset.
pub trait ReadAt {
    // The bytes of the file, where they are known.
    ghost known: { Self → Option (List ℕ) };

    // No read of them fails, and each read in front of their end gives some.
    ghost is_steady: { Self → Bool };

    /// The bytes at an offset, put in a buffer; returns how many.
    fn read_bytes_at(&self, buf: &mut [u8], at: u64) -> io::Result<usize>
        ensures fits { IfOk result (λ n. n ≤ length buf.new) }
        ensures told { IfOk result (λ n. ForSome (known self.now) (λ F. at ≤ length F → IsPart F at (take n buf.new))) }
        ensures steady { is_steady self.now ≡ true → ForSome (known self.now) (λ F. at < length F → 0 < length buf.new → IsOkAnd result (λ n. 0 < n)) };

    /// So many bytes from an offset on, where they are in memory already: none is read then.
    fn borrow_at(&self, at: u64, size: usize) -> Option<&[u8]>
        ensures size { IfSome result (λ p. length p.now ≡ size) }
        ensures told { IfSome result (λ p. ForSome (known self.now) (λ F. at ≤ length F → IsPart F at p.now)) };

    /// How many bytes it has, where no read of them can fail and each one in front of their end gives some.
    fn steady_size(&self) -> Option<u64>
        ensures { result ≡ size_where_steady (is_steady self.now) (known self.now) };
}

impl ReadAt for File {
    ghost known = { λ _. None };

    ghost is_steady = { λ _. false };

    fn read_bytes_at(&self, buf: &mut [u8], at: u64) -> io::Result<usize> {
        self.read_at(buf, at)
    }

    fn borrow_at(&self, _at: u64, _size: usize) -> Option<&[u8]> {
        None
    }

    fn steady_size(&self) -> Option<u64> {
        None
    }
}

/// Bytes in memory, read as a file is.
impl ReadAt for Vec<u8> {
    ghost known = { λ v. Some v.items };

    ghost is_steady = { λ _. true };

    fn read_bytes_at(&self, buf: &mut [u8], at: u64) -> io::Result<usize> {
        if at >= self.len() as u64 {
            return Ok(0);
        }
        let rest = self.as_slice().split_at(at as usize).1;
        let count = rest.len().min(buf.len());
        buf[..count].copy_from_slice(&rest[..count]);
        Ok(count)
    }

    fn borrow_at(&self, at: u64, size: usize) -> Option<&[u8]> {
        if at > self.len() as u64 {
            return None;
        }
        self.as_slice().split_at(at as usize).1.get(..size)
    }

    fn steady_size(&self) -> Option<u64> {
        Some(self.len() as u64)
    }
}

/// Why bytes couldn't be read.
#[derive(Clone, Copy, Debug, PartialEq, Eq)]
pub enum FetchError {
    /// A read failed, or the file has fewer bytes than it had.
    Read,
    /// Out of memory.
    Memory,
}

impl From<AllocError> for FetchError {
    ghost use Rattle.pdb_file.specs.declared.reading.FetchError.TheVariants.{Memory};

    ghost from_gives = { λ _ e. e ≡ Memory };

    fn from(_e: AllocError) -> FetchError {
        FetchError::Memory
    }
}

/// The bytes at an offset, put in a buffer behind its first ones; returns how many.
fn read_behind<R: ReadAt>(
    input: &R,
    bytes: &mut [u8],
    len: usize,
    at: u64,
) -> Result<usize, FetchError>
    requires { len ≤ length bytes.old }
    ensures front { take len bytes.new ≡ take len bytes.old }
    ensures len { length bytes.new ≡ length bytes.old }
    ensures fits { IfOk result (λ n. len + n ≤ length bytes.new) }
    ensures told { IfOk result (λ n. ForSome (R.known input.now) (λ F. at ≤ length F → IsPart F at (take n (drop len bytes.new)))) }
    ensures steady { R.is_steady input.now ≡ true → ForSome (R.known input.now) (λ F. at < length F → len < length bytes.old → IsOkAnd result (λ n. 0 < n)) }
    ensures refused { IfErr result (λ e. e ≡ FetchError.Read) }
{
    match input.read_bytes_at(&mut bytes[len..], at) {
        Ok(count) => Ok(count),
        Err(_) => Err(FetchError::Read),
    }
}

/// The zeros that are put at a time.
static ZEROS: [u8; 2048] = [0; 2048];

/// So many zeros in the arena.
fn zeros<'s>(arena: &'s Bump, size: usize) -> Result<Vec<u8, &'s Bump>, AllocError>
    ensures { IfOk result (λ v. vec_len v ≡ size) }
{
    let mut bytes = Vec::with_capacity(arena, size)?;
    for _ in 0..size / ZEROS.len() {
        bytes.extend_from_slice(&ZEROS)?;
    }
    bytes.resize(size, 0)?;
    Ok(bytes)
}

/// The bytes from an offset on, so many, which stay where they are as long as the arena and the reader.
fn read_run<'s, R: ReadAt>(
    arena: &'s Bump,
    input: &'s R,
    from: u64,
    size: usize,
) -> Result<&'s [u8], FetchError>
    ensures told { ForSome (R.known input.now) (λ F. from ≤ length F → IfOk result (λ v. IsPart F from v.now)) }
    ensures len { IfOk result (λ v. length v.now ≡ size) }
    ensures steady { R.is_steady input.now ≡ true → ForSome (R.known input.now) (λ F. from + size ≤ length F → length F < 2 ^ 64 → IfErr result (λ e. e ≡ FetchError.Memory)) }
{
    if let Some(bytes) = input.borrow_at(from, size) {
        return Ok(bytes);
    }
    let mut bytes = zeros(arena, size)?;
    let mut done = 0usize;
    while done < size {
        let Some(at) = from.checked_add(done as u64) else {
            return Err(FetchError::Read);
        };
        let count = read_behind(input, bytes.as_mut_slice(), done, at)?;
        if count == 0 {
            return Err(FetchError::Read);
        }
        done += count;
    }
    Ok(into_bump_slice(bytes))
}

/// Reads what isn't held from an offset to another, and gaps beside it of at most `near` bytes.
fn fill<'s, R: ReadAt>(
    arena: &'s Bump,
    held: &mut Held<'s>,
    input: &'s R,
    from: u64,
    end: u64,
    near: u64,
) -> Result<(), FetchError>
    ensures told { ForSome (R.known input.now) (λ F. IsOf F held.old → IsOf F held.new) }
    ensures kept { (F : List ℕ) → IsOf F held.new → IsOf F held.old }
    ensures size { held.new.size ≡ held.old.size }
    ensures grows { (at : ℕ) → IsHeldAt held.old at → IsHeldAt held.new at }
    ensures held { OnOk result (AreHeld held.new from end) }
    ensures steady { R.is_steady input.now ≡ true → ForSome (R.known input.now) (λ F. IsOf F held.old → end ≤ length F → length F < 2 ^ 64 → IfErr result (λ e. e ≡ FetchError.Memory)) }
{
    let (mut at, end) = held.around(from, end, near);
    while at < end {
        if let Some(bytes) = held.from_place(at) {
            at += (bytes.len() as u64).min(end - at);
            continue;
        }
        let to = held.next_place(at, end);
        if to <= at || at > held.size() {
            return Err(FetchError::Read);
        }
        let bytes = read_run(arena, input, at, (to - at) as usize)?;
        if !held.insert(Run { at, bytes })? {
            return Err(FetchError::Read);
        }
        at = to;
    }
    Ok(())
}

/// Where a slice ends, or a file of this size where that comes first.
fn end_of(slice: SourceSlice, size: u64) -> u64
    ensures { result ≡ min (slice.offset + slice.size) size }
{
    slice.offset.saturating_add(slice.size as u64).min(size)
}

/// The slices in the order of their offsets.
fn in_order(alloc: Global, slices: &[SourceSlice]) -> Result<Vec<SourceSlice>, AllocError>
    ensures same { IfOk result (λ v. IsPermutation slices.now v.items) }
    ensures rises { IfOk result (λ v. IsNonDecreasingBy (λ s. s.offset) v.items) }
{
    let mut sorted = Vec::new(alloc);
    sorted.extend_from_slice(slices)?;
    sorted.sort_unstable_by_key(|s| s.offset);
    Ok(sorted)
}

/// Reads what isn't held of the slices, neighbours together. After success all of them is held, as far as the file has
/// it. `FetchError::Read` where a read fails, or ends early. What is held isn't read.
pub(crate) fn fetch<'s, R: ReadAt>(
    alloc: Global,
    arena: &'s Bump,
    held: &mut Held<'s>,
    slices: &[SourceSlice],
    input: &'s R,
) -> Result<(), FetchError>
    ensures told { ForSome (R.known input.now) (λ F. IsOf F held.old → IsOf F held.new) }
    ensures kept { (F : List ℕ) → IsOf F held.new → IsOf F held.old }
    ensures size { held.new.size ≡ held.old.size }
    ensures grows { (at : ℕ) → IsHeldAt held.old at → IsHeldAt held.new at }
    ensures held { OnOk result (All (IsAllHeld held.new) slices.now) }
    ensures steady { R.is_steady input.now ≡ true → ForSome (R.known input.now) (λ F. IsOf F held.old → IfErr result (λ e. e ≡ FetchError.Memory)) }
{
    let sorted = in_order(alloc, slices)?;
    let size = held.size();
    let reach = held.reach();
    let mut from = 0u64;
    let mut end = 0u64;
    for slice in &sorted {
        if is_all_held(held, *slice) {
            continue;
        }
        let last = end_of(*slice, size);
        if slice.offset > end.saturating_add(reach.near) {
            fill(arena, held, input, from, end, reach.near)?;
            from = slice.offset;
            end = last;
        }
        let least = from.saturating_add(reach.least).min(size);
        end = end.max(last).max(least);
    }
    fill(arena, held, input, from, end, reach.near)?;
    Ok(())
}

//! A source that reads.

ghost use Rattle.std.specs.Prelude.{◌≡◌, ◌≢◌, ℕ, ◌+◌, ◌<◌, ◌≤◌, ◌^◌, ◌++◌, ◌∷◌, [], ◌↔◌, List, length, take, drop, get_or, min, max, None, true, false, IsErrOf, IfOk, IfErr, IfSome, IsOk, IsSome, OnOk};
ghost use Rattle.std.specs.List.{All, list_all, flat_map, sum_by};
ghost use Rattle.std.specs.Option.{ForSome};
ghost use Rattle.pdb_base.specs.Refusal.{Gives};
ghost use Rattle.pdb_base.specs.Source.{State, Continues, MayFail, IsLent, is_inside, slice_bytes, view_bytes, viewed};
ghost use Rattle.pdb_file.specs.HeldBytes.{Agrees, AreHeld, IsAllHeld, IsHeldAt, IsOf, IsWholeHeld, StandsIn, is_inside_of, is_steady_of, known_or_empty, knows, reading, size_where_steady};
ghost use Rattle.pdb_file.specs.declared.run.Run.{Run};

use crate::held::Held;
use crate::reading::{FetchError, ReadAt, fetch};
use bumpalo::Bump;
use pdb_base::part::append;
use pdb_base::{Error, Meaning, Result, Source, SourceSlice, View, bytes_in};
use std::alloc::{AllocError, Global};
use std::marker::Model;

/// A value that means a file: a list of bytes, of which contracts alone speak.
pub trait Meant: Drop {
    ghost file: { Self → List ℕ };
}

/// For callers that claim nothing of the file.
#[derive(Clone, Copy, Debug)]
pub struct AnyFile;

impl Meant for AnyFile {
    ghost use Rattle.std.specs.Prelude.{[]};

    ghost file = { λ _. [] };
}

/// The file of a reader whose bytes are known.
#[derive(Drop)]
pub struct KnownFile<'r, R: ReadAt> {
    input: &'r R,
}

impl<'r, R: ReadAt> Model for KnownFile<'r, R> {
    ghost use Rattle.std.specs.Prelude.{ℕ, List};
    ghost use Rattle.pdb_file.specs.HeldBytes.{known_or_empty};

    ghost Value = { List ℕ };

    ghost view = { λ k. known_or_empty (R.known k.input.now) };
}

impl<'r, R: ReadAt> KnownFile<'r, R> {
    /// The file that this reader reads; the empty one where its bytes aren't known.
    pub fn new(input: &'r R) -> Self
        ensures { result ≡ known_or_empty (R.known input.now) }
    {
        KnownFile { input }
    }
}

impl<'r, R: ReadAt> Meant for KnownFile<'r, R> {
    ghost file = { λ k. k };
}

/// A source over a file that is read where it is needed. What was read is kept in the arena. A view of one slice in one
/// run borrows it; other views are copies. A view where a read fails is `IoError`, and counted. The file that it
/// means is `F`'s: what contracts say of it holds where `F` has all that was read.
#[derive(Drop)]
pub struct ReadingSource<'s, R: ReadAt, F: Meant> {
    arena: &'s Bump,
    input: &'s R,
    file: &'s F,
    held: Held<'s>,
    steady: bool,
    failures: u64,
}

impl<'s, R: ReadAt, F: Meant> Model for ReadingSource<'s, R, F> {
    ghost use Rattle.std.specs.Prelude.{◌≡◌, length, true, Some};
    ghost use Rattle.std.specs.Option.{ForSome};
    ghost use Rattle.pdb_file.specs.HeldBytes.{IsOf, Seen, knows, size_where_steady};

    ghost Value = { Seen };

    ghost view = { λ s. record { file = F.file s.file.now; kept = s.held; failures = s.failures; steady = s.steady; known = knows (R.known s.input.now) (F.file s.file.now) } };

    ghost invariant = { λ s. ForSome (R.known s.input.now) (λ G. length G ≡ s.held.size → IsOf G s.held)
        × (s.steady ≡ true → (size_where_steady (R.is_steady s.input.now) (R.known s.input.now) ≡ Some s.held.size) × (s.failures ≡ 0)) };
}

/// Whether this is the size of a steady reader.
fn is_steady_of(steady_size: Option<u64>, size: u64) -> bool
    ensures { result ≡ is_steady_of size steady_size }
{
    match steady_size {
        Some(n) => n == size,
        None => false,
    }
}

impl<'s, R: ReadAt, F: Meant> ReadingSource<'s, R, F> {
    /// The source of a reader's file, which has this size, and of which nothing was read.
    #[tactic(auto, using(crate::proofs::NoneHeld::none_held))]
    pub fn new(alloc: Global, arena: &'s Bump, input: &'s R, file: &'s F, size: u64) -> Self
        ensures { result ≡ record { file = F.file file.now; kept = record { size = size; runs = [] }; failures = 0; steady = is_steady_of size (size_where_steady (R.is_steady input.now) (R.known input.now)); known = knows (R.known input.now) (F.file file.now) } }
    {
        ReadingSource {
            arena,
            input,
            file,
            held: Held::new(alloc, size),
            steady: is_steady_of(input.steady_size(), size),
            failures: 0,
        }
    }
}

fn all_inside(size: u64, slices: &[SourceSlice]) -> bool
    ensures { result ≡ list_all (is_inside_of size) slices.now }
{
    slices
        .iter()
        .all(|s| s.offset <= size && s.size as u64 <= size - s.offset)
}

/// At most so many first bytes.
fn front<'b>(bytes: &'b [u8], most: usize) -> &'b [u8]
    ensures len { length result.now ≡ min most (length bytes.now) }
    ensures bytes { result.now ≡ take most bytes.now }
{
    if most < bytes.len() {
        &bytes[..most]
    } else {
        bytes
    }
}

/// A slice where it stands in one run.
#[tactic(auto, using(crate::proofs::Parts::slice_of))]
fn lent<'s>(held: &Held<'s>, slice: SourceSlice) -> Option<&'s [u8]>
    ensures bytes { (F : List ℕ) → Agrees F held.now → IfSome result (λ p. p.now ≡ slice_bytes F slice) }
    ensures sized { IfSome result (λ p. length p.now ≡ slice.size) }
    ensures found { (i : ℕ) → (d : Run) → i < length held.now.runs → 0 < slice.size → StandsIn slice (get_or held.now.runs i d) → IsSome result }
{
    let bytes = held.from_place(slice.offset)?;
    if bytes.len() < slice.size {
        return None;
    }
    Some(front(bytes, slice.size))
}

/// What is held of a slice behind its first bytes, up to the end of a run; none where nothing is.
#[tactic(auto, using(crate::proofs::Parts::next_of, crate::proofs::FreeRuns::past_end))]
fn next_part<'s>(held: &Held<'s>, slice: SourceSlice, done: usize) -> Option<&'s [u8]>
    requires { done < slice.size }
    ensures same { (F : List ℕ) → Agrees F held.now → IfSome result (λ p. p.now ≡ take (length p.now) (drop (slice.offset + done) F)) }
    ensures some { IfSome result (λ p. 0 < length p.now) }
    ensures fits { IfSome result (λ p. done + length p.now ≤ slice.size) }
    ensures held { IfSome result (λ p. AreHeld held.now (slice.offset + done) (slice.offset + done + length p.now)) }
    ensures missing { result ≡ None → IsHeldAt held.now (slice.offset + done) → ⊥ }
{
    if done as u64 >= held.size().saturating_sub(slice.offset) {
        return None;
    }
    let bytes = held.from_place(slice.offset + done as u64)?;
    Some(front(bytes, slice.size - done))
}

/// Puts the bytes of a slice behind those that are there, and returns whether all of it is held.
fn copy_slice(
    all: &mut Vec<u8>,
    held: &Held<'_>,
    slice: SourceSlice,
) -> std::result::Result<bool, AllocError>
    ensures bytes { (F : List ℕ) → Agrees F held.now → IfOk result (λ whole. whole ≡ true → all.new.items ≡ all.old.items ++ slice_bytes F slice) }
    ensures sized { IfOk result (λ whole. whole ≡ true → length all.new.items ≡ length all.old.items + slice.size) }
    ensures whole { AreHeld held.now slice.offset (slice.offset + slice.size) → IfOk result (λ whole. whole ≡ true) }
{
    let mut done = 0usize;
    while done < slice.size {
        let Some(part) = next_part(held, slice, done) else {
            return Ok(false);
        };
        append(all, part)?;
        done += part.len();
    }
    Ok(true)
}

/// The bytes of slices, one after the other; none where a byte isn't held.
fn copied(
    alloc: Global,
    held: &Held<'_>,
    slices: &[SourceSlice],
) -> std::result::Result<Option<Vec<u8>>, AllocError>
    ensures bytes { (F : List ℕ) → Agrees F held.now → IfOk result (λ all. IfSome all (λ v. v.items ≡ flat_map (slice_bytes F) slices.now)) }
    ensures sized { IfOk result (λ all. IfSome all (λ v. length v.items ≡ sum_by (λ s. s.size) slices.now)) }
    ensures whole { All (IsWholeHeld held.now) slices.now → IfOk result (λ all. IsSome all) }
{
    let mut all = Vec::with_capacity(alloc, bytes_in(slices))?;
    for slice in slices {
        if !copy_slice(&mut all, held, *slice)? {
            return Ok(None);
        }
    }
    Ok(Some(all))
}

/// Whether all bytes of a slice are held.
fn is_held(held: &Held<'_>, slice: SourceSlice) -> bool
    ensures { (result ≡ true) ↔ AreHeld held.now slice.offset (slice.offset + slice.size) }
{
    let mut seen = 0usize;
    while seen < slice.size {
        let Some(part) = next_part(held, slice, seen) else {
            return false;
        };
        seen += part.len();
    }
    true
}

/// The part of a slice that a file of this size has.
fn inside(size: u64, slice: SourceSlice) -> SourceSlice
    ensures offset { result.offset ≡ slice.offset }
    ensures end { result.offset + result.size ≡ max slice.offset (min (slice.offset + slice.size) size) }
{
    SourceSlice {
        offset: slice.offset,
        size: size.saturating_sub(slice.offset).min(slice.size as u64) as usize,
    }
}

/// Whether all of a slice is held, as far as the file has it.
pub(crate) fn is_all_held(held: &Held<'_>, slice: SourceSlice) -> bool
    ensures { (result ≡ true) ↔ IsAllHeld held.now slice }
{
    is_held(held, inside(held.size(), slice))
}

/// Whether all of the slices are held, as far as the file has them.
fn are_held(held: &Held<'_>, slices: &[SourceSlice]) -> bool
    ensures { (result ≡ true) ↔ All (IsAllHeld held.now) slices.now }
{
    for slice in slices {
        if !is_all_held(held, *slice) {
            return false;
        }
    }
    true
}

/// The bytes of slices that are held; `FetchError::Read` where a byte isn't.
#[tactic(auto, using(pdb_base::proofs::Views::one_slice))]
fn view_held<'s>(
    alloc: Global,
    held: &Held<'s>,
    slices: &[SourceSlice],
) -> std::result::Result<View<'s>, FetchError>
    ensures bytes { (F : List ℕ) → Agrees F held.now → IfOk result (λ v. view_bytes v ≡ flat_map (slice_bytes F) slices.now) }
    ensures sized { IfOk result (λ v. length (view_bytes v) ≡ sum_by (λ s. s.size) slices.now) }
    ensures whole { All (IsWholeHeld held.now) slices.now → IfErr result (λ e. e ≡ FetchError.Memory) }
    ensures lent { (s : SourceSlice) → (i : ℕ) → (d : Run) → slices.now ≡ s ∷ [] → i < length held.now.runs → 0 < s.size → StandsIn s (get_or held.now.runs i d) → IsOk result × IfOk result IsLent }
{
    if slices.len() == 1 {
        if let Some(bytes) = lent(held, slices[0]) {
            return Ok(View::Borrowed(bytes));
        }
    }
    match copied(alloc, held, slices)? {
        Some(all) => Ok(View::Owned(all)),
        None => Err(FetchError::Read),
    }
}

impl<'s, R: ReadAt, F: Meant> ReadingSource<'s, R, F> {
    /// The bytes of slices that lie in the file; what isn't held of them is read.
    fn read_slices(
        &mut self,
        alloc: Global,
        slices: &[SourceSlice],
    ) -> std::result::Result<View<'s>, FetchError>
        requires inside { list_all (is_inside_of self.old.kept.size) slices.now ≡ true }
        ensures others { self.new ≡ record { file = self.old.file; kept = self.new.kept; failures = self.old.failures; steady = self.old.steady; known = self.old.known } }
        ensures size { self.new.kept.size ≡ self.old.kept.size }
        ensures kept { (G : List ℕ) → IsOf G self.new.kept → IsOf G self.old.kept }
        ensures known { self.old.known ≡ true → IsOf self.old.file self.old.kept → IsOf self.old.file self.new.kept }
        ensures bytes { (G : List ℕ) → IsOf G self.new.kept → IfOk result (λ v. view_bytes v ≡ flat_map (slice_bytes G) slices.now) }
        ensures sized { IfOk result (λ v. length (view_bytes v) ≡ sum_by (λ s. s.size) slices.now) }
        ensures held { OnOk result (All (IsAllHeld self.new.kept) slices.now) }
        ensures once { All (IsAllHeld self.old.kept) slices.now → (self.new.kept ≡ self.old.kept) × IfErr result (λ e. e ≡ FetchError.Memory) }
        ensures steady { self.old.steady ≡ true → IfErr result (λ e. e ≡ FetchError.Memory) }
        ensures lent { (s : SourceSlice) → (i : ℕ) → (d : Run) → slices.now ≡ s ∷ [] → i < length self.old.kept.runs → 0 < s.size → StandsIn s (get_or self.old.kept.runs i d) → IsOk result × IfOk result IsLent }
    {
        if !are_held(&self.held, slices) {
            fetch(alloc, self.arena, &mut self.held, slices, self.input)?;
        }
        view_held(alloc, &self.held, slices)
    }
}

impl<'s, R: ReadAt, F: Meant> Meaning for ReadingSource<'s, R, F> {
    ghost use Rattle.pdb_file.specs.HeldBytes.{reading};

    ghost state = { reading };
}

impl<'s, R: ReadAt, F: Meant> Source<'s> for ReadingSource<'s, R, F> {
    fn view(&mut self, alloc: Global, slices: &[SourceSlice]) -> Result<View<'s>>
        ensures continues { Continues (reading self.old) (reading self.new) }
        ensures most { (reading self.new).failures < 2 ^ 64 }
        ensures failed { IsErrOf result Error.IoError → MayFail (reading self.old) (reading self.new) }
        ensures sized { IfOk result (λ v. length (view_bytes v) ≡ sum_by (λ s. s.size) slices.now) }
        ensures bytes { (reading self.new).told ≡ true → Gives view_bytes (MayFail (reading self.old) (reading self.new)) result (viewed self.old.file slices.now) }
        ensures past { (reading self.new).told ≡ true → (IsErrOf result Error.UnexpectedEof ↔ (list_all (is_inside self.old.file) slices.now ≡ false)) }
        ensures spent { (reading self.new).told ≡ true → self.old.failures + 1 ≡ 2 ^ 64 → list_all (is_inside self.old.file) slices.now ≡ true → IsErrOf result Error.IoError }
        // A failed read is never reported as out of memory.
        ensures counted { self.old.failures < self.new.failures → IsErrOf result Error.IoError }
        ensures held { OnOk result (All (IsAllHeld self.new.kept) slices.now) }
        ensures once { All (IsAllHeld self.old.kept) slices.now → self.new.kept ≡ self.old.kept }
        // A slice that stands in one run is borrowed, and no memory is taken.
        ensures lent { (s : SourceSlice) → (i : ℕ) → (d : Run) → slices.now ≡ s ∷ [] → i < length self.old.kept.runs → 0 < s.size → StandsIn s (get_or self.old.kept.runs i d) → list_all (is_inside_of self.old.kept.size) slices.now ≡ true → self.old.failures + 1 < 2 ^ 64 → IsOk result × IfOk result IsLent }
    {
        let spent = self.failures == u64::MAX;
        if !all_inside(self.held.size(), slices) {
            return Err(Error::UnexpectedEof);
        }
        if spent {
            return Err(Error::IoError);
        }
        match self.read_slices(alloc, slices) {
            Ok(view) => Ok(view),
            Err(FetchError::Memory) => Err(Error::OutOfMemory),
            Err(FetchError::Read) => {
                self.failures += 1;
                Err(Error::IoError)
            }
        }
    }

    fn failures(&self) -> u64 {
        self.failures
    }

    fn steady(&self) -> bool {
        self.steady
    }
}

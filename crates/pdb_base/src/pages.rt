//! Pages of the file, and the slices that they make.

ghost use Rattle.std.specs.Prelude.{◌≡◌, ◌+◌, ◌*◌, ◌^◌, ◌<◌, ◌≤◌, length, true, All, IfOk, OnOk, ◌++◌, max, IsErrOf};
ghost use Rattle.std.specs.List.{range_with_len};
ghost use Rattle.std.specs.Int.{div_ceil};
ghost use Rattle.pdb_base.specs.Refusal.{Gives};
ghost use Rattle.pdb_base.specs.Source.{Continues, MayFail, view_bytes};
ghost use Rattle.pdb_base.specs.Container.{bytes_of_places, numbers, tested, paged};
ghost use Rattle.pdb_base.specs.Joined.{joined_places, slice_places, IsFull};

use crate::error::{Error, Result};
use crate::little_endian::u32_at;
use crate::source::{Source, SourceSlice, View};
use std::alloc::{AllocError, Global};

/// Puts a part of the file behind the slices joined so far and the current one: a neighbour makes the current
/// slice longer.
#[tactic(auto, using(crate::proofs::PageLemmas::joining))]
fn join(
    joined: &mut Vec<SourceSlice>,
    current: SourceSlice,
    offset: u64,
    size: usize,
) -> std::result::Result<SourceSlice, AllocError>
    requires end { current.offset + current.size < 2 ^ 64 }
    requires room { current.size + size < 2 ^ 64 }
    requires full { All IsFull joined.old.items }
    ensures places { IfOk result (λ next. joined_places joined.new.items ++ slice_places next
        ≡ joined_places joined.old.items ++ slice_places current ++ range_with_len offset size) }
    ensures full { OnOk result (All IsFull joined.new.items) }
    ensures size { IfOk result (λ next. next.size ≤ current.size + size) }
    ensures offset { IfOk result (λ next. next.offset ≤ max current.offset offset) }
{
    if current.offset + current.size as u64 == offset {
        return Ok(SourceSlice {
            offset: current.offset,
            size: current.size + size,
        });
    }
    if current.size > 0 {
        joined.push(current)?;
    }
    Ok(SourceSlice { offset, size })
}

/// Runs of neighbouring bytes in the file: the last apart, so that a single one takes no memory. The last has no byte
/// where there is no run.
pub(crate) struct Runs {
    before: Vec<SourceSlice>,
    last: SourceSlice,
}

/// The runs of the file that a list of page numbers names, the last page cut to the size.
pub(crate) fn page_runs(
    alloc: Global,
    list: &[u8],
    page_size: u32,
    used: u32,
    size: usize,
) -> Result<Runs>
    requires positive { 0 < page_size }
    requires small { size < 2 ^ 32 }
    requires there { 4 * div_ceil size page_size ≤ length list.now }
    ensures places { Gives (λ r. joined_places r.before.items ++ slice_places r.last) ⊥ result
        (tested page_size used (numbers list.now 0 (div_ceil size page_size)) size) }
    ensures full { IfOk result (λ r. All IsFull r.before.items) }
{
    let mut before = Vec::new(alloc);
    let mut last = SourceSlice { offset: 0, size: 0 };
    let mut left = size;
    for k in 0..size.div_ceil(page_size as usize) {
        let page = u32_at(list, 4 * k);
        if page == 0 || page >= used {
            return Err(Error::PageReferenceOutOfRange(page));
        }
        let offset = page as u64 * page_size as u64;
        let part = left.min(page_size as usize);
        last = join(&mut before, last, offset, part)?;
        left -= part;
    }
    Ok(Runs { before, last })
}

/// The bytes of one run; there is nothing to view of one without a byte.
fn view_run<'s, S: Source<'s>>(alloc: Global, source: &mut S, run: SourceSlice) -> Result<View<'s>>
    ensures continues { Continues (S.state source.old) (S.state source.new) }
    ensures failed { IsErrOf result Error.IoError → MayFail (S.state source.old) (S.state source.new) }
    ensures sized { IfOk result (λ v. length (view_bytes v) ≡ run.size) }
    ensures bytes { (S.state source.new).told ≡ true → Gives view_bytes (MayFail (S.state source.old) (S.state source.new)) result
        (bytes_of_places (S.state source.old).file (slice_places run)) }
{
    if run.size == 0 {
        return Ok(View::Borrowed(&[]));
    }
    source.view(alloc, &[run])
}

/// The bytes of runs, one after the other.
fn view_runs<'s, S: Source<'s>>(alloc: Global, source: &mut S, runs: Runs) -> Result<View<'s>>
    requires full { All IsFull runs.before.items }
    ensures continues { Continues (S.state source.old) (S.state source.new) }
    ensures failed { IsErrOf result Error.IoError → MayFail (S.state source.old) (S.state source.new) }
    ensures sized { IfOk result (λ v. length (view_bytes v) ≡ length (joined_places runs.before.items ++ slice_places runs.last)) }
    ensures bytes { (S.state source.new).told ≡ true → Gives view_bytes (MayFail (S.state source.old) (S.state source.new)) result
        (bytes_of_places (S.state source.old).file (joined_places runs.before.items ++ slice_places runs.last)) }
{
    let Runs { mut before, last } = runs;
    if before.is_empty() {
        return view_run(alloc, source, last);
    }
    if last.size > 0 {
        before.push(last)?;
    }
    source.view(alloc, &before)
}

/// A stream of the file, whose page numbers a list names.
#[tactic(auto, unfolding(crate::specs::Container::paged))]
pub(crate) fn view_pages<'s, S: Source<'s>>(
    alloc: Global,
    source: &mut S,
    list: &[u8],
    page_size: u32,
    used: u32,
    size: usize,
) -> Result<View<'s>>
    requires positive { 0 < page_size }
    requires small { size < 2 ^ 32 }
    requires there { 4 * div_ceil size page_size ≤ length list.now }
    ensures continues { Continues (S.state source.old) (S.state source.new) }
    ensures failed { IsErrOf result Error.IoError → MayFail (S.state source.old) (S.state source.new) }
    ensures sized { IfOk result (λ v. length (view_bytes v) ≡ size) }
    ensures bytes { (S.state source.new).told ≡ true → Gives view_bytes (MayFail (S.state source.old) (S.state source.new)) result
        (paged (S.state source.old).file page_size used (numbers list.now 0 (div_ceil size page_size)) size) }
{
    let runs = page_runs(alloc, list, page_size, used, size)?;
    view_runs(alloc, source, runs)
}

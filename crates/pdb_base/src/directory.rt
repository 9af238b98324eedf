//! The container's front and its directory: where the pages of a stream are listed.

ghost use Rattle.std.specs.Prelude.{◌≡◌, ℕ, ◌+◌, ◌*◌, ◌<◌, ◌≤◌, ◌^◌, List, length, false, true, IfOk, IfErr, ◌≢◌, IsErrOf};
ghost use Rattle.std.specs.Int.{div_ceil};
ghost use Rattle.pdb_base.specs.Refusal.{Gives};
ghost use Rattle.pdb_base.specs.Source.{State, Continues, MayFail, view_bytes};
ghost use Rattle.pdb_base.specs.Fields.{number};
ghost use Rattle.pdb_base.specs.Container.{head_of, list_of, is_page_size as page_size_test, numbers, count_of as stream_count, size_of as stream_size, pages_of as page_count, numbers_at as numbers_place, pages_at as stream_pages, ArePagesBefore};
ghost use Rattle.pdb_base.specs.Heads.{head, as_format};

use crate::error::{Error, Feature, Result};
use crate::little_endian::u32_at;
use crate::pages::view_pages;
use crate::source::{Source, SourceSlice, View};
use std::alloc::{AllocError, Global};

/// The numbers at the front of the file.
#[derive(Clone, Copy)]
pub(crate) struct FileHead {
    pub page_size: u32,
    pub pages_used: u32,
    pub directory_size: u32,
}

const SMALL_MSF_MAGIC: &[u8; 37] = b"Microsoft C/C++ program database 2.00";

const MAGIC: &[u8; 32] = b"Microsoft C/C++ MSF 7.00\r\n\x1aDS\0\0\0";

/// The number of bytes at the front of the file that are always read.
const HEAD_SIZE: usize = 52;

fn is_page_size(n: u32) -> bool
    ensures { result ≡ page_size_test n }
{
    matches!(
        n,
        256 | 512
            | 1024
            | 2048
            | 4096
            | 8192
            | 16384
            | 32768
            | 65536
            | 131072
            | 262144
            | 524288
            | 1048576
            | 2097152
            | 4194304
            | 8388608
    )
}

#[tactic(auto, unfolding(crate::specs::Container::head_of))]
fn parse_head(bytes: &[u8]) -> Result<FileHead>
    requires { length bytes.now ≡ 52 }
    ensures memory { IfErr result (λ e. e ≢ Error.OutOfMemory) }
    ensures head { Gives head ⊥ result (head_of bytes.now) }
    ensures size { IfOk result (λ h. (256 ≤ h.page_size) × (h.page_size < 2 ^ 24)) }
{
    if bytes.starts_with(SMALL_MSF_MAGIC) {
        return Err(Error::UnimplementedFeature(Feature::SmallMsf));
    }
    if !bytes.starts_with(MAGIC) {
        return Err(Error::UnrecognizedFileFormat);
    }
    let page_size = u32_at(bytes, 32);
    if !is_page_size(page_size) {
        return Err(Error::InvalidPageSize(page_size));
    }
    Ok(FileHead {
        page_size,
        pages_used: u32_at(bytes, 40),
        directory_size: u32_at(bytes, 44),
    })
}

/// The size that the directory gives for an absent stream.
const ABSENT: u32 = 4294967295;

/// How many bytes a stream has, by the directory.
#[tactic(auto, unfolding(crate::specs::Container::size_of))]
pub(crate) fn size_of(directory: &[u8], stream: u32) -> Result<u32>
    ensures size { Gives (λ n. n) ⊥ result (stream_size directory.now stream) }
    ensures memory { IfErr result (λ e. e ≢ Error.OutOfMemory) }
    ensures there { IfOk result (λ n. (stream < number directory.now 0 4) × (4 + 4 * number directory.now 0 4 ≤ length directory.now) × (n < 4294967295)) }
{
    if directory.len() < 4 {
        return Err(Error::UnexpectedEof);
    }
    let count = u32_at(directory, 0);
    if stream >= count {
        return Err(Error::StreamNotFound(stream));
    }
    if directory.len() < 4 + 4 * count as usize {
        return Err(Error::UnexpectedEof);
    }
    let size = u32_at(directory, 4 + 4 * stream as usize);
    if size == ABSENT {
        return Err(Error::StreamNotFound(stream));
    }
    Ok(size)
}

/// How many streams there are, by the directory.
#[tactic(auto, unfolding(crate::specs::Container::count_of))]
pub(crate) fn count_of(directory: &[u8]) -> Result<u32>
    ensures count { Gives (λ n. n) ⊥ result (stream_count directory.now) }
    ensures memory { IfErr result (λ e. e ≢ Error.OutOfMemory) }
{
    if directory.len() < 4 {
        return Err(Error::UnexpectedEof);
    }
    let count = u32_at(directory, 0);
    if directory.len() < 4 + 4 * count as usize {
        return Err(Error::UnexpectedEof);
    }
    Ok(count)
}

/// How many pages a stream has.
fn pages_of(directory: &[u8], page_size: u32, stream: u32) -> usize
    requires large { 256 ≤ page_size }
    requires there { 4 + 4 * stream + 4 ≤ length directory.now }
    ensures pages { result ≡ page_count directory.now page_size stream }
    ensures small { result ≤ 2 ^ 25 }
{
    match u32_at(directory, 4 + 4 * stream as usize) {
        ABSENT => 0,
        size => size.div_ceil(page_size) as usize,
    }
}

/// How many pages the streams before each stream have together; nothing where the sizes aren't all there.
pub(crate) fn pages_before(
    alloc: Global,
    directory: &[u8],
    page_size: u32,
) -> std::result::Result<Vec<u64>, AllocError>
    requires large { 256 ≤ page_size }
    ensures { IfOk result (λ v. ArePagesBefore directory.now page_size v.items) }
{
    if directory.len() < 4 {
        return Ok(Vec::new(alloc));
    }
    let count = u32_at(directory, 0);
    if directory.len() < 4 + 4 * count as usize {
        return Ok(Vec::new(alloc));
    }
    let mut before = Vec::with_capacity(alloc, count as usize)?;
    let mut pages = 0u64;
    for stream in 0..count {
        before.push(pages)?;
        pages += pages_of(directory, page_size, stream) as u64;
    }
    Ok(before)
}

/// Where a stream's page numbers stand in the directory.
#[tactic(auto, unfolding(crate::specs::Container::numbers_at))]
fn numbers_at(directory: &[u8], before: &[u64], page_size: u32, stream: u32) -> usize
    requires below_count { stream < number directory.now 0 4 }
    requires there { 4 + 4 * number directory.now 0 4 ≤ length directory.now }
    requires before { ArePagesBefore directory.now page_size before.now }
    ensures at { result ≡ numbers_place directory.now page_size stream }
    ensures small { result ≤ 2 ^ 60 }
{
    4 + 4 * u32_at(directory, 0) as usize + 4 * before[stream as usize] as usize
}

/// The part of the directory with the page numbers of a stream's first bytes.
#[tactic(auto, unfolding(crate::specs::Container::pages_at))]
pub(crate) fn pages_at<'d>(
    directory: &'d [u8],
    before: &[u64],
    page_size: u32,
    stream: u32,
    size: u32,
) -> Result<&'d [u8]>
    requires large { 256 ≤ page_size }
    requires before { ArePagesBefore directory.now page_size before.now }
    requires below_count { stream < number directory.now 0 4 }
    requires there { 4 + 4 * number directory.now 0 4 ≤ length directory.now }
    ensures pages { Gives (λ list. numbers list.now 0 (div_ceil size page_size)) ⊥ result (stream_pages directory.now page_size stream size) }
    ensures memory { IfErr result (λ e. e ≢ Error.OutOfMemory) }
    ensures there { IfOk result (λ list. 4 * div_ceil size page_size ≤ length list.now) }
{
    let needed = size.div_ceil(page_size) as usize;
    if needed == 0 {
        return Ok(&[]);
    }
    let at = numbers_at(directory, before, page_size, stream);
    if directory.len() < at + 4 * needed {
        return Err(Error::UnexpectedEof);
    }
    Ok(&directory[at..at + 4 * needed])
}

/// A file that ends in its front is no file of this format.
fn format_error(e: Error) -> Error
    ensures { result ≡ as_format e }
{
    match e {
        Error::UnexpectedEof => Error::UnrecognizedFileFormat,
        e => e,
    }
}

/// The numbers at the front of the file.
pub(crate) fn read_head<'s, S: Source<'s>>(alloc: Global, source: &mut S) -> Result<FileHead>
    ensures continues { Continues (S.state source.old) (S.state source.new) }
    ensures failed { IsErrOf result Error.IoError → MayFail (S.state source.old) (S.state source.new) }
    ensures head { (S.state source.new).told ≡ true → Gives head (MayFail (S.state source.old) (S.state source.new)) result (head_of (S.state source.old).file) }
    ensures size { IfOk result (λ h. (256 ≤ h.page_size) × (h.page_size < 2 ^ 24)) }
{
    let slices = [SourceSlice {
        offset: 0,
        size: HEAD_SIZE,
    }];
    let front = match source.view(alloc, &slices) {
        Ok(front) => front,
        Err(e) => return Err(format_error(e)),
    };
    parse_head(front.as_slice())
}

/// The bytes that list the directory's pages.
pub(crate) fn read_list<'s, S: Source<'s>>(
    alloc: Global,
    source: &mut S,
    h: FileHead,
) -> Result<View<'s>>
    requires size { (256 ≤ h.page_size) × (h.page_size < 2 ^ 24) }
    ensures continues { Continues (S.state source.old) (S.state source.new) }
    ensures failed { IsErrOf result Error.IoError → MayFail (S.state source.old) (S.state source.new) }
    ensures sized { IfOk result (λ v. length (view_bytes v) ≡ 4 * div_ceil h.directory_size h.page_size) }
    ensures list { (S.state source.new).told ≡ true → Gives view_bytes (MayFail (S.state source.old) (S.state source.new)) result (list_of (S.state source.old).file (head h)) }
{
    let wanted = 4 * h.directory_size.div_ceil(h.page_size) as usize;
    let count = wanted.div_ceil(h.page_size as usize);
    if HEAD_SIZE + 4 * count > h.page_size as usize {
        return Err(Error::UnexpectedEof);
    }
    let slices = [SourceSlice {
        offset: HEAD_SIZE as u64,
        size: 4 * count,
    }];
    let numbers = source.view(alloc, &slices)?;
    view_pages(
        alloc,
        source,
        numbers.as_slice(),
        h.page_size,
        h.pages_used,
        wanted,
    )
}

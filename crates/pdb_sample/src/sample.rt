//! A file made of streams, and the sample file.

ghost use Rattle.std.specs.Prelude.{◌≡◌, ℕ, true, false, ◌+◌, ◌-◌, ◌*◌, ◌^◌, ◌<◌, ◌≤◌, ◌++◌, codes, length, map, replicate, flat_map, OnOk, IfOk, IfSome, IfNone};
ghost use Rattle.pdb_base.specs.Refusal.{Gives};
ghost use Rattle.std.specs.List.{list_any};
ghost use Rattle.std.specs.Option.{option_map};
ghost use Rattle.pdb_sample.specs.Sample.{stream_of, page, magic, bytes_of, size_told, number_bytes, numbers_from, padded, size_entry, padded_stream, all_pages, is_too_long, is_refused, header_bytes, directory_bytes, file_bytes, made};
ghost use Rattle.pdb_sample.specs.Plan.{IsPlan};

use crate::streams;
use pdb_base::{Error, Part, Result};
use std::alloc::{AllocError, Global};

/// The size of a page.
const PAGE: usize = 512;

/// The most pages of a page list that the rest of page 0 has room to name.
const MOST_LIST_PAGES: u64 = 115;

/// The bytes that begin a file of the container.
const MAGIC: &[u8; 32] = b"Microsoft C/C++ MSF 7.00\r\n\x1aDS\0\0\0";

/// The sample's streams.
pub const STREAMS: [Option<&[u8]>; 9] = [
    Some(&[]),
    Some(&streams::INFORMATION),
    None,
    Some(&streams::DBI),
    None,
    Some(&streams::SYMBOLS),
    Some(&streams::MODULE),
    Some(&streams::STRINGS),
    Some(&streams::SECTIONS),
];

/// How many pages the parts of a file take.
#[derive(Clone, Copy)]
struct Plan {
    streams: u32,
    directory_size: u32,
    directory: u32,
    list: u32,
}

/// The bytes of a stream that stand in pages.
fn bytes_of<'b>(stream: &Option<&'b [u8]>) -> &'b [u8]
    ensures { result.now ≡ bytes_of (stream_of stream.now) }
{
    match stream {
        Some(bytes) => bytes,
        None => &[],
    }
}

/// The size of a stream that the directory has.
fn size_told(stream: &Option<&[u8]>) -> u32
    requires { is_too_long (stream_of stream.now) ≡ false }
    ensures { result ≡ size_told (stream_of stream.now) }
{
    match stream {
        Some(bytes) => bytes.len() as u32,
        None => 0xffffffff,
    }
}

/// The pages of all streams; none where a stream is too long, or there are too many pages.
fn count_pages(streams: &[Option<&[u8]>]) -> Option<u64>
    ensures pages { IfSome result (λ n. n ≡ all_pages (map stream_of streams.now)) }
    ensures most { IfSome result (λ n. n ≤ 4294967295) }
    ensures short { IfSome result (λ n. list_any is_too_long (map stream_of streams.now) ≡ false) }
    ensures refused { IfNone result (is_refused (map stream_of streams.now) ≡ true) }
{
    let mut pages = 0;
    for stream in streams {
        let size = bytes_of(stream).len();
        if size >= 4294967295 {
            return None;
        }
        pages += size.div_ceil(PAGE) as u64;
        if pages > 4294967295 {
            return None;
        }
    }
    Some(pages)
}

/// The pages that a file of these streams takes; none where it fails.
#[tactic(auto, using(crate::proofs::SampleFacts::made_of, crate::proofs::SampleFacts::list_refused, crate::proofs::SampleFacts::streams_refused, crate::proofs::SampleFacts::length_of_streams), unfolding(crate::specs::Sample::directory_size))]
fn planned(streams: &[Option<&[u8]>]) -> Option<Plan>
    ensures sizes { IfSome result (λ p. IsPlan (map stream_of streams.now) p) }
    ensures made { IfSome result (λ p. is_refused (map stream_of streams.now) ≡ false) }
    ensures refused { IfNone result (is_refused (map stream_of streams.now) ≡ true) }
{
    let pages = count_pages(streams)?;
    if streams.len() > 4294967295 {
        return None;
    }
    let directory_size = 4 + 4 * streams.len() as u64 + 4 * pages;
    let directory = directory_size.div_ceil(PAGE as u64);
    let list = (4 * directory).div_ceil(PAGE as u64);
    if list > MOST_LIST_PAGES {
        return None;
    }
    Some(Plan {
        streams: pages as u32,
        directory_size: directory_size as u32,
        directory: directory as u32,
        list: list as u32,
    })
}

#[tactic(auto, unfolding(crate::specs::Sample::magic))]
fn put_magic(out: &mut Vec<u8>) -> std::result::Result<(), AllocError>
    ensures { OnOk result (out.new.items ≡ out.old.items ++ magic) }
{
    out.extend_from_slice(MAGIC)
}

#[tactic(auto, unfolding(crate::specs::Sample::number_bytes))]
fn put_number(out: &mut Vec<u8>, n: u32) -> std::result::Result<(), AllocError>
    ensures { OnOk result (out.new.items ≡ out.old.items ++ number_bytes n) }
{
    out.extend_from_slice(&n.to_le_bytes())
}

fn put_numbers(out: &mut Vec<u8>, first: u32, count: u32) -> std::result::Result<(), AllocError>
    requires { first + count < 2 ^ 32 }
    ensures { OnOk result (out.new.items ≡ out.old.items ++ numbers_from first count) }
{
    for k in 0..count {
        put_number(out, first + k)?;
    }
    Ok(())
}

fn put_zeros(out: &mut Vec<u8>, count: usize) -> std::result::Result<(), AllocError>
    requires { count ≤ page }
    ensures { OnOk result (out.new.items ≡ out.old.items ++ replicate count 0) }
{
    out.resize(out.len() + count, 0)
}

/// The bytes, and zero bytes up to the end of their last page.
#[tactic(auto, unfolding(crate::specs::Sample::padded))]
fn put_padded(out: &mut Vec<u8>, bytes: &[u8]) -> std::result::Result<(), AllocError>
    ensures { OnOk result (out.new.items ≡ out.old.items ++ padded bytes.now) }
{
    out.extend_from_slice(bytes)?;
    put_zeros(out, (PAGE - bytes.len() % PAGE) % PAGE)
}

fn put_streams(out: &mut Vec<u8>, streams: &[Option<&[u8]>]) -> std::result::Result<(), AllocError>
    ensures { OnOk result (out.new.items ≡ out.old.items ++ flat_map padded_stream (map stream_of streams.now)) }
{
    for stream in streams {
        put_padded(out, bytes_of(stream))?;
    }
    Ok(())
}

fn header(alloc: Global, plan: &Plan) -> std::result::Result<Vec<u8>, AllocError>
    requires { 3 + plan.now.streams + plan.now.directory + plan.now.list < 2 ^ 32 }
    ensures { IfOk result (λ v. v.items ≡ header_bytes plan.now.streams plan.now.directory_size plan.now.directory plan.now.list) }
{
    let first = 3 + plan.streams + plan.directory;
    let mut out = Vec::new(alloc);
    put_magic(&mut out)?;
    put_number(&mut out, PAGE as u32)?;
    put_number(&mut out, 1)?;
    put_number(&mut out, first + plan.list)?;
    put_number(&mut out, plan.directory_size)?;
    put_number(&mut out, 0)?;
    put_numbers(&mut out, first, plan.list)?;
    Ok(out)
}

fn put_sizes(out: &mut Vec<u8>, streams: &[Option<&[u8]>]) -> std::result::Result<(), AllocError>
    requires { list_any is_too_long (map stream_of streams.now) ≡ false }
    ensures { OnOk result (out.new.items ≡ out.old.items ++ flat_map size_entry (map stream_of streams.now)) }
{
    for stream in streams {
        put_number(out, size_told(stream))?;
    }
    Ok(())
}

fn directory(
    alloc: Global,
    streams: &[Option<&[u8]>],
    plan: &Plan,
) -> std::result::Result<Vec<u8>, AllocError>
    requires { IsPlan (map stream_of streams.now) plan.now }
    ensures { IfOk result (λ v. v.items ≡ directory_bytes (map stream_of streams.now)) }
{
    let mut out = Vec::new(alloc);
    put_number(&mut out, streams.len() as u32)?;
    put_sizes(&mut out, streams)?;
    put_numbers(&mut out, 3, plan.streams)?;
    Ok(out)
}

fn written(
    alloc: Global,
    streams: &[Option<&[u8]>],
    plan: &Plan,
) -> std::result::Result<Vec<u8>, AllocError>
    requires { IsPlan (map stream_of streams.now) plan.now }
    ensures { IfOk result (λ v. v.items ≡ file_bytes (map stream_of streams.now)) }
{
    let mut list = Vec::new(alloc);
    put_numbers(&mut list, 3 + plan.streams, plan.directory)?;
    let mut file = Vec::new(alloc);
    put_padded(&mut file, &header(alloc, plan)?)?;
    put_zeros(&mut file, PAGE)?;
    put_zeros(&mut file, PAGE)?;
    put_streams(&mut file, streams)?;
    put_padded(&mut file, &directory(alloc, streams, plan)?)?;
    put_padded(&mut file, &list)?;
    Ok(file)
}

/// The file of these streams, in pages of 512 bytes, which are in this order: the container's header, two empty ones,
/// those of each stream, of the directory, and of the directory's page list. Absent streams are `None`.
///
/// `InvalidStreamLength` where a stream has 4294967295 bytes or more, the file more than 4294967295 pages, the
/// directory 4294967296 bytes or more, or its page list more than 115 pages.
#[tactic(auto, unfolding(crate::specs::Sample::made))]
pub fn file_of(alloc: Global, streams: &[Option<&[u8]>]) -> Result<Vec<u8>>
    ensures { Gives (λ v. v.items) ⊥ result (made (map stream_of streams.now)) }
{
    match planned(streams) {
        None => Err(Error::InvalidStreamLength(Part::Sample)),
        Some(plan) => Ok(written(alloc, streams, &plan)?),
    }
}

/// The sample file: nine streams, of which 0 is empty, and 2 and 4 are absent.
pub fn file(alloc: Global) -> Result<Vec<u8>>
    ensures { Gives (λ v. v.items) ⊥ result (made (map (option_map (λ b. b.now)) STREAMS)) }
{
    file_of(alloc, &STREAMS)
}

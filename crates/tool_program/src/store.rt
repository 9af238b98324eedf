//! `store`: files, each under its key, in a folder of symbol files.

use crate::host::{Host, Unstored};
use crate::key_line::file_key;
use crate::messages::{report_other_contents, report_stop, report_unnamed, report_unwritten};
use crate::store_paths::{store_line, store_path};
use crate::tasks::IsWell;
use pdb_file::{FileBytes, ReadAt};
use pdb_text::{CountedWrite, write_counted};
use std::alloc::{AllocError, Global};
use std::io::Write;
use std::str;
use tool_arguments::operands::Operand;
use tool_arguments::options::value_in;
use tool_arguments::tasks::Storing;
use tool_output::fault::Fault;
use tool_output::stop::{Stop, Unopened};

/// How many bytes of two files are compared at once.
const BLOCK: usize = 65536;

/// What became of a file that was to be stored at a path.
#[derive(Clone, Copy, Debug)]
enum Filing {
    /// It was written.
    Stored,
    /// It is there already.
    Present,
    /// Another file is there.
    Other,
    /// The file that is there can't be read.
    Unread(Stop),
    /// It can't be written.
    Unwritten(Unopened),
}

/// Whether a file has bytes for all of a buffer, which then has them.
fn fill<R: ReadAt>(bytes: &R, buffer: &mut [u8], at: u64) -> Result<bool, Stop> {
    let mut done = 0;
    for _ in 0..buffer.len() {
        if done >= buffer.len() {
            return Ok(true);
        }
        match bytes.read_bytes_at(&mut buffer[done..], at.saturating_add(done as u64)) {
            Ok(0) => return Ok(false),
            Ok(count) => done += count,
            Err(_) => return Err(Stop::Read),
        }
    }
    Ok(done >= buffer.len())
}

/// Whether two files of this size have the same bytes from there on, as many as both buffers hold.
fn are_same_there<R: ReadAt, T: ReadAt>(
    one: &R,
    other: &T,
    size: u64,
    at: u64,
    here: &mut [u8],
    there: &mut [u8],
) -> Result<bool, Stop> {
    let most = here.len().min(there.len());
    let count = size.saturating_sub(at).min(most as u64) as usize;
    let (here, there) = (&mut here[..count], &mut there[..count]);
    Ok(fill(one, here, at)? && fill(other, there, at)? && *here == *there)
}

/// Whether two files of this size have the same bytes.
fn are_same<R: ReadAt, T: ReadAt>(
    alloc: Global,
    one: &R,
    other: &T,
    size: u64,
) -> Result<bool, Stop> {
    let mut bytes = Vec::new(alloc);
    bytes.resize(BLOCK, 0)?;
    let mut other_bytes = Vec::new(alloc);
    other_bytes.resize(BLOCK, 0)?;
    let mut at = 0;
    for _ in 0..size.div_ceil(BLOCK as u64) {
        if !are_same_there(one, other, size, at, &mut bytes, &mut other_bytes)? {
            return Ok(false);
        }
        at = at.saturating_add(BLOCK as u64);
    }
    Ok(true)
}

/// Whether the file at a path has the same bytes as one that is open; none where no file is there.
fn is_there<H: Host>(
    host: &H,
    path: &str,
    bytes: &FileBytes<H::File>,
) -> Result<Option<bool>, Stop> {
    let there = match host.open_path(path) {
        Ok(there) => there,
        Err(Stop::Unopened(Unopened::Missing)) => return Ok(None),
        Err(stop) => return Err(stop),
    };
    let is_same = there.size() == bytes.size()
        && are_same(host.alloc(), bytes, &there, bytes.size())?;
    Ok(Some(is_same))
}

/// Writes a file at a path.
fn written<H: Host>(host: &H, path: &str, bytes: &FileBytes<H::File>) -> Result<Filing, Stop> {
    match host.store(path, bytes) {
        Ok(()) => Ok(Filing::Stored),
        Err(Unstored::Unread) => Err(Stop::Read),
        Err(Unstored::Unwritten(why)) => Ok(Filing::Unwritten(why)),
        Err(Unstored::OutOfMemory) => Err(Stop::Memory),
    }
}

/// Writes a file at a path, unless one is there that isn't to be replaced.
fn filed_at<H: Host>(
    host: &H,
    path: &str,
    bytes: &FileBytes<H::File>,
    replaces: bool,
) -> Result<Filing, Stop> {
    match is_there(host, path, bytes) {
        Ok(Some(true)) => Ok(Filing::Present),
        Ok(Some(false)) if !replaces => Ok(Filing::Other),
        Ok(_) => written(host, path, bytes),
        Err(Stop::Memory) => Err(Stop::Memory),
        Err(stop) => Ok(Filing::Unread(stop)),
    }
}

/// The path at which a file is stored in a folder; none where its name is that of no file.
fn path_for<H: Host>(
    host: &H,
    folder: &str,
    name: &str,
    bytes: &FileBytes<H::File>,
) -> Result<Option<Vec<u8>>, Stop> {
    let key = file_key(host.alloc(), bytes, bytes.size())?;
    Ok(store_path(host.alloc(), folder.as_bytes(), name.as_bytes(), &key)?)
}

/// Prints the line of a file that is stored at a path.
fn print_line<H: Host, W: CountedWrite>(
    host: &H,
    word: &[u8],
    path: &str,
    out: &mut W,
) -> Result<bool, Stop> {
    let line = store_line(host.alloc(), word, path.as_bytes())?;
    write_counted(out, &line)?;
    Ok(true)
}

/// Tells what became of a file. The result is whether it is stored.
fn tell<H: Host, W: CountedWrite, E: Write>(
    host: &H,
    filing: Filing,
    path: &str,
    out: &mut W,
    err: &mut E,
) -> Result<bool, Stop> {
    match filing {
        Filing::Stored => return print_line(host, b"stored", path, out),
        Filing::Present => return print_line(host, b"present", path, out),
        Filing::Other => report_other_contents(host.alloc(), path, err),
        Filing::Unread(stop) => report_stop(host, stop, path, err),
        Filing::Unwritten(why) => report_unwritten(host.alloc(), path, why, err),
    }
    Ok(false)
}

/// Stores a file in a folder, and tells what became of it. The result is whether it is stored.
fn store_one<H: Host, W: CountedWrite, E: Write>(
    host: &H,
    folder: &str,
    replaces: bool,
    name: Operand<'_>,
    out: &mut W,
    err: &mut E,
) -> Result<bool, Stop> {
    let bytes = host.open(name)?;
    let Some(path) = path_for(host, folder, name.word, &bytes)? else {
        report_unnamed(host.alloc(), name.word, err);
        return Ok(false);
    };
    let path = str::from_utf8(&path).unwrap_or("");
    let filing = filed_at(host, path, &bytes, replaces)?;
    tell(host, filing, path, out, err)
}

/// Stores files in a folder, one after another. One that can't be stored is reported, and passed over. The result is
/// whether all are stored.
pub fn store_files<H: Host, W: CountedWrite, E: Write>(
    host: &H,
    storing: Storing,
    names: &[Operand<'_>],
    words: &[String],
    out: &mut W,
    err: &mut E,
) -> IsWell {
    if host.not_text().contains(&storing.folder.argument) {
        return Err(Fault::NotText(storing.folder.argument));
    }
    let folder = value_in(words, storing.folder);
    let mut all = true;
    for name in names {
        match store_one(host, folder, storing.replaces, *name, out, err) {
            Ok(is_stored) => all &= is_stored,
            Err(Stop::Memory) => return Err(Fault::Stopped(Stop::Memory, name.argument)),
            Err(Stop::Write) => return Err(Fault::Stopped(Stop::Write, 0)),
            Err(stop) => {
                report_stop(host, stop, name.word, err);
                all = false;
            }
        }
    }
    Ok(all)
}

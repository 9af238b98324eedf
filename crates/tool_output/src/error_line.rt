//! The line of an error, or of a list's fault.

ghost use Rattle.std.specs.Prelude.{◌≡◌, ◌≢◌, ◌++◌, OnOk};
ghost use Rattle.std.specs.Fmt.{decimal, digits};
ghost use Rattle.pdb.specs.Error.TheVariants.{OutOfMemory};
ghost use Rattle.pdb_text.specs.Digits.{hex};
ghost use Rattle.tool_output.specs.ErrorLine.{error_line, error_text, later_message, long_hex, message_of, short_hex};

use pdb::Error;
use pdb_text::{put_decimal, put_hex4, put_line_end};
use std::alloc::AllocError;
use tool_printing::put_mark;

const NOT_READ: &[u8] = b" are not supported";

/// Text, a number in decimal digits, and text.
fn put_numbered(out: &mut Vec<u8>, before: &[u8], n: u32, behind: &[u8]) -> Result<(), AllocError>
    ensures { OnOk result (out.new.items ≡ out.old.items ++ (before.now ++ decimal n ++ behind.now)) }
{
    out.extend_from_slice(before)?;
    put_decimal(out, u64::from(n))?;
    out.extend_from_slice(behind)
}

/// Text, `0x` and a number in four hex digits, and text.
fn put_kind(out: &mut Vec<u8>, before: &[u8], n: u16, behind: &[u8]) -> Result<(), AllocError>
    ensures { OnOk result (out.new.items ≡ out.old.items ++ (before.now ++ long_hex n ++ behind.now)) }
{
    out.extend_from_slice(before)?;
    out.extend_from_slice(b"0x")?;
    put_hex4(out, n)?;
    out.extend_from_slice(behind)
}

/// Text, `0x` and so many hex digits as a number has, and text.
fn put_index(out: &mut Vec<u8>, before: &[u8], n: u32, behind: &[u8]) -> Result<(), AllocError>
    ensures { OnOk result (out.new.items ≡ out.old.items ++ (before.now ++ short_hex n ++ behind.now)) }
{
    let alloc = *out.allocator();
    let number = format!(in alloc; "{n:x}")?;
    out.extend_from_slice(before)?;
    out.extend_from_slice(b"0x")?;
    out.extend_from_slice(number.as_bytes())?;
    out.extend_from_slice(behind)
}

/// Two texts.
fn put_two(out: &mut Vec<u8>, first: &[u8], second: &[u8]) -> Result<(), AllocError>
    ensures { OnOk result (out.new.items ≡ out.old.items ++ (first.now ++ second.now)) }
{
    out.extend_from_slice(first)?;
    out.extend_from_slice(second)
}

/// What the Display of a later error writes: one for what stands in a symbol, in a part of a module, or for no file.
fn put_later_message(out: &mut Vec<u8>, e: Error) -> Result<(), AllocError>
    ensures { OnOk result (out.new.items ≡ out.old.items ++ later_message e) }
{
    match e {
        Error::UnimplementedSymbolKind(n) => put_kind(out, b"symbols of kind ", n, NOT_READ),
        Error::UnimplementedDebugSubsection(n) => {
            put_index(out, b"debug subsections of kind ", n, NOT_READ)
        }
        Error::UnimplementedFileChecksumKind(n) => {
            put_numbered(out, b"file checksums of kind ", u32::from(n), NOT_READ)
        }
        Error::InvalidFileChecksumOffset(n) => {
            put_index(out, b"there is no file checksum at ", n, b"")
        }
        Error::UnknownBinaryAnnotation(n) => {
            put_numbered(out, b"binary annotation ", n, b" is unknown")
        }
        Error::InvalidCompressedAnnotation => {
            out.extend_from_slice(b"a number in a binary annotation is not spelled as it must be")
        }
        Error::NotACrossModuleRef(n) => {
            put_index(out, b"index ", n, b" refers to no other module")
        }
        Error::CrossModuleRefNotFound(n) => {
            put_index(
                out,
                b"index ",
                n,
                b" is not among the imports of the module",
            )
        }
        Error::UnexpectedNumericPrefix(n) => {
            put_kind(out, b"the prefix ", n, b" says no known kind of number")
        }
        Error::IoError => out.extend_from_slice(b"the file could not be read"),
        Error::OutOfMemory => out.extend_from_slice(b"out of memory"),
        _ => Ok(()),
    }
}

/// What the error's Display writes.
pub fn put_message(out: &mut Vec<u8>, e: Error) -> Result<(), AllocError>
    ensures { OnOk result (out.new.items ≡ out.old.items ++ message_of e) }
{
    match e {
        Error::UnexpectedEof => out.extend_from_slice(b"the data ends before a record does"),
        Error::UnimplementedFeature(feature) => {
            put_two(out, b"not supported: ", feature.as_str().as_bytes())
        }
        Error::UnrecognizedFileFormat => {
            out.extend_from_slice(b"this is no PDB file of the format MSF 7.00")
        }
        Error::InvalidPageSize(n) => {
            put_numbered(out, b"the container has an invalid page size: ", n, b"")
        }
        Error::PageReferenceOutOfRange(n) => {
            put_numbered(out, b"page ", n, b" is not among the pages of the file")
        }
        Error::StreamNotFound(n) => put_numbered(out, b"there is no stream ", n, b""),
        Error::StreamNameNotFound => out.extend_from_slice(b"there is no stream of this name"),
        Error::GlobalSymbolsNotFound => out.extend_from_slice(b"the file has no global symbols"),
        Error::AddressMapNotFound => out.extend_from_slice(b"the file has no complete address map"),
        Error::InvalidStreamLength(part) => {
            put_two(out, b"invalid length: ", part.as_str().as_bytes())
        }
        Error::SymbolTooShort => {
            out.extend_from_slice(b"a symbol record is shorter than two bytes")
        }
        e => put_later_message(out, e),
    }
}

/// The text of an error or of a list's fault: `error`, its number, and what its Display writes.
fn put_error_text(out: &mut Vec<u8>, e: Error) -> Result<(), AllocError>
    ensures { OnOk result (out.new.items ≡ out.old.items ++ error_text e) }
{
    put_numbered(out, b"error ", u32::from(e.number()), b" ")?;
    put_message(out, e)?;
    put_line_end(out)
}

/// The line of an error, behind a mark.
pub fn put_error_line(out: &mut Vec<u8>, e: Error) -> Result<(), AllocError>
    ensures { OnOk result (out.new.items ≡ out.old.items ++ error_line e) }
{
    put_mark(out)?;
    put_error_text(out, e)
}

/// The line of the error of a call that reads the file; out of memory is passed on.
pub fn put_refusal_line(out: &mut Vec<u8>, e: Error) -> Result<(), AllocError>
    ensures { OnOk result ((e ≢ OutOfMemory) × (out.new.items ≡ out.old.items ++ error_line e)) }
{
    match e {
        Error::OutOfMemory => Err(AllocError),
        e => put_error_line(out, e),
    }
}

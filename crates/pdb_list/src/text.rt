//! Pieces of text, each put behind what is there already.

ghost use Rattle.std.specs.Prelude.{◌≡◌, ◌≢◌, ◌++◌, codes, OnOk};
ghost use Rattle.std.specs.Fmt.{decimal};
ghost use Rattle.pdb.specs.Error.TheVariants.{OutOfMemory};
ghost use Rattle.pdb_list.specs.Texts.{error_text, optional_text, stream_text};
ghost use Rattle.pdb_list.specs.ModuleTexts.{optional_field_text};

use pdb::{Error, StreamIndex};
use pdb_text::{decimal2, put_decimal, put_field, put_line_end};
use std::alloc::AllocError;

/// `refused`, a number in decimal digits, and the end of a line.
#[tactic(auto, using(pdb_text::proofs::Pairs::decimal_two))]
pub fn put_refused_line(out: &mut Vec<u8>, n: u8) -> Result<(), AllocError>
    ensures { OnOk result (out.new.items ≡ out.old.items ++ (codes "refused " ++ decimal n ++ codes "\n")) }
{
    let n = u64::from(n);
    if 10 <= n && n < 100 {
        let d = decimal2(n);
        return out.extend_from_slice(&[
            b'r', b'e', b'f', b'u', b's', b'e', b'd', b' ', d[0], d[1], b'\n',
        ]);
    }
    out.extend_from_slice(b"refused ")?;
    put_decimal(out, n)?;
    put_line_end(out)
}

/// The number of a stream, or `-` for that of no stream.
pub fn put_stream(out: &mut Vec<u8>, index: StreamIndex) -> Result<(), AllocError>
    ensures { OnOk result (out.new.items ≡ out.old.items ++ stream_text index.0) }
{
    match index.msf_number() {
        Some(number) => put_decimal(out, u64::from(number)),
        None => {
            out.push(b'-')?;
            Ok(())
        }
    }
}

/// A number, or `-` where there is none.
pub fn put_optional(out: &mut Vec<u8>, number: Option<u32>) -> Result<(), AllocError>
    ensures { OnOk result (out.new.items ≡ out.old.items ++ optional_text number) }
{
    match number {
        Some(number) => put_decimal(out, u64::from(number)),
        None => {
            out.push(b'-')?;
            Ok(())
        }
    }
}

/// A space and a number, or `-` where there is none.
#[tactic(auto, using(crate::proofs::Numbers::zero_digit))]
pub fn put_optional_field(out: &mut Vec<u8>, number: Option<u32>) -> Result<(), AllocError>
    ensures { OnOk result (out.new.items ≡ out.old.items ++ optional_field_text number) }
{
    match number {
        // Most columns are 0.
        Some(0) => out.extend_from_slice(b" 0"),
        Some(number) => put_field(out, u64::from(number)),
        None => out.extend_from_slice(b" -"),
    }
}

/// The line that says that there is nothing to list.
pub fn put_none(out: &mut Vec<u8>) -> Result<(), AllocError>
    ensures { OnOk result (out.new.items ≡ out.old.items ++ codes "none\n") }
{
    out.extend_from_slice(b"none\n")
}

/// The line of an error.
pub fn put_error(out: &mut Vec<u8>, number: u8) -> Result<(), AllocError>
    ensures { OnOk result (out.new.items ≡ out.old.items ++ codes "error " ++ decimal number ++ codes "\n") }
{
    out.extend_from_slice(b"error ")?;
    put_decimal(out, u64::from(number))?;
    put_line_end(out)
}

/// The line of the error of a call that reads the file, unless it is out of memory.
pub fn put_refusal(out: &mut Vec<u8>, e: Error) -> Result<(), AllocError>
    ensures { OnOk result ((e ≢ OutOfMemory) × (out.new.items ≡ out.old.items ++ error_text e)) }
{
    match e {
        Error::OutOfMemory => Err(AllocError),
        e => put_error(out, e.number()),
    }
}

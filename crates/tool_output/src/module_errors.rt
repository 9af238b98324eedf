//! The lines of errors of a module, in the format of the output.

ghost use Rattle.std.specs.Prelude.{◌≡◌, ◌≢◌, ◌++◌, OnOk, IfErr};
ghost use Rattle.json.specs.Tree.{json_tokens};
ghost use Rattle.pdb.specs.Error.{Error};
ghost use Rattle.tool_output.specs.ErrorObjects.{error_of, error_value, none_of, none_value};
ghost use Rattle.tool_output.specs.Objects.{Adds, json_line, number_value};
ghost use Rattle.tool_output.specs.Stops.{StopsComposing};

use crate::error_line::put_error_line;
use crate::error_objects::{put_error_members, put_none_members};
use crate::objects::{begin_numbered, end_line, value_behind};
use crate::stop::Stop;
use json::Writer;
use pdb::Error;
use std::alloc::{AllocError, Global};
use tool_arguments::options::OutputFormat;
use tool_printing::put_mark;

/// The object of an error of module `k`.
fn put_error_value(alloc: Global, writer: &mut Writer, k: u64, e: Error) -> Result<(), AllocError>
    ensures { Adds result writer.old writer.new (json_tokens (error_value (number_value k) e)) }
{
    begin_numbered(writer, "module", k)?;
    put_error_members(alloc, writer, e)
}

/// Its line.
#[tactic(auto, unfolding(crate::specs::Objects::json_line))]
fn put_error_object(out: &mut Vec<u8>, k: u64, e: Error) -> Result<(), AllocError>
    ensures { OnOk result (out.new.items ≡ out.old.items ++ json_line (error_value (number_value k) e)) }
{
    let alloc = *out.allocator();
    let mut writer = value_behind(out);
    put_error_value(alloc, &mut writer, k, e)?;
    end_line(out, writer)
}

/// The line of an error of module `k`.
pub fn put_error_of(
    out: &mut Vec<u8>,
    format: OutputFormat,
    k: u64,
    e: Error,
) -> Result<(), AllocError>
    ensures { OnOk result (out.new.items ≡ out.old.items ++ error_of format k e) }
{
    match format {
        OutputFormat::Text => put_error_line(out, e),
        OutputFormat::Json => {
            put_mark(out)?;
            put_error_object(out, k, e)
        }
    }
}

/// The same of the error of a call that reads the file; out of memory is passed on.
pub fn put_refusal_of(
    out: &mut Vec<u8>,
    format: OutputFormat,
    k: u64,
    e: Error,
) -> Result<(), AllocError>
    ensures { OnOk result ((e ≢ Error.OutOfMemory) × (out.new.items ≡ out.old.items ++ error_of format k e)) }
{
    match e {
        Error::OutOfMemory => Err(AllocError),
        e => put_error_of(out, format, k, e),
    }
}

/// The same; out of memory, and a source that failed, are passed on.
pub fn put_refused_of(out: &mut Vec<u8>, format: OutputFormat, k: u64, e: Error) -> Result<(), Stop>
    ensures text { OnOk result ((e ≢ Error.OutOfMemory) × (e ≢ Error.IoError) × (out.new.items ≡ out.old.items ++ error_of format k e)) }
    ensures unwritten { IfErr result (StopsComposing (e ≡ Error.IoError)) }
{
    match e {
        Error::OutOfMemory => Err(Stop::Memory),
        Error::IoError => Err(Stop::Read),
        e => Ok(put_error_of(out, format, k, e)?),
    }
}

/// The object of a module `k` that isn't there.
fn put_none_value(writer: &mut Writer, k: u64) -> Result<(), AllocError>
    ensures { Adds result writer.old writer.new (json_tokens (none_value (number_value k))) }
{
    begin_numbered(writer, "module", k)?;
    put_none_members(writer)
}

/// Its line.
#[tactic(auto, unfolding(crate::specs::Objects::json_line))]
fn put_none_object(out: &mut Vec<u8>, k: u64) -> Result<(), AllocError>
    ensures { OnOk result (out.new.items ≡ out.old.items ++ json_line (none_value (number_value k))) }
{
    let mut writer = value_behind(out);
    put_none_value(&mut writer, k)?;
    end_line(out, writer)
}

/// The line of a module `k` that isn't there.
pub fn put_none_of(out: &mut Vec<u8>, format: OutputFormat, k: u64) -> Result<(), AllocError>
    ensures { OnOk result (out.new.items ≡ out.old.items ++ none_of format k) }
{
    match format {
        OutputFormat::Text => out.extend_from_slice(b"none\n"),
        OutputFormat::Json => put_none_object(out, k),
    }
}

//! The lines of errors, in the format of the output.

ghost use Rattle.std.specs.Prelude.{◌≡◌, ◌≢◌, ◌∷◌, ◌++◌, codes, OnOk, IfErr};
ghost use Rattle.json.specs.Json.{member, no_members, null, string};
ghost use Rattle.json.specs.Token.{begin_object, key};
ghost use Rattle.json.specs.Tree.{json_tokens, members_tokens};
ghost use Rattle.pdb.specs.Error.{Error};
ghost use Rattle.tool_output.specs.ErrorObjects.{error_in, error_members, error_value, none_in, none_value};
ghost use Rattle.tool_output.specs.Objects.{Adds, json_line};
ghost use Rattle.tool_output.specs.Stops.{StopsComposing};

use crate::error_line::{put_error_line, put_message};
use crate::objects::{end_line, put_last, put_null, put_number, value_behind};
use crate::stop::Stop;
use json::Writer;
use pdb::Error;
use std::alloc::{AllocError, Global};
use tool_arguments::options::OutputFormat;
use tool_printing::put_mark;

/// An object outside modules.
fn begin_outside(writer: &mut Writer) -> Result<(), AllocError>
    ensures { Adds result writer.old writer.new (begin_object ∷ key (codes "module") ∷ json_tokens null) }
{
    writer.begin_object()?;
    put_null(writer, "module")
}

/// The number and the text of an error, as the last members of an object.
pub fn put_error_members(alloc: Global, writer: &mut Writer, e: Error) -> Result<(), AllocError>
    ensures { Adds result writer.old writer.new (members_tokens (error_members e)) }
{
    let mut message = Vec::new(alloc);
    put_message(&mut message, e)?;
    put_number(writer, "error", u64::from(e.number()))?;
    put_last(alloc, writer, "text", &message)
}

/// The object of an error outside modules.
fn put_error_value(alloc: Global, writer: &mut Writer, e: Error) -> Result<(), AllocError>
    ensures { Adds result writer.old writer.new (json_tokens (error_value null e)) }
{
    begin_outside(writer)?;
    put_error_members(alloc, writer, e)
}

/// The line of an error outside modules, as an object.
#[tactic(auto, unfolding(crate::specs::Objects::json_line))]
fn put_error_object(out: &mut Vec<u8>, e: Error) -> Result<(), AllocError>
    ensures { OnOk result (out.new.items ≡ out.old.items ++ json_line (error_value null e)) }
{
    let alloc = *out.allocator();
    let mut writer = value_behind(out);
    put_error_value(alloc, &mut writer, e)?;
    end_line(out, writer)
}

/// The line of an error outside modules.
pub fn put_error_in(out: &mut Vec<u8>, format: OutputFormat, e: Error) -> Result<(), AllocError>
    ensures { OnOk result (out.new.items ≡ out.old.items ++ error_in format e) }
{
    match format {
        OutputFormat::Text => put_error_line(out, e),
        OutputFormat::Json => {
            put_mark(out)?;
            put_error_object(out, e)
        }
    }
}

/// The same; out of memory, and a source that failed, are passed on.
pub fn put_refused_in(out: &mut Vec<u8>, format: OutputFormat, e: Error) -> Result<(), Stop>
    ensures text { OnOk result ((e ≢ Error.OutOfMemory) × (e ≢ Error.IoError) × (out.new.items ≡ out.old.items ++ error_in format e)) }
    ensures unwritten { IfErr result (StopsComposing (e ≡ Error.IoError)) }
{
    match e {
        Error::OutOfMemory => Err(Stop::Memory),
        Error::IoError => Err(Stop::Read),
        e => Ok(put_error_in(out, format, e)?),
    }
}

/// The last members of the object of what isn't there.
pub fn put_none_members(writer: &mut Writer) -> Result<(), AllocError>
    ensures { Adds result writer.old writer.new (members_tokens (member (codes "error") null (member (codes "text") (string (codes "none")) no_members))) }
{
    put_null(writer, "error")?;
    writer.key("text")?;
    writer.string("none")?;
    writer.end_object()
}

/// The object of what isn't there, outside modules.
fn put_none_value(writer: &mut Writer) -> Result<(), AllocError>
    ensures { Adds result writer.old writer.new (json_tokens (none_value null)) }
{
    begin_outside(writer)?;
    put_none_members(writer)
}

/// Its line, as an object.
#[tactic(auto, unfolding(crate::specs::Objects::json_line))]
fn put_none_object(out: &mut Vec<u8>) -> Result<(), AllocError>
    ensures { OnOk result (out.new.items ≡ out.old.items ++ json_line (none_value null)) }
{
    let mut writer = value_behind(out);
    put_none_value(&mut writer)?;
    end_line(out, writer)
}

/// The line of what isn't there, outside modules.
pub fn put_none_in(out: &mut Vec<u8>, format: OutputFormat) -> Result<(), AllocError>
    ensures { OnOk result (out.new.items ≡ out.old.items ++ none_in format) }
{
    match format {
        OutputFormat::Text => out.extend_from_slice(b"none\n"),
        OutputFormat::Json => put_none_object(out),
    }
}

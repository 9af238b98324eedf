//! The line of what `check` finds, in a format.

ghost use Rattle.std.specs.Prelude.{◌≡◌, ◌∷◌, ◌++◌, [], codes, OnOk};
ghost use Rattle.json.specs.Json.{member, no_members, null};
ghost use Rattle.json.specs.Tree.{json_tokens, members_tokens};
ghost use Rattle.tool_check.specs.Findings.{finding_in, finding_line, finding_value, line_of, label_members, sound_in, sound_value};
ghost use Rattle.tool_output.specs.Objects.{Adds, json_line};

use json::Writer;
use pdb_text::{put_line_end, put_one_line};
use std::alloc::{AllocError, Global};
use std::marker::Model;
use tool_arguments::options::OutputFormat;
use tool_output::objects::{begin_text, end_line, put_last, put_member, put_null, value_behind};

/// What the lines of a part of a file have in common: the format, the file's name, and how the part's labels begin.
#[derive(Drop)]
pub struct Subject<'a> {
    format: OutputFormat,
    file: &'a [u8],
    part: &'a [u8],
}

impl<'a> Model for Subject<'a> {
    ghost use Rattle.tool_check.specs.Findings.{Subject as SubjectOf};

    ghost Value = { SubjectOf };

    ghost view = { λ f. record { format = f.format; file = f.file.now; part = f.part.now } };
}

impl<'a> Subject<'a> {
    /// That of this part of a file.
    pub fn new(format: OutputFormat, file: &'a [u8], part: &'a [u8]) -> Self
        ensures { result ≡ record { format = format; file = file.entry.now; part = part.entry.now } }
    {
        Subject { format, file, part }
    }

    /// The line of what is wrong at a label of the part.
    #[tactic(auto, unfolding(crate::specs::Findings::line_of))]
    pub fn put_line(&self, out: &mut Vec<u8>, label: &[u8], what: &[u8]) -> Result<(), AllocError>
        ensures { OnOk result (out.new.items ≡ out.old.items ++ line_of self.now label.now what.now) }
    {
        let mut whole = Vec::new(*out.allocator());
        whole.extend_from_slice(self.part)?;
        whole.extend_from_slice(label)?;
        put_finding_in(out, self.format, self.file, &whole, what)
    }
}

/// `FILE: WHERE: TEXT`.
#[tactic(auto, unfolding(crate::specs::Findings::finding_line))]
fn put_finding(out: &mut Vec<u8>, file: &[u8], label: &[u8], what: &[u8]) -> Result<(), AllocError>
    ensures { OnOk result (out.new.items ≡ out.old.items ++ finding_line file.now label.now what.now) }
{
    put_one_line(out, file)?;
    out.extend_from_slice(b": ")?;
    out.extend_from_slice(label)?;
    out.extend_from_slice(b": ")?;
    out.extend_from_slice(what)?;
    put_line_end(out)
}

/// A label and what is wrong there, as the last members of an object.
fn put_label_members(
    alloc: Global,
    writer: &mut Writer,
    label: &[u8],
    what: &[u8],
) -> Result<(), AllocError>
    ensures { Adds result writer.old writer.new (members_tokens (label_members label.now what.now)) }
{
    put_member(alloc, writer, "where", label)?;
    put_last(alloc, writer, "text", what)
}

/// The JSON object of what is wrong at a label of a file.
fn put_finding_value(
    alloc: Global,
    writer: &mut Writer,
    file: &[u8],
    label: &[u8],
    what: &[u8],
) -> Result<(), AllocError>
    ensures { Adds result writer.old writer.new (json_tokens (finding_value file.now label.now what.now)) }
{
    begin_text(alloc, writer, "file", file)?;
    put_label_members(alloc, writer, label, what)?;
    Ok(())
}

/// Its line.
#[tactic(auto, unfolding(tool_output::specs::Objects::json_line))]
fn put_finding_object(
    out: &mut Vec<u8>,
    file: &[u8],
    label: &[u8],
    what: &[u8],
) -> Result<(), AllocError>
    ensures { OnOk result (out.new.items ≡ out.old.items ++ json_line (finding_value file.now label.now what.now)) }
{
    let alloc = *out.allocator();
    let mut writer = value_behind(out);
    put_finding_value(alloc, &mut writer, file, label, what)?;
    end_line(out, writer)
}

/// The line of what is wrong at a label of a file, in a format.
fn put_finding_in(
    out: &mut Vec<u8>,
    format: OutputFormat,
    file: &[u8],
    label: &[u8],
    what: &[u8],
) -> Result<(), AllocError>
    ensures { OnOk result (out.new.items ≡ out.old.items ++ finding_in format file.now label.now what.now) }
{
    match format {
        OutputFormat::Text => put_finding(out, file, label, what),
        OutputFormat::Json => put_finding_object(out, file, label, what),
    }
}

/// No label and no message, as the last members of an object.
fn put_no_label(writer: &mut Writer) -> Result<(), AllocError>
    ensures { Adds result writer.old writer.new (members_tokens (member (codes "where") null (member (codes "text") null no_members))) }
{
    put_null(writer, "where")?;
    put_null(writer, "text")?;
    writer.end_object()
}

/// The JSON object of a file without an error.
fn put_sound_value(alloc: Global, writer: &mut Writer, file: &[u8]) -> Result<(), AllocError>
    ensures { Adds result writer.old writer.new (json_tokens (sound_value file.now)) }
{
    begin_text(alloc, writer, "file", file)?;
    put_no_label(writer)?;
    Ok(())
}

/// Its line.
#[tactic(auto, unfolding(tool_output::specs::Objects::json_line))]
fn put_sound_object(out: &mut Vec<u8>, file: &[u8]) -> Result<(), AllocError>
    ensures { OnOk result (out.new.items ≡ out.old.items ++ json_line (sound_value file.now)) }
{
    let alloc = *out.allocator();
    let mut writer = value_behind(out);
    put_sound_value(alloc, &mut writer, file)?;
    end_line(out, writer)
}

/// The line of a file without an error, in a format.
pub fn put_sound_in(out: &mut Vec<u8>, format: OutputFormat, file: &[u8]) -> Result<(), AllocError>
    ensures { OnOk result (out.new.items ≡ out.old.items ++ sound_in format file.now) }
{
    match format {
        OutputFormat::Text => {
            put_one_line(out, file)?;
            out.extend_from_slice(b": ok\n")
        }
        OutputFormat::Json => put_sound_object(out, file),
    }
}

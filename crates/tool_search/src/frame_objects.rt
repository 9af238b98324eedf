//! The JSON object of an address: the argument, and the frames of its code.

ghost use Rattle.std.specs.Prelude.{◌≡◌, ◌∷◌, ◌++◌, [], codes, flat_map, map, option_copied, Some, OnOk};
ghost use Rattle.std.specs.Option.{option_map};
ghost use Rattle.json.specs.Json.{array, member, no_members, null};
ghost use Rattle.json.specs.Token.{begin_object, key};
ghost use Rattle.json.specs.Tree.{json_tokens, members_tokens};
ghost use Rattle.pdb.specs.Qualified.{shown_qualified};
ghost use Rattle.pdb.specs.Text.{name_bytes};
ghost use Rattle.pdb_resolve.specs.Frames.{qualified_text};
ghost use Rattle.pdb_resolve.specs.KeptFrames.{shown_frame};
ghost use Rattle.pdb_code.specs.Namings.{shown_function_name};
ghost use Rattle.tool_search.specs.FrameObjects.{asked_value, file_value, frame_items, frame_value, frames_member, line_members, name_value, unasked_value};
ghost use Rattle.tool_output.specs.Objects.{Adds, json_line, text_value};

use crate::finder::put_qualified;
use json::Writer;
use pdb::{QualifiedName, RawString};
use pdb_resolve::{Frame, FunctionName};
use std::alloc::{AllocError, Global};
use tool_output::objects::{end_line, put_known, put_null, put_number, put_text, value_behind};

/// A function's name, as a member. It is composed in `room`.
pub fn put_name(
    writer: &mut Writer,
    room: &mut Vec<u8>,
    name: Option<QualifiedName<'_>>,
) -> Result<(), AllocError>
    ensures { Adds result writer.old writer.new (key (codes "name") ∷ json_tokens (name_value (option_map shown_qualified name.entry))) }
{
    let Some(name) = name else {
        return put_null(writer, "name");
    };
    room.clear();
    put_qualified(room, name)?;
    writer.key("name")?;
    put_known(*room.allocator(), writer, room)
}

/// A function's name, with the one before it.
fn put_whole_name(out: &mut Vec<u8>, name: &FunctionName<'_>) -> Result<(), AllocError>
    ensures { OnOk result (out.new.items ≡ out.old.items ++ qualified_text (Some (shown_function_name name.now))) }
{
    if let Some(scope) = name.qualifier() {
        out.extend_from_slice(scope.as_bytes())?;
        out.extend_from_slice(b"::")?;
    }
    out.extend_from_slice(name.unqualified())
}

/// The name of a frame's function, as a member. It is composed in `room`.
fn put_function_name(
    writer: &mut Writer,
    room: &mut Vec<u8>,
    name: Option<&FunctionName<'_>>,
) -> Result<(), AllocError>
    ensures { Adds result writer.old writer.new (key (codes "name") ∷ json_tokens (name_value (option_map shown_function_name (option_copied name.entry)))) }
{
    let Some(name) = name else {
        return put_null(writer, "name");
    };
    room.clear();
    put_whole_name(room, name)?;
    writer.key("name")?;
    put_known(*room.allocator(), writer, room)
}

/// The name of a source file, as a member.
pub fn put_file(
    alloc: Global,
    writer: &mut Writer,
    file: Option<RawString<'_>>,
) -> Result<(), AllocError>
    ensures { Adds result writer.old writer.new (key (codes "file") ∷ json_tokens (file_value (option_map name_bytes file.entry))) }
{
    let Some(file) = file else {
        return put_null(writer, "file");
    };
    writer.key("file")?;
    put_known(alloc, writer, file.as_bytes())
}

/// The line and the column of a frame, as the last members of an object.
fn put_line(writer: &mut Writer, line: u32, column: u32) -> Result<(), AllocError>
    ensures { Adds result writer.old writer.new (members_tokens (line_members line column)) }
{
    put_number(writer, "line", u64::from(line))?;
    put_number(writer, "column", u64::from(column))?;
    writer.end_object()
}

/// The object of a frame.
fn put_frame(writer: &mut Writer, room: &mut Vec<u8>, frame: &Frame<'_>) -> Result<(), AllocError>
    ensures { Adds result writer.old writer.new (json_tokens (frame_value (shown_frame frame.now))) }
{
    writer.begin_object()?;
    put_function_name(writer, room, frame.name.as_ref())?;
    put_file(*room.allocator(), writer, frame.file)?;
    put_line(writer, frame.line, frame.column)
}

/// The objects of frames.
fn put_frames(
    writer: &mut Writer,
    room: &mut Vec<u8>,
    frames: &[Frame<'_>],
) -> Result<(), AllocError>
    ensures { Adds result writer.old writer.new (flat_map (λ f. json_tokens (frame_value f)) (map shown_frame frames.now)) }
{
    for frame in frames {
        put_frame(writer, room, frame)?;
    }
    Ok(())
}

/// An object that has an argument or a line so far.
fn begin_asked(alloc: Global, writer: &mut Writer, word: &[u8]) -> Result<(), AllocError>
    ensures { Adds result writer.old writer.new (begin_object ∷ key (codes "asked") ∷ json_tokens (text_value word.now)) }
{
    writer.begin_object()?;
    writer.key("asked")?;
    put_text(alloc, writer, word)
}

/// The capacity for a name before it grows, in bytes.
const CAPACITY: usize = 64;

/// The array of frames.
fn put_array(alloc: Global, writer: &mut Writer, frames: &[Frame<'_>]) -> Result<(), AllocError>
    ensures { Adds result writer.old writer.new (json_tokens (array (frame_items (map shown_frame frames.now)))) }
{
    let mut room = Vec::with_capacity(alloc, CAPACITY)?;
    writer.begin_array()?;
    put_frames(writer, &mut room, frames)?;
    writer.end_array()?;
    Ok(())
}

/// The frames, as the last member of an object.
fn put_frames_member(
    alloc: Global,
    writer: &mut Writer,
    frames: &[Frame<'_>],
) -> Result<(), AllocError>
    ensures { Adds result writer.old writer.new (members_tokens (frames_member (map shown_frame frames.now))) }
{
    writer.key("frames")?;
    put_array(alloc, writer, frames)?;
    writer.end_object()
}

/// The object of an argument and of the frames at the address that it is.
fn put_asked_value(
    alloc: Global,
    writer: &mut Writer,
    word: &[u8],
    frames: &[Frame<'_>],
) -> Result<(), AllocError>
    ensures { Adds result writer.old writer.new (json_tokens (asked_value word.now (map shown_frame frames.now))) }
{
    begin_asked(alloc, writer, word)?;
    put_frames_member(alloc, writer, frames)
}

/// The line of an argument and of the frames at the address that it is.
#[tactic(auto, unfolding(tool_output::specs::Objects::json_line))]
pub fn put_asked_line(
    alloc: Global,
    out: &mut Vec<u8>,
    word: &[u8],
    frames: &[Frame<'_>],
) -> Result<(), AllocError>
    ensures { OnOk result (out.new.items ≡ out.old.items ++ json_line (asked_value word.now (map shown_frame frames.now))) }
{
    let mut writer = value_behind(out);
    put_asked_value(alloc, &mut writer, word, frames)?;
    end_line(out, writer)
}

/// No frames, as the last member of an object.
fn put_no_frames(writer: &mut Writer) -> Result<(), AllocError>
    ensures { Adds result writer.old writer.new (members_tokens (member (codes "frames") null no_members)) }
{
    put_null(writer, "frames")?;
    writer.end_object()
}

/// The object of a line that is no address.
fn put_unasked_value(alloc: Global, writer: &mut Writer, line: &[u8]) -> Result<(), AllocError>
    ensures { Adds result writer.old writer.new (json_tokens (unasked_value line.now)) }
{
    begin_asked(alloc, writer, line)?;
    put_no_frames(writer)
}

/// The line of one that is no address.
#[tactic(auto, unfolding(tool_output::specs::Objects::json_line))]
pub fn put_unasked_line(alloc: Global, out: &mut Vec<u8>, line: &[u8]) -> Result<(), AllocError>
    ensures { OnOk result (out.new.items ≡ out.old.items ++ json_line (unasked_value line.now)) }
{
    let mut writer = value_behind(out);
    put_unasked_value(alloc, &mut writer, line)?;
    end_line(out, writer)
}

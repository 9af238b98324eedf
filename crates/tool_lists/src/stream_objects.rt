//! The JSON objects of `streams`.

ghost use Rattle.std.specs.Prelude.{◌≡◌, ◌∷◌, ◌++◌, codes, flat_map, map, OnOk};
ghost use Rattle.json.specs.Json.{array};
ghost use Rattle.json.specs.Token.{key};
ghost use Rattle.json.specs.Tree.{json_tokens, members_tokens};
ghost use Rattle.tool_output.specs.Objects.{Adds, json_line, text_value};
ghost use Rattle.tool_lists.specs.StreamRoles.{label_of, name_of, role_view, whole_text};
ghost use Rattle.tool_lists.specs.StreamTexts.{size_value, stream_value, what_items, what_member};

use crate::stream_roles::{Role, What, put_whole};
use json::Writer;
use std::alloc::AllocError;
use tool_output::objects::{
    begin_numbered, end_line, put_null, put_number, put_text, value_behind,
};

/// The size of a stream, as a member.
fn put_size(writer: &mut Writer, size: Option<u32>) -> Result<(), AllocError>
    ensures { Adds result writer.old writer.new (key (codes "size") ∷ json_tokens (size_value size)) }
{
    match size {
        Some(size) => put_number(writer, "size", u64::from(size)),
        None => put_null(writer, "size"),
    }
}

/// What a stream is, as a string that is composed in `room`.
fn put_one(writer: &mut Writer, room: &mut Vec<u8>, what: What<'_>) -> Result<(), AllocError>
    ensures { Adds result writer.old writer.new (json_tokens (text_value (whole_text (label_of what.entry) (name_of what.entry)))) }
{
    room.clear();
    put_whole(room, what)?;
    put_text(*room.allocator(), writer, room)
}

/// All that a stream is.
fn put_all(writer: &mut Writer, room: &mut Vec<u8>, roles: &[Role<'_>]) -> Result<(), AllocError>
    ensures { Adds result writer.old writer.new (flat_map (λ r. json_tokens (text_value (whole_text r.label r.name))) (map role_view roles.now)) }
{
    for role in roles {
        put_one(writer, room, role.what)?;
    }
    Ok(())
}

/// The same, as an array.
fn put_array(writer: &mut Writer, room: &mut Vec<u8>, roles: &[Role<'_>]) -> Result<(), AllocError>
    ensures { Adds result writer.old writer.new (json_tokens (array (what_items (map role_view roles.now)))) }
{
    writer.begin_array()?;
    put_all(writer, room, roles)?;
    writer.end_array()?;
    Ok(())
}

/// The same, as the last member of an object.
fn put_what_member(
    writer: &mut Writer,
    room: &mut Vec<u8>,
    roles: &[Role<'_>],
) -> Result<(), AllocError>
    ensures { Adds result writer.old writer.new (members_tokens (what_member (map role_view roles.now))) }
{
    writer.key("what")?;
    put_array(writer, room, roles)?;
    writer.end_object()
}

/// The JSON object of a stream.
fn put_value(
    writer: &mut Writer,
    room: &mut Vec<u8>,
    number: u32,
    size: Option<u32>,
    roles: &[Role<'_>],
) -> Result<(), AllocError>
    ensures { Adds result writer.old writer.new (json_tokens (stream_value number size (map role_view roles.now))) }
{
    begin_numbered(writer, "stream", u64::from(number))?;
    put_size(writer, size)?;
    put_what_member(writer, room, roles)?;
    Ok(())
}

/// The line of a stream, as an object. Texts are composed in `room`.
#[tactic(auto, unfolding(tool_output::specs::Objects::json_line))]
pub fn put_line_object(
    out: &mut Vec<u8>,
    room: &mut Vec<u8>,
    number: u32,
    size: Option<u32>,
    roles: &[Role<'_>],
) -> Result<(), AllocError>
    ensures { OnOk result (out.new.items ≡ out.old.items ++ json_line (stream_value number size (map role_view roles.now))) }
{
    let mut writer = value_behind(out);
    put_value(&mut writer, room, number, size, roles)?;
    end_line(out, writer)
}

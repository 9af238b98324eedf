//! The JSON objects of `find` and `where`.

ghost use Rattle.std.specs.Prelude.{◌≡◌, ◌∷◌, ◌++◌, [], codes, OnOk};
ghost use Rattle.std.specs.Option.{option_map, unwrap_or};
ghost use Rattle.json.specs.Token.{begin_object, key};
ghost use Rattle.json.specs.Tree.{json_tokens, members_tokens};
ghost use Rattle.pdb.specs.Qualified.{shown_qualified};
ghost use Rattle.pdb.specs.Text.{name_bytes};
ghost use Rattle.pdb_places.specs.PlaceAddresses.{address_for};
ghost use Rattle.tool_search.specs.FoundObjects.{address_value, found_value, function_member, position_members, stretch_tokens, where_value};
ghost use Rattle.tool_output.specs.Objects.{Adds, json_line, optional_value, text_value};
ghost use Rattle.tool_fields.specs.Values.{place_text};

use crate::frame_objects::{put_file, put_name};
use json::Writer;
use pdb::{LineInfo, PdbInternalSectionOffset, QualifiedName, RawString};
use pdb_resolve::PlaceAddresses;
use std::alloc::AllocError;
use tool_fields::values::put_place;
use tool_lists::section_texts::put_rva;
use tool_output::objects::{
    begin_text, end_line, put_last, put_member, put_null, put_number, value_behind,
};

/// A place, as a member that is composed in `room`.
fn put_at(
    writer: &mut Writer,
    room: &mut Vec<u8>,
    place: PdbInternalSectionOffset,
) -> Result<(), AllocError>
    ensures { Adds result writer.old writer.new (key (codes "at") ∷ json_tokens (text_value (place_text place))) }
{
    room.clear();
    put_place(room, place)?;
    put_member(*room.allocator(), writer, "at", room)
}

/// An address of the image, as a member that is composed in `room`.
fn put_optional_rva(
    writer: &mut Writer,
    room: &mut Vec<u8>,
    address: Option<u32>,
) -> Result<(), AllocError>
    ensures { Adds result writer.old writer.new (key (codes "rva") ∷ json_tokens (address_value address)) }
{
    match address {
        Some(address) => put_rva(writer, room, address),
        None => put_null(writer, "rva"),
    }
}

/// How many bytes are there, as a member.
fn put_length(writer: &mut Writer, length: Option<u32>) -> Result<(), AllocError>
    ensures { Adds result writer.old writer.new (key (codes "length") ∷ json_tokens (optional_value length)) }
{
    match length {
        Some(length) => put_number(writer, "length", u64::from(length)),
        None => put_null(writer, "length"),
    }
}

/// A place, its address, and how many bytes are there, as members.
fn put_stretch(
    writer: &mut Writer,
    room: &mut Vec<u8>,
    addresses: &PlaceAddresses<'_>,
    place: PdbInternalSectionOffset,
    length: Option<u32>,
) -> Result<(), AllocError>
    ensures { Adds result writer.old writer.new (stretch_tokens addresses.now place length) }
{
    put_at(writer, room, place)?;
    put_optional_rva(writer, room, addresses.address(place))?;
    put_length(writer, length)
}

/// An object that has a kind and such members so far.
fn begin_stretch(
    writer: &mut Writer,
    room: &mut Vec<u8>,
    kind: &[u8],
    addresses: &PlaceAddresses<'_>,
    place: PdbInternalSectionOffset,
    length: Option<u32>,
) -> Result<(), AllocError>
    ensures { Adds result writer.old writer.new (begin_object ∷ key (codes "kind") ∷ json_tokens (text_value kind.now) ++ stretch_tokens addresses.now place length) }
{
    begin_text(*room.allocator(), writer, "kind", kind)?;
    put_stretch(writer, room, addresses, place, length)
}

/// The JSON object of what a name was found by.
fn put_found_value(
    writer: &mut Writer,
    room: &mut Vec<u8>,
    kind: &[u8],
    addresses: &PlaceAddresses<'_>,
    place: PdbInternalSectionOffset,
    length: Option<u32>,
    name: &[u8],
) -> Result<(), AllocError>
    ensures { Adds result writer.old writer.new (json_tokens (found_value kind.now addresses.now place length name.now)) }
{
    begin_stretch(writer, room, kind, addresses, place, length)?;
    put_last(*room.allocator(), writer, "name", name)
}

/// Its line.
#[tactic(auto, unfolding(tool_output::specs::Objects::json_line))]
pub fn put_found_object(
    out: &mut Vec<u8>,
    kind: &[u8],
    addresses: &PlaceAddresses<'_>,
    place: PdbInternalSectionOffset,
    length: Option<u32>,
    name: &[u8],
) -> Result<(), AllocError>
    ensures { OnOk result (out.new.items ≡ out.old.items ++ json_line (found_value kind.now addresses.now place length name.now)) }
{
    let mut room = Vec::new(*out.allocator());
    let mut writer = value_behind(out);
    put_found_value(&mut writer, &mut room, kind, addresses, place, length, name)?;
    end_line(out, writer)
}

/// The name of a function, as the last member of an object.
fn put_function(
    writer: &mut Writer,
    room: &mut Vec<u8>,
    name: Option<QualifiedName<'_>>,
) -> Result<(), AllocError>
    ensures { Adds result writer.old writer.new (members_tokens (function_member (option_map shown_qualified name.entry))) }
{
    put_name(writer, room, name)?;
    writer.end_object()
}

/// The file, the line, the column and the function of a record, as the last members of an object.
fn put_position(
    writer: &mut Writer,
    room: &mut Vec<u8>,
    line: &LineInfo,
    file: Option<RawString<'_>>,
    name: Option<QualifiedName<'_>>,
) -> Result<(), AllocError>
    ensures { Adds result writer.old writer.new (members_tokens (position_members line.now (option_map name_bytes file.entry) (option_map shown_qualified name.entry))) }
{
    put_file(*room.allocator(), writer, file)?;
    put_number(writer, "line", u64::from(line.line_start))?;
    put_number(writer, "column", u64::from(line.column_start.unwrap_or(0)))?;
    put_function(writer, room, name)?;
    Ok(())
}

/// The JSON object of a record of this file, in the function of this name.
fn put_where_value(
    writer: &mut Writer,
    room: &mut Vec<u8>,
    kind: &[u8],
    addresses: &PlaceAddresses<'_>,
    line: &LineInfo,
    file: Option<RawString<'_>>,
    name: Option<QualifiedName<'_>>,
) -> Result<(), AllocError>
    ensures { Adds result writer.old writer.new (json_tokens (where_value kind.now addresses.now line.now (option_map name_bytes file.entry) (option_map shown_qualified name.entry))) }
{
    begin_stretch(writer, room, kind, addresses, line.offset, line.length)?;
    put_position(writer, room, line, file, name)?;
    Ok(())
}

/// Its line.
#[tactic(auto, unfolding(tool_output::specs::Objects::json_line))]
pub fn put_where_object(
    out: &mut Vec<u8>,
    kind: &[u8],
    addresses: &PlaceAddresses<'_>,
    line: &LineInfo,
    file: Option<RawString<'_>>,
    name: Option<QualifiedName<'_>>,
) -> Result<(), AllocError>
    ensures { OnOk result (out.new.items ≡ out.old.items ++ json_line (where_value kind.now addresses.now line.now (option_map name_bytes file.entry) (option_map shown_qualified name.entry))) }
{
    let mut room = Vec::new(*out.allocator());
    let mut writer = value_behind(out);
    put_where_value(&mut writer, &mut room, kind, addresses, line, file, name)?;
    end_line(out, writer)
}

//! The text of `sections`.

ghost use Rattle.std.specs.Prelude.{◌≡◌, ◌∷◌, ◌++◌, true, IfErr, OnOk, codes, Some};
ghost use Rattle.json.specs.Token.{key};
ghost use Rattle.json.specs.Tree.{json_tokens, members_tokens};
ghost use Rattle.pdb.specs.Source.{Continues, MayFail};
ghost use Rattle.tool_lists.specs.SectionTexts.{flags_members, placed_members, section_line, section_line_in, section_lines, section_value, sections_command, sized_members};
ghost use Rattle.tool_output.specs.Objects.{Adds, json_line, text_value};
ghost use Rattle.tool_fields.specs.Values.{address_text};
ghost use Rattle.tool_output.specs.Stops.{Halts, StopsComposing};
ghost use Rattle.tool_printing.specs.Printing.{Prints, shown};

use json::Writer;
use pdb::{ImageSectionHeader, PDB, Source};
use pdb_text::{put_field, put_hex4, put_hex8, put_line_end};
use std::alloc::{AllocError, Global};
use tool_arguments::options::OutputFormat;
use tool_fields::values::{put_address, put_behind_blank};
use tool_output::absent::{DEBUG_INFORMATION, lacks};
use tool_output::error_objects::{put_none_in, put_refused_in};
use tool_output::objects::{
    begin_numbered, end_line, put_last, put_member, put_number, value_behind,
};
use tool_output::stop::Stop;
use tool_printing::Printer;

/// The line of the section of a number: its address, its size in memory, its characteristics, and its name.
#[tactic(auto, unfolding(crate::specs::SectionTexts::section_line))]
fn put_section(
    out: &mut Vec<u8>,
    number: u16,
    header: &ImageSectionHeader,
) -> Result<(), AllocError>
    ensures { OnOk result (out.new.items ≡ out.old.items ++ section_line number header.now) }
{
    put_hex4(out, number)?;
    out.push(b' ')?;
    put_address(out, Some(header.virtual_address))?;
    put_field(out, u64::from(header.virtual_size))?;
    out.push(b' ')?;
    put_hex8(out, header.characteristics.0)?;
    put_behind_blank(out, header.name())?;
    put_line_end(out)
}

/// The address of a section, as a member that is composed in `room`.
pub fn put_rva(writer: &mut Writer, room: &mut Vec<u8>, address: u32) -> Result<(), AllocError>
    ensures { Adds result writer.old writer.new (key (codes "rva") ∷ json_tokens (text_value (address_text (Some address)))) }
{
    room.clear();
    put_address(room, Some(address))?;
    put_member(*room.allocator(), writer, "rva", room)
}

/// The characteristics and the name of a section, as the last members of an object.
fn put_flags(
    writer: &mut Writer,
    room: &mut Vec<u8>,
    header: &ImageSectionHeader,
) -> Result<(), AllocError>
    ensures { Adds result writer.old writer.new (members_tokens (flags_members header.now)) }
{
    room.clear();
    put_hex8(room, header.characteristics.0)?;
    put_member(*room.allocator(), writer, "flags", room)?;
    put_last(*room.allocator(), writer, "name", header.name())
}

/// The same, behind its size.
fn put_sized(
    writer: &mut Writer,
    room: &mut Vec<u8>,
    header: &ImageSectionHeader,
) -> Result<(), AllocError>
    ensures { Adds result writer.old writer.new (members_tokens (sized_members header.now)) }
{
    put_number(writer, "size", u64::from(header.virtual_size))?;
    put_flags(writer, room, header)
}

/// The same, behind its address.
fn put_placed(
    writer: &mut Writer,
    room: &mut Vec<u8>,
    header: &ImageSectionHeader,
) -> Result<(), AllocError>
    ensures { Adds result writer.old writer.new (members_tokens (placed_members header.now)) }
{
    put_rva(writer, room, header.virtual_address)?;
    put_sized(writer, room, header)
}

/// The JSON object of the section of a number.
fn put_section_value(
    writer: &mut Writer,
    room: &mut Vec<u8>,
    number: u16,
    header: &ImageSectionHeader,
) -> Result<(), AllocError>
    ensures { Adds result writer.old writer.new (json_tokens (section_value number header.now)) }
{
    begin_numbered(writer, "section", u64::from(number))?;
    put_placed(writer, room, header)?;
    Ok(())
}

/// Its line, as an object.
#[tactic(auto, unfolding(tool_output::specs::Objects::json_line))]
fn put_section_object(
    out: &mut Vec<u8>,
    room: &mut Vec<u8>,
    number: u16,
    header: &ImageSectionHeader,
) -> Result<(), AllocError>
    ensures { OnOk result (out.new.items ≡ out.old.items ++ json_line (section_value number header.now)) }
{
    let mut writer = value_behind(out);
    put_section_value(&mut writer, room, number, header)?;
    end_line(out, writer)
}

/// The line of the section of a number, in a format.
fn put_section_in(
    out: &mut Vec<u8>,
    format: OutputFormat,
    room: &mut Vec<u8>,
    number: u16,
    header: &ImageSectionHeader,
) -> Result<(), AllocError>
    ensures { OnOk result (out.new.items ≡ out.old.items ++ section_line_in format number header.now) }
{
    match format {
        OutputFormat::Text => put_section(out, number, header),
        OutputFormat::Json => put_section_object(out, room, number, header),
    }
}

/// The lines of section headers, of which the first has the number 1.
fn put_list(
    out: &mut Vec<u8>,
    format: OutputFormat,
    headers: &[ImageSectionHeader],
) -> Result<(), AllocError>
    ensures { OnOk result (out.new.items ≡ out.old.items ++ section_lines format 1 headers.now) }
{
    let mut room = Vec::new(*out.allocator());
    let mut number = 1u16;
    for header in headers {
        put_section_in(out, format, &mut room, number, header)?;
        number = number.wrapping_add(1);
    }
    Ok(())
}

/// The lines of the section headers, or `none`, or the line of their error.
#[tactic(auto, unfolding(crate::specs::SectionTexts::sections_command))]
fn put_sections<'s, S: Source<'s>>(
    pdb: &mut PDB<'s, S>,
    format: OutputFormat,
    out: &mut Vec<u8>,
) -> Result<(), Stop>
    ensures continues { Continues pdb.old pdb.new }
    ensures text { pdb.new.told ≡ true → OnOk result (out.new.items ≡ out.old.items ++ sections_command format pdb.old.file) }
    ensures unwritten { IfErr result (StopsComposing (MayFail pdb.old pdb.new)) }
{
    if lacks(pdb, DEBUG_INFORMATION) {
        return Ok(());
    }
    match pdb.sections() {
        Ok(Some(headers)) => Ok(put_list(out, format, &headers)?),
        Ok(None) => Ok(put_none_in(out, format)?),
        Err(e) => put_refused_in(out, format, e),
    }
}

/// Prints the section headers of a file.
pub fn print_sections<'s, S: Source<'s>, P: Printer>(
    alloc: Global,
    pdb: &mut PDB<'s, S>,
    format: OutputFormat,
    out: &mut P,
) -> Result<(), Stop>
    ensures continues { Continues pdb.old pdb.new }
    ensures prints { pdb.new.told ≡ true → Prints (shown (sections_command format pdb.old.file)) (P.state out.old) (P.state out.new) result }
    ensures halts { Halts (MayFail pdb.old pdb.new) (P.state out.old) (P.state out.new) result }
{
    let mut text = Vec::new(alloc);
    put_sections(pdb, format, &mut text)?;
    Ok(out.print(&text)?)
}

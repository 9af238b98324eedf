//! The image's parts, and how it was made: the structs, and how they are read.

ghost use Rattle.std.specs.Prelude.{◌≡◌};
ghost use Rattle.pdb_base.specs.Layouts.{ReadsPart};
ghost use Rattle.pdb_base.specs.Refusal.{Answers};
ghost use Rattle.pdb_records.specs.RecordParts.{group_place, section_head, section_span};
ghost use Rattle.pdb_records.specs.RecordTable.{read_of_record};
ghost use Rattle.pdb_records.specs.RecordViews.{shown_record};
ghost use Rattle.pdb_records.specs.declared.form.RecordForm.TheVariants as form;

use crate::fields::{parse_name, parse_offset};
use crate::record::Record;
use crate::strings::{Strings, parse_names};
use pdb_base::{ParseBuffer, PdbInternalSectionOffset, RawString, Result};

/// A part of a section that the linker put together by name: `COFFGROUPSYM` of `cvinfo.h`, in records `S_COFFGROUP`
/// (0x1137).
#[derive(Clone, Copy, Debug, Eq, PartialEq)]
pub struct CoffGroup<'t> {
    /// The length of the part, in bytes.
    pub len: u32,
    /// The characteristics of a section, as in the image's headers.
    pub characteristics: u32,
    /// Where the part stands.
    pub offset: PdbInternalSectionOffset,
    /// The name.
    pub name: RawString<'t>,
}

/// A section of the image: `SECTIONSYM` of `cvinfo.h`, in records `S_SECTION` (0x1136).
#[derive(Clone, Copy, Debug, Eq, PartialEq)]
pub struct Section<'t> {
    /// The section's number.
    pub section: u16,
    /// The alignment, as a power of two.
    pub alignment: u8,
    /// The address of the section, in bytes from the image's start.
    pub address: u32,
    /// The length of the section, in bytes.
    pub len: u32,
    /// The characteristics, as in the image's headers.
    pub characteristics: u32,
    /// The name.
    pub name: RawString<'t>,
}

/// The environment in which a module was compiled: `ENVBLOCKSYM` of `cvinfo.h`, in records `S_ENVBLOCK` (0x113d).
#[derive(Clone, Copy, Debug, Eq, PartialEq)]
pub struct EnvironmentBlock<'t> {
    /// A flag that `cvinfo.h` reserves: bit 0 of the flags.
    pub rev: bool,
    /// A name and its value, in turn.
    pub strings: Strings<'t>,
}

// Two numbers, and a `section:offset`.
#[inline]
#[tactic(auto, unfolding(pdb_base::specs::Layouts::together_at))]
fn parse_group_place(buffer: &mut ParseBuffer<'_>) -> Result<(u32, u32, PdbInternalSectionOffset)>
    ensures { ReadsPart (λ x. (x.0, (x.1, x.2))) group_place 0 buffer.old buffer.new result }
{
    let len = buffer.parse_u32()?;
    let characteristics = buffer.parse_u32()?;
    let offset = parse_offset(buffer)?;
    Ok((len, characteristics, offset))
}

#[inline]
#[tactic(auto, unfolding(crate::specs::RecordTable::read_of_record))]
pub(crate) fn parse_coff_group<'t>(kind: u16, buffer: &mut ParseBuffer<'t>) -> Result<Record<'t>>
    requires { buffer.old.place ≡ 2 }
    ensures { Answers shown_record result (read_of_record form.CoffGroup kind buffer.old.bytes) }
{
    let (len, characteristics, offset) = parse_group_place(buffer)?;
    let name = parse_name(kind, buffer)?;
    Ok(Record::CoffGroup(CoffGroup {
        len,
        characteristics,
        offset,
        name,
    }))
}

// A section's number, its alignment, and a byte that is unused.
#[inline]
#[tactic(auto, unfolding(pdb_base::specs::Layouts::together_at))]
fn parse_section_head(buffer: &mut ParseBuffer<'_>) -> Result<(u16, u8, u8)>
    ensures { ReadsPart (λ x. (x.0, (x.1, x.2))) section_head 0 buffer.old buffer.new result }
{
    let section = buffer.parse_u16()?;
    let alignment = buffer.parse_u8()?;
    let unused = buffer.parse_u8()?;
    Ok((section, alignment, unused))
}

// A section's address, its length, and its characteristics.
#[inline]
#[tactic(auto, unfolding(pdb_base::specs::Layouts::together_at))]
fn parse_section_span(buffer: &mut ParseBuffer<'_>) -> Result<(u32, u32, u32)>
    ensures { ReadsPart (λ x. (x.0, (x.1, x.2))) section_span 0 buffer.old buffer.new result }
{
    let address = buffer.parse_u32()?;
    let len = buffer.parse_u32()?;
    let characteristics = buffer.parse_u32()?;
    Ok((address, len, characteristics))
}

#[inline]
#[tactic(auto, unfolding(crate::specs::RecordTable::read_of_record))]
pub(crate) fn parse_section<'t>(kind: u16, buffer: &mut ParseBuffer<'t>) -> Result<Record<'t>>
    requires { buffer.old.place ≡ 2 }
    ensures { Answers shown_record result (read_of_record form.Section kind buffer.old.bytes) }
{
    let (section, alignment, _unused) = parse_section_head(buffer)?;
    let (address, len, characteristics) = parse_section_span(buffer)?;
    let name = parse_name(kind, buffer)?;
    Ok(Record::Section(Section {
        section,
        alignment,
        address,
        len,
        characteristics,
        name,
    }))
}

#[inline]
#[tactic(auto, unfolding(crate::specs::RecordTable::read_of_record))]
pub(crate) fn parse_environment_block<'t>(
    kind: u16,
    buffer: &mut ParseBuffer<'t>,
) -> Result<Record<'t>>
    requires { buffer.old.place ≡ 2 }
    ensures { Answers shown_record result (read_of_record form.EnvironmentBlock kind buffer.old.bytes) }
{
    let flags = buffer.parse_u8()?;
    let strings = parse_names(buffer)?;
    Ok(Record::EnvironmentBlock(EnvironmentBlock {
        rev: flags & 1 != 0,
        strings,
    }))
}

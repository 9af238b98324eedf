//! Where a variable lives in a range of code: the structs, and how they are read. Each stands behind its variable.

ghost use Rattle.std.specs.Prelude.{◌≡◌};
ghost use Rattle.pdb_base.specs.Refusal.{Answers};
ghost use Rattle.pdb_records.specs.RecordFlags.{subfield_of};
ghost use Rattle.pdb_records.specs.RecordTable.{read_of_record};
ghost use Rattle.pdb_records.specs.RecordViews.{shown_record};
ghost use Rattle.pdb_records.specs.declared.form.RecordForm.TheVariants as form;

use crate::fields::{parse_ranged, parse_register_and_word};
use crate::lists::{AddressRange, Gaps};
use crate::record::Record;
use pdb_base::{ParseBuffer, Register, Result};

/// A variable is computed by a program: `DEFRANGESYM` of `cvinfo.h`, in records `S_DEFRANGE` (0x113f).
#[derive(Clone, Copy, Debug, Eq, PartialEq)]
pub struct DefRange<'t> {
    /// The number of the program.
    pub program: u32,
    /// The range of code in which it does.
    pub range: AddressRange,
    /// The gaps of the range.
    pub gaps: Gaps<'t>,
}

/// A part of a variable is computed by a program: `DEFRANGESYMSUBFIELD` of `cvinfo.h`, in records
/// `S_DEFRANGE_SUBFIELD` (0x1140).
#[derive(Clone, Copy, Debug, Eq, PartialEq)]
pub struct DefRangeSubfield<'t> {
    /// The number of the program.
    pub program: u32,
    /// The offset of the part in the variable, in bytes.
    pub offset_in_parent: u32,
    /// The range of code in which it is.
    pub range: AddressRange,
    /// The gaps of the range.
    pub gaps: Gaps<'t>,
}

/// A variable lives in a register: `DEFRANGESYMREGISTER` of `cvinfo.h`, in records `S_DEFRANGE_REGISTER` (0x1141).
#[derive(Clone, Copy, Debug, Eq, PartialEq)]
pub struct DefRangeRegister<'t> {
    /// The register.
    pub register: Register,
    /// Whether it may have no value there: bit 0 of the attributes.
    pub maybe: bool,
    /// The range of code in which it does.
    pub range: AddressRange,
    /// The gaps of the range.
    pub gaps: Gaps<'t>,
}

/// A variable lives at an offset from the frame's register: `DEFRANGESYMFRAMEPOINTERREL` of `cvinfo.h`, in records
/// `S_DEFRANGE_FRAMEPOINTER_REL` (0x1142).
#[derive(Clone, Copy, Debug, Eq, PartialEq)]
pub struct DefRangeFramePointerRelative<'t> {
    /// How far behind the register's value the variable stands, in bytes.
    pub offset: i32,
    /// The range of code in which it does.
    pub range: AddressRange,
    /// The gaps of the range.
    pub gaps: Gaps<'t>,
}

/// A part of a variable lives in a register: `DEFRANGESYMSUBFIELDREGISTER` of `cvinfo.h`, in records
/// `S_DEFRANGE_SUBFIELD_REGISTER` (0x1143).
#[derive(Clone, Copy, Debug, Eq, PartialEq)]
pub struct DefRangeSubfieldRegister<'t> {
    /// The register.
    pub register: Register,
    /// Whether it may have no value there: bit 0 of the attributes.
    pub maybe: bool,
    /// The offset of the part in the variable, in bytes: bits 0 to 11 of its word.
    pub offset_in_parent: u32,
    /// The range of code in which it is.
    pub range: AddressRange,
    /// The gaps of the range.
    pub gaps: Gaps<'t>,
}

/// A variable lives at an offset from the frame's register in all code of its scope:
/// `DEFRANGESYMFRAMEPOINTERREL_FULL_SCOPE` of `cvinfo.h`, in records `S_DEFRANGE_FRAMEPOINTER_REL_FULL_SCOPE` (0x1144).
#[derive(Clone, Copy, Debug, Eq, PartialEq)]
pub struct DefRangeFramePointerRelativeFullScope {
    /// How far behind the register's value the variable stands, in bytes.
    pub offset: i32,
}

/// A variable, or a part of one, lives at an offset from a register's value: `DEFRANGESYMREGISTERREL` of `cvinfo.h`,
/// in records `S_DEFRANGE_REGISTER_REL` (0x1145).
#[derive(Clone, Copy, Debug, Eq, PartialEq)]
pub struct DefRangeRegisterRelative<'t> {
    /// The register.
    pub register: Register,
    /// The offset of the part in the variable, in bytes: bits 4 to 15 of the flags, where bit 0 is set. None for a
    /// whole variable.
    pub subfield: Option<u16>,
    /// How far behind the register's value it stands, in bytes.
    pub offset: i32,
    /// The range of code in which it does.
    pub range: AddressRange,
    /// The gaps of the range.
    pub gaps: Gaps<'t>,
}

#[inline]
#[tactic(auto, unfolding(crate::specs::RecordTable::read_of_record))]
pub(crate) fn parse_def_range<'t>(kind: u16, buffer: &mut ParseBuffer<'t>) -> Result<Record<'t>>
    requires { buffer.old.place ≡ 2 }
    ensures { Answers shown_record result (read_of_record form.DefRange kind buffer.old.bytes) }
{
    let program = buffer.parse_u32()?;
    let (range, gaps) = parse_ranged(buffer)?;
    Ok(Record::DefRange(DefRange {
        program,
        range,
        gaps,
    }))
}

#[inline]
#[tactic(auto, unfolding(crate::specs::RecordTable::read_of_record))]
pub(crate) fn parse_def_range_subfield<'t>(
    kind: u16,
    buffer: &mut ParseBuffer<'t>,
) -> Result<Record<'t>>
    requires { buffer.old.place ≡ 2 }
    ensures { Answers shown_record result (read_of_record form.DefRangeSubfield kind buffer.old.bytes) }
{
    let program = buffer.parse_u32()?;
    let offset_in_parent = buffer.parse_u32()?;
    let (range, gaps) = parse_ranged(buffer)?;
    Ok(Record::DefRangeSubfield(DefRangeSubfield {
        program,
        offset_in_parent,
        range,
        gaps,
    }))
}

#[inline]
#[tactic(auto, unfolding(crate::specs::RecordTable::read_of_record))]
pub(crate) fn parse_def_range_register<'t>(
    kind: u16,
    buffer: &mut ParseBuffer<'t>,
) -> Result<Record<'t>>
    requires { buffer.old.place ≡ 2 }
    ensures { Answers shown_record result (read_of_record form.DefRangeRegister kind buffer.old.bytes) }
{
    let (register, attributes) = parse_register_and_word(buffer)?;
    let (range, gaps) = parse_ranged(buffer)?;
    Ok(Record::DefRangeRegister(DefRangeRegister {
        register,
        maybe: attributes & 1 != 0,
        range,
        gaps,
    }))
}

#[inline]
#[tactic(auto, unfolding(crate::specs::RecordTable::read_of_record))]
pub(crate) fn parse_def_range_frame_pointer_relative<'t>(
    kind: u16,
    buffer: &mut ParseBuffer<'t>,
) -> Result<Record<'t>>
    requires { buffer.old.place ≡ 2 }
    ensures { Answers shown_record result (read_of_record form.DefRangeFramePointerRelative kind buffer.old.bytes) }
{
    let offset = buffer.parse_i32()?;
    let (range, gaps) = parse_ranged(buffer)?;
    Ok(Record::DefRangeFramePointerRelative(DefRangeFramePointerRelative {
        offset,
        range,
        gaps,
    }))
}

#[inline]
#[tactic(auto, unfolding(crate::specs::RecordTable::read_of_record))]
pub(crate) fn parse_def_range_subfield_register<'t>(
    kind: u16,
    buffer: &mut ParseBuffer<'t>,
) -> Result<Record<'t>>
    requires { buffer.old.place ≡ 2 }
    ensures { Answers shown_record result (read_of_record form.DefRangeSubfieldRegister kind buffer.old.bytes) }
{
    let (register, attributes) = parse_register_and_word(buffer)?;
    let word = buffer.parse_u32()?;
    let (range, gaps) = parse_ranged(buffer)?;
    Ok(Record::DefRangeSubfieldRegister(DefRangeSubfieldRegister {
        register,
        maybe: attributes & 1 != 0,
        offset_in_parent: word % 0x1000,
        range,
        gaps,
    }))
}

#[inline]
#[tactic(auto, unfolding(crate::specs::RecordTable::read_of_record))]
pub(crate) fn parse_def_range_frame_pointer_relative_full_scope<'t>(
    kind: u16,
    buffer: &mut ParseBuffer<'t>,
) -> Result<Record<'t>>
    requires { buffer.old.place ≡ 2 }
    ensures { Answers shown_record result (read_of_record form.DefRangeFramePointerRelativeFullScope kind buffer.old.bytes) }
{
    let offset = buffer.parse_i32()?;
    Ok(Record::DefRangeFramePointerRelativeFullScope(DefRangeFramePointerRelativeFullScope {
        offset,
    }))
}

// The offset in the variable of a word that has one.
#[inline]
fn subfield(word: u16) -> Option<u16>
    ensures { result ≡ subfield_of word }
{
    if word & 1 != 0 { Some(word / 16) } else { None }
}

#[inline]
#[tactic(auto, unfolding(crate::specs::RecordTable::read_of_record))]
pub(crate) fn parse_def_range_register_relative<'t>(
    kind: u16,
    buffer: &mut ParseBuffer<'t>,
) -> Result<Record<'t>>
    requires { buffer.old.place ≡ 2 }
    ensures { Answers shown_record result (read_of_record form.DefRangeRegisterRelative kind buffer.old.bytes) }
{
    let (register, word) = parse_register_and_word(buffer)?;
    let offset = buffer.parse_i32()?;
    let (range, gaps) = parse_ranged(buffer)?;
    Ok(Record::DefRangeRegisterRelative(DefRangeRegisterRelative {
        register,
        subfield: subfield(word),
        offset,
        range,
        gaps,
    }))
}

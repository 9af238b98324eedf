//! Variables of managed code: the structs, and how they are read.

ghost use Rattle.std.specs.Prelude.{◌≡◌};
ghost use Rattle.pdb_base.specs.Layouts.{ReadsPart};
ghost use Rattle.pdb_base.specs.Refusal.{Answers};
ghost use Rattle.pdb_records.specs.RecordParts.{attributes, place_by_register};
ghost use Rattle.pdb_records.specs.RecordTable.{read_of_record};
ghost use Rattle.pdb_records.specs.RecordViews.{shown_record};
ghost use Rattle.pdb_records.specs.declared.form.RecordForm.TheVariants as form;

use crate::fields::{parse_name, parse_offset};
use crate::flags::VariableFlags;
use crate::record::Record;
use pdb_base::{ParseBuffer, PdbInternalSectionOffset, RawString, Register, Result, TypeIndex};

/// What else is known of a managed variable: `CV_lvar_attr` of `cvinfo.h`.
#[derive(Clone, Copy, Debug, Eq, PartialEq)]
pub struct Attributes {
    /// Where the variable begins to live.
    pub live: PdbInternalSectionOffset,
    /// The variable's flags.
    pub flags: VariableFlags,
}

/// A variable in a slot of the intermediate language: `SLOTSYM32` of `cvinfo.h`, in records `S_LOCALSLOT` (0x111a),
/// `S_PARAMSLOT` (0x111b) and, as older linkers wrote them, `S_LOCALSLOT_ST` (0x1017) and `S_PARAMSLOT_ST` (0x1018).
#[derive(Clone, Copy, Debug, Eq, PartialEq)]
pub struct Slot<'t> {
    /// Whether the slot is a parameter's: kinds 0x111b and 0x1018.
    pub param: bool,
    /// The number of the slot.
    pub slot: u32,
    /// The variable's type.
    pub type_index: TypeIndex,
    /// The variable's name.
    pub name: RawString<'t>,
}

/// A variable in a slot, with its attributes: `ATTRSLOTSYM` of `cvinfo.h`, in records `S_MANSLOT` (0x1120) and
/// `S_MANSLOT_ST` (0x1024).
#[derive(Clone, Copy, Debug, Eq, PartialEq)]
pub struct ManagedSlot<'t> {
    /// The number of the slot.
    pub slot: u32,
    /// The variable's type.
    pub type_index: TypeIndex,
    /// The variable's attributes.
    pub attributes: Attributes,
    /// The variable's name.
    pub name: RawString<'t>,
}

/// A variable at an offset from the frame's register, with its attributes: `FRAMERELSYM` of `cvinfo.h`, in records
/// `S_MANFRAMEREL` (0x111e), `S_MANFRAMEREL_ST` (0x1022) and `S_ATTR_FRAMEREL` (0x112e).
#[derive(Clone, Copy, Debug, Eq, PartialEq)]
pub struct ManagedFrameRelative<'t> {
    /// How far behind the register's value the variable stands, in bytes.
    pub offset: i32,
    /// The variable's type.
    pub type_index: TypeIndex,
    /// The variable's attributes.
    pub attributes: Attributes,
    /// The variable's name.
    pub name: RawString<'t>,
}

/// A variable in a register, with its attributes: `ATTRREGSYM` of `cvinfo.h`, in records `S_MANREGISTER` (0x111f),
/// `S_MANREGISTER_ST` (0x1023) and `S_ATTR_REGISTER` (0x112f).
#[derive(Clone, Copy, Debug, Eq, PartialEq)]
pub struct ManagedRegister<'t> {
    /// The variable's type.
    pub type_index: TypeIndex,
    /// The variable's attributes.
    pub attributes: Attributes,
    /// The register.
    pub register: Register,
    /// The variable's name.
    pub name: RawString<'t>,
}

/// A variable at an offset from a register's value, with its attributes: `ATTRREGREL` of `cvinfo.h`, in records
/// `S_MANREGREL` (0x1122), `S_MANREGREL_ST` (0x1026) and `S_ATTR_REGREL` (0x1130).
#[derive(Clone, Copy, Debug, Eq, PartialEq)]
pub struct ManagedRegisterRelative<'t> {
    /// How far behind the register's value the variable stands, in bytes.
    pub offset: i32,
    /// The variable's type.
    pub type_index: TypeIndex,
    /// The register.
    pub register: Register,
    /// The variable's attributes.
    pub attributes: Attributes,
    /// The variable's name.
    pub name: RawString<'t>,
}

// Attributes of a variable.
#[inline]
#[tactic(auto, unfolding(pdb_base::specs::Layouts::together_at))]
fn parse_attributes(buffer: &mut ParseBuffer<'_>) -> Result<Attributes>
    ensures { ReadsPart (λ a. (a.live, a.flags)) attributes 0 buffer.old buffer.new result }
{
    let live = parse_offset(buffer)?;
    let flags = VariableFlags::of(buffer.parse_u16()?);
    Ok(Attributes { live, flags })
}

#[inline]
#[tactic(auto, unfolding(crate::specs::RecordTable::read_of_record))]
pub(crate) fn parse_slot<'t>(kind: u16, buffer: &mut ParseBuffer<'t>) -> Result<Record<'t>>
    requires { buffer.old.place ≡ 2 }
    ensures { Answers shown_record result (read_of_record form.Slot kind buffer.old.bytes) }
{
    let slot = buffer.parse_u32()?;
    let type_index = TypeIndex(buffer.parse_u32()?);
    let name = parse_name(kind, buffer)?;
    Ok(Record::Slot(Slot {
        param: matches!(kind, 0x111b | 0x1018),
        slot,
        type_index,
        name,
    }))
}

#[inline]
#[tactic(auto, unfolding(crate::specs::RecordTable::read_of_record))]
pub(crate) fn parse_managed_slot<'t>(kind: u16, buffer: &mut ParseBuffer<'t>) -> Result<Record<'t>>
    requires { buffer.old.place ≡ 2 }
    ensures { Answers shown_record result (read_of_record form.ManagedSlot kind buffer.old.bytes) }
{
    let slot = buffer.parse_u32()?;
    let type_index = TypeIndex(buffer.parse_u32()?);
    let attributes = parse_attributes(buffer)?;
    let name = parse_name(kind, buffer)?;
    Ok(Record::ManagedSlot(ManagedSlot {
        slot,
        type_index,
        attributes,
        name,
    }))
}

#[inline]
#[tactic(auto, unfolding(crate::specs::RecordTable::read_of_record))]
pub(crate) fn parse_managed_frame_relative<'t>(
    kind: u16,
    buffer: &mut ParseBuffer<'t>,
) -> Result<Record<'t>>
    requires { buffer.old.place ≡ 2 }
    ensures { Answers shown_record result (read_of_record form.ManagedFrameRelative kind buffer.old.bytes) }
{
    let offset = buffer.parse_i32()?;
    let type_index = TypeIndex(buffer.parse_u32()?);
    let attributes = parse_attributes(buffer)?;
    let name = parse_name(kind, buffer)?;
    Ok(Record::ManagedFrameRelative(ManagedFrameRelative {
        offset,
        type_index,
        attributes,
        name,
    }))
}

#[inline]
#[tactic(auto, unfolding(crate::specs::RecordTable::read_of_record))]
pub(crate) fn parse_managed_register<'t>(
    kind: u16,
    buffer: &mut ParseBuffer<'t>,
) -> Result<Record<'t>>
    requires { buffer.old.place ≡ 2 }
    ensures { Answers shown_record result (read_of_record form.ManagedRegister kind buffer.old.bytes) }
{
    let type_index = TypeIndex(buffer.parse_u32()?);
    let attributes = parse_attributes(buffer)?;
    let register = Register(buffer.parse_u16()?);
    let name = parse_name(kind, buffer)?;
    Ok(Record::ManagedRegister(ManagedRegister {
        type_index,
        attributes,
        register,
        name,
    }))
}

// An offset from a register's value, a type, and the register.
#[inline]
#[tactic(auto, unfolding(pdb_base::specs::Layouts::together_at))]
fn parse_place_by_register(buffer: &mut ParseBuffer<'_>) -> Result<(i32, TypeIndex, Register)>
    ensures { ReadsPart (λ x. (x.0, (x.1, x.2))) place_by_register 0 buffer.old buffer.new result }
{
    let offset = buffer.parse_i32()?;
    let type_index = TypeIndex(buffer.parse_u32()?);
    let register = Register(buffer.parse_u16()?);
    Ok((offset, type_index, register))
}

#[inline]
#[tactic(auto, unfolding(crate::specs::RecordTable::read_of_record))]
pub(crate) fn parse_managed_register_relative<'t>(
    kind: u16,
    buffer: &mut ParseBuffer<'t>,
) -> Result<Record<'t>>
    requires { buffer.old.place ≡ 2 }
    ensures { Answers shown_record result (read_of_record form.ManagedRegisterRelative kind buffer.old.bytes) }
{
    let (offset, type_index, register) = parse_place_by_register(buffer)?;
    let attributes = parse_attributes(buffer)?;
    let name = parse_name(kind, buffer)?;
    Ok(Record::ManagedRegisterRelative(ManagedRegisterRelative {
        offset,
        type_index,
        register,
        attributes,
        name,
    }))
}

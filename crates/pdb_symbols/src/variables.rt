//! Data and types: the structs, and how they are read.

ghost use Rattle.std.specs.Prelude.{◌≡◌};
ghost use Rattle.pdb_base.specs.Refusal.{Answers};
ghost use Rattle.pdb_symbols.specs.Data.{shown};
ghost use Rattle.pdb_base.specs.Layouts.{ReadsPart};
ghost use Rattle.pdb_symbols.specs.Groups.{typed_value};
ghost use Rattle.pdb_symbols.specs.FormTable.{read_of};
ghost use Rattle.pdb_symbols.specs.declared.form.Form.TheVariants as form;

use crate::data::SymbolData;
use crate::fields::{parse_name, parse_offset};
use crate::flags::LocalVariableFlags;
use pdb_base::{
    ParseBuffer, PdbInternalSectionOffset, RawString, Register, Result, TypeIndex, Variant,
};

/// A symbol that other modules can see: `PUBSYM32` of `cvinfo.h`, in records `S_PUB32` (0x110e) and `S_PUB32_ST`
/// (0x1009).
#[derive(Clone, Copy, Debug, Eq, PartialEq)]
pub struct PublicSymbol<'t> {
    /// Whether the symbol is code: bit 0 of the flags.
    pub code: bool,
    /// Whether the symbol is a function: bit 1 of the flags.
    pub function: bool,
    /// Whether the symbol is managed, code or data: bit 2 of the flags.
    pub managed: bool,
    /// Whether the symbol is code in the intermediate language MSIL: bit 3 of the flags.
    pub msil: bool,
    /// Where the symbol stands.
    pub offset: PdbInternalSectionOffset,
    /// The symbol's name, mostly decorated.
    pub name: RawString<'t>,
}

/// A name for a type: `UDTSYM` of `cvinfo.h`, in records `S_UDT` (0x1108), `S_COBOLUDT` (0x1109), `S_UDT_ST`
/// (0x1003) and `S_COBOLUDT_ST` (0x1004).
#[derive(Clone, Copy, Debug, Eq, PartialEq)]
pub struct UserDefinedTypeSymbol<'t> {
    /// The type that is named.
    pub type_index: TypeIndex,
    /// The name.
    pub name: RawString<'t>,
}

/// A constant: `CONSTSYM` of `cvinfo.h`, in records `S_CONSTANT` (0x1107), `S_MANCONSTANT` (0x112d) and
/// `S_CONSTANT_ST` (0x1002).
#[derive(Clone, Copy, Debug, Eq, PartialEq)]
pub struct ConstantSymbol<'t> {
    /// Whether the constant is managed: kind 0x112d.
    pub managed: bool,
    /// The constant's type, or the enumeration that lists it.
    pub type_index: TypeIndex,
    /// The value.
    pub value: Variant,
    /// The name.
    pub name: RawString<'t>,
}

/// Data at a fixed address: `DATASYM32` of `cvinfo.h`, in records `S_LDATA32` (0x110c), `S_GDATA32` (0x110d),
/// `S_LMANDATA` (0x111c), `S_GMANDATA` (0x111d) and, as older linkers wrote them, `S_LDATA32_ST` (0x1007),
/// `S_GDATA32_ST` (0x1008), `S_LMANDATA_ST` (0x1020) and `S_GMANDATA_ST` (0x1021).
#[derive(Clone, Copy, Debug, Eq, PartialEq)]
pub struct DataSymbol<'t> {
    /// Whether the data is global: kinds 0x110d, 0x1008, 0x111d and 0x1021.
    pub global: bool,
    /// Whether the data is managed: kinds 0x111c, 0x1020, 0x111d and 0x1021.
    pub managed: bool,
    /// The data's type.
    pub type_index: TypeIndex,
    /// Where the data stands.
    pub offset: PdbInternalSectionOffset,
    /// The name.
    pub name: RawString<'t>,
}

/// Data of which each thread has its own: `THREADSYM32` of `cvinfo.h`, in records `S_LTHREAD32` (0x1112),
/// `S_GTHREAD32` (0x1113) and, as older linkers wrote them, `S_LTHREAD32_ST` (0x100e) and `S_GTHREAD32_ST` (0x100f).
#[derive(Clone, Copy, Debug, Eq, PartialEq)]
pub struct ThreadStorageSymbol<'t> {
    /// Whether the data is global: kinds 0x1113 and 0x100f.
    pub global: bool,
    /// The data's type.
    pub type_index: TypeIndex,
    /// Where the data stands in the thread's storage.
    pub offset: PdbInternalSectionOffset,
    /// The name.
    pub name: RawString<'t>,
}

/// A variable in a register: `REGSYM` of `cvinfo.h`, in records `S_REGISTER` (0x1106) and `S_REGISTER_ST` (0x1001).
#[derive(Clone, Copy, Debug, Eq, PartialEq)]
pub struct RegisterVariableSymbol<'t> {
    /// The variable's type.
    pub type_index: TypeIndex,
    /// The register.
    pub register: Register,
    /// The name.
    pub name: RawString<'t>,
}

/// A variable at an offset from a register's value: `REGREL32` of `cvinfo.h`, in records `S_REGREL32` (0x1111).
#[derive(Clone, Copy, Debug, Eq, PartialEq)]
pub struct RegisterRelativeSymbol<'t> {
    /// How far behind the register's value the variable stands, in bytes.
    pub offset: i32,
    /// The variable's type.
    pub type_index: TypeIndex,
    /// The register.
    pub register: Register,
    /// The name.
    pub name: RawString<'t>,
}

/// A local variable; the records behind it have its locations: `LOCALSYM` of `cvinfo.h`, in records `S_LOCAL` (0x113e).
#[derive(Clone, Copy, Debug, Eq, PartialEq)]
pub struct LocalSymbol<'t> {
    /// The variable's type.
    pub type_index: TypeIndex,
    /// The variable's flags.
    pub flags: LocalVariableFlags,
    /// The name.
    pub name: RawString<'t>,
}

#[inline]
#[tactic(auto, unfolding(crate::specs::FormTable::read_of))]
pub(crate) fn parse_public<'t>(kind: u16, buffer: &mut ParseBuffer<'t>) -> Result<SymbolData<'t>>
    requires { buffer.old.place ≡ 2 }
    ensures { Answers shown result (read_of form.Public kind buffer.old.bytes) }
{
    let flags = buffer.parse_u32()?;
    let offset = parse_offset(buffer)?;
    let name = parse_name(kind, buffer)?;
    Ok(SymbolData::Public(PublicSymbol {
        code: flags & 1 != 0,
        function: flags & 2 != 0,
        managed: flags & 4 != 0,
        msil: flags & 8 != 0,
        offset,
        name,
    }))
}

#[inline]
#[tactic(auto, unfolding(crate::specs::FormTable::read_of))]
pub(crate) fn parse_user_defined_type<'t>(
    kind: u16,
    buffer: &mut ParseBuffer<'t>,
) -> Result<SymbolData<'t>>
    requires { buffer.old.place ≡ 2 }
    ensures { Answers shown result (read_of form.UserDefinedType kind buffer.old.bytes) }
{
    let type_index = TypeIndex(buffer.parse_u32()?);
    let name = parse_name(kind, buffer)?;
    Ok(SymbolData::UserDefinedType(UserDefinedTypeSymbol { type_index, name }))
}

#[inline]
#[tactic(auto, unfolding(pdb_base::specs::Layouts::together_at))]
fn parse_typed_value(buffer: &mut ParseBuffer<'_>) -> Result<(TypeIndex, Variant)>
    ensures { ReadsPart (λ x. (x.0, x.1)) typed_value 0 buffer.old buffer.new result }
{
    let type_index = TypeIndex(buffer.parse_u32()?);
    let value = Variant::parse(buffer)?;
    Ok((type_index, value))
}

#[inline]
#[tactic(auto, unfolding(crate::specs::FormTable::read_of))]
pub(crate) fn parse_constant<'t>(kind: u16, buffer: &mut ParseBuffer<'t>) -> Result<SymbolData<'t>>
    requires { buffer.old.place ≡ 2 }
    ensures { Answers shown result (read_of form.Constant kind buffer.old.bytes) }
{
    let (type_index, value) = parse_typed_value(buffer)?;
    let name = parse_name(kind, buffer)?;
    Ok(SymbolData::Constant(ConstantSymbol {
        managed: kind == 0x112d,
        type_index,
        value,
        name,
    }))
}

#[inline]
#[tactic(auto, unfolding(crate::specs::FormTable::read_of))]
pub(crate) fn parse_data<'t>(kind: u16, buffer: &mut ParseBuffer<'t>) -> Result<SymbolData<'t>>
    requires { buffer.old.place ≡ 2 }
    ensures { Answers shown result (read_of form.Data kind buffer.old.bytes) }
{
    let type_index = TypeIndex(buffer.parse_u32()?);
    let offset = parse_offset(buffer)?;
    let name = parse_name(kind, buffer)?;
    Ok(SymbolData::Data(DataSymbol {
        global: matches!(kind, 0x110d | 0x1008 | 0x111d | 0x1021),
        managed: matches!(kind, 0x111c | 0x1020 | 0x111d | 0x1021),
        type_index,
        offset,
        name,
    }))
}

#[inline]
#[tactic(auto, unfolding(crate::specs::FormTable::read_of))]
pub(crate) fn parse_thread_storage<'t>(
    kind: u16,
    buffer: &mut ParseBuffer<'t>,
) -> Result<SymbolData<'t>>
    requires { buffer.old.place ≡ 2 }
    ensures { Answers shown result (read_of form.ThreadStorage kind buffer.old.bytes) }
{
    let type_index = TypeIndex(buffer.parse_u32()?);
    let offset = parse_offset(buffer)?;
    let name = parse_name(kind, buffer)?;
    Ok(SymbolData::ThreadStorage(ThreadStorageSymbol {
        global: matches!(kind, 0x1113 | 0x100f),
        type_index,
        offset,
        name,
    }))
}

#[inline]
#[tactic(auto, unfolding(crate::specs::FormTable::read_of))]
pub(crate) fn parse_register_variable<'t>(
    kind: u16,
    buffer: &mut ParseBuffer<'t>,
) -> Result<SymbolData<'t>>
    requires { buffer.old.place ≡ 2 }
    ensures { Answers shown result (read_of form.RegisterVariable kind buffer.old.bytes) }
{
    let type_index = TypeIndex(buffer.parse_u32()?);
    let register = Register(buffer.parse_u16()?);
    let name = parse_name(kind, buffer)?;
    Ok(SymbolData::RegisterVariable(RegisterVariableSymbol {
        type_index,
        register,
        name,
    }))
}

#[inline]
#[tactic(auto, unfolding(crate::specs::FormTable::read_of))]
pub(crate) fn parse_register_relative<'t>(
    kind: u16,
    buffer: &mut ParseBuffer<'t>,
) -> Result<SymbolData<'t>>
    requires { buffer.old.place ≡ 2 }
    ensures { Answers shown result (read_of form.RegisterRelative kind buffer.old.bytes) }
{
    let offset = buffer.parse_i32()?;
    let type_index = TypeIndex(buffer.parse_u32()?);
    let register = Register(buffer.parse_u16()?);
    let name = parse_name(kind, buffer)?;
    Ok(SymbolData::RegisterRelative(RegisterRelativeSymbol {
        offset,
        type_index,
        register,
        name,
    }))
}

#[inline]
#[tactic(auto, unfolding(crate::specs::FormTable::read_of))]
pub(crate) fn parse_local<'t>(kind: u16, buffer: &mut ParseBuffer<'t>) -> Result<SymbolData<'t>>
    requires { buffer.old.place ≡ 2 }
    ensures { Answers shown result (read_of form.Local kind buffer.old.bytes) }
{
    let type_index = TypeIndex(buffer.parse_u32()?);
    let flags = LocalVariableFlags::of(buffer.parse_u16()?);
    let name = parse_name(kind, buffer)?;
    Ok(SymbolData::Local(LocalSymbol {
        type_index,
        flags,
        name,
    }))
}

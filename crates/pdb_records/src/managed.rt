//! Managed code, and records of makers other than Microsoft: the structs, and how they are read.

ghost use Rattle.std.specs.Prelude.{◌≡◌};
ghost use Rattle.pdb_base.specs.Layouts.{ReadsPart};
ghost use Rattle.pdb_base.specs.Refusal.{Answers};
ghost use Rattle.pdb_symbols.specs.Groups.{scope, body};
ghost use Rattle.pdb_records.specs.RecordParts.{managed};
ghost use Rattle.pdb_records.specs.RecordTable.{read_of_record};
ghost use Rattle.pdb_records.specs.RecordViews.{shown_record};
ghost use Rattle.pdb_records.specs.declared.form.RecordForm.TheVariants as form;

use crate::fields::{parse_module, parse_name, parse_offset, parse_optional_index, parse_rest};
use crate::flags::procedure_flags_of;
use crate::record::Record;
use pdb_base::{
    ParseBuffer, PdbInternalSectionOffset, RawString, Register, Result, SymbolIndex, TypeIndex,
};
use pdb_symbols::ProcedureFlags;

/// A procedure of the intermediate language: `MANPROCSYM` of `cvinfo.h`, in records `S_GMANPROC` (0x112a),
/// `S_LMANPROC` (0x112b) and, as older linkers wrote them, `S_GMANPROC_ST` (0x101a) and `S_LMANPROC_ST` (0x101b).
#[derive(Clone, Copy, Debug, Eq, PartialEq)]
pub struct ManagedProcedure<'t> {
    /// Whether the procedure is global: kinds 0x112a and 0x101a.
    pub global: bool,
    /// The index of the symbol in whose scope the procedure stands; None outside all scopes.
    pub parent: Option<SymbolIndex>,
    /// The index of the symbol that ends the scope.
    pub end: SymbolIndex,
    /// The index of the next procedure.
    pub next: Option<SymbolIndex>,
    /// The length of the code, in bytes.
    pub len: u32,
    /// Where the procedure's body begins, in bytes from the procedure's start.
    pub dbg_start_offset: u32,
    /// Where the procedure's body ends, in bytes from the procedure's start.
    pub dbg_end_offset: u32,
    /// The metadata token of the method.
    pub token: u32,
    /// Where the procedure stands.
    pub offset: PdbInternalSectionOffset,
    /// The procedure's flags.
    pub flags: ProcedureFlags,
    /// The register of the value that is returned.
    pub return_register: Register,
    /// The procedure's name.
    pub name: RawString<'t>,
}

/// A reference to a managed procedure by its metadata token: `REFSYM2` of `cvinfo.h`, in records `S_TOKENREF` (0x1129).
#[derive(Clone, Copy, Debug, Eq, PartialEq)]
pub struct TokenReference<'t> {
    /// The checksum of the name.
    pub sum_name: u32,
    /// The index of the procedure's record in its module's stream.
    pub symbol_index: SymbolIndex,
    /// The module's number, counted from 0; the record counts from 1, and says 0 for none.
    pub module: Option<usize>,
    /// The digits of the token.
    pub name: RawString<'t>,
}

/// A record of another maker: `OEMSYMBOL` of `cvinfo.h`, in records `S_OEM` (0x0404).
#[derive(Clone, Copy, Debug, Eq, PartialEq)]
pub struct Oem<'t> {
    /// The 16 bytes that say who made it, and what it is.
    pub id: &'t [u8],
    /// A type.
    pub type_index: TypeIndex,
    /// What stands behind the type, to the record's end.
    pub content: &'t [u8],
}

// The symbol around a procedure, the end of its scope, and the next one.
#[inline]
#[tactic(auto, unfolding(pdb_base::specs::Layouts::together_at))]
fn parse_scope(
    buffer: &mut ParseBuffer<'_>,
) -> Result<(Option<SymbolIndex>, SymbolIndex, Option<SymbolIndex>)>
    ensures { ReadsPart (λ x. (x.0, (x.1, x.2))) scope 0 buffer.old buffer.new result }
{
    let parent = parse_optional_index(buffer)?;
    let end = SymbolIndex(buffer.parse_u32()?);
    let next = parse_optional_index(buffer)?;
    Ok((parent, end, next))
}

// A procedure's length, and where its body begins and ends.
#[inline]
#[tactic(auto, unfolding(pdb_base::specs::Layouts::together_at))]
fn parse_body(buffer: &mut ParseBuffer<'_>) -> Result<(u32, u32, u32)>
    ensures { ReadsPart (λ x. (x.0, (x.1, x.2))) body 0 buffer.old buffer.new result }
{
    let len = buffer.parse_u32()?;
    let start = buffer.parse_u32()?;
    let end = buffer.parse_u32()?;
    Ok((len, start, end))
}

// A token, a `section:offset`, flags, and a register.
#[inline]
#[tactic(auto, unfolding(pdb_base::specs::Layouts::together_at))]
fn parse_managed(
    buffer: &mut ParseBuffer<'_>,
) -> Result<(u32, PdbInternalSectionOffset, ProcedureFlags, Register)>
    ensures { ReadsPart (λ x. (x.0, (x.1, (x.2, x.3)))) managed 0 buffer.old buffer.new result }
{
    let token = buffer.parse_u32()?;
    let offset = parse_offset(buffer)?;
    let flags = procedure_flags_of(buffer.parse_u8()?);
    let return_register = Register(buffer.parse_u16()?);
    Ok((token, offset, flags, return_register))
}

#[inline]
#[tactic(auto, unfolding(crate::specs::RecordTable::read_of_record))]
pub(crate) fn parse_managed_procedure<'t>(
    kind: u16,
    buffer: &mut ParseBuffer<'t>,
) -> Result<Record<'t>>
    requires { buffer.old.place ≡ 2 }
    ensures { Answers shown_record result (read_of_record form.ManagedProcedure kind buffer.old.bytes) }
{
    let (parent, end, next) = parse_scope(buffer)?;
    let (len, dbg_start_offset, dbg_end_offset) = parse_body(buffer)?;
    let (token, offset, flags, return_register) = parse_managed(buffer)?;
    let name = parse_name(kind, buffer)?;
    Ok(Record::ManagedProcedure(ManagedProcedure {
        global: matches!(kind, 0x112a | 0x101a),
        parent,
        end,
        next,
        len,
        dbg_start_offset,
        dbg_end_offset,
        token,
        offset,
        flags,
        return_register,
        name,
    }))
}

#[inline]
#[tactic(auto, unfolding(crate::specs::RecordTable::read_of_record))]
pub(crate) fn parse_token_reference<'t>(
    kind: u16,
    buffer: &mut ParseBuffer<'t>,
) -> Result<Record<'t>>
    requires { buffer.old.place ≡ 2 }
    ensures { Answers shown_record result (read_of_record form.TokenReference kind buffer.old.bytes) }
{
    let sum_name = buffer.parse_u32()?;
    let symbol_index = SymbolIndex(buffer.parse_u32()?);
    let module = parse_module(buffer)?;
    let name = parse_name(kind, buffer)?;
    Ok(Record::TokenReference(TokenReference {
        sum_name,
        symbol_index,
        module,
        name,
    }))
}

#[inline]
#[tactic(auto, unfolding(crate::specs::RecordTable::read_of_record))]
pub(crate) fn parse_oem<'t>(kind: u16, buffer: &mut ParseBuffer<'t>) -> Result<Record<'t>>
    requires { buffer.old.place ≡ 2 }
    ensures { Answers shown_record result (read_of_record form.Oem kind buffer.old.bytes) }
{
    let id = buffer.take(16)?;
    let type_index = TypeIndex(buffer.parse_u32()?);
    let content = parse_rest(buffer)?;
    Ok(Record::Oem(Oem {
        id,
        type_index,
        content,
    }))
}

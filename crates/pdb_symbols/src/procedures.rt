//! Procedures and scopes: the structs, and how they are read.

ghost use Rattle.std.specs.Prelude.{◌≡◌};
ghost use Rattle.pdb_base.specs.Refusal.{Answers};
ghost use Rattle.pdb_symbols.specs.Data.{shown};
ghost use Rattle.pdb_base.specs.Layouts.{ReadsPart};
ghost use Rattle.pdb_symbols.specs.Groups.{procedure_flags, scope, body, typed, site, invocation_count};
ghost use Rattle.pdb_symbols.specs.FormTable.{read_of};
ghost use Rattle.pdb_symbols.specs.declared.form.Form.TheVariants as form;

use crate::annotations::BinaryAnnotations;
use crate::data::SymbolData;
use crate::fields::{
    parse_name, parse_offset, parse_optional_index, parse_rest, parse_span, parse_two_places,
};
use crate::flags::{ProcedureFlags, SeparatedCodeFlags};
use pdb_base::{
    IdIndex, ParseBuffer, PdbInternalSectionOffset, RawString, Result, SymbolIndex, TypeIndex,
};

/// A procedure: `PROCSYM32` of `cvinfo.h`, in records `S_LPROC32` (0x110f), `S_GPROC32` (0x1110), `S_LPROC32_ID`
/// (0x1146), `S_GPROC32_ID` (0x1147), `S_LPROC32_DPC` (0x1155), `S_LPROC32_DPC_ID` (0x1156), `S_LPROC32_ST` (0x100a)
/// and `S_GPROC32_ST` (0x100b). It starts a scope.
#[derive(Clone, Copy, Debug, Eq, PartialEq)]
pub struct ProcedureSymbol<'t> {
    /// Whether the procedure is global: kinds 0x1110, 0x100b and 0x1147.
    pub global: bool,
    /// Whether it is a deferred procedure call: kinds 0x1155 and 0x1156.
    pub dpc: bool,
    /// The symbol around this one, if any.
    pub parent: Option<SymbolIndex>,
    /// The symbol that ends the scope.
    pub end: SymbolIndex,
    /// The next procedure, if it is named.
    pub next: Option<SymbolIndex>,
    /// The length of the code, in bytes.
    pub len: u32,
    /// Where the body begins behind the prologue, in bytes from the procedure's start.
    pub dbg_start_offset: u32,
    /// Where the body ends before the epilogue, in bytes from the procedure's start.
    pub dbg_end_offset: u32,
    /// The procedure's type; in the kinds `_ID` and `_DPC_ID`, the number of its id.
    pub type_index: TypeIndex,
    /// Where the code begins.
    pub offset: PdbInternalSectionOffset,
    /// The procedure's flags.
    pub flags: ProcedureFlags,
    /// The name.
    pub name: RawString<'t>,
}

/// An inlined call: `INLINESITESYM` and `INLINESITESYM2` of `cvinfo.h`, in records `S_INLINESITE` (0x114d) and
/// `S_INLINESITE2` (0x115d). It starts a scope.
#[derive(Clone, Copy, Debug, Eq, PartialEq)]
pub struct InlineSiteSymbol<'t> {
    /// The symbol around this one, if any.
    pub parent: Option<SymbolIndex>,
    /// The symbol that ends the scope.
    pub end: SymbolIndex,
    /// The id of what is inlined.
    pub inlinee: IdIndex,
    /// How often the code was run, by a profile: in kind 0x115d alone.
    pub invocations: Option<u32>,
    /// The program that gives the call's lines: all bytes that are left.
    pub annotations: BinaryAnnotations<'t>,
}

/// A label in code: `LABELSYM32` of `cvinfo.h`, in records `S_LABEL32` (0x1105) and `S_LABEL32_ST` (0x0209).
#[derive(Clone, Copy, Debug, Eq, PartialEq)]
pub struct LabelSymbol<'t> {
    /// Where the label stands.
    pub offset: PdbInternalSectionOffset,
    /// The label's flags.
    pub flags: ProcedureFlags,
    /// The name.
    pub name: RawString<'t>,
}

/// A block of a procedure: `BLOCKSYM32` of `cvinfo.h`, in records `S_BLOCK32` (0x1103) and `S_BLOCK32_ST` (0x0207).
/// It starts a scope.
#[derive(Clone, Copy, Debug, Eq, PartialEq)]
pub struct BlockSymbol<'t> {
    /// The symbol around this one.
    pub parent: SymbolIndex,
    /// The symbol that ends the scope.
    pub end: SymbolIndex,
    /// The length of the code, in bytes.
    pub len: u32,
    /// Where the code begins.
    pub offset: PdbInternalSectionOffset,
    /// The name.
    pub name: RawString<'t>,
}

/// Code of a procedure that stands apart from it: `SEPCODESYM` of `cvinfo.h`, in records `S_SEPCODE` (0x1132). It
/// starts a scope.
#[derive(Clone, Copy, Debug, Eq, PartialEq)]
pub struct SeparatedCodeSymbol {
    /// The symbol around this one.
    pub parent: SymbolIndex,
    /// The symbol that ends the scope.
    pub end: SymbolIndex,
    /// The length of the code, in bytes.
    pub len: u32,
    /// The code's flags.
    pub flags: SeparatedCodeFlags,
    /// Where the code begins.
    pub offset: PdbInternalSectionOffset,
    /// Where the code from which it was separated begins.
    pub parent_offset: PdbInternalSectionOffset,
}

// Parent, end and next.
#[inline]
#[tactic(auto, unfolding(pdb_base::specs::Layouts::together_at))]
pub(crate) fn parse_scope(
    buffer: &mut ParseBuffer<'_>,
) -> Result<(Option<SymbolIndex>, SymbolIndex, Option<SymbolIndex>)>
    ensures { ReadsPart (λ x. (x.0, (x.1, x.2))) scope 0 buffer.old buffer.new result }
{
    let parent = parse_optional_index(buffer)?;
    let end = SymbolIndex(buffer.parse_u32()?);
    let next = parse_optional_index(buffer)?;
    Ok((parent, end, next))
}

// A procedure's length, and where its body begins and ends.
#[inline]
#[tactic(auto, unfolding(pdb_base::specs::Layouts::together_at))]
fn parse_body(buffer: &mut ParseBuffer<'_>) -> Result<(u32, u32, u32)>
    ensures { ReadsPart (λ x. (x.0, (x.1, x.2))) body 0 buffer.old buffer.new result }
{
    let len = buffer.parse_u32()?;
    let start = buffer.parse_u32()?;
    let stop = buffer.parse_u32()?;
    Ok((len, start, stop))
}

#[inline]
fn parse_procedure_flags(buffer: &mut ParseBuffer<'_>) -> Result<ProcedureFlags>
    ensures { ReadsPart (λ x. x) procedure_flags 0 buffer.old buffer.new result }
{
    let bits = buffer.parse_u8()?;
    Ok(ProcedureFlags::of(bits))
}

// A procedure's type, its `section:offset` and its flags.
#[inline]
#[tactic(auto, unfolding(pdb_base::specs::Layouts::together_at))]
fn parse_typed(
    buffer: &mut ParseBuffer<'_>,
) -> Result<(TypeIndex, PdbInternalSectionOffset, ProcedureFlags)>
    ensures { ReadsPart (λ x. (x.0, (x.1, x.2))) typed 0 buffer.old buffer.new result }
{
    let type_index = TypeIndex(buffer.parse_u32()?);
    let offset = parse_offset(buffer)?;
    let flags = parse_procedure_flags(buffer)?;
    Ok((type_index, offset, flags))
}

#[inline]
#[tactic(auto, unfolding(crate::specs::FormTable::read_of))]
pub(crate) fn parse_procedure<'t>(kind: u16, buffer: &mut ParseBuffer<'t>) -> Result<SymbolData<'t>>
    requires { buffer.old.place ≡ 2 }
    ensures { Answers shown result (read_of form.Procedure kind buffer.old.bytes) }
{
    let (parent, end, next) = parse_scope(buffer)?;
    let (len, start, stop) = parse_body(buffer)?;
    let (type_index, offset, flags) = parse_typed(buffer)?;
    let name = parse_name(kind, buffer)?;
    Ok(SymbolData::Procedure(ProcedureSymbol {
        global: matches!(kind, 0x1110 | 0x100b | 0x1147),
        dpc: matches!(kind, 0x1155 | 0x1156),
        parent,
        end,
        next,
        len,
        dbg_start_offset: start,
        dbg_end_offset: stop,
        type_index,
        offset,
        flags,
        name,
    }))
}

// Parent, end and inlinee.
#[inline]
#[tactic(auto, unfolding(pdb_base::specs::Layouts::together_at))]
fn parse_site(buffer: &mut ParseBuffer<'_>) -> Result<(Option<SymbolIndex>, SymbolIndex, IdIndex)>
    ensures { ReadsPart (λ x. (x.0, (x.1, x.2))) site 0 buffer.old buffer.new result }
{
    let parent = parse_optional_index(buffer)?;
    let end = SymbolIndex(buffer.parse_u32()?);
    let inlinee = IdIndex(buffer.parse_u32()?);
    Ok((parent, end, inlinee))
}

// The count of invocations, which kind 0x115d alone has.
#[inline]
fn parse_invocations(kind: u16, buffer: &mut ParseBuffer<'_>) -> Result<Option<u32>>
    ensures { ReadsPart (λ x. x) invocation_count kind buffer.old buffer.new result }
{
    if kind != 0x115d {
        return Ok(None);
    }
    let count = buffer.parse_u32()?;
    Ok(Some(count))
}

#[inline]
#[tactic(auto, unfolding(crate::specs::FormTable::read_of))]
pub(crate) fn parse_inline_site<'t>(
    kind: u16,
    buffer: &mut ParseBuffer<'t>,
) -> Result<SymbolData<'t>>
    requires { buffer.old.place ≡ 2 }
    ensures { Answers shown result (read_of form.InlineSite kind buffer.old.bytes) }
{
    let (parent, end, inlinee) = parse_site(buffer)?;
    let invocations = parse_invocations(kind, buffer)?;
    let rest = parse_rest(buffer)?;
    Ok(SymbolData::InlineSite(InlineSiteSymbol {
        parent,
        end,
        inlinee,
        invocations,
        annotations: BinaryAnnotations::new(rest),
    }))
}

#[inline]
#[tactic(auto, unfolding(crate::specs::FormTable::read_of))]
pub(crate) fn parse_label<'t>(kind: u16, buffer: &mut ParseBuffer<'t>) -> Result<SymbolData<'t>>
    requires { buffer.old.place ≡ 2 }
    ensures { Answers shown result (read_of form.Label kind buffer.old.bytes) }
{
    let offset = parse_offset(buffer)?;
    let flags = parse_procedure_flags(buffer)?;
    let name = parse_name(kind, buffer)?;
    Ok(SymbolData::Label(LabelSymbol {
        offset,
        flags,
        name,
    }))
}

#[inline]
#[tactic(auto, unfolding(crate::specs::FormTable::read_of))]
pub(crate) fn parse_block<'t>(kind: u16, buffer: &mut ParseBuffer<'t>) -> Result<SymbolData<'t>>
    requires { buffer.old.place ≡ 2 }
    ensures { Answers shown result (read_of form.Block kind buffer.old.bytes) }
{
    let (parent, end, len) = parse_span(buffer)?;
    let offset = parse_offset(buffer)?;
    let name = parse_name(kind, buffer)?;
    Ok(SymbolData::Block(BlockSymbol {
        parent,
        end,
        len,
        offset,
        name,
    }))
}

#[inline]
#[tactic(auto, unfolding(crate::specs::FormTable::read_of))]
pub(crate) fn parse_separated_code<'t>(
    kind: u16,
    buffer: &mut ParseBuffer<'t>,
) -> Result<SymbolData<'t>>
    requires { buffer.old.place ≡ 2 }
    ensures { Answers shown result (read_of form.SeparatedCode kind buffer.old.bytes) }
{
    let (parent, end, len) = parse_span(buffer)?;
    let flags = SeparatedCodeFlags::of(buffer.parse_u32()?);
    let (offset, parent_offset) = parse_two_places(buffer)?;
    Ok(SymbolData::SeparatedCode(SeparatedCodeSymbol {
        parent,
        end,
        len,
        flags,
        offset,
        parent_offset,
    }))
}

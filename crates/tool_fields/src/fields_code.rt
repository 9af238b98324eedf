//! The fields of procedures and scopes.

ghost use Rattle.std.specs.Prelude.{◌≡◌, ◌++◌, None, [], codes, drop, IfOk, OnOk};
ghost use Rattle.pdb.specs.AnnotationViews.{annotation_bytes};
ghost use Rattle.pdb.specs.Data.{shown};
ghost use Rattle.pdb.specs.Forms.{Is, kind_at};
ghost use Rattle.pdb.specs.Views.{symbol_of};
ghost use Rattle.pdb_symbols.specs.declared.data.SymbolData.TheVariants as says;
ghost use Rattle.tool_fields.specs.FieldTexts.{field, fields_text, site_fields, typed_fields};
ghost use Rattle.tool_fields.specs.ValueTexts.{annotations_place, bytes_text};

use crate::fields::{
    put_body, put_bool, put_index, put_label, put_number, put_optional_index, put_optional_number,
    put_place_field, put_scope, put_span, put_type,
};
use crate::flags::{put_procedure_flags, put_separated_code_flags};
use crate::values_forms::{put_bytes, put_thunk_kind, put_trampoline};
use pdb::{
    BlockSymbol, InlineSiteSymbol, LabelSymbol, ProcedureSymbol, SeparatedCodeSymbol, Symbol,
    ThunkSymbol, TrampolineSymbol,
};
use std::alloc::AllocError;

/// A procedure's type, where it stands, and its flags.
#[tactic(auto, unfolding(crate::specs::FieldTexts::typed_fields))]
fn put_typed(out: &mut Vec<u8>, symbol: &ProcedureSymbol<'_>) -> Result<(), AllocError>
    ensures { OnOk result (out.new.items ≡ out.old.items ++ typed_fields symbol.now.type_index symbol.now.offset symbol.now.flags) }
{
    put_type(out, symbol.type_index)?;
    put_place_field(out, b"offset", symbol.offset)?;
    put_procedure_flags(out, symbol.flags)
}

/// The fields of a procedure.
pub fn put_procedure(out: &mut Vec<u8>, symbol: &ProcedureSymbol<'_>) -> Result<(), AllocError>
    ensures { OnOk result (out.new.items ≡ out.old.items ++ fields_text None [] (shown (says.Procedure symbol.now))) }
{
    put_scope(out, symbol.parent, symbol.end, symbol.next)?;
    put_body(
        out,
        symbol.len,
        symbol.dbg_start_offset,
        symbol.dbg_end_offset,
    )?;
    put_typed(out, symbol)?;
    put_bool(out, b"global", symbol.global)?;
    put_bool(out, b"dpc", symbol.dpc)
}

/// The fields of a label.
pub fn put_label_symbol(out: &mut Vec<u8>, symbol: &LabelSymbol<'_>) -> Result<(), AllocError>
    ensures { OnOk result (out.new.items ≡ out.old.items ++ fields_text None [] (shown (says.Label symbol.now))) }
{
    put_place_field(out, b"offset", symbol.offset)?;
    put_procedure_flags(out, symbol.flags)
}

/// The fields of a block.
pub fn put_block(out: &mut Vec<u8>, symbol: &BlockSymbol<'_>) -> Result<(), AllocError>
    ensures { OnOk result (out.new.items ≡ out.old.items ++ fields_text None [] (shown (says.Block symbol.now))) }
{
    put_span(out, symbol.parent, symbol.end, symbol.len)?;
    put_place_field(out, b"offset", symbol.offset)
}

/// The fields of a thunk.
#[tactic(auto, unfolding(crate::specs::FieldTexts::field))]
pub fn put_thunk(out: &mut Vec<u8>, symbol: &ThunkSymbol<'_>) -> Result<(), AllocError>
    ensures { OnOk result (out.new.items ≡ out.old.items ++ fields_text None [] (shown (says.Thunk symbol.now))) }
{
    put_scope(out, symbol.parent, symbol.end, symbol.next)?;
    put_place_field(out, b"offset", symbol.offset)?;
    put_number(out, b"len", u32::from(symbol.len))?;
    put_label(out, b"kind")?;
    put_thunk_kind(out, symbol.kind)
}

/// The fields of a trampoline.
#[tactic(auto, unfolding(crate::specs::FieldTexts::field))]
pub fn put_trampoline_symbol(out: &mut Vec<u8>, symbol: &TrampolineSymbol) -> Result<(), AllocError>
    ensures { OnOk result (out.new.items ≡ out.old.items ++ fields_text None [] (shown (says.Trampoline symbol.now))) }
{
    put_label(out, b"tramp_type")?;
    put_trampoline(out, symbol.tramp_type)?;
    put_number(out, b"size", u32::from(symbol.size))?;
    put_place_field(out, b"thunk", symbol.thunk)?;
    put_place_field(out, b"target", symbol.target)
}

/// The fields of separated code.
pub fn put_separated_code(out: &mut Vec<u8>, symbol: &SeparatedCodeSymbol) -> Result<(), AllocError>
    ensures { OnOk result (out.new.items ≡ out.old.items ++ fields_text None [] (shown (says.SeparatedCode symbol.now))) }
{
    put_span(out, symbol.parent, symbol.end, symbol.len)?;
    put_separated_code_flags(out, symbol.flags)?;
    put_place_field(out, b"offset", symbol.offset)?;
    put_place_field(out, b"parent_offset", symbol.parent_offset)
}

/// The last bytes of the record of an inlined call, which are its annotations.
fn annotations_in<'t>(source: &Symbol<'t>) -> &'t [u8]
    ensures { result.now ≡ drop (annotations_place (kind_at (symbol_of source.now).bytes)) (symbol_of source.now).bytes }
{
    let offset = if source.raw_kind() == 0x115d { 18 } else { 14 };
    source.raw_bytes().get(offset..).unwrap_or(&[])
}

/// What is around an inlined call, and what is inlined.
#[tactic(auto, unfolding(crate::specs::FieldTexts::site_fields))]
fn put_site(out: &mut Vec<u8>, symbol: &InlineSiteSymbol<'_>) -> Result<(), AllocError>
    ensures { OnOk result (out.new.items ≡ out.old.items ++ site_fields symbol.now.parent symbol.now.end symbol.now.inlinee) }
{
    put_optional_index(out, b"parent", symbol.parent)?;
    put_index(out, b"end", symbol.end.0)?;
    put_index(out, b"inlinee", symbol.inlinee.0)
}

/// The annotations of an inlined call, of which this is the record.
#[tactic(auto, unfolding(crate::specs::FieldTexts::field))]
fn put_annotations(
    out: &mut Vec<u8>,
    source: &Symbol<'_>,
    symbol: &InlineSiteSymbol<'_>,
) -> Result<(), AllocError>
    requires { Is (symbol_of source.now).bytes (shown (says.InlineSite symbol.now)) }
    ensures { OnOk result (out.new.items ≡ out.old.items ++ field (codes "annotations") (bytes_text (annotation_bytes symbol.now.annotations))) }
{
    put_label(out, b"annotations")?;
    put_bytes(out, annotations_in(source))
}

/// The fields of an inlined call, of which this is the record.
pub fn put_inline_site(
    out: &mut Vec<u8>,
    source: &Symbol<'_>,
    symbol: &InlineSiteSymbol<'_>,
) -> Result<(), AllocError>
    requires { Is (symbol_of source.now).bytes (shown (says.InlineSite symbol.now)) }
    ensures { OnOk result (out.new.items ≡ out.old.items ++ fields_text None [] (shown (says.InlineSite symbol.now))) }
{
    put_site(out, symbol)?;
    put_optional_number(out, b"invocations", symbol.invocations)?;
    put_annotations(out, source, symbol)
}

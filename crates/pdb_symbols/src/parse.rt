//! What a record says: its kind picks the form, and the form's fields stand behind the kind.

ghost use Rattle.std.specs.Prelude.{◌≡◌, ◌≤◌, length};
ghost use Rattle.pdb_symbols.specs.Kinds.{row};
ghost use Rattle.pdb_symbols.specs.Data.{shown};
ghost use Rattle.pdb_symbols.specs.Forms.{TakesMemory, kind_at, fields_at, record_at};
ghost use Rattle.pdb_symbols.specs.Memory.{Parses};

use crate::compilers::{
    parse_build_info, parse_compile_flags, parse_export, parse_obj_name, parse_using_namespace,
};
use crate::data::SymbolData;
use crate::form::{Form, form_of};
use crate::procedures::{
    parse_block, parse_inline_site, parse_label, parse_procedure, parse_separated_code,
};
use crate::references::{
    parse_annotation_reference, parse_data_reference, parse_procedure_reference,
};
use crate::registers::parse_multi_register_variable;
use crate::symbol::kind_of;
use crate::thunks::{parse_thunk, parse_trampoline};
use crate::variables::{
    parse_constant, parse_data, parse_local, parse_public, parse_register_relative,
    parse_register_variable, parse_thread_storage, parse_user_defined_type,
};
use pdb_base::{Error, ParseBuffer, Result};
use std::alloc::Global;

// What the record of these bytes says.
pub(crate) fn parse_record(alloc: Global, bytes: &[u8]) -> Result<SymbolData<'_>>
    requires { 2 ≤ length bytes.now }
    ensures { Parses (TakesMemory (row (kind_at bytes.entry.now))) shown result (record_at bytes.entry.now) }
{
    let mut buffer = ParseBuffer::from(bytes);
    buffer.seek(2);
    parse_fields(alloc, kind_of(bytes), &mut buffer)
}

// What a record of a kind says, its fields at the buffer's offset. Each arm returns by itself, and the function stays
// one: so a form's result is copied once and whole, and not field by field.
#[inline(never)]
#[tactic(auto, using(crate::proofs::Memory::answers_parses, crate::proofs::FormTable::scope_end_read, crate::proofs::FormTable::inline_site_end_read, crate::proofs::FormTable::procedure_end_read))]
fn parse_fields<'t>(
    alloc: Global,
    kind: u16,
    buffer: &mut ParseBuffer<'t>,
) -> Result<SymbolData<'t>>
    requires { buffer.old.place ≡ 2 }
    ensures { Parses (TakesMemory (row kind)) shown result (fields_at (row kind) kind buffer.old.bytes) }
{
    let Some(form) = form_of(kind) else {
        return Err(Error::UnimplementedSymbolKind(kind));
    };
    match form {
        Form::ScopeEnd => return Ok(SymbolData::ScopeEnd),
        Form::ObjName => return parse_obj_name(kind, buffer),
        Form::RegisterVariable => return parse_register_variable(kind, buffer),
        Form::Constant => return parse_constant(kind, buffer),
        Form::UserDefinedType => return parse_user_defined_type(kind, buffer),
        Form::MultiRegisterVariable => return parse_multi_register_variable(alloc, kind, buffer),
        Form::Data => return parse_data(kind, buffer),
        Form::Public => return parse_public(kind, buffer),
        Form::Procedure => return parse_procedure(kind, buffer),
        Form::ThreadStorage => return parse_thread_storage(kind, buffer),
        Form::CompileFlags => return parse_compile_flags(kind, buffer),
        Form::UsingNamespace => return parse_using_namespace(kind, buffer),
        Form::ProcedureReference => return parse_procedure_reference(kind, buffer),
        Form::DataReference => return parse_data_reference(kind, buffer),
        Form::AnnotationReference => return parse_annotation_reference(kind, buffer),
        Form::Trampoline => return parse_trampoline(kind, buffer),
        Form::Export => return parse_export(kind, buffer),
        Form::Local => return parse_local(kind, buffer),
        Form::BuildInfo => return parse_build_info(kind, buffer),
        Form::InlineSite => return parse_inline_site(kind, buffer),
        Form::InlineSiteEnd => return Ok(SymbolData::InlineSiteEnd),
        Form::ProcedureEnd => return Ok(SymbolData::ProcedureEnd),
        Form::Label => return parse_label(kind, buffer),
        Form::Block => return parse_block(kind, buffer),
        Form::RegisterRelative => return parse_register_relative(kind, buffer),
        Form::Thunk => return parse_thunk(kind, buffer),
        Form::SeparatedCode => return parse_separated_code(kind, buffer),
    }
}

//! A record's form and its name, without its other fields.

ghost use Rattle.std.specs.Prelude.{◌≡◌, ◌≤◌, length, IfSome, IsTrue, Some};
ghost use Rattle.pdb_base.specs.Refusal.{Answers};
ghost use Rattle.pdb_base.specs.Text.{name_bytes};
ghost use Rattle.pdb_symbols.specs.Forms.{TakesMemory, kind_at};
ghost use Rattle.pdb_symbols.specs.Headings.{NameStandsAt, IsBare, heading_at, shown_heading};
ghost use Rattle.pdb_symbols.specs.Kinds.{row};
ghost use Rattle.pdb_symbols.specs.Memory.{Parses};
ghost use Rattle.pdb_symbols.specs.Parts.{name_at};

use crate::fields::{FIRST_WITH_ZERO_ENDED_NAMES, parse_name};
use crate::form::{Form, form_of};
use crate::parse::parse_record;
use crate::symbol::kind_of;
use pdb_base::{Error, ParseBuffer, RawString, Result};
use std::alloc::Global;

/// What a record is, and what it is called.
#[derive(Clone, Copy, Debug, Eq, PartialEq)]
pub struct Heading<'t> {
    /// The record's form.
    pub form: Form,
    /// The record's name, if it has one.
    pub name: Option<RawString<'t>>,
}

// Whether records of a form have no fields.
#[inline(always)]
#[tactic(auto, using(crate::proofs::Headings::scope_end_bare, crate::proofs::Headings::inline_site_end_bare, crate::proofs::Headings::procedure_end_bare))]
fn is_bare(form: Form) -> bool
    ensures { IsTrue result → IsBare form }
{
    matches!(
        form,
        Form::ScopeEnd | Form::InlineSiteEnd | Form::ProcedureEnd
    )
}

// Where records of a form and a kind have their names, if all fields before them have one width.
#[inline(always)]
#[tactic(auto, using(crate::proofs::Headings::using_namespace_name, crate::proofs::Headings::obj_name_name, crate::proofs::Headings::user_defined_type_name, crate::proofs::Headings::export_name, crate::proofs::Headings::local_name, crate::proofs::Headings::label_name, crate::proofs::Headings::data_name, crate::proofs::Headings::public_name, crate::proofs::Headings::thread_storage_name, crate::proofs::Headings::register_relative_name, crate::proofs::Headings::annotation_reference_name, crate::proofs::Headings::block_name, crate::proofs::Headings::procedure_name, crate::proofs::Headings::procedure_reference_name, crate::proofs::Headings::data_reference_name))]
fn name_place(form: Form, kind: u16) -> Option<usize>
    ensures { IfSome result (λ p. NameStandsAt form kind p) }
{
    match form {
        Form::UsingNamespace => Some(2),
        Form::ObjName => Some(6),
        Form::UserDefinedType => Some(6),
        Form::Export => Some(6),
        Form::Local => Some(8),
        Form::Label => Some(9),
        Form::Data => Some(12),
        Form::Public => Some(12),
        Form::ThreadStorage => Some(12),
        Form::RegisterRelative => Some(12),
        Form::AnnotationReference => Some(12),
        Form::Block => Some(20),
        Form::Procedure => Some(37),
        Form::ProcedureReference if kind >= FIRST_WITH_ZERO_ENDED_NAMES => Some(12),
        Form::DataReference if kind >= FIRST_WITH_ZERO_ENDED_NAMES => Some(12),
        _ => None,
    }
}

// The name at an offset of a record of a kind.
#[inline(always)]
#[tactic(auto, using(crate::proofs::Headings::name_within))]
fn read_name<'t>(kind: u16, bytes: &'t [u8], place: usize) -> Result<RawString<'t>>
    ensures { Answers name_bytes result (name_at kind bytes.now place) }
{
    let mut buffer = ParseBuffer::from(bytes);
    buffer.seek(place);
    parse_name(kind, &mut buffer)
}

// What heads a record of a form whose names have no fixed offset, by all of its fields.
#[inline(never)]
fn read_whole<'t>(alloc: Global, form: Form, bytes: &'t [u8]) -> Result<Heading<'t>>
    requires there { 2 ≤ length bytes.now }
    requires listed { row (kind_at bytes.now) ≡ Some form }
    ensures { Parses (TakesMemory (row (kind_at bytes.entry.now))) shown_heading result (heading_at bytes.entry.now) }
{
    let name = parse_record(alloc, bytes)?.name();
    Ok(Heading { form, name })
}

// What heads the record of these bytes.
#[inline(always)]
pub(crate) fn read_heading<'t>(alloc: Global, bytes: &'t [u8]) -> Result<Heading<'t>>
    requires { 2 ≤ length bytes.now }
    ensures { Parses (TakesMemory (row (kind_at bytes.entry.now))) shown_heading result (heading_at bytes.entry.now) }
{
    let kind = kind_of(bytes);
    let Some(form) = form_of(kind) else {
        return Err(Error::UnimplementedSymbolKind(kind));
    };
    if is_bare(form) {
        return Ok(Heading { form, name: None });
    }
    let Some(place) = name_place(form, kind) else {
        return read_whole(alloc, form, bytes);
    };
    let name = Some(read_name(kind, bytes, place)?);
    Ok(Heading { form, name })
}

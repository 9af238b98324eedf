//! The fields of records of frames, calls and other things in code.

ghost use Rattle.std.specs.Prelude.{◌≡◌, ◌++◌, codes, None, OnOk};
ghost use Rattle.pdb_records.specs.RecordViews.{shown_record};
ghost use Rattle.pdb_records.specs.declared.record.Record.TheVariants as further;
ghost use Rattle.pdb_records.specs.RecordViews.{numbers_in_list};
ghost use Rattle.std.specs.Fmt.{decimal, signed_decimal};
ghost use Rattle.pdb_text.specs.Digits.{hex};
ghost use Rattle.tool_fields.specs.FieldTexts.{field};
ghost use Rattle.tool_records.specs.RecordTexts.{bases_fields, frame_sizes_fields, instruction_fields, says_text};
ghost use Rattle.tool_fields.specs.RecordValues.{base_text, cookie_text, entry_text, joined_texts};

use crate::record_fields::put_strings_field;
use crate::record_flags::put_frame_flags;
use crate::record_lists::{put_counts, put_ids};
use crate::record_values::{put_cookie, put_entry_kind};
use pdb_records::{
    Annotation, CallSiteInfo, CookieKind, EntryKind, FrameCookie, FrameProcedure, FunctionList,
    HeapAllocationSite, HotPatchFunction, JumpTable, Machine, Numbers, PogoData,
};
use std::alloc::AllocError;
use tool_fields::fields::{
    put_index, put_label, put_number, put_offset, put_place_field, put_register, put_signed_field,
    put_type,
};
use tool_fields::register_names::put_base;
use tool_fields::values::put_behind_blank;

/// The sizes of a frame.
#[tactic(auto, unfolding(crate::specs::RecordTexts::frame_sizes_fields))]
fn put_frame_sizes(out: &mut Vec<u8>, symbol: &FrameProcedure) -> Result<(), AllocError>
    ensures { OnOk result (out.new.items ≡ out.old.items ++ frame_sizes_fields symbol.now) }
{
    put_number(out, b"frame_bytes", symbol.frame_bytes)?;
    put_number(out, b"padding_bytes", symbol.padding_bytes)?;
    put_number(out, b"padding_offset", symbol.padding_offset)?;
    put_number(out, b"saved_register_bytes", symbol.saved_register_bytes)
}

/// The register from which variables of a frame count.
#[tactic(auto, unfolding(tool_fields::specs::FieldTexts::field))]
fn put_base_field(
    out: &mut Vec<u8>,
    name: &[u8],
    machine: Option<Machine>,
    encoded: u8,
) -> Result<(), AllocError>
    ensures { OnOk result (out.new.items ≡ out.old.items ++ field name.now (base_text machine encoded)) }
{
    put_label(out, name)?;
    put_base(out, machine, encoded)
}

/// The registers from which local variables and parameters count.
#[tactic(auto, unfolding(crate::specs::RecordTexts::bases_fields))]
fn put_bases(
    out: &mut Vec<u8>,
    machine: Option<Machine>,
    symbol: &FrameProcedure,
) -> Result<(), AllocError>
    ensures { OnOk result (out.new.items ≡ out.old.items ++ bases_fields machine symbol.now) }
{
    put_base_field(out, b"local_base", machine, symbol.local_base)?;
    put_base_field(out, b"param_base", machine, symbol.parameter_base)
}

/// The fields of a frame.
pub fn put_frame_procedure(
    out: &mut Vec<u8>,
    machine: Option<Machine>,
    symbol: &FrameProcedure,
) -> Result<(), AllocError>
    ensures { OnOk result (out.new.items ≡ out.old.items ++ says_text machine (shown_record (further.FrameProcedure symbol.now))) }
{
    put_frame_sizes(out, symbol)?;
    put_place_field(out, b"exception_handler", symbol.exception_handler)?;
    put_frame_flags(out, symbol.flags)?;
    put_bases(out, machine, symbol)
}

/// How a security cookie is made.
#[tactic(auto, unfolding(tool_fields::specs::FieldTexts::field))]
fn put_cookie_field(out: &mut Vec<u8>, cookie: CookieKind) -> Result<(), AllocError>
    ensures { OnOk result (out.new.items ≡ out.old.items ++ field (codes "cookie") (cookie_text cookie)) }
{
    put_label(out, b"cookie")?;
    put_cookie(out, cookie)
}

/// The fields of a security cookie.
pub fn put_frame_cookie(
    out: &mut Vec<u8>,
    machine: Option<Machine>,
    symbol: &FrameCookie,
) -> Result<(), AllocError>
    ensures { OnOk result (out.new.items ≡ out.old.items ++ says_text machine (shown_record (further.FrameCookie symbol.now))) }
{
    put_offset(out, symbol.offset)?;
    put_register(out, machine, symbol.register)?;
    put_cookie_field(out, symbol.cookie)?;
    put_number(out, b"flags", u32::from(symbol.flags))
}

/// The fields of an indirect call.
pub fn put_call_site(out: &mut Vec<u8>, symbol: &CallSiteInfo) -> Result<(), AllocError>
    ensures { OnOk result (out.new.items ≡ out.old.items ++ says_text None (shown_record (further.CallSiteInfo symbol.now))) }
{
    put_place_field(out, b"offset", symbol.offset)?;
    put_type(out, symbol.type_index)
}

/// The fields of a call that allocates memory.
pub fn put_heap_allocation_site(
    out: &mut Vec<u8>,
    symbol: &HeapAllocationSite,
) -> Result<(), AllocError>
    ensures { OnOk result (out.new.items ≡ out.old.items ++ says_text None (shown_record (further.HeapAllocationSite symbol.now))) }
{
    put_place_field(out, b"offset", symbol.offset)?;
    put_number(
        out,
        b"instruction_bytes",
        u32::from(symbol.instruction_bytes),
    )?;
    put_type(out, symbol.type_index)
}

/// The ids of functions.
#[tactic(auto, unfolding(tool_fields::specs::FieldTexts::field))]
fn put_functions(out: &mut Vec<u8>, functions: Numbers<'_>) -> Result<(), AllocError>
    ensures { OnOk result (out.new.items ≡ out.old.items ++ field (codes "functions") (joined_texts (hex 8) (numbers_in_list functions.entry))) }
{
    put_label(out, b"functions")?;
    put_ids(out, functions)
}

/// How often functions were called.
#[tactic(auto, unfolding(tool_fields::specs::FieldTexts::field))]
fn put_invocations(out: &mut Vec<u8>, invocations: Numbers<'_>) -> Result<(), AllocError>
    ensures { OnOk result (out.new.items ≡ out.old.items ++ field (codes "invocations") (joined_texts decimal (numbers_in_list invocations.entry))) }
{
    put_label(out, b"invocations")?;
    put_counts(out, invocations)
}

/// The fields of a list of functions.
pub fn put_function_list(out: &mut Vec<u8>, symbol: &FunctionList<'_>) -> Result<(), AllocError>
    ensures { OnOk result (out.new.items ≡ out.old.items ++ says_text None (shown_record (further.FunctionList symbol.now))) }
{
    put_functions(out, symbol.functions)?;
    put_invocations(out, symbol.invocations)
}

/// What an entry of a jump table is.
#[tactic(auto, unfolding(tool_fields::specs::FieldTexts::field))]
fn put_entry_kind_field(out: &mut Vec<u8>, kind: EntryKind) -> Result<(), AllocError>
    ensures { OnOk result (out.new.items ≡ out.old.items ++ field (codes "entry_kind") (entry_text kind)) }
{
    put_label(out, b"entry_kind")?;
    put_entry_kind(out, kind)
}

/// The fields of a jump by a table.
pub fn put_jump_table(out: &mut Vec<u8>, symbol: &JumpTable) -> Result<(), AllocError>
    ensures { OnOk result (out.new.items ≡ out.old.items ++ says_text None (shown_record (further.JumpTable symbol.now))) }
{
    put_place_field(out, b"base", symbol.base)?;
    put_entry_kind_field(out, symbol.entry_kind)?;
    put_place_field(out, b"branch", symbol.branch)?;
    put_place_field(out, b"table", symbol.table)?;
    put_number(out, b"entries", symbol.entries)
}

/// The fields of an annotation.
pub fn put_annotation(out: &mut Vec<u8>, symbol: &Annotation<'_>) -> Result<(), AllocError>
    ensures { OnOk result (out.new.items ≡ out.old.items ++ says_text None (shown_record (further.Annotation symbol.now))) }
{
    put_place_field(out, b"offset", symbol.offset)?;
    put_strings_field(out, symbol.strings)
}

/// How many instructions a procedure has, and how many of them are live.
#[tactic(auto, unfolding(crate::specs::RecordTexts::instruction_fields))]
fn put_instructions(out: &mut Vec<u8>, instructions: u32, live: u32) -> Result<(), AllocError>
    ensures { OnOk result (out.new.items ≡ out.old.items ++ instruction_fields instructions live) }
{
    put_number(out, b"instructions", instructions)?;
    put_number(out, b"live_instructions", live)
}

/// How often a procedure was called.
fn put_call_count(out: &mut Vec<u8>, count: u32) -> Result<(), AllocError>
    ensures { OnOk result (out.new.items ≡ out.old.items ++ field (codes "invocations") (decimal count)) }
{
    put_number(out, b"invocations", count)
}

/// How many instructions were run in a procedure.
fn put_dynamic_count(out: &mut Vec<u8>, count: i64) -> Result<(), AllocError>
    ensures { OnOk result (out.new.items ≡ out.old.items ++ field (codes "dynamic_count") (signed_decimal count)) }
{
    put_signed_field(out, b"dynamic_count", count)
}

/// The fields of a profile of a procedure.
pub fn put_pogo_data(out: &mut Vec<u8>, symbol: &PogoData) -> Result<(), AllocError>
    ensures { OnOk result (out.new.items ≡ out.old.items ++ says_text None (shown_record (further.PogoData symbol.now))) }
{
    put_call_count(out, symbol.invocations)?;
    put_dynamic_count(out, symbol.dynamic_count)?;
    put_instructions(out, symbol.instructions, symbol.live_instructions)
}

/// The id and the name of a function that can be patched.
pub fn put_hot_patch_function(
    out: &mut Vec<u8>,
    symbol: &HotPatchFunction<'_>,
) -> Result<(), AllocError>
    ensures { OnOk result (out.new.items ≡ out.old.items ++ says_text None (shown_record (further.HotPatchFunction symbol.now))) }
{
    put_index(out, b"id", symbol.id.0)?;
    put_behind_blank(out, symbol.name.as_bytes())
}

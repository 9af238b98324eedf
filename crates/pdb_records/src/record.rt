//! What a further record says: its kind picks the layout, and the fields stand behind the kind.

ghost use Rattle.std.specs.Prelude.{◌≡◌, ◌≤◌, ◌↔◌, ◌⊎◌, ℕ, None, IfOk, IfErr, IsOkAnd, IsErrOf, length};
ghost use Rattle.pdb_base.specs.Refusal.{Answers};
ghost use Rattle.pdb_base.specs.declared.error.Error.{Error};
ghost use Rattle.pdb_symbols.specs.Forms.{kind_at};
ghost use Rattle.pdb_symbols.specs.Views.{symbol_of};
ghost use Rattle.pdb_records.specs.RecordRows.{record_row};
ghost use Rattle.pdb_records.specs.RecordReading.{RecordRefusal, SaysOf, further_at, further_fields_at};
ghost use Rattle.pdb_records.specs.RecordSays.{Says};
ghost use Rattle.pdb_records.specs.RecordViews.{shown_record};

use crate::code::{
    Annotation, CallSiteInfo, FunctionList, HeapAllocationSite, HotPatchFunction, JumpTable,
    PogoData, parse_annotation, parse_call_site_info, parse_function_list,
    parse_heap_allocation_site, parse_hot_patch_function, parse_jump_table, parse_pogo_data,
};
use crate::form::{RecordForm, record_form_of};
use crate::frames::{FrameCookie, FrameProcedure, parse_frame_cookie, parse_frame_procedure};
use crate::image::{
    CoffGroup, EnvironmentBlock, Section, parse_coff_group, parse_environment_block, parse_section,
};
use crate::managed::{
    ManagedProcedure, Oem, TokenReference, parse_managed_procedure, parse_oem,
    parse_token_reference,
};
use crate::managed_variables::{
    ManagedFrameRelative, ManagedRegister, ManagedRegisterRelative, ManagedSlot, Slot,
    parse_managed_frame_relative, parse_managed_register, parse_managed_register_relative,
    parse_managed_slot, parse_slot,
};
use crate::older::{
    Compile, Discarded, MiniReference, ModuleTypeReference, RegisterRelativeOld, StartSearch,
    VirtualTablePath, With, parse_compile, parse_discarded, parse_mini_reference,
    parse_module_type_reference, parse_register_relative_old, parse_start_search,
    parse_virtual_table_path, parse_with,
};
use crate::ranges::{
    DefRange, DefRangeFramePointerRelative, DefRangeFramePointerRelativeFullScope,
    DefRangeRegister, DefRangeRegisterRelative, DefRangeSubfield, DefRangeSubfieldRegister,
    parse_def_range, parse_def_range_frame_pointer_relative,
    parse_def_range_frame_pointer_relative_full_scope, parse_def_range_register,
    parse_def_range_register_relative, parse_def_range_subfield, parse_def_range_subfield_register,
};
use crate::shared::{
    LocalGroupShared, PointerTagMap, parse_local_group_shared, parse_pointer_tag_map,
};
use crate::variables::{
    BasePointerRelative, FileStatic, parse_base_pointer_relative, parse_file_static,
};
use pdb_base::{Error, ParseBuffer, Result};
use pdb_symbols::Symbol;

/// What a record says that `pdb_symbols::Symbol::parse` doesn't read. Names and lists borrow the record's bytes.
#[derive(Clone, Copy, Debug, Eq, PartialEq)]
pub enum Record<'t> {
    /// The frame of a procedure.
    FrameProcedure(FrameProcedure),
    /// A variable at an offset from the frame's base pointer.
    BasePointerRelative(BasePointerRelative<'t>),
    /// A variable that a program computes.
    DefRange(DefRange<'t>),
    /// A part of a variable that a program computes.
    DefRangeSubfield(DefRangeSubfield<'t>),
    /// A variable in a register.
    DefRangeRegister(DefRangeRegister<'t>),
    /// A variable at an offset from the frame's register.
    DefRangeFramePointerRelative(DefRangeFramePointerRelative<'t>),
    /// A part of a variable in a register.
    DefRangeSubfieldRegister(DefRangeSubfieldRegister<'t>),
    /// A variable at an offset from the frame's register, in all code of its scope.
    DefRangeFramePointerRelativeFullScope(DefRangeFramePointerRelativeFullScope),
    /// A variable, or a part of one, at an offset from a register's value.
    DefRangeRegisterRelative(DefRangeRegisterRelative<'t>),
    /// A static variable of a file that is kept in registers.
    FileStatic(FileStatic<'t>),
    /// The security cookie of a frame.
    FrameCookie(FrameCookie),
    /// An indirect call.
    CallSiteInfo(CallSiteInfo),
    /// A call that allocates memory.
    HeapAllocationSite(HeapAllocationSite),
    /// Functions that a procedure calls, that call it, or that are inlined in it.
    FunctionList(FunctionList<'t>),
    /// A jump by a table.
    JumpTable(JumpTable),
    /// A part of a section that the linker put together.
    CoffGroup(CoffGroup<'t>),
    /// A section of the image.
    Section(Section<'t>),
    /// The environment in which a module was compiled.
    EnvironmentBlock(EnvironmentBlock<'t>),
    /// Strings that the program's text gave for a `section:offset`.
    Annotation(Annotation<'t>),
    /// What a profile says of a procedure.
    PogoData(PogoData),
    /// A function that can be patched while it runs.
    HotPatchFunction(HotPatchFunction<'t>),
    /// A procedure of the intermediate language.
    ManagedProcedure(ManagedProcedure<'t>),
    /// A reference to a managed procedure.
    TokenReference(TokenReference<'t>),
    /// A record of another maker.
    Oem(Oem<'t>),
    /// A variable that a group of threads shares.
    LocalGroupShared(LocalGroupShared<'t>),
    /// The variables that pointers with tags point to.
    PointerTagMap(PointerTagMap<'t>),
    /// A variable at an offset from a register's value.
    RegisterRelativeOld(RegisterRelativeOld<'t>),
    /// A scope in which members of a variable are named alone.
    With(With<'t>),
    /// Where a table of virtual functions stands.
    VirtualTablePath(VirtualTablePath),
    /// How a module's types are kept.
    ModuleTypeReference(ModuleTypeReference),
    /// A reference into an object file.
    MiniReference(MiniReference<'t>),
    /// What the linker discarded.
    Discarded(Discarded<'t>),
    /// How a module was compiled, by the oldest compilers.
    Compile(Compile<'t>),
    /// Where a search for symbols starts.
    StartSearch(StartSearch),
    /// The end of the arguments of a procedure: `S_ENDARG` (0x000a).
    EndOfArguments,
    /// A variable in a slot of the intermediate language.
    Slot(Slot<'t>),
    /// A variable in a slot, with its attributes.
    ManagedSlot(ManagedSlot<'t>),
    /// A variable at an offset from the frame's register, with its attributes.
    ManagedFrameRelative(ManagedFrameRelative<'t>),
    /// A variable in a register, with its attributes.
    ManagedRegister(ManagedRegister<'t>),
    /// A variable at an offset from a register's value, with its attributes.
    ManagedRegisterRelative(ManagedRegisterRelative<'t>),
}

impl<'t> Record<'t> {
    /// What a symbol's record says. Its kind picks the layout; the fields stand in the layout's order, and bytes
    /// behind the last one mean nothing. It takes no memory.
    ///
    /// # Errors
    ///
    /// `UnimplementedSymbolKind` where the kind has no layout here, as every kind that `Symbol::parse` reads;
    /// `UnexpectedEof` where a field isn't there.
    #[tactic(auto, using(crate::proofs::RecordClauses::found_of, crate::proofs::RecordClauses::only_of, crate::proofs::RecordClauses::kind_clause, crate::proofs::RecordClauses::refused_of))]
    pub fn parse(symbol: &Symbol<'t>) -> Result<Self>
        // The result is a function of the bytes.
        ensures reads { Answers shown_record result (further_at (symbol_of symbol.now).bytes) }
        // What is returned is what the bytes say.
        ensures found { IfOk result (λ r. SaysOf (symbol_of symbol.now).bytes (shown_record r)) }
        // What the bytes say is returned.
        ensures only { (d : Says) → SaysOf (symbol_of symbol.now).bytes d → IsOkAnd result (λ r. shown_record r ≡ d) }
        // A kind without a layout is an error as such.
        ensures kind { (k : ℕ) → IsErrOf result (Error.UnimplementedSymbolKind k)
            ↔ ((record_row (kind_at (symbol_of symbol.now).bytes) ≡ None) × (k ≡ kind_at (symbol_of symbol.now).bytes)) }
        // Every other error is the end of the bytes.
        ensures refused { IfErr result (λ e. RecordRefusal (symbol_of symbol.now).bytes e) }
    {
        parse_record(symbol.raw_kind(), symbol.raw_bytes())
    }
}

// What the record of these bytes says, which are of this kind.
fn parse_record(kind: u16, bytes: &[u8]) -> Result<Record<'_>>
    requires { 2 ≤ length bytes.now }
    ensures { Answers shown_record result (further_fields_at (record_row kind) kind bytes.entry.now) }
{
    let mut buffer = ParseBuffer::from(bytes);
    buffer.seek(2);
    parse_fields(kind, &mut buffer)
}

// What a record of a kind says, its fields at the buffer's offset.
#[tactic(auto, using(crate::proofs::LaidRecords::end_of_arguments_read))]
fn parse_fields<'t>(kind: u16, buffer: &mut ParseBuffer<'t>) -> Result<Record<'t>>
    requires { buffer.old.place ≡ 2 }
    ensures { Answers shown_record result (further_fields_at (record_row kind) kind buffer.old.bytes) }
{
    let Some(form) = record_form_of(kind) else {
        return Err(Error::UnimplementedSymbolKind(kind));
    };
    match form {
        RecordForm::FrameProcedure => parse_frame_procedure(kind, buffer),
        RecordForm::BasePointerRelative => parse_base_pointer_relative(kind, buffer),
        RecordForm::DefRange => parse_def_range(kind, buffer),
        RecordForm::DefRangeSubfield => parse_def_range_subfield(kind, buffer),
        RecordForm::DefRangeRegister => parse_def_range_register(kind, buffer),
        RecordForm::DefRangeFramePointerRelative => {
            parse_def_range_frame_pointer_relative(kind, buffer)
        }
        RecordForm::DefRangeSubfieldRegister => parse_def_range_subfield_register(kind, buffer),
        RecordForm::DefRangeFramePointerRelativeFullScope => {
            parse_def_range_frame_pointer_relative_full_scope(kind, buffer)
        }
        RecordForm::DefRangeRegisterRelative => parse_def_range_register_relative(kind, buffer),
        RecordForm::FileStatic => parse_file_static(kind, buffer),
        RecordForm::FrameCookie => parse_frame_cookie(kind, buffer),
        RecordForm::CallSiteInfo => parse_call_site_info(kind, buffer),
        RecordForm::HeapAllocationSite => parse_heap_allocation_site(kind, buffer),
        RecordForm::FunctionList => parse_function_list(kind, buffer),
        RecordForm::JumpTable => parse_jump_table(kind, buffer),
        RecordForm::CoffGroup => parse_coff_group(kind, buffer),
        RecordForm::Section => parse_section(kind, buffer),
        RecordForm::EnvironmentBlock => parse_environment_block(kind, buffer),
        RecordForm::Annotation => parse_annotation(kind, buffer),
        RecordForm::PogoData => parse_pogo_data(kind, buffer),
        RecordForm::HotPatchFunction => parse_hot_patch_function(kind, buffer),
        RecordForm::ManagedProcedure => parse_managed_procedure(kind, buffer),
        RecordForm::TokenReference => parse_token_reference(kind, buffer),
        RecordForm::Oem => parse_oem(kind, buffer),
        RecordForm::LocalGroupShared => parse_local_group_shared(kind, buffer),
        RecordForm::PointerTagMap => parse_pointer_tag_map(kind, buffer),
        RecordForm::RegisterRelativeOld => parse_register_relative_old(kind, buffer),
        RecordForm::With => parse_with(kind, buffer),
        RecordForm::VirtualTablePath => parse_virtual_table_path(kind, buffer),
        RecordForm::ModuleTypeReference => parse_module_type_reference(kind, buffer),
        RecordForm::MiniReference => parse_mini_reference(kind, buffer),
        RecordForm::Discarded => parse_discarded(kind, buffer),
        RecordForm::Compile => parse_compile(kind, buffer),
        RecordForm::StartSearch => parse_start_search(kind, buffer),
        RecordForm::EndOfArguments => Ok(Record::EndOfArguments),
        RecordForm::Slot => parse_slot(kind, buffer),
        RecordForm::ManagedSlot => parse_managed_slot(kind, buffer),
        RecordForm::ManagedFrameRelative => parse_managed_frame_relative(kind, buffer),
        RecordForm::ManagedRegister => parse_managed_register(kind, buffer),
        RecordForm::ManagedRegisterRelative => parse_managed_register_relative(kind, buffer),
    }
}

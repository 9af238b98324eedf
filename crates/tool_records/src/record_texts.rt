//! The text of a further record: its fields, and its name.

ghost use Rattle.std.specs.Prelude.{◌≡◌, ◌++◌, OnOk};
ghost use Rattle.pdb_records.specs.RecordViews.{shown_record};
ghost use Rattle.tool_records.specs.RecordTexts.{says_text};

use crate::record_code::{
    put_annotation, put_call_site, put_frame_cookie, put_frame_procedure, put_function_list,
    put_heap_allocation_site, put_hot_patch_function, put_jump_table, put_pogo_data,
};
use crate::record_image::{
    put_coff_group, put_compile, put_discarded, put_environment_block, put_mini_reference,
    put_module_type_reference, put_oem, put_section, put_start_search,
};
use crate::record_managed::{
    put_managed_frame_relative, put_managed_procedure, put_managed_register,
    put_managed_register_relative, put_managed_slot, put_token_reference,
};
use crate::record_ranges::{
    put_def_range, put_def_range_frame, put_def_range_full_scope, put_def_range_register,
    put_def_range_register_relative, put_def_range_subfield, put_def_range_subfield_register,
};
use crate::record_variables::{
    put_base_pointer_relative, put_file_static, put_local_group_shared, put_pointer_tag_map,
    put_register_relative_old, put_slot, put_virtual_table_path, put_with,
};
use pdb_records::{Machine, Record};
use std::alloc::AllocError;

/// The fields and the name of a further record, with registers by their names on a machine.
pub fn put_record_says(
    out: &mut Vec<u8>,
    machine: Option<Machine>,
    parsed: &Record<'_>,
) -> Result<(), AllocError>
    ensures { OnOk result (out.new.items ≡ out.old.items ++ says_text machine (shown_record parsed.now)) }
{
    match parsed {
        Record::FrameProcedure(s) => put_frame_procedure(out, machine, s),
        Record::BasePointerRelative(s) => put_base_pointer_relative(out, s),
        Record::DefRange(s) => put_def_range(out, s),
        Record::DefRangeSubfield(s) => put_def_range_subfield(out, s),
        Record::DefRangeRegister(s) => put_def_range_register(out, machine, s),
        Record::DefRangeFramePointerRelative(s) => put_def_range_frame(out, s),
        Record::DefRangeSubfieldRegister(s) => put_def_range_subfield_register(out, machine, s),
        Record::DefRangeFramePointerRelativeFullScope(s) => put_def_range_full_scope(out, s),
        Record::DefRangeRegisterRelative(s) => put_def_range_register_relative(out, machine, s),
        Record::FileStatic(s) => put_file_static(out, s),
        Record::FrameCookie(s) => put_frame_cookie(out, machine, s),
        Record::CallSiteInfo(s) => put_call_site(out, s),
        Record::HeapAllocationSite(s) => put_heap_allocation_site(out, s),
        Record::FunctionList(s) => put_function_list(out, s),
        Record::JumpTable(s) => put_jump_table(out, s),
        Record::CoffGroup(s) => put_coff_group(out, s),
        Record::Section(s) => put_section(out, s),
        Record::EnvironmentBlock(s) => put_environment_block(out, s),
        Record::Annotation(s) => put_annotation(out, s),
        Record::PogoData(s) => put_pogo_data(out, s),
        Record::HotPatchFunction(s) => put_hot_patch_function(out, s),
        Record::ManagedProcedure(s) => put_managed_procedure(out, machine, s),
        Record::TokenReference(s) => put_token_reference(out, s),
        Record::Oem(s) => put_oem(out, s),
        Record::LocalGroupShared(s) => put_local_group_shared(out, s),
        Record::PointerTagMap(s) => put_pointer_tag_map(out, s),
        Record::RegisterRelativeOld(s) => put_register_relative_old(out, machine, s),
        Record::With(s) => put_with(out, s),
        Record::VirtualTablePath(s) => put_virtual_table_path(out, s),
        Record::ModuleTypeReference(s) => put_module_type_reference(out, s),
        Record::MiniReference(s) => put_mini_reference(out, s),
        Record::Discarded(s) => put_discarded(out, s),
        Record::Compile(s) => put_compile(out, s),
        Record::StartSearch(s) => put_start_search(out, s),
        Record::EndOfArguments => Ok(()),
        Record::Slot(s) => put_slot(out, s),
        Record::ManagedSlot(s) => put_managed_slot(out, s),
        Record::ManagedFrameRelative(s) => put_managed_frame_relative(out, s),
        Record::ManagedRegister(s) => put_managed_register(out, machine, s),
        Record::ManagedRegisterRelative(s) => put_managed_register_relative(out, machine, s),
    }
}

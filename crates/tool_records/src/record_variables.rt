//! The fields of records of variables.

ghost use Rattle.std.specs.Prelude.{◌≡◌, ◌++◌, None, OnOk};
ghost use Rattle.pdb_records.specs.RecordViews.{shown_record};
ghost use Rattle.pdb_records.specs.declared.record.Record.TheVariants as further;
ghost use Rattle.tool_records.specs.RecordTexts.{says_text};

use crate::record_flags::put_variable_flags;
use crate::record_lists::put_tags;
use pdb_records::{
    BasePointerRelative, FileStatic, LocalGroupShared, Machine, PointerTagMap, RegisterRelativeOld,
    Slot, VirtualTablePath, With,
};
use std::alloc::AllocError;
use tool_fields::fields::{
    put_index, put_label, put_number, put_offset, put_optional_index, put_place_field,
    put_register, put_type,
};
use tool_fields::values::put_behind_blank;

/// The fields and the name of a variable at an offset from the base pointer.
pub fn put_base_pointer_relative(
    out: &mut Vec<u8>,
    symbol: &BasePointerRelative<'_>,
) -> Result<(), AllocError>
    ensures { OnOk result (out.new.items ≡ out.old.items ++ says_text None (shown_record (further.BasePointerRelative symbol.now))) }
{
    put_offset(out, symbol.offset)?;
    put_type(out, symbol.type_index)?;
    put_behind_blank(out, symbol.name.as_bytes())
}

/// The fields and the name of a variable at an offset from the value of a register, as older linkers wrote it.
pub fn put_register_relative_old(
    out: &mut Vec<u8>,
    machine: Option<Machine>,
    symbol: &RegisterRelativeOld<'_>,
) -> Result<(), AllocError>
    ensures { OnOk result (out.new.items ≡ out.old.items ++ says_text machine (shown_record (further.RegisterRelativeOld symbol.now))) }
{
    put_offset(out, symbol.offset)?;
    put_type(out, symbol.type_index)?;
    put_register(out, machine, symbol.register)?;
    put_behind_blank(out, symbol.name.as_bytes())
}

/// The fields and the name of a static variable that is kept in registers.
pub fn put_file_static(out: &mut Vec<u8>, symbol: &FileStatic<'_>) -> Result<(), AllocError>
    ensures { OnOk result (out.new.items ≡ out.old.items ++ says_text None (shown_record (further.FileStatic symbol.now))) }
{
    put_type(out, symbol.type_index)?;
    put_number(out, b"module_file", symbol.module_file)?;
    put_variable_flags(out, symbol.flags)?;
    put_behind_blank(out, symbol.name.as_bytes())
}

/// The fields and the name of a variable that a group of threads shares.
pub fn put_local_group_shared(
    out: &mut Vec<u8>,
    symbol: &LocalGroupShared<'_>,
) -> Result<(), AllocError>
    ensures { OnOk result (out.new.items ≡ out.old.items ++ says_text None (shown_record (further.LocalGroupShared symbol.now))) }
{
    put_type(out, symbol.type_index)?;
    put_variable_flags(out, symbol.flags)?;
    put_number(out, b"data_slot", u32::from(symbol.data_slot))?;
    put_number(out, b"data_offset", u32::from(symbol.data_offset))?;
    put_behind_blank(out, symbol.name.as_bytes())
}

/// The tags of pointers.
#[tactic(auto, unfolding(tool_fields::specs::FieldTexts::field))]
pub fn put_pointer_tag_map(out: &mut Vec<u8>, symbol: &PointerTagMap<'_>) -> Result<(), AllocError>
    ensures { OnOk result (out.new.items ≡ out.old.items ++ says_text None (shown_record (further.PointerTagMap symbol.now))) }
{
    put_label(out, b"tags")?;
    put_tags(out, symbol.tags)
}

/// The fields of a scope in which members of a variable are named alone, and the variable.
pub fn put_with(out: &mut Vec<u8>, symbol: &With<'_>) -> Result<(), AllocError>
    ensures { OnOk result (out.new.items ≡ out.old.items ++ says_text None (shown_record (further.With symbol.now))) }
{
    put_optional_index(out, b"parent", symbol.parent)?;
    put_index(out, b"end", symbol.end.0)?;
    put_number(out, b"len", symbol.len)?;
    put_place_field(out, b"offset", symbol.offset)?;
    put_behind_blank(out, symbol.name.as_bytes())
}

/// The fields of where a table of virtual functions is.
pub fn put_virtual_table_path(
    out: &mut Vec<u8>,
    symbol: &VirtualTablePath,
) -> Result<(), AllocError>
    ensures { OnOk result (out.new.items ≡ out.old.items ++ says_text None (shown_record (further.VirtualTablePath symbol.now))) }
{
    put_index(out, b"root", symbol.root.0)?;
    put_index(out, b"path", symbol.path.0)?;
    put_place_field(out, b"offset", symbol.offset)
}

/// The fields and the name of a variable in a slot.
pub fn put_slot(out: &mut Vec<u8>, symbol: &Slot<'_>) -> Result<(), AllocError>
    ensures { OnOk result (out.new.items ≡ out.old.items ++ says_text None (shown_record (further.Slot symbol.now))) }
{
    put_number(out, b"slot", symbol.slot)?;
    put_type(out, symbol.type_index)?;
    put_behind_blank(out, symbol.name.as_bytes())
}

//! The fields of records of managed code.

ghost use Rattle.std.specs.Prelude.{◌≡◌, ◌++◌, None, OnOk};
ghost use Rattle.pdb_records.specs.RecordViews.{shown_record};
ghost use Rattle.pdb_records.specs.declared.record.Record.TheVariants as further;
ghost use Rattle.tool_records.specs.RecordTexts.{managed_fields, says_text};

use crate::record_fields::put_attributes;
use pdb_records::{
    Machine, ManagedFrameRelative, ManagedProcedure, ManagedRegister, ManagedRegisterRelative,
    ManagedSlot, TokenReference,
};
use std::alloc::AllocError;
use tool_fields::fields::{
    put_body, put_index, put_named_register, put_number, put_offset, put_place_field,
    put_reference, put_register, put_scope, put_type,
};
use tool_fields::flags::put_procedure_flags;
use tool_fields::values::put_behind_blank;

/// A managed procedure's token, where it is, its flags, and the register of what it returns.
#[tactic(auto, unfolding(crate::specs::RecordTexts::managed_fields))]
fn put_managed(
    out: &mut Vec<u8>,
    machine: Option<Machine>,
    symbol: &ManagedProcedure<'_>,
) -> Result<(), AllocError>
    ensures { OnOk result (out.new.items ≡ out.old.items ++ managed_fields machine symbol.now.token symbol.now.offset symbol.now.flags symbol.now.return_register) }
{
    put_index(out, b"token", symbol.token)?;
    put_place_field(out, b"offset", symbol.offset)?;
    put_procedure_flags(out, symbol.flags)?;
    put_named_register(out, b"return_register", machine, symbol.return_register)
}

/// The fields and the name of a managed procedure.
pub fn put_managed_procedure(
    out: &mut Vec<u8>,
    machine: Option<Machine>,
    symbol: &ManagedProcedure<'_>,
) -> Result<(), AllocError>
    ensures { OnOk result (out.new.items ≡ out.old.items ++ says_text machine (shown_record (further.ManagedProcedure symbol.now))) }
{
    put_scope(out, symbol.parent, symbol.end, symbol.next)?;
    put_body(
        out,
        symbol.len,
        symbol.dbg_start_offset,
        symbol.dbg_end_offset,
    )?;
    put_managed(out, machine, symbol)?;
    put_behind_blank(out, symbol.name.as_bytes())
}

/// The fields of a reference to a managed procedure, and the digits of its token.
pub fn put_token_reference(out: &mut Vec<u8>, symbol: &TokenReference<'_>) -> Result<(), AllocError>
    ensures { OnOk result (out.new.items ≡ out.old.items ++ says_text None (shown_record (further.TokenReference symbol.now))) }
{
    put_reference(out, symbol.sum_name, symbol.symbol_index, symbol.module)?;
    put_behind_blank(out, symbol.name.as_bytes())
}

/// The fields and the name of a managed variable in a slot.
pub fn put_managed_slot(out: &mut Vec<u8>, symbol: &ManagedSlot<'_>) -> Result<(), AllocError>
    ensures { OnOk result (out.new.items ≡ out.old.items ++ says_text None (shown_record (further.ManagedSlot symbol.now))) }
{
    put_number(out, b"slot", symbol.slot)?;
    put_type(out, symbol.type_index)?;
    put_attributes(out, symbol.attributes)?;
    put_behind_blank(out, symbol.name.as_bytes())
}

/// The fields and the name of a managed variable at an offset in the frame.
pub fn put_managed_frame_relative(
    out: &mut Vec<u8>,
    symbol: &ManagedFrameRelative<'_>,
) -> Result<(), AllocError>
    ensures { OnOk result (out.new.items ≡ out.old.items ++ says_text None (shown_record (further.ManagedFrameRelative symbol.now))) }
{
    put_offset(out, symbol.offset)?;
    put_type(out, symbol.type_index)?;
    put_attributes(out, symbol.attributes)?;
    put_behind_blank(out, symbol.name.as_bytes())
}

/// The fields and the name of a managed variable in a register.
pub fn put_managed_register(
    out: &mut Vec<u8>,
    machine: Option<Machine>,
    symbol: &ManagedRegister<'_>,
) -> Result<(), AllocError>
    ensures { OnOk result (out.new.items ≡ out.old.items ++ says_text machine (shown_record (further.ManagedRegister symbol.now))) }
{
    put_type(out, symbol.type_index)?;
    put_attributes(out, symbol.attributes)?;
    put_register(out, machine, symbol.register)?;
    put_behind_blank(out, symbol.name.as_bytes())
}

/// The fields and the name of a managed variable at an offset from the value of a register.
pub fn put_managed_register_relative(
    out: &mut Vec<u8>,
    machine: Option<Machine>,
    symbol: &ManagedRegisterRelative<'_>,
) -> Result<(), AllocError>
    ensures { OnOk result (out.new.items ≡ out.old.items ++ says_text machine (shown_record (further.ManagedRegisterRelative symbol.now))) }
{
    put_offset(out, symbol.offset)?;
    put_type(out, symbol.type_index)?;
    put_register(out, machine, symbol.register)?;
    put_attributes(out, symbol.attributes)?;
    put_behind_blank(out, symbol.name.as_bytes())
}

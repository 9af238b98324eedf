//! The fields of data and types.

ghost use Rattle.std.specs.Prelude.{◌≡◌, ◌++◌, None, [], codes, OnOk};
ghost use Rattle.pdb.specs.Data.{shown};
ghost use Rattle.pdb.specs.Views.{symbol_of};
ghost use Rattle.pdb_symbols.specs.declared.data.SymbolData.TheVariants as says;
ghost use Rattle.tool_fields.specs.FieldTexts.{fields_text};

use crate::fields::{put_bool, put_label, put_offset, put_place_field, put_register, put_type};
use crate::flags::put_local_flags;
use crate::module_machine::word_at_six;
use crate::values_forms::{put_registers, put_variant};
use pdb::{
    ConstantSymbol, DataSymbol, LocalSymbol, MultiRegisterVariableSymbol, PublicSymbol,
    RegisterRelativeSymbol, RegisterVariableSymbol, Symbol, ThreadStorageSymbol,
};
use pdb_records::Machine;
use std::alloc::AllocError;

/// The fields of a public symbol.
pub fn put_public(out: &mut Vec<u8>, symbol: &PublicSymbol<'_>) -> Result<(), AllocError>
    ensures { OnOk result (out.new.items ≡ out.old.items ++ fields_text None [] (shown (says.Public symbol.now))) }
{
    put_bool(out, b"code", symbol.code)?;
    put_bool(out, b"function", symbol.function)?;
    put_bool(out, b"managed", symbol.managed)?;
    put_bool(out, b"msil", symbol.msil)?;
    put_place_field(out, b"offset", symbol.offset)
}

/// The fields of a constant.
#[tactic(auto, unfolding(crate::specs::FieldTexts::field))]
pub fn put_constant(out: &mut Vec<u8>, symbol: &ConstantSymbol<'_>) -> Result<(), AllocError>
    ensures { OnOk result (out.new.items ≡ out.old.items ++ fields_text None [] (shown (says.Constant symbol.now))) }
{
    put_type(out, symbol.type_index)?;
    put_label(out, b"value")?;
    put_variant(out, symbol.value)?;
    put_bool(out, b"managed", symbol.managed)
}

/// The fields of data.
pub fn put_data(out: &mut Vec<u8>, symbol: &DataSymbol<'_>) -> Result<(), AllocError>
    ensures { OnOk result (out.new.items ≡ out.old.items ++ fields_text None [] (shown (says.Data symbol.now))) }
{
    put_type(out, symbol.type_index)?;
    put_place_field(out, b"offset", symbol.offset)?;
    put_bool(out, b"global", symbol.global)?;
    put_bool(out, b"managed", symbol.managed)
}

/// The fields of a variable of each thread.
pub fn put_thread_storage(
    out: &mut Vec<u8>,
    symbol: &ThreadStorageSymbol<'_>,
) -> Result<(), AllocError>
    ensures { OnOk result (out.new.items ≡ out.old.items ++ fields_text None [] (shown (says.ThreadStorage symbol.now))) }
{
    put_type(out, symbol.type_index)?;
    put_place_field(out, b"offset", symbol.offset)?;
    put_bool(out, b"global", symbol.global)
}

/// The fields of a variable in a register.
pub fn put_register_variable(
    out: &mut Vec<u8>,
    machine: Option<Machine>,
    symbol: &RegisterVariableSymbol<'_>,
) -> Result<(), AllocError>
    ensures { OnOk result (out.new.items ≡ out.old.items ++ fields_text machine [] (shown (says.RegisterVariable symbol.now))) }
{
    put_type(out, symbol.type_index)?;
    put_register(out, machine, symbol.register)
}

/// The fields of a variable in several registers.
#[tactic(auto, unfolding(crate::specs::FieldTexts::field))]
pub fn put_multi_register_variable(
    out: &mut Vec<u8>,
    machine: Option<Machine>,
    symbol: &MultiRegisterVariableSymbol<'_>,
) -> Result<(), AllocError>
    ensures { OnOk result (out.new.items ≡ out.old.items ++ fields_text machine [] (shown (says.MultiRegisterVariable symbol.now))) }
{
    put_type(out, symbol.type_index)?;
    put_label(out, b"registers")?;
    put_registers(out, machine, symbol.registers.as_slice())
}

/// The fields of a variable at an offset from a register.
pub fn put_register_relative(
    out: &mut Vec<u8>,
    machine: Option<Machine>,
    symbol: &RegisterRelativeSymbol<'_>,
) -> Result<(), AllocError>
    ensures { OnOk result (out.new.items ≡ out.old.items ++ fields_text machine [] (shown (says.RegisterRelative symbol.now))) }
{
    put_offset(out, symbol.offset)?;
    put_type(out, symbol.type_index)?;
    put_register(out, machine, symbol.register)
}

/// The fields of a local variable, of which this is the record.
pub fn put_local(
    out: &mut Vec<u8>,
    source: &Symbol<'_>,
    symbol: &LocalSymbol<'_>,
) -> Result<(), AllocError>
    ensures { OnOk result (out.new.items ≡ out.old.items ++ fields_text None (symbol_of source.now).bytes (shown (says.Local symbol.now))) }
{
    put_type(out, symbol.type_index)?;
    put_local_flags(out, symbol.flags, word_at_six(source.raw_bytes()))
}

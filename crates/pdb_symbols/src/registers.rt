//! Variables in several registers: the struct, and how it is read. These records alone take memory.

ghost use Rattle.std.specs.Prelude.{◌≡◌};
ghost use Rattle.pdb_symbols.specs.Data.{shown, shown_register, shown_registers};
ghost use Rattle.pdb_symbols.specs.Groups.{named_register, register_count};
ghost use Rattle.pdb_base.specs.Layouts.{ReadsPart, list_at};
ghost use Rattle.pdb_symbols.specs.FormTable.{read_of};
ghost use Rattle.pdb_symbols.specs.Memory.{Parses};
ghost use Rattle.pdb_symbols.specs.declared.form.Form.TheVariants as form;

use crate::data::SymbolData;
use crate::fields::parse_name;
use pdb_base::{ParseBuffer, RawString, Register, Result, TypeIndex};
use std::alloc::Global;

/// A variable in several registers: `MANYREGSYM` and `MANYREGSYM2` of `cvinfo.h`, in records `S_MANYREG` (0x110a),
/// `S_MANYREG_ST` (0x1005), `S_MANYREG2` (0x1117) and `S_MANYREG2_ST` (0x1014).
#[derive(Debug, Drop, Eq, PartialEq)]
pub struct MultiRegisterVariableSymbol<'t> {
    /// The variable's type.
    pub type_index: TypeIndex,
    /// The registers, each with a name, the most significant one first.
    pub registers: Vec<(Register, RawString<'t>)>,
}

impl<'t> MultiRegisterVariableSymbol<'t> {
    ghost use Rattle.std.specs.Prelude.{IfOk, IfErr};
    ghost use Rattle.pdb_base.specs.declared.error.Error.{Error};

    /// The same value, with memory of its own. Without that memory it is `OutOfMemory`.
    pub fn try_clone(&self, alloc: Global) -> Result<Self>
        ensures type_index { IfOk result (λ s. s.type_index ≡ self.now.type_index) }
        ensures registers { IfOk result (λ s. s.registers.items ≡ self.now.registers.items) }
        ensures memory { IfErr result (λ e. e ≡ Error.OutOfMemory) }
    {
        let mut registers = Vec::new(alloc);
        registers.extend_from_slice(&self.registers)?;
        Ok(MultiRegisterVariableSymbol {
            type_index: self.type_index,
            registers,
        })
    }
}

// A register, and its name.
#[inline]
fn parse_register<'t>(kind: u16, buffer: &mut ParseBuffer<'t>) -> Result<(Register, RawString<'t>)>
    ensures { ReadsPart shown_register named_register kind buffer.old buffer.new result }
{
    let register = Register(buffer.parse_u16()?);
    let name = parse_name(kind, buffer)?;
    Ok((register, name))
}

// How many registers there are.
#[inline]
fn parse_count(kind: u16, buffer: &mut ParseBuffer<'_>) -> Result<u16>
    ensures { ReadsPart (λ n. n) register_count kind buffer.old buffer.new result }
{
    if matches!(kind, 0x1117 | 0x1014) {
        buffer.parse_u16()
    } else {
        Ok(u16::from(buffer.parse_u8()?))
    }
}

// That many registers. The list grows by a register whose bytes were there.
fn parse_registers<'t>(
    alloc: Global,
    kind: u16,
    count: u16,
    buffer: &mut ParseBuffer<'t>,
) -> Result<Vec<(Register, RawString<'t>)>>
    ensures { Parses (Unit {0}) (λ v. shown_registers v.items) result (list_at named_register count kind buffer.old.bytes buffer.old.place) }
{
    let mut registers = Vec::new(alloc);
    for _ in 0..count {
        let register = parse_register(kind, buffer)?;
        registers.push(register)?;
    }
    Ok(registers)
}

#[tactic(auto, unfolding(crate::specs::FormTable::read_of))]
pub(crate) fn parse_multi_register_variable<'t>(
    alloc: Global,
    kind: u16,
    buffer: &mut ParseBuffer<'t>,
) -> Result<SymbolData<'t>>
    requires { buffer.old.place ≡ 2 }
    ensures { Parses (Unit {0}) shown result (read_of form.MultiRegisterVariable kind buffer.old.bytes) }
{
    let type_index = TypeIndex(buffer.parse_u32()?);
    let count = parse_count(kind, buffer)?;
    let registers = parse_registers(alloc, kind, count, buffer)?;
    Ok(SymbolData::MultiRegisterVariable(MultiRegisterVariableSymbol {
        type_index,
        registers,
    }))
}

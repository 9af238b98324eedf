//! Which machine the code of a module is for.

ghost use Rattle.std.specs.Prelude.{◌≡◌, ◌≢◌, None, Ok, IfOk, slice_index};
ghost use Rattle.pdb.specs.Data.{shown};
ghost use Rattle.pdb.specs.Error.{Error};
ghost use Rattle.pdb.specs.Fields.{number};
ghost use Rattle.pdb.specs.Forms.{record_at};
ghost use Rattle.pdb.specs.Views.{symbol_of, symbols_left};
ghost use Rattle.tool_fields.specs.ModuleMachines.{machine_named, module_machine};

use pdb::{Error, FallibleIterator, Symbol, SymbolData, SymbolIter};
use pdb_records::Machine;
use std::alloc::{AllocError, Global};

/// A byte; 0 behind the last one.
fn byte_at(bytes: &[u8], at: usize) -> u8
    ensures { result ≡ slice_index bytes.now at }
{
    if at < bytes.len() { bytes[at] } else { 0 }
}

/// The number of one byte at offset 2: a language's in a record of how a module was compiled.
#[tactic(auto, unfolding(pdb_base::specs::Fields::number))]
pub fn byte_at_two(bytes: &[u8]) -> u8
    ensures { result ≡ number bytes.now 2 1 }
{
    byte_at(bytes, 2)
}

/// The number of two bytes at offset 6: a processor's in a record of how a module was compiled.
#[tactic(auto, unfolding(pdb_base::specs::Fields::number))]
pub fn word_at_six(bytes: &[u8]) -> u16
    ensures { result ≡ number bytes.now 6 2 }
{
    u16::from_le_bytes([byte_at(bytes, 6), byte_at(bytes, 7)])
}

/// The machine that a symbol names whose record was parsed.
fn machine_of_parsed(symbol: &Symbol<'_>, parsed: &SymbolData<'_>) -> Option<Machine>
    ensures { result ≡ machine_named (symbol_of symbol.now).bytes (Ok (shown parsed.now)) }
{
    match parsed {
        SymbolData::CompileFlags(_) => Machine::of_processor(word_at_six(symbol.raw_bytes())),
        _ => None,
    }
}

/// No machine for an error; out of memory is passed on.
fn no_machine(e: Error) -> Result<Option<Machine>, AllocError>
    ensures { IfOk result (λ m. (m ≡ None) × (e ≢ Error.OutOfMemory)) }
{
    match e {
        Error::OutOfMemory => Err(AllocError),
        _ => Ok(None),
    }
}

/// The machine that a symbol names, if its record is of how a module was compiled.
fn machine_of_symbol(alloc: Global, symbol: &Symbol<'_>) -> Result<Option<Machine>, AllocError>
    ensures { IfOk result (λ m. m ≡ machine_named (symbol_of symbol.now).bytes (record_at (symbol_of symbol.now).bytes)) }
{
    match symbol.parse(alloc) {
        Ok(parsed) => Ok(machine_of_parsed(symbol, &parsed)),
        Err(e) => no_machine(e),
    }
}

/// The machine of a module: the first one that its symbols name, or else the header's.
pub fn machine_of_module(
    alloc: Global,
    header: Option<Machine>,
    mut symbols: SymbolIter<'_>,
) -> Result<Option<Machine>, AllocError>
    ensures { IfOk result (λ m. m ≡ module_machine header (symbols_left symbols.entry).items) }
{
    loop {
        match symbols.next() {
            Ok(Some(symbol)) => {
                let machine = machine_of_symbol(alloc, &symbol)?;
                if machine.is_some() {
                    return Ok(machine);
                }
            }
            Ok(None) => return Ok(header),
            Err(_) => return Ok(header),
        }
    }
}

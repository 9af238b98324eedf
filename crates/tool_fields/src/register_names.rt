//! Registers by their names on a machine.

ghost use Rattle.std.specs.Prelude.{◌≡◌, ◌++◌, OnOk};
ghost use Rattle.std.specs.Option.{option_map};
ghost use Rattle.tool_fields.specs.RecordValues.{base_text, frame_register_on, register_or};
ghost use Rattle.tool_fields.specs.ValueTexts.{register_name_on, register_on};

use pdb::Register;
use pdb_records::Machine;
use pdb_text::{put_decimal, put_hex4};
use std::alloc::AllocError;

/// The name of a register on a machine.
fn register_name(machine: Option<Machine>, register: Register) -> Option<&'static str>
    ensures { option_map (λ s. s.now) result ≡ register_name_on machine register.0 }
{
    match machine {
        Some(machine) => machine.register_name(register),
        None => None,
    }
}

/// A register's name on a machine; its number in four hex digits where it has none, or no machine is known.
pub fn put_register_name(
    out: &mut Vec<u8>,
    machine: Option<Machine>,
    register: Register,
) -> Result<(), AllocError>
    ensures { OnOk result (out.new.items ≡ out.old.items ++ register_on machine register) }
{
    match register_name(machine, register) {
        Some(name) => out.extend_from_slice(name.as_bytes()),
        None => put_hex4(out, register.0),
    }
}

/// The register behind an encoded register of a frame.
pub fn frame_register(machine: Option<Machine>, encoded: u8) -> Option<Register>
    ensures { result ≡ frame_register_on machine encoded }
{
    match machine {
        Some(machine) => machine.frame_register(encoded),
        None => None,
    }
}

/// A register's name, or the encoded number where there is no register.
fn put_register_or(
    out: &mut Vec<u8>,
    machine: Option<Machine>,
    encoded: u8,
    register: Option<Register>,
) -> Result<(), AllocError>
    ensures { OnOk result (out.new.items ≡ out.old.items ++ register_or machine encoded register) }
{
    match register {
        Some(register) => put_register_name(out, machine, register),
        None => put_decimal(out, u64::from(encoded)),
    }
}

/// An encoded register of a frame, or `-` for 0.
pub fn put_base(out: &mut Vec<u8>, machine: Option<Machine>, encoded: u8) -> Result<(), AllocError>
    ensures { OnOk result (out.new.items ≡ out.old.items ++ base_text machine encoded) }
{
    if encoded == 0 {
        return out.extend_from_slice(b"-");
    }
    put_register_or(out, machine, encoded, frame_register(machine, encoded))
}

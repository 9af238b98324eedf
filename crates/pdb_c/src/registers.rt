//! Registers by the number of a machine in the PE format.

ghost use Rattle.std.specs.Prelude.{◌≡◌, []};
ghost use Rattle.std.specs.Option.{option_map, unwrap_or};
ghost use Rattle.pdb_records.specs.Machines.{machine_of_image};
ghost use Rattle.pdb_c.specs.RegisterNumbers.{frame_register_on, name_on, number_or_zero};

use crate::names::PdbName;
use pdb::Register;
use pdb_records::Machine;

fn name_on(machine: Option<Machine>, number: u16) -> Option<&'static str>
    ensures { option_map (λ s. s.now) result ≡ name_on machine number }
{
    machine?.register_name(Register(number))
}

/// The name of a register of a machine, by its number in records; empty where it has none, or where the machine's
/// registers aren't known.
#[unsafe(no_mangle)]
pub extern "C" fn pdb_register_name<'a>(machine: u16, number: u16, out: &mut PdbName<'a>)
    ensures { out.new.bytes.now ≡ unwrap_or (name_on (machine_of_image machine) number) [] }
{
    let name = name_on(Machine::of_image(machine), number).unwrap_or("");
    *out = PdbName {
        bytes: name.as_bytes(),
    };
}

fn number_or_zero(register: Option<Register>) -> u32
    ensures { result ≡ number_or_zero register }
{
    match register {
        Some(register) => u32::from(register.0),
        None => 0,
    }
}

/// The number of the register from which a frame counts, by the machine and by its number in the record of the frame: 1
/// to 3. It is 0 where there is none.
#[unsafe(no_mangle)]
pub extern "C" fn pdb_frame_register(machine: u16, base: u8) -> u32
    ensures { result ≡ frame_register_on (machine_of_image machine) base }
{
    match Machine::of_image(machine) {
        Some(machine) => number_or_zero(machine.frame_register(base)),
        None => 0,
    }
}

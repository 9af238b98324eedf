//! Machines, their registers, and the registers that frames count from.

ghost use Rattle.std.specs.Prelude.{◌≡◌};
ghost use Rattle.std.specs.Option.{option_map};
ghost use Rattle.pdb_records.specs.Machines.{frame_register_of, machine_of_image, machine_of_processor, own_name, register_name_of};

use crate::registers_arm::arm_register;
use crate::registers_arm64::arm64_register;
use crate::registers_common::common_register;
use crate::registers_mips::mips_register;
use crate::registers_x64::x64_register;
use crate::registers_x86::x86_register;
use pdb_base::Register;

/// A machine whose registers have names.
#[derive(Clone, Copy, Debug, Eq, PartialEq)]
pub enum Machine {
    /// x86 of 32 bits.
    X86,
    /// x86-64.
    X64,
    /// ARM of 32 bits.
    Arm,
    /// ARM of 64 bits.
    Arm64,
    /// MIPS.
    Mips,
}

impl Machine {
    /// The machine of a processor, by its number in a record of how a module was compiled: `CV_CPU_TYPE_e` of
    /// `cvconst.h`. None for a number whose machine has no table of registers.
    pub fn of_processor(number: u16) -> Option<Self>
        ensures { result ≡ machine_of_processor number }
    {
        match number {
            0x0..0x8 => Some(Machine::X86),
            0x10..0x19 => Some(Machine::Mips),
            0x60..0x69 | 0xf0 | 0xf4 => Some(Machine::Arm),
            0xd0 => Some(Machine::X64),
            0xf6 | 0xf8 | 0xf9 => Some(Machine::Arm64),
            _ => None,
        }
    }

    /// The machine of an image, by its number in the header of the DBI stream: `IMAGE_FILE_MACHINE_..` of the PE
    /// format. None for a number whose machine has no table of registers.
    pub fn of_image(number: u16) -> Option<Self>
        ensures { result ≡ machine_of_image number }
    {
        match number {
            0x14c => Some(Machine::X86),
            0x8664 => Some(Machine::X64),
            0x1c0 | 0x1c2 | 0x1c4 => Some(Machine::Arm),
            0xaa64 | 0xa641 | 0xa64e => Some(Machine::Arm64),
            _ => None,
        }
    }

    /// The name of a register: `CV_HREG_e` of `cvconst.h`, in lower case and without the machine's prefix. Numbers
    /// from 30000 on are the same on all machines. None for a number without a name.
    pub fn register_name(self, register: Register) -> Option<&'static str>
        ensures { option_map (λ s. s.now) result ≡ register_name_of self register.0 }
    {
        if register.0 < 30000 {
            self.own_register(register.0)
        } else {
            common_register(register.0)
        }
    }

    // The name of a register of this machine alone.
    fn own_register(self, number: u16) -> Option<&'static str>
        ensures { option_map (λ s. s.now) result ≡ own_name self number }
    {
        match self {
            Machine::X86 => x86_register(number),
            Machine::X64 => x64_register(number),
            Machine::Arm => arm_register(number),
            Machine::Arm64 => arm64_register(number),
            Machine::Mips => mips_register(number),
        }
    }

    /// The register that an encoded register of a frame is, 0 to 3: `local_base` and `parameter_base` of a
    /// `FrameProcedure`. None where the frame has no such register.
    pub fn frame_register(self, encoded: u8) -> Option<Register>
        ensures { result ≡ frame_register_of self encoded }
    {
        match (self, encoded) {
            (Machine::X86, 1) => Some(Register(30006)),
            (Machine::X86, 2) => Some(Register(22)),
            (Machine::X86, 3) => Some(Register(20)),
            (Machine::X64, 1) => Some(Register(335)),
            (Machine::X64, 2) => Some(Register(334)),
            (Machine::X64, 3) => Some(Register(341)),
            (Machine::Arm, 1) => Some(Register(23)),
            (Machine::Arm, 2) => Some(Register(17)),
            (Machine::Arm64, 1) => Some(Register(81)),
            (Machine::Arm64, 2) => Some(Register(79)),
            _ => None,
        }
    }
}

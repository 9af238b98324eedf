//! The machine that an image was made for.

ghost use Rattle.std.specs.Prelude.{◌≡◌, Some};
ghost use Rattle.pdb_dbi.specs.Machine.{machine_of, machine_number, machine_text};

use std::fmt;

/// The machine that an image was made for, as in the PE format's file header (but `Am33`, which has another number
/// there).
#[derive(Clone, Copy, Debug, PartialEq, Eq)]
pub enum MachineType {
    /// Not known.
    Unknown = 0x0,
    /// Matsushita AM33.
    Am33 = 0x13,
    /// x86-64.
    Amd64 = 0x8664,
    /// ARM, little-endian.
    Arm = 0x1c0,
    /// ARM64, little-endian.
    Arm64 = 0xaa64,
    /// ARM Thumb-2, little-endian.
    ArmNT = 0x1c4,
    /// EFI byte code.
    Ebc = 0xebc,
    /// Intel 386 and later.
    X86 = 0x14c,
    /// Intel Itanium.
    Ia64 = 0x200,
    /// Mitsubishi M32R, little-endian.
    M32R = 0x9041,
    /// MIPS16.
    Mips16 = 0x266,
    /// MIPS with a floating-point unit.
    MipsFpu = 0x366,
    /// MIPS16 with a floating-point unit.
    MipsFpu16 = 0x466,
    /// PowerPC, little-endian.
    PowerPC = 0x1f0,
    /// PowerPC with floating point.
    PowerPCFP = 0x1f1,
    /// MIPS R4000, little-endian.
    R4000 = 0x166,
    /// RISC-V with 32-bit addresses.
    RiscV32 = 0x5032,
    /// RISC-V with 64-bit addresses.
    RiscV64 = 0x5064,
    /// RISC-V with 128-bit addresses.
    RiscV128 = 0x5128,
    /// Hitachi SH3.
    SH3 = 0x1a2,
    /// Hitachi SH3 DSP.
    SH3DSP = 0x1a3,
    /// Hitachi SH4.
    SH4 = 0x1a6,
    /// Hitachi SH5.
    SH5 = 0x1a8,
    /// ARM Thumb.
    Thumb = 0x1c2,
    /// MIPS WCE v2, little-endian.
    WceMipsV2 = 0x169,
    /// The number that stands for no machine.
    Invalid = 0xffff,
}

impl From<u16> for MachineType {
    ghost from_gives = { λ n machine. machine ≡ machine_of n };

    /// The machine of a number; any other number is `Unknown`.
    #[tactic(auto, unfolding(crate::specs::Machine::machine_of))]
    fn from(number: u16) -> Self {
        match number {
            0x13 => MachineType::Am33,
            0x8664 => MachineType::Amd64,
            0x1c0 => MachineType::Arm,
            0xaa64 => MachineType::Arm64,
            0x1c4 => MachineType::ArmNT,
            0xebc => MachineType::Ebc,
            0x14c => MachineType::X86,
            0x200 => MachineType::Ia64,
            0x9041 => MachineType::M32R,
            0x266 => MachineType::Mips16,
            0x366 => MachineType::MipsFpu,
            0x466 => MachineType::MipsFpu16,
            0x1f0 => MachineType::PowerPC,
            0x1f1 => MachineType::PowerPCFP,
            0x166 => MachineType::R4000,
            0x5032 => MachineType::RiscV32,
            0x5064 => MachineType::RiscV64,
            0x5128 => MachineType::RiscV128,
            0x1a2 => MachineType::SH3,
            0x1a3 => MachineType::SH3DSP,
            0x1a6 => MachineType::SH4,
            0x1a8 => MachineType::SH5,
            0x1c2 => MachineType::Thumb,
            0x169 => MachineType::WceMipsV2,
            0xffff => MachineType::Invalid,
            _ => MachineType::Unknown,
        }
    }
}

impl MachineType {
    /// The machine's number.
    pub(crate) fn number(self) -> u16
        ensures { result ≡ machine_number self }
    {
        self as u16
    }

    /// The machine's name, which is the variant's.
    fn name(self) -> &'static str
        ensures { result.now ≡ machine_text self }
    {
        match self {
            MachineType::Unknown => "Unknown",
            MachineType::Am33 => "Am33",
            MachineType::Amd64 => "Amd64",
            MachineType::Arm => "Arm",
            MachineType::Arm64 => "Arm64",
            MachineType::ArmNT => "ArmNT",
            MachineType::Ebc => "Ebc",
            MachineType::X86 => "X86",
            MachineType::Ia64 => "Ia64",
            MachineType::M32R => "M32R",
            MachineType::Mips16 => "Mips16",
            MachineType::MipsFpu => "MipsFpu",
            MachineType::MipsFpu16 => "MipsFpu16",
            MachineType::PowerPC => "PowerPC",
            MachineType::PowerPCFP => "PowerPCFP",
            MachineType::R4000 => "R4000",
            MachineType::RiscV32 => "RiscV32",
            MachineType::RiscV64 => "RiscV64",
            MachineType::RiscV128 => "RiscV128",
            MachineType::SH3 => "SH3",
            MachineType::SH3DSP => "SH3DSP",
            MachineType::SH4 => "SH4",
            MachineType::SH5 => "SH5",
            MachineType::Thumb => "Thumb",
            MachineType::WceMipsV2 => "WceMipsV2",
            MachineType::Invalid => "Invalid",
        }
    }
}

/// Shows the variant's name.
impl fmt::Display for MachineType {
    ghost output = { λ machine. Some (machine_text machine) };

    fn fmt<W: fmt::Write>(&self, f: &mut fmt::Formatter<W>) -> fmt::Result {
        f.write_str(self.name())
    }
}

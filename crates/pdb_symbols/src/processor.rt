//! Processors.

ghost use Rattle.std.specs.Prelude.{◌≡◌, Some};
ghost use Rattle.pdb_symbols.specs.Processors.{cpu_of, lower_cpu, low_cpu, high_cpu, higher_cpu, cpu_text};

use std::fmt;

/// The processor that a module was compiled for: `CV_CPU_TYPE_e` of `cvinfo.h`. Any other number is `Intel8080`.
#[derive(Clone, Copy, Debug, Eq, PartialEq)]
pub enum CPUType {
    /// Intel 8080, and every number without a processor of its own.
    Intel8080 = 0x0,
    /// Intel 8086.
    Intel8086 = 0x1,
    /// Intel 80286.
    Intel80286 = 0x2,
    /// Intel 80386.
    Intel80386 = 0x3,
    /// Intel 80486.
    Intel80486 = 0x4,
    /// Intel Pentium.
    Pentium = 0x5,
    /// Intel Pentium Pro.
    PentiumPro = 0x6,
    /// Intel Pentium III.
    Pentium3 = 0x7,
    /// MIPS R4000.
    MIPS = 0x10,
    /// MIPS16.
    MIPS16 = 0x11,
    /// MIPS32.
    MIPS32 = 0x12,
    /// MIPS64.
    MIPS64 = 0x13,
    /// MIPS I.
    MIPSI = 0x14,
    /// MIPS II.
    MIPSII = 0x15,
    /// MIPS III.
    MIPSIII = 0x16,
    /// MIPS IV.
    MIPSIV = 0x17,
    /// MIPS V.
    MIPSV = 0x18,
    /// Motorola 68000.
    M68000 = 0x20,
    /// Motorola 68010.
    M68010 = 0x21,
    /// Motorola 68020.
    M68020 = 0x22,
    /// Motorola 68030.
    M68030 = 0x23,
    /// Motorola 68040.
    M68040 = 0x24,
    /// DEC Alpha 21064.
    Alpha = 0x30,
    /// DEC Alpha 21164.
    Alpha21164 = 0x31,
    /// DEC Alpha 21164A.
    Alpha21164A = 0x32,
    /// DEC Alpha 21264.
    Alpha21264 = 0x33,
    /// DEC Alpha 21364.
    Alpha21364 = 0x34,
    /// PowerPC 601.
    PPC601 = 0x40,
    /// PowerPC 603.
    PPC603 = 0x41,
    /// PowerPC 604.
    PPC604 = 0x42,
    /// PowerPC 620.
    PPC620 = 0x43,
    /// PowerPC with floating point.
    PPCFP = 0x44,
    /// PowerPC, big-endian.
    PPCBE = 0x45,
    /// Hitachi SH3.
    SH3 = 0x50,
    /// Hitachi SH3E.
    SH3E = 0x51,
    /// Hitachi SH3 DSP.
    SH3DSP = 0x52,
    /// Hitachi SH4.
    SH4 = 0x53,
    /// SHmedia.
    SHMedia = 0x54,
    /// ARM 3.
    ARM3 = 0x60,
    /// ARM 4.
    ARM4 = 0x61,
    /// ARM 4T.
    ARM4T = 0x62,
    /// ARM 5.
    ARM5 = 0x63,
    /// ARM 5T.
    ARM5T = 0x64,
    /// ARM 6.
    ARM6 = 0x65,
    /// ARM with XMAC.
    ARM_XMAC = 0x66,
    /// ARM with WMMX.
    ARM_WMMX = 0x67,
    /// ARM 7.
    ARM7 = 0x68,
    /// ARM64 (which `cvinfo.h` numbers otherwise).
    ARM64 = 0x69,
    /// Omni.
    Omni = 0x70,
    /// Intel Itanium.
    Ia64 = 0x80,
    /// Intel Itanium 2.
    Ia64_2 = 0x81,
    /// The common execution environment of .NET.
    CEE = 0x90,
    /// Matsushita AM33.
    AM33 = 0xa0,
    /// Mitsubishi M32R.
    M32R = 0xb0,
    /// Infineon TriCore.
    TriCore = 0xc0,
    /// x86-64.
    X64 = 0xd0,
    /// EFI byte code.
    EBC = 0xe0,
    /// ARM Thumb.
    Thumb = 0xf0,
    /// ARM of Windows, Thumb-2.
    ARMNT = 0xf4,
    /// A shader of Direct3D 11.
    D3D11_Shader = 0x100,
}

// The processor of a number in one part of the table.
#[tactic(auto, unfolding(crate::specs::Processors::lower_cpu))]
fn lower_cpu(number: u16) -> CPUType
    ensures { result ≡ lower_cpu number }
{
    match number {
        0x1 => CPUType::Intel8086,
        0x2 => CPUType::Intel80286,
        0x3 => CPUType::Intel80386,
        0x4 => CPUType::Intel80486,
        0x5 => CPUType::Pentium,
        0x6 => CPUType::PentiumPro,
        0x7 => CPUType::Pentium3,
        0x10 => CPUType::MIPS,
        0x11 => CPUType::MIPS16,
        0x12 => CPUType::MIPS32,
        0x13 => CPUType::MIPS64,
        0x14 => CPUType::MIPSI,
        0x15 => CPUType::MIPSII,
        0x16 => CPUType::MIPSIII,
        0x17 => CPUType::MIPSIV,
        0x18 => CPUType::MIPSV,
        _ => CPUType::Intel8080,
    }
}

// The processor of a number in one part of the table.
#[tactic(auto, unfolding(crate::specs::Processors::low_cpu))]
fn low_cpu(number: u16) -> CPUType
    ensures { result ≡ low_cpu number }
{
    match number {
        0x20 => CPUType::M68000,
        0x21 => CPUType::M68010,
        0x22 => CPUType::M68020,
        0x23 => CPUType::M68030,
        0x24 => CPUType::M68040,
        0x30 => CPUType::Alpha,
        0x31 => CPUType::Alpha21164,
        0x32 => CPUType::Alpha21164A,
        0x33 => CPUType::Alpha21264,
        0x34 => CPUType::Alpha21364,
        0x40 => CPUType::PPC601,
        0x41 => CPUType::PPC603,
        0x42 => CPUType::PPC604,
        0x43 => CPUType::PPC620,
        0x44 => CPUType::PPCFP,
        0x45 => CPUType::PPCBE,
        _ => CPUType::Intel8080,
    }
}

// The processor of a number in one part of the table.
#[tactic(auto, unfolding(crate::specs::Processors::high_cpu))]
fn high_cpu(number: u16) -> CPUType
    ensures { result ≡ high_cpu number }
{
    match number {
        0x50 => CPUType::SH3,
        0x51 => CPUType::SH3E,
        0x52 => CPUType::SH3DSP,
        0x53 => CPUType::SH4,
        0x54 => CPUType::SHMedia,
        0x60 => CPUType::ARM3,
        0x61 => CPUType::ARM4,
        0x62 => CPUType::ARM4T,
        0x63 => CPUType::ARM5,
        0x64 => CPUType::ARM5T,
        0x65 => CPUType::ARM6,
        0x66 => CPUType::ARM_XMAC,
        0x67 => CPUType::ARM_WMMX,
        0x68 => CPUType::ARM7,
        0x69 => CPUType::ARM64,
        _ => CPUType::Intel8080,
    }
}

// The processor of a number in one part of the table.
#[tactic(auto, unfolding(crate::specs::Processors::higher_cpu))]
fn higher_cpu(number: u16) -> CPUType
    ensures { result ≡ higher_cpu number }
{
    match number {
        0x70 => CPUType::Omni,
        0x80 => CPUType::Ia64,
        0x81 => CPUType::Ia64_2,
        0x90 => CPUType::CEE,
        0xa0 => CPUType::AM33,
        0xb0 => CPUType::M32R,
        0xc0 => CPUType::TriCore,
        0xd0 => CPUType::X64,
        0xe0 => CPUType::EBC,
        0xf0 => CPUType::Thumb,
        0xf4 => CPUType::ARMNT,
        0x100 => CPUType::D3D11_Shader,
        _ => CPUType::Intel8080,
    }
}

impl From<u16> for CPUType {
    ghost from_gives = { λ n cpu. cpu ≡ cpu_of n };

    /// The processor of a number; any other number is `Intel8080`.
    #[tactic(auto, unfolding(crate::specs::Processors::cpu_of))]
    fn from(number: u16) -> Self {
        match number {
            0..0x20 => lower_cpu(number),
            0x20..0x50 => low_cpu(number),
            0x50..0x70 => high_cpu(number),
            _ => higher_cpu(number),
        }
    }
}

impl CPUType {
    // The processor's name, which is the variant's.
    fn name(self) -> &'static str
        ensures { result.now ≡ cpu_text self }
    {
        match self {
            CPUType::Intel8080 => "Intel8080",
            CPUType::Intel8086 => "Intel8086",
            CPUType::Intel80286 => "Intel80286",
            CPUType::Intel80386 => "Intel80386",
            CPUType::Intel80486 => "Intel80486",
            CPUType::Pentium => "Pentium",
            CPUType::PentiumPro => "PentiumPro",
            CPUType::Pentium3 => "Pentium3",
            CPUType::MIPS => "MIPS",
            CPUType::MIPS16 => "MIPS16",
            CPUType::MIPS32 => "MIPS32",
            CPUType::MIPS64 => "MIPS64",
            CPUType::MIPSI => "MIPSI",
            CPUType::MIPSII => "MIPSII",
            CPUType::MIPSIII => "MIPSIII",
            CPUType::MIPSIV => "MIPSIV",
            CPUType::MIPSV => "MIPSV",
            CPUType::M68000 => "M68000",
            CPUType::M68010 => "M68010",
            CPUType::M68020 => "M68020",
            CPUType::M68030 => "M68030",
            CPUType::M68040 => "M68040",
            CPUType::Alpha => "Alpha",
            CPUType::Alpha21164 => "Alpha21164",
            CPUType::Alpha21164A => "Alpha21164A",
            CPUType::Alpha21264 => "Alpha21264",
            CPUType::Alpha21364 => "Alpha21364",
            CPUType::PPC601 => "PPC601",
            CPUType::PPC603 => "PPC603",
            CPUType::PPC604 => "PPC604",
            CPUType::PPC620 => "PPC620",
            CPUType::PPCFP => "PPCFP",
            CPUType::PPCBE => "PPCBE",
            CPUType::SH3 => "SH3",
            CPUType::SH3E => "SH3E",
            CPUType::SH3DSP => "SH3DSP",
            CPUType::SH4 => "SH4",
            CPUType::SHMedia => "SHMedia",
            CPUType::ARM3 => "ARM3",
            CPUType::ARM4 => "ARM4",
            CPUType::ARM4T => "ARM4T",
            CPUType::ARM5 => "ARM5",
            CPUType::ARM5T => "ARM5T",
            CPUType::ARM6 => "ARM6",
            CPUType::ARM_XMAC => "ARM_XMAC",
            CPUType::ARM_WMMX => "ARM_WMMX",
            CPUType::ARM7 => "ARM7",
            CPUType::ARM64 => "ARM64",
            CPUType::Omni => "Omni",
            CPUType::Ia64 => "Ia64",
            CPUType::Ia64_2 => "Ia64_2",
            CPUType::CEE => "CEE",
            CPUType::AM33 => "AM33",
            CPUType::M32R => "M32R",
            CPUType::TriCore => "TriCore",
            CPUType::X64 => "X64",
            CPUType::EBC => "EBC",
            CPUType::Thumb => "Thumb",
            CPUType::ARMNT => "ARMNT",
            CPUType::D3D11_Shader => "D3D11_Shader",
        }
    }
}

/// Shows the variant's name.
impl fmt::Display for CPUType {
    ghost output = { λ cpu. Some (cpu_text cpu) };

    fn fmt<W: fmt::Write>(&self, f: &mut fmt::Formatter<W>) -> fmt::Result {
        f.write_str(self.name())
    }
}

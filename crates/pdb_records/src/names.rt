//! The names of processors and of languages.

ghost use Rattle.std.specs.Prelude.{◌≡◌};
ghost use Rattle.std.specs.Option.{option_map};
ghost use Rattle.pdb_records.specs.CompilerNames.{high_processor_rows, language_rows, low_processor_rows, processor_name_of};
ghost use Rattle.pdb_records.specs.NameRows.{name_in};

// Numbers below 0x50.
fn low_processor(number: u16) -> Option<&'static str>
    ensures { option_map (λ s. s.now) result ≡ name_in low_processor_rows number }
{
    match number {
        0x0 => Some("Intel8080"),
        0x1 => Some("Intel8086"),
        0x2 => Some("Intel80286"),
        0x3 => Some("Intel80386"),
        0x4 => Some("Intel80486"),
        0x5 => Some("Pentium"),
        0x6 => Some("PentiumPro"),
        0x7 => Some("Pentium3"),
        0x10 => Some("MIPS"),
        0x11 => Some("MIPS16"),
        0x12 => Some("MIPS32"),
        0x13 => Some("MIPS64"),
        0x14 => Some("MIPSI"),
        0x15 => Some("MIPSII"),
        0x16 => Some("MIPSIII"),
        0x17 => Some("MIPSIV"),
        0x18 => Some("MIPSV"),
        0x20 => Some("M68000"),
        0x21 => Some("M68010"),
        0x22 => Some("M68020"),
        0x23 => Some("M68030"),
        0x24 => Some("M68040"),
        0x30 => Some("Alpha"),
        0x31 => Some("Alpha21164"),
        0x32 => Some("Alpha21164A"),
        0x33 => Some("Alpha21264"),
        0x34 => Some("Alpha21364"),
        0x40 => Some("PPC601"),
        0x41 => Some("PPC603"),
        0x42 => Some("PPC604"),
        0x43 => Some("PPC620"),
        0x44 => Some("PPCFP"),
        0x45 => Some("PPCBE"),
        _ => None,
    }
}

// The others.
fn high_processor(number: u16) -> Option<&'static str>
    ensures { option_map (λ s. s.now) result ≡ name_in high_processor_rows number }
{
    match number {
        0x50 => Some("SH3"),
        0x51 => Some("SH3E"),
        0x52 => Some("SH3DSP"),
        0x53 => Some("SH4"),
        0x54 => Some("SHMedia"),
        0x60 => Some("ARM3"),
        0x61 => Some("ARM4"),
        0x62 => Some("ARM4T"),
        0x63 => Some("ARM5"),
        0x64 => Some("ARM5T"),
        0x65 => Some("ARM6"),
        0x66 => Some("ARM_XMAC"),
        0x67 => Some("ARM_WMMX"),
        0x68 => Some("ARM7"),
        0x70 => Some("Omni"),
        0x80 => Some("Ia64"),
        0x81 => Some("Ia64_2"),
        0x90 => Some("CEE"),
        0xa0 => Some("AM33"),
        0xb0 => Some("M32R"),
        0xc0 => Some("TriCore"),
        0xd0 => Some("X64"),
        0xe0 => Some("EBC"),
        0xf0 => Some("Thumb"),
        0xf4 => Some("ARMNT"),
        0xf6 => Some("ARM64"),
        0xf7 => Some("HybridX86ARM64"),
        0xf8 => Some("ARM64EC"),
        0xf9 => Some("ARM64X"),
        0xff => Some("Unknown"),
        0x100 => Some("D3D11_Shader"),
        _ => None,
    }
}

/// The name of a processor, by its number in a record of how a module was compiled: `CV_CPU_TYPE_e` of `cvconst.h`.
/// None for a number without a name. `pdb_symbols::CPUType` has another name for 0x69 and for some numbers from 0xf6
/// on.
pub fn processor_name(number: u16) -> Option<&'static str>
    ensures { option_map (λ s. s.now) result ≡ processor_name_of number }
{
    if number < 0x50 {
        low_processor(number)
    } else {
        high_processor(number)
    }
}

/// The name of a language, by its number in a record of how a module was compiled: `CV_CFL_LANG` of `cvconst.h`. None
/// for a number without a name. 0x44 and 0x53 are those that old versions of LLVM wrote for D and for Swift.
pub fn language_name(number: u8) -> Option<&'static str>
    ensures { option_map (λ s. s.now) result ≡ name_in language_rows number }
{
    match number {
        0x0 => Some("C"),
        0x1 => Some("Cpp"),
        0x2 => Some("Fortran"),
        0x3 => Some("Masm"),
        0x4 => Some("Pascal"),
        0x5 => Some("Basic"),
        0x6 => Some("Cobol"),
        0x7 => Some("Link"),
        0x8 => Some("Cvtres"),
        0x9 => Some("Cvtpgd"),
        0xa => Some("CSharp"),
        0xb => Some("VB"),
        0xc => Some("ILAsm"),
        0xd => Some("Java"),
        0xe => Some("JScript"),
        0xf => Some("MSIL"),
        0x10 => Some("HLSL"),
        0x11 => Some("ObjC"),
        0x12 => Some("ObjCpp"),
        0x13 => Some("Swift"),
        0x14 => Some("AliasObj"),
        0x15 => Some("Rust"),
        0x16 => Some("Go"),
        0x44 => Some("D"),
        0x53 => Some("OldSwift"),
        _ => None,
    }
}

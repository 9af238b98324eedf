//! Languages.

ghost use Rattle.std.specs.Prelude.{◌≡◌, Some};
ghost use Rattle.pdb_symbols.specs.Languages.{language_of, language_text};

use std::fmt;

/// The language that a module was written in: `CV_CFL_LANG` of `cvinfo.h`. Any other number is `Masm`.
#[derive(Clone, Copy, Debug, Eq, PartialEq)]
pub enum SourceLanguage {
    /// C.
    C = 0x0,
    /// C++.
    Cpp = 0x1,
    /// Fortran.
    Fortran = 0x2,
    /// The assembler MASM, and every number without a language of its own.
    Masm = 0x3,
    /// Pascal.
    Pascal = 0x4,
    /// Basic.
    Basic = 0x5,
    /// Cobol.
    Cobol = 0x6,
    /// The linker, for what it makes itself.
    Link = 0x7,
    /// The resource converter CVTRES.
    Cvtres = 0x8,
    /// The profile tool CVTPGD.
    Cvtpgd = 0x9,
    /// C#.
    CSharp = 0xa,
    /// Visual Basic.
    VB = 0xb,
    /// The assembler of the intermediate language.
    ILAsm = 0xc,
    /// Java.
    Java = 0xd,
    /// JScript.
    JScript = 0xe,
    /// The intermediate language MSIL, compiled by the linker.
    MSIL = 0xf,
    /// The shader language HLSL.
    HLSL = 0x10,
    /// D.
    D = 0x44,
}

impl From<u8> for SourceLanguage {
    ghost from_gives = { λ n language. language ≡ language_of n };

    /// The language of a number; any other number is `Masm`.
    #[tactic(auto, unfolding(crate::specs::Languages::language_of))]
    fn from(number: u8) -> Self {
        match number {
            0x0 => SourceLanguage::C,
            0x1 => SourceLanguage::Cpp,
            0x2 => SourceLanguage::Fortran,
            0x4 => SourceLanguage::Pascal,
            0x5 => SourceLanguage::Basic,
            0x6 => SourceLanguage::Cobol,
            0x7 => SourceLanguage::Link,
            0x8 => SourceLanguage::Cvtres,
            0x9 => SourceLanguage::Cvtpgd,
            0xa => SourceLanguage::CSharp,
            0xb => SourceLanguage::VB,
            0xc => SourceLanguage::ILAsm,
            0xd => SourceLanguage::Java,
            0xe => SourceLanguage::JScript,
            0xf => SourceLanguage::MSIL,
            0x10 => SourceLanguage::HLSL,
            0x44 => SourceLanguage::D,
            _ => SourceLanguage::Masm,
        }
    }
}

impl SourceLanguage {
    // The language's name, which is the variant's.
    fn name(self) -> &'static str
        ensures { result.now ≡ language_text self }
    {
        match self {
            SourceLanguage::C => "C",
            SourceLanguage::Cpp => "Cpp",
            SourceLanguage::Fortran => "Fortran",
            SourceLanguage::Masm => "Masm",
            SourceLanguage::Pascal => "Pascal",
            SourceLanguage::Basic => "Basic",
            SourceLanguage::Cobol => "Cobol",
            SourceLanguage::Link => "Link",
            SourceLanguage::Cvtres => "Cvtres",
            SourceLanguage::Cvtpgd => "Cvtpgd",
            SourceLanguage::CSharp => "CSharp",
            SourceLanguage::VB => "VB",
            SourceLanguage::ILAsm => "ILAsm",
            SourceLanguage::Java => "Java",
            SourceLanguage::JScript => "JScript",
            SourceLanguage::MSIL => "MSIL",
            SourceLanguage::HLSL => "HLSL",
            SourceLanguage::D => "D",
        }
    }
}

/// Shows the variant's name.
impl fmt::Display for SourceLanguage {
    ghost output = { λ language. Some (language_text language) };

    fn fmt<W: fmt::Write>(&self, f: &mut fmt::Formatter<W>) -> fmt::Result {
        f.write_str(self.name())
    }
}

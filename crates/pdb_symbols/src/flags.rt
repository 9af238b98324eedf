//! Flags, bit by bit.

ghost use Rattle.std.specs.Prelude.{◌≡◌};
ghost use Rattle.pdb_symbols.specs.Flags.{procedure_flags_of, compile_flags_of, local_flags_of, export_flags_of, export_bits, separated_code_flags_of};

/// Flags of a procedure or a label: `CV_PROCFLAGS` of `cvinfo.h`, a byte.
#[derive(Clone, Copy, Debug, Eq, PartialEq)]
pub struct ProcedureFlags {
    /// The frame pointer is there: bit 0.
    pub nofpo: bool,
    /// It returns from an interrupt: bit 1.
    pub int: bool,
    /// It returns far: bit 2.
    pub far: bool,
    /// It doesn't return: bit 3.
    pub never: bool,
    /// It is never reached: bit 4.
    pub notreached: bool,
    /// It has a calling convention of its own: bit 5.
    pub cust_call: bool,
    /// It is marked not to be inlined: bit 6.
    pub noinline: bool,
    /// It has debug information on optimized code: bit 7.
    pub optdbginfo: bool,
}

impl ProcedureFlags {
    // The flags of a byte.
    #[inline]
    #[tactic(auto, unfolding(crate::specs::Flags::procedure_flags_of))]
    pub(crate) fn of(bits: u8) -> Self
        ensures { result ≡ procedure_flags_of bits }
    {
        ProcedureFlags {
            nofpo: bits & 1 != 0,
            int: bits & 2 != 0,
            far: bits & 4 != 0,
            never: bits & 8 != 0,
            notreached: bits & 16 != 0,
            cust_call: bits & 32 != 0,
            noinline: bits & 64 != 0,
            optdbginfo: bits & 128 != 0,
        }
    }
}

/// How a module was compiled: the flags of `CFLAGSYM`, `COMPILESYM` and `COMPILESYM3` of `cvinfo.h`, 16 bits behind
/// the language. The last three are in records of kind 0x113c alone, and false in others.
#[derive(Clone, Copy, Debug, Eq, PartialEq)]
pub struct CompileFlags {
    /// Compiled for edit and continue: bit 0.
    pub edit_and_continue: bool,
    /// Without debug information: bit 1.
    pub no_debug_info: bool,
    /// With code generation by the linker: bit 2.
    pub link_time_codegen: bool,
    /// Data isn't aligned: bit 3.
    pub no_data_align: bool,
    /// Managed code or data is there: bit 4.
    pub managed: bool,
    /// With security checks: bit 5.
    pub security_checks: bool,
    /// With support for hot patches: bit 6.
    pub hot_patch: bool,
    /// Converted from the common intermediate language: bit 7.
    pub cvtcil: bool,
    /// A module of the intermediate language MSIL: bit 8.
    pub msil_module: bool,
    /// With the additional checks of the security development lifecycle: bit 9.
    pub sdl: bool,
    /// With optimization by a profile: bit 10.
    pub pgo: bool,
    /// A module of exported C++ code: bit 11.
    pub exp_module: bool,
}

impl CompileFlags {
    // The flags of 16 bits, in a record of a kind.
    #[inline]
    #[tactic(auto, unfolding(crate::specs::Flags::compile_flags_of))]
    pub(crate) fn of(kind: u16, bits: u16) -> Self
        ensures { result ≡ compile_flags_of kind bits }
    {
        let newer = kind == 0x113c;
        CompileFlags {
            edit_and_continue: bits & 1 != 0,
            no_debug_info: bits & 2 != 0,
            link_time_codegen: bits & 4 != 0,
            no_data_align: bits & 8 != 0,
            managed: bits & 16 != 0,
            security_checks: bits & 32 != 0,
            hot_patch: bits & 64 != 0,
            cvtcil: bits & 128 != 0,
            msil_module: bits & 256 != 0,
            sdl: newer && bits & 512 != 0,
            pgo: newer && bits & 1024 != 0,
            exp_module: newer && bits & 2048 != 0,
        }
    }
}

/// Flags of a local variable: `CV_LVARFLAGS` of `cvinfo.h`, 16 bits. The names are those of the Rust crate `pdb`; from
/// bit 4 on `cvinfo.h` has another meaning for each, which stands beside it.
#[derive(Clone, Copy, Debug, Eq, PartialEq)]
pub struct LocalVariableFlags {
    /// It is a parameter: bit 0.
    pub isparam: bool,
    /// Its address is taken: bit 1.
    pub addrtaken: bool,
    /// The compiler made it: bit 2.
    pub compgenx: bool,
    /// It was split into several variables and is one for all of them: bit 3.
    pub isaggregate: bool,
    /// Bit 4: by `cvinfo.h` it is a part of an aggregate (`fIsAggregated`).
    pub isaliased: bool,
    /// Bit 5: by `cvinfo.h` it has other names (`fIsAliased`).
    pub isalias: bool,
    /// Bit 6: by `cvinfo.h` it is another name of a variable (`fIsAlias`).
    pub isretvalue: bool,
    /// Bit 7: by `cvinfo.h` it is the value that is returned (`fIsRetValue`).
    pub isoptimizedout: bool,
    /// Bit 8: by `cvinfo.h` it was optimized away (`fIsOptimizedOut`).
    pub isenreg_glob: bool,
    /// Bit 9: by `cvinfo.h` it is an enregistered global (`fIsEnregGlob`).
    pub isenreg_stat: bool,
}

impl LocalVariableFlags {
    // The flags of 16 bits.
    #[inline]
    #[tactic(auto, unfolding(crate::specs::Flags::local_flags_of))]
    pub(crate) fn of(bits: u16) -> Self
        ensures { result ≡ local_flags_of bits }
    {
        LocalVariableFlags {
            isparam: bits & 1 != 0,
            addrtaken: bits & 2 != 0,
            compgenx: bits & 4 != 0,
            isaggregate: bits & 8 != 0,
            isaliased: bits & 16 != 0,
            isalias: bits & 32 != 0,
            isretvalue: bits & 64 != 0,
            isoptimizedout: bits & 128 != 0,
            isenreg_glob: bits & 256 != 0,
            isenreg_stat: bits & 512 != 0,
        }
    }
}

/// Flags of an export: those of `EXPORTSYM` of `cvinfo.h`, 16 bits.
#[derive(Clone, Copy, Debug, Eq, PartialEq)]
pub struct ExportSymbolFlags {
    /// A constant: bit 0.
    pub constant: bool,
    /// Data: bit 1.
    pub data: bool,
    /// Private: bit 2.
    pub private: bool,
    /// Without a name: bit 3.
    pub no_name: bool,
    /// Its ordinal was given explicitly: bit 4.
    pub ordinal: bool,
    /// It forwards to another one: bit 5.
    pub forwarder: bool,
}

impl ExportSymbolFlags {
    // The flags of 16 bits.
    #[inline]
    #[tactic(auto, unfolding(crate::specs::Flags::export_flags_of))]
    pub(crate) fn of(bits: u16) -> Self
        ensures { result ≡ export_flags_of bits }
    {
        ExportSymbolFlags {
            constant: bits & 1 != 0,
            data: bits & 2 != 0,
            private: bits & 4 != 0,
            no_name: bits & 8 != 0,
            ordinal: bits & 16 != 0,
            forwarder: bits & 32 != 0,
        }
    }

    /// The number that has these flags as its bits, and no other bit.
    pub fn bits(self) -> u16
        ensures { result ≡ export_bits self }
    {
        u16::from(self.constant)
            + 2 * u16::from(self.data)
            + 4 * u16::from(self.private)
            + 8 * u16::from(self.no_name)
            + 16 * u16::from(self.ordinal)
            + 32 * u16::from(self.forwarder)
    }
}

/// Flags of code that stands apart from its procedure: those of `SEPCODESYM` of `cvinfo.h`, 32 bits.
#[derive(Clone, Copy, Debug, Eq, PartialEq)]
pub struct SeparatedCodeFlags {
    /// It is a lexical scope too: bit 0.
    pub islexicalscope: bool,
    /// It returns to its parent: bit 1.
    pub returnstoparent: bool,
}

impl SeparatedCodeFlags {
    // The flags of 32 bits.
    #[inline]
    #[tactic(auto, unfolding(crate::specs::Flags::separated_code_flags_of))]
    pub(crate) fn of(bits: u32) -> Self
        ensures { result ≡ separated_code_flags_of bits }
    {
        SeparatedCodeFlags {
            islexicalscope: bits & 1 != 0,
            returnstoparent: bits & 2 != 0,
        }
    }
}

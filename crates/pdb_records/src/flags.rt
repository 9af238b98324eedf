//! Flags, bit by bit.

ghost use Rattle.std.specs.Prelude.{◌≡◌};
ghost use Rattle.pdb_symbols.specs.Flags.{procedure_flags_of as procedure_bits};
ghost use Rattle.pdb_records.specs.RecordFlags.{frame_flags_of, mini_reference_flags_of, module_type_flags_of, variable_flags_of};

use pdb_symbols::ProcedureFlags;

/// Flags of a procedure's frame: the flags of `FRAMEPROCSYM` of `cvinfo.h`, 32 bits, without the two encoded
/// registers in bits 14 to 17.
#[derive(Clone, Copy, Debug, Eq, PartialEq)]
pub struct FrameFlags {
    /// It calls `alloca`: bit 0.
    pub alloca: bool,
    /// It calls `setjmp`: bit 1.
    pub setjmp: bool,
    /// It calls `longjmp`: bit 2.
    pub longjmp: bool,
    /// It has inline assembly: bit 3.
    pub inline_asm: bool,
    /// It handles C++ exceptions: bit 4.
    pub eh: bool,
    /// It was marked `inline`: bit 5.
    pub inline_spec: bool,
    /// It handles structured exceptions: bit 6.
    pub seh: bool,
    /// It is `naked`: bit 7.
    pub naked: bool,
    /// It has security checks (`/GS`): bit 8.
    pub security_checks: bool,
    /// It was compiled with asynchronous exceptions (`/EHa`): bit 9.
    pub async_eh: bool,
    /// The stack isn't ordered for security checks: bit 10.
    pub gs_no_stack_ordering: bool,
    /// It was inlined in another procedure: bit 11.
    pub was_inlined: bool,
    /// It is checked strictly (`__declspec(strict_gs_check)`): bit 12.
    pub gs_check: bool,
    /// It is marked `__declspec(safebuffers)`: bit 13.
    pub safe_buffers: bool,
    /// It was optimized by a profile: bit 18.
    pub pogo_on: bool,
    /// Its profile counts are valid: bit 19.
    pub valid_counts: bool,
    /// It was optimized for speed: bit 20.
    pub opt_speed: bool,
    /// It has control flow guards, with checks: bit 21.
    pub guard_cf: bool,
    /// It has control flow guards that write: bit 22.
    pub guard_cfw: bool,
}

impl FrameFlags {
    // The flags of 32 bits.
    #[inline]
    #[tactic(auto, unfolding(crate::specs::RecordFlags::frame_flags_of))]
    pub(crate) fn of(bits: u32) -> Self
        ensures { result ≡ frame_flags_of bits }
    {
        FrameFlags {
            alloca: bits & 0x1 != 0,
            setjmp: bits & 0x2 != 0,
            longjmp: bits & 0x4 != 0,
            inline_asm: bits & 0x8 != 0,
            eh: bits & 0x10 != 0,
            inline_spec: bits & 0x20 != 0,
            seh: bits & 0x40 != 0,
            naked: bits & 0x80 != 0,
            security_checks: bits & 0x100 != 0,
            async_eh: bits & 0x200 != 0,
            gs_no_stack_ordering: bits & 0x400 != 0,
            was_inlined: bits & 0x800 != 0,
            gs_check: bits & 0x1000 != 0,
            safe_buffers: bits & 0x2000 != 0,
            pogo_on: bits & 0x4_0000 != 0,
            valid_counts: bits & 0x8_0000 != 0,
            opt_speed: bits & 0x10_0000 != 0,
            guard_cf: bits & 0x20_0000 != 0,
            guard_cfw: bits & 0x40_0000 != 0,
        }
    }
}

/// Flags of a variable: `CV_LVARFLAGS` of `cvinfo.h`, 16 bits. The names are those of `cvinfo.h`.
#[derive(Clone, Copy, Debug, Eq, PartialEq)]
pub struct VariableFlags {
    /// It is a parameter: bit 0.
    pub param: bool,
    /// Its address is taken: bit 1.
    pub addrtaken: bool,
    /// The compiler made it: bit 2.
    pub compgenx: bool,
    /// It was split into several variables, and is one for all of them: bit 3.
    pub aggregate: bool,
    /// It is a part of an aggregate: bit 4.
    pub aggregated: bool,
    /// It has other names: bit 5.
    pub aliased: bool,
    /// It is another name of a variable: bit 6.
    pub alias: bool,
    /// It is the value that is returned: bit 7.
    pub retvalue: bool,
    /// It was optimized out: bit 8.
    pub optimizedout: bool,
    /// It is a global variable that is kept in a register: bit 9.
    pub enreg_glob: bool,
    /// It is a static variable that is kept in a register: bit 10.
    pub enreg_stat: bool,
}

impl VariableFlags {
    // The flags of 16 bits.
    #[inline]
    #[tactic(auto, unfolding(crate::specs::RecordFlags::variable_flags_of))]
    pub(crate) fn of(bits: u16) -> Self
        ensures { result ≡ variable_flags_of bits }
    {
        VariableFlags {
            param: bits & 0x1 != 0,
            addrtaken: bits & 0x2 != 0,
            compgenx: bits & 0x4 != 0,
            aggregate: bits & 0x8 != 0,
            aggregated: bits & 0x10 != 0,
            aliased: bits & 0x20 != 0,
            alias: bits & 0x40 != 0,
            retvalue: bits & 0x80 != 0,
            optimizedout: bits & 0x100 != 0,
            enreg_glob: bits & 0x200 != 0,
            enreg_stat: bits & 0x400 != 0,
        }
    }
}

/// Where a module's types are: the flags of `MODTYPEREF` of `cvinfo.h`, 32 bits.
#[derive(Clone, Copy, Debug, Eq, PartialEq)]
pub struct ModuleTypeFlags {
    /// The module has no types: bit 0.
    pub none: bool,
    /// It refers to types of a precompiled header: bit 1.
    pub ref_tmpct: bool,
    /// It has types of a precompiled header: bit 2.
    pub own_tmpct: bool,
    /// It has a reference to types: bit 3.
    pub own_tmr: bool,
    /// It has types of its own: bit 4.
    pub own_tm: bool,
    /// It refers to types of another module: bit 5.
    pub ref_tm: bool,
}

impl ModuleTypeFlags {
    // The flags of 32 bits.
    #[inline]
    #[tactic(auto, unfolding(crate::specs::RecordFlags::module_type_flags_of))]
    pub(crate) fn of(bits: u32) -> Self
        ensures { result ≡ module_type_flags_of bits }
    {
        ModuleTypeFlags {
            none: bits & 0x1 != 0,
            ref_tmpct: bits & 0x2 != 0,
            own_tmpct: bits & 0x4 != 0,
            own_tmr: bits & 0x8 != 0,
            own_tm: bits & 0x10 != 0,
            ref_tm: bits & 0x20 != 0,
        }
    }
}

/// What a reference into an object file is of: the flags of `REFMINIPDB` of `cvinfo.h`, 16 bits.
#[derive(Clone, Copy, Debug, Eq, PartialEq)]
pub struct MiniReferenceFlags {
    /// It is local to its module: bit 0.
    pub local: bool,
    /// It is data: bit 1.
    pub data: bool,
    /// It is a name of a type: bit 2.
    pub udt: bool,
    /// It is a label: bit 3.
    pub label: bool,
    /// It is a constant: bit 4.
    pub constant: bool,
}

impl MiniReferenceFlags {
    // The flags of 16 bits.
    #[inline]
    #[tactic(auto, unfolding(crate::specs::RecordFlags::mini_reference_flags_of))]
    pub(crate) fn of(bits: u16) -> Self
        ensures { result ≡ mini_reference_flags_of bits }
    {
        MiniReferenceFlags {
            local: bits & 0x1 != 0,
            data: bits & 0x2 != 0,
            udt: bits & 0x4 != 0,
            label: bits & 0x8 != 0,
            constant: bits & 0x10 != 0,
        }
    }
}

// The flags of a managed procedure, which are those of any procedure: `CV_PROCFLAGS` of `cvinfo.h`.
#[inline]
#[tactic(auto, unfolding(pdb_symbols::specs::Flags::procedure_flags_of))]
pub(crate) fn procedure_flags_of(bits: u8) -> ProcedureFlags
    ensures { result ≡ procedure_bits bits }
{
    ProcedureFlags {
        nofpo: bits & 1 != 0,
        int: bits & 2 != 0,
        far: bits & 4 != 0,
        never: bits & 8 != 0,
        notreached: bits & 16 != 0,
        cust_call: bits & 32 != 0,
        noinline: bits & 64 != 0,
        optdbginfo: bits & 128 != 0,
    }
}

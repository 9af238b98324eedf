//! The names of flags of further records.

ghost use Rattle.std.specs.Prelude.{◌≡◌, ◌++◌, codes, OnOk};
ghost use Rattle.tool_fields.specs.FieldTexts.{field};
ghost use Rattle.tool_records.specs.RecordFlagTexts.{environment_flags, frame_flags, mini_reference_flags, module_type_flags, variable_flags};

use pdb_records::{FrameFlags, MiniReferenceFlags, ModuleTypeFlags, VariableFlags};
use std::alloc::AllocError;
use tool_fields::fields::put_label;
use tool_fields::flags::put_flags;

/// The flags of a frame.
#[tactic(auto, unfolding(tool_fields::specs::FieldTexts::field, crate::specs::RecordFlagTexts::frame_flags))]
pub fn put_frame_flags(out: &mut Vec<u8>, flags: FrameFlags) -> Result<(), AllocError>
    ensures { OnOk result (out.new.items ≡ out.old.items ++ field (codes "flags") (frame_flags flags)) }
{
    put_label(out, b"flags")?;
    put_flags(
        out,
        &[
            (flags.alloca, "alloca"),
            (flags.setjmp, "setjmp"),
            (flags.longjmp, "longjmp"),
            (flags.inline_asm, "inline_asm"),
            (flags.eh, "eh"),
            (flags.inline_spec, "inline_spec"),
            (flags.seh, "seh"),
            (flags.naked, "naked"),
            (flags.security_checks, "security_checks"),
            (flags.async_eh, "async_eh"),
            (flags.gs_no_stack_ordering, "gs_no_stack_ordering"),
            (flags.was_inlined, "was_inlined"),
            (flags.gs_check, "gs_check"),
            (flags.safe_buffers, "safe_buffers"),
            (flags.pogo_on, "pogo_on"),
            (flags.valid_counts, "valid_counts"),
            (flags.opt_speed, "opt_speed"),
            (flags.guard_cf, "guard_cf"),
            (flags.guard_cfw, "guard_cfw"),
        ],
    )
}

/// A variable's flags.
#[tactic(auto, unfolding(tool_fields::specs::FieldTexts::field, crate::specs::RecordFlagTexts::variable_flags))]
pub fn put_variable_flags(out: &mut Vec<u8>, flags: VariableFlags) -> Result<(), AllocError>
    ensures { OnOk result (out.new.items ≡ out.old.items ++ field (codes "flags") (variable_flags flags)) }
{
    put_label(out, b"flags")?;
    put_flags(
        out,
        &[
            (flags.param, "param"),
            (flags.addrtaken, "addrtaken"),
            (flags.compgenx, "compgenx"),
            (flags.aggregate, "aggregate"),
            (flags.aggregated, "aggregated"),
            (flags.aliased, "aliased"),
            (flags.alias, "alias"),
            (flags.retvalue, "retvalue"),
            (flags.optimizedout, "optimizedout"),
            (flags.enreg_glob, "enreg_glob"),
            (flags.enreg_stat, "enreg_stat"),
        ],
    )
}

/// How a module's types are kept.
#[tactic(auto, unfolding(tool_fields::specs::FieldTexts::field, crate::specs::RecordFlagTexts::module_type_flags))]
pub fn put_module_type_flags(out: &mut Vec<u8>, flags: ModuleTypeFlags) -> Result<(), AllocError>
    ensures { OnOk result (out.new.items ≡ out.old.items ++ field (codes "flags") (module_type_flags flags)) }
{
    put_label(out, b"flags")?;
    put_flags(
        out,
        &[
            (flags.none, "none"),
            (flags.ref_tmpct, "ref_tmpct"),
            (flags.own_tmpct, "own_tmpct"),
            (flags.own_tmr, "own_tmr"),
            (flags.own_tm, "own_tm"),
            (flags.ref_tm, "ref_tm"),
        ],
    )
}

/// What a reference into an object file is of.
#[tactic(auto, unfolding(tool_fields::specs::FieldTexts::field, crate::specs::RecordFlagTexts::mini_reference_flags))]
pub fn put_mini_reference_flags(
    out: &mut Vec<u8>,
    flags: MiniReferenceFlags,
) -> Result<(), AllocError>
    ensures { OnOk result (out.new.items ≡ out.old.items ++ field (codes "flags") (mini_reference_flags flags)) }
{
    put_label(out, b"flags")?;
    put_flags(
        out,
        &[
            (flags.local, "local"),
            (flags.data, "data"),
            (flags.udt, "udt"),
            (flags.label, "label"),
            (flags.constant, "const"),
        ],
    )
}

/// The flags of an environment: bit 0 alone.
#[tactic(auto, unfolding(tool_fields::specs::FieldTexts::field, crate::specs::RecordFlagTexts::environment_flags))]
pub fn put_environment_flags(out: &mut Vec<u8>, rev: bool) -> Result<(), AllocError>
    ensures { OnOk result (out.new.items ≡ out.old.items ++ field (codes "flags") (environment_flags rev)) }
{
    put_label(out, b"flags")?;
    put_flags(out, &[(rev, "rev")])
}

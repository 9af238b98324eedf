//! The names of flags.

ghost use Rattle.std.specs.Prelude.{◌≡◌, ◌++◌, codes, map, OnOk};
ghost use Rattle.tool_fields.specs.FieldTexts.{field};
ghost use Rattle.tool_fields.specs.Flags.{compile_flags, export_flags, flags_text, local_flags, more_flags, procedure_flags, separated_code_flags};

use crate::fields::put_label;
use pdb::{
    CompileFlags, ExportSymbolFlags, LocalVariableFlags, ProcedureFlags, SeparatedCodeFlags,
};
use std::alloc::AllocError;

/// The names of the flags that are set, each behind `+`.
fn put_more_flags(out: &mut Vec<u8>, flags: &[(bool, &'static str)]) -> Result<(), AllocError>
    ensures { OnOk result (out.new.items ≡ out.old.items ++ more_flags (map (λ f. (f.0, f.1.now)) flags.now)) }
{
    let Some(((is_set, name), behind)) = flags.split_first() else {
        return Ok(());
    };
    if *is_set {
        out.push(b'+')?;
        out.extend_from_slice(name.as_bytes())?;
    }
    put_more_flags(out, behind)
}

/// The names of the flags that are set, joined by `+`, or `-` where none is.
pub fn put_flags(out: &mut Vec<u8>, flags: &[(bool, &'static str)]) -> Result<(), AllocError>
    ensures { OnOk result (out.new.items ≡ out.old.items ++ flags_text (map (λ f. (f.0, f.1.now)) flags.now)) }
{
    let Some(((is_set, name), behind)) = flags.split_first() else {
        return out.extend_from_slice(b"-");
    };
    if *is_set {
        out.extend_from_slice(name.as_bytes())?;
        return put_more_flags(out, behind);
    }
    put_flags(out, behind)
}

/// A procedure's flags, or a label's.
#[tactic(auto, unfolding(crate::specs::FieldTexts::field, crate::specs::Flags::procedure_flags))]
pub fn put_procedure_flags(out: &mut Vec<u8>, flags: ProcedureFlags) -> Result<(), AllocError>
    ensures { OnOk result (out.new.items ≡ out.old.items ++ field (codes "flags") (procedure_flags flags)) }
{
    put_label(out, b"flags")?;
    put_flags(
        out,
        &[
            (flags.nofpo, "nofpo"),
            (flags.int, "int"),
            (flags.far, "far"),
            (flags.never, "never"),
            (flags.notreached, "notreached"),
            (flags.cust_call, "cust_call"),
            (flags.noinline, "noinline"),
            (flags.optdbginfo, "optdbginfo"),
        ],
    )
}

/// How a module was compiled.
#[tactic(auto, unfolding(crate::specs::FieldTexts::field, crate::specs::Flags::compile_flags))]
pub fn put_compile_flags(out: &mut Vec<u8>, flags: CompileFlags) -> Result<(), AllocError>
    ensures { OnOk result (out.new.items ≡ out.old.items ++ field (codes "flags") (compile_flags flags)) }
{
    put_label(out, b"flags")?;
    put_flags(
        out,
        &[
            (flags.edit_and_continue, "edit_and_continue"),
            (flags.no_debug_info, "no_debug_info"),
            (flags.link_time_codegen, "link_time_codegen"),
            (flags.no_data_align, "no_data_align"),
            (flags.managed, "managed"),
            (flags.security_checks, "security_checks"),
            (flags.hot_patch, "hot_patch"),
            (flags.cvtcil, "cvtcil"),
            (flags.msil_module, "msil_module"),
            (flags.sdl, "sdl"),
            (flags.pgo, "pgo"),
            (flags.exp_module, "exp_module"),
        ],
    )
}

/// A local variable's flags, by the names of the bits in `cvinfo.h`, which from the fifth on aren't those of the
/// fields. Bit 10 has no field, and is that of the record's word.
#[tactic(auto, unfolding(crate::specs::FieldTexts::field, crate::specs::Flags::local_flags))]
pub fn put_local_flags(
    out: &mut Vec<u8>,
    flags: LocalVariableFlags,
    word: u16,
) -> Result<(), AllocError>
    ensures { OnOk result (out.new.items ≡ out.old.items ++ field (codes "flags") (local_flags flags word)) }
{
    put_label(out, b"flags")?;
    put_flags(
        out,
        &[
            (flags.isparam, "param"),
            (flags.addrtaken, "addrtaken"),
            (flags.compgenx, "compgenx"),
            (flags.isaggregate, "aggregate"),
            (flags.isaliased, "aggregated"),
            (flags.isalias, "aliased"),
            (flags.isretvalue, "alias"),
            (flags.isoptimizedout, "retvalue"),
            (flags.isenreg_glob, "optimizedout"),
            (flags.isenreg_stat, "enreg_glob"),
            (word & 0x400 != 0, "enreg_stat"),
        ],
    )
}

/// An export's flags.
#[tactic(auto, unfolding(crate::specs::FieldTexts::field, crate::specs::Flags::export_flags))]
pub fn put_export_flags(out: &mut Vec<u8>, flags: ExportSymbolFlags) -> Result<(), AllocError>
    ensures { OnOk result (out.new.items ≡ out.old.items ++ field (codes "flags") (export_flags flags)) }
{
    put_label(out, b"flags")?;
    put_flags(
        out,
        &[
            (flags.constant, "constant"),
            (flags.data, "data"),
            (flags.private, "private"),
            (flags.no_name, "no_name"),
            (flags.ordinal, "ordinal"),
            (flags.forwarder, "forwarder"),
        ],
    )
}

/// The flags of separated code.
#[tactic(auto, unfolding(crate::specs::FieldTexts::field, crate::specs::Flags::separated_code_flags))]
pub fn put_separated_code_flags(
    out: &mut Vec<u8>,
    flags: SeparatedCodeFlags,
) -> Result<(), AllocError>
    ensures { OnOk result (out.new.items ≡ out.old.items ++ field (codes "flags") (separated_code_flags flags)) }
{
    put_label(out, b"flags")?;
    put_flags(
        out,
        &[
            (flags.islexicalscope, "islexicalscope"),
            (flags.returnstoparent, "returnstoparent"),
        ],
    )
}

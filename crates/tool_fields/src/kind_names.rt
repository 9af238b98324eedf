//! The names of kinds of symbols in `cvinfo.h`.

ghost use Rattle.std.specs.Prelude.{◌≡◌, ◌≤◌, map};
ghost use Rattle.std.specs.Option.{option_map};
ghost use Rattle.tool_fields.specs.KindNames.{kind_name, name_in};

/// The kinds from 0x0001 on.
pub(crate) static OLDEST_NAMES: [&str; 14] = [
    "S_COMPILE",
    "S_REGISTER_16t",
    "S_CONSTANT_16t",
    "S_UDT_16t",
    "S_SSEARCH",
    "S_END",
    "S_SKIP",
    "S_CVRESERVE",
    "S_OBJNAME_ST",
    "S_ENDARG",
    "S_COBOLUDT_16t",
    "S_MANYREG_16t",
    "S_RETURN",
    "S_ENTRYTHIS",
];

/// The kinds from 0x0100 on.
pub(crate) static SHORT_OFFSET_NAMES: [&str; 13] = [
    "S_BPREL16",
    "S_LDATA16",
    "S_GDATA16",
    "S_PUB16",
    "S_LPROC16",
    "S_GPROC16",
    "S_THUNK16",
    "S_BLOCK16",
    "S_WITH16",
    "S_LABEL16",
    "S_CEXMODEL16",
    "S_VFTABLE16",
    "S_REGREL16",
];

/// The kinds from 0x0200 on.
pub(crate) static SHORT_TYPE_NAMES: [&str; 16] = [
    "S_BPREL32_16t",
    "S_LDATA32_16t",
    "S_GDATA32_16t",
    "S_PUB32_16t",
    "S_LPROC32_16t",
    "S_GPROC32_16t",
    "S_THUNK32_ST",
    "S_BLOCK32_ST",
    "S_WITH32_ST",
    "S_LABEL32_ST",
    "S_CEXMODEL32",
    "S_VFTABLE32_16t",
    "S_REGREL32_16t",
    "S_LTHREAD32_16t",
    "S_GTHREAD32_16t",
    "S_SLINK32",
];

/// The kinds from 0x0300 on.
pub(crate) static MIPS_NAMES: [&str; 2] = ["S_LPROCMIPS_16t", "S_GPROCMIPS_16t"];

/// The kinds from 0x0400 on.
pub(crate) static REFERENCE_NAMES: [&str; 5] = [
    "S_PROCREF_ST",
    "S_DATAREF_ST",
    "S_ALIGN",
    "S_LPROCREF_ST",
    "S_OEM",
];

/// The kinds from 0x1000 on.
pub(crate) static LENGTH_BYTE_NAMES: [&str; 42] = [
    "S_TI16_MAX",
    "S_REGISTER_ST",
    "S_CONSTANT_ST",
    "S_UDT_ST",
    "S_COBOLUDT_ST",
    "S_MANYREG_ST",
    "S_BPREL32_ST",
    "S_LDATA32_ST",
    "S_GDATA32_ST",
    "S_PUB32_ST",
    "S_LPROC32_ST",
    "S_GPROC32_ST",
    "S_VFTABLE32",
    "S_REGREL32_ST",
    "S_LTHREAD32_ST",
    "S_GTHREAD32_ST",
    "S_LPROCMIPS_ST",
    "S_GPROCMIPS_ST",
    "S_FRAMEPROC",
    "S_COMPILE2_ST",
    "S_MANYREG2_ST",
    "S_LPROCIA64_ST",
    "S_GPROCIA64_ST",
    "S_LOCALSLOT_ST",
    "S_PARAMSLOT_ST",
    "S_ANNOTATION",
    "S_GMANPROC_ST",
    "S_LMANPROC_ST",
    "S_RESERVED1",
    "S_RESERVED2",
    "S_RESERVED3",
    "S_RESERVED4",
    "S_LMANDATA_ST",
    "S_GMANDATA_ST",
    "S_MANFRAMEREL_ST",
    "S_MANREGISTER_ST",
    "S_MANSLOT_ST",
    "S_MANMANYREG_ST",
    "S_MANREGREL_ST",
    "S_MANMANYREG2_ST",
    "S_MANTYPREF",
    "S_UNAMESPACE_ST",
];

/// The kinds from 0x1100 on.
pub(crate) static ZERO_ENDED_NAMES: [&str; 102] = [
    "S_ST_MAX",
    "S_OBJNAME",
    "S_THUNK32",
    "S_BLOCK32",
    "S_WITH32",
    "S_LABEL32",
    "S_REGISTER",
    "S_CONSTANT",
    "S_UDT",
    "S_COBOLUDT",
    "S_MANYREG",
    "S_BPREL32",
    "S_LDATA32",
    "S_GDATA32",
    "S_PUB32",
    "S_LPROC32",
    "S_GPROC32",
    "S_REGREL32",
    "S_LTHREAD32",
    "S_GTHREAD32",
    "S_LPROCMIPS",
    "S_GPROCMIPS",
    "S_COMPILE2",
    "S_MANYREG2",
    "S_LPROCIA64",
    "S_GPROCIA64",
    "S_LOCALSLOT",
    "S_PARAMSLOT",
    "S_LMANDATA",
    "S_GMANDATA",
    "S_MANFRAMEREL",
    "S_MANREGISTER",
    "S_MANSLOT",
    "S_MANMANYREG",
    "S_MANREGREL",
    "S_MANMANYREG2",
    "S_UNAMESPACE",
    "S_PROCREF",
    "S_DATAREF",
    "S_LPROCREF",
    "S_ANNOTATIONREF",
    "S_TOKENREF",
    "S_GMANPROC",
    "S_LMANPROC",
    "S_TRAMPOLINE",
    "S_MANCONSTANT",
    "S_ATTR_FRAMEREL",
    "S_ATTR_REGISTER",
    "S_ATTR_REGREL",
    "S_ATTR_MANYREG",
    "S_SEPCODE",
    "S_LOCAL_2005",
    "S_DEFRANGE_2005",
    "S_DEFRANGE2_2005",
    "S_SECTION",
    "S_COFFGROUP",
    "S_EXPORT",
    "S_CALLSITEINFO",
    "S_FRAMECOOKIE",
    "S_DISCARDED",
    "S_COMPILE3",
    "S_ENVBLOCK",
    "S_LOCAL",
    "S_DEFRANGE",
    "S_DEFRANGE_SUBFIELD",
    "S_DEFRANGE_REGISTER",
    "S_DEFRANGE_FRAMEPOINTER_REL",
    "S_DEFRANGE_SUBFIELD_REGISTER",
    "S_DEFRANGE_FRAMEPOINTER_REL_FULL_SCOPE",
    "S_DEFRANGE_REGISTER_REL",
    "S_LPROC32_ID",
    "S_GPROC32_ID",
    "S_LPROCMIPS_ID",
    "S_GPROCMIPS_ID",
    "S_LPROCIA64_ID",
    "S_GPROCIA64_ID",
    "S_BUILDINFO",
    "S_INLINESITE",
    "S_INLINESITE_END",
    "S_PROC_ID_END",
    "S_DEFRANGE_HLSL",
    "S_GDATA_HLSL",
    "S_LDATA_HLSL",
    "S_FILESTATIC",
    "S_LOCAL_DPC_GROUPSHARED",
    "S_LPROC32_DPC",
    "S_LPROC32_DPC_ID",
    "S_DEFRANGE_DPC_PTR_TAG",
    "S_DPC_SYM_TAG_MAP",
    "S_ARMSWITCHTABLE",
    "S_CALLEES",
    "S_CALLERS",
    "S_POGODATA",
    "S_INLINESITE2",
    "S_HEAPALLOCSITE",
    "S_MOD_TYPEREF",
    "S_REF_MINIPDB",
    "S_PDBMAP",
    "S_GDATA_HLSL32",
    "S_LDATA_HLSL32",
    "S_GDATA_HLSL32_EX",
    "S_LDATA_HLSL32_EX",
];

/// The kinds from 0x1167 on.
pub(crate) static LATEST_NAMES: [&str; 3] = ["S_FASTLINK", "S_INLINEES", "S_HOTPATCHFUNC"];

/// The name of a kind among those from a first one on.
pub(crate) fn name_in(names: &'static [&'static str], first: u16, kind: u16) -> Option<&'static str>
    requires { first ≤ kind }
    ensures { option_map (λ s. s.now) result ≡ name_in (map (λ s. s.now) names.now) first kind }
{
    names.get(usize::from(kind - first)).copied()
}

/// The name of a kind in `cvinfo.h`, where it has one.
#[tactic(auto, unfolding(crate::specs::KindNames::kind_name))]
pub fn kind_name(kind: u16) -> Option<&'static str>
    ensures { option_map (λ s. s.now) result ≡ kind_name kind }
{
    match kind {
        0 => None,
        0x0001..0x0100 => name_in(&OLDEST_NAMES, 0x0001, kind),
        0x0100..0x0200 => name_in(&SHORT_OFFSET_NAMES, 0x0100, kind),
        0x0200..0x0300 => name_in(&SHORT_TYPE_NAMES, 0x0200, kind),
        0x0300..0x0400 => name_in(&MIPS_NAMES, 0x0300, kind),
        0x0400..0x1000 => name_in(&REFERENCE_NAMES, 0x0400, kind),
        0x1000..0x1100 => name_in(&LENGTH_BYTE_NAMES, 0x1000, kind),
        0x1100..0x1167 => name_in(&ZERO_ENDED_NAMES, 0x1100, kind),
        _ => name_in(&LATEST_NAMES, 0x1167, kind),
    }
}

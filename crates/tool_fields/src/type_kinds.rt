//! The names of kinds of types in `cvinfo.h`.

ghost use Rattle.std.specs.Prelude.{◌≡◌, map};
ghost use Rattle.std.specs.Option.{option_map};
ghost use Rattle.tool_fields.specs.TypeKinds.{type_kind_name};

use crate::kind_names::name_in;

/// The kinds from 0x0001 on.
pub(crate) static OLD_TYPE_NAMES: [&str; 22] = [
    "LF_MODIFIER_16t",
    "LF_POINTER_16t",
    "LF_ARRAY_16t",
    "LF_CLASS_16t",
    "LF_STRUCTURE_16t",
    "LF_UNION_16t",
    "LF_ENUM_16t",
    "LF_PROCEDURE_16t",
    "LF_MFUNCTION_16t",
    "LF_VTSHAPE",
    "LF_COBOL0_16t",
    "LF_COBOL1",
    "LF_BARRAY_16t",
    "LF_LABEL",
    "LF_NULL",
    "LF_NOTTRAN",
    "LF_DIMARRAY_16t",
    "LF_VFTPATH_16t",
    "LF_PRECOMP_16t",
    "LF_ENDPRECOMP",
    "LF_OEM_16t",
    "LF_TYPESERVER_ST",
];

/// The kinds from 0x1001 on.
pub(crate) static TYPE_NAMES: [&str; 17] = [
    "LF_MODIFIER",
    "LF_POINTER",
    "LF_ARRAY_ST",
    "LF_CLASS_ST",
    "LF_STRUCTURE_ST",
    "LF_UNION_ST",
    "LF_ENUM_ST",
    "LF_PROCEDURE",
    "LF_MFUNCTION",
    "LF_COBOL0",
    "LF_BARRAY",
    "LF_DIMARRAY_ST",
    "LF_VFTPATH",
    "LF_PRECOMP_ST",
    "LF_OEM",
    "LF_ALIAS_ST",
    "LF_OEM2",
];

/// The kinds from 0x1200 on.
pub(crate) static LIST_NAMES: [&str; 11] = [
    "LF_SKIP",
    "LF_ARGLIST",
    "LF_DEFARG_ST",
    "LF_FIELDLIST",
    "LF_DERIVED",
    "LF_BITFIELD",
    "LF_METHODLIST",
    "LF_DIMCONU",
    "LF_DIMCONLU",
    "LF_DIMVARU",
    "LF_DIMVARLU",
];

/// The kinds from 0x1501 on.
pub(crate) static TAG_NAMES: [&str; 29] = [
    "LF_TYPESERVER",
    "LF_ENUMERATE",
    "LF_ARRAY",
    "LF_CLASS",
    "LF_STRUCTURE",
    "LF_UNION",
    "LF_ENUM",
    "LF_DIMARRAY",
    "LF_PRECOMP",
    "LF_ALIAS",
    "LF_DEFARG",
    "LF_FRIENDFCN",
    "LF_MEMBER",
    "LF_STMEMBER",
    "LF_METHOD",
    "LF_NESTTYPE",
    "LF_ONEMETHOD",
    "LF_NESTTYPEEX",
    "LF_MEMBERMODIFY",
    "LF_MANAGED",
    "LF_TYPESERVER2",
    "LF_STRIDED_ARRAY",
    "LF_HLSL",
    "LF_MODIFIER_EX",
    "LF_INTERFACE",
    "LF_BINTERFACE",
    "LF_VECTOR",
    "LF_MATRIX",
    "LF_VFTABLE",
];

/// The kinds from 0x1601 on.
pub(crate) static ID_NAMES: [&str; 7] = [
    "LF_FUNC_ID",
    "LF_MFUNC_ID",
    "LF_BUILDINFO",
    "LF_SUBSTR_LIST",
    "LF_STRING_ID",
    "LF_UDT_SRC_LINE",
    "LF_UDT_MOD_SRC_LINE",
];

/// The name of a kind of types in `cvinfo.h`, where it has one.
#[tactic(auto, unfolding(crate::specs::TypeKinds::type_kind_name))]
pub fn type_kind_name(kind: u16) -> Option<&'static str>
    ensures { option_map (λ s. s.now) result ≡ type_kind_name kind }
{
    match kind {
        0 => None,
        0x0001..0x1001 => name_in(&OLD_TYPE_NAMES, 0x0001, kind),
        0x1001..0x1200 => name_in(&TYPE_NAMES, 0x1001, kind),
        0x1200..0x1501 => name_in(&LIST_NAMES, 0x1200, kind),
        0x1501..0x1601 => name_in(&TAG_NAMES, 0x1501, kind),
        _ => name_in(&ID_NAMES, 0x1601, kind),
    }
}

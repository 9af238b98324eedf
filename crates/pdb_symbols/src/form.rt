//! Which kind has which form.

ghost use Rattle.std.specs.Prelude.{◌≡◌};
ghost use Rattle.pdb_symbols.specs.Kinds.{row, row_in, older_rows, middle_rows, newer_rows};

/// The form of a record: how its fields stand behind its kind, and which variant of `SymbolData` it says.
#[derive(Clone, Copy, Debug, Eq, PartialEq)]
pub enum Form {
    /// The end of a scope: `S_END` (0x0006).
    ScopeEnd,
    /// The name of an object file.
    ObjName,
    /// A variable in a register.
    RegisterVariable,
    /// A constant.
    Constant,
    /// A name for a type.
    UserDefinedType,
    /// A variable in several registers.
    MultiRegisterVariable,
    /// Data at a fixed address.
    Data,
    /// A symbol that other modules can see.
    Public,
    /// A procedure.
    Procedure,
    /// Data of which each thread has its own.
    ThreadStorage,
    /// How a module was compiled.
    CompileFlags,
    /// A namespace that is used.
    UsingNamespace,
    /// A reference to a procedure of a module.
    ProcedureReference,
    /// A reference to data of a module.
    DataReference,
    /// A reference to an annotation of a module.
    AnnotationReference,
    /// A jump that the linker made.
    Trampoline,
    /// A symbol that the image exports.
    Export,
    /// A local variable.
    Local,
    /// What a module was built with.
    BuildInfo,
    /// An inlined call.
    InlineSite,
    /// The end of an inlined call: `S_INLINESITE_END` (0x114e).
    InlineSiteEnd,
    /// The end of a procedure: `S_PROC_ID_END` (0x114f).
    ProcedureEnd,
    /// A label in code.
    Label,
    /// A block of a procedure.
    Block,
    /// A variable at an offset from a register's value.
    RegisterRelative,
    /// A thunk.
    Thunk,
    /// Code of a procedure that stands apart from it.
    SeparatedCode,
}

// The three bands and what picks one stand in both callers' code: they would be calls of their own there.

// Kinds below 0x1100.
#[inline(always)]
fn older_form(kind: u16) -> Option<Form>
    ensures { result ≡ row_in older_rows kind }
{
    match kind {
        0x0006 => Some(Form::ScopeEnd),
        0x0009 => Some(Form::ObjName),
        0x1001 => Some(Form::RegisterVariable),
        0x1002 => Some(Form::Constant),
        0x1003 | 0x1004 => Some(Form::UserDefinedType),
        0x1005 | 0x1014 => Some(Form::MultiRegisterVariable),
        0x1007 | 0x1008 | 0x1020 | 0x1021 => Some(Form::Data),
        0x1009 => Some(Form::Public),
        0x100a | 0x100b => Some(Form::Procedure),
        0x100e | 0x100f => Some(Form::ThreadStorage),
        0x1013 => Some(Form::CompileFlags),
        0x1029 => Some(Form::UsingNamespace),
        0x0400 | 0x0403 => Some(Form::ProcedureReference),
        0x0401 => Some(Form::DataReference),
        0x0209 => Some(Form::Label),
        0x0207 => Some(Form::Block),
        0x0206 => Some(Form::Thunk),
        _ => None,
    }
}

// Kinds from 0x1100 to 0x1113.
#[inline(always)]
fn middle_form(kind: u16) -> Option<Form>
    ensures { result ≡ row_in middle_rows kind }
{
    match kind {
        0x1101 => Some(Form::ObjName),
        0x1106 => Some(Form::RegisterVariable),
        0x1107 => Some(Form::Constant),
        0x1108 | 0x1109 => Some(Form::UserDefinedType),
        0x110a => Some(Form::MultiRegisterVariable),
        0x110c | 0x110d => Some(Form::Data),
        0x110e => Some(Form::Public),
        0x110f | 0x1110 => Some(Form::Procedure),
        0x1112 | 0x1113 => Some(Form::ThreadStorage),
        0x1105 => Some(Form::Label),
        0x1103 => Some(Form::Block),
        0x1111 => Some(Form::RegisterRelative),
        0x1102 => Some(Form::Thunk),
        _ => None,
    }
}

// The others.
#[inline(always)]
fn newer_form(kind: u16) -> Option<Form>
    ensures { result ≡ row_in newer_rows kind }
{
    match kind {
        0x112d => Some(Form::Constant),
        0x1117 => Some(Form::MultiRegisterVariable),
        0x111c | 0x111d => Some(Form::Data),
        0x1146 | 0x1147 | 0x1155 | 0x1156 => Some(Form::Procedure),
        0x1116 | 0x113c => Some(Form::CompileFlags),
        0x1124 => Some(Form::UsingNamespace),
        0x1125 | 0x1127 => Some(Form::ProcedureReference),
        0x1126 => Some(Form::DataReference),
        0x1128 => Some(Form::AnnotationReference),
        0x112c => Some(Form::Trampoline),
        0x1138 => Some(Form::Export),
        0x113e => Some(Form::Local),
        0x114c => Some(Form::BuildInfo),
        0x114d | 0x115d => Some(Form::InlineSite),
        0x114e => Some(Form::InlineSiteEnd),
        0x114f => Some(Form::ProcedureEnd),
        0x1132 => Some(Form::SeparatedCode),
        _ => None,
    }
}

// The form of the records of a kind.
#[inline(always)]
pub(crate) fn form_of(kind: u16) -> Option<Form>
    ensures { result ≡ row kind }
{
    match kind {
        0..0x1100 => older_form(kind),
        0x1100..0x1114 => middle_form(kind),
        _ => newer_form(kind),
    }
}

//! What a record says, by its form.

ghost use Rattle.std.specs.Prelude.{◌≡◌, IfOk, IfErr};
ghost use Rattle.std.specs.Option.{option_map};
ghost use Rattle.pdb_base.specs.Text.{name_bytes};
ghost use Rattle.pdb_symbols.specs.Data.{shown, name_of, HasMemory};
ghost use Rattle.pdb_base.specs.declared.error.Error.{Error};

use crate::compilers::{
    BuildInfoSymbol, CompileFlagsSymbol, ExportSymbol, ObjNameSymbol, UsingNamespaceSymbol,
};
use crate::procedures::{
    BlockSymbol, InlineSiteSymbol, LabelSymbol, ProcedureSymbol, SeparatedCodeSymbol,
};
use crate::references::{AnnotationReferenceSymbol, DataReferenceSymbol, ProcedureReferenceSymbol};
use crate::registers::MultiRegisterVariableSymbol;
use crate::thunks::{ThunkSymbol, TrampolineSymbol};
use crate::variables::{
    ConstantSymbol, DataSymbol, LocalSymbol, PublicSymbol, RegisterRelativeSymbol,
    RegisterVariableSymbol, ThreadStorageSymbol, UserDefinedTypeSymbol,
};
use pdb_base::{RawString, Result};
use std::alloc::Global;

/// What a record says. Names and annotations borrow the record's bytes; a list of registers has memory of its own.
#[derive(Debug, Drop, Eq, PartialEq)]
pub enum SymbolData<'t> {
    /// The end of a scope: `S_END` (0x0006).
    ScopeEnd,
    /// The name of an object file.
    ObjName(ObjNameSymbol<'t>),
    /// A variable in a register.
    RegisterVariable(RegisterVariableSymbol<'t>),
    /// A constant.
    Constant(ConstantSymbol<'t>),
    /// A name for a type.
    UserDefinedType(UserDefinedTypeSymbol<'t>),
    /// A variable in several registers.
    MultiRegisterVariable(MultiRegisterVariableSymbol<'t>),
    /// Data at a fixed address.
    Data(DataSymbol<'t>),
    /// A symbol that other modules can see.
    Public(PublicSymbol<'t>),
    /// A procedure.
    Procedure(ProcedureSymbol<'t>),
    /// Data of which each thread has its own.
    ThreadStorage(ThreadStorageSymbol<'t>),
    /// How a module was compiled.
    CompileFlags(CompileFlagsSymbol<'t>),
    /// A namespace that is used.
    UsingNamespace(UsingNamespaceSymbol<'t>),
    /// A reference to a procedure of a module.
    ProcedureReference(ProcedureReferenceSymbol<'t>),
    /// A reference to data of a module.
    DataReference(DataReferenceSymbol<'t>),
    /// A reference to an annotation of a module.
    AnnotationReference(AnnotationReferenceSymbol<'t>),
    /// A jump that the linker made.
    Trampoline(TrampolineSymbol),
    /// A symbol that the image exports.
    Export(ExportSymbol<'t>),
    /// A local variable.
    Local(LocalSymbol<'t>),
    /// What a module was built with.
    BuildInfo(BuildInfoSymbol),
    /// An inlined call.
    InlineSite(InlineSiteSymbol<'t>),
    /// The end of an inlined call: `S_INLINESITE_END` (0x114e).
    InlineSiteEnd,
    /// The end of a procedure: `S_PROC_ID_END` (0x114f).
    ProcedureEnd,
    /// A label in code.
    Label(LabelSymbol<'t>),
    /// A block of a procedure.
    Block(BlockSymbol<'t>),
    /// A variable at an offset from a register's value.
    RegisterRelative(RegisterRelativeSymbol<'t>),
    /// A thunk.
    Thunk(ThunkSymbol<'t>),
    /// Code of a procedure that stands apart from it.
    SeparatedCode(SeparatedCodeSymbol),
}

impl<'t> SymbolData<'t> {
    /// The symbol's name. These have none: ends of scopes, variables in registers, what a compiler says of itself,
    /// trampolines, inlined calls, what a module was built with, separated code, and references in records of kinds
    /// below 0x1100.
    pub fn name(&self) -> Option<RawString<'t>>
        ensures { option_map name_bytes result ≡ name_of (shown self.now) }
    {
        match self {
            SymbolData::ScopeEnd => None,
            SymbolData::ObjName(symbol) => Some(symbol.name),
            SymbolData::RegisterVariable(_) => None,
            SymbolData::Constant(symbol) => Some(symbol.name),
            SymbolData::UserDefinedType(symbol) => Some(symbol.name),
            SymbolData::MultiRegisterVariable(_) => None,
            SymbolData::Data(symbol) => Some(symbol.name),
            SymbolData::Public(symbol) => Some(symbol.name),
            SymbolData::Procedure(symbol) => Some(symbol.name),
            SymbolData::ThreadStorage(symbol) => Some(symbol.name),
            SymbolData::CompileFlags(_) => None,
            SymbolData::UsingNamespace(symbol) => Some(symbol.name),
            SymbolData::ProcedureReference(symbol) => symbol.name,
            SymbolData::DataReference(symbol) => symbol.name,
            SymbolData::AnnotationReference(symbol) => Some(symbol.name),
            SymbolData::Trampoline(_) => None,
            SymbolData::Export(symbol) => Some(symbol.name),
            SymbolData::Local(symbol) => Some(symbol.name),
            SymbolData::BuildInfo(_) => None,
            SymbolData::InlineSite(_) => None,
            SymbolData::InlineSiteEnd => None,
            SymbolData::ProcedureEnd => None,
            SymbolData::Label(symbol) => Some(symbol.name),
            SymbolData::Block(symbol) => Some(symbol.name),
            SymbolData::RegisterRelative(symbol) => Some(symbol.name),
            SymbolData::Thunk(symbol) => Some(symbol.name),
            SymbolData::SeparatedCode(_) => None,
        }
    }

    /// The same value. A variable in several registers takes memory for its list and is `OutOfMemory` without it; the
    /// others take none.
    pub fn try_clone(&self, alloc: Global) -> Result<Self>
        ensures same { IfOk result (λ d. shown d ≡ shown self.now) }
        ensures memory { IfErr result (λ e. (e ≡ Error.OutOfMemory) × HasMemory (shown self.now)) }
    {
        Ok(match self {
            SymbolData::ScopeEnd => SymbolData::ScopeEnd,
            SymbolData::ObjName(symbol) => SymbolData::ObjName(*symbol),
            SymbolData::RegisterVariable(symbol) => SymbolData::RegisterVariable(*symbol),
            SymbolData::Constant(symbol) => SymbolData::Constant(*symbol),
            SymbolData::UserDefinedType(symbol) => SymbolData::UserDefinedType(*symbol),
            SymbolData::MultiRegisterVariable(symbol) => SymbolData::MultiRegisterVariable(
                symbol.try_clone(alloc)?,
            ),
            SymbolData::Data(symbol) => SymbolData::Data(*symbol),
            SymbolData::Public(symbol) => SymbolData::Public(*symbol),
            SymbolData::Procedure(symbol) => SymbolData::Procedure(*symbol),
            SymbolData::ThreadStorage(symbol) => SymbolData::ThreadStorage(*symbol),
            SymbolData::CompileFlags(symbol) => SymbolData::CompileFlags(*symbol),
            SymbolData::UsingNamespace(symbol) => SymbolData::UsingNamespace(*symbol),
            SymbolData::ProcedureReference(symbol) => SymbolData::ProcedureReference(*symbol),
            SymbolData::DataReference(symbol) => SymbolData::DataReference(*symbol),
            SymbolData::AnnotationReference(symbol) => SymbolData::AnnotationReference(*symbol),
            SymbolData::Trampoline(symbol) => SymbolData::Trampoline(*symbol),
            SymbolData::Export(symbol) => SymbolData::Export(*symbol),
            SymbolData::Local(symbol) => SymbolData::Local(*symbol),
            SymbolData::BuildInfo(symbol) => SymbolData::BuildInfo(*symbol),
            SymbolData::InlineSite(symbol) => SymbolData::InlineSite(*symbol),
            SymbolData::InlineSiteEnd => SymbolData::InlineSiteEnd,
            SymbolData::ProcedureEnd => SymbolData::ProcedureEnd,
            SymbolData::Label(symbol) => SymbolData::Label(*symbol),
            SymbolData::Block(symbol) => SymbolData::Block(*symbol),
            SymbolData::RegisterRelative(symbol) => SymbolData::RegisterRelative(*symbol),
            SymbolData::Thunk(symbol) => SymbolData::Thunk(*symbol),
            SymbolData::SeparatedCode(symbol) => SymbolData::SeparatedCode(*symbol),
        })
    }
}

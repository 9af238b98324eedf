//! The symbol records of Microsoft's program database (PDB) files: lists of records as they stand one after another
//! in a stream, and what each record says by its form.
#![tactic(auto)]

mod annotations;
mod compilers;
mod data;
mod fields;
mod flags;
mod form;
mod heading;
mod language;
pub mod laws;
mod parse;
mod procedures;
mod processor;
mod reading;
mod record;
mod references;
mod registers;
mod scopes;
mod spelling;
mod symbol;
mod table;
mod thunks;
mod variables;

pub use annotations::{BinaryAnnotation, BinaryAnnotations, BinaryAnnotationsIter};
pub use compilers::{
    BuildInfoSymbol, CompileFlagsSymbol, CompilerVersion, ExportSymbol, ObjNameSymbol,
    UsingNamespaceSymbol,
};
pub use data::SymbolData;
pub use flags::{
    CompileFlags, ExportSymbolFlags, LocalVariableFlags, ProcedureFlags, SeparatedCodeFlags,
};
pub use form::Form;
pub use heading::Heading;
pub use language::SourceLanguage;
pub use procedures::{
    BlockSymbol, InlineSiteSymbol, LabelSymbol, ProcedureSymbol, SeparatedCodeSymbol,
};
pub use processor::CPUType;
pub use references::{AnnotationReferenceSymbol, DataReferenceSymbol, ProcedureReferenceSymbol};
pub use registers::MultiRegisterVariableSymbol;
pub use symbol::{Symbol, SymbolKind};
pub use table::{SymbolIter, SymbolTable};
pub use thunks::{ThunkAdjustor, ThunkKind, ThunkSymbol, TrampolineSymbol, TrampolineType};
pub use variables::{
    ConstantSymbol, DataSymbol, LocalSymbol, PublicSymbol, RegisterRelativeSymbol,
    RegisterVariableSymbol, ThreadStorageSymbol, UserDefinedTypeSymbol,
};

//! Records that declare variables.

ghost use Rattle.std.specs.Prelude.{◌≡◌, IfOk, IfErr};
ghost use Rattle.std.specs.Option.{option_map};
ghost use Rattle.pdb.specs.Data.{shown};
ghost use Rattle.pdb.specs.Text.{name_bytes};
ghost use Rattle.pdb.specs.Views.{symbol_of};
ghost use Rattle.pdb_records.specs.RecordReading.{further_at};
ghost use Rattle.pdb_records.specs.RecordViews.{shown_record};
ghost use Rattle.pdb_variables.specs.VariableRecords.{declared_at, declared_by, declared_further, declared_if, declares, kind_of_local, kind_of_static};
ghost use Rattle.pdb_variables.specs.VariableViews.{shown_declared};

use crate::locations::Storage;
use pdb::{
    Error, PdbInternalSectionOffset, RawString, Result, Symbol, SymbolData, TypeIndex, Variant,
};
use pdb_records::Record;
use std::alloc::Global;

/// What a variable is.
#[derive(Clone, Copy, Debug, Eq, PartialEq)]
pub enum VariableKind {
    /// A parameter, by its flags.
    Parameter,
    /// A local variable. Records of compilers that know no flags have parameters as these.
    Local,
    /// A static variable, of the function or of its file.
    Static,
    /// A variable of each thread.
    Thread,
    /// A constant.
    Constant,
}

/// What a variable's record says of where it is.
#[derive(Clone, Copy)]
pub(crate) enum Held {
    /// In one storage, in all of its scope. Such a variable may be declared again by one with ranges.
    InOne(Storage),
    /// As the records of ranges behind it say; whether it is a parameter.
    ByRanges(bool),
    /// At an offset in a section.
    AtOffset(PdbInternalSectionOffset),
    /// It is a value.
    OfValue(Variant),
}

/// A variable as its record declares it.
#[derive(Clone, Copy)]
pub(crate) struct Declared<'t> {
    pub(crate) kind: VariableKind,
    pub(crate) type_index: TypeIndex,
    pub(crate) name: RawString<'t>,
    pub(crate) held: Held,
}

// A variable.
fn variable<'t>(
    kind: VariableKind,
    type_index: TypeIndex,
    name: RawString<'t>,
    held: Held,
) -> Option<Declared<'t>>
    ensures { option_map shown_declared result ≡ declares kind type_index (name_bytes name.entry) held }
{
    Some(Declared {
        kind,
        type_index,
        name,
        held,
    })
}

// What a local variable is, by its flag.
fn kind_of_local(parameter: bool) -> VariableKind
    ensures { result ≡ kind_of_local parameter }
{
    if parameter {
        VariableKind::Parameter
    } else {
        VariableKind::Local
    }
}

// What a static variable is, by its flag.
fn kind_of_static(parameter: bool) -> VariableKind
    ensures { result ≡ kind_of_static parameter }
{
    if parameter {
        VariableKind::Parameter
    } else {
        VariableKind::Static
    }
}

// The variable that a record declares; none for other records.
fn declared_by<'t>(parsed: &SymbolData<'t>) -> Option<Declared<'t>>
    ensures { option_map shown_declared result ≡ declared_by (shown parsed.now) }
{
    match parsed {
        SymbolData::Local(s) => {
            let parameter = s.flags.isparam;
            let kind = kind_of_local(parameter);
            variable(kind, s.type_index, s.name, Held::ByRanges(parameter))
        }
        SymbolData::RegisterRelative(s) => {
            let held = Held::InOne(Storage::RegisterRelative(s.register, s.offset));
            variable(VariableKind::Local, s.type_index, s.name, held)
        }
        SymbolData::RegisterVariable(s) => {
            let held = Held::InOne(Storage::Register(s.register));
            variable(VariableKind::Local, s.type_index, s.name, held)
        }
        SymbolData::Data(s) => {
            variable(
                VariableKind::Static,
                s.type_index,
                s.name,
                Held::AtOffset(s.offset),
            )
        }
        SymbolData::ThreadStorage(s) => {
            variable(
                VariableKind::Thread,
                s.type_index,
                s.name,
                Held::AtOffset(s.offset),
            )
        }
        SymbolData::Constant(s) => {
            variable(
                VariableKind::Constant,
                s.type_index,
                s.name,
                Held::OfValue(s.value),
            )
        }
        _ => None,
    }
}

// The same of a further record.
fn declared_further<'t>(parsed: &Record<'t>) -> Option<Declared<'t>>
    ensures { option_map shown_declared result ≡ declared_further (shown_record parsed.now) }
{
    match parsed {
        Record::FileStatic(s) => {
            let parameter = s.flags.param;
            let kind = kind_of_static(parameter);
            variable(kind, s.type_index, s.name, Held::ByRanges(parameter))
        }
        Record::BasePointerRelative(s) => {
            let held = Held::InOne(Storage::BasePointerRelative(s.offset));
            variable(VariableKind::Local, s.type_index, s.name, held)
        }
        Record::RegisterRelativeOld(s) => {
            let held = Held::InOne(Storage::RegisterRelative(s.register, s.offset));
            variable(VariableKind::Local, s.type_index, s.name, held)
        }
        _ => None,
    }
}

// The variable that a record declares which has none of the layouts of `pdb`.
fn declared_else<'t>(symbol: &Symbol<'t>) -> Option<Declared<'t>>
    ensures { option_map shown_declared result ≡ declared_if (further_at (symbol_of symbol.now).bytes) }
{
    match Record::parse(symbol) {
        Ok(parsed) => declared_further(&parsed),
        Err(_) => None,
    }
}

/// The variable that a symbol declares; none where it declares none, or can't be read. Out of memory is passed on.
pub(crate) fn declared_at<'t>(alloc: Global, symbol: &Symbol<'t>) -> Result<Option<Declared<'t>>>
    ensures is { IfOk result (λ d. option_map shown_declared d ≡ declared_at (symbol_of symbol.now)) }
    ensures refused { IfErr result (λ e. e ≡ Error.OutOfMemory) }
{
    match symbol.parse(alloc) {
        Ok(parsed) => Ok(declared_by(&parsed)),
        Err(Error::OutOfMemory) => Err(Error::OutOfMemory),
        Err(_) => Ok(declared_else(symbol)),
    }
}

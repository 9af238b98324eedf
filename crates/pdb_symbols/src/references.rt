//! References to what stands in a module's own symbols: the structs, and how they are read.

ghost use Rattle.std.specs.Prelude.{◌≡◌};
ghost use Rattle.pdb_base.specs.Refusal.{Answers};
ghost use Rattle.pdb_symbols.specs.Data.{shown};
ghost use Rattle.pdb_symbols.specs.FormTable.{read_of};
ghost use Rattle.pdb_symbols.specs.declared.form.Form.TheVariants as form;

use crate::data::SymbolData;
use crate::fields::{parse_module, parse_name, parse_optional_name};
use pdb_base::{ParseBuffer, RawString, Result, SymbolIndex};

/// A reference to a procedure of a module: `REFSYM2` of `cvinfo.h`, in records `S_PROCREF` (0x1125), `S_LPROCREF`
/// (0x1127), `S_PROCREF_ST` (0x0400) and `S_LPROCREF_ST` (0x0403).
#[derive(Clone, Copy, Debug, Eq, PartialEq)]
pub struct ProcedureReferenceSymbol<'t> {
    /// Whether the procedure is global: kinds 0x1125 and 0x0400.
    pub global: bool,
    /// The checksum of the name.
    pub sum_name: u32,
    /// The offset of the procedure's record in its module's stream.
    pub symbol_index: SymbolIndex,
    /// The module's number, counted from 0; the record counts from 1, and says 0 for none.
    pub module: Option<usize>,
    /// The procedure's name; kinds below 0x1100 have none.
    pub name: Option<RawString<'t>>,
}

/// A reference to data of a module: `REFSYM2` of `cvinfo.h`, in records `S_DATAREF` (0x1126) and `S_DATAREF_ST`
/// (0x0401).
#[derive(Clone, Copy, Debug, Eq, PartialEq)]
pub struct DataReferenceSymbol<'t> {
    /// The checksum of the name.
    pub sum_name: u32,
    /// The offset of the data's record in its module's stream.
    pub symbol_index: SymbolIndex,
    /// The module's number, counted from 0; the record counts from 1, and says 0 for none.
    pub module: Option<usize>,
    /// The data's name; kind 0x0401 has none.
    pub name: Option<RawString<'t>>,
}

/// A reference to an annotation of a module: `REFSYM2` of `cvinfo.h`, in records `S_ANNOTATIONREF` (0x1128).
#[derive(Clone, Copy, Debug, Eq, PartialEq)]
pub struct AnnotationReferenceSymbol<'t> {
    /// The checksum of the name.
    pub sum_name: u32,
    /// The offset of the annotation's record in its module's stream.
    pub symbol_index: SymbolIndex,
    /// The module's number, counted from 0; the record counts from 1, and says 0 for none.
    pub module: Option<usize>,
    /// The name.
    pub name: RawString<'t>,
}

#[inline]
#[tactic(auto, unfolding(crate::specs::FormTable::read_of))]
pub(crate) fn parse_procedure_reference<'t>(
    kind: u16,
    buffer: &mut ParseBuffer<'t>,
) -> Result<SymbolData<'t>>
    requires { buffer.old.place ≡ 2 }
    ensures { Answers shown result (read_of form.ProcedureReference kind buffer.old.bytes) }
{
    let sum_name = buffer.parse_u32()?;
    let symbol_index = SymbolIndex(buffer.parse_u32()?);
    let module = parse_module(buffer)?;
    let name = parse_optional_name(kind, buffer)?;
    Ok(SymbolData::ProcedureReference(ProcedureReferenceSymbol {
        global: matches!(kind, 0x1125 | 0x0400),
        sum_name,
        symbol_index,
        module,
        name,
    }))
}

#[inline]
#[tactic(auto, unfolding(crate::specs::FormTable::read_of))]
pub(crate) fn parse_data_reference<'t>(
    kind: u16,
    buffer: &mut ParseBuffer<'t>,
) -> Result<SymbolData<'t>>
    requires { buffer.old.place ≡ 2 }
    ensures { Answers shown result (read_of form.DataReference kind buffer.old.bytes) }
{
    let sum_name = buffer.parse_u32()?;
    let symbol_index = SymbolIndex(buffer.parse_u32()?);
    let module = parse_module(buffer)?;
    let name = parse_optional_name(kind, buffer)?;
    Ok(SymbolData::DataReference(DataReferenceSymbol {
        sum_name,
        symbol_index,
        module,
        name,
    }))
}

#[inline]
#[tactic(auto, unfolding(crate::specs::FormTable::read_of))]
pub(crate) fn parse_annotation_reference<'t>(
    kind: u16,
    buffer: &mut ParseBuffer<'t>,
) -> Result<SymbolData<'t>>
    requires { buffer.old.place ≡ 2 }
    ensures { Answers shown result (read_of form.AnnotationReference kind buffer.old.bytes) }
{
    let sum_name = buffer.parse_u32()?;
    let symbol_index = SymbolIndex(buffer.parse_u32()?);
    let module = parse_module(buffer)?;
    let name = parse_name(kind, buffer)?;
    Ok(SymbolData::AnnotationReference(AnnotationReferenceSymbol {
        sum_name,
        symbol_index,
        module,
        name,
    }))
}

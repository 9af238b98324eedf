//! The names at the ends of lines: those of types, and those of functions that are inlined.

ghost use Rattle.std.specs.Prelude.{◌≡◌, ◌++◌, Some, IfOk, OnOk};
ghost use Rattle.std.specs.Option.{option_map};
ghost use Rattle.pdb.specs.Data.{shown};
ghost use Rattle.pdb.specs.Qualified.{shown_qualified};
ghost use Rattle.pdb_resolve.specs.ImportTables.{ids_by};
ghost use Rattle.pdb_types.specs.FullTypes.{first_definition};
ghost use Rattle.tool_types.specs.LineNames.{call_end, declared_type, has_id, names_from, procedure_type, typed_end, typed_text};
ghost use Rattle.tool_types.specs.LineViews.{names_of_lines};

use crate::qualified_texts::put_behind_qualified;
use crate::type_names::put_type_name;
use pdb::{IdIndex, ItemFinder, QualifiedName, SymbolData, TypeIndex};
use pdb_resolve::{CallNames, GlobalIds};
use pdb_text::put_line_end;
use pdb_types::{TypeDefinitions, function_type};
use std::alloc::{AllocError, Global};

/// Whether a procedure of this kind has an id instead of its type: `S_LPROC32_ID`, `S_GPROC32_ID`,
/// `S_LPROC32_DPC_ID`.
fn has_id(kind: u16) -> bool
    ensures { result ≡ has_id kind }
{
    matches!(kind, 0x1146 | 0x1147 | 0x1156)
}

/// How many bytes are taken at first for the end of a line, which most ends are not longer than.
const END_BYTES: usize = 96;

/// How lines end behind what has the type of an index: with the name of the type behind a colon. How lines of the
/// inlined calls of an id end: with the name of the function and that of its type.
#[derive(Drop)]
pub struct LineEnd {
    /// The index, 0 for no type; or the id.
    pub index: u32,
    /// The end of the lines, line feed and all.
    pub text: Vec<u8>,
}

/// What the names at the ends of lines are found by.
#[derive(Clone, Copy)]
pub struct LineNames<'x, 'a> {
    calls: CallNames<'x, 'a>,
    ids: &'x ItemFinder<'a>,
    types: &'x ItemFinder<'a>,
    definitions: &'x TypeDefinitions<'a>,
    global: &'x GlobalIds<'x>,
}

impl<'x, 'a> LineNames<'x, 'a> {
    /// The names by ids, types, the definitions among these, and the ids that the whole file knows.
    pub fn new(
        ids: &'x ItemFinder<'a>,
        types: &'x ItemFinder<'a>,
        definitions: &'x TypeDefinitions<'a>,
        global: &'x GlobalIds<'x>,
    ) -> Self
        ensures { names_of_lines result ≡ names_from ids.entry.now types.entry.now (first_definition definitions.entry.now) (ids_by global.entry.now) }
    {
        let calls = CallNames::new(ids, types, global);
        LineNames {
            calls,
            ids,
            types,
            definitions,
            global,
        }
    }

    /// The name of the function of an inlined call, by the id of the call.
    pub fn called(&self, id: IdIndex) -> Option<QualifiedName<'a>>
        ensures { option_map shown_qualified result ≡ (names_of_lines self.now).called id.0 }
    {
        self.calls.find(id)
    }

    // The type of a function, by its id.
    fn function_type(&self, id: u32) -> Option<TypeIndex>
        ensures { result ≡ (names_of_lines self.now).function_type id }
    {
        let item = self.ids.find(id)?;
        function_type(&item)
    }

    // The type of the function of an inlined call, by the id of the call.
    fn called_type(&self, id: IdIndex) -> Option<TypeIndex>
        ensures { result ≡ (names_of_lines self.now).called_type id.0 }
    {
        let id = self.global.find(id)?;
        self.function_type(id.0)
    }

    // The type of a procedure of a kind, by the index that stands instead of its type.
    fn procedure_type(&self, kind: u16, index: TypeIndex) -> Option<TypeIndex>
        ensures { result ≡ procedure_type (names_of_lines self.now) kind index }
    {
        if has_id(kind) {
            self.function_type(index.0)
        } else {
            Some(index)
        }
    }

    /// The type of what a record of a kind declares.
    pub fn declared_type(&self, kind: u16, parsed: &SymbolData<'_>) -> Option<TypeIndex>
        ensures { result ≡ declared_type (names_of_lines self.now) kind (shown parsed.now) }
    {
        match parsed {
            SymbolData::Procedure(s) => self.procedure_type(kind, s.type_index),
            SymbolData::Data(s) => Some(s.type_index),
            SymbolData::ThreadStorage(s) => Some(s.type_index),
            SymbolData::Local(s) => Some(s.type_index),
            SymbolData::RegisterVariable(s) => Some(s.type_index),
            SymbolData::RegisterRelative(s) => Some(s.type_index),
            SymbolData::Constant(s) => Some(s.type_index),
            SymbolData::UserDefinedType(s) => Some(s.type_index),
            SymbolData::MultiRegisterVariable(s) => Some(s.type_index),
            SymbolData::InlineSite(s) => self.called_type(s.inlinee),
            _ => None,
        }
    }

    /// The name of the type of what a record of a kind declares, behind a colon.
    pub fn put_declared(
        &self,
        out: &mut Vec<u8>,
        kind: u16,
        parsed: &SymbolData<'_>,
    ) -> Result<(), AllocError>
        ensures { OnOk result (out.new.items ≡ out.old.items ++ typed_text (names_of_lines self.now) (declared_type (names_of_lines self.now) kind (shown parsed.now))) }
    {
        self.put_type(out, self.declared_type(kind, parsed))
    }

    /// The end of lines behind what has the type of an index; index 0 is no type.
    pub fn end(&self, alloc: Global, index: u32) -> Result<LineEnd, AllocError>
        ensures index { IfOk result (λ end. end.index ≡ index) }
        ensures text { IfOk result (λ end. end.text.items ≡ typed_end (names_of_lines self.now) (Some (record { 0 = index }))) }
    {
        let mut text = Vec::with_capacity(alloc, END_BYTES)?;
        self.put_type(&mut text, Some(TypeIndex(index)))?;
        put_line_end(&mut text)?;
        Ok(LineEnd { index, text })
    }

    /// The end of lines of inlined calls of an id: the name of the function, and that of its type.
    #[tactic(auto, unfolding(crate::specs::LineNames::call_end))]
    pub fn call_end(&self, alloc: Global, id: u32) -> Result<LineEnd, AllocError>
        ensures id { IfOk result (λ end. end.index ≡ id) }
        ensures text { IfOk result (λ end. end.text.items ≡ call_end (names_of_lines self.now) id) }
    {
        let mut text = Vec::with_capacity(alloc, END_BYTES)?;
        put_behind_qualified(&mut text, self.called(IdIndex(id)))?;
        self.put_type(&mut text, self.called_type(IdIndex(id)))?;
        put_line_end(&mut text)?;
        Ok(LineEnd { index: id, text })
    }

    // The name of a type behind a colon, where the index is that of a type.
    #[tactic(auto, unfolding(crate::specs::LineNames::typed_text))]
    fn put_type(&self, out: &mut Vec<u8>, index: Option<TypeIndex>) -> Result<(), AllocError>
        ensures { OnOk result (out.new.items ≡ out.old.items ++ typed_text (names_of_lines self.now) index) }
    {
        match index {
            Some(TypeIndex(0)) | None => Ok(()),
            Some(index) => {
                out.extend_from_slice(b": ")?;
                put_type_name(self.types, self.definitions, out, index)
            }
        }
    }
}

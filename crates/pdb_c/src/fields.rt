//! What a record says, in numbers.

ghost use Rattle.std.specs.Prelude.{◌≡◌, Some, None};
ghost use Rattle.pdb.specs.Data.{shown};
ghost use Rattle.pdb_c.specs.Symbols.{form_number, numbers_of, index_or_none, annotations_of};

use pdb::{IdIndex, PdbInternalSectionOffset, SymbolData, SymbolIndex};

/// The number of a form, from 1.
pub fn form_number(said: &SymbolData<'_>) -> u8
    ensures { result ≡ form_number (shown said.now) }
{
    match said {
        SymbolData::ScopeEnd => 1,
        SymbolData::ObjName(_) => 2,
        SymbolData::RegisterVariable(_) => 3,
        SymbolData::Constant(_) => 4,
        SymbolData::UserDefinedType(_) => 5,
        SymbolData::MultiRegisterVariable(_) => 6,
        SymbolData::Data(_) => 7,
        SymbolData::Public(_) => 8,
        SymbolData::Procedure(_) => 9,
        SymbolData::ThreadStorage(_) => 10,
        SymbolData::CompileFlags(_) => 11,
        SymbolData::UsingNamespace(_) => 12,
        SymbolData::ProcedureReference(_) => 13,
        SymbolData::DataReference(_) => 14,
        SymbolData::AnnotationReference(_) => 15,
        SymbolData::Trampoline(_) => 16,
        SymbolData::Export(_) => 17,
        SymbolData::Local(_) => 18,
        SymbolData::BuildInfo(_) => 19,
        SymbolData::InlineSite(_) => 20,
        SymbolData::InlineSiteEnd => 21,
        SymbolData::ProcedureEnd => 22,
        SymbolData::Label(_) => 23,
        SymbolData::Block(_) => 24,
        SymbolData::RegisterRelative(_) => 25,
        SymbolData::Thunk(_) => 26,
        SymbolData::SeparatedCode(_) => 27,
    }
}

/// What a record says in numbers; 0 for each that it doesn't say.
#[derive(Clone, Copy)]
pub struct Numbers {
    /// The `section:offset` of what the record is about, where it has one.
    pub place: Option<PdbInternalSectionOffset>,
    /// How many bytes of code it is.
    pub code_size: u32,
    /// The type's index.
    pub type_index: u32,
    /// The symbol in whose scope it stands.
    pub parent: u32,
    /// The symbol that ends its scope.
    pub end: u32,
    /// The id of the function that was inlined.
    pub inlinee: u32,
}

/// A type, and nothing else.
#[inline(always)]
fn typed(type_index: u32) -> Numbers
    ensures { result ≡ record { place = None; code_size = 0; type_index = type_index; parent = 0; end = 0; inlinee = 0 } }
{
    Numbers {
        place: None,
        code_size: 0,
        type_index,
        parent: 0,
        end: 0,
        inlinee: 0,
    }
}

/// A `section:offset`, and the type of what stands there.
#[inline(always)]
fn placed(place: PdbInternalSectionOffset, type_index: u32) -> Numbers
    ensures { result ≡ record { place = Some place; code_size = 0; type_index = type_index; parent = 0; end = 0; inlinee = 0 } }
{
    Numbers {
        place: Some(place),
        ..typed(type_index)
    }
}

/// Code at a `section:offset`, which is a scope of its own.
#[inline(always)]
fn code(
    place: PdbInternalSectionOffset,
    code_size: u32,
    type_index: u32,
    parent: u32,
    end: u32,
) -> Numbers
    ensures { result ≡ record { place = Some place; code_size = code_size; type_index = type_index; parent = parent; end = end; inlinee = 0 } }
{
    Numbers {
        place: Some(place),
        code_size,
        type_index,
        parent,
        end,
        inlinee: 0,
    }
}

fn index_or_none(index: Option<SymbolIndex>) -> u32
    ensures { result ≡ index_or_none index }
{
    match index {
        Some(index) => index.0,
        None => 0,
    }
}

/// The numbers of an inlined call.
#[inline(always)]
fn inlined(parent: Option<SymbolIndex>, end: SymbolIndex, inlinee: IdIndex) -> Numbers
    ensures { result ≡ record { place = None; code_size = 0; type_index = 0; parent = index_or_none parent; end = end.0; inlinee = inlinee.0 } }
{
    Numbers {
        place: None,
        code_size: 0,
        type_index: 0,
        parent: index_or_none(parent),
        end: end.0,
        inlinee: inlinee.0,
    }
}

/// What a record says in numbers.
#[inline(always)]
pub fn numbers_of(said: &SymbolData<'_>) -> Numbers
    ensures { result ≡ numbers_of (shown said.now) }
{
    match said {
        SymbolData::RegisterVariable(it) => typed(it.type_index.0),
        SymbolData::Constant(it) => typed(it.type_index.0),
        SymbolData::UserDefinedType(it) => typed(it.type_index.0),
        SymbolData::MultiRegisterVariable(it) => typed(it.type_index.0),
        SymbolData::Local(it) => typed(it.type_index.0),
        SymbolData::RegisterRelative(it) => typed(it.type_index.0),
        SymbolData::Data(it) => placed(it.offset, it.type_index.0),
        SymbolData::ThreadStorage(it) => placed(it.offset, it.type_index.0),
        SymbolData::Public(it) => placed(it.offset, 0),
        SymbolData::Label(it) => placed(it.offset, 0),
        SymbolData::Procedure(it) => code(
            it.offset,
            it.len,
            it.type_index.0,
            index_or_none(it.parent),
            it.end.0,
        ),
        SymbolData::Block(it) => code(it.offset, it.len, 0, it.parent.0, it.end.0),
        SymbolData::Thunk(it) => code(
            it.offset,
            u32::from(it.len),
            0,
            index_or_none(it.parent),
            it.end.0,
        ),
        SymbolData::SeparatedCode(it) => code(it.offset, it.len, 0, it.parent.0, it.end.0),
        SymbolData::InlineSite(it) => inlined(it.parent, it.end, it.inlinee),
        _ => typed(0),
    }
}

/// The annotations of an inlined call; none of another record.
pub fn annotations_of<'a>(said: &SymbolData<'a>) -> &'a [u8]
    ensures { result.now ≡ annotations_of (shown said.now) }
{
    match said {
        SymbolData::InlineSite(symbol) => symbol.annotations.as_bytes(),
        _ => &[],
    }
}

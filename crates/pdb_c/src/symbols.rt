//! Symbols, as many as there is capacity for in one call.

ghost use Rattle.std.specs.Prelude.{◌≡◌, ◌+◌, ◌≤◌, ◌<◌, ◌⊎◌, ℕ, List, length, IsTrue, None, Ok, Err, IfOk, IfSome};
ghost use Rattle.pdb.specs.Error.{Error};
ghost use Rattle.pdb.specs.Refusal.{Answers, number_of};
ghost use Rattle.pdb.specs.Data.{shown as says, name_of};
ghost use Rattle.pdb.specs.Forms.{record_at, kind_at};
ghost use Rattle.pdb.specs.Scopes.{starts_of, ends_of};
ghost use Rattle.pdb.specs.SymbolList.{symbols_from};
ghost use Rattle.pdb.specs.Views.{symbol_of, symbols_left, symbols_bytes, symbols_place};
ghost use Rattle.pdb.specs.ModuleStream.{checked_part, symbols_part_of};
ghost use Rattle.pdb_c.specs.Symbols.{symbol_entry, form_number, numbers_of, annotations_of, one_if, flag_of, bytes_or_none, offset_or_zero, section_or_zero, takes_memory, SaysData, SaysNothing, SaysItself, Given, symbols_alone};

use crate::answers::{DONE, END, LARGE, OUT_OF_MEMORY, code_of};
use crate::fields::{annotations_of, form_number, numbers_of};
use pdb::{
    Error, FallibleIterator, Feature, ParseBuffer, PdbInternalSectionOffset, Result, Symbol,
    SymbolData, SymbolIndex, SymbolIter,
};
use pdb_base::part::part_of;
use std::alloc::Global;

/// A symbol. A field that the record doesn't have is 0 or empty, and so is each where the record has an error. The
/// record, the name and the annotations borrow the stream.
#[repr(C)]
#[derive(Clone, Copy)]
pub struct PdbSymbol<'a> {
    /// The record with its kind, without its length.
    pub record_bytes: &'a [u8],
    /// The name, where it has one.
    pub name: &'a [u8],
    /// The annotations of an inlined call.
    pub annotations: &'a [u8],
    /// Where the record stands.
    pub index: u32,
    /// The symbol in whose scope it stands, or 0.
    pub parent: u32,
    /// The symbol that ends its scope, or 0.
    pub end: u32,
    /// Where in its section what it is about stands.
    pub offset: u32,
    /// How many bytes of code it is, or 0.
    pub code_size: u32,
    /// Its type, or 0.
    pub type_index: u32,
    /// The id of the function that was inlined, or 0.
    pub inlinee: u32,
    /// The section in which it stands.
    pub section: u16,
    /// The record's kind.
    pub kind: u16,
    /// The number of its form, from 1 to 27.
    pub form: u8,
    /// 0, or why the record can't be read.
    pub refused: u8,
    /// 1 where it has a name.
    pub has_name: u8,
    /// 1 where it has a `section:offset`.
    pub has_place: u8,
    /// 1 where records of its kind start a scope.
    pub starts_scope: u8,
    /// 1 where records of its kind end a scope.
    pub ends_scope: u8,
}

fn one_if(holds: bool) -> u8
    ensures { result ≡ one_if holds }
{
    if holds { 1 } else { 0 }
}

/// The row of a record that has this error: it says nothing else.
fn bare<'a>(symbol: &Symbol<'a>, refused: u8) -> PdbSymbol<'a>
    ensures entry { symbol_entry result ≡ symbol_of symbol.now }
    ensures kind { result.kind ≡ kind_at (symbol_of symbol.now).bytes }
    ensures refused { result.refused ≡ refused }
    ensures nothing { SaysNothing result }
    ensures starts { result.starts_scope ≡ one_if (starts_of (kind_at (symbol_of symbol.now).bytes)) }
    ensures ends { result.ends_scope ≡ one_if (ends_of (kind_at (symbol_of symbol.now).bytes)) }
{
    PdbSymbol {
        record_bytes: symbol.raw_bytes(),
        name: &[],
        annotations: &[],
        index: symbol.index().0,
        parent: 0,
        end: 0,
        offset: 0,
        code_size: 0,
        type_index: 0,
        inlinee: 0,
        section: 0,
        kind: symbol.raw_kind(),
        form: 0,
        refused,
        has_name: 0,
        has_place: 0,
        starts_scope: one_if(symbol.starts_scope()),
        ends_scope: one_if(symbol.ends_scope()),
    }
}

/// The name that a record says, and 1 where it says one.
fn name_told<'a>(said: &SymbolData<'a>) -> (&'a [u8], u8)
    ensures name { result.0.now ≡ bytes_or_none (name_of (says said.now)) }
    ensures flag { result.1 ≡ flag_of (name_of (says said.now)) }
{
    match said.name() {
        Some(name) => (name.as_bytes(), 1),
        None => (&[], 0),
    }
}

/// The `section:offset`, and 1 where there is one.
#[inline(always)]
fn place_told(place: Option<PdbInternalSectionOffset>) -> (PdbInternalSectionOffset, u8)
    ensures offset { result.0.offset ≡ offset_or_zero place }
    ensures section { result.0.section ≡ section_or_zero place }
    ensures flag { result.1 ≡ flag_of place }
{
    match place {
        Some(place) => (place, 1),
        None => (PdbInternalSectionOffset::new(0, 0), 0),
    }
}

/// The row of a record that says this.
#[inline(always)]
fn row_of<'a>(symbol: &Symbol<'a>, said: &SymbolData<'a>) -> PdbSymbol<'a>
    ensures entry { symbol_entry result ≡ symbol_of symbol.now }
    ensures kind { result.kind ≡ kind_at (symbol_of symbol.now).bytes }
    ensures refused { result.refused ≡ 0 }
    ensures starts { result.starts_scope ≡ one_if (starts_of (kind_at (symbol_of symbol.now).bytes)) }
    ensures ends { result.ends_scope ≡ one_if (ends_of (kind_at (symbol_of symbol.now).bytes)) }
    ensures says { SaysData result (says said.now) }
{
    let (name, has_name) = name_told(said);
    let numbers = numbers_of(said);
    let (place, has_place) = place_told(numbers.place);
    PdbSymbol {
        record_bytes: symbol.raw_bytes(),
        name,
        annotations: annotations_of(said),
        index: symbol.index().0,
        parent: numbers.parent,
        end: numbers.end,
        offset: place.offset,
        code_size: numbers.code_size,
        type_index: numbers.type_index,
        inlinee: numbers.inlinee,
        section: place.section,
        kind: symbol.raw_kind(),
        form: form_number(said),
        refused: 0,
        has_name,
        has_place,
        starts_scope: one_if(symbol.starts_scope()),
        ends_scope: one_if(symbol.ends_scope()),
    }
}

/// The row of a symbol; none where it is out of memory.
#[tactic(auto, using(crate::proofs::Records::says_read, crate::proofs::Records::says_refused))]
fn shown<'a>(alloc: Global, symbol: &Symbol<'a>) -> Option<PdbSymbol<'a>>
    ensures entry { IfSome result (λ y. symbol_entry y ≡ symbol_of symbol.now) }
    ensures says { IfSome result SaysItself }
    ensures memory { result ≡ None → IsTrue (takes_memory (kind_at (symbol_of symbol.now).bytes)) }
{
    match symbol.parse(alloc) {
        Ok(said) => Some(row_of(symbol, &said)),
        Err(Error::OutOfMemory) => None,
        Err(e) => Some(bare(symbol, e.number())),
    }
}

/// The offset behind a record; `u32::MAX` where no offset is as great.
fn behind(symbol: &Symbol<'_>) -> u32
    ensures { (symbol_of symbol.now).index + 2 + length (symbol_of symbol.now).bytes ≤ 4294967295 → result ≡ (symbol_of symbol.now).index + 2 + length (symbol_of symbol.now).bytes }
{
    let size = symbol.raw_bytes().len();
    let index = symbol.index().0;
    if size > 4294967293 || (size + 2) as u32 > u32::MAX - index {
        return u32::MAX;
    }
    index + (size + 2) as u32
}

/// Fills the records with the symbols that are left; `at` is then where the next is read.
fn fill<'a>(
    alloc: Global,
    mut symbols: SymbolIter<'a>,
    at: &mut u32,
    records: &mut [PdbSymbol<'a>],
    count: &mut usize,
) -> u32
    requires small { length (symbols_bytes symbols) ≤ 4294967295 }
    requires starts { symbols_left symbols ≡ symbols_from (symbols_bytes symbols) at.old }
    ensures given { Given result records.old records.new count.new (symbols_left symbols.entry) (symbols_from (symbols_bytes symbols.entry) at.new) }
    ensures room { count.new ≤ length records.new }
{
    *count = 0;
    while *count < records.len() {
        match symbols.next() {
            Ok(Some(symbol)) => {
                let Some(row) = shown(alloc, &symbol) else {
                    return OUT_OF_MEMORY;
                };
                records[*count] = row;
                *count += 1;
                *at = behind(&symbol);
            }
            Ok(None) => {
                *at = u32::MAX;
                return END;
            }
            Err(e) => {
                *at = u32::MAX;
                return code_of(e);
            }
        }
    }
    DONE
}

/// A symbols part, which begins with its number where it isn't empty.
fn checked_part(part: &[u8]) -> Result<&[u8]>
    ensures part { Answers (λ s. s.now) result (checked_part part.entry.now) }
    ensures same { IfOk result (λ s. s.now ≡ part.entry.now) }
{
    if part.is_empty() {
        return Ok(part);
    }
    if ParseBuffer::from(part).parse_u32()? != 4 {
        return Err(Error::UnimplementedFeature(Feature::SymbolDataFormat));
    }
    Ok(part)
}

/// The symbols part of a module's stream.
#[tactic(auto, unfolding(pdb_modules::specs::ModuleStream::symbols_part_of))]
fn symbols_part(stream: &[u8], symbols_size: u32) -> Result<&[u8]>
    ensures part { Answers (λ s. s.now) result (symbols_part_of (symbols_alone stream.entry.now symbols_size)) }
    ensures fits { IfOk result (λ s. length s.now ≤ length stream.entry.now) }
{
    checked_part(part_of(stream, 0, symbols_size as usize)?)
}

/// The symbols of bytes from an offset on.
fn fill_from<'a>(
    alloc: Global,
    bytes: &'a [u8],
    at: &mut u32,
    records: &mut [PdbSymbol<'a>],
    count: &mut usize,
) -> u32
    requires { length bytes.now ≤ 4294967295 }
    ensures given { Given result records.old records.new count.new (symbols_from bytes.now at.old) (symbols_from bytes.now at.new) }
    ensures room { count.new ≤ length records.new }
{
    let mut symbols = SymbolIter::new(ParseBuffer::from(bytes));
    symbols.seek(SymbolIndex(*at));
    fill(alloc, symbols, at, records, count)
}

/// The symbols of a module's stream from the offset `at` on, as many as the buffer has rows; `at` is then where the
/// next is read. The first is at 4. Where the symbols part has an error, `at` stays.
#[unsafe(no_mangle)]
pub extern "C" fn pdb_symbols<'a>(
    alloc: Global,
    stream: &'a [u8],
    symbols_size: u32,
    at: &mut u32,
    records: &mut [PdbSymbol<'a>],
    count: &mut usize,
) -> u32
    ensures room { count.new ≤ length records.new }
    ensures large { 4294967295 ≤ length stream.now → (result ≡ 32) × (at.new ≡ at.old) × (records.new ≡ records.old) × (count.new ≡ 0) }
    ensures given { length stream.now < 4294967295 → (part : List ℕ) → symbols_part_of (symbols_alone stream.now symbols_size) ≡ Ok part → Given result records.old records.new count.new (symbols_from part at.old) (symbols_from part at.new) }
    ensures refused { length stream.now < 4294967295 → (e : Error) → symbols_part_of (symbols_alone stream.now symbols_size) ≡ Err e → (result ≡ number_of e) × (at.new ≡ at.old) × (records.new ≡ records.old) × (count.new ≡ 0) }
{
    *count = 0;
    if stream.len() >= 4294967295 {
        return LARGE;
    }
    match symbols_part(stream, symbols_size) {
        Ok(part) => fill_from(alloc, part, at, records, count),
        Err(e) => code_of(e),
    }
}

/// The symbols of the stream of global symbols from the offset `at` on, as many as the buffer has rows; `at` is then
/// where the next is read. The first is at 0.
#[unsafe(no_mangle)]
pub extern "C" fn pdb_global_symbols<'a>(
    alloc: Global,
    stream: &'a [u8],
    at: &mut u32,
    records: &mut [PdbSymbol<'a>],
    count: &mut usize,
) -> u32
    ensures room { count.new ≤ length records.new }
    ensures large { 4294967295 ≤ length stream.now → (result ≡ 32) × (at.new ≡ at.old) × (records.new ≡ records.old) × (count.new ≡ 0) }
    ensures given { length stream.now < 4294967295 → Given result records.old records.new count.new (symbols_from stream.now at.old) (symbols_from stream.now at.new) }
{
    *count = 0;
    if stream.len() < 4294967295 {
        fill_from(alloc, stream, at, records, count)
    } else {
        LARGE
    }
}

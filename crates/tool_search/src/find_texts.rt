//! The text of `find`.

ghost use Rattle.std.specs.Prelude.{◌≡◌, ◌++◌, ◌<◌, OnOk, Ok, Some, None, [], find};
ghost use Rattle.std.specs.Option.{option_map, option_or, unwrap_or};
ghost use Rattle.pdb.specs.Data.{shown};
ghost use Rattle.pdb.specs.Forms.{record_at};
ghost use Rattle.pdb.specs.AnnotationViews.{annotation_bytes};
ghost use Rattle.pdb.specs.InlinedViews.{inlined_left};
ghost use Rattle.pdb.specs.Inlinees.{inlinee_with};
ghost use Rattle.pdb.specs.SymbolList.{symbols_from};
ghost use Rattle.pdb.specs.Text.{name_bytes};
ghost use Rattle.pdb.specs.Views.{symbol_of, symbols_left};
ghost use Rattle.pdb_resolve.specs.CallViews.{names_of_calls};
ghost use Rattle.pdb_symbols.specs.Kinds.{is_in};
ghost use Rattle.tool_search.specs.FindTexts.{find_text, global_kinds, global_line, global_lines, has_bytes, inlined_at, more_than_none, parent_said, site_records, symbol_line, symbols_left_text};
ghost use Rattle.tool_search.specs.Finders.{parent_view};
ghost use Rattle.tool_search.specs.PlacedRecords.{data_placed, placed_at, public_placed};

use crate::finder::{Finder, put_qualified};
use crate::inlined_errors::put_inlined_error;
use crate::placed_records::placed_in;
use crate::public_texts::put_public;
use pdb::{
    Error, FallibleIterator, InlineSiteSymbol, InlineeFinder, InlineeLineIterator, LineInfo,
    ModuleInfo, PdbInternalSectionOffset, Symbol, SymbolData, SymbolIter, SymbolTable,
};
use pdb_resolve::{CallNames, read_known};
use std::alloc::{AllocError, Global};
use tool_output::error_objects::put_error_in;
use tool_output::module_errors::{put_error_of, put_refusal_of};

/// The line of what a global symbol says, where it has one.
fn put_global_says(
    out: &mut Vec<u8>,
    finder: &Finder<'_, '_>,
    x86: bool,
    parsed: &SymbolData<'_>,
    spells: &mut Vec<u8>,
) -> Result<(), AllocError>
    ensures { OnOk result (out.new.items ≡ out.old.items ++ global_line x86 finder.now (Ok (shown parsed.now))) }
{
    match parsed {
        SymbolData::Public(s) => {
            put_public(out, finder, x86, s.offset, s.name.as_bytes(), spells)
        }
        SymbolData::Data(s) if s.global => {
            finder.put_if_asked(out, b"data", s.offset, None, s.name.as_bytes())
        }
        SymbolData::ThreadStorage(s) if s.global => {
            finder.put_if_asked(out, b"thread", s.offset, None, s.name.as_bytes())
        }
        _ => Ok(()),
    }
}

/// Whether records of a kind may be global symbols that have a line. A program has as many constants, types and
/// references beside them, whose records needn't be read.
#[inline(always)]
fn may_have_line(kind: u16) -> bool
    ensures { result ≡ is_in global_kinds kind }
{
    matches!(
        kind,
        0x110e
            | 0x110d
            | 0x110c
            | 0x1113
            | 0x1112
            | 0x111d
            | 0x111c
            | 0x1009
            | 0x1007
            | 0x1008
            | 0x1020
            | 0x1021
            | 0x100e
            | 0x100f
    )
}

/// The line of a global symbol by all that its record says, where it has one; out of memory is passed on.
#[inline(never)]
fn put_global_parsed(
    alloc: Global,
    out: &mut Vec<u8>,
    finder: &Finder<'_, '_>,
    x86: bool,
    symbol: &Symbol<'_>,
    spells: &mut Vec<u8>,
) -> Result<(), AllocError>
    ensures { OnOk result (out.new.items ≡ out.old.items ++ global_line x86 finder.now (record_at (symbol_of symbol.now).bytes)) }
{
    match symbol.parse(alloc) {
        Ok(parsed) => put_global_says(out, finder, x86, &parsed, spells),
        Err(Error::OutOfMemory) => Err(AllocError),
        Err(_) => Ok(()),
    }
}

/// The line of a record of a public symbol (kind 0x110e), where it has one.
#[inline(always)]
fn put_public_record(
    out: &mut Vec<u8>,
    finder: &Finder<'_, '_>,
    x86: bool,
    bytes: &[u8],
    spells: &mut Vec<u8>,
) -> Result<(), AllocError>
    ensures { OnOk result (out.new.items ≡ out.old.items ++ public_placed x86 finder.now (placed_at bytes.now)) }
{
    match placed_in(bytes) {
        Some((place, name)) => put_public(out, finder, x86, place, name, spells),
        None => Ok(()),
    }
}

/// The line of a record of global data (kind 0x110d, or 0x1113 of a thread), where it has one.
#[inline(always)]
fn put_data_record(
    out: &mut Vec<u8>,
    finder: &Finder<'_, '_>,
    kind: &[u8],
    bytes: &[u8],
) -> Result<(), AllocError>
    ensures { OnOk result (out.new.items ≡ out.old.items ++ data_placed kind.now finder.now (placed_at bytes.now)) }
{
    match placed_in(bytes) {
        Some((place, name)) => finder.put_if_asked(out, kind, place, None, name),
        None => Ok(()),
    }
}

/// The line of a global symbol, where it has one; out of memory is passed on. Most that have one are of three kinds, of
/// which no more is read than the line has.
#[inline(always)]
fn put_global(
    alloc: Global,
    out: &mut Vec<u8>,
    finder: &Finder<'_, '_>,
    x86: bool,
    symbol: &Symbol<'_>,
    spells: &mut Vec<u8>,
) -> Result<(), AllocError>
    ensures { OnOk result (out.new.items ≡ out.old.items ++ global_line x86 finder.now (record_at (symbol_of symbol.now).bytes)) }
{
    let kind = symbol.raw_kind();
    if !may_have_line(kind) {
        return Ok(());
    }
    match kind {
        0x110e => put_public_record(out, finder, x86, symbol.raw_bytes(), spells),
        0x110d => put_data_record(out, finder, b"data", symbol.raw_bytes()),
        0x1113 => put_data_record(out, finder, b"thread", symbol.raw_bytes()),
        _ => put_global_parsed(alloc, out, finder, x86, symbol, spells),
    }
}

/// The lines of the global symbols that an iterator has left, and then that of its fault.
fn put_globals_left(
    alloc: Global,
    out: &mut Vec<u8>,
    finder: &Finder<'_, '_>,
    x86: bool,
    mut symbols: SymbolIter<'_>,
) -> Result<(), AllocError>
    ensures { OnOk result (out.new.items ≡ out.old.items ++ global_lines x86 finder.now (symbols_left symbols.entry)) }
{
    let mut spells = Vec::new(alloc);
    loop {
        match symbols.next() {
            Ok(Some(symbol)) => put_global(alloc, out, finder, x86, &symbol, &mut spells)?,
            Ok(None) => return Ok(()),
            Err(e) => return put_error_in(out, finder.format, e),
        }
    }
}

/// The lines of the global symbols that are asked for, and then that of their fault.
pub fn put_found_globals(
    alloc: Global,
    out: &mut Vec<u8>,
    finder: &Finder<'_, '_>,
    x86: bool,
    symbols: &SymbolTable<'_>,
) -> Result<(), AllocError>
    ensures { OnOk result (out.new.items ≡ out.old.items ++ global_lines x86 finder.now (symbols_from symbols.now 0)) }
{
    put_globals_left(alloc, out, finder, x86, symbols.iter())
}

/// The procedure around a site: where it begins, and the index of the symbol that ends its scope.
#[derive(Clone, Copy)]
pub struct Parent {
    place: PdbInternalSectionOffset,
    end: u32,
}

/// Whether a record has bytes.
pub fn has_bytes(line: &LineInfo) -> bool
    ensures { result ≡ has_bytes line.now }
{
    match line.length {
        Some(length) => 0 < length,
        None => false,
    }
}

/// The first record that has bytes, of those that an iterator has left.
fn first_with_bytes(mut lines: InlineeLineIterator<'_>) -> Option<LineInfo>
    ensures { result ≡ find has_bytes (inlined_left lines.entry).items }
{
    loop {
        match lines.next() {
            Ok(Some(line)) => {
                if has_bytes(&line) {
                    return Some(line);
                }
            }
            Ok(None) => return None,
            Err(_) => return None,
        }
    }
}

/// The records of a site, in the last procedure before it; none where its scope doesn't reach the site.
pub fn site_records<'a>(
    known: &InlineeFinder<'a>,
    parent: Option<Parent>,
    index: u32,
    site: &InlineSiteSymbol<'a>,
) -> Option<InlineeLineIterator<'a>>
    ensures { unwrap_or (option_map (λ it. (inlined_left it).items) result) [] ≡ site_records (inlinee_with known.now) (option_map parent_view parent) index site.now.inlinee.0 (annotation_bytes site.now.annotations) }
{
    match parent {
        Some(parent) if index < parent.end => {
            Some(known.find(site.inlinee)?.lines(parent.place, site))
        }
        _ => None,
    }
}

/// The first record of a site that has bytes.
fn site_line<'a>(
    known: &InlineeFinder<'a>,
    parent: Option<Parent>,
    index: u32,
    site: &InlineSiteSymbol<'a>,
) -> Option<LineInfo>
    ensures { result ≡ find has_bytes (site_records (inlinee_with known.now) (option_map parent_view parent) index site.now.inlinee.0 (annotation_bytes site.now.annotations)) }
{
    match site_records(known, parent, index, site) {
        Some(lines) => first_with_bytes(lines),
        None => None,
    }
}

/// The line of an inlined call, where its function is asked for: where its first record stands that has bytes.
fn put_inlined<'a>(
    out: &mut Vec<u8>,
    finder: &Finder<'_, '_>,
    names: &CallNames<'_, '_>,
    line: Option<LineInfo>,
    site: &InlineSiteSymbol<'a>,
    name: &mut Vec<u8>,
) -> Result<(), AllocError>
    ensures { OnOk result (out.new.items ≡ out.old.items ++ inlined_at finder.now line (names_of_calls names.now site.now.inlinee.0)) }
{
    let Some(line) = line else {
        return Ok(());
    };
    match names.find(site.inlinee) {
        Some(function) => {
            name.clear();
            put_qualified(name, function)?;
            finder.put_if_asked(out, b"inlined", line.offset, line.length, name)
        }
        None => Ok(()),
    }
}

/// The line of what a symbol of a module says, where it has one.
fn put_says<'a>(
    out: &mut Vec<u8>,
    finder: &Finder<'_, '_>,
    names: &CallNames<'_, '_>,
    known: &InlineeFinder<'a>,
    parent: Option<Parent>,
    index: u32,
    parsed: &SymbolData<'a>,
    name: &mut Vec<u8>,
) -> Result<(), AllocError>
    ensures { OnOk result (out.new.items ≡ out.old.items ++ symbol_line finder.now (names_of_calls names.now) (inlinee_with known.now) (option_map parent_view parent) index (Ok (shown parsed.now))) }
{
    match parsed {
        SymbolData::Procedure(s) => {
            finder.put_if_asked(out, b"procedure", s.offset, Some(s.len), s.name.as_bytes())
        }
        SymbolData::Thunk(s) => {
            let length = Some(u32::from(s.len));
            finder.put_if_asked(out, b"thunk", s.offset, length, s.name.as_bytes())
        }
        SymbolData::Data(s) => {
            finder.put_if_asked(out, b"data", s.offset, None, s.name.as_bytes())
        }
        SymbolData::ThreadStorage(s) => {
            finder.put_if_asked(out, b"thread", s.offset, None, s.name.as_bytes())
        }
        SymbolData::Label(s) => {
            finder.put_if_asked(out, b"label", s.offset, None, s.name.as_bytes())
        }
        SymbolData::InlineSite(s) => {
            put_inlined(
                out,
                finder,
                names,
                site_line(known, parent, index, s),
                s,
                name,
            )
        }
        _ => Ok(()),
    }
}

/// The procedure that a symbol is, or else the one before it.
pub fn parent_behind(parent: Option<Parent>, parsed: &SymbolData<'_>) -> Option<Parent>
    ensures { option_map parent_view result ≡ option_or (parent_said (Ok (shown parsed.now))) (option_map parent_view parent) }
{
    match parsed {
        SymbolData::Procedure(s) => Some(Parent {
            place: s.offset,
            end: s.end.0,
        }),
        _ => parent,
    }
}

/// The line of a symbol, where it has one, and the last procedure up to it; out of memory is passed on.
fn put_symbol<'a>(
    alloc: Global,
    out: &mut Vec<u8>,
    finder: &Finder<'_, '_>,
    names: &CallNames<'_, '_>,
    known: &InlineeFinder<'a>,
    parent: &mut Option<Parent>,
    symbol: &Symbol<'a>,
    name: &mut Vec<u8>,
) -> Result<(), AllocError>
    ensures text { OnOk result (out.new.items ≡ out.old.items ++ symbol_line finder.now (names_of_calls names.now) (inlinee_with known.now) (option_map parent_view parent.old) (symbol_of symbol.now).index (record_at (symbol_of symbol.now).bytes)) }
    ensures parent { OnOk result (option_map parent_view parent.new ≡ option_or (parent_said (record_at (symbol_of symbol.now).bytes)) (option_map parent_view parent.old)) }
{
    match symbol.parse(alloc) {
        Ok(parsed) => {
            put_says(
                out,
                finder,
                names,
                known,
                *parent,
                symbol.index().0,
                &parsed,
                name,
            )?;
            *parent = parent_behind(*parent, &parsed);
            Ok(())
        }
        Err(Error::OutOfMemory) => Err(AllocError),
        Err(_) => Ok(()),
    }
}

/// The lines of the symbols of module `k` that an iterator has left, and then that of its fault.
fn put_symbols<'a>(
    alloc: Global,
    out: &mut Vec<u8>,
    finder: &Finder<'_, '_>,
    k: u64,
    names: &CallNames<'_, '_>,
    known: &InlineeFinder<'a>,
    mut symbols: SymbolIter<'a>,
) -> Result<(), AllocError>
    ensures { OnOk result (out.new.items ≡ out.old.items ++ symbols_left_text finder.now k (names_of_calls names.now) (inlinee_with known.now) None (symbols_left symbols.entry)) }
{
    let mut parent = None;
    let mut name = Vec::new(alloc);
    loop {
        match symbols.next() {
            Ok(Some(symbol)) => {
                put_symbol(
                    alloc,
                    out,
                    finder,
                    names,
                    known,
                    &mut parent,
                    &symbol,
                    &mut name,
                )?;
            }
            Ok(None) => return Ok(()),
            Err(e) => return put_error_of(out, finder.format, k, e),
        }
    }
}

/// The lines of the symbols of module `k` that are asked for, and then that of their fault; or the line of their error.
#[tactic(auto, unfolding(crate::specs::FindTexts::find_text))]
pub fn put_found_symbols(
    alloc: Global,
    out: &mut Vec<u8>,
    finder: &Finder<'_, '_>,
    k: u64,
    names: &CallNames<'_, '_>,
    info: &ModuleInfo<'_>,
) -> Result<(), AllocError>
    ensures { OnOk result (out.new.items ≡ out.old.items ++ find_text finder.now k (names_of_calls names.now) info.now) }
{
    match info.symbols() {
        Ok(symbols) => match read_known(alloc, info) {
            Ok(known) => {
                put_symbols(alloc, out, finder, k, names, &known, symbols)?;
                put_inlined_error(out, finder.format, k, info)
            }
            Err(_) => Err(AllocError),
        },
        Err(e) => put_refusal_of(out, finder.format, k, e),
    }
}

//! The text of `where`.

ghost use Rattle.std.specs.Prelude.{◌≡◌, ◌++◌, OnOk, Ok, Some, None, IfOk, codes, flat_map, map, option_copied};
ghost use Rattle.std.specs.Option.{option_map, option_or};
ghost use Rattle.pdb.specs.AnnotationViews.{annotation_bytes};
ghost use Rattle.pdb.specs.Data.{shown};
ghost use Rattle.pdb.specs.Forms.{record_at};
ghost use Rattle.pdb.specs.InlinedViews.{inlined_left};
ghost use Rattle.pdb.specs.Inlinees.{inlinee_with};
ghost use Rattle.pdb.specs.LineViews.{lines_left};
ghost use Rattle.pdb.specs.Qualified.{shown_qualified};
ghost use Rattle.pdb.specs.Text.{name_bytes};
ghost use Rattle.pdb.specs.Views.{symbol_of, symbols_left};
ghost use Rattle.pdb_resolve.specs.CallViews.{names_of_calls};
ghost use Rattle.pdb_resolve.specs.Frames.{file_in, file_name, name_text};
ghost use Rattle.pdb_code.specs.Namings.{plain};
ghost use Rattle.pdb_code.specs.ModuleCode.{name_at, program_in};
ghost use Rattle.tool_search.specs.FindTexts.{parent_said};
ghost use Rattle.tool_search.specs.Finders.{parent_view};
ghost use Rattle.tool_search.specs.WhereTexts.{asks_for_file, call_text, calls_text, file_of_record, is_wanted, lines_text, position_text, record_text, records_text, site_text, sites_left_text, where_line_in, where_text};

use crate::asking::{Asking, FunctionsOf};
use crate::find_texts::{Parent, parent_behind, site_records};
use crate::inlined_errors::put_inlined_error;
use pdb::{
    Error, FallibleIterator, InlineeFinder, InlineeLineIterator, LineInfo, LineIterator,
    LineProgram, ModuleInfo, QualifiedName, Symbol, SymbolData, SymbolIter,
};
use pdb_resolve::{CallNames, plain_name, read_known};
use std::alloc::{AllocError, Global};
use tool_output::module_errors::{put_error_of, put_refusal_of};

/// The line of a record, where it has bytes and is asked for; by the name of the function at its place.
fn put_record<'a>(
    alloc: Global,
    out: &mut Vec<u8>,
    asking: &Asking<'_, '_>,
    functions: &mut FunctionsOf<'a>,
    program: &LineProgram<'_>,
    line: &LineInfo,
) -> Result<(), AllocError>
    ensures text { OnOk result (out.new.items ≡ out.old.items ++ record_text asking.now functions.old program.now line.now) }
    ensures stays { functions.new ≡ functions.old }
{
    let file = asking.file_of(Some(program), line);
    if !asking.wants(file, line) {
        return Ok(());
    }
    let name = functions.name(alloc, line.offset)?;
    asking.put_where(out, b"line", line, file, plain_name(name))
}

/// The lines of the records of module `k` that an iterator has left, and then that of its fault.
fn put_records<'a>(
    alloc: Global,
    out: &mut Vec<u8>,
    asking: &Asking<'_, '_>,
    k: u64,
    functions: &mut FunctionsOf<'a>,
    program: &LineProgram<'_>,
    mut lines: LineIterator<'_>,
) -> Result<(), AllocError>
    ensures text { OnOk result (out.new.items ≡ out.old.items ++ records_text asking.now k functions.old program.now (lines_left lines.entry)) }
    ensures stays { functions.new ≡ functions.old }
{
    loop {
        match lines.next() {
            Ok(Some(line)) => put_record(alloc, out, asking, functions, program, &line)?,
            Ok(None) => return Ok(()),
            Err(e) => return put_error_of(out, asking.format, k, e),
        }
    }
}

/// The line of a record of an inlined call, where it has bytes and is asked for.
fn put_call(
    out: &mut Vec<u8>,
    asking: &Asking<'_, '_>,
    program: Option<&LineProgram<'_>>,
    name: Option<QualifiedName<'_>>,
    line: &LineInfo,
) -> Result<(), AllocError>
    ensures { OnOk result (out.new.items ≡ out.old.items ++ call_text asking.now (option_copied program.entry) (option_map shown_qualified name.entry) line.now) }
{
    let file = asking.file_of(program, line);
    if asking.wants(file, line) {
        asking.put_where(out, b"inlined", line, file, name)
    } else {
        Ok(())
    }
}

/// The lines of the records of an inlined call that an iterator has left.
fn put_calls(
    out: &mut Vec<u8>,
    asking: &Asking<'_, '_>,
    program: Option<&LineProgram<'_>>,
    name: Option<QualifiedName<'_>>,
    mut lines: InlineeLineIterator<'_>,
) -> Result<(), AllocError>
    ensures { OnOk result (out.new.items ≡ out.old.items ++ flat_map (call_text asking.now (option_copied program.entry) (option_map shown_qualified name.entry)) (inlined_left lines.entry).items) }
{
    loop {
        match lines.next() {
            Ok(Some(line)) => put_call(out, asking, program, name, &line)?,
            Ok(None) => return Ok(()),
            Err(_) => return Ok(()),
        }
    }
}

/// The lines of what a symbol says, if it is an inlined call.
fn put_says<'a>(
    out: &mut Vec<u8>,
    asking: &Asking<'_, '_>,
    program: Option<&LineProgram<'_>>,
    names: &CallNames<'_, '_>,
    known: &InlineeFinder<'a>,
    parent: Option<Parent>,
    index: u32,
    parsed: &SymbolData<'a>,
) -> Result<(), AllocError>
    ensures { OnOk result (out.new.items ≡ out.old.items ++ site_text asking.now (option_copied program.entry) (names_of_calls names.now) (inlinee_with known.now) (option_map parent_view parent) index (Ok (shown parsed.now))) }
{
    let SymbolData::InlineSite(site) = parsed else {
        return Ok(());
    };
    match site_records(known, parent, index, site) {
        Some(lines) => put_calls(out, asking, program, names.find(site.inlinee), lines),
        None => Ok(()),
    }
}

/// The lines of a symbol, if it is an inlined call, and the last procedure up to it; out of memory is passed on.
fn put_symbol<'a>(
    alloc: Global,
    out: &mut Vec<u8>,
    asking: &Asking<'_, '_>,
    program: Option<&LineProgram<'_>>,
    names: &CallNames<'_, '_>,
    known: &InlineeFinder<'a>,
    parent: &mut Option<Parent>,
    symbol: &Symbol<'a>,
) -> Result<(), AllocError>
    ensures text { OnOk result (out.new.items ≡ out.old.items ++ site_text asking.now (option_copied program.entry) (names_of_calls names.now) (inlinee_with known.now) (option_map parent_view parent.old) (symbol_of symbol.now).index (record_at (symbol_of symbol.now).bytes)) }
    ensures parent { OnOk result (option_map parent_view parent.new ≡ option_or (parent_said (record_at (symbol_of symbol.now).bytes)) (option_map parent_view parent.old)) }
{
    match symbol.parse(alloc) {
        Ok(parsed) => {
            put_says(
                out,
                asking,
                program,
                names,
                known,
                *parent,
                symbol.index().0,
                &parsed,
            )?;
            *parent = parent_behind(*parent, &parsed);
            Ok(())
        }
        Err(Error::OutOfMemory) => Err(AllocError),
        Err(_) => Ok(()),
    }
}

/// The lines of the symbols of module `k` that an iterator has left, and then that of its fault.
fn put_symbols<'a>(
    alloc: Global,
    out: &mut Vec<u8>,
    asking: &Asking<'_, '_>,
    k: u64,
    program: Option<&LineProgram<'_>>,
    names: &CallNames<'_, '_>,
    known: &InlineeFinder<'a>,
    mut symbols: SymbolIter<'a>,
) -> Result<(), AllocError>
    ensures { OnOk result (out.new.items ≡ out.old.items ++ sites_left_text asking.now k (option_copied program.entry) (names_of_calls names.now) (inlinee_with known.now) None (symbols_left symbols.entry)) }
{
    let mut parent = None;
    loop {
        match symbols.next() {
            Ok(Some(symbol)) => {
                put_symbol(
                    alloc,
                    out,
                    asking,
                    program,
                    names,
                    known,
                    &mut parent,
                    &symbol,
                )?;
            }
            Ok(None) => return Ok(()),
            Err(e) => return put_error_of(out, asking.format, k, e),
        }
    }
}

/// The lines of the inlined calls of module `k`, or the line of the error of its symbols.
#[tactic(auto, unfolding(crate::specs::WhereTexts::calls_text))]
fn put_sites(
    alloc: Global,
    out: &mut Vec<u8>,
    asking: &Asking<'_, '_>,
    k: u64,
    program: Option<&LineProgram<'_>>,
    names: &CallNames<'_, '_>,
    info: &ModuleInfo<'_>,
) -> Result<(), AllocError>
    ensures { option_copied program.entry ≡ program_in info.now → OnOk result (out.new.items ≡ out.old.items ++ calls_text asking.now k (names_of_calls names.now) info.now) }
{
    match info.symbols() {
        Ok(symbols) => match read_known(alloc, info) {
            Ok(known) => {
                put_symbols(alloc, out, asking, k, program, names, &known, symbols)?;
                put_inlined_error(out, asking.format, k, info)
            }
            Err(_) => Err(AllocError),
        },
        Err(e) => put_refusal_of(out, asking.format, k, e),
    }
}

/// The text of `where` of module `k`: its line records that are asked for, and then those of its inlined calls.
#[tactic(auto, unfolding(crate::specs::WhereTexts::where_text, crate::specs::WhereTexts::lines_text, pdb_code::specs::ModuleCode::program_in))]
pub fn put_where<'a>(
    alloc: Global,
    out: &mut Vec<u8>,
    asking: &Asking<'_, '_>,
    k: u64,
    names: &CallNames<'_, '_>,
    info: &'a ModuleInfo<'a>,
) -> Result<(), AllocError>
    ensures { OnOk result (out.new.items ≡ out.old.items ++ where_text asking.now k (names_of_calls names.now) info.entry.now) }
{
    match info.line_program(alloc) {
        Ok(program) => {
            let mut functions = FunctionsOf::new(info);
            put_records(
                alloc,
                out,
                asking,
                k,
                &mut functions,
                &program,
                program.lines(),
            )?;
            put_sites(alloc, out, asking, k, Some(&program), names, info)
        }
        Err(e) => {
            put_refusal_of(out, asking.format, k, e)?;
            put_sites(alloc, out, asking, k, None, names, info)
        }
    }
}

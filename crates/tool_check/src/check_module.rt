//! What is wrong with a module.

ghost use Rattle.std.specs.Prelude.{◌≡◌, ◌≢◌, ◌++◌, ◌⊎◌, codes, flat_map, Ok, OnOk, IfErr};
ghost use Rattle.pdb.specs.AnnotationViews.{annotation_bytes};
ghost use Rattle.pdb.specs.Annotations.{annotations_of};
ghost use Rattle.pdb.specs.Data.{shown};
ghost use Rattle.pdb.specs.ModuleStream.{exports_of, imports_of, inlinees_of, symbols_of};
ghost use Rattle.pdb.specs.Views.{symbol_of, symbols_left};
ghost use Rattle.tool_check.specs.Checks.{ended_by, files_of_module, items_of, lines_of_module, refused};
ghost use Rattle.tool_check.specs.CheckTexts.{at_index, fault_text, lines_text, others_text, parts_text, site_text, symbol_text, symbols_text};
ghost use Rattle.tool_output.specs.Stops.{StopsComposing};
ghost use Rattle.tool_output.specs.declared.stop.Stop.{Stop};

use crate::findings::{put_damage_at, put_end, put_refusal, put_unparsed};
use crate::subject::Subject;
use pdb::{
    FallibleIterator, InlineSiteSymbol, ModuleInfo, Symbol, SymbolData, SymbolIndex, SymbolIter,
};
use std::alloc::{AllocError, Global};
use tool_output::stop::Stop;

/// The line of the fault of a site's annotations.
fn put_site(
    alloc: Global,
    out: &mut Vec<u8>,
    subject: &Subject<'_>,
    index: SymbolIndex,
    site: &InlineSiteSymbol<'_>,
) -> Result<(), AllocError>
    ensures { OnOk result (out.new.items ≡ out.old.items ++ fault_text subject.now (at_index (codes " site ") index.0) (annotations_of (annotation_bytes site.now.annotations)).fault) }
{
    match site.annotations.iter().count() {
        Ok(_) => Ok(()),
        Err(e) => put_damage_at(alloc, out, subject, b" site ", index.0, e),
    }
}

/// The line of the fault of the annotations, if a record says an inline site.
fn put_site_of(
    alloc: Global,
    out: &mut Vec<u8>,
    subject: &Subject<'_>,
    index: SymbolIndex,
    parsed: &SymbolData<'_>,
) -> Result<(), AllocError>
    ensures { OnOk result (out.new.items ≡ out.old.items ++ site_text subject.now index.0 (Ok (shown parsed.now))) }
{
    match parsed {
        SymbolData::InlineSite(site) => put_site(alloc, out, subject, index, site),
        _ => Ok(()),
    }
}

/// The line of a symbol whose record has an error, or of a site whose annotations have a fault.
#[tactic(auto, unfolding(crate::specs::CheckTexts::symbol_text, crate::specs::Checks::record_refused))]
fn put_symbol(
    alloc: Global,
    out: &mut Vec<u8>,
    subject: &Subject<'_>,
    symbol: &Symbol<'_>,
) -> Result<(), Stop>
    ensures text { OnOk result (out.new.items ≡ out.old.items ++ symbol_text subject.now (symbol_of symbol.now)) }
    ensures unwritten { IfErr result (StopsComposing ⊥) }
{
    match symbol.parse(alloc) {
        Ok(parsed) => Ok(put_site_of(alloc, out, subject, symbol.index(), &parsed)?),
        Err(e) => put_unparsed(alloc, out, subject, b" symbol ", symbol, e),
    }
}

/// The lines of the symbols that an iterator has left.
fn put_records(
    alloc: Global,
    out: &mut Vec<u8>,
    subject: &Subject<'_>,
    mut symbols: SymbolIter<'_>,
) -> Result<(), Stop>
    ensures unwritten { IfErr result (StopsComposing ⊥) }
    ensures text { OnOk result (out.new.items ≡ out.old.items ++ flat_map (symbol_text subject.now) (symbols_left symbols.entry).items) }
{
    loop {
        match symbols.next() {
            Ok(Some(symbol)) => put_symbol(alloc, out, subject, &symbol)?,
            Ok(None) => return Ok(()),
            Err(_) => return Ok(()),
        }
    }
}

/// The line of the list of symbols.
fn put_symbol_list(
    out: &mut Vec<u8>,
    subject: &Subject<'_>,
    info: &ModuleInfo<'_>,
) -> Result<(), Stop>
    ensures text { OnOk result (out.new.items ≡ out.old.items ++ fault_text subject.now (codes " symbols") (ended_by (symbols_of info.now))) }
    ensures unwritten { IfErr result (StopsComposing ⊥) }
{
    match info.symbols() {
        Ok(symbols) => Ok(put_end(out, subject, b" symbols", symbols)?),
        Err(e) => put_refusal(out, subject, b" symbols", e),
    }
}

/// The lines of the symbols: that of their list, and then those of single symbols.
#[tactic(auto, unfolding(crate::specs::CheckTexts::symbols_text))]
fn put_symbols(
    alloc: Global,
    out: &mut Vec<u8>,
    subject: &Subject<'_>,
    info: &ModuleInfo<'_>,
) -> Result<(), Stop>
    ensures text { OnOk result (out.new.items ≡ out.old.items ++ symbols_text subject.now info.now) }
    ensures unwritten { IfErr result (StopsComposing ⊥) }
{
    put_symbol_list(out, subject, info)?;
    match info.symbols() {
        Ok(symbols) => put_records(alloc, out, subject, symbols),
        Err(_) => Ok(()),
    }
}

/// The lines of the line records and of the files.
#[tactic(auto, unfolding(crate::specs::CheckTexts::lines_text, crate::specs::Checks::lines_of_module, crate::specs::Checks::files_of_module))]
fn put_lines(
    alloc: Global,
    out: &mut Vec<u8>,
    subject: &Subject<'_>,
    info: &ModuleInfo<'_>,
) -> Result<(), Stop>
    ensures text { OnOk result (out.new.items ≡ out.old.items ++ lines_text subject.now info.now) }
    ensures unwritten { IfErr result (StopsComposing ⊥) }
{
    match info.line_program(alloc) {
        Ok(program) => {
            put_end(out, subject, b" lines", program.lines())?;
            Ok(put_end(out, subject, b" files", program.files())?)
        }
        Err(e) => {
            put_refusal(out, subject, b" lines", e)?;
            put_refusal(out, subject, b" files", e)
        }
    }
}

/// The line of the inlined functions.
fn put_inlinees(
    out: &mut Vec<u8>,
    subject: &Subject<'_>,
    label: &[u8],
    info: &ModuleInfo<'_>,
) -> Result<(), Stop>
    ensures text { OnOk result (out.new.items ≡ out.old.items ++ fault_text subject.now label.now (ended_by (inlinees_of info.now))) }
    ensures unwritten { IfErr result (StopsComposing ⊥) }
{
    match info.inlinees() {
        Ok(inlinees) => Ok(put_end(out, subject, label, inlinees)?),
        Err(e) => put_refusal(out, subject, label, e),
    }
}

/// The line of what is imported.
fn put_imports(
    alloc: Global,
    out: &mut Vec<u8>,
    subject: &Subject<'_>,
    label: &[u8],
    info: &ModuleInfo<'_>,
) -> Result<(), Stop>
    ensures text { OnOk result (out.new.items ≡ out.old.items ++ fault_text subject.now label.now (refused (imports_of info.now))) }
    ensures unwritten { IfErr result (StopsComposing ⊥) }
{
    match info.imports(alloc) {
        Ok(_imports) => Ok(()),
        Err(e) => put_refusal(out, subject, label, e),
    }
}

/// The line of what is exported.
fn put_exports(
    alloc: Global,
    out: &mut Vec<u8>,
    subject: &Subject<'_>,
    label: &[u8],
    info: &ModuleInfo<'_>,
) -> Result<(), Stop>
    ensures text { OnOk result (out.new.items ≡ out.old.items ++ fault_text subject.now label.now (refused (exports_of info.now))) }
    ensures unwritten { IfErr result (StopsComposing ⊥) }
{
    match info.exports(alloc) {
        Ok(_exports) => Ok(()),
        Err(e) => put_refusal(out, subject, label, e),
    }
}

/// The lines of the inlined functions, and of what is imported and exported.
#[tactic(auto, unfolding(crate::specs::CheckTexts::others_text))]
fn put_others(
    alloc: Global,
    out: &mut Vec<u8>,
    subject: &Subject<'_>,
    info: &ModuleInfo<'_>,
) -> Result<(), Stop>
    ensures text { OnOk result (out.new.items ≡ out.old.items ++ others_text subject.now info.now) }
    ensures unwritten { IfErr result (StopsComposing ⊥) }
{
    put_inlinees(out, subject, b" inlined functions", info)?;
    put_imports(alloc, out, subject, b" imports", info)?;
    put_exports(alloc, out, subject, b" exports", info)
}

/// The lines of what is wrong with a module that has a stream, behind what each of them begins with.
pub fn put_parts(
    alloc: Global,
    out: &mut Vec<u8>,
    subject: &Subject<'_>,
    info: &ModuleInfo<'_>,
) -> Result<(), Stop>
    ensures text { OnOk result (out.new.items ≡ out.old.items ++ parts_text subject.now info.now) }
    ensures unwritten { IfErr result (StopsComposing ⊥) }
{
    put_symbols(alloc, out, subject, info)?;
    put_lines(alloc, out, subject, info)?;
    put_others(alloc, out, subject, info)
}

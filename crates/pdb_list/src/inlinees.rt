//! The lines of inlined functions, and of the sites into which they were inlined.

ghost use Rattle.std.specs.Prelude.{◌≡◌, ◌++◌, None, OnOk, IfOk, codes, is_none};
ghost use Rattle.pdb.specs.AnnotationViews.{annotation_bytes};
ghost use Rattle.pdb.specs.Forms.{record_at};
ghost use Rattle.pdb.specs.InlinedViews.{inlined_left};
ghost use Rattle.pdb.specs.Inlinees.{inlinee_with};
ghost use Rattle.pdb.specs.ModuleViews.{inlinees_left};
ghost use Rattle.pdb.specs.Views.{symbol_of, symbols_left};
ghost use Rattle.pdb_text.specs.Digits.{hex};
ghost use Rattle.pdb_list.specs.Shown.{shown_here};
ghost use Rattle.pdb_list.specs.ModuleTexts.{here, inlinee_list_text, inlinee_text, inlinees_of_text, line_list_text, site_lines, site_text, sites_of_text, sites_text};

use crate::lines::put_line;
use crate::text::{put_error, put_refusal};
use pdb::{
    Error, FallibleIterator, InlineSiteSymbol, Inlinee, InlineeFinder, InlineeIterator,
    InlineeLineIterator, ModuleInfo, PdbInternalSectionOffset, Symbol, SymbolData, SymbolIndex,
    SymbolIter,
};
use pdb_text::hex8;
use std::alloc::{AllocError, Global};

/// `inlinee`, an id, and the end of the line.
#[inline(always)]
#[tactic(auto, unfolding(pdb_text::specs::Digits::hex))]
fn inlinee_line(id: u32) -> [u8; 17]
    ensures { result ≡ codes "inlinee " ++ hex 8 id ++ codes "\n" }
{
    let d = hex8(id);
    [
        b'i', b'n', b'l', b'i', b'n', b'e', b'e', b' ', d[0], d[1], d[2], d[3], d[4], d[5], d[6],
        d[7], b'\n',
    ]
}

/// The line of an inlined function.
#[tactic(auto, unfolding(crate::specs::ModuleTexts::inlinee_text))]
fn put_inlinee(out: &mut Vec<u8>, inlinee: &Inlinee<'_>) -> Result<(), AllocError>
    ensures { OnOk result (out.new.items ≡ out.old.items ++ inlinee_text inlinee.now) }
{
    out.extend_from_slice(&inlinee_line(inlinee.index().0))
}

/// What a symbol is here.
enum Here<'t> {
    /// A procedure, which begins at this offset.
    Procedure(PdbInternalSectionOffset),
    /// A site into which a function was inlined.
    Site(InlineSiteSymbol<'t>),
    /// Another symbol, or one that can't be read.
    Passed,
}

/// What a symbol is here; out of memory is passed on. Both that count start a scope.
fn here_of<'t>(alloc: Global, symbol: &Symbol<'t>) -> Result<Here<'t>, AllocError>
    ensures { IfOk result (λ h. shown_here h ≡ here (record_at (symbol_of symbol.now).bytes)) }
{
    if !symbol.starts_scope() {
        return Ok(Here::Passed);
    }
    match symbol.parse(alloc) {
        Ok(SymbolData::Procedure(procedure)) => Ok(Here::Procedure(procedure.offset)),
        Ok(SymbolData::InlineSite(site)) => Ok(Here::Site(site)),
        Ok(_) => Ok(Here::Passed),
        Err(Error::OutOfMemory) => Err(AllocError),
        Err(_) => Ok(Here::Passed),
    }
}

/// The lines of the records that an iterator has left, and then that of its fault; returns whether there is no fault.
fn put_records(out: &mut Vec<u8>, mut lines: InlineeLineIterator<'_>) -> Result<bool, AllocError>
    ensures lines { OnOk result (out.new.items ≡ out.old.items ++ line_list_text (inlined_left lines.entry)) }
    ensures goes_on { IfOk result (λ goes_on. goes_on ≡ is_none (inlined_left lines.entry).fault) }
{
    loop {
        match lines.next() {
            Ok(Some(line)) => put_line(out, &line)?,
            Ok(None) => return Ok(true),
            Err(e) => {
                put_error(out, e.number())?;
                return Ok(false);
            }
        }
    }
}

/// The lines of a site's records, and of the fault of its annotations; returns whether there is no fault.
fn put_site_lines(
    out: &mut Vec<u8>,
    known: &InlineeFinder<'_>,
    parent: Option<PdbInternalSectionOffset>,
    site: &InlineSiteSymbol<'_>,
) -> Result<bool, AllocError>
    ensures lines { OnOk result (out.new.items ≡ out.old.items ++ line_list_text (site_lines parent (annotation_bytes site.now.annotations) (inlinee_with known.now site.now.inlinee.0))) }
    ensures goes_on { IfOk result (λ goes_on. goes_on ≡ is_none (site_lines parent (annotation_bytes site.now.annotations) (inlinee_with known.now site.now.inlinee.0)).fault) }
{
    let Some(parent) = parent else {
        return Ok(true);
    };
    match known.find(site.inlinee) {
        Some(inlinee) => put_records(out, inlinee.lines(parent, site)),
        None => Ok(true),
    }
}

/// `site`, an index and an id, and the end of the line.
#[inline(always)]
#[tactic(auto, unfolding(pdb_text::specs::Digits::hex))]
fn site_line(index: u32, id: u32) -> [u8; 23]
    ensures { result ≡ codes "site " ++ hex 8 index ++ codes " " ++ hex 8 id ++ codes "\n" }
{
    let i = hex8(index);
    let d = hex8(id);
    [
        b's', b'i', b't', b'e', b' ', i[0], i[1], i[2], i[3], i[4], i[5], i[6], i[7], b' ', d[0],
        d[1], d[2], d[3], d[4], d[5], d[6], d[7], b'\n',
    ]
}

/// The line of a site.
#[tactic(auto, unfolding(crate::specs::ModuleTexts::site_text))]
fn put_site(out: &mut Vec<u8>, index: SymbolIndex, id: u32) -> Result<(), AllocError>
    ensures { OnOk result (out.new.items ≡ out.old.items ++ site_text index.0 id) }
{
    out.extend_from_slice(&site_line(index.0, id))
}

/// The sites among the symbols that an iterator has left, each with its records, and then the line of a fault.
fn put_list(
    alloc: Global,
    out: &mut Vec<u8>,
    known: &InlineeFinder<'_>,
    mut symbols: SymbolIter<'_>,
) -> Result<(), AllocError>
    ensures { OnOk result (out.new.items ≡ out.old.items ++ sites_text (inlinee_with known.now) None (symbols_left symbols.entry).items (symbols_left symbols.entry).fault) }
{
    let mut parent = None;
    loop {
        match symbols.next() {
            Ok(Some(symbol)) => match here_of(alloc, &symbol)? {
                Here::Procedure(offset) => parent = Some(offset),
                Here::Site(site) => {
                    put_site(out, symbol.index(), site.inlinee.0)?;
                    if !put_site_lines(out, known, parent, &site)? {
                        return Ok(());
                    }
                }
                Here::Passed => {}
            },
            Ok(None) => return Ok(()),
            Err(e) => return put_error(out, e.number()),
        }
    }
}

/// The sites of a module, or the line of the error of its symbols.
#[tactic(auto, unfolding(crate::specs::ModuleTexts::sites_of_text))]
fn put_sites(
    alloc: Global,
    out: &mut Vec<u8>,
    known: &InlineeFinder<'_>,
    info: &ModuleInfo<'_>,
) -> Result<(), AllocError>
    ensures { OnOk result (out.new.items ≡ out.old.items ++ sites_of_text (inlinee_with known.now) info.now) }
{
    match info.symbols() {
        Ok(symbols) => put_list(alloc, out, known, symbols),
        Err(e) => put_refusal(out, e),
    }
}

/// The lines of the inlined functions that an iterator has left, and behind them the sites, or the line of a fault.
fn put_whole(
    alloc: Global,
    out: &mut Vec<u8>,
    mut inlinees: InlineeIterator<'_>,
    info: &ModuleInfo<'_>,
) -> Result<(), AllocError>
    ensures { OnOk result (out.new.items ≡ out.old.items ++ inlinee_list_text info.now (inlinees_left inlinees.entry)) }
{
    let mut listed = Vec::new(alloc);
    loop {
        match inlinees.next() {
            Ok(Some(inlinee)) => {
                put_inlinee(out, &inlinee)?;
                listed.push(inlinee)?;
            }
            Ok(None) => {
                let known = InlineeFinder::new(listed)?;
                return put_sites(alloc, out, &known, info);
            }
            Err(e) => return put_error(out, e.number()),
        }
    }
}

/// The lines of a module's inlined functions and of their sites, or of an error.
#[tactic(auto, unfolding(crate::specs::ModuleTexts::inlinees_of_text))]
pub fn put_inlinees(
    alloc: Global,
    out: &mut Vec<u8>,
    info: &ModuleInfo<'_>,
) -> Result<(), AllocError>
    ensures { OnOk result (out.new.items ≡ out.old.items ++ inlinees_of_text info.now) }
{
    match info.inlinees() {
        Ok(inlinees) => put_whole(alloc, out, inlinees, info),
        Err(e) => put_refusal(out, e),
    }
}

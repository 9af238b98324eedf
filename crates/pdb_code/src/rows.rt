//! The ranges of a module's code, by its symbols.

ghost use Rattle.std.specs.Prelude.{◌≡◌, ◌&&◌, ◌^◌, ◌<◌, ◌++◌, [], ◌∷◌, length, map, filter_map, IfOk, IfErr, OnOk};
ghost use Rattle.std.specs.Option.{is_none, option_map, option_to_list};
ghost use Rattle.pdb.specs.Forms.{record_at};
ghost use Rattle.pdb.specs.SymbolList.{symbols_from};
ghost use Rattle.pdb.specs.Views.{symbol_of};
ghost use Rattle.pdb_records.specs.RecordReading.{further_at};
ghost use Rattle.pdb_code.specs.ModuleCode.{procedure_of, other_of, managed_of, managed_said, trampoline_of, trampoline_said};
ghost use Rattle.std.specs.List.{All};
ghost use Rattle.pdb_places.specs.Pieces.{range_parts, code_parts, AreRangesOf};
ghost use Rattle.pdb_code.specs.Kept.{site_if, site_of, site_role};
ghost use Rattle.pdb_code.specs.Listed.{shown_procedure, entry_of, IsBounded};

use crate::code_records::next_code;
use crate::procedures::ListedProcedure;
use crate::role::{Role, Span, is_managed, is_trampoline, role_of};
use crate::site::KeptSite;
use pdb::{Error, Result, Symbol, SymbolData, SymbolIndex};
use pdb_places::range::CodeRange;
use pdb_records::Record;
use std::alloc::Global;

/// A module's procedures; the ranges of its thunks and separated code, of its managed procedures and of its
/// trampolines, whose payload is the symbol's index; and the sites of its inlined functions.
#[derive(Drop)]
pub struct Rows<'t> {
    pub procedures: Vec<ListedProcedure>,
    pub others: Vec<CodeRange>,
    pub managed: Vec<CodeRange>,
    pub trampolines: Vec<CodeRange>,
    pub sites: Vec<KeptSite<'t>>,
    /// Whether the list of symbols is there and has no fault.
    pub is_whole: bool,
}

/// How many bytes of symbols there are for a site at least, where there are many sites.
const BYTES_OF_A_SITE: usize = 128;

/// One more range.
fn push(rows: &mut Vec<CodeRange>, span: Span, index: SymbolIndex) -> Result<()>
    ensures pushed { OnOk result (map range_parts rows.new.items ≡ map range_parts rows.old.items ++ (index.0, (span.place, span.length)) ∷ []) }
    ensures refused { IfErr result (λ e. e ≡ Error.OutOfMemory) }
{
    let range = CodeRange::new(span.place, span.length, index.0);
    match rows.push(range) {
        Ok(()) => Ok(()),
        Err(_) => Err(Error::OutOfMemory),
    }
}

/// One more procedure.
fn push_procedure(
    procedures: &mut Vec<ListedProcedure>,
    span: Span,
    index: SymbolIndex,
) -> Result<()>
    ensures pushed { OnOk result (map shown_procedure procedures.new.items ≡ map shown_procedure procedures.old.items ++ record { index = index.0; place = span.place; length = span.length; end = span.end.0 } ∷ []) }
    ensures refused { IfErr result (λ e. e ≡ Error.OutOfMemory) }
{
    let procedure = ListedProcedure {
        place: span.place,
        length: span.length,
        index: index.0,
        end: span.end.0,
    };
    match procedures.push(procedure) {
        Ok(()) => Ok(()),
        Err(_) => Err(Error::OutOfMemory),
    }
}

/// One more site.
fn push_site<'t>(sites: &mut Vec<KeptSite<'t>>, symbol: &Symbol<'t>) -> Result<()>
    ensures pushed { OnOk result (map entry_of sites.new.items ≡ map entry_of sites.old.items ++ symbol_of symbol.now ∷ []) }
    ensures bounded { All IsBounded sites.old.items → OnOk result (All IsBounded sites.new.items) }
    ensures refused { IfErr result (λ e. e ≡ Error.OutOfMemory) }
{
    match sites.push(KeptSite::new(symbol)) {
        Ok(()) => Ok(()),
        Err(_) => Err(Error::OutOfMemory),
    }
}

/// The code of a managed procedure.
fn managed_span(symbol: &Symbol<'_>) -> Option<Span>
    ensures { option_map (λ s. record { index = (symbol_of symbol.now).index; place = s.place; length = s.length; end = s.end.0 }) result ≡ managed_said (symbol_of symbol.now).index (further_at (symbol_of symbol.now).bytes) }
{
    match Record::parse(symbol) {
        Ok(Record::ManagedProcedure(s)) => Some(Span {
            place: s.offset,
            length: s.len,
            end: s.end,
        }),
        Ok(_) => None,
        Err(_) => None,
    }
}

/// The code of a trampoline; out of memory is passed on.
fn trampoline_span(alloc: Global, symbol: &Symbol<'_>) -> Result<Option<Span>>
    ensures is { IfOk result (λ o. option_map (λ s. record { index = (symbol_of symbol.now).index; place = s.place; length = s.length; end = s.end.0 }) o ≡ trampoline_said (symbol_of symbol.now).index (record_at (symbol_of symbol.now).bytes)) }
    ensures refused { IfErr result (λ e. e ≡ Error.OutOfMemory) }
{
    match symbol.parse(alloc) {
        Ok(SymbolData::Trampoline(s)) => Ok(Some(Span {
            place: s.thunk,
            length: u32::from(s.size),
            end: symbol.index(),
        })),
        Ok(_) => Ok(None),
        Err(Error::OutOfMemory) => Err(Error::OutOfMemory),
        Err(_) => Ok(None),
    }
}

/// One more range, if it is there.
fn push_if(rows: &mut Vec<CodeRange>, span: Option<Span>, index: SymbolIndex) -> Result<()>
    ensures pushed { OnOk result (map range_parts rows.new.items ≡ map range_parts rows.old.items ++ map code_parts (option_to_list (option_map (λ s. record { index = index.0; place = s.place; length = s.length; end = s.end.0 }) span))) }
    ensures refused { IfErr result (λ e. e ≡ Error.OutOfMemory) }
{
    match span {
        Some(span) => push(rows, span, index),
        None => Ok(()),
    }
}

/// One more symbol, where it is a trampoline.
fn add_trampoline(alloc: Global, rows: &mut Vec<CodeRange>, symbol: &Symbol<'_>) -> Result<()>
    ensures pushed { OnOk result (map range_parts rows.new.items ≡ map range_parts rows.old.items ++ map code_parts (option_to_list (trampoline_of (symbol_of symbol.now)))) }
    ensures refused { IfErr result (λ e. e ≡ Error.OutOfMemory) }
{
    if !is_trampoline(symbol.raw_kind()) {
        return Ok(());
    }
    let span = trampoline_span(alloc, symbol)?;
    push_if(rows, span, symbol.index())
}

/// One more symbol, where it is a managed procedure.
fn add_managed(rows: &mut Vec<CodeRange>, symbol: &Symbol<'_>) -> Result<()>
    ensures pushed { OnOk result (map range_parts rows.new.items ≡ map range_parts rows.old.items ++ map code_parts (option_to_list (managed_of (symbol_of symbol.now)))) }
    ensures refused { IfErr result (λ e. e ≡ Error.OutOfMemory) }
{
    if !is_managed(symbol.raw_kind()) {
        return Ok(());
    }
    push_if(rows, managed_span(symbol), symbol.index())
}

/// One more symbol that starts a scope, or has a role.
fn add_scope<'t>(alloc: Global, rows: &mut Rows<'t>, symbol: &Symbol<'t>) -> Result<()>
    ensures procedures { OnOk result (map shown_procedure rows.new.procedures.items ≡ map shown_procedure rows.old.procedures.items ++ option_to_list (procedure_of (symbol_of symbol.now))) }
    ensures others { OnOk result (map range_parts rows.new.others.items ≡ map range_parts rows.old.others.items ++ map code_parts (option_to_list (other_of (symbol_of symbol.now)))) }
    ensures sites { OnOk result (map entry_of rows.new.sites.items ≡ map entry_of rows.old.sites.items ++ option_to_list (site_of (symbol_of symbol.now))) }
    ensures bounded { All IsBounded rows.old.sites.items → OnOk result (All IsBounded rows.new.sites.items) }
    ensures managed { rows.new.managed ≡ rows.old.managed }
    ensures trampolines { rows.new.trampolines ≡ rows.old.trampolines }
    ensures refused { IfErr result (λ e. e ≡ Error.OutOfMemory) }
{
    let index = symbol.index();
    match role_of(alloc, symbol) {
        Ok(Role::Procedure(span)) => push_procedure(&mut rows.procedures, span, index),
        Ok(Role::Other(span)) => push(&mut rows.others, span, index),
        Ok(Role::Site(_)) => push_site(&mut rows.sites, symbol),
        Ok(Role::Passed) => Ok(()),
        Err(_) => Err(Error::OutOfMemory),
    }
}

/// One more site, if its annotations begin at `from` in its record.
#[inline(always)]
fn add_site<'t>(sites: &mut Vec<KeptSite<'t>>, symbol: &Symbol<'t>, from: usize) -> Result<()>
    ensures pushed { OnOk result (map entry_of sites.new.items ≡ map entry_of sites.old.items ++ option_to_list (site_if (symbol_of symbol.now) (site_role from (symbol_of symbol.now).bytes))) }
    ensures bounded { All IsBounded sites.old.items → OnOk result (All IsBounded sites.new.items) }
    ensures refused { IfErr result (λ e. e ≡ Error.OutOfMemory) }
{
    if symbol.raw_bytes().len() < from {
        return Ok(());
    }
    push_site(sites, symbol)
}

/// One more symbol that may be code, and is no site.
#[inline(never)]
fn add_other<'t>(alloc: Global, rows: &mut Rows<'t>, symbol: Symbol<'t>) -> Result<()>
    ensures procedures { OnOk result (map shown_procedure rows.new.procedures.items ≡ map shown_procedure rows.old.procedures.items ++ option_to_list (procedure_of (symbol_of symbol.entry))) }
    ensures others { OnOk result (map range_parts rows.new.others.items ≡ map range_parts rows.old.others.items ++ map code_parts (option_to_list (other_of (symbol_of symbol.entry)))) }
    ensures managed { OnOk result (map range_parts rows.new.managed.items ≡ map range_parts rows.old.managed.items ++ map code_parts (option_to_list (managed_of (symbol_of symbol.entry)))) }
    ensures trampolines { OnOk result (map range_parts rows.new.trampolines.items ≡ map range_parts rows.old.trampolines.items ++ map code_parts (option_to_list (trampoline_of (symbol_of symbol.entry)))) }
    ensures sites { OnOk result (map entry_of rows.new.sites.items ≡ map entry_of rows.old.sites.items ++ option_to_list (site_of (symbol_of symbol.entry))) }
    ensures bounded { All IsBounded rows.old.sites.items → OnOk result (All IsBounded rows.new.sites.items) }
    ensures refused { IfErr result (λ e. e ≡ Error.OutOfMemory) }
{
    add_scope(alloc, rows, &symbol)?;
    add_managed(&mut rows.managed, &symbol)?;
    add_trampoline(alloc, &mut rows.trampolines, &symbol)
}

/// One more symbol that may be code. Most are sites.
#[inline(always)]
fn add<'t>(alloc: Global, rows: &mut Rows<'t>, symbol: Symbol<'t>) -> Result<()>
    ensures procedures { OnOk result (map shown_procedure rows.new.procedures.items ≡ map shown_procedure rows.old.procedures.items ++ option_to_list (procedure_of (symbol_of symbol.entry))) }
    ensures others { OnOk result (map range_parts rows.new.others.items ≡ map range_parts rows.old.others.items ++ map code_parts (option_to_list (other_of (symbol_of symbol.entry)))) }
    ensures managed { OnOk result (map range_parts rows.new.managed.items ≡ map range_parts rows.old.managed.items ++ map code_parts (option_to_list (managed_of (symbol_of symbol.entry)))) }
    ensures trampolines { OnOk result (map range_parts rows.new.trampolines.items ≡ map range_parts rows.old.trampolines.items ++ map code_parts (option_to_list (trampoline_of (symbol_of symbol.entry)))) }
    ensures sites { OnOk result (map entry_of rows.new.sites.items ≡ map entry_of rows.old.sites.items ++ option_to_list (site_of (symbol_of symbol.entry))) }
    ensures bounded { All IsBounded rows.old.sites.items → OnOk result (All IsBounded rows.new.sites.items) }
    ensures refused { IfErr result (λ e. e ≡ Error.OutOfMemory) }
{
    match symbol.raw_kind() {
        0x114d => add_site(&mut rows.sites, &symbol, 14),
        0x115d => add_site(&mut rows.sites, &symbol, 18),
        _ => add_other(alloc, rows, symbol),
    }
}

/// Whether both of two tests hold.
fn are_both(first: bool, second: bool) -> bool
    ensures { result ≡ (first && second) }
{
    first && second
}

/// The procedures, the ranges and the sites of a list of symbols, from the fourth byte on and up to its fault. A list that
/// can't be read isn't there. Most of a module is passed here: the loop keeps registers of its own.
#[inline(never)]
pub(crate) fn rows_of<'t>(alloc: Global, symbols: &'t [u8], is_there: bool) -> Result<Rows<'t>>
    requires { length symbols.now < 2 ^ 32 }
    ensures procedures { IfOk result (λ rows. map shown_procedure rows.procedures.items ≡ filter_map procedure_of (symbols_from symbols.entry.now 4).items) }
    ensures others { IfOk result (λ rows. AreRangesOf (filter_map other_of (symbols_from symbols.entry.now 4).items) rows.others.items) }
    ensures managed { IfOk result (λ rows. AreRangesOf (filter_map managed_of (symbols_from symbols.entry.now 4).items) rows.managed.items) }
    ensures trampolines { IfOk result (λ rows. AreRangesOf (filter_map trampoline_of (symbols_from symbols.entry.now 4).items) rows.trampolines.items) }
    ensures sites { IfOk result (λ rows. map entry_of rows.sites.items ≡ filter_map site_of (symbols_from symbols.entry.now 4).items) }
    ensures bounded { IfOk result (λ rows. All IsBounded rows.sites.items) }
    ensures whole { IfOk result (λ rows. rows.is_whole ≡ (is_there && is_none (symbols_from symbols.entry.now 4).fault)) }
    ensures refused { IfErr result (λ e. e ≡ Error.OutOfMemory) }
{
    let mut rows = Rows {
        procedures: Vec::new(alloc),
        others: Vec::new(alloc),
        managed: Vec::new(alloc),
        trampolines: Vec::new(alloc),
        sites: Vec::with_capacity(alloc, symbols.len() / BYTES_OF_A_SITE)?,
        is_whole: false,
    };
    let mut at = symbols.len().min(4);
    while let Some(symbol) = next_code(symbols, &mut at) {
        // Out of memory is the only error here. To pass on what came would copy an error for each symbol.
        match add(alloc, &mut rows, symbol) {
            Ok(()) => {}
            Err(_) => return Err(Error::OutOfMemory),
        }
    }
    rows.is_whole = are_both(is_there, at == symbols.len());
    Ok(rows)
}

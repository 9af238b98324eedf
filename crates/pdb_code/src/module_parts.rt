//! The parts of a module's stream, each as if empty where it has an error.

ghost use Rattle.std.specs.Prelude.{List, Result, ◌≡◌, ◌&&◌, ◌^◌, ◌<◌, length, map, filter_map, IfOk, IfErr};
ghost use Rattle.std.specs.List.{All};
ghost use Rattle.std.specs.Option.{is_none, option_map};
ghost use Rattle.std.specs.Result.{is_ok};
ghost use Rattle.pdb.specs.Data.{shown};
ghost use Rattle.pdb.specs.Inlinees.{inlinee_with};
ghost use Rattle.pdb.specs.ModuleStream.{inlinees_of, symbols_of, symbols_part_of};
ghost use Rattle.pdb_code.specs.Whole.{is_whole_list};
ghost use Rattle.pdb.specs.ModuleViews.{inlinees_left};
ghost use Rattle.pdb.specs.SymbolList.{symbols_from};
ghost use Rattle.pdb.specs.Views.{symbol_of, symbols_left};
ghost use Rattle.pdb_symbols.specs.Headings.{Titled, shown_heading};
ghost use Rattle.pdb.specs.Error.{Error};
ghost use Rattle.pdb.specs.Refusal.{Gives};
ghost use Rattle.pdb.specs.Text.{name_bytes};
ghost use Rattle.pdb_code.specs.SaidNames.{name_said, name_titled};
ghost use Rattle.pdb_places.specs.Pieces.{AreRangesOf, AreStartsOf, Code};
ghost use Rattle.pdb_code.specs.Kept.{head_further, head_says, site_of};
ghost use Rattle.pdb_code.specs.Namings.{shown_naming};
ghost use Rattle.pdb_code.specs.Listed.{shown_procedure, entry_of, IsBounded};
ghost use Rattle.pdb_code.specs.ModuleCode.{symbols_in, inlinees_in, program_in, procedure_of, other_of, managed_of, managed_named, says, trampoline_of};

use crate::function_names::{NamedCode, named_code};
use crate::rows::{Rows, rows_of};
use pdb::{
    Error, FallibleIterator, Heading, Inlinee, InlineeFinder, InlineeIterator, LinePlaces,
    ModuleInfo, RawString, Result, Symbol, SymbolData, SymbolIter,
};
use pdb_places::as_if_empty::if_read;
use pdb_places::range::CodeRange;
use pdb_places::ranges::Ranges;
use pdb_records::Record;
use std::alloc::Global;

/// The bytes of a module's symbols; none where they can't be read.
#[tactic(auto, using(crate::proofs::CodeRecords::symbols_read, crate::proofs::CodeRecords::symbols_unread, crate::proofs::WholeParts::whole_symbols, crate::proofs::WholeParts::no_symbols))]
fn symbol_bytes<'a>(info: &'a ModuleInfo<'a>) -> &'a [u8]
    ensures symbols { symbols_in info.entry.now ≡ (symbols_from result.now 4).items }
    ensures whole { is_whole_list (symbols_of info.entry.now) ≡ (is_ok (symbols_part_of info.entry.now) && is_none (symbols_from result.now 4).fault) }
    ensures small { length result.now < 2 ^ 32 }
{
    match info.symbols_part() {
        Ok(bytes) => bytes,
        Err(_) => &[],
    }
}

/// The procedures, the ranges and the sites of a module's code; none where its symbols can't be read.
pub fn read_rows<'a>(alloc: Global, info: &'a ModuleInfo<'a>) -> Result<Rows<'a>>
    ensures procedures { IfOk result (λ rows. map shown_procedure rows.procedures.items ≡ filter_map procedure_of (symbols_in info.entry.now)) }
    ensures others { IfOk result (λ rows. AreRangesOf (filter_map other_of (symbols_in info.entry.now)) rows.others.items) }
    ensures managed { IfOk result (λ rows. AreRangesOf (filter_map managed_of (symbols_in info.entry.now)) rows.managed.items) }
    ensures trampolines { IfOk result (λ rows. AreRangesOf (filter_map trampoline_of (symbols_in info.entry.now)) rows.trampolines.items) }
    ensures sites { IfOk result (λ rows. map entry_of rows.sites.items ≡ filter_map site_of (symbols_in info.entry.now)) }
    ensures bounded { IfOk result (λ rows. All IsBounded rows.sites.items) }
    ensures whole { IfOk result (λ rows. rows.is_whole ≡ is_whole_list (symbols_of info.entry.now)) }
    ensures refused { IfErr result (λ e. e ≡ Error.OutOfMemory) }
{
    rows_of(alloc, symbol_bytes(info), info.symbols_part().is_ok())
}

/// A module's line subsections; none where they can't be read.
#[tactic(auto, unfolding(crate::specs::ModuleCode::program_in))]
pub fn read_program<'a>(alloc: Global, info: &'a ModuleInfo<'a>) -> Result<Option<LinePlaces<'a>>>
    ensures program { IfOk result (λ p. p ≡ program_in info.entry.now) }
    ensures refused { IfErr result (λ e. e ≡ Error.OutOfMemory) }
{
    if_read(info.line_places(alloc))
}

/// The inlined functions of a list up to its fault, and whether it has none.
#[derive(Drop)]
pub(crate) struct ListedInlinees<'a> {
    pub(crate) listed: Vec<Inlinee<'a>>,
    pub(crate) is_whole: bool,
}

/// The inlined functions that an iterator has left, up to its fault.
pub(crate) fn listed<'a>(
    alloc: Global,
    mut inlinees: InlineeIterator<'a>,
) -> Result<ListedInlinees<'a>>
    ensures listed { IfOk result (λ l. l.listed.items ≡ (inlinees_left inlinees.entry).items) }
    ensures whole { IfOk result (λ l. l.is_whole ≡ is_none (inlinees_left inlinees.entry).fault) }
    ensures refused { IfErr result (λ e. e ≡ Error.OutOfMemory) }
{
    let mut listed = Vec::new(alloc);
    loop {
        match inlinees.next() {
            Ok(Some(inlinee)) => {
                if listed.push(inlinee).is_err() {
                    return Err(Error::OutOfMemory);
                }
            }
            Ok(None) => {
                return Ok(ListedInlinees {
                    listed,
                    is_whole: true,
                });
            }
            Err(_) => {
                return Ok(ListedInlinees {
                    listed,
                    is_whole: false,
                });
            }
        }
    }
}

/// Whether each of three tests holds.
pub fn are_all(first: bool, second: bool, third: bool) -> bool
    ensures { result ≡ (first && second && third) }
{
    first && second && third
}

/// Where the procedures of these ranges begin: one byte of each.
pub fn starts_of(alloc: Global, listed: &[CodeRange]) -> Result<Ranges>
    ensures starts { IfOk result (λ starts. (cs : List Code) → AreRangesOf cs listed.now → AreStartsOf cs starts) }
    ensures refused { IfErr result (λ e. e ≡ Error.OutOfMemory) }
{
    let mut rows = Vec::with_capacity(alloc, listed.len())?;
    for range in listed {
        rows.push(CodeRange::new(range.place, 1, range.payload))?;
    }
    Ranges::new(alloc, rows.as_slice())
}

/// What the first symbol says that an iterator has left; none where it can't be read.
pub fn first_said<'t>(alloc: Global, mut symbols: SymbolIter<'t>) -> Result<Option<SymbolData<'t>>>
    ensures says { IfOk result (λ d. option_map shown d ≡ head_says (symbols_left symbols.entry).items) }
    ensures refused { IfErr result (λ e. e ≡ Error.OutOfMemory) }
{
    match symbols.next() {
        Ok(Some(symbol)) => match symbol.parse(alloc) {
            Ok(data) => Ok(Some(data)),
            Err(Error::OutOfMemory) => Err(Error::OutOfMemory),
            Err(_) => Ok(None),
        },
        Ok(None) => Ok(None),
        Err(_) => Ok(None),
    }
}

/// The name that a heading has.
fn name_in(heading: Heading<'_>) -> Option<RawString<'_>>
    ensures { option_map name_bytes result ≡ (shown_heading heading.entry).1 }
{
    heading.name
}

/// The name of a heading; none where it can't be read, or has none.
fn name_if_read(heading: Result<Heading<'_>>) -> Result<Option<RawString<'_>>>
    ensures name { (reading : Result Titled Error) → Gives shown_heading ⊥ heading.entry reading → IfOk result (λ n. option_map name_bytes n ≡ name_titled reading) }
    ensures refused { IfErr result (λ e. e ≡ Error.OutOfMemory) }
{
    match heading {
        Ok(heading) => Ok(name_in(heading)),
        Err(Error::OutOfMemory) => Err(Error::OutOfMemory),
        Err(_) => Ok(None),
    }
}

/// The name of a symbol, by its heading alone; none where it can't be read, or has none.
fn name_of<'t>(alloc: Global, symbol: &Symbol<'t>) -> Result<Option<RawString<'t>>>
    ensures name { IfOk result (λ n. option_map name_bytes n ≡ name_said (says (symbol_of symbol.now))) }
    ensures refused { IfErr result (λ e. e ≡ Error.OutOfMemory) }
{
    name_if_read(symbol.heading(alloc))
}

/// The name of the first symbol that an iterator has left; none where it can't be read, or has none.
pub fn first_name<'t>(alloc: Global, mut symbols: SymbolIter<'t>) -> Result<Option<RawString<'t>>>
    ensures name { IfOk result (λ n. option_map name_bytes n ≡ name_said (head_says (symbols_left symbols.entry).items)) }
    ensures refused { IfErr result (λ e. e ≡ Error.OutOfMemory) }
{
    match symbols.next() {
        Ok(Some(symbol)) => name_of(alloc, &symbol),
        Ok(None) => Ok(None),
        Err(_) => Ok(None),
    }
}

/// What names the managed procedure that is the first symbol which an iterator has left; none where it is another.
pub fn first_managed<'t>(mut symbols: SymbolIter<'t>) -> Option<NamedCode<'t>>
    ensures { option_map shown_naming result ≡ managed_named (head_further (symbols_left symbols.entry).items) }
{
    match symbols.next() {
        Ok(Some(symbol)) => match Record::parse(&symbol) {
            Ok(Record::ManagedProcedure(s)) => Some(named_code(s.name, s.offset)),
            Ok(_) => None,
            Err(_) => None,
        },
        Ok(None) => None,
        Err(_) => None,
    }
}

/// A module's list of inlined functions; none where it can't be read.
#[tactic(auto, unfolding(crate::specs::ModuleCode::inlinees_in))]
fn listed_inlinees<'a>(alloc: Global, info: &'a ModuleInfo<'a>) -> Result<ListedInlinees<'a>>
    ensures listed { IfOk result (λ l. l.listed.items ≡ inlinees_in info.entry.now) }
    ensures whole { IfOk result (λ l. l.is_whole ≡ is_whole_list (inlinees_of info.entry.now)) }
    ensures refused { IfErr result (λ e. e ≡ Error.OutOfMemory) }
{
    match info.inlinees() {
        Ok(inlinees) => listed(alloc, inlinees),
        Err(_) => Ok(ListedInlinees {
            listed: Vec::new(alloc),
            is_whole: false,
        }),
    }
}

/// The inlined functions of a list by their ids.
fn known_of<'a>(inlinees: Vec<Inlinee<'a>>) -> Result<InlineeFinder<'a>>
    ensures known { IfOk result (λ known. inlinee_with known ≡ inlinee_with inlinees.entry.items) }
    ensures refused { IfErr result (λ e. e ≡ Error.OutOfMemory) }
{
    match InlineeFinder::new(inlinees) {
        Ok(known) => Ok(known),
        Err(_) => Err(Error::OutOfMemory),
    }
}

/// A module's inlined functions by their ids.
#[derive(Drop)]
pub struct KnownInlinees<'a> {
    pub known: InlineeFinder<'a>,
    /// Whether their list is there and has no fault.
    pub is_whole: bool,
}

/// A module's inlined functions by their ids, none where they can't be read, and whether their list is whole.
pub fn read_inlinees<'a>(alloc: Global, info: &'a ModuleInfo<'a>) -> Result<KnownInlinees<'a>>
    ensures known { IfOk result (λ k. inlinee_with k.known ≡ inlinee_with (inlinees_in info.entry.now)) }
    ensures whole { IfOk result (λ k. k.is_whole ≡ is_whole_list (inlinees_of info.entry.now)) }
    ensures refused { IfErr result (λ e. e ≡ Error.OutOfMemory) }
{
    let ListedInlinees { listed, is_whole } = listed_inlinees(alloc, info)?;
    Ok(KnownInlinees {
        known: known_of(listed)?,
        is_whole,
    })
}

/// A module's inlined functions by their ids; none where they can't be read.
pub fn read_known<'a>(alloc: Global, info: &'a ModuleInfo<'a>) -> Result<InlineeFinder<'a>>
    ensures known { IfOk result (λ known. inlinee_with known ≡ inlinee_with (inlinees_in info.entry.now)) }
    ensures refused { IfErr result (λ e. e ≡ Error.OutOfMemory) }
{
    Ok(read_inlinees(alloc, info)?.known)
}

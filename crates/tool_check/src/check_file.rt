//! What is wrong with the streams of a file, its modules aside.

ghost use Rattle.std.specs.Prelude.{◌≡◌, ◌≢◌, ◌++◌, ◌⊎◌, flat_map, None, Err, OnOk, IfOk, IfErr, true};
ghost use Rattle.pdb.specs.Error.{Error};
ghost use Rattle.pdb.specs.Answers.{debug_information_in};
ghost use Rattle.pdb.specs.Container.{stream_of};
ghost use Rattle.pdb.specs.Source.{Continues, MayFail};
ghost use Rattle.pdb.specs.Views.{symbol_of, symbols_left};
ghost use Rattle.tool_check.specs.Checks.{contributions_ended_by, contributions_ended_in, ended_by, ids_in, is_said, items_ended_by, modules_of_file, refused};
ghost use Rattle.tool_output.specs.FileNames.{names_in};
ghost use Rattle.tool_check.specs.CheckTexts.{fault_text, first_text, globals_text, ids_text, items_text, listed_globals_text, lists_text, record_text};
ghost use Rattle.tool_output.specs.Stops.{StopsComposing};
ghost use Rattle.tool_output.specs.declared.stop.Stop.{Stop};

use crate::check_types::put_types;
use crate::file_parts::{FilePart, put_part};
use crate::findings::{put_answer, put_end, put_list, put_refusal, put_unparsed};
use crate::subject::Subject;
use pdb::{DebugInformation, Error, FallibleIterator, PDB, Source, Symbol, SymbolIter};
use std::alloc::Global;
use tool_output::stop::Stop;

// piece: put_names
/// The line of the names of streams.
#[tactic(auto, unfolding(tool_output::specs::FileNames::names_in))]
fn put_names<'s, S: Source<'s>>(
    alloc: Global,
    pdb: &mut PDB<'s, S>,
    out: &mut Vec<u8>,
    subject: &Subject<'_>,
    label: &[u8],
) -> Result<(), Stop>
    ensures continues { Continues pdb.old pdb.new }
    ensures text { pdb.new.told ≡ true → OnOk result (out.new.items ≡ out.old.items ++ fault_text subject.now label.now (refused (names_in pdb.old.file))) }
    ensures unwritten { IfErr result (StopsComposing (MayFail pdb.old pdb.new)) }
{
    match pdb.pdb_information() {
        Ok(information) => put_answer(out, subject, label, information.stream_names(alloc)),
        Err(e) => put_refusal(out, subject, label, e),
    }
}
// end

/// The line of the list of modules.
#[tactic(auto, unfolding(crate::specs::Checks::modules_of_file))]
fn put_module_list<'s, S: Source<'s>>(
    pdb: &mut PDB<'s, S>,
    out: &mut Vec<u8>,
    subject: &Subject<'_>,
    label: &[u8],
) -> Result<(), Stop>
    ensures continues { Continues pdb.old pdb.new }
    ensures text { pdb.new.told ≡ true → OnOk result (out.new.items ≡ out.old.items ++ fault_text subject.now label.now (ended_by (modules_of_file pdb.old.file))) }
    ensures unwritten { IfErr result (StopsComposing (MayFail pdb.old pdb.new)) }
{
    match pdb.debug_information() {
        Ok(stream) => put_list(out, subject, label, stream.modules()),
        Err(e) => put_refusal(out, subject, label, e),
    }
}

/// The line of the list of section contributions of a DBI stream; of no byte there are none.
#[tactic(auto, unfolding(crate::specs::Checks::contributions_ended_by))]
fn put_listed_contributions(
    out: &mut Vec<u8>,
    subject: &Subject<'_>,
    label: &[u8],
    stream: &DebugInformation<'_>,
) -> Result<(), Stop>
    ensures text { OnOk result (out.new.items ≡ out.old.items ++ fault_text subject.now label.now (contributions_ended_by stream.now)) }
    ensures unwritten { IfErr result (StopsComposing ⊥) }
{
    if stream.header().section_contribution_size == 0 {
        return Ok(());
    }
    put_list(out, subject, label, stream.section_contributions())
}

/// The line of the list of section contributions.
fn put_contributions<'s, S: Source<'s>>(
    pdb: &mut PDB<'s, S>,
    out: &mut Vec<u8>,
    subject: &Subject<'_>,
    label: &[u8],
) -> Result<(), Stop>
    ensures continues { Continues pdb.old pdb.new }
    ensures text { pdb.new.told ≡ true → OnOk result (out.new.items ≡ out.old.items ++ fault_text subject.now label.now (contributions_ended_in (debug_information_in pdb.old.file))) }
    ensures unwritten { IfErr result (StopsComposing (MayFail pdb.old pdb.new)) }
{
    match pdb.debug_information() {
        Ok(stream) => put_listed_contributions(out, subject, label, &stream),
        Err(e) => put_refusal(out, subject, label, e),
    }
}

/// The line of a global symbol whose record has an error.
#[tactic(auto, unfolding(crate::specs::Checks::record_refused))]
fn put_record(
    alloc: Global,
    out: &mut Vec<u8>,
    subject: &Subject<'_>,
    word: &[u8],
    symbol: &Symbol<'_>,
) -> Result<(), Stop>
    ensures unwritten { IfErr result (StopsComposing ⊥) }
    ensures text { OnOk result (out.new.items ≡ out.old.items ++ record_text subject.now word.now (symbol_of symbol.now)) }
{
    match symbol.parse(alloc) {
        Ok(_parsed) => Ok(()),
        Err(e) => put_unparsed(alloc, out, subject, word, symbol, e),
    }
}

/// The lines of the symbols that an iterator over the global symbols has left.
fn put_records(
    alloc: Global,
    out: &mut Vec<u8>,
    subject: &Subject<'_>,
    word: &[u8],
    mut symbols: SymbolIter<'_>,
) -> Result<(), Stop>
    ensures unwritten { IfErr result (StopsComposing ⊥) }
    ensures text { OnOk result (out.new.items ≡ out.old.items ++ flat_map (record_text subject.now word.now) (symbols_left symbols.entry).items) }
{
    loop {
        match symbols.next() {
            Ok(Some(symbol)) => put_record(alloc, out, subject, word, &symbol)?,
            Ok(None) => return Ok(()),
            Err(_) => return Ok(()),
        }
    }
}

/// The lines of the global symbols: that of their list, and then those of single symbols.
#[tactic(auto, unfolding(crate::specs::CheckTexts::listed_globals_text, crate::specs::Checks::global_symbols_of_file))]
fn put_listed_globals<'s, S: Source<'s>>(
    alloc: Global,
    pdb: &mut PDB<'s, S>,
    out: &mut Vec<u8>,
    subject: &Subject<'_>,
    label: &[u8],
    word: &[u8],
) -> Result<(), Stop>
    ensures continues { Continues pdb.old pdb.new }
    ensures text { pdb.new.told ≡ true → OnOk result (out.new.items ≡ out.old.items ++ listed_globals_text subject.now label.now word.now pdb.old.file) }
    ensures unwritten { IfErr result (StopsComposing (MayFail pdb.old pdb.new)) }
{
    match pdb.global_symbols() {
        Ok(table) => {
            put_end(out, subject, label, table.iter())?;
            put_records(alloc, out, subject, word, table.iter())
        }
        Err(e) => put_refusal(out, subject, label, e),
    }
}

/// The same, with the labels of the list and of its symbols.
#[tactic(auto, unfolding(crate::specs::CheckTexts::globals_text))]
pub(crate) fn put_globals<'s, S: Source<'s>>(
    alloc: Global,
    pdb: &mut PDB<'s, S>,
    out: &mut Vec<u8>,
    subject: &Subject<'_>,
) -> Result<(), Stop>
    ensures continues { Continues pdb.old pdb.new }
    ensures text { pdb.new.told ≡ true → OnOk result (out.new.items ≡ out.old.items ++ globals_text subject.now pdb.old.file) }
    ensures unwritten { IfErr result (StopsComposing (MayFail pdb.old pdb.new)) }
{
    put_listed_globals(
        alloc,
        pdb,
        out,
        subject,
        b"global symbols",
        b"global symbol ",
    )
}

/// The line of the error of a stream of items, unless it isn't there.
pub(crate) fn put_items_refusal(
    out: &mut Vec<u8>,
    subject: &Subject<'_>,
    label: &[u8],
    e: Error,
) -> Result<(), Stop>
    ensures text { OnOk result ((e ≢ Error.OutOfMemory) × (e ≢ Error.IoError) × (out.new.items ≡ out.old.items ++ fault_text subject.now label.now (items_ended_by (Err e)))) }
    ensures unwritten { IfErr result (StopsComposing (e ≡ Error.IoError)) }
{
    match e {
        Error::StreamNotFound(_) => Ok(()),
        e => put_refusal(out, subject, label, e),
    }
}

/// The line of the stream of ids.
fn put_id_stream<'s, S: Source<'s>>(
    pdb: &mut PDB<'s, S>,
    out: &mut Vec<u8>,
    subject: &Subject<'_>,
    label: &[u8],
) -> Result<(), Stop>
    ensures continues { Continues pdb.old pdb.new }
    ensures text { pdb.new.told ≡ true → OnOk result (out.new.items ≡ out.old.items ++ fault_text subject.now label.now (items_ended_by (stream_of pdb.old.file 4 None))) }
    ensures unwritten { IfErr result (StopsComposing (MayFail pdb.old pdb.new)) }
{
    match pdb.id_information() {
        Ok(ids) => put_list(out, subject, label, ids.iter()),
        Err(e) => put_items_refusal(out, subject, label, e),
    }
}

/// Whether the information stream says that stream 4 has ids.
#[tactic(auto, unfolding(crate::specs::Checks::ids_in))]
fn has_ids<'s, S: Source<'s>>(pdb: &mut PDB<'s, S>) -> Result<bool, Stop>
    ensures continues { Continues pdb.old pdb.new }
    ensures said { pdb.new.told ≡ true → IfOk result (λ b. b ≡ is_said (ids_in pdb.old.file)) }
    ensures unwritten { IfErr result (StopsComposing (MayFail pdb.old pdb.new)) }
{
    match pdb.pdb_information() {
        Ok(information) => Ok(information.has_ids().unwrap_or(false)),
        Err(Error::OutOfMemory) => Err(Stop::Memory),
        Err(Error::IoError) => Err(Stop::Read),
        Err(_) => Ok(false),
    }
}

/// The line of the ids, if the information stream says that they are there.
#[tactic(auto, unfolding(crate::specs::CheckTexts::ids_text))]
fn put_ids<'s, S: Source<'s>>(
    pdb: &mut PDB<'s, S>,
    out: &mut Vec<u8>,
    subject: &Subject<'_>,
) -> Result<(), Stop>
    ensures continues { Continues pdb.old pdb.new }
    ensures text { pdb.new.told ≡ true → OnOk result (out.new.items ≡ out.old.items ++ ids_text subject.now pdb.old.file) }
    ensures unwritten { IfErr result (StopsComposing (MayFail pdb.old pdb.new)) }
{
    if !has_ids(pdb)? {
        return Ok(());
    }
    put_id_stream(pdb, out, subject, b"ids")
}

/// The lines of the information stream and of the names of streams.
#[tactic(auto, unfolding(crate::specs::CheckTexts::first_text))]
pub(crate) fn put_first<'s, S: Source<'s>>(
    alloc: Global,
    pdb: &mut PDB<'s, S>,
    out: &mut Vec<u8>,
    subject: &Subject<'_>,
) -> Result<(), Stop>
    ensures continues { Continues pdb.old pdb.new }
    ensures text { pdb.new.told ≡ true → OnOk result (out.new.items ≡ out.old.items ++ first_text subject.now pdb.old.file) }
    ensures unwritten { IfErr result (StopsComposing (MayFail pdb.old pdb.new)) }
{
    put_part(pdb, out, subject, FilePart::Information)?;
    put_names(alloc, pdb, out, subject, b"names")
}

/// The lines of the lists of modules and of section contributions.
#[tactic(auto, unfolding(crate::specs::CheckTexts::lists_text))]
pub(crate) fn put_lists<'s, S: Source<'s>>(
    pdb: &mut PDB<'s, S>,
    out: &mut Vec<u8>,
    subject: &Subject<'_>,
) -> Result<(), Stop>
    ensures continues { Continues pdb.old pdb.new }
    ensures text { pdb.new.told ≡ true → OnOk result (out.new.items ≡ out.old.items ++ lists_text subject.now pdb.old.file) }
    ensures unwritten { IfErr result (StopsComposing (MayFail pdb.old pdb.new)) }
{
    put_module_list(pdb, out, subject, b"modules")?;
    put_contributions(pdb, out, subject, b"contributions")
}

/// The lines of the types and the ids.
#[tactic(auto, unfolding(crate::specs::CheckTexts::items_text, crate::specs::CheckTexts::types_text))]
pub(crate) fn put_items<'s, S: Source<'s>>(
    alloc: Global,
    pdb: &mut PDB<'s, S>,
    out: &mut Vec<u8>,
    subject: &Subject<'_>,
) -> Result<(), Stop>
    ensures continues { Continues pdb.old pdb.new }
    ensures text { pdb.new.told ≡ true → OnOk result (out.new.items ≡ out.old.items ++ items_text subject.now pdb.old.file) }
    ensures unwritten { IfErr result (StopsComposing (MayFail pdb.old pdb.new)) }
{
    put_types(alloc, pdb, out, subject, b"types")?;
    put_ids(pdb, out, subject)
}

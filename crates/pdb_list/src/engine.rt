//! Texts written to a writer.

ghost use Rattle.std.specs.Prelude.{◌≡◌, ◌≢◌, ◌+◌, ◌^◌, ◌<◌, ◌≤◌, ◌⊎◌, ◌++◌, ◌∷◌, false, true, length, OnOk, IfOk, IfErr, IsErrOf, Ok, Err};
ghost use Rattle.std.specs.Io.KnownBytes.{Appends, Keeps};
ghost use Rattle.pdb.specs.Error.{Error};
ghost use Rattle.pdb.specs.Error.TheVariants.{OutOfMemory};
ghost use Rattle.pdb.specs.Source.{State, Continues, IsKnown};
ghost use Rattle.pdb.specs.Container.{opens};
ghost use Rattle.pdb_list.specs.Chosen.{IsListOf, KeptOf};
ghost use Rattle.pdb.specs.Listed.{listed};
ghost use Rattle.pdb_text.specs.Written.{WroteFirst, WroteFront};
ghost use Rattle.pdb_list.specs.Unfailed.{Unfailed};
ghost use Rattle.pdb_list.specs.Wrote.{Wrote};
ghost use Rattle.pdb_list.specs.CommandTexts.{command_text, of_module_text, run_error_of, texts};
ghost use Rattle.pdb_list.specs.ModuleTexts.{module_text, text_of_module};
ghost use Rattle.pdb_list.specs.Texts.{error_text};

use crate::chosen::module_info_in;
use crate::command::{Command, names_module};
use crate::contributions::put_contributions;
use crate::cross_module::{put_exports, put_import};
use crate::files::put_files;
use crate::info::put_info;
use crate::inlinees::put_inlinees;
use crate::lines::put_lines;
use crate::modules::put_modules;
use crate::names::put_names;
use crate::sections::put_sections;
use crate::symbols::{put_globals, put_symbols_of};
use crate::text::{put_none, put_refusal};
use pdb::{Error, ModuleInfo, ModuleList, PDB, Source};
use pdb_text::{WriteFailed, write_out};
use std::alloc::{AllocError, Global};
use std::io::Write;

/// Why a run stopped.
#[derive(Clone, Copy, Debug, PartialEq, Eq)]
pub enum RunError {
    /// Out of memory.
    OutOfMemory,
    /// The file is no container that can be opened.
    Open(Error),
    /// A read of the file failed.
    Read,
    /// The writer failed, or took nothing.
    Write,
}

impl From<AllocError> for RunError {
    ghost use Rattle.pdb_list.specs.declared.engine.RunError.TheVariants.{OutOfMemory};

    ghost from_gives = { λ _ e. e ≡ OutOfMemory };

    fn from(_e: AllocError) -> RunError {
        RunError::OutOfMemory
    }
}

impl From<WriteFailed> for RunError {
    ghost use Rattle.pdb_list.specs.declared.engine.RunError.TheVariants.{Write};

    ghost from_gives = { λ _ e. e ≡ Write };

    fn from(_e: WriteFailed) -> RunError {
        RunError::Write
    }
}

/// A file that can't be opened stops a run; out of memory is reported as such.
fn open_error(e: Error) -> RunError
    ensures { result ≡ run_error_of e }
{
    match e {
        Error::OutOfMemory => RunError::OutOfMemory,
        e => RunError::Open(e),
    }
}

/// The text of a command over what a module's stream says.
fn put_of_module(
    alloc: Global,
    out: &mut Vec<u8>,
    info: &ModuleInfo<'_>,
    command: Command,
) -> Result<(), AllocError>
    ensures { OnOk result (out.new.items ≡ out.old.items ++ of_module_text command info.now) }
{
    match command {
        Command::Symbols(_) => put_symbols_of(alloc, out, info),
        Command::Lines(_) => put_lines(alloc, out, info),
        Command::Files(_) => put_files(out, info),
        Command::Inlinees(_) => put_inlinees(alloc, out, info),
        Command::Imports(_, index) => put_import(alloc, out, info, index),
        Command::Exports(_) => put_exports(alloc, out, info),
        _ => Ok(()),
    }
}

/// The text of a command over what was found of a module.
fn put_found(
    alloc: Global,
    out: &mut Vec<u8>,
    found: pdb::Result<Option<ModuleInfo<'_>>>,
    command: Command,
) -> Result<(), AllocError>
    ensures found { IfOk found.entry (λ m. OnOk result (out.new.items ≡ out.old.items ++ text_of_module (of_module_text command) m)) }
    ensures refused { IfErr found.entry (λ e. OnOk result ((e ≢ OutOfMemory) × (out.new.items ≡ out.old.items ++ error_text e))) }
{
    match found {
        Ok(Some(info)) => put_of_module(alloc, out, &info, command),
        Ok(None) => put_none(out),
        Err(e) => put_refusal(out, e),
    }
}

/// The text of a command over the module with this index in the list of modules.
fn put_of_chosen<'s, S: Source<'s>>(
    alloc: Global,
    out: &mut Vec<u8>,
    pdb: &mut PDB<'s, S>,
    k: u32,
    command: Command,
) -> Result<(), AllocError>
    ensures continues { Continues pdb.old pdb.new }
    ensures text { pdb.new.told ≡ true → Unfailed pdb.old pdb.new → OnOk result (out.new.items ≡ out.old.items ++ module_text pdb.old.file k (of_module_text command)) }
{
    let found = pdb.module_at(k as usize);
    put_found(alloc, out, found, command)
}

/// The same by a list of modules that is kept.
#[tactic(auto, using(crate::proofs::ModuleLists::info_of_list))]
fn put_of_kept<'s, S: Source<'s>>(
    alloc: Global,
    out: &mut Vec<u8>,
    pdb: &mut PDB<'s, S>,
    modules: &mut ModuleList<'_>,
    k: u32,
    command: Command,
) -> Result<(), AllocError>
    ensures continues { Continues pdb.old pdb.new }
    ensures kept { OnOk result (listed modules.new ≡ listed modules.old) }
    ensures text { pdb.new.told ≡ true → Unfailed pdb.old pdb.new → IsListOf pdb.old.file modules.old → OnOk result (out.new.items ≡ out.old.items ++ module_text pdb.old.file k (of_module_text command)) }
{
    let found = module_info_in(modules, pdb, k);
    put_found(alloc, out, found, command)
}

/// The text of a command over an opened file.
fn put_text<'s, S: Source<'s>>(
    alloc: Global,
    out: &mut Vec<u8>,
    pdb: &mut PDB<'s, S>,
    command: Command,
) -> Result<(), AllocError>
    ensures continues { Continues pdb.old pdb.new }
    ensures text { pdb.new.told ≡ true → Unfailed pdb.old pdb.new → OnOk result (out.new.items ≡ out.old.items ++ command_text pdb.old.file command) }
{
    match command {
        Command::Info => put_info(alloc, out, pdb),
        Command::Names => put_names(alloc, out, pdb),
        Command::Modules => put_modules(out, pdb),
        Command::Contributions => put_contributions(out, pdb),
        Command::Sections => put_sections(out, pdb),
        Command::Globals => put_globals(alloc, out, pdb),
        Command::Symbols(k)
        | Command::Lines(k)
        | Command::Files(k)
        | Command::Inlinees(k)
        | Command::Imports(k, _)
        | Command::Exports(k) => put_of_chosen(alloc, out, pdb, k, command),
    }
}

/// The text of a command over an opened file, by the list of modules where one is kept.
fn put_next<'s, S: Source<'s>>(
    alloc: Global,
    out: &mut Vec<u8>,
    pdb: &mut PDB<'s, S>,
    kept: &mut Option<ModuleList<'_>>,
    command: Command,
) -> Result<(), AllocError>
    ensures continues { Continues pdb.old pdb.new }
    ensures kept { KeptOf pdb.old.file kept.old → OnOk result (KeptOf pdb.old.file kept.new) }
    ensures text { pdb.new.told ≡ true → Unfailed pdb.old pdb.new → KeptOf pdb.old.file kept.old → OnOk result (out.new.items ≡ out.old.items ++ command_text pdb.old.file command) }
{
    match (kept, command.module_index()) {
        (Some(modules), Some(k)) => put_of_kept(alloc, out, pdb, modules, k, command),
        _ => put_text(alloc, out, pdb, command),
    }
}

/// Whether a view failed since so many had, or it can't be told.
fn has_failed<'s, S: Source<'s>>(pdb: &PDB<'s, S>, before: u64) -> bool
    ensures failed { result ≡ true → (before < pdb.now.failures) ⊎ (2 ^ 64 ≤ pdb.now.failures + 1) }
    ensures unfailed { result ≡ false → (old : State) → old.failures ≡ before → Unfailed old pdb.now }
{
    let failures = pdb.failures();
    failures > before || failures == u64::MAX
}

/// The capacity for a text before it grows, in bytes.
const CAPACITY: usize = 262_144;

/// Writes the commands' texts, one after the other. Each text is composed and then written. Where `stops_unread`, a
/// view that fails ends the run, and nothing of that text is written.
fn write_texts<'s, S: Source<'s>, W: Write>(
    alloc: Global,
    pdb: &mut PDB<'s, S>,
    kept: &mut Option<ModuleList<'_>>,
    commands: &[Command],
    stops_unread: bool,
    out: &mut W,
) -> Result<(), RunError>
    ensures continues { Continues pdb.old pdb.new }
    ensures opened { (e : Error) → IsErrOf result (RunError.Open e) → ⊥ }
    ensures read { IsErrOf result RunError.Read → stops_unread ≡ true }
    ensures wrote { IsKnown pdb.old → (stops_unread ≡ false → pdb.old.steady ≡ true) → KeptOf pdb.old.file kept.old → Wrote (command_text pdb.old.file) (W.contents out.old) (W.contents out.new) commands.now result }
{
    let capacity = if commands.is_empty() { 0 } else { CAPACITY };
    let mut text = Vec::with_capacity(alloc, capacity)?;
    for command in commands {
        let failures = pdb.failures();
        text.clear();
        put_next(alloc, &mut text, pdb, kept, *command)?;
        if stops_unread && has_failed(pdb, failures) {
            return Err(RunError::Read);
        }
        write_out(out, &text)?;
    }
    Ok(())
}

/// Writes the line of an error in place of a command's text, and the texts of the commands behind it.
fn write_refused<'s, S: Source<'s>, W: Write>(
    alloc: Global,
    pdb: &mut PDB<'s, S>,
    refusal: Error,
    commands: &[Command],
    stops_unread: bool,
    out: &mut W,
) -> Result<(), RunError>
    ensures opened { (e : Error) → IsErrOf result (RunError.Open e) → ⊥ }
    ensures read { IsErrOf result RunError.Read → stops_unread ≡ true }
    ensures wrote { IsKnown pdb.old → (stops_unread ≡ false → pdb.old.steady ≡ true) → (first : Command) → (refusal ≢ OutOfMemory → command_text pdb.old.file first ≡ error_text refusal) → Wrote (command_text pdb.old.file) (W.contents out.old) (W.contents out.new) (first ∷ commands.now) result }
{
    let mut line = Vec::new(alloc);
    put_refusal(&mut line, refusal)?;
    write_out(out, &line)?;
    write_texts(alloc, pdb, &mut None, commands, stops_unread, out)
}

/// Writes the commands' texts. Where the first names a module, the list of modules is kept for all of them.
fn write_rest<'s, S: Source<'s>, W: Write>(
    alloc: Global,
    pdb: &mut PDB<'s, S>,
    commands: &[Command],
    stops_unread: bool,
    out: &mut W,
) -> Result<(), RunError>
    ensures opened { (e : Error) → IsErrOf result (RunError.Open e) → ⊥ }
    ensures read { IsErrOf result RunError.Read → stops_unread ≡ true }
    ensures wrote { IsKnown pdb.old → (stops_unread ≡ false → pdb.old.steady ≡ true) → Wrote (command_text pdb.old.file) (W.contents out.old) (W.contents out.new) commands.now result }
{
    let Some((first, others)) = commands.split_first() else {
        return Ok(());
    };
    let Some(_) = first.module_index() else {
        return write_texts(alloc, pdb, &mut None, commands, stops_unread, out);
    };
    let failures = pdb.failures();
    let found = pdb.debug_information();
    if stops_unread && has_failed(pdb, failures) {
        return Err(RunError::Read);
    }
    let information = match found {
        Ok(information) => information,
        Err(e) => return write_refused(alloc, pdb, e, others, stops_unread, out),
    };
    match information.modules() {
        Ok(modules) => {
            let mut kept = Some(ModuleList::new(alloc, modules));
            write_texts(alloc, pdb, &mut kept, commands, stops_unread, out)
        }
        Err(e) => write_refused(alloc, pdb, e, others, stops_unread, out),
    }
}

/// How many commands stand before the first that names a module.
fn plain_count(commands: &[Command]) -> usize
    ensures { result ≤ length commands.now }
{
    commands
        .iter()
        .position(names_module)
        .unwrap_or(commands.len())
}

/// Writes the commands' texts over an opened file.
fn write_all<'s, S: Source<'s>, W: Write>(
    alloc: Global,
    pdb: &mut PDB<'s, S>,
    commands: &[Command],
    stops_unread: bool,
    out: &mut W,
) -> Result<(), RunError>
    ensures opened { (e : Error) → IsErrOf result (RunError.Open e) → ⊥ }
    ensures read { IsErrOf result RunError.Read → stops_unread ≡ true }
    ensures wrote { IsKnown pdb.old → (stops_unread ≡ false → pdb.old.steady ≡ true) → Wrote (command_text pdb.old.file) (W.contents out.old) (W.contents out.new) commands.now result }
{
    let (plain, rest) = commands.split_at(plain_count(commands));
    write_texts(alloc, pdb, &mut None, plain, stops_unread, out)?;
    write_rest(alloc, pdb, rest, stops_unread, out)
}

/// Opens the file of a source, and writes the commands' texts over it, one after the other. Each text is composed and
/// then written. A command that fails has its items before the fault and then the line `error N`, and the next
/// command follows. The promises on the texts are made for a source whose bytes are known and that is steady.
pub fn run<'s, S: Source<'s>, W: Write>(
    alloc: Global,
    source: S,
    commands: &[Command],
    out: &mut W,
) -> Result<(), RunError>
    // All texts were written.
    ensures ok { IsKnown (S.state source) → (S.state source).steady ≡ true → OnOk result ((opens (S.state source).file ≡ Ok tt)
        × Appends (W.contents out.old) (W.contents out.new) (texts (S.state source).file commands.now)) }
    // The texts of some first commands were written, whole.
    ensures memory { IsKnown (S.state source) → (S.state source).steady ≡ true → IsErrOf result RunError.OutOfMemory
        → WroteFirst (command_text (S.state source).file) (W.contents out.old) (W.contents out.new) commands.now }
    // The file can't be opened, and nothing was written.
    ensures open { (e : Error) → IsErrOf result (RunError.Open e) → (e ≢ OutOfMemory) × Keeps (W.contents out.old) (W.contents out.new) }
    ensures refused { IsKnown (S.state source) → (S.state source).steady ≡ true → (e : Error) → IsErrOf result (RunError.Open e) → opens (S.state source).file ≡ Err e }
    // A beginning of the texts was written.
    ensures write { IsKnown (S.state source) → (S.state source).steady ≡ true → IsErrOf result RunError.Write
        → WroteFront (W.contents out.old) (W.contents out.new) (texts (S.state source).file commands.now) }
    // A view that fails is an error like others.
    ensures read { IsErrOf result RunError.Read → ⊥ }
{
    let mut pdb = match PDB::open(alloc, source) {
        Ok(pdb) => pdb,
        Err(e) => return Err(open_error(e)),
    };
    write_all(alloc, &mut pdb, commands, false, out)
}

/// The same, but a view that fails ends the run behind the whole texts of the commands before.
pub fn run_reading<'s, S: Source<'s>, W: Write>(
    alloc: Global,
    source: S,
    commands: &[Command],
    out: &mut W,
) -> Result<(), RunError>
    // All texts were written.
    ensures ok { IsKnown (S.state source) → OnOk result ((opens (S.state source).file ≡ Ok tt)
        × Appends (W.contents out.old) (W.contents out.new) (texts (S.state source).file commands.now)) }
    // The texts of some first commands were written, whole.
    ensures memory { IsKnown (S.state source) → IsErrOf result RunError.OutOfMemory
        → WroteFirst (command_text (S.state source).file) (W.contents out.old) (W.contents out.new) commands.now }
    ensures read { IsKnown (S.state source) → IsErrOf result RunError.Read
        → WroteFirst (command_text (S.state source).file) (W.contents out.old) (W.contents out.new) commands.now }
    // The file can't be opened, and nothing was written.
    ensures open { (e : Error) → IsErrOf result (RunError.Open e) → (e ≢ OutOfMemory) × Keeps (W.contents out.old) (W.contents out.new) }
    ensures refused { IsKnown (S.state source) → (e : Error) → IsErrOf result (RunError.Open e) → opens (S.state source).file ≡ Err e }
    // A beginning of the texts was written.
    ensures write { IsKnown (S.state source) → IsErrOf result RunError.Write
        → WroteFront (W.contents out.old) (W.contents out.new) (texts (S.state source).file commands.now) }
    ensures steady { (S.state source).steady ≡ true → IsErrOf result RunError.Read → ⊥ }
{
    let mut pdb = match PDB::open(alloc, source) {
        Ok(pdb) => pdb,
        Err(Error::IoError) => return Err(RunError::Read),
        Err(e) => return Err(open_error(e)),
    };
    // A steady source can't fail.
    let stops_unread = !pdb.steady();
    write_all(alloc, &mut pdb, commands, stops_unread, out)
}

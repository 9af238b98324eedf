//! Lists what a PDB file says: `pdb_list FILE COMMAND..`. With no words, or the one word `sample`, it lists a small
//! file that it makes itself.
#![tactic(auto)]

mod chosen;
mod command;
mod contributions;
mod cross_module;
mod engine;
mod files;
mod from_reader;
mod info;
mod inlinees;
mod lines;
mod modules;
mod names;
mod report;
mod sections;
mod symbols;
mod text;

use bumpalo::Bump;
use command::{Command, asks_for_sample, parse_commands};
use engine::run;
use from_reader::list_from;
use pdb::MemorySource;
use pdb_file::{CountedReader, read_all, size_of};
use pdb_text::words_of;
use report::{Fault, report};
use std::alloc::Global;
use std::fs::{self, File};
use std::io::{self, ErrorKind};
use std::process::ExitCode;
use std::rt::{Env, Files};

/// What is listed of the sample: all that can be listed.
const SAMPLE_COMMANDS: [Command; 12] = [
    Command::Info,
    Command::Names,
    Command::Modules,
    Command::Contributions,
    Command::Sections,
    Command::Globals,
    Command::Symbols(0),
    Command::Lines(0),
    Command::Files(0),
    Command::Inlinees(0),
    Command::Imports(0, 2147483648),
    Command::Exports(0),
];

/// Why the program's words can't be had: one isn't UTF-8, or there is no memory for them.
fn words_fault(e: &io::Error) -> Fault {
    match e.kind() {
        ErrorKind::OutOfMemory => Fault::Memory,
        _ => Fault::Usage,
    }
}

/// Lists the sample.
fn list_sample<W: io::Write>(alloc: Global, out: &mut W) -> Result<(), Fault> {
    let bytes = pdb_sample::file(alloc).map_err(|_| Fault::Memory)?;
    run(alloc, MemorySource::new(&bytes), &SAMPLE_COMMANDS, out)?;
    Ok(())
}

/// Lists what the words ask for: their commands are taken first, then the file is read, as far as they ask for it where
/// it can be read at an offset, and else whole.
fn list(rt: &(impl Env + Files<File = File> + Print + AllocGlobal)) -> Result<(), Fault> {
    let arena = Bump::new(rt.alloc());
    let words = words_of(&(rt, &arena)).map_err(|e| words_fault(&e))?;
    let mut out = io::writer(rt);
    if asks_for_sample(&words) {
        return list_sample(rt.alloc(), &mut out);
    }
    let Some((name, spelled)) = words.split_first() else {
        return Err(Fault::Usage);
    };
    if spelled.is_empty() {
        return Err(Fault::Usage);
    }
    let commands = parse_commands(rt.alloc(), spelled)?;
    let file = fs::open(rt, name.as_str()).map_err(|_| Fault::Read)?;
    if let Some(size) = size_of(&file) {
        return list_from(rt.alloc(), &file, size, &commands, &mut out);
    }
    let bytes = read_all(rt.alloc(), &mut CountedReader::counting(file))?;
    run(rt.alloc(), MemorySource::new(&bytes), &commands, &mut out)?;
    Ok(())
}

fn main(rt: HostRuntime) -> ExitCode {
    match list(&rt) {
        Ok(()) => ExitCode::SUCCESS,
        Err(fault) => ExitCode::from(report(&fault, &mut rt.stderr())),
    }
}

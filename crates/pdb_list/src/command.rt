//! What the program is asked for.

ghost use Rattle.std.specs.Prelude.{◌≡◌, ◌+◌, ◌<◌, ◌≤◌, length, map, string_bytes, IfOk};
ghost use Rattle.std.specs.Option.{is_some};
ghost use Rattle.pdb_list.specs.CommandTexts.{module_index_of};
ghost use Rattle.pdb_text.specs.Arguments.{Tells};
ghost use Rattle.pdb_list.specs.Words.{plain_command, takes_module, module_command, number_at, longer_at, command_at, spelled, asks_for_sample};

use pdb_text::{WordsError, number_in};
use std::alloc::{Allocator, Global};

/// A part of a file to be listed.
#[derive(Clone, Copy, Debug, PartialEq, Eq)]
pub enum Command {
    /// Which file it is: `info`.
    Info,
    /// The names of streams: `names`.
    Names,
    /// The modules: `modules`.
    Modules,
    /// Which bytes of the image came from which module: `contributions`.
    Contributions,
    /// The section headers of the image: `sections`.
    Sections,
    /// The global symbols: `globals`.
    Globals,
    /// The symbols of the module with this index in the list of modules, counted from 0: `symbols K`.
    Symbols(u32),
    /// The line records of a module: `lines K`.
    Lines(u32),
    /// The files of a module: `files K`.
    Files(u32),
    /// The inlined functions of a module, and where they were inlined: `inlinees K`.
    Inlinees(u32),
    /// What this index of a module refers to in another module: `imports K I`.
    Imports(u32, u32),
    /// What a module exports to others: `exports K`.
    Exports(u32),
}

impl Command {
    ghost use Rattle.std.specs.Prelude.{IfSome, List, ℕ};
    ghost use Rattle.pdb_list.specs.CommandTexts.{command_text, of_module_text, module_index_of};
    ghost use Rattle.pdb_list.specs.ModuleTexts.{module_text};

    /// The index in the list of modules of the one that the command names, where it names one.
    pub fn module_index(self) -> Option<u32>
        ensures place { result ≡ module_index_of self }
        ensures text { IfSome result (λ k. (file : List ℕ) → command_text file self ≡ module_text file k (of_module_text self)) }
    {
        match self {
            Command::Symbols(k)
            | Command::Lines(k)
            | Command::Files(k)
            | Command::Inlinees(k)
            | Command::Imports(k, _)
            | Command::Exports(k) => Some(k),
            _ => None,
        }
    }
}

/// Whether a command names a module.
pub fn names_module(command: &Command) -> bool
    ensures { result ≡ is_some (module_index_of command.now) }
{
    command.module_index().is_some()
}

/// The command of one word, where there is one.
fn plain_command(word: &str) -> Option<Command>
    ensures { result ≡ plain_command word.now }
{
    match word {
        "info" => Some(Command::Info),
        "names" => Some(Command::Names),
        "modules" => Some(Command::Modules),
        "contributions" => Some(Command::Contributions),
        "sections" => Some(Command::Sections),
        "globals" => Some(Command::Globals),
        _ => None,
    }
}

/// Whether a module's number stands behind this word.
fn takes_module(word: &str) -> bool
    ensures { result ≡ takes_module word.now }
{
    word == "symbols"
        || word == "lines"
        || word == "files"
        || word == "inlinees"
        || word == "exports"
}

/// The command of such a word and number.
fn module_command(word: &str, k: u32) -> Command
    ensures { result ≡ module_command word.now k }
{
    if word == "symbols" {
        Command::Symbols(k)
    } else if word == "lines" {
        Command::Lines(k)
    } else if word == "files" {
        Command::Files(k)
    } else if word == "inlinees" {
        Command::Inlinees(k)
    } else {
        Command::Exports(k)
    }
}

/// The number that the argument of an index is.
fn number_at<A: Allocator>(words: &[String<A>], at: usize) -> Result<u32, WordsError>
    ensures number { Tells (λ n. n) result (number_at (map string_bytes words.now) at) }
    ensures there { IfOk result (λ _. at < length words.now) }
{
    match words.get(at) {
        Some(word) => number_in(word.as_str()).ok_or(WordsError::BadWord(at)),
        None => Err(WordsError::BadWord(at)),
    }
}

/// The command that begins with this word at an index and has numbers behind it, and how many words spell it.
fn longer_from<A: Allocator>(
    words: &[String<A>],
    at: usize,
    word: &str,
) -> Result<(Command, usize), WordsError>
    requires { at < length words.now }
    ensures command { Tells (λ c. c) result (longer_at (map string_bytes words.now) at word.now) }
    ensures count { IfOk result (λ c. (0 < c.1) × (at + c.1 ≤ length words.now)) }
{
    if takes_module(word) {
        let k = number_at(words, at + 1)?;
        return Ok((module_command(word, k), 2));
    }
    if word == "imports" {
        let k = number_at(words, at + 1)?;
        let index = number_at(words, at + 2)?;
        return Ok((Command::Imports(k, index), 3));
    }
    Err(WordsError::BadWord(at))
}

/// The command that begins at an index, and how many words spell it.
#[tactic(auto, unfolding(crate::specs::Words::command_at))]
fn command_from<A: Allocator>(
    words: &[String<A>],
    at: usize,
) -> Result<(Command, usize), WordsError>
    ensures command { Tells (λ c. c) result (command_at (map string_bytes words.now) at) }
    ensures count { IfOk result (λ c. (0 < c.1) × (at + c.1 ≤ length words.now)) }
{
    let Some(word) = words.get(at) else {
        return Err(WordsError::BadWord(at));
    };
    match plain_command(word.as_str()) {
        Some(command) => Ok((command, 1)),
        None => longer_from(words, at, word.as_str()),
    }
}

/// The commands that the words spell, in their order, or the index of the first word that spells none.
pub fn parse_commands<A: Allocator>(
    alloc: Global,
    words: &[String<A>],
) -> Result<Vec<Command>, WordsError>
    ensures { Tells (λ v. v.items) result (spelled (map string_bytes words.now)) }
{
    let mut commands = Vec::new(alloc);
    let mut at = 0;
    while at < words.len() {
        let (command, count) = command_from(words, at)?;
        commands.push(command)?;
        at += count;
    }
    Ok(commands)
}

/// Whether the program's words, without its own name, ask for the sample: there are none, or the one word `sample`.
pub fn asks_for_sample<A: Allocator>(words: &[String<A>]) -> bool
    ensures { result ≡ asks_for_sample (map string_bytes words.now) }
{
    match words {
        [] => true,
        [word] => word.as_str() == "sample",
        _ => false,
    }
}

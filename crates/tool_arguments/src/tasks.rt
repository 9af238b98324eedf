//! What the program has to do, by its arguments alone.

ghost use Rattle.std.specs.Prelude.{◌≡◌, ◌+◌, ◌<◌, ◌^◌, drop, length, map, string_bytes};
ghost use Rattle.std.specs.Option.{option_map};
ghost use Rattle.tool_arguments.specs.Mistakes.{Judges};
ghost use Rattle.tool_arguments.specs.Operands.{operand_view};
ghost use Rattle.tool_arguments.specs.declared.options.Next.{Next};
ghost use Rattle.tool_arguments.specs.Tasks.{addresses_task, asks_for_help, behind_command, checks_task, ending, find_task, help_task, is_help, keys_task, module_task, over_file, over_operands, split_first, store_task, stream_task, symbols_task, task_of, task_view, wants_help, where_task};

use crate::commands::{Command, command_in, named_in};
use crate::mistakes::{Mistake, TaskError, Wrong};
use crate::operands::{
    Operand, all_addresses, all_modules, all_sources, all_types, first_empty, operands_in,
};
use crate::options::{
    Detail, KeyFormat, Next, Options, OutputFormat, ValueAt, behind_word, options_in,
};
use crate::requests::AddressWord;
use crate::sources_asked::SourceAsked;
use crate::streams_asked::{StreamAsked, stream_of};
use std::alloc::Global;

/// What is printed of one file. Of no index of a module it is that of all modules, and of symbols the global ones.
#[derive(Debug, Drop)]
pub enum FileTask<'w> {
    /// The code at addresses, one after another.
    Code(Options, Vec<AddressWord<'w>>),
    /// The line records of the modules of these indices.
    Lines(Vec<u32>),
    /// The scopes of the modules of these indices.
    Scopes(Vec<u32>),
    /// The symbols of the modules of these indices.
    Symbols(Vec<u32>),
    /// The symbols of all modules.
    AllSymbols,
    /// The types of these indices; all where there is none.
    Types(Vec<u32>),
    /// The source files of the modules of these indices.
    Sources(OutputFormat, Vec<u32>),
    /// The functions and data whose names match one of the operands.
    Find(OutputFormat, Vec<Operand<'w>>),
    /// Which addresses these lines of source files have.
    Where(OutputFormat, Vec<SourceAsked<'w>>),
    /// The list of modules.
    Modules(OutputFormat),
    /// The section headers.
    Sections(OutputFormat),
    /// How functions lay out their frames.
    Frames(OutputFormat),
    /// The streams.
    Streams(OutputFormat),
}

/// Where files are filed, and how.
#[derive(Clone, Copy, Debug, PartialEq, Eq)]
pub struct Storing {
    /// The folder.
    pub folder: ValueAt,
    /// Whether files that are there with other contents are replaced.
    pub replaces: bool,
}

/// What the program has to do. A file is the operand that names it.
#[derive(Debug, Drop)]
pub enum Task<'w> {
    /// Print what the program can do, or a command.
    Help(Option<Command>),
    /// Print what `pdb_list` can do.
    ListHelp,
    /// Print the program's version.
    Version,
    /// Print the keys of files.
    Keys(KeyFormat, Vec<Operand<'w>>),
    /// Print what is damaged in files.
    Checks(OutputFormat, Vec<Operand<'w>>),
    /// File files under their keys.
    Store(Storing, Vec<Operand<'w>>),
    /// Print the code at addresses.
    Resolve(Options, Operand<'w>, Vec<AddressWord<'w>>),
    /// Print the code at the addresses that the lines of standard input are.
    ResolveLines(Options, Operand<'w>),
    /// Write the bytes of a stream of a file.
    Stream(Operand<'w>, StreamAsked<'w>),
    /// Print something of a file.
    File(Operand<'w>, FileTask<'w>),
}

/// That an argument is missing at the end, where the first one behind the last has this index.
fn missing(argument: usize, wrong: Wrong) -> TaskError
    ensures { result ≡ TaskError.Mistake (record { argument = argument; wrong = wrong }) }
{
    TaskError::Mistake(Mistake { argument, wrong })
}

/// `resolve` and `variables`, where each operand behind the file is an address.
fn addresses_task<'w>(
    alloc: Global,
    options: Options,
    file: Operand<'w>,
    rest: &[Operand<'w>],
) -> Result<Task<'w>, TaskError>
    ensures { Judges task_view result (addresses_task options (operand_view file.entry) (map operand_view rest.now)) }
{
    if rest.is_empty() {
        return Ok(Task::ResolveLines(options, file));
    }
    let addresses = all_addresses(alloc, rest)?;
    Ok(Task::Resolve(options, file, addresses))
}

/// `find`, where no name is empty; `count` is the number of arguments.
fn find_task<'w>(
    format: OutputFormat,
    file: Operand<'w>,
    rest: Vec<Operand<'w>>,
    count: usize,
) -> Result<Task<'w>, TaskError>
    ensures { Judges task_view result (find_task format (operand_view file.entry) (map operand_view rest.entry.items) count) }
{
    if rest.is_empty() {
        return Err(missing(count, Wrong::MissingName));
    }
    match first_empty(&rest) {
        Some(argument) => Err(missing(argument, Wrong::EmptyName)),
        None => Ok(Task::File(file, FileTask::Find(format, rest))),
    }
}

/// `where`; `count` is the number of arguments.
fn where_task<'w>(
    alloc: Global,
    format: OutputFormat,
    file: Operand<'w>,
    rest: &[Operand<'w>],
    count: usize,
) -> Result<Task<'w>, TaskError>
    ensures { Judges task_view result (where_task format (operand_view file.entry) (map operand_view rest.now) count) }
{
    if rest.is_empty() {
        return Err(missing(count, Wrong::MissingSource));
    }
    let sources = all_sources(alloc, rest)?;
    Ok(Task::File(file, FileTask::Where(format, sources)))
}

/// `stream`; `count` is the number of arguments.
fn stream_task<'w>(
    file: Operand<'w>,
    rest: &[Operand<'w>],
    count: usize,
) -> Result<Task<'w>, TaskError>
    ensures { Judges task_view result (stream_task (operand_view file.entry) (map operand_view rest.now) count) }
{
    match rest.split_first() {
        None => Err(missing(count, Wrong::MissingStream)),
        Some((stream, rest)) => {
            let task = Task::Stream(file, stream_of(stream.word));
            ending(task, rest, Wrong::FurtherOperand)
        }
    }
}

/// A task, behind whose operands none stands.
fn ending<'w>(task: Task<'w>, rest: &[Operand<'w>], wrong: Wrong) -> Result<Task<'w>, TaskError>
    ensures { Judges task_view result (ending (task_view task.entry) (map operand_view rest.now) wrong) }
{
    match rest.first() {
        Some(operand) => Err(missing(operand.argument, wrong)),
        None => Ok(task),
    }
}

/// `symbols`: of all modules, or of those of these indices.
fn symbols_task<'w>(
    alloc: Global,
    options: Options,
    file: Operand<'w>,
    rest: &[Operand<'w>],
) -> Result<Task<'w>, TaskError>
    ensures { Judges task_view result (symbols_task options (operand_view file.entry) (map operand_view rest.now)) }
{
    if options.all {
        let task = Task::File(file, FileTask::AllSymbols);
        return ending(task, rest, Wrong::ModuleOfAll);
    }
    let indices = all_modules(alloc, rest)?;
    Ok(Task::File(file, FileTask::Symbols(indices)))
}

/// The commands over modules of these indices.
fn module_task<'w>(
    alloc: Global,
    command: Command,
    options: Options,
    file: Operand<'w>,
    rest: &[Operand<'w>],
) -> Result<Task<'w>, TaskError>
    ensures { Judges task_view result (module_task command options (operand_view file.entry) (map operand_view rest.now)) }
{
    let indices = all_modules(alloc, rest)?;
    let task = match command {
        Command::Lines => FileTask::Lines(indices),
        Command::Scopes => FileTask::Scopes(indices),
        _ => FileTask::Sources(options.format, indices),
    };
    Ok(Task::File(file, task))
}

/// The first operand, and those behind it.
fn split_first<'w>(operands: Vec<Operand<'w>>) -> Option<(Operand<'w>, Vec<Operand<'w>>)>
    ensures { option_map (λ x. (operand_view x.0, map operand_view x.1.items)) result ≡ split_first (map operand_view operands.entry.items) }
{
    let mut rest = operands;
    if rest.is_empty() {
        return None;
    }
    let first = rest.remove(0);
    Some((first, rest))
}

/// A command that reads one file, with the operands behind it; `count` is the number of arguments.
fn over_file<'w>(
    alloc: Global,
    command: Command,
    options: Options,
    file: Operand<'w>,
    rest: Vec<Operand<'w>>,
    count: usize,
) -> Result<Task<'w>, TaskError>
    ensures { Judges task_view result (over_file command options (operand_view file.entry) (map operand_view rest.entry.items) count) }
{
    let further = Wrong::FurtherOperand;
    let format = options.format;
    match command {
        Command::Resolve => addresses_task(alloc, options, file, &rest),
        Command::Variables => {
            let options = Options {
                detail: Detail::Variables,
                ..options
            };
            addresses_task(alloc, options, file, &rest)
        }
        Command::Symbols => symbols_task(alloc, options, file, &rest),
        Command::Types => Ok(Task::File(file, FileTask::Types(all_types(alloc, &rest)?))),
        Command::Find => find_task(format, file, rest, count),
        Command::Where => where_task(alloc, format, file, &rest, count),
        Command::Modules => ending(Task::File(file, FileTask::Modules(format)), &rest, further),
        Command::Sections => ending(Task::File(file, FileTask::Sections(format)), &rest, further),
        Command::Frames => ending(Task::File(file, FileTask::Frames(format)), &rest, further),
        Command::Streams => ending(Task::File(file, FileTask::Streams(format)), &rest, further),
        Command::Stream => stream_task(file, &rest, count),
        _ => module_task(alloc, command, options, file, &rest),
    }
}

/// `help`: of the program, of `pdb_list`, or of a command.
fn help_task<'w>(operands: &[Operand<'w>]) -> Result<Task<'w>, TaskError>
    ensures { Judges task_view result (help_task (map operand_view operands.now)) }
{
    let Some((first, rest)) = operands.split_first() else {
        return Ok(Task::Help(None));
    };
    if first.word == "list" {
        return ending(Task::ListHelp, rest, Wrong::FurtherOperand);
    }
    match command_in(first.word) {
        Some(command) => ending(Task::Help(Some(command)), rest, Wrong::FurtherOperand),
        None => Err(missing(first.argument, Wrong::UnknownCommand)),
    }
}

/// The keys of files, of which there is one; `count` is the number of arguments.
fn keys_task<'w>(
    format: KeyFormat,
    files: Vec<Operand<'w>>,
    count: usize,
) -> Result<Task<'w>, TaskError>
    ensures { Judges task_view result (keys_task format (map operand_view files.entry.items) count) }
{
    if files.is_empty() {
        Err(missing(count, Wrong::MissingFile))
    } else {
        Ok(Task::Keys(format, files))
    }
}

/// What is damaged in files, of which there is one; `count` is the number of arguments.
fn checks_task<'w>(
    format: OutputFormat,
    files: Vec<Operand<'w>>,
    count: usize,
) -> Result<Task<'w>, TaskError>
    ensures { Judges task_view result (checks_task format (map operand_view files.entry.items) count) }
{
    if files.is_empty() {
        Err(missing(count, Wrong::MissingFile))
    } else {
        Ok(Task::Checks(format, files))
    }
}

/// Files that are filed under their keys, of which there is one; `count` is the number of arguments.
fn store_task<'w>(
    options: Options,
    files: Vec<Operand<'w>>,
    count: usize,
) -> Result<Task<'w>, TaskError>
    ensures { Judges task_view result (store_task options (map operand_view files.entry.items) count) }
{
    if files.is_empty() {
        return Err(missing(count, Wrong::MissingFile));
    }
    let Some(folder) = options.folder else {
        return Err(missing(count, Wrong::MissingFolder));
    };
    let replaces = options.replace;
    Ok(Task::Store(Storing { folder, replaces }, files))
}

/// A command with these options, over all its operands; `count` is the number of arguments.
fn over_operands<'w>(
    alloc: Global,
    command: Command,
    options: Options,
    operands: Vec<Operand<'w>>,
    count: usize,
) -> Result<Task<'w>, TaskError>
    ensures { Judges task_view result (over_operands command options (map operand_view operands.entry.items) count) }
{
    match command {
        Command::Help => help_task(&operands),
        Command::Version => ending(Task::Version, &operands, Wrong::FurtherOperand),
        Command::Key => keys_task(options.key_format(), operands, count),
        Command::Check => checks_task(options.format, operands, count),
        Command::Store => store_task(options, operands, count),
        command => match split_first(operands) {
            Some((file, rest)) => over_file(alloc, command, options, file, rest, count),
            None => Err(missing(count, Wrong::MissingFile)),
        },
    }
}

/// Whether an argument asks for help: only where an option may stand.
fn asks_for_help(next: Next, word: &str) -> bool
    ensures { result ≡ asks_for_help next word.now }
{
    match next {
        Next::Word => is_help(word),
        Next::Value(_) | Next::Operand => false,
    }
}

/// Whether one of these arguments asks for help.
fn wants_help(words: &[String]) -> bool
    ensures { result ≡ wants_help Next.Word (map string_bytes words.now) }
{
    let mut next = Next::Word;
    for word in words {
        if asks_for_help(next, word.as_str()) {
            return true;
        }
        next = behind_word(next, word.as_str());
    }
    false
}

fn is_help(word: &str) -> bool
    ensures { result ≡ is_help word.now }
{
    word == "-h" || word == "--help"
}

/// What a command has to do with these arguments; `count` is the number of arguments with its name.
fn behind_command<'w>(
    alloc: Global,
    command: Command,
    words: &'w [String],
    count: usize,
) -> Result<Task<'w>, TaskError>
    requires { 1 + length words.now < 2 ^ 64 }
    ensures { Judges task_view result (behind_command command (map string_bytes words.now) count) }
{
    if wants_help(words) {
        return Ok(Task::Help(Some(command)));
    }
    let options = options_in(command, words, 1)?;
    let operands = operands_in(alloc, words, 1)?;
    over_operands(alloc, command, options, operands, count)
}

/// What the program has to do, by its arguments alone: no file is read.
#[tactic(auto, unfolding(crate::specs::Tasks::task_of))]
pub fn task_in<'w>(alloc: Global, words: &'w [String]) -> Result<Task<'w>, TaskError>
    ensures { Judges task_view result (task_of (map string_bytes words.now)) }
{
    let Some((word, rest)) = words.split_first() else {
        return Ok(Task::Help(None));
    };
    if is_help(word.as_str()) {
        return Ok(Task::Help(None));
    }
    match named_in(word.as_str()) {
        Some(command) => behind_command(alloc, command, rest, words.len()),
        None => Err(missing(0, Wrong::UnknownCommand)),
    }
}

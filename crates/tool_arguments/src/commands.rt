//! The commands.

ghost use Rattle.std.specs.Prelude.{◌≡◌, map, string_bytes};
ghost use Rattle.tool_arguments.specs.Commands.{command_in, command_of, listing_in, name_of, named_in, operands_of};

/// A command.
#[derive(Clone, Copy, Debug, PartialEq, Eq)]
pub enum Command {
    /// What code stands at addresses.
    Resolve,
    /// What code stands at addresses, and which variables are in scope there.
    Variables,
    /// Where the functions and data stand that have a name.
    Find,
    /// Which addresses lines of source files have.
    Where,
    /// The line records of modules.
    Lines,
    /// The scopes of modules.
    Scopes,
    /// The symbols of modules, or the global ones.
    Symbols,
    /// Types, with their sizes and members.
    Types,
    /// The source files of modules.
    Sources,
    /// The list of modules.
    Modules,
    /// The section headers of the image.
    Sections,
    /// How functions lay out their frames.
    Frames,
    /// The streams of the file.
    Streams,
    /// The bytes of a stream.
    Stream,
    /// The keys under which symbol servers have files.
    Key,
    /// Files, under their keys.
    Store,
    /// What is wrong with files.
    Check,
    /// What the program can do, or a command.
    Help,
    /// The program's version.
    Version,
}

/// All commands, in the order of help.
pub const COMMANDS: [Command; 19] = [
    Command::Resolve,
    Command::Variables,
    Command::Find,
    Command::Where,
    Command::Lines,
    Command::Scopes,
    Command::Symbols,
    Command::Types,
    Command::Sources,
    Command::Modules,
    Command::Sections,
    Command::Frames,
    Command::Streams,
    Command::Stream,
    Command::Key,
    Command::Store,
    Command::Check,
    Command::Help,
    Command::Version,
];

impl Command {
    /// Its name.
    pub fn name(self) -> &'static str
        ensures { result.now ≡ name_of self }
    {
        match self {
            Command::Resolve => "resolve",
            Command::Variables => "variables",
            Command::Find => "find",
            Command::Where => "where",
            Command::Lines => "lines",
            Command::Scopes => "scopes",
            Command::Symbols => "symbols",
            Command::Types => "types",
            Command::Sources => "sources",
            Command::Modules => "modules",
            Command::Sections => "sections",
            Command::Frames => "frames",
            Command::Streams => "streams",
            Command::Stream => "stream",
            Command::Key => "key",
            Command::Store => "store",
            Command::Check => "check",
            Command::Help => "help",
            Command::Version => "version",
        }
    }

    /// Its operands, as its usage has them.
    pub fn operands(self) -> &'static str
        ensures { result.now ≡ operands_of self }
    {
        match self {
            Command::Resolve | Command::Variables => "FILE [ADDRESS..]",
            Command::Find => "FILE NAME..",
            Command::Where => "FILE SOURCE..",
            Command::Lines | Command::Scopes | Command::Symbols => "FILE [K..]",
            Command::Types => "FILE [INDEX..]",
            Command::Sources => "FILE [K..]",
            Command::Modules | Command::Sections | Command::Frames | Command::Streams => "FILE",
            Command::Stream => "FILE STREAM",
            Command::Key | Command::Store | Command::Check => "FILE..",
            Command::Help => "[COMMAND]",
            Command::Version => "",
        }
    }
}

/// The command of a name, among those that list a file's parts.
fn listing_in(word: &str) -> Option<Command>
    ensures { result ≡ listing_in word.now }
{
    match word {
        "types" => Some(Command::Types),
        "sources" => Some(Command::Sources),
        "modules" => Some(Command::Modules),
        "sections" => Some(Command::Sections),
        "frames" => Some(Command::Frames),
        "streams" => Some(Command::Streams),
        "stream" => Some(Command::Stream),
        "key" => Some(Command::Key),
        "store" => Some(Command::Store),
        "check" => Some(Command::Check),
        "help" => Some(Command::Help),
        "version" => Some(Command::Version),
        _ => None,
    }
}

/// The command of a name.
pub fn command_in(word: &str) -> Option<Command>
    ensures { result ≡ command_in word.now }
{
    match word {
        "resolve" => Some(Command::Resolve),
        "variables" => Some(Command::Variables),
        "find" => Some(Command::Find),
        "where" => Some(Command::Where),
        "lines" => Some(Command::Lines),
        "scopes" => Some(Command::Scopes),
        "symbols" => Some(Command::Symbols),
        name => listing_in(name),
    }
}

/// The command that a first argument names: an option asks for the version or for help.
pub fn named_in(word: &str) -> Option<Command>
    ensures { result ≡ named_in word.now }
{
    match word {
        "-V" | "--version" => Some(Command::Version),
        "-h" | "--help" => Some(Command::Help),
        name => command_in(name),
    }
}

/// The command that arguments name; `help` where they name none.
pub fn command_of(words: &[String]) -> Command
    ensures { result ≡ command_of (map string_bytes words.now) }
{
    match words.first() {
        Some(word) => named_in(word.as_str()).unwrap_or(Command::Help),
        None => Command::Help,
    }
}

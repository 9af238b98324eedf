//! The options, and which command has which.

ghost use Rattle.std.specs.Prelude.{◌≡◌, ◌<◌, ◌≤◌, ◌+◌, get_or, length, position, option_copied, IfSome};
ghost use Rattle.tool_arguments.specs.OptionNames.{has_option, is_equals, name_part, has_folders, option_in, placeholder_of, spelled_option, value_part};

use crate::commands::Command;

/// An option.
#[derive(Clone, Copy, Debug, PartialEq, Eq)]
pub enum OptionName {
    /// The address at which the image was loaded.
    Base,
    /// The key that the file has to have.
    Key,
    /// The image whose PDB the file has to be.
    Image,
    /// A folder of symbol files.
    Symbols,
    /// Whether each text stands behind its address.
    Addresses,
    /// Whether names have how far the address is behind their start.
    Offsets,
    /// Whether the symbols of all modules are meant.
    All,
    /// Whether the paths of files below a store are meant.
    Path,
    /// Whether files that are there are replaced.
    Replace,
    /// Whether the output is JSON.
    Json,
}

/// All options, in the order of usage.
pub const OPTIONS: [OptionName; 10] = [
    OptionName::Base,
    OptionName::Key,
    OptionName::Image,
    OptionName::Symbols,
    OptionName::Addresses,
    OptionName::Offsets,
    OptionName::All,
    OptionName::Path,
    OptionName::Replace,
    OptionName::Json,
];

impl OptionName {
    /// How it is spelled.
    pub fn spelled(self) -> &'static str
        ensures { result.now ≡ spelled_option self }
    {
        match self {
            OptionName::Base => "--base",
            OptionName::Key => "--key",
            OptionName::Image => "--image",
            OptionName::Symbols => "--symbols",
            OptionName::Addresses => "--addresses",
            OptionName::Offsets => "--offsets",
            OptionName::All => "--all",
            OptionName::Path => "--path",
            OptionName::Replace => "--replace",
            OptionName::Json => "--json",
        }
    }

    /// What stands for its value in usage; nothing where it takes none.
    pub fn placeholder(self) -> &'static str
        ensures { result.now ≡ placeholder_of self }
    {
        match self {
            OptionName::Base => "HEX",
            OptionName::Key => "KEY",
            OptionName::Image => "IMAGE",
            OptionName::Symbols => "DIR",
            OptionName::Addresses | OptionName::Offsets | OptionName::All => "",
            OptionName::Path | OptionName::Replace | OptionName::Json => "",
        }
    }
}

/// The option of a name.
pub fn option_in(name: &str) -> Option<OptionName>
    ensures { result ≡ option_in name.now }
{
    match name {
        "--base" => Some(OptionName::Base),
        "--key" => Some(OptionName::Key),
        "--image" => Some(OptionName::Image),
        "--symbols" => Some(OptionName::Symbols),
        "--addresses" => Some(OptionName::Addresses),
        "--offsets" => Some(OptionName::Offsets),
        "--all" => Some(OptionName::All),
        "--path" => Some(OptionName::Path),
        "--replace" => Some(OptionName::Replace),
        "--json" => Some(OptionName::Json),
        _ => None,
    }
}

/// Whether a command has folders of symbol files: it reads one PDB, or it files some.
fn has_folders(command: Command) -> bool
    ensures { result ≡ has_folders command }
{
    !matches!(
        command,
        Command::Key | Command::Check | Command::Help | Command::Version
    )
}

/// Whether a command has an option.
pub fn has_option(command: Command, option: OptionName) -> bool
    ensures { result ≡ has_option command option }
{
    match option {
        OptionName::Base | OptionName::Key | OptionName::Image | OptionName::Addresses => {
            matches!(command, Command::Resolve | Command::Variables)
        }
        OptionName::Symbols => has_folders(command),
        OptionName::Offsets => matches!(command, Command::Resolve),
        OptionName::All => matches!(command, Command::Symbols),
        OptionName::Path => matches!(command, Command::Key),
        OptionName::Replace => matches!(command, Command::Store),
        OptionName::Json => match command {
            Command::Resolve | Command::Find | Command::Where | Command::Sources => true,
            Command::Modules | Command::Sections | Command::Frames | Command::Streams => true,
            Command::Key | Command::Check => true,
            _ => false,
        },
    }
}

/// Where the first `=` of an argument stands.
fn equals_at(word: &str) -> Option<usize>
    ensures is { result ≡ position is_equals word.now }
    ensures there { IfSome result (λ k. (k < length word.now) × (get_or word.now k 0 < 128)) }
{
    word.as_bytes().iter().position(|b| *b == b'=')
}

/// What stands before the first `=` of an argument; all of it where it has none.
pub fn name_part(word: &str) -> &str
    ensures { result.now ≡ name_part word.now }
{
    match equals_at(word) {
        Some(at) => &word[..at],
        None => word,
    }
}

/// What stands behind the first `=` of an argument.
pub fn value_part(word: &str) -> Option<&str>
    ensures { option_copied result ≡ value_part word.now }
{
    match equals_at(word) {
        Some(at) => Some(&word[at + 1..]),
        None => None,
    }
}

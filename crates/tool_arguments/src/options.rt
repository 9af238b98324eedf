//! What the options of a command say.

ghost use Rattle.std.specs.Prelude.{◌≡◌, ◌+◌, ◌<◌, ◌^◌, count_by, length, map, string_bytes};
ghost use Rattle.std.specs.List.{list_all};
ghost use Rattle.tool_arguments.specs.OptionNames.{takes_value};
ghost use Rattle.tool_arguments.specs.Options.{after_option, after_word, at_end, behind_option, behind_word, is_dashes, is_key, is_key_byte, is_key_digit, is_option_word, key_format, option_of, options_of, value_in, with_base, with_base_of, with_flag, with_folder, with_value, with_wanted};

use crate::code_address::address_number;
use crate::commands::Command;
use crate::mistakes::{Mistake, Wrong};
use crate::option_names::{OptionName, has_option, name_part, option_in, value_part};

/// Where the value of an option stands.
#[derive(Clone, Copy, Debug, PartialEq, Eq)]
pub struct ValueAt {
    /// The index of the argument among the program's, counted from 0.
    pub argument: usize,
    /// Whether it stands behind the first `=` of that argument, or is all of it.
    pub is_joined: bool,
}

/// What names the PDB that is wanted.
#[derive(Clone, Copy, Debug, PartialEq, Eq)]
pub enum Wanted {
    /// `--key=KEY`: the one of this key.
    Key(ValueAt),
    /// `--image=IMAGE`: the one that an image names.
    Image(ValueAt),
}

/// How the output of a command is written.
#[derive(Clone, Copy, Debug, Default, PartialEq, Eq)]
pub enum OutputFormat {
    /// Text for people.
    #[default]
    Text,
    /// A JSON object a line.
    Json,
}

/// How the keys of files are written.
#[derive(Clone, Copy, Debug, PartialEq, Eq)]
pub enum KeyFormat {
    /// A line with the key and the name of each file.
    Names,
    /// A line with the key and the path of each file below a store.
    Paths,
    /// A JSON object a line.
    Json,
}

/// What the text of an address has beside its frames.
#[derive(Clone, Copy, Debug, Default, PartialEq, Eq)]
pub enum Detail {
    /// Nothing.
    #[default]
    Plain,
    /// Behind a function's name, how far the address is behind its start.
    Offsets,
    /// Behind each frame, the variables that are in scope there.
    Variables,
}

/// What the options of a command say.
#[derive(Clone, Copy, Debug, Default, PartialEq, Eq)]
pub struct Options {
    /// The address at which the image was loaded.
    pub base: Option<u64>,
    /// The size of the image whose own load address the base is; 0 where it is no image's.
    pub own_size: u32,
    /// What names the PDB that is wanted.
    pub wanted: Option<Wanted>,
    /// Whether each text stands behind its address.
    pub addresses: bool,
    /// What the text of an address has beside its frames.
    pub detail: Detail,
    /// Whether the symbols of all modules are meant.
    pub all: bool,
    /// Whether the paths of files below a store are meant.
    pub path: bool,
    /// Whether files that are there are replaced.
    pub replace: bool,
    /// The first folder of symbol files.
    pub folder: Option<ValueAt>,
    /// How the output is written.
    pub format: OutputFormat,
}

impl Options {
    /// With the load address of an image of this size as the base, where no other is given.
    pub fn with_base_of(self, own: u64, size: u32) -> Options
        ensures { result ≡ with_base_of self own size }
    {
        match self.base {
            Some(_) => self,
            None => Options {
                base: Some(own),
                own_size: size,
                ..self
            },
        }
    }

    /// How the keys of files are written. `--path` changes no JSON.
    pub fn key_format(self) -> KeyFormat
        ensures { result ≡ key_format self }
    {
        match self.format {
            OutputFormat::Json => KeyFormat::Json,
            OutputFormat::Text if self.path => KeyFormat::Paths,
            OutputFormat::Text => KeyFormat::Names,
        }
    }
}

/// What the next argument is.
#[derive(Clone, Copy, Debug, Default, PartialEq, Eq)]
pub enum Next {
    /// An option or an operand.
    #[default]
    Word,
    /// The value of an option.
    Value(OptionName),
    /// An operand: it stands behind `--`.
    Operand,
}

/// What the arguments so far say.
#[derive(Clone, Copy, Debug, Default, PartialEq, Eq)]
pub struct Given {
    options: Options,
    next: Next,
}

/// Whether an argument is spelled as an option is: it begins with `-`, and has another byte.
pub fn is_option_word(word: &str) -> bool
    ensures { result ≡ is_option_word word.now }
{
    word.len() > 1 && word.as_bytes()[0] == b'-'
}

/// Whether an argument ends the options.
pub fn is_dashes(word: &str) -> bool
    ensures { result ≡ is_dashes word.now }
{
    word == "--"
}

/// Whether a byte of a key counts: braces and dashes don't.
pub fn is_key_digit(byte: u8) -> bool
    ensures { result ≡ is_key_digit byte }
{
    byte.is_ascii_hexdigit()
}

/// Whether a byte may stand in a key.
fn is_key_byte(byte: u8) -> bool
    ensures { result ≡ is_key_byte byte }
{
    is_key_digit(byte) || byte == b'{' || byte == b'}' || byte == b'-'
}

/// How many bytes of a key count.
fn key_digits(value: &[u8]) -> usize
    ensures { result ≡ count_by is_key_digit value.now }
{
    value.iter().filter(|b| is_key_digit(**b)).count()
}

/// Whether all bytes may stand in a key.
fn has_key_bytes(value: &[u8]) -> bool
    ensures { result ≡ list_all is_key_byte value.now }
{
    value.iter().all(|b| is_key_byte(*b))
}

/// Whether a value is a key: 33 to 40 hex digits, perhaps with braces and dashes.
fn is_key(value: &[u8]) -> bool
    ensures { result ≡ is_key value.now }
{
    let count = key_digits(value);
    32 < count && count <= 40 && has_key_bytes(value)
}

/// With this base.
fn with_base(options: Options, base: Option<u64>) -> Result<Options, Wrong>
    ensures { result ≡ with_base options base }
{
    if options.base.is_some() {
        return Err(Wrong::GivenTwice(OptionName::Base));
    }
    match base {
        Some(base) => Ok(Options {
            base: Some(base),
            ..options
        }),
        None => Err(Wrong::BadBase),
    }
}

/// With what names the PDB that is wanted.
fn with_wanted(options: Options, option: OptionName, wanted: Wanted) -> Result<Options, Wrong>
    ensures { result ≡ with_wanted options option wanted }
{
    match (options.wanted, wanted) {
        (None, _) => Ok(Options {
            wanted: Some(wanted),
            ..options
        }),
        (Some(Wanted::Key(_)), Wanted::Key(_)) => Err(Wrong::GivenTwice(option)),
        (Some(Wanted::Image(_)), Wanted::Image(_)) => Err(Wrong::GivenTwice(option)),
        _ => Err(Wrong::KeyAndImage),
    }
}

/// With one more folder of symbol files.
fn with_folder(options: Options, at: ValueAt) -> Options
    ensures { result ≡ with_folder options at }
{
    Options {
        folder: options.folder.or(Some(at)),
        ..options
    }
}

/// With an option that has a value.
fn with_value(
    options: Options,
    option: OptionName,
    at: ValueAt,
    value: &str,
) -> Result<Options, Wrong>
    ensures { result ≡ with_value options option at value.now }
{
    match option {
        OptionName::Base => with_base(options, address_number(value.as_bytes())),
        OptionName::Key if !is_key(value.as_bytes()) => Err(Wrong::BadKey),
        OptionName::Key => with_wanted(options, option, Wanted::Key(at)),
        OptionName::Image => with_wanted(options, option, Wanted::Image(at)),
        OptionName::Symbols => Ok(with_folder(options, at)),
        OptionName::Addresses | OptionName::Offsets | OptionName::All => {
            Err(Wrong::TakesNoValue(option))
        }
        OptionName::Path | OptionName::Replace | OptionName::Json => {
            Err(Wrong::TakesNoValue(option))
        }
    }
}

/// With an option that has no value.
fn with_flag(options: Options, option: OptionName) -> Result<Options, Wrong>
    ensures { result ≡ with_flag options option }
{
    match (option, options.detail, options.format) {
        (OptionName::Addresses, _, _) if !options.addresses => Ok(Options {
            addresses: true,
            ..options
        }),
        (OptionName::Offsets, Detail::Plain, _) => Ok(Options {
            detail: Detail::Offsets,
            ..options
        }),
        (OptionName::All, _, _) if !options.all => Ok(Options {
            all: true,
            ..options
        }),
        (OptionName::Path, _, _) if !options.path => Ok(Options {
            path: true,
            ..options
        }),
        (OptionName::Replace, _, _) if !options.replace => Ok(Options {
            replace: true,
            ..options
        }),
        (OptionName::Json, _, OutputFormat::Text) => Ok(Options {
            format: OutputFormat::Json,
            ..options
        }),
        _ => Err(Wrong::GivenTwice(option)),
    }
}

/// Whether an option has a value.
fn takes_value(option: OptionName) -> bool
    ensures { result ≡ takes_value option }
{
    matches!(
        option,
        OptionName::Base | OptionName::Key | OptionName::Image | OptionName::Symbols
    )
}

/// The option that an argument names, where the command has it.
fn option_of(command: Command, word: &str) -> Result<OptionName, Wrong>
    ensures { result ≡ option_of command word.now }
{
    match option_in(name_part(word)) {
        Some(option) if has_option(command, option) => Ok(option),
        _ => Err(Wrong::UnknownOption),
    }
}

/// What the arguments say with an option more.
fn after_option(command: Command, given: Given, argument: usize, word: &str) -> Result<Given, Wrong>
    ensures { result ≡ after_option command given argument word.now }
{
    let option = option_of(command, word)?;
    let at = ValueAt {
        argument,
        is_joined: true,
    };
    let options = match value_part(word) {
        Some(value) => with_value(given.options, option, at, value)?,
        None if takes_value(option) => {
            return Ok(Given {
                next: Next::Value(option),
                ..given
            });
        }
        None => with_flag(given.options, option)?,
    };
    Ok(Given { options, ..given })
}

/// What the arguments say with one more.
#[tactic(auto, unfolding(crate::specs::Options::after_word))]
fn after_word(command: Command, given: Given, argument: usize, word: &str) -> Result<Given, Wrong>
    ensures { result ≡ after_word command given argument word.now }
{
    let at = ValueAt {
        argument,
        is_joined: false,
    };
    match given.next {
        Next::Word if is_dashes(word) => Ok(Given {
            next: Next::Operand,
            ..given
        }),
        Next::Word if is_option_word(word) => after_option(command, given, argument, word),
        Next::Word | Next::Operand => Ok(given),
        Next::Value(option) => {
            let options = with_value(given.options, option, at, word)?;
            Ok(Given {
                options,
                next: Next::Word,
            })
        }
    }
}

/// What the arguments of a command say, of which there are no more.
fn at_end(given: Given, argument: usize) -> Result<Options, Mistake>
    ensures { result ≡ at_end given argument }
{
    match given.next {
        Next::Value(option) => Err(Mistake {
            argument,
            wrong: Wrong::NeedsValue(option),
        }),
        Next::Word | Next::Operand => Ok(given.options),
    }
}

/// The options of a command, of whose arguments the first has the index `argument` among the program's.
#[tactic(auto, using(crate::proofs::OptionWords::wrong_there, crate::proofs::OptionWords::begins, crate::proofs::OptionWords::ends, crate::proofs::OptionWords::one_more))]
pub fn options_in(command: Command, words: &[String], argument: usize) -> Result<Options, Mistake>
    requires { argument + length words.now < 2 ^ 64 }
    ensures { result ≡ options_of command (map string_bytes words.now) argument }
{
    let mut given = Given::default();
    for (index, word) in words.iter().enumerate() {
        match after_word(command, given, argument + index, word.as_str()) {
            Ok(more) => given = more,
            Err(wrong) => {
                return Err(Mistake {
                    argument: argument + index,
                    wrong,
                });
            }
        }
    }
    at_end(given, argument + words.len())
}

/// What is expected behind an argument.
pub fn behind_word(next: Next, word: &str) -> Next
    ensures { result ≡ behind_word next word.now }
{
    match next {
        Next::Word if is_dashes(word) => Next::Operand,
        Next::Word if is_option_word(word) => behind_option(word),
        Next::Word | Next::Value(_) => Next::Word,
        Next::Operand => Next::Operand,
    }
}

/// What is expected behind an option.
fn behind_option(word: &str) -> Next
    ensures { result ≡ behind_option word.now }
{
    match option_in(word) {
        Some(option) if takes_value(option) => Next::Value(option),
        _ => Next::Word,
    }
}

/// The value that stands there.
pub fn value_in(words: &[String], at: ValueAt) -> &str
    ensures { result.now ≡ value_in (map string_bytes words.now) at }
{
    let Some(word) = words.get(at.argument) else {
        return "";
    };
    match value_part(word.as_str()) {
        Some(value) if at.is_joined => value,
        _ => word.as_str(),
    }
}

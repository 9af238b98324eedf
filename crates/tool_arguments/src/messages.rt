//! The messages on arguments that are wrong.

ghost use Rattle.std.specs.Prelude.{◌≡◌, ◌++◌, [], OnOk, flat_map, map, slice_index_or, string_bytes};
ghost use Rattle.tool_arguments.specs.Commands.{commands, name_of};
ghost use Rattle.tool_arguments.specs.Messages.{between, command_behind, further, hint, is_of_option, message_of, most_operands, needs_value, option_names, suggestion, unknown_command, unknown_option, why, wrong_operand, wrong_option};
ghost use Rattle.tool_arguments.specs.OptionNames.{spelled_option};

use crate::commands::{COMMANDS, Command, command_of};
use crate::mistakes::{Mistake, Wrong};
use crate::option_names::{OptionName, name_part};
use crate::usage::{has_options, put_option_names, put_usage};
use pdb_text::put_one_line;
use std::alloc::AllocError;

const HOW_ADDRESS: &[u8] =
    b"' is not an address: write 1108, 0x1108 or 1:108; find prints the addresses of names";

const HOW_MODULE: &[u8] = b"' is not the index of a module: pdb_tool modules FILE lists them";

const HOW_ALL: &[u8] = b": symbols --all prints all modules, and takes no K";

const HOW_TYPE: &[u8] = b"' is not the index of a type: write HEX, as in 1000";

const HOW_SOURCE: &[u8] = b"' names no source file: write SOURCE, SOURCE:63 or SOURCE:63-70";

const HOW_LINES: &[u8] = b"' names no lines: write the lower line first, as in SOURCE:63-70";

/// Appends an option as it is spelled, and a text.
fn put_option(out: &mut Vec<u8>, option: OptionName, text: &[u8]) -> Result<(), AllocError>
    ensures { OnOk result (out.new.items ≡ out.old.items ++ (spelled_option option ++ text.now)) }
{
    out.extend_from_slice(option.spelled().as_bytes())?;
    out.extend_from_slice(text)
}

/// Appends an argument as a text shows it, between two texts.
#[tactic(auto, unfolding(crate::specs::Messages::between))]
fn put_between(
    out: &mut Vec<u8>,
    before: &[u8],
    word: &str,
    behind: &[u8],
) -> Result<(), AllocError>
    ensures { OnOk result (out.new.items ≡ out.old.items ++ between before.now word.now behind.now) }
{
    out.extend_from_slice(before)?;
    put_one_line(out, word.as_bytes())?;
    out.extend_from_slice(behind)
}

/// Appends that an option lacks its value, and how it is written with one.
fn put_needs_value(out: &mut Vec<u8>, option: OptionName) -> Result<(), AllocError>
    ensures { OnOk result (out.new.items ≡ out.old.items ++ needs_value option) }
{
    put_option(out, option, b" needs a value: ")?;
    put_option(out, option, b"=")?;
    out.extend_from_slice(option.placeholder().as_bytes())
}

/// Appends which options a command has.
fn put_options_of(out: &mut Vec<u8>, command: Command) -> Result<(), AllocError>
    ensures { OnOk result (out.new.items ≡ out.old.items ++ option_names command) }
{
    if !has_options(command) {
        return out.extend_from_slice(b" has no options");
    }
    out.extend_from_slice(b" has")?;
    put_option_names(out, command)
}

/// Appends a command, and which options it has.
fn put_command_options(out: &mut Vec<u8>, command: Command) -> Result<(), AllocError>
    ensures { OnOk result (out.new.items ≡ out.old.items ++ (name_of command ++ option_names command)) }
{
    out.extend_from_slice(command.name().as_bytes())?;
    put_options_of(out, command)
}

/// Appends that a command has no such option, and those that it has.
fn put_unknown_option(out: &mut Vec<u8>, command: Command, word: &str) -> Result<(), AllocError>
    ensures { OnOk result (out.new.items ≡ out.old.items ++ unknown_option command word.now) }
{
    put_between(out, b"unknown option ", name_part(word), b": ")?;
    put_command_options(out, command)?;
    Ok(())
}

/// Appends which command is close to one that there isn't.
fn put_suggestion(out: &mut Vec<u8>, closest: Option<Command>) -> Result<(), AllocError>
    ensures { OnOk result (out.new.items ≡ out.old.items ++ suggestion closest) }
{
    match closest {
        Some(command) => put_between(out, b"; did you mean ", command.name(), b"?"),
        None => Ok(()),
    }
}

/// Appends that an argument is no command, and which one is close to it.
fn put_unknown_command(
    out: &mut Vec<u8>,
    word: &str,
    closest: Option<Command>,
) -> Result<(), AllocError>
    ensures { OnOk result (out.new.items ≡ out.old.items ++ unknown_command word.now closest) }
{
    put_between(out, b"unknown command: ", word, b"")?;
    put_suggestion(out, closest)?;
    Ok(())
}

/// How many operands a command takes at most.
fn most_operands(command: Command) -> &'static str
    ensures { result.now ≡ most_operands command }
{
    match command {
        Command::Help => " takes one COMMAND, and not ",
        Command::Version => " takes no operands, and not ",
        Command::Stream => " takes one STREAM, and not ",
        _ => " takes one FILE, and not ",
    }
}

/// Appends that an operand is one too many.
fn put_further(out: &mut Vec<u8>, command: Command, word: &str) -> Result<(), AllocError>
    ensures { OnOk result (out.new.items ≡ out.old.items ++ further command word.now) }
{
    out.extend_from_slice(command.name().as_bytes())?;
    put_between(out, most_operands(command).as_bytes(), word, b"")
}

/// Appends what is wrong with an option.
fn put_wrong_option(
    out: &mut Vec<u8>,
    command: Command,
    word: &str,
    wrong: Wrong,
) -> Result<(), AllocError>
    ensures { OnOk result (out.new.items ≡ out.old.items ++ wrong_option command word.now wrong) }
{
    match wrong {
        Wrong::UnknownOption => put_unknown_option(out, command, word),
        Wrong::NeedsValue(option) => put_needs_value(out, option),
        Wrong::TakesNoValue(option) => put_option(out, option, b" takes no value"),
        Wrong::GivenTwice(option) => put_option(out, option, b" is given twice"),
        Wrong::KeyAndImage => out.extend_from_slice(b"--key and --image exclude each other"),
        Wrong::BadBase => put_between(out, b"", word, b": HEX is 1 to 16 hex digits"),
        Wrong::BadKey => put_between(out, b"", word, b": KEY is 33 to 40 hex digits"),
        _ => Ok(()),
    }
}

/// Appends what is wrong with an operand of a command.
fn put_wrong_operand(out: &mut Vec<u8>, word: &str, wrong: Wrong) -> Result<(), AllocError>
    ensures { OnOk result (out.new.items ≡ out.old.items ++ wrong_operand word.now wrong) }
{
    match wrong {
        Wrong::MissingFile => out.extend_from_slice(b"FILE is missing"),
        Wrong::MissingName => out.extend_from_slice(b"NAME is missing"),
        Wrong::MissingSource => out.extend_from_slice(b"SOURCE is missing"),
        Wrong::MissingStream => out.extend_from_slice(b"STREAM is missing"),
        Wrong::MissingFolder => out.extend_from_slice(b"store needs a folder: --symbols=DIR"),
        Wrong::EmptyName => out.extend_from_slice(b"NAME is empty"),
        Wrong::BadAddress => put_between(out, b"'", word, HOW_ADDRESS),
        Wrong::NeedsBase => put_between(out, b"", word, b" needs the load address: --base=HEX"),
        Wrong::BadModule => put_between(out, b"'", word, HOW_MODULE),
        Wrong::ModuleOfAll => put_between(out, b"", word, HOW_ALL),
        Wrong::BadType => put_between(out, b"'", word, HOW_TYPE),
        Wrong::BadSource => put_between(out, b"'", word, HOW_SOURCE),
        Wrong::BadLines => put_between(out, b"'", word, HOW_LINES),
        _ => Ok(()),
    }
}

/// Whether it is an option that is wrong.
fn is_of_option(wrong: Wrong) -> bool
    ensures { result ≡ is_of_option wrong }
{
    match wrong {
        Wrong::UnknownOption | Wrong::NeedsValue(_) | Wrong::TakesNoValue(_) => true,
        Wrong::GivenTwice(_) | Wrong::KeyAndImage | Wrong::BadBase | Wrong::BadKey => true,
        _ => false,
    }
}

/// Appends what is wrong with an argument of a command.
fn put_why(
    out: &mut Vec<u8>,
    command: Command,
    word: &str,
    wrong: Wrong,
    closest: Option<Command>,
) -> Result<(), AllocError>
    ensures { OnOk result (out.new.items ≡ out.old.items ++ why command word.now wrong closest) }
{
    match wrong {
        Wrong::UnknownCommand => put_unknown_command(out, word, closest),
        Wrong::FurtherOperand => put_further(out, command, word),
        wrong if is_of_option(wrong) => put_wrong_option(out, command, word, wrong),
        wrong => put_wrong_operand(out, word, wrong),
    }
}

/// Appends the name of a command behind a blank.
fn put_command(out: &mut Vec<u8>, command: Command) -> Result<(), AllocError>
    ensures { OnOk result (out.new.items ≡ out.old.items ++ command_behind command) }
{
    out.push(b' ')?;
    out.extend_from_slice(command.name().as_bytes())
}

/// Appends the names of all commands, each behind a blank.
fn put_commands(out: &mut Vec<u8>) -> Result<(), AllocError>
    ensures { OnOk result (out.new.items ≡ out.old.items ++ flat_map command_behind commands) }
{
    for command in COMMANDS {
        put_command(out, command)?;
    }
    Ok(())
}

/// Appends what to write instead: the commands, or how the command is written.
fn put_hint(out: &mut Vec<u8>, command: Command, wrong: Wrong) -> Result<(), AllocError>
    ensures { OnOk result (out.new.items ≡ out.old.items ++ hint command wrong) }
{
    match wrong {
        Wrong::UnknownCommand => {
            out.extend_from_slice(b"commands:")?;
            put_commands(out)
        }
        _ => {
            out.extend_from_slice(b"usage: ")?;
            put_usage(out, command)
        }
    }
}

/// The argument of an index; nothing where there is none.
pub fn word_at(words: &[String], argument: usize) -> &str
    ensures { result.now ≡ slice_index_or (map string_bytes words.now) argument [] }
{
    match words.get(argument) {
        Some(word) => word.as_str(),
        None => "",
    }
}

/// Appends the message on the first wrong argument: what is wrong with it, and what to write instead. `closest` is the
/// command that is suggested where it names none.
pub fn put_mistake(
    out: &mut Vec<u8>,
    words: &[String],
    mistake: Mistake,
    closest: Option<Command>,
) -> Result<(), AllocError>
    ensures { OnOk result (out.new.items ≡ out.old.items ++ message_of (map string_bytes words.now) mistake closest) }
{
    let command = command_of(words);
    out.extend_from_slice(b"pdb_tool: ")?;
    put_why(
        out,
        command,
        word_at(words, mistake.argument),
        mistake.wrong,
        closest,
    )?;
    out.push(b'\n')?;
    put_hint(out, command, mistake.wrong)?;
    out.extend_from_slice(b"\n")
}

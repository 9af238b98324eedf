//! How a command is written.

ghost use Rattle.std.specs.Prelude.{◌≡◌, ◌++◌, OnOk, flat_map};
ghost use Rattle.std.specs.List.{list_any};
ghost use Rattle.tool_arguments.specs.OptionNames.{has_option, options};
ghost use Rattle.tool_arguments.specs.Usage.{behind_blank, listed, usage_of, usage_part, usage_text};

use crate::commands::Command;
use crate::option_names::{OPTIONS, OptionName, has_option};
use std::alloc::AllocError;

/// How an option stands in usage. `--image` stands beside `--key`, which it excludes.
fn usage_of(option: OptionName) -> &'static str
    ensures { result.now ≡ usage_of option }
{
    match option {
        OptionName::Base => " [--base=HEX]",
        OptionName::Key => " [--key=KEY | --image=IMAGE]",
        OptionName::Image => "",
        OptionName::Symbols => " [--symbols=DIR]..",
        OptionName::Addresses => " [--addresses]",
        OptionName::Offsets => " [--offsets]",
        OptionName::All => " [--all]",
        OptionName::Path => " [--path]",
        OptionName::Replace => " [--replace]",
        OptionName::Json => " [--json]",
    }
}

/// How an option stands in the usage of a command; nothing where it hasn't the option.
#[tactic(auto, unfolding(crate::specs::Usage::usage_part))]
fn usage_part(command: Command, option: OptionName) -> &'static str
    ensures { result.now ≡ usage_part command option }
{
    if has_option(command, option) {
        usage_of(option)
    } else {
        ""
    }
}

/// Appends an option as it stands in the usage of a command.
fn put_part(out: &mut Vec<u8>, command: Command, option: OptionName) -> Result<(), AllocError>
    ensures { OnOk result (out.new.items ≡ out.old.items ++ usage_part command option) }
{
    out.extend_from_slice(usage_part(command, option).as_bytes())
}

/// Appends the options of a command.
fn put_options(out: &mut Vec<u8>, command: Command) -> Result<(), AllocError>
    ensures { OnOk result (out.new.items ≡ out.old.items ++ flat_map (usage_part command) options) }
{
    for option in OPTIONS {
        put_part(out, command, option)?;
    }
    Ok(())
}

/// Appends how a command is written: its name, its options and its operands.
pub fn put_usage(out: &mut Vec<u8>, command: Command) -> Result<(), AllocError>
    ensures { OnOk result (out.new.items ≡ out.old.items ++ usage_text command) }
{
    out.extend_from_slice(b"pdb_tool ")?;
    out.extend_from_slice(command.name().as_bytes())?;
    put_options(out, command)?;
    put_operands(out, command.operands())
}

/// Appends operands behind a blank, where there are some.
fn put_operands(out: &mut Vec<u8>, operands: &str) -> Result<(), AllocError>
    ensures { OnOk result (out.new.items ≡ out.old.items ++ behind_blank operands.now) }
{
    if operands.is_empty() {
        return Ok(());
    }
    out.push(b' ')?;
    out.extend_from_slice(operands.as_bytes())
}

/// Whether a command has options.
pub fn has_options(command: Command) -> bool
    ensures { result ≡ list_any (has_option command) options }
{
    OPTIONS.iter().any(|option| has_option(command, *option))
}

/// Appends an option behind a blank, where a command has it.
fn put_listed(out: &mut Vec<u8>, command: Command, option: OptionName) -> Result<(), AllocError>
    ensures { OnOk result (out.new.items ≡ out.old.items ++ listed command option) }
{
    if !has_option(command, option) {
        return Ok(());
    }
    out.push(b' ')?;
    out.extend_from_slice(option.spelled().as_bytes())
}

/// Appends the names of a command's options, each behind a blank.
pub fn put_option_names(out: &mut Vec<u8>, command: Command) -> Result<(), AllocError>
    ensures { OnOk result (out.new.items ≡ out.old.items ++ flat_map (listed command) options) }
{
    for option in OPTIONS {
        put_listed(out, command, option)?;
    }
    Ok(())
}

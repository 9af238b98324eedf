//! The folders of symbol files that arguments name.

ghost use Rattle.std.specs.Prelude.{◌≡◌, ◌+◌, ◌<◌, ◌^◌, length, map, option_copied, string_bytes, IfOk};
ghost use Rattle.tool_arguments.specs.Operands.{operand_view};
ghost use Rattle.tool_arguments.specs.SymbolValues.{is_symbols, joined_value, symbol_values, value_there};
ghost use Rattle.tool_arguments.specs.declared.options.Next.{Next};

use crate::operands::Operand;
use crate::option_names::{OptionName, name_part, option_in, value_part};
use crate::options::{Next, behind_word};
use std::alloc::{AllocError, Global};

/// Whether it is the option whose values are folders of symbol files.
fn is_symbols(option: Option<OptionName>) -> bool
    ensures { result ≡ is_symbols option }
{
    matches!(option, Some(OptionName::Symbols))
}

/// The folder that stands in the same argument as its option.
fn joined_value(word: &str) -> Option<&str>
    ensures { option_copied result ≡ joined_value word.now }
{
    if is_symbols(option_in(name_part(word))) {
        value_part(word)
    } else {
        None
    }
}

/// The folder that an argument names, by what is expected there.
fn value_there(next: Next, word: &str) -> Option<&str>
    ensures { option_copied result ≡ value_there next word.now }
{
    match next {
        Next::Word => joined_value(word),
        Next::Value(OptionName::Symbols) => Some(word),
        Next::Value(_) | Next::Operand => None,
    }
}

/// The values of `--symbols`, of arguments of which the first has the index `argument`.
#[tactic(auto, using(crate::proofs::SymbolWords::begins, crate::proofs::SymbolWords::ends, crate::proofs::SymbolWords::no_value, crate::proofs::SymbolWords::value_is))]
pub fn symbol_values<'w>(
    alloc: Global,
    words: &'w [String],
    argument: usize,
) -> Result<Vec<Operand<'w>>, AllocError>
    requires { argument + length words.now < 2 ^ 64 }
    ensures { IfOk result (λ v. map operand_view v.items ≡ symbol_values Next.Word (map string_bytes words.now) argument) }
{
    let mut all = Vec::new(alloc);
    let mut next = Next::Word;
    for (index, word) in words.iter().enumerate() {
        if let Some(value) = value_there(next, word.as_str()) {
            all.push(Operand {
                argument: argument + index,
                word: value,
            })?;
        }
        next = behind_word(next, word.as_str());
    }
    Ok(all)
}

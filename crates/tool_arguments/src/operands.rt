//! The arguments of a command that are no options.

ghost use Rattle.std.specs.Prelude.{◌≡◌, ◌+◌, ◌<◌, ◌^◌, map, string_bytes, length, IfOk};
ghost use Rattle.std.specs.Result.{result_map_both};
ghost use Rattle.tool_arguments.specs.Mistakes.{Judges};
ghost use Rattle.tool_arguments.specs.Operands.{address_in, all_in, first_empty, is_operand, module_in, operand_view, operands_of, source_in, type_in};
ghost use Rattle.tool_arguments.specs.Requests.{address_view};
ghost use Rattle.tool_arguments.specs.SourceViews.{source_view};
ghost use Rattle.tool_arguments.specs.declared.options.Next.{Next};

use crate::code_address::{address_number, spelled_in};
use crate::mistakes::{Mistake, TaskError, Wrong};
use crate::options::{Next, behind_word, is_option_word};
use crate::requests::AddressWord;
use crate::sources_asked::{SourceAsked, source_of};
use pdb_text::number_in;
use std::alloc::{AllocError, Global};

/// An argument that is no option.
#[derive(Clone, Copy, Debug)]
pub struct Operand<'w> {
    /// Its index among the program's arguments.
    pub argument: usize,
    /// Its text.
    pub word: &'w str,
}

impl Operand<'_> {
    /// That it is wrong.
    fn mistake(self, wrong: Wrong) -> Mistake
        ensures arg { result.argument ≡ self.entry.argument }
        ensures wrong { result.wrong ≡ wrong }
    {
        Mistake {
            argument: self.argument,
            wrong,
        }
    }
}

/// Whether an argument is an operand, by what is expected.
fn is_operand(next: Next, word: &str) -> bool
    ensures { result ≡ is_operand next word.now }
{
    match next {
        Next::Word => !is_option_word(word),
        Next::Value(_) => false,
        Next::Operand => true,
    }
}

/// The arguments that are neither an option nor its value, of arguments of which the first has the index `argument`.
#[tactic(auto, using(crate::proofs::OperandWords::begins, crate::proofs::OperandWords::ends, crate::proofs::OperandWords::other_there, crate::proofs::OperandWords::operand_there))]
pub fn operands_in<'w>(
    alloc: Global,
    words: &'w [String],
    argument: usize,
) -> Result<Vec<Operand<'w>>, AllocError>
    requires { argument + length words.now < 2 ^ 64 }
    ensures { IfOk result (λ v. map operand_view v.items ≡ operands_of Next.Word (map string_bytes words.now) argument) }
{
    let mut all = Vec::new(alloc);
    let mut next = Next::Word;
    for (index, word) in words.iter().enumerate() {
        if is_operand(next, word.as_str()) {
            all.push(Operand {
                argument: argument + index,
                word: word.as_str(),
            })?;
        }
        next = behind_word(next, word.as_str());
    }
    Ok(all)
}

/// The address that an operand is.
fn address_in<'w>(operand: Operand<'w>) -> Result<AddressWord<'w>, Wrong>
    ensures { result_map_both address_view (λ wrong. wrong) result ≡ address_in (operand_view operand.entry) }
{
    let word = operand.word.as_bytes();
    match spelled_in(word) {
        Some(address) => Ok(AddressWord {
            argument: operand.argument,
            word,
            address,
        }),
        None => Err(Wrong::BadAddress),
    }
}

/// The addresses that operands are.
#[tactic(auto, using(crate::proofs::AllWords::all_there, crate::proofs::AllWords::begins, crate::proofs::AllWords::wrong_there, crate::proofs::AllWords::one_more))]
pub fn all_addresses<'w>(
    alloc: Global,
    operands: &[Operand<'w>],
) -> Result<Vec<AddressWord<'w>>, TaskError>
    ensures { Judges (λ v. map address_view v.items) result (all_in address_in (map operand_view operands.now)) }
{
    let mut all = Vec::new(alloc);
    for operand in operands {
        match address_in(*operand) {
            Ok(address) => all.push(address)?,
            Err(wrong) => return Err(TaskError::Mistake(operand.mistake(wrong))),
        }
    }
    Ok(all)
}

/// The index of a module that an operand is.
fn module_in(operand: Operand<'_>) -> Result<u32, Wrong>
    ensures { result ≡ module_in (operand_view operand.entry) }
{
    number_in(operand.word).ok_or(Wrong::BadModule)
}

/// The indices of modules that operands are.
#[tactic(auto, using(crate::proofs::AllWords::all_there, crate::proofs::AllWords::begins, crate::proofs::AllWords::wrong_there, crate::proofs::AllWords::one_more))]
pub fn all_modules(alloc: Global, operands: &[Operand<'_>]) -> Result<Vec<u32>, TaskError>
    ensures { Judges (λ v. v.items) result (all_in module_in (map operand_view operands.now)) }
{
    let mut all = Vec::new(alloc);
    for operand in operands {
        match module_in(*operand) {
            Ok(index) => all.push(index)?,
            Err(wrong) => return Err(TaskError::Mistake(operand.mistake(wrong))),
        }
    }
    Ok(all)
}

/// The index of a type that an operand is: a number below 2^32, spelled as an address is.
fn type_in(operand: Operand<'_>) -> Result<u32, Wrong>
    ensures { result ≡ type_in (operand_view operand.entry) }
{
    match address_number(operand.word.as_bytes()) {
        Some(number) => u32::try_from(number).map_err(|_| Wrong::BadType),
        None => Err(Wrong::BadType),
    }
}

/// The indices of types that operands are.
#[tactic(auto, using(crate::proofs::AllWords::all_there, crate::proofs::AllWords::begins, crate::proofs::AllWords::wrong_there, crate::proofs::AllWords::one_more))]
pub fn all_types(alloc: Global, operands: &[Operand<'_>]) -> Result<Vec<u32>, TaskError>
    ensures { Judges (λ v. v.items) result (all_in type_in (map operand_view operands.now)) }
{
    let mut all = Vec::new(alloc);
    for operand in operands {
        match type_in(*operand) {
            Ok(index) => all.push(index)?,
            Err(wrong) => return Err(TaskError::Mistake(operand.mistake(wrong))),
        }
    }
    Ok(all)
}

/// The lines of a source file that an operand names.
fn source_in<'w>(operand: Operand<'w>) -> Result<SourceAsked<'w>, Wrong>
    ensures { result_map_both source_view (λ wrong. wrong) result ≡ source_in (operand_view operand.entry) }
{
    source_of(operand.word.as_bytes())
}

/// The lines of source files that operands name.
#[tactic(auto, using(crate::proofs::AllWords::all_there, crate::proofs::AllWords::begins, crate::proofs::AllWords::wrong_there, crate::proofs::AllWords::one_more))]
pub fn all_sources<'w>(
    alloc: Global,
    operands: &[Operand<'w>],
) -> Result<Vec<SourceAsked<'w>>, TaskError>
    ensures { Judges (λ v. map source_view v.items) result (all_in source_in (map operand_view operands.now)) }
{
    let mut all = Vec::new(alloc);
    for operand in operands {
        match source_in(*operand) {
            Ok(source) => all.push(source)?,
            Err(wrong) => return Err(TaskError::Mistake(operand.mistake(wrong))),
        }
    }
    Ok(all)
}

/// The index of the first operand that is empty.
pub fn first_empty(operands: &[Operand<'_>]) -> Option<usize>
    ensures { result ≡ first_empty (map operand_view operands.now) }
{
    for operand in operands {
        if operand.word.is_empty() {
            return Some(operand.argument);
        }
    }
    None
}

//! Numbers among the arguments of a template.

ghost use Rattle.std.specs.Prelude.{◌≡◌, ◌<◌, ◌≤◌, true, length, option_map, IfSome, IfOk, Some};
ghost use Rattle.std.specs.List.{list_all};
ghost use Rattle.pdb_names.specs.Numbers.{hex_number as number_of_letters, is_letter as letter_test, lettered as lettered_number, number_at as number_there, shown as shown_number, unsigned as unsigned_number};
ghost use Rattle.pdb_names.specs.Pieces.{Gives};
ghost use Rattle.pdb_names.specs.Reads.{Passed, Within};
ghost use Rattle.pdb_names.specs.Views.{number_of, text_of, word_of};

use crate::pieces::Stop;
use crate::reader::{Text, Word, first_word};
use crate::reads::Reads;
use std::alloc::Global;

/// Whether all bytes are hex digits from `A` to `P`.
fn is_lettered(bytes: &[u8]) -> bool
    ensures { result ≡ list_all letter_test bytes.now }
{
    bytes.iter().all(|byte| b'A' <= *byte && *byte <= b'P')
}

/// The number of at most 16 hex digits from `A` to `P`.
#[tactic(auto, using(crate::proofs::Hex::room, crate::proofs::Hex::digit_at, crate::proofs::Hex::letter_more))]
fn hex_number(letters: &[u8]) -> u64
    requires few { length letters.now ≤ 16 }
    requires lettered { list_all letter_test letters.now ≡ true }
    ensures { result ≡ number_of_letters letters.now }
{
    let mut number = 0;
    for letter in letters {
        number = number * 16 + u64::from(letter.saturating_sub(b'A'));
    }
    number
}

/// A number, and the bytes behind it.
#[derive(Clone, Copy)]
pub(crate) struct Number<'d> {
    pub value: u64,
    pub rest: &'d [u8],
}

/// The number of letters.
#[tactic(auto, unfolding(crate::specs::Numbers::lettered))]
fn lettered(word: Word<'_>) -> Option<Number<'_>>
    ensures said { option_map number_of result ≡ lettered_number (word_of word.entry) }
    ensures behind { IfSome result (λ n. n.rest.now ≡ word.entry.rest.now) }
{
    if !word.bytes.is_empty() && word.bytes.len() <= 16 && is_lettered(word.bytes) {
        Some(Number {
            value: hex_number(word.bytes),
            rest: word.rest,
        })
    } else {
        None
    }
}

/// A number without a sign: a digit is one less than it.
#[tactic(auto, unfolding(crate::specs::Numbers::unsigned))]
fn unsigned<'d>(bytes: &'d [u8], reads: &mut Reads) -> Option<Number<'d>>
    ensures said { option_map number_of result ≡ unsigned_number bytes.now }
    ensures shorter { IfSome result (λ n. length n.rest.now < length bytes.now) }
    ensures counted { IfSome result (λ n. Passed reads.old.count reads.new.count bytes.now n.rest.now) }
    ensures once { Within reads.old.count reads.new.count bytes.now }
{
    match bytes {
        [byte, ..] if byte.is_ascii_digit() => Some(Number {
            value: u64::from(*byte - b'0') + 1,
            rest: reads.past(bytes, 1),
        }),
        [_, ..] => lettered(first_word(bytes, reads)?),
        [] => None,
    }
}

/// A number in decimal behind a sign.
fn shown<'d>(alloc: Global, sign: &[u8], number: Number<'d>) -> Result<Text<'d>, Stop>
    ensures said { Gives text_of result (Some (shown_number sign.now (number_of number.entry))) }
    ensures behind { IfOk result (λ t. t.rest.now ≡ number.entry.rest.now) }
{
    let value = number.value;
    let digits = format!(in alloc; "{value}")?;
    let mut text = Vec::from_slice(alloc, sign)?;
    text.extend_from_slice(digits.as_bytes())?;
    Ok(Text {
        text,
        rest: number.rest,
    })
}

/// A number in decimal; a question mark stands for its sign.
#[tactic(auto, unfolding(crate::specs::Numbers::number_at))]
pub(crate) fn number_at<'d>(
    alloc: Global,
    bytes: &'d [u8],
    reads: &mut Reads,
) -> Result<Text<'d>, Stop>
    ensures said { Gives text_of result (number_there bytes.now) }
    ensures shorter { IfOk result (λ t. length t.rest.now < length bytes.now) }
    ensures counted { IfOk result (λ t. Passed reads.old.count reads.new.count bytes.now t.rest.now) }
    ensures once { Within reads.old.count reads.new.count bytes.now }
{
    if bytes.starts_with(b"?") {
        let Some(number) = unsigned(reads.past(bytes, 1), reads) else {
            return Err(Stop::NoAnswer);
        };
        return shown(alloc, b"-", number);
    }
    let Some(number) = unsigned(bytes, reads) else {
        return Err(Stop::NoAnswer);
    };
    shown(alloc, b"", number)
}

//! Addresses of a process, as debuggers write them.

ghost use Rattle.std.specs.Prelude.{◌≡◌};
ghost use Rattle.std.specs.Option.{option_or};
ghost use Rattle.pdb_stacks.specs.ProcessAddresses.{address_in, address_of, digit_count, digits_number, has_backtick, is_assigned, joined, listed_address, number_from, process_address, short_address};

use crate::bytes::{Kind, Span, between, is_of, run_end, run_start};
use crate::hex_numbers::{SpelledNumber, hex_in};

/// Whether a backtick stands before the last eight digits, with a digit before it.
fn has_backtick(digits: &[u8]) -> bool
    ensures { result ≡ has_backtick digits.now }
{
    digits.len() > 9 && digits[digits.len() - 9] == b'`'
}

/// How many digits there are, without a backtick.
fn digit_count(digits: &[u8]) -> usize
    ensures { result ≡ digit_count digits.now }
{
    if has_backtick(digits) {
        digits.len() - 1
    } else {
        digits.len()
    }
}

/// A number of 32 bits behind another one.
fn joined(high: Option<u64>, low: Option<u64>) -> Option<u64>
    ensures { result ≡ joined high low }
{
    let high = u32::try_from(high?).ok()?;
    let low = u32::try_from(low?).ok()?;
    Some(u64::from(high) * 0x1_0000_0000 + u64::from(low))
}

/// The number of hex digits, before the last eight of which a backtick may stand.
#[tactic(auto, unfolding(crate::specs::ProcessAddresses::digits_number))]
fn digits_number(digits: &[u8]) -> Option<u64>
    ensures { result ≡ digits_number digits.now }
{
    if has_backtick(digits) {
        let (high, rest) = digits.split_at(digits.len() - 9);
        return joined(hex_in(high), hex_in(&rest[1..]));
    }
    hex_in(digits)
}

/// The number of so many digits, up to 16.
#[tactic(auto, unfolding(crate::specs::ProcessAddresses::number_from))]
fn number_from(digits: &[u8], least: usize) -> Option<u64>
    ensures { result ≡ number_from digits.now least }
{
    let count = digit_count(digits);
    if count < least || count > 16 {
        return None;
    }
    digits_number(digits)
}

/// The number of a word that is an address: `0x` and 6 to 16 hex digits, or 16 hex digits.
#[tactic(auto, unfolding(crate::specs::ProcessAddresses::address_in))]
pub(crate) fn address_in(word: &[u8]) -> Option<u64>
    ensures { result ≡ address_in word.now }
{
    if word.starts_with(b"0x") {
        number_from(&word[2..], 6)
    } else {
        number_from(word, 16)
    }
}

/// The number of 8 hex digits.
fn short_address(word: &[u8]) -> Option<u64>
    ensures { result ≡ short_address word.now }
{
    if word.len() == 8 { hex_in(word) } else { None }
}

/// The same in a line that lists a module, where 8 hex digits are an address too.
#[tactic(auto, unfolding(crate::specs::ProcessAddresses::listed_address))]
pub(crate) fn listed_address(word: &[u8]) -> Option<u64>
    ensures { result ≡ listed_address word.now }
{
    match short_address(word) {
        Some(number) => Some(number),
        None => address_in(word),
    }
}

/// Whether `=` stands before an offset, with blanks or none between.
fn is_assigned(line: &[u8], at: usize) -> bool
    ensures { result ≡ is_assigned line.now at }
{
    line[..run_start(Kind::Blank, line, at)].ends_with(b"=")
}

/// The address that the word is that stands at an offset, unless `=` stands before it.
#[tactic(auto, unfolding(crate::specs::ProcessAddresses::address_of))]
fn address_of(line: &[u8], word: Span) -> Option<SpelledNumber>
    ensures { result ≡ address_of line.now word }
{
    if is_assigned(line, word.start) {
        return None;
    }
    let number = address_in(between(line, word.start, word.end))?;
    Some(SpelledNumber { text: word, number })
}

/// The first of two addresses, if there was one.
fn kept(first: Option<SpelledNumber>, address: SpelledNumber) -> Option<SpelledNumber>
    ensures { result ≡ option_or first (Some address) }
{
    match first {
        Some(first) => Some(first),
        None => Some(address),
    }
}

/// The address of a process that a line has: the first of at least 2^32, or else the first. A word behind `=` is none, since
/// registers are written so.
pub fn process_address(line: &[u8]) -> Option<SpelledNumber>
    ensures { result ≡ process_address line.now }
{
    let mut free = 0;
    let mut first = None;
    for (at, byte) in line.iter().enumerate() {
        if at >= free && is_of(Kind::Word, *byte) {
            free = run_end(Kind::Word, line, at);
            let word = Span {
                start: at,
                end: free,
            };
            if let Some(address) = address_of(line, word) {
                if address.number >= 0x1_0000_0000 {
                    return Some(address);
                }
                first = kept(first, address);
            }
        }
    }
    first
}

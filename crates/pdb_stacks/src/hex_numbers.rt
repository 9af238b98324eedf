//! Hex numbers in a line.

ghost use Rattle.std.specs.Prelude.{◌≡◌};
ghost use Rattle.std.specs.Char.{is_ascii_hexdigit};
ghost use Rattle.std.specs.List.{list_all};
ghost use Rattle.pdb_stacks.specs.HexTexts.{hex_at, hex_behind, hex_in, is_hex, offset_at};

use crate::bytes::{Kind, Span, between, kind_at, run_end};
use crate::texts::behind_text;

/// A number that a line has.
#[derive(Clone, Copy, Debug, PartialEq, Eq)]
pub struct SpelledNumber {
    /// Its text, with the `0x` before it.
    pub text: Span,
    /// Its value.
    pub number: u64,
}

/// A hex number, and where it ends.
#[derive(Clone, Copy)]
pub(crate) struct Hex {
    pub(crate) number: u64,
    pub(crate) end: usize,
}

/// Whether all bytes are hex digits.
fn is_all_hex(digits: &[u8]) -> bool
    ensures { result ≡ list_all is_ascii_hexdigit digits.now }
{
    digits.iter().all(|b| b.is_ascii_hexdigit())
}

/// Whether a text is 1 to 16 hex digits.
fn is_hex(digits: &[u8]) -> bool
    ensures { result ≡ is_hex digits.now }
{
    !digits.is_empty() && digits.len() <= 16 && is_all_hex(digits)
}

/// The number that 1 to 16 hex digits write.
#[tactic(auto, unfolding(crate::specs::HexTexts::hex_in))]
pub(crate) fn hex_in(digits: &[u8]) -> Option<u64>
    ensures { result ≡ hex_in digits.now }
{
    if !is_hex(digits) {
        return None;
    }
    let Ok(text) = std::str::from_utf8(digits) else {
        return None;
    };
    u64::from_str_radix(text, 16).ok()
}

/// The hex number at an offset: all hex digits from there on, of which there are 1 to 16, and behind which stands no byte
/// that would make it another text.
#[tactic(auto, unfolding(crate::specs::HexTexts::hex_at))]
pub(crate) fn hex_at(line: &[u8], at: usize) -> Option<Hex>
    ensures { result ≡ hex_at line.now at }
{
    let end = run_end(Kind::HexDigit, line, at);
    if kind_at(Kind::JoinsHex, line, end) {
        return None;
    }
    let number = hex_in(between(line, at, end))?;
    Some(Hex { number, end })
}

/// The hex number behind a text that stands at an offset.
#[tactic(auto, unfolding(crate::specs::HexTexts::hex_behind))]
pub(crate) fn hex_behind(line: &[u8], at: usize, text: &[u8]) -> Option<Hex>
    ensures { result ≡ hex_behind line.now at text.now }
{
    hex_at(line, behind_text(line, at, text)?)
}

/// The offset from a symbol or a module that is spelled at an offset of the line: `+0x` or ` + 0x`, and a hex number.
#[tactic(auto, unfolding(crate::specs::HexTexts::offset_at))]
pub(crate) fn offset_at(line: &[u8], at: usize) -> Option<Hex>
    ensures { result ≡ offset_at line.now at }
{
    match hex_behind(line, at, b"+0x") {
        Some(hex) => Some(hex),
        None => hex_behind(line, at, b" + 0x"),
    }
}

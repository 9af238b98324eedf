//! Numbers of frames, with which lines of a stack begin.

ghost use Rattle.std.specs.Prelude.{◌≡◌};
ghost use Rattle.pdb_stacks.specs.FrameNumbers.{digits_start, ends_number, frame_number, number_at, past_hash};

use crate::bytes::{Kind, between, kind_at, run_end};
use crate::hex_numbers::hex_in;
use crate::texts::{behind_text, past_text, stands};

/// The offset behind `#` and blanks, where `#` stands at an offset.
#[tactic(auto, unfolding(crate::specs::FrameNumbers::past_hash))]
fn past_hash(line: &[u8], at: usize) -> usize
    ensures { result ≡ past_hash line.now at }
{
    match behind_text(line, at, b"#") {
        Some(hash) => run_end(Kind::Blank, line, hash),
        None => at,
    }
}

/// The offset of the number: behind blanks, `=>` or nothing, and `#` and blanks or nothing.
fn digits_start(line: &[u8]) -> usize
    ensures { result ≡ digits_start line.now }
{
    let blanks = run_end(Kind::Blank, line, 0);
    past_hash(line, past_text(line, blanks, b"=>"))
}

/// Whether what may stand behind the digits stands at an offset: `:`, `#` or nothing, and a blank.
#[tactic(auto, unfolding(crate::specs::FrameNumbers::ends_number))]
fn ends_number(line: &[u8], at: usize) -> bool
    ensures { result ≡ ends_number line.now at }
{
    if stands(line, at, b":") {
        kind_at(Kind::Blank, line, past_text(line, at, b":"))
    } else {
        kind_at(Kind::Blank, line, past_text(line, at, b"#"))
    }
}

/// The number at an offset, of 1 to 3 hex digits of which the first is decimal.
fn number_at(line: &[u8], start: usize) -> Option<u64>
    ensures { result ≡ number_at line.now start }
{
    let end = run_end(Kind::HexDigit, line, start);
    if end - start <= 3 && kind_at(Kind::Digit, line, start) && ends_number(line, end) {
        hex_in(between(line, start, end))
    } else {
        None
    }
}

/// The number of a frame with which a line begins, in hex. Some debuggers write it in decimal, so only 0 can be told from the
/// others.
#[tactic(auto, unfolding(crate::specs::FrameNumbers::frame_number))]
pub fn frame_number(line: &[u8]) -> Option<u64>
    ensures { result ≡ frame_number line.now }
{
    number_at(line, digits_start(line))
}

//! Numbers as annotations spell them.

ghost use Rattle.std.specs.Prelude.{◌≡◌, ◌<◌, ◌≤◌, ◌^◌, length, IfOk};
ghost use Rattle.pdb_base.specs.Refusal.{Answers};
ghost use Rattle.pdb_symbols.specs.Spelling.{spelled_at, signed_of};

use pdb_base::{Error, Result};

/// A number, and the offset behind its spelling.
#[derive(Clone, Copy)]
pub(crate) struct Spelled {
    pub value: u32,
    pub end: usize,
}

// The number that is spelled at an offset.
#[inline(always)]
#[tactic(auto, unfolding(crate::specs::Spelling::spelled_at))]
pub(crate) fn read_number(bytes: &[u8], at: usize) -> Result<Spelled>
    requires { at ≤ length bytes.now }
    ensures reads { Answers (λ s. s) result (spelled_at bytes.now at) }
    ensures small { IfOk result (λ s. s.value < 2 ^ 29) }
    ensures inside { IfOk result (λ s. (at < s.end) × (s.end ≤ length bytes.now)) }
{
    let left = bytes.len() - at;
    if left < 1 {
        return Err(Error::UnexpectedEof);
    }
    let first = bytes[at];
    if first < 0x80 {
        return Ok(Spelled {
            value: u32::from(first),
            end: at + 1,
        });
    }
    if first < 0xc0 {
        if left < 2 {
            return Err(Error::UnexpectedEof);
        }
        let value = u32::from(first - 0x80) * 256 + u32::from(bytes[at + 1]);
        return Ok(Spelled { value, end: at + 2 });
    }
    if left < 4 {
        return Err(Error::UnexpectedEof);
    }
    if first >= 0xe0 {
        return Err(Error::InvalidCompressedAnnotation);
    }
    let value = u32::from_be_bytes([first - 0xc0, bytes[at + 1], bytes[at + 2], bytes[at + 3]]);
    Ok(Spelled { value, end: at + 4 })
}

// The signed operand that a number stands for: its half, negated where the number is odd.
#[inline]
pub(crate) fn signed(number: u32) -> i32
    ensures { result ≡ signed_of number }
{
    let half = (number / 2) as i32;
    if number % 2 == 0 { half } else { -half }
}

//! The first zero byte of a slice, by vectors of 16 and of 8 bytes.

ghost use Rattle.std.specs.Prelude.{◌≡◌, ◌+◌, ◌<◌, ◌≤◌, ◌==◌, if◌then◌else◌, length, position, IfSome};
ghost use Rattle.std.specs.Int.{w64, trailing_zeros};
ghost use Rattle.pdb_base.specs.Runs.{IsRun};

use std::simd::prelude::*;

/// The offset of the lowest bit that is set, or how many lanes there are.
#[inline(always)]
fn first_set(mask: u64, lanes: usize) -> usize
    ensures { result ≡ if mask == 0 then lanes else trailing_zeros w64 mask }
{
    if mask == 0 {
        lanes
    } else {
        mask.trailing_zeros() as usize
    }
}

/// How many of the 16 bytes at an offset come before a zero byte.
#[inline(always)]
fn run_of_16(bytes: &[u8], at: usize) -> usize
    requires { at + 16 ≤ length bytes.now }
    ensures { IsRun bytes.now at 16 result }
{
    let zeros = u8x16::from_slice(&bytes[at..]).simd_eq(u8x16::splat(0));
    first_set(zeros.to_bitmask(), 16)
}

/// How many of the 8 bytes at an offset come before a zero byte.
#[inline(always)]
fn run_of_8(bytes: &[u8], at: usize) -> usize
    requires { at + 8 ≤ length bytes.now }
    ensures { IsRun bytes.now at 8 result }
{
    let zeros = u8x8::from_slice(&bytes[at..]).simd_eq(u8x8::splat(0));
    first_set(zeros.to_bitmask(), 8)
}

/// The offset of the first zero byte of fewer than 16.
#[inline(never)]
fn first_zero_of_few(bytes: &[u8]) -> Option<usize>
    ensures place { result ≡ position (λ x. x == 0) bytes.now }
    ensures bound { IfSome result (λ n. n < length bytes.now) }
{
    let len = bytes.len();
    if len < 8 || len > 16 {
        return bytes.iter().position(|x| *x == 0);
    }
    let run = run_of_8(bytes, 0);
    if run < 8 {
        return Some(run);
    }
    let last = len - 8;
    let run = run_of_8(bytes, last);
    if run < 8 { Some(last + run) } else { None }
}

/// The offset of the first zero byte.
#[inline(always)]
pub(crate) fn first_zero(bytes: &[u8]) -> Option<usize>
    ensures place { result ≡ position (λ x. x == 0) bytes.now }
    ensures bound { IfSome result (λ n. n < length bytes.now) }
{
    let len = bytes.len();
    if len < 16 {
        return first_zero_of_few(bytes);
    }
    let mut at = 0;
    while len - at >= 16 {
        let run = run_of_16(bytes, at);
        if run < 16 {
            return Some(at + run);
        }
        at += 16;
    }
    let last = len - 16;
    let run = run_of_16(bytes, last);
    if run < 16 { Some(last + run) } else { None }
}

//! Names of a file, which may have any bytes and any length, on one line.

ghost use Rattle.std.specs.Prelude.{◌≡◌, ◌+◌, ◌≤◌, ◌<◌, ◌++◌, OnErr, OnOk, length, map, take, drop};
ghost use Rattle.std.specs.List.{list_any};
ghost use Rattle.pdb_text.specs.OneLine.{cut, goes_on, in_line, is_control, one_line};
ghost use Rattle.pdb_text.specs.Written.{PutFront};

use std::alloc::AllocError;

/// How many bytes of a name are shown.
const MOST_SHOWN: usize = 4096;

/// What stands behind the beginning of a longer name.
const DOTS: &[u8] = b"...";

fn is_control(byte: u8) -> bool
    ensures { result ≡ is_control byte }
{
    byte < b' ' || byte == 0x7f
}

fn in_line(byte: u8) -> u8
    ensures { result ≡ in_line byte }
{
    if is_control(byte) { b' ' } else { byte }
}

fn goes_on(byte: u8) -> bool
    ensures { result ≡ goes_on byte }
{
    matches!(byte, 0x80..=0xbf)
}

/// Where a name of more than 4,096 bytes is cut.
#[tactic(auto, unfolding(crate::specs::OneLine::cut))]
fn cut(bytes: &[u8]) -> usize
    requires { 4096 < length bytes.now }
    ensures is { result ≡ cut bytes.now }
    ensures most { result ≤ 4096 }
{
    if !goes_on(bytes[MOST_SHOWN]) {
        MOST_SHOWN
    } else if !goes_on(bytes[MOST_SHOWN - 1]) {
        MOST_SHOWN - 1
    } else if !goes_on(bytes[MOST_SHOWN - 2]) {
        MOST_SHOWN - 2
    } else {
        MOST_SHOWN - 3
    }
}

/// Whether a byte is a control character. Every byte is read, without a branch, so that many are compared at once. Where
/// it is inlined, LLVM compares them one by one.
#[inline(never)]
fn has_control(bytes: &[u8]) -> bool
    ensures { result ≡ list_any is_control bytes.now }
{
    let mut found = false;
    for byte in bytes {
        let is_found = is_control(*byte);
        found |= is_found;
    }
    found
}

/// Appends bytes, with a blank for each control character.
#[tactic(auto, using(crate::proofs::Fronts::front_line, crate::proofs::Fronts::plain_line))]
fn put_in_line(out: &mut Vec<u8>, bytes: &[u8]) -> Result<(), AllocError>
    ensures ok { OnOk result (out.new.items ≡ out.old.items ++ map in_line bytes.now) }
    ensures err { OnErr result (PutFront out.old.items out.new.items (map in_line bytes.now)) }
{
    if !has_control(bytes) {
        return out.extend_from_slice(bytes);
    }
    for byte in bytes {
        out.push(in_line(*byte))?;
    }
    Ok(())
}

/// Appends a name as a text shows it: with a blank for each control character, so that it neither ends a line nor steers
/// a terminal, and of more than 4,096 bytes the beginning and three dots.
#[tactic(auto, unfolding(crate::specs::OneLine::one_line), using(crate::proofs::Fronts::front_first, crate::proofs::Fronts::front_next))]
pub fn put_one_line(out: &mut Vec<u8>, bytes: &[u8]) -> Result<(), AllocError>
    ensures ok { OnOk result (out.new.items ≡ out.old.items ++ one_line bytes.now) }
    ensures err { OnErr result (PutFront out.old.items out.new.items (one_line bytes.now)) }
{
    if bytes.len() <= MOST_SHOWN {
        return put_in_line(out, bytes);
    }
    put_in_line(out, &bytes[..cut(bytes)])?;
    out.extend_from_slice(DOTS)
}

/// Puts a blank for each control character.
fn blank_controls(bytes: &mut [u8])
    ensures { bytes.new ≡ map in_line bytes.old }
{
    for byte in bytes.iter_mut() {
        *byte = in_line(*byte);
    }
}

/// Puts a blank for each control character behind an offset.
fn blank_controls_from(out: &mut Vec<u8>, start: usize)
    requires { start ≤ length out.old.items }
    ensures { out.new.items ≡ take start out.old.items ++ map in_line (drop start out.old.items) }
{
    let (_, name) = out.as_mut_slice().split_at_mut(start);
    blank_controls(name);
}

/// Leaves so many bytes behind an offset, with a blank for each control character.
#[tactic(auto, using(crate::proofs::Fronts::cut_behind))]
fn shorten(out: &mut Vec<u8>, start: usize, size: usize)
    requires { start + size ≤ length out.old.items }
    ensures { out.new.items ≡ take start out.old.items ++ map in_line (take size (drop start out.old.items)) }
{
    out.truncate(start + size);
    blank_controls_from(out, start);
}

/// Turns what stands behind an offset into what a text shows of it, as [`put_one_line`] appends it.
#[tactic(auto, unfolding(crate::specs::OneLine::one_line), using(crate::proofs::Fronts::front_dots, crate::proofs::Written::any_err))]
pub fn to_one_line(out: &mut Vec<u8>, start: usize) -> Result<(), AllocError>
    requires { start ≤ length out.old.items }
    ensures ok { OnOk result (out.new.items ≡ take start out.old.items ++ one_line (drop start out.old.items)) }
    ensures err { OnErr result (PutFront (take start out.old.items) out.new.items (one_line (drop start out.old.items))) }
{
    if out.len() - start <= MOST_SHOWN {
        blank_controls_from(out, start);
        return Ok(());
    }
    let size = cut(&out.as_slice()[start..]);
    shorten(out, start, size);
    out.extend_from_slice(DOTS)
}

//! Names that match a pattern.

ghost use Rattle.std.specs.Prelude.{◌≡◌, codes};
ghost use Rattle.std.specs.Str.{bytes_eq};
ghost use Rattle.tool_arguments.specs.Wildcards.{from_somewhere, matches};

use bstr::ByteSlice;

/// What stands for any bytes in a pattern.
const STAR: u8 = b'*';

/// Whether the bytes of a name from some offset on match a pattern. The first offset is taken at which what stands
/// before the next star occurs: a later one leaves less for what is behind.
fn matches_somewhere(pattern: &[u8], name: &[u8]) -> bool
    ensures { result ≡ from_somewhere (matches pattern.now) name.now }
{
    match pattern.find_byte(STAR) {
        None => name.ends_with_str(pattern),
        Some(star) => match name.find(&pattern[..star]) {
            Some(at) => matches_somewhere(&pattern[star + 1..], &name[at + star..]),
            None => false,
        },
    }
}

/// Whether a pattern is a star alone: every name matches it, so that no byte needs to be read.
#[inline(always)]
fn is_star(pattern: &[u8]) -> bool
    ensures { result ≡ bytes_eq pattern.now (codes "*") }
{
    pattern == b"*".as_slice()
}

/// Whether a name matches a pattern, read from its start on.
#[inline(never)]
fn matches_from_start(pattern: &[u8], name: &[u8]) -> bool
    ensures { result ≡ matches pattern.now name.now }
{
    match pattern.find_byte(STAR) {
        None => name == pattern,
        Some(star) => {
            name.starts_with_str(&pattern[..star])
                && matches_somewhere(&pattern[star + 1..], &name[star..])
        }
    }
}

/// Whether a name matches a pattern: `*` stands for any bytes, also none, and each other byte for itself.
#[inline(always)]
pub fn matches(pattern: &[u8], name: &[u8]) -> bool
    ensures { result ≡ matches pattern.now name.now }
{
    is_star(pattern) || matches_from_start(pattern, name)
}

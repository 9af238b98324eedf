//! Names of C functions on x86, which begin with a byte by the calling convention: `_name`, `_name@4`, `@name@8`.

ghost use Rattle.std.specs.Prelude.{◌≡◌, ◌<◌, ◌==◌, length, position, option_map, IfSome, not};
ghost use Rattle.std.specs.Char.{is_ascii_digit};
ghost use Rattle.std.specs.List.{list_all};
ghost use Rattle.pdb_names.specs.CNames.{before_size as name_before_size, c_name as name_of_c, is_name as name_test, is_size as size_test};

/// Whether all bytes are digits.
fn is_all_digits(bytes: &[u8]) -> bool
    ensures { result ≡ list_all is_ascii_digit bytes.now }
{
    bytes.iter().all(|byte| byte.is_ascii_digit())
}

/// Whether the bytes are the size of a function's arguments: one to five digits.
fn is_size(bytes: &[u8]) -> bool
    ensures { result ≡ size_test bytes.now }
{
    !bytes.is_empty() && bytes.len() <= 5 && is_all_digits(bytes)
}

/// Whether no byte is a question mark.
fn has_no_question_mark(bytes: &[u8]) -> bool
    ensures { result ≡ list_all (λ x. not (x == 63)) bytes.now }
{
    bytes.iter().all(|byte| *byte != b'?')
}

/// Whether the bytes are a name: at least one, and none of them a question mark.
pub(crate) fn is_name(bytes: &[u8]) -> bool
    ensures { result ≡ name_test bytes.now }
{
    !bytes.is_empty() && has_no_question_mark(bytes)
}

/// The index of the first `@`.
fn first_at_sign(bytes: &[u8]) -> Option<usize>
    ensures at { result ≡ position (λ x. x == 64) bytes.now }
    ensures bound { IfSome result (λ n. n < length bytes.now) }
{
    bytes.iter().position(|byte| *byte == b'@')
}

/// The name before an `@` and a size.
#[tactic(auto, unfolding(crate::specs::CNames::before_size))]
fn before_size(is_plain: bool, bytes: &[u8]) -> Option<&[u8]>
    ensures { option_map (λ x. x.now) result ≡ name_before_size is_plain (position (λ x. x == 64) bytes.now) bytes.now }
{
    match first_at_sign(bytes) {
        None if is_plain && is_name(bytes) => Some(bytes),
        None => None,
        Some(end) if is_size(&bytes[end + 1..]) && is_name(&bytes[..end]) => Some(&bytes[..end]),
        Some(_) => None,
    }
}

/// The name of a C function, where these bytes spell one.
#[tactic(auto, unfolding(crate::specs::CNames::c_name))]
pub(crate) fn c_name(bytes: &[u8]) -> Option<&[u8]>
    ensures { option_map (λ x. x.now) result ≡ name_of_c bytes.now }
{
    let is_plain = bytes.starts_with(b"_");
    if is_plain || bytes.starts_with(b"@") {
        before_size(is_plain, &bytes[1..])
    } else {
        None
    }
}

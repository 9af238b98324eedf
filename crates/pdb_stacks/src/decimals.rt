//! Decimal numbers in a line.

ghost use Rattle.std.specs.Prelude.{◌≡◌};
ghost use Rattle.std.specs.Char.{is_ascii_digit};
ghost use Rattle.std.specs.List.{list_all};
ghost use Rattle.pdb_stacks.specs.DecimalTexts.{decimal_in, is_decimal};

/// Whether all bytes are digits.
fn is_all_digits(digits: &[u8]) -> bool
    ensures { result ≡ list_all is_ascii_digit digits.now }
{
    digits.iter().all(|b| b.is_ascii_digit())
}

/// Whether a text is 1 to 10 digits.
fn is_decimal(digits: &[u8]) -> bool
    ensures { result ≡ is_decimal digits.now }
{
    !digits.is_empty() && digits.len() <= 10 && is_all_digits(digits)
}

/// The number below 2^32 that 1 to 10 digits write.
#[tactic(auto, unfolding(crate::specs::DecimalTexts::decimal_in))]
pub(crate) fn decimal_in(digits: &[u8]) -> Option<u32>
    ensures { result ≡ decimal_in digits.now }
{
    if !is_decimal(digits) {
        return None;
    }
    let Ok(text) = std::str::from_utf8(digits) else {
        return None;
    };
    u32::from_str_radix(text, 10).ok()
}

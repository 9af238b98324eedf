//! Numbers that words are.

ghost use Rattle.std.specs.Prelude.{◌≡◌};
ghost use Rattle.std.specs.Char.{is_ascii_digit};
ghost use Rattle.std.specs.List.{list_all};
ghost use Rattle.pdb_text.specs.Numbers.{is_short_numeral, long_number_in, number_in};

/// Whether all bytes of a word are digits.
fn is_all_digits(word: &str) -> bool
    ensures { result ≡ list_all is_ascii_digit word.now }
{
    word.as_bytes().iter().all(|b| b.is_ascii_digit())
}

/// Whether a word is one to ten digits.
fn is_short_numeral(word: &str) -> bool
    ensures { result ≡ is_short_numeral word.now }
{
    !word.is_empty() && word.len() <= 10 && is_all_digits(word)
}

/// The number that a word is: one to ten digits, of at most 4294967295.
#[tactic(auto, unfolding(crate::specs::Numbers::number_in))]
pub fn number_in(word: &str) -> Option<u32>
    ensures { result ≡ number_in word.now }
{
    if is_short_numeral(word) {
        word.parse::<u32>().ok()
    } else {
        None
    }
}

/// The number that a word is: one to ten digits, of at most 9999999999.
#[tactic(auto, unfolding(crate::specs::Numbers::long_number_in))]
pub fn long_number_in(word: &str) -> Option<u64>
    ensures { result ≡ long_number_in word.now }
{
    if is_short_numeral(word) {
        word.parse::<u64>().ok()
    } else {
        None
    }
}

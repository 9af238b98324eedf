//! Special names of Microsoft's C++: constructors, destructors, operators, and what a compiler makes by itself.

ghost use Rattle.std.specs.Prelude.{◌≡◌, ◌≤◌, true, length, option_map, IfSome};
ghost use Rattle.pdb_names.specs.SpecialNames.{special, behind_underscore as name_behind_underscore, byte_text as text_of_byte, digit_rows, letter_rows_1, letter_rows_2, of_type as name_of_type, special_name as name_there, text_in, type_rows, underscore_rows, without_class as without_class_of};
ghost use Rattle.pdb_names.specs.Views.{special_of};

/// A special name: its text, whether that of its class stands behind it, and the bytes behind.
#[derive(Clone, Copy)]
pub(crate) struct Special<'d> {
    pub text: &'d [u8],
    pub of_class: bool,
    pub rest: &'d [u8],
}

/// The text of an operator by a digit.
fn digit_text(byte: u8) -> Option<&'static [u8]>
    ensures { option_map (λ x. x.now) result ≡ text_in digit_rows byte }
{
    let text: &[u8] = match byte {
        b'2' => b"operator new",
        b'3' => b"operator delete",
        b'4' => b"operator=",
        b'5' => b"operator>>",
        b'6' => b"operator<<",
        b'7' => b"operator!",
        b'8' => b"operator==",
        b'9' => b"operator!=",
        _ => return None,
    };
    Some(text)
}

/// The text of an operator by a letter up to `M`.
fn first_letter_text(byte: u8) -> Option<&'static [u8]>
    ensures { option_map (λ x. x.now) result ≡ text_in letter_rows_1 byte }
{
    let text: &[u8] = match byte {
        b'A' => b"operator[]",
        b'C' => b"operator->",
        b'D' => b"operator*",
        b'E' => b"operator++",
        b'F' => b"operator--",
        b'G' => b"operator-",
        b'H' => b"operator+",
        b'I' => b"operator&",
        b'J' => b"operator->*",
        b'K' => b"operator/",
        b'L' => b"operator%",
        b'M' => b"operator<",
        _ => return None,
    };
    Some(text)
}

/// The text of an operator by a letter from `N` on.
fn last_letter_text(byte: u8) -> Option<&'static [u8]>
    ensures { option_map (λ x. x.now) result ≡ text_in letter_rows_2 byte }
{
    let text: &[u8] = match byte {
        b'N' => b"operator<=",
        b'O' => b"operator>",
        b'P' => b"operator>=",
        b'Q' => b"operator,",
        b'R' => b"operator()",
        b'S' => b"operator~",
        b'T' => b"operator^",
        b'U' => b"operator|",
        b'V' => b"operator&&",
        b'W' => b"operator||",
        b'X' => b"operator*=",
        b'Y' => b"operator+=",
        b'Z' => b"operator-=",
        _ => return None,
    };
    Some(text)
}

/// The text of a name by a byte behind `_`.
fn underscore_text(byte: u8) -> Option<&'static [u8]>
    ensures { option_map (λ x. x.now) result ≡ text_in underscore_rows byte }
{
    let text: &[u8] = match byte {
        b'0' => b"operator/=",
        b'1' => b"operator%=",
        b'2' => b"operator>>=",
        b'3' => b"operator<<=",
        b'4' => b"operator&=",
        b'5' => b"operator|=",
        b'6' => b"operator^=",
        b'7' => b"`vftable'",
        b'8' => b"`vbtable'",
        b'D' => b"`vbase destructor'",
        b'E' => b"`vector deleting destructor'",
        b'G' => b"`scalar deleting destructor'",
        b'U' => b"operator new[]",
        b'V' => b"operator delete[]",
        _ => return None,
    };
    Some(text)
}

/// The text of a name by a byte behind `_R`.
fn type_text(byte: u8) -> Option<&'static [u8]>
    ensures { option_map (λ x. x.now) result ≡ text_in type_rows byte }
{
    let text: &[u8] = match byte {
        b'2' => b"`RTTI Base Class Array'",
        b'3' => b"`RTTI Class Hierarchy Descriptor'",
        b'4' => b"`RTTI Complete Object Locator'",
        _ => return None,
    };
    Some(text)
}

/// The text of an operator by one byte.
fn byte_text(byte: u8) -> Option<&'static [u8]>
    ensures { option_map (λ x. x.now) result ≡ text_of_byte byte }
{
    match byte {
        0..b'A' => digit_text(byte),
        b'A'..b'N' => first_letter_text(byte),
        _ => last_letter_text(byte),
    }
}

/// A name that has a text of its own.
fn without_class<'d>(text: Option<&'d [u8]>, rest: &'d [u8]) -> Option<Special<'d>>
    ensures said { option_map special_of result ≡ without_class_of (option_map (λ x. x.now) text.entry) rest.now }
    ensures shorter { IfSome result (λ p. length p.rest.now ≤ length rest.now) }
{
    let text = text?;
    Some(Special {
        text,
        of_class: false,
        rest,
    })
}

/// A name behind `_R`.
fn of_type(bytes: &[u8]) -> Option<Special<'_>>
    ensures said { option_map special_of result ≡ name_of_type bytes.now }
    ensures shorter { IfSome result (λ p. length p.rest.now ≤ length bytes.now) }
{
    match bytes {
        [byte, rest @ ..] => without_class(type_text(*byte), rest),
        [] => None,
    }
}

/// A name behind `_`.
fn behind_underscore(bytes: &[u8]) -> Option<Special<'_>>
    ensures said { option_map special_of result ≡ name_behind_underscore bytes.now }
    ensures shorter { IfSome result (λ p. length p.rest.now ≤ length bytes.now) }
{
    match bytes {
        [b'R', rest @ ..] => of_type(rest),
        [byte, rest @ ..] => without_class(underscore_text(*byte), rest),
        [] => None,
    }
}

/// The name of a constructor or a destructor: that of its class behind a text.
fn of_class<'d>(text: &'d [u8], rest: &'d [u8]) -> Special<'d>
    ensures { special_of result ≡ special text.now true rest.now }
{
    Special {
        text,
        of_class: true,
        rest,
    }
}

/// A special name at the front.
#[tactic(auto, unfolding(crate::specs::SpecialNames::special_name))]
pub(crate) fn special_name(bytes: &[u8]) -> Option<Special<'_>>
    ensures said { option_map special_of result ≡ name_there bytes.now }
    ensures shorter { IfSome result (λ p. length p.rest.now ≤ length bytes.now) }
{
    match bytes {
        [b'0', rest @ ..] => Some(of_class(b"", rest)),
        [b'1', rest @ ..] => Some(of_class(b"~", rest)),
        [b'_', rest @ ..] => behind_underscore(rest),
        [byte, rest @ ..] => without_class(byte_text(*byte), rest),
        [] => None,
    }
}

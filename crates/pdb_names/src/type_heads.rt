//! How types begin among the arguments of a template: simple ones, classes, and marks before another type.

ghost use Rattle.std.specs.Prelude.{◌≡◌, ◌≤◌, ◌<◌, ◌++◌, false, length, option_map, IfSome, OnOk};
ghost use Rattle.pdb_names.specs.SpecialNames.{text_in};
ghost use Rattle.pdb_names.specs.TypeHeads.{behind_e as rest_behind_e, both as both_of, dollar_head as head_behind_dollar, enum_head as head_of_enum, head as head_with, head_at as head_there, of_class as head_of_class, pointer as head_of_pointer, pointer_head as head_by_letter, set as set_with, set_of as set_there, simple as simple_head, simple_rows, wide_head as head_behind_underscore, wide_rows, words};
ghost use Rattle.pdb_names.specs.Views.{head_of};

use std::alloc::AllocError;

/// Which of const and volatile a type has.
#[derive(Clone, Copy)]
pub(crate) struct Set {
    pub is_const: bool,
    pub is_volatile: bool,
}

/// What begins a type: a simple one, a class, or a mark before another type.
#[derive(Clone, Copy)]
pub(crate) enum Shape {
    Simple,
    Class,
    Marked,
}

/// How a type begins: of a simple one the text, of a class what stands before its name, of others the mark behind the
/// type that follows; the set of the whole; and the bytes behind.
#[derive(Clone, Copy)]
pub(crate) struct Head<'d> {
    pub shape: Shape,
    pub text: &'d [u8],
    pub set: Set,
    pub rest: &'d [u8],
}

impl Set {
    /// Neither const nor volatile.
    pub(crate) fn none() -> Set
        ensures { result ≡ set_with false false }
    {
        Set {
            is_const: false,
            is_volatile: false,
        }
    }

    /// What two types have together.
    pub(crate) fn and(self, other: Set) -> Set
        ensures { result ≡ both_of self other }
    {
        Set {
            is_const: self.is_const || other.is_const,
            is_volatile: self.is_volatile || other.is_volatile,
        }
    }

    /// Appends `const` and `volatile`, each behind a blank.
    #[tactic(auto, unfolding(crate::specs::TypeHeads::words))]
    pub(crate) fn put(self, text: &mut Vec<u8>) -> Result<(), AllocError>
        ensures { OnOk result (text.new.items ≡ text.old.items ++ words self) }
    {
        match self {
            Set {
                is_const: false,
                is_volatile: false,
            } => Ok(()),
            Set {
                is_const: true,
                is_volatile: false,
            } => text.extend_from_slice(b" const"),
            Set {
                is_const: false,
                is_volatile: true,
            } => text.extend_from_slice(b" volatile"),
            Set {
                is_const: true,
                is_volatile: true,
            } => text.extend_from_slice(b" const volatile"),
        }
    }

    /// The set of what is pointed to.
    #[tactic(auto, unfolding(crate::specs::TypeHeads::set_of))]
    pub(crate) fn of(byte: u8) -> Option<Set>
        ensures { result ≡ set_there byte }
    {
        let (is_const, is_volatile) = match byte {
            b'A' => (false, false),
            b'B' => (true, false),
            b'C' => (false, true),
            b'D' => (true, true),
            _ => return None,
        };
        Some(Set {
            is_const,
            is_volatile,
        })
    }
}

/// The text of a simple type by a letter.
fn simple_text(byte: u8) -> Option<&'static [u8]>
    ensures { option_map (λ x. x.now) result ≡ text_in simple_rows byte }
{
    let text: &[u8] = match byte {
        b'C' => b"signed char",
        b'D' => b"char",
        b'E' => b"unsigned char",
        b'F' => b"short",
        b'G' => b"unsigned short",
        b'H' => b"int",
        b'I' => b"unsigned int",
        b'J' => b"long",
        b'K' => b"unsigned long",
        b'M' => b"float",
        b'N' => b"double",
        b'O' => b"long double",
        b'X' => b"void",
        _ => return None,
    };
    Some(text)
}

/// The text of a simple type by a letter behind `_`.
fn wide_text(byte: u8) -> Option<&'static [u8]>
    ensures { option_map (λ x. x.now) result ≡ text_in wide_rows byte }
{
    let text: &[u8] = match byte {
        b'J' => b"__int64",
        b'K' => b"unsigned __int64",
        b'N' => b"bool",
        b'Q' => b"char8_t",
        b'S' => b"char16_t",
        b'U' => b"char32_t",
        b'W' => b"wchar_t",
        _ => return None,
    };
    Some(text)
}

/// A simple type.
fn simple<'d>(text: Option<&'d [u8]>, rest: &'d [u8]) -> Option<Head<'d>>
    ensures said { option_map head_of result ≡ option_map (simple_head rest.now) (option_map (λ x. x.now) text.entry) }
    ensures shorter { IfSome result (λ h. length h.rest.now ≤ length rest.now) }
{
    let text = text?;
    Some(Head {
        shape: Shape::Simple,
        text,
        set: Set::none(),
        rest,
    })
}

/// A class, with what stands before its name.
fn of_class<'d>(prefix: &'d [u8], rest: &'d [u8]) -> Head<'d>
    ensures said { head_of result ≡ head_of_class prefix.now rest.now }
    ensures same { result.rest.now ≡ rest.now }
{
    Head {
        shape: Shape::Class,
        text: prefix,
        set: Set::none(),
        rest,
    }
}

/// What is behind the `E` of pointers of 64 bits.
fn behind_e(bytes: &[u8]) -> &[u8]
    ensures said { result.now ≡ rest_behind_e bytes.now }
    ensures shorter { length result.now ≤ length bytes.now }
{
    if bytes.starts_with(b"E") {
        &bytes[1..]
    } else {
        bytes
    }
}

/// A pointer or a reference.
fn pointer<'d>(mark: &'d [u8], is_const: bool, is_volatile: bool, rest: &'d [u8]) -> Head<'d>
    ensures said { head_of result ≡ head_of_pointer mark.now (set_with is_const is_volatile) rest.now }
    ensures shorter { length result.rest.now ≤ length rest.now }
{
    Head {
        shape: Shape::Marked,
        text: mark,
        set: Set {
            is_const,
            is_volatile,
        },
        rest: behind_e(rest),
    }
}

/// A type behind `_`.
fn wide_head(bytes: &[u8]) -> Option<Head<'_>>
    ensures said { option_map head_of result ≡ head_behind_underscore bytes.now }
    ensures shorter { IfSome result (λ h. length h.rest.now ≤ length bytes.now) }
{
    match bytes {
        [byte, rest @ ..] => simple(wide_text(*byte), rest),
        [] => None,
    }
}

/// A type behind `$`.
fn dollar_head(bytes: &[u8]) -> Option<Head<'_>>
    ensures said { option_map head_of result ≡ head_behind_dollar bytes.now }
    ensures shorter { IfSome result (λ h. length h.rest.now ≤ length bytes.now) }
{
    if bytes.starts_with(b"$T") {
        return simple(Some(b"std::nullptr_t"), &bytes[2..]);
    }
    if bytes.starts_with(b"$C") {
        return Some(Head {
            shape: Shape::Marked,
            text: b" ",
            set: Set::none(),
            rest: &bytes[2..],
        });
    }
    if bytes.starts_with(b"$Q") {
        return Some(pointer(b" &&", false, false, &bytes[2..]));
    }
    None
}

/// A type behind `W`.
fn enum_head(bytes: &[u8]) -> Option<Head<'_>>
    ensures said { option_map head_of result ≡ head_of_enum bytes.now }
    ensures shorter { IfSome result (λ h. length h.rest.now ≤ length bytes.now) }
{
    if bytes.starts_with(b"4") {
        Some(of_class(b"enum ", &bytes[1..]))
    } else {
        None
    }
}

/// A pointer, a reference or a simple type by its letter.
fn pointer_head(byte: u8, rest: &[u8]) -> Option<Head<'_>>
    ensures said { option_map head_of result ≡ head_by_letter byte rest.now }
    ensures shorter { IfSome result (λ h. length h.rest.now ≤ length rest.now) }
{
    match byte {
        b'P' => Some(pointer(b" *", false, false, rest)),
        b'Q' => Some(pointer(b" *", true, false, rest)),
        b'R' => Some(pointer(b" *", false, true, rest)),
        b'S' => Some(pointer(b" *", true, true, rest)),
        b'A' => Some(pointer(b" &", false, false, rest)),
        _ => simple(simple_text(byte), rest),
    }
}

/// How a type begins at the front.
#[tactic(auto, unfolding(crate::specs::TypeHeads::head_at))]
pub(crate) fn head_at(bytes: &[u8]) -> Option<Head<'_>>
    ensures said { option_map head_of result ≡ head_there bytes.now }
    ensures shorter { IfSome result (λ h. length h.rest.now < length bytes.now) }
{
    match bytes {
        [b'_', rest @ ..] => wide_head(rest),
        [b'$', rest @ ..] => dollar_head(rest),
        [b'W', rest @ ..] => enum_head(rest),
        [b'T' | b'U' | b'V', rest @ ..] => Some(of_class(b"", rest)),
        [byte, rest @ ..] => pointer_head(*byte, rest),
        [] => None,
    }
}

//! Names as the Itanium C++ ABI decorates them: `_Z3addii` is `add`, `_ZN3tar5sniff4headEv` is `tar::sniff::head`.

ghost use Rattle.std.specs.Prelude.{◌≡◌, ◌-◌, ◌+◌, ◌<◌, ◌≤◌, ◌++◌, ◌==◌, ◌||◌, codes, length, map, position, option_map, IfSome, IsTrue, OnSome, OnOk, IfOk, not, drop, [], ◌∷◌};
ghost use Rattle.std.specs.Char.{is_ascii_digit, is_ascii_alphanumeric};
ghost use Rattle.std.specs.List.{list_all, slice_get};
ghost use Rattle.pdb_names.specs.Pieces.{Gives, qualified, until};
ghost use Rattle.pdb_names.specs.ItaniumNames.{again as repeated, all_parts, alone as name_alone, behind_qualifiers as rest_behind, behind_reference as behind_reference_of, counted as counted_name, front as front_of, is_constructor as constructor_test, is_destructor as destructor_test, is_end, is_ending as ending_test, is_qualifier as qualifier_test, is_word as word_test, itanium_name as name_behind_z, name_of as name_of_texts, named as name_of_size, nested as nested_name, number_of as number_there, part, part_at, plain as plain_name, shown as shown_name, source_name as source_there, whole as whole_name};
ghost use Rattle.pdb_names.specs.Views.{cut_of, parts_of, piece_of};

use crate::pieces::{Stop, joined};
use crate::rust_name::{is_hashed, rust_name};
use std::alloc::{AllocError, Global};

/// The number that a digit is.
fn digit(byte: u8) -> usize
    ensures value { result ≡ byte - 48 }
    ensures small { result < 256 }
{
    usize::from(byte.saturating_sub(b'0'))
}

/// The number of one to four decimal digits.
fn number_of(digits: &[u8]) -> Option<usize>
    ensures said { result ≡ number_there digits.now }
    ensures some { OnSome result (1 ≤ length digits.now) }
{
    match digits {
        [a] => Some(digit(*a)),
        [a, b] => Some(digit(*a) * 10 + digit(*b)),
        [a, b, c] => Some(digit(*a) * 100 + digit(*b) * 10 + digit(*c)),
        [a, b, c, d] => Some(digit(*a) * 1000 + digit(*b) * 100 + digit(*c) * 10 + digit(*d)),
        _ => None,
    }
}

/// Whether all bytes are letters, digits or `_`.
fn is_word(bytes: &[u8]) -> bool
    ensures { result ≡ word_test bytes.now }
{
    bytes
        .iter()
        .all(|byte| byte.is_ascii_alphanumeric() || *byte == b'_')
}

/// A name, or what is shown for an anonymous namespace.
fn shown(name: &[u8]) -> &[u8]
    ensures { result.now ≡ shown_name name.now }
{
    if name.starts_with(b"_GLOBAL__N") {
        b"(anonymous namespace)"
    } else {
        name
    }
}

/// A name that stands in the bytes, and what is behind it.
#[derive(Clone, Copy)]
pub(crate) struct Cut<'d> {
    pub name: &'d [u8],
    pub rest: &'d [u8],
}

/// The first bytes as a name.
#[tactic(auto, unfolding(crate::specs::ItaniumNames::named))]
fn named(size: usize, bytes: &[u8]) -> Option<Cut<'_>>
    ensures said { option_map cut_of result ≡ name_of_size (Some size) bytes.now }
    ensures shorter { IfSome result (λ c. length c.rest.now ≤ length bytes.now) }
{
    if size > bytes.len() {
        return None;
    }
    Some(Cut {
        name: shown(&bytes[..size]),
        rest: &bytes[size..],
    })
}

/// The index of the first byte that is no digit.
fn first_non_digit(bytes: &[u8]) -> Option<usize>
    ensures at { result ≡ position (λ x. not (is_ascii_digit x)) bytes.now }
    ensures bound { IfSome result (λ n. n < length bytes.now) }
{
    bytes.iter().position(|byte| !byte.is_ascii_digit())
}

/// A name behind so many digits.
#[tactic(auto, unfolding(crate::specs::ItaniumNames::counted, crate::specs::ItaniumNames::named))]
fn counted(digits: Option<usize>, bytes: &[u8]) -> Option<Cut<'_>>
    requires { IfSome digits (λ n. n < length bytes.now) }
    ensures said { option_map cut_of result ≡ counted_name digits bytes.now }
    ensures shorter { IfSome result (λ c. length c.rest.now < length bytes.now) }
{
    let end = digits?;
    if bytes.starts_with(b"0") {
        return None;
    }
    let size = number_of(&bytes[..end])?;
    named(size, &bytes[end..])
}

/// A name behind the number of its bytes.
#[tactic(auto, unfolding(crate::specs::ItaniumNames::source_name))]
fn source_name(bytes: &[u8]) -> Option<Cut<'_>>
    ensures said { option_map cut_of result ≡ source_there bytes.now }
    ensures shorter { IfSome result (λ c. length c.rest.now < length bytes.now) }
{
    counted(first_non_digit(bytes), bytes)
}

/// The text of a part, and what is behind it.
#[derive(Drop)]
pub(crate) struct Piece<'d> {
    pub text: Vec<u8>,
    pub rest: &'d [u8],
}

/// The part before once more, behind a prefix.
fn again<'d>(
    alloc: Global,
    prefix: &[u8],
    before: Option<&[u8]>,
    bytes: &'d [u8],
) -> Result<Piece<'d>, Stop>
    requires { 2 ≤ length bytes.now }
    ensures said { Gives piece_of result (repeated prefix.now (option_map (λ x. x.now) before.entry) bytes.now) }
    ensures shorter { IfOk result (λ p. length p.rest.now < length bytes.now) }
{
    let Some(before) = before else {
        return Err(Stop::NoAnswer);
    };
    let mut text = Vec::from_slice(alloc, prefix)?;
    text.extend_from_slice(before)?;
    Ok(Piece {
        text,
        rest: &bytes[2..],
    })
}

/// Whether the class's own name follows, of which a constructor is named.
fn is_constructor(bytes: &[u8]) -> bool
    ensures said { result ≡ constructor_test bytes.now }
    ensures long { IsTrue result → 2 ≤ length bytes.now }
{
    bytes.starts_with(b"C1") || bytes.starts_with(b"C2")
}

/// Whether a destructor follows.
fn is_destructor(bytes: &[u8]) -> bool
    ensures said { result ≡ destructor_test bytes.now }
    ensures long { IsTrue result → 2 ≤ length bytes.now }
{
    bytes.starts_with(b"D0") || bytes.starts_with(b"D1") || bytes.starts_with(b"D2")
}

/// A name behind the number of its bytes, as a part.
fn named_piece(alloc: Global, bytes: &[u8]) -> Result<Piece<'_>, Stop>
    ensures said { Gives piece_of result (source_there bytes.now) }
    ensures shorter { IfOk result (λ p. length p.rest.now < length bytes.now) }
{
    let Some(cut) = source_name(bytes) else {
        return Err(Stop::NoAnswer);
    };
    Ok(Piece {
        text: Vec::from_slice(alloc, cut.name)?,
        rest: cut.rest,
    })
}

/// A part, by the part before it.
#[tactic(auto, unfolding(crate::specs::ItaniumNames::part_at))]
fn part_at<'d>(alloc: Global, before: Option<&[u8]>, bytes: &'d [u8]) -> Result<Piece<'d>, Stop>
    ensures said { Gives piece_of result (part_at (option_map (λ x. x.now) before.entry) bytes.now) }
    ensures shorter { IfOk result (λ p. length p.rest.now < length bytes.now) }
{
    if is_constructor(bytes) {
        again(alloc, b"", before, bytes)
    } else if is_destructor(bytes) {
        again(alloc, b"~", before, bytes)
    } else {
        named_piece(alloc, bytes)
    }
}

/// The last of some texts.
#[tactic(auto, using(crate::proofs::Views::item_at))]
fn last_of(texts: &[Vec<u8>]) -> Option<&[u8]>
    ensures { option_map (λ x. x.now) result ≡ slice_get (map (λ v. v.items) texts.now) (length texts.now - 1) }
{
    if texts.is_empty() {
        None
    } else {
        Some(&texts[texts.len() - 1])
    }
}

/// The parts of a name so far, and what is left to read.
#[derive(Drop)]
pub(crate) struct Parts<'d> {
    pub texts: Vec<Vec<u8>>,
    pub rest: &'d [u8],
}

impl<'d> Parts<'d> {
    /// The scope `std` alone may stand at the front.
    #[tactic(auto, unfolding(crate::specs::ItaniumNames::front))]
    fn front(alloc: Global, bytes: &'d [u8]) -> Result<Parts<'d>, Stop>
        ensures { Gives parts_of result (Some (front_of bytes.now)) }
    {
        let mut texts = Vec::new(alloc);
        if bytes.starts_with(b"St") {
            texts.push(Vec::from_slice(alloc, b"std")?)?;
            let rest = &bytes[2..];
            return Ok(Parts { texts, rest });
        }
        Ok(Parts { texts, rest: bytes })
    }

    /// One part more.
    #[tactic(auto, unfolding(crate::specs::ItaniumNames::part))]
    fn part(&mut self, alloc: Global) -> Result<(), Stop>
        ensures said { Gives (λ _. parts_of self.new) result (part (parts_of self.old)) }
        ensures shorter { OnOk result (length self.new.rest.now < length self.old.rest.now) }
    {
        let Piece { text, rest } = part_at(alloc, last_of(&self.texts), self.rest)?;
        self.texts.push(text)?;
        self.rest = rest;
        Ok(())
    }

    /// All parts up to their end.
    #[tactic(auto, unfolding(crate::specs::ItaniumNames::all_parts), using(crate::proofs::Runs::run_start, crate::proofs::Runs::run_step, crate::proofs::Runs::run_end, crate::proofs::Runs::run_stop))]
    fn all_parts(&mut self, alloc: Global) -> Result<(), Stop>
        ensures said { Gives (λ _. parts_of self.new) result (all_parts (parts_of self.old)) }
        ensures ended { OnOk result (1 ≤ length self.new.rest.now) }
    {
        while !self.rest.starts_with(b"E") {
            self.part(alloc)?;
        }
        Ok(())
    }

    /// The name of at least one part.
    fn name(&self, alloc: Global) -> Result<Vec<u8>, Stop>
        ensures { Gives (λ t. t.items) result (name_of_texts (map (λ v. v.items) self.now.texts.items)) }
    {
        if self.texts.is_empty() {
            return Err(Stop::NoAnswer);
        }
        Ok(joined(alloc, b"::", &self.texts)?)
    }

    /// The name of parts with their end.
    #[tactic(auto, unfolding(crate::specs::ItaniumNames::whole))]
    fn whole(&self, alloc: Global) -> Result<Vec<u8>, Stop>
        requires { 1 ≤ length self.now.rest.now }
        ensures { Gives (λ t. t.items) result (whole_name (parts_of self.now)) }
    {
        if !is_word(&self.rest[1..]) {
            return Err(Stop::NoAnswer);
        }
        if self.rest.len() == 1 && is_hashed(&self.texts) {
            return rust_name(alloc, &self.texts);
        }
        self.name(alloc)
    }
}

/// What is behind the mark of lvalues or rvalues.
fn behind_reference(bytes: &[u8]) -> &[u8]
    ensures { result.now ≡ behind_reference_of bytes.now }
{
    if bytes.starts_with(b"R") || bytes.starts_with(b"O") {
        &bytes[1..]
    } else {
        bytes
    }
}

/// The index of the first byte that is no qualifier.
fn first_non_qualifier(bytes: &[u8]) -> Option<usize>
    ensures at { result ≡ position (λ x. not (qualifier_test x)) bytes.now }
    ensures bound { IfSome result (λ n. n < length bytes.now) }
{
    bytes
        .iter()
        .position(|byte| !(*byte == b'r' || *byte == b'V' || *byte == b'K'))
}

/// What is behind the qualifiers of a function's object.
fn behind_qualifiers(bytes: &[u8]) -> &[u8]
    ensures { result.now ≡ rest_behind (position (λ x. not (qualifier_test x)) bytes.now) bytes.now }
{
    match first_non_qualifier(bytes) {
        Some(end) => behind_reference(&bytes[end..]),
        None => b"",
    }
}

/// The name behind `N`.
#[tactic(auto, unfolding(crate::specs::ItaniumNames::nested))]
fn nested(alloc: Global, bytes: &[u8]) -> Result<Vec<u8>, Stop>
    ensures { Gives (λ t. t.items) result (nested_name bytes.now) }
{
    let mut parts = Parts::front(alloc, behind_qualifiers(bytes))?;
    parts.all_parts(alloc)?;
    parts.whole(alloc)
}

/// Whether these bytes may stand behind a name.
fn is_ending(bytes: &[u8]) -> bool
    ensures { result ≡ ending_test bytes.now }
{
    is_word(bytes) && !(bytes.starts_with(b"I") || bytes.starts_with(b"B"))
}

/// The name of a part that is alone, or in `std`.
#[tactic(auto, unfolding(crate::specs::ItaniumNames::plain))]
fn plain(alloc: Global, mut parts: Parts<'_>) -> Result<Vec<u8>, Stop>
    ensures { Gives (λ t. t.items) result (plain_name (parts_of parts.entry)) }
{
    let Piece { text, rest } = named_piece(alloc, parts.rest)?;
    if !is_ending(rest) {
        return Err(Stop::NoAnswer);
    }
    parts.texts.push(text)?;
    Ok(joined(alloc, b"::", &parts.texts)?)
}

/// The name that bytes spell behind `_Z`.
#[tactic(auto, unfolding(crate::specs::ItaniumNames::itanium_name))]
pub(crate) fn itanium_name(alloc: Global, bytes: &[u8]) -> Result<Vec<u8>, Stop>
    ensures { Gives (λ t. t.items) result (name_behind_z bytes.now) }
{
    if bytes.starts_with(b"N") {
        return nested(alloc, &bytes[1..]);
    }
    plain(alloc, Parts::front(alloc, bytes)?)
}

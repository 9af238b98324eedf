//! Names of Rust in the form of the Itanium ABI: their last part is a hash, and what C++ can't write is escaped.

ghost use Rattle.std.specs.Prelude.{◌≡◌, ◌-◌, ◌+◌, ◌*◌, ◌<◌, ◌≤◌, ◌++◌, ◌∷◌, [], ◌==◌, ◌||◌, ◌&&◌, length, map, nat_eq, nat_le, option_map, position, IfSome, OnOk, IfOk, slice_index, take, drop};
ghost use Rattle.std.specs.Char.{is_ascii_digit};
ghost use Rattle.std.specs.List.{list_all};
ghost use Rattle.pdb_names.specs.Pieces.{Gives, each, qualified, until};
ghost use Rattle.pdb_names.specs.RustNames.{all_but_last, byte_of, decoded, dollars, escaped as escaped_byte, hex_value as value_of_hex, is_hash as hash_test, is_hashed as hashed_test, is_hex as hex_test, is_read, letter, letters, rust_name as name_of_rust, rust_part, shown_byte as byte_shown, unguarded as without_guard};
ghost use Rattle.pdb_names.specs.Views.{decoded_of};

use crate::pieces::{Stop, joined};
use std::alloc::Global;

/// Whether a byte is a hex digit as hashes have them.
fn is_hex(byte: u8) -> bool
    ensures { result ≡ hex_test byte }
{
    byte.is_ascii_digit() || (b'a' <= byte && byte <= b'f')
}

/// Whether all bytes are hex digits.
fn is_all_hex(bytes: &[u8]) -> bool
    ensures { result ≡ list_all hex_test bytes.now }
{
    bytes.iter().all(|byte| is_hex(*byte))
}

/// Whether a part is a hash.
fn is_hash(text: &[u8]) -> bool
    ensures { result ≡ hash_test text.now }
{
    text.len() == 17 && text.starts_with(b"h") && is_all_hex(&text[1..])
}

/// Whether there are several parts, of which the last is a hash.
#[tactic(auto, using(crate::proofs::Views::item_at))]
pub(crate) fn is_hashed(texts: &[Vec<u8>]) -> bool
    ensures { result ≡ hashed_test (map (λ v. v.items) texts.now) }
{
    texts.len() > 1 && is_hash(&texts[texts.len() - 1])
}

/// The number that a hex digit is.
fn hex_value(byte: u8) -> u8
    ensures { result ≡ value_of_hex byte }
{
    if b'a' <= byte {
        byte - 87
    } else {
        byte.saturating_sub(b'0')
    }
}

/// A byte from a blank to `~`.
fn shown_byte(byte: u16) -> Option<u8>
    ensures { result ≡ byte_shown byte }
{
    if 0x20 <= byte && byte <= 0x7e {
        Some(byte as u8)
    } else {
        None
    }
}

/// The byte that `u` and two hex digits are for.
fn numbered(word: &[u8]) -> Option<u8>
    ensures { result ≡ byte_of word.now }
{
    if word.len() == 3 && word.starts_with(b"u") && is_all_hex(&word[1..]) {
        shown_byte(u16::from(hex_value(word[1])) * 16 + u16::from(hex_value(word[2])))
    } else {
        None
    }
}

/// The byte that stands between dollar signs by a word.
#[tactic(auto, unfolding(crate::specs::RustNames::escaped))]
fn escaped(word: &[u8]) -> Option<u8>
    ensures { result ≡ escaped_byte word.now }
{
    if word == b"SP".as_slice() {
        Some(b'@')
    } else if word == b"BP".as_slice() {
        Some(b'*')
    } else if word == b"RF".as_slice() {
        Some(b'&')
    } else if word == b"LT".as_slice() {
        Some(b'<')
    } else if word == b"GT".as_slice() {
        Some(b'>')
    } else if word == b"LP".as_slice() {
        Some(b'(')
    } else if word == b"RP".as_slice() {
        Some(b')')
    } else if word == b"C".as_slice() {
        Some(b',')
    } else {
        numbered(word)
    }
}

/// The index of the first dollar sign.
fn first_dollar(bytes: &[u8]) -> Option<usize>
    ensures at { result ≡ position (λ x. x == 36) bytes.now }
    ensures bound { IfSome result (λ n. n < length bytes.now) }
{
    bytes.iter().position(|byte| *byte == b'$')
}

/// A part without the `_` that stands before an escape.
fn unguarded(text: &[u8]) -> &[u8]
    ensures { result.now ≡ without_guard text.now }
{
    if text.starts_with(b"_$") {
        &text[1..]
    } else {
        text
    }
}

/// What is read of a part, and what is left of it.
#[derive(Drop)]
pub(crate) struct Decoded<'d> {
    pub text: Vec<u8>,
    pub rest: &'d [u8],
}

impl Decoded<'_> {
    /// A dollar sign, a word and a dollar sign.
    #[tactic(auto, unfolding(crate::specs::RustNames::dollars))]
    fn dollars(&mut self) -> Result<(), Stop>
        requires { 1 ≤ length self.old.rest.now }
        ensures said { Gives (λ _. decoded_of self.new) result (dollars (position (λ x. x == 36) (drop 1 self.old.rest.now)) (decoded_of self.old)) }
        ensures shorter { OnOk result (length self.new.rest.now < length self.old.rest.now) }
    {
        let Some(end) = first_dollar(&self.rest[1..]) else {
            return Err(Stop::NoAnswer);
        };
        let Some(byte) = escaped(&self.rest[1..end + 1]) else {
            return Err(Stop::NoAnswer);
        };
        self.text.push(byte)?;
        self.rest = &self.rest[end + 2..];
        Ok(())
    }

    /// One letter more.
    #[tactic(auto, unfolding(crate::specs::RustNames::letter))]
    fn letter(&mut self) -> Result<(), Stop>
        requires { 1 ≤ length self.old.rest.now }
        ensures said { Gives (λ _. decoded_of self.new) result (letter (decoded_of self.old)) }
        ensures shorter { OnOk result (length self.new.rest.now < length self.old.rest.now) }
    {
        if self.rest.starts_with(b"..") {
            self.text.extend_from_slice(b"::")?;
            self.rest = &self.rest[2..];
            return Ok(());
        }
        if self.rest.starts_with(b"$") {
            return self.dollars();
        }
        self.text.extend_from_slice(&self.rest[..1])?;
        self.rest = &self.rest[1..];
        Ok(())
    }

    /// All letters.
    #[tactic(auto, unfolding(crate::specs::RustNames::letters), using(crate::proofs::Runs::run_start, crate::proofs::Runs::run_step, crate::proofs::Runs::run_end, crate::proofs::Runs::run_stop))]
    fn letters(&mut self) -> Result<(), Stop>
        ensures { Gives (λ _. decoded_of self.new) result (letters (decoded_of self.old)) }
    {
        while !self.rest.is_empty() {
            self.letter()?;
        }
        Ok(())
    }
}

/// The text of a part.
#[tactic(auto, unfolding(crate::specs::RustNames::rust_part))]
fn part_text(alloc: Global, part: &[u8]) -> Result<Vec<u8>, Stop>
    ensures { Gives (λ t. t.items) result (rust_part part.now) }
{
    let mut it = Decoded {
        text: Vec::new(alloc),
        rest: unguarded(part),
    };
    it.letters()?;
    let Decoded { text, rest: _ } = it;
    Ok(text)
}

/// The texts of parts.
#[tactic(auto, unfolding(crate::specs::Pieces::each), using(crate::proofs::Eaches::each_step, crate::proofs::Eaches::each_stop))]
fn part_texts(alloc: Global, parts: &[Vec<u8>]) -> Result<Vec<Vec<u8>>, Stop>
    ensures { Gives (λ ts. map (λ v. v.items) ts.items) result (each rust_part (map (λ v. v.items) parts.now)) }
{
    let mut texts = Vec::new(alloc);
    for part in parts {
        texts.push(part_text(alloc, part)?)?;
    }
    Ok(texts)
}

/// All parts but the last.
#[tactic(auto, using(crate::proofs::Views::front_of))]
fn front_of(parts: &[Vec<u8>]) -> &[Vec<u8>]
    requires { 1 ≤ length parts.now }
    ensures { map (λ v. v.items) result.now ≡ all_but_last (map (λ v. v.items) parts.now) }
{
    &parts[..parts.len() - 1]
}

/// The name that parts spell, the last of which is a hash.
#[tactic(auto, unfolding(crate::specs::RustNames::rust_name))]
pub(crate) fn rust_name(alloc: Global, parts: &[Vec<u8>]) -> Result<Vec<u8>, Stop>
    requires { 1 ≤ length parts.now }
    ensures { Gives (λ t. t.items) result (name_of_rust (map (λ v. v.items) parts.now)) }
{
    let texts = part_texts(alloc, front_of(parts))?;
    Ok(joined(alloc, b"::", &texts)?)
}

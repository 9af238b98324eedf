//! Templates and classes among the components of names of Microsoft's C++.

ghost use Rattle.std.specs.Prelude.{◌≡◌, ◌<◌, ◌≤◌, ◌++◌, [], codes, length, map, reverse, not, IfOk, Some, IsTrue};
ghost use Rattle.pdb_names.specs.KeptNames.{left, with_pair};
ghost use Rattle.pdb_names.specs.Pieces.{Gives, bounded as bounded_text, joined as joined_texts, qualified};
ghost use Rattle.pdb_names.specs.Reads.{Passed, Within};
ghost use Rattle.pdb_names.specs.Templates.{arguments as arguments_of, bracketed as bracketed_text, class_name, closed, is_pack as pack_test, is_template_name as template_name_test, template as template_at, typ as type_at};
ghost use Rattle.pdb_names.specs.Views.{left_of, text_of};

use crate::c_name::is_name;
use crate::pieces::{Stop, joined};
use crate::reader::{Reader, Text, Word, begins_with_digit, first_word};
use crate::reads::Reads;
use crate::type_heads::Set;
use std::alloc::{AllocError, Global};

/// How many bytes a part of a name has at most.
const MOST: usize = 4096;

/// A type: its text, and which of const and volatile isn't yet in it.
#[derive(Drop)]
pub(crate) struct Typed {
    pub text: Vec<u8>,
    pub set: Set,
}

/// A text, if it has at most 4,096 bytes.
fn bounded(text: Vec<u8>) -> Result<Vec<u8>, Stop>
    ensures { Gives (λ t. t.items) result (bounded_text text.items) }
{
    if text.len() > MOST {
        return Err(Stop::NoAnswer);
    }
    Ok(text)
}

/// Closes arguments; angle brackets don't touch.
fn close(text: &mut Vec<u8>) -> Result<(), Stop>
    ensures { Gives (λ _. text.new.items) result (Some (closed text.old.items)) }
{
    if text.ends_with(b">") {
        text.extend_from_slice(b" ")?;
    }
    text.extend_from_slice(b">")?;
    Ok(())
}

/// The texts of arguments between angle brackets.
fn bracketed(alloc: Global, texts: &[Vec<u8>]) -> Result<Vec<u8>, Stop>
    ensures { Gives (λ t. t.items) result (bounded_text (bracketed_text (joined_texts (codes ",") (map (λ v. v.items) texts.now)))) }
{
    let mut inner = joined(alloc, b",", texts)?;
    close(&mut inner)?;
    let mut text = Vec::from_slice(alloc, b"<")?;
    text.extend_from_slice(&inner)?;
    bounded(text)
}

/// Whether the end of a pack follows, which has no text.
pub(crate) fn is_pack(bytes: &[u8]) -> bool
    ensures said { result ≡ pack_test bytes.now }
    ensures long { IsTrue result → 3 ≤ length bytes.now }
{
    bytes.starts_with(b"$$V") || bytes.starts_with(b"$$Z")
}

/// Whether these bytes may name a template.
fn is_template_name(bytes: &[u8]) -> bool
    ensures { result ≡ template_name_test bytes.now }
{
    is_name(bytes) && !begins_with_digit(bytes)
}

/// The arguments of a template up to an `@`.
#[cycle(templates)]
#[tactic(auto, unfolding(crate::specs::Templates::arguments))]
pub(crate) fn arguments<'d>(
    alloc: Global,
    mut reader: Reader<'d>,
    levels: u32,
    reads: &mut Reads,
) -> Result<Text<'d>, Stop>
    ensures said { Gives text_of result (arguments_of (type_at levels) (left_of reader.entry)) }
    ensures shorter { IfOk result (λ t. length t.rest.now < length reader.entry.rest.now) }
    ensures counted { IfOk result (λ t. Passed reads.old.count reads.new.count reader.entry.rest.now t.rest.now) }
    ensures once { Within reads.old.count reads.new.count reader.entry.rest.now }
{
    let mut texts = Vec::new(alloc);
    reader.all_arguments(alloc, levels, &mut texts, reads)?;
    let text = bracketed(alloc, &texts)?;
    Ok(Text {
        text,
        rest: reads.past(reader.rest, 1),
    })
}

/// A template: its arguments have a table of their own.
#[cycle(templates)]
#[tactic(auto, unfolding(crate::specs::Templates::template, crate::specs::Templates::template_by))]
pub(crate) fn template<'d>(
    alloc: Global,
    bytes: &'d [u8],
    levels: u32,
    reads: &mut Reads,
) -> Result<Text<'d>, Stop>
    ensures said { Gives text_of result (template_at (type_at levels) bytes.now) }
    ensures shorter { IfOk result (λ t. length t.rest.now < length bytes.now) }
    ensures counted { IfOk result (λ t. Passed reads.old.count reads.new.count bytes.now t.rest.now) }
    ensures once { Within reads.old.count reads.new.count bytes.now }
{
    let Some(name) = first_word(bytes, reads) else {
        return Err(Stop::NoAnswer);
    };
    if !is_template_name(name.bytes) {
        return Err(Stop::NoAnswer);
    }
    let inner = named_reader(alloc, name)?;
    let Text { text, rest } = arguments(alloc, inner, levels, reads)?;
    let mut whole = Vec::from_slice(alloc, name.bytes)?;
    whole.extend_from_slice(&text)?;
    Ok(Text { text: whole, rest })
}

/// What reads the arguments behind a name, which is kept.
fn named_reader<'d>(alloc: Global, name: Word<'d>) -> Result<Reader<'d>, Stop>
    ensures { Gives left_of result (Some (left name.entry.rest.now (with_pair name.entry.bytes.now name.entry.bytes.now []))) }
{
    let mut reader = Reader {
        rest: name.rest,
        kept: Vec::new(alloc),
    };
    reader.keep(alloc, name.bytes, name.bytes)?;
    Ok(reader)
}

/// Texts from the last to the first in one.
#[tactic(auto, using(crate::proofs::Reversing::reversed_of))]
fn outermost_first(alloc: Global, mut texts: Vec<Vec<u8>>) -> Result<Vec<u8>, AllocError>
    ensures { IfOk result (λ t. t.items ≡ qualified (reverse (map (λ v. v.items) texts.items))) }
{
    texts.reverse();
    joined(alloc, b"::", &texts)
}

/// The name of a class from its components.
pub(crate) fn class_of(alloc: Global, prefix: &[u8], texts: Vec<Vec<u8>>) -> Result<Vec<u8>, Stop>
    ensures { Gives (λ t. t.items) result (class_name prefix.now (map (λ v. v.items) texts.items)) }
{
    if texts.is_empty() {
        return Err(Stop::NoAnswer);
    }
    let name = bounded(outermost_first(alloc, texts)?)?;
    let mut text = Vec::from_slice(alloc, prefix)?;
    text.extend_from_slice(&name)?;
    Ok(text)
}

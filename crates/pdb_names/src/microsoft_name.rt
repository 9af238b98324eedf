//! Names as Microsoft's C++ decorates them: `?clamp@tour@@YAHHHH@Z` is `tour::clamp`.

ghost use Rattle.std.specs.Prelude.{◌≡◌, ◌≤◌, ◌||◌, ◌&&◌, [], ◌∷◌, ◌++◌, length, map, nat_le, option_and_then, option_map, IfOk, Some};
ghost use Rattle.std.specs.Char.{is_ascii_digit};
ghost use Rattle.std.specs.List.{slice_get};
ghost use Rattle.pdb_names.specs.Pieces.{Gives, qualified};
ghost use Rattle.pdb_names.specs.KeptNames.{plain, word as word_there};
ghost use Rattle.pdb_names.specs.MicrosoftNames.{first_at as first_there, first_text as text_of_first, is_kind as kind_test, microsoft_name as name_behind, plain_first as first_of_plain, scoped as scoped_name, special_at as special_first_there, special_first as first_of_special, special_template as template_of_special, template_first as first_of_template};
ghost use Rattle.pdb_names.specs.Reads.{Passed, Within};
ghost use Rattle.pdb_names.specs.Templates.{template as template_at, typ};
ghost use Rattle.pdb_names.specs.SpecialNames.{special_name as special_there};
ghost use Rattle.pdb_names.specs.Views.{first_of, special_of, word_of};

use crate::pieces::{Stop, joined};
use crate::reader::{Reader, Text, begins_with_digit, first_word};
use crate::reads::Reads;
use crate::special_name::{Special, special_name};
use crate::templates::{arguments, template};
use std::alloc::Global;

/// How deep types stand in one another at most.
const LEVELS: u32 = 16;

/// The first component: its text, whether that of its class stands behind it, and what stands behind both.
#[derive(Drop)]
pub(crate) struct First<'d> {
    pub before: Vec<u8>,
    pub of_class: bool,
    pub behind: Vec<u8>,
    pub reader: Reader<'d>,
}

/// A plain name as the first component.
fn plain_first<'d>(alloc: Global, bytes: &'d [u8], reads: &mut Reads) -> Result<First<'d>, Stop>
    ensures said { Gives first_of result (option_and_then (λ w. option_map first_of_plain (plain [] w)) (word_there bytes.now)) }
    ensures counted { IfOk result (λ f. Passed reads.old.count reads.new.count bytes.now f.reader.rest.now) }
    ensures once { Within reads.old.count reads.new.count bytes.now }
{
    let Some(name) = first_word(bytes, reads) else {
        return Err(Stop::NoAnswer);
    };
    let mut reader = Reader {
        rest: bytes,
        kept: Vec::new(alloc),
    };
    let before = reader.plain(alloc, name)?;
    Ok(First {
        before,
        of_class: false,
        behind: Vec::new(alloc),
        reader,
    })
}

/// A special name as the first component.
fn special_first(alloc: Global, name: Special<'_>) -> Result<First<'_>, Stop>
    ensures said { Gives first_of result (Some (first_of_special (special_of name.entry))) }
    ensures behind { IfOk result (λ f. f.reader.rest.now ≡ name.entry.rest.now) }
{
    Ok(First {
        before: Vec::from_slice(alloc, name.text)?,
        of_class: name.of_class,
        behind: Vec::new(alloc),
        reader: Reader {
            rest: name.rest,
            kept: Vec::new(alloc),
        },
    })
}

/// A special name with arguments as the first component.
#[tactic(auto, unfolding(crate::specs::MicrosoftNames::special_template))]
fn special_template<'d>(
    alloc: Global,
    name: Special<'d>,
    reads: &mut Reads,
) -> Result<First<'d>, Stop>
    ensures said { Gives first_of result (template_of_special (typ 16) (special_of name.entry)) }
    ensures counted { IfOk result (λ f. Passed reads.old.count reads.new.count name.entry.rest.now f.reader.rest.now) }
    ensures once { Within reads.old.count reads.new.count name.entry.rest.now }
{
    let reader = Reader {
        rest: name.rest,
        kept: Vec::new(alloc),
    };
    let Text { text, rest } = arguments(alloc, reader, LEVELS, reads)?;
    Ok(First {
        before: Vec::from_slice(alloc, name.text)?,
        of_class: name.of_class,
        behind: text,
        reader: Reader {
            rest,
            kept: Vec::new(alloc),
        },
    })
}

/// A template as the first component, which isn't kept.
fn template_first<'d>(alloc: Global, bytes: &'d [u8], reads: &mut Reads) -> Result<First<'d>, Stop>
    ensures said { Gives first_of result (option_map first_of_template (template_at (typ 16) bytes.now)) }
    ensures counted { IfOk result (λ f. Passed reads.old.count reads.new.count bytes.now f.reader.rest.now) }
    ensures once { Within reads.old.count reads.new.count bytes.now }
{
    let Text { text, rest } = template(alloc, bytes, LEVELS, reads)?;
    Ok(First {
        before: text,
        of_class: false,
        behind: Vec::new(alloc),
        reader: Reader {
            rest,
            kept: Vec::new(alloc),
        },
    })
}

/// The first component that begins with a question mark.
fn special_at<'d>(alloc: Global, bytes: &'d [u8], reads: &mut Reads) -> Result<First<'d>, Stop>
    requires { 1 ≤ length bytes.now }
    ensures said { Gives first_of result (special_first_there (typ 16) bytes.now) }
    ensures counted { IfOk result (λ f. Passed reads.old.count reads.new.count bytes.now f.reader.rest.now) }
    ensures once { Within reads.old.count reads.new.count bytes.now }
{
    if bytes.starts_with(b"?$?") {
        let Some(name) = special_name(&bytes[3..]) else {
            return Err(Stop::NoAnswer);
        };
        reads.pass(bytes, name.rest);
        return special_template(alloc, name, reads);
    }
    if bytes.starts_with(b"?$") {
        return template_first(alloc, reads.past(bytes, 2), reads);
    }
    let Some(name) = special_name(&bytes[1..]) else {
        return Err(Stop::NoAnswer);
    };
    reads.pass(bytes, name.rest);
    special_first(alloc, name)
}

/// The first component, which stands behind a question mark.
#[tactic(auto, unfolding(crate::specs::MicrosoftNames::first_at))]
fn first_at<'d>(alloc: Global, bytes: &'d [u8], reads: &mut Reads) -> Result<First<'d>, Stop>
    ensures said { Gives first_of result (first_there (typ 16) bytes.now) }
    ensures counted { IfOk result (λ f. Passed reads.old.count reads.new.count bytes.now f.reader.rest.now) }
    ensures once { Within reads.old.count reads.new.count bytes.now }
{
    if bytes.starts_with(b"?") {
        return special_at(alloc, bytes, reads);
    }
    if begins_with_digit(bytes) {
        return Err(Stop::NoAnswer);
    }
    plain_first(alloc, bytes, reads)
}

/// Whether what kind of thing the name is of follows: data, tables and functions, but no thunks.
fn is_kind(bytes: &[u8]) -> bool
    ensures { result ≡ kind_test bytes.now }
{
    match bytes {
        [
            b'0'..=b'9' | b'A'..=b'F' | b'I'..=b'N' | b'Q'..=b'V' | b'Y'..=b'Z',
            ..
        ] => true,
        _ => false,
    }
}

/// The first of some texts.
fn class_text(texts: &[Vec<u8>]) -> Option<&[u8]>
    ensures { option_map (λ x. x.now) result ≡ slice_get (map (λ v. v.items) texts.now) 0 }
{
    match texts {
        [text, ..] => Some(text),
        [] => None,
    }
}

/// The text of the first component, by those of the others.
fn first_text(
    mut before: Vec<u8>,
    of_class: bool,
    behind: &[u8],
    texts: &[Vec<u8>],
) -> Result<Vec<u8>, Stop>
    ensures { Gives (λ t. t.items) result (text_of_first before.items of_class behind.now (map (λ v. v.items) texts.now)) }
{
    if of_class {
        let Some(class) = class_text(texts) else {
            return Err(Stop::NoAnswer);
        };
        before.extend_from_slice(class)?;
    }
    before.extend_from_slice(behind)?;
    Ok(before)
}

/// Texts from the last to the first, and one behind them.
#[tactic(auto, using(crate::proofs::Reversing::reversed_and))]
fn scoped(alloc: Global, mut texts: Vec<Vec<u8>>, text: Vec<u8>) -> Result<Vec<u8>, Stop>
    ensures { Gives (λ t. t.items) result (Some (scoped_name (map (λ v. v.items) texts.items) text.items)) }
{
    texts.reverse();
    texts.push(text)?;
    Ok(joined(alloc, b"::", &texts)?)
}

/// The name that bytes spell behind `?`.
#[tactic(auto, unfolding(crate::specs::MicrosoftNames::microsoft_name))]
pub(crate) fn microsoft_name(
    alloc: Global,
    bytes: &[u8],
    reads: &mut Reads,
) -> Result<Vec<u8>, Stop>
    ensures said { Gives (λ t. t.items) result (name_behind bytes.now) }
    ensures once { Within reads.old.count reads.new.count bytes.now }
{
    let First {
        before,
        of_class,
        behind,
        mut reader,
    } = first_at(alloc, bytes, reads)?;
    let texts = reader.components(alloc, LEVELS, reads)?;
    if !is_kind(reader.rest) {
        return Err(Stop::NoAnswer);
    }
    let text = first_text(before, of_class, &behind, &texts)?;
    scoped(alloc, texts, text)
}

//! Which lines of which source files a word asks for.

ghost use Rattle.std.specs.Prelude.{◌≡◌, ◌≤◌, ◌<◌, length, map, position, option_copied, option_map, IfSome};
ghost use Rattle.std.specs.Result.{result_map_both};
ghost use Rattle.std.specs.Str.{bytes_eq};
ghost use Rattle.std.specs.List.{list_any};
ghost use Rattle.pdb_text.specs.Numbers.{long_number_in};
ghost use Rattle.tool_arguments.specs.SourcesAsked.{asks_for, before_number, begins_part, folded as fold_of, folds, has_line, is_dash, is_in_order, is_named, judged, last_colon, lines_at, source_in, source_of, stretch_in, without_column};
ghost use Rattle.tool_arguments.specs.SourceViews.{source_view, split_view, stretch_view};

use crate::mistakes::Wrong;
use bstr::ByteSlice;
use pdb_text::long_number_in;

/// Lines of a file, from the first to the last one.
#[derive(Clone, Copy, Debug, PartialEq, Eq)]
pub struct Stretch {
    first: u64,
    last: u64,
}

/// A source file, and the lines of it that are asked for; all where none are named.
#[derive(Clone, Copy, Debug)]
pub struct SourceAsked<'w> {
    source: &'w [u8],
    lines: Option<Stretch>,
}

/// The number that bytes are: one to ten digits.
fn number_of(word: &[u8]) -> Option<u64>
    ensures { result ≡ long_number_in word.now }
{
    match std::str::from_utf8(word) {
        Ok(word) => long_number_in(word),
        Err(_) => None,
    }
}

/// Where the first dash of a word stands.
fn first_dash(word: &[u8]) -> Option<usize>
    ensures { result ≡ position is_dash word.now }
{
    word.iter().position(|b| *b == b'-')
}

/// The lines that a word names: one, or two with a dash between them.
#[tactic(auto, unfolding(crate::specs::SourcesAsked::stretch_in))]
fn stretch_in(word: &[u8]) -> Option<Stretch>
    ensures { option_map stretch_view result ≡ stretch_in word.now }
{
    match first_dash(word) {
        Some(at) => {
            let first = number_of(&word[..at])?;
            let last = number_of(&word[at + 1..])?;
            Some(Stretch { first, last })
        }
        None => {
            let line = number_of(word)?;
            Some(Stretch {
                first: line,
                last: line,
            })
        }
    }
}

/// Where the last colon of a word stands.
fn last_colon(word: &[u8]) -> Option<usize>
    ensures place { result ≡ last_colon word.now }
    ensures inside { IfSome result (λ k. k < length word.now) }
{
    word.rfind_byte(b':')
}

/// Where a colon stands, and the lines that are named behind it.
fn lines_at(word: &[u8], colon: Option<usize>) -> Option<(usize, Stretch)>
    requires { IfSome colon (λ k. k < length word.now) }
    ensures { option_map split_view result ≡ lines_at word.now colon }
{
    let at = colon?;
    let lines = stretch_in(&word[at + 1..])?;
    Some((at, lines))
}

/// A source file, perhaps with `:` and a line, or two lines with a dash between them.
fn source_in(word: &[u8]) -> SourceAsked<'_>
    ensures { source_view result ≡ source_in word.now }
{
    match lines_at(word, last_colon(word)) {
        Some((at, lines)) => SourceAsked {
            source: &word[..at],
            lines: Some(lines),
        },
        None => SourceAsked {
            source: word,
            lines: None,
        },
    }
}

/// What stands before the last colon of a word, where a number stands behind it.
fn before_number(word: &[u8]) -> Option<&[u8]>
    ensures { option_copied result ≡ before_number word.now }
{
    let at = last_colon(word)?;
    number_of(&word[at + 1..])?;
    Some(&word[..at])
}

/// A word without the column that stands behind a line.
fn without_column(word: &[u8]) -> &[u8]
    ensures { result.now ≡ without_column word.now }
{
    match before_number(word) {
        Some(before) if before_number(before).is_some() => before,
        _ => word,
    }
}

/// Whether lines are named from the lower to the higher one.
fn is_in_order(lines: Option<Stretch>) -> bool
    ensures { result ≡ is_in_order (option_map stretch_view lines) }
{
    match lines {
        Some(lines) => lines.first <= lines.last,
        None => true,
    }
}

/// What is asked for, where a file is named, and of two lines the lower one first.
fn judged(asked: SourceAsked<'_>) -> Result<SourceAsked<'_>, Wrong>
    ensures { result_map_both source_view (λ wrong. wrong) result ≡ judged (source_view asked.entry) }
{
    if asked.source.is_empty() {
        Err(Wrong::BadSource)
    } else if is_in_order(asked.lines) {
        Ok(asked)
    } else {
        Err(Wrong::BadLines)
    }
}

/// What a word asks for: a source file, perhaps with `:` and a line, two lines with a dash between them, or a line and
/// a column, which is passed over. It fails where no file is named, or of two lines the higher one first.
#[tactic(auto, unfolding(crate::specs::SourcesAsked::source_of))]
pub fn source_of(word: &[u8]) -> Result<SourceAsked<'_>, Wrong>
    ensures { result_map_both source_view (λ wrong. wrong) result ≡ source_of word.now }
{
    judged(source_in(without_column(word)))
}

/// `\` as `/`, and the letters A to Z as a to z.
fn folded(byte: u8) -> u8
    ensures { result ≡ fold_of byte }
{
    match byte {
        b'\\' => b'/',
        b'A'..=b'Z' => byte + 32,
        _ => byte,
    }
}

/// Whether bytes are the same but for the spelling of letters and slashes.
#[tactic(auto, using(crate::proofs::SomeWord::alike_differ, crate::proofs::SomeWord::alike_next, crate::proofs::SomeWord::alike_all))]
fn are_alike(left: &[u8], right: &[u8]) -> bool
    ensures { result ≡ bytes_eq (folds left.now) (folds right.now) }
{
    if left.len() != right.len() {
        return false;
    }
    for (at, byte) in left.iter().enumerate() {
        if folded(*byte) != folded(right[at]) {
            return false;
        }
    }
    true
}

/// Whether nothing stands before an offset of a name, or what ends a folder's name.
fn begins_part(name: &[u8], at: usize) -> bool
    requires { at ≤ length name.now }
    ensures { result ≡ begins_part name.now at }
{
    at == 0 || folded(name[at - 1]) == b'/'
}

/// Whether a name is this one, or ends in `/` and this one.
#[tactic(auto, unfolding(crate::specs::SourcesAsked::is_named))]
fn is_named(source: &[u8], name: &[u8]) -> bool
    ensures { result ≡ is_named source.now name.now }
{
    let Some(at) = name.len().checked_sub(source.len()) else {
        return false;
    };
    begins_part(name, at) && are_alike(&name[at..], source)
}

/// Whether a line is among those that are asked for.
fn has_line(lines: Option<Stretch>, line: u32) -> bool
    ensures { result ≡ has_line (option_map stretch_view lines) line }
{
    match lines {
        Some(lines) => lines.first <= u64::from(line) && u64::from(line) <= lines.last,
        None => true,
    }
}

/// Whether one of the words asks for a line of a file.
#[tactic(auto, using(crate::proofs::SomeWord::any_here, crate::proofs::SomeWord::any_next, crate::proofs::SomeWord::any_none))]
pub fn asks_for(asked: &[SourceAsked<'_>], name: &[u8], line: u32) -> bool
    ensures { result ≡ asks_for (map source_view asked.now) name.now line }
{
    for it in asked {
        if has_line(it.lines, line) && is_named(it.source, name) {
            return true;
        }
    }
    false
}

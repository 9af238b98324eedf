//! Fixed texts in a line.

ghost use Rattle.std.specs.Prelude.{◌≡◌, ◌≤◌, length, IsTrue};
ghost use Rattle.pdb_stacks.specs.LineTexts.{begins_with_label, behind_either, behind_label, behind_text, find_behind, find_label, past_text, stands};

use crate::bytes::behind;

/// Whether a text stands at an offset.
#[tactic(auto, unfolding(crate::specs::LineTexts::stands))]
pub(crate) fn stands(line: &[u8], at: usize, text: &[u8]) -> bool
    ensures { result ≡ stands line.now at text.now }
{
    behind(line, at).starts_with(text)
}

/// The offset behind a text that stands at an offset.
#[tactic(auto, unfolding(crate::specs::LineTexts::behind_text, crate::specs::LineTexts::stands))]
pub(crate) fn behind_text(line: &[u8], at: usize, text: &[u8]) -> Option<usize>
    ensures { result ≡ behind_text line.now at text.now }
{
    if behind(line, at).starts_with(text) {
        Some(at + text.len())
    } else {
        None
    }
}

/// The same, where the text may be missing.
pub(crate) fn past_text(line: &[u8], at: usize, text: &[u8]) -> usize
    ensures { result ≡ past_text line.now at text.now }
{
    match behind_text(line, at, text) {
        Some(end) => end,
        None => at,
    }
}

/// The offset behind the first occurrence of a text.
#[tactic(auto, unfolding(crate::specs::LineTexts::find_behind))]
pub(crate) fn find_behind(line: &[u8], text: &[u8]) -> Option<usize>
    ensures { result ≡ find_behind line.now text.now }
{
    for at in 0..line.len() {
        if let Some(end) = behind_text(line, at, text) {
            return Some(end);
        }
    }
    None
}

/// Whether a text begins with a label, in any case.
fn begins_with_label(text: &[u8], label: &[u8]) -> bool
    ensures is { result ≡ begins_with_label text.now label.now }
    ensures room { IsTrue result → length label.now ≤ length text.now }
{
    label.len() <= text.len() && text[..label.len()].eq_ignore_ascii_case(label)
}

/// The offset behind a label that stands at an offset, in any case.
#[tactic(auto, unfolding(crate::specs::LineTexts::behind_label))]
fn behind_label(line: &[u8], at: usize, label: &[u8]) -> Option<usize>
    ensures { result ≡ behind_label line.now at label.now }
{
    if begins_with_label(behind(line, at), label) {
        Some(at + label.len())
    } else {
        None
    }
}

/// The same of two labels.
#[tactic(auto, unfolding(crate::specs::LineTexts::behind_either))]
fn behind_either(line: &[u8], at: usize, label: &[u8], other: &[u8]) -> Option<usize>
    ensures { result ≡ behind_either line.now at label.now other.now }
{
    match behind_label(line, at, label) {
        Some(end) => Some(end),
        None => behind_label(line, at, other),
    }
}

/// The offset behind the first occurrence of one of two labels, in any case.
#[tactic(auto, unfolding(crate::specs::LineTexts::find_label))]
pub(crate) fn find_label(line: &[u8], label: &[u8], other: &[u8]) -> Option<usize>
    ensures { result ≡ find_label line.now label.now other.now }
{
    for at in 0..line.len() {
        if let Some(end) = behind_either(line, at, label, other) {
            return Some(end);
        }
    }
    None
}

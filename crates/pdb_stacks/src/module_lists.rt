//! Lines that list a module of a process.

ghost use Rattle.std.specs.Prelude.{◌≡◌};
ghost use Rattle.pdb_stacks.specs.ModuleLists.{address_at, file_name, gap_end, in_columns, is_load_address, is_path, listed_module, listed_name, listed_range, name_before, named_start, path_name, plain_name, positive, range_behind, size_at, size_of_module, with_result, with_result_at};

use crate::addresses::listed_address;
use crate::bytes::{Kind, Span, behind, between, kind_at, run_end, run_start};
use crate::decimals::decimal_in;
use crate::hex_numbers::Hex;
use crate::texts::{behind_text, find_behind, stands};

/// A module that a line lists.
#[derive(Clone, Copy, Debug, PartialEq, Eq)]
pub struct ListedModule {
    /// Its load address, a multiple of 65,536.
    pub start: u64,
    /// Its size in bytes, from 1 to 2^32.
    pub size: u64,
    /// Its name.
    pub name: Span,
}

/// A range of addresses, and the offset behind its text.
#[derive(Clone, Copy)]
struct ListedRange {
    start: u64,
    size: u64,
    end: usize,
}

/// The start of a module, and its name.
#[derive(Clone, Copy)]
struct NamedStart {
    start: u64,
    name: Span,
}

/// The name of the file of a path: what stands behind its last separator.
pub(crate) fn file_name(line: &[u8], path: Span) -> Span
    ensures { result ≡ file_name line.now path.start path.end }
{
    Span {
        start: path.start.max(run_start(Kind::FileName, line, path.end)),
        end: path.end,
    }
}

/// Whether a number may be the load address of a module.
fn is_load_address(number: u64) -> bool
    ensures { result ≡ is_load_address number }
{
    number % 0x1_0000 == 0
}

/// The address at an offset.
#[tactic(auto, unfolding(crate::specs::ModuleLists::address_at))]
fn address_at(line: &[u8], at: usize) -> Option<Hex>
    ensures { result ≡ address_at line.now at }
{
    let end = run_end(Kind::Word, line, at);
    let number = listed_address(between(line, at, end))?;
    Some(Hex { number, end })
}

/// The offset behind what stands between two addresses: blanks, or a dash with blanks or none around it.
#[tactic(auto, unfolding(crate::specs::ModuleLists::gap_end))]
fn gap_end(line: &[u8], at: usize) -> Option<usize>
    ensures { result ≡ gap_end line.now at }
{
    let blanks = run_end(Kind::Blank, line, at);
    if let Some(dash) = behind_text(line, blanks, b"-") {
        return Some(run_end(Kind::Blank, line, dash));
    }
    if at < blanks { Some(blanks) } else { None }
}

/// A size, by the addresses of a module's start and of its end.
#[tactic(auto, unfolding(crate::specs::ModuleLists::size_of_module))]
fn size_of_module(start: u64, end: u64) -> Option<u64>
    ensures { result ≡ size_of_module start end }
{
    if is_load_address(start) && start < end && end - start <= 0x1_0000_0000 {
        Some(end - start)
    } else {
        None
    }
}

/// The range of a start and the end behind it.
fn range_behind(line: &[u8], start: Hex) -> Option<ListedRange>
    ensures { result ≡ range_behind line.now start }
{
    let end = address_at(line, gap_end(line, start.end)?)?;
    let size = size_of_module(start.number, end.number)?;
    Some(ListedRange {
        start: start.number,
        size,
        end: end.end,
    })
}

/// The range with which a line begins: blanks or none, its start, and its end.
#[tactic(auto, unfolding(crate::specs::ModuleLists::listed_range))]
fn listed_range(line: &[u8]) -> Option<ListedRange>
    ensures { result ≡ listed_range line.now }
{
    range_behind(line, address_at(line, run_end(Kind::Blank, line, 0))?)
}

/// Whether a path of Windows stands at an offset.
fn is_path(line: &[u8], at: usize) -> bool
    ensures { result ≡ is_path line.now at }
{
    stands(line, at, b"\\\\") || stands(behind(line, at), 1, b":\\")
}

/// The name of the file of the path that the rest of a line is, without blanks at its end.
fn path_name(line: &[u8], at: usize) -> Span
    ensures { result ≡ path_name line.now at }
{
    let end = run_start(Kind::LineEnd, line, line.len());
    file_name(line, Span { start: at, end })
}

/// The module's name that stands at an offset, with a blank or the line's end behind it.
#[tactic(auto, unfolding(crate::specs::ModuleLists::plain_name))]
fn plain_name(line: &[u8], at: usize) -> Option<Span>
    ensures { result ≡ plain_name line.now at }
{
    let end = run_end(Kind::Module, line, at);
    if at < end && (end >= line.len() || kind_at(Kind::LineEnd, line, end)) {
        Some(Span { start: at, end })
    } else {
        None
    }
}

/// The name behind blanks.
#[tactic(auto, unfolding(crate::specs::ModuleLists::listed_name))]
fn listed_name(line: &[u8], at: usize) -> Option<Span>
    ensures { result ≡ listed_name line.now at }
{
    let start = run_end(Kind::Blank, line, at);
    if start == at {
        return None;
    }
    if is_path(line, start) {
        Some(path_name(line, start))
    } else {
        plain_name(line, start)
    }
}

/// The module of a line that begins with its range, as debuggers and reports write it.
#[tactic(auto, unfolding(crate::specs::ModuleLists::in_columns))]
fn in_columns(line: &[u8]) -> Option<ListedModule>
    ensures { result ≡ in_columns line.now }
{
    let range = listed_range(line)?;
    let name = listed_name(line, range.end)?;
    Some(ListedModule {
        start: range.start,
        size: range.size,
        name,
    })
}

/// A number that isn't 0.
fn positive(number: u32) -> Option<u64>
    ensures { result ≡ positive number }
{
    if number == 0 {
        None
    } else {
        Some(u64::from(number))
    }
}

/// The size that 1 to 10 digits at an offset are, before ` (result: `.
#[tactic(auto, unfolding(crate::specs::ModuleLists::size_at))]
fn size_at(line: &[u8], at: usize) -> Option<u64>
    ensures { result ≡ size_at line.now at }
{
    let end = run_end(Kind::Digit, line, at);
    if !stands(line, end, b" (result: ") {
        return None;
    }
    positive(decimal_in(between(line, at, end))?)
}

/// The name that stands before ` (`, where these are the two bytes before an offset.
#[tactic(auto, unfolding(crate::specs::ModuleLists::name_before))]
fn name_before(line: &[u8], word: usize) -> Option<Span>
    ensures { result ≡ name_before line.now word }
{
    let end = word.saturating_sub(2);
    if !stands(line, end, b" (") {
        return None;
    }
    let start = run_start(Kind::Module, line, end);
    if start < end {
        Some(Span { start, end })
    } else {
        None
    }
}

/// The start of a module that is the word before an offset, and the name before it: `NAME (START`.
#[tactic(auto, unfolding(crate::specs::ModuleLists::named_start))]
fn named_start(line: &[u8], at: usize) -> Option<NamedStart>
    ensures { result ≡ named_start line.now at }
{
    let word = run_start(Kind::Word, line, at);
    let start = listed_address(between(line, word, at))?;
    if !is_load_address(start) {
        return None;
    }
    let name = name_before(line, word)?;
    Some(NamedStart { start, name })
}

/// The module of a start before an offset, and the size at it.
fn with_result_at(line: &[u8], at: usize) -> Option<ListedModule>
    ensures { result ≡ with_result_at line.now at }
{
    let named = named_start(line, at.saturating_sub(9))?;
    let size = size_at(line, at)?;
    Some(ListedModule {
        start: named.start,
        size,
        name: named.name,
    })
}

/// The module of a line `..NAME (START), size: SIZE (result: ..`.
#[tactic(auto, unfolding(crate::specs::ModuleLists::with_result))]
fn with_result(line: &[u8]) -> Option<ListedModule>
    ensures { result ≡ with_result line.now }
{
    with_result_at(line, find_behind(line, b"), size: ")?)
}

/// The module that a line lists.
#[tactic(auto, unfolding(crate::specs::ModuleLists::listed_module))]
pub(crate) fn listed_module(line: &[u8]) -> Option<ListedModule>
    ensures { result ≡ listed_module line.now }
{
    match in_columns(line) {
        Some(module) => Some(module),
        None => with_result(line),
    }
}

//! The search for the record that covers a place, among the entries of a subsection as they stand.

ghost use Rattle.std.specs.Prelude.{◌≡◌, ◌*◌, ◌≤◌, ◌<◌, [], ◌∷◌, List, map, take, length, option_map, false};
ghost use Rattle.pdb_modules.specs.declared.line_info.LineInfo.{LineInfo};
ghost use Rattle.pdb_modules.specs.Blocks.{entry_width, entry_of, entries_of};
ghost use Rattle.pdb_modules.specs.BlockViews.{block_of};
ghost use Rattle.pdb_modules.specs.LineCover.{line_covers};
ghost use Rattle.pdb_modules.specs.Lines.{distance, lesser, is_marker, mark_at, entry_mark, lines_of};
ghost use Rattle.pdb_modules.specs.KeptRows.{nearer, stepped, after, subsection_of};
ghost use Rattle.pdb_modules.specs.Rising.{AreRising};
ghost use Rattle.pdb_modules.specs.LineSearch.{first_covering, begun_line, begun_of, if_covers, is_open, ArePassed, IsSearched, IsTurned};

use crate::blocks::{Block, entry, read_block};
use crate::line::Line;
use crate::line_info::{LineInfo, bytes_cover};
use crate::line_subsection::LineSubsection;
use crate::rising::count_risen;
use crate::rows::{is_marker, line_info};
use pdb_base::{ParseBuffer, PdbInternalSectionOffset};

/// A record that was begun, and how far it reaches as far as marks came.
#[derive(Clone, Copy)]
pub struct Begun {
    pub(crate) place: PdbInternalSectionOffset,
    pub(crate) line: Line,
    pub(crate) length: Option<u32>,
}

/// What is known once a mark came.
#[derive(Clone, Copy)]
pub enum Search {
    /// The record that covers the place.
    Found(Begun),
    /// The last record that was begun.
    On(Option<Begun>),
}

/// How far it is forward from a place to another one, in the same section.
fn distance(from: PdbInternalSectionOffset, to: PdbInternalSectionOffset) -> Option<u32>
    ensures { result ≡ distance from to }
{
    if from.section == to.section && from.offset <= to.offset {
        Some(to.offset - from.offset)
    } else {
        None
    }
}

/// The lesser of two lengths that are there.
fn lesser(one: Option<u32>, other: Option<u32>) -> Option<u32>
    ensures { result ≡ lesser one other }
{
    match one {
        None => other,
        Some(length) => match other {
            None => one,
            Some(more) => Some(length.min(more)),
        },
    }
}

impl Begun {
    // A mark comes.
    #[inline]
    fn noted(self, mark: PdbInternalSectionOffset) -> Begun
        ensures { begun_line result ≡ nearer mark (begun_line self) }
    {
        Begun {
            place: self.place,
            line: self.line,
            length: lesser(self.length, distance(self.place, mark)),
        }
    }

    // Whether it covers a place.
    #[inline]
    fn covers(self, place: PdbInternalSectionOffset) -> bool
        ensures { result ≡ line_covers place (begun_line self) }
    {
        match self.length {
            Some(length) => bytes_cover(place, self.place, length),
            None => false,
        }
    }

    // The record.
    fn info(self) -> LineInfo
        ensures { result ≡ begun_line self }
    {
        line_info(self.place, self.line, self.length)
    }
}

/// A mark comes behind the last record.
#[inline]
fn noted(last: Option<Begun>, mark: PdbInternalSectionOffset) -> Option<Begun>
    ensures { option_map begun_line result ≡ option_map (nearer mark) (option_map begun_line last) }
{
    match last {
        Some(begun) => Some(begun.noted(mark)),
        None => None,
    }
}

/// The last record, if it covers a place.
fn if_covers(last: Option<Begun>, place: PdbInternalSectionOffset) -> Option<LineInfo>
    ensures { result ≡ if_covers place (option_map begun_line last) }
{
    match last {
        Some(begun) => {
            if begun.covers(place) {
                Some(begun.info())
            } else {
                None
            }
        }
        None => None,
    }
}

/// A record begins at `mark`, behind the last one.
#[inline]
fn begin(
    last: Option<Begun>,
    place: PdbInternalSectionOffset,
    mark: PdbInternalSectionOffset,
    line: Line,
) -> Search
    requires { is_marker line.flags ≡ false }
    ensures { (rs : List LineInfo) → IsSearched place rs last → IsTurned place (stepped (mark_at mark line) rs) result }
{
    if let Some(begun) = noted(last, mark) {
        if begun.covers(place) {
            return Search::Found(begun);
        }
    }
    Search::On(Some(Begun {
        place: mark,
        line,
        length: None,
    }))
}

/// The mark of an entry at `mark` comes.
#[inline]
fn turn(
    last: Option<Begun>,
    place: PdbInternalSectionOffset,
    mark: PdbInternalSectionOffset,
    line: Line,
) -> Search
    ensures { (rs : List LineInfo) → IsSearched place rs last → IsTurned place (stepped (mark_at mark line) rs) result }
{
    if is_marker(line.flags) {
        Search::On(noted(last, mark))
    } else {
        begin(last, place, mark, line)
    }
}

/// Whether no mark came behind the last record, if there is one.
#[inline]
fn is_open(last: Option<Begun>) -> bool
    ensures { result ≡ is_open last }
{
    match last {
        Some(begun) => begun.length.is_none(),
        None => true,
    }
}

/// How many of a block's first entries are no markers and stand at or before a place, where so many are known to rise.
#[inline(always)]
fn count_passed(
    place: PdbInternalSectionOffset,
    from: PdbInternalSectionOffset,
    block: Block<'_>,
    has_columns: bool,
    rising: usize,
) -> usize
    requires fits { block.count * entry_width has_columns ≤ length block.body.now }
    requires rising { AreRising from has_columns (block_of block) rising }
    ensures inside { result ≤ block.entry.count }
    ensures passed { ArePassed place from has_columns (block_of block.entry) result }
{
    for i in count_risen(place, from, block, has_columns, rising)..block.count {
        let entry = entry(block, has_columns, i);
        if from.wrapping_add(entry.offset).offset > place.offset || is_marker(entry.line.flags) {
            return i;
        }
    }
    block.count
}

/// The record that an entry begins.
fn begun_at(from: PdbInternalSectionOffset, block: Block<'_>, has_columns: bool, i: usize) -> Begun
    requires inside { i < block.count }
    requires fits { block.count * entry_width has_columns ≤ length block.body.now }
    ensures { result ≡ begun_of from (entry_of has_columns (block_of block.entry) i) }
{
    let entry = entry(block, has_columns, i);
    Begun {
        place: from.wrapping_add(entry.offset),
        line: entry.line,
        length: None,
    }
}

/// How many of a block's first entries came, and the last record.
#[derive(Clone, Copy)]
pub struct Came {
    count: usize,
    last: Option<Begun>,
}

/// Those of a block's first entries come that can only end a record before the place.
#[inline(always)]
fn pass(
    last: Option<Begun>,
    place: PdbInternalSectionOffset,
    from: PdbInternalSectionOffset,
    block: Block<'_>,
    has_columns: bool,
    rising: usize,
) -> Came
    requires fits { block.count * entry_width has_columns ≤ length block.body.now }
    requires rising { AreRising from has_columns (block_of block) rising }
    ensures inside { result.count ≤ block.entry.count }
    ensures searched { (rs : List LineInfo) → IsSearched place rs last → IsSearched place (after rs (map (entry_mark from) (take result.count (entries_of has_columns (block_of block.entry))))) result.last }
{
    if is_open(last) {
        let count = count_passed(place, from, block, has_columns, rising);
        if count > 0 {
            let last = Some(begun_at(from, block, has_columns, count - 1));
            return Came { count, last };
        }
    }
    Came { count: 0, last }
}

/// The entries of a block come; `has_columns` is a constant wherever it is called.
#[inline(always)]
fn search_entries(
    last: Option<Begun>,
    place: PdbInternalSectionOffset,
    from: PdbInternalSectionOffset,
    block: Block<'_>,
    has_columns: bool,
    rising: usize,
) -> Search
    requires fits { block.count * entry_width has_columns ≤ length block.body.now }
    requires rising { AreRising from has_columns (block_of block) rising }
    ensures { (rs : List LineInfo) → IsSearched place rs last → IsTurned place (after rs (map (entry_mark from) (entries_of has_columns (block_of block.entry)))) result }
{
    let came = pass(last, place, from, block, has_columns, rising);
    let mut last = came.last;
    for i in came.count..block.count {
        let entry = entry(block, has_columns, i);
        match turn(last, place, from.wrapping_add(entry.offset), entry.line) {
            Search::Found(begun) => return Search::Found(begun),
            Search::On(next) => last = next,
        }
    }
    Search::On(last)
}

/// The entries of a block come.
#[inline(always)]
fn search_block(
    last: Option<Begun>,
    place: PdbInternalSectionOffset,
    from: PdbInternalSectionOffset,
    block: Block<'_>,
    has_columns: bool,
    rising: usize,
) -> Search
    requires fits { block.count * entry_width has_columns ≤ length block.body.now }
    requires rising { AreRising from has_columns (block_of block) rising }
    ensures { (rs : List LineInfo) → IsSearched place rs last → IsTurned place (after rs (map (entry_mark from) (entries_of has_columns (block_of block.entry)))) result }
{
    if has_columns {
        search_entries(last, place, from, block, true, rising)
    } else {
        search_entries(last, place, from, block, false, rising)
    }
}

/// The first record of a subsection that covers a place, as if the subsection were the only one.
pub(crate) fn find_in_part(
    part: LineSubsection<'_>,
    place: PdbInternalSectionOffset,
) -> Option<LineInfo>
    ensures { result ≡ first_covering place (lines_of (subsection_of part.entry ∷ [])).items }
{
    let mut last: Option<Begun> = None;
    // It is known of the first block alone.
    let mut rising = part.rising;
    let mut buffer = ParseBuffer::from(part.bytes);
    while !buffer.is_empty() {
        match read_block(&mut buffer, part.has_columns) {
            Ok(block) => {
                match search_block(last, place, part.place, block, part.has_columns, rising) {
                    Search::Found(begun) => return Some(begun.info()),
                    Search::On(next) => {
                        last = next;
                        rising = 0;
                    }
                }
            }
            Err(_) => return None,
        }
    }
    if_covers(noted(last, part.place.wrapping_add(part.code_size)), place)
}

//! Line records as they are kept, with two lengths.

ghost use Rattle.pdb_modules.specs.Blocks.{entry_width, entries_of};
ghost use Rattle.pdb_modules.specs.BlockViews.{block_of};
ghost use Rattle.pdb_modules.specs.declared.line_info.LineInfo.{LineInfo};
ghost use Rattle.std.specs.Prelude.{List, ◌*◌, nat_le, if◌then◌else◌, ◌^◌, option_map, ◌≡◌, ◌+◌, ◌≤◌, ◌<◌, map, sum_by, length, ◌++◌, vec_len, IfOk, IfErr};
ghost use Rattle.pdb_modules.specs.LineProgram.{part_bytes};
ghost use Rattle.pdb_modules.specs.KeptRows.{upto, whole, own, noted, noted_from, stepped, stepped_from, after, subsection_of};
ghost use Rattle.pdb_modules.specs.Lines.{distance, lesser, is_marker, mark_at, entry_mark, line_info, marks, records, Mark};

use crate::blocks::{Block, entry, entry_width, read_block};
use crate::line::{Columns, Line};
use crate::line_info::{LineInfo, LineInfoKind};
use crate::line_subsection::LineSubsection;
use pdb_base::{Error, FileIndex, ParseBuffer, PdbInternalSectionOffset, Result};

/// A line record as it is kept. The fields are in an order that leaves no padding between them.
#[derive(Clone, Copy)]
pub struct Row {
    offset: u32,
    section: u16,
    columns: Option<Columns>,
    file: FileIndex,
    flags: u32,
    // How long it is among all subsections.
    length: Option<u32>,
    // How long it is where its own subsection is the only one.
    own_length: Option<u32>,
}

/// Whether a length is there and at most `distance`.
fn is_upto(length: Option<u32>, distance: u32) -> bool
    ensures { result ≡ upto length distance }
{
    match length {
        Some(length) => length <= distance,
        None => false,
    }
}

/// Whether the flags of an entry say that it is a marker.
pub(crate) fn is_marker(flags: u32) -> bool
    ensures { result ≡ is_marker flags }
{
    // Few lines have numbers as great as those of markers.
    if flags / 0x10_0000 % 16 < 15 {
        return false;
    }
    let line = flags % 0x100_0000;
    line == 0xfe_efee || line == 0xf0_0f00
}

impl Row {
    ghost use Rattle.std.specs.Prelude.{None, if◌then◌else◌};
    ghost use Rattle.pdb_modules.specs.Lines.{line_info};
    ghost use Rattle.pdb_modules.specs.KeptRows.{row_place, row_line};

    /// The row of a line at `place`, behind which no mark came so far.
    fn new(place: PdbInternalSectionOffset, line: Line) -> Row
        ensures whole { whole result ≡ line_info place line None }
        ensures own { own result ≡ line_info place line None }
    {
        Row {
            offset: place.offset,
            section: place.section,
            columns: line.columns,
            file: line.file,
            flags: line.flags,
            length: None,
            own_length: None,
        }
    }

    /// A mark is noted among all subsections, and where it is the row's own subsection's also there.
    fn note(&mut self, mark: PdbInternalSectionOffset, is_own: bool)
        ensures place { row_place self.new ≡ row_place self.old }
        ensures line { row_line self.new ≡ row_line self.old }
        ensures length { self.new.length ≡ lesser (self.old.length) (distance (row_place self.old) mark) }
        ensures own { self.new.own_length ≡ (if is_own then lesser (self.old.own_length) (distance (row_place self.old) mark) else self.old.own_length) }
    {
        if self.section == mark.section && self.offset <= mark.offset {
            let distance = mark.offset - self.offset;
            if !is_upto(self.length, distance) {
                self.length = Some(distance);
            }
            if is_own && !is_upto(self.own_length, distance) {
                self.own_length = Some(distance);
            }
        }
    }
}

/// A mark is noted at the last row: among all subsections, and where the row isn't one of the first `from` also among
/// those of its own subsection.
fn note(rows: &mut Vec<Row>, from: usize, mark: PdbInternalSectionOffset)
    requires { from ≤ vec_len rows.old }
    ensures whole { map whole rows.new.items ≡ noted mark (map whole rows.old.items) }
    ensures own { map own rows.new.items ≡ noted_from from mark (map own rows.old.items) }
    ensures len { vec_len rows.new ≡ vec_len rows.old }
{
    let count = rows.len();
    if count > 0 {
        rows[count - 1].note(mark, from < count);
    }
}

/// The mark of an entry at `place` comes: it is noted, and begins a row where it is no marker.
fn add_mark(
    rows: &mut Vec<Row>,
    from: usize,
    place: PdbInternalSectionOffset,
    line: Line,
) -> Result<()>
    requires { from ≤ vec_len rows.old }
    ensures whole { IfOk result (λ _. map whole rows.new.items ≡ stepped (mark_at place line) (map whole rows.old.items)) }
    ensures own { IfOk result (λ _. map own rows.new.items ≡ stepped_from from (mark_at place line) (map own rows.old.items)) }
    ensures len { IfOk result (λ _. vec_len rows.old ≤ vec_len rows.new) }
    ensures grows { IfOk result (λ _. vec_len rows.new ≤ vec_len rows.old + 1) }
    ensures refused { IfErr result (λ e. e ≡ Error.OutOfMemory) }
{
    note(rows, from, place);
    if is_marker(line.flags) {
        return Ok(());
    }
    rows.push(Row::new(place, line))?;
    Ok(())
}

/// The rows of a block's entries are added; `has_columns` is a constant wherever it is called.
#[inline(always)]
fn add_entries(
    rows: &mut Vec<Row>,
    from: usize,
    place: PdbInternalSectionOffset,
    block: Block<'_>,
    has_columns: bool,
) -> Result<()>
    requires from { from ≤ vec_len rows.old }
    requires fits { block.count * entry_width has_columns ≤ length block.body.now }
    ensures whole { IfOk result (λ _. map whole rows.new.items ≡ after (map whole rows.old.items) (map (entry_mark place) (entries_of has_columns (block_of block.entry)))) }
    ensures own { IfOk result (λ _. (done : List LineInfo) (ms : List Mark) → length done ≡ from → map own rows.old.items ≡ done ++ records ms → map own rows.new.items ≡ done ++ records (ms ++ map (entry_mark place) (entries_of has_columns (block_of block.entry)))) }
    ensures len { IfOk result (λ _. vec_len rows.old ≤ vec_len rows.new) }
    ensures grows { IfOk result (λ _. vec_len rows.new ≤ vec_len rows.old + block.entry.count) }
    ensures refused { IfErr result (λ e. e ≡ Error.OutOfMemory) }
{
    for i in 0..block.count {
        let entry = entry(block, has_columns, i);
        add_mark(rows, from, place.wrapping_add(entry.offset), entry.line)?;
    }
    Ok(())
}

/// The rows of a block's entries are added.
#[inline(always)]
fn add_block(
    rows: &mut Vec<Row>,
    from: usize,
    place: PdbInternalSectionOffset,
    block: Block<'_>,
    has_columns: bool,
) -> Result<()>
    requires from { from ≤ vec_len rows.old }
    requires fits { block.count * entry_width has_columns ≤ length block.body.now }
    ensures whole { IfOk result (λ _. map whole rows.new.items ≡ after (map whole rows.old.items) (map (entry_mark place) (entries_of has_columns (block_of block.entry)))) }
    ensures own { IfOk result (λ _. (done : List LineInfo) (ms : List Mark) → length done ≡ from → map own rows.old.items ≡ done ++ records ms → map own rows.new.items ≡ done ++ records (ms ++ map (entry_mark place) (entries_of has_columns (block_of block.entry)))) }
    ensures len { IfOk result (λ _. vec_len rows.old ≤ vec_len rows.new) }
    ensures grows { IfOk result (λ _. vec_len rows.new ≤ vec_len rows.old + block.entry.count) }
    ensures refused { IfErr result (λ e. e ≡ Error.OutOfMemory) }
{
    if has_columns {
        add_entries(rows, from, place, block, true)
    } else {
        add_entries(rows, from, place, block, false)
    }
}

/// No more rows than these come of the subsections: one for each entry that their bytes can hold.
pub(crate) fn most_rows(parts: &[LineSubsection<'_>]) -> usize
    requires { sum_by part_bytes parts.now < 2 ^ 64 }
    ensures { result ≤ sum_by part_bytes parts.now }
{
    let mut most = 0;
    for part in parts {
        most += part.bytes.len() / entry_width(part.has_columns);
    }
    most
}

/// The rows of a subsection are added, up to its fault.
pub(crate) fn add_part(rows: &mut Vec<Row>, part: LineSubsection<'_>) -> Result<Option<Error>>
    ensures whole { IfOk result (λ _. map whole rows.new.items ≡ after (map whole rows.old.items) (marks (subsection_of part.entry))) }
    ensures own { IfOk result (λ _. map own rows.new.items ≡ map own rows.old.items ++ records (marks (subsection_of part.entry))) }
    ensures fault { IfOk result (λ f. f ≡ (subsection_of part.entry).fault) }
    ensures grows { IfOk result (λ _. vec_len rows.new ≤ vec_len rows.old + length part.entry.bytes.now) }
    ensures refused { IfErr result (λ e. e ≡ Error.OutOfMemory) }
{
    let from = rows.len();
    let mut buffer = ParseBuffer::from(part.bytes);
    while !buffer.is_empty() {
        match read_block(&mut buffer, part.has_columns) {
            Ok(block) => add_block(rows, from, part.place, block, part.has_columns)?,
            Err(error) => return Ok(Some(error)),
        }
    }
    note(rows, from, part.place.wrapping_add(part.code_size));
    Ok(None)
}

/// The columns of a line record.
fn column(columns: Option<Columns>, is_end: bool) -> Option<u32>
    ensures { result ≡ option_map (λ c. if is_end then c.end else c.start) columns }
{
    match columns {
        None => None,
        Some(columns) => Some(u32::from(if is_end { columns.end } else { columns.start })),
    }
}

/// The kind that flags say.
fn kind(flags: u32) -> LineInfoKind
    ensures { result ≡ (if nat_le (2 ^ 31) flags then LineInfoKind.Statement else LineInfoKind.Expression) }
{
    if flags >= 0x8000_0000 {
        LineInfoKind::Statement
    } else {
        LineInfoKind::Expression
    }
}

impl Row {
    ghost use Rattle.pdb_modules.specs.Lines.{line_info};
    ghost use Rattle.pdb_modules.specs.KeptRows.{view_of, row_place, row_line};

    /// The record, of this length.
    fn info(&self, length: Option<u32>) -> LineInfo
        ensures { result ≡ line_info (row_place self.now) (row_line self.now) length }
    {
        let flags = self.flags;
        let line_start = flags % 0x100_0000;
        LineInfo {
            offset: PdbInternalSectionOffset::new(self.section, self.offset),
            length,
            file_index: self.file,
            line_start,
            line_end: line_start + flags / 0x100_0000 % 0x80,
            column_start: column(self.columns, false),
            column_end: column(self.columns, true),
            kind: kind(flags),
        }
    }

    /// The record among all subsections, or where its own is the only one.
    pub(crate) fn shown(&self, is_own: bool) -> LineInfo
        ensures { result ≡ view_of is_own self.now }
    {
        if is_own {
            self.info(self.own_length)
        } else {
            self.info(self.length)
        }
    }
}

/// The record of a line at a place, of this length.
pub(crate) fn line_info(
    place: PdbInternalSectionOffset,
    line: Line,
    length: Option<u32>,
) -> LineInfo
    ensures { result ≡ line_info place line length }
{
    let row = Row {
        offset: place.offset,
        section: place.section,
        columns: line.columns,
        file: line.file,
        flags: line.flags,
        length: None,
        own_length: None,
    };
    row.info(length)
}

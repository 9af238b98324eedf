//! What rises in an index that is well made.

ghost use Rattle.std.specs.Prelude.{◌≡◌, ◌+◌, ◌*◌, ◌-◌, ◌^◌, ◌<◌, ◌≤◌, ◌↔◌, length, IsTrue};
ghost use Rattle.pdb_index.specs.IndexLayout.{end_of, start_of, word_at};
ghost use Rattle.pdb_index.specs.Searches.{Rises};
ghost use Rattle.pdb_index.specs.WellMade.{first_run, HasRisingSections, HasRisingSegments, HasRisingStarts, HasRuns, HasRunsOfRow, IsRising};

use crate::cells::word;
use crate::index::Index;
use crate::layout::Table;

/// Whether the numbers rise that stand so many bytes within the rows from `first` on and before `behind`.
fn rises(bytes: &[u8], table: Table, within: usize, first: usize, behind: usize) -> bool
    requires rows { (first < behind) × (behind ≤ table.rows) × (table.rows ≤ 2 ^ 32) }
    requires inside { end_of table ≤ length bytes.now }
    requires width { (within + 4 ≤ table.width) × (table.width < 2 ^ 11) }
    ensures { IsTrue result ↔ Rises (λ k. word_at bytes.now table k within) first behind }
{
    for row in first + 1..behind {
        if word(bytes, table, (row - 1) as u32, within) >= word(bytes, table, row as u32, within) {
            return false;
        }
    }
    true
}

/// Whether the first of these runs begins at 0, and they rise.
fn has_runs(index: &Index<'_>, first: u32, behind: u32) -> bool
    requires rises { first < behind }
    requires there { behind ≤ index.now.layout.starts.rows }
    ensures { IsTrue result ↔ HasRuns index.now.bytes.now index.now.layout first behind }
{
    let starts = index.layout.starts;
    word(index.bytes, starts, first, 0) == 0
        && rises(index.bytes, starts, 0, first as usize, behind as usize)
}

/// The same of the runs of a section, by its row.
fn section_has_runs(index: &Index<'_>, section: u32) -> bool
    requires there { section + 1 < index.now.layout.sections.rows }
    requires rises { first_run index.now.bytes.now index.now.layout section < first_run index.now.bytes.now index.now.layout (section + 1) }
    requires runs { first_run index.now.bytes.now index.now.layout (section + 1) ≤ index.now.layout.starts.rows }
    ensures { IsTrue result ↔ HasRunsOfRow index.now.bytes.now index.now.layout section }
{
    let first = word(index.bytes, index.layout.sections, section, 4);
    let behind = word(index.bytes, index.layout.sections, section + 1, 4);
    has_runs(index, first, behind)
}

/// Whether sections and their first runs rise, these from 0 to the number of runs.
fn sections_rise(index: &Index<'_>) -> bool
    ensures { IsTrue result ↔ HasRisingSections index.now.bytes.now index.now.layout }
{
    let sections = index.layout.sections;
    let last = (sections.rows - 1) as u32;
    rises(index.bytes, sections, 0, 0, sections.rows)
        && rises(index.bytes, sections, 4, 0, sections.rows)
        && word(index.bytes, sections, 0, 4) == 0
        && word(index.bytes, sections, last, 4) as usize == index.layout.starts.rows
}

/// Whether the runs of each section begin at 0 and rise.
fn starts_rise(index: &Index<'_>) -> bool
    requires { HasRisingSections index.now.bytes.now index.now.layout }
    ensures { IsTrue result ↔ HasRisingStarts index.now.bytes.now index.now.layout }
{
    let count = (index.layout.sections.rows - 1) as u32;
    for section in 0..count {
        if !section_has_runs(index, section) {
            return false;
        }
    }
    true
}

/// Whether segments rise, from address 0 on.
fn segments_rise(index: &Index<'_>) -> bool
    requires { 1 ≤ index.now.layout.segments.rows }
    ensures { IsTrue result ↔ HasRisingSegments index.now.bytes.now index.now.layout }
{
    let segments = index.layout.segments;
    word(index.bytes, segments, 0, 0) == 0 && rises(index.bytes, segments, 0, 0, segments.rows)
}

/// Whether all rises that does in an index that is well made.
pub(crate) fn is_rising(index: &Index<'_>) -> bool
    requires { 1 ≤ index.now.layout.segments.rows }
    ensures { IsTrue result ↔ IsRising index.now.bytes.now index.now.layout }
{
    segments_rise(index) && sections_rise(index) && starts_rise(index)
}

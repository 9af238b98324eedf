//! Runs: ranges of offsets in a section whose code has the same frames.

ghost use Rattle.std.specs.Prelude.{◌≡◌, ◌+◌, ◌*◌, ◌-◌, ◌<◌, ◌≤◌, IfSome};
ghost use Rattle.pdb_index.specs.IndexLayout.{start_of};
ghost use Rattle.pdb_index.specs.Searches.{Finds};
ghost use Rattle.pdb_index.specs.SectionRuns.{IsRowOf, IsRunAt, IsRunOfRow, run_of as run_there};

use crate::cells::{field, word};
use crate::index::Index;
use crate::search::last_upto;
use crate::segments::Place;
use crate::steps::hinted;
use pdb_base::Steps;

/// A run: a range of code at each address of which the frames are the same.
#[derive(Clone, Copy, Debug, PartialEq, Eq)]
pub struct Run {
    /// The number of the run.
    pub number: u32,
    /// The number of the innermost frame's node.
    pub node: u32,
    /// Whether the module of this code is damaged in the PDB file: its frames are what was read before the damage.
    pub is_damaged: bool,
}

/// The row of a section that has runs.
fn find_section(index: &Index<'_>, section: u16, looks: &mut Steps) -> Option<u32>
    ensures row { IsRowOf index.now.bytes.now index.now.layout section result }
    ensures there { IfSome result (λ k. k + 1 < index.now.layout.sections.rows) }
    ensures few { looks.new.count ≤ looks.old.count + 32 }
{
    let sections = index.layout.sections;
    let count = (sections.rows - 1) as u32;
    let row = last_upto(index.bytes, sections, 0, count, u32::from(section), looks)?;
    (word(index.bytes, sections, row, 0) == u32::from(section)).then_some(row)
}

/// The run that has an offset, among those of a section from `first` on and before `behind`.
fn find_run(
    index: &Index<'_>,
    section: u32,
    first: u32,
    behind: u32,
    offset: u32,
    looks: &mut Steps,
) -> Option<u32>
    requires section { section + 1 < index.now.layout.sections.rows }
    requires runs { (first < behind) × (behind ≤ index.now.layout.starts.rows) }
    ensures found { Finds (start_of index.now.bytes.now index.now.layout.starts) first behind offset result }
    ensures few { looks.new.count ≤ looks.old.count + 65 }
{
    if let Some(run) = hinted(index, section, first, behind, offset, looks) {
        return Some(run);
    }
    last_upto(
        index.bytes,
        index.layout.starts,
        first,
        behind,
        offset,
        looks,
    )
}

/// What a run's value says.
fn run_of(index: &Index<'_>, number: u32) -> Run
    requires { number < index.now.layout.starts.rows }
    ensures { result ≡ run_there index.now.bytes.now index.now.layout number }
{
    let values = index.layout.values;
    let value = field(index.bytes, values, number, 0, values.width);
    Run {
        number,
        node: value / 2,
        is_damaged: value % 2 == 1,
    }
}

/// The run that has an offset, in the section of this row; `None` where the index is damaged.
fn run_in(index: &Index<'_>, section: u32, offset: u32, looks: &mut Steps) -> Option<Run>
    requires { section + 1 < index.now.layout.sections.rows }
    ensures run { IsRunOfRow index.now.bytes.now index.now.layout section offset result }
    ensures few { looks.new.count ≤ looks.old.count + 65 }
{
    let layout = index.layout;
    let first = word(index.bytes, layout.sections, section, 4);
    let behind = word(index.bytes, layout.sections, section + 1, 4);
    if first >= behind || layout.starts.rows < behind as usize {
        return None;
    }
    let number = find_run(index, section, first, behind, offset, looks)?;
    Some(run_of(index, number))
}

/// The run at a place, if its section has runs; `None` where the index is damaged.
pub(crate) fn run_at(index: &Index<'_>, place: Place, looks: &mut Steps) -> Option<Option<Run>>
    ensures run { IsRunAt index.now.bytes.now index.now.layout place.section place.offset result }
    ensures few { looks.new.count ≤ looks.old.count + 97 }
{
    let Some(section) = find_section(index, place.section, looks) else {
        return Some(None);
    };
    let run = run_in(index, section, place.offset, looks)?;
    Some(Some(run))
}

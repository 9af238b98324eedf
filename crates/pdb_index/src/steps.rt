//! Steps: a table that hints where the runs of an offset stand. What it says is compared with the runs before it counts.

ghost use Rattle.std.specs.Prelude.{◌≡◌, ◌+◌, ◌*◌, ◌<◌, ◌≤◌, ◌^◌, IfSome};
ghost use Rattle.pdb_index.specs.IndexLayout.{start_of};
ghost use Rattle.pdb_index.specs.Searches.{Has};

use crate::cells::word;
use crate::index::Index;
use crate::search::last_upto;
use pdb_base::Steps;

/// The runs among which the steps have an offset, counted from the section's first; `None` where there are no steps, or the
/// section has none for the offset.
fn stepped(index: &Index<'_>, section: u32, offset: u32) -> Option<(u32, u32)>
    requires { section + 1 < index.now.layout.sections.rows }
{
    let layout = index.layout;
    if layout.sections.width < 12 {
        return None;
    }
    let first = word(index.bytes, layout.sections, section, 8);
    let behind = word(index.bytes, layout.sections, section + 1, 8);
    let row = first.checked_add(offset >> layout.shift)?;
    let next = row.checked_add(1)?;
    if next >= behind || layout.steps.rows <= next as usize {
        return None;
    }
    let low = word(index.bytes, layout.steps, row, 0);
    Some((
        low.saturating_sub(1),
        word(index.bytes, layout.steps, next, 0),
    ))
}

/// The run that has an offset, if it is among those that the steps name: it begins at or before the offset, and the next
/// run of the section, if there is one, behind it.
pub(crate) fn hinted(
    index: &Index<'_>,
    section: u32,
    first: u32,
    behind: u32,
    offset: u32,
    looks: &mut Steps,
) -> Option<u32>
    requires section { section + 1 < index.now.layout.sections.rows }
    requires runs { (first < behind) × (behind ≤ index.now.layout.starts.rows) }
    ensures has { IfSome result (Has (start_of index.now.bytes.now index.now.layout.starts) first behind offset) }
    ensures few { looks.new.count ≤ looks.old.count + 33 }
{
    let (low, high) = stepped(index, section, offset)?;
    if low > high || high > behind - first {
        return None;
    }
    let starts = index.layout.starts;
    let run = last_upto(
        index.bytes,
        starts,
        first + low,
        first + high,
        offset,
        looks,
    )?;
    looks.tick();
    let is_last = run + 1 == behind || offset < word(index.bytes, starts, run + 1, 0);
    is_last.then_some(run)
}

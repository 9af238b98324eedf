//! The first line record of an inlined function that covers a place.

ghost use Rattle.std.specs.Prelude.{◌≡◌};
ghost use Rattle.pdb.specs.InlinedViews.{inlined_left};
ghost use Rattle.pdb_code.specs.ModuleCode.{first_line};

use pdb::{FallibleIterator, InlineeLineIterator, LineInfo, PdbInternalSectionOffset};

/// The first record of an inlined function that covers a place.
#[inline]
pub(crate) fn first_inlined_line(
    mut lines: InlineeLineIterator<'_>,
    place: PdbInternalSectionOffset,
) -> Option<LineInfo>
    ensures { result ≡ first_line place (inlined_left lines.entry).items }
{
    loop {
        match lines.next() {
            Ok(Some(line)) => {
                if line.covers(place) {
                    return Some(line);
                }
            }
            Ok(None) => return None,
            Err(_) => return None,
        }
    }
}

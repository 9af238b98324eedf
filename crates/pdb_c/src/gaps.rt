//! The gaps of the code in which a record of a range holds.

ghost use Rattle.std.specs.Prelude.{◌≡◌};
ghost use Rattle.pdb_records.specs.RecordViews.{gaps_left};
ghost use Rattle.pdb_c.specs.Lists.{IsListed, Listed};
ghost use Rattle.pdb_c.specs.RecordNumbers.{gap_row, gaps_in_record};

use crate::answers::{code_of, list_code};
use crate::further_records::record_in;
use crate::record_fields::record_gaps;
use crate::rooms::put_row;
use pdb::FallibleIterator;
use pdb_records::{AddressGap, GapsIter};

/// A gap in a range of code.
#[repr(C)]
#[derive(Clone, Copy)]
pub struct PdbGap {
    /// Where it begins, counted in bytes from the range's start.
    pub start: u32,
    /// How many bytes it has.
    pub size: u32,
}

fn gap_row(gap: AddressGap) -> PdbGap
    ensures { result ≡ gap_row gap }
{
    PdbGap {
        start: u32::from(gap.start),
        size: u32::from(gap.len),
    }
}

/// Puts the gaps that are left, and counts them.
fn fill(mut gaps: GapsIter<'_>, rows: &mut [PdbGap], count: &mut usize) -> u32
    ensures { IsListed (λ r. r) gap_row result rows.old rows.new count.new (gaps_left gaps.entry) }
{
    let mut n = 0usize;
    loop {
        match gaps.next() {
            Ok(Some(gap)) => {
                put_row(rows, n, gap_row(gap));
                n += 1;
            }
            Ok(None) => {
                *count = n;
                return list_code(rows.len(), n, None);
            }
            Err(e) => {
                *count = n;
                return list_code(rows.len(), n, Some(e));
            }
        }
    }
}

/// The gaps of a record of a range, as many as the buffer has rows, and how many there are. Another further record has
/// none.
#[unsafe(no_mangle)]
pub extern "C" fn pdb_gaps(bytes: &[u8], rows: &mut [PdbGap], count: &mut usize) -> u32
    ensures { Listed (λ r. r) gap_row result rows.old rows.new count.new (gaps_in_record bytes.now) }
{
    *count = 0;
    match record_in(bytes) {
        Ok(said) => fill(record_gaps(&said).iter(), rows, count),
        Err(e) => code_of(e),
    }
}

//! The search by halving, in rows that begin with a number of four bytes.

ghost use Rattle.std.specs.Prelude.{◌≡◌, ◌+◌, ◌-◌, ◌*◌, ℕ, ◌^◌, ◌<◌, ◌≤◌, length};
ghost use Rattle.pdb_index.specs.IndexLayout.{end_of, start_of};
ghost use Rattle.pdb_index.specs.Searches.{Finds};

use crate::cells::word;
use crate::layout::Table;
use pdb_base::Steps;

/// Of the rows from `first` on and before `behind` one that begins with a number of at most `key`, and behind which the
/// next begins with a greater one; none only where the first begins with a greater one. Where the numbers rise it is the last
/// row that begins with at most `key`. It counts each row that it looks at: as many as the number of rows has binary digits.
pub(crate) fn last_upto(
    bytes: &[u8],
    table: Table,
    first: u32,
    behind: u32,
    key: u32,
    looks: &mut Steps,
) -> Option<u32>
    requires rows { (first ≤ behind) × (behind ≤ table.rows) }
    requires inside { end_of table ≤ length bytes.now }
    requires width { (4 ≤ table.width) × (table.width < 2 ^ 11) }
    ensures found { Finds (start_of bytes.now table) first behind key result }
    ensures looks { (digits : ℕ) → behind - first < 2 ^ digits → looks.new.count ≤ looks.old.count + digits }
    ensures few { looks.new.count ≤ looks.old.count + 32 }
{
    let mut low = first;
    let mut high = behind;
    while low < high {
        let middle = low + (high - low) / 2;
        looks.tick();
        if word(bytes, table, middle, 0) <= key {
            low = middle + 1;
        } else {
            high = middle;
        }
    }
    if low == first {
        return None;
    }
    Some(low - 1)
}

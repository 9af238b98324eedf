//! Numbers in the rows of a table, the least byte first.

ghost use Rattle.std.specs.Prelude.{◌≡◌, ◌+◌, ◌*◌, ◌^◌, ◌<◌, ◌≤◌, length};
ghost use Rattle.pdb_base.specs.Fields.{number};
ghost use Rattle.pdb_index.specs.IndexLayout.{end_of, field_at, word_at};

use crate::layout::Table;
use pdb_base::little_endian::u32_at;

/// The number of up to four bytes at an offset.
#[tactic(auto, unfolding(pdb_base::specs::Fields::number))]
fn number_of(bytes: &[u8], at: usize, width: usize) -> u32
    requires width { width ≤ 4 }
    requires there { at + width ≤ length bytes.now }
    ensures { result ≡ number bytes.now at width }
{
    match width {
        0 => 0,
        1 => u32::from(bytes[at]),
        2 => u32::from_le_bytes([bytes[at], bytes[at + 1], 0, 0]),
        3 => u32::from_le_bytes([bytes[at], bytes[at + 1], bytes[at + 2], 0]),
        _ => u32_at(bytes, at),
    }
}

/// The number of up to four bytes, so many bytes within a row.
pub(crate) fn field(bytes: &[u8], table: Table, row: u32, within: usize, width: usize) -> u32
    requires row { row < table.rows }
    requires inside { end_of table ≤ length bytes.now }
    requires small { table.width < 2 ^ 11 }
    requires field { (width ≤ 4) × (within + width ≤ table.width) }
    ensures { result ≡ field_at bytes.now table row within width }
{
    number_of(
        bytes,
        table.base + table.width * row as usize + within,
        width,
    )
}

/// The number of four bytes, so many bytes within a row.
pub(crate) fn word(bytes: &[u8], table: Table, row: u32, within: usize) -> u32
    requires row { row < table.rows }
    requires inside { end_of table ≤ length bytes.now }
    requires small { table.width < 2 ^ 11 }
    requires field { within + 4 ≤ table.width }
    ensures { result ≡ word_at bytes.now table row within }
{
    u32_at(bytes, table.base + table.width * row as usize + within)
}

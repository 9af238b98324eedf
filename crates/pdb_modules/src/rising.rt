//! The first entries of a block, as far as they are no markers and their offsets never fall: among them is halved.

ghost use Rattle.std.specs.Prelude.{◌≡◌, ◌*◌, ◌≤◌, false, length};
ghost use Rattle.pdb_modules.specs.Blocks.{entry_width};
ghost use Rattle.pdb_modules.specs.BlockViews.{block_of};
ghost use Rattle.pdb_modules.specs.LineSearch.{ArePassed};
ghost use Rattle.pdb_modules.specs.Lines.{is_marker};
ghost use Rattle.pdb_modules.specs.Rising.{AreRising, RiseAt};

use crate::blocks::{Block, entry, read_block};
use pdb_base::{ParseBuffer, PdbInternalSectionOffset};

/// Whether flags may be those of a marker: few lines have numbers as great as those of markers.
#[inline]
fn may_be_marker(flags: u32) -> bool
    ensures { result ≡ false → is_marker flags ≡ false }
{
    flags % 0x100_0000 >= 0xf0_0f00
}

/// How many of a block's first entries are no markers and stand at offsets that never fall. It may be fewer, where a
/// line has a number as great as those of markers.
#[inline]
fn count_rising(from: PdbInternalSectionOffset, block: Block<'_>, has_columns: bool) -> usize
    requires { block.count * entry_width has_columns ≤ length block.body.now }
    ensures { AreRising from has_columns (block_of block.entry) result }
{
    let mut before = 0;
    for i in 0..block.count {
        let entry = entry(block, has_columns, i);
        let offset = from.wrapping_add(entry.offset).offset;
        if offset < before || may_be_marker(entry.line.flags) {
            return i;
        }
        before = offset;
    }
    block.count
}

/// How many entries of a subsection's first block are so. Each subsection is read once: the loop keeps registers of its
/// own.
#[inline(never)]
pub(crate) fn rising_in_front(
    from: PdbInternalSectionOffset,
    bytes: &[u8],
    has_columns: bool,
) -> usize
    ensures { RiseAt from has_columns bytes.now 0 result }
{
    let mut buffer = ParseBuffer::from(bytes);
    match read_block(&mut buffer, has_columns) {
        Ok(block) => count_rising(from, block, has_columns),
        Err(_) => 0,
    }
}

/// How many of so many rising entries stand at or before a place: by halving.
#[inline]
pub(crate) fn count_risen(
    place: PdbInternalSectionOffset,
    from: PdbInternalSectionOffset,
    block: Block<'_>,
    has_columns: bool,
    rising: usize,
) -> usize
    requires fits { block.count * entry_width has_columns ≤ length block.body.now }
    requires rising { AreRising from has_columns (block_of block) rising }
    ensures inside { result ≤ rising }
    ensures passed { ArePassed place from has_columns (block_of block.entry) result }
{
    let mut low = 0;
    let mut high = rising;
    while low < high {
        let middle = low + (high - low) / 2;
        let entry = entry(block, has_columns, middle);
        if from.wrapping_add(entry.offset).offset > place.offset {
            high = middle;
        } else {
            low = middle + 1;
        }
    }
    low
}

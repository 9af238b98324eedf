//! Blocks of line entries.

ghost use Rattle.std.specs.Prelude.{◌≡◌, ◌+◌, ◌*◌, ◌≤◌, ◌<◌, length, IfOk};
ghost use Rattle.pdb_base.specs.Cursor.{Reads};
ghost use Rattle.pdb_base.specs.Fields.{number};
ghost use Rattle.pdb_modules.specs.Blocks.{block_at, block_length, entry_width, entry_of};
ghost use Rattle.pdb_modules.specs.BlockViews.{block_of};

use crate::line::{Columns, Entry, Line};
use pdb_base::little_endian::{u16_at, u32_at};
use pdb_base::{Error, FileIndex, ParseBuffer, Part, Result};

/// A block: the file of its entries, how many there are, and the bytes behind its header.
#[derive(Clone, Copy)]
pub struct Block<'a> {
    pub(crate) file: FileIndex,
    pub(crate) count: usize,
    pub(crate) body: &'a [u8],
}

/// How many bytes an entry takes, with its columns where the subsection has them.
pub(crate) fn entry_width(has_columns: bool) -> usize
    ensures { result ≡ entry_width has_columns }
{
    if has_columns { 12 } else { 8 }
}

/// The block at the buffer's offset.
#[tactic(auto, unfolding(crate::specs::Blocks::block_at))]
pub(crate) fn read_block<'a>(buffer: &mut ParseBuffer<'a>, has_columns: bool) -> Result<Block<'a>>
    ensures reads { Reads block_of buffer.old buffer.new result (block_at has_columns buffer.old.bytes buffer.old.place) (block_length buffer.old.place) }
    ensures few { IfOk result (λ block. block.count ≤ length block.body.now) }
    ensures fits { IfOk result (λ block. block.count * entry_width has_columns ≤ length block.body.now) }
{
    let header = buffer.take(12)?;
    let size = u32_at(header, 8) as usize;
    if size < 12 {
        return Err(Error::InvalidStreamLength(Part::LinesBlock));
    }
    let body = buffer.take(size - 12)?;
    let count = u32_at(header, 4) as usize;
    if body.len() < count * entry_width(has_columns) {
        return Err(Error::InvalidStreamLength(Part::LinesBlock));
    }
    Ok(Block {
        file: FileIndex(u32_at(header, 0)),
        count,
        body,
    })
}

/// Entry `i` of a block.
#[inline(always)]
pub(crate) fn entry(block: Block<'_>, has_columns: bool, i: usize) -> Entry
    requires inside { i < block.count }
    requires fits { block.count * entry_width has_columns ≤ length block.body.now }
    ensures { result ≡ entry_of has_columns (block_of block.entry) i }
{
    let columns = if has_columns {
        let at = 8 * block.count + 4 * i;
        Some(Columns {
            start: u16_at(block.body, at),
            end: u16_at(block.body, at + 2),
        })
    } else {
        None
    };
    Entry {
        offset: u32_at(block.body, 8 * i),
        line: Line {
            file: block.file,
            flags: u32_at(block.body, 8 * i + 4),
            columns,
        },
    }
}

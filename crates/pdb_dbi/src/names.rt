//! The names of streams.

ghost use Rattle.std.specs.Prelude.{◌≡◌, ◌+◌, ◌*◌, ◌^◌, ◌<◌, ◌≤◌, map, length};
ghost use Rattle.std.specs.Slice.Iter.{iter_rest};
ghost use Rattle.pdb_base.specs.Cursor.{Reads};
ghost use Rattle.pdb_base.specs.Refusal.{Answers, Gives};
ghost use Rattle.pdb_dbi.specs.Names.{name_at, names_of, names_up_to, pairs_at, words_at};
ghost use Rattle.pdb_dbi.specs.DbiViews.{stream_name};

use pdb_base::little_endian::{u16_at, u32_at};
use pdb_base::part::part_of;
use pdb_base::{ParseBuffer, RawString, Result, StreamIndex};
use std::alloc::Global;
use std::marker::Model;

/// A stream's name.
#[derive(Debug, Drop)]
pub struct StreamName<'n> {
    /// The name, without the zero byte that ends it.
    pub name: RawString<'n>,
    /// The stream's index.
    pub stream_id: StreamIndex,
}

/// An iterator over names of streams.
pub type NameIter<'a, 'n> = std::slice::Iter<'a, StreamName<'n>>;

/// The names of streams, in the order in which the file lists them. A contract sees it as the list of names, each with
/// its stream's number.
#[derive(Drop)]
pub struct StreamNames<'s> {
    names: Vec<StreamName<'s>>,
}

impl<'s> Model for StreamNames<'s> {
    ghost use Rattle.std.specs.Prelude.{List, map};
    ghost use Rattle.pdb_dbi.specs.Names.{Name};
    ghost use Rattle.pdb_dbi.specs.DbiViews.{stream_name};

    ghost Value = { List Name };

    ghost view = { λ n. map stream_name n.names.items };
}

impl<'s> StreamNames<'s> {
    /// The names, in their order.
    pub fn iter(&self) -> NameIter<'_, 's>
        ensures { map stream_name (iter_rest result) ≡ self.now }
    {
        self.names.iter()
    }
}

impl<'a, 's> IntoIterator for &'a StreamNames<'s> {
    type Item = &'a StreamName<'s>;

    type IntoIter = NameIter<'a, 's>;

    ghost into_iter_gives = { λ names it. map stream_name (iter_rest it) ≡ names.now };

    fn into_iter(self) -> Self::IntoIter {
        self.iter()
    }
}

/// A count of words of four bytes, and then these, which are borrowed.
#[tactic(auto, unfolding(crate::specs::Names::words_at))]
pub(crate) fn skip_words<'b>(buffer: &mut ParseBuffer<'b>) -> Result<&'b [u8]>
    ensures { Reads (λ s. s.now) buffer.old buffer.new result (words_at buffer.old.bytes buffer.old.place) (λ s. 4 + length s) }
{
    let count = buffer.parse_u32()?;
    buffer.take(4 * count as usize)
}

/// The pairs of the map at the buffer's offset.
#[tactic(auto, unfolding(crate::specs::Names::pairs_at))]
fn read_pairs<'b>(buffer: &mut ParseBuffer<'b>) -> Result<&'b [u8]>
    ensures { Answers (λ s. s.now) result (pairs_at buffer.old.bytes buffer.old.place) }
{
    let count = buffer.parse_u32()?;
    let _unused = buffer.parse_u32()?;
    let _ok_words = skip_words(buffer)?;
    let _deleted_words = skip_words(buffer)?;
    buffer.take(8 * count as usize)
}

/// The name and the stream of the pair with this number.
#[tactic(auto, unfolding(crate::specs::Names::name_at))]
fn read_name<'n>(part: &'n [u8], pairs: &[u8], k: usize) -> Result<StreamName<'n>>
    requires { 8 * k + 8 ≤ length pairs.now }
    ensures { Answers stream_name result (name_at part.now pairs.now k) }
{
    let mut buffer = ParseBuffer::from(part);
    buffer.seek(u32_at(pairs, 8 * k) as usize);
    Ok(StreamName {
        name: buffer.parse_cstring()?,
        stream_id: StreamIndex(u16_at(pairs, 8 * k + 4)),
    })
}

/// The names of the part of so many bytes at an offset, by the map behind it.
#[tactic(auto, using(crate::proofs::NameList::part_refused, crate::proofs::NameList::one_more_name))]
pub(crate) fn read_names<'n>(
    alloc: Global,
    bytes: &'n [u8],
    offset: usize,
    size: usize,
) -> Result<StreamNames<'n>>
    requires { length bytes.now < 2 ^ 32 }
    ensures { Gives (λ n. n) ⊥ result (names_of bytes.now offset size) }
{
    let part = part_of(bytes, offset, size)?;
    let mut map = ParseBuffer::from(bytes);
    map.seek(offset + size);
    let pairs = read_pairs(&mut map)?;
    let count = pairs.len() / 8;
    let mut names = Vec::with_capacity(alloc, count)?;
    for k in 0..count {
        names.push(read_name(part, pairs, k)?)?;
    }
    Ok(StreamNames { names })
}

//! The string table, to which other tables refer by offsets.

ghost use Rattle.std.specs.Prelude.{◌≡◌, ◌+◌, ◌≤◌, length};
ghost use Rattle.pdb_base.specs.Refusal.{Answers};
ghost use Rattle.pdb_base.specs.Fields.{cstring_at, number};
ghost use Rattle.pdb_base.specs.StringTable.{names_of};
ghost use Rattle.pdb_base.specs.Text.{name_bytes};

use crate::buffer::ParseBuffer;
use crate::error::{Error, Feature, Result};
use crate::index::StringRef;
use crate::little_endian::u32_at;
use crate::stream::Stream;
use crate::text::RawString;
use std::marker::Model;

/// The names of the stream `/names`: each ends with a zero byte, and is named by its offset among their bytes. A
/// contract sees it as these bytes.
#[derive(Drop)]
pub struct StringTable<'s> {
    stream: Stream<'s>,
    size: u32,
}

impl<'s> Model for StringTable<'s> {
    ghost use Rattle.std.specs.Prelude.{ℕ, ◌+◌, ◌≤◌, List, length, take, drop};

    ghost Value = { List ℕ };

    ghost view = { λ t. take t.size (drop 12 t.stream) };

    ghost invariant = { λ t. 12 + t.size ≤ length t.stream };
}

const SIGNATURE: u32 = 0xeffe_effe;

impl<'s> StringTable<'s> {
    /// Reads the table: three `u32`, which are the signature `0xeffeeffe`, a hash's version, and the size of the
    /// names, and then the names. `UnexpectedEof` below 12 bytes, then `UnimplementedFeature` for another
    /// signature, then `UnexpectedEof` where the names aren't all there.
    #[tactic(auto, unfolding(crate::specs::StringTable::names_of))]
    pub fn parse(stream: Stream<'s>) -> Result<StringTable<'s>>
        ensures { Answers (λ t. t) result (names_of stream.entry) }
    {
        let bytes = stream.as_slice();
        if bytes.len() < 12 {
            return Err(Error::UnexpectedEof);
        }
        if u32_at(bytes, 0) != SIGNATURE {
            return Err(Error::UnimplementedFeature(Feature::StringTable));
        }
        let size = u32_at(bytes, 8);
        if bytes.len() < 12 + size as usize {
            return Err(Error::UnexpectedEof);
        }
        Ok(StringTable { stream, size })
    }

    /// The name at an offset. `UnexpectedEof` at or past the names' size, and where no zero byte follows.
    pub fn get(&self, offset: StringRef) -> Result<RawString<'_>>
        ensures { Answers name_bytes result (cstring_at self.now offset.0) }
    {
        let bytes = self.stream.as_slice();
        let names = &bytes[12..12 + self.size as usize];
        let mut buffer = ParseBuffer::from(names);
        buffer.seek(offset.0 as usize);
        buffer.parse_cstring()
    }
}

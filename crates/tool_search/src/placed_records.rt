//! Records of a place and a name, of which no more is read.

ghost use Rattle.std.specs.Prelude.{◌≡◌};
ghost use Rattle.std.specs.Option.{option_map};
ghost use Rattle.pdb.specs.Text.{name_bytes};
ghost use Rattle.tool_search.specs.PlacedRecords.{placed_at};

use pdb::PdbInternalSectionOffset;
use pdb_base::ParseBuffer;
use pdb_base::little_endian::{u16_at, u32_at};

/// The place at offset 6 of a record's bytes, and the name at offset 12, without the zero byte behind it. None where
/// the record ends before. Records of the kinds 0x110d, 0x110e and 0x1113 have them there, behind the kind and four
/// bytes.
#[inline(always)]
pub fn placed_in(bytes: &[u8]) -> Option<(PdbInternalSectionOffset, &[u8])>
    ensures { option_map (λ s. (s.0, s.1.now)) result ≡ placed_at bytes.entry.now }
{
    if bytes.len() < 12 {
        return None;
    }
    let place = PdbInternalSectionOffset {
        offset: u32_at(bytes, 6),
        section: u16_at(bytes, 10),
    };
    let mut buffer = ParseBuffer::from(bytes);
    buffer.seek(12);
    match buffer.parse_cstring() {
        Ok(name) => Some((place, name.as_bytes())),
        Err(_) => None,
    }
}

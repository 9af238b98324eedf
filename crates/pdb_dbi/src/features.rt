//! What the numbers behind the map of names say.

ghost use Rattle.std.specs.Prelude.{◌≡◌};
ghost use Rattle.pdb_base.specs.Refusal.{Answers};
ghost use Rattle.pdb_dbi.specs.Features.{behind_map, has_id_code, has_ids_of, is_id_code, rest_at};

use crate::names::skip_words;
use pdb_base::little_endian::u32_at;
use pdb_base::part::part_of;
use pdb_base::{ParseBuffer, Result};

/// The formats of Visual Studio 2010 and 2014, from which on stream 4 has ids.
const ID_CODES: [u32; 2] = [20_091_201, 20_140_508];

/// Whether a number names a format with ids.
fn is_id_code(code: u32) -> bool
    ensures { result ≡ is_id_code code }
{
    code == ID_CODES[0] || code == ID_CODES[1]
}

/// Whether one of the numbers, each of four bytes, names a format with ids.
#[tactic(auto, using(crate::proofs::IdCodes::first, crate::proofs::IdCodes::none))]
fn has_id_code(bytes: &[u8]) -> bool
    ensures { result ≡ has_id_code bytes.now }
{
    for code in bytes.chunks_exact(4) {
        if is_id_code(u32_at(code, 0)) {
            return true;
        }
    }
    false
}

/// All that is left of a buffer.
#[tactic(auto, unfolding(crate::specs::Features::rest_at))]
fn rest_of<'b>(buffer: &mut ParseBuffer<'b>) -> Result<&'b [u8]>
    ensures { Answers (λ s. s.now) result (rest_at buffer.old.bytes buffer.old.place) }
{
    let size = buffer.len();
    buffer.take(size)
}

/// What stands behind the map of names at the buffer's offset.
#[tactic(auto, unfolding(crate::specs::Features::behind_map))]
fn behind_map<'b>(map: &mut ParseBuffer<'b>) -> Result<&'b [u8]>
    ensures { Answers (λ s. s.now) result (behind_map map.old.bytes map.old.place) }
{
    let count = map.parse_u32()?;
    let _unused = map.parse_u32()?;
    let _present = skip_words(map)?;
    let _deleted = skip_words(map)?;
    let _pairs = map.take(8 * count as usize)?;
    rest_of(map)
}

/// Whether the numbers behind the map of names, whose part has so many bytes at an offset, name a format with ids.
#[tactic(auto, unfolding(crate::specs::Features::has_ids_of))]
pub(crate) fn has_ids(bytes: &[u8], offset: usize, size: usize) -> Result<bool>
    ensures { Answers (λ b. b) result (has_ids_of bytes.now offset size) }
{
    let _part = part_of(bytes, offset, size)?;
    let mut map = ParseBuffer::from(bytes);
    map.seek(offset + size);
    Ok(has_id_code(behind_map(&mut map)?))
}

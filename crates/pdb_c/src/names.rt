//! The string table.

ghost use Rattle.std.specs.Prelude.{◌≡◌, ◌≤◌, ◌<◌, length, IfOk};
ghost use Rattle.pdb.specs.Refusal.{Answers};
ghost use Rattle.pdb.specs.Fields.{cstring_at};
ghost use Rattle.pdb.specs.Text.{name_bytes};
ghost use Rattle.pdb.specs.StringTable.{names_of};
ghost use Rattle.pdb_c.specs.Boundary.{ToldWithoutMemory};
ghost use Rattle.pdb_c.specs.Numbers.{name_in};

use crate::answers::{DONE, LARGE, code_of};
use pdb::{Error, Feature, ParseBuffer, RawString, Result};
use pdb_base::little_endian::u32_at;
use pdb_base::part::part_of;

/// A name: bytes of the string table's stream.
#[repr(C)]
#[derive(Clone, Copy)]
pub struct PdbName<'a> {
    /// The name, without the zero byte behind it.
    pub bytes: &'a [u8],
}

/// The names of a string table of these bytes.
#[tactic(auto, unfolding(pdb_base::specs::StringTable::names_of))]
fn names_of(bytes: &[u8]) -> Result<&[u8]>
    ensures { Answers (λ s. s.now) result (names_of bytes.entry.now) }
{
    if bytes.len() < 12 {
        return Err(Error::UnexpectedEof);
    }
    if u32_at(bytes, 0) != 0xeffe_effe {
        return Err(Error::UnimplementedFeature(Feature::StringTable));
    }
    let size = u32_at(bytes, 8) as usize;
    if bytes.len() - 12 < size {
        return Err(Error::UnexpectedEof);
    }
    Ok(&bytes[12..12 + size])
}

/// The name at an offset among names.
fn name_among(names: &[u8], place: u32) -> Result<RawString<'_>>
    ensures { Answers name_bytes result (cstring_at names.entry.now place) }
{
    let mut buffer = ParseBuffer::from(names);
    buffer.seek(place as usize);
    buffer.parse_cstring()
}

/// The name at an offset of a string table of these bytes.
#[tactic(auto, unfolding(crate::specs::Numbers::name_in))]
fn name_at(bytes: &[u8], place: u32) -> Result<RawString<'_>>
    ensures { Answers name_bytes result (name_in bytes.entry.now place) }
{
    name_among(names_of(bytes)?, place)
}

/// The name at an offset of the string table, which is the stream `/names`. Where it fails, `out` stays as it was.
#[unsafe(no_mangle)]
pub extern "C" fn pdb_name<'a>(names: &'a [u8], place: u32, out: &mut PdbName<'a>) -> u32
    ensures { ToldWithoutMemory result out.old.bytes.now out.new.bytes.now (name_in names.now place) }
{
    match name_at(names, place) {
        Ok(name) => {
            *out = PdbName {
                bytes: name.as_bytes(),
            };
            DONE
        }
        Err(e) => code_of(e),
    }
}

//! The information stream: which file it is.

ghost use Rattle.std.specs.Prelude.{◌≡◌, ◌≤◌, length, IfErr};
ghost use Rattle.pdb_base.specs.declared.error.Error.TheVariants.{UnexpectedEof};
ghost use Rattle.pdb_base.specs.Refusal.{Answers, Gives};
ghost use Rattle.pdb_dbi.specs.Information.{information_fields, guid_of, information_of};
ghost use Rattle.pdb_dbi.specs.Names.{names_of};
ghost use Rattle.pdb_dbi.specs.Features.{has_ids_of};
ghost use Rattle.pdb_dbi.specs.DbiViews.{information};

use crate::features::has_ids;
use crate::header::HeaderVersion;
use crate::names::{StreamNames, read_names};
use pdb_base::little_endian::u32_at;
use pdb_base::{Error, Result, Stream};
use std::alloc::Global;

/// The information stream, stream 1: the numbers by which a file is matched with its image, and the names of streams.
/// In the container's description it is the PDB info stream.
#[derive(Drop)]
pub struct PDBInformation<'s> {
    /// The version of the stream's format.
    pub version: HeaderVersion,
    /// When the file was made, in seconds since 1970, or another number that distinguishes it from others.
    pub signature: u32,
    /// How often the file was written. The image has the age of the DBI stream, not this one.
    pub age: u32,
    /// The number that is the file's alone: the first three fields greatest byte first, and then its last eight bytes.
    pub guid: [u8; 16],
    /// Where the names' part begins in the stream, in bytes: 32, until the caller sets it.
    pub names_offset: usize,
    /// The size of the names' part, in bytes, as the stream has it, until the caller sets it.
    pub names_size: usize,
    stream: Stream<'s>,
}

/// The size of the fields before the names' part.
const NAMES_OFFSET: usize = 32;

/// The number whose first three fields stand least byte first at offset 12.
fn guid(bytes: &[u8]) -> [u8; 16]
    requires { 32 ≤ length bytes.now }
    ensures { result ≡ guid_of bytes.now }
{
    [
        bytes[15], bytes[14], bytes[13], bytes[12], bytes[17], bytes[16], bytes[19], bytes[18],
        bytes[20], bytes[21], bytes[22], bytes[23], bytes[24], bytes[25], bytes[26], bytes[27],
    ]
}

impl<'s> PDBInformation<'s> {
    /// Reads the first 32 bytes of the information stream, and keeps the stream: `u32` version, signature and age, the
    /// GUID as a `u32`, two `u16` and eight bytes, and `u32` size of the names' part. `UnexpectedEof` below 32 bytes.
    #[tactic(auto, unfolding(crate::specs::Information::information_of, crate::specs::Information::information_fields))]
    pub fn parse(stream: Stream<'s>) -> Result<Self>
        ensures fields { Answers information result (information_of stream.entry) }
        ensures refused { IfErr result (λ e. e ≡ UnexpectedEof) }
    {
        let bytes = stream.as_slice();
        if bytes.len() < NAMES_OFFSET {
            return Err(Error::UnexpectedEof);
        }
        Ok(PDBInformation {
            version: HeaderVersion::from(u32_at(bytes, 0)),
            signature: u32_at(bytes, 4),
            age: u32_at(bytes, 8),
            guid: guid(bytes),
            names_offset: NAMES_OFFSET,
            names_size: u32_at(bytes, 28) as usize,
            stream,
        })
    }

    /// The names of streams, by the fields as they are now: the names' part is `names_size` bytes at `names_offset`.
    /// Behind it stand a `u32` count, a `u32` that isn't used, twice a `u32` and that many more, and then the count's
    /// pairs, each a `u32` offset in the part and a `u32` stream, of which the low 16 bits count. `UnexpectedEof` where
    /// any of it, or the zero byte that ends a name, isn't there: then there is no list. It takes memory for the list,
    /// once all pairs are known to be there.
    pub fn stream_names(&self, alloc: Global) -> Result<StreamNames<'_>>
        ensures names { Gives (λ n. n) ⊥ result (names_of (information self.now).bytes self.now.names_offset self.now.names_size) }
    {
        read_names(
            alloc,
            self.stream.as_slice(),
            self.names_offset,
            self.names_size,
        )
    }

    /// Whether stream 4 has ids, by the fields as they are now: one of the numbers 20091201 and 20140508 is among the
    /// `u32` behind the map of names, as many as are whole. In the container's description they are the features.
    /// `UnexpectedEof` where the names' part or the map isn't all there.
    pub fn has_ids(&self) -> Result<bool>
        ensures ids { Answers (λ b. b) result (has_ids_of (information self.now).bytes self.now.names_offset self.now.names_size) }
    {
        has_ids(self.stream.as_slice(), self.names_offset, self.names_size)
    }
}

//! The numbers of further streams.

ghost use Rattle.std.specs.Prelude.{◌≡◌, ◌-◌, ◌<◌, length, drop};
ghost use Rattle.pdb_base.specs.Cursor.{Reads};
ghost use Rattle.pdb_base.specs.Refusal.{Answers};
ghost use Rattle.pdb_dbi.specs.ExtraStreams.{extra_streams_in, extra_streams_of, extra_streams_fields, stream_at};

use crate::debug_information::DebugInformation;
use pdb_base::little_endian::u16_at;
use pdb_base::{Error, ParseBuffer, Part, Result, StreamIndex};

/// The streams with tables of other kinds, by their indices: `dbi.h`'s `DbgDataHdr`. A table that the file hasn't got
/// has the index of no stream.
#[derive(Clone, Copy, Debug)]
pub struct DBIExtraStreams {
    /// Frame data of the older form (`FPO_DATA`).
    pub fpo: StreamIndex,
    /// Exception data.
    pub exception: StreamIndex,
    /// Fixups.
    pub fixup: StreamIndex,
    /// The address map from the image's addresses to the source's.
    pub omap_to_src: StreamIndex,
    /// The address map from the source's addresses to the image's.
    pub omap_from_src: StreamIndex,
    /// The section headers of the image.
    pub section_headers: StreamIndex,
    /// The map from tokens to records.
    pub token_rid_map: StreamIndex,
    /// Unwinding data (`.xdata`).
    pub xdata: StreamIndex,
    /// Function tables (`.pdata`).
    pub pdata: StreamIndex,
    /// Frame data of the newer form (`FRAMEDATA`).
    pub framedata: StreamIndex,
    /// The section headers of the image before it was rearranged.
    pub original_section_headers: StreamIndex,
}

/// The index with this number in a part, counted from 0; that of no stream where the part is too short.
fn index_at(part: &[u8], i: usize) -> StreamIndex
    requires { i < 11 }
    ensures { result ≡ stream_at part.now i }
{
    if part.len() < 2 * i + 2 {
        return StreamIndex::none();
    }
    StreamIndex(u16_at(part, 2 * i))
}

/// The indices of a part.
#[tactic(auto, unfolding(crate::specs::ExtraStreams::extra_streams_fields))]
fn indices(part: &[u8]) -> DBIExtraStreams
    ensures { result ≡ extra_streams_fields part.now }
{
    DBIExtraStreams {
        fpo: index_at(part, 0),
        exception: index_at(part, 1),
        fixup: index_at(part, 2),
        omap_to_src: index_at(part, 3),
        omap_from_src: index_at(part, 4),
        section_headers: index_at(part, 5),
        token_rid_map: index_at(part, 6),
        xdata: index_at(part, 7),
        pdata: index_at(part, 8),
        framedata: index_at(part, 9),
        original_section_headers: index_at(part, 10),
    }
}

impl DBIExtraStreams {
    /// The further streams of a DBI stream. Their part stands at 64 plus the sizes of the six parts before it, and has
    /// `debug_header_size` bytes: `UnexpectedEof` where these aren't there, and then as `parse`.
    #[tactic(auto, unfolding(crate::specs::ExtraStreams::extra_streams_in))]
    pub fn new(information: &DebugInformation<'_>) -> Result<Self>
        ensures { Answers (λ x. x) result (extra_streams_in information.now) }
    {
        let part = information.extra_streams_part()?;
        DBIExtraStreams::parse(&mut ParseBuffer::from(part))
    }

    /// Reads all that the buffer has left: numbers of two bytes each, of which those behind the eleventh are passed
    /// over. `InvalidStreamLength` for an odd number of bytes.
    #[tactic(auto, using(crate::proofs::Rests::rest_at, crate::proofs::Rests::rest_length), unfolding(crate::specs::ExtraStreams::extra_streams_of))]
    pub fn parse(buffer: &mut ParseBuffer<'_>) -> Result<Self>
        ensures { Reads (λ x. x) buffer.old buffer.new result (extra_streams_of (drop buffer.old.place buffer.old.bytes)) (λ _. length buffer.old.bytes - buffer.old.place) }
    {
        let size = buffer.len();
        if size % 2 != 0 {
            return Err(Error::InvalidStreamLength(Part::DebugHeader));
        }
        let part = buffer.take(size)?;
        Ok(indices(part))
    }
}

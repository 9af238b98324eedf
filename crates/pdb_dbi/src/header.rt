//! The header of the DBI stream.

ghost use Rattle.std.specs.Prelude.{◌≡◌, ◌≤◌, length};
ghost use Rattle.pdb_base.specs.Refusal.{Answers};
ghost use Rattle.pdb_dbi.specs.Header.{version_of, header_of, header_fields};

use pdb_base::little_endian::{u16_at, u32_at};
use pdb_base::{Error, Feature, Result, Stream, StreamIndex};

/// The version of a stream's format, which its makers number by dates.
#[derive(Clone, Copy, Debug)]
pub enum HeaderVersion {
    /// 930803.
    V41,
    /// 19960307.
    V50,
    /// 19970606.
    V60,
    /// 19990903.
    V70,
    /// 20091201.
    V110,
    /// Any other number.
    OtherValue(u32),
}

impl From<u32> for HeaderVersion {
    ghost from_gives = { λ n version. version ≡ version_of n };

    fn from(n: u32) -> Self {
        match n {
            930803 => HeaderVersion::V41,
            19960307 => HeaderVersion::V50,
            19970606 => HeaderVersion::V60,
            19990903 => HeaderVersion::V70,
            20091201 => HeaderVersion::V110,
            _ => HeaderVersion::OtherValue(n),
        }
    }
}

/// The header of the DBI stream, 64 bytes in the order of its fields: `dbi.h`'s `NewDBIHdr`. Sizes are in bytes.
#[derive(Clone, Copy, Debug)]
pub struct DBIHeader {
    /// `0xffffffff`.
    pub signature: u32,
    /// The version of the stream's format.
    pub version: HeaderVersion,
    /// How often the file was written.
    pub age: u32,
    /// The stream of the index of global symbols.
    pub gs_symbols_stream: StreamIndex,
    /// The version of the tool that wrote the file.
    pub internal_version: u16,
    /// The stream of the index of public symbols.
    pub ps_symbols_stream: StreamIndex,
    /// The build of the library that wrote the file last.
    pub pdb_dll_build_version: u16,
    /// The stream of the global symbols' records.
    pub symbol_records_stream: StreamIndex,
    /// The rebuild of the library that wrote the file last.
    pub pdb_dll_rbld_version: u16,
    /// The size of the module list.
    pub module_list_size: u32,
    /// The size of the section contributions.
    pub section_contribution_size: u32,
    /// The size of the section map.
    pub section_map_size: u32,
    /// The size of the modules' source files.
    pub file_info_size: u32,
    /// The size of the type servers' map.
    pub type_server_map_size: u32,
    /// The index of the type server for MFC, which is no size.
    pub mfc_type_server_index: u32,
    /// The size of the numbers of further streams.
    pub debug_header_size: u32,
    /// The size of the edit-and-continue part.
    pub ec_substream_size: u32,
    /// Flags of the link.
    pub flags: u16,
    /// The number of the machine.
    pub machine_type: u16,
    /// Not used.
    pub reserved: u32,
}

/// The header's size.
const HEADER_SIZE: usize = 64;

const SIGNATURE: u32 = 0xffff_ffff;

/// The fields of the first 64 bytes.
#[tactic(auto, unfolding(crate::specs::Header::header_fields))]
fn fields(bytes: &[u8]) -> DBIHeader
    requires { 64 ≤ length bytes.now }
    ensures { result ≡ header_fields bytes.now }
{
    DBIHeader {
        signature: u32_at(bytes, 0),
        version: HeaderVersion::from(u32_at(bytes, 4)),
        age: u32_at(bytes, 8),
        gs_symbols_stream: StreamIndex(u16_at(bytes, 12)),
        internal_version: u16_at(bytes, 14),
        ps_symbols_stream: StreamIndex(u16_at(bytes, 16)),
        pdb_dll_build_version: u16_at(bytes, 18),
        symbol_records_stream: StreamIndex(u16_at(bytes, 20)),
        pdb_dll_rbld_version: u16_at(bytes, 22),
        module_list_size: u32_at(bytes, 24),
        section_contribution_size: u32_at(bytes, 28),
        section_map_size: u32_at(bytes, 32),
        file_info_size: u32_at(bytes, 36),
        type_server_map_size: u32_at(bytes, 40),
        mfc_type_server_index: u32_at(bytes, 44),
        debug_header_size: u32_at(bytes, 48),
        ec_substream_size: u32_at(bytes, 52),
        flags: u16_at(bytes, 56),
        machine_type: u16_at(bytes, 58),
        reserved: u32_at(bytes, 60),
    }
}

/// The header at the start of the bytes.
#[tactic(auto, unfolding(crate::specs::Header::header_of, crate::specs::Header::header_fields))]
pub(crate) fn parse_header(bytes: &[u8]) -> Result<DBIHeader>
    ensures header { Answers (λ h. h) result (header_of bytes.now) }
{
    if bytes.len() < HEADER_SIZE {
        return Err(Error::UnexpectedEof);
    }
    let header = fields(bytes);
    if header.signature != SIGNATURE {
        return Err(Error::UnimplementedFeature(Feature::AncientDbiHeader));
    }
    Ok(header)
}

impl DBIHeader {
    /// Reads the header at the start of the DBI stream: `UnexpectedEof` below 64 bytes, and then
    /// `UnimplementedFeature` for a signature other than `0xffffffff`.
    pub fn parse(stream: Stream<'_>) -> Result<DBIHeader>
        ensures { Answers (λ h. h) result (header_of stream.entry) }
    {
        parse_header(stream.as_slice())
    }
}

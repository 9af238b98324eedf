//! The header of a section of the image, as in the PE format.

ghost use Rattle.std.specs.Prelude.{◌≡◌, ◌≤◌, length, take};
ghost use Rattle.pdb_base.specs.Cursor.{Reads};
ghost use Rattle.pdb_base.specs.SectionHeader.{header_at, header_of, name_of};

use crate::buffer::ParseBuffer;
use crate::error::Result;
use crate::index::SectionCharacteristics;
use crate::little_endian::{u16_at, u32_at};
use crate::zeros::first_zero;

/// The header of a section of the image: the PE format's `IMAGE_SECTION_HEADER`, 40 bytes in the order of its fields.
#[derive(Clone, Copy, Debug)]
pub struct ImageSectionHeader {
    /// The section's name, with zero bytes behind it where it is shorter.
    pub name: [u8; 8],
    /// The size in memory, in bytes.
    pub virtual_size: u32,
    /// The address of the first byte in memory, counted from the image's base.
    pub virtual_address: u32,
    /// The size in the image's file, in bytes.
    pub size_of_raw_data: u32,
    /// Where the section's bytes stand in the image's file.
    pub pointer_to_raw_data: u32,
    /// Where its relocations stand in the image's file.
    pub pointer_to_relocations: u32,
    /// Where its line numbers stand in the image's file.
    pub pointer_to_line_numbers: u32,
    /// How many relocations it has.
    pub number_of_relocations: u16,
    /// How many line numbers it has.
    pub number_of_line_numbers: u16,
    /// Its characteristics.
    pub characteristics: SectionCharacteristics,
}

/// The first eight bytes.
fn name_field(header: &[u8]) -> [u8; 8]
    requires { 8 ≤ length header.now }
    ensures { result ≡ take 8 header.now }
{
    [
        header[0], header[1], header[2], header[3], header[4], header[5], header[6], header[7],
    ]
}

/// The header of these 40 bytes.
fn header_fields(header: &[u8]) -> ImageSectionHeader
    requires { 40 ≤ length header.now }
    ensures { result ≡ header_of header.now }
{
    ImageSectionHeader {
        name: name_field(header),
        virtual_size: u32_at(header, 8),
        virtual_address: u32_at(header, 12),
        size_of_raw_data: u32_at(header, 16),
        pointer_to_raw_data: u32_at(header, 20),
        pointer_to_relocations: u32_at(header, 24),
        pointer_to_line_numbers: u32_at(header, 28),
        number_of_relocations: u16_at(header, 32),
        number_of_line_numbers: u16_at(header, 34),
        characteristics: SectionCharacteristics(u32_at(header, 36)),
    }
}

impl ImageSectionHeader {
    /// Reads the 40 bytes of a header; `UnexpectedEof` where they aren't all there.
    #[tactic(auto, unfolding(crate::specs::SectionHeader::header_at, crate::specs::Fields::bytes_at))]
    pub fn parse(buffer: &mut ParseBuffer<'_>) -> Result<ImageSectionHeader>
        ensures { Reads (λ h. h) buffer.old buffer.new result (header_at buffer.old.bytes buffer.old.place) (λ _. 40) }
    {
        let header = buffer.take(40)?;
        Ok(header_fields(header))
    }

    /// The bytes of the section's name before the first zero byte, or all eight.
    pub fn name(&self) -> &[u8]
        ensures { result.now ≡ name_of self.now }
    {
        let end = first_zero(&self.name).unwrap_or(8);
        &self.name[..end]
    }
}

//! The section headers of the image, as the file has them.

ghost use Rattle.std.specs.Prelude.{◌≡◌, map, Some, None, Ok, Err};
ghost use Rattle.std.specs.Option.{option_map};
ghost use Rattle.pdb.specs.Refusal.{Gives};
ghost use Rattle.pdb_c.specs.Rooms.{over};
ghost use Rattle.pdb_c.specs.Lists.{IsListed, whole_list};
ghost use Rattle.pdb_c.specs.SectionRows.{section_row, headers_of_file, SectionsTold};

use crate::answers::{SECTIONS_NOT_FOUND, code_of, list_code};
use crate::rooms::put_row;
use pdb::{ImageSectionHeader, MemorySource, PDB, Result};
use std::alloc::Global;

/// A section header, as in the PE format.
#[repr(C)]
#[derive(Clone, Copy)]
pub struct PdbSection {
    /// The name, with zero bytes behind it where it is shorter.
    pub name: [u8; 8],
    /// How many of these bytes stand before the first zero byte.
    pub name_size: u32,
    /// The size in memory, in bytes.
    pub virtual_size: u32,
    /// The address of the first byte in memory, relative to the load address.
    pub virtual_address: u32,
    /// The size in the image's file, in bytes.
    pub size_of_raw_data: u32,
    /// The offset of its bytes in the image's file.
    pub pointer_to_raw_data: u32,
    /// The offset of its relocations in the image's file.
    pub pointer_to_relocations: u32,
    /// The offset of its line numbers in the image's file.
    pub pointer_to_line_numbers: u32,
    /// How many relocations it has.
    pub number_of_relocations: u16,
    /// How many line numbers it has.
    pub number_of_line_numbers: u16,
    /// Its characteristics.
    pub characteristics: u32,
}

fn shown(header: &ImageSectionHeader) -> PdbSection
    ensures { result ≡ section_row header.now }
{
    PdbSection {
        name: header.name,
        name_size: header.name().len() as u32,
        virtual_size: header.virtual_size,
        virtual_address: header.virtual_address,
        size_of_raw_data: header.size_of_raw_data,
        pointer_to_raw_data: header.pointer_to_raw_data,
        pointer_to_relocations: header.pointer_to_relocations,
        pointer_to_line_numbers: header.pointer_to_line_numbers,
        number_of_relocations: header.number_of_relocations,
        number_of_line_numbers: header.number_of_line_numbers,
        characteristics: header.characteristics.0,
    }
}

/// Puts section headers.
fn put_headers(headers: &[ImageSectionHeader], records: &mut [PdbSection])
    ensures { records.new ≡ over (map section_row headers.now) records.old }
{
    for (place, header) in headers.iter().enumerate() {
        put_row(records, place, shown(header));
    }
}

/// Puts section headers, and counts them.
#[tactic(auto, using(crate::proofs::ListSteps::rows_whole))]
fn fill(headers: &[ImageSectionHeader], records: &mut [PdbSection], count: &mut usize) -> u32
    ensures { IsListed (λ r. r) section_row result records.old records.new count.new (whole_list headers.now) }
{
    put_headers(headers, records);
    *count = headers.len();
    list_code(records.len(), headers.len(), None)
}

/// The section headers of a file; none where it has no stream of them.
#[tactic(auto, unfolding(crate::specs::SectionRows::headers_of_file))]
fn headers_of(alloc: Global, file: &[u8]) -> Result<Option<Vec<ImageSectionHeader>>>
    ensures { Gives (option_map (λ v. v.items)) ⊥ result (headers_of_file file.now) }
{
    let mut pdb = PDB::open(alloc, MemorySource::new(file))?;
    pdb.sections()
}

/// The section headers that a file has of its image: as many as the buffer has rows, and how many there are. 33 where
/// the file has no stream of them. The file is opened.
#[tactic(auto, using(crate::proofs::Codes::obtained, crate::proofs::Codes::refused))]
#[unsafe(no_mangle)]
pub extern "C" fn pdb_sections(
    alloc: Global,
    file: &[u8],
    records: &mut [PdbSection],
    count: &mut usize,
) -> u32
    ensures { SectionsTold result records.old records.new count.new (headers_of_file file.now) }
{
    *count = 0;
    match headers_of(alloc, file) {
        Ok(Some(headers)) => fill(headers.as_slice(), records, count),
        Ok(None) => SECTIONS_NOT_FOUND,
        Err(e) => code_of(e),
    }
}

//! What an image says.

ghost use Rattle.std.specs.Prelude.{◌≡◌, ◌+◌, ◌^◌, ◌≤◌, ◌<◌, length};
ghost use Rattle.pdb_image.specs.Parts.{Answers};
ghost use Rattle.pdb_image.specs.Images.{image_of, pdb_of as pdb_there, reference, said};
ghost use Rattle.std.specs.Option.{option_map};

use crate::debug::{debug_directory, find_record};
use crate::error::Result;
use crate::header::{OptionalHeader, file_header, optional_header_at};
use crate::record::{PdbReference, parse_record};

/// What an image says of itself and of its PDB file.
#[derive(Clone, Copy, Debug, PartialEq, Eq)]
pub struct Image<'a> {
    /// The number of the machine that the image is for, as 0x8664 for x64.
    pub machine: u16,
    /// The address at which the image wants to be loaded.
    pub base: u64,
    /// The time stamp, the first part of the key by which a symbol server files the image.
    pub time_stamp: u32,
    /// The size of the image in memory, in bytes: the second part of that key.
    pub size: u32,
    /// The PDB file that the image names, where it names one.
    pub pdb: Option<PdbReference<'a>>,
}

/// The PDB file that an image of these headers names.
#[tactic(auto, unfolding(crate::specs::Images::pdb_of))]
fn pdb_of(bytes: &[u8], sections: u16, header: OptionalHeader) -> Result<Option<PdbReference<'_>>>
    requires there { header.at + header.size ≤ length bytes.now }
    requires small { (header.at < 2 ^ 33) × (header.size < 2 ^ 16) × (header.fixed ≤ 112) }
    ensures { Answers (option_map reference) result (pdb_there bytes.now sections header) }
{
    let directory = debug_directory(bytes, header);
    let Some(record) = find_record(bytes, header.at + header.size, sections, directory)? else {
        return Ok(None);
    };
    let reference = parse_record(record)?;
    Ok(Some(reference))
}

impl Image<'_> {
    /// Reads what an image says. Its first error, in the order of the format's parts: `NotAnImage`, `UnexpectedEof`
    /// where bytes aren't there, `NoSignature`, `UnknownOptionalHeader`, `Nb10` and `UnknownCodeView`. It allocates
    /// nothing.
    #[tactic(auto, unfolding(crate::specs::Images::image_of))]
    pub fn parse(bytes: &[u8]) -> Result<Image<'_>>
        ensures { Answers said result (image_of bytes.now) }
    {
        let file = file_header(bytes)?;
        let size = usize::from(file.optional_size);
        let optional = optional_header_at(bytes, file.at + 24, size)?;
        let pdb = pdb_of(bytes, file.sections, optional)?;
        Ok(Image {
            machine: file.machine,
            base: optional.base,
            time_stamp: file.time_stamp,
            size: optional.size_of_image,
            pdb,
        })
    }
}

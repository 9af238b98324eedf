//! The section headers of an image.

ghost use Rattle.pdb_base.specs.Refusal.{Gives};
ghost use Rattle.pdb_base.specs.SectionHeader.{headers_of};

use pdb_base::{ImageSectionHeader, ParseBuffer, Result};
use std::alloc::Global;

/// The section headers that these bytes are, one after another; `UnexpectedEof` where the last one is cut.
pub(crate) fn section_headers(alloc: Global, bytes: &[u8]) -> Result<Vec<ImageSectionHeader>>
    ensures { Gives (λ v. v.items) ⊥ result (headers_of bytes.now) }
{
    let mut buffer = ParseBuffer::from(bytes);
    let mut headers = Vec::new(alloc);
    while !buffer.is_empty() {
        let header = ImageSectionHeader::parse(&mut buffer)?;
        headers.push(header)?;
    }
    Ok(headers)
}

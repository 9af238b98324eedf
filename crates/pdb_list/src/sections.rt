//! The lines of section headers.

ghost use Rattle.std.specs.Prelude.{◌≡◌, ◌++◌, true, OnOk, codes, flat_map};
ghost use Rattle.pdb.specs.Source.{Continues};
ghost use Rattle.pdb_list.specs.Unfailed.{Unfailed};
ghost use Rattle.pdb_list.specs.Texts.{section_text, sections_text};

use crate::text::{put_none, put_refusal};
use pdb::{ImageSectionHeader, PDB, Source};
use pdb_text::{hex8, hex8_field, put_line_end};
use std::alloc::AllocError;

/// The line of a section header: its size and address in memory, its size and offset in the image's file, its
/// characteristics, and its name.
#[tactic(auto, unfolding(crate::specs::Texts::section_text))]
fn put_section(out: &mut Vec<u8>, header: &ImageSectionHeader) -> Result<(), AllocError>
    ensures { OnOk result (out.new.items ≡ out.old.items ++ section_text header.now) }
{
    out.extend_from_slice(b"section ")?;
    out.extend_from_slice(&hex8(header.virtual_size))?;
    out.extend_from_slice(&hex8_field(header.virtual_address))?;
    out.extend_from_slice(&hex8_field(header.size_of_raw_data))?;
    out.extend_from_slice(&hex8_field(header.pointer_to_raw_data))?;
    out.extend_from_slice(&hex8_field(header.characteristics.0))?;
    out.push(b' ')?;
    out.extend_from_slice(header.name())?;
    put_line_end(out)
}

/// The lines of section headers.
fn put_list(out: &mut Vec<u8>, headers: &[ImageSectionHeader]) -> Result<(), AllocError>
    ensures { OnOk result (out.new.items ≡ out.old.items ++ flat_map section_text headers.now) }
{
    for header in headers {
        put_section(out, header)?;
    }
    Ok(())
}

/// The lines of the section headers, or `none`, or the line of their error.
#[tactic(auto, unfolding(crate::specs::Texts::sections_text))]
pub fn put_sections<'s, S: Source<'s>>(
    out: &mut Vec<u8>,
    pdb: &mut PDB<'s, S>,
) -> Result<(), AllocError>
    ensures continues { Continues pdb.old pdb.new }
    ensures text { pdb.new.told ≡ true → Unfailed pdb.old pdb.new → OnOk result (out.new.items ≡ out.old.items ++ sections_text pdb.old.file) }
{
    match pdb.sections() {
        Ok(Some(headers)) => put_list(out, &headers),
        Ok(None) => put_none(out),
        Err(e) => put_refusal(out, e),
    }
}

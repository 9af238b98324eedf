//! The lines of the information stream and of the DBI stream's header.

ghost use Rattle.std.specs.Prelude.{◌≡◌, ◌++◌, true, OnOk, codes};
ghost use Rattle.pdb.specs.Source.{Continues};
ghost use Rattle.pdb.specs.DbiViews.{information};
ghost use Rattle.pdb_list.specs.Unfailed.{Unfailed};
ghost use Rattle.pdb_list.specs.Texts.{debug_information_text, header_text, info_text, information_text, version_text};

use crate::text::{put_optional, put_refusal};
use pdb::{DBIHeader, DebugInformation, HeaderVersion, MachineType, PDB, PDBInformation, Source};
use pdb_text::{put_decimal, put_hex_bytes, put_line_end};
use std::alloc::{AllocError, Global};

/// `V41`, and so on; or the number of another version.
fn put_version(out: &mut Vec<u8>, version: HeaderVersion) -> Result<(), AllocError>
    ensures { OnOk result (out.new.items ≡ out.old.items ++ version_text version) }
{
    match version {
        HeaderVersion::V41 => out.extend_from_slice(b"V41"),
        HeaderVersion::V50 => out.extend_from_slice(b"V50"),
        HeaderVersion::V60 => out.extend_from_slice(b"V60"),
        HeaderVersion::V70 => out.extend_from_slice(b"V70"),
        HeaderVersion::V110 => out.extend_from_slice(b"V110"),
        HeaderVersion::OtherValue(number) => put_decimal(out, u64::from(number)),
    }
}

/// The line of the information stream.
#[tactic(auto, unfolding(crate::specs::Texts::information_text))]
fn put_information(out: &mut Vec<u8>, stream: &PDBInformation<'_>) -> Result<(), AllocError>
    ensures { OnOk result (out.new.items ≡ out.old.items ++ information_text (information stream.now)) }
{
    out.extend_from_slice(b"info ")?;
    put_version(out, stream.version)?;
    out.push(b' ')?;
    put_decimal(out, u64::from(stream.signature))?;
    out.push(b' ')?;
    put_decimal(out, u64::from(stream.age))?;
    out.push(b' ')?;
    put_hex_bytes(out, &stream.guid)?;
    put_line_end(out)
}

/// The line of a DBI stream.
#[tactic(auto, unfolding(crate::specs::Texts::header_text))]
fn put_debug_information(
    alloc: Global,
    out: &mut Vec<u8>,
    stream: &DebugInformation<'_>,
) -> Result<(), AllocError>
    ensures { OnOk result (out.new.items ≡ out.old.items ++ debug_information_text stream.now) }
{
    let header = stream.header();
    let machine = MachineType::from(header.machine_type).to_string(alloc)?;
    out.extend_from_slice(b"dbi ")?;
    put_optional(out, stream.age())?;
    out.push(b' ')?;
    out.extend_from_slice(machine.as_bytes())?;
    put_line_end(out)
}

/// Both lines, or the line of the error of the one or of the other.
#[tactic(auto, unfolding(crate::specs::Texts::info_text))]
pub fn put_info<'s, S: Source<'s>>(
    alloc: Global,
    out: &mut Vec<u8>,
    pdb: &mut PDB<'s, S>,
) -> Result<(), AllocError>
    ensures continues { Continues pdb.old pdb.new }
    ensures text { pdb.new.told ≡ true → Unfailed pdb.old pdb.new → OnOk result (out.new.items ≡ out.old.items ++ info_text pdb.old.file) }
{
    match pdb.pdb_information() {
        Ok(stream) => put_information(out, &stream)?,
        Err(e) => return put_refusal(out, e),
    }
    match pdb.debug_information() {
        Ok(stream) => put_debug_information(alloc, out, &stream),
        Err(e) => put_refusal(out, e),
    }
}

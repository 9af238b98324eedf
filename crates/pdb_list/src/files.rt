//! The lines of files and of their checksums.

ghost use Rattle.std.specs.Prelude.{◌≡◌, ◌++◌, OnOk, codes};
ghost use Rattle.pdb.specs.ModuleViews.{files_left};
ghost use Rattle.pdb.specs.FileViews.{shown_checksum, shown_file};
ghost use Rattle.pdb_list.specs.ModuleTexts.{checksum_text, digest_text, file_list_text, file_text, files_of_text};

use crate::text::{put_error, put_refusal};
use pdb::{FallibleIterator, FileChecksum, FileInfo, FileIterator, ModuleInfo};
use pdb_text::{put_decimal, put_hex_bytes, put_line_end};
use std::alloc::AllocError;

/// The bytes of a digest in hex digits, behind a space where there are any.
fn put_digest(out: &mut Vec<u8>, digest: &[u8]) -> Result<(), AllocError>
    ensures { OnOk result (out.new.items ≡ out.old.items ++ digest_text digest.now) }
{
    if digest.is_empty() {
        return Ok(());
    }
    out.push(b' ')?;
    put_hex_bytes(out, digest)
}

/// A digest's kind and bytes.
fn put_checksum(out: &mut Vec<u8>, checksum: &FileChecksum<'_>) -> Result<(), AllocError>
    ensures { OnOk result (out.new.items ≡ out.old.items ++ checksum_text (shown_checksum checksum.now)) }
{
    match checksum {
        FileChecksum::None => out.extend_from_slice(b"none"),
        FileChecksum::Md5(digest) => {
            out.extend_from_slice(b"md5")?;
            put_digest(out, digest)
        }
        FileChecksum::Sha1(digest) => {
            out.extend_from_slice(b"sha1")?;
            put_digest(out, digest)
        }
        FileChecksum::Sha256(digest) => {
            out.extend_from_slice(b"sha256")?;
            put_digest(out, digest)
        }
    }
}

/// The line of a file.
#[tactic(auto, unfolding(crate::specs::ModuleTexts::file_text))]
fn put_file(out: &mut Vec<u8>, file: &FileInfo<'_>) -> Result<(), AllocError>
    ensures { OnOk result (out.new.items ≡ out.old.items ++ file_text (shown_file file.now)) }
{
    out.extend_from_slice(b"file ")?;
    put_decimal(out, u64::from(file.name.0))?;
    out.push(b' ')?;
    put_checksum(out, &file.checksum)?;
    put_line_end(out)
}

/// The lines of the files that an iterator has left, and then that of its fault.
fn put_list(out: &mut Vec<u8>, mut files: FileIterator<'_>) -> Result<(), AllocError>
    ensures { OnOk result (out.new.items ≡ out.old.items ++ file_list_text (files_left files.entry)) }
{
    loop {
        match files.next() {
            Ok(Some(file)) => put_file(out, &file)?,
            Ok(None) => return Ok(()),
            Err(e) => return put_error(out, e.number()),
        }
    }
}

/// The lines of a module's files, or of the error of its line program.
#[tactic(auto, using(crate::proofs::FilesTold::files_told))]
pub fn put_files(out: &mut Vec<u8>, info: &ModuleInfo<'_>) -> Result<(), AllocError>
    ensures { OnOk result (out.new.items ≡ out.old.items ++ files_of_text info.now) }
{
    match info.files() {
        Ok(files) => put_list(out, files),
        Err(e) => put_refusal(out, e),
    }
}

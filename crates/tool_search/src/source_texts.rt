//! The text of `sources`.

ghost use Rattle.std.specs.Prelude.{◌≡◌, ◌++◌, OnOk, codes, flat_map, option_copied};
ghost use Rattle.std.specs.Option.{option_map};
ghost use Rattle.pdb.specs.FileViews.{shown_checksum, shown_file};
ghost use Rattle.pdb.specs.ModuleViews.{files_left};
ghost use Rattle.pdb.specs.Text.{name_bytes};
ghost use Rattle.pdb_resolve.specs.Frames.{file_text, string_in};
ghost use Rattle.tool_search.specs.SourceTexts.{checksum_text, digest_text, source_in, source_line, source_lines, source_value, sources_text};
ghost use Rattle.tool_output.specs.Objects.{json_line};

use crate::source_objects::put_source_object;
use pdb::{
    FallibleIterator, FileChecksum, FileInfo, FileIterator, ModuleInfo, RawString, StringRef,
    StringTable,
};
use pdb_text::{put_hex_bytes, put_line_end};
use std::alloc::AllocError;
use tool_arguments::options::OutputFormat;
use tool_output::module_errors::{put_error_of, put_refusal_of};

/// The kind of a checksum, and a digest in hex digits, or `-` where it is empty.
fn put_digest(out: &mut Vec<u8>, kind: &[u8], digest: &[u8]) -> Result<(), AllocError>
    ensures { OnOk result (out.new.items ≡ out.old.items ++ (kind.now ++ digest_text digest.now)) }
{
    out.extend_from_slice(kind)?;
    if digest.is_empty() {
        return out.extend_from_slice(b"-");
    }
    put_hex_bytes(out, digest)
}

/// A checksum: its kind and its digest.
fn put_checksum(out: &mut Vec<u8>, checksum: &FileChecksum<'_>) -> Result<(), AllocError>
    ensures { OnOk result (out.new.items ≡ out.old.items ++ checksum_text (shown_checksum checksum.now)) }
{
    match checksum {
        FileChecksum::None => out.extend_from_slice(b"none -"),
        FileChecksum::Md5(digest) => put_digest(out, b"md5 ", digest),
        FileChecksum::Sha1(digest) => put_digest(out, b"sha1 ", digest),
        FileChecksum::Sha256(digest) => put_digest(out, b"sha256 ", digest),
    }
}

/// A name of the string table; none where it isn't there.
fn string_in<'n>(strings: Option<&'n StringTable<'_>>, name: StringRef) -> Option<RawString<'n>>
    ensures { option_map name_bytes result ≡ string_in (option_copied strings.entry) name.0 }
{
    strings?.get(name).ok()
}

/// The line of a file.
#[tactic(auto, unfolding(crate::specs::SourceTexts::source_line))]
fn put_source(
    out: &mut Vec<u8>,
    strings: Option<&StringTable<'_>>,
    file: &FileInfo<'_>,
) -> Result<(), AllocError>
    ensures { OnOk result (out.new.items ≡ out.old.items ++ source_line (option_copied strings.entry) (shown_file file.now)) }
{
    put_checksum(out, &file.checksum)?;
    out.push(b' ')?;
    pdb_resolve::put_file(out, string_in(strings, file.name))?;
    put_line_end(out)
}

/// The line of a file of module `k`, in a format.
fn put_source_in(
    out: &mut Vec<u8>,
    format: OutputFormat,
    k: u64,
    strings: Option<&StringTable<'_>>,
    file: &FileInfo<'_>,
) -> Result<(), AllocError>
    ensures { OnOk result (out.new.items ≡ out.old.items ++ source_in format k (option_copied strings.entry) (shown_file file.now)) }
{
    match format {
        OutputFormat::Text => put_source(out, strings, file),
        OutputFormat::Json => put_source_object(
            out,
            k,
            &file.checksum,
            string_in(strings, file.name),
        ),
    }
}

/// The lines of the files of module `k` that an iterator has left, and then that of its fault.
fn put_list(
    out: &mut Vec<u8>,
    format: OutputFormat,
    k: u64,
    strings: Option<&StringTable<'_>>,
    mut files: FileIterator<'_>,
) -> Result<(), AllocError>
    ensures { OnOk result (out.new.items ≡ out.old.items ++ source_lines format k (option_copied strings.entry) (files_left files.entry)) }
{
    loop {
        match files.next() {
            Ok(Some(file)) => put_source_in(out, format, k, strings, &file)?,
            Ok(None) => return Ok(()),
            Err(e) => return put_error_of(out, format, k, e),
        }
    }
}

/// The text of `sources` of module `k`: the files of its lines, or the line of their error.
#[tactic(auto, using(crate::proofs::SourcesTold::sources_told))]
pub fn put_sources(
    out: &mut Vec<u8>,
    format: OutputFormat,
    k: u64,
    strings: Option<&StringTable<'_>>,
    info: &ModuleInfo<'_>,
) -> Result<(), AllocError>
    ensures { OnOk result (out.new.items ≡ out.old.items ++ sources_text format k (option_copied strings.entry) info.now) }
{
    match info.files() {
        Ok(files) => put_list(out, format, k, strings, files),
        Err(e) => put_refusal_of(out, format, k, e),
    }
}

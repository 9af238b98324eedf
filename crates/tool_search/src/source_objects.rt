//! The JSON objects of `sources`.

ghost use Rattle.std.specs.Prelude.{◌≡◌, ◌∷◌, ◌++◌, codes, flat_map, OnOk};
ghost use Rattle.std.specs.Option.{option_map};
ghost use Rattle.json.specs.Token.{key};
ghost use Rattle.json.specs.Tree.{json_tokens, members_tokens};
ghost use Rattle.pdb.specs.FileViews.{shown_checksum};
ghost use Rattle.pdb.specs.Text.{name_bytes};
ghost use Rattle.pdb_text.specs.Digits.{hex};
ghost use Rattle.tool_output.specs.Objects.{Adds, json_line, text_value};
ghost use Rattle.tool_search.specs.SourceTexts.{checksum_members, digest_members, digest_of, digest_value, kind_of, name_member, source_value};

use crate::frame_objects::put_file;
use json::Writer;
use pdb::{FileChecksum, RawString};
use pdb_text::put_hex_bytes;
use std::alloc::{AllocError, Global};
use tool_output::objects::{begin_numbered, end_line, put_member, put_null, value_behind};

/// The kind of a checksum.
fn kind_of(checksum: &FileChecksum<'_>) -> &'static [u8]
    ensures { result.now ≡ kind_of (shown_checksum checksum.now) }
{
    match checksum {
        FileChecksum::None => b"none",
        FileChecksum::Md5(_) => b"md5",
        FileChecksum::Sha1(_) => b"sha1",
        FileChecksum::Sha256(_) => b"sha256",
    }
}

/// The bytes of a checksum.
fn digest_of<'a>(checksum: &FileChecksum<'a>) -> &'a [u8]
    ensures { result.now ≡ digest_of (shown_checksum checksum.now) }
{
    match checksum {
        FileChecksum::None => &[],
        FileChecksum::Md5(digest) => digest,
        FileChecksum::Sha1(digest) => digest,
        FileChecksum::Sha256(digest) => digest,
    }
}

/// A digest in hex digits, as a member.
fn put_digits(alloc: Global, writer: &mut Writer, digest: &[u8]) -> Result<(), AllocError>
    ensures { Adds result writer.old writer.new (key (codes "digest") ∷ json_tokens (text_value (flat_map (hex 2) digest.now))) }
{
    let mut digits = Vec::new(alloc);
    put_hex_bytes(&mut digits, digest)?;
    put_member(alloc, writer, "digest", &digits)
}

/// The same; `null` where it is empty.
#[tactic(auto, using(crate::proofs::JsonValues::digest_none, crate::proofs::JsonValues::digest_some))]
fn put_digest(alloc: Global, writer: &mut Writer, digest: &[u8]) -> Result<(), AllocError>
    ensures { Adds result writer.old writer.new (key (codes "digest") ∷ json_tokens (digest_value digest.now)) }
{
    if digest.is_empty() {
        return put_null(writer, "digest");
    }
    put_digits(alloc, writer, digest)
}

/// The name of a file, as the last member of an object.
fn put_name_member(
    alloc: Global,
    writer: &mut Writer,
    name: Option<RawString<'_>>,
) -> Result<(), AllocError>
    ensures { Adds result writer.old writer.new (members_tokens (name_member (option_map name_bytes name.entry))) }
{
    put_file(alloc, writer, name)?;
    writer.end_object()
}

/// The same, behind a digest.
fn put_digest_members(
    alloc: Global,
    writer: &mut Writer,
    digest: &[u8],
    name: Option<RawString<'_>>,
) -> Result<(), AllocError>
    ensures { Adds result writer.old writer.new (members_tokens (digest_members digest.now (option_map name_bytes name.entry))) }
{
    put_digest(alloc, writer, digest)?;
    put_name_member(alloc, writer, name)
}

/// The same, behind the kind of a checksum.
fn put_checksum_members(
    alloc: Global,
    writer: &mut Writer,
    kind: &[u8],
    digest: &[u8],
    name: Option<RawString<'_>>,
) -> Result<(), AllocError>
    ensures { Adds result writer.old writer.new (members_tokens (checksum_members kind.now digest.now (option_map name_bytes name.entry))) }
{
    put_member(alloc, writer, "checksum", kind)?;
    put_digest_members(alloc, writer, digest, name)
}

/// The JSON object of a file of module `k`.
fn put_source_value(
    alloc: Global,
    writer: &mut Writer,
    k: u64,
    kind: &[u8],
    digest: &[u8],
    name: Option<RawString<'_>>,
) -> Result<(), AllocError>
    ensures { Adds result writer.old writer.new (json_tokens (source_value k kind.now digest.now (option_map name_bytes name.entry))) }
{
    begin_numbered(writer, "module", k)?;
    put_checksum_members(alloc, writer, kind, digest, name)?;
    Ok(())
}

/// The line of a file of module `k`, with the kind and the bytes of its checksum, as an object.
#[tactic(auto, unfolding(tool_output::specs::Objects::json_line))]
fn put_source_line(
    out: &mut Vec<u8>,
    k: u64,
    kind: &[u8],
    digest: &[u8],
    name: Option<RawString<'_>>,
) -> Result<(), AllocError>
    ensures { OnOk result (out.new.items ≡ out.old.items ++ json_line (source_value k kind.now digest.now (option_map name_bytes name.entry))) }
{
    let alloc = *out.allocator();
    let mut writer = value_behind(out);
    put_source_value(alloc, &mut writer, k, kind, digest, name)?;
    end_line(out, writer)
}

/// The line of a file of module `k`, as an object.
pub fn put_source_object(
    out: &mut Vec<u8>,
    k: u64,
    checksum: &FileChecksum<'_>,
    name: Option<RawString<'_>>,
) -> Result<(), AllocError>
    ensures { OnOk result (out.new.items ≡ out.old.items ++ json_line (source_value k (kind_of (shown_checksum checksum.now)) (digest_of (shown_checksum checksum.now)) (option_map name_bytes name.entry))) }
{
    put_source_line(out, k, kind_of(checksum), digest_of(checksum), name)
}

//! The JSON objects of `key`.

ghost use Rattle.std.specs.Prelude.{◌≡◌, ◌∷◌, codes, IfOk};
ghost use Rattle.std.specs.Option.{option_map};
ghost use Rattle.json.specs.Json.{member, null, no_members};
ghost use Rattle.json.specs.Token.{begin_object, key};
ghost use Rattle.json.specs.Tree.{json_tokens, members_tokens};
ghost use Rattle.pdb_image.specs.Images.{reference, said};
ghost use Rattle.tool_program.specs.KeyLines.{image_value, pdb_members, pdb_value};
ghost use Rattle.tool_output.specs.Objects.{Adds, json_line, text_value};

use crate::key_line::put_own_key;
use json::Writer;
use pdb::key_text;
use pdb_image::{Image, PdbReference};
use std::alloc::{AllocError, Global};
use tool_output::objects::{end_line, put_last, put_member, put_null, value_behind};

/// An object that has a key so far.
fn begin_key(alloc: Global, writer: &mut Writer, bytes: &[u8]) -> Result<(), AllocError>
    ensures { Adds result writer.old writer.new (begin_object ∷ key (codes "key") ∷ json_tokens (text_value bytes.now)) }
{
    writer.begin_object()?;
    put_member(alloc, writer, "key", bytes)
}

/// No PDB, as the last members of an object.
fn put_no_pdb(writer: &mut Writer) -> Result<(), AllocError>
    ensures { Adds result writer.old writer.new (members_tokens (member (codes "pdb_key") null (member (codes "pdb") null no_members))) }
{
    put_null(writer, "pdb_key")?;
    put_null(writer, "pdb")?;
    writer.end_object()
}

/// The key and the path of the PDB that an image names, as the last members of an object.
fn put_pdb(
    alloc: Global,
    writer: &mut Writer,
    pdb: Option<PdbReference<'_>>,
) -> Result<(), AllocError>
    ensures { Adds result writer.old writer.new (members_tokens (pdb_members (option_map reference pdb.entry))) }
{
    let Some(pdb) = pdb else {
        return put_no_pdb(writer);
    };
    let key = key_text(alloc, &pdb.guid, pdb.age)?;
    put_member(alloc, writer, "pdb_key", &key)?;
    put_last(alloc, writer, "pdb", pdb.path)
}

/// The JSON object of an image.
fn put_image(
    alloc: Global,
    writer: &mut Writer,
    image: Image<'_>,
    name: &[u8],
) -> Result<(), AllocError>
    ensures { Adds result writer.old writer.new (json_tokens (image_value name.now (said image.entry))) }
{
    let mut key = Vec::new(alloc);
    put_own_key(alloc, &mut key, image.time_stamp, image.size)?;
    begin_key(alloc, writer, &key)?;
    put_member(alloc, writer, "file", name)?;
    put_pdb(alloc, writer, image.pdb)?;
    Ok(())
}

/// Its line.
#[tactic(auto, unfolding(tool_output::specs::Objects::json_line))]
pub fn image_object(alloc: Global, image: Image<'_>, name: &[u8]) -> Result<Vec<u8>, AllocError>
    ensures { IfOk result (λ v. v.items ≡ json_line (image_value name.now (said image.entry))) }
{
    let mut out = Vec::new(alloc);
    let mut writer = value_behind(&mut out);
    put_image(alloc, &mut writer, image, name)?;
    end_line(&mut out, writer)?;
    Ok(out)
}

/// The JSON object of a PDB with this key.
fn put_pdb_value(
    alloc: Global,
    writer: &mut Writer,
    key: &[u8],
    name: &[u8],
) -> Result<(), AllocError>
    ensures { Adds result writer.old writer.new (json_tokens (pdb_value name.now key.now)) }
{
    begin_key(alloc, writer, key)?;
    put_last(alloc, writer, "file", name)
}

/// Its line.
#[tactic(auto, unfolding(tool_output::specs::Objects::json_line))]
pub fn pdb_object(alloc: Global, key: &[u8], name: &[u8]) -> Result<Vec<u8>, AllocError>
    ensures { IfOk result (λ v. v.items ≡ json_line (pdb_value name.now key.now)) }
{
    let mut out = Vec::new(alloc);
    let mut writer = value_behind(&mut out);
    put_pdb_value(alloc, &mut writer, key, name)?;
    end_line(&mut out, writer)?;
    Ok(out)
}

//! The lines of `key --path`: of a PDB, and of an image with the PDB that it names, where a store of symbols has them.

ghost use Rattle.std.specs.Prelude.{◌≡◌, ◌++◌, IfOk, OnOk};
ghost use Rattle.std.specs.Option.{option_map};
ghost use Rattle.pdb_image.specs.Images.{reference, said};
ghost use Rattle.tool_program.specs.KeyPaths.{image_paths as paths_of_image, pdb_path as path_of_pdb, pdb_stored, stored};

use crate::key_line::put_own_key;
use pdb::key_text;
use pdb_image::{Image, PdbReference};
use pdb_paths::{file_name, is_sound, put_filed};
use std::alloc::{AllocError, Global};

/// Appends the path below a store of the file of a path and a key; `-` where its name names no file.
#[tactic(auto, unfolding(crate::specs::KeyPaths::stored))]
fn put_stored(out: &mut Vec<u8>, path: &[u8], key: &[u8]) -> Result<(), AllocError>
    ensures { OnOk result (out.new.items ≡ out.old.items ++ stored path.now key.now) }
{
    let name = file_name(path);
    if is_sound(name) {
        put_filed(out, name, key)
    } else {
        Ok(out.push(b'-')?)
    }
}

/// Appends the key of the PDB that an image names, and its path below a store.
fn put_pdb(
    alloc: Global,
    out: &mut Vec<u8>,
    pdb: Option<PdbReference<'_>>,
) -> Result<(), AllocError>
    ensures { OnOk result (out.new.items ≡ out.old.items ++ pdb_stored (option_map reference pdb.entry)) }
{
    let Some(pdb) = pdb else {
        return out.extend_from_slice(b"- -");
    };
    let key = key_text(alloc, &pdb.guid, pdb.age)?;
    out.extend_from_slice(&key)?;
    out.push(b' ')?;
    put_stored(out, pdb.path, &key)
}

/// The line of an image.
#[tactic(auto, unfolding(crate::specs::KeyPaths::image_paths))]
pub fn image_paths(alloc: Global, image: Image<'_>, name: &[u8]) -> Result<Vec<u8>, AllocError>
    ensures { IfOk result (λ v. v.items ≡ paths_of_image name.now (said image.entry)) }
{
    let mut key = Vec::new(alloc);
    put_own_key(alloc, &mut key, image.time_stamp, image.size)?;
    let mut out = Vec::from_slice(alloc, &key)?;
    out.push(b' ')?;
    put_stored(&mut out, name, &key)?;
    out.push(b' ')?;
    put_pdb(alloc, &mut out, image.pdb)?;
    out.push(b'\n')?;
    Ok(out)
}

/// The line of a PDB with this key.
pub fn pdb_path(alloc: Global, key: &[u8], name: &[u8]) -> Result<Vec<u8>, AllocError>
    ensures { IfOk result (λ v. v.items ≡ path_of_pdb name.now key.now) }
{
    let mut out = Vec::from_slice(alloc, key)?;
    out.push(b' ')?;
    put_stored(&mut out, name, key)?;
    out.push(b'\n')?;
    Ok(out)
}

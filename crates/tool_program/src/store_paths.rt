//! Where a store has files, and the lines of `store`.

ghost use Rattle.std.specs.Prelude.{◌≡◌, ◌++◌, IfOk, option_map};
ghost use Rattle.tool_program.specs.StorePaths.{store_line, store_path};

use pdb_paths::{file_name, is_sound, put_filed, put_within};
use pdb_text::{put_line_end, put_one_line};
use std::alloc::{AllocError, Global};

/// The path in a folder of symbol files at which the file of a path and a key is stored; none where its name is that of no
/// file.
#[tactic(auto, unfolding(crate::specs::StorePaths::store_path))]
pub fn store_path(
    alloc: Global,
    folder: &[u8],
    path: &[u8],
    key: &[u8],
) -> Result<Option<Vec<u8>>, AllocError>
    ensures { IfOk result (λ o. option_map (λ v. v.items) o ≡ store_path folder.now path.now key.now) }
{
    let name = file_name(path);
    if !is_sound(name) {
        return Ok(None);
    }
    let mut out = Vec::new(alloc);
    put_within(&mut out, folder)?;
    put_filed(&mut out, name, key)?;
    Ok(Some(out))
}

/// The line of a file that is stored at a path.
pub fn store_line(alloc: Global, word: &[u8], path: &[u8]) -> Result<Vec<u8>, AllocError>
    ensures { IfOk result (λ v. v.items ≡ store_line word.now path.now) }
{
    let mut out = Vec::from_slice(alloc, word)?;
    out.push(b' ')?;
    put_one_line(&mut out, path)?;
    put_line_end(&mut out)?;
    Ok(out)
}

/// The folder of a path: what stands before its last `/`; none where it has none.
pub fn folder_of(path: &str) -> &str {
    match path.rfind('/') {
        Some(at) => &path[..at],
        None => "",
    }
}

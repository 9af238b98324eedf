//! Where the symbol file of a name and a key may be.

ghost use Rattle.std.specs.Prelude.{◌≡◌, ◌∷◌, ◌++◌, [], IfOk, OnOk, true};
ghost use Rattle.pdb_paths.specs.FileNames.{is_sound, within};
ghost use Rattle.pdb_paths.specs.SymbolPaths.{candidates, filed, filed_in, files_in, fronts_in, fronts_of, keyed, texts};

use crate::file_names::{is_sound, put_within, spellings};
use std::alloc::{AllocError, Global};

/// Appends the path of a file below a store of symbols, as Microsoft's tools file a PDB under its key, and an image under
/// its own: `NAME/KEY/NAME`. The name has to be sound (`is_sound`), or the path may lead out of the store.
#[tactic(auto, unfolding(crate::specs::SymbolPaths::filed))]
pub fn put_filed(out: &mut Vec<u8>, name: &[u8], key: &[u8]) -> Result<(), AllocError>
    ensures { OnOk result (out.new.items ≡ out.old.items ++ filed name.now key.now) }
{
    out.extend_from_slice(name)?;
    out.push(b'/')?;
    out.extend_from_slice(key)?;
    out.push(b'/')?;
    out.extend_from_slice(name)
}

/// Appends the paths of a name in a folder, under each of these keys.
fn push_keyed(
    paths: &mut Vec<Vec<u8>>,
    folder: &[u8],
    keys: &[Vec<u8>],
    name: &[u8],
) -> Result<(), AllocError>
    ensures { OnOk result (texts paths.new.items ≡ texts paths.old.items ++ keyed folder.now (texts keys.now) name.now) }
{
    for key in keys {
        let mut path = Vec::new(*paths.allocator());
        put_within(&mut path, folder)?;
        put_filed(&mut path, name, key)?;
        paths.push(path)?;
    }
    Ok(())
}

/// The same of each of these names.
fn push_filed(
    paths: &mut Vec<Vec<u8>>,
    folder: &[u8],
    names: &[Vec<u8>],
    keys: &[Vec<u8>],
) -> Result<(), AllocError>
    ensures { OnOk result (texts paths.new.items ≡ texts paths.old.items ++ filed_in folder.now (texts names.now) (texts keys.now)) }
{
    for name in names {
        push_keyed(paths, folder, keys, name)?;
    }
    Ok(())
}

/// Appends the paths of a name behind the folder of its first two bytes, if these name one.
fn push_front(
    paths: &mut Vec<Vec<u8>>,
    folder: &[u8],
    keys: &[Vec<u8>],
    name: &[u8],
) -> Result<(), AllocError>
    ensures { OnOk result (texts paths.new.items ≡ texts paths.old.items ++ fronts_of folder.now (texts keys.now) name.now) }
{
    let front = name.get(..2).unwrap_or(name);
    if !is_sound(front) {
        return Ok(());
    }
    let mut below = Vec::new(*paths.allocator());
    put_within(&mut below, folder)?;
    below.extend_from_slice(front)?;
    push_keyed(paths, &below, keys, name)
}

/// The same of each of these names, in a store that has such folders.
fn push_fronts(
    paths: &mut Vec<Vec<u8>>,
    folder: &[u8],
    names: &[Vec<u8>],
    keys: &[Vec<u8>],
) -> Result<(), AllocError>
    ensures { OnOk result (texts paths.new.items ≡ texts paths.old.items ++ fronts_in true folder.now (texts names.now) (texts keys.now)) }
{
    for name in names {
        push_front(paths, folder, keys, name)?;
    }
    Ok(())
}

/// Appends the paths of these names in the folder itself.
fn push_files(paths: &mut Vec<Vec<u8>>, folder: &[u8], names: &[Vec<u8>]) -> Result<(), AllocError>
    ensures { OnOk result (texts paths.new.items ≡ texts paths.old.items ++ files_in folder.now (texts names.now)) }
{
    for name in names {
        let mut path = Vec::new(*paths.allocator());
        put_within(&mut path, folder)?;
        path.extend_from_slice(name)?;
        paths.push(path)?;
    }
    Ok(())
}

/// Appends the paths of `candidates`.
#[tactic(auto, unfolding(crate::specs::SymbolPaths::candidates))]
pub(crate) fn push_candidates(
    paths: &mut Vec<Vec<u8>>,
    has_fronts: bool,
    folder: &[u8],
    name: &[u8],
    key: &[u8],
) -> Result<(), AllocError>
    ensures { OnOk result (texts paths.new.items ≡ texts paths.old.items ++ candidates has_fronts folder.now name.now key.now) }
{
    if !is_sound(name) {
        return Ok(());
    }
    let alloc = *paths.allocator();
    let names = spellings(alloc, name)?;
    let keys = spellings(alloc, key)?;
    push_filed(paths, folder, &names, &keys)?;
    if has_fronts {
        push_fronts(paths, folder, &names, &keys)?;
    }
    push_files(paths, folder, &names)
}

/// The paths at which a folder of symbols may have the file of a name and a key, in the order in which they are tried: as
/// a store has it, then, if the store has folders by the first two bytes of names (it has a file `index2.txt`), behind such
/// a folder, and then in the folder itself; each also in lower letters, which stores on other systems than Windows want.
/// None of a name that names no file (`is_sound`). A key is hex digits; other bytes of it stand in the paths as they
/// are.
pub fn candidates(
    alloc: Global,
    has_fronts: bool,
    folder: &[u8],
    name: &[u8],
    key: &[u8],
) -> Result<Vec<Vec<u8>>, AllocError>
    ensures { IfOk result (λ paths. texts paths.items ≡ candidates has_fronts folder.now name.now key.now) }
{
    let mut paths = Vec::new(alloc);
    push_candidates(&mut paths, has_fronts, folder, name, key)?;
    Ok(paths)
}

//! Where the PDB of an image may be.

ghost use Rattle.std.specs.Prelude.{◌≡◌, ◌≤◌, ◌++◌, length, map, IfOk, OnOk};
ghost use Rattle.pdb_paths.specs.ImagePaths.{beside, compressed, folder_size, folder_view, in_folders, is_among, once, own_path, pdb_paths, with_new};
ghost use Rattle.pdb_paths.specs.SymbolPaths.{texts};

use crate::file_names::{file_name, is_sound, is_text, spellings};
use crate::symbol_paths::push_candidates;
use std::alloc::{AllocError, Global};

/// A folder of symbol files.
#[derive(Clone, Copy, Debug)]
pub struct SymbolFolder<'f> {
    /// Whether it has folders by the first two bytes of names: it has a file `index2.txt`.
    pub has_fronts: bool,
    /// Its path.
    pub path: &'f [u8],
}

/// How many bytes of a path stand up to its last slash.
fn folder_size(path: &[u8]) -> usize
    ensures is { result ≡ folder_size path.now }
    ensures bound { result ≤ length path.now }
{
    let mut size = 0;
    for (index, byte) in path.iter().enumerate() {
        if *byte == b'/' {
            size = index + 1;
        }
    }
    size
}

/// Appends the paths of files of these names beside a file.
fn push_beside(paths: &mut Vec<Vec<u8>>, file: &[u8], names: &[Vec<u8>]) -> Result<(), AllocError>
    ensures { OnOk result (texts paths.new.items ≡ texts paths.old.items ++ beside file.now (texts names.now)) }
{
    let folder = &file[..folder_size(file)];
    for name in names {
        let mut path = Vec::from_slice(*paths.allocator(), folder)?;
        path.extend_from_slice(name)?;
        paths.push(path)?;
    }
    Ok(())
}

/// Appends the paths in folders of symbols.
fn push_in_folders(
    paths: &mut Vec<Vec<u8>>,
    folders: &[SymbolFolder<'_>],
    name: &[u8],
    key: &[u8],
) -> Result<(), AllocError>
    ensures { OnOk result (texts paths.new.items ≡ texts paths.old.items ++ in_folders (map folder_view folders.now) name.now key.now) }
{
    for folder in folders {
        push_candidates(paths, folder.has_fronts, folder.path, name, key)?;
    }
    Ok(())
}

/// Appends the path in an image, where it is one of this system.
fn push_own(paths: &mut Vec<Vec<u8>>, path: &[u8]) -> Result<(), AllocError>
    ensures { OnOk result (texts paths.new.items ≡ texts paths.old.items ++ own_path path.now) }
{
    if path.starts_with(b"/") && is_text(path) {
        paths.push(Vec::from_slice(*paths.allocator(), path)?)?;
    }
    Ok(())
}

/// Whether a path is among these.
fn is_among(paths: &[Vec<u8>], path: &[u8]) -> bool
    ensures { result ≡ is_among (texts paths.now) path.now }
{
    for other in paths {
        if other.as_slice() == path {
            return true;
        }
    }
    false
}

/// Appends a path, unless it is there.
fn push_new(paths: &mut Vec<Vec<u8>>, path: Vec<u8>) -> Result<(), AllocError>
    ensures { OnOk result (texts paths.new.items ≡ with_new (texts paths.old.items) path.items) }
{
    if is_among(paths, &path) {
        return Ok(());
    }
    Ok(paths.push(path)?)
}

/// Each of these paths once, where it first stands.
fn each_once(alloc: Global, all: Vec<Vec<u8>>) -> Result<Vec<Vec<u8>>, AllocError>
    ensures { IfOk result (λ v. texts v.items ≡ once (texts all.items)) }
{
    let mut paths = Vec::new(alloc);
    for path in all {
        push_new(&mut paths, path)?;
    }
    Ok(paths)
}

/// The paths at which the PDB of an image may be, in the order in which they are tried, each once: beside the image, under
/// the name that its path there has; in each folder of symbols (`candidates`); and at that path itself, where it is one of
/// this system. `image` is the image's own path, `path` that of its PDB as the image has it, and `key` its key. There is none
/// of a name that names no file (`is_sound`).
#[tactic(auto, unfolding(crate::specs::ImagePaths::pdb_paths))]
pub fn pdb_paths(
    alloc: Global,
    image: &[u8],
    folders: &[SymbolFolder<'_>],
    path: &[u8],
    key: &[u8],
) -> Result<Vec<Vec<u8>>, AllocError>
    ensures { IfOk result (λ v. texts v.items ≡ pdb_paths image.now (map folder_view folders.now) path.now key.now) }
{
    let mut paths = Vec::new(alloc);
    let name = file_name(path);
    if !is_sound(name) {
        return Ok(paths);
    }
    let names = spellings(alloc, name)?;
    push_beside(&mut paths, image, &names)?;
    push_in_folders(&mut paths, folders, name, key)?;
    push_own(&mut paths, path)?;
    each_once(alloc, paths)
}

/// Appends the path of a file where it is compressed, as stores have it: `_` stands in the place of its last byte.
pub fn put_compressed(out: &mut Vec<u8>, path: &[u8]) -> Result<(), AllocError>
    ensures { OnOk result (out.new.items ≡ out.old.items ++ compressed path.now) }
{
    out.extend_from_slice(&path[..path.len().saturating_sub(1)])?;
    Ok(out.push(b'_')?)
}

//! Folders of symbol files, as debuggers name them in the variable `_NT_SYMBOL_PATH`.

ghost use Rattle.std.specs.Prelude.{◌≡◌, ◌++◌, filter, map, IfOk, OnOk};
ghost use Rattle.std.specs.List.{slice_split};
ghost use Rattle.pdb_paths.specs.Folders.{behind, cut_at, folders_in, front_of, has_scheme, is_folder, is_word, named, symbol_folders};

use std::alloc::{AllocError, Global};

/// What the first part of a piece says of those behind it.
#[derive(Clone, Copy, Debug, PartialEq, Eq)]
enum Front {
    /// All may be folders: `srv*C:\symbols*https://server` names a store and what it is filled from.
    Folders,
    /// The first is the library that fills the others: `symsrv*symsrv.dll*C:\symbols`.
    Library,
    /// None is a folder.
    Other,
}

/// The parts of a text that a byte cuts.
fn cut_at(alloc: Global, byte: u8, text: &[u8]) -> Result<Vec<&[u8]>, AllocError>
    ensures { IfOk result (λ v. map (λ part. part.now) v.items ≡ cut_at byte text.now) }
{
    text.split(|b| *b == byte).collect(alloc)
}

/// Whether a part is the address of a server, as `https://msdl.microsoft.com/download/symbols` is.
fn has_scheme(part: &[u8]) -> bool
    ensures { result ≡ has_scheme part.now }
{
    for index in 0..part.len() {
        let (_, rest) = part.split_at(index);
        if rest.starts_with(b"://") {
            return true;
        }
    }
    false
}

/// Whether a part names a folder.
fn is_folder(part: &[u8]) -> bool
    ensures { result ≡ is_folder part.now }
{
    !part.is_empty() && !has_scheme(part)
}

/// Whether a part is a word, in any case.
fn is_word(part: &[u8], word: &[u8]) -> bool
    ensures { result ≡ is_word part.now word.now }
{
    part.eq_ignore_ascii_case(word)
}

/// What a first part says of those behind it.
fn front_of(first: &[u8]) -> Front
    ensures { result ≡ front_of first.now }
{
    if is_word(first, b"srv") || is_word(first, b"cache") {
        Front::Folders
    } else if is_word(first, b"symsrv") {
        Front::Library
    } else {
        Front::Other
    }
}

/// The parts of a piece behind its first one that may name folders.
fn behind<'p, 'v>(first: &[u8], parts: &'p [&'v [u8]]) -> &'p [&'v [u8]]
    ensures { map (λ part. part.now) result.now ≡ behind first.now (map (λ part. part.now) parts.now) }
{
    match front_of(first) {
        Front::Folders => parts,
        Front::Library => &parts[parts.len().min(1)..],
        Front::Other => &parts[parts.len()..],
    }
}

/// The parts of a piece that may name folders.
fn named<'p, 'v>(parts: &'p [&'v [u8]]) -> &'p [&'v [u8]]
    ensures { map (λ part. part.now) result.now ≡ named (map (λ part. part.now) parts.now) }
{
    match parts.split_first() {
        Some((first, rest)) if !rest.is_empty() => behind(first, rest),
        _ => parts,
    }
}

/// Appends the folders that a piece of the variable's value names.
#[tactic(auto, unfolding(crate::specs::Folders::folders_in))]
fn push_folders<'v>(folders: &mut Vec<&'v [u8]>, piece: &'v [u8]) -> Result<(), AllocError>
    ensures { OnOk result (map (λ f. f.now) folders.new.items ≡ map (λ f. f.now) folders.old.items ++ folders_in piece.now) }
{
    let parts = cut_at(*folders.allocator(), b'*', piece)?;
    for part in named(&parts) {
        if is_folder(part) {
            folders.push(part)?;
        }
    }
    Ok(())
}

/// The folders of symbol files that the value of `_NT_SYMBOL_PATH` names, in order: each piece between semicolons is one, or
/// is cut by stars into a word that says what the parts behind it are. Addresses of servers are left out.
///
/// Of `srv*C:\symbols*https://server;D:\mine` they are `C:\symbols` and `D:\mine`.
#[tactic(auto, unfolding(crate::specs::Folders::symbol_folders))]
pub fn symbol_folders(alloc: Global, value: &[u8]) -> Result<Vec<&[u8]>, AllocError>
    ensures { IfOk result (λ v. map (λ f. f.now) v.items ≡ symbol_folders value.now) }
{
    let mut folders = Vec::new(alloc);
    let pieces = cut_at(alloc, b';', value)?;
    for piece in &pieces {
        push_folders(&mut folders, piece)?;
    }
    Ok(folders)
}

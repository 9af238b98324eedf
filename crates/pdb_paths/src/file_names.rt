//! Names of files, and folders, in paths.

ghost use Rattle.std.specs.Prelude.{◌≡◌, ◌++◌, IfOk, OnOk, map};
ghost use Rattle.std.specs.List.{list_all};
ghost use Rattle.std.specs.Str.{is_utf8};
ghost use Rattle.pdb_paths.specs.FileNames.{file_name, is_folder_word, is_name_byte, is_separator, is_sound, lower, spellings, within};

use std::alloc::{AllocError, Global};
use std::str;

/// Whether a byte ends the name of a folder.
fn is_separator(byte: u8) -> bool
    ensures { result ≡ is_separator byte }
{
    byte == b'/' || byte == b'\\'
}

/// The name of the file that a path leads to: what stands behind its last `/` or `\`. The path in an image has `\`, since
/// linkers run on Windows; that of a compiler elsewhere has `/`.
pub fn file_name(path: &[u8]) -> &[u8]
    ensures { result.now ≡ file_name path.now }
{
    let mut start = 0;
    for (index, byte) in path.iter().enumerate() {
        if is_separator(*byte) {
            start = index + 1;
        }
    }
    &path[start..]
}

/// Whether the name of a file may have a byte.
fn is_name_byte(byte: u8) -> bool
    ensures { result ≡ is_name_byte byte }
{
    byte >= 32 && !is_separator(byte)
}

/// Whether all bytes may be in the name of a file.
fn has_name_bytes(name: &[u8]) -> bool
    ensures { result ≡ list_all is_name_byte name.now }
{
    for byte in name {
        if !is_name_byte(*byte) {
            return false;
        }
    }
    true
}

/// Whether a name isn't there, or names a folder: this one, or the one above.
fn is_folder_word(name: &[u8]) -> bool
    ensures { result ≡ is_folder_word name.now }
{
    name.is_empty() || matches!(name, b"." | b"..")
}

/// Whether bytes are UTF-8.
pub(crate) fn is_text(bytes: &[u8]) -> bool
    ensures { result ≡ is_utf8 bytes.now }
{
    match str::from_utf8(bytes) {
        Ok(_) => true,
        Err(_) => false,
    }
}

/// Whether a name names a file of a folder: it is UTF-8, isn't empty, `.` or `..`, and has no byte below 20, `/` or `\`. An
/// image, and the path of a PDB that it has, are a stranger's: another name may lead out of a folder, or end a line.
#[tactic(auto, unfolding(crate::specs::FileNames::is_sound))]
pub fn is_sound(name: &[u8]) -> bool
    ensures { result ≡ is_sound name.now }
{
    !is_folder_word(name) && has_name_bytes(name) && is_text(name)
}

/// A text in lower letters.
fn to_lower(alloc: Global, text: &[u8]) -> Result<Vec<u8>, AllocError>
    ensures { IfOk result (λ v. v.items ≡ lower text.now) }
{
    let mut lower = Vec::new(alloc);
    for byte in text {
        lower.push(byte.to_ascii_lowercase())?;
    }
    Ok(lower)
}

/// A text, and the same in lower letters if that is another one.
pub(crate) fn spellings(alloc: Global, text: &[u8]) -> Result<Vec<Vec<u8>>, AllocError>
    ensures { IfOk result (λ all. map (λ it. it.items) all.items ≡ spellings text.now) }
{
    let lower = to_lower(alloc, text)?;
    let mut all = Vec::new(alloc);
    all.push(Vec::from_slice(alloc, text)?)?;
    if lower.as_slice() != text {
        all.push(lower)?;
    }
    Ok(all)
}

/// Appends a folder and the slash behind which its files stand. The folder without a name is the current one.
#[tactic(auto, unfolding(crate::specs::FileNames::within))]
pub fn put_within(out: &mut Vec<u8>, folder: &[u8]) -> Result<(), AllocError>
    ensures { OnOk result (out.new.items ≡ out.old.items ++ within folder.now) }
{
    out.extend_from_slice(folder)?;
    if folder.is_empty() || folder.ends_with(b"/") {
        return Ok(());
    }
    Ok(out.push(b'/')?)
}

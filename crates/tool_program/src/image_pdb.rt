//! The PDB of an image, which is looked for in folders.

use crate::host::Host;
use crate::key_line::pdb_key;
use crate::messages::{report_compressed, report_no_pdb, report_other_key, report_stop};
use crate::wanted::{ImageWants, WantedKey};
use pdb_file::{FileBytes, ReadAt};
use pdb_paths::{SymbolFolder, pdb_paths, put_compressed, put_within};
use std::alloc::{AllocError, Global};
use std::io::Write;
use tool_output::fault::Fault;
use tool_output::stop::{Stop, Unopened};

/// A PDB that was found.
#[derive(Drop)]
pub struct FoundPdb<F: ReadAt + Drop> {
    /// Its path.
    pub path: String,
    /// Its bytes.
    pub bytes: FileBytes<F>,
}

/// What a path leads to.
#[derive(Drop)]
enum Target<F: ReadAt + Drop> {
    /// The PDB that is wanted.
    Wanted(FileBytes<F>),
    /// A PDB with this key, which is another one.
    Other(Vec<u8>),
    /// No regular file.
    Missing,
    /// A file that can't be opened as a PDB.
    Stopped(Stop),
}

/// A path, and the key of the PDB there.
#[derive(Drop)]
struct OtherPdb<'p> {
    path: &'p str,
    key: Vec<u8>,
}

/// What was found at the paths that were tried, where none leads to the PDB that is wanted.
#[derive(Drop)]
struct Passed<'p> {
    others: Vec<OtherPdb<'p>>,
    missing: Vec<&'p str>,
}

impl<'p> Passed<'p> {
    /// Nothing so far.
    fn new(alloc: Global) -> Self {
        Passed {
            others: Vec::new(alloc),
            missing: Vec::new(alloc),
        }
    }

    /// At a path is a PDB with this key.
    fn add_other(&mut self, path: &'p str, key: Vec<u8>) -> Result<(), AllocError> {
        Ok(self.others.push(OtherPdb { path, key })?)
    }

    /// At a path is no file.
    fn add_missing(&mut self, path: &'p str) -> Result<(), AllocError> {
        Ok(self.missing.push(path)?)
    }
}

/// The text of a path; none of one that isn't UTF-8, which `pdb_paths` doesn't return.
fn text_of(path: &[u8]) -> &str {
    std::str::from_utf8(path).unwrap_or("")
}

/// What a path leads to, where a PDB with this key is wanted. Only want of memory is an error.
fn target_of<H: Host>(host: &H, path: &str, wanted: &[u8]) -> Result<Target<H::File>, Stop> {
    let bytes = match host.open_path(path) {
        Ok(bytes) => bytes,
        Err(Stop::Unopened(Unopened::Missing)) => return Ok(Target::Missing),
        Err(Stop::Memory) => return Err(Stop::Memory),
        Err(stop) => return Ok(Target::Stopped(stop)),
    };
    match pdb_key(host.alloc(), &bytes, bytes.size()) {
        Ok(key) if key.as_slice() == wanted => Ok(Target::Wanted(bytes)),
        Ok(key) => Ok(Target::Other(key)),
        Err(Stop::Memory) => Err(Stop::Memory),
        Err(stop) => Ok(Target::Stopped(stop)),
    }
}

/// Whether a folder of symbols has folders by the first two bytes of names.
fn has_fronts<H: Host>(host: &H, folder: &[u8]) -> Result<bool, AllocError> {
    let mut path = Vec::new(host.alloc());
    put_within(&mut path, folder)?;
    path.extend_from_slice(b"index2.txt")?;
    Ok(host.is_file(text_of(&path)))
}

/// The paths at which the PDB of an image of this path may be.
fn paths_of<H: Host>(
    host: &H,
    image: &str,
    wants: &ImageWants,
    folders: &[&[u8]],
) -> Result<Vec<Vec<u8>>, AllocError> {
    let alloc = host.alloc();
    let mut all = Vec::with_capacity(alloc, folders.len())?;
    for path in folders {
        let has_fronts = has_fronts(host, path)?;
        all.push(SymbolFolder { has_fronts, path })?;
    }
    pdb_paths(alloc, image.as_bytes(), &all, &wants.path, &wants.key)
}

/// Writes which of these paths lead to a compressed file, by the name that such a file has.
fn report_expandable<H: Host, E: Write>(
    host: &H,
    missing: &[&str],
    err: &mut E,
) -> Result<(), AllocError> {
    let mut path = Vec::new(host.alloc());
    for given in missing {
        path.clear();
        put_compressed(&mut path, given.as_bytes())?;
        if host.is_file(text_of(&path)) {
            report_compressed(host.alloc(), text_of(&path), err);
        }
    }
    Ok(())
}

/// Writes that no path leads to the PDB of an image, but these PDBs were found.
fn not_found<H: Host, E: Write>(
    host: &H,
    image: &str,
    wants: &ImageWants,
    others: &[OtherPdb<'_>],
    err: &mut E,
) -> Fault {
    if others.is_empty() {
        report_no_pdb(host.alloc(), image, &wants.path, &wants.key, err);
        return Fault::Reported(Stop::Unopened(Unopened::Missing));
    }
    let wanted = WantedKey {
        image: Some(image),
        key: &wants.key,
    };
    for other in others {
        report_other_key(host.alloc(), other.path, &other.key, wanted, err);
    }
    Fault::OtherKey
}

/// The PDB of an image of this path: the first file with its key, beside the image, in these folders of symbols, or at the
/// path that the image has. A file that can't be opened as a PDB is reported, and passed over.
pub fn pdb_of_image<H: Host, E: Write>(
    host: &H,
    image: &str,
    wants: &ImageWants,
    folders: &[&[u8]],
    err: &mut E,
) -> Result<FoundPdb<H::File>, Fault> {
    let alloc = host.alloc();
    let paths = paths_of(host, image, wants, folders).map_err(Stop::from)?;
    let mut passed = Passed::new(alloc);
    for path in &paths {
        let text = text_of(path);
        match target_of(host, text, &wants.key)? {
            Target::Wanted(bytes) => {
                let path = String::from_str(alloc, text).map_err(Stop::from)?;
                return Ok(FoundPdb { path, bytes });
            }
            Target::Other(key) => passed.add_other(text, key).map_err(Stop::from)?,
            Target::Missing => passed.add_missing(text).map_err(Stop::from)?,
            Target::Stopped(stop) => report_stop(host, stop, text, err),
        }
    }
    report_expandable(host, &passed.missing, err).map_err(Stop::from)?;
    Err(not_found(host, image, wants, &passed.others, err))
}

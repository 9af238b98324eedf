//! The PDB that a command reads: the file that an argument names, or the PDB of that image.

use crate::host::Host;
use crate::image_pdb::{FoundPdb, pdb_of_image};
use crate::key_line::{image_wants, is_image_file};
use crate::messages::report_variable;
use crate::wanted::ImageWants;
use pdb_file::{FileBytes, ReadAt};
use pdb_paths::symbol_folders;
use std::alloc::{AllocError, Global};
use std::io::Write;
use tool_arguments::operands::Operand;
use tool_arguments::options::Options;
use tool_arguments::symbol_values::symbol_values;
use tool_output::fault::Fault;
use tool_output::stop::Stop;

/// An image, and the path of its PDB.
#[derive(Drop)]
struct OfImage {
    path: String,
    wants: ImageWants,
}

/// The PDB that a command reads.
#[derive(Drop)]
pub struct OnePdb<F: ReadAt + Drop> {
    /// Its bytes.
    pub bytes: FileBytes<F>,
    image: Option<OfImage>,
}

impl<F: ReadAt + Drop> OnePdb<F> {
    /// The path of a PDB that no argument names.
    pub fn own_path(&self) -> Option<&str> {
        match &self.image {
            Some(image) => Some(image.path.as_str()),
            None => None,
        }
    }

    /// The options with the load address of the image, where no other is given.
    pub fn options(&self, options: Options) -> Options {
        match &self.image {
            Some(image) => options.with_base_of(image.wants.base, image.wants.size),
            None => options,
        }
    }
}

/// The folders of symbol files that arguments name.
fn given_folders<'w, H: Host>(host: &H, words: &'w [String]) -> Result<Vec<Operand<'w>>, Fault> {
    let Some((_, rest)) = words.split_first() else {
        return Ok(Vec::new(host.alloc()));
    };
    let folders = symbol_values(host.alloc(), rest, 1).map_err(Stop::from)?;
    for folder in &folders {
        if host.not_text().contains(&folder.argument) {
            return Err(Fault::NotText(folder.argument));
        }
    }
    Ok(folders)
}

/// The paths of folders.
fn paths_in<'w>(alloc: Global, folders: &[Operand<'w>]) -> Result<Vec<&'w [u8]>, AllocError> {
    let mut paths = Vec::new(alloc);
    for folder in folders {
        paths.push(folder.word.as_bytes())?;
    }
    Ok(paths)
}

/// The value of the variable that names folders of symbol files.
fn variable<H: Host, E: Write>(host: &H, err: &mut E) -> Result<Vec<u8>, Fault> {
    match host.symbol_path().map_err(Stop::from)? {
        Some(value) if std::str::from_utf8(&value).is_ok() => return Ok(value),
        Some(_) => report_variable(err),
        None => {}
    }
    Ok(Vec::new(host.alloc()))
}

/// The PDB that an image wants, in the folders that arguments name; where they name none, in those of the variable.
fn found_for<H: Host, E: Write>(
    host: &H,
    image: &str,
    wants: &ImageWants,
    words: &[String],
    err: &mut E,
) -> Result<FoundPdb<H::File>, Fault> {
    let given = given_folders(host, words)?;
    if !given.is_empty() {
        let folders = paths_in(host.alloc(), &given).map_err(Stop::from)?;
        return pdb_of_image(host, image, wants, &folders, err);
    }
    let value = variable(host, err)?;
    let folders = symbol_folders(host.alloc(), &value).map_err(Stop::from)?;
    pdb_of_image(host, image, wants, &folders, err)
}

/// The PDB of an image, which an argument names.
fn of_image<H: Host, E: Write>(
    host: &H,
    name: Operand<'_>,
    wants: ImageWants,
    words: &[String],
    err: &mut E,
) -> Result<OnePdb<H::File>, Fault> {
    let found = found_for(host, name.word, &wants, words, err)?;
    Ok(OnePdb {
        bytes: found.bytes,
        image: Some(OfImage {
            path: found.path,
            wants,
        }),
    })
}

/// The PDB that an argument names: the file, or the PDB of that image.
pub fn one_pdb<H: Host, E: Write>(
    host: &H,
    name: Operand<'_>,
    words: &[String],
    err: &mut E,
) -> Result<OnePdb<H::File>, Fault> {
    let stopped = |stop: Stop| Fault::Stopped(stop, name.argument);
    let bytes = host.open(name).map_err(stopped)?;
    if is_image_file(host.alloc(), &bytes, bytes.size()).map_err(stopped)? {
        let wants = image_wants(host.alloc(), &bytes, bytes.size()).map_err(stopped)?;
        return of_image(host, name, wants, words, err);
    }
    Ok(OnePdb { bytes, image: None })
}

//! What an image (an EXE or a DLL) has about itself and about its PDB file.

ghost use Rattle.std.specs.Prelude.{◌≡◌};
ghost use Rattle.std.specs.Option.{option_map, unwrap_or};
ghost use Rattle.pdb_image.specs.Images.{image_of, reference, said};
ghost use Rattle.pdb_c.specs.ImageRows.{image_code, image_row, image_seen, no_reference, names_pdb, ImageTold};

use crate::answers::DONE;
use crate::information::guid_bytes;
use pdb_image::{Image, ImageError, PdbReference};

/// An image's headers and the entry of its debug directory. The path is bytes of the image.
#[repr(C)]
#[derive(Clone, Copy)]
pub struct PdbImage<'a> {
    /// The path of its PDB file; empty where it names none.
    pub path: &'a [u8],
    /// The address at which it wants to be loaded.
    pub base: u64,
    /// The GUID of its PDB file, in the order in which it is printed; 0 where it names none.
    pub guid: [u8; 16],
    /// The same, as files have its bytes.
    pub guid_bytes: [u8; 16],
    /// The machine that it is for.
    pub machine: u32,
    /// The time stamp, the first part of its own key.
    pub time_stamp: u32,
    /// Its size in memory, the second part of its own key.
    pub size: u32,
    /// The age of its PDB file; 0 where it names none.
    pub age: u32,
    /// 1 where it names a PDB file, and otherwise 0.
    pub has_pdb: u32,
}

/// The number of an error.
fn image_code(error: ImageError) -> u32
    ensures { result ≡ image_code error }
{
    match error {
        ImageError::UnexpectedEof => 1,
        ImageError::NotAnImage => 34,
        ImageError::NoSignature => 35,
        ImageError::UnknownOptionalHeader => 36,
        ImageError::Nb10 => 37,
        ImageError::UnknownCodeView => 38,
    }
}

/// 1 where an image names a PDB file.
fn names_pdb(pdb: Option<PdbReference<'_>>) -> u32
    ensures { result ≡ names_pdb (option_map reference pdb.entry) }
{
    match pdb {
        Some(_) => 1,
        None => 0,
    }
}

/// The PDB file that an image names; 0 and nothing where it names none.
fn reference_of<'a>(pdb: Option<PdbReference<'a>>) -> PdbReference<'a>
    ensures { reference result ≡ unwrap_or (option_map reference pdb.entry) no_reference }
{
    match pdb {
        Some(reference) => reference,
        None => PdbReference {
            guid: [0; 16],
            age: 0,
            path: &[],
        },
    }
}

fn shown<'a>(image: &Image<'a>) -> PdbImage<'a>
    ensures { image_seen result ≡ image_row (said image.now) }
{
    let named = reference_of(image.pdb);
    PdbImage {
        path: named.path,
        base: image.base,
        guid: named.guid,
        guid_bytes: guid_bytes(named.guid),
        machine: u32::from(image.machine),
        time_stamp: image.time_stamp,
        size: image.size,
        age: named.age,
        has_pdb: names_pdb(image.pdb),
    }
}

/// Reads the headers of the image of these bytes and the entry of its debug directory. After an error `out` stays as it
/// was.
#[unsafe(no_mangle)]
pub extern "C" fn pdb_image<'a>(image: &'a [u8], out: &mut PdbImage<'a>) -> u32
    ensures { ImageTold result (image_seen out.old) (image_seen out.new) (image_of image.now) }
{
    match Image::parse(image) {
        Ok(it) => {
            *out = shown(&it);
            DONE
        }
        Err(error) => image_code(error),
    }
}

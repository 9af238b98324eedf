//! Which PDB is wanted.

ghost use Rattle.std.specs.Prelude.{◌≡◌, ◌≢◌, true, Ok, Err, IfOk, IfErr, IsErrOf, option_copied};
ghost use Rattle.std.specs.Option.{option_map};
ghost use Rattle.pdb.specs.Error.{Error};
ghost use Rattle.pdb.specs.Source.{Continues, MayFail};
ghost use Rattle.tool_output.specs.Stops.{StopsOpening};
ghost use Rattle.tool_output.specs.declared.stop.Stop.{Stop};
ghost use Rattle.tool_program.specs.Wanted.{StopsImage, other_key as other_key_of, other_than, wanted_key, wants_in as wants_there, wants_view};

use pdb::{PDB, Source, key_in, key_text};
use pdb_image::Image;
use std::alloc::{AllocError, Global};
use tool_arguments::options::is_key_digit;
use tool_output::stop::{Stop, stop_of_opening};

/// The PDB that an image names, and where the image's code is.
#[derive(Drop)]
pub struct ImageWants {
    /// The key of the PDB, as the line of a PDB has it.
    pub key: Vec<u8>,
    /// The path of the PDB, as the linker wrote it.
    pub path: Vec<u8>,
    /// The load address.
    pub base: u64,
    /// The size of the image in memory.
    pub size: u32,
}

/// The key that a PDB has to have, and who needs it.
#[derive(Clone, Copy, Debug)]
pub struct WantedKey<'k> {
    /// The name of the image whose PDB it is; none where an argument has the key.
    pub image: Option<&'k str>,
    /// The key, as the line of a PDB has it.
    pub key: &'k [u8],
}

/// The key that a value of `--key` spells: its hex digits, the letters as upper ones.
pub fn wanted_key(alloc: Global, value: &str) -> Result<Vec<u8>, AllocError>
    ensures { IfOk result (λ v. v.items ≡ wanted_key value.now) }
{
    let mut key = Vec::new(alloc);
    for byte in value.as_bytes() {
        if is_key_digit(*byte) {
            key.push(byte.to_ascii_uppercase())?;
        }
    }
    Ok(key)
}

/// What an image wants, by its bytes.
pub fn wants_in(alloc: Global, bytes: &[u8]) -> Result<ImageWants, Stop>
    ensures wants { IfOk result (λ w. wants_there bytes.now ≡ Ok (wants_view w)) }
    ensures stopped { (s : Stop) → s ≢ Stop.Memory → IsErrOf result s → wants_there bytes.now ≡ Err s }
    ensures stops { IfErr result (StopsImage ⊥) }
{
    let image = match Image::parse(bytes) {
        Ok(image) => image,
        Err(e) => return Err(Stop::Image(e)),
    };
    let Some(pdb) = image.pdb else {
        return Err(Stop::NoPdb);
    };
    Ok(ImageWants {
        key: key_text(alloc, &pdb.guid, pdb.age)?,
        path: Vec::from_slice(alloc, pdb.path)?,
        base: image.base,
        size: image.size,
    })
}

/// A key, if it isn't the wanted one.
fn unless_wanted(key: Vec<u8>, wanted: &[u8]) -> Option<Vec<u8>>
    ensures { option_map (λ v. v.items) result ≡ other_than wanted.now key.items }
{
    if key.as_slice() == wanted {
        None
    } else {
        Some(key)
    }
}

/// The key of an opened file, if another is wanted.
pub fn other_key<'s, S: Source<'s>>(
    alloc: Global,
    pdb: &mut PDB<'s, S>,
    wanted: Option<&[u8]>,
) -> Result<Option<Vec<u8>>, Stop>
    ensures continues { Continues pdb.old pdb.new }
    ensures compares { pdb.new.told ≡ true → IfOk result (λ o. other_key_of pdb.old.file (option_copied wanted.entry) ≡ Ok (option_map (λ v. v.items) o)) }
    ensures refused { pdb.new.told ≡ true → (e : Error) → IsErrOf result (Stop.Open e) → other_key_of pdb.old.file (option_copied wanted.entry) ≡ Err e }
    ensures stops { IfErr result (StopsOpening (MayFail pdb.old pdb.new)) }
{
    let Some(wanted) = wanted else {
        return Ok(None);
    };
    match key_in(alloc, pdb) {
        Ok(key) => Ok(unless_wanted(key, wanted)),
        Err(e) => Err(stop_of_opening(e)),
    }
}

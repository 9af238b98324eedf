//! The key under which a symbol server has a file.

ghost use Rattle.pdb.specs.Keys.{key_of_file};
ghost use Rattle.pdb_c.specs.Boundary.{Copied};

use crate::answers::code_of;
use crate::bytes::copy;
use pdb::{MemorySource, key_of};
use std::alloc::Global;

/// The key under which a symbol server has the file, as text: as much of it as there is capacity for, and how many
/// bytes it has, at most 40.
#[tactic(auto, using(crate::proofs::Codes::copied_read, crate::proofs::Codes::copied_refused))]
#[unsafe(no_mangle)]
pub extern "C" fn pdb_key(alloc: Global, file: &[u8], room: &mut [u8], size: &mut usize) -> u32
    ensures { Copied result room.old room.new size.new (key_of_file file.now) }
{
    *size = 0;
    match key_of(alloc, MemorySource::new(file)) {
        Ok(key) => copy(key.as_slice(), room, size),
        Err(e) => code_of(e),
    }
}

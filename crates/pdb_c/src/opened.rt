//! Whether a file can be opened.

ghost use Rattle.std.specs.Prelude.{◌≡◌};
ghost use Rattle.pdb.specs.Container.{opens};
ghost use Rattle.pdb.specs.Refusal.{Gives};
ghost use Rattle.pdb_c.specs.Opened.{carried, Opened};

use crate::answers::{DONE, code_of};
use pdb::{Error, MemorySource, PDB, Result};
use std::alloc::Global;

/// The number that an error carries: a size, a page, a stream, a kind, an offset or an index; 0 where it carries none.
fn carried(e: Error) -> u32
    ensures { result ≡ carried e }
{
    match e {
        Error::InvalidPageSize(n) => n,
        Error::PageReferenceOutOfRange(n) => n,
        Error::StreamNotFound(n) => n,
        Error::UnimplementedSymbolKind(n) => u32::from(n),
        Error::UnimplementedDebugSubsection(n) => n,
        Error::UnimplementedFileChecksumKind(n) => u32::from(n),
        Error::InvalidFileChecksumOffset(n) => n,
        Error::UnknownBinaryAnnotation(n) => n,
        Error::NotACrossModuleRef(n) => n,
        Error::CrossModuleRefNotFound(n) => n,
        Error::UnexpectedNumericPrefix(n) => u32::from(n),
        _ => 0,
    }
}

/// Opens a file.
fn open_of(alloc: Global, file: &[u8]) -> Result<()>
    ensures { Gives (λ u. u) ⊥ result (opens file.now) }
{
    match PDB::open(alloc, MemorySource::new(file)) {
        Ok(_) => Ok(()),
        Err(e) => Err(e),
    }
}

/// Whether a file of these bytes can be opened, or why not, with the number that this error carries.
#[tactic(auto, using(crate::proofs::Codes::opened_read, crate::proofs::Codes::opened_refused))]
#[unsafe(no_mangle)]
pub extern "C" fn pdb_opens(alloc: Global, file: &[u8], number: &mut u32) -> u32
    ensures { Opened result number.new (opens file.now) }
{
    match open_of(alloc, file) {
        Ok(()) => {
            *number = 0;
            DONE
        }
        Err(e) => {
            *number = carried(e);
            code_of(e)
        }
    }
}

//! Which file it is.

ghost use Rattle.std.specs.Prelude.{◌≡◌};
ghost use Rattle.pdb.specs.Refusal.{Gives};
ghost use Rattle.pdb_c.specs.Boundary.{Told};
ghost use Rattle.pdb_c.specs.Numbers.{guid_bytes, version_number, numbers_in, header_numbers_in};

use crate::answers::{DONE, code_of};
use pdb::{HeaderVersion, MemorySource, PDB, Result};
use std::alloc::Global;

/// The numbers of the information stream.
#[repr(C)]
#[derive(Clone, Copy)]
pub struct PdbInformation {
    /// The GUID, in the order in which it is printed.
    pub guid: [u8; 16],
    /// The GUID, as the file has its bytes.
    pub guid_bytes: [u8; 16],
    /// The version of the stream's format.
    pub version: u32,
    /// When the file was made, in seconds since 1970, or another number that distinguishes it from others.
    pub signature: u32,
    /// How often the file was written.
    pub age: u32,
}

/// The numbers of the DBI stream's header.
#[repr(C)]
#[derive(Clone, Copy)]
pub struct PdbDebugInformation {
    /// How often the file was written: the age that the image has.
    pub age: u32,
    /// The stream of global symbols; 0xffff is none.
    pub symbols_stream: u32,
    /// The machine that the image was made for.
    pub machine: u32,
    /// The header's flags.
    pub flags: u32,
}

/// The bytes of a GUID as files have them, of those in the order in which it is printed.
pub fn guid_bytes(guid: [u8; 16]) -> [u8; 16]
    ensures { result ≡ guid_bytes guid }
{
    [
        guid[3], guid[2], guid[1], guid[0], guid[5], guid[4], guid[7], guid[6], guid[8], guid[9],
        guid[10], guid[11], guid[12], guid[13], guid[14], guid[15],
    ]
}

/// The number of a version.
fn version_number(version: HeaderVersion) -> u32
    ensures { result ≡ version_number version }
{
    match version {
        HeaderVersion::V41 => 930803,
        HeaderVersion::V50 => 19960307,
        HeaderVersion::V60 => 19970606,
        HeaderVersion::V70 => 19990903,
        HeaderVersion::V110 => 20091201,
        HeaderVersion::OtherValue(n) => n,
    }
}

#[tactic(auto, unfolding(crate::specs::Numbers::numbers_in))]
fn information(alloc: Global, file: &[u8]) -> Result<PdbInformation>
    ensures { Gives (λ x. x) ⊥ result (numbers_in file.now) }
{
    let mut pdb = PDB::open(alloc, MemorySource::new(file))?;
    let stream = pdb.pdb_information()?;
    Ok(PdbInformation {
        guid: stream.guid,
        guid_bytes: guid_bytes(stream.guid),
        version: version_number(stream.version),
        signature: stream.signature,
        age: stream.age,
    })
}

#[tactic(auto, unfolding(crate::specs::Numbers::header_numbers_in))]
fn debug_information(alloc: Global, file: &[u8]) -> Result<PdbDebugInformation>
    ensures { Gives (λ x. x) ⊥ result (header_numbers_in file.now) }
{
    let mut pdb = PDB::open(alloc, MemorySource::new(file))?;
    let header = pdb.debug_information()?.header();
    Ok(PdbDebugInformation {
        age: header.age,
        symbols_stream: u32::from(header.symbol_records_stream.0),
        machine: u32::from(header.machine_type),
        flags: u32::from(header.flags),
    })
}

/// Which file it is, by the information stream. Where it fails, `out` stays as it was.
#[tactic(auto, using(crate::proofs::Codes::told_read, crate::proofs::Codes::told_refused))]
#[unsafe(no_mangle)]
pub extern "C" fn pdb_information(alloc: Global, file: &[u8], out: &mut PdbInformation) -> u32
    ensures { Told result out.old out.new (numbers_in file.now) }
{
    match information(alloc, file) {
        Ok(answer) => {
            *out = answer;
            DONE
        }
        Err(e) => code_of(e),
    }
}

/// What the header of the DBI stream says. Where it fails, `out` stays as it was.
#[tactic(auto, using(crate::proofs::Codes::told_read, crate::proofs::Codes::told_refused))]
#[unsafe(no_mangle)]
pub extern "C" fn pdb_debug_information(
    alloc: Global,
    file: &[u8],
    out: &mut PdbDebugInformation,
) -> u32
    ensures { Told result out.old out.new (header_numbers_in file.now) }
{
    match debug_information(alloc, file) {
        Ok(answer) => {
            *out = answer;
            DONE
        }
        Err(e) => code_of(e),
    }
}

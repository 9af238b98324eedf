//! Streams of an opened file that a command can do without.

ghost use Rattle.std.specs.Prelude.{◌≡◌, None, true, IfOk, IfErr};
ghost use Rattle.pdb.specs.Container.{stream_of};
ghost use Rattle.pdb.specs.Answers.{string_table_in};
ghost use Rattle.pdb.specs.Source.{Continues, MayFail};
ghost use Rattle.pdb_places.specs.AsIfEmpty.{if_read};
ghost use Rattle.tool_output.specs.Stops.{StopsComposing};

use crate::stop::Stop;
use pdb::{Error, IdInformation, PDB, Source, StringTable, TypeInformation};

// piece: strings_of
/// The string table; none where it can't be read.
pub fn strings_of<'s, S: Source<'s>>(pdb: &mut PDB<'s, S>) -> Result<Option<StringTable<'s>>, Stop>
    ensures continues { Continues pdb.old pdb.new }
    ensures is { pdb.new.told ≡ true → IfOk result (λ o. o ≡ if_read (string_table_in pdb.old.file)) }
    ensures unwritten { IfErr result (StopsComposing (MayFail pdb.old pdb.new)) }
{
    match pdb.string_table() {
        Ok(strings) => Ok(Some(strings)),
        Err(Error::OutOfMemory) => Err(Stop::Memory),
        Err(Error::IoError) => Err(Stop::Read),
        Err(_) => Ok(None),
    }
}
// end

/// The stream of ids; none where it can't be read.
pub fn ids_stream<'s, S: Source<'s>>(
    pdb: &mut PDB<'s, S>,
) -> Result<Option<IdInformation<'s>>, Stop>
    ensures continues { Continues pdb.old pdb.new }
    ensures is { pdb.new.told ≡ true → IfOk result (λ o. o ≡ if_read (stream_of pdb.old.file 4 None)) }
    ensures unwritten { IfErr result (StopsComposing (MayFail pdb.old pdb.new)) }
{
    match pdb.id_information() {
        Ok(ids) => Ok(Some(ids)),
        Err(Error::OutOfMemory) => Err(Stop::Memory),
        Err(Error::IoError) => Err(Stop::Read),
        Err(_) => Ok(None),
    }
}

/// The stream of types; none where it can't be read.
pub fn types_stream<'s, S: Source<'s>>(
    pdb: &mut PDB<'s, S>,
) -> Result<Option<TypeInformation<'s>>, Stop>
    ensures continues { Continues pdb.old pdb.new }
    ensures is { pdb.new.told ≡ true → IfOk result (λ o. o ≡ if_read (stream_of pdb.old.file 2 None)) }
    ensures unwritten { IfErr result (StopsComposing (MayFail pdb.old pdb.new)) }
{
    match pdb.type_information() {
        Ok(types) => Ok(Some(types)),
        Err(Error::OutOfMemory) => Err(Stop::Memory),
        Err(Error::IoError) => Err(Stop::Read),
        Err(_) => Ok(None),
    }
}

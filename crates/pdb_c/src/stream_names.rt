//! The names of streams.

ghost use Rattle.std.specs.Prelude.{◌≡◌, ◌++◌, [], ◌∷◌, length, Ok, Err, OnOk, IfOk};
ghost use Rattle.pdb.specs.Refusal.{Gives};
ghost use Rattle.pdb.specs.DbiViews.{stream_name};
ghost use Rattle.pdb_c.specs.StreamNameRows.{Named, name_row, name_rows, names_bytes, named, stream_names_in, AreNamed, NamesTold};

use crate::answers::{both_code, code_of, room_code};
use crate::rooms::{put_bytes, put_rows};
use pdb::{MemorySource, PDB, Result, StreamName, StreamNames};
use std::alloc::{AllocError, Global};

/// The name of a stream, and the stream's number.
#[repr(C)]
#[derive(Clone, Copy)]
pub struct PdbStreamName {
    /// The offset of the name in the buffer of names.
    pub at: usize,
    /// How many bytes it has.
    pub size: usize,
    /// The stream's number.
    pub number: u32,
}

/// The rows of names, and the bytes of the names.
#[derive(Drop)]
struct Listed {
    rows: Vec<PdbStreamName>,
    bytes: Vec<u8>,
}

/// Adds the row of a name, and its bytes.
fn add(
    listed: &StreamName<'_>,
    rows: &mut Vec<PdbStreamName>,
    bytes: &mut Vec<u8>,
) -> std::result::Result<(), AllocError>
    ensures rows { OnOk result (rows.new.items ≡ rows.old.items ++ name_row (length bytes.old.items) (stream_name listed.now) ∷ []) }
    ensures bytes { OnOk result (bytes.new.items ≡ bytes.old.items ++ (stream_name listed.now).name) }
{
    let name = listed.name.as_bytes();
    rows.push(PdbStreamName {
        at: bytes.len(),
        size: name.len(),
        number: u32::from(listed.stream_id.0),
    })?;
    bytes.extend_from_slice(name)
}

/// Adds the rows and the bytes of names.
fn add_all(
    names: &StreamNames<'_>,
    rows: &mut Vec<PdbStreamName>,
    bytes: &mut Vec<u8>,
) -> std::result::Result<(), AllocError>
    requires rows { rows.old.items ≡ [] }
    requires bytes { bytes.old.items ≡ [] }
    ensures rows { OnOk result (rows.new.items ≡ name_rows 0 names.now) }
    ensures bytes { OnOk result (bytes.new.items ≡ names_bytes names.now) }
{
    for listed in names.iter() {
        add(listed, rows, bytes)?;
    }
    Ok(())
}

/// The rows of names, and their bytes one after the other.
fn rows_of(alloc: Global, names: &StreamNames<'_>) -> std::result::Result<Listed, AllocError>
    ensures rows { IfOk result (λ it. it.rows.items ≡ name_rows 0 names.now) }
    ensures bytes { IfOk result (λ it. it.bytes.items ≡ names_bytes names.now) }
{
    let mut rows = Vec::new(alloc);
    let mut bytes = Vec::new(alloc);
    add_all(names, &mut rows, &mut bytes)?;
    Ok(Listed { rows, bytes })
}

/// The names of the streams of a file.
#[tactic(auto, unfolding(crate::specs::StreamNameRows::stream_names_in))]
fn stream_names_of(alloc: Global, file: &[u8]) -> Result<Listed>
    ensures { Gives (λ it. record { rows = it.rows.items; bytes = it.bytes.items }) ⊥ result (stream_names_in file.now) }
{
    let mut pdb = PDB::open(alloc, MemorySource::new(file))?;
    let information = pdb.pdb_information()?;
    let names = information.stream_names(alloc)?;
    Ok(rows_of(alloc, &names)?)
}

/// Puts rows and the bytes of their names, and counts both.
fn fill(
    rows: &[PdbStreamName],
    bytes: &[u8],
    records: &mut [PdbStreamName],
    count: &mut usize,
    names: &mut [u8],
    size: &mut usize,
) -> u32
    ensures { AreNamed (record { rows = rows.now; bytes = bytes.now }) result records.old records.new count.new names.old names.new size.new }
{
    *count = rows.len();
    *size = bytes.len();
    put_rows(rows, records);
    put_bytes(names, 0, bytes);
    both_code(
        room_code(records.len(), rows.len()),
        room_code(names.len(), bytes.len()),
    )
}

/// The named streams of a file, in the order in which the file lists them, and their names one after the other, each as
/// far as its buffer reaches; how many streams there are, and how many bytes of names. The file is opened.
#[unsafe(no_mangle)]
pub extern "C" fn pdb_stream_names(
    alloc: Global,
    file: &[u8],
    records: &mut [PdbStreamName],
    count: &mut usize,
    names: &mut [u8],
    size: &mut usize,
) -> u32
    ensures { NamesTold result records.old records.new count.new names.old names.new size.new (stream_names_in file.now) }
{
    *count = 0;
    *size = 0;
    match stream_names_of(alloc, file) {
        Ok(it) => fill(
            it.rows.as_slice(),
            it.bytes.as_slice(),
            records,
            count,
            names,
            size,
        ),
        Err(e) => code_of(e),
    }
}

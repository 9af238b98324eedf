//! The bytes of streams, many at once.

ghost use Rattle.std.specs.Prelude.{◌≡◌, ◌+◌, [], ◌∷◌, ◌⊎◌, ℕ, length, true, map, Ok, Err, OnOk, IfOk, IfErr};
ghost use Rattle.pdb.specs.Error.{Error};
ghost use Rattle.pdb.specs.Source.{Continues, IsKnown};
ghost use Rattle.pdb.specs.Container.{opens};
ghost use Rattle.pdb.specs.Refusal.{Gives};
ghost use Rattle.pdb_c.specs.Rooms.{put};
ghost use Rattle.pdb_c.specs.Boundary.{Copied, IsRefused};
ghost use Rattle.pdb_c.specs.Streams.{named_bytes_in, stream_read, bytes_read, code_read, bytes_of_stream, all_bytes, stream_row, stream_rows, ArePut};

use crate::answers::{OUT_OF_MEMORY, both_code, code_of, room_code};
use crate::bytes::copy;
use crate::rooms::{behind, put_bytes, put_row};
use pdb::{Error, MemorySource, PDB, Result, Stream, StreamIndex};
use std::alloc::Global;

/// A stream: where its bytes begin in the buffer, how many there are, its number, and 0 or why it fails.
#[repr(C)]
#[derive(Clone, Copy)]
pub struct PdbStream {
    /// Where the stream's bytes begin in the buffer.
    pub at: usize,
    /// How many bytes it has; 0 where it fails.
    pub size: usize,
    /// Its number.
    pub number: u32,
    /// 0, or the number of its error.
    pub code: u32,
}

/// The row of a stream, and its bytes from a place on; returns where those of the next stream begin.
#[tactic(auto, using(crate::proofs::Putting::put_length))]
fn put_read(
    number: u16,
    bytes: &[u8],
    code: u32,
    place: usize,
    at: usize,
    rows: &mut [PdbStream],
    room: &mut [u8],
) -> Result<usize>
    ensures rows { OnOk result (rows.new ≡ put place (record { at = at; size = length bytes.now; number = number; code = code } ∷ []) rows.old) }
    ensures room { OnOk result (room.new ≡ put at bytes.now room.old) }
    ensures end { IfOk result (λ end. end ≡ at + length bytes.now) }
    ensures refused { IfErr result (λ e. e ≡ Error.OutOfMemory) }
{
    let end = behind(at, bytes.len())?;
    let row = PdbStream {
        at,
        size: bytes.len(),
        number: u32::from(number),
        code,
    };
    put_row(rows, place, row);
    put_bytes(room, at, bytes);
    Ok(end)
}

/// Reads a stream, and puts its row, and its bytes from a place on; returns where those of the next stream begin.
#[tactic(auto, unfolding(crate::specs::Streams::stream_read))]
fn put_stream<'s>(
    pdb: &mut PDB<'s, MemorySource<'s>>,
    number: u16,
    place: usize,
    at: usize,
    rows: &mut [PdbStream],
    room: &mut [u8],
) -> Result<usize>
    requires steady { pdb.old.steady ≡ true }
    requires known { IsKnown pdb.old }
    ensures continues { Continues pdb.old pdb.new }
    ensures rows { OnOk result (rows.new ≡ put place (stream_row at number (stream_read pdb.old.file number) ∷ []) rows.old) }
    ensures room { OnOk result (room.new ≡ put at (bytes_of_stream pdb.old.file number) room.old) }
    ensures end { IfOk result (λ end. end ≡ at + length (bytes_of_stream pdb.old.file number)) }
    ensures refused { IfErr result (λ e. e ≡ Error.OutOfMemory) }
{
    match pdb.raw_stream(StreamIndex(number)) {
        Ok(Some(stream)) => put_read(number, stream.as_slice(), 0, place, at, rows, room),
        Ok(None) => put_read(number, &[], 0, place, at, rows, room),
        Err(Error::OutOfMemory) => Err(Error::OutOfMemory),
        Err(e) => put_read(number, &[], code_of(e), place, at, rows, room),
    }
}

/// Reads streams one after another; returns how many bytes they have.
fn put_streams<'s>(
    pdb: &mut PDB<'s, MemorySource<'s>>,
    numbers: &[u16],
    rows: &mut [PdbStream],
    room: &mut [u8],
) -> Result<usize>
    requires steady { pdb.old.steady ≡ true }
    requires known { IsKnown pdb.old }
    ensures rows { OnOk result (rows.new ≡ put 0 (stream_rows pdb.old.file 0 numbers.now) rows.old) }
    ensures room { OnOk result (room.new ≡ put 0 (all_bytes pdb.old.file numbers.now) room.old) }
    ensures size { IfOk result (λ size. size ≡ length (all_bytes pdb.old.file numbers.now)) }
    ensures refused { IfErr result (λ e. e ≡ Error.OutOfMemory) }
{
    let mut end = 0usize;
    for (place, number) in numbers.iter().enumerate() {
        end = put_stream(pdb, *number, place, end, rows, room)?;
    }
    Ok(end)
}

/// The streams of these numbers: the row of each, and their bytes one after the other, each as far as its buffer
/// reaches; how many bytes there are. The file is opened once. Out of memory, `size` is 0.
#[unsafe(no_mangle)]
pub extern "C" fn pdb_streams(
    alloc: Global,
    file: &[u8],
    numbers: &[u16],
    rows: &mut [PdbStream],
    room: &mut [u8],
    size: &mut usize,
) -> u32
    ensures refused { (e : Error) → opens file.now ≡ Err e → IsRefused result e × (rows.new ≡ rows.old) × (room.new ≡ room.old) × (size.new ≡ 0) }
    ensures put { opens file.now ≡ Ok tt → ((result ≡ 22) × (size.new ≡ 0)) ⊎ ArePut file.now numbers.now result rows.old rows.new room.old room.new size.new }
{
    *size = 0;
    let mut pdb = match PDB::open(alloc, MemorySource::new(file)) {
        Ok(pdb) => pdb,
        Err(e) => return code_of(e),
    };
    match put_streams(&mut pdb, numbers, rows, room) {
        Ok(end) => {
            *size = end;
            both_code(
                room_code(rows.len(), numbers.len()),
                room_code(room.len(), end),
            )
        }
        Err(_) => OUT_OF_MEMORY,
    }
}

#[tactic(auto, unfolding(crate::specs::Streams::named_bytes_in))]
fn named_stream_of<'s>(alloc: Global, file: &'s [u8], name: &[u8]) -> Result<Stream<'s>>
    ensures { Gives (λ s. s) ⊥ result (named_bytes_in file.now name.now) }
{
    PDB::open(alloc, MemorySource::new(file))?.named_stream(name)
}

/// The bytes of the stream of this name: as many as there is capacity for, and how many there are.
#[tactic(auto, using(crate::proofs::Codes::copied_read, crate::proofs::Codes::copied_refused))]
#[unsafe(no_mangle)]
pub extern "C" fn pdb_named_stream(
    alloc: Global,
    file: &[u8],
    name: &[u8],
    room: &mut [u8],
    size: &mut usize,
) -> u32
    ensures { Copied result room.old room.new size.new (named_bytes_in file.now name.now) }
{
    *size = 0;
    match named_stream_of(alloc, file, name) {
        Ok(stream) => copy(stream.as_slice(), room, size),
        Err(e) => code_of(e),
    }
}

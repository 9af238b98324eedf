//! What an export returns: a number.

ghost use Rattle.std.specs.Prelude.{◌≡◌};
ghost use Rattle.pdb.specs.Refusal.{number_of};
ghost use Rattle.pdb_c.specs.Boundary.{room_code, both_code};
ghost use Rattle.pdb_c.specs.Lists.{list_code};

use pdb::Error;

/// The call returned.
pub const DONE: u32 = 0;

/// Out of memory: the number of that error.
pub const OUT_OF_MEMORY: u32 = 22;

/// The list has ended.
pub const END: u32 = 30;

/// The buffer that the caller passed is too small.
pub const ROOM: u32 = 31;

/// The bytes are more than a stream can have.
pub const LARGE: u32 = 32;

/// The file has no stream of section headers.
pub const SECTIONS_NOT_FOUND: u32 = 33;

/// The number of an error, from 1 to 22.
pub fn code_of(e: Error) -> u32
    ensures { result ≡ number_of e }
{
    u32::from(e.number())
}

/// Whether a buffer has space for what is needed.
pub fn room_code(room: usize, needed: usize) -> u32
    ensures { result ≡ room_code room needed }
{
    if room < needed { ROOM } else { DONE }
}

/// What a call returns that wrote a list of so many items, with an error behind them, into a buffer: the error, whether
/// or not the buffer is too small.
pub fn list_code(room: usize, count: usize, fault: Option<Error>) -> u32
    ensures { result ≡ list_code room count fault }
{
    match fault {
        None => room_code(room, count),
        Some(e) => code_of(e),
    }
}

/// 31 where either buffer is too small.
pub fn both_code(rows: u32, room: u32) -> u32
    ensures { result ≡ both_code rows room }
{
    if rows == 0 { room } else { rows }
}

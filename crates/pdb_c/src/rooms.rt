//! Buffers of the caller's, which are filled as far as they reach.

ghost use Rattle.std.specs.Prelude.{◌≡◌, ◌+◌, [], ◌∷◌, IfOk, IfErr};
ghost use Rattle.pdb_c.specs.Rooms.{over, put};

use pdb::{Error, Result};

/// Puts bytes in a buffer from an index on, as far as it reaches.
#[tactic(auto, using(crate::proofs::Putting::put_past))]
pub fn put_bytes(room: &mut [u8], at: usize, bytes: &[u8])
    ensures { room.new ≡ put at bytes.now room.old }
{
    if at < room.len() {
        let (_, back) = room.split_at_mut(at);
        let count = back.len().min(bytes.len());
        let (front, _) = back.split_at_mut(count);
        front.copy_from_slice(&bytes[..count]);
    }
}

/// Puts a row in a buffer, where it has space for it.
#[tactic(auto, using(crate::proofs::Putting::put_there, crate::proofs::Putting::put_past))]
pub fn put_row<T: Copy>(room: &mut [T], at: usize, row: T)
    ensures { room.new ≡ put at (row ∷ []) room.old }
{
    if at < room.len() {
        room[at] = row;
    }
}

/// Puts rows in a buffer from its start on.
pub fn put_rows<T: Copy>(rows: &[T], room: &mut [T])
    ensures { room.new ≡ over rows.now room.old }
{
    for (at, row) in rows.iter().enumerate() {
        put_row(room, at, *row);
    }
}

/// An index so far behind another one. As much doesn't fit into memory where there is no such index.
pub fn behind(at: usize, count: usize) -> Result<usize>
    ensures there { IfOk result (λ place. place ≡ at + count) }
    ensures refused { IfErr result (λ e. e ≡ Error.OutOfMemory) }
{
    match at.checked_add(count) {
        Some(place) => Ok(place),
        None => Err(Error::OutOfMemory),
    }
}

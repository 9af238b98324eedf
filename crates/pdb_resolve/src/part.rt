//! Parts of a file that are asked for once.

ghost use Rattle.std.specs.Prelude.{◌≡◌, ◌⊎◌, ◌+◌, false, true, length, Result, option_copied, Err, IfOk, IfErr, OnOk};
ghost use Rattle.pdb.specs.Refusal.{Gives};
ghost use Rattle.pdb_places.specs.AsIfEmpty.{if_read};
ghost use Rattle.pdb.specs.Error.{Error};
ghost use Rattle.pdb.specs.Error.TheVariants.{IoError, OutOfMemory};

use pdb::{Error, Result};
use pdb_places::as_if_empty::if_read;

/// A part of a file. It is asked for once, and what is there is kept in a buffer outside.
#[derive(Drop)]
pub(crate) struct Part<'a, T> {
    // Where it will be put.
    pub(crate) rooms: &'a mut [Option<T>],
    // Whether the file was asked.
    pub(crate) asked: bool,
    pub(crate) there: Option<&'a T>,
}

/// Puts a value into the next buffer.
pub(crate) fn put_down<'a, T: Drop>(rooms: &mut &'a mut [Option<T>], value: T) -> Result<&'a T>
    ensures put { IfOk result (λ r. r.now ≡ value) }
    // It takes one buffer, and fails only where there is none.
    ensures taken { OnOk result (length rooms.old.now ≡ length rooms.new.now + 1) }
    ensures refused { IfErr result (λ e. (e ≡ Error.OutOfMemory) × (length rooms.old.now ≡ 0) × (length rooms.new.now ≡ 0)) }
{
    let Some((room, others)) = std::mem::take(rooms).split_first_mut() else {
        return Err(Error::OutOfMemory);
    };
    *rooms = others;
    Ok(room.insert(value))
}

impl<'a, T: Drop> Part<'a, T> {
    /// A part that wasn't asked for yet.
    pub(crate) fn unasked(rooms: &'a mut [Option<T>]) -> Self
        ensures unasked { result.asked ≡ false }
        ensures rooms { length result.rooms.now ≡ length rooms.entry.now }
    {
        Part {
            rooms,
            asked: false,
            there: None,
        }
    }

    /// Keeps what an accessor returned. Out of memory and a failed view are passed on, and then the file will be
    /// asked again; what has another error isn't there.
    pub(crate) fn keep(&mut self, answer: Result<T>) -> Result<Option<&'a T>>
        requires { self.old.asked ≡ false }
        ensures is { (reading : Result T Error) → Gives (λ x. x) Unit answer reading → IfOk result (λ o. option_copied o ≡ if_read reading) }
        ensures kept { IfOk result (λ o. self.new.there ≡ o) }
        ensures asked { OnOk result (self.new.asked ≡ true) }
        ensures again { IfErr result (λ _. self.new.asked ≡ false) }
        // An error takes no buffer, and comes where the result was one, or no buffer is left.
        ensures rooms { IfErr result (λ _. length self.new.rooms.now ≡ length self.old.rooms.now) }
        ensures passed { IfErr result (λ e. (answer ≡ Err e) ⊎ (length self.old.rooms.now ≡ 0)) }
        ensures refused { IfErr result (λ e. (e ≡ OutOfMemory) ⊎ ((e ≡ IoError) × (answer ≡ Err IoError))) }
    {
        let there = match if_read(answer)? {
            Some(value) => Some(put_down(&mut self.rooms, value)?),
            None => None,
        };
        self.asked = true;
        self.there = there;
        Ok(there)
    }
}

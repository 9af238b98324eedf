//! What has an error is as if it weren't there.

ghost use Rattle.std.specs.Prelude.{◌≡◌, Result, Err, IfOk, IfErr};
ghost use Rattle.pdb.specs.Error.{Error};
ghost use Rattle.pdb.specs.Refusal.{Gives};
ghost use Rattle.pdb_places.specs.AsIfEmpty.{if_read, read_or, OnlyFails};

use pdb::{Error, Result};

/// What was read; none where it has an error. Out of memory, and a view that failed, are passed on, since the same call
/// may succeed later.
pub fn if_read<T: Drop>(answer: Result<T>) -> Result<Option<T>>
    ensures is { (reading : Result T Error) → Gives (λ x. x) Unit answer reading → IfOk result (λ o. o ≡ if_read reading) }
    ensures refused { IfErr result (λ e. (answer ≡ Err e) × OnlyFails Unit e) }
{
    match answer {
        Ok(read) => Ok(Some(read)),
        Err(Error::OutOfMemory) => Err(Error::OutOfMemory),
        Err(Error::IoError) => Err(Error::IoError),
        Err(_) => Ok(None),
    }
}

/// What was read; another one where it has an error. Out of memory, and a view that failed, are passed on.
pub fn read_or<T: Drop>(answer: Result<T>, other: T) -> Result<T>
    ensures is { (reading : Result T Error) → Gives (λ x. x) Unit answer reading → IfOk result (λ x. x ≡ read_or reading other) }
    ensures refused { IfErr result (λ e. (answer ≡ Err e) × OnlyFails Unit e) }
{
    match if_read(answer)? {
        Some(read) => Ok(read),
        None => Ok(other),
    }
}

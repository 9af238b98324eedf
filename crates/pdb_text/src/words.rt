//! The arguments with which a program was called, and what is wrong with them.

ghost use Rattle.std.specs.Prelude.{◌≡◌};

use std::alloc::{AllocError, AllocFailed};
use std::rt::Env;
use std::{env, io};

/// Why the arguments of a program name nothing that it does.
#[derive(Clone, Copy, Debug, PartialEq, Eq)]
pub enum WordsError {
    /// The argument of this index, counted from 0, is wrong. It is the number of arguments where one is missing at the
    /// end.
    BadWord(usize),
    /// Out of memory.
    OutOfMemory,
}

impl From<AllocError> for WordsError {
    ghost use Rattle.pdb_text.specs.declared.words.WordsError.TheVariants.{OutOfMemory};

    ghost from_gives = { λ _ e. e ≡ OutOfMemory };

    fn from(_e: AllocError) -> WordsError {
        WordsError::OutOfMemory
    }
}

impl<T: Drop> From<AllocFailed<T>> for WordsError {
    ghost use Rattle.pdb_text.specs.declared.words.WordsError.TheVariants.{OutOfMemory};

    ghost from_gives = { λ _ e. e ≡ OutOfMemory };

    fn from(_e: AllocFailed<T>) -> WordsError {
        WordsError::OutOfMemory
    }
}

/// The program's arguments, without its own name. `InvalidData` where one isn't UTF-8, `OutOfMemory` where there is no
/// memory for them.
pub fn words_of<R: Env + Alloc>(rt: &R) -> io::Result<Vec<String<R::A>, R::A>> {
    let args = env::args(rt)?;
    let mut words = Vec::new(rt.alloc());
    for word in args.skip(1) {
        words.push(word)?;
    }
    Ok(words)
}

//! The arguments with which the program was called.

use std::alloc::AllocError;
use std::env::FillError;
use std::rt::Env;

/// The program's arguments, without its own name.
#[derive(Drop)]
pub struct Arguments {
    /// Each as text. One that isn't UTF-8 has U+FFFD for each maximal piece that is no character.
    pub words: Vec<String>,
    /// The indices of those that aren't UTF-8, counted from 0.
    pub not_text: Vec<usize>,
}

/// The buffer's size at first, in bytes.
const FIRST_SIZE: usize = 4096;

/// How often the buffer is doubled at most: the system's longest argument or variable has 128 KB.
const MOST_TRIES: usize = 32;

/// What the system is asked for.
#[derive(Clone, Copy)]
enum Asked<'n> {
    /// An argument, counted with the program's name.
    Argument(usize),
    /// A variable of the environment.
    Variable(&'n str),
}

/// Fills a buffer with what is asked for.
fn fill(rt: &impl Env, asked: Asked<'_>, buffer: &mut [u8]) -> Result<usize, FillError> {
    match asked {
        Asked::Argument(index) => rt.arg(index, buffer),
        Asked::Variable(name) => rt.var(name, buffer),
    }
}

/// The bytes of what is asked for; none where there is no such thing.
fn bytes_of(
    rt: &(impl Env + AllocGlobal),
    asked: Asked<'_>,
) -> Result<Option<Vec<u8>>, AllocError> {
    let mut buffer: Vec<u8> = Vec::new(rt.alloc());
    buffer.resize(FIRST_SIZE, 0)?;
    for _ in 0..MOST_TRIES {
        match fill(rt, asked, &mut buffer) {
            Ok(count) => {
                buffer.truncate(count);
                return Ok(Some(buffer));
            }
            Err(FillError::NotPresent) => return Ok(None),
            Err(FillError::TooLong) => {
                let size = buffer.len().saturating_mul(2);
                buffer.resize(size, 0)?;
            }
        }
    }
    Err(AllocError)
}

/// The program's arguments. One that isn't UTF-8 spoils no other.
pub fn arguments_of(rt: &(impl Env + AllocGlobal)) -> Result<Arguments, AllocError> {
    let mut words = Vec::new(rt.alloc());
    let mut not_text = Vec::new(rt.alloc());
    for index in 0..usize::MAX {
        let Some(bytes) = bytes_of(rt, Asked::Argument(index.saturating_add(1)))? else {
            break;
        };
        if std::str::from_utf8(&bytes).is_err() {
            not_text.push(index)?;
        }
        words.push(String::from_utf8_lossy(rt.alloc(), &bytes)?)?;
    }
    Ok(Arguments { words, not_text })
}

/// The bytes of the environment's variable of a name; none where there is none.
pub fn variable_of(
    rt: &(impl Env + AllocGlobal),
    name: &str,
) -> Result<Option<Vec<u8>>, AllocError> {
    bytes_of(rt, Asked::Variable(name))
}

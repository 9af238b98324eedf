//! The bytes of an opened file.

ghost use Rattle.std.specs.Prelude.{◌≡◌};
ghost use Rattle.pdb_file.specs.FileBytes.{size_by};

use crate::counted::CountedReader;
use crate::reading::{FetchError, ReadAt};
use crate::whole::{read_all, size_of};
use std::alloc::Global;
use std::fs::File;
use std::io;

/// The bytes of an opened file.
#[derive(Drop)]
pub enum FileBytes<R: ReadAt + Drop> {
    /// Those of a file of this size. They are read where they are needed.
    InParts(R, u64),
    /// All of them, as of a pipe, which has no size, and of a file of the system's own, whose size is 0.
    Whole(Vec<u8>),
}

impl<R: ReadAt + Drop> FileBytes<R> {
    /// How many there are.
    pub fn size(&self) -> u64
        ensures { result ≡ size_by self.now }
    {
        match self {
            FileBytes::InParts(_, size) => *size,
            FileBytes::Whole(bytes) => bytes.len() as u64,
        }
    }
}

impl<R: ReadAt + Drop> ReadAt for FileBytes<R> {
    ghost use Rattle.std.specs.Prelude.{Some, true};
    ghost use Rattle.pdb_file.specs.FileBytes.{bytes_by};

    ghost known = { bytes_by R.known (λ bytes. Some bytes) };

    ghost is_steady = { bytes_by R.is_steady (λ bytes. true) };

    fn read_bytes_at(&self, buf: &mut [u8], at: u64) -> io::Result<usize> {
        match self {
            FileBytes::InParts(file, _) => file.read_bytes_at(buf, at),
            FileBytes::Whole(bytes) => bytes.read_bytes_at(buf, at),
        }
    }

    fn borrow_at(&self, at: u64, size: usize) -> Option<&[u8]> {
        match self {
            FileBytes::InParts(file, _) => file.borrow_at(at, size),
            FileBytes::Whole(bytes) => bytes.borrow_at(at, size),
        }
    }

    fn steady_size(&self) -> Option<u64> {
        match self {
            FileBytes::InParts(file, _) => file.steady_size(),
            FileBytes::Whole(bytes) => bytes.steady_size(),
        }
    }
}

/// The bytes of a file: those of one that has no size, such as a pipe, are read at once, and so are those of a file whose
/// size is 0, since that of `/proc/self/maps` is, too. Errors are those of [`read_all`].
pub fn bytes_of(alloc: Global, file: File) -> Result<FileBytes<File>, FetchError> {
    match size_of(&file) {
        Some(size) if size > 0 => Ok(FileBytes::InParts(file, size)),
        _ => {
            let bytes = read_all(alloc, &mut CountedReader::counting(file))?;
            Ok(FileBytes::Whole(bytes))
        }
    }
}

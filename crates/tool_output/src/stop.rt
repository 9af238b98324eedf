//! Why a command stopped.

ghost use Rattle.tool_output.specs.Stops.{StopsOpening, stop_of_refusal, stop_of_opening};
ghost use Rattle.std.specs.Prelude.{◌≡◌, ◌≢◌};
ghost use Rattle.pdb.specs.Error.{Error};
ghost use Rattle.tool_output.specs.declared.stop.Stop.{Stop};

use pdb::Error;
use pdb_file::FetchError;
use pdb_image::ImageError;
use pdb_text::WriteFailed;
use std::alloc::AllocError;

/// Why a file can't be opened.
#[derive(Clone, Copy, Debug, PartialEq, Eq)]
pub enum Unopened {
    /// There is no file of this name.
    Missing,
    /// It is a directory.
    Directory,
    /// Permission is denied.
    Denied,
    /// Its name isn't UTF-8.
    NotText,
    /// Any other reason.
    Other,
}

/// Why a command stopped before its text was written whole.
#[derive(Clone, Copy, Debug, PartialEq, Eq)]
pub enum Stop {
    /// The file can't be opened.
    Unopened(Unopened),
    /// The file can't be read.
    Read,
    /// Standard input can't be read.
    Input,
    /// The file can't be opened as a container.
    Open(Error),
    /// The image has an error.
    Image(ImageError),
    /// The image, whose PDB is wanted, names none.
    NoPdb,
    /// Out of memory.
    Memory,
    /// Standard output failed.
    Write,
}

impl From<AllocError> for Stop {
    ghost use Rattle.tool_output.specs.declared.stop.Stop.TheVariants.{Memory};

    ghost from_gives = { λ _ e. e ≡ Memory };

    fn from(_e: AllocError) -> Stop {
        Stop::Memory
    }
}

impl From<WriteFailed> for Stop {
    ghost use Rattle.tool_output.specs.declared.stop.Stop.TheVariants.{Write};

    ghost from_gives = { λ _ e. e ≡ Write };

    fn from(_e: WriteFailed) -> Stop {
        Stop::Write
    }
}

impl From<FetchError> for Stop {
    ghost use Rattle.tool_output.specs.Stops.{stop_of_fetch};

    ghost from_gives = { λ e s. s ≡ stop_of_fetch e };

    fn from(e: FetchError) -> Stop {
        match e {
            FetchError::Read => Stop::Read,
            FetchError::Memory => Stop::Memory,
        }
    }
}

/// Why a call that reads an opened file failed: out of memory, or else that the file can't be read.
pub fn stop_of(e: Error) -> Stop
    ensures { result ≡ stop_of_refusal e }
{
    match e {
        Error::OutOfMemory => Stop::Memory,
        _ => Stop::Read,
    }
}

/// Why a file can't be opened: out of memory, and that it can't be read, are reported as such.
pub fn stop_of_opening(e: Error) -> Stop
    ensures is { result ≡ stop_of_opening e }
    ensures opened { (x : Error) → result ≡ Stop.Open x → (e ≡ x) × (e ≢ Error.OutOfMemory) × (e ≢ Error.IoError) }
    ensures read { StopsOpening (e ≡ Error.IoError) result }
{
    match e {
        Error::OutOfMemory => Stop::Memory,
        Error::IoError => Stop::Read,
        e => Stop::Open(e),
    }
}

//! What the program reads from.

ghost use Rattle.std.specs.Prelude.{◌≡◌};

use pdb_file::{FileBytes, ReadAt};
use std::alloc::{AllocError, Global};
use tool_arguments::operands::Operand;
use tool_output::stop::{Stop, Unopened};

/// Why a file can't be stored.
#[derive(Clone, Copy, Debug, PartialEq, Eq)]
pub enum Unstored {
    /// It can't be read.
    Unread,
    /// It can't be written, for this reason.
    Unwritten(Unopened),
    /// Out of memory.
    OutOfMemory,
}

impl From<AllocError> for Unstored {
    ghost use Rattle.tool_program.specs.declared.host.Unstored.TheVariants.{OutOfMemory};

    ghost from_gives = { λ _ e. e ≡ OutOfMemory };

    fn from(_e: AllocError) -> Unstored {
        Unstored::OutOfMemory
    }
}

/// What opens files, and what is known of standard input and of the arguments.
pub trait Host {
    ghost use Rattle.std.specs.Prelude.{◌≡◌, Bool, List, Result, true, ℕ};
    ghost use Rattle.tool_arguments.specs.Operands.{WordAt, operand_view};
    ghost use Rattle.tool_output.specs.declared.stop.Stop.{Stop};
    ghost use Rattle.tool_program.specs.Hosts.{OpensAs};

    /// A file that is open.
    type File: ReadAt + Drop;

    // Whether contracts know the files, and no read of them fails.
    ghost is_known: { Self → Bool };

    // All bytes of the file that an argument names, or why it can't be opened.
    ghost file: { Self → WordAt → Result (List ℕ) Stop };

    /// Takes memory.
    fn alloc(&self) -> Global;

    /// The bytes of the file that an argument names, or why it can't be opened or read.
    fn open(&self, name: Operand<'_>) -> Result<FileBytes<Self::File>, Stop>
        ensures { is_known self.now ≡ true → OpensAs (⟦<FileBytes<Self::File> as ReadAt>⟧.known) (⟦<FileBytes<Self::File> as ReadAt>⟧.is_steady) result (file self.now (operand_view name.entry)) };

    /// The bytes of the regular file of a path, or why it can't be opened or read: where there is none it is missing. No pipe
    /// and no device is opened.
    fn open_path(&self, path: &str) -> Result<FileBytes<Self::File>, Stop>;

    /// Writes a file of these bytes at a path, whole or not at all: under another name first. Folders are made where they
    /// aren't there.
    fn store(&self, path: &str, bytes: &FileBytes<Self::File>) -> Result<(), Unstored>;

    /// Whether a path leads to a regular file.
    fn is_file(&self, path: &str) -> bool;

    /// The value of the variable `_NT_SYMBOL_PATH`; none where it isn't there.
    fn symbol_path(&self) -> Result<Option<Vec<u8>>, AllocError>;

    /// The first bytes of a file that has a size, and that size; none of a pipe and the like.
    fn front(&self, name: &str) -> Option<(Vec<u8>, u64)>;

    /// Whether standard input is open. Where it is closed, the next file that is opened takes its place.
    fn has_input(&self) -> bool;

    /// Whether standard input is a terminal.
    fn is_asked_by_hand(&self) -> bool;

    /// The indices of the arguments that aren't UTF-8, rising.
    fn not_text(&self) -> &[usize];
}

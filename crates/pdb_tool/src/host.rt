//! The files of the machine that the program runs on, and its standard input.

use pdb_file::{FileBytes, ReadAt, bytes_of, size_of};
use std::alloc::{AllocError, Global};
use std::fs::{self, File, OpenFile};
use std::io::{self, ErrorKind, Write};
use std::os::fd::AsRawFd;
use std::rt::{Env, Files};
use tool_arguments::arguments::variable_of;
use tool_arguments::operands::Operand;
use tool_output::stop::{Stop, Unopened};
use tool_program::file_kind::FRONT_SIZE;
use tool_program::host::{Host, Unstored};
use tool_program::store_paths::folder_of;

/// The machine, and which arguments aren't UTF-8.
#[derive(Drop)]
pub struct Machine<'a, R> {
    rt: &'a R,
    not_text: &'a [usize],
    is_asked_by_hand: bool,
}

/// Why a file can't be opened.
fn unopened_by(e: &io::Error) -> Unopened {
    match e.kind() {
        ErrorKind::NotFound => Unopened::Missing,
        ErrorKind::PermissionDenied => Unopened::Denied,
        ErrorKind::IsADirectory => Unopened::Directory,
        _ => Unopened::Other,
    }
}

/// Why there is no file at a path that was made: no folder is in a file, and no file has a name that is too long.
fn untried_by(e: &io::Error) -> Unopened {
    match e.kind() {
        ErrorKind::NotADirectory | ErrorKind::InvalidFilename => Unopened::Missing,
        ErrorKind::InvalidInput => Unopened::Missing,
        _ => unopened_by(e),
    }
}

/// Whether a file is a directory.
fn is_directory(file: &File) -> bool {
    match file.metadata() {
        Ok(metadata) => metadata.is_dir(),
        Err(_) => false,
    }
}

/// The file of a name.
fn open_named(rt: &impl Files<File = File>, name: &str) -> Result<File, Stop> {
    match fs::open(rt, name) {
        Ok(file) if is_directory(&file) => Err(Stop::Unopened(Unopened::Directory)),
        Ok(file) => Ok(file),
        Err(e) => Err(Stop::Unopened(unopened_by(&e))),
    }
}

/// How many bytes of a file are copied at once.
const BLOCK: usize = 65536;

/// How many names a file has before it is whole.
const PART_NAMES: u32 = 100;

/// That a file can't be written.
fn unwritten(e: &io::Error) -> Unstored {
    Unstored::Unwritten(unopened_by(e))
}

/// A new file beside a path, and its path: the first of a hundred names that isn't there.
fn new_part(
    rt: &(impl Files<File = File> + AllocGlobal),
    path: &str,
) -> Result<(String, File), Unstored> {
    for k in 0..PART_NAMES {
        let part = format!(in rt.alloc(); "{path}.{k}.part")?;
        match File::create_new(rt, part.as_str()) {
            Ok(file) => return Ok((part, file)),
            Err(e) if e.kind() == ErrorKind::AlreadyExists => {}
            Err(e) => return Err(unwritten(&e)),
        }
    }
    Err(Unstored::Unwritten(Unopened::Other))
}

/// Copies all bytes to a file, has the disk keep them, and closes it.
fn copy_to(alloc: Global, bytes: &FileBytes<File>, mut file: File) -> Result<(), Unstored> {
    let mut block = Vec::new(alloc);
    block.resize(BLOCK, 0)?;
    let mut at = 0u64;
    // Each turn copies a byte or more.
    for _ in 0..bytes.size() {
        if at >= bytes.size() {
            break;
        }
        match bytes.read_bytes_at(&mut block, at) {
            Ok(0) | Err(_) => return Err(Unstored::Unread),
            Ok(count) => {
                file.write_all(&block[..count]).map_err(|e| unwritten(&e))?;
                at = at.saturating_add(count as u64);
            }
        }
    }
    file.sync_all().map_err(|e| unwritten(&e))
}

/// Has the disk keep the names in a folder. A system that can't is none that stops the program.
fn keep_names(rt: &impl Files<File = File>, folder: &str) {
    let folder = if folder.is_empty() { "." } else { folder };
    if let Ok(file) = fs::open(rt, folder) {
        let _ = file.sync_all();
    }
}

impl<'a, R: Files<File = File> + Env + AllocGlobal> Machine<'a, R> {
    /// The machine, where the arguments of these indices aren't UTF-8; and whether standard input is a terminal.
    pub fn new(rt: &'a R, not_text: &'a [usize], is_asked_by_hand: bool) -> Self {
        Machine {
            rt,
            not_text,
            is_asked_by_hand,
        }
    }
}

impl<'a, R: Files<File = File> + Env + AllocGlobal> Host for Machine<'a, R> {
    ghost use Rattle.std.specs.Prelude.{false, Err};
    ghost use Rattle.tool_output.specs.declared.stop.Stop.TheVariants.{Read};

    type File = File;

    ghost is_known = { λ _. false };

    ghost file = { λ _ _. Err Read };

    fn alloc(&self) -> Global {
        self.rt.alloc()
    }

    fn open(&self, name: Operand<'_>) -> Result<FileBytes<File>, Stop> {
        if self.not_text.contains(&name.argument) {
            return Err(Stop::Unopened(Unopened::NotText));
        }
        let file = open_named(self.rt, name.word)?;
        Ok(bytes_of(self.rt.alloc(), file)?)
    }

    fn open_path(&self, path: &str) -> Result<FileBytes<File>, Stop> {
        match fs::metadata(self.rt, path) {
            Ok(metadata) if metadata.is_file() => {}
            Ok(_) => return Err(Stop::Unopened(Unopened::Missing)),
            Err(e) => return Err(Stop::Unopened(untried_by(&e))),
        }
        let file = open_named(self.rt, path)?;
        Ok(bytes_of(self.rt.alloc(), file)?)
    }

    fn store(&self, path: &str, bytes: &FileBytes<File>) -> Result<(), Unstored> {
        let folder = folder_of(path);
        fs::create_dir_all(self.rt, folder).map_err(|e| unwritten(&e))?;
        let (part, file) = new_part(self.rt, path)?;
        let moved = match copy_to(self.rt.alloc(), bytes, file) {
            Ok(()) => fs::rename(self.rt, part.as_str(), path).map_err(|e| unwritten(&e)),
            Err(why) => Err(why),
        };
        if moved.is_err() {
            let _ = fs::remove_file(self.rt, part.as_str());
        }
        keep_names(self.rt, folder);
        moved
    }

    fn is_file(&self, path: &str) -> bool {
        match fs::metadata(self.rt, path) {
            Ok(metadata) => metadata.is_file(),
            Err(_) => false,
        }
    }

    fn symbol_path(&self) -> Result<Option<Vec<u8>>, AllocError> {
        variable_of(self.rt, "_NT_SYMBOL_PATH")
    }

    fn front(&self, name: &str) -> Option<(Vec<u8>, u64)> {
        // Opening a pipe once more would wait for another writer. Where a system has no kinds of files by their names, it
        // has no such pipes.
        if let Ok(metadata) = fs::metadata(self.rt, name) {
            if !metadata.is_file() {
                return None;
            }
        }
        let file = open_named(self.rt, name).ok()?;
        let size = size_of(&file)?;
        let mut front = Vec::new(self.rt.alloc());
        front.resize(FRONT_SIZE, 0).ok()?;
        let count = file.read_bytes_at(&mut front, 0).ok()?;
        front.truncate(count);
        // A file of the system's own has bytes, and says that its size is 0.
        if size < count as u64 {
            return None;
        }
        Some((front, size))
    }

    fn has_input(&self) -> bool {
        // Where standard input is closed, its descriptor is free, and the next file has it.
        match fs::open(self.rt, "/") {
            Ok(folder) => folder.as_raw_fd() != 0,
            Err(_) => true,
        }
    }

    fn is_asked_by_hand(&self) -> bool {
        self.is_asked_by_hand
    }

    fn not_text(&self) -> &[usize] {
        self.not_text
    }
}

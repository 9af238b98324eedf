//! The files of a module, and the checksums of their contents.

ghost use Rattle.std.specs.Prelude.{◌+◌, ◌^◌, ◌<◌, ◌≤◌, ◌≡◌, length, ⊤};
ghost use Rattle.pdb_base.specs.Cursor.{Reads};
ghost use Rattle.pdb_base.specs.Refusal.{Answers};
ghost use Rattle.pdb_modules.specs.Files.{checksum_of, entry_at, entry_length, file_of, file_at, files_of};
ghost use Rattle.pdb_modules.specs.FileViews.{bytes_of_entry, shown_checksum, shown_file};

use pdb_base::little_endian::{u8_at, u32_at};
use pdb_base::{Error, FallibleIterator, ParseBuffer, Result, Steps, StringRef};
use std::alloc::AllocError;

/// A digest of a source file's contents, by its kind in `cvinfo.h`: `CHKSUM_TYPE_NONE`, `CHKSUM_TYPE_MD5`,
/// `CHKSUM_TYPE_SHA1`, `CHKSUM_TYPE_SHA_256`.
#[derive(Clone, Debug, Drop)]
pub enum FileChecksum<'a> {
    /// No digest.
    None,
    /// MD5.
    Md5(&'a [u8]),
    /// SHA-1.
    Sha1(&'a [u8]),
    /// SHA-256.
    Sha256(&'a [u8]),
}

/// Checksums are equal where both are of one kind and have the same bytes. No checksum equals nothing, itself
/// neither: it says nothing of a file's contents.
impl PartialEq for FileChecksum<'_> {
    ghost use Rattle.pdb_modules.specs.FileViews.{same_checksum, same_laws};

    ghost eq = { same_checksum };

    ghost laws = { same_laws };

    fn eq(&self, other: &Self) -> bool {
        match (self, other) {
            (FileChecksum::Md5(left), FileChecksum::Md5(right))
            | (FileChecksum::Sha1(left), FileChecksum::Sha1(right))
            | (FileChecksum::Sha256(left), FileChecksum::Sha256(right)) => left == right,
            _ => false,
        }
    }
}

/// A source file of a module.
#[derive(Clone, Debug, Drop, PartialEq)]
pub struct FileInfo<'a> {
    /// Its name, by its offset in the string table.
    pub name: StringRef,
    /// The checksum of its contents.
    pub checksum: FileChecksum<'a>,
}

/// A record of the checksums of files.
#[derive(Clone, Copy)]
pub struct FileRecord<'a> {
    place: usize,
    name: u32,
    kind: u8,
    digest: &'a [u8],
}

/// The checksum of a digest of a known kind.
fn checksum(kind: u8, digest: &[u8]) -> FileChecksum<'_>
    ensures { shown_checksum result ≡ checksum_of kind digest.entry.now }
{
    match kind {
        0 => FileChecksum::None,
        1 => FileChecksum::Md5(digest),
        2 => FileChecksum::Sha1(digest),
        _ => FileChecksum::Sha256(digest),
    }
}

impl<'a> FileRecord<'a> {
    /// Where the record stands among the checksums, counted from their start: lines and inlined functions name the file
    /// by it.
    pub fn place(&self) -> usize
        ensures { result ≡ (bytes_of_entry self.now).place }
    {
        self.place
    }

    /// The file of the record.
    pub fn file(&self) -> FileInfo<'a>
        ensures { shown_file result ≡ file_of (bytes_of_entry self.now) }
    {
        file(*self)
    }
}

/// The file of a record.
fn file(entry: FileRecord<'_>) -> FileInfo<'_>
    ensures { shown_file result ≡ file_of (bytes_of_entry entry.entry) }
{
    FileInfo {
        name: StringRef(entry.name),
        checksum: checksum(entry.kind, entry.digest),
    }
}

/// The record at the offset of a buffer over the checksums.
#[tactic(auto, unfolding(crate::specs::Files::entry_at))]
pub fn read_file_record<'a>(buffer: &mut ParseBuffer<'a>) -> Result<FileRecord<'a>>
    ensures { Reads bytes_of_entry buffer.old buffer.new result (entry_at buffer.old.bytes buffer.old.place) (entry_length buffer.old.place) }
{
    let place = buffer.pos();
    let header = buffer.take(6)?;
    let digest = buffer.take(usize::from(u8_at(header, 4)))?;
    let kind = u8_at(header, 5);
    if kind > 3 {
        return Err(Error::UnimplementedFileChecksumKind(kind));
    }
    buffer.align(4)?;
    Ok(FileRecord {
        place,
        name: u32_at(header, 0),
        kind,
        digest,
    })
}

/// The file of the record that begins at an offset of the checksums.
#[tactic(auto, unfolding(crate::specs::Files::file_at))]
pub(crate) fn file_info(checksums: &[u8], place: u32) -> Result<FileInfo<'_>>
    ensures { Answers shown_file result (file_at checksums.entry.now place) }
{
    let at = place as usize;
    if at == checksums.len() {
        return Err(Error::InvalidFileChecksumOffset(place));
    }
    if at > checksums.len() {
        return Err(Error::UnexpectedEof);
    }
    let mut buffer = ParseBuffer::from(checksums);
    buffer.seek(at);
    Ok(file(read_file_record(&mut buffer)?))
}

/// The files of a module, in the order of their checksums. A record is a name of four bytes, a size and a kind of one
/// byte each, so many bytes, and padding up to a multiple of four bytes from the part's start. Where any of it isn't
/// there it is `UnexpectedEof`, and a kind above 3 is `UnimplementedFileChecksumKind`; after either the list has
/// ended.
#[derive(Drop)]
pub struct FileIterator<'a> {
    buffer: ParseBuffer<'a>,
    steps: Steps,
    ghost small: { length buffer.bytes < 2 ^ 64 },
    ghost inside: { buffer.place ≤ length buffer.bytes },
    ghost going: { buffer.place < length buffer.bytes → steps.count ≤ buffer.place },
    ghost counted: { steps.count ≤ buffer.place + 1 },
}

impl<'a> FileIterator<'a> {
    ghost use Rattle.pdb_modules.specs.ModuleViews.{files_left, files_part, files_steps};

    // The files of these checksums.
    #[tactic(auto, unfolding(crate::specs::Files::files_of, crate::specs::Files::entries_from))]
    pub(crate) fn new(checksums: &'a [u8]) -> Self
        ensures left { files_left result ≡ files_of checksums.entry.now }
        ensures part { files_part result ≡ checksums.entry.now }
        ensures steps { files_steps result ≡ 0 }
    {
        FileIterator {
            buffer: ParseBuffer::from(checksums),
            steps: Steps::new(),
        }
    }
}

impl<'a> FallibleIterator for FileIterator<'a> {
    ghost use Rattle.std.specs.Prelude.{◌≢◌, IfOk, IfErr, IfSome, IfNone};
    ghost use Rattle.pdb_base.specs.Left.{Yields};
    ghost use Rattle.pdb_base.specs.declared.error.Error.TheVariants.{IoError, OutOfMemory};
    ghost use Rattle.pdb_modules.specs.Files.{FileOf};
    ghost use Rattle.pdb_modules.specs.FileViews.{shown_file};
    ghost use Rattle.pdb_modules.specs.ModuleViews.{files_left, files_part, files_steps};

    type Item = FileInfo<'a>;

    ghost Shown = { FileOf };

    ghost shown = { shown_file };

    ghost left = { files_left };

    #[tactic(auto, using(crate::proofs::FileLemmas::files_few))]
    fn next(&mut self) -> Result<Option<FileInfo<'a>>>
        ensures yields { Yields shown_file (files_left self.old) result (files_left self.new) }
        ensures few { length (files_left self.old).items < 2 ^ 64 }
        ensures part { files_part self.new ≡ files_part self.old }
        ensures bound { files_steps self.new ≤ length (files_part self.new) + 1 }
        ensures stepped { IfOk result (λ o. IfSome o (λ _. files_steps self.new ≡ files_steps self.old + 1)) }
        ensures stepped_to_fault { IfErr result (λ _. files_steps self.new ≡ files_steps self.old + 1) }
        ensures rests { IfOk result (λ o. IfNone o (files_steps self.new ≡ files_steps self.old)) }
        ensures refused { IfErr result (λ e. (e ≢ OutOfMemory) × (e ≢ IoError)) }
    {
        if self.buffer.is_empty() {
            return Ok(None);
        }
        self.steps.tick();
        match read_file_record(&mut self.buffer) {
            Ok(entry) => Ok(Some(file(entry))),
            Err(error) => {
                self.buffer.seek(usize::MAX);
                Err(error)
            }
        }
    }
}

/// The same files, and the same steps so far.
impl Clone for FileIterator<'_> {
    ghost use Rattle.pdb_modules.specs.ModuleViews.{files_left, files_part, files_steps};

    ghost is_clone = { λ a b. (files_left b ≡ files_left a) × (files_part b ≡ files_part a) × (files_steps b ≡ files_steps a) };

    ghost is_infallible = { λ _. ⊤ };

    fn clone(&self) -> std::result::Result<Self, AllocError> {
        Ok(FileIterator {
            buffer: self.buffer.clone()?,
            steps: self.steps.clone()?,
        })
    }
}

/// No files.
impl Default for FileIterator<'_> {
    ghost use Rattle.std.specs.Prelude.{[]};
    ghost use Rattle.pdb_base.specs.Left.{ended};
    ghost use Rattle.pdb_modules.specs.ModuleViews.{files_left, files_part, files_steps};

    ghost is_default = { λ it. (files_left it ≡ ended) × (files_part it ≡ []) × (files_steps it ≡ 0) };

    #[tactic(auto, using(crate::proofs::FileLemmas::none_of_nothing))]
    fn default() -> Self {
        FileIterator::new(&[])
    }
}

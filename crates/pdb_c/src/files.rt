//! The files of a module, and the checksums of their contents.

ghost use Rattle.std.specs.Prelude.{◌≡◌, ◌≤◌, ◌<◌, length, Ok, Err};
ghost use Rattle.pdb.specs.Refusal.{Answers, Gives};
ghost use Rattle.pdb.specs.Files.{digest_kind, digest_bytes, entries_from};
ghost use Rattle.pdb.specs.FileViews.{bytes_of_entry, shown_checksum};
ghost use Rattle.pdb.specs.ModuleStream.{lines_data_of, line_program_of};
ghost use Rattle.pdb_c.specs.Lists.{IsListed};
ghost use Rattle.pdb_c.specs.LineRows.{module_bytes};
ghost use Rattle.pdb_c.specs.FileRows.{file_row, file_told, FilesTold};

use crate::answers::{LARGE, OUT_OF_MEMORY, code_of, list_code};
use crate::parts::lines_data;
use crate::rooms::put_row;
use pdb::{Error, Feature, FileChecksum, LinePlaces, ParseBuffer, Result};
use pdb_modules::{FileRecord, read_file_record};
use std::alloc::Global;

/// A file of a module. Its checksum is bytes of the module's stream.
#[repr(C)]
#[derive(Clone, Copy)]
pub struct PdbFile<'a> {
    /// The bytes of its checksum.
    pub checksum: &'a [u8],
    /// The offset of its record among the checksums: lines and inlined functions name the file by it.
    pub index: u32,
    /// The offset of its name in the string table.
    pub name: u32,
    /// The checksum's kind: 0 is none, 1 MD5, 2 SHA-1, 3 SHA-256.
    pub kind: u32,
}

fn kind_of(checksum: &FileChecksum<'_>) -> u32
    ensures { result ≡ digest_kind (shown_checksum checksum.now) }
{
    match checksum {
        FileChecksum::None => 0,
        FileChecksum::Md5(_) => 1,
        FileChecksum::Sha1(_) => 2,
        FileChecksum::Sha256(_) => 3,
    }
}

fn bytes_of<'a>(checksum: &FileChecksum<'a>) -> &'a [u8]
    ensures { result.now ≡ digest_bytes (shown_checksum checksum.now) }
{
    match checksum {
        FileChecksum::None => &[],
        FileChecksum::Md5(digest) => digest,
        FileChecksum::Sha1(digest) => digest,
        FileChecksum::Sha256(digest) => digest,
    }
}

fn shown<'a>(entry: &FileRecord<'a>) -> PdbFile<'a>
    requires place { (bytes_of_entry entry.now).place < 4294967296 }
    ensures { file_row result ≡ file_told (bytes_of_entry entry.now) }
{
    let file = entry.file();
    PdbFile {
        checksum: bytes_of(&file.checksum),
        index: entry.place() as u32,
        name: file.name.0,
        kind: kind_of(&file.checksum),
    }
}

/// Puts the files of checksums, and counts them.
fn fill<'a>(checksums: &'a [u8], records: &mut [PdbFile<'a>], count: &mut usize) -> u32
    requires size { length checksums.now < 4294967296 }
    ensures { IsListed file_row file_told result records.old records.new count.new (entries_from checksums.entry.now 0) }
{
    let mut buffer = ParseBuffer::from(checksums);
    let mut n = 0usize;
    while !buffer.is_empty() {
        match read_file_record(&mut buffer) {
            Ok(record) => {
                put_row(records, n, shown(&record));
                n += 1;
            }
            Err(e) => {
                *count = n;
                return list_code(records.len(), n, Some(e));
            }
        }
    }
    *count = n;
    list_code(records.len(), n, None)
}

/// The line subsections of a module's stream of these bytes and sizes.
#[tactic(auto, unfolding(pdb_modules::specs::ModuleStream::line_program_of))]
fn places<'a>(
    alloc: Global,
    stream: &'a [u8],
    symbols_size: u32,
    lines_size: u32,
    c13_lines_size: u32,
) -> Result<LinePlaces<'a>>
    ensures { Gives (λ p. p) ⊥ result (line_program_of (module_bytes stream.entry.now symbols_size lines_size c13_lines_size)) }
{
    if lines_size > 0 {
        return Err(Error::UnimplementedFeature(Feature::C11LinePrograms));
    }
    LinePlaces::parse(alloc, lines_data(stream, symbols_size, c13_lines_size)?)
}

/// The files of a module's stream of these bytes and sizes: as many as there is capacity for, and how many there are.
#[tactic(auto, using(crate::proofs::Codes::obtained, crate::proofs::Codes::obtained_none, crate::proofs::Codes::refused))]
#[unsafe(no_mangle)]
pub extern "C" fn pdb_files<'a>(
    alloc: Global,
    stream: &'a [u8],
    symbols_size: u32,
    lines_size: u32,
    c13_lines_size: u32,
    records: &mut [PdbFile<'a>],
    count: &mut usize,
) -> u32
    ensures large { 4294967295 ≤ length stream.now → (result ≡ 32) × (records.new ≡ records.old) × (count.new ≡ 0) }
    ensures listed { length stream.now < 4294967295 → FilesTold result records.old records.new count.new (line_program_of (module_bytes stream.now symbols_size lines_size c13_lines_size)) }
{
    *count = 0;
    if stream.len() >= 4294967295 {
        return LARGE;
    }
    match places(alloc, stream, symbols_size, lines_size, c13_lines_size) {
        Ok(places) => {
            let checksums = places.checksums();
            // They are some of the stream's bytes, which are fewer; no proof knows it.
            if checksums.len() >= 4294967296 {
                return OUT_OF_MEMORY;
            }
            fill(checksums, records, count)
        }
        Err(e) => code_of(e),
    }
}

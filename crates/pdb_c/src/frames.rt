//! The frames of addresses, many at once.

ghost use Rattle.std.specs.Prelude.{◌≡◌, ◌+◌, [], ◌∷◌, ◌⊎◌, length, true, map, option_copied, Ok, Err, OnOk, IfErr};
ghost use Rattle.std.specs.Option.{option_map};
ghost use Rattle.pdb.specs.Error.{Error};
ghost use Rattle.pdb.specs.Source.{Continues, IsKnown};
ghost use Rattle.pdb.specs.Container.{opens};
ghost use Rattle.pdb.specs.Text.{name_bytes};
ghost use Rattle.pdb_resolve.specs.Frames.{scope_text};
ghost use Rattle.pdb_resolve.specs.KeptFrames.{shown_frame};
ghost use Rattle.pdb_code.specs.Namings.{shown_function_name};
ghost use Rattle.pdb_c.specs.Rooms.{put};
ghost use Rattle.pdb_c.specs.Boundary.{IsRefused};
ghost use Rattle.pdb_c.specs.FrameRows.{place_asked, qualified_bytes, file_bytes, told_of, frame_row, frame_rows, frame_bytes, frames_bytes, frames_asked, bytes_asked, all_rows, all_names, AreFrames};

use crate::answers::{OUT_OF_MEMORY, both_code, code_of, room_code};
use crate::rooms::{behind, put_bytes, put_row};
use pdb::{Error, MemorySource, PDB, PdbInternalSectionOffset, RawString, Result};
use pdb_resolve::{Frame, FunctionName, Resolver, Streams};
use std::alloc::Global;

/// An address that is asked for.
#[repr(C)]
#[derive(Clone, Copy)]
pub struct PdbAddress {
    /// A relative virtual address, or an offset in a section.
    pub offset: u32,
    /// The section, where it is an offset.
    pub section: u16,
    /// 0 for a relative virtual address, 1 for an offset in a section, another for none.
    pub kind: u16,
}

/// A frame: a function whose code stands at an address, and the line there. Its names stand in the buffer of names.
#[repr(C)]
#[derive(Clone, Copy)]
pub struct PdbFrame {
    /// Which address it is of, counted from 0.
    pub address: usize,
    /// Where the function's name begins.
    pub name_at: usize,
    /// How many bytes it has.
    pub name_size: usize,
    /// Where the file's name begins.
    pub file_at: usize,
    /// How many bytes it has.
    pub file_size: usize,
    /// The line, 0 where none is known.
    pub line: u32,
    /// The column, 0 where none is known.
    pub column: u32,
    /// 1 where the function has a name.
    pub has_name: u32,
    /// 1 where the file has a name.
    pub has_file: u32,
}

/// Puts bytes behind those that are there.
#[tactic(auto, using(crate::proofs::Putting::put_length))]
pub fn add(names: &mut [u8], size: &mut usize, bytes: &[u8]) -> Result<()>
    ensures names { OnOk result (names.new ≡ put size.old bytes.now names.old) }
    ensures size { OnOk result (size.new ≡ size.old + length bytes.now) }
    ensures refused { IfErr result (λ e. e ≡ Error.OutOfMemory) }
{
    let end = behind(*size, bytes.len())?;
    put_bytes(names, *size, bytes);
    *size = end;
    Ok(())
}

/// Puts what stands before a name.
#[tactic(auto, using(crate::proofs::Putting::put_behind, crate::proofs::Putting::put_none))]
fn add_scope(names: &mut [u8], size: &mut usize, scope: Option<RawString<'_>>) -> Result<()>
    ensures names { OnOk result (names.new ≡ put size.old (scope_text (option_map name_bytes scope.entry)) names.old) }
    ensures size { OnOk result (size.new ≡ size.old + length (scope_text (option_map name_bytes scope.entry))) }
    ensures refused { IfErr result (λ e. e ≡ Error.OutOfMemory) }
{
    match scope {
        Some(scope) => {
            add(names, size, scope.as_bytes())?;
            add(names, size, b"::")
        }
        None => Ok(()),
    }
}

/// Puts a function's name.
#[tactic(auto, using(crate::proofs::Putting::put_behind, crate::proofs::Putting::put_none))]
fn add_name(names: &mut [u8], size: &mut usize, name: Option<&FunctionName<'_>>) -> Result<()>
    ensures names { OnOk result (names.new ≡ put size.old (qualified_bytes (option_map shown_function_name (option_copied name.entry))) names.old) }
    ensures size { OnOk result (size.new ≡ size.old + length (qualified_bytes (option_map shown_function_name (option_copied name.entry)))) }
    ensures refused { IfErr result (λ e. e ≡ Error.OutOfMemory) }
{
    match name {
        Some(name) => {
            add_scope(names, size, name.qualifier())?;
            add(names, size, name.unqualified())
        }
        None => Ok(()),
    }
}

/// Puts a file's name.
#[tactic(auto, using(crate::proofs::Putting::put_none))]
fn add_file(names: &mut [u8], size: &mut usize, file: Option<RawString<'_>>) -> Result<()>
    ensures names { OnOk result (names.new ≡ put size.old (file_bytes (option_map name_bytes file.entry)) names.old) }
    ensures size { OnOk result (size.new ≡ size.old + length (file_bytes (option_map name_bytes file.entry))) }
    ensures refused { IfErr result (λ e. e ≡ Error.OutOfMemory) }
{
    match file {
        Some(file) => add(names, size, file.as_bytes()),
        None => Ok(()),
    }
}

/// Puts a frame of the address with this number.
#[tactic(auto, using(crate::proofs::Putting::put_behind))]
fn put_frame(
    frame: &Frame<'_>,
    address: usize,
    rows: &mut [PdbFrame],
    count: &mut usize,
    names: &mut [u8],
    size: &mut usize,
) -> Result<()>
    ensures rows { OnOk result (rows.new ≡ put count.old (frame_row address size.old (shown_frame frame.now) ∷ []) rows.old) }
    ensures count { OnOk result (count.new ≡ count.old + 1) }
    ensures names { OnOk result (names.new ≡ put size.old (frame_bytes (shown_frame frame.now)) names.old) }
    ensures size { OnOk result (size.new ≡ size.old + length (frame_bytes (shown_frame frame.now))) }
    ensures refused { IfErr result (λ e. e ≡ Error.OutOfMemory) }
{
    let name_at = *size;
    add_name(names, size, frame.name.as_ref())?;
    let file_at = *size;
    add_file(names, size, frame.file)?;
    let row = PdbFrame {
        address,
        name_at,
        name_size: file_at - name_at,
        file_at,
        file_size: *size - file_at,
        line: frame.line,
        column: frame.column,
        has_name: told_of(frame.name.is_some()),
        has_file: told_of(frame.file.is_some()),
    };
    put_row(rows, *count, row);
    *count = behind(*count, 1)?;
    Ok(())
}

/// 1 where something is there.
pub fn told_of(there: bool) -> u32
    ensures { result ≡ told_of there }
{
    if there { 1 } else { 0 }
}

/// Puts the frames of the address with this number.
fn put_frames(
    found: &[Frame<'_>],
    address: usize,
    rows: &mut [PdbFrame],
    count: &mut usize,
    names: &mut [u8],
    size: &mut usize,
) -> Result<()>
    ensures rows { OnOk result (rows.new ≡ put count.old (frame_rows address size.old (map shown_frame found.now)) rows.old) }
    ensures count { OnOk result (count.new ≡ count.old + length found.now) }
    ensures names { OnOk result (names.new ≡ put size.old (frames_bytes (map shown_frame found.now)) names.old) }
    ensures size { OnOk result (size.new ≡ size.old + length (frames_bytes (map shown_frame found.now))) }
    ensures refused { IfErr result (λ e. e ≡ Error.OutOfMemory) }
{
    for frame in found {
        put_frame(frame, address, rows, count, names, size)?;
    }
    Ok(())
}

/// The `section:offset` that is asked for.
pub fn place_asked<'s>(
    resolver: &Resolver<'_, 's, MemorySource<'s>>,
    asked: &PdbAddress,
) -> Option<PdbInternalSectionOffset>
    requires { IsKnown resolver.now }
    ensures { result ≡ place_asked resolver.now.file asked.now }
{
    match asked.kind {
        0 => resolver.place(asked.offset),
        1 => Some(PdbInternalSectionOffset::new(asked.section, asked.offset)),
        _ => None,
    }
}

/// Puts the frames of an address, which has this number.
fn put_asked<'s>(
    resolver: &mut Resolver<'_, 's, MemorySource<'s>>,
    asked: &PdbAddress,
    address: usize,
    rows: &mut [PdbFrame],
    count: &mut usize,
    names: &mut [u8],
    size: &mut usize,
) -> Result<()>
    requires { IsKnown resolver.old }
    ensures continues { Continues resolver.old resolver.new }
    ensures rows { OnOk result (rows.new ≡ put count.old (frame_rows address size.old (frames_asked resolver.old.file asked.now)) rows.old) }
    ensures count { OnOk result (count.new ≡ count.old + length (frames_asked resolver.old.file asked.now)) }
    ensures names { OnOk result (names.new ≡ put size.old (bytes_asked resolver.old.file asked.now) names.old) }
    ensures size { OnOk result (size.new ≡ size.old + length (bytes_asked resolver.old.file asked.now)) }
{
    let place = place_asked(resolver, asked);
    let found = resolver.frames(place)?;
    put_frames(found.as_slice(), address, rows, count, names, size)
}

/// Puts the frames of addresses, one after another.
fn put_all<'s>(
    resolver: &mut Resolver<'_, 's, MemorySource<'s>>,
    asked: &[PdbAddress],
    rows: &mut [PdbFrame],
    count: &mut usize,
    names: &mut [u8],
    size: &mut usize,
) -> Result<()>
    requires { IsKnown resolver.old }
    ensures rows { OnOk result (rows.new ≡ put count.old (all_rows resolver.old.file 0 size.old asked.now) rows.old) }
    ensures count { OnOk result (count.new ≡ count.old + length (all_rows resolver.old.file 0 size.old asked.now)) }
    ensures names { OnOk result (names.new ≡ put size.old (all_names resolver.old.file asked.now) names.old) }
    ensures size { OnOk result (size.new ≡ size.old + length (all_names resolver.old.file asked.now)) }
{
    for (address, it) in asked.iter().enumerate() {
        put_asked(resolver, it, address, rows, count, names, size)?;
    }
    Ok(())
}

/// Puts the frames of addresses of an opened file.
fn put_opened<'s>(
    alloc: Global,
    pdb: PDB<'s, MemorySource<'s>>,
    asked: &[PdbAddress],
    rows: &mut [PdbFrame],
    count: &mut usize,
    names: &mut [u8],
    size: &mut usize,
) -> Result<()>
    requires steady { pdb.steady ≡ true }
    requires known { IsKnown pdb }
    ensures rows { OnOk result (rows.new ≡ put count.old (all_rows pdb.entry.file 0 size.old asked.now) rows.old) }
    ensures count { OnOk result (count.new ≡ count.old + length (all_rows pdb.entry.file 0 size.old asked.now)) }
    ensures names { OnOk result (names.new ≡ put size.old (all_names pdb.entry.file asked.now) names.old) }
    ensures size { OnOk result (size.new ≡ size.old + length (all_names pdb.entry.file asked.now)) }
{
    let mut streams = Streams::new(alloc);
    let mut resolver = Resolver::new(alloc, pdb, &mut streams)?;
    put_all(&mut resolver, asked, rows, count, names, size)
}

/// The frames of addresses, from the innermost outwards, one address after the other, and their names: each as far as
/// its buffer reaches; how many frames there are, and how many bytes of names. The file is opened once. Out of memory,
/// both counts are 0.
#[unsafe(no_mangle)]
pub extern "C" fn pdb_frames(
    alloc: Global,
    file: &[u8],
    asked: &[PdbAddress],
    rows: &mut [PdbFrame],
    count: &mut usize,
    names: &mut [u8],
    size: &mut usize,
) -> u32
    ensures refused { (e : Error) → opens file.now ≡ Err e → IsRefused result e × (rows.new ≡ rows.old) × (names.new ≡ names.old) × (count.new ≡ 0) × (size.new ≡ 0) }
    ensures put { opens file.now ≡ Ok tt → ((result ≡ 22) × (count.new ≡ 0) × (size.new ≡ 0)) ⊎ AreFrames file.now asked.now result rows.old rows.new count.new names.old names.new size.new }
{
    *count = 0;
    *size = 0;
    let pdb = match PDB::open(alloc, MemorySource::new(file)) {
        Ok(pdb) => pdb,
        Err(e) => return code_of(e),
    };
    match put_opened(alloc, pdb, asked, rows, count, names, size) {
        Ok(()) => both_code(room_code(rows.len(), *count), room_code(names.len(), *size)),
        Err(_) => {
            *count = 0;
            *size = 0;
            OUT_OF_MEMORY
        }
    }
}

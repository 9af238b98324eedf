//! The inlined functions of a module, and the line records of their sites.

ghost use Rattle.std.specs.Prelude.{◌≡◌, ◌≤◌, ◌<◌, length, Ok, Err, IfSome};
ghost use Rattle.pdb.specs.Error.{Error};
ghost use Rattle.pdb.specs.Refusal.{number_of};
ghost use Rattle.pdb.specs.InlinedViews.{inlined_left};
ghost use Rattle.pdb.specs.Inlined.{inlined_lines};
ghost use Rattle.pdb.specs.ModuleStream.{line_program_of, inlinees_of};
ghost use Rattle.pdb.specs.ModuleViews.{inlinees_left};
ghost use Rattle.pdb_c.specs.Lists.{IsListed};
ghost use Rattle.pdb_c.specs.LineRows.{inlined_row, name_place, file_code, module_bytes};
ghost use Rattle.pdb_c.specs.InlineeRows.{file_in, inlinee_row, InlineesTold};

use crate::answers::{LARGE, OUT_OF_MEMORY, code_of, list_code};
use crate::lines::{PdbLine, named_row};
use crate::rooms::put_row;
use pdb::{
    BinaryAnnotations, Error, FallibleIterator, FileIndex, Inlinee, InlineeIterator,
    InlineeLineIterator, LinePlaces, ModuleInfo, PdbInternalSectionOffset, Result, Stream,
};
use std::alloc::Global;

/// A function that is inlined somewhere.
#[repr(C)]
#[derive(Clone, Copy)]
pub struct PdbInlinee {
    /// The function's id.
    pub id: u32,
    /// The line in which it begins.
    pub line: u32,
    /// The file in which it begins, by the offset of its checksum.
    pub file: u32,
    /// The offset of the file's name in the string table.
    pub file_name: u32,
    /// 0, or why the file has no name.
    pub file_refused: u32,
}

/// The line subsections of a module, or why there are none; nothing where memory runs out.
fn places<'a>(alloc: Global, module_info: &'a ModuleInfo<'_>) -> Option<Result<LinePlaces<'a>>>
    ensures { IfSome result (λ r. r ≡ line_program_of module_info.now) }
{
    match module_info.line_places(alloc) {
        Ok(places) => Some(Ok(places)),
        Err(Error::OutOfMemory) => None,
        Err(e) => Some(Err(e)),
    }
}

/// The offset of the name of a file, and 0 or why there is no such file.
fn file_of(places: &Result<LinePlaces<'_>>, file: FileIndex) -> (u32, u32)
    ensures name { result.0 ≡ name_place (file_in places.now file.0) }
    ensures code { result.1 ≡ file_code (file_in places.now file.0) }
{
    match places {
        Ok(places) => match places.get_file_info(file) {
            Ok(info) => (info.name.0, 0),
            Err(e) => (0, code_of(e)),
        },
        Err(e) => (0, code_of(*e)),
    }
}

fn shown(places: &Result<LinePlaces<'_>>, inlinee: &Inlinee<'_>) -> PdbInlinee
    ensures { result ≡ inlinee_row places.now inlinee.now }
{
    let (file_name, file_refused) = file_of(places, inlinee.file_index());
    PdbInlinee {
        id: inlinee.index().0,
        line: inlinee.line(),
        file: inlinee.file_index().0,
        file_name,
        file_refused,
    }
}

/// Puts the functions that are left, and counts them.
fn fill(
    places: &Result<LinePlaces<'_>>,
    mut inlinees: InlineeIterator<'_>,
    records: &mut [PdbInlinee],
    count: &mut usize,
) -> u32
    ensures { IsListed (λ r. r) (inlinee_row places.now) result records.old records.new count.new (inlinees_left inlinees.entry) }
{
    let mut n = 0usize;
    loop {
        match inlinees.next() {
            Ok(Some(inlinee)) => {
                put_row(records, n, shown(places, &inlinee));
                n += 1;
            }
            Ok(None) => {
                *count = n;
                return list_code(records.len(), n, None);
            }
            Err(e) => {
                *count = n;
                return list_code(records.len(), n, Some(e));
            }
        }
    }
}

/// Puts the inlined functions of a module.
#[tactic(auto, using(crate::proofs::Codes::obtained_none, crate::proofs::Codes::answered))]
fn inlinees_of(
    alloc: Global,
    module_info: &ModuleInfo<'_>,
    records: &mut [PdbInlinee],
    count: &mut usize,
) -> u32
    requires { count.old ≡ 0 }
    ensures listed { InlineesTold result records.old records.new count.new module_info.now }
    ensures refused { (e : Error) → inlinees_of module_info.now ≡ Err e → result ≡ number_of e }
{
    let inlinees = match module_info.inlinees() {
        Ok(inlinees) => inlinees,
        Err(e) => return code_of(e),
    };
    match places(alloc, module_info) {
        Some(places) => fill(&places, inlinees, records, count),
        None => OUT_OF_MEMORY,
    }
}

/// The inlined functions of a module's stream of these bytes and sizes: as many as there is capacity for, and how many
/// there are.
#[unsafe(no_mangle)]
pub extern "C" fn pdb_inlinees(
    alloc: Global,
    stream: &[u8],
    symbols_size: u32,
    lines_size: u32,
    c13_lines_size: u32,
    records: &mut [PdbInlinee],
    count: &mut usize,
) -> u32
    ensures large { 4294967295 ≤ length stream.now → (result ≡ 32) × (records.new ≡ records.old) × (count.new ≡ 0) }
    ensures listed { length stream.now < 4294967295 → InlineesTold result records.old records.new count.new (module_bytes stream.now symbols_size lines_size c13_lines_size) }
    // It takes no memory where the list has an error.
    ensures refused { length stream.now < 4294967295 → (e : Error) → inlinees_of (module_bytes stream.now symbols_size lines_size c13_lines_size) ≡ Err e → result ≡ number_of e }
{
    *count = 0;
    let Some(bytes) = Stream::new(stream) else {
        return LARGE;
    };
    let info = ModuleInfo::with_sizes(bytes, symbols_size, lines_size, c13_lines_size);
    inlinees_of(alloc, &info, records, count)
}

/// Puts the line records that are left, and counts them.
fn fill_lines(mut lines: InlineeLineIterator<'_>, records: &mut [PdbLine], count: &mut usize) -> u32
    ensures { IsListed (λ r. r) inlined_row result records.old records.new count.new (inlined_left lines.entry) }
{
    let mut n = 0usize;
    loop {
        match lines.next() {
            Ok(Some(line)) => {
                put_row(records, n, named_row(0, 0, &line));
                n += 1;
            }
            Ok(None) => {
                *count = n;
                return list_code(records.len(), n, None);
            }
            Err(e) => {
                *count = n;
                return list_code(records.len(), n, Some(e));
            }
        }
    }
}

/// The line records of a site with these annotations, of a function that begins in this file and line, inlined in the
/// procedure that begins at this `section:offset`: as many as there is capacity for, and how many there are.
#[unsafe(no_mangle)]
pub extern "C" fn pdb_inlined_lines(
    annotations: &[u8],
    section: u16,
    offset: u32,
    file: u32,
    line: u32,
    records: &mut [PdbLine],
    count: &mut usize,
) -> u32
    ensures { IsListed (λ r. r) inlined_row result records.old records.new count.new (inlined_lines (record { offset = offset; section = section }) (record { 0 = file }) line annotations.now) }
{
    let parent = PdbInternalSectionOffset::new(section, offset);
    let annotations = BinaryAnnotations::new(annotations);
    let lines = InlineeLineIterator::new(parent, FileIndex(file), line, annotations);
    fill_lines(lines, records, count)
}

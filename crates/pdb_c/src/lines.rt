//! The line records of a module.

ghost use Rattle.std.specs.Prelude.{◌≡◌, ◌≤◌, ◌<◌, [], length, Ok, Err};
ghost use Rattle.std.specs.Option.{unwrap_or};
ghost use Rattle.pdb.specs.Files.{file_at};
ghost use Rattle.pdb.specs.LineViews.{lines_left};
ghost use Rattle.pdb.specs.ModuleStream.{line_program_of, line_subsections_of};
ghost use Rattle.pdb_c.specs.Lists.{IsListed};
ghost use Rattle.pdb_c.specs.LineRows.{told, is_statement, name_place, file_code, named_row, line_row, LinesTold, LinesExact, module_bytes};

use crate::answers::{LARGE, code_of, list_code};
use crate::rooms::put_row;
use pdb::{
    FallibleIterator, FileIndex, LineInfo, LineInfoKind, LineIterator, LineProgram, ModuleInfo,
    Stream,
};
use std::alloc::Global;

/// A line record. What isn't known is 0.
#[repr(C)]
#[derive(Clone, Copy)]
pub struct PdbLine {
    /// Where its code begins in the section.
    pub offset: u32,
    /// The section.
    pub section: u16,
    /// 0, or why the file has no name.
    pub file_refused: u16,
    /// 1 where the length is known.
    pub has_length: u8,
    /// 1 where the column is known at which it starts.
    pub has_column_start: u8,
    /// 1 where the column is known at which it ends.
    pub has_column_end: u8,
    /// 1 for a statement, 0 for an expression.
    pub is_statement: u8,
    /// How many bytes of code it is.
    pub length: u32,
    /// The file, by the offset of its checksum.
    pub file: u32,
    /// The offset of the file's name in the string table.
    pub file_name: u32,
    /// The first line.
    pub line_start: u32,
    /// The last line.
    pub line_end: u32,
    /// The column at which it starts.
    pub column_start: u32,
    /// The column at which it ends.
    pub column_end: u32,
}

fn told(number: Option<u32>) -> u8
    ensures { result ≡ told number }
{
    match number {
        Some(_) => 1,
        None => 0,
    }
}

fn is_statement(kind: LineInfoKind) -> u8
    ensures { result ≡ is_statement kind }
{
    match kind {
        LineInfoKind::Statement => 1,
        LineInfoKind::Expression => 0,
    }
}

/// The offset of the name of a file, and 0 or why there is no such file.
fn file_of(program: &LineProgram<'_>, file: FileIndex) -> (u32, u16)
    ensures name { result.0 ≡ name_place (file_at program.now.checksums file.0) }
    ensures code { result.1 ≡ file_code (file_at program.now.checksums file.0) }
{
    match program.get_file_info(file) {
        Ok(info) => (info.name.0, 0),
        Err(e) => (0, u16::from(e.number())),
    }
}

/// The row of a record, where the name of its file is at an offset, or fails.
pub fn named_row(file_name: u32, file_refused: u16, line: &LineInfo) -> PdbLine
    ensures { result ≡ named_row file_name file_refused line.now }
{
    PdbLine {
        offset: line.offset.offset,
        section: line.offset.section,
        file_refused,
        has_length: told(line.length),
        has_column_start: told(line.column_start),
        has_column_end: told(line.column_end),
        is_statement: is_statement(line.kind),
        length: line.length.unwrap_or(0),
        file: line.file_index.0,
        file_name,
        line_start: line.line_start,
        line_end: line.line_end,
        column_start: line.column_start.unwrap_or(0),
        column_end: line.column_end.unwrap_or(0),
    }
}

fn shown(program: &LineProgram<'_>, line: &LineInfo) -> PdbLine
    ensures { result ≡ line_row program.now.checksums line.now }
{
    let (file_name, file_refused) = file_of(program, line.file_index);
    named_row(file_name, file_refused, line)
}

/// Puts the lines that are left, and counts them.
fn fill(
    program: &LineProgram<'_>,
    mut lines: LineIterator<'_>,
    records: &mut [PdbLine],
    count: &mut usize,
) -> u32
    ensures { IsListed (λ r. r) (line_row program.now.checksums) result records.old records.new count.new (lines_left lines.entry) }
{
    let mut n = 0usize;
    loop {
        match lines.next() {
            Ok(Some(line)) => {
                put_row(records, n, shown(program, &line));
                n += 1;
            }
            Ok(None) => {
                *count = n;
                return list_code(records.len(), n, None);
            }
            Err(e) => {
                *count = n;
                return list_code(records.len(), n, Some(e));
            }
        }
    }
}

/// Puts the lines of a module.
#[tactic(auto, using(crate::proofs::Codes::lines_refused, crate::proofs::Codes::owed, crate::proofs::Codes::not_memory))]
fn lines_of(
    alloc: Global,
    module_info: &ModuleInfo<'_>,
    records: &mut [PdbLine],
    count: &mut usize,
) -> u32
    requires { count.old ≡ 0 }
    ensures listed { LinesTold result records.old records.new count.new (line_program_of module_info.now) }
    ensures lean { line_subsections_of module_info.now ≡ [] → LinesExact result records.old records.new count.new (line_program_of module_info.now) }
{
    match module_info.line_program(alloc) {
        Ok(program) => fill(&program, program.lines(), records, count),
        Err(e) => code_of(e),
    }
}

/// The line records of a module's stream of these bytes and sizes: as many as there is capacity for, and how many there
/// are.
#[unsafe(no_mangle)]
pub extern "C" fn pdb_lines(
    alloc: Global,
    stream: &[u8],
    symbols_size: u32,
    lines_size: u32,
    c13_lines_size: u32,
    records: &mut [PdbLine],
    count: &mut usize,
) -> u32
    ensures large { 4294967295 ≤ length stream.now → (result ≡ 32) × (records.new ≡ records.old) × (count.new ≡ 0) }
    ensures listed { length stream.now < 4294967295 → LinesTold result records.old records.new count.new (line_program_of (module_bytes stream.now symbols_size lines_size c13_lines_size)) }
    // It takes no memory where there is no subsection of lines.
    ensures lean { length stream.now < 4294967295 → line_subsections_of (module_bytes stream.now symbols_size lines_size c13_lines_size) ≡ [] → LinesExact result records.old records.new count.new (line_program_of (module_bytes stream.now symbols_size lines_size c13_lines_size)) }
{
    *count = 0;
    let Some(bytes) = Stream::new(stream) else {
        return LARGE;
    };
    let info = ModuleInfo::with_sizes(bytes, symbols_size, lines_size, c13_lines_size);
    lines_of(alloc, &info, records, count)
}

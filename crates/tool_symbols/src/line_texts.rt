//! The text of `lines`.

ghost use Rattle.std.specs.Prelude.{◌≡◌, ◌++◌, Some, OnOk, codes, option_copied};
ghost use Rattle.std.specs.Option.{option_map, unwrap_or};
ghost use Rattle.std.specs.Fmt.{decimal};
ghost use Rattle.pdb.specs.LineViews.{lines_left};
ghost use Rattle.pdb.specs.Text.{name_bytes};
ghost use Rattle.pdb_resolve.specs.Frames.{file_in, file_name, file_text};
ghost use Rattle.tool_symbols.specs.LineTexts.{lines_text, record_file, record_line, records_text};
ghost use Rattle.tool_fields.specs.Values.{optional_text, place_text};

use pdb::{
    FallibleIterator, FileIndex, LineInfo, LineIterator, LineProgram, ModuleInfo, RawString,
    StringTable,
};
use pdb_text::{put_decimal, put_line_end};
use std::alloc::{AllocError, Global};
use tool_fields::values::{put_optional, put_place};
use tool_output::error_line::{put_error_line, put_refusal_line};

// piece: file_name
/// The name of the file of an index, where it is there.
fn file_name<'n>(
    strings: Option<&'n StringTable<'_>>,
    program: &LineProgram<'_>,
    index: FileIndex,
) -> Option<RawString<'n>>
    ensures { option_map name_bytes result ≡ file_name (option_copied strings.entry) (file_in (Some program.now) index.0) }
{
    let file = program.get_file_info(index).ok()?;
    strings?.get(file.name).ok()
}
// end

/// The name of the file of an index, or `??` where it isn't there.
fn put_file(
    out: &mut Vec<u8>,
    strings: Option<&StringTable<'_>>,
    program: &LineProgram<'_>,
    index: FileIndex,
) -> Result<(), AllocError>
    ensures { OnOk result (out.new.items ≡ out.old.items ++ file_text (file_name (option_copied strings.entry) (file_in (Some program.now) index.0))) }
{
    pdb_resolve::put_file(out, file_name(strings, program, index))
}

/// `:` and a number.
fn put_colon_number(out: &mut Vec<u8>, n: u32) -> Result<(), AllocError>
    ensures { OnOk result (out.new.items ≡ out.old.items ++ (codes ":" ++ decimal n)) }
{
    out.push(b':')?;
    put_decimal(out, u64::from(n))
}

/// The line of a record.
#[tactic(auto, unfolding(crate::specs::LineTexts::record_line))]
fn put_record(
    out: &mut Vec<u8>,
    strings: Option<&StringTable<'_>>,
    program: &LineProgram<'_>,
    line: &LineInfo,
) -> Result<(), AllocError>
    ensures { OnOk result (out.new.items ≡ out.old.items ++ record_line (option_copied strings.entry) program.now line.now) }
{
    put_place(out, line.offset)?;
    out.push(b' ')?;
    put_optional(out, line.length)?;
    out.push(b' ')?;
    put_file(out, strings, program, line.file_index)?;
    put_colon_number(out, line.line_start)?;
    put_colon_number(out, line.column_start.unwrap_or(0))?;
    put_line_end(out)
}

// piece: put_records
/// The lines of the records that an iterator has left, and then that of its fault.
fn put_records(
    out: &mut Vec<u8>,
    strings: Option<&StringTable<'_>>,
    program: &LineProgram<'_>,
    mut lines: LineIterator<'_>,
) -> Result<(), AllocError>
    ensures { OnOk result (out.new.items ≡ out.old.items ++ records_text (option_copied strings.entry) program.now (lines_left lines.entry)) }
{
    loop {
        match lines.next() {
            Ok(Some(line)) => put_record(out, strings, program, &line)?,
            Ok(None) => return Ok(()),
            Err(e) => return put_error_line(out, e),
        }
    }
}
// end

// piece: put_lines
/// The text of `lines` of a module: its line records, or their error.
#[tactic(auto, unfolding(crate::specs::LineTexts::lines_text))]
pub fn put_lines(
    alloc: Global,
    out: &mut Vec<u8>,
    strings: Option<&StringTable<'_>>,
    info: &ModuleInfo<'_>,
) -> Result<(), AllocError>
    ensures { OnOk result (out.new.items ≡ out.old.items ++ lines_text (option_copied strings.entry) info.now) }
{
    match info.line_program(alloc) {
        Ok(program) => put_records(out, strings, &program, program.lines()),
        Err(e) => put_refusal_line(out, e),
    }
}
// end

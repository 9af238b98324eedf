//! The lines of line records.

ghost use Rattle.std.specs.Prelude.{◌≡◌, ◌++◌, OnOk, codes};
ghost use Rattle.pdb.specs.LineViews.{lines_left};
ghost use Rattle.pdb_text.specs.Digits.{hex};
ghost use Rattle.pdb_list.specs.Texts.{offset_text};
ghost use Rattle.pdb_list.specs.ModuleTexts.{columns_text, line_kind_text, line_list_text, line_text, lines_of_text, numbers_text};

use crate::text::{put_error, put_optional_field, put_refusal};
use pdb::{
    FallibleIterator, LineInfo, LineInfoKind, LineIterator, ModuleInfo, PdbInternalSectionOffset,
};
use pdb_text::{hex4, hex8, put_field};
use std::alloc::{AllocError, Global};

/// `line`, a section, `:` and an offset.
#[inline(always)]
#[tactic(auto, unfolding(pdb_text::specs::Digits::hex))]
fn head(offset: PdbInternalSectionOffset) -> [u8; 18]
    ensures { result ≡ codes "line " ++ offset_text offset }
{
    let s = hex4(offset.section);
    let o = hex8(offset.offset);
    [
        b'l', b'i', b'n', b'e', b' ', s[0], s[1], s[2], s[3], b':', o[0], o[1], o[2], o[3], o[4],
        o[5], o[6], o[7],
    ]
}

/// A record's length, file, first line and last line.
#[tactic(auto, unfolding(crate::specs::ModuleTexts::numbers_text))]
fn put_numbers(out: &mut Vec<u8>, line: &LineInfo) -> Result<(), AllocError>
    ensures { OnOk result (out.new.items ≡ out.old.items ++ numbers_text line.now) }
{
    put_optional_field(out, line.length)?;
    put_field(out, u64::from(line.file_index.0))?;
    put_field(out, u64::from(line.line_start))?;
    put_field(out, u64::from(line.line_end))
}

/// A record's columns.
#[tactic(auto, unfolding(crate::specs::ModuleTexts::columns_text))]
fn put_columns(out: &mut Vec<u8>, line: &LineInfo) -> Result<(), AllocError>
    ensures { OnOk result (out.new.items ≡ out.old.items ++ columns_text line.now) }
{
    put_optional_field(out, line.column_start)?;
    put_optional_field(out, line.column_end)
}

/// A record's kind, and the end of the line.
fn put_kind(out: &mut Vec<u8>, kind: LineInfoKind) -> Result<(), AllocError>
    ensures { OnOk result (out.new.items ≡ out.old.items ++ line_kind_text kind) }
{
    match kind {
        LineInfoKind::Expression => out.extend_from_slice(b" E\n"),
        LineInfoKind::Statement => out.extend_from_slice(b" S\n"),
    }
}

/// A record's columns and kind, and the end of the line.
#[tactic(auto, unfolding(crate::specs::ModuleTexts::columns_text))]
fn put_rest(out: &mut Vec<u8>, line: &LineInfo) -> Result<(), AllocError>
    ensures { OnOk result (out.new.items ≡ out.old.items ++ (columns_text line.now ++ line_kind_text line.now.kind)) }
{
    match (line.column_start, line.column_end, line.kind) {
        (None, None, LineInfoKind::Statement) => out.extend_from_slice(b" - - S\n"),
        (None, None, LineInfoKind::Expression) => out.extend_from_slice(b" - - E\n"),
        _ => {
            put_columns(out, line)?;
            put_kind(out, line.kind)
        }
    }
}

/// The line of a line record.
#[tactic(auto, unfolding(crate::specs::ModuleTexts::line_text))]
pub fn put_line(out: &mut Vec<u8>, line: &LineInfo) -> Result<(), AllocError>
    ensures { OnOk result (out.new.items ≡ out.old.items ++ line_text line.now) }
{
    out.extend_from_slice(&head(line.offset))?;
    put_numbers(out, line)?;
    put_rest(out, line)
}

/// The lines of the records that an iterator has left, and then that of its fault.
fn put_list(out: &mut Vec<u8>, mut lines: LineIterator<'_>) -> Result<(), AllocError>
    ensures { OnOk result (out.new.items ≡ out.old.items ++ line_list_text (lines_left lines.entry)) }
{
    loop {
        match lines.next() {
            Ok(Some(line)) => put_line(out, &line)?,
            Ok(None) => return Ok(()),
            Err(e) => return put_error(out, e.number()),
        }
    }
}

/// The lines of a module's line records, or of their error.
#[tactic(auto, unfolding(crate::specs::ModuleTexts::lines_of_text))]
pub fn put_lines(alloc: Global, out: &mut Vec<u8>, info: &ModuleInfo<'_>) -> Result<(), AllocError>
    ensures { OnOk result (out.new.items ≡ out.old.items ++ lines_of_text info.now) }
{
    match info.line_program(alloc) {
        Ok(program) => put_list(out, program.lines()),
        Err(e) => put_refusal(out, e),
    }
}

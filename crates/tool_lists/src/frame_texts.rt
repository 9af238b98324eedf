//! The text of `frames`.

ghost use Rattle.std.specs.Prelude.{◌≡◌, ◌++◌, ◌/◌, ◌<◌, true, codes, flat_map, length, option_copied, IfErr, OnOk};
ghost use Rattle.std.specs.Fmt.{decimal};
ghost use Rattle.std.specs.List.{range_with_len};
ghost use Rattle.pdb.specs.Source.{Continues, MayFail};
ghost use Rattle.pdb_frames.specs.FrameViews.{fpo_bytes, frame_bytes};
ghost use Rattle.tool_fields.specs.FieldTexts.{field};
ghost use Rattle.tool_lists.specs.FrameTexts.{flag_text, flags_text, fpo_lines, frame_data_lines, frame_line, frame_line_in, frames_command, kind_word, lines_of_new, lines_of_old, newer_line, older_line, program_of, program_text, sizes_text, table_text};
ghost use Rattle.tool_output.specs.Stops.{Halts, StopsComposing};
ghost use Rattle.tool_printing.specs.Printing.{Prints, shown};

use crate::frame_objects::put_frame_object;
use pdb::{FrameTable, PDB, Source, Stream, StringRef, StringTable};
use pdb_frames::{FpoRecords, FrameData, FrameDataRecords, FrameType};
use pdb_text::{put_decimal, put_field, put_line_end};
use std::alloc::{AllocError, Global};
use tool_arguments::options::OutputFormat;
use tool_fields::fields::put_label;
use tool_fields::values::{put_address, put_behind_blank};
use tool_output::absent::{DEBUG_INFORMATION, lacks};
use tool_output::error_objects::{put_none_in, put_refused_in};
use tool_output::file_streams::strings_of;
use tool_output::stop::Stop;
use tool_printing::Printer;

/// The word of a kind of frame.
pub fn kind_word(kind: FrameType) -> &'static str
    ensures { result.now ≡ kind_word kind }
{
    match kind {
        FrameType::Fpo => "fpo",
        FrameType::Trap => "trap",
        FrameType::Tss => "tss",
        FrameType::Standard => "standard",
        FrameType::FrameData => "framedata",
    }
}

/// The program that undoes a frame; no bytes where the record has none, or the string table hasn't it.
pub fn program_of<'a>(strings: Option<&'a StringTable<'_>>, program: Option<StringRef>) -> &'a [u8]
    ensures { result.now ≡ program_of (option_copied strings.entry) program }
{
    let (Some(strings), Some(program)) = (strings, program) else {
        return &[];
    };
    match strings.get(program) {
        Ok(text) => text.as_bytes(),
        Err(_) => &[],
    }
}

/// A size, as a field.
#[tactic(auto, unfolding(tool_fields::specs::FieldTexts::field))]
fn put_size(out: &mut Vec<u8>, name: &[u8], size: u64) -> Result<(), AllocError>
    ensures { OnOk result (out.new.items ≡ out.old.items ++ field name.now (decimal size)) }
{
    put_label(out, name)?;
    put_decimal(out, size)
}

/// The sizes of a frame.
#[tactic(auto, unfolding(crate::specs::FrameTexts::sizes_text))]
fn put_sizes(out: &mut Vec<u8>, frame: &FrameData) -> Result<(), AllocError>
    ensures { OnOk result (out.new.items ≡ out.old.items ++ sizes_text frame.now) }
{
    put_size(out, b"locals", frame.locals_size)?;
    put_size(out, b"params", u64::from(frame.params_size))?;
    put_size(out, b"saved", u64::from(frame.saved_regs_size))?;
    put_size(out, b"prolog", u64::from(frame.prolog_size))?;
    put_size(out, b"max", u64::from(frame.max_stack_size))
}

/// A word, where something is so.
fn put_flag(out: &mut Vec<u8>, is_so: bool, word: &[u8]) -> Result<(), AllocError>
    ensures { OnOk result (out.new.items ≡ out.old.items ++ flag_text is_so word.now) }
{
    if is_so {
        out.extend_from_slice(word)
    } else {
        Ok(())
    }
}

/// What else is so of a frame.
#[tactic(auto, unfolding(crate::specs::FrameTexts::flags_text))]
fn put_flags(out: &mut Vec<u8>, frame: &FrameData) -> Result<(), AllocError>
    ensures { OnOk result (out.new.items ≡ out.old.items ++ flags_text frame.now) }
{
    put_flag(out, frame.has_structured_eh, b" seh")?;
    put_flag(out, frame.has_cpp_eh, b" eh")?;
    put_flag(out, frame.is_function_start, b" start")?;
    put_flag(out, frame.uses_base_pointer, b" bp")
}

/// The program that undoes a frame, where the record has one.
fn put_program(out: &mut Vec<u8>, program: Option<StringRef>, text: &[u8]) -> Result<(), AllocError>
    ensures { OnOk result (out.new.items ≡ out.old.items ++ program_text program text.now) }
{
    match program {
        None => Ok(()),
        Some(_) if text.is_empty() => out.extend_from_slice(b" ??"),
        Some(_) => put_behind_blank(out, text),
    }
}

/// The line of a record: its address, its size, its kind, the sizes of its parts, and its program.
#[tactic(auto, unfolding(crate::specs::FrameTexts::frame_line))]
fn put_frame(
    out: &mut Vec<u8>,
    strings: Option<&StringTable<'_>>,
    frame: &FrameData,
) -> Result<(), AllocError>
    ensures { OnOk result (out.new.items ≡ out.old.items ++ frame_line (option_copied strings.entry) frame.now) }
{
    put_address(out, Some(frame.code_start))?;
    put_field(out, u64::from(frame.code_size))?;
    out.push(b' ')?;
    out.extend_from_slice(kind_word(frame.frame_type).as_bytes())?;
    put_sizes(out, frame)?;
    put_flags(out, frame)?;
    put_program(out, frame.program, program_of(strings, frame.program))?;
    put_line_end(out)
}

/// The line of a record, in a format.
fn put_frame_in(
    out: &mut Vec<u8>,
    format: OutputFormat,
    strings: Option<&StringTable<'_>>,
    frame: &FrameData,
) -> Result<(), AllocError>
    ensures { OnOk result (out.new.items ≡ out.old.items ++ frame_line_in format (option_copied strings.entry) frame.now) }
{
    match format {
        OutputFormat::Text => put_frame(out, strings, frame),
        OutputFormat::Json => put_frame_object(out, strings, frame),
    }
}

/// The line of the record of a number that has a program.
fn put_newer(
    out: &mut Vec<u8>,
    format: OutputFormat,
    strings: Option<&StringTable<'_>>,
    records: FrameDataRecords<'_>,
    k: usize,
) -> Result<(), AllocError>
    requires { k < length (frame_bytes records) / 32 }
    ensures { OnOk result (out.new.items ≡ out.old.items ++ newer_line format (option_copied strings.entry) (frame_bytes records.entry) k) }
{
    match records.get(k) {
        Some(frame) => put_frame_in(out, format, strings, &frame),
        None => Ok(()),
    }
}

/// The line of the record of a number that has none.
fn put_older(
    out: &mut Vec<u8>,
    format: OutputFormat,
    records: FpoRecords<'_>,
    k: usize,
) -> Result<(), AllocError>
    requires { k < length (fpo_bytes records) / 16 }
    ensures { OnOk result (out.new.items ≡ out.old.items ++ older_line format (fpo_bytes records.entry) k) }
{
    match records.get(k) {
        Some(frame) => put_frame_in(out, format, None, &frame),
        None => Ok(()),
    }
}

/// The lines of the records that have a program.
fn put_frame_data(
    out: &mut Vec<u8>,
    format: OutputFormat,
    strings: Option<&StringTable<'_>>,
    records: FrameDataRecords<'_>,
) -> Result<(), AllocError>
    ensures { OnOk result (out.new.items ≡ out.old.items ++ frame_data_lines format (option_copied strings.entry) (frame_bytes records.entry)) }
{
    for k in 0..records.len() {
        put_newer(out, format, strings, records, k)?;
    }
    Ok(())
}

/// The lines of the records that have none.
fn put_fpo(
    out: &mut Vec<u8>,
    format: OutputFormat,
    records: FpoRecords<'_>,
) -> Result<(), AllocError>
    ensures { OnOk result (out.new.items ≡ out.old.items ++ fpo_lines format (fpo_bytes records.entry)) }
{
    for k in 0..records.len() {
        put_older(out, format, records, k)?;
    }
    Ok(())
}

/// The lines of the newer stream, where the file has it.
fn put_new(
    out: &mut Vec<u8>,
    format: OutputFormat,
    strings: Option<&StringTable<'_>>,
    stream: Option<&Stream<'_>>,
) -> Result<(), AllocError>
    ensures { OnOk result (out.new.items ≡ out.old.items ++ lines_of_new format (option_copied strings.entry) (option_copied stream.entry)) }
{
    match stream {
        Some(stream) => put_frame_data(
            out,
            format,
            strings,
            FrameDataRecords::new(stream.as_slice()),
        ),
        None => Ok(()),
    }
}

/// The lines of the older stream, where the file has it.
fn put_old(
    out: &mut Vec<u8>,
    format: OutputFormat,
    stream: Option<&Stream<'_>>,
) -> Result<(), AllocError>
    ensures { OnOk result (out.new.items ≡ out.old.items ++ lines_of_old format (option_copied stream.entry)) }
{
    match stream {
        Some(stream) => put_fpo(out, format, FpoRecords::new(stream.as_slice())),
        None => Ok(()),
    }
}

/// The lines of both streams, or `none`.
fn put_table(
    out: &mut Vec<u8>,
    format: OutputFormat,
    strings: Option<&StringTable<'_>>,
    table: &FrameTable<'_>,
) -> Result<(), AllocError>
    ensures { OnOk result (out.new.items ≡ out.old.items ++ table_text format (option_copied strings.entry) table.now) }
{
    let new_stream = table.new_stream();
    let old_stream = table.old_stream();
    if new_stream.is_none() && old_stream.is_none() {
        return put_none_in(out, format);
    }
    put_new(out, format, strings, new_stream)?;
    put_old(out, format, old_stream)
}

/// The lines of the records of frame data, or `none`, or the line of their error.
#[tactic(auto, unfolding(crate::specs::FrameTexts::frames_command))]
fn put_frames<'s, S: Source<'s>>(
    pdb: &mut PDB<'s, S>,
    format: OutputFormat,
    out: &mut Vec<u8>,
) -> Result<(), Stop>
    ensures continues { Continues pdb.old pdb.new }
    ensures text { pdb.new.told ≡ true → OnOk result (out.new.items ≡ out.old.items ++ frames_command format pdb.old.file) }
    ensures unwritten { IfErr result (StopsComposing (MayFail pdb.old pdb.new)) }
{
    if lacks(pdb, DEBUG_INFORMATION) {
        return Ok(());
    }
    let table = match pdb.frame_table() {
        Ok(table) => table,
        Err(e) => return put_refused_in(out, format, e),
    };
    let strings = strings_of(pdb)?;
    Ok(put_table(out, format, strings.as_ref(), &table)?)
}

/// Prints the records of frame data of a file.
pub fn print_frames<'s, S: Source<'s>, P: Printer>(
    alloc: Global,
    pdb: &mut PDB<'s, S>,
    format: OutputFormat,
    out: &mut P,
) -> Result<(), Stop>
    ensures continues { Continues pdb.old pdb.new }
    ensures prints { pdb.new.told ≡ true → Prints (shown (frames_command format pdb.old.file)) (P.state out.old) (P.state out.new) result }
    ensures halts { Halts (MayFail pdb.old pdb.new) (P.state out.old) (P.state out.new) result }
{
    let mut text = Vec::new(alloc);
    put_frames(pdb, format, &mut text)?;
    Ok(out.print(&text)?)
}

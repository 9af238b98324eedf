//! The frames of a place.

ghost use Rattle.std.specs.Prelude.{◌≡◌, ◌-◌, ◌++◌, [], ◌∷◌, map, reverse, Some, None, option_copied, IfOk, IfErr, OnOk, true};
ghost use Rattle.std.specs.Option.{option_map};
ghost use Rattle.pdb.specs.FileViews.{shown_file};
ghost use Rattle.pdb.specs.Qualified.{shown_qualified};
ghost use Rattle.pdb.specs.Answers.{string_table_in};
ghost use Rattle.pdb.specs.Source.{Continues, MayFail};
ghost use Rattle.pdb_places.specs.AsIfEmpty.{if_read, OnlyFails};
ghost use Rattle.pdb.specs.Text.{name_bytes};
ghost use Rattle.pdb_code.specs.ModuleCode.{Named, program_in, line_at};
ghost use Rattle.pdb_resolve.specs.AcrossModules.{global_id_in};
ghost use Rattle.pdb_resolve.specs.Frames.{file_name as file_name_of, frame_named_by, frame_of, frame_without, inlined_frame, named_id, no_frame};
ghost use Rattle.pdb_code.specs.Namings.{plain, shown_function_name, IsNamed};
ghost use Rattle.pdb_code.specs.Kept.{shown_call};
ghost use Rattle.pdb_resolve.specs.KeptFrames.{shown_frame, names_of, frame_named, IsNamedIn};
ghost use Rattle.pdb_resolve.specs.KeptCrossings.{AreCrossingsOf, IsListedCode};

use crate::crossings::{Crossings, ListedCode};
use crate::module_code::ModuleCode;
use pdb::{
    Error, FileIndex, FileInfo, IdIndex, ItemFinder, LineInfo, PDB, PdbInternalSectionOffset,
    QualifiedName, RawString, Result, Source, StringTable, qualified_name,
};
use pdb_code::calls::InlinedCall;
use pdb_code::function_names::{FunctionName, Naming};
use std::alloc::Global;

/// A function whose code stands at a place, and the line there. Names are bytes as the file has them.
#[derive(Drop)]
pub struct Frame<'a> {
    /// The function's name; none where the file says none.
    pub name: Option<FunctionName<'a>>,
    /// How many bytes the place is behind the record that has the name: of the function itself, but for separated code,
    /// of a jump that the linker made, or of the public symbol. None of an inlined call, and where nothing has the
    /// name.
    pub displacement: Option<u32>,
    /// The name of the source file; none where no line is known, or the name isn't there.
    pub file: Option<RawString<'a>>,
    /// The line, counted from 1; 0 where none is known.
    pub line: u32,
    /// The column, counted from 1; 0 where none is known.
    pub column: u32,
}

/// The tables from which inlined functions have their names.
#[derive(Drop)]
pub struct FunctionNames<'a> {
    pub(crate) ids: ItemFinder<'a>,
    pub(crate) types: ItemFinder<'a>,
}

/// The name of a file.
fn file_name<'a>(
    strings: Option<&'a StringTable<'a>>,
    file: Option<FileInfo<'a>>,
) -> Option<RawString<'a>>
    ensures { option_map name_bytes result ≡ file_name_of (option_copied strings.entry) (option_map shown_file file.entry) }
{
    strings?.get(file?.name).ok()
}

/// A file of a module, and its name.
#[derive(Clone, Copy)]
pub(crate) struct NamedFile<'a> {
    pub(crate) index: FileIndex,
    pub(crate) name: Option<RawString<'a>>,
}

/// The file of an index, which may be the one that was named last.
fn named_file<'a>(
    code: &ModuleCode<'a>,
    strings: Option<&'a StringTable<'a>>,
    last: Option<NamedFile<'a>>,
    index: FileIndex,
) -> NamedFile<'a>
    requires { IsNamedIn (option_copied strings) (program_in code.now) last }
    ensures index { result.index ≡ index }
    ensures name { IsNamedIn (option_copied strings.entry) (program_in code.now) (Some result) }
{
    match last {
        Some(file) if file.index.0 == index.0 => file,
        _ => NamedFile {
            index,
            name: file_name(strings, code.file(index)),
        },
    }
}

/// The frame of a line record in a file of this name.
fn frame_in<'a>(
    file: Option<RawString<'a>>,
    name: Option<FunctionName<'a>>,
    displacement: Option<u32>,
    line: &LineInfo,
) -> Frame<'a>
    ensures { shown_frame result ≡ frame_named (option_map name_bytes file.entry) (option_map shown_function_name name.entry) displacement line.now }
{
    Frame {
        name,
        displacement,
        file,
        line: line.line_start,
        column: line.column_start.unwrap_or(0),
    }
}

/// The frame of a line record.
fn line_frame<'a>(
    code: &ModuleCode<'a>,
    strings: Option<&'a StringTable<'a>>,
    name: Option<FunctionName<'a>>,
    displacement: Option<u32>,
    line: &LineInfo,
) -> Frame<'a>
    ensures { shown_frame result ≡ frame_of (option_copied strings.entry) (program_in code.now) (option_map shown_function_name name.entry) displacement (Some line.now) }
{
    let file = file_name(strings, code.file(line.file_index));
    frame_in(file, name, displacement, line)
}

/// A frame without a line.
fn frame_without_line<'a>(name: Option<FunctionName<'a>>, displacement: Option<u32>) -> Frame<'a>
    ensures { shown_frame result ≡ frame_of None None (option_map shown_function_name name.entry) displacement None }
{
    Frame {
        name,
        displacement,
        file: None,
        line: 0,
        column: 0,
    }
}

/// The frame where no place is.
pub(crate) fn frame_nowhere<'a>() -> Frame<'a>
    ensures { shown_frame result ≡ no_frame }
{
    frame_without_line(None, None)
}

/// How far a place is behind what names its code.
fn displacement_from(place: PdbInternalSectionOffset, start: Option<u32>) -> Option<u32>
    ensures { result ≡ option_map (λ s. place.offset - s) start }
{
    Some(place.offset.saturating_sub(start?))
}

/// The frame of a place of which no module's code is known, and which this names.
pub(crate) fn frame_without<'a>(place: PdbInternalSectionOffset, naming: Naming<'a>) -> Frame<'a>
    ensures { (n : Named) → IsNamed naming.entry n → shown_frame result ≡ frame_without place n }
{
    let displacement = displacement_from(place, naming.start);
    frame_without_line(naming.name, displacement)
}

/// One more frame.
pub(crate) fn push_frame<'a>(frames: &mut Vec<Frame<'a>>, frame: Frame<'a>) -> Result<()>
    ensures pushed { OnOk result (map shown_frame frames.new.items ≡ map shown_frame frames.old.items ++ shown_frame frame.entry ∷ []) }
    ensures refused { IfErr result (λ e. e ≡ Error.OutOfMemory) }
{
    frames.push(frame)?;
    Ok(())
}

/// The name of a function, by the id that a call in a module has.
fn name_of_call<'a, 's, S: Source<'s>>(
    alloc: Global,
    pdb: &mut PDB<'s, S>,
    crossings: &mut Crossings<'a>,
    code: &ListedCode<'_, 'a>,
    names: &FunctionNames<'a>,
    strings: Option<&'a StringTable<'a>>,
    id: IdIndex,
) -> Result<Option<QualifiedName<'a>>>
    requires kept { AreCrossingsOf pdb.old crossings.old }
    requires code { IsListedCode pdb.old code.now }
    requires strings { pdb.old.told ≡ true → option_copied strings ≡ if_read (string_table_in pdb.old.file) }
    ensures continues { Continues pdb.old pdb.new }
    ensures kept { AreCrossingsOf pdb.new crossings.new }
    ensures name { pdb.new.told ≡ true → IfOk result (λ n. option_map shown_qualified n ≡ named_id names.now.ids names.now.types (global_id_in pdb.old.file code.now.code.now id.0)) }
    ensures refused { IfErr result (λ e. OnlyFails (MayFail pdb.old pdb.new) e) }
{
    if id.0 < 0x8000_0000 {
        return Ok(qualified_name(&names.ids, &names.types, id));
    }
    match crossings.imported_id(alloc, pdb, strings, code, id)? {
        Some(id) => Ok(qualified_name(&names.ids, &names.types, id)),
        None => Ok(None),
    }
}

/// The frames of inlined functions, from the last site to the first.
pub(crate) fn push_inlined<'a, 's, S: Source<'s>>(
    alloc: Global,
    pdb: &mut PDB<'s, S>,
    frames: &mut Vec<Frame<'a>>,
    crossings: &mut Crossings<'a>,
    code: &ListedCode<'_, 'a>,
    names: &FunctionNames<'a>,
    strings: Option<&'a StringTable<'a>>,
    calls: &[InlinedCall],
) -> Result<()>
    requires kept { AreCrossingsOf pdb.old crossings.old }
    requires code { IsListedCode pdb.old code.now }
    requires strings { pdb.old.told ≡ true → option_copied strings ≡ if_read (string_table_in pdb.old.file) }
    ensures continues { Continues pdb.old pdb.new }
    ensures kept { AreCrossingsOf pdb.new crossings.new }
    ensures pushed { pdb.new.told ≡ true → OnOk result (map shown_frame frames.new.items ≡ map shown_frame frames.old.items ++ map (inlined_frame (names_of names.now (option_copied strings.entry)) (global_id_in pdb.old.file code.now.code.now) (program_in code.now.code.now)) (reverse (map shown_call calls.now))) }
    ensures refused { IfErr result (λ e. OnlyFails (MayFail pdb.old pdb.new) e) }
{
    let mut left = calls;
    let mut last = None;
    while let Some((call, before)) = left.split_last() {
        let name = name_of_call(alloc, pdb, crossings, code, names, strings, call.id)?;
        let file = named_file(code.code, strings, last, call.line.file_index);
        push_frame(
            frames,
            frame_in(file.name, name_as_read(name), None, &call.line),
        )?;
        last = Some(file);
        left = before;
    }
    Ok(())
}

/// The frame of the function at a place, which this names, with the line there.
fn outer_frame<'a>(
    code: &ModuleCode<'a>,
    strings: Option<&'a StringTable<'a>>,
    naming: Naming<'a>,
    place: PdbInternalSectionOffset,
) -> Frame<'a>
    ensures { (n : Named) → IsNamed naming.entry n → shown_frame result ≡ frame_named_by (option_copied strings.entry) (program_in code.now) place n (line_at place code.now) }
{
    let displacement = displacement_from(place, naming.start);
    match code.line(place) {
        Some(line) => line_frame(code, strings, naming.name, displacement, &line),
        None => frame_without_line(naming.name, displacement),
    }
}

/// The frame of the function at a place, which this names.
pub(crate) fn push_outer<'a>(
    frames: &mut Vec<Frame<'a>>,
    code: &ModuleCode<'a>,
    strings: Option<&'a StringTable<'a>>,
    naming: Naming<'a>,
    place: PdbInternalSectionOffset,
) -> Result<()>
    ensures pushed { (n : Named) → IsNamed naming.entry n → OnOk result (map shown_frame frames.new.items ≡ map shown_frame frames.old.items ++ frame_named_by (option_copied strings.entry) (program_in code.now) place n (line_at place code.now) ∷ []) }
    ensures refused { IfErr result (λ e. e ≡ Error.OutOfMemory) }
{
    let frame = outer_frame(code, strings, naming, place);
    push_frame(frames, frame)
}

/// A name as the file has it.
fn name_as_read<'a>(name: Option<QualifiedName<'a>>) -> Option<FunctionName<'a>>
    ensures { option_map shown_function_name result ≡ option_map shown_qualified name.entry }
{
    Some(FunctionName::Read(name?))
}

/// A name that isn't qualified.
pub fn plain_name<'a>(name: Option<RawString<'a>>) -> Option<QualifiedName<'a>>
    ensures { option_map shown_qualified result ≡ option_map plain (option_map name_bytes name.entry) }
{
    Some(QualifiedName {
        scope: None,
        name: name?,
    })
}

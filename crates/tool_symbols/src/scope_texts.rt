//! The text of `scopes`.

ghost use Rattle.std.specs.Prelude.{◌≡◌, ◌≢◌, ◌++◌, ◌+◌, ◌<◌, ◌≤◌, ◌^◌, [], None, length, reverse, IfOk, OnOk, codes, Ok};
ghost use Rattle.std.specs.Option.{option_map};
ghost use Rattle.std.specs.Fmt.{decimal};
ghost use Rattle.pdb.specs.Data.{shown};
ghost use Rattle.pdb.specs.Forms.{kind_at, record_at};
ghost use Rattle.pdb.specs.Text.{name_bytes};
ghost use Rattle.pdb.specs.Views.{symbol_of, symbols_bytes, symbols_left, symbols_place};
ghost use Rattle.pdb.specs.Error.TheVariants.{OutOfMemory};
ghost use Rattle.pdb_records.specs.RecordReading.{further_at};
ghost use Rattle.pdb_records.specs.RecordViews.{shown_record};
ghost use Rattle.tool_symbols.specs.Depth.{blanks};
ghost use Rattle.tool_types.specs.LineNames.{further_type};
ghost use Rattle.tool_types.specs.KeptViews.{kept_names};
ghost use Rattle.tool_types.specs.LineViews.{names_of_lines};
ghost use Rattle.tool_types.specs.QualifiedTexts.{behind_qualified};
ghost use Rattle.tool_symbols.specs.ScopeFrames.{entered, open_at};
ghost use Rattle.tool_symbols.specs.ScopeTexts.{code_text, data_line, further_line, further_says, held_text, named_text, parameter_by, placed_text, says_line, scope_line, scopes_left, scopes_text, symbol_lines, unread_line, unread_parameter, variable_behind};
ghost use Rattle.tool_fields.specs.Values.{behind_blank, place_text};
ghost use Rattle.tool_fields.specs.ValueTexts.{register_on};
ghost use Rattle.tool_symbols.specs.VariablePlaces.{base_pointer, further_parameter_in, memory_text, parameter_in};

use crate::depth::put_blanks;
use crate::scope_frames::{Bases, bases_within, innermost};
use crate::symbol_texts::{lacks_layout, machine_in};
use crate::variable_places::{RangeLines, is_of_ranges, put_at_base_pointer, put_at_register};
use pdb::{
    Error, FallibleIterator, IdIndex, ModuleInfo, PdbInternalSectionOffset, RawString, Register,
    Symbol, SymbolData, SymbolIter, TypeIndex,
};
use pdb_records::{Machine, Record};
use pdb_text::put_field;
use std::alloc::{AllocError, Global};
use tool_fields::register_names::put_register_name;
use tool_fields::values::{put_behind_blank, put_place};
use tool_output::error_line::{put_error_line, put_refusal_line};
use tool_types::kept_ends::KeptEnds;
use tool_types::line_names::LineNames;
use tool_types::qualified_texts::put_behind_qualified;

/// A word, a place and a length.
fn put_stretch(
    out: &mut Vec<u8>,
    word: &[u8],
    offset: PdbInternalSectionOffset,
    len: u32,
) -> Result<(), AllocError>
    ensures { OnOk result (out.new.items ≡ out.old.items ++ (word.now ++ codes " " ++ place_text offset ++ codes " " ++ decimal len)) }
{
    out.extend_from_slice(word)?;
    out.push(b' ')?;
    put_place(out, offset)?;
    put_field(out, u64::from(len))
}

/// The line of code: a word, where it stands, how long it is, its name, and the line's end.
fn put_code(
    out: &mut Vec<u8>,
    depth: usize,
    word: &[u8],
    offset: PdbInternalSectionOffset,
    len: u32,
    name: &[u8],
    end: &[u8],
) -> Result<(), AllocError>
    ensures { OnOk result (out.new.items ≡ out.old.items ++ (blanks depth ++ code_text word.now offset len name.now end.now)) }
{
    put_blanks(out, depth)?;
    put_stretch(out, word, offset, len)?;
    put_behind_blank(out, name)?;
    out.extend_from_slice(end)
}

/// The line of what has a place: a word, the place and a name.
fn put_placed(
    out: &mut Vec<u8>,
    depth: usize,
    word: &[u8],
    offset: PdbInternalSectionOffset,
    name: RawString<'_>,
    end: &[u8],
) -> Result<(), AllocError>
    ensures { OnOk result (out.new.items ≡ out.old.items ++ (blanks depth ++ placed_text word.now offset (name_bytes name.entry) end.now)) }
{
    put_blanks(out, depth)?;
    out.extend_from_slice(word)?;
    out.push(b' ')?;
    put_place(out, offset)?;
    put_behind_blank(out, name.as_bytes())?;
    out.extend_from_slice(end)
}

/// The line of what has a name alone: a word and the name.
fn put_named(
    out: &mut Vec<u8>,
    depth: usize,
    word: &[u8],
    name: RawString<'_>,
    end: &[u8],
) -> Result<(), AllocError>
    ensures { OnOk result (out.new.items ≡ out.old.items ++ (blanks depth ++ named_text word.now (name_bytes name.entry) end.now)) }
{
    put_blanks(out, depth)?;
    out.extend_from_slice(word)?;
    put_behind_blank(out, name.as_bytes())?;
    out.extend_from_slice(end)
}

/// The line of an inlined call: the name of the function of its id.
fn put_inlined(
    out: &mut Vec<u8>,
    names: LineNames<'_, '_>,
    depth: usize,
    id: IdIndex,
    end: &[u8],
) -> Result<(), AllocError>
    ensures { OnOk result (out.new.items ≡ out.old.items ++ (blanks depth ++ (codes "inlined" ++ behind_qualified ((names_of_lines names.entry).called id.0) ++ end.now))) }
{
    put_blanks(out, depth)?;
    out.extend_from_slice(b"inlined")?;
    put_behind_qualified(out, names.called(id))?;
    out.extend_from_slice(end)
}

/// The line of a variable at an offset from the value of a register.
fn put_relative(
    out: &mut Vec<u8>,
    machine: Option<Machine>,
    depth: usize,
    register: Register,
    offset: i32,
    name: RawString<'_>,
    end: &[u8],
) -> Result<(), AllocError>
    ensures { OnOk result (out.new.items ≡ out.old.items ++ (blanks depth ++ held_text (codes "relative") (memory_text (register_on machine register) offset) (name_bytes name.entry) end.now)) }
{
    put_blanks(out, depth)?;
    out.extend_from_slice(b"relative ")?;
    put_at_register(out, machine, register, offset)?;
    put_behind_blank(out, name.as_bytes())?;
    out.extend_from_slice(end)
}

/// The line of a variable at an offset from the base pointer.
fn put_relative_to_base(
    out: &mut Vec<u8>,
    machine: Option<Machine>,
    depth: usize,
    offset: i32,
    name: RawString<'_>,
    end: &[u8],
) -> Result<(), AllocError>
    ensures { OnOk result (out.new.items ≡ out.old.items ++ (blanks depth ++ held_text (codes "relative") (memory_text (base_pointer machine) offset) (name_bytes name.entry) end.now)) }
{
    put_blanks(out, depth)?;
    out.extend_from_slice(b"relative ")?;
    put_at_base_pointer(out, machine, offset)?;
    put_behind_blank(out, name.as_bytes())?;
    out.extend_from_slice(end)
}

/// The line of a variable in a register.
fn put_in_register(
    out: &mut Vec<u8>,
    machine: Option<Machine>,
    depth: usize,
    register: Register,
    name: RawString<'_>,
    end: &[u8],
) -> Result<(), AllocError>
    ensures { OnOk result (out.new.items ≡ out.old.items ++ (blanks depth ++ held_text (codes "register") (register_on machine register) (name_bytes name.entry) end.now)) }
{
    put_blanks(out, depth)?;
    out.extend_from_slice(b"register ")?;
    put_register_name(out, machine, register)?;
    put_behind_blank(out, name.as_bytes())?;
    out.extend_from_slice(end)
}

/// The line of what has a place, or of a variable, with this end.
fn put_data_says(
    out: &mut Vec<u8>,
    machine: Option<Machine>,
    depth: usize,
    parsed: &SymbolData<'_>,
    end: &[u8],
) -> Result<(), AllocError>
    ensures { OnOk result (out.new.items ≡ out.old.items ++ data_line machine depth end.now (shown parsed.now)) }
{
    match parsed {
        SymbolData::Data(s) => put_placed(out, depth, b"data", s.offset, s.name, end),
        SymbolData::ThreadStorage(s) => put_placed(out, depth, b"thread", s.offset, s.name, end),
        SymbolData::Label(s) => put_placed(out, depth, b"label", s.offset, s.name, end),
        SymbolData::Local(s) => put_named(out, depth, b"local", s.name, end),
        SymbolData::RegisterVariable(s) => {
            put_in_register(out, machine, depth, s.register, s.name, end)
        }
        SymbolData::RegisterRelative(s) => {
            put_relative(out, machine, depth, s.register, s.offset, s.name, end)
        }
        _ => Ok(()),
    }
}

/// The line of what a record says, where it has one, with this end.
fn put_says(
    out: &mut Vec<u8>,
    names: LineNames<'_, '_>,
    machine: Option<Machine>,
    depth: usize,
    parsed: &SymbolData<'_>,
    end: &[u8],
) -> Result<(), AllocError>
    ensures { OnOk result (out.new.items ≡ out.old.items ++ says_line (names_of_lines names.entry) machine depth end.now (shown parsed.now)) }
{
    match parsed {
        SymbolData::Procedure(s) => {
            let name = s.name.as_bytes();
            put_code(out, depth, b"procedure", s.offset, s.len, name, end)
        }
        SymbolData::Block(s) => {
            let name = s.name.as_bytes();
            put_code(out, depth, b"block", s.offset, s.len, name, end)
        }
        SymbolData::Thunk(s) => {
            let name = s.name.as_bytes();
            put_code(out, depth, b"thunk", s.offset, u32::from(s.len), name, end)
        }
        SymbolData::SeparatedCode(s) => {
            put_code(out, depth, b"separated", s.offset, s.len, b"", end)
        }
        SymbolData::InlineSite(s) => put_inlined(out, names, depth, s.inlinee, end),
        _ => put_data_says(out, machine, depth, parsed, end),
    }
}

/// The line of what a further record says, where it has one, with this end.
fn put_further_says(
    out: &mut Vec<u8>,
    machine: Option<Machine>,
    depth: usize,
    parsed: &Record<'_>,
    end: &[u8],
) -> Result<(), AllocError>
    ensures { OnOk result (out.new.items ≡ out.old.items ++ further_says machine depth end.now (Ok (shown_record parsed.now))) }
{
    match parsed {
        Record::BasePointerRelative(s) => {
            put_relative_to_base(out, machine, depth, s.offset, s.name, end)
        }
        Record::RegisterRelativeOld(s) => {
            put_relative(out, machine, depth, s.register, s.offset, s.name, end)
        }
        Record::FileStatic(s) => put_named(out, depth, b"local", s.name, end),
        Record::ManagedProcedure(s) => {
            put_code(
                out,
                depth,
                b"procedure",
                s.offset,
                s.len,
                s.name.as_bytes(),
                end,
            )
        }
        _ => Ok(()),
    }
}

/// The type of the variable that a further record says.
fn further_type(parsed: &Record<'_>) -> Option<TypeIndex>
    ensures { result ≡ further_type (Ok (shown_record parsed.now)) }
{
    match parsed {
        Record::BasePointerRelative(s) => Some(s.type_index),
        Record::RegisterRelativeOld(s) => Some(s.type_index),
        Record::FileStatic(s) => Some(s.type_index),
        _ => None,
    }
}

/// Whether the variable that a record says is a parameter; none for other records.
fn parameter_in(parsed: &SymbolData<'_>) -> Option<bool>
    ensures { result ≡ parameter_in (Ok (shown parsed.now)) }
{
    match parsed {
        SymbolData::Local(s) => Some(s.flags.isparam),
        _ => None,
    }
}

/// The same of a further record.
fn further_parameter_in(parsed: &Record<'_>) -> Option<bool>
    ensures { result ≡ further_parameter_in (Ok (shown_record parsed.now)) }
{
    match parsed {
        Record::FileStatic(s) => Some(s.flags.param),
        _ => None,
    }
}

/// The line of a further record, and whether the variable that it says is a parameter.
fn put_further(
    out: &mut Vec<u8>,
    kept: &mut KeptEnds<'_, '_>,
    machine: Option<Machine>,
    depth: usize,
    symbol: &Symbol<'_>,
) -> Result<Option<bool>, AllocError>
    ensures names { kept_names kept.new ≡ kept_names kept.old }
    ensures line { OnOk result (out.new.items ≡ out.old.items ++ further_line (kept_names kept.old) machine depth (further_at (symbol_of symbol.now).bytes)) }
    ensures variable { IfOk result (λ v. v ≡ further_parameter_in (further_at (symbol_of symbol.now).bytes)) }
{
    match Record::parse(symbol) {
        Ok(parsed) => {
            let place = kept.keep(further_type(&parsed))?;
            put_further_says(out, machine, depth, &parsed, kept.at(place))?;
            Ok(further_parameter_in(&parsed))
        }
        Err(_) => Ok(None),
    }
}

/// The line of a record that couldn't be parsed: one whose kind has no layout may be a further record. Out of memory is
/// passed on.
fn put_unread(
    out: &mut Vec<u8>,
    kept: &mut KeptEnds<'_, '_>,
    machine: Option<Machine>,
    depth: usize,
    symbol: &Symbol<'_>,
    e: Error,
) -> Result<Option<bool>, AllocError>
    ensures names { kept_names kept.new ≡ kept_names kept.old }
    ensures line { OnOk result ((e ≢ OutOfMemory) × (out.new.items ≡ out.old.items ++ unread_line (kept_names kept.old) machine depth (symbol_of symbol.now).bytes e)) }
    ensures variable { IfOk result (λ v. (e ≢ OutOfMemory) × (v ≡ unread_parameter (symbol_of symbol.now).bytes e)) }
{
    if lacks_layout(e) {
        return put_further(out, kept, machine, depth, symbol);
    }
    match e {
        Error::OutOfMemory => Err(AllocError),
        _ => Ok(None),
    }
}

/// The line of a symbol, where it has one, and whether the variable that it says is a parameter.
fn put_line(
    alloc: Global,
    out: &mut Vec<u8>,
    kept: &mut KeptEnds<'_, '_>,
    machine: Option<Machine>,
    depth: usize,
    symbol: &Symbol<'_>,
) -> Result<Option<bool>, AllocError>
    ensures names { kept_names kept.new ≡ kept_names kept.old }
    ensures line { OnOk result (out.new.items ≡ out.old.items ++ scope_line (kept_names kept.old) machine depth (symbol_of symbol.now).bytes (record_at (symbol_of symbol.now).bytes)) }
    ensures variable { IfOk result (λ v. v ≡ parameter_by (symbol_of symbol.now).bytes (record_at (symbol_of symbol.now).bytes)) }
{
    match symbol.parse(alloc) {
        Ok(parsed) => {
            let names = kept.names();
            let place = kept.keep(names.declared_type(symbol.raw_kind(), &parsed))?;
            put_says(out, names, machine, depth, &parsed, kept.at(place))?;
            Ok(parameter_in(&parsed))
        }
        Err(e) => put_unread(out, kept, machine, depth, symbol, e),
    }
}

/// The lines of a symbol in the scopes that are open, behind a variable; and the variable behind it.
fn put_symbol(
    alloc: Global,
    out: &mut Vec<u8>,
    kept: &mut KeptEnds<'_, '_>,
    machine: Option<Machine>,
    ranges: &mut RangeLines,
    around: &[Bases],
    variable: Option<bool>,
    symbol: &Symbol<'_>,
) -> Result<Option<bool>, AllocError>
    requires { length around.now + 1 < 2 ^ 64 }
    ensures names { kept_names kept.new ≡ kept_names kept.old }
    ensures lines { OnOk result (out.new.items ≡ out.old.items ++ symbol_lines (kept_names kept.old) machine (reverse around.now) variable (symbol_of symbol.now).bytes) }
    ensures variable { IfOk result (λ v. v ≡ variable_behind variable (symbol_of symbol.now).bytes) }
{
    if !is_of_ranges(symbol.raw_kind()) {
        return put_line(alloc, out, kept, machine, around.len(), symbol);
    }
    let depth = around.len() + 1;
    ranges.put_behind(out, machine, innermost(around), depth, variable, symbol)?;
    Ok(variable)
}

/// Leaves the innermost scope where a symbol ends it.
#[tactic(auto, using(crate::proofs::OpenScopes::one_fewer))]
fn leave(around: &mut Vec<Bases>, symbol: &Symbol<'_>)
    ensures is { reverse around.new.items ≡ open_at (reverse around.old.items) (kind_at (symbol_of symbol.now).bytes) }
    ensures bound { length around.new.items ≤ length around.old.items }
{
    if symbol.ends_scope() {
        let _ = around.pop();
    }
}

/// Opens a scope where a symbol, which an iterator has just given, starts one.
#[tactic(auto, using(crate::proofs::OpenScopes::one_more))]
fn enter(
    around: &mut Vec<Bases>,
    symbols: &mut SymbolIter<'_>,
    symbol: &Symbol<'_>,
) -> Result<(), AllocError>
    requires place { symbols_place symbols.old ≡ (symbol_of symbol.now).index + 2 + length (symbol_of symbol.now).bytes }
    requires inside { symbols_place symbols.old ≤ length (symbols_bytes symbols.old) }
    requires small { length (symbols_bytes symbols.old) < 2 ^ 32 }
    ensures is { OnOk result (reverse around.new.items ≡ entered (reverse around.old.items) (kind_at (symbol_of symbol.now).bytes) (symbols_left symbols.old).items) }
    ensures bound { length around.new.items ≤ length around.old.items + 1 }
    ensures left { symbols_left symbols.new ≡ symbols_left symbols.old }
{
    if symbol.starts_scope() {
        let bases = bases_within(symbols, around.as_slice(), symbol);
        around.push(bases)?;
    }
    Ok(())
}

// piece: put_symbols
/// The lines of the symbols that an iterator has left, and then that of its fault.
fn put_symbols(
    alloc: Global,
    out: &mut Vec<u8>,
    names: LineNames<'_, '_>,
    machine: Option<Machine>,
    mut symbols: SymbolIter<'_>,
) -> Result<(), AllocError>
    ensures { OnOk result (out.new.items ≡ out.old.items ++ scopes_left (names_of_lines names.entry) machine [] None (symbols_left symbols.entry)) }
{
    let mut kept = KeptEnds::new(alloc, names);
    let mut around = Vec::new(alloc);
    let mut ranges = RangeLines::new(alloc);
    let mut variable = None;
    loop {
        match symbols.next() {
            Ok(Some(symbol)) => {
                leave(&mut around, &symbol);
                variable = put_symbol(
                    alloc,
                    out,
                    &mut kept,
                    machine,
                    &mut ranges,
                    around.as_slice(),
                    variable,
                    &symbol,
                )?;
                enter(&mut around, &mut symbols, &symbol)?;
            }
            Ok(None) => return Ok(()),
            Err(e) => return put_error_line(out, e),
        }
    }
}
// end

/// The text of `scopes` of a module: its symbols by their scopes, or their error. The names of inlined functions are
/// found by the ids of their calls. The header's machine counts where the symbols name none.
#[tactic(auto, unfolding(crate::specs::ScopeTexts::scopes_text))]
pub fn put_scopes(
    alloc: Global,
    out: &mut Vec<u8>,
    names: LineNames<'_, '_>,
    header: Option<Machine>,
    info: &ModuleInfo<'_>,
) -> Result<(), AllocError>
    ensures { OnOk result (out.new.items ≡ out.old.items ++ scopes_text (names_of_lines names.entry) header info.now) }
{
    let machine = machine_in(alloc, header, info)?;
    match info.symbols() {
        Ok(symbols) => put_symbols(alloc, out, names, machine, symbols),
        Err(e) => put_refusal_line(out, e),
    }
}

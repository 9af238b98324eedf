//! The text of `symbols`.

ghost use Rattle.std.specs.Prelude.{◌≡◌, ◌≢◌, ◌++◌, drop, flat_map, IfOk, OnOk, codes, Ok, Err};
ghost use Rattle.std.specs.Option.{option_map};
ghost use Rattle.std.specs.Fmt.{decimal};
ghost use Rattle.pdb.specs.Error.TheVariants.{OutOfMemory};
ghost use Rattle.pdb.specs.Data.{shown};
ghost use Rattle.pdb.specs.Forms.{Is, kind_at, record_at};
ghost use Rattle.pdb.specs.Text.{name_bytes};
ghost use Rattle.pdb.specs.Views.{symbol_of, symbols_left};
ghost use Rattle.pdb_text.specs.Digits.{hex};
ghost use Rattle.tool_symbols.specs.CallLines.{call_end_line};
ghost use Rattle.tool_symbols.specs.Depth.{blanks, depth_at};
ghost use Rattle.tool_fields.specs.FieldTexts.{field, fields_text};
ghost use Rattle.tool_types.specs.KeptViews.{kept_names};
ghost use Rattle.tool_types.specs.LineViews.{names_of_lines};
ghost use Rattle.tool_symbols.specs.SymbolTexts.{damage_text, declared_name, further_text, global_symbols_text, lacks_layout, name_text, parsed_text, record_text, symbol_line, symbol_list_text, symbols_text, unread_text};
ghost use Rattle.tool_fields.specs.ModuleMachines.{module_machine};
ghost use Rattle.pdb.specs.Left.{Left};
ghost use Rattle.pdb.specs.ModuleStream.{symbols_of};
ghost use Rattle.pdb.specs.SymbolList.{Entry};
ghost use Rattle.pdb_records.specs.RecordReading.{further_at};
ghost use Rattle.pdb_code.specs.ModuleCode.{symbols_in};
ghost use Rattle.tool_fields.specs.Values.{behind_blank};
ghost use Rattle.tool_fields.specs.ValueTexts.{kind_text};

use crate::call_lines::{call_end_line, put_call_text};
use crate::depth::{depth_of, put_blanks};
use crate::local_lines::{local_in, put_local_text};
use crate::register_lines::put_register_range;
use pdb::{
    Error, FallibleIterator, ModuleInfo, RawString, Symbol, SymbolData, SymbolIter, SymbolTable,
};
use pdb_base::little_endian::u32_at;
use pdb_records::{Machine, Record};
use pdb_text::{put_decimal, put_hex_bytes, put_hex4, put_hex8, put_line_end};
use std::alloc::{AllocError, Global};
use tool_fields::fields::{put_index, put_number, put_reference, put_type};
use tool_fields::fields_code::{
    put_block, put_inline_site, put_label_symbol, put_procedure, put_separated_code, put_thunk,
    put_trampoline_symbol,
};
use tool_fields::fields_data::{
    put_constant, put_data, put_local, put_multi_register_variable, put_public,
    put_register_relative, put_register_variable, put_thread_storage,
};
use tool_fields::fields_references::{
    put_compile_flags_symbol, put_export, put_procedure_reference,
};
use tool_fields::kind_names::kind_name;
use tool_fields::module_machine::machine_of_module;
use tool_fields::values::put_behind_blank;
use tool_output::error_line::{put_error_line, put_refusal_line};
use tool_printing::put_mark;
use tool_records::record_texts::put_record_says;
use tool_types::kept_ends::KeptEnds;
use tool_types::line_names::LineNames;
use tool_types::qualified_texts::put_behind_qualified;

/// A kind's name, or its number in four hex digits where it has none.
fn put_kind(out: &mut Vec<u8>, kind: u16) -> Result<(), AllocError>
    ensures { OnOk result (out.new.items ≡ out.old.items ++ kind_text kind) }
{
    match kind_name(kind) {
        Some(name) => out.extend_from_slice(name.as_bytes()),
        None => put_hex4(out, kind),
    }
}

/// The fields of what the record of a symbol says.
fn put_fields(
    out: &mut Vec<u8>,
    machine: Option<Machine>,
    symbol: &Symbol<'_>,
    parsed: &SymbolData<'_>,
) -> Result<(), AllocError>
    requires { Is (symbol_of symbol.now).bytes (shown parsed.now) }
    ensures { OnOk result (out.new.items ≡ out.old.items ++ fields_text machine (symbol_of symbol.now).bytes (shown parsed.now)) }
{
    match parsed {
        SymbolData::ScopeEnd | SymbolData::InlineSiteEnd | SymbolData::ProcedureEnd => Ok(()),
        SymbolData::ObjName(s) => put_number(out, b"signature", s.signature),
        SymbolData::RegisterVariable(s) => put_register_variable(out, machine, s),
        SymbolData::Constant(s) => put_constant(out, s),
        SymbolData::UserDefinedType(s) => put_type(out, s.type_index),
        SymbolData::MultiRegisterVariable(s) => put_multi_register_variable(out, machine, s),
        SymbolData::Data(s) => put_data(out, s),
        SymbolData::Public(s) => put_public(out, s),
        SymbolData::Procedure(s) => put_procedure(out, s),
        SymbolData::ThreadStorage(s) => put_thread_storage(out, s),
        SymbolData::CompileFlags(s) => put_compile_flags_symbol(out, symbol, s),
        SymbolData::UsingNamespace(_) => Ok(()),
        SymbolData::ProcedureReference(s) => put_procedure_reference(out, s),
        SymbolData::DataReference(s) => put_reference(out, s.sum_name, s.symbol_index, s.module),
        SymbolData::AnnotationReference(s) => {
            put_reference(out, s.sum_name, s.symbol_index, s.module)
        }
        SymbolData::Trampoline(s) => put_trampoline_symbol(out, s),
        SymbolData::Export(s) => put_export(out, s),
        SymbolData::Local(s) => put_local(out, symbol, s),
        SymbolData::BuildInfo(s) => put_index(out, b"id", s.id.0),
        SymbolData::InlineSite(s) => put_inline_site(out, symbol, s),
        SymbolData::Label(s) => put_label_symbol(out, s),
        SymbolData::Block(s) => put_block(out, s),
        SymbolData::RegisterRelative(s) => put_register_relative(out, machine, s),
        SymbolData::Thunk(s) => put_thunk(out, s),
        SymbolData::SeparatedCode(s) => put_separated_code(out, s),
    }
}

/// A name behind a blank, where there is one that isn't empty.
fn put_name(out: &mut Vec<u8>, name: Option<RawString<'_>>) -> Result<(), AllocError>
    ensures { OnOk result (out.new.items ≡ out.old.items ++ name_text (option_map name_bytes name.entry)) }
{
    match name {
        Some(name) => put_behind_blank(out, name.as_bytes()),
        None => Ok(()),
    }
}

/// The name of what a record says; that of the function of an inlined call.
fn put_declared_name(
    out: &mut Vec<u8>,
    names: LineNames<'_, '_>,
    parsed: &SymbolData<'_>,
) -> Result<(), AllocError>
    ensures { OnOk result (out.new.items ≡ out.old.items ++ declared_name (names_of_lines names.entry) (shown parsed.now)) }
{
    match parsed {
        SymbolData::InlineSite(s) => put_behind_qualified(out, names.called(s.inlinee)),
        _ => put_name(out, parsed.name()),
    }
}

/// What the record of a symbol says: its fields, its name, and the name of its type.
fn put_says(
    out: &mut Vec<u8>,
    names: LineNames<'_, '_>,
    machine: Option<Machine>,
    symbol: &Symbol<'_>,
    parsed: &SymbolData<'_>,
) -> Result<(), AllocError>
    requires { Is (symbol_of symbol.now).bytes (shown parsed.now) }
    ensures { OnOk result (out.new.items ≡ out.old.items ++ parsed_text (names_of_lines names.entry) machine (symbol_of symbol.now).bytes (Ok (shown parsed.now))) }
{
    put_fields(out, machine, symbol, parsed)?;
    put_declared_name(out, names, parsed)?;
    names.put_declared(out, symbol.raw_kind(), parsed)
}

/// Whether a record isn't read since its kind has no layout here, which is no damage.
pub fn lacks_layout(e: Error) -> bool
    ensures { result ≡ lacks_layout e }
{
    matches!(e, Error::UnimplementedSymbolKind(_))
}

/// The number of an error that is damage, behind a mark.
fn put_damage(out: &mut Vec<u8>, e: Error) -> Result<(), AllocError>
    ensures { OnOk result (out.new.items ≡ out.old.items ++ damage_text e) }
{
    if lacks_layout(e) {
        return Ok(());
    }
    put_mark(out)?;
    out.extend_from_slice(b" error ")?;
    put_decimal(out, u64::from(e.number()))
}

/// An error in a symbol's line, and the record's bytes behind the kind; out of memory is passed on.
fn put_refused(out: &mut Vec<u8>, e: Error, bytes: &[u8]) -> Result<(), AllocError>
    ensures { OnOk result ((e ≢ OutOfMemory) × (out.new.items ≡ out.old.items ++ unread_text bytes.now e)) }
{
    match e {
        Error::OutOfMemory => Err(AllocError),
        e => {
            put_damage(out, e)?;
            out.extend_from_slice(b" bytes=")?;
            put_hex_bytes(out, bytes.get(2..).unwrap_or(&[]))
        }
    }
}

/// A further record, or its error.
fn put_further(
    out: &mut Vec<u8>,
    machine: Option<Machine>,
    symbol: &Symbol<'_>,
) -> Result<(), AllocError>
    ensures { OnOk result (out.new.items ≡ out.old.items ++ further_text machine (symbol_of symbol.now).bytes (further_at (symbol_of symbol.now).bytes)) }
{
    match Record::parse(symbol) {
        Ok(record) => put_record_says(out, machine, &record),
        Err(e) => put_refused(out, e, symbol.raw_bytes()),
    }
}

/// A record that couldn't be parsed: where its kind has no layout it may be a further record.
fn put_unparsed(
    out: &mut Vec<u8>,
    names: LineNames<'_, '_>,
    machine: Option<Machine>,
    symbol: &Symbol<'_>,
    e: Error,
) -> Result<(), AllocError>
    ensures { OnOk result ((e ≢ OutOfMemory) × (out.new.items ≡ out.old.items ++ parsed_text (names_of_lines names.entry) machine (symbol_of symbol.now).bytes (Err e))) }
{
    if lacks_layout(e) {
        put_further(out, machine, symbol)
    } else {
        put_refused(out, e, symbol.raw_bytes())
    }
}

// piece: put_record
/// What the record of a symbol says, or its error.
fn put_record(
    alloc: Global,
    out: &mut Vec<u8>,
    names: LineNames<'_, '_>,
    machine: Option<Machine>,
    symbol: &Symbol<'_>,
) -> Result<(), AllocError>
    ensures { OnOk result (out.new.items ≡ out.old.items ++ record_text (names_of_lines names.entry) machine (symbol_of symbol.now).bytes) }
{
    match symbol.parse(alloc) {
        Ok(parsed) => put_says(out, names, machine, symbol, &parsed),
        Err(e) => put_unparsed(out, names, machine, symbol, e),
    }
}
// end

/// The line of a symbol at a depth.
#[inline(always)]
#[tactic(auto, unfolding(crate::specs::SymbolTexts::symbol_line))]
fn put_any_symbol(
    alloc: Global,
    out: &mut Vec<u8>,
    names: LineNames<'_, '_>,
    machine: Option<Machine>,
    depth: usize,
    symbol: &Symbol<'_>,
) -> Result<(), AllocError>
    ensures { OnOk result (out.new.items ≡ out.old.items ++ symbol_line (names_of_lines names.entry) machine depth (symbol_of symbol.now)) }
{
    put_blanks(out, depth)?;
    put_hex8(out, symbol.index().0)?;
    out.push(b' ')?;
    put_kind(out, symbol.raw_kind())?;
    put_record(alloc, out, names, machine, symbol)?;
    put_line_end(out)
}

/// The line of a symbol of the kind of local variables.
fn put_local_symbol(
    alloc: Global,
    out: &mut Vec<u8>,
    kept: &mut KeptEnds<'_, '_>,
    machine: Option<Machine>,
    depth: usize,
    symbol: &Symbol<'_>,
) -> Result<(), AllocError>
    requires { kind_at (symbol_of symbol.now).bytes ≡ 0x113e }
    ensures names { kept_names kept.new ≡ kept_names kept.old }
    ensures line { OnOk result (out.new.items ≡ out.old.items ++ symbol_line (kept_names kept.old) machine depth (symbol_of symbol.now)) }
{
    let Some((type_index, flags, name)) = local_in(symbol.raw_bytes()) else {
        return put_any_symbol(alloc, out, kept.names(), machine, depth, symbol);
    };
    put_blanks(out, depth)?;
    put_local_text(out, kept, symbol.index().0, type_index, flags, name)
}

/// The line of a symbol of the kind of ranges in which a variable is in a register.
fn put_register_symbol(
    alloc: Global,
    out: &mut Vec<u8>,
    names: LineNames<'_, '_>,
    machine: Option<Machine>,
    depth: usize,
    symbol: &Symbol<'_>,
) -> Result<(), AllocError>
    requires { kind_at (symbol_of symbol.now).bytes ≡ 0x1141 }
    ensures { OnOk result (out.new.items ≡ out.old.items ++ symbol_line (names_of_lines names.entry) machine depth (symbol_of symbol.now)) }
{
    let bytes = symbol.raw_bytes();
    if bytes.len() < 14 {
        return put_any_symbol(alloc, out, names, machine, depth, symbol);
    }
    put_blanks(out, depth)?;
    put_register_range(out, machine, symbol.index().0, bytes)
}

/// The line of a symbol of the kind of inlined calls.
fn put_call_symbol(
    alloc: Global,
    out: &mut Vec<u8>,
    kept: &mut KeptEnds<'_, '_>,
    machine: Option<Machine>,
    depth: usize,
    symbol: &Symbol<'_>,
) -> Result<(), AllocError>
    requires { kind_at (symbol_of symbol.now).bytes ≡ 0x114d }
    ensures names { kept_names kept.new ≡ kept_names kept.old }
    ensures line { OnOk result (out.new.items ≡ out.old.items ++ symbol_line (kept_names kept.old) machine depth (symbol_of symbol.now)) }
{
    let bytes = symbol.raw_bytes();
    if bytes.len() < 14 || u32_at(bytes, 2) == 0 {
        return put_any_symbol(alloc, out, kept.names(), machine, depth, symbol);
    }
    put_blanks(out, depth)?;
    put_call_text(out, kept, symbol.index().0, bytes)
}

/// The line of a symbol of the kind of ends of inlined calls.
fn put_call_end_symbol(
    out: &mut Vec<u8>,
    depth: usize,
    symbol: &Symbol<'_>,
) -> Result<(), AllocError>
    ensures { OnOk result (out.new.items ≡ out.old.items ++ (blanks depth ++ call_end_line (symbol_of symbol.now).index)) }
{
    put_blanks(out, depth)?;
    out.extend_from_slice(&call_end_line(symbol.index().0))
}

/// The line of a symbol at a depth: those of the most frequent kinds are put together at once.
#[tactic(auto, using(crate::proofs::OffsetLines::end_of_call_line))]
fn put_symbol(
    alloc: Global,
    out: &mut Vec<u8>,
    kept: &mut KeptEnds<'_, '_>,
    machine: Option<Machine>,
    depth: usize,
    symbol: &Symbol<'_>,
) -> Result<(), AllocError>
    ensures names { kept_names kept.new ≡ kept_names kept.old }
    ensures line { OnOk result (out.new.items ≡ out.old.items ++ symbol_line (kept_names kept.old) machine depth (symbol_of symbol.now)) }
{
    match symbol.raw_kind() {
        0x113e => put_local_symbol(alloc, out, kept, machine, depth, symbol),
        0x1141 => put_register_symbol(alloc, out, kept.names(), machine, depth, symbol),
        0x114d => put_call_symbol(alloc, out, kept, machine, depth, symbol),
        0x114e => put_call_end_symbol(out, depth, symbol),
        _ => put_any_symbol(alloc, out, kept.names(), machine, depth, symbol),
    }
}

/// The lines of the symbols that an iterator has left, and then that of its fault.
fn put_symbol_list(
    alloc: Global,
    out: &mut Vec<u8>,
    names: LineNames<'_, '_>,
    machine: Option<Machine>,
    mut symbols: SymbolIter<'_>,
) -> Result<(), AllocError>
    ensures { OnOk result (out.new.items ≡ out.old.items ++ symbol_list_text (names_of_lines names.entry) machine 0 (symbols_left symbols.entry)) }
{
    let mut kept = KeptEnds::new(alloc, names);
    let mut depth = 0usize;
    loop {
        match symbols.next() {
            Ok(Some(symbol)) => {
                depth = depth_of(depth, &symbol);
                put_symbol(alloc, out, &mut kept, machine, depth, &symbol)?;
                if symbol.starts_scope() {
                    depth += 1;
                }
            }
            Ok(None) => return Ok(()),
            Err(e) => return put_error_line(out, e),
        }
    }
}

/// The machine of a module's symbols; the header's where they have an error.
#[tactic(auto, unfolding(pdb_code::specs::ModuleCode::symbols_in))]
pub fn machine_in(
    alloc: Global,
    header: Option<Machine>,
    info: &ModuleInfo<'_>,
) -> Result<Option<Machine>, AllocError>
    ensures listed { IfOk result (λ m. (left : Left Entry) → symbols_of info.now ≡ Ok left → m ≡ module_machine header left.items) }
    ensures is { IfOk result (λ m. m ≡ module_machine header (symbols_in info.now)) }
{
    match info.symbols() {
        Ok(symbols) => machine_of_module(alloc, header, symbols),
        Err(_) => Ok(header),
    }
}

// piece: put_symbols_of
/// The text of `symbols` of a module: its symbols, or their error. The header's machine counts where the symbols name
/// none.
#[tactic(auto, unfolding(crate::specs::SymbolTexts::symbols_text))]
pub fn put_symbols_of(
    alloc: Global,
    out: &mut Vec<u8>,
    names: LineNames<'_, '_>,
    header: Option<Machine>,
    info: &ModuleInfo<'_>,
) -> Result<(), AllocError>
    ensures { OnOk result (out.new.items ≡ out.old.items ++ symbols_text (names_of_lines names.entry) header info.now) }
{
    let machine = machine_in(alloc, header, info)?;
    match info.symbols() {
        Ok(symbols) => put_symbol_list(alloc, out, names, machine, symbols),
        Err(e) => put_refusal_line(out, e),
    }
}
// end

/// The text of `symbols` of the stream of global symbols, on the machine of the header.
#[tactic(auto, unfolding(crate::specs::SymbolTexts::global_symbols_text))]
pub fn put_global_symbols(
    alloc: Global,
    out: &mut Vec<u8>,
    names: LineNames<'_, '_>,
    header: Option<Machine>,
    symbols: &SymbolTable<'_>,
) -> Result<(), AllocError>
    ensures { OnOk result (out.new.items ≡ out.old.items ++ global_symbols_text (names_of_lines names.entry) header symbols.now) }
{
    put_symbol_list(alloc, out, names, header, symbols.iter())
}

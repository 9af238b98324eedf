//! The commands that go over a file's modules.

ghost use Rattle.std.specs.Prelude.{◌≡◌, ◌++◌, true, option_copied, IfOk, IfErr, OnOk};
ghost use Rattle.pdb.specs.Source.{Continues, MayFail};
ghost use Rattle.pdb_resolve.specs.FileParts.{items_where};
ghost use Rattle.pdb_resolve.specs.ImportTables.{ids_by};
ghost use Rattle.pdb_types.specs.FullTypes.{definitions_among, first_definition};
ghost use Rattle.tool_types.specs.LineNames.{names_from};
ghost use Rattle.tool_types.specs.LineViews.{names_of_lines};
ghost use Rattle.tool_symbols.specs.SymbolTexts.{global_symbols_text};
ghost use Rattle.tool_symbols.specs.SymbolCommands.{all_symbols_command, globals_there, globals_told, lines_command, no_imports, scopes_command, symbols_command};
ghost use Rattle.tool_fields.specs.ModuleMachines.{file_machine};
ghost use Rattle.tool_output.specs.Stops.{Halts, StopsComposing};
ghost use Rattle.tool_output.specs.declared.stop.Stop.{Stop};
ghost use Rattle.tool_printing.specs.Printing.{Prints, shown};

use crate::line_texts::put_lines;
use crate::scope_texts::put_scopes;
use crate::symbol_texts::{put_global_symbols, put_symbols_of};
use pdb::{
    Error, IdInformation, ItemFinder, ModuleInfo, PDB, Source, StringTable, SymbolTable,
    TypeInformation,
};
use pdb_records::Machine;
use pdb_resolve::{GlobalIds, ids_of, types_of};
use pdb_types::TypeDefinitions;
use std::alloc::{AllocError, Global};
use tool_arguments::options::OutputFormat;
use tool_output::absent::{DEBUG_INFORMATION, lacks, print_unless_absent};
use tool_output::file_modules::{print_all, print_indexed, print_modules};
use tool_output::file_streams::{ids_stream, strings_of, types_stream};
use tool_output::module_texts::ModuleText;
use tool_output::stop::{Stop, stop_of};
use tool_printing::Printer;
use tool_types::line_names::LineNames;
use tool_types::type_lines::definitions_of;

/// The lines of modules, with the names of files from a string table.
#[derive(Drop)]
struct Lines<'a> {
    strings: Option<&'a StringTable<'a>>,
}

impl<'a> ModuleText for Lines<'a> {
    ghost use Rattle.std.specs.Prelude.{option_copied};
    ghost use Rattle.tool_symbols.specs.LineTexts.{lines_text};

    ghost text = { λ l ids k. lines_text (option_copied l.strings) };

    fn names_calls(&self) -> bool {
        false
    }

    fn put(
        &self,
        alloc: Global,
        out: &mut Vec<u8>,
        _k: u64,
        info: &ModuleInfo<'_>,
        _global: &GlobalIds<'_>,
    ) -> Result<(), AllocError> {
        put_lines(alloc, out, self.strings, info)
    }
}

/// What the names at the ends of lines are found by, in all modules of a file, and the machine of the header.
#[derive(Drop)]
struct Tables<'a> {
    ids: ItemFinder<'a>,
    types: ItemFinder<'a>,
    definitions: TypeDefinitions<'a>,
    header: Option<Machine>,
}

impl<'a> Tables<'a> {
    // The names by the ids that the whole file knows.
    fn names<'x>(&'x self, global: &'x GlobalIds<'x>) -> LineNames<'x, 'a>
        ensures { names_of_lines result ≡ names_from self.now.ids self.now.types (first_definition self.now.definitions) (ids_by global.now) }
    {
        LineNames::new(&self.ids, &self.types, &self.definitions, global)
    }
}

/// The scopes of modules, by the machine of the header where a module names none.
#[derive(Drop)]
struct Scopes<'a> {
    tables: Tables<'a>,
}

impl<'a> ModuleText for Scopes<'a> {
    ghost use Rattle.pdb_types.specs.FullTypes.{first_definition};
    ghost use Rattle.tool_types.specs.LineNames.{names_from};
    ghost use Rattle.tool_symbols.specs.ScopeTexts.{scopes_text};

    ghost text = { λ s ids k. scopes_text (names_from s.tables.ids s.tables.types (first_definition s.tables.definitions) ids) s.tables.header };

    fn names_calls(&self) -> bool {
        true
    }

    fn put(
        &self,
        alloc: Global,
        out: &mut Vec<u8>,
        _k: u64,
        info: &ModuleInfo<'_>,
        global: &GlobalIds<'_>,
    ) -> Result<(), AllocError> {
        put_scopes(
            alloc,
            out,
            self.tables.names(global),
            self.tables.header,
            info,
        )
    }
}

/// The symbols of modules, by the machine of the header where a module names none.
#[derive(Drop)]
struct Symbols<'a> {
    tables: Tables<'a>,
}

impl<'a> ModuleText for Symbols<'a> {
    ghost use Rattle.pdb_types.specs.FullTypes.{first_definition};
    ghost use Rattle.tool_types.specs.LineNames.{names_from};
    ghost use Rattle.tool_symbols.specs.SymbolTexts.{symbols_text};

    ghost text = { λ s ids k. symbols_text (names_from s.tables.ids s.tables.types (first_definition s.tables.definitions) ids) s.tables.header };

    fn names_calls(&self) -> bool {
        true
    }

    fn put(
        &self,
        alloc: Global,
        out: &mut Vec<u8>,
        _k: u64,
        info: &ModuleInfo<'_>,
        global: &GlobalIds<'_>,
    ) -> Result<(), AllocError> {
        put_symbols_of(
            alloc,
            out,
            self.tables.names(global),
            self.tables.header,
            info,
        )
    }
}

/// Prints the line records of modules of a file.
pub fn print_lines<'s, S: Source<'s>, P: Printer>(
    alloc: Global,
    pdb: &mut PDB<'s, S>,
    indices: &[u32],
    out: &mut P,
) -> Result<(), Stop>
    ensures continues { Continues pdb.old pdb.new }
    ensures prints { pdb.new.told ≡ true → Prints (shown (lines_command pdb.old.file indices.now)) (P.state out.old) (P.state out.new) result }
    ensures halts { Halts (MayFail pdb.old pdb.new) (P.state out.old) (P.state out.new) result }
{
    let strings = strings_of(pdb)?;
    let lines = Lines {
        strings: strings.as_ref(),
    };
    print_modules(alloc, pdb, OutputFormat::Text, &lines, indices, out)
}

/// What names are found by, from these streams of ids and types.
fn tables_by<'a>(
    alloc: Global,
    ids: Option<&'a IdInformation<'a>>,
    types: Option<&'a TypeInformation<'a>>,
    header: Option<Machine>,
) -> Result<Tables<'a>, Stop>
    ensures ids { IfOk result (λ t. t.ids ≡ items_where (option_copied ids.entry)) }
    ensures types { IfOk result (λ t. t.types ≡ items_where (option_copied types.entry)) }
    ensures definitions { IfOk result (λ t. first_definition t.definitions ≡ first_definition (definitions_among (items_where (option_copied types.entry)))) }
    ensures header { IfOk result (λ t. t.header ≡ header) }
    ensures unwritten { IfErr result (λ e. e ≡ Stop.Memory) }
{
    Ok(Tables {
        ids: ids_of(alloc, ids).map_err(stop_of)?,
        types: types_of(alloc, types).map_err(stop_of)?,
        definitions: definitions_of(alloc, types)?,
        header,
    })
}

/// Prints the scopes of modules of a file.
pub fn print_scopes<'s, S: Source<'s>, P: Printer>(
    alloc: Global,
    pdb: &mut PDB<'s, S>,
    indices: &[u32],
    out: &mut P,
) -> Result<(), Stop>
    ensures continues { Continues pdb.old pdb.new }
    ensures prints { pdb.new.told ≡ true → Prints (shown (scopes_command pdb.old.file indices.now)) (P.state out.old) (P.state out.new) result }
    ensures halts { Halts (MayFail pdb.old pdb.new) (P.state out.old) (P.state out.new) result }
{
    let ids = ids_stream(pdb)?;
    let types = types_stream(pdb)?;
    let header = machine_of_file(pdb)?;
    let tables = tables_by(alloc, ids.as_ref(), types.as_ref(), header)?;
    let scopes = Scopes { tables };
    print_modules(alloc, pdb, OutputFormat::Text, &scopes, indices, out)
}

/// The text of the global symbols, by what names are found by, and by these ids of other modules.
fn put_globals_by(
    alloc: Global,
    out: &mut Vec<u8>,
    tables: &Tables<'_>,
    global: &GlobalIds<'_>,
    symbols: &SymbolTable<'_>,
) -> Result<(), AllocError>
    ensures { OnOk result (out.new.items ≡ out.old.items ++ global_symbols_text (names_from tables.now.ids tables.now.types (first_definition tables.now.definitions) (ids_by global.now)) tables.now.header symbols.now) }
{
    put_global_symbols(alloc, out, tables.names(global), tables.header, symbols)
}

/// The text of the global symbols, which import no ids, by what names are found by.
fn put_globals(
    alloc: Global,
    out: &mut Vec<u8>,
    tables: &Tables<'_>,
    symbols: &SymbolTable<'_>,
) -> Result<(), AllocError>
    ensures { OnOk result (out.new.items ≡ out.old.items ++ global_symbols_text (names_from tables.now.ids tables.now.types (first_definition tables.now.definitions) (ids_by no_imports)) tables.now.header symbols.now) }
{
    let global = GlobalIds::empty(alloc);
    put_globals_by(alloc, out, tables, &global, symbols)
}

/// Prints the global symbols of a file that has debug information, by what names are found by.
fn print_listed_globals<'s, S: Source<'s>, P: Printer>(
    alloc: Global,
    pdb: &mut PDB<'s, S>,
    tables: &Tables<'_>,
    out: &mut P,
) -> Result<(), Stop>
    ensures continues { Continues pdb.old pdb.new }
    ensures prints { pdb.new.told ≡ true → Prints (shown (globals_there pdb.old.file (global_symbols_text (names_from tables.now.ids tables.now.types (first_definition tables.now.definitions) (ids_by no_imports)) tables.now.header))) (P.state out.old) (P.state out.new) result }
    ensures halts { Halts (MayFail pdb.old pdb.new) (P.state out.old) (P.state out.new) result }
{
    let symbols = match pdb.global_symbols() {
        Ok(symbols) => symbols,
        Err(e) => return print_unless_absent(alloc, OutputFormat::Text, e, out),
    };
    let mut text = Vec::new(alloc);
    put_globals(alloc, &mut text, tables, &symbols)?;
    Ok(out.print(&text)?)
}

/// Prints the global symbols of an opened file, by what names are found by.
fn print_globals<'s, S: Source<'s>, P: Printer>(
    alloc: Global,
    pdb: &mut PDB<'s, S>,
    tables: &Tables<'_>,
    out: &mut P,
) -> Result<(), Stop>
    ensures continues { Continues pdb.old pdb.new }
    ensures prints { pdb.new.told ≡ true → Prints (shown (globals_told pdb.old.file (global_symbols_text (names_from tables.now.ids tables.now.types (first_definition tables.now.definitions) (ids_by no_imports)) tables.now.header))) (P.state out.old) (P.state out.new) result }
    ensures halts { Halts (MayFail pdb.old pdb.new) (P.state out.old) (P.state out.new) result }
{
    if lacks(pdb, DEBUG_INFORMATION) {
        return Ok(());
    }
    print_listed_globals(alloc, pdb, tables, out)
}

/// Prints the symbols of the modules of these numbers; the global symbols where there is no number.
pub fn print_symbols<'s, S: Source<'s>, P: Printer>(
    alloc: Global,
    pdb: &mut PDB<'s, S>,
    indices: &[u32],
    out: &mut P,
) -> Result<(), Stop>
    ensures continues { Continues pdb.old pdb.new }
    ensures prints { pdb.new.told ≡ true → Prints (shown (symbols_command pdb.old.file indices.now)) (P.state out.old) (P.state out.new) result }
    ensures halts { Halts (MayFail pdb.old pdb.new) (P.state out.old) (P.state out.new) result }
{
    let ids = ids_stream(pdb)?;
    let types = types_stream(pdb)?;
    let header = machine_of_file(pdb)?;
    let tables = tables_by(alloc, ids.as_ref(), types.as_ref(), header)?;
    match indices.split_first() {
        Some(_) => print_indexed(
            alloc,
            pdb,
            OutputFormat::Text,
            &Symbols { tables },
            indices,
            out,
        ),
        None => print_globals(alloc, pdb, &tables, out),
    }
}

/// Prints the symbols of all modules of a file.
pub fn print_all_symbols<'s, S: Source<'s>, P: Printer>(
    alloc: Global,
    pdb: &mut PDB<'s, S>,
    out: &mut P,
) -> Result<(), Stop>
    ensures continues { Continues pdb.old pdb.new }
    ensures prints { pdb.new.told ≡ true → Prints (shown (all_symbols_command pdb.old.file)) (P.state out.old) (P.state out.new) result }
    ensures halts { Halts (MayFail pdb.old pdb.new) (P.state out.old) (P.state out.new) result }
{
    let ids = ids_stream(pdb)?;
    let types = types_stream(pdb)?;
    let header = machine_of_file(pdb)?;
    let tables = tables_by(alloc, ids.as_ref(), types.as_ref(), header)?;
    print_all(alloc, pdb, OutputFormat::Text, &Symbols { tables }, out)
}

/// The machine that the header of a file's DBI stream names. None where there is no header.
pub fn machine_of_file<'s, S: Source<'s>>(pdb: &mut PDB<'s, S>) -> Result<Option<Machine>, Stop>
    ensures continues { Continues pdb.old pdb.new }
    ensures is { pdb.new.told ≡ true → IfOk result (λ m. m ≡ file_machine pdb.old.file) }
    ensures unwritten { IfErr result (StopsComposing (MayFail pdb.old pdb.new)) }
{
    match pdb.debug_information() {
        Ok(information) => Ok(Machine::of_image(information.header().machine_type)),
        Err(Error::OutOfMemory) => Err(Stop::Memory),
        Err(Error::IoError) => Err(Stop::Read),
        Err(_) => Ok(None),
    }
}

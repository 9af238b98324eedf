//! The commands that look names and files up.

ghost use Rattle.std.specs.Prelude.{◌≡◌, ◌++◌, true, false, map, option_copied, IfOk, IfErr, OnOk};
ghost use Rattle.pdb.specs.Answers.{address_map_in};
ghost use Rattle.pdb.specs.Source.{Continues, MayFail};
ghost use Rattle.pdb_places.specs.AsIfEmpty.{if_read};
ghost use Rattle.pdb_resolve.specs.FileParts.{items_where};
ghost use Rattle.tool_search.specs.FindTexts.{globals_found, x86_in};
ghost use Rattle.tool_search.specs.SourceTexts.{sources_text};
ghost use Rattle.tool_search.specs.LookupCommands.{find_command, found_by, sources_command, where_command};
ghost use Rattle.tool_arguments.specs.Operands.{word_of};
ghost use Rattle.tool_arguments.specs.SourceViews.{source_view};
ghost use Rattle.tool_output.specs.Stops.{Halts, StopsComposing};
ghost use Rattle.tool_output.specs.declared.stop.Stop.{Stop};
ghost use Rattle.tool_printing.specs.Printing.{Prints, shown};

use crate::asking::Asking;
use crate::find_texts::{put_found_globals, put_found_symbols};
use crate::finder::Finder;
use crate::source_texts::put_sources;
use crate::where_texts::put_where;
use pdb::{
    AddressMap, Error, IdInformation, ModuleInfo, PDB, Source, StringTable, TypeInformation,
};
use pdb_resolve::{CallNames, GlobalIds, PlaceAddresses, ids_of, is_x86, types_of};
use std::alloc::{AllocError, Global};
use tool_arguments::operands::Operand;
use tool_arguments::options::OutputFormat;
use tool_arguments::sources_asked::SourceAsked;
use tool_output::absent::{DEBUG_INFORMATION, lacks, put_unless_absent};
use tool_output::file_modules::{print_modules, print_plain};
use tool_output::file_streams::{ids_stream, strings_of, types_stream};
use tool_output::module_texts::ModuleText;
use tool_output::stop::{Stop, stop_of};
use tool_printing::Printer;

/// The source files of modules in a format, with their names from a string table.
#[derive(Drop)]
struct Sources<'a> {
    format: OutputFormat,
    strings: Option<&'a StringTable<'a>>,
}

impl<'a> ModuleText for Sources<'a> {
    ghost use Rattle.std.specs.Prelude.{option_copied};
    ghost use Rattle.tool_search.specs.SourceTexts.{sources_text};

    ghost text = { λ s ids k. sources_text s.format k (option_copied s.strings) };

    fn names_calls(&self) -> bool {
        false
    }

    fn put(
        &self,
        _alloc: Global,
        out: &mut Vec<u8>,
        k: u64,
        info: &ModuleInfo<'_>,
        _global: &GlobalIds<'_>,
    ) -> Result<(), AllocError> {
        put_sources(out, self.format, k, self.strings, info)
    }
}

/// Prints the source files of modules of a file.
pub fn print_sources<'s, S: Source<'s>, P: Printer>(
    alloc: Global,
    pdb: &mut PDB<'s, S>,
    format: OutputFormat,
    indices: &[u32],
    out: &mut P,
) -> Result<(), Stop>
    ensures continues { Continues pdb.old pdb.new }
    ensures prints { pdb.new.told ≡ true → Prints (shown (sources_command format pdb.old.file indices.now)) (P.state out.old) (P.state out.new) result }
    ensures halts { Halts (MayFail pdb.old pdb.new) (P.state out.old) (P.state out.new) result }
{
    let strings = strings_of(pdb)?;
    let sources = Sources {
        format,
        strings: strings.as_ref(),
    };
    print_modules(alloc, pdb, format, &sources, indices, out)
}

impl<'w, 'a> ModuleText for Finder<'w, 'a> {
    ghost use Rattle.pdb_resolve.specs.AcrossModules.{names_by};
    ghost use Rattle.tool_search.specs.FindTexts.{find_text};

    ghost text = { λ f ids k. find_text f k (names_by f.ids f.types ids) };

    fn names_calls(&self) -> bool {
        true
    }

    fn put(
        &self,
        alloc: Global,
        out: &mut Vec<u8>,
        k: u64,
        info: &ModuleInfo<'_>,
        global: &GlobalIds<'_>,
    ) -> Result<(), AllocError> {
        let names = CallNames::new(&self.ids, &self.types, global);
        put_found_symbols(alloc, out, self, k, &names, info)
    }
}

/// The address map; none where it has an error.
fn address_map<'s, S: Source<'s>>(pdb: &mut PDB<'s, S>) -> Result<Option<AddressMap<'s>>, Stop>
    ensures continues { Continues pdb.old pdb.new }
    ensures is { pdb.new.told ≡ true → IfOk result (λ o. o ≡ if_read (address_map_in pdb.old.file)) }
    ensures unwritten { IfErr result (StopsComposing (MayFail pdb.old pdb.new)) }
{
    match pdb.address_map() {
        Ok(map) => Ok(Some(map)),
        Err(Error::OutOfMemory) => Err(Stop::Memory),
        Err(Error::IoError) => Err(Stop::Read),
        Err(_) => Ok(None),
    }
}

/// Whether the image is for x86, by the header of the DBI stream.
fn image_is_x86<'s, S: Source<'s>>(pdb: &mut PDB<'s, S>) -> Result<bool, Stop>
    ensures continues { Continues pdb.old pdb.new }
    ensures is { pdb.new.told ≡ true → IfOk result (λ b. b ≡ x86_in pdb.old.file) }
    ensures unwritten { IfErr result (StopsComposing (MayFail pdb.old pdb.new)) }
{
    match pdb.debug_information() {
        Ok(information) => Ok(is_x86(Some(&information))),
        Err(Error::OutOfMemory) => Err(Stop::Memory),
        Err(Error::IoError) => Err(Stop::Read),
        Err(_) => Ok(false),
    }
}

/// What is asked for by words, by the tables of a file.
fn finder_by<'w, 'a>(
    alloc: Global,
    format: OutputFormat,
    words: &'w [Operand<'w>],
    ids: Option<&'a IdInformation<'a>>,
    types: Option<&'a TypeInformation<'a>>,
    addresses: Option<AddressMap<'a>>,
) -> Result<Finder<'w, 'a>, Stop>
    ensures is { IfOk result (λ f. f ≡ record { format = format; words = map word_of words.entry.now; ids = items_where (option_copied ids.entry); types = items_where (option_copied types.entry); addresses = addresses.entry }) }
    ensures unwritten { IfErr result (λ e. e ≡ Stop.Memory) }
{
    let ids = ids_of(alloc, ids).map_err(stop_of)?;
    let types = types_of(alloc, types).map_err(stop_of)?;
    Ok(Finder::new(format, words, ids, types, PlaceAddresses::new(addresses)))
}

/// The global symbols that are asked for, or the line of their error.
fn put_globals<'s, S: Source<'s>>(
    alloc: Global,
    pdb: &mut PDB<'s, S>,
    finder: &Finder<'_, '_>,
    out: &mut Vec<u8>,
) -> Result<(), Stop>
    ensures continues { Continues pdb.old pdb.new }
    ensures text { pdb.new.told ≡ true → OnOk result (out.new.items ≡ out.old.items ++ globals_found pdb.old.file finder.now) }
    ensures unwritten { IfErr result (StopsComposing (MayFail pdb.old pdb.new)) }
{
    if lacks(pdb, DEBUG_INFORMATION) {
        return Ok(());
    }
    let x86 = image_is_x86(pdb)?;
    match pdb.global_symbols() {
        Ok(symbols) => Ok(put_found_globals(alloc, out, finder, x86, &symbols)?),
        Err(e) => put_unless_absent(out, finder.format, e),
    }
}

/// Prints what is asked for of an opened file: of the global symbols, and then of all modules.
fn print_found<'s, S: Source<'s>, P: Printer>(
    alloc: Global,
    pdb: &mut PDB<'s, S>,
    finder: &Finder<'_, '_>,
    out: &mut P,
) -> Result<(), Stop>
    ensures continues { Continues pdb.old pdb.new }
    ensures prints { pdb.new.told ≡ true → Prints (shown (found_by pdb.old.file finder.now)) (P.state out.old) (P.state out.new) result }
    ensures halts { Halts (MayFail pdb.old pdb.new) (P.state out.old) (P.state out.new) result }
{
    let mut text = Vec::new(alloc);
    put_globals(alloc, pdb, finder, &mut text)?;
    out.print(&text)?;
    print_plain(alloc, pdb, finder.format, finder, out)
}

/// Prints where the functions and the data of a file stand whose names are asked for.
#[tactic(auto, unfolding(pdb_resolve::specs::FileParts::items_listed))]
pub fn print_find<'w, 's, S: Source<'s>, P: Printer>(
    alloc: Global,
    pdb: &mut PDB<'s, S>,
    format: OutputFormat,
    words: &'w [Operand<'w>],
    out: &mut P,
) -> Result<(), Stop>
    ensures continues { Continues pdb.old pdb.new }
    ensures prints { pdb.new.told ≡ true → Prints (shown (find_command format pdb.old.file (map word_of words.now))) (P.state out.old) (P.state out.new) result }
    ensures halts { Halts (MayFail pdb.old pdb.new) (P.state out.old) (P.state out.new) result }
{
    let ids = ids_stream(pdb)?;
    let types = types_stream(pdb)?;
    let map = address_map(pdb)?;
    let finder = finder_by(alloc, format, words, ids.as_ref(), types.as_ref(), map)?;
    print_found(alloc, pdb, &finder, out)
}

impl<'w, 'a> ModuleText for Asking<'w, 'a> {
    ghost use Rattle.pdb_resolve.specs.AcrossModules.{names_by};
    ghost use Rattle.tool_search.specs.WhereTexts.{where_text};

    ghost text = { λ a ids k. where_text a k (names_by a.ids a.types ids) };

    fn names_calls(&self) -> bool {
        true
    }

    fn put(
        &self,
        alloc: Global,
        out: &mut Vec<u8>,
        k: u64,
        info: &ModuleInfo<'_>,
        global: &GlobalIds<'_>,
    ) -> Result<(), AllocError> {
        let names = CallNames::new(&self.ids, &self.types, global);
        put_where(alloc, out, self, k, &names, info)
    }
}

/// What is asked for by words, by the tables of a file.
fn asking_by<'w, 'a>(
    alloc: Global,
    format: OutputFormat,
    asked: &'w [SourceAsked<'w>],
    strings: Option<&'a StringTable<'a>>,
    ids: Option<&'a IdInformation<'a>>,
    types: Option<&'a TypeInformation<'a>>,
    addresses: Option<AddressMap<'a>>,
) -> Result<Asking<'w, 'a>, Stop>
    ensures is { IfOk result (λ a. a ≡ record { format = format; asked = map source_view asked.entry.now; strings = option_copied strings.entry; ids = items_where (option_copied ids.entry); types = items_where (option_copied types.entry); addresses = addresses.entry }) }
    ensures unwritten { IfErr result (λ e. e ≡ Stop.Memory) }
{
    let ids = ids_of(alloc, ids).map_err(stop_of)?;
    let types = types_of(alloc, types).map_err(stop_of)?;
    let addresses = PlaceAddresses::new(addresses);
    Ok(Asking::new(format, asked, strings, ids, types, addresses))
}

/// Prints which addresses lines of a file have that are asked for.
#[tactic(auto, unfolding(pdb_resolve::specs::FileParts::items_listed))]
pub fn print_where<'w, 's, S: Source<'s>, P: Printer>(
    alloc: Global,
    pdb: &mut PDB<'s, S>,
    format: OutputFormat,
    asked: &'w [SourceAsked<'w>],
    out: &mut P,
) -> Result<(), Stop>
    ensures continues { Continues pdb.old pdb.new }
    ensures prints { pdb.new.told ≡ true → Prints (shown (where_command format pdb.old.file (map source_view asked.now))) (P.state out.old) (P.state out.new) result }
    ensures halts { Halts (MayFail pdb.old pdb.new) (P.state out.old) (P.state out.new) result }
{
    let strings = strings_of(pdb)?;
    let ids = ids_stream(pdb)?;
    let types = types_stream(pdb)?;
    let map = address_map(pdb)?;
    let asking = asking_by(
        alloc,
        format,
        asked,
        strings.as_ref(),
        ids.as_ref(),
        types.as_ref(),
        map,
    )?;
    print_plain(alloc, pdb, format, &asking, out)
}

//! The ids that the whole file knows, by those of one module, and the names of its inlined calls.

ghost use Rattle.std.specs.Prelude.{◌≡◌, [], ℕ, List, Result, IfOk, IfErr, map, take, option_copied, true};
ghost use Rattle.std.specs.Option.{option_map};
ghost use Rattle.pdb.specs.Error.{Error};
ghost use Rattle.pdb.specs.Answers.{debug_information_in, string_table_in};
ghost use Rattle.pdb.specs.CrossModule.{ImportedModule};
ghost use Rattle.pdb.specs.Refusal.{Gives};
ghost use Rattle.pdb.specs.Qualified.{shown_qualified};
ghost use Rattle.pdb.specs.Source.{Continues, MayFail};
ghost use Rattle.pdb_modules.specs.ImportViews.{module_of};
ghost use Rattle.pdb_places.specs.AsIfEmpty.{if_read, OnlyFails};
ghost use Rattle.pdb_resolve.specs.FileParts.{modules_where};
ghost use Rattle.pdb_resolve.specs.AcrossModules.{global_id_in, is_imported, names_by};
ghost use Rattle.pdb_resolve.specs.ImportTables.{exports_for, ids_by, imports_or_none};
ghost use Rattle.pdb_resolve.specs.ExporterViews.{exports_by};
ghost use Rattle.pdb_resolve.specs.KeptCrossings.{IsListOf};

use crate::exported_ids::ExportedIds;
use crate::exporters::{exporters_of, read_all_exports};
use crate::modules::modules_of;
use pdb::{
    CrossModuleImports, DebugInformation, Error, IdIndex, ItemFinder, Module, ModuleInfo, PDB,
    QualifiedName, Result, Source, StringTable, qualified_name,
};
use pdb_modules::Imported;
use pdb_places::as_if_empty::{if_read, read_or};
use std::alloc::Global;
use std::collections::BTreeMap;
use std::marker::Model;

/// How many modules an id can name.
const MOST_MODULES: usize = 2048;

/// The modules from which a module imports, in the order of its imports, by their numbers in the list of modules; and
/// what each of them exports.
#[derive(Drop)]
pub(crate) struct Exporters {
    pub(crate) numbers: Vec<Option<usize>>,
    pub(crate) exports: BTreeMap<usize, ExportedIds>,
}

/// The ids that the whole file knows, by those of one module. A contract sees the
/// imports of the module, and what each of the modules exports from which they are.
#[derive(Drop)]
pub struct GlobalIds<'a> {
    imports: CrossModuleImports<'a>,
    exporters: Exporters,
}

impl<'a> Model for GlobalIds<'a> {
    ghost use Rattle.pdb_resolve.specs.ImportTables.{ImportTable};
    ghost use Rattle.pdb_resolve.specs.ExporterViews.{exports_by};

    ghost Value = { ImportTable };

    ghost view = { λ g. record { imports = g.imports; exports = exports_by g.exporters } };
}

/// The string table; none where it has an error.
#[tactic(auto, using(crate::proofs::Asking::failed_on, crate::proofs::Asking::told))]
fn strings_of<'s, S: Source<'s>>(pdb: &mut PDB<'s, S>) -> Result<Option<StringTable<'s>>>
    ensures continues { Continues pdb.old pdb.new }
    ensures is { pdb.new.told ≡ true → IfOk result (λ o. o ≡ if_read (string_table_in pdb.old.file)) }
    ensures refused { IfErr result (λ e. OnlyFails (MayFail pdb.old pdb.new) e) }
{
    if_read(pdb.string_table())
}

/// The DBI stream; none where it has an error.
#[tactic(auto, using(crate::proofs::Asking::failed_on, crate::proofs::Asking::told))]
fn information_of<'s, S: Source<'s>>(pdb: &mut PDB<'s, S>) -> Result<Option<DebugInformation<'s>>>
    ensures continues { Continues pdb.old pdb.new }
    ensures is { pdb.new.told ≡ true → IfOk result (λ o. o ≡ if_read (debug_information_in pdb.old.file)) }
    ensures refused { IfErr result (λ e. OnlyFails (MayFail pdb.old pdb.new) e) }
{
    if_read(pdb.debug_information())
}

/// The first modules from which is imported, as many as an id can name.
fn named_modules<'x, 'a>(imports: &'x CrossModuleImports<'a>) -> &'x [Imported<'a>]
    ensures { map module_of result.now ≡ take 2048 imports.entry.now }
{
    let modules = imports.modules();
    if modules.len() <= MOST_MODULES {
        return modules;
    }
    let (first, _) = modules.split_at(MOST_MODULES);
    first
}

/// No modules. It takes no memory.
fn no_exporters(alloc: Global) -> Exporters
    ensures { exports_by result ≡ [] }
{
    Exporters {
        numbers: Vec::new(alloc),
        exports: BTreeMap::new(alloc),
    }
}

/// The numbers of the modules from which is imported, in a list of modules, and what they export.
fn read_exporters<'s, S: Source<'s>>(
    alloc: Global,
    pdb: &mut PDB<'s, S>,
    strings: Option<&StringTable<'_>>,
    listed: &[Module<'_>],
    modules: &[Imported<'_>],
) -> Result<Exporters>
    requires { IsListOf pdb.old listed.now }
    ensures continues { Continues pdb.old pdb.new }
    ensures exports { pdb.new.told ≡ true → IfOk result (λ x. exports_by x ≡ map (exports_for pdb.old.file (option_copied strings.entry) listed.now) (map module_of modules.now)) }
    ensures refused { IfErr result (λ e. OnlyFails (MayFail pdb.old pdb.new) e) }
{
    let numbers = exporters_of(alloc, strings, listed, modules)?;
    let exports = read_all_exports(alloc, pdb, listed, &numbers)?;
    Ok(Exporters { numbers, exports })
}

/// What leads to the modules from which these imports are: their numbers, and what they export. Where nothing is imported,
/// no stream is read.
#[tactic(auto, unfolding(crate::specs::FileParts::modules_listed))]
fn exporters_for<'s, S: Source<'s>>(
    alloc: Global,
    pdb: &mut PDB<'s, S>,
    imports: &CrossModuleImports<'_>,
) -> Result<Exporters>
    ensures continues { Continues pdb.old pdb.new }
    ensures exports { pdb.new.told ≡ true → IfOk result (λ x. exports_by x ≡ map (exports_for pdb.old.file (if_read (string_table_in pdb.old.file)) (modules_where (if_read (debug_information_in pdb.old.file)))) (take 2048 imports.now)) }
    ensures refused { IfErr result (λ e. OnlyFails (MayFail pdb.old pdb.new) e) }
{
    let modules = named_modules(imports);
    if modules.is_empty() {
        return Ok(no_exporters(alloc));
    }
    let strings = strings_of(pdb)?;
    let information = information_of(pdb)?;
    let listed = modules_of(alloc, information.as_ref())?;
    read_exporters(alloc, pdb, strings.as_ref(), &listed, modules)
}

impl<'a> GlobalIds<'a> {
    /// Reads the imports of a module, and the exports of each module from which it imports. A part that has an error
    /// counts as not present. `OutOfMemory`, and `IoError` where the source failed, are passed on.
    #[tactic(auto, unfolding(crate::specs::FileParts::modules_listed))]
    pub fn read<'s, S: Source<'s>>(
        alloc: Global,
        pdb: &mut PDB<'s, S>,
        info: &'a ModuleInfo<'_>,
    ) -> Result<Self>
        ensures continues { Continues pdb.old pdb.new }
        ensures ids { pdb.new.told ≡ true → IfOk result (λ g. ids_by g ≡ global_id_in pdb.old.file info.entry.now) }
        ensures refused { IfErr result (λ e. OnlyFails (MayFail pdb.old pdb.new) e) }
    {
        let imports = read_or(info.imports(alloc), CrossModuleImports::empty(alloc))?;
        let exporters = exporters_for(alloc, pdb, &imports)?;
        Ok(GlobalIds { imports, exporters })
    }

    /// No ids of other modules. It takes no memory.
    pub fn empty(alloc: Global) -> Self
        ensures { result ≡ record { imports = []; exports = [] } }
    {
        GlobalIds {
            imports: CrossModuleImports::empty(alloc),
            exporters: no_exporters(alloc),
        }
    }

    // The id of another module that is meant.
    fn find_imported(&self, id: IdIndex) -> Option<IdIndex>
        requires { is_imported id.0 ≡ true }
        ensures { option_map (λ i. i.0) result ≡ ids_by self.now id.0 }
    {
        let Ok(reference) = self.imports.resolve_import(id) else {
            return None;
        };
        let place = (id.0 / 0x10_0000 % 0x800) as usize;
        let number = (*self.exporters.numbers.get(place)?)?;
        self.exporters.exports.get(&number)?.find(reference.1)
    }

    /// The id that the whole file knows by an id of the module; none where that is an id of another module, and isn't
    /// imported and exported. It takes no memory.
    pub fn find(&self, id: IdIndex) -> Option<IdIndex>
        ensures { option_map (λ i. i.0) result ≡ ids_by self.now id.0 }
    {
        if id.0 < 0x8000_0000 {
            return Some(id);
        }
        self.find_imported(id)
    }
}

/// What the names of a module's inlined calls are found by. A contract sees it as a function of the id of a call.
#[derive(Clone, Copy)]
pub struct CallNames<'x, 'a> {
    ids: &'x ItemFinder<'a>,
    types: &'x ItemFinder<'a>,
    global: &'x GlobalIds<'x>,
}

impl<'x, 'a> CallNames<'x, 'a> {
    ghost use Rattle.pdb_resolve.specs.CallViews.{names_of_calls};

    /// The names by ids, types, and the ids that the whole file knows.
    pub fn new(
        ids: &'x ItemFinder<'a>,
        types: &'x ItemFinder<'a>,
        global: &'x GlobalIds<'x>,
    ) -> Self
        ensures { names_of_calls result ≡ names_by ids.entry.now types.entry.now (ids_by global.entry.now) }
    {
        CallNames { ids, types, global }
    }

    /// The name of the function of a call, by the id that the call has; none where the function or its name isn't
    /// there.
    #[tactic(auto, unfolding(crate::specs::AcrossModules::names_by))]
    pub fn find(&self, id: IdIndex) -> Option<QualifiedName<'a>>
        ensures { option_map shown_qualified result ≡ names_of_calls self.now id.0 }
    {
        match self.global.find(id) {
            Some(id) => qualified_name(self.ids, self.types, id),
            None => None,
        }
    }
}

//! The modules from which a module imports.

ghost use Rattle.std.specs.Prelude.{◌≡◌, ℕ, List, Option, Some, IsSome, IfOk, IfErr, OnOk, map, option_copied, slice_get, true};
ghost use Rattle.std.specs.BTreeMap.{get};
ghost use Rattle.std.specs.Ordering.{nat_cmp};
ghost use Rattle.std.specs.Option.{option_and_then};
ghost use Rattle.std.specs.List.{All};
ghost use Rattle.pdb.specs.Error.{Error};
ghost use Rattle.pdb.specs.Source.{Continues, MayFail};
ghost use Rattle.pdb_modules.specs.ImportViews.{module_of};
ghost use Rattle.pdb_places.specs.AsIfEmpty.{OnlyFails};
ghost use Rattle.pdb.specs.CrossModule.{ImportedModule};
ghost use Rattle.pdb_resolve.specs.Exporters.{HasName, exporter};
ghost use Rattle.pdb_resolve.specs.Frames.{string_in};
ghost use Rattle.pdb_resolve.specs.KeptCrossings.{AreExportsOf, AreStillRead, IsListOf, IsRead};
ghost use Rattle.pdb_resolve.specs.NumberViews.{number_in};

use crate::across_modules::{exports_of, name_of};
use crate::crossings::keep;
use crate::exported_ids::ExportedIds;
use crate::module_numbers::{ModuleNumbers, put_number};
use pdb::{Error, Module, PDB, Result, Source, StringTable};
use pdb_modules::Imported;
use std::alloc::Global;
use std::collections::BTreeMap;

/// The name of the module from which this is imported leads to a number from now on, where it is there.
#[tactic(auto, using(crate::proofs::ExporterLaws::named_here, crate::proofs::ExporterLaws::named_still, crate::proofs::ExporterLaws::named_without))]
fn put_name_of<'a>(
    names: &mut BTreeMap<&'a [u8], usize>,
    strings: Option<&'a StringTable<'a>>,
    imported: &Imported<'_>,
) -> Result<()>
    ensures here { OnOk result (HasName (option_copied strings.entry) names.new (module_of imported.now)) }
    ensures still { OnOk result ((x : ImportedModule) → HasName (option_copied strings.entry) names.old x → HasName (option_copied strings.entry) names.new x) }
    ensures refused { IfErr result (λ e. e ≡ Error.OutOfMemory) }
{
    match name_of(strings, imported.name()) {
        Some(name) => put_number(names, name.as_bytes(), 0),
        None => Ok(()),
    }
}

/// The names of the modules from which is imported, each of which leads to a number.
fn names_of<'a>(
    alloc: Global,
    strings: Option<&'a StringTable<'a>>,
    modules: &[Imported<'_>],
) -> Result<BTreeMap<&'a [u8], usize>>
    ensures named { IfOk result (λ names. All (λ x. HasName (option_copied strings.entry) names (module_of x)) modules.now) }
    ensures refused { IfErr result (λ e. e ≡ Error.OutOfMemory) }
{
    let mut names = BTreeMap::new(alloc);
    for imported in modules {
        put_name_of(&mut names, strings, imported)?;
    }
    Ok(names)
}

/// The number of the module from which this is imported, in a list of modules; none where it isn't listed.
fn exporter(
    strings: Option<&StringTable<'_>>,
    numbers: &ModuleNumbers<'_>,
    imported: &Imported<'_>,
) -> Option<usize>
    ensures { result ≡ option_and_then (number_in numbers.now.numbers) (string_in (option_copied strings.entry) (module_of imported.now).name) }
{
    numbers.find(name_of(strings, imported.name())?)
}

/// The numbers of the modules from which is imported, in their order. The list of modules is looked at once.
pub(crate) fn exporters_of(
    alloc: Global,
    strings: Option<&StringTable<'_>>,
    listed: &[Module<'_>],
    modules: &[Imported<'_>],
) -> Result<Vec<Option<usize>>>
    ensures numbers { IfOk result (λ v. v.items ≡ map (exporter (option_copied strings.entry) listed.now) (map module_of modules.now)) }
    ensures refused { IfErr result (λ e. e ≡ Error.OutOfMemory) }
{
    let names = names_of(alloc, strings, modules)?;
    let numbers = ModuleNumbers::among(alloc, listed, &names)?;
    let mut exporters = Vec::new(alloc);
    for imported in modules {
        exporters.push(exporter(strings, &numbers, imported))?;
    }
    Ok(exporters)
}

/// The module of a number in a list.
fn module_at<'x, 'a>(listed: &'x [Module<'a>], number: usize) -> Option<&'x Module<'a>>
    ensures { option_copied result ≡ slice_get listed.entry.now number }
{
    listed.get(number)
}

/// Reads the exports of the module of a number in a list, unless they were read.
pub(crate) fn read_exports<'s, S: Source<'s>>(
    alloc: Global,
    pdb: &mut PDB<'s, S>,
    exports: &mut BTreeMap<usize, ExportedIds>,
    listed: &[Module<'_>],
    number: usize,
) -> Result<()>
    requires kept { AreExportsOf pdb.old exports.old }
    requires listed { IsListOf pdb.old listed.now }
    ensures continues { Continues pdb.old pdb.new }
    ensures kept { AreExportsOf pdb.new exports.new }
    ensures read { IfOk result (λ _. IsSome (get nat_cmp exports.new number)) }
    ensures stay { AreStillRead exports.old exports.new }
    ensures refused { IfErr result (λ e. OnlyFails (MayFail pdb.old pdb.new) e) }
{
    if exports.contains_key(&number) {
        return Ok(());
    }
    let read = exports_of(alloc, pdb, module_at(listed, number))?;
    let read = ExportedIds::new(alloc, read)?;
    keep(exports, number, read)
}

/// Reads the exports of the module of a number, if there is one, unless they were read.
fn read_exports_where<'s, S: Source<'s>>(
    alloc: Global,
    pdb: &mut PDB<'s, S>,
    exports: &mut BTreeMap<usize, ExportedIds>,
    listed: &[Module<'_>],
    number: Option<usize>,
) -> Result<()>
    requires kept { AreExportsOf pdb.old exports.old }
    requires listed { IsListOf pdb.old listed.now }
    ensures continues { Continues pdb.old pdb.new }
    ensures kept { AreExportsOf pdb.new exports.new }
    ensures read { IfOk result (λ _. IsRead exports.new number) }
    ensures stay { AreStillRead exports.old exports.new }
    ensures refused { IfErr result (λ e. OnlyFails (MayFail pdb.old pdb.new) e) }
{
    match number {
        Some(number) => read_exports(alloc, pdb, exports, listed, number),
        None => Ok(()),
    }
}

/// Reads what the modules of these numbers export, each once.
pub(crate) fn read_all_exports<'s, S: Source<'s>>(
    alloc: Global,
    pdb: &mut PDB<'s, S>,
    listed: &[Module<'_>],
    numbers: &[Option<usize>],
) -> Result<BTreeMap<usize, ExportedIds>>
    requires { IsListOf pdb.old listed.now }
    ensures continues { Continues pdb.old pdb.new }
    ensures kept { IfOk result (AreExportsOf pdb.new) }
    ensures read { IfOk result (λ exports. All (IsRead exports) numbers.now) }
    ensures refused { IfErr result (λ e. OnlyFails (MayFail pdb.old pdb.new) e) }
{
    let mut exports = BTreeMap::new(alloc);
    for number in numbers {
        read_exports_where(alloc, pdb, &mut exports, listed, *number)?;
    }
    Ok(exports)
}

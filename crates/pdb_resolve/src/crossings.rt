//! What leads from an id of a module to the one that the whole file knows.

ghost use Rattle.std.specs.Prelude.{◌≡◌, ◌==◌, ℕ, List, Some, IsSome, if◌then◌else◌, option_copied, IfOk, IfErr, OnOk, OnErr, true};
ghost use Rattle.std.specs.BTreeMap.{get};
ghost use Rattle.std.specs.Ordering.{nat_cmp};
ghost use Rattle.std.specs.Option.{option_map};
ghost use Rattle.pdb.specs.Answers.{string_table_in};
ghost use Rattle.pdb.specs.CrossModule.{global_of, reference_of};
ghost use Rattle.pdb.specs.ModuleStream.{ModuleBytes};
ghost use Rattle.pdb.specs.Source.{Continues, MayFail, State};
ghost use Rattle.pdb.specs.Text.{name_bytes};
ghost use Rattle.pdb_places.specs.AsIfEmpty.{if_read, OnlyFails};
ghost use Rattle.pdb_resolve.specs.AcrossModules.{exported_id, exports_named, exports_where, reference_in};
ghost use Rattle.pdb_resolve.specs.FileParts.{module_numbered, modules_listed};
ghost use Rattle.pdb_resolve.specs.KeptCrossings.{AreCrossingsOf, IsListedCode, IsListOf, exports_kept, imports_kept};
ghost use Rattle.pdb_resolve.specs.ModuleNumbers.{number_named};

use crate::across_modules::name_of;
use crate::exported_ids::ExportedIds;
use crate::exporters::read_exports;
use crate::module_code::ModuleCode;
use crate::module_numbers::ModuleNumbers;
use pdb::{
    CrossModuleImports, CrossModuleRef, Error, IdIndex, Local, Module, PDB, RawString, Result,
    Source, StringTable,
};
use pdb_places::as_if_empty::read_or;
use std::alloc::Global;
use std::collections::BTreeMap;

/// The code of a module, by the module's number in the list of modules.
#[derive(Clone, Copy)]
pub(crate) struct ListedCode<'x, 'a> {
    pub(crate) listed: &'x [Module<'a>],
    pub(crate) number: usize,
    pub(crate) code: &'x ModuleCode<'a>,
}

/// What leads from an id of a module to the one that the whole file knows. Each list is read where it is first needed,
/// and kept.
#[derive(Drop)]
pub(crate) struct Crossings<'a> {
    // What modules import and export, by their numbers.
    pub(crate) imports: BTreeMap<usize, CrossModuleImports<'a>>,
    pub(crate) exports: BTreeMap<usize, ExportedIds>,
    pub(crate) numbers: Option<ModuleNumbers<'a>>,
}

/// What imports say of an id; none where they don't have it.
fn reference_to(imports: &CrossModuleImports<'_>, id: IdIndex) -> Option<CrossModuleRef<IdIndex>>
    ensures { option_map (λ x. record { name = x.0.0.0; local = x.1.0.0 }) result ≡ if_read (reference_of id.0 imports.now) }
{
    imports.resolve_import(id).ok()
}

/// What was read of the module of a number is kept.
pub(crate) fn keep<T: Drop>(lists: &mut BTreeMap<usize, T>, number: usize, list: T) -> Result<()>
    ensures kept { OnOk result ((k : ℕ) → get nat_cmp lists.new k ≡ (if number == k then Some list else get nat_cmp lists.old k)) }
    ensures unchanged { OnErr result ((k : ℕ) → get nat_cmp lists.new k ≡ get nat_cmp lists.old k) }
    ensures refused { IfErr result (λ e. e ≡ Error.OutOfMemory) }
{
    lists.insert(number, list)?;
    Ok(())
}

impl<'a> Crossings<'a> {
    /// None was read. It takes no memory.
    pub(crate) fn new(alloc: Global) -> Self
        ensures { (s : State) → AreCrossingsOf s result }
    {
        Crossings {
            imports: BTreeMap::new(alloc),
            exports: BTreeMap::new(alloc),
            numbers: None,
        }
    }

    /// Reads the imports of a module, unless they were read. A part that has an error is as if it were empty.
    fn read_imports(&mut self, alloc: Global, code: &ListedCode<'_, 'a>) -> Result<()>
        ensures kept { (s : State) → AreCrossingsOf s self.old → IsListedCode s code.now → AreCrossingsOf s self.new }
        ensures read { IfOk result (λ _. IsSome (imports_kept self.new code.now.number)) }
        ensures refused { IfErr result (λ e. e ≡ Error.OutOfMemory) }
    {
        if self.imports.contains_key(&code.number) {
            return Ok(());
        }
        let imports = code.code.info().imports(alloc);
        let imports = read_or(imports, CrossModuleImports::empty(alloc))?;
        keep(&mut self.imports, code.number, imports)
    }

    /// What the imports of the module of a number, which were read, say of an id.
    fn reference(&self, number: usize, id: IdIndex) -> Option<CrossModuleRef<IdIndex>>
        ensures { (s : State) (m : ModuleBytes) → AreCrossingsOf s self.now → s.told ≡ true → module_numbered s.file number ≡ Some m → IsSome (imports_kept self.now number)
            → option_map (λ x. record { name = x.0.0.0; local = x.1.0.0 }) result ≡ reference_in m id.0 }
    {
        reference_to(self.imports.get(&number)?, id)
    }

    /// Makes the numbers of these modules, unless they are made.
    fn make_numbers(&mut self, alloc: Global, listed: &[Module<'a>]) -> Result<()>
        ensures kept { (s : State) → AreCrossingsOf s self.old → IsListOf s listed.now → AreCrossingsOf s self.new }
        ensures made { IfOk result (λ _. IsSome self.new.numbers) }
        ensures refused { IfErr result (λ e. e ≡ Error.OutOfMemory) }
    {
        if self.numbers.is_some() {
            return Ok(());
        }
        self.numbers = Some(ModuleNumbers::new(alloc, listed)?);
        Ok(())
    }

    /// The number of the first module of a name, where the numbers are made.
    fn number(&self, name: RawString<'_>) -> Option<usize>
        ensures { (s : State) → AreCrossingsOf s self.now → s.told ≡ true → IsSome self.now.numbers → result ≡ number_named (modules_listed s.file) (name_bytes name.entry) }
    {
        match &self.numbers {
            Some(numbers) => numbers.find(name),
            None => None,
        }
    }

    /// Reads the exports of the module of a number, unless they were read.
    fn read_exports<'s, S: Source<'s>>(
        &mut self,
        alloc: Global,
        pdb: &mut PDB<'s, S>,
        listed: &[Module<'a>],
        number: usize,
    ) -> Result<()>
        requires kept { AreCrossingsOf pdb.old self.old }
        requires listed { IsListOf pdb.old listed.now }
        ensures continues { Continues pdb.old pdb.new }
        ensures kept { AreCrossingsOf pdb.new self.new }
        ensures read { IfOk result (λ _. IsSome (exports_kept self.new number)) }
        ensures refused { IfErr result (λ e. OnlyFails (MayFail pdb.old pdb.new) e) }
    {
        read_exports(alloc, pdb, &mut self.exports, listed, number)
    }

    /// The id that the module of a number, whose exports were read, exports by a local one.
    fn exported(&self, number: usize, local: Local<IdIndex>) -> Option<IdIndex>
        ensures { (s : State) → AreCrossingsOf s self.now → s.told ≡ true → IsSome (exports_kept self.now number)
            → option_map (λ i. i.0) result ≡ global_of local.0.0 (exports_where (module_numbered s.file number)) }
    {
        self.exports.get(&number)?.find(local)
    }

    /// The id that the first module of a name exports by a local one.
    fn exported_by<'s, S: Source<'s>>(
        &mut self,
        alloc: Global,
        pdb: &mut PDB<'s, S>,
        listed: &[Module<'a>],
        name: RawString<'_>,
        local: Local<IdIndex>,
    ) -> Result<Option<IdIndex>>
        requires kept { AreCrossingsOf pdb.old self.old }
        requires listed { IsListOf pdb.old listed.now }
        ensures continues { Continues pdb.old pdb.new }
        ensures kept { AreCrossingsOf pdb.new self.new }
        ensures id { pdb.new.told ≡ true → IfOk result (λ i. option_map (λ i. i.0) i ≡ global_of local.0.0 (exports_named pdb.old.file (modules_listed pdb.old.file) (Some (name_bytes name.entry)))) }
        ensures refused { IfErr result (λ e. OnlyFails (MayFail pdb.old pdb.new) e) }
    {
        self.make_numbers(alloc, listed)?;
        let Some(number) = self.number(name) else {
            return Ok(None);
        };
        self.read_exports(alloc, pdb, listed, number)?;
        Ok(self.exported(number, local))
    }

    /// The id of another module that is meant by an id of a module whose top bit is set. None where the module of the id
    /// doesn't import it, the other module isn't listed, or doesn't export it. `OutOfMemory`, and `IoError` where the
    /// source failed, are passed on.
    pub(crate) fn imported_id<'s, S: Source<'s>>(
        &mut self,
        alloc: Global,
        pdb: &mut PDB<'s, S>,
        strings: Option<&StringTable<'_>>,
        code: &ListedCode<'_, 'a>,
        id: IdIndex,
    ) -> Result<Option<IdIndex>>
        requires kept { AreCrossingsOf pdb.old self.old }
        requires code { IsListedCode pdb.old code.now }
        requires strings { pdb.old.told ≡ true → option_copied strings ≡ if_read (string_table_in pdb.old.file) }
        ensures continues { Continues pdb.old pdb.new }
        ensures kept { AreCrossingsOf pdb.new self.new }
        ensures id { pdb.new.told ≡ true → IfOk result (λ i. option_map (λ i. i.0) i ≡ exported_id pdb.old.file (if_read (string_table_in pdb.old.file)) (modules_listed pdb.old.file) (reference_in code.now.code.now id.0)) }
        ensures refused { IfErr result (λ e. OnlyFails (MayFail pdb.old pdb.new) e) }
    {
        self.read_imports(alloc, code)?;
        let Some(reference) = self.reference(code.number, id) else {
            return Ok(None);
        };
        match name_of(strings, reference.0) {
            Some(name) => self.exported_by(alloc, pdb, code.listed, name, reference.1),
            None => Ok(None),
        }
    }
}

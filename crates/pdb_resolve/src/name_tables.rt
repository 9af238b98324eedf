//! The tables from which inlined functions have their names.

ghost use Rattle.std.specs.Prelude.{◌≡◌, List, Result, option_copied, IfOk, IfErr, IsSome, None, true};
ghost use Rattle.pdb.specs.Error.{Error};
ghost use Rattle.pdb.specs.Items.{ItemEntry};
ghost use Rattle.pdb.specs.Refusal.{Gives};
ghost use Rattle.pdb.specs.Source.{Continues, MayFail};
ghost use Rattle.pdb.specs.Container.{stream_of};
ghost use Rattle.pdb_places.specs.AsIfEmpty.{if_read, OnlyFails};
ghost use Rattle.pdb_resolve.specs.FileParts.{items_or_none, items_where};
ghost use Rattle.pdb_resolve.specs.KeptParts.{IsAskedOf, AreTablesOf};

use crate::frames::FunctionNames;
use crate::part::Part;
use pdb::{
    DebugInformation, Error, IdInformation, ItemFinder, PDB, Result, Source, TypeInformation,
};
use pdb_places::as_if_empty::read_or;
use std::alloc::Global;

/// The streams of ids and of types, and the tables of both, each made where the first inlined function is met.
#[derive(Drop)]
pub(crate) struct NameTables<'a, 's> {
    pub(crate) ids: Part<'a, IdInformation<'s>>,
    pub(crate) types: Part<'a, TypeInformation<'s>>,
    pub(crate) made: Option<FunctionNames<'a>>,
    pub(crate) information: Option<&'a DebugInformation<'a>>,
}

/// The ids of a stream, by their indices: those before a fault, none where the stream isn't there or has an error. Out
/// of memory is its only error.
#[tactic(auto, using(crate::proofs::Asking::passed, crate::proofs::Asking::told))]
pub fn ids_of<'a>(alloc: Global, ids: Option<&'a IdInformation<'a>>) -> Result<ItemFinder<'a>>
    ensures made { IfOk result (λ f. f ≡ items_where (option_copied ids.entry)) }
    ensures refused { IfErr result (λ e. e ≡ Error.OutOfMemory) }
{
    match ids {
        Some(ids) => read_or(ids.finder(alloc), ItemFinder::empty(alloc)),
        None => Ok(ItemFinder::empty(alloc)),
    }
}

/// The types of a stream, by their indices, in the same way.
#[tactic(auto, using(crate::proofs::Asking::passed, crate::proofs::Asking::told))]
pub fn types_of<'a>(alloc: Global, types: Option<&'a TypeInformation<'a>>) -> Result<ItemFinder<'a>>
    ensures made { IfOk result (λ f. f ≡ items_where (option_copied types.entry)) }
    ensures refused { IfErr result (λ e. e ≡ Error.OutOfMemory) }
{
    match types {
        Some(types) => read_or(types.finder(alloc), ItemFinder::empty(alloc)),
        None => Ok(ItemFinder::empty(alloc)),
    }
}

/// The stream of ids.
fn ids_asked<'a, 's, S: Source<'s>>(
    pdb: &mut PDB<'s, S>,
    part: &mut Part<'a, IdInformation<'s>>,
) -> Result<Option<&'a IdInformation<'s>>>
    requires { IsAskedOf pdb.old.told (if_read (stream_of pdb.old.file 4 None)) part.old }
    ensures continues { Continues pdb.old pdb.new }
    ensures asked { IsAskedOf pdb.new.told (if_read (stream_of pdb.new.file 4 None)) part.new }
    ensures is { pdb.new.told ≡ true → IfOk result (λ o. option_copied o ≡ if_read (stream_of pdb.old.file 4 None)) }
    ensures refused { IfErr result (λ e. OnlyFails (MayFail pdb.old pdb.new) e) }
{
    if part.asked {
        return Ok(part.there);
    }
    part.keep(pdb.id_information())
}

/// The stream of types.
fn types_asked<'a, 's, S: Source<'s>>(
    pdb: &mut PDB<'s, S>,
    part: &mut Part<'a, TypeInformation<'s>>,
) -> Result<Option<&'a TypeInformation<'s>>>
    requires { IsAskedOf pdb.old.told (if_read (stream_of pdb.old.file 2 None)) part.old }
    ensures continues { Continues pdb.old pdb.new }
    ensures asked { IsAskedOf pdb.new.told (if_read (stream_of pdb.new.file 2 None)) part.new }
    ensures is { pdb.new.told ≡ true → IfOk result (λ o. option_copied o ≡ if_read (stream_of pdb.old.file 2 None)) }
    ensures refused { IfErr result (λ e. OnlyFails (MayFail pdb.old pdb.new) e) }
{
    if part.asked {
        return Ok(part.there);
    }
    part.keep(pdb.type_information())
}

impl<'a, 's> NameTables<'a, 's> {
    /// Makes the tables, unless they are made.
    pub(crate) fn make<S: Source<'s>>(&mut self, alloc: Global, pdb: &mut PDB<'s, S>) -> Result<()>
        requires { AreTablesOf pdb.old self.old }
        ensures continues { Continues pdb.old pdb.new }
        ensures kept { AreTablesOf pdb.new self.new }
        ensures made { IfOk result (λ _. IsSome self.new.made) }
        ensures refused { IfErr result (λ e. OnlyFails (MayFail pdb.old pdb.new) e) }
    {
        if self.made.is_some() {
            return Ok(());
        }
        let ids = ids_of(alloc, ids_asked(pdb, &mut self.ids)?)?;
        let types = types_of(alloc, types_asked(pdb, &mut self.types)?)?;
        self.made = Some(FunctionNames { ids, types });
        Ok(())
    }
}

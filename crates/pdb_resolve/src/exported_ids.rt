//! What a module exports, in which an id is found by halving.

ghost use Rattle.std.specs.Prelude.{◌≡◌, ◌==◌, ℕ, List, Some, if◌then◌else◌, IfOk, IfErr, OnOk};
ghost use Rattle.std.specs.Option.{option_map};
ghost use Rattle.std.specs.BTreeMap.{get};
ghost use Rattle.std.specs.Ordering.{nat_cmp};
ghost use Rattle.pdb.specs.CrossModule.{global_of};
ghost use Rattle.pdb_resolve.specs.Exported.{AreFirstOf, AreHalved};

use pdb::{CrossModuleExports, Error, IdIndex, Local, Result};
use std::alloc::Global;
use std::collections::BTreeMap;
use std::marker::Model;

/// The exports of a module. A contract sees them as the list of the pairs.
#[derive(Drop)]
pub(crate) struct ExportedIds {
    exports: CrossModuleExports,
    // The first of each local number, where the local numbers don't increase.
    first: Option<BTreeMap<u32, u32>>,
}

impl Model for ExportedIds {
    ghost use Rattle.std.specs.Prelude.{ℕ, List};
    ghost use Rattle.pdb_resolve.specs.Exported.{AreHalved};

    ghost Value = { List (ℕ × ℕ) };

    ghost view = { λ x. x.exports };

    ghost invariant = { λ x. AreHalved x.exports x.first };
}

/// A local number is that of a global one from now on.
fn put_first(first: &mut BTreeMap<u32, u32>, local: u32, global: u32) -> Result<()>
    ensures put { OnOk result ((n : ℕ) → get nat_cmp first.new n ≡ (if local == n then Some global else get nat_cmp first.old n)) }
    ensures refused { IfErr result (λ e. e ≡ Error.OutOfMemory) }
{
    first.insert(local, global)?;
    Ok(())
}

/// The first pair of each local number.
fn first_of(alloc: Global, pairs: &[(u32, u32)]) -> Result<BTreeMap<u32, u32>>
    ensures first { IfOk result (λ first. AreFirstOf pairs.now first) }
    ensures refused { IfErr result (λ e. e ≡ Error.OutOfMemory) }
{
    let mut first = BTreeMap::new(alloc);
    let mut left = pairs.len();
    // The last one first, so that the first of a number stays.
    while left > 0 {
        left -= 1;
        let (local, global) = pairs[left];
        put_first(&mut first, local, global)?;
    }
    Ok(first)
}

/// The first pair of each local number, where the local numbers don't increase.
fn first_unless_rising(
    alloc: Global,
    exports: &CrossModuleExports,
) -> Result<Option<BTreeMap<u32, u32>>>
    ensures halved { IfOk result (λ first. AreHalved exports.now first) }
    ensures refused { IfErr result (λ e. e ≡ Error.OutOfMemory) }
{
    if exports.increases() {
        return Ok(None);
    }
    Ok(Some(first_of(alloc, exports.pairs())?))
}

impl ExportedIds {
    /// These exports.
    pub(crate) fn new(alloc: Global, exports: CrossModuleExports) -> Result<Self>
        ensures same { IfOk result (λ x. x ≡ exports) }
        ensures refused { IfErr result (λ e. e ≡ Error.OutOfMemory) }
    {
        let first = first_unless_rising(alloc, &exports)?;
        Ok(ExportedIds { exports, first })
    }

    /// The id that the whole file knows, of the first export of a local one.
    pub(crate) fn find(&self, local: Local<IdIndex>) -> Option<IdIndex>
        ensures { option_map (λ id. id.0) result ≡ global_of local.0.0 self.now }
    {
        match &self.first {
            Some(first) => Some(IdIndex(*first.get(&local.0.0)?)),
            None => self.exports.resolve_import(local).unwrap_or(None),
        }
    }
}

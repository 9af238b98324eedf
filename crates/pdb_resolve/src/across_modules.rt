//! What modules export to one another, by their names.

ghost use Rattle.std.specs.Prelude.{◌≡◌, ℕ, List, Result, IfOk, IfErr, option_copied, true};
ghost use Rattle.std.specs.Option.{option_map};
ghost use Rattle.pdb.specs.Error.{Error};
ghost use Rattle.pdb.specs.DbiViews.{modules_left};
ghost use Rattle.pdb.specs.Refusal.{Gives};
ghost use Rattle.pdb.specs.Source.{Continues, MayFail};
ghost use Rattle.pdb.specs.Text.{name_bytes};
ghost use Rattle.pdb_places.specs.AsIfEmpty.{OnlyFails};
ghost use Rattle.pdb_resolve.specs.Frames.{string_in};
ghost use Rattle.pdb_resolve.specs.FileParts.{module_read, modules_where};
ghost use Rattle.pdb_resolve.specs.AcrossModules.{exports_named, exports_where, module_named, pairs_or_none};

use crate::modules::module_info;
use pdb::{CrossModuleExports, Module, ModuleRef, PDB, RawString, Result, Source, StringTable};
use pdb_places::as_if_empty::read_or;
use std::alloc::Global;

/// The name to which a reference refers; none where the string table doesn't have it.
pub(crate) fn name_of<'a>(
    strings: Option<&'a StringTable<'a>>,
    reference: ModuleRef,
) -> Option<RawString<'a>>
    ensures { option_map name_bytes result ≡ string_in (option_copied strings.entry) reference.0.0 }
{
    strings?.get(reference.0).ok()
}

/// The exports of a listed module; none where its stream isn't there.
#[tactic(auto, using(crate::proofs::Asking::passed, crate::proofs::Asking::failed_on, crate::proofs::Asking::told))]
pub(crate) fn exports_of<'s, S: Source<'s>>(
    alloc: Global,
    pdb: &mut PDB<'s, S>,
    module: Option<&Module<'_>>,
) -> Result<CrossModuleExports>
    ensures continues { Continues pdb.old pdb.new }
    ensures exports { pdb.new.told ≡ true → IfOk result (λ x. x ≡ exports_where (module_read pdb.old.file (option_copied «module».entry))) }
    ensures refused { IfErr result (λ e. OnlyFails (MayFail pdb.old pdb.new) e) }
{
    let Some(module) = module else {
        return Ok(CrossModuleExports::empty(alloc));
    };
    match module_info(pdb, module)? {
        Some(info) => read_or(info.exports(alloc), CrossModuleExports::empty(alloc)),
        None => Ok(CrossModuleExports::empty(alloc)),
    }
}

//! The modules that commands name by their indices in the list of modules.

ghost use Rattle.std.specs.Prelude.{◌≡◌, ◌≢◌, true, IfOk, IfErr};
ghost use Rattle.pdb.specs.Error.TheVariants.{OutOfMemory};
ghost use Rattle.pdb.specs.Refusal.{Gives};
ghost use Rattle.pdb.specs.Source.{Continues, MayFail};
ghost use Rattle.pdb.specs.Listed.{listed};
ghost use Rattle.pdb_list.specs.Chosen.{info_at};

use pdb::{ModuleInfo, ModuleList, PDB, Result, Source};

/// The stream of the module with this index in a list; none where there is no such module, or it has no stream.
#[tactic(auto, unfolding(crate::specs::Chosen::info_at))]
pub fn module_info_in<'s, S: Source<'s>>(
    modules: &mut ModuleList<'_>,
    pdb: &mut PDB<'s, S>,
    k: u32,
) -> Result<Option<ModuleInfo<'s>>>
    ensures continues { Continues pdb.old pdb.new }
    ensures kept { IfOk result (λ _. listed modules.new ≡ listed modules.old) }
    ensures kept_refused { IfErr result (λ e. e ≢ OutOfMemory → listed modules.new ≡ listed modules.old) }
    ensures answer { pdb.new.told ≡ true → Gives (λ m. m) (MayFail pdb.old pdb.new) result (info_at pdb.old.file k (listed modules.old)) }
{
    modules.read_to(k)?;
    match modules.get(k)? {
        Some(module) => pdb.module_info(module),
        None => Ok(None),
    }
}

//! The list of modules over bytes that the caller keeps.

ghost use Rattle.std.specs.Prelude.{◌≡◌, ◌<◌, length, Ok, IfOk};
ghost use Rattle.pdb_base.specs.Refusal.{Answers};
ghost use Rattle.pdb_dbi.specs.DbiViews.{modules_left, modules_bytes, modules_steps};
ghost use Rattle.pdb_dbi.specs.Modules.{module_list_of, modules_in};

use crate::header::parse_header;
use crate::modules::ModuleIter;
use pdb_base::Result;
use pdb_base::part::part_of;

/// The modules of a DBI stream of these bytes, which the modules' names borrow. It fails as
/// `DebugInformation::parse` and then `DebugInformation::modules`. No stream has 4294967295 bytes or more.
#[tactic(auto, unfolding(crate::specs::Modules::modules_in, crate::specs::Modules::module_list_of))]
pub fn modules_of_bytes(bytes: &[u8]) -> Result<ModuleIter<'_>>
    requires { length bytes.now < 4294967295 }
    ensures left { Answers modules_left result (modules_in bytes.entry.now) }
    ensures bytes { IfOk result (λ it. module_list_of bytes.entry.now ≡ Ok (modules_bytes it)) }
    ensures steps { IfOk result (λ it. modules_steps it ≡ 0) }
{
    let header = parse_header(bytes)?;
    let size = header.module_list_size as usize;
    let list = part_of(bytes, 64, size)?;
    Ok(ModuleIter::new(list))
}

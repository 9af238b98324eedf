//! The module at an index of the list of modules.

ghost use Rattle.std.specs.Prelude.{◌≡◌};
ghost use Rattle.pdb_base.specs.Refusal.{Answers};
ghost use Rattle.pdb_dbi.specs.DbiViews.{modules_left};
ghost use Rattle.pdb.specs.Answers.{item_at};

use pdb_base::{FallibleIterator, Result};
use pdb_dbi::{Module, ModuleIter};

/// The module of this index in a list, counted from 0; none where the whole list has no such module. What stands behind
/// the module isn't read. It fails as `ModuleIter::next` does, with `UnexpectedEof` where a module up to it isn't all
/// there.
pub fn item_at<'m>(mut modules: ModuleIter<'m>, place: usize) -> Result<Option<Module<'m>>>
    ensures { Answers (λ m. m) result (item_at place (modules_left modules.entry)) }
{
    for _ in 0..place {
        if modules.next()?.is_none() {
            return Ok(None);
        }
    }
    modules.next()
}

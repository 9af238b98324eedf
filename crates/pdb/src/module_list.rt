//! The list of modules, of which each is read once.

ghost use Rattle.std.specs.Prelude.{◌≡◌, ◌≢◌, IfOk, IfErr};
ghost use Rattle.std.specs.Option.{ForSome, option_map};
ghost use Rattle.pdb_base.specs.declared.error.Error.TheVariants.{IoError, OutOfMemory};
ghost use Rattle.pdb_base.specs.Refusal.{Gives};
ghost use Rattle.pdb_base.specs.Left.{ended};
ghost use Rattle.pdb_dbi.specs.DbiViews.{modules_left};
ghost use Rattle.pdb.specs.Answers.{item_at};

use pdb_base::{Error, FallibleIterator, Result};
use pdb_dbi::{Module, ModuleIter};
use std::alloc::{AllocError, Global};
use std::marker::Model;

/// The list of modules. Each is read once, when it is first needed, so many of them are found in one pass. A contract
/// sees it as the modules that were read, the error behind them, and those that are left.
#[derive(Drop)]
pub struct ModuleList<'m> {
    read: Vec<Module<'m>>,
    left: ModuleIter<'m>,
    fault: Option<Error>,
    ghost of_bytes: { ForSome fault (λ e. (e ≢ OutOfMemory) × (e ≢ IoError) × (modules_left left ≡ ended)) },
}

impl<'m> Model for ModuleList<'m> {
    ghost use Rattle.pdb.specs.Listed.{Listed};
    ghost use Rattle.pdb_dbi.specs.DbiViews.{modules_left};

    ghost Value = { Listed };

    ghost view = { λ l. record { read = l.read.items; fault = l.fault; left = modules_left l.left } };
}

impl<'m> ModuleList<'m> {
    ghost use Rattle.pdb.specs.Listed.{HasRead, listed};

    /// The modules that an iterator has left.
    pub fn new(alloc: Global, left: ModuleIter<'m>) -> Self
        ensures { listed result ≡ modules_left left.entry }
    {
        ModuleList {
            read: Vec::new(alloc),
            left,
            fault: None,
        }
    }

    /// Reads on up to the module with this index, counted from 0, or to the end of the list.
    pub fn read_to(&mut self, k: u32) -> std::result::Result<(), AllocError>
        ensures kept { IfOk result (λ _. listed self.new ≡ listed self.old) }
        ensures there { IfOk result (λ _. HasRead k self.new) }
    {
        while self.read.len() <= k as usize {
            match self.left.next() {
                Ok(Some(module)) => self.read.push(module)?,
                Ok(None) => return Ok(()),
                Err(e) => {
                    self.fault = Some(e);
                    return Ok(());
                }
            }
        }
        Ok(())
    }

    /// The module with this index, up to which was read; none behind the end of the list. Where the list has an error
    /// before that module, it fails with that error.
    #[tactic(auto, using(crate::proofs::Listed::lookup_read, crate::proofs::Listed::lookup_past))]
    pub fn get(&self, k: u32) -> Result<Option<&Module<'m>>>
        ensures answer { HasRead k self.now → Gives (option_map (λ m. m.now)) ⊥ result (item_at k (listed self.now)) }
        ensures given { IfErr result (λ e. (e ≢ OutOfMemory) × (e ≢ IoError)) }
    {
        match self.read.get(k as usize) {
            Some(module) => Ok(Some(module)),
            None => match self.fault {
                Some(e) => Err(e),
                None => Ok(None),
            },
        }
    }
}

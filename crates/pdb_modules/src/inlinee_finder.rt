//! The inlined functions of a module, found by their ids.

use crate::inlinees::Inlinee;
use pdb_base::IdIndex;
use std::alloc::AllocError;
use std::marker::Model;

/// The inlined functions of a module, found by the indices of their ids. A contract sees it as a list of the functions.
#[derive(Drop)]
pub struct InlineeFinder<'a> {
    // In the order of their ids; of those with one id the first listed stands first.
    sorted: Vec<Inlinee<'a>>,
}

impl<'a> Model for InlineeFinder<'a> {
    ghost use Rattle.std.specs.Prelude.{List};
    ghost use Rattle.std.specs.List.Sorted.{IsNonDecreasingBy};
    ghost use Rattle.pdb_modules.specs.Inlinees.{InlineeEntry};

    ghost Value = { List InlineeEntry };

    ghost view = { λ finder. finder.sorted.items };

    ghost invariant = { λ finder. IsNonDecreasingBy (λ (x : InlineeEntry). x.index) finder.sorted.items };
}

impl<'a> InlineeFinder<'a> {
    ghost use Rattle.std.specs.Prelude.{◌≡◌, IfOk, option_copied};
    ghost use Rattle.pdb_modules.specs.Inlinees.{inlinee_with};

    /// The functions of a list, such as `ModuleInfo::inlinees` gives. They are sorted once, for which memory may run
    /// out.
    pub fn new(mut inlinees: Vec<Inlinee<'a>>) -> Result<Self, AllocError>
        ensures { IfOk result (λ finder. inlinee_with finder ≡ inlinee_with inlinees.entry.items) }
    {
        inlinees.sort_by_key(|inlinee| inlinee.index().0)?;
        Ok(InlineeFinder { sorted: inlinees })
    }

    /// The first listed function of an id; none where no function has it.
    pub fn find(&self, id: IdIndex) -> Option<&Inlinee<'a>>
        ensures { option_copied result ≡ inlinee_with self.now id.0 }
    {
        let id = id.0;
        let sorted = self.sorted.as_slice();
        let at = sorted.partition_point(|inlinee| inlinee.index().0 < id);
        match sorted.get(at) {
            Some(inlinee) if inlinee.index().0 == id => Some(inlinee),
            _ => None,
        }
    }
}

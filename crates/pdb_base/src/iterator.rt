//! Iterators whose `next` may fail.

ghost use Rattle.std.specs.Prelude.{◌≡◌, ◌≢◌, ◌^◌, ◌<◌, map, length, Ok, IfOk, IfErr};
ghost use Rattle.std.specs.Result.{result_map_both};
ghost use Rattle.pdb_base.specs.Left.{Left, whole, Yields, Counts, Collects, Finds};
ghost use Rattle.pdb_base.specs.declared.error.Error.TheVariants.{IoError, OutOfMemory};

use crate::error::{Error, Result};
use std::alloc::Global;

/// An iterator whose `next` may fail. Its meaning is the items that are left, at most `usize::MAX`, and
/// perhaps a fault after them: `next` gives the first item, then the fault once, then nothing.
pub trait FallibleIterator: Drop {
    /// What the iterator gives.
    type Item: Drop;

    // What a contract sees of an item.
    ghost Shown: { Type 0 };

    // What an item shows.
    ghost shown: { Self.Item → Shown };

    // What is left.
    ghost left: { Self → Left Shown };

    /// The first item that is left, then the fault once, then nothing.
    fn next(&mut self) -> Result<Option<Self::Item>>
        ensures yields { Yields shown (left self.old) result (left self.new) }
        ensures few { length (left self.old).items < 2 ^ 64 }
        // A fault is the bytes' own, so that a caller may pass it on.
        ensures refused { IfErr result (λ e. (e ≢ OutOfMemory) × (e ≢ IoError)) };

    /// How many items are left, or the fault after them.
    final fn count(mut self) -> Result<usize>
    where
        Self: Sized,
        ensures counts { Counts (left self) result }
        ensures refused { IfErr result (λ e. (e ≢ OutOfMemory) × (e ≢ IoError)) }
    {
        let mut n = 0usize;
        while let Some(_x) = self.next()? {
            n += 1;
        }
        Ok(n)
    }

    /// The items that are left, or the fault after them. It takes memory for the list.
    #[tactic(auto, using(crate::proofs::Collecting::collected_whole))]
    final fn collect(mut self, alloc: Global) -> Result<Vec<Self::Item>>
    where
        Self: Sized,
        ensures collects { Collects shown (left self) (result_map_both (λ v. v.items) (λ e. e) result) }
        ensures all { IfOk result (λ v. whole (left self) ≡ Ok (map shown v.items)) }
        ensures refused { IfErr result (λ e. e ≢ IoError) }
    {
        let mut items = Vec::new(alloc);
        while let Some(x) = self.next()? {
            items.push(x)?;
        }
        Ok(items)
    }

    /// The first item at which `p` returns `true`. It consumes the items up to this one. An error of `p` is given
    /// as it is, and isn't the iterator's: iteration goes on behind the item that `p` was shown.
    final fn find<P: FnMut(&Self::Item) -> Result<bool>>(
        &mut self,
        mut p: P,
    ) -> Result<Option<Self::Item>>
    where
        Self: Sized,
        requires { P.IsAlwaysCallable p }
        ensures { Finds shown P.FnMut (left self.old) p result (left self.new) }
    {
        while let Some(x) = self.next()? {
            match p(&x) {
                Ok(true) => return Ok(Some(x)),
                Ok(false) => {}
                Err(e) => return Err(e),
            }
        }
        Ok(None)
    }
}

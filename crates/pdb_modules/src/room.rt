//! Capacity for what is read.

ghost use Rattle.std.specs.Prelude.{◌≡◌, ◌≤◌, [], length, IfOk, IfErr, IsOk};

use pdb_base::{Error, Result};
use std::alloc::Global;

/// Capacity for so many items, each of which has a byte of its own among those that were seen: no number that a file
/// says is capacity by itself.
pub(crate) fn room<T: Drop>(alloc: Global, count: usize, seen: &[u8]) -> Result<Vec<T>>
    requires { count ≤ length seen.now }
    ensures empty { IfOk result (λ items. items.items ≡ []) }
    ensures lean { count ≡ 0 → IsOk result }
    ensures refused { IfErr result (λ e. e ≡ Error.OutOfMemory) }
{
    let _seen = seen;
    Ok(Vec::with_capacity(alloc, count)?)
}

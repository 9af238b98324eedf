//! How many bytes of the image came from each module.

ghost use Rattle.std.specs.Prelude.{◌≡◌, ℕ, ◌+◌, ◌<◌, ◌^◌, ◌==◌, if◌then◌else◌, IfOk, OnOk, length};
ghost use Rattle.pdb.specs.DbiViews.{contributions_left, contributions_steps};
ghost use Rattle.tool_lists.specs.ModuleSizes.{bytes_of_module, size_in};

use pdb::{DBISectionContributionIter, FallibleIterator};
use std::alloc::{AllocError, Global};

/// Makes space for the size of a module.
fn reach(sizes: &mut Vec<u64>, module: usize) -> Result<(), AllocError>
    ensures long { OnOk result («module» < length sizes.new.items) }
    ensures same { OnOk result ((k : ℕ) → size_in sizes.new.items k ≡ size_in sizes.old.items k) }
{
    if sizes.len() <= module {
        let behind = module.checked_add(1).ok_or(AllocError)?;
        sizes.resize(behind, 0)?;
    }
    Ok(())
}

/// Adds to the size of a module.
fn add(sizes: &mut Vec<u64>, module: usize, size: u32) -> Result<(), AllocError>
    requires { size_in sizes.now.items «module» + size < 2 ^ 64 }
    ensures { OnOk result ((k : ℕ) → size_in sizes.new.items k ≡ (if «module» == k then size else 0) + size_in sizes.old.items k) }
{
    reach(sizes, module)?;
    sizes[module] += u64::from(size);
    Ok(())
}

/// How many bytes each module has of the contributions that an iterator lists, up to its fault.
pub fn sizes_of(
    alloc: Global,
    mut contributions: DBISectionContributionIter<'_>,
) -> Result<Vec<u64>, AllocError>
    requires { contributions_steps contributions ≡ 0 }
    ensures { IfOk result (λ v. (k : ℕ) → size_in v.items k ≡ bytes_of_module (contributions_left contributions.entry).items k) }
{
    let mut sizes = Vec::new(alloc);
    loop {
        match contributions.next() {
            Ok(Some(contribution)) => add(&mut sizes, contribution.module, contribution.size)?,
            Ok(None) => return Ok(sizes),
            Err(_) => return Ok(sizes),
        }
    }
}

/// The size of module `k`.
pub fn size_of_module(sizes: &[u64], k: u64) -> u64
    ensures { result ≡ size_in sizes.now k }
{
    sizes.get(k as usize).copied().unwrap_or(0)
}

//! Errors of the lists of inlined functions.

ghost use Rattle.std.specs.Prelude.{◌≡◌, ◌++◌, OnOk};
ghost use Rattle.pdb.specs.ModuleStream.{inlinees_of};
ghost use Rattle.tool_output.specs.ErrorObjects.{fault_of, list_fault_of};

use pdb::{FallibleIterator, ModuleInfo};
use std::alloc::AllocError;
use tool_arguments::options::OutputFormat;
use tool_output::module_errors::{put_error_of, put_refusal_of};

/// The line of the error at which a list of module `k` ends, where it ends at one.
fn put_end_of<I: FallibleIterator>(
    out: &mut Vec<u8>,
    format: OutputFormat,
    k: u64,
    list: I,
) -> Result<(), AllocError>
    ensures { OnOk result (out.new.items ≡ out.old.items ++ fault_of format k (I.left list).fault) }
{
    match list.count() {
        Ok(_) => Ok(()),
        Err(e) => put_error_of(out, format, k, e),
    }
}

/// The line of the error by which the list of the inlined functions of module `k` is refused, or at which it ends.
pub fn put_inlined_error(
    out: &mut Vec<u8>,
    format: OutputFormat,
    k: u64,
    info: &ModuleInfo<'_>,
) -> Result<(), AllocError>
    ensures { OnOk result (out.new.items ≡ out.old.items ++ list_fault_of format k (inlinees_of info.now)) }
{
    match info.inlinees() {
        Ok(inlinees) => put_end_of(out, format, k, inlinees),
        Err(e) => put_refusal_of(out, format, k, e),
    }
}

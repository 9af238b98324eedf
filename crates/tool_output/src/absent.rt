//! What a file hasn't.

ghost use Rattle.std.specs.Prelude.{◌≡◌, ◌≢◌, ◌++◌, ◌⊎◌, IfErr, OnOk, true};
ghost use Rattle.pdb.specs.Error.{Error};
ghost use Rattle.tool_output.specs.Absent.{lacks, refusal_in};
ghost use Rattle.tool_output.specs.Stops.{Halts, StopsComposing};
ghost use Rattle.tool_printing.specs.Printing.{Prints, shown};

use crate::error_objects::put_refused_in;
use crate::module_printing::print_refused;
use crate::stop::Stop;
use pdb::{Error, PDB, Source};
use std::alloc::Global;
use tool_arguments::options::OutputFormat;
use tool_printing::Printer;

/// The stream of types.
pub const TYPES: u32 = 2;

/// The stream of debug information.
pub const DEBUG_INFORMATION: u32 = 3;

/// The stream of ids.
pub const IDS: u32 = 4;

/// Whether a stream of an opened file isn't there: it isn't in the directory, or has no byte.
#[tactic(auto, unfolding(crate::specs::Absent::lacks))]
pub fn lacks<'s, S: Source<'s>>(pdb: &PDB<'s, S>, number: u32) -> bool
    ensures { pdb.now.told ≡ true → result ≡ lacks pdb.now.file number }
{
    match pdb.stream_size(number) {
        Ok(size) => size == 0,
        Err(Error::StreamNotFound(_)) => true,
        Err(_) => false,
    }
}

/// The line of an error; nothing where it is the refusal of what isn't there. Out of memory, and a source that failed, are
/// passed on.
pub fn put_unless_absent(out: &mut Vec<u8>, format: OutputFormat, e: Error) -> Result<(), Stop>
    ensures text { OnOk result ((e ≢ Error.OutOfMemory) × (e ≢ Error.IoError) × (out.new.items ≡ out.old.items ++ refusal_in format e)) }
    ensures unwritten { IfErr result (StopsComposing (e ≡ Error.IoError)) }
{
    match e {
        Error::StreamNotFound(_) => Ok(()),
        Error::GlobalSymbolsNotFound => Ok(()),
        e => put_refused_in(out, format, e),
    }
}

/// Prints it.
pub fn print_unless_absent<P: Printer>(
    alloc: Global,
    format: OutputFormat,
    e: Error,
    out: &mut P,
) -> Result<(), Stop>
    ensures prints { Prints (shown (refusal_in format e)) (P.state out.old) (P.state out.new) result }
    ensures halts { Halts (e ≡ Error.IoError) (P.state out.old) (P.state out.new) result }
    ensures passed { OnOk result ((e ≢ Error.OutOfMemory) × (e ≢ Error.IoError)) }
    ensures unread { e ≡ Error.OutOfMemory ⊎ e ≡ Error.IoError → P.state out.new ≡ P.state out.old }
{
    match e {
        Error::StreamNotFound(_) => Ok(()),
        Error::GlobalSymbolsNotFound => Ok(()),
        e => print_refused(alloc, format, e, out),
    }
}

//! A source's file, opened.

ghost use Rattle.std.specs.Prelude.{◌≡◌, true, false, Ok, Err, IfOk, IfErr, IsErrOf};
ghost use Rattle.pdb.specs.Container.{opens};
ghost use Rattle.pdb.specs.Error.{Error};
ghost use Rattle.pdb.specs.Source.{Continues, IsKnown};
ghost use Rattle.tool_output.specs.Stops.{StopsOpening};
ghost use Rattle.tool_output.specs.declared.stop.Stop.{Stop};

use crate::stop::{Stop, stop_of_opening};
use pdb::{PDB, Source};
use std::alloc::Global;

/// The file of a source, opened as a container.
pub fn opened<'s, S: Source<'s>>(alloc: Global, source: S) -> Result<PDB<'s, S>, Stop>
    ensures file { IfOk result (λ p. p.file ≡ (S.state source).file) }
    ensures continues { IfOk result (λ p. Continues (S.state source) p) }
    ensures opened { IfOk result (λ p. p.told ≡ true → opens (S.state source).file ≡ Ok tt) }
    ensures refused { IsKnown (S.state source) → (e : Error) → IsErrOf result (Stop.Open e) → opens (S.state source).file ≡ Err e }
    ensures unwritten { IfErr result (StopsOpening ((S.state source).steady ≡ false)) }
{
    PDB::open(alloc, source).map_err(stop_of_opening)
}

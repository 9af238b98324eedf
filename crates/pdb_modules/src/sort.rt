//! Subsections in their order.

ghost use Rattle.std.specs.Prelude.{◌≡◌, map, sum_by, length, vec_len, OnOk, OnErr, IfErr, IsOk};
ghost use Rattle.pdb_modules.specs.KeptRows.{subsection_of};
ghost use Rattle.pdb_modules.specs.LineProgram.{part_bytes};
ghost use Rattle.pdb_modules.specs.LineOrder.{ordered};

use crate::line_subsection::LineSubsection;
use crate::search::order_of;
use pdb_base::{Error, Result};

/// Puts the subsections in their order.
pub(crate) fn sort(parts: &mut Vec<LineSubsection<'_>>) -> Result<()>
    ensures ordered { OnOk result (map subsection_of parts.new.items ≡ ordered (map subsection_of parts.old.items)) }
    ensures size { OnOk result (sum_by part_bytes parts.new.items ≡ sum_by part_bytes parts.old.items) }
    ensures len { OnOk result (vec_len parts.new ≡ vec_len parts.old) }
    ensures lean { length parts.old.items ≡ 0 → IsOk result }
    ensures refused { IfErr result (λ e. e ≡ Error.OutOfMemory) }
{
    match parts.sort_by_key(|part| order_of(part.place)) {
        Ok(()) => Ok(()),
        Err(_) => Err(Error::OutOfMemory),
    }
}

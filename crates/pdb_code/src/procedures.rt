//! The procedures of a module as they are listed.

ghost use Rattle.std.specs.Prelude.{◌≡◌, map, IfOk, IfErr};
ghost use Rattle.pdb_places.specs.Pieces.{AreRangesOf};
ghost use Rattle.pdb_code.specs.Listed.{AreNumbersRising, listed_with, shown_procedure};

use pdb::{Error, PdbInternalSectionOffset, Result};
use pdb_places::range::CodeRange;
use std::alloc::Global;

/// A procedure: where it begins, how many bytes it has, the index of its symbol and of the one that ends its scope.
#[derive(Clone, Copy)]
pub struct ListedProcedure {
    pub place: PdbInternalSectionOffset,
    pub(crate) length: u32,
    pub index: u32,
    pub end: u32,
}

/// The ranges of procedures, whose payload is the symbol's index.
pub fn ranges_of(alloc: Global, listed: &[ListedProcedure]) -> Result<Vec<CodeRange>>
    ensures ranges { IfOk result (λ rows. AreRangesOf (map shown_procedure listed.now) rows.items) }
    ensures refused { IfErr result (λ e. e ≡ Error.OutOfMemory) }
{
    let mut rows = Vec::with_capacity(alloc, listed.len())?;
    for procedure in listed {
        rows.push(CodeRange::new(procedure.place, procedure.length, procedure.index))?;
    }
    Ok(rows)
}

/// The procedure whose symbol has an index.
pub fn procedure_with(listed: &[ListedProcedure], index: u32) -> Option<ListedProcedure>
    requires { AreNumbersRising listed.now }
    ensures { result ≡ listed_with listed.now index }
{
    let at = listed.partition_point(|procedure| procedure.index < index);
    match listed.get(at) {
        Some(procedure) if procedure.index == index => Some(*procedure),
        _ => None,
    }
}

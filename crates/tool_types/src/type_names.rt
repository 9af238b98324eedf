//! The names of types on lines.

ghost use Rattle.std.specs.Prelude.{◌≡◌, ◌++◌, take, OnOk};
ghost use Rattle.pdb_text.specs.OneLine.{one_line};
ghost use Rattle.pdb_types.specs.FullTypes.{first_definition};
ghost use Rattle.pdb_types.specs.TypeTexts.{shown_name};

use pdb::{ItemFinder, TypeIndex};
use pdb_base::Steps;
use pdb_text::to_one_line;
use pdb_types::{TypeDefinitions, put_name_start};
use std::alloc::AllocError;

/// How many bytes of a name decide what a line shows of it: one more than it shows.
const MOST_READ: usize = 4097;

/// Appends the name of a type, on one line: a file may have any bytes in its names.
pub fn put_type_name(
    types: &ItemFinder<'_>,
    definitions: &TypeDefinitions<'_>,
    out: &mut Vec<u8>,
    index: TypeIndex,
) -> Result<(), AllocError>
    ensures { OnOk result (out.new.items ≡ out.old.items ++ one_line (shown_name types.now (first_definition definitions.now) index.0)) }
{
    let start = out.len();
    put_name_start(types, definitions, out, index, MOST_READ, &mut Steps::new())?;
    to_one_line(out, start)
}

//! The names of functions on lines.

ghost use Rattle.std.specs.Prelude.{◌≡◌, ◌++◌, OnOk};
ghost use Rattle.std.specs.Option.{option_map};
ghost use Rattle.pdb.specs.Qualified.{shown_qualified};
ghost use Rattle.pdb.specs.Text.{name_bytes};
ghost use Rattle.tool_types.specs.QualifiedTexts.{behind_qualified, behind_scoped};

use pdb::{QualifiedName, RawString};
use pdb_text::put_one_line;
use std::alloc::AllocError;
use tool_fields::values::put_behind_blank;

/// A name behind a blank and what stands before it.
fn put_behind_scoped(
    out: &mut Vec<u8>,
    scope: Option<RawString<'_>>,
    name: RawString<'_>,
) -> Result<(), AllocError>
    ensures { OnOk result (out.new.items ≡ out.old.items ++ behind_scoped (option_map name_bytes scope.entry) (name_bytes name.entry)) }
{
    match scope {
        Some(scope) => {
            out.push(b' ')?;
            put_one_line(out, scope.as_bytes())?;
            out.extend_from_slice(b"::")?;
            put_one_line(out, name.as_bytes())
        }
        None => put_behind_blank(out, name.as_bytes()),
    }
}

/// A function's name behind a blank, `??` where there is none, and nothing where it is empty.
pub fn put_behind_qualified(
    out: &mut Vec<u8>,
    name: Option<QualifiedName<'_>>,
) -> Result<(), AllocError>
    ensures { OnOk result (out.new.items ≡ out.old.items ++ behind_qualified (option_map shown_qualified name.entry)) }
{
    match name {
        Some(name) => put_behind_scoped(out, name.scope, name.name),
        None => out.extend_from_slice(b" ??"),
    }
}

//! How deep symbols stand in scopes.

ghost use Rattle.std.specs.Prelude.{◌≡◌, ◌++◌, ◌-◌, ◌≤◌, OnOk};
ghost use Rattle.pdb.specs.Views.{symbol_of};
ghost use Rattle.pdb.specs.Forms.{kind_at};
ghost use Rattle.tool_symbols.specs.Depth.{blanks, depth_at};

use pdb::Symbol;
use std::alloc::AllocError;

/// Two blanks for each depth, and no more than 64: a file may nest as deep as it is long.
fn put_many_blanks(out: &mut Vec<u8>, depth: usize) -> Result<(), AllocError>
    ensures { OnOk result (out.new.items ≡ out.old.items ++ blanks depth) }
{
    let times = depth.min(32);
    for _ in 0..times {
        out.extend_from_slice(b"  ")?;
    }
    Ok(())
}

/// Two blanks for each depth, and no more than 64. Those of the depths that most symbols have are put at once.
#[inline(always)]
pub fn put_blanks(out: &mut Vec<u8>, depth: usize) -> Result<(), AllocError>
    ensures { OnOk result (out.new.items ≡ out.old.items ++ blanks depth) }
{
    match depth {
        0 => Ok(()),
        1 => out.extend_from_slice(b"  "),
        2 => out.extend_from_slice(b"    "),
        3 => out.extend_from_slice(b"      "),
        4 => out.extend_from_slice(b"        "),
        5 => out.extend_from_slice(b"          "),
        _ => put_many_blanks(out, depth),
    }
}

/// The depth of a symbol: one less than that before it where it ends a scope.
pub fn depth_of(depth: usize, symbol: &Symbol<'_>) -> usize
    ensures is { result ≡ depth_at depth (kind_at (symbol_of symbol.now).bytes) }
    ensures shallow { result ≤ depth }
{
    if symbol.ends_scope() {
        depth.saturating_sub(1)
    } else {
        depth
    }
}

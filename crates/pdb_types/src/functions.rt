//! The types of functions, by their ids.

ghost use Rattle.std.specs.Prelude.{◌≡◌};
ghost use Rattle.pdb_items.specs.ItemViews.{item_of};
ghost use Rattle.pdb_types.specs.FunctionIds.{function_type_in, index_at};

use pdb_base::TypeIndex;
use pdb_base::little_endian::u32_at;
use pdb_items::Item;

// The index of four bytes at offset 6.
fn index_at_6(bytes: &[u8]) -> Option<TypeIndex>
    ensures { result ≡ index_at bytes.now 6 }
{
    if bytes.len() >= 10 {
        Some(TypeIndex(u32_at(bytes, 6)))
    } else {
        None
    }
}

/// The type of a function by its id, which is an item of the stream of ids: `LF_FUNC_ID` (0x1601) or `LF_MFUNC_ID`
/// (0x1602). None where the id has another kind, or its record ends before the type. It reads no name.
pub fn function_type(id: &Item<'_>) -> Option<TypeIndex>
    ensures { result ≡ function_type_in (item_of id.now).bytes }
{
    match id.raw_kind() {
        0x1601 | 0x1602 => index_at_6(id.raw_bytes()),
        _ => None,
    }
}

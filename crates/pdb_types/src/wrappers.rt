//! Types whose names are made of the names of other types.

ghost use Rattle.std.specs.Prelude.{◌≡◌};
ghost use Rattle.std.specs.Option.{option_map};
ghost use Rattle.pdb_types.specs.FullTypes.{says_of};
ghost use Rattle.pdb_types.specs.TypeReading.{shown_type};
ghost use Rattle.pdb_types.specs.Wrappers.{is_wrapper, wrapped};

use crate::definitions::type_of_item;
use crate::type_data::TypeData;
use pdb_items::ItemFinder;

// Whether a type of this kind stands around another type: a qualifier, a pointer, an array, a bit field or a function.
fn is_wrapper(kind: u16) -> bool
    ensures { result ≡ is_wrapper kind }
{
    matches!(kind, 0x1001 | 0x1002 | 0x1503 | 0x1205 | 0x1008 | 0x1009)
}

// What the type of an index says, if it stands around another type. Of all others the kind is read, and nothing else.
pub(crate) fn wrapper_of<'t>(types: &ItemFinder<'t>, index: u32) -> Option<TypeData<'t>>
    ensures { wrapped (option_map shown_type result) ≡ wrapped (says_of types.now index) }
{
    let item = types.find(index)?;
    if is_wrapper(item.raw_kind()) {
        type_of_item(&item)
    } else {
        None
    }
}

//! Records of types that are read where a name is put together. Each counts as a step.

ghost use Rattle.std.specs.Prelude.{◌≡◌, ◌+◌};
ghost use Rattle.std.specs.Option.{option_map};
ghost use Rattle.pdb_types.specs.FullTypes.{says_of};
ghost use Rattle.pdb_types.specs.TypeReading.{shown_type};
ghost use Rattle.pdb_types.specs.Wrappers.{wrapped};

use crate::definitions::type_of;
use crate::type_data::TypeData;
use crate::wrappers::wrapper_of;
use pdb_base::Steps;
use pdb_items::ItemFinder;

// What the type of an index says.
pub(crate) fn visit<'t>(
    types: &ItemFinder<'t>,
    index: u32,
    steps: &mut Steps,
) -> Option<TypeData<'t>>
    ensures said { option_map shown_type result ≡ says_of types.now index }
    ensures counted { steps.new.count ≡ steps.old.count + 1 }
{
    steps.tick();
    type_of(types, index)
}

// What the type of an index says, if it stands around another type.
pub(crate) fn visit_wrapper<'t>(
    types: &ItemFinder<'t>,
    index: u32,
    steps: &mut Steps,
) -> Option<TypeData<'t>>
    ensures said { wrapped (option_map shown_type result) ≡ wrapped (says_of types.now index) }
    ensures counted { steps.new.count ≡ steps.old.count + 1 }
{
    steps.tick();
    wrapper_of(types, index)
}

//! The sizes of types.

ghost use Rattle.std.specs.Prelude.{◌≡◌};
ghost use Rattle.std.specs.Option.{option_map};
ghost use Rattle.pdb_types.specs.FullTypes.{first_definition, full_index, full_size, natural, says_of_full, size_by, size_of, size_within};
ghost use Rattle.pdb_types.specs.TypeReading.{shown_type};

use crate::definitions::{TypeDefinitions, type_of};
use crate::simple::simple_size;
use crate::type_data::TypeData;
use pdb_base::TypeIndex;
use pdb_items::ItemFinder;

// How many steps from one type to another the size of a type may take.
const DEPTH: u32 = 64;

// A size that isn't negative.
fn natural(size: Option<u32>) -> Option<i128>
    ensures { result ≡ natural size }
{
    Some(i128::from(size?))
}

// What the full definition of the type of an index says.
fn full_type<'t>(
    types: &ItemFinder<'t>,
    definitions: &TypeDefinitions<'_>,
    index: u32,
) -> Option<TypeData<'t>>
    ensures { option_map shown_type result ≡ says_of_full types.now (full_index types.now (first_definition definitions.now) index) }
{
    type_of(types, definitions.full_index(types, index)?)
}

// The size of the full definition of the type of an index.
#[cycle(sizes)]
fn full_size(
    types: &ItemFinder<'_>,
    definitions: &TypeDefinitions<'_>,
    index: u32,
    depth: u32,
) -> Option<i128>
    ensures { result ≡ full_size (size_within types.now (first_definition definitions.now) depth) (says_of_full types.now (full_index types.now (first_definition definitions.now) index)) }
{
    match full_type(types, definitions, index)? {
        TypeData::Class(class) => Some(class.size),
        TypeData::Union(union) => Some(union.size),
        TypeData::Enumeration(enumeration) => {
            size_within(types, definitions, enumeration.underlying.0, depth)
        }
        _ => None,
    }
}

// The size of the type of an index, which says this.
#[cycle(sizes)]
fn size_by(
    types: &ItemFinder<'_>,
    definitions: &TypeDefinitions<'_>,
    index: u32,
    says: Option<TypeData<'_>>,
    depth: u32,
) -> Option<i128>
    ensures { result ≡ size_by (size_within types.now (first_definition definitions.now) depth) (says_of_full types.now (full_index types.now (first_definition definitions.now) index)) (option_map shown_type says.entry) }
{
    match says {
        Some(TypeData::Modifier(modifier)) => {
            size_within(types, definitions, modifier.underlying.0, depth)
        }
        Some(TypeData::Bitfield(bits)) => {
            size_within(types, definitions, bits.underlying.0, depth)
        }
        Some(TypeData::Pointer(pointer)) => natural(pointer.attributes.size()),
        Some(TypeData::Array(array)) => Some(array.size),
        Some(TypeData::Class(_) | TypeData::Union(_) | TypeData::Enumeration(_)) => {
            full_size(types, definitions, index, depth)
        }
        _ => None,
    }
}

// The size of the type of an index, by at most so many steps.
#[cycle(sizes)]
#[tactic(auto, using(crate::proofs::SizeSteps::size_simple, crate::proofs::SizeSteps::size_end, crate::proofs::SizeSteps::size_step))]
fn size_within(
    types: &ItemFinder<'_>,
    definitions: &TypeDefinitions<'_>,
    index: u32,
    depth: u32,
) -> Option<i128>
    ensures { result ≡ size_within types.now (first_definition definitions.now) depth index }
{
    if index < 0x1000 {
        return natural(simple_size(index));
    }
    if depth == 0 {
        return None;
    }
    let says = type_of(types, index);
    size_by(types, definitions, index, says, depth - 1)
}

impl TypeDefinitions<'_> {
    /// The size of a type in bytes; negative only in a damaged file. That of a class, a union or an enumeration is the
    /// size of its full definition. None of a function and of what else has no size, where a full definition or a field
    /// isn't there, and where more than 64 types stand in one another.
    #[tactic(auto, unfolding(crate::specs::FullTypes::size_of))]
    pub fn size(&self, types: &ItemFinder<'_>, index: TypeIndex) -> Option<i128>
        ensures { result ≡ size_of types.now (first_definition self.now) index.0 }
    {
        size_within(types, self, index.0, DEPTH)
    }
}

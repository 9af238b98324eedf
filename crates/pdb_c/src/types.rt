//! The types of a stream, and the full definitions among them.

ghost use Rattle.std.specs.Prelude.{◌≡◌, ◌++◌, ◌^◌, ◌<◌, length, Some, OnOk};
ghost use Rattle.std.specs.Option.{option_map};
ghost use Rattle.pdb.specs.Refusal.{Gives};
ghost use Rattle.pdb_items.specs.Items.{known_items_in};
ghost use Rattle.pdb_items.specs.ItemViews.{item_of};
ghost use Rattle.pdb_types.specs.DefinitionViews.{type_number};
ghost use Rattle.pdb_types.specs.FullTypes.{definitions_among, first_definition, says_of, says_of_item, tag_in};
ghost use Rattle.pdb_types.specs.TypeReading.{shown_tag, shown_type};
ghost use Rattle.pdb_c.specs.TypeRows.{full_type, type_size, type_text};

use pdb::{Item, ItemFinder, ItemIter, Result, TypeIndex};
use pdb_types::{Tag, TypeData, TypeDefinitions, put_name};
use std::alloc::{AllocError, Global};

// What an item says; none where its kind has no layout, or a field isn't there.
fn said_of<'t>(item: &Item<'t>) -> Option<TypeData<'t>>
    ensures { option_map shown_type result ≡ says_of_item (Some (item_of item.now)) }
{
    match TypeData::parse(item) {
        Ok(says) => says,
        Err(_) => None,
    }
}

/// The tag of a class, a union or an enumeration.
pub fn tag_in<'a>(says: Option<TypeData<'a>>) -> Option<Tag<'a>>
    ensures { option_map shown_tag result ≡ tag_in (option_map shown_type says.entry) }
{
    match says {
        Some(TypeData::Class(class)) => Some(class.tag),
        Some(TypeData::Union(union)) => Some(union.tag),
        Some(TypeData::Enumeration(enumeration)) => Some(enumeration.tag),
        _ => None,
    }
}

/// The types of a stream up to its first error, and the full definitions among them.
#[derive(Drop)]
pub struct Types<'t> {
    /// The types, by their indices.
    pub items: ItemFinder<'t>,
    definitions: TypeDefinitions<'t>,
    ghost defined: { first_definition definitions ≡ first_definition (definitions_among items) },
}

impl<'t> Types<'t> {
    /// The types of the stream of types with these bytes.
    #[tactic(auto, unfolding(pdb_items::specs::Items::known_items_in))]
    pub fn new(alloc: Global, stream: &'t [u8]) -> Result<Self>
        requires { length stream.now < 2 ^ 32 }
        ensures { Gives (λ t. t.items) ⊥ result (known_items_in stream.now) }
    {
        let items = ItemFinder::new(alloc, stream)?;
        let definitions = TypeDefinitions::new(alloc, ItemIter::new(stream)?)?;
        Ok(Types { items, definitions })
    }

    /// Appends the name of the type of an index.
    #[tactic(auto, unfolding(crate::specs::TypeRows::type_text))]
    pub fn put_name(&self, out: &mut Vec<u8>, index: u32) -> std::result::Result<(), AllocError>
        ensures { OnOk result (out.new.items ≡ out.old.items ++ type_text self.now.items index) }
    {
        put_name(&self.items, &self.definitions, out, TypeIndex(index))
    }

    /// The size of the type of an index, in bytes.
    #[tactic(auto, unfolding(crate::specs::TypeRows::type_size))]
    pub fn size(&self, index: u32) -> Option<i128>
        ensures { result ≡ type_size self.now.items index }
    {
        self.definitions.size(&self.items, TypeIndex(index))
    }

    /// The index of the full definition that the type of an index stands for.
    #[tactic(auto, unfolding(crate::specs::TypeRows::full_type))]
    pub fn full(&self, index: u32) -> Option<TypeIndex>
        ensures { option_map type_number result ≡ full_type self.now.items index }
    {
        self.definitions.full(&self.items, TypeIndex(index))
    }

    /// What the record of an index says; none where it can't be read.
    pub fn says(&self, index: TypeIndex) -> Option<TypeData<'t>>
        ensures { option_map shown_type result ≡ says_of self.now.items index.0 }
    {
        let item = self.items.find(index.0)?;
        said_of(&item)
    }
}

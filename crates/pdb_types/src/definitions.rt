//! The full definitions of types, which records that only declare a type stand for.

ghost use Rattle.std.specs.Prelude.{◌≡◌, ◌*◌, ◌≤◌, ◌++◌, ℕ, List, [], map, vec_capacity, vec_len, IfOk, OnOk};
ghost use Rattle.std.specs.Option.{option_map, option_to_list};
ghost use Rattle.std.specs.List.Sorted.{IsSortedBy};
ghost use Rattle.std.specs.Ordering.{is_lt, nat_cmp};
ghost use Rattle.std.specs.Cmp.Lexicographic.{slice_cmp};
ghost use Rattle.pdb_base.specs.Text.{name_bytes};
ghost use Rattle.pdb_items.specs.ItemViews.{item_of, items_left};
ghost use Rattle.pdb_items.specs.Ids.{kind_at};
ghost use Rattle.pdb_types.specs.FullTypes.{definition_of, definitions_among, first_definition, full_index, named_key, says_of, says_of_item, stands_for, tag_in, tag_key};
ghost use Rattle.pdb_types.specs.TypeReading.{shown_tag, shown_type};
ghost use Rattle.pdb_types.specs.DefinitionViews.{goes_before, key_list, shown_definition, type_number};

use crate::rows::push_row;
use crate::tags::Tag;
use crate::type_data::TypeData;
use pdb_base::{FallibleIterator, RawString, TypeIndex};
use pdb_items::{Item, ItemFinder, ItemIter};
use std::alloc::{AllocError, Global};
use std::marker::Model;

// What an item says; none where its kind has no layout, or a field isn't there.
pub(crate) fn type_of_item<'t>(item: &Item<'t>) -> Option<TypeData<'t>>
    ensures { option_map shown_type result ≡ says_of_item (Some (item_of item.now)) }
{
    match TypeData::parse(item) {
        Ok(data) => data,
        Err(_) => None,
    }
}

// What the type of an index says.
pub(crate) fn type_of<'t>(types: &ItemFinder<'t>, index: u32) -> Option<TypeData<'t>>
    ensures { option_map shown_type result ≡ says_of types.now index }
{
    let item = types.find(index)?;
    type_of_item(&item)
}

// The tag of what a record says.
fn tag_in<'t>(says: Option<TypeData<'t>>) -> Option<Tag<'t>>
    ensures { option_map shown_tag result ≡ tag_in (option_map shown_type says.entry) }
{
    match says {
        Some(TypeData::Class(class)) => Some(class.tag),
        Some(TypeData::Union(union)) => Some(union.tag),
        Some(TypeData::Enumeration(enumeration)) => Some(enumeration.tag),
        _ => None,
    }
}

// By what a tag is known: its kind, 1 where its name is unique, and the name.
#[derive(Clone, Copy, PartialEq, Eq, PartialOrd, Ord)]
struct TagKey<'t> {
    kind: u16,
    unique: u8,
    name: &'t [u8],
}

// The key of a name; none without a name.
fn named_key(kind: u16, unique: u8, name: Option<RawString<'_>>) -> Option<TagKey<'_>>
    ensures { option_map key_list result ≡ named_key kind unique (option_map name_bytes name.entry) }
{
    let name = name?;
    Some(TagKey {
        kind,
        unique,
        name: name.as_bytes(),
    })
}

// The key of a tag; none where its unique name isn't there.
fn tag_key<'t>(kind: u16, tag: &Tag<'t>) -> Option<TagKey<'t>>
    ensures { option_map key_list result ≡ tag_key kind (shown_tag tag.now) }
{
    if tag.has_unique_name {
        named_key(kind, 1, tag.unique_name())
    } else {
        named_key(kind, 0, Some(tag.name))
    }
}

// A full definition: by what it is known, and its index.
#[derive(Clone, Copy)]
struct Definition<'t> {
    key: TagKey<'t>,
    index: u32,
}

// What an item defines.
#[tactic(auto, unfolding(crate::specs::FullTypes::definition_of))]
fn definition_of<'t>(item: &Item<'t>) -> Option<Definition<'t>>
    ensures { option_map shown_definition result ≡ definition_of (item_of item.now) }
{
    let tag = tag_in(type_of_item(item))?;
    if tag.is_forward {
        return None;
    }
    let key = tag_key(item.raw_kind(), &tag)?;
    Some(Definition {
        key,
        index: item.index(),
    })
}

// One more item.
fn add<'t>(rows: &mut Vec<Definition<'t>>, item: &Item<'t>) -> Result<(), AllocError>
    requires { vec_capacity rows.old ≤ 2 * vec_len rows.old }
    ensures added { OnOk result (map shown_definition rows.new.items ≡ map shown_definition rows.old.items ++ option_to_list (definition_of (item_of item.now))) }
    ensures room { OnOk result (vec_capacity rows.new ≤ 2 * vec_len rows.new) }
{
    if let Some(definition) = definition_of(item) {
        push_row(rows, definition)?;
    }
    Ok(())
}

// The definitions among the items that an iterator has left, up to its fault.
fn rows_of<'t>(alloc: Global, mut items: ItemIter<'t>) -> Result<Vec<Definition<'t>>, AllocError>
    ensures all { IfOk result (λ rows. map shown_definition rows.items ≡ definitions_among (items_left items.entry).items) }
    ensures room { IfOk result (λ rows. vec_capacity rows ≤ 2 * vec_len rows) }
{
    let mut rows = Vec::new(alloc);
    loop {
        match items.next() {
            Ok(Some(item)) => add(&mut rows, &item)?,
            Ok(None) => return Ok(rows),
            Err(_) => return Ok(rows),
        }
    }
}

// Sorts definitions by their keys. Those of one key keep their order.
fn sort(rows: &mut Vec<Definition<'_>>) -> Result<(), AllocError>
    ensures rises { OnOk result (IsSortedBy goes_before rows.new.items) }
    ensures first { OnOk result ((key : List ℕ) → first_definition (map shown_definition rows.new.items) key ≡ first_definition (map shown_definition rows.old.items) key) }
{
    rows.sort_by_key(|row| row.key)?;
    Ok(())
}

// The index of the first definition of a key, which is searched by halving.
fn find_in(rows: &[Definition<'_>], key: TagKey<'_>) -> Option<u32>
    requires { IsSortedBy goes_before rows.now }
    ensures { result ≡ first_definition (map shown_definition rows.now) (key_list key.entry) }
{
    let at = rows.partition_point(|row| row.key.cmp(&key).is_lt());
    let row = rows.get(at)?;
    if row.key.cmp(&key).is_eq() {
        Some(row.index)
    } else {
        None
    }
}

/// The full definitions among the types of a file, found by their names: the records of classes, unions and
/// enumerations that don't only declare a type. A contract sees them as a list, in the order of the table; only the
/// first of those with one name is ever found.
#[derive(Drop)]
pub struct TypeDefinitions<'t> {
    // In the order of their keys; of those with one key the first listed stands first.
    sorted: Vec<Definition<'t>>,
}

impl<'t> Model for TypeDefinitions<'t> {
    ghost use Rattle.std.specs.Prelude.{List, map};
    ghost use Rattle.std.specs.List.Sorted.{IsSortedBy};
    ghost use Rattle.pdb_types.specs.FullTypes.{TypeDefinition};
    ghost use Rattle.pdb_types.specs.DefinitionViews.{goes_before, shown_definition};

    ghost Value = { List TypeDefinition };

    ghost view = { λ t. map shown_definition t.sorted.items };

    ghost invariant = { λ t. IsSortedBy goes_before t.sorted.items };
}

impl<'t> TypeDefinitions<'t> {
    /// The definitions among the types that an iterator has left, up to its fault. They are sorted once, for which
    /// memory may run out.
    pub fn new(alloc: Global, items: ItemIter<'t>) -> Result<Self, AllocError>
        ensures { IfOk result (λ t. first_definition t ≡ first_definition (definitions_among (items_left items.entry).items)) }
    {
        let mut sorted = rows_of(alloc, items)?;
        sort(&mut sorted)?;
        Ok(TypeDefinitions { sorted })
    }

    /// No definitions. It takes no memory.
    pub fn empty(alloc: Global) -> Self
        ensures { result ≡ [] }
    {
        TypeDefinitions {
            sorted: Vec::new(alloc),
        }
    }

    // The index of the first definition of a key.
    fn find(&self, key: TagKey<'_>) -> Option<u32>
        ensures { result ≡ first_definition self.now (key_list key.entry) }
    {
        find_in(self.sorted.as_slice(), key)
    }

    // The index of the full definition of a tag of this key and index.
    fn stands_for(&self, is_forward: bool, index: u32, key: Option<TagKey<'_>>) -> Option<u32>
        ensures { result ≡ stands_for (first_definition self.now) is_forward index (option_map key_list key.entry) }
    {
        let key = key?;
        if is_forward {
            self.find(key)
        } else {
            Some(index)
        }
    }

    // The index of the full definition of the type of an index.
    #[tactic(auto, unfolding(crate::specs::FullTypes::full_index))]
    pub(crate) fn full_index(&self, types: &ItemFinder<'_>, index: u32) -> Option<u32>
        ensures { result ≡ full_index types.now (first_definition self.now) index }
    {
        let item = types.find(index)?;
        let tag = tag_in(type_of_item(&item))?;
        let key = tag_key(item.raw_kind(), &tag);
        self.stands_for(tag.is_forward, item.index(), key)
    }

    /// The full definition that a class, a union or an enumeration stands for: itself, unless its record only declares
    /// the type; then the first definition of the same kind with the same unique name, or with the same name where both
    /// have no unique one. None where there is none, and for every other type.
    pub fn full(&self, types: &ItemFinder<'_>, index: TypeIndex) -> Option<TypeIndex>
        ensures { option_map type_number result ≡ full_index types.now (first_definition self.now) index.0 }
    {
        Some(TypeIndex(self.full_index(types, index.0)?))
    }
}

//! The lines of types in `types`.

ghost use Rattle.std.specs.Prelude.{◌≡◌, ◌++◌, option_copied, IfOk, OnOk};
ghost use Rattle.std.specs.Option.{option_map};
ghost use Rattle.pdb_items.specs.ItemViews.{item_of};
ghost use Rattle.pdb_resolve.specs.FileParts.{items_where};
ghost use Rattle.pdb_types.specs.FullTypes.{definitions_among, first_definition, full_index, says_of_item, tag_in};
ghost use Rattle.pdb_types.specs.TypeReading.{shown_tag, shown_type};
ghost use Rattle.tool_types.specs.TypeLines.{forward_text, if_whole, index_text, is_whole, item_line, kind_field, missing_line, simple_line, size_field, sized_name, tag_said, type_text, underlying_text};
ghost use Rattle.pdb_types.specs.DefinitionViews.{type_number};
ghost use Rattle.tool_types.specs.TypeViews.{types_of};

use crate::type_names::put_type_name;
use pdb::{Item, ItemFinder, TypeIndex, TypeInformation};
use pdb_text::{put_hex4, put_hex8, put_line_end};
use pdb_types::{Tag, TypeData, TypeDefinitions};
use std::alloc::{AllocError, Global};
use tool_fields::type_kinds::type_kind_name;
use tool_fields::values_forms::put_wide;

/// The types of a file, and the full definitions among them.
#[derive(Clone, Copy)]
pub struct Types<'x, 't> {
    /// The types, by their indices.
    pub items: &'x ItemFinder<'t>,
    /// The full definitions, by their names.
    pub definitions: &'x TypeDefinitions<'t>,
}

impl<'x, 't> Types<'x, 't> {
    /// The name of a type, on one line.
    pub fn put_name(self, out: &mut Vec<u8>, index: TypeIndex) -> Result<(), AllocError>
        ensures { OnOk result (out.new.items ≡ out.old.items ++ type_text (types_of self.entry) index.0) }
    {
        put_type_name(self.items, self.definitions, out, index)
    }

    // The index of the full definition that a type stands for.
    fn full(self, index: TypeIndex) -> Option<TypeIndex>
        ensures { option_map type_number result ≡ full_index (types_of self.entry).items (types_of self.entry).first index.0 }
    {
        self.definitions.full(self.items, index)
    }
}

/// What a type's item says; none where its kind has no layout, or a field isn't there.
pub fn said_of<'t>(item: &Item<'t>) -> Option<TypeData<'t>>
    ensures { option_map shown_type result ≡ says_of_item (Some (item_of item.now)) }
{
    match TypeData::parse(item) {
        Ok(says) => says,
        Err(_) => None,
    }
}

// Whether the unique name of a tag is there, where it has one.
fn is_whole(tag: &Tag<'_>) -> bool
    ensures { result ≡ is_whole (shown_tag tag.now) }
{
    !tag.has_unique_name || tag.unique_name().is_some()
}

// The same tag, where it is whole.
fn if_whole(tag: Tag<'_>) -> Option<Tag<'_>>
    ensures { option_map shown_tag result ≡ if_whole (Some (shown_tag tag.entry)) }
{
    if is_whole(&tag) { Some(tag) } else { None }
}

/// The tag of what a type's record says: of a class, a union or an enumeration.
pub fn tag_said<'t>(says: &Option<TypeData<'t>>) -> Option<Tag<'t>>
    ensures { option_map shown_tag result ≡ tag_said (option_map shown_type says.now) }
{
    match says {
        Some(TypeData::Class(class)) => if_whole(class.tag),
        Some(TypeData::Union(union)) => if_whole(union.tag),
        Some(TypeData::Enumeration(enumeration)) => if_whole(enumeration.tag),
        _ => None,
    }
}

// The index of a type, or `-`.
fn put_index(out: &mut Vec<u8>, index: Option<TypeIndex>) -> Result<(), AllocError>
    ensures { OnOk result (out.new.items ≡ out.old.items ++ index_text (option_map type_number index)) }
{
    match index {
        Some(index) => put_hex8(out, index.0),
        None => out.extend_from_slice(b"-"),
    }
}

// Of a type that is only declared, the index of its full definition.
fn put_forward(
    out: &mut Vec<u8>,
    types: Types<'_, '_>,
    index: TypeIndex,
    tag: &Option<Tag<'_>>,
) -> Result<(), AllocError>
    ensures { OnOk result (out.new.items ≡ out.old.items ++ forward_text (types_of types.entry) index.0 (option_map shown_tag tag.now)) }
{
    match tag {
        Some(tag) if tag.is_forward => {
            out.extend_from_slice(b" forward=")?;
            put_index(out, types.full(index))
        }
        _ => Ok(()),
    }
}

// The size of a type, where it has one.
fn put_size(out: &mut Vec<u8>, size: Option<i128>) -> Result<(), AllocError>
    ensures { OnOk result (out.new.items ≡ out.old.items ++ size_field size) }
{
    match size {
        Some(size) => {
            out.extend_from_slice(b" size=")?;
            put_wide(out, size)
        }
        None => Ok(()),
    }
}

// The size of a type, and its name.
#[inline(always)]
fn put_sized_name(
    out: &mut Vec<u8>,
    types: Types<'_, '_>,
    index: TypeIndex,
) -> Result<(), AllocError>
    ensures { OnOk result (out.new.items ≡ out.old.items ++ sized_name (types_of types.entry) index.0) }
{
    put_size(out, types.definitions.size(types.items, index))?;
    out.push(b' ')?;
    types.put_name(out, index)
}

// Of an enumeration that isn't only declared, the name of its underlying type.
fn put_underlying(
    out: &mut Vec<u8>,
    types: Types<'_, '_>,
    says: &Option<TypeData<'_>>,
) -> Result<(), AllocError>
    ensures { OnOk result (out.new.items ≡ out.old.items ++ underlying_text (types_of types.entry) (option_map shown_type says.now)) }
{
    match says {
        Some(TypeData::Enumeration(enumeration)) if !enumeration.tag.is_forward => {
            out.extend_from_slice(b": ")?;
            types.put_name(out, enumeration.underlying)
        }
        _ => Ok(()),
    }
}

// The name of a kind in `cvinfo.h`, or its number in four hex digits.
fn put_kind(out: &mut Vec<u8>, kind: u16) -> Result<(), AllocError>
    ensures { OnOk result (out.new.items ≡ out.old.items ++ kind_field kind) }
{
    out.push(b' ')?;
    match type_kind_name(kind) {
        Some(name) => out.extend_from_slice(name.as_bytes()),
        None => put_hex4(out, kind),
    }
}

/// The line of a type's item, of which this is what it says.
#[tactic(auto, unfolding(crate::specs::TypeLines::item_line))]
pub fn put_item_line(
    out: &mut Vec<u8>,
    types: Types<'_, '_>,
    item: &Item<'_>,
    says: &Option<TypeData<'_>>,
) -> Result<(), AllocError>
    ensures { OnOk result (out.new.items ≡ out.old.items ++ item_line (types_of types.entry) (item_of item.now) (option_map shown_type says.now)) }
{
    let index = TypeIndex(item.index());
    put_hex8(out, index.0)?;
    put_kind(out, item.raw_kind())?;
    put_forward(out, types, index, &tag_said(says))?;
    put_sized_name(out, types, index)?;
    put_underlying(out, types, says)?;
    put_line_end(out)
}

/// The line of a simple type, which has no item.
#[tactic(auto, unfolding(crate::specs::TypeLines::simple_line))]
pub fn put_simple_line(
    out: &mut Vec<u8>,
    types: Types<'_, '_>,
    index: TypeIndex,
) -> Result<(), AllocError>
    ensures { OnOk result (out.new.items ≡ out.old.items ++ simple_line (types_of types.entry) index.0) }
{
    put_hex8(out, index.0)?;
    put_sized_name(out, types, index)?;
    put_line_end(out)
}

/// The line of an index without an item.
pub fn put_missing_line(out: &mut Vec<u8>, index: TypeIndex) -> Result<(), AllocError>
    ensures { OnOk result (out.new.items ≡ out.old.items ++ missing_line index.0) }
{
    put_hex8(out, index.0)?;
    out.extend_from_slice(b" ??\n")
}

/// The full definitions among the types of a stream; none where the stream isn't there or has an error.
#[tactic(auto, unfolding(pdb_types::specs::FullTypes::definitions_among, pdb_items::specs::Items::known_items_in))]
pub fn definitions_of<'a>(
    alloc: Global,
    types: Option<&'a TypeInformation<'a>>,
) -> Result<TypeDefinitions<'a>, AllocError>
    ensures { IfOk result (λ d. first_definition d ≡ first_definition (definitions_among (items_where (option_copied types.entry)))) }
{
    let Some(types) = types else {
        return Ok(TypeDefinitions::empty(alloc));
    };
    match types.iter() {
        Ok(items) => TypeDefinitions::new(alloc, items),
        Err(_) => Ok(TypeDefinitions::empty(alloc)),
    }
}

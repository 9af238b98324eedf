//! What a type record says: its kind picks the layout, and the fields stand behind the kind.

ghost use Rattle.std.specs.Prelude.{◌≡◌, ◌≤◌, length};
ghost use Rattle.std.specs.Option.{option_map};
ghost use Rattle.pdb_base.specs.Refusal.{Answers};
ghost use Rattle.pdb_types.specs.TypeReading.{shown_type, type_at};

use crate::records::{
    Alias, ArgumentList, Array, Bitfield, MemberFunction, Modifier, Pointer, Procedure,
    VirtualTableShape, parse_alias, parse_argument_list, parse_array, parse_bitfield,
    parse_member_function, parse_modifier, parse_pointer, parse_procedure,
    parse_virtual_table_shape,
};
use crate::tags::{Class, Enumeration, Union, parse_class, parse_enumeration, parse_union};
use pdb_base::little_endian::u16_at;
use pdb_base::{ParseBuffer, Result};
use pdb_items::Item;

/// What a type record says.
#[derive(Clone, Copy, Debug, Eq, PartialEq)]
pub enum TypeData<'t> {
    /// Another type with qualifiers.
    Modifier(Modifier),
    /// A pointer or a reference.
    Pointer(Pointer),
    /// An array.
    Array(Array),
    /// The type of a bit field.
    Bitfield(Bitfield),
    /// A function that is no member.
    Procedure(Procedure),
    /// A member function.
    MemberFunction(MemberFunction),
    /// The arguments of a function.
    ArgumentList(ArgumentList<'t>),
    /// A class, a structure or an interface.
    Class(Class<'t>),
    /// A union.
    Union(Union<'t>),
    /// An enumeration.
    Enumeration(Enumeration<'t>),
    /// The shape of a table of virtual functions.
    VirtualTableShape(VirtualTableShape),
    /// A list of members: `LF_FIELDLIST` (0x1203).
    FieldList,
    /// Another name of a type.
    Alias(Alias<'t>),
}

// What the type record of these bytes says; none where its kind has no layout.
#[tactic(auto, using(crate::proofs::LaidTypes::field_list_read))]
pub(crate) fn parse_type(bytes: &[u8]) -> Result<Option<TypeData<'_>>>
    requires { 2 ≤ length bytes.now }
    ensures { Answers (option_map shown_type) result (type_at bytes.entry.now) }
{
    let mut buffer = ParseBuffer::from(bytes);
    buffer.seek(2);
    match u16_at(bytes, 0) {
        0x1001 => parse_modifier(&mut buffer),
        0x1002 => parse_pointer(&mut buffer),
        0x1503 => parse_array(&mut buffer),
        0x1205 => parse_bitfield(&mut buffer),
        0x1008 => parse_procedure(&mut buffer),
        0x1009 => parse_member_function(&mut buffer),
        0x1201 => parse_argument_list(&mut buffer),
        0x1504 | 0x1505 | 0x1519 => parse_class(&mut buffer),
        0x1506 => parse_union(&mut buffer),
        0x1507 => parse_enumeration(&mut buffer),
        0x000a => parse_virtual_table_shape(&mut buffer),
        0x1203 => Ok(Some(TypeData::FieldList)),
        0x150a => parse_alias(&mut buffer),
        _ => Ok(None),
    }
}

impl<'t> TypeData<'t> {
    ghost use Rattle.std.specs.Prelude.{◌↔◌, IfOk, IfSome, IsOkAnd, Some, None};
    ghost use Rattle.pdb_items.specs.Ids.{kind_at};
    ghost use Rattle.pdb_items.specs.ItemViews.{item_of};
    ghost use Rattle.pdb_types.specs.TypeSays.{TypeSays};
    ghost use Rattle.pdb_types.specs.TypeRows.{type_form_of};
    ghost use Rattle.pdb_types.specs.TypeReading.{IsType};

    /// What a type record says; none where its kind has no layout here. Bytes behind the last field mean nothing. It
    /// takes no memory.
    ///
    /// # Errors
    ///
    /// `UnexpectedEof` where a field isn't there, or a pointer's mode isn't listed; `UnexpectedNumericPrefix` where the
    /// size of an array, a class or a union has a prefix that isn't listed.
    #[tactic(auto, using(crate::proofs::TypeClauses::only_of, crate::proofs::TypeClauses::kind_of))]
    pub fn parse(item: &Item<'t>) -> Result<Option<Self>>
        // The result is a function of the bytes.
        ensures reads { Answers (option_map shown_type) result (type_at (item_of item.now).bytes) }
        // What is returned is what the bytes say.
        ensures found { IfOk result (λ o. IfSome o (λ d. IsType (item_of item.now).bytes (shown_type d))) }
        // What the bytes say is returned.
        ensures only { (d : TypeSays) → IsType (item_of item.now).bytes d → IsOkAnd result (λ o. option_map shown_type o ≡ Some d) }
        // Nothing is returned exactly where the kind has no layout.
        ensures kind { IsOkAnd result (λ o. option_map shown_type o ≡ None) ↔ (type_form_of (kind_at (item_of item.now).bytes) ≡ None) }
    {
        parse_type(item.raw_bytes())
    }
}

//! The lines of members in `types`.

ghost use Rattle.std.specs.Prelude.{◌≡◌, ◌++◌, OnOk, codes};
ghost use Rattle.std.specs.Fmt.{signed_decimal};
ghost use Rattle.pdb_types.specs.Enumerators.{enumerator_number};
ghost use Rattle.pdb_types.specs.MemberLists.{members_of};
ghost use Rattle.pdb_types.specs.MemberListViews.{members_left};
ghost use Rattle.pdb_types.specs.MemberViews.{shown_member};
ghost use Rattle.pdb_types.specs.OverloadViews.{overloads_left};
ghost use Rattle.pdb_types.specs.Overloads.{overloads_of};
ghost use Rattle.pdb_types.specs.TypeRows.{value_of};
ghost use Rattle.tool_types.specs.MemberTexts.{access_text, accessed_type, base_line, base_places, base_word, bit_text, data_line, entry_text, enumerator_line, member_line, members_text, method_line, method_text, named_type, numbered, other_line, overloads_left_text, overloads_text, table_line, type_behind, typed_word, unread_method};
ghost use Rattle.tool_types.specs.TypeViews.{types_of};
ghost use Rattle.tool_fields.specs.ValueTexts.{variant_text};

use crate::type_lines::Types;
use pdb::{FallibleIterator, TypeIndex, Variant};
use pdb_text::{put_decimal, put_line_end, put_one_line};
use pdb_types::{
    EnumeratorValue, FieldAttributes, Member, MemberIter, OverloadIter, bit_position,
    enumerator_value,
};
use std::alloc::AllocError;
use tool_fields::fields::put_offset;
use tool_fields::values_forms::{put_unsigned, put_variant, put_wide};
use tool_output::error_line::put_error_line;
use tool_printing::put_mark;

/// The line of a list of members that continues in itself.
const ENDLESS: &[u8] = b"  error the list of members continues in itself\n";

/// Who may use a member, where not everybody may.
fn put_access(out: &mut Vec<u8>, attributes: FieldAttributes) -> Result<(), AllocError>
    ensures { OnOk result (out.new.items ≡ out.old.items ++ access_text attributes) }
{
    match attributes.access() {
        1 => out.extend_from_slice(b" access=private"),
        2 => out.extend_from_slice(b" access=protected"),
        _ => Ok(()),
    }
}

/// What a member function is.
fn put_method_kind(out: &mut Vec<u8>, attributes: FieldAttributes) -> Result<(), AllocError>
    ensures { OnOk result (out.new.items ≡ out.old.items ++ method_text attributes) }
{
    match attributes.method_properties() {
        1 | 4 => out.extend_from_slice(b" kind=virtual"),
        2 => out.extend_from_slice(b" kind=static"),
        3 => out.extend_from_slice(b" kind=friend"),
        5 | 6 => out.extend_from_slice(b" kind=pure"),
        _ => Ok(()),
    }
}

/// The offset in the table of virtual functions.
fn put_entry(out: &mut Vec<u8>, offset: Option<u32>) -> Result<(), AllocError>
    ensures { OnOk result (out.new.items ≡ out.old.items ++ entry_text offset) }
{
    match offset {
        Some(offset) => {
            out.extend_from_slice(b" entry=")?;
            put_decimal(out, u64::from(offset))
        }
        None => Ok(()),
    }
}

/// The first bit of a bit field.
fn put_bit(out: &mut Vec<u8>, position: Option<u8>) -> Result<(), AllocError>
    ensures { OnOk result (out.new.items ≡ out.old.items ++ bit_text position) }
{
    match position {
        Some(position) => {
            out.extend_from_slice(b" bit=")?;
            put_decimal(out, u64::from(position))
        }
        None => Ok(()),
    }
}

/// A name, its type behind a colon, and the end of the line.
#[tactic(auto, unfolding(crate::specs::MemberTexts::named_type))]
fn put_named_type(
    out: &mut Vec<u8>,
    types: Types<'_, '_>,
    name: &[u8],
    index: TypeIndex,
) -> Result<(), AllocError>
    ensures { OnOk result (out.new.items ≡ out.old.items ++ named_type (types_of types.entry) name.now index) }
{
    out.push(b' ')?;
    put_one_line(out, name)?;
    out.extend_from_slice(b": ")?;
    types.put_name(out, index)?;
    put_line_end(out)
}

/// The line of a word and a type.
fn put_typed_word(
    out: &mut Vec<u8>,
    types: Types<'_, '_>,
    word: &[u8],
    index: TypeIndex,
) -> Result<(), AllocError>
    ensures { OnOk result (out.new.items ≡ out.old.items ++ typed_word (types_of types.entry) word.now index) }
{
    out.extend_from_slice(b"  ")?;
    out.extend_from_slice(word)?;
    out.push(b' ')?;
    types.put_name(out, index)?;
    put_line_end(out)
}

/// Who may use what has a type, the type, and the end of the line.
#[tactic(auto, unfolding(crate::specs::MemberTexts::accessed_type))]
fn put_accessed_type(
    out: &mut Vec<u8>,
    types: Types<'_, '_>,
    attributes: FieldAttributes,
    index: TypeIndex,
) -> Result<(), AllocError>
    ensures { OnOk result (out.new.items ≡ out.old.items ++ accessed_type (types_of types.entry) attributes index) }
{
    put_access(out, attributes)?;
    out.push(b' ')?;
    types.put_name(out, index)?;
    put_line_end(out)
}

/// The line of a base class.
#[tactic(auto, unfolding(crate::specs::MemberTexts::base_line))]
fn put_base(
    out: &mut Vec<u8>,
    types: Types<'_, '_>,
    attributes: FieldAttributes,
    index: TypeIndex,
    offset: Variant,
) -> Result<(), AllocError>
    ensures { OnOk result (out.new.items ≡ out.old.items ++ base_line (types_of types.entry) attributes index offset) }
{
    out.extend_from_slice(b"  base offset=")?;
    put_variant(out, offset)?;
    put_accessed_type(out, types, attributes, index)
}

/// The first words of the line of a virtual base class.
fn put_base_word(out: &mut Vec<u8>, direct: bool) -> Result<(), AllocError>
    ensures { OnOk result (out.new.items ≡ out.old.items ++ base_word direct) }
{
    if direct {
        out.extend_from_slice(b"  virtual_base vbptr=")
    } else {
        out.extend_from_slice(b"  indirect_base vbptr=")
    }
}

/// Where the pointer to the table of a virtual base class stands, and its entry in the table.
#[tactic(auto, unfolding(crate::specs::MemberTexts::base_places))]
fn put_base_places(
    out: &mut Vec<u8>,
    direct: bool,
    pointer: Variant,
    entry: Variant,
) -> Result<(), AllocError>
    ensures { OnOk result (out.new.items ≡ out.old.items ++ base_places direct pointer entry) }
{
    put_base_word(out, direct)?;
    put_variant(out, pointer)?;
    out.extend_from_slice(b" entry=")?;
    put_variant(out, entry)
}

/// The line of a virtual base class.
fn put_virtual_base(
    out: &mut Vec<u8>,
    types: Types<'_, '_>,
    direct: bool,
    attributes: FieldAttributes,
    index: TypeIndex,
    pointer: Variant,
    entry: Variant,
) -> Result<(), AllocError>
    ensures { OnOk result (out.new.items ≡ out.old.items ++ (base_places direct pointer entry ++ accessed_type (types_of types.entry) attributes index)) }
{
    put_base_places(out, direct, pointer, entry)?;
    put_accessed_type(out, types, attributes, index)
}

/// A word, and a number of any width.
#[tactic(auto, unfolding(crate::specs::MemberTexts::numbered))]
fn put_word_and_number(out: &mut Vec<u8>, word: &[u8], number: Variant) -> Result<(), AllocError>
    ensures { OnOk result (out.new.items ≡ out.old.items ++ numbered word.now (variant_text number)) }
{
    out.extend_from_slice(word)?;
    put_variant(out, number)
}

/// A type behind a blank, and the end of the line.
#[tactic(auto, unfolding(crate::specs::MemberTexts::type_behind))]
fn put_type_behind(
    out: &mut Vec<u8>,
    types: Types<'_, '_>,
    index: TypeIndex,
) -> Result<(), AllocError>
    ensures { OnOk result (out.new.items ≡ out.old.items ++ type_behind (types_of types.entry) index) }
{
    out.push(b' ')?;
    types.put_name(out, index)?;
    put_line_end(out)
}

/// The line of a pointer to a table of virtual functions at an offset.
fn put_table_offset(
    out: &mut Vec<u8>,
    types: Types<'_, '_>,
    table: TypeIndex,
    offset: i32,
) -> Result<(), AllocError>
    ensures { OnOk result (out.new.items ≡ out.old.items ++ table_line (types_of types.entry) table offset) }
{
    out.extend_from_slice(b"  vftable")?;
    put_offset(out, offset)?;
    put_type_behind(out, types, table)
}

/// The line of a data member.
#[tactic(auto, unfolding(crate::specs::MemberTexts::data_line))]
fn put_data_member(
    out: &mut Vec<u8>,
    types: Types<'_, '_>,
    attributes: FieldAttributes,
    index: TypeIndex,
    offset: Variant,
    name: &[u8],
) -> Result<(), AllocError>
    ensures { OnOk result (out.new.items ≡ out.old.items ++ data_line (types_of types.entry) attributes index offset name.now) }
{
    put_word_and_number(out, b"  member offset=", offset)?;
    put_bit(out, bit_position(types.items, index))?;
    put_access(out, attributes)?;
    put_named_type(out, types, name, index)
}

/// The value of an enumerator, as a number of this underlying type.
fn put_value(
    out: &mut Vec<u8>,
    types: Types<'_, '_>,
    underlying: TypeIndex,
    value: Variant,
) -> Result<(), AllocError>
    ensures { OnOk result (out.new.items ≡ out.old.items ++ signed_decimal (enumerator_number (types_of types.entry).items underlying.0 (value_of value))) }
{
    match enumerator_value(types.items, underlying, value) {
        EnumeratorValue::Signed(number) => put_wide(out, number),
        EnumeratorValue::Unsigned(number) => put_unsigned(out, number),
    }
}

/// A word, and the value of an enumerator.
#[tactic(auto, unfolding(crate::specs::MemberTexts::numbered))]
fn put_word_and_value(
    out: &mut Vec<u8>,
    word: &[u8],
    types: Types<'_, '_>,
    underlying: TypeIndex,
    value: Variant,
) -> Result<(), AllocError>
    ensures { OnOk result (out.new.items ≡ out.old.items ++ numbered word.now (signed_decimal (enumerator_number (types_of types.entry).items underlying.0 (value_of value)))) }
{
    out.extend_from_slice(word)?;
    put_value(out, types, underlying, value)
}

/// The line of a value of an enumeration with this underlying type.
#[tactic(auto, unfolding(crate::specs::MemberTexts::enumerator_line))]
fn put_enumerator(
    out: &mut Vec<u8>,
    types: Types<'_, '_>,
    underlying: TypeIndex,
    value: Variant,
    name: &[u8],
) -> Result<(), AllocError>
    ensures { OnOk result (out.new.items ≡ out.old.items ++ enumerator_line (types_of types.entry) underlying value name.now) }
{
    put_word_and_value(out, b"  enumerator value=", types, underlying, value)?;
    out.push(b' ')?;
    put_one_line(out, name)?;
    put_line_end(out)
}

/// The line of a static data member.
fn put_static(
    out: &mut Vec<u8>,
    types: Types<'_, '_>,
    attributes: FieldAttributes,
    index: TypeIndex,
    name: &[u8],
) -> Result<(), AllocError>
    ensures { OnOk result (out.new.items ≡ out.old.items ++ (codes "  static" ++ (access_text attributes ++ named_type (types_of types.entry) name.now index))) }
{
    out.extend_from_slice(b"  static")?;
    put_access(out, attributes)?;
    put_named_type(out, types, name, index)
}

/// The line of a member function.
fn put_method(
    out: &mut Vec<u8>,
    types: Types<'_, '_>,
    attributes: FieldAttributes,
    entry: Option<u32>,
    name: &[u8],
    index: TypeIndex,
) -> Result<(), AllocError>
    ensures { OnOk result (out.new.items ≡ out.old.items ++ method_line (types_of types.entry) attributes entry name.now index) }
{
    out.extend_from_slice(b"  method")?;
    put_method_kind(out, attributes)?;
    put_entry(out, entry)?;
    put_access(out, attributes)?;
    put_named_type(out, types, name, index)
}

/// The line of a function's name whose list isn't there, or isn't whole.
fn put_unread_method(out: &mut Vec<u8>, name: &[u8]) -> Result<(), AllocError>
    ensures { OnOk result (out.new.items ≡ out.old.items ++ unread_method name.now) }
{
    out.extend_from_slice(b"  method ")?;
    put_one_line(out, name)?;
    put_line_end(out)
}

/// The lines of the functions of a name that an iterator has left.
fn put_overloads_left(
    out: &mut Vec<u8>,
    types: Types<'_, '_>,
    name: &[u8],
    mut methods: OverloadIter<'_>,
) -> Result<(), AllocError>
    ensures { OnOk result (out.new.items ≡ out.old.items ++ overloads_left_text (types_of types.entry) name.now (overloads_left methods.entry)) }
{
    loop {
        match methods.next() {
            Ok(Some(m)) => put_method(
                out,
                types,
                m.attributes,
                m.vtable_offset,
                name,
                m.method_type,
            )?,
            Ok(None) => return Ok(()),
            Err(_) => return put_unread_method(out, name),
        }
    }
}

/// The lines of the functions of a name.
fn put_overloads(
    out: &mut Vec<u8>,
    types: Types<'_, '_>,
    list: TypeIndex,
    name: &[u8],
) -> Result<(), AllocError>
    ensures { OnOk result (out.new.items ≡ out.old.items ++ overloads_text (types_of types.entry) name.now (overloads_of (types_of types.entry).items list.0)) }
{
    match OverloadIter::new(types.items, list) {
        Ok(methods) => put_overloads_left(out, types, name, methods),
        Err(_) => put_unread_method(out, name),
    }
}

/// A word, and what has a name and a type.
fn put_word_and_named(
    out: &mut Vec<u8>,
    types: Types<'_, '_>,
    word: &[u8],
    name: &[u8],
    index: TypeIndex,
) -> Result<(), AllocError>
    ensures { OnOk result (out.new.items ≡ out.old.items ++ (word.now ++ named_type (types_of types.entry) name.now index)) }
{
    out.extend_from_slice(word)?;
    put_named_type(out, types, name, index)
}

/// The lines of a member that is a function, a friend, a type or a pointer to a table.
fn put_other(out: &mut Vec<u8>, types: Types<'_, '_>, member: &Member<'_>) -> Result<(), AllocError>
    ensures { OnOk result (out.new.items ≡ out.old.items ++ other_line (types_of types.entry) (shown_member member.now)) }
{
    match *member {
        Member::VirtualTablePointer { table } => put_typed_word(out, types, b"vftable", table),
        Member::VirtualTableOffset { table, offset } => put_table_offset(out, types, table, offset),
        Member::FriendClass { class_type } => put_typed_word(out, types, b"friend", class_type),
        Member::FriendFunction { function, name } => {
            put_word_and_named(out, types, b"  friend", name, function)
        }
        Member::Method {
            method_list,
            name,
            ..
        } => put_overloads(out, types, method_list, name),
        Member::Nested { nested_type, name } => {
            put_word_and_named(out, types, b"  nested", name, nested_type)
        }
        Member::OneMethod {
            attributes,
            method_type,
            vtable_offset,
            name,
        } => put_method(out, types, attributes, vtable_offset, name, method_type),
        _ => Ok(()),
    }
}

/// The lines of a member. The values of enumerators are numbers of an underlying type.
fn put_member(
    out: &mut Vec<u8>,
    types: Types<'_, '_>,
    underlying: TypeIndex,
    member: &Member<'_>,
) -> Result<(), AllocError>
    ensures { OnOk result (out.new.items ≡ out.old.items ++ member_line (types_of types.entry) underlying (shown_member member.now)) }
{
    match *member {
        Member::BaseClass {
            attributes,
            base_type,
            offset,
        } => put_base(out, types, attributes, base_type, offset),
        Member::VirtualBaseClass {
            direct,
            attributes,
            base_type,
            base_pointer_offset: pointer,
            base_offset: entry,
        } => put_virtual_base(out, types, direct, attributes, base_type, pointer, entry),
        Member::Enumerate { value, name, .. } => put_enumerator(
            out, types, underlying, value, name,
        ),
        Member::Member {
            attributes,
            field_type,
            offset,
            name,
        } => put_data_member(out, types, attributes, field_type, offset, name),
        Member::StaticMember {
            attributes,
            field_type,
            name,
        } => put_static(out, types, attributes, field_type, name),
        Member::More => out.extend_from_slice(b"  <...>\n"),
        Member::Endless => {
            put_mark(out)?;
            out.extend_from_slice(ENDLESS)
        }
        _ => put_other(out, types, member),
    }
}

/// The lines of the members of a list, and then that of its fault. The values of enumerators are numbers of an
/// underlying type.
pub fn put_members(
    out: &mut Vec<u8>,
    types: Types<'_, '_>,
    underlying: TypeIndex,
    list: TypeIndex,
) -> Result<(), AllocError>
    ensures { OnOk result (out.new.items ≡ out.old.items ++ members_text (types_of types.entry) underlying (members_of (types_of types.entry).items list.0)) }
{
    let mut members = MemberIter::new(types.items, list);
    loop {
        match members.next() {
            Ok(Some(member)) => put_member(out, types, underlying, &member)?,
            Ok(None) => return Ok(()),
            Err(e) => {
                out.extend_from_slice(b"  ")?;
                return put_error_line(out, e);
            }
        }
    }
}

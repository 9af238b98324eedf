//! The members of types, many types at once.

ghost use Rattle.std.specs.Prelude.{◌≡◌, ◌≤◌, ◌<◌, ◌++◌, [], ◌∷◌, length, map, Some, None, OnOk, IfOk};
ghost use Rattle.std.specs.Option.{option_map};
ghost use Rattle.pdb.specs.Error.{Error};
ghost use Rattle.pdb_items.specs.Items.{item_with, known_items_in};
ghost use Rattle.pdb_types.specs.DefinitionViews.{type_number};
ghost use Rattle.pdb_types.specs.Enumerators.{bit_position_in, enumerator_number};
ghost use Rattle.pdb_types.specs.FullTypes.{tag_in};
ghost use Rattle.pdb_types.specs.MemberListViews.{members_left};
ghost use Rattle.pdb_types.specs.MemberViews.{shown_member};
ghost use Rattle.pdb_types.specs.OverloadViews.{overloads_left};
ghost use Rattle.pdb_types.specs.Overloads.{overloads_of};
ghost use Rattle.pdb_types.specs.TypeReading.{shown_tag, shown_type};
ghost use Rattle.pdb_types.specs.TypeRows.{value_of};
ghost use Rattle.pdb_c.specs.MemberRows.{AreMembers, MembersTold, error_rows, in_bits, low_half, member_rows, method_row, method_rows, other_rows, overload_rows, plain_row, rows_by, rows_left, rows_of_full, rows_of_type, rows_of_types, seen, underlying_of, virtual_form, with_bit, with_entry};

use crate::answers::{LARGE, OUT_OF_MEMORY, code_of, room_code};
use crate::member_numbers::{
    high_half, in_bits, low_half, table_offset, value_in_bits, virtual_form,
};
use crate::rooms::put_rows;
use crate::types::{Types, tag_in};
use pdb::{Error, FallibleIterator, TypeIndex, Variant};
use pdb_types::{
    FieldAttributes, Member, MemberIter, MethodListEntry, OverloadIter, Tag, TypeData, bit_position,
};
use std::alloc::{AllocError, Global};

/// A member of a type, or why the members behind it can't be read.
#[repr(C)]
#[derive(Clone, Copy)]
pub struct PdbMember<'a> {
    /// Its name; empty where it has none.
    pub name: &'a [u8],
    /// The low 64 bits of an enumerator's value, or an offset in bytes: of a member in the object, of a virtual
    /// function in its table.
    pub value: u64,
    /// The high 64 bits: a negative number is in two's complement.
    pub value_high: u64,
    /// Of a virtual base class: its entry in the table of virtual base classes.
    pub entry: u64,
    /// Which of the indices it belongs to, counted from 0.
    pub owner: usize,
    /// Its type, or 0.
    pub type_index: u32,
    /// `CV_fldattr_t` of `cvinfo.h`, or 0.
    pub attributes: u16,
    /// What it is: 1 to 14, or 0 where the list has an error here.
    pub form: u8,
    /// 0, or the error's number.
    pub refused: u8,
    /// 1 where it has a value.
    pub has_value: u8,
    /// 1 where it is a bit field.
    pub has_bit: u8,
    /// The first bit of a bit field.
    pub bit: u8,
}

/// The row of a member of this form, without an entry, a bit and an error.
fn plain_row<'a>(
    owner: usize,
    form: u8,
    name: &'a [u8],
    type_index: TypeIndex,
    attributes: FieldAttributes,
    value: Option<u128>,
) -> PdbMember<'a>
    ensures { seen result ≡ plain_row owner form name.entry.now type_index.0 attributes.0 value }
{
    let (bits, has_value) = match value {
        Some(bits) => (bits, 1),
        None => (0, 0),
    };
    PdbMember {
        name,
        value: low_half(bits),
        value_high: high_half(bits),
        entry: 0,
        owner,
        type_index: type_index.0,
        attributes: attributes.0,
        form,
        refused: 0,
        has_value,
        has_bit: 0,
        bit: 0,
    }
}

/// The row of a member that has a type, and neither attributes nor a value.
fn typed_row<'a>(owner: usize, form: u8, name: &'a [u8], type_index: TypeIndex) -> PdbMember<'a>
    ensures { seen result ≡ plain_row owner form name.entry.now type_index.0 0 None }
{
    plain_row(owner, form, name, type_index, FieldAttributes(0), None)
}

/// The row of a pointer to a table of virtual functions at an offset.
fn table_row<'a>(owner: usize, table: TypeIndex, offset: i32) -> PdbMember<'a>
    ensures { seen result ≡ plain_row owner 5 [] table.0 0 (Some (in_bits offset)) }
{
    let bits = i128::from(offset).cast_unsigned();
    plain_row(owner, 5, &[], table, FieldAttributes(0), Some(bits))
}

/// The same row with an entry of a table.
fn with_entry(row: PdbMember<'_>, bits: u128) -> PdbMember<'_>
    ensures { seen result ≡ with_entry bits (seen row.entry) }
{
    PdbMember {
        entry: low_half(bits),
        ..row
    }
}

/// The same row with the first bit of a bit field.
fn with_bit(row: PdbMember<'_>, position: Option<u8>) -> PdbMember<'_>
    ensures { seen result ≡ with_bit position (seen row.entry) }
{
    let (bit, has_bit) = match position {
        Some(bit) => (bit, 1),
        None => (0, 0),
    };
    PdbMember {
        bit,
        has_bit,
        ..row
    }
}

/// The row of an error.
fn error_row<'a>(owner: usize, error: Error) -> PdbMember<'a>
    ensures { error_rows owner (Some error) ≡ seen result ∷ [] }
{
    let row = typed_row(owner, 0, &[], TypeIndex(0));
    PdbMember {
        refused: error.number(),
        ..row
    }
}

/// The row of a member function.
fn method_row<'a>(owner: usize, name: &'a [u8], method: &MethodListEntry) -> PdbMember<'a>
    ensures { seen result ≡ method_row owner name.entry.now method.now }
{
    plain_row(
        owner,
        11,
        name,
        method.method_type,
        method.attributes,
        table_offset(method.vtable_offset),
    )
}

/// Adds a row.
fn add<'a>(rows: &mut Vec<PdbMember<'a>>, row: PdbMember<'a>) -> Result<(), AllocError>
    ensures { OnOk result (map seen rows.new.items ≡ map seen rows.old.items ++ seen row.entry ∷ []) }
{
    rows.push(row)?;
    Ok(())
}

/// Adds the name of functions whose list has an error.
fn add_unread<'a>(
    rows: &mut Vec<PdbMember<'a>>,
    owner: usize,
    name: &'a [u8],
) -> Result<(), AllocError>
    ensures { OnOk result (map seen rows.new.items ≡ map seen rows.old.items ++ plain_row owner 12 name.entry.now 0 0 None ∷ []) }
{
    add(rows, typed_row(owner, 12, name, TypeIndex(0)))
}

/// Adds the functions of one name that an iterator has left.
fn add_overloads<'a>(
    rows: &mut Vec<PdbMember<'a>>,
    owner: usize,
    name: &'a [u8],
    mut methods: OverloadIter<'_>,
) -> Result<(), AllocError>
    ensures { OnOk result (map seen rows.new.items ≡ map seen rows.old.items ++ overload_rows owner name.entry.now (overloads_left methods.entry)) }
{
    loop {
        match methods.next() {
            Ok(Some(method)) => add(rows, method_row(owner, name, &method))?,
            Ok(None) => return Ok(()),
            Err(_) => return add_unread(rows, owner, name),
        }
    }
}

/// Adds the functions of one name.
fn add_methods<'a>(
    rows: &mut Vec<PdbMember<'a>>,
    types: &Types<'a>,
    owner: usize,
    name: &'a [u8],
    list: TypeIndex,
) -> Result<(), AllocError>
    ensures { OnOk result (map seen rows.new.items ≡ map seen rows.old.items ++ method_rows owner name.entry.now (overloads_of types.now.items list.0)) }
{
    match OverloadIter::new(&types.items, list) {
        Ok(methods) => add_overloads(rows, owner, name, methods),
        Err(_) => add_unread(rows, owner, name),
    }
}

/// Adds the rows of a member that has no number of its own.
fn add_other<'a>(
    rows: &mut Vec<PdbMember<'a>>,
    types: &Types<'a>,
    owner: usize,
    member: &Member<'a>,
) -> Result<(), AllocError>
    ensures { OnOk result (map seen rows.new.items ≡ map seen rows.old.items ++ other_rows types.now.items owner (shown_member member.now)) }
{
    match *member {
        Member::VirtualTablePointer { table } => add(rows, typed_row(owner, 4, &[], table)),
        Member::FriendClass { class_type } => add(rows, typed_row(owner, 6, &[], class_type)),
        Member::FriendFunction { function, name } => add(rows, typed_row(owner, 7, name, function)),
        Member::StaticMember {
            attributes,
            field_type,
            name,
        } => add(
            rows,
            plain_row(owner, 10, name, field_type, attributes, None),
        ),
        Member::Method {
            method_list,
            name,
            ..
        } => add_methods(rows, types, owner, name, method_list),
        Member::Nested { nested_type, name } => add(rows, typed_row(owner, 13, name, nested_type)),
        Member::OneMethod {
            attributes,
            method_type,
            vtable_offset,
            name,
        } => {
            let offset = table_offset(vtable_offset);
            add(
                rows,
                plain_row(owner, 11, name, method_type, attributes, offset),
            )
        }
        Member::More => add(rows, typed_row(owner, 14, &[], TypeIndex(0))),
        Member::Endless => add(rows, typed_row(owner, 15, &[], TypeIndex(0))),
        _ => Ok(()),
    }
}

/// The row of a virtual base class.
fn virtual_row<'a>(
    owner: usize,
    direct: bool,
    attributes: FieldAttributes,
    base_type: TypeIndex,
    offset: Variant,
    entry: Variant,
) -> PdbMember<'a>
    ensures { seen result ≡ with_entry (in_bits (value_of entry)) (plain_row owner (virtual_form direct) [] base_type.0 attributes.0 (Some (in_bits (value_of offset)))) }
{
    let form = virtual_form(direct);
    let row = plain_row(
        owner,
        form,
        &[],
        base_type,
        attributes,
        Some(in_bits(offset)),
    );
    with_entry(row, in_bits(entry))
}

/// The row of a data member.
fn data_row<'a>(
    types: &Types<'a>,
    owner: usize,
    attributes: FieldAttributes,
    field_type: TypeIndex,
    offset: Variant,
    name: &'a [u8],
) -> PdbMember<'a>
    ensures { seen result ≡ with_bit (bit_position_in (item_with types.now.items field_type.0)) (plain_row owner 9 name.entry.now field_type.0 attributes.0 (Some (in_bits (value_of offset)))) }
{
    let row = plain_row(
        owner,
        9,
        name,
        field_type,
        attributes,
        Some(in_bits(offset)),
    );
    with_bit(row, bit_position(&types.items, field_type))
}

/// The row of an enumerator, as a number of the underlying type.
fn enumerator_row<'a>(
    types: &Types<'a>,
    owner: usize,
    underlying: TypeIndex,
    attributes: FieldAttributes,
    value: Variant,
    name: &'a [u8],
) -> PdbMember<'a>
    ensures { seen result ≡ plain_row owner 8 name.entry.now 0 attributes.0 (Some (in_bits (enumerator_number types.now.items underlying.0 (value_of value)))) }
{
    let bits = value_in_bits(types, underlying, value);
    plain_row(owner, 8, name, TypeIndex(0), attributes, Some(bits))
}

/// Adds the rows of a member.
fn add_member<'a>(
    rows: &mut Vec<PdbMember<'a>>,
    types: &Types<'a>,
    owner: usize,
    underlying: TypeIndex,
    member: &Member<'a>,
) -> Result<(), AllocError>
    ensures { OnOk result (map seen rows.new.items ≡ map seen rows.old.items ++ member_rows types.now.items owner underlying.0 (shown_member member.now)) }
{
    match *member {
        Member::BaseClass {
            attributes: a,
            base_type,
            offset,
        } => add(
            rows,
            plain_row(owner, 1, &[], base_type, a, Some(in_bits(offset))),
        ),
        Member::VirtualBaseClass {
            direct,
            attributes: a,
            base_type,
            base_pointer_offset: pointer,
            base_offset: entry,
        } => add(
            rows,
            virtual_row(owner, direct, a, base_type, pointer, entry),
        ),
        Member::VirtualTableOffset { table, offset } => {
            add(rows, table_row(owner, table, offset))
        }
        Member::Enumerate {
            attributes: a,
            value,
            name,
        } => add(
            rows,
            enumerator_row(types, owner, underlying, a, value, name),
        ),
        Member::Member {
            attributes: a,
            field_type,
            offset,
            name,
        } => add(rows, data_row(types, owner, a, field_type, offset, name)),
        _ => add_other(rows, types, owner, member),
    }
}

/// Adds the members that an iterator has left, and then its error.
fn add_left<'a>(
    rows: &mut Vec<PdbMember<'a>>,
    types: &Types<'a>,
    owner: usize,
    underlying: TypeIndex,
    mut members: MemberIter<'_, 'a>,
) -> Result<(), AllocError>
    ensures { OnOk result (map seen rows.new.items ≡ map seen rows.old.items ++ rows_left types.now.items owner underlying.0 (members_left members.entry)) }
{
    loop {
        match members.next() {
            Ok(Some(member)) => add_member(rows, types, owner, underlying, &member)?,
            Ok(None) => return Ok(()),
            Err(e) => return add(rows, error_row(owner, e)),
        }
    }
}

/// The type that the values of an enumeration have; index 0 of what is no enumeration.
fn underlying_of(says: &Option<TypeData<'_>>) -> TypeIndex
    ensures { result.0 ≡ underlying_of (option_map shown_type says.now) }
{
    match says {
        Some(TypeData::Enumeration(enumeration)) => enumeration.underlying,
        _ => TypeIndex(0),
    }
}

/// Adds the members of what has this tag.
fn add_by<'a>(
    rows: &mut Vec<PdbMember<'a>>,
    types: &Types<'a>,
    owner: usize,
    underlying: TypeIndex,
    tag: Option<Tag<'a>>,
) -> Result<(), AllocError>
    ensures { OnOk result (map seen rows.new.items ≡ map seen rows.old.items ++ rows_by types.now.items owner underlying.0 (option_map shown_tag tag.entry)) }
{
    match tag {
        Some(tag) => {
            let members = MemberIter::new(&types.items, tag.fields);
            add_left(rows, types, owner, underlying, members)
        }
        None => Ok(()),
    }
}

/// Adds the members of a full definition.
fn add_full<'a>(
    rows: &mut Vec<PdbMember<'a>>,
    types: &Types<'a>,
    owner: usize,
    full: Option<TypeIndex>,
) -> Result<(), AllocError>
    ensures { OnOk result (map seen rows.new.items ≡ map seen rows.old.items ++ rows_of_full types.now.items owner (option_map type_number full)) }
{
    match full {
        Some(full) => {
            let says = types.says(full);
            let underlying = underlying_of(&says);
            add_by(rows, types, owner, underlying, tag_in(says))
        }
        None => Ok(()),
    }
}

/// Adds the members of the type of an index.
#[tactic(auto, unfolding(crate::specs::MemberRows::rows_of_type))]
fn add_type<'a>(
    rows: &mut Vec<PdbMember<'a>>,
    types: &Types<'a>,
    owner: usize,
    index: u32,
) -> Result<(), AllocError>
    ensures { OnOk result (map seen rows.new.items ≡ map seen rows.old.items ++ rows_of_type types.now.items owner index) }
{
    add_full(rows, types, owner, types.full(index))
}

/// The rows of the members of types, the first of which has the number 0.
fn rows_of_types<'a>(
    alloc: Global,
    types: &Types<'a>,
    indices: &[u32],
) -> Result<Vec<PdbMember<'a>>, AllocError>
    ensures { IfOk result (λ rows. map seen rows.items ≡ rows_of_types types.now.items 0 indices.now) }
{
    let mut rows = Vec::new(alloc);
    for (owner, index) in indices.iter().enumerate() {
        add_type(&mut rows, types, owner, *index)?;
    }
    Ok(rows)
}

/// Puts rows, and counts them.
fn fill<'a>(rows: &[PdbMember<'a>], records: &mut [PdbMember<'a>], count: &mut usize) -> u32
    ensures { AreMembers (map seen rows.now) result records.old records.new count.new }
{
    *count = rows.len();
    put_rows(rows, records);
    room_code(records.len(), rows.len())
}

/// The members of the types of these indices, one type after the other: as many rows as the buffer has, and how many
/// there are. A type that is only declared has the members of its full definition.
#[unsafe(no_mangle)]
pub extern "C" fn pdb_members<'a>(
    alloc: Global,
    types: &'a [u8],
    indices: &[u32],
    records: &mut [PdbMember<'a>],
    count: &mut usize,
) -> u32
    ensures large { 4294967295 ≤ length types.now → (result ≡ 32) × (records.new ≡ records.old) × (count.new ≡ 0) }
    ensures listed { length types.now < 4294967295 → MembersTold indices.now result records.old records.new count.new (known_items_in types.now) }
{
    *count = 0;
    if types.len() >= 4294967295 {
        return LARGE;
    }
    match Types::new(alloc, types) {
        Ok(types) => match rows_of_types(alloc, &types, indices) {
            Ok(rows) => fill(&rows, records, count),
            Err(_) => OUT_OF_MEMORY,
        },
        Err(e) => code_of(e),
    }
}

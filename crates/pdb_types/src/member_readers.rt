//! How the entries of lists of members are read.

ghost use Rattle.std.specs.Prelude.{◌≡◌, ◌+◌, ◌≤◌, ◌<◌, length, IfOk};
ghost use Rattle.std.specs.Option.{option_map};
ghost use Rattle.pdb_base.specs.Cursor.{Reads};
ghost use Rattle.pdb_base.specs.Refusal.{Answers};
ghost use Rattle.pdb_base.specs.Layouts.{ReadsPart, cstring, given, number};
ghost use Rattle.pdb_types.specs.MemberSays.{with_sign};
ghost use Rattle.pdb_types.specs.MemberRows.{attributes, base_places, entry_at, fields_at, fields_width, form_at, form_width, head, member_form_of, padding_at, place_and_name, signed_variant, variant_and_name};
ghost use Rattle.pdb_types.specs.MemberRows.MemberForm.{BaseForm, DirectBaseForm, IndirectBaseForm, GoesOnForm, TablePointerForm, TableOffsetForm, FriendClassForm, FriendFunctionForm, EnumerateForm, DataForm, StaticForm, OverloadsForm, NestedForm, MethodForm};
ghost use Rattle.pdb_types.specs.MemberLists.{member_in, named_by};
ghost use Rattle.pdb_types.specs.MemberViews.{shown_entry, shown_found, shown_member};

use crate::members::{FieldAttributes, Member};
use crate::readers::parse_type_index;
use pdb_base::little_endian::u8_at;
use pdb_base::{Error, Feature, ParseBuffer, Result, Steps, TypeIndex, Variant};

// An entry of a list: a member, or the list with which the list goes on.
#[derive(Clone, Copy)]
pub(crate) enum Entry<'t> {
    Member(Member<'t>),
    GoesOn(TypeIndex),
}

impl<'t> Entry<'t> {
    // The member, if it is one.
    pub(crate) fn member(self) -> Option<Member<'t>>
        ensures { option_map shown_member result ≡ member_in (shown_entry self.entry) }
    {
        match self {
            Entry::Member(member) => Some(member),
            Entry::GoesOn(_) => None,
        }
    }

    // The list that the entry names, or one that was named before it.
    pub(crate) fn named_behind(self, list: Option<u32>) -> Option<u32>
        ensures { result ≡ named_by list (shown_entry self.entry) }
    {
        match self {
            Entry::Member(_) => list,
            Entry::GoesOn(next) => Some(next.0),
        }
    }
}

// An entry, and where it ends.
#[derive(Clone, Copy)]
pub(crate) struct Found<'t> {
    pub entry: Entry<'t>,
    pub end: usize,
}

// A number with its sign.
fn with_sign(number: Variant) -> Variant
    ensures { result ≡ with_sign number }
{
    match number {
        Variant::U8(n) => Variant::I8(n.cast_signed()),
        _ => number,
    }
}

// A numeric leaf, with its sign.
fn parse_variant(buffer: &mut ParseBuffer<'_>) -> Result<Variant>
    ensures { ReadsPart (λ x. x) signed_variant 0 buffer.old buffer.new result }
{
    let number = Variant::parse(buffer)?;
    Ok(with_sign(number))
}

fn parse_attributes(buffer: &mut ParseBuffer<'_>) -> Result<FieldAttributes>
    ensures { ReadsPart (λ x. x) attributes 0 buffer.old buffer.new result }
{
    Ok(FieldAttributes(buffer.parse_u16()?))
}

// The bytes of a name.
fn parse_name<'t>(buffer: &mut ParseBuffer<'t>) -> Result<&'t [u8]>
    ensures { ReadsPart (λ s. s.now) cstring 0 buffer.old buffer.new result }
{
    let name = buffer.parse_cstring()?;
    Ok(name.as_bytes())
}

// Attributes, and the index of a type.
#[tactic(auto, unfolding(pdb_base::specs::Layouts::together_at))]
fn parse_head(buffer: &mut ParseBuffer<'_>) -> Result<(FieldAttributes, TypeIndex)>
    ensures { ReadsPart (λ x. x) head 0 buffer.old buffer.new result }
{
    let attributes = parse_attributes(buffer)?;
    let index = parse_type_index(buffer)?;
    Ok((attributes, index))
}

// Where a virtual base class is found.
#[tactic(auto, unfolding(pdb_base::specs::Layouts::together_at))]
fn parse_base_places<'t>(buffer: &mut ParseBuffer<'t>) -> Result<(&'t [u8], (Variant, Variant))>
    ensures { ReadsPart (λ x. (x.0.now, x.1)) base_places 0 buffer.old buffer.new result }
{
    let pointer = buffer.take(4)?;
    let offset = parse_variant(buffer)?;
    let entry = parse_variant(buffer)?;
    Ok((pointer, (offset, entry)))
}

#[tactic(auto, unfolding(pdb_base::specs::Layouts::together_at))]
fn parse_variant_and_name<'t>(buffer: &mut ParseBuffer<'t>) -> Result<(Variant, &'t [u8])>
    ensures { ReadsPart (λ x. (x.0, x.1.now)) variant_and_name 0 buffer.old buffer.new result }
{
    let number = parse_variant(buffer)?;
    let name = parse_name(buffer)?;
    Ok((number, name))
}

// The offset in the table of virtual functions, where the function is introduced.
fn parse_place(buffer: &mut ParseBuffer<'_>, is_introduced: bool) -> Result<Option<u32>>
    ensures { ReadsPart (λ x. x) (given is_introduced (number 4)) 0 buffer.old buffer.new result }
{
    if is_introduced {
        Ok(Some(buffer.parse_u32()?))
    } else {
        Ok(None)
    }
}

#[tactic(auto, unfolding(pdb_base::specs::Layouts::together_at))]
fn parse_place_and_name<'t>(
    buffer: &mut ParseBuffer<'t>,
    attributes: FieldAttributes,
) -> Result<(Option<u32>, &'t [u8])>
    ensures { ReadsPart (λ x. (x.0, x.1.now)) (place_and_name attributes) 0 buffer.old buffer.new result }
{
    let place = parse_place(buffer, attributes.is_intro_virtual())?;
    let name = parse_name(buffer)?;
    Ok((place, name))
}

#[tactic(auto, unfolding(crate::specs::MemberRows::form_at, crate::specs::MemberRows::form_width))]
fn parse_base<'t>(buffer: &mut ParseBuffer<'t>) -> Result<Entry<'t>>
    ensures { Reads shown_entry buffer.old buffer.new result (form_at BaseForm buffer.old.bytes buffer.old.place) (λ _. form_width BaseForm buffer.old.bytes buffer.old.place) }
{
    let (attributes, index) = parse_head(buffer)?;
    let offset = parse_variant(buffer)?;
    Ok(Entry::Member(Member::BaseClass {
        attributes,
        base_type: index,
        offset,
    }))
}

#[tactic(auto, unfolding(crate::specs::MemberRows::form_at, crate::specs::MemberRows::form_width))]
fn parse_direct_base<'t>(buffer: &mut ParseBuffer<'t>) -> Result<Entry<'t>>
    ensures { Reads shown_entry buffer.old buffer.new result (form_at DirectBaseForm buffer.old.bytes buffer.old.place) (λ _. form_width DirectBaseForm buffer.old.bytes buffer.old.place) }
{
    let (attributes, index) = parse_head(buffer)?;
    let (_pointer, (offset, entry)) = parse_base_places(buffer)?;
    Ok(Entry::Member(Member::VirtualBaseClass {
        direct: true,
        attributes,
        base_type: index,
        base_pointer_offset: offset,
        base_offset: entry,
    }))
}

#[tactic(auto, unfolding(crate::specs::MemberRows::form_at, crate::specs::MemberRows::form_width))]
fn parse_indirect_base<'t>(buffer: &mut ParseBuffer<'t>) -> Result<Entry<'t>>
    ensures { Reads shown_entry buffer.old buffer.new result (form_at IndirectBaseForm buffer.old.bytes buffer.old.place) (λ _. form_width IndirectBaseForm buffer.old.bytes buffer.old.place) }
{
    let (attributes, index) = parse_head(buffer)?;
    let (_pointer, (offset, entry)) = parse_base_places(buffer)?;
    Ok(Entry::Member(Member::VirtualBaseClass {
        direct: false,
        attributes,
        base_type: index,
        base_pointer_offset: offset,
        base_offset: entry,
    }))
}

#[tactic(auto, unfolding(crate::specs::MemberRows::form_at, crate::specs::MemberRows::form_width))]
fn parse_goes_on<'t>(buffer: &mut ParseBuffer<'t>) -> Result<Entry<'t>>
    ensures { Reads shown_entry buffer.old buffer.new result (form_at GoesOnForm buffer.old.bytes buffer.old.place) (λ _. form_width GoesOnForm buffer.old.bytes buffer.old.place) }
{
    let (_unused, list) = parse_head(buffer)?;
    Ok(Entry::GoesOn(list))
}

#[tactic(auto, unfolding(crate::specs::MemberRows::form_at, crate::specs::MemberRows::form_width))]
fn parse_table_pointer<'t>(buffer: &mut ParseBuffer<'t>) -> Result<Entry<'t>>
    ensures { Reads shown_entry buffer.old buffer.new result (form_at TablePointerForm buffer.old.bytes buffer.old.place) (λ _. form_width TablePointerForm buffer.old.bytes buffer.old.place) }
{
    let (_unused, table) = parse_head(buffer)?;
    Ok(Entry::Member(Member::VirtualTablePointer { table }))
}

#[tactic(auto, unfolding(crate::specs::MemberRows::form_at, crate::specs::MemberRows::form_width))]
fn parse_table_offset<'t>(buffer: &mut ParseBuffer<'t>) -> Result<Entry<'t>>
    ensures { Reads shown_entry buffer.old buffer.new result (form_at TableOffsetForm buffer.old.bytes buffer.old.place) (λ _. form_width TableOffsetForm buffer.old.bytes buffer.old.place) }
{
    let (_unused, table) = parse_head(buffer)?;
    let offset = buffer.parse_i32()?;
    Ok(Entry::Member(Member::VirtualTableOffset { table, offset }))
}

#[tactic(auto, unfolding(crate::specs::MemberRows::form_at, crate::specs::MemberRows::form_width))]
fn parse_friend_class<'t>(buffer: &mut ParseBuffer<'t>) -> Result<Entry<'t>>
    ensures { Reads shown_entry buffer.old buffer.new result (form_at FriendClassForm buffer.old.bytes buffer.old.place) (λ _. form_width FriendClassForm buffer.old.bytes buffer.old.place) }
{
    let (_unused, class_type) = parse_head(buffer)?;
    Ok(Entry::Member(Member::FriendClass { class_type }))
}

#[tactic(auto, unfolding(crate::specs::MemberRows::form_at, crate::specs::MemberRows::form_width))]
fn parse_friend_function<'t>(buffer: &mut ParseBuffer<'t>) -> Result<Entry<'t>>
    ensures { Reads shown_entry buffer.old buffer.new result (form_at FriendFunctionForm buffer.old.bytes buffer.old.place) (λ _. form_width FriendFunctionForm buffer.old.bytes buffer.old.place) }
{
    let (_unused, function) = parse_head(buffer)?;
    let name = parse_name(buffer)?;
    Ok(Entry::Member(Member::FriendFunction { function, name }))
}

#[tactic(auto, unfolding(crate::specs::MemberRows::form_at, crate::specs::MemberRows::form_width))]
fn parse_enumerate<'t>(buffer: &mut ParseBuffer<'t>) -> Result<Entry<'t>>
    ensures { Reads shown_entry buffer.old buffer.new result (form_at EnumerateForm buffer.old.bytes buffer.old.place) (λ _. form_width EnumerateForm buffer.old.bytes buffer.old.place) }
{
    let attributes = parse_attributes(buffer)?;
    let (value, name) = parse_variant_and_name(buffer)?;
    Ok(Entry::Member(Member::Enumerate {
        attributes,
        value,
        name,
    }))
}

#[tactic(auto, unfolding(crate::specs::MemberRows::form_at, crate::specs::MemberRows::form_width))]
fn parse_data<'t>(buffer: &mut ParseBuffer<'t>) -> Result<Entry<'t>>
    ensures { Reads shown_entry buffer.old buffer.new result (form_at DataForm buffer.old.bytes buffer.old.place) (λ _. form_width DataForm buffer.old.bytes buffer.old.place) }
{
    let (attributes, index) = parse_head(buffer)?;
    let (offset, name) = parse_variant_and_name(buffer)?;
    Ok(Entry::Member(Member::Member {
        attributes,
        field_type: index,
        offset,
        name,
    }))
}

#[tactic(auto, unfolding(crate::specs::MemberRows::form_at, crate::specs::MemberRows::form_width))]
fn parse_static<'t>(buffer: &mut ParseBuffer<'t>) -> Result<Entry<'t>>
    ensures { Reads shown_entry buffer.old buffer.new result (form_at StaticForm buffer.old.bytes buffer.old.place) (λ _. form_width StaticForm buffer.old.bytes buffer.old.place) }
{
    let (attributes, index) = parse_head(buffer)?;
    let name = parse_name(buffer)?;
    Ok(Entry::Member(Member::StaticMember {
        attributes,
        field_type: index,
        name,
    }))
}

#[tactic(auto, unfolding(crate::specs::MemberRows::form_at, crate::specs::MemberRows::form_width))]
fn parse_overloads<'t>(buffer: &mut ParseBuffer<'t>) -> Result<Entry<'t>>
    ensures { Reads shown_entry buffer.old buffer.new result (form_at OverloadsForm buffer.old.bytes buffer.old.place) (λ _. form_width OverloadsForm buffer.old.bytes buffer.old.place) }
{
    let (count, method_list) = parse_head(buffer)?;
    let name = parse_name(buffer)?;
    Ok(Entry::Member(Member::Method {
        count: count.0,
        method_list,
        name,
    }))
}

#[tactic(auto, unfolding(crate::specs::MemberRows::form_at, crate::specs::MemberRows::form_width))]
fn parse_nested<'t>(buffer: &mut ParseBuffer<'t>) -> Result<Entry<'t>>
    ensures { Reads shown_entry buffer.old buffer.new result (form_at NestedForm buffer.old.bytes buffer.old.place) (λ _. form_width NestedForm buffer.old.bytes buffer.old.place) }
{
    let (_unused, nested_type) = parse_head(buffer)?;
    let name = parse_name(buffer)?;
    Ok(Entry::Member(Member::Nested { nested_type, name }))
}

#[tactic(auto, unfolding(crate::specs::MemberRows::form_at, crate::specs::MemberRows::form_width))]
fn parse_method<'t>(buffer: &mut ParseBuffer<'t>) -> Result<Entry<'t>>
    ensures { Reads shown_entry buffer.old buffer.new result (form_at MethodForm buffer.old.bytes buffer.old.place) (λ _. form_width MethodForm buffer.old.bytes buffer.old.place) }
{
    let (attributes, index) = parse_head(buffer)?;
    let (vtable_offset, name) = parse_place_and_name(buffer, attributes)?;
    Ok(Entry::Member(Member::OneMethod {
        attributes,
        method_type: index,
        vtable_offset,
        name,
    }))
}

// The fields of an entry of a kind.
fn parse_fields<'t>(buffer: &mut ParseBuffer<'t>, kind: u16) -> Result<Entry<'t>>
    ensures { Reads shown_entry buffer.old buffer.new result (fields_at (member_form_of kind) buffer.old.bytes buffer.old.place) (λ _. fields_width (member_form_of kind) buffer.old.bytes buffer.old.place) }
{
    match kind {
        0x1400 | 0x151a => parse_base(buffer),
        0x1401 => parse_direct_base(buffer),
        0x1402 => parse_indirect_base(buffer),
        0x1404 => parse_goes_on(buffer),
        0x1409 => parse_table_pointer(buffer),
        0x140c => parse_table_offset(buffer),
        0x140a => parse_friend_class(buffer),
        0x150c => parse_friend_function(buffer),
        0x1502 => parse_enumerate(buffer),
        0x150d => parse_data(buffer),
        0x150e => parse_static(buffer),
        0x150f => parse_overloads(buffer),
        0x1510 | 0x1512 => parse_nested(buffer),
        0x1511 => parse_method(buffer),
        _ => Err(Error::UnimplementedFeature(Feature::SymbolDataFormat)),
    }
}

// How many bytes of padding stand at an offset.
fn padding_at(bytes: &[u8], at: usize) -> usize
    ensures { result ≡ padding_at bytes.now at }
{
    if at < bytes.len() && u8_at(bytes, at) > 0xf0 {
        usize::from(u8_at(bytes, at) % 16)
    } else {
        0
    }
}

// The entry at an offset, and the padding behind it. To read an entry is one step.
#[tactic(auto, unfolding(crate::specs::MemberRows::entry_at))]
pub(crate) fn read_entry<'t>(bytes: &'t [u8], at: usize, steps: &mut Steps) -> Result<Found<'t>>
    requires { at ≤ length bytes.now }
    ensures reads { Answers shown_found result (entry_at bytes.entry.now at) }
    ensures stepped { steps.new.count ≡ steps.old.count + 1 }
{
    steps.tick();
    let mut buffer = ParseBuffer::from(bytes);
    buffer.seek(at);
    let kind = buffer.parse_u16()?;
    let entry = parse_fields(&mut buffer, kind)?;
    let _padding = buffer.take(padding_at(bytes, buffer.pos()))?;
    Ok(Found {
        entry,
        end: buffer.pos(),
    })
}

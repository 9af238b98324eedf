//! Records of types with tags: classes, unions and enumerations.

ghost use Rattle.std.specs.Prelude.{◌≡◌, ◌≤◌, ◌+◌, length, IfOk};
ghost use Rattle.std.specs.Option.{option_map};
ghost use Rattle.pdb_base.specs.Refusal.{Answers};
ghost use Rattle.pdb_base.specs.Layouts.{ReadsPart};
ghost use Rattle.pdb_base.specs.Text.{name_bytes};
ghost use Rattle.pdb_types.specs.TypeSays.{unique_name_of};
ghost use Rattle.pdb_types.specs.TypeRows.{name_and_rest, read_of_type_form, sized, tag_of};
ghost use Rattle.pdb_types.specs.TypeRows.TypeForm.{ClassForm, UnionForm, EnumerationForm};
ghost use Rattle.pdb_types.specs.TypeReading.{shown_tag, shown_type};

use crate::readers::{parse_numeric, parse_rest};
use crate::type_data::TypeData;
use pdb_base::little_endian::{u16_at, u32_at};
use pdb_base::{ParseBuffer, RawString, Result, TypeIndex};

/// What a class, a union and an enumeration have in common: the property `CV_prop_t` of `cvinfo.h`, the members and
/// the names.
#[derive(Clone, Copy, Debug)]
pub struct Tag<'t> {
    /// The record only declares the type: its members and its size are those of another record.
    pub is_forward: bool,
    /// The record has a unique name.
    pub has_unique_name: bool,
    /// The list of members; index 0 where there is none.
    pub fields: TypeIndex,
    /// The name, as in the program's text.
    pub name: RawString<'t>,
    behind: &'t [u8],
}

/// Tags are equal where all fields and the unique names are. What stands behind a name and is no unique name says nothing.
impl PartialEq for Tag<'_> {
    ghost use Rattle.std.specs.Cmp.Rules.{comparing};
    ghost use Rattle.std.proofs.Common.{rules};
    ghost use Rattle.pdb_types.specs.TagViews.{same_tag};

    ghost eq = { same_tag };

    ghost laws = { Prim.search (comparing, rules) depth 9 };

    fn eq(&self, other: &Self) -> bool {
        self.is_forward == other.is_forward
            && self.has_unique_name == other.has_unique_name
            && self.fields == other.fields
            && self.name == other.name
            && self.unique_name() == other.unique_name()
    }
}

impl Eq for Tag<'_> {
    ghost use Rattle.std.specs.Cmp.Rules.{comparing};
    ghost use Rattle.std.proofs.Common.{rules};

    ghost laws = { Prim.search (comparing, rules) depth 9 };
}

impl<'t> Tag<'t> {
    // The tag by the bytes before the name, among which the list of members stands at an offset.
    fn of(before: &[u8], place: usize, name: RawString<'t>, behind: &'t [u8]) -> Self
        requires property { 4 ≤ length before.now }
        requires fields { place + 4 ≤ length before.now }
        ensures { shown_tag result ≡ tag_of before.now place (name_bytes name.entry) behind.entry.now }
    {
        let property = u16_at(before, 2);
        Tag {
            is_forward: property & 0x80 != 0,
            has_unique_name: property & 0x200 != 0,
            fields: TypeIndex(u32_at(before, place)),
            name,
            behind,
        }
    }

    /// The name that only this type has in the program; none where the record has none, or where no zero byte ends it.
    pub fn unique_name(&self) -> Option<RawString<'t>>
        ensures { option_map name_bytes result ≡ unique_name_of (shown_tag self.now) }
    {
        if self.has_unique_name {
            ParseBuffer::from(self.behind).parse_cstring().ok()
        } else {
            None
        }
    }
}

/// A class, a structure or an interface: `LF_CLASS` (0x1504), `LF_STRUCTURE` (0x1505), `LF_INTERFACE` (0x1519).
#[derive(Clone, Copy, Debug, Eq, PartialEq)]
pub struct Class<'t> {
    /// The size in bytes; 0 where the record only declares the type, and negative only in a damaged file.
    pub size: i128,
    /// The members and the names.
    pub tag: Tag<'t>,
}

/// A union: `LF_UNION` (0x1506).
#[derive(Clone, Copy, Debug, Eq, PartialEq)]
pub struct Union<'t> {
    /// The size in bytes; 0 where the record only declares the type, and negative only in a damaged file.
    pub size: i128,
    /// The members and the names.
    pub tag: Tag<'t>,
}

/// An enumeration: `LF_ENUM` (0x1507).
#[derive(Clone, Copy, Debug, Eq, PartialEq)]
pub struct Enumeration<'t> {
    /// The type of its values.
    pub underlying: TypeIndex,
    /// The members and the names.
    pub tag: Tag<'t>,
}

// So many bytes, and a size.
#[tactic(auto, unfolding(pdb_base::specs::Layouts::together_at))]
fn parse_sized<'t>(buffer: &mut ParseBuffer<'t>, count: usize) -> Result<(&'t [u8], i128)>
    ensures reads { ReadsPart (λ x. (x.0.now, x.1)) (sized count) 0 buffer.old buffer.new result }
    ensures size { IfOk result (λ x. length x.0.now ≡ count) }
{
    let before = buffer.take(count)?;
    let size = parse_numeric(buffer)?;
    Ok((before, size))
}

// A name, and the bytes behind it.
#[tactic(auto, unfolding(pdb_base::specs::Layouts::together_at))]
fn parse_name<'t>(buffer: &mut ParseBuffer<'t>) -> Result<(RawString<'t>, &'t [u8])>
    ensures { ReadsPart (λ x. (name_bytes x.0, x.1.now)) name_and_rest 0 buffer.old buffer.new result }
{
    let name = buffer.parse_cstring()?;
    let behind = parse_rest(buffer)?;
    Ok((name, behind))
}

#[tactic(auto, unfolding(crate::specs::TypeRows::read_of_type_form))]
pub(crate) fn parse_class<'t>(buffer: &mut ParseBuffer<'t>) -> Result<Option<TypeData<'t>>>
    requires { buffer.old.place ≡ 2 }
    ensures { Answers (option_map shown_type) result (read_of_type_form ClassForm buffer.old.bytes) }
{
    let (before, size) = parse_sized(buffer, 16)?;
    let (name, behind) = parse_name(buffer)?;
    Ok(Some(TypeData::Class(Class {
        size,
        tag: Tag::of(before, 4, name, behind),
    })))
}

#[tactic(auto, unfolding(crate::specs::TypeRows::read_of_type_form))]
pub(crate) fn parse_union<'t>(buffer: &mut ParseBuffer<'t>) -> Result<Option<TypeData<'t>>>
    requires { buffer.old.place ≡ 2 }
    ensures { Answers (option_map shown_type) result (read_of_type_form UnionForm buffer.old.bytes) }
{
    let (before, size) = parse_sized(buffer, 8)?;
    let (name, behind) = parse_name(buffer)?;
    Ok(Some(TypeData::Union(Union {
        size,
        tag: Tag::of(before, 4, name, behind),
    })))
}

#[tactic(auto, unfolding(crate::specs::TypeRows::read_of_type_form))]
pub(crate) fn parse_enumeration<'t>(buffer: &mut ParseBuffer<'t>) -> Result<Option<TypeData<'t>>>
    requires { buffer.old.place ≡ 2 }
    ensures { Answers (option_map shown_type) result (read_of_type_form EnumerationForm buffer.old.bytes) }
{
    let before = buffer.take(12)?;
    let (name, behind) = parse_name(buffer)?;
    Ok(Some(TypeData::Enumeration(Enumeration {
        underlying: TypeIndex(u32_at(before, 4)),
        tag: Tag::of(before, 8, name, behind),
    })))
}

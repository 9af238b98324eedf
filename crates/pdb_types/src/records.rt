//! Records of types without tags: the structs, and how they are read.

ghost use Rattle.std.specs.Prelude.{◌≡◌, ◌≤◌, length};
ghost use Rattle.std.specs.Option.{option_map};
ghost use Rattle.pdb_base.specs.Refusal.{Answers};
ghost use Rattle.pdb_base.specs.Layouts.{ReadsPart};
ghost use Rattle.pdb_items.specs.IdForms.{counted_numbers};
ghost use Rattle.pdb_types.specs.TypeFlags.{mode_number};
ghost use Rattle.pdb_types.specs.TypeRows.{attributes_and_mode, function_tail, method_head, mode_part, read_of_type_form};
ghost use Rattle.pdb_types.specs.TypeRows.TypeForm.{ModifierForm, PointerForm, ArrayForm, BitfieldForm, ProcedureForm, MemberFunctionForm, ArgumentListForm, VirtualTableShapeForm, FieldListForm, AliasForm};
ghost use Rattle.pdb_types.specs.TypeReading.{shown_type};

use crate::pointer::{PointerAttributes, PointerMode, Qualifiers};
use crate::readers::{parse_numeric, parse_type_index};
use crate::type_data::TypeData;
use pdb_base::little_endian::u32_at;
use pdb_base::{Error, ParseBuffer, RawString, Result, TypeIndex};

/// Another type with qualifiers: `LF_MODIFIER` (0x1001).
#[derive(Clone, Copy, Debug, Eq, PartialEq)]
pub struct Modifier {
    /// The other type.
    pub underlying: TypeIndex,
    /// Its qualifiers.
    pub qualifiers: Qualifiers,
}

/// A pointer or a reference: `LF_POINTER` (0x1002).
#[derive(Clone, Copy, Debug, Eq, PartialEq)]
pub struct Pointer {
    /// The type that is pointed to.
    pub referent: TypeIndex,
    /// The pointer's size, qualifiers and flags.
    pub attributes: PointerAttributes,
    /// What the pointer is.
    pub mode: PointerMode,
}

/// An array: `LF_ARRAY` (0x1503).
#[derive(Clone, Copy, Debug, Eq, PartialEq)]
pub struct Array {
    /// The type of an element.
    pub element: TypeIndex,
    /// The size of the whole array in bytes; negative only in a damaged file.
    pub size: i128,
}

/// The type of a bit field: `LF_BITFIELD` (0x1205).
#[derive(Clone, Copy, Debug, Eq, PartialEq)]
pub struct Bitfield {
    /// The type of the member that the bits are part of.
    pub underlying: TypeIndex,
    /// How many bits there are.
    pub len: u8,
}

/// A function that is no member: `LF_PROCEDURE` (0x1008).
#[derive(Clone, Copy, Debug, Eq, PartialEq)]
pub struct Procedure {
    /// The type of what the function returns.
    pub return_type: TypeIndex,
    /// The list of its arguments.
    pub argument_list: TypeIndex,
}

/// A member function: `LF_MFUNCTION` (0x1009).
#[derive(Clone, Copy, Debug, Eq, PartialEq)]
pub struct MemberFunction {
    /// The type of what the function returns.
    pub return_type: TypeIndex,
    /// The class of which the function is a member.
    pub class_type: TypeIndex,
    /// The type of `this`; index 0 of a static function.
    pub this_type: TypeIndex,
    /// The list of its arguments.
    pub argument_list: TypeIndex,
}

/// The arguments of a function: `LF_ARGLIST` (0x1201). They are read from the record's bytes when they are asked for.
#[derive(Clone, Copy, Debug, Eq, PartialEq)]
pub struct ArgumentList<'t> {
    arguments: &'t [u8],
}

impl<'t> ArgumentList<'t> {
    ghost use Rattle.std.specs.Prelude.{◌<◌, slice_index_or};
    ghost use Rattle.std.specs.Option.{SomeIff};
    ghost use Rattle.pdb_items.specs.IdForms.{type_index_of};
    ghost use Rattle.pdb_types.specs.TypeReading.{arguments_of};

    /// How many arguments there are.
    pub fn len(&self) -> usize
        ensures { result ≡ length (arguments_of self.now) }
    {
        self.arguments.len() / 4
    }

    // The type of the k-th argument, which is there.
    pub(crate) fn at(&self, k: usize) -> TypeIndex
        requires { k < length (arguments_of self.now) }
        ensures { result ≡ slice_index_or (arguments_of self.now) k (type_index_of 0) }
    {
        match self.get(k) {
            Some(argument) => argument,
            None => TypeIndex(0),
        }
    }

    /// The type of the k-th argument, counted from 0; none where there are fewer. A last argument of index 0 stands for
    /// any further ones.
    pub fn get(&self, k: usize) -> Option<TypeIndex>
        ensures { SomeIff result (k < length (arguments_of self.now)) (slice_index_or (arguments_of self.now) k (type_index_of 0)) }
    {
        if k < self.arguments.len() / 4 {
            Some(TypeIndex(u32_at(self.arguments, 4 * k)))
        } else {
            None
        }
    }
}

/// The shape of a table of virtual functions: `LF_VTSHAPE` (0x000a).
#[derive(Clone, Copy, Debug, Eq, PartialEq)]
pub struct VirtualTableShape {
    /// How many functions the table has.
    pub methods: u16,
}

/// Another name of a type: `LF_ALIAS` (0x150a).
#[derive(Clone, Copy, Debug, Eq, PartialEq)]
pub struct Alias<'t> {
    /// The name.
    pub name: RawString<'t>,
}

#[tactic(auto, unfolding(crate::specs::TypeRows::read_of_type_form))]
pub(crate) fn parse_modifier<'t>(buffer: &mut ParseBuffer<'t>) -> Result<Option<TypeData<'t>>>
    requires { buffer.old.place ≡ 2 }
    ensures { Answers (option_map shown_type) result (read_of_type_form ModifierForm buffer.old.bytes) }
{
    let underlying = parse_type_index(buffer)?;
    let bits = buffer.parse_u16()?;
    Ok(Some(TypeData::Modifier(Modifier {
        underlying,
        qualifiers: Qualifiers::of_modifier(bits),
    })))
}

// What a pointer of this mode is, and the class behind its attributes.
fn parse_mode(buffer: &mut ParseBuffer<'_>, mode: u32) -> Result<PointerMode>
    ensures { ReadsPart (λ x. x) (mode_part mode) 0 buffer.old buffer.new result }
{
    match mode {
        0 => Ok(PointerMode::Pointer),
        1 => Ok(PointerMode::LvalueReference),
        2 => Ok(PointerMode::DataMember(TypeIndex(buffer.parse_u32()?))),
        3 => Ok(PointerMode::MemberFunction(TypeIndex(buffer.parse_u32()?))),
        4 => Ok(PointerMode::RvalueReference),
        _ => Err(Error::UnexpectedEof),
    }
}

// A pointer's attributes, and its mode.
#[tactic(auto, unfolding(pdb_base::specs::Layouts::together_at))]
fn parse_attributes(buffer: &mut ParseBuffer<'_>) -> Result<(u32, PointerMode)>
    ensures { ReadsPart (λ x. x) attributes_and_mode 0 buffer.old buffer.new result }
{
    let attributes = buffer.parse_u32()?;
    let mode = parse_mode(buffer, attributes / 32 % 8)?;
    Ok((attributes, mode))
}

#[tactic(auto, unfolding(crate::specs::TypeRows::read_of_type_form))]
pub(crate) fn parse_pointer<'t>(buffer: &mut ParseBuffer<'t>) -> Result<Option<TypeData<'t>>>
    requires { buffer.old.place ≡ 2 }
    ensures { Answers (option_map shown_type) result (read_of_type_form PointerForm buffer.old.bytes) }
{
    let referent = parse_type_index(buffer)?;
    let (attributes, mode) = parse_attributes(buffer)?;
    Ok(Some(TypeData::Pointer(Pointer {
        referent,
        attributes: PointerAttributes(attributes),
        mode,
    })))
}

#[tactic(auto, unfolding(crate::specs::TypeRows::read_of_type_form))]
pub(crate) fn parse_array<'t>(buffer: &mut ParseBuffer<'t>) -> Result<Option<TypeData<'t>>>
    requires { buffer.old.place ≡ 2 }
    ensures { Answers (option_map shown_type) result (read_of_type_form ArrayForm buffer.old.bytes) }
{
    let element = parse_type_index(buffer)?;
    let _index_type = buffer.take(4)?;
    let size = parse_numeric(buffer)?;
    Ok(Some(TypeData::Array(Array { element, size })))
}

#[tactic(auto, unfolding(crate::specs::TypeRows::read_of_type_form))]
pub(crate) fn parse_bitfield<'t>(buffer: &mut ParseBuffer<'t>) -> Result<Option<TypeData<'t>>>
    requires { buffer.old.place ≡ 2 }
    ensures { Answers (option_map shown_type) result (read_of_type_form BitfieldForm buffer.old.bytes) }
{
    let underlying = parse_type_index(buffer)?;
    let len = buffer.parse_u8()?;
    Ok(Some(TypeData::Bitfield(Bitfield { underlying, len })))
}

// The bytes behind the types of a function that say how it is called, and the list of its arguments.
#[tactic(auto, unfolding(pdb_base::specs::Layouts::together_at))]
fn parse_function_tail<'t>(buffer: &mut ParseBuffer<'t>) -> Result<(&'t [u8], TypeIndex)>
    ensures { ReadsPart (λ x. (x.0.now, x.1)) function_tail 0 buffer.old buffer.new result }
{
    let call = buffer.take(4)?;
    let argument_list = parse_type_index(buffer)?;
    Ok((call, argument_list))
}

#[tactic(auto, unfolding(crate::specs::TypeRows::read_of_type_form))]
pub(crate) fn parse_procedure<'t>(buffer: &mut ParseBuffer<'t>) -> Result<Option<TypeData<'t>>>
    requires { buffer.old.place ≡ 2 }
    ensures { Answers (option_map shown_type) result (read_of_type_form ProcedureForm buffer.old.bytes) }
{
    let return_type = parse_type_index(buffer)?;
    let (_call, argument_list) = parse_function_tail(buffer)?;
    Ok(Some(TypeData::Procedure(Procedure {
        return_type,
        argument_list,
    })))
}

// What a member function returns, its class, and the type of `this`.
#[tactic(auto, unfolding(pdb_base::specs::Layouts::together_at))]
fn parse_method_head(buffer: &mut ParseBuffer<'_>) -> Result<(TypeIndex, (TypeIndex, TypeIndex))>
    ensures { ReadsPart (λ x. x) method_head 0 buffer.old buffer.new result }
{
    let return_type = parse_type_index(buffer)?;
    let class_type = parse_type_index(buffer)?;
    let this_type = parse_type_index(buffer)?;
    Ok((return_type, (class_type, this_type)))
}

#[tactic(auto, unfolding(crate::specs::TypeRows::read_of_type_form))]
pub(crate) fn parse_member_function<'t>(
    buffer: &mut ParseBuffer<'t>,
) -> Result<Option<TypeData<'t>>>
    requires { buffer.old.place ≡ 2 }
    ensures { Answers (option_map shown_type) result (read_of_type_form MemberFunctionForm buffer.old.bytes) }
{
    let (return_type, (class_type, this_type)) = parse_method_head(buffer)?;
    let (_call, argument_list) = parse_function_tail(buffer)?;
    Ok(Some(TypeData::MemberFunction(MemberFunction {
        return_type,
        class_type,
        this_type,
        argument_list,
    })))
}

// A count, and the bytes of so many numbers.
#[tactic(auto, unfolding(pdb_base::specs::Layouts::together_at))]
fn parse_numbers<'t>(buffer: &mut ParseBuffer<'t>) -> Result<(u32, &'t [u8])>
    ensures { ReadsPart (λ x. (x.0, x.1.now)) (counted_numbers 4) 0 buffer.old buffer.new result }
{
    let count = buffer.parse_u32()?;
    let numbers = buffer.take(4 * count as usize)?;
    Ok((count, numbers))
}

#[tactic(auto, unfolding(crate::specs::TypeRows::read_of_type_form))]
pub(crate) fn parse_argument_list<'t>(buffer: &mut ParseBuffer<'t>) -> Result<Option<TypeData<'t>>>
    requires { buffer.old.place ≡ 2 }
    ensures { Answers (option_map shown_type) result (read_of_type_form ArgumentListForm buffer.old.bytes) }
{
    let (_count, arguments) = parse_numbers(buffer)?;
    Ok(Some(TypeData::ArgumentList(ArgumentList { arguments })))
}

#[tactic(auto, unfolding(crate::specs::TypeRows::read_of_type_form))]
pub(crate) fn parse_virtual_table_shape<'t>(
    buffer: &mut ParseBuffer<'t>,
) -> Result<Option<TypeData<'t>>>
    requires { buffer.old.place ≡ 2 }
    ensures { Answers (option_map shown_type) result (read_of_type_form VirtualTableShapeForm buffer.old.bytes) }
{
    let methods = buffer.parse_u16()?;
    Ok(Some(TypeData::VirtualTableShape(VirtualTableShape { methods })))
}

#[tactic(auto, unfolding(crate::specs::TypeRows::read_of_type_form))]
pub(crate) fn parse_alias<'t>(buffer: &mut ParseBuffer<'t>) -> Result<Option<TypeData<'t>>>
    requires { buffer.old.place ≡ 2 }
    ensures { Answers (option_map shown_type) result (read_of_type_form AliasForm buffer.old.bytes) }
{
    let _underlying = buffer.take(4)?;
    let name = buffer.parse_cstring()?;
    Ok(Some(TypeData::Alias(Alias { name })))
}

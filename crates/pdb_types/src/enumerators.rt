//! The values of enumerators, as numbers of the underlying type, and where the bits of bit fields stand.

ghost use Rattle.std.specs.Prelude.{◌≡◌, ◌≤ℤ◌, pos};
ghost use Rattle.std.specs.Option.{option_map};
ghost use Rattle.pdb_items.specs.Items.{item_with};
ghost use Rattle.pdb_types.specs.TypeReading.{shown_type};
ghost use Rattle.pdb_types.specs.TypeRows.{value_of};
ghost use Rattle.pdb_types.specs.Enumerators.{bit_position_in, centred, enumerator_number, number_as, number_kind, unmodified, unmodified_by};
ghost use Rattle.pdb_types.specs.EnumeratorViews.{shown_value};

use crate::definitions::type_of;
use crate::readers::value_of;
use crate::type_data::TypeData;
use pdb_base::little_endian::u8_at;
use pdb_base::{TypeIndex, Variant};
use pdb_items::ItemFinder;

// How many modifiers may stand before one another.
const DEPTH: u32 = 64;

/// The value of an enumerator.
#[derive(Clone, Copy, Debug, Eq, PartialEq)]
pub enum EnumeratorValue {
    /// A number that may be negative.
    Signed(i128),
    /// A number of an unsigned type of 128 bits.
    Unsigned(u128),
}

// The index of a type that says this, without its modifiers.
#[cycle(modifiers)]
fn unmodified_by(types: &ItemFinder<'_>, index: u32, says: Option<TypeData<'_>>, depth: u32) -> u32
    ensures { result ≡ unmodified_by (unmodified types.now depth) index (option_map shown_type says.entry) }
{
    match says {
        Some(TypeData::Modifier(modifier)) => unmodified(types, modifier.underlying.0, depth),
        _ => index,
    }
}

// The index of a type without its modifiers.
#[cycle(modifiers)]
#[tactic(auto, using(crate::proofs::ModifierSteps::simple_stays, crate::proofs::ModifierSteps::end_stays, crate::proofs::ModifierSteps::modifier_passed))]
fn unmodified(types: &ItemFinder<'_>, index: u32, depth: u32) -> u32
    ensures { result ≡ unmodified types.now depth index }
{
    if index < 0x1000 || depth == 0 {
        return index;
    }
    let says = type_of(types, index);
    unmodified_by(types, index, says, depth - 1)
}

// A number below a count, less the count from its half on.
fn centred(number: i128, count: i128) -> i128
    requires low { pos 0 ≤ℤ number }
    requires positive { pos 0 ≤ℤ count }
    ensures { result ≡ centred count number }
{
    if number < count / 2 {
        number
    } else {
        number - count
    }
}

// A number as one of the type of an index.
fn number_as(index: u32, number: i128) -> EnumeratorValue
    ensures { shown_value result ≡ number_as (number_kind index) number }
{
    match index {
        0x10 | 0x68 | 0x70 => EnumeratorValue::Signed(centred(number.rem_euclid(0x100), 0x100)),
        0x11 | 0x72 => EnumeratorValue::Signed(centred(number.rem_euclid(0x1_0000), 0x1_0000)),
        0x12 | 0x74 => {
            EnumeratorValue::Signed(centred(number.rem_euclid(0x1_0000_0000), 0x1_0000_0000))
        }
        0x13 | 0x76 => EnumeratorValue::Signed(centred(
            number.rem_euclid(0x1_0000_0000_0000_0000),
            0x1_0000_0000_0000_0000,
        )),
        0x20 | 0x30 | 0x69 | 0x7c => EnumeratorValue::Signed(number.rem_euclid(0x100)),
        0x21 | 0x31 | 0x71 | 0x73 | 0x7a => EnumeratorValue::Signed(number.rem_euclid(0x1_0000)),
        0x22 | 0x32 | 0x75 | 0x7b => EnumeratorValue::Signed(number.rem_euclid(0x1_0000_0000)),
        0x23 | 0x33 | 0x77 => {
            EnumeratorValue::Signed(number.rem_euclid(0x1_0000_0000_0000_0000))
        }
        0x24 | 0x34 | 0x79 => EnumeratorValue::Unsigned(number.cast_unsigned()),
        _ => EnumeratorValue::Signed(number),
    }
}

/// The value of an enumerator, as its type has it: `underlying` is `Enumeration::underlying`, and `value` that of
/// `Member::Enumerate`. Compilers store a number in the shortest form, whatever its sign. With index 0, which stands
/// for a list that no enumeration has, it is the number as it is stored.
#[tactic(auto, unfolding(crate::specs::Enumerators::enumerator_number))]
pub fn enumerator_value(
    types: &ItemFinder<'_>,
    underlying: TypeIndex,
    value: Variant,
) -> EnumeratorValue
    ensures { shown_value result ≡ enumerator_number types.now underlying.0 (value_of value) }
{
    number_as(unmodified(types, underlying.0, DEPTH), value_of(value))
}

/// Where the bits of a member of this type begin, counted from the lowest bit of what is stored; none where the type is
/// no bit field.
pub fn bit_position(types: &ItemFinder<'_>, field_type: TypeIndex) -> Option<u8>
    ensures { result ≡ bit_position_in (item_with types.now field_type.0) }
{
    let item = types.find(field_type.0)?;
    let bytes = item.raw_bytes();
    if item.raw_kind() == 0x1205 && bytes.len() >= 8 {
        Some(u8_at(bytes, 7))
    } else {
        None
    }
}

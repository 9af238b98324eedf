//! Numbers of members, as 128 bits in two's complement.

ghost use Rattle.std.specs.Prelude.{◌≡◌};
ghost use Rattle.pdb_types.specs.Enumerators.{enumerator_number};
ghost use Rattle.pdb_types.specs.TypeRows.{value_of};
ghost use Rattle.pdb_c.specs.MemberRows.{high_half, in_bits, low_half, virtual_form};

use crate::types::Types;
use pdb::{TypeIndex, Variant};
use pdb_types::{EnumeratorValue, enumerator_value};

/// The low 64 bits.
pub fn low_half(bits: u128) -> u64
    ensures { result ≡ low_half bits }
{
    (bits % 0x1_0000_0000_0000_0000) as u64
}

/// The high 64 bits.
pub fn high_half(bits: u128) -> u64
    ensures { result ≡ high_half bits }
{
    (bits / 0x1_0000_0000_0000_0000) as u64
}

// A number of any width. Behind `LF_CHAR` it has a sign.
fn value_of(number: Variant) -> i128
    ensures { result ≡ value_of number }
{
    match number {
        Variant::U8(n) => i128::from(n.cast_signed()),
        Variant::U16(n) => i128::from(n),
        Variant::U32(n) => i128::from(n),
        Variant::U64(n) => i128::from(n),
        Variant::I8(n) => i128::from(n),
        Variant::I16(n) => i128::from(n),
        Variant::I32(n) => i128::from(n),
        Variant::I64(n) => i128::from(n),
    }
}

/// A number of any width.
pub fn in_bits(number: Variant) -> u128
    ensures { result ≡ in_bits (value_of number) }
{
    value_of(number).cast_unsigned()
}

/// The value of an enumerator, as a number of the underlying type.
pub fn value_in_bits(types: &Types<'_>, underlying: TypeIndex, value: Variant) -> u128
    ensures { result ≡ in_bits (enumerator_number types.now.items underlying.0 (value_of value)) }
{
    match enumerator_value(&types.items, underlying, value) {
        EnumeratorValue::Signed(number) => number.cast_unsigned(),
        EnumeratorValue::Unsigned(number) => number,
    }
}

/// The form of a virtual base class.
pub fn virtual_form(direct: bool) -> u8
    ensures { result ≡ virtual_form direct }
{
    if direct { 2 } else { 3 }
}

/// The offset of a virtual function in its table, as bits.
pub fn table_offset(offset: Option<u32>) -> Option<u128>
    ensures { result ≡ offset }
{
    Some(u128::from(offset?))
}

//! Fields that several records have.

ghost use Rattle.std.specs.Prelude.{◌≡◌};
ghost use Rattle.pdb_base.specs.Layouts.{ReadsPart, rest};
ghost use Rattle.pdb_types.specs.TypeRows.{numeric, type_number, value_of};

use pdb_base::{ParseBuffer, Result, TypeIndex, Variant};

// A type's index.
pub(crate) fn parse_type_index(buffer: &mut ParseBuffer<'_>) -> Result<TypeIndex>
    ensures { ReadsPart (λ x. x) type_number 0 buffer.old buffer.new result }
{
    Ok(TypeIndex(buffer.parse_u32()?))
}

// The number of a numeric leaf. Behind `LF_CHAR` stands a number with a sign.
pub(crate) fn value_of(number: Variant) -> i128
    ensures { result ≡ value_of number }
{
    match number {
        Variant::U8(n) => i128::from(n.cast_signed()),
        Variant::U16(n) => i128::from(n),
        Variant::U32(n) => i128::from(n),
        Variant::U64(n) => i128::from(n),
        Variant::I8(n) => i128::from(n),
        Variant::I16(n) => i128::from(n),
        Variant::I32(n) => i128::from(n),
        Variant::I64(n) => i128::from(n),
    }
}

// A numeric leaf.
pub(crate) fn parse_numeric(buffer: &mut ParseBuffer<'_>) -> Result<i128>
    ensures { ReadsPart (λ x. x) numeric 0 buffer.old buffer.new result }
{
    let number = Variant::parse(buffer)?;
    Ok(value_of(number))
}

// The bytes that are left.
pub(crate) fn parse_rest<'t>(buffer: &mut ParseBuffer<'t>) -> Result<&'t [u8]>
    ensures { ReadsPart (λ s. s.now) rest 0 buffer.old buffer.new result }
{
    let count = buffer.len();
    buffer.take(count)
}

//! Fields that several records have.

ghost use Rattle.std.specs.Prelude.{◌+◌, length};
ghost use Rattle.pdb_base.specs.Cursor.{Reads};
ghost use Rattle.pdb_base.specs.Layouts.{ReadsPart, rest};
ghost use Rattle.pdb_base.specs.Text.{name_bytes};
ghost use Rattle.pdb_symbols.specs.Parts.{offset_at, name_at, module_at};
ghost use Rattle.pdb_symbols.specs.Groups.{optional_index, two_places};
ghost use Rattle.pdb_records.specs.RecordParts.{range, ranged, register_and_word, site_of_type};
ghost use Rattle.pdb_records.specs.RecordViews.{gap_bytes};

use crate::lists::{AddressRange, Gaps};
use pdb_base::{
    ParseBuffer, PdbInternalSectionOffset, RawString, Register, Result, SymbolIndex, TypeIndex,
};

// Kinds below this one have names behind a byte of length; the others have names before a zero byte.
const FIRST_WITH_ZERO_ENDED_NAMES: u16 = 0x1100;

#[inline]
#[tactic(auto, unfolding(pdb_symbols::specs::Parts::offset_at))]
pub(crate) fn parse_offset(buffer: &mut ParseBuffer<'_>) -> Result<PdbInternalSectionOffset>
    ensures { Reads (λ x. x) buffer.old buffer.new result (offset_at buffer.old.bytes buffer.old.place) (λ _. 6) }
{
    let offset = buffer.parse_u32()?;
    let section = buffer.parse_u16()?;
    Ok(PdbInternalSectionOffset { offset, section })
}

#[inline]
#[tactic(auto, unfolding(pdb_symbols::specs::Parts::name_at))]
pub(crate) fn parse_name<'t>(kind: u16, buffer: &mut ParseBuffer<'t>) -> Result<RawString<'t>>
    ensures { Reads name_bytes buffer.old buffer.new result (name_at kind buffer.old.bytes buffer.old.place) (λ s. length s + 1) }
{
    if kind < FIRST_WITH_ZERO_ENDED_NAMES {
        buffer.parse_u8_pascal_string()
    } else {
        buffer.parse_cstring()
    }
}

// The number of a module, counted from 1 in the record, and 0 for none.
#[inline]
pub(crate) fn parse_module(buffer: &mut ParseBuffer<'_>) -> Result<Option<usize>>
    ensures { Reads (λ x. x) buffer.old buffer.new result (module_at buffer.old.bytes buffer.old.place) (λ _. 2) }
{
    let number = buffer.parse_u16()?;
    if number == 0 {
        Ok(None)
    } else {
        Ok(Some(usize::from(number) - 1))
    }
}

// The index of a symbol, 0 for none.
#[inline]
pub(crate) fn parse_optional_index(buffer: &mut ParseBuffer<'_>) -> Result<Option<SymbolIndex>>
    ensures { ReadsPart (λ x. x) optional_index 0 buffer.old buffer.new result }
{
    let number = buffer.parse_u32()?;
    if number == 0 {
        Ok(None)
    } else {
        Ok(Some(SymbolIndex(number)))
    }
}

// The bytes that are left.
#[inline]
pub(crate) fn parse_rest<'t>(buffer: &mut ParseBuffer<'t>) -> Result<&'t [u8]>
    ensures { ReadsPart (λ s. s.now) rest 0 buffer.old buffer.new result }
{
    let count = buffer.len();
    buffer.take(count)
}

// Two `section:offset`s: the offset of each, and behind them the section of each.
#[inline]
#[tactic(auto, unfolding(pdb_base::specs::Layouts::together_at))]
pub(crate) fn parse_two_places(
    buffer: &mut ParseBuffer<'_>,
) -> Result<(PdbInternalSectionOffset, PdbInternalSectionOffset)>
    ensures { ReadsPart (λ x. (x.0.offset, (x.1.offset, (x.0.section, x.1.section)))) two_places 0 buffer.old buffer.new result }
{
    let first = buffer.parse_u32()?;
    let second = buffer.parse_u32()?;
    let first_section = buffer.parse_u16()?;
    let second_section = buffer.parse_u16()?;
    Ok((
        PdbInternalSectionOffset {
            offset: first,
            section: first_section,
        },
        PdbInternalSectionOffset {
            offset: second,
            section: second_section,
        },
    ))
}

// An address range.
#[inline]
#[tactic(auto, unfolding(pdb_base::specs::Layouts::together_at))]
fn parse_range(buffer: &mut ParseBuffer<'_>) -> Result<AddressRange>
    ensures { ReadsPart (λ r. (r.start, r.len)) range 0 buffer.old buffer.new result }
{
    let start = parse_offset(buffer)?;
    let len = buffer.parse_u16()?;
    Ok(AddressRange { start, len })
}

// An address range, and its gaps to the end of the bytes.
#[inline]
#[tactic(auto, unfolding(pdb_base::specs::Layouts::together_at))]
pub(crate) fn parse_ranged<'t>(buffer: &mut ParseBuffer<'t>) -> Result<(AddressRange, Gaps<'t>)>
    ensures { ReadsPart (λ x. ((x.0.start, x.0.len), gap_bytes x.1)) ranged 0 buffer.old buffer.new result }
{
    let range = parse_range(buffer)?;
    let gaps = parse_rest(buffer)?;
    Ok((range, Gaps::new(gaps)))
}

// A register, and a word that says more.
#[inline]
#[tactic(auto, unfolding(pdb_base::specs::Layouts::together_at))]
pub(crate) fn parse_register_and_word(buffer: &mut ParseBuffer<'_>) -> Result<(Register, u16)>
    ensures { ReadsPart (λ x. x) register_and_word 0 buffer.old buffer.new result }
{
    let register = Register(buffer.parse_u16()?);
    let word = buffer.parse_u16()?;
    Ok((register, word))
}

// Where a call stands, a number of two bytes, and a type.
#[inline]
#[tactic(auto, unfolding(pdb_base::specs::Layouts::together_at))]
pub(crate) fn parse_site_of_type(
    buffer: &mut ParseBuffer<'_>,
) -> Result<(PdbInternalSectionOffset, u16, TypeIndex)>
    ensures { ReadsPart (λ x. (x.0, (x.1, x.2))) site_of_type 0 buffer.old buffer.new result }
{
    let offset = parse_offset(buffer)?;
    let number = buffer.parse_u16()?;
    let type_index = TypeIndex(buffer.parse_u32()?);
    Ok((offset, number, type_index))
}

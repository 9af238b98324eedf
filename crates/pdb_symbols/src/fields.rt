//! Fields that several forms have.

ghost use Rattle.std.specs.Prelude.{◌+◌, length};
ghost use Rattle.std.specs.Option.{option_map};
ghost use Rattle.pdb_base.specs.Cursor.{Reads};
ghost use Rattle.pdb_base.specs.Refusal.{Answers};
ghost use Rattle.pdb_base.specs.Text.{name_bytes};
ghost use Rattle.pdb_symbols.specs.Parts.{offset_at, name_at, optional_name_at, module_at};
ghost use Rattle.pdb_base.specs.Layouts.{ReadsPart, rest};
ghost use Rattle.pdb_symbols.specs.Groups.{optional_index, span, two_places};

use pdb_base::{ParseBuffer, PdbInternalSectionOffset, RawString, Result, SymbolIndex};

// Kinds below this one have names behind a byte of length; the others have names before a zero byte.
pub(crate) const FIRST_WITH_ZERO_ENDED_NAMES: u16 = 0x1100;

#[inline]
#[tactic(auto, unfolding(crate::specs::Parts::offset_at))]
pub(crate) fn parse_offset(buffer: &mut ParseBuffer<'_>) -> Result<PdbInternalSectionOffset>
    ensures { Reads (λ x. x) buffer.old buffer.new result (offset_at buffer.old.bytes buffer.old.place) (λ _. 6) }
{
    let offset = buffer.parse_u32()?;
    let section = buffer.parse_u16()?;
    Ok(PdbInternalSectionOffset { offset, section })
}

#[inline]
#[tactic(auto, unfolding(crate::specs::Parts::name_at))]
pub(crate) fn parse_name<'t>(kind: u16, buffer: &mut ParseBuffer<'t>) -> Result<RawString<'t>>
    ensures { Reads name_bytes buffer.old buffer.new result (name_at kind buffer.old.bytes buffer.old.place) (λ s. length s + 1) }
{
    if kind < FIRST_WITH_ZERO_ENDED_NAMES {
        buffer.parse_u8_pascal_string()
    } else {
        buffer.parse_cstring()
    }
}

// The name of a reference, which kinds below 0x1100 have not.
#[inline]
#[tactic(auto, unfolding(crate::specs::Parts::optional_name_at))]
pub(crate) fn parse_optional_name<'t>(
    kind: u16,
    buffer: &mut ParseBuffer<'t>,
) -> Result<Option<RawString<'t>>>
    ensures { Answers (option_map name_bytes) result (optional_name_at kind buffer.old.bytes buffer.old.place) }
{
    if kind < FIRST_WITH_ZERO_ENDED_NAMES {
        return Ok(None);
    }
    let name = buffer.parse_cstring()?;
    Ok(Some(name))
}

// The number of a module, counted from 1 in the record, and 0 for none.
#[inline]
pub(crate) fn parse_module(buffer: &mut ParseBuffer<'_>) -> Result<Option<usize>>
    ensures { Reads (λ x. x) buffer.old buffer.new result (module_at buffer.old.bytes buffer.old.place) (λ _. 2) }
{
    let number = buffer.parse_u16()?;
    if number == 0 {
        Ok(None)
    } else {
        Ok(Some(usize::from(number) - 1))
    }
}

// The index of a symbol, 0 for none.
#[inline]
pub(crate) fn parse_optional_index(buffer: &mut ParseBuffer<'_>) -> Result<Option<SymbolIndex>>
    ensures { ReadsPart (λ x. x) optional_index 0 buffer.old buffer.new result }
{
    let number = buffer.parse_u32()?;
    if number == 0 {
        Ok(None)
    } else {
        Ok(Some(SymbolIndex(number)))
    }
}

// The bytes that are left.
#[inline]
pub(crate) fn parse_rest<'t>(buffer: &mut ParseBuffer<'t>) -> Result<&'t [u8]>
    ensures { ReadsPart (λ s. s.now) rest 0 buffer.old buffer.new result }
{
    let count = buffer.len();
    buffer.take(count)
}

// Parent, end and a length.
#[inline]
#[tactic(auto, unfolding(pdb_base::specs::Layouts::together_at))]
pub(crate) fn parse_span(buffer: &mut ParseBuffer<'_>) -> Result<(SymbolIndex, SymbolIndex, u32)>
    ensures { ReadsPart (λ x. (x.0, (x.1, x.2))) span 0 buffer.old buffer.new result }
{
    let parent = SymbolIndex(buffer.parse_u32()?);
    let end = SymbolIndex(buffer.parse_u32()?);
    let len = buffer.parse_u32()?;
    Ok((parent, end, len))
}

// Two `section:offset`s: the offset of each, and behind them the section of each.
#[inline]
#[tactic(auto, unfolding(pdb_base::specs::Layouts::together_at))]
pub(crate) fn parse_two_places(
    buffer: &mut ParseBuffer<'_>,
) -> Result<(PdbInternalSectionOffset, PdbInternalSectionOffset)>
    ensures { ReadsPart (λ x. (x.0.offset, (x.1.offset, (x.0.section, x.1.section)))) two_places 0 buffer.old buffer.new result }
{
    let first = buffer.parse_u32()?;
    let second = buffer.parse_u32()?;
    let first_section = buffer.parse_u16()?;
    let second_section = buffer.parse_u16()?;
    Ok((
        PdbInternalSectionOffset {
            offset: first,
            section: first_section,
        },
        PdbInternalSectionOffset {
            offset: second,
            section: second_section,
        },
    ))
}

//! Numbers of several widths, as constants have them.

ghost use Rattle.pdb_base.specs.Cursor.{Reads};
ghost use Rattle.pdb_base.specs.Fields.{variant_at, variant_width};

use crate::buffer::ParseBuffer;
use crate::error::{Error, Result};

/// A number with its width and sign: `cvinfo.h`'s numeric leaf, as far as this reader's profile goes.
#[derive(Clone, Copy, Debug, PartialEq, Eq)]
pub enum Variant {
    U8(u8),
    U16(u16),
    U32(u32),
    U64(u64),
    I8(i8),
    I16(i16),
    I32(i32),
    I64(i64),
}

impl Variant {
    /// Reads a number. A `u16` below `0x8000` is the number; else it is a prefix: behind `0x8000` stands a `u8`,
    /// behind `0x8001` an `i16`, `0x8002` a `u16`, `0x8003` an `i32`, `0x8004` a `u32`, `0x8009` an `i64`, and
    /// `0x800a` a `u64`. Any other prefix is `UnexpectedNumericPrefix`; missing bytes are `UnexpectedEof`.
    #[tactic(auto, unfolding(crate::specs::Fields::variant_at, crate::specs::Fields::number_at))]
    pub fn parse(buffer: &mut ParseBuffer<'_>) -> Result<Variant>
        ensures { Reads (λ v. v) buffer.old buffer.new result (variant_at buffer.old.bytes buffer.old.place) (λ _. variant_width buffer.old.bytes buffer.old.place) }
    {
        let prefix = buffer.parse_u16()?;
        match prefix {
            0..=0x7fff => Ok(Variant::U16(prefix)),
            0x8000 => Ok(Variant::U8(buffer.parse_u8()?)),
            0x8001 => Ok(Variant::I16(buffer.parse_i16()?)),
            0x8002 => Ok(Variant::U16(buffer.parse_u16()?)),
            0x8003 => Ok(Variant::I32(buffer.parse_i32()?)),
            0x8004 => Ok(Variant::U32(buffer.parse_u32()?)),
            0x8009 => Ok(Variant::I64(buffer.parse_i64()?)),
            0x800a => Ok(Variant::U64(buffer.parse_u64()?)),
            _ => Err(Error::UnexpectedNumericPrefix(prefix)),
        }
    }
}

//! One record of a list.

ghost use Rattle.std.specs.Prelude.{◌≡◌, ◌^◌, ◌<◌, ◌≤◌, ◌+◌, length, IfOk, IfErr, IfSome, ◌≢◌};
ghost use Rattle.pdb_base.specs.Tiling.{ReadsPiece};
ghost use Rattle.pdb_symbols.specs.SymbolList.{symbols};
ghost use Rattle.pdb_symbols.specs.Views.{symbol_of};

use crate::symbol::{Symbol, kind_of};
use pdb_base::{Error, ParseBuffer, Result, SymbolIndex};

// Kinds of records that fill a gap: `S_ALIGN` and `S_SKIP` of `cvinfo.h`.
const ALIGN: u16 = 0x0402;

const SKIP: u16 = 0x0007;

// The symbol of the record at the buffer's offset, or None for a record that fills a gap.
#[inline]
pub(crate) fn read_record<'t>(buffer: &mut ParseBuffer<'t>) -> Result<Option<Symbol<'t>>>
    requires { length buffer.old.bytes < 2 ^ 32 }
    ensures reads { ReadsPiece symbols symbol_of buffer.old.bytes buffer.old.place result buffer.new.place }
    ensures bytes { buffer.new.bytes ≡ buffer.old.bytes }
    ensures passed { IfOk result (λ _. buffer.old.place + 4 ≤ buffer.new.place) }
    ensures no_more { IfOk result (λ _. buffer.new.place ≤ buffer.old.place + 65537) }
    ensures behind { IfOk result (λ o. IfSome o (λ s. buffer.new.place ≡ (symbol_of s).index + 2 + length (symbol_of s).bytes)) }
    ensures refused { IfErr result (λ e. (e ≢ Error.OutOfMemory) × (e ≢ Error.IoError)) }
{
    let place = buffer.pos();
    let length = buffer.parse_u16()?;
    if length < 2 {
        return Err(Error::SymbolTooShort);
    }
    let bytes = buffer.take(usize::from(length))?;
    let kind = kind_of(bytes);
    if kind == ALIGN || kind == SKIP {
        return Ok(None);
    }
    Ok(Some(Symbol::of(SymbolIndex(place as u32), bytes)))
}

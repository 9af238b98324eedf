//! The lines of local variables in `symbols`: two in five lines of a large program. Their records are read at their
//! offsets.

ghost use Rattle.std.specs.Prelude.{◌≡◌, ◌++◌, ◌≤◌, length, IfSome, OnOk, Ok, Some};
ghost use Rattle.pdb.specs.Fields.{number, cstring_at};
ghost use Rattle.pdb_symbols.specs.Flags.{local_flags_of};
ghost use Rattle.tool_fields.specs.Flags.{local_flags};
ghost use Rattle.tool_types.specs.KeptViews.{kept_names};
ghost use Rattle.tool_types.specs.LineNames.{typed_end};
ghost use Rattle.tool_symbols.specs.LocalLines.{local_head, local_text};

use pdb::TypeIndex;
use pdb_base::ParseBuffer;
use pdb_base::little_endian::{u16_at, u32_at};
use pdb_text::hex8;
use std::alloc::AllocError;
use tool_fields::flags::put_flags;
use tool_fields::values::put_behind_blank;
use tool_types::kept_ends::KeptEnds;

/// The type at offset 2 of a record's bytes, the flags at offset 6, and the name at offset 8. None where the record
/// ends before. Records of the kind 0x113e have them there.
#[inline(always)]
pub fn local_in(bytes: &[u8]) -> Option<(u32, u16, &[u8])>
    ensures there { IfSome result (λ s. 8 ≤ length bytes.entry.now) }
    ensures fields { IfSome result (λ s. (s.0 ≡ number bytes.entry.now 2 4) × (s.1 ≡ number bytes.entry.now 6 2)) }
    ensures name { IfSome result (λ s. cstring_at bytes.entry.now 8 ≡ Ok s.2.now) }
{
    if bytes.len() < 8 {
        return None;
    }
    let type_index = u32_at(bytes, 2);
    let flags = u16_at(bytes, 6);
    let mut buffer = ParseBuffer::from(bytes);
    buffer.seek(8);
    match buffer.parse_cstring() {
        Ok(name) => Some((type_index, flags, name.as_bytes())),
        Err(_) => None,
    }
}

/// The flags that a word has.
#[tactic(auto, unfolding(tool_fields::specs::Flags::local_flags, pdb_symbols::specs::Flags::local_flags_of))]
fn put_any_flags(out: &mut Vec<u8>, word: u16) -> Result<(), AllocError>
    ensures { OnOk result (out.new.items ≡ out.old.items ++ local_flags (local_flags_of word) word) }
{
    put_flags(
        out,
        &[
            (word & 0x1 != 0, "param"),
            (word & 0x2 != 0, "addrtaken"),
            (word & 0x4 != 0, "compgenx"),
            (word & 0x8 != 0, "aggregate"),
            (word & 0x10 != 0, "aggregated"),
            (word & 0x20 != 0, "aliased"),
            (word & 0x40 != 0, "alias"),
            (word & 0x80 != 0, "retvalue"),
            (word & 0x100 != 0, "optimizedout"),
            (word & 0x200 != 0, "enreg_glob"),
            (word & 0x400 != 0, "enreg_stat"),
        ],
    )
}

/// The flags that a word has: most words have these.
#[inline(always)]
#[tactic(auto, using(crate::proofs::LocalWords::no_flag, crate::proofs::LocalWords::param, crate::proofs::LocalWords::optimized_out, crate::proofs::LocalWords::both))]
fn put_word_flags(out: &mut Vec<u8>, word: u16) -> Result<(), AllocError>
    ensures { OnOk result (out.new.items ≡ out.old.items ++ local_flags (local_flags_of word) word) }
{
    match word {
        0 => out.extend_from_slice(b"-"),
        0x1 => out.extend_from_slice(b"param"),
        0x100 => out.extend_from_slice(b"optimizedout"),
        0x101 => out.extend_from_slice(b"param+optimizedout"),
        _ => put_any_flags(out, word),
    }
}

/// What stands before the flags: the record's index, the kind's name, and the type.
#[inline(always)]
#[tactic(auto, unfolding(pdb_text::specs::Digits::hex, tool_fields::specs::FieldTexts::field, tool_fields::specs::FieldTexts::label, crate::specs::LocalLines::local_head))]
fn local_head(index: u32, type_index: u32) -> [u8; 43]
    ensures { result ≡ local_head index type_index }
{
    let i = hex8(index);
    let t = hex8(type_index);
    [
        i[0], i[1], i[2], i[3], i[4], i[5], i[6], i[7], b' ', b'S', b'_', b'L', b'O', b'C', b'A',
        b'L', b' ', b't', b'y', b'p', b'e', b'_', b'i', b'n', b'd', b'e', b'x', b'=', t[0], t[1],
        t[2], t[3], t[4], t[5], t[6], t[7], b' ', b'f', b'l', b'a', b'g', b's', b'=',
    ]
}

/// The end of the line behind what has a type.
fn put_end(
    out: &mut Vec<u8>,
    kept: &mut KeptEnds<'_, '_>,
    type_index: u32,
) -> Result<(), AllocError>
    ensures names { kept_names kept.new ≡ kept_names kept.old }
    ensures text { OnOk result (out.new.items ≡ out.old.items ++ typed_end (kept_names kept.old) (Some (record { 0 = type_index }))) }
{
    let slot = kept.keep(Some(TypeIndex(type_index)))?;
    out.extend_from_slice(kept.at(slot))
}

/// The line of a local variable behind its blanks.
#[tactic(auto, unfolding(crate::specs::LocalLines::local_text))]
pub fn put_local_text(
    out: &mut Vec<u8>,
    kept: &mut KeptEnds<'_, '_>,
    index: u32,
    type_index: u32,
    flags: u16,
    name: &[u8],
) -> Result<(), AllocError>
    ensures names { kept_names kept.new ≡ kept_names kept.old }
    ensures text { OnOk result (out.new.items ≡ out.old.items ++ local_text (kept_names kept.old) index type_index flags name.now) }
{
    out.extend_from_slice(&local_head(index, type_index))?;
    put_word_flags(out, flags)?;
    put_behind_blank(out, name)?;
    put_end(out, kept, type_index)
}

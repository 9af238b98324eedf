//! The lines of inlined calls in `symbols`: a tenth of the lines of a large program, and more of its text. Their
//! records are read at their offsets.

ghost use Rattle.std.specs.Prelude.{◌≡◌, ◌≢◌, ◌++◌, ◌≤◌, [], ◌∷◌, drop, flat_map, length, OnOk};
ghost use Rattle.pdb.specs.Fields.{number};
ghost use Rattle.pdb_text.specs.Digits.{hex};
ghost use Rattle.tool_symbols.specs.CallLines.{call_end_line, call_head, call_text};
ghost use Rattle.tool_types.specs.KeptViews.{kept_names};
ghost use Rattle.tool_types.specs.LineNames.{call_end};
ghost use Rattle.tool_fields.specs.ValueTexts.{bytes_text};

use pdb_base::little_endian::u32_at;
use pdb_text::hex8;
use std::alloc::AllocError;
use tool_fields::values_forms::put_bytes;
use tool_types::kept_ends::KeptEnds;

/// What stands before the annotations: the record's index, the kind's name, the scope around the call, where its own
/// ends, and its id.
#[inline(always)]
#[tactic(auto, unfolding(pdb_text::specs::Digits::hex, tool_fields::specs::FieldTexts::field, tool_fields::specs::FieldTexts::label, crate::specs::CallLines::call_head))]
fn call_head(index: u32, parent: u32, end: u32, id: u32) -> [u8; 94]
    ensures { result ≡ call_head index parent end id }
{
    let i = hex8(index);
    let p = hex8(parent);
    let e = hex8(end);
    let f = hex8(id);
    [
        i[0], i[1], i[2], i[3], i[4], i[5], i[6], i[7], b' ', b'S', b'_', b'I', b'N', b'L', b'I',
        b'N', b'E', b'S', b'I', b'T', b'E', b' ', b'p', b'a', b'r', b'e', b'n', b't', b'=', p[0],
        p[1], p[2], p[3], p[4], p[5], p[6], p[7], b' ', b'e', b'n', b'd', b'=', e[0], e[1], e[2],
        e[3], e[4], e[5], e[6], e[7], b' ', b'i', b'n', b'l', b'i', b'n', b'e', b'e', b'=', f[0],
        f[1], f[2], f[3], f[4], f[5], f[6], f[7], b' ', b'i', b'n', b'v', b'o', b'c', b'a', b't',
        b'i', b'o', b'n', b's', b'=', b'-', b' ', b'a', b'n', b'n', b'o', b't', b'a', b't', b'i',
        b'o', b'n', b's', b'=',
    ]
}

/// The end of the line of a call of an id.
fn put_end(out: &mut Vec<u8>, kept: &mut KeptEnds<'_, '_>, id: u32) -> Result<(), AllocError>
    ensures names { kept_names kept.new ≡ kept_names kept.old }
    ensures text { OnOk result (out.new.items ≡ out.old.items ++ call_end (kept_names kept.old) id) }
{
    let slot = kept.keep_call(id)?;
    out.extend_from_slice(kept.call_at(slot))
}

/// The line behind its blanks of a record of the kind 0x114d with these bytes, of a call in a scope.
#[tactic(auto, unfolding(crate::specs::CallLines::call_text))]
pub fn put_call_text(
    out: &mut Vec<u8>,
    kept: &mut KeptEnds<'_, '_>,
    index: u32,
    bytes: &[u8],
) -> Result<(), AllocError>
    requires { 14 ≤ length bytes.now }
    ensures names { kept_names kept.new ≡ kept_names kept.old }
    ensures text { OnOk result (out.new.items ≡ out.old.items ++ call_text (kept_names kept.old) index bytes.now) }
{
    let id = u32_at(bytes, 10);
    out.extend_from_slice(&call_head(index, u32_at(bytes, 2), u32_at(bytes, 6), id))?;
    put_bytes(out, &bytes[14..])?;
    put_end(out, kept, id)
}

/// The line behind its blanks of the end of an inlined call.
#[inline(always)]
#[tactic(auto, unfolding(pdb_text::specs::Digits::hex, crate::specs::CallLines::call_end_line))]
pub fn call_end_line(index: u32) -> [u8; 26]
    ensures { result ≡ call_end_line index }
{
    let i = hex8(index);
    [
        i[0], i[1], i[2], i[3], i[4], i[5], i[6], i[7], b' ', b'S', b'_', b'I', b'N', b'L', b'I',
        b'N', b'E', b'S', b'I', b'T', b'E', b'_', b'E', b'N', b'D', b'\n',
    ]
}

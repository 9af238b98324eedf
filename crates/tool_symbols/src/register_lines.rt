//! The lines in `symbols` of ranges of code in which a variable is in a register: a third of the lines of a large
//! program. Their records are read at their offsets.

ghost use Rattle.std.specs.Prelude.{◌≡◌, ◌++◌, ◌≤◌, true, false, drop, length, OnOk};
ghost use Rattle.pdb.specs.Fields.{number};
ghost use Rattle.pdb_symbols.specs.Flags.{has};
ghost use Rattle.pdb_records.specs.RecordLists.{gaps_of};
ghost use Rattle.tool_symbols.specs.RegisterLines.{gaps_end, maybe_head, range_tail, register_head, register_range_text, start_at};

use pdb::{PdbInternalSectionOffset, Register};
use pdb_base::little_endian::{u16_at, u32_at};
use pdb_records::{Gaps, Machine};
use pdb_text::{hex4, hex8, put_decimal, put_line_end};
use std::alloc::AllocError;
use tool_fields::register_names::put_register_name;
use tool_records::record_lists::put_gaps;

/// What stands before the register: the record's index and the kind's name.
#[inline(always)]
#[tactic(auto, unfolding(pdb_text::specs::Digits::hex, tool_fields::specs::FieldTexts::label, crate::specs::RegisterLines::register_head))]
fn register_head(index: u32) -> [u8; 38]
    ensures { result ≡ register_head index }
{
    let i = hex8(index);
    [
        i[0], i[1], i[2], i[3], i[4], i[5], i[6], i[7], b' ', b'S', b'_', b'D', b'E', b'F', b'R',
        b'A', b'N', b'G', b'E', b'_', b'R', b'E', b'G', b'I', b'S', b'T', b'E', b'R', b' ', b'r',
        b'e', b'g', b'i', b's', b't', b'e', b'r', b'=',
    ]
}

/// That the variable has a value there, and where the range starts, up to its length.
#[inline(always)]
#[tactic(auto, unfolding(pdb_text::specs::Digits::hex, tool_fields::specs::FieldTexts::field, tool_fields::specs::FieldTexts::label, crate::specs::RegisterLines::maybe_head))]
fn sure_head(start: PdbInternalSectionOffset) -> [u8; 33]
    ensures { result ≡ maybe_head false start }
{
    let s = hex4(start.section);
    let o = hex8(start.offset);
    [
        b' ', b'm', b'a', b'y', b'b', b'e', b'=', b'f', b'a', b'l', b's', b'e', b' ', b'r', b'a',
        b'n', b'g', b'e', b'=', s[0], s[1], s[2], s[3], b':', o[0], o[1], o[2], o[3], o[4], o[5],
        o[6], o[7], b'+',
    ]
}

/// The same where it may have none.
#[inline(always)]
#[tactic(auto, unfolding(pdb_text::specs::Digits::hex, tool_fields::specs::FieldTexts::field, tool_fields::specs::FieldTexts::label, crate::specs::RegisterLines::maybe_head))]
fn unsure_head(start: PdbInternalSectionOffset) -> [u8; 32]
    ensures { result ≡ maybe_head true start }
{
    let s = hex4(start.section);
    let o = hex8(start.offset);
    [
        b' ', b'm', b'a', b'y', b'b', b'e', b'=', b't', b'r', b'u', b'e', b' ', b'r', b'a', b'n',
        b'g', b'e', b'=', s[0], s[1], s[2], s[3], b':', o[0], o[1], o[2], o[3], o[4], o[5], o[6],
        o[7], b'+',
    ]
}

#[inline(always)]
fn put_maybe_head(
    out: &mut Vec<u8>,
    maybe: bool,
    start: PdbInternalSectionOffset,
) -> Result<(), AllocError>
    ensures { OnOk result (out.new.items ≡ out.old.items ++ maybe_head maybe start) }
{
    if maybe {
        out.extend_from_slice(&unsure_head(start))
    } else {
        out.extend_from_slice(&sure_head(start))
    }
}

/// The gaps of a range that has bytes for them.
#[tactic(auto, unfolding(tool_fields::specs::FieldTexts::field, tool_fields::specs::FieldTexts::label, crate::specs::RegisterLines::gaps_end))]
fn put_some_gaps(out: &mut Vec<u8>, bytes: &[u8]) -> Result<(), AllocError>
    ensures { OnOk result (out.new.items ≡ out.old.items ++ gaps_end (gaps_of bytes.now)) }
{
    out.extend_from_slice(b" gaps=")?;
    put_gaps(out, Gaps::new(bytes))?;
    put_line_end(out)
}

/// The gaps that stand in these bytes, and the end of the line: most ranges have none.
#[inline(always)]
#[tactic(auto, unfolding(tool_fields::specs::FieldTexts::field, tool_fields::specs::FieldTexts::label, crate::specs::RegisterLines::gaps_end))]
fn put_gaps_end(out: &mut Vec<u8>, bytes: &[u8]) -> Result<(), AllocError>
    ensures { OnOk result (out.new.items ≡ out.old.items ++ gaps_end (gaps_of bytes.now)) }
{
    if bytes.is_empty() {
        out.extend_from_slice(b" gaps=-\n")
    } else {
        put_some_gaps(out, bytes)
    }
}

/// What stands behind the register.
#[inline(always)]
#[tactic(auto, unfolding(crate::specs::RegisterLines::range_tail))]
fn put_range_tail(out: &mut Vec<u8>, bytes: &[u8]) -> Result<(), AllocError>
    requires { 14 ≤ length bytes.now }
    ensures { OnOk result (out.new.items ≡ out.old.items ++ range_tail bytes.now) }
{
    let start = PdbInternalSectionOffset {
        offset: u32_at(bytes, 6),
        section: u16_at(bytes, 10),
    };
    put_maybe_head(out, u16_at(bytes, 4) & 1 != 0, start)?;
    put_decimal(out, u64::from(u16_at(bytes, 12)))?;
    put_gaps_end(out, &bytes[14..])
}

/// The line behind its blanks of a record of the kind 0x1141 with these bytes.
#[tactic(auto, unfolding(crate::specs::RegisterLines::register_range_text))]
pub fn put_register_range(
    out: &mut Vec<u8>,
    machine: Option<Machine>,
    index: u32,
    bytes: &[u8],
) -> Result<(), AllocError>
    requires { 14 ≤ length bytes.now }
    ensures { OnOk result (out.new.items ≡ out.old.items ++ register_range_text machine index bytes.now) }
{
    out.extend_from_slice(&register_head(index))?;
    put_register_name(out, machine, Register(u16_at(bytes, 2)))?;
    put_range_tail(out, bytes)
}

//! Values of fields of further records, each put behind what is there already.

ghost use Rattle.std.specs.Prelude.{◌≡◌, ◌++◌, codes, OnOk};
ghost use Rattle.std.specs.Fmt.{decimal};
ghost use Rattle.tool_fields.specs.RecordValues.{cookie_text, discard_text, entry_text, range_text};

use pdb_records::{AddressRange, CookieKind, Discard, EntryKind};
use pdb_text::put_decimal;
use std::alloc::AllocError;
use tool_fields::values::put_place;

/// Where a range starts, `+`, and its length.
pub fn put_range(out: &mut Vec<u8>, range: AddressRange) -> Result<(), AllocError>
    ensures { OnOk result (out.new.items ≡ out.old.items ++ range_text range) }
{
    put_place(out, range.start)?;
    out.push(b'+')?;
    put_decimal(out, u64::from(range.len))
}

/// How a security cookie is made.
pub fn put_cookie(out: &mut Vec<u8>, cookie: CookieKind) -> Result<(), AllocError>
    ensures { OnOk result (out.new.items ≡ out.old.items ++ cookie_text cookie) }
{
    match cookie {
        CookieKind::Copy => out.extend_from_slice(b"copy"),
        CookieKind::XorStackPointer => out.extend_from_slice(b"xor_sp"),
        CookieKind::XorBasePointer => out.extend_from_slice(b"xor_bp"),
        CookieKind::XorR13 => out.extend_from_slice(b"xor_r13"),
        CookieKind::Unknown(number) => put_decimal(out, u64::from(number)),
    }
}

/// What an entry of a jump table is.
pub fn put_entry_kind(out: &mut Vec<u8>, kind: EntryKind) -> Result<(), AllocError>
    ensures { OnOk result (out.new.items ≡ out.old.items ++ entry_text kind) }
{
    match kind {
        EntryKind::Int1 => out.extend_from_slice(b"int1"),
        EntryKind::Uint1 => out.extend_from_slice(b"uint1"),
        EntryKind::Int2 => out.extend_from_slice(b"int2"),
        EntryKind::Uint2 => out.extend_from_slice(b"uint2"),
        EntryKind::Int4 => out.extend_from_slice(b"int4"),
        EntryKind::Uint4 => out.extend_from_slice(b"uint4"),
        EntryKind::Pointer => out.extend_from_slice(b"pointer"),
        EntryKind::Uint1Shl1 => out.extend_from_slice(b"uint1_shl1"),
        EntryKind::Uint2Shl1 => out.extend_from_slice(b"uint2_shl1"),
        EntryKind::Int1Shl1 => out.extend_from_slice(b"int1_shl1"),
        EntryKind::Int2Shl1 => out.extend_from_slice(b"int2_shl1"),
        EntryKind::Unknown(number) => put_decimal(out, u64::from(number)),
    }
}

/// Why something was discarded.
pub fn put_discard(out: &mut Vec<u8>, why: Discard) -> Result<(), AllocError>
    ensures { OnOk result (out.new.items ≡ out.old.items ++ discard_text why) }
{
    match why {
        Discard::NotSaid => out.extend_from_slice(b"unknown"),
        Discard::NotSelected => out.extend_from_slice(b"not_selected"),
        Discard::NotReferenced => out.extend_from_slice(b"not_referenced"),
        Discard::Unknown(number) => put_decimal(out, u64::from(number)),
    }
}

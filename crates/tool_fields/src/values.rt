//! Values, each put behind what is there already.

ghost use Rattle.std.specs.Prelude.{◌≡◌, ◌++◌, codes, OnOk};
ghost use Rattle.pdb_text.specs.Digits.{hex, short_hex};
ghost use Rattle.tool_fields.specs.Values.{address_text, behind_blank, optional_text, place_text};

use pdb::PdbInternalSectionOffset;
use pdb_text::{hex4, hex8, put_decimal, put_one_line, put_short_hex};
use std::alloc::AllocError;

/// A section, `:` and an offset in it, in hex digits.
#[inline(always)]
#[tactic(auto, unfolding(pdb_text::specs::Digits::hex))]
fn place_digits(place: PdbInternalSectionOffset) -> [u8; 13]
    ensures { result ≡ place_text place }
{
    let s = hex4(place.section);
    let o = hex8(place.offset);
    [
        s[0], s[1], s[2], s[3], b':', o[0], o[1], o[2], o[3], o[4], o[5], o[6], o[7],
    ]
}

/// The same between blanks.
#[inline(always)]
#[tactic(auto, unfolding(pdb_text::specs::Digits::hex))]
pub fn place_field(place: PdbInternalSectionOffset) -> [u8; 15]
    ensures { result ≡ codes " " ++ place_text place ++ codes " " }
{
    let d = place_digits(place);
    [
        b' ', d[0], d[1], d[2], d[3], d[4], d[5], d[6], d[7], d[8], d[9], d[10], d[11], d[12], b' ',
    ]
}

/// The same, with a `-` for each of an address and a length that aren't there.
#[inline(always)]
#[tactic(auto, unfolding(pdb_text::specs::Digits::hex))]
pub fn bare_place_field(place: PdbInternalSectionOffset) -> [u8; 19]
    ensures { result ≡ codes " " ++ place_text place ++ codes " - - " }
{
    let d = place_digits(place);
    [
        b' ', d[0], d[1], d[2], d[3], d[4], d[5], d[6], d[7], d[8], d[9], d[10], d[11], d[12],
        b' ', b'-', b' ', b'-', b' ',
    ]
}

/// Appends a section, `:` and an offset in it, in hex digits.
pub fn put_place(out: &mut Vec<u8>, place: PdbInternalSectionOffset) -> Result<(), AllocError>
    ensures { OnOk result (out.new.items ≡ out.old.items ++ place_text place) }
{
    out.extend_from_slice(&place_digits(place))
}

/// A number, or `-` where there is none.
pub fn put_optional(out: &mut Vec<u8>, number: Option<u32>) -> Result<(), AllocError>
    ensures { OnOk result (out.new.items ≡ out.old.items ++ optional_text number) }
{
    match number {
        Some(number) => put_decimal(out, u64::from(number)),
        None => out.extend_from_slice(b"-"),
    }
}

/// An address of the image: `0x` and hex digits, or `-` where there is none.
pub fn put_address(out: &mut Vec<u8>, address: Option<u32>) -> Result<(), AllocError>
    ensures { OnOk result (out.new.items ≡ out.old.items ++ address_text address) }
{
    match address {
        Some(address) => {
            out.extend_from_slice(b"0x")?;
            put_short_hex(out, address)
        }
        None => Ok(out.push(b'-')?),
    }
}

/// A name on one line, behind a blank; nothing where it is empty.
pub fn put_behind_blank(out: &mut Vec<u8>, name: &[u8]) -> Result<(), AllocError>
    ensures { OnOk result (out.new.items ≡ out.old.items ++ behind_blank name.now) }
{
    if name.is_empty() {
        return Ok(());
    }
    out.push(b' ')?;
    put_one_line(out, name)
}

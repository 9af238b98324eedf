//! Values of single forms, each put behind what is there already.

ghost use Rattle.std.specs.Prelude.{◌≡◌, ◌++◌, [], ◌∷◌, codes, flat_map, OnOk};
ghost use Rattle.std.specs.Fmt.{decimal, signed_decimal};
ghost use Rattle.pdb.specs.Data.{shown_register, shown_registers, shown_thunk_kind};
ghost use Rattle.pdb_symbols.specs.declared.thunks.ThunkKind.TheVariants as does;
ghost use Rattle.pdb_text.specs.Digits.{hex};
ghost use Rattle.tool_fields.specs.ValueTexts.{bytes_text, language_text, more_registers, processor_text, qfe_text, register_text, registers_text, thunk_text, trampoline_text, variant_text, version_text};

use crate::register_names::put_register_name;
use pdb::{
    CompilerVersion, RawString, Register, ThunkAdjustor, ThunkKind, TrampolineType, Variant,
};
use pdb_records::{Machine, language_name, processor_name};
use pdb_text::{hex4, put_decimal, put_hex_bytes, put_hex2, put_hex4};
use std::alloc::AllocError;

/// A signed number in decimal digits.
pub fn put_signed(out: &mut Vec<u8>, n: i64) -> Result<(), AllocError>
    ensures { OnOk result (out.new.items ≡ out.old.items ++ signed_decimal n) }
{
    if (0..0x1_0000_0000).contains(&n) {
        return put_decimal(out, n as u64);
    }
    let alloc = *out.allocator();
    let text = format!(in alloc; "{n}")?;
    out.extend_from_slice(text.as_bytes())
}

/// A number of up to 128 bits in decimal digits.
pub fn put_wide(out: &mut Vec<u8>, n: i128) -> Result<(), AllocError>
    ensures { OnOk result (out.new.items ≡ out.old.items ++ signed_decimal n) }
{
    if (0..0x1_0000_0000).contains(&n) {
        return put_decimal(out, n as u64);
    }
    let alloc = *out.allocator();
    let text = format!(in alloc; "{n}")?;
    out.extend_from_slice(text.as_bytes())
}

/// A number of 128 bits from 0 on, in decimal digits.
pub fn put_unsigned(out: &mut Vec<u8>, n: u128) -> Result<(), AllocError>
    ensures { OnOk result (out.new.items ≡ out.old.items ++ decimal n) }
{
    let alloc = *out.allocator();
    let text = format!(in alloc; "{n}")?;
    out.extend_from_slice(text.as_bytes())
}

/// A number of any width, in decimal digits. A byte has a sign: it stands behind the prefix `LF_CHAR`.
pub fn put_variant(out: &mut Vec<u8>, value: Variant) -> Result<(), AllocError>
    ensures { OnOk result (out.new.items ≡ out.old.items ++ variant_text value) }
{
    match value {
        Variant::U8(n) => put_signed(out, i64::from(n.cast_signed())),
        Variant::U16(n) => put_decimal(out, u64::from(n)),
        Variant::U32(n) => put_decimal(out, u64::from(n)),
        Variant::U64(n) => put_decimal(out, n),
        Variant::I8(n) => put_signed(out, i64::from(n)),
        Variant::I16(n) => put_signed(out, i64::from(n)),
        Variant::I32(n) => put_signed(out, i64::from(n)),
        Variant::I64(n) => put_signed(out, n),
    }
}

/// The name of a language's number, or the number in two hex digits.
pub fn put_language(out: &mut Vec<u8>, number: u8) -> Result<(), AllocError>
    ensures { OnOk result (out.new.items ≡ out.old.items ++ language_text number) }
{
    match language_name(number) {
        Some(name) => out.extend_from_slice(name.as_bytes()),
        None => put_hex2(out, number),
    }
}

/// The name of a processor's number, or the number in four hex digits.
pub fn put_processor(out: &mut Vec<u8>, number: u16) -> Result<(), AllocError>
    ensures { OnOk result (out.new.items ≡ out.old.items ++ processor_text number) }
{
    match processor_name(number) {
        Some(name) => out.extend_from_slice(name.as_bytes()),
        None => put_hex4(out, number),
    }
}

/// The number of a quick fix behind a point, where there is one.
fn put_qfe(out: &mut Vec<u8>, qfe: Option<u16>) -> Result<(), AllocError>
    ensures { OnOk result (out.new.items ≡ out.old.items ++ qfe_text qfe) }
{
    match qfe {
        Some(number) => {
            out.push(b'.')?;
            put_decimal(out, u64::from(number))
        }
        None => Ok(()),
    }
}

/// A version's numbers with points between them.
pub fn put_version(out: &mut Vec<u8>, version: CompilerVersion) -> Result<(), AllocError>
    ensures { OnOk result (out.new.items ≡ out.old.items ++ version_text version) }
{
    put_decimal(out, u64::from(version.major))?;
    out.push(b'.')?;
    put_decimal(out, u64::from(version.minor))?;
    out.push(b'.')?;
    put_decimal(out, u64::from(version.build))?;
    put_qfe(out, version.qfe)
}

/// What a trampoline is for.
pub fn put_trampoline(out: &mut Vec<u8>, tramp_type: TrampolineType) -> Result<(), AllocError>
    ensures { OnOk result (out.new.items ≡ out.old.items ++ trampoline_text tramp_type) }
{
    match tramp_type {
        TrampolineType::Incremental => out.extend_from_slice(b"Incremental"),
        TrampolineType::BranchIsland => out.extend_from_slice(b"BranchIsland"),
        TrampolineType::Unknown => out.extend_from_slice(b"Unknown"),
    }
}

/// A text, and a number in decimal digits.
fn put_counted(out: &mut Vec<u8>, word: &[u8], n: u64) -> Result<(), AllocError>
    ensures { OnOk result (out.new.items ≡ out.old.items ++ (word.now ++ decimal n)) }
{
    out.extend_from_slice(word)?;
    put_decimal(out, n)
}

/// What a thunk adjusts, and the name of the function to which it leads.
fn put_adjustor(out: &mut Vec<u8>, adjustor: ThunkAdjustor<'_>) -> Result<(), AllocError>
    ensures { OnOk result (out.new.items ≡ out.old.items ++ thunk_text (shown_thunk_kind (does.Adjustor adjustor.entry))) }
{
    put_counted(out, b"adjustor:", u64::from(adjustor.delta()))?;
    out.push(b':')?;
    out.extend_from_slice(adjustor.target().as_bytes())
}

/// What a thunk does.
pub fn put_thunk_kind(out: &mut Vec<u8>, kind: ThunkKind<'_>) -> Result<(), AllocError>
    ensures { OnOk result (out.new.items ≡ out.old.items ++ thunk_text (shown_thunk_kind kind.entry)) }
{
    match kind {
        ThunkKind::NoType => out.extend_from_slice(b"no_type"),
        ThunkKind::Adjustor(adjustor) => put_adjustor(out, adjustor),
        ThunkKind::VCall(offset) => put_counted(out, b"v_call:", u64::from(offset)),
        ThunkKind::PCode => out.extend_from_slice(b"p_code"),
        ThunkKind::Load => out.extend_from_slice(b"load"),
        ThunkKind::Unknown(ordinal) => put_counted(out, b"unknown:", u64::from(ordinal)),
    }
}

/// A register's name on a machine, `:` and the name of what is in it.
fn put_register(
    out: &mut Vec<u8>,
    machine: Option<Machine>,
    register: &(Register, RawString<'_>),
) -> Result<(), AllocError>
    ensures { OnOk result (out.new.items ≡ out.old.items ++ register_text machine (shown_register register.now)) }
{
    put_register_name(out, machine, register.0)?;
    out.push(b':')?;
    out.extend_from_slice(register.1.as_bytes())
}

/// A register and the name of what is in it, behind a comma.
fn put_behind_comma(
    out: &mut Vec<u8>,
    machine: Option<Machine>,
    register: &(Register, RawString<'_>),
) -> Result<(), AllocError>
    ensures { OnOk result (out.new.items ≡ out.old.items ++ (codes "," ++ register_text machine (shown_register register.now))) }
{
    out.push(b',')?;
    put_register(out, machine, register)
}

/// The registers, each behind a comma.
fn put_more_registers(
    out: &mut Vec<u8>,
    machine: Option<Machine>,
    registers: &[(Register, RawString<'_>)],
) -> Result<(), AllocError>
    ensures { OnOk result (out.new.items ≡ out.old.items ++ more_registers machine (shown_registers registers.now)) }
{
    for register in registers {
        put_behind_comma(out, machine, register)?;
    }
    Ok(())
}

/// The registers joined by commas, or `-` where there is none.
pub fn put_registers(
    out: &mut Vec<u8>,
    machine: Option<Machine>,
    registers: &[(Register, RawString<'_>)],
) -> Result<(), AllocError>
    ensures { OnOk result (out.new.items ≡ out.old.items ++ registers_text machine (shown_registers registers.now)) }
{
    let Some((register, behind)) = registers.split_first() else {
        return out.extend_from_slice(b"-");
    };
    put_register(out, machine, register)?;
    put_more_registers(out, machine, behind)
}

/// The two hex digits of a byte.
#[inline(always)]
#[tactic(auto, unfolding(pdb_text::specs::Digits::hex))]
fn hex2(byte: u8) -> [u8; 2]
    ensures { result ≡ hex 2 byte }
{
    let digits = hex4(u16::from(byte));
    [digits[2], digits[3]]
}

/// Those of two bytes.
#[inline(always)]
fn hex_of_two(a: u8, b: u8) -> [u8; 4]
    ensures { result ≡ flat_map (hex 2) (a ∷ b ∷ []) }
{
    let a = hex2(a);
    let b = hex2(b);
    [a[0], a[1], b[0], b[1]]
}

/// Those of four bytes.
#[inline(always)]
fn hex_of_four(a: u8, b: u8, c: u8, d: u8) -> [u8; 8]
    ensures { result ≡ flat_map (hex 2) (a ∷ b ∷ c ∷ d ∷ []) }
{
    let a = hex2(a);
    let b = hex2(b);
    let c = hex2(c);
    let d = hex2(d);
    [a[0], a[1], b[0], b[1], c[0], c[1], d[0], d[1]]
}

/// The bytes in two hex digits each, of which there are three at most.
#[inline(always)]
fn put_few_bytes(out: &mut Vec<u8>, bytes: &[u8]) -> Result<(), AllocError>
    ensures { OnOk result (out.new.items ≡ out.old.items ++ flat_map (hex 2) bytes.now) }
{
    match bytes {
        [] => Ok(()),
        [a] => out.extend_from_slice(&hex2(*a)),
        [a, b] => out.extend_from_slice(&hex_of_two(*a, *b)),
        [a, b, c] => {
            out.extend_from_slice(&hex_of_two(*a, *b))?;
            out.extend_from_slice(&hex2(*c))
        }
        _ => put_hex_bytes(out, bytes),
    }
}

/// The bytes in two hex digits each, four at a time.
fn put_all_bytes(out: &mut Vec<u8>, bytes: &[u8]) -> Result<(), AllocError>
    ensures { OnOk result (out.new.items ≡ out.old.items ++ flat_map (hex 2) bytes.now) }
{
    let mut rest = bytes;
    while let [a, b, c, d, behind @ ..] = rest {
        out.extend_from_slice(&hex_of_four(*a, *b, *c, *d))?;
        rest = behind;
    }
    put_few_bytes(out, rest)
}

/// The bytes in two hex digits each, or `-` where there is none.
pub fn put_bytes(out: &mut Vec<u8>, bytes: &[u8]) -> Result<(), AllocError>
    ensures { OnOk result (out.new.items ≡ out.old.items ++ bytes_text bytes.now) }
{
    if bytes.is_empty() {
        return out.extend_from_slice(b"-");
    }
    put_all_bytes(out, bytes)
}

//! Simple types: their names and sizes, by their indices. `cvinfo.h` has them as `TYPE_ENUM_e`.

ghost use Rattle.std.specs.Prelude.{◌≡◌, ◌≤◌, ◌<◌, length, OnErr, OnOk};
ghost use Rattle.std.specs.Option.{option_map};
ghost use Rattle.pdb_types.specs.Cuts.{IsCut, IsKept};
ghost use Rattle.pdb_types.specs.SimpleTypes.{is_simple_pointer, kind_in, kind_size, kind_text, mode_size, simple_kind, simple_rows_1, simple_rows_2, simple_rows_3, simple_size, simple_text};
ghost use Rattle.pdb_types.specs.SimpleViews.{shown_kind};

use crate::cuts::put;
use std::alloc::AllocError;

// A kind of simple types: its name and its size in bytes.
#[derive(Clone, Copy)]
pub(crate) struct SimpleKind {
    name: &'static str,
    size: Option<u32>,
}

// The row of a table.
fn row(name: &'static str, size: u32) -> Option<SimpleKind>
    ensures { option_map shown_kind result ≡ Some (record { name = name.now; size = Some size }) }
{
    Some(SimpleKind {
        name,
        size: Some(size),
    })
}

// Kinds below 0x30.
fn kind_1(kind: u32) -> Option<SimpleKind>
    ensures { option_map shown_kind result ≡ kind_in simple_rows_1 kind }
{
    match kind {
        0x03 => row("void", 0),
        0x07 => Some(SimpleKind {
            name: "<not translated>",
            size: None,
        }),
        0x08 => row("HRESULT", 4),
        0x10 => row("signed char", 1),
        0x11 => row("short", 2),
        0x12 => row("long", 4),
        0x13 => row("__int64", 8),
        0x14 => row("__int128", 16),
        0x20 => row("unsigned char", 1),
        0x21 => row("unsigned short", 2),
        0x22 => row("unsigned long", 4),
        0x23 => row("unsigned __int64", 8),
        0x24 => row("unsigned __int128", 16),
        _ => None,
    }
}

// Kinds from 0x30 to 0x5f.
fn kind_2(kind: u32) -> Option<SimpleKind>
    ensures { option_map shown_kind result ≡ kind_in simple_rows_2 kind }
{
    match kind {
        0x30 => row("bool", 1),
        0x31 => row("__bool16", 2),
        0x32 => row("__bool32", 4),
        0x33 => row("__bool64", 8),
        0x34 => row("__bool128", 16),
        0x40 => row("float", 4),
        0x41 => row("double", 8),
        0x42 => row("long double", 10),
        0x43 => row("__float128", 16),
        0x44 => row("__float48", 6),
        0x45 => row("float", 4),
        0x46 => row("__half", 2),
        0x50 => row("_Complex float", 8),
        0x51 => row("_Complex double", 16),
        0x52 => row("_Complex long double", 20),
        0x53 => row("_Complex __float128", 32),
        0x54 => row("_Complex __float48", 12),
        0x55 => row("_Complex float", 8),
        0x56 => row("_Complex __half", 4),
        _ => None,
    }
}

// The others.
fn kind_3(kind: u32) -> Option<SimpleKind>
    ensures { option_map shown_kind result ≡ kind_in simple_rows_3 kind }
{
    match kind {
        0x68 => row("__int8", 1),
        0x69 => row("unsigned __int8", 1),
        0x70 => row("char", 1),
        0x71 => row("wchar_t", 2),
        0x72 => row("__int16", 2),
        0x73 => row("unsigned __int16", 2),
        0x74 => row("int", 4),
        0x75 => row("unsigned", 4),
        0x76 => row("__int64", 8),
        0x77 => row("unsigned __int64", 8),
        0x78 => row("__int128", 16),
        0x79 => row("unsigned __int128", 16),
        0x7a => row("char16_t", 2),
        0x7b => row("char32_t", 4),
        0x7c => row("char8_t", 1),
        _ => None,
    }
}

// The kind of a number.
fn simple_kind(kind: u32) -> Option<SimpleKind>
    ensures { option_map shown_kind result ≡ simple_kind kind }
{
    match kind {
        0..0x30 => kind_1(kind),
        0x30..0x60 => kind_2(kind),
        _ => kind_3(kind),
    }
}

// The name of a type of this kind and mode.
#[tactic(auto, using(crate::proofs::CutLemmas::kept_then, crate::proofs::CutLemmas::on_kept))]
fn put_kind(
    out: &mut Vec<u8>,
    limit: usize,
    mode: u32,
    kind: Option<SimpleKind>,
) -> Result<(), AllocError>
    requires { length out.old.items ≤ limit }
    ensures ok { OnOk result (IsCut limit out.old.items (kind_text mode (option_map shown_kind kind)) out.new.items) }
    ensures err { OnErr result (IsKept out.old.items out.new.items) }
{
    let Some(kind) = kind else {
        return put(out, limit, b"??");
    };
    match mode {
        0 => put(out, limit, kind.name.as_bytes()),
        1..=7 => {
            put(out, limit, kind.name.as_bytes())?;
            put(out, limit, b"*")
        }
        _ => put(out, limit, b"??"),
    }
}

// The name of a simple type.
#[tactic(auto, unfolding(crate::specs::SimpleTypes::simple_text))]
pub(crate) fn put_simple(out: &mut Vec<u8>, limit: usize, index: u32) -> Result<(), AllocError>
    requires { length out.old.items ≤ limit }
    ensures ok { OnOk result (IsCut limit out.old.items (simple_text index) out.new.items) }
    ensures err { OnErr result (IsKept out.old.items out.new.items) }
{
    match index {
        0 => put(out, limit, b"<no type>"),
        0x103 => put(out, limit, b"std::nullptr_t"),
        _ => put_kind(out, limit, index / 0x100, simple_kind(index % 0x100)),
    }
}

// Whether the qualifiers of a simple type stand behind its name.
pub(crate) fn is_simple_pointer(index: u32) -> bool
    ensures { result ≡ is_simple_pointer index }
{
    index != 0x103 && index / 0x100 > 0 && index / 0x100 < 8
}

// The size of a pointer of a mode.
fn mode_size(mode: u32) -> Option<u32>
    ensures { result ≡ mode_size mode }
{
    match mode {
        1 => Some(2),
        2..=4 => Some(4),
        5 => Some(6),
        6 => Some(8),
        7 => Some(16),
        _ => None,
    }
}

// The size of a type of this kind and mode.
fn kind_size(mode: u32, kind: Option<SimpleKind>) -> Option<u32>
    ensures { result ≡ kind_size mode (option_map shown_kind kind) }
{
    let kind = kind?;
    if mode == 0 {
        kind.size
    } else {
        mode_size(mode)
    }
}

// The size of a simple type in bytes.
#[tactic(auto, unfolding(crate::specs::SimpleTypes::simple_size))]
pub(crate) fn simple_size(index: u32) -> Option<u32>
    ensures { result ≡ simple_size index }
{
    if index == 0x103 {
        return None;
    }
    kind_size(index / 0x100, simple_kind(index % 0x100))
}

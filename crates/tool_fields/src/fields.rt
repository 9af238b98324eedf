//! Fields of several forms, each as ` FIELD=VALUE`.

ghost use Rattle.std.specs.Prelude.{◌≡◌, ◌++◌, codes, OnOk};
ghost use Rattle.std.specs.Fmt.{decimal, signed_decimal};
ghost use Rattle.pdb_text.specs.Digits.{hex};
ghost use Rattle.tool_fields.specs.FieldTexts.{body_fields, field, label, offset_field, reference_fields, register_field, scope_fields, span_fields, type_field};
ghost use Rattle.tool_fields.specs.Values.{optional_text, place_text};
ghost use Rattle.tool_fields.specs.ValueTexts.{bool_text, optional_index_text, register_on};

use crate::register_names::put_register_name;
use crate::values::{put_optional, put_place};
use crate::values_forms::put_signed;
use pdb::{PdbInternalSectionOffset, Register, SymbolIndex, TypeIndex};
use pdb_records::Machine;
use pdb_text::{put_decimal, put_hex8};
use std::alloc::AllocError;

/// The name of a field between a blank and `=`.
#[inline(always)]
#[tactic(auto, unfolding(crate::specs::FieldTexts::label))]
pub fn put_label(out: &mut Vec<u8>, name: &[u8]) -> Result<(), AllocError>
    ensures { OnOk result (out.new.items ≡ out.old.items ++ label name.now) }
{
    out.push(b' ')?;
    out.extend_from_slice(name)?;
    out.push(b'=')?;
    Ok(())
}

/// A number in decimal digits.
#[inline(always)]
#[tactic(auto, unfolding(crate::specs::FieldTexts::field))]
pub fn put_number(out: &mut Vec<u8>, name: &[u8], n: u32) -> Result<(), AllocError>
    ensures { OnOk result (out.new.items ≡ out.old.items ++ field name.now (decimal n)) }
{
    put_label(out, name)?;
    put_decimal(out, u64::from(n))
}

/// A number in decimal digits, or `-` where there is none.
#[tactic(auto, unfolding(crate::specs::FieldTexts::field))]
pub fn put_optional_number(
    out: &mut Vec<u8>,
    name: &[u8],
    number: Option<u32>,
) -> Result<(), AllocError>
    ensures { OnOk result (out.new.items ≡ out.old.items ++ field name.now (optional_text number)) }
{
    put_label(out, name)?;
    put_optional(out, number)
}

/// A number in eight hex digits.
#[inline(always)]
#[tactic(auto, unfolding(crate::specs::FieldTexts::field))]
pub fn put_index(out: &mut Vec<u8>, name: &[u8], n: u32) -> Result<(), AllocError>
    ensures { OnOk result (out.new.items ≡ out.old.items ++ field name.now (hex 8 n)) }
{
    put_label(out, name)?;
    put_hex8(out, n)
}

/// A symbol's index, or `-` where there is none.
#[tactic(auto, unfolding(crate::specs::FieldTexts::field))]
pub fn put_optional_index(
    out: &mut Vec<u8>,
    name: &[u8],
    index: Option<SymbolIndex>,
) -> Result<(), AllocError>
    ensures { OnOk result (out.new.items ≡ out.old.items ++ field name.now (optional_index_text index)) }
{
    match index {
        Some(index) => put_index(out, name, index.0),
        None => {
            put_label(out, name)?;
            out.extend_from_slice(b"-")
        }
    }
}

/// `true` or `false`.
#[inline(always)]
#[tactic(auto, unfolding(crate::specs::FieldTexts::field))]
pub fn put_bool(out: &mut Vec<u8>, name: &[u8], is_so: bool) -> Result<(), AllocError>
    ensures { OnOk result (out.new.items ≡ out.old.items ++ field name.now (bool_text is_so)) }
{
    put_label(out, name)?;
    if is_so {
        out.extend_from_slice(b"true")
    } else {
        out.extend_from_slice(b"false")
    }
}

/// A place.
#[inline(always)]
#[tactic(auto, unfolding(crate::specs::FieldTexts::field))]
pub fn put_place_field(
    out: &mut Vec<u8>,
    name: &[u8],
    place: PdbInternalSectionOffset,
) -> Result<(), AllocError>
    ensures { OnOk result (out.new.items ≡ out.old.items ++ field name.now (place_text place)) }
{
    put_label(out, name)?;
    put_place(out, place)
}

/// A type's index.
pub fn put_type(out: &mut Vec<u8>, type_index: TypeIndex) -> Result<(), AllocError>
    ensures { OnOk result (out.new.items ≡ out.old.items ++ type_field type_index) }
{
    put_index(out, b"type_index", type_index.0)
}

/// The symbol around one, the end of its scope, and the next one.
#[tactic(auto, unfolding(crate::specs::FieldTexts::scope_fields))]
pub fn put_scope(
    out: &mut Vec<u8>,
    parent: Option<SymbolIndex>,
    end: SymbolIndex,
    next: Option<SymbolIndex>,
) -> Result<(), AllocError>
    ensures { OnOk result (out.new.items ≡ out.old.items ++ scope_fields parent end next) }
{
    put_optional_index(out, b"parent", parent)?;
    put_index(out, b"end", end.0)?;
    put_optional_index(out, b"next", next)
}

/// The symbol around one, the end of its scope, and its length.
#[tactic(auto, unfolding(crate::specs::FieldTexts::span_fields))]
pub fn put_span(
    out: &mut Vec<u8>,
    parent: SymbolIndex,
    end: SymbolIndex,
    len: u32,
) -> Result<(), AllocError>
    ensures { OnOk result (out.new.items ≡ out.old.items ++ span_fields parent end len) }
{
    put_index(out, b"parent", parent.0)?;
    put_index(out, b"end", end.0)?;
    put_number(out, b"len", len)
}

/// A procedure's length, and where its body begins and ends.
#[tactic(auto, unfolding(crate::specs::FieldTexts::body_fields))]
pub fn put_body(out: &mut Vec<u8>, len: u32, start: u32, stop: u32) -> Result<(), AllocError>
    ensures { OnOk result (out.new.items ≡ out.old.items ++ body_fields len start stop) }
{
    put_number(out, b"len", len)?;
    put_number(out, b"dbg_start_offset", start)?;
    put_number(out, b"dbg_end_offset", stop)
}

/// A module's index in the list, or `-` where there is none.
#[tactic(auto, unfolding(crate::specs::FieldTexts::field))]
pub fn put_module(out: &mut Vec<u8>, of_module: Option<usize>) -> Result<(), AllocError>
    ensures { OnOk result (out.new.items ≡ out.old.items ++ field (codes "module") (optional_text of_module)) }
{
    match of_module {
        Some(index) => {
            put_label(out, b"module")?;
            put_decimal(out, index as u64)
        }
        None => {
            put_label(out, b"module")?;
            out.extend_from_slice(b"-")
        }
    }
}

/// What a reference names.
#[tactic(auto, unfolding(crate::specs::FieldTexts::reference_fields))]
pub fn put_reference(
    out: &mut Vec<u8>,
    sum_name: u32,
    symbol_index: SymbolIndex,
    of_module: Option<usize>,
) -> Result<(), AllocError>
    ensures { OnOk result (out.new.items ≡ out.old.items ++ reference_fields sum_name symbol_index of_module) }
{
    put_number(out, b"sum_name", sum_name)?;
    put_index(out, b"symbol_index", symbol_index.0)?;
    put_module(out, of_module)
}

/// A signed number in decimal digits.
#[tactic(auto, unfolding(crate::specs::FieldTexts::field))]
pub fn put_signed_field(out: &mut Vec<u8>, name: &[u8], n: i64) -> Result<(), AllocError>
    ensures { OnOk result (out.new.items ≡ out.old.items ++ field name.now (signed_decimal n)) }
{
    put_label(out, name)?;
    put_signed(out, n)
}

/// An offset from the value of a register.
pub fn put_offset(out: &mut Vec<u8>, offset: i32) -> Result<(), AllocError>
    ensures { OnOk result (out.new.items ≡ out.old.items ++ offset_field offset) }
{
    put_signed_field(out, b"offset", i64::from(offset))
}

/// A register by its name on a machine.
#[tactic(auto, unfolding(crate::specs::FieldTexts::field))]
pub fn put_named_register(
    out: &mut Vec<u8>,
    name: &[u8],
    machine: Option<Machine>,
    register: Register,
) -> Result<(), AllocError>
    ensures { OnOk result (out.new.items ≡ out.old.items ++ field name.now (register_on machine register)) }
{
    put_label(out, name)?;
    put_register_name(out, machine, register)
}

/// The register of a variable.
pub fn put_register(
    out: &mut Vec<u8>,
    machine: Option<Machine>,
    register: Register,
) -> Result<(), AllocError>
    ensures { OnOk result (out.new.items ≡ out.old.items ++ register_field machine register) }
{
    put_named_register(out, b"register", machine, register)
}

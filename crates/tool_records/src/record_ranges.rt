//! The fields of records of where variables are in ranges of code.

ghost use Rattle.std.specs.Prelude.{◌≡◌, ◌++◌, codes, None, OnOk};
ghost use Rattle.pdb_records.specs.RecordViews.{shown_record};
ghost use Rattle.pdb_records.specs.declared.record.Record.TheVariants as further;
ghost use Rattle.tool_fields.specs.FieldTexts.{field};
ghost use Rattle.tool_records.specs.RecordTexts.{says_text};
ghost use Rattle.tool_fields.specs.Values.{optional_text};

use crate::record_fields::put_ranged;
use pdb_records::{
    DefRange, DefRangeFramePointerRelative, DefRangeFramePointerRelativeFullScope,
    DefRangeRegister, DefRangeRegisterRelative, DefRangeSubfield, DefRangeSubfieldRegister,
    Machine,
};
use std::alloc::AllocError;
use tool_fields::fields::{put_bool, put_number, put_offset, put_optional_number, put_register};

/// The fields of a range in which a program computes a variable.
pub fn put_def_range(out: &mut Vec<u8>, symbol: &DefRange<'_>) -> Result<(), AllocError>
    ensures { OnOk result (out.new.items ≡ out.old.items ++ says_text None (shown_record (further.DefRange symbol.now))) }
{
    put_number(out, b"program", symbol.program)?;
    put_ranged(out, symbol.range, symbol.gaps)
}

/// The fields of a range in which a program computes a part of a variable.
pub fn put_def_range_subfield(
    out: &mut Vec<u8>,
    symbol: &DefRangeSubfield<'_>,
) -> Result<(), AllocError>
    ensures { OnOk result (out.new.items ≡ out.old.items ++ says_text None (shown_record (further.DefRangeSubfield symbol.now))) }
{
    put_number(out, b"program", symbol.program)?;
    put_number(out, b"offset_in_parent", symbol.offset_in_parent)?;
    put_ranged(out, symbol.range, symbol.gaps)
}

/// The fields of a range in which a variable is in a register.
pub fn put_def_range_register(
    out: &mut Vec<u8>,
    machine: Option<Machine>,
    symbol: &DefRangeRegister<'_>,
) -> Result<(), AllocError>
    ensures { OnOk result (out.new.items ≡ out.old.items ++ says_text machine (shown_record (further.DefRangeRegister symbol.now))) }
{
    put_register(out, machine, symbol.register)?;
    put_bool(out, b"maybe", symbol.maybe)?;
    put_ranged(out, symbol.range, symbol.gaps)
}

/// The fields of a range in which a variable is at an offset in the frame.
pub fn put_def_range_frame(
    out: &mut Vec<u8>,
    symbol: &DefRangeFramePointerRelative<'_>,
) -> Result<(), AllocError>
    ensures { OnOk result (out.new.items ≡ out.old.items ++ says_text None (shown_record (further.DefRangeFramePointerRelative symbol.now))) }
{
    put_offset(out, symbol.offset)?;
    put_ranged(out, symbol.range, symbol.gaps)
}

/// The fields of a range in which a part of a variable is in a register.
pub fn put_def_range_subfield_register(
    out: &mut Vec<u8>,
    machine: Option<Machine>,
    symbol: &DefRangeSubfieldRegister<'_>,
) -> Result<(), AllocError>
    ensures { OnOk result (out.new.items ≡ out.old.items ++ says_text machine (shown_record (further.DefRangeSubfieldRegister symbol.now))) }
{
    put_register(out, machine, symbol.register)?;
    put_bool(out, b"maybe", symbol.maybe)?;
    put_number(out, b"offset_in_parent", symbol.offset_in_parent)?;
    put_ranged(out, symbol.range, symbol.gaps)
}

/// The field of a variable at an offset in the frame, in all of its scope.
pub fn put_def_range_full_scope(
    out: &mut Vec<u8>,
    symbol: &DefRangeFramePointerRelativeFullScope,
) -> Result<(), AllocError>
    ensures { OnOk result (out.new.items ≡ out.old.items ++ says_text None (shown_record (further.DefRangeFramePointerRelativeFullScope symbol.now))) }
{
    put_offset(out, symbol.offset)
}

/// The offset of a part in its variable, or `-` for a whole variable.
fn put_subfield(out: &mut Vec<u8>, subfield: Option<u16>) -> Result<(), AllocError>
    ensures { OnOk result (out.new.items ≡ out.old.items ++ field (codes "subfield") (optional_text subfield)) }
{
    put_optional_number(out, b"subfield", subfield.map(u32::from))
}

/// The fields of a range in which a variable, or a part of one, is at an offset from the value of a register.
pub fn put_def_range_register_relative(
    out: &mut Vec<u8>,
    machine: Option<Machine>,
    symbol: &DefRangeRegisterRelative<'_>,
) -> Result<(), AllocError>
    ensures { OnOk result (out.new.items ≡ out.old.items ++ says_text machine (shown_record (further.DefRangeRegisterRelative symbol.now))) }
{
    put_register(out, machine, symbol.register)?;
    put_subfield(out, symbol.subfield)?;
    put_offset(out, symbol.offset)?;
    put_ranged(out, symbol.range, symbol.gaps)
}

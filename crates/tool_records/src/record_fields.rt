//! Fields that several further records have, each as ` FIELD=VALUE`.

ghost use Rattle.std.specs.Prelude.{◌≡◌, ◌++◌, codes, OnOk};
ghost use Rattle.pdb_records.specs.RecordViews.{gaps_in, strings_in};
ghost use Rattle.tool_fields.specs.FieldTexts.{field};
ghost use Rattle.tool_records.specs.RecordTexts.{attribute_fields, ranged_fields, strings_field};
ghost use Rattle.tool_fields.specs.RecordValues.{gap_text, joined_texts, range_text};
ghost use Rattle.tool_fields.specs.ValueTexts.{bytes_text};

use crate::record_flags::put_variable_flags;
use crate::record_lists::{put_gaps, put_strings};
use crate::record_values::put_range;
use pdb_records::{AddressRange, Attributes, Gaps, Strings};
use std::alloc::AllocError;
use tool_fields::fields::{put_label, put_place_field};
use tool_fields::values_forms::put_bytes;

/// A range of code.
#[tactic(auto, unfolding(tool_fields::specs::FieldTexts::field))]
fn put_range_field(out: &mut Vec<u8>, range: AddressRange) -> Result<(), AllocError>
    ensures { OnOk result (out.new.items ≡ out.old.items ++ field (codes "range") (range_text range)) }
{
    put_label(out, b"range")?;
    put_range(out, range)
}

/// The gaps of a range of code.
#[tactic(auto, unfolding(tool_fields::specs::FieldTexts::field))]
fn put_gaps_field(out: &mut Vec<u8>, gaps: Gaps<'_>) -> Result<(), AllocError>
    ensures { OnOk result (out.new.items ≡ out.old.items ++ field (codes "gaps") (joined_texts gap_text (gaps_in gaps.entry))) }
{
    put_label(out, b"gaps")?;
    put_gaps(out, gaps)
}

/// A range of code, and its gaps.
#[tactic(auto, unfolding(crate::specs::RecordTexts::ranged_fields))]
pub fn put_ranged(out: &mut Vec<u8>, range: AddressRange, gaps: Gaps<'_>) -> Result<(), AllocError>
    ensures { OnOk result (out.new.items ≡ out.old.items ++ ranged_fields range (gaps_in gaps.entry)) }
{
    put_range_field(out, range)?;
    put_gaps_field(out, gaps)
}

/// Strings.
#[tactic(auto, unfolding(tool_fields::specs::FieldTexts::field))]
pub fn put_strings_field(out: &mut Vec<u8>, strings: Strings<'_>) -> Result<(), AllocError>
    ensures { OnOk result (out.new.items ≡ out.old.items ++ strings_field (strings_in strings.entry)) }
{
    put_label(out, b"strings")?;
    put_strings(out, strings)
}

/// Where a managed variable begins to live, and its flags.
#[tactic(auto, unfolding(crate::specs::RecordTexts::attribute_fields))]
pub fn put_attributes(out: &mut Vec<u8>, attributes: Attributes) -> Result<(), AllocError>
    ensures { OnOk result (out.new.items ≡ out.old.items ++ attribute_fields attributes) }
{
    put_place_field(out, b"live", attributes.live)?;
    put_variable_flags(out, attributes.flags)
}

/// Bytes in hex digits.
#[tactic(auto, unfolding(tool_fields::specs::FieldTexts::field))]
pub fn put_bytes_field(out: &mut Vec<u8>, name: &[u8], bytes: &[u8]) -> Result<(), AllocError>
    ensures { OnOk result (out.new.items ≡ out.old.items ++ field name.now (bytes_text bytes.now)) }
{
    put_label(out, name)?;
    put_bytes(out, bytes)
}

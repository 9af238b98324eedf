//! The fields of records of the image, of object files, and of how they were made.

ghost use Rattle.std.specs.Prelude.{◌≡◌, ◌++◌, codes, None, OnOk};
ghost use Rattle.pdb_records.specs.RecordViews.{shown_record};
ghost use Rattle.pdb_records.specs.declared.record.Record.TheVariants as further;
ghost use Rattle.tool_fields.specs.FieldTexts.{field};
ghost use Rattle.tool_records.specs.RecordTexts.{says_text, section_fields};
ghost use Rattle.tool_fields.specs.RecordValues.{discard_text};

use crate::record_fields::{put_bytes_field, put_strings_field};
use crate::record_flags::{put_environment_flags, put_mini_reference_flags, put_module_type_flags};
use crate::record_values::put_discard;
use pdb_records::{
    CoffGroup, Compile, Discard, Discarded, EnvironmentBlock, MiniReference, ModuleTypeReference,
    Oem, Section, StartSearch,
};
use std::alloc::AllocError;
use tool_fields::fields::{
    put_index, put_label, put_module, put_number, put_place_field, put_type,
};
use tool_fields::values::put_behind_blank;

/// The fields and the name of a part of a section.
pub fn put_coff_group(out: &mut Vec<u8>, symbol: &CoffGroup<'_>) -> Result<(), AllocError>
    ensures { OnOk result (out.new.items ≡ out.old.items ++ says_text None (shown_record (further.CoffGroup symbol.now))) }
{
    put_number(out, b"len", symbol.len)?;
    put_index(out, b"characteristics", symbol.characteristics)?;
    put_place_field(out, b"offset", symbol.offset)?;
    put_behind_blank(out, symbol.name.as_bytes())
}

/// A section's number, its alignment, its address, and its length.
#[tactic(auto, unfolding(crate::specs::RecordTexts::section_fields))]
fn put_section_head(out: &mut Vec<u8>, symbol: &Section<'_>) -> Result<(), AllocError>
    ensures { OnOk result (out.new.items ≡ out.old.items ++ section_fields symbol.now.section symbol.now.alignment symbol.now.address symbol.now.len) }
{
    put_number(out, b"section", u32::from(symbol.section))?;
    put_number(out, b"alignment", u32::from(symbol.alignment))?;
    put_index(out, b"address", symbol.address)?;
    put_number(out, b"len", symbol.len)
}

/// The fields and the name of a section.
pub fn put_section(out: &mut Vec<u8>, symbol: &Section<'_>) -> Result<(), AllocError>
    ensures { OnOk result (out.new.items ≡ out.old.items ++ says_text None (shown_record (further.Section symbol.now))) }
{
    put_section_head(out, symbol)?;
    put_index(out, b"characteristics", symbol.characteristics)?;
    put_behind_blank(out, symbol.name.as_bytes())
}

/// The fields of an environment.
pub fn put_environment_block(
    out: &mut Vec<u8>,
    symbol: &EnvironmentBlock<'_>,
) -> Result<(), AllocError>
    ensures { OnOk result (out.new.items ≡ out.old.items ++ says_text None (shown_record (further.EnvironmentBlock symbol.now))) }
{
    put_environment_flags(out, symbol.rev)?;
    put_strings_field(out, symbol.strings)
}

/// The fields of a record of another maker.
pub fn put_oem(out: &mut Vec<u8>, symbol: &Oem<'_>) -> Result<(), AllocError>
    ensures { OnOk result (out.new.items ≡ out.old.items ++ says_text None (shown_record (further.Oem symbol.now))) }
{
    put_bytes_field(out, b"oem", symbol.id)?;
    put_type(out, symbol.type_index)?;
    put_bytes_field(out, b"data", symbol.content)
}

/// The fields of how a module's types are kept.
pub fn put_module_type_reference(
    out: &mut Vec<u8>,
    symbol: &ModuleTypeReference,
) -> Result<(), AllocError>
    ensures { OnOk result (out.new.items ≡ out.old.items ++ says_text None (shown_record (further.ModuleTypeReference symbol.now))) }
{
    put_module_type_flags(out, symbol.flags)?;
    put_number(out, b"word0", u32::from(symbol.word0))?;
    put_number(out, b"word1", u32::from(symbol.word1))
}

/// The fields and the name of a reference into an object file.
pub fn put_mini_reference(out: &mut Vec<u8>, symbol: &MiniReference<'_>) -> Result<(), AllocError>
    ensures { OnOk result (out.new.items ≡ out.old.items ++ says_text None (shown_record (further.MiniReference symbol.now))) }
{
    put_index(out, b"value", symbol.value)?;
    put_module(out, symbol.module)?;
    put_mini_reference_flags(out, symbol.flags)?;
    put_behind_blank(out, symbol.name.as_bytes())
}

/// Why something was discarded.
#[tactic(auto, unfolding(tool_fields::specs::FieldTexts::field))]
fn put_why(out: &mut Vec<u8>, why: Discard) -> Result<(), AllocError>
    ensures { OnOk result (out.new.items ≡ out.old.items ++ field (codes "why") (discard_text why)) }
{
    put_label(out, b"why")?;
    put_discard(out, why)
}

/// The fields of what the linker discarded.
pub fn put_discarded(out: &mut Vec<u8>, symbol: &Discarded<'_>) -> Result<(), AllocError>
    ensures { OnOk result (out.new.items ≡ out.old.items ++ says_text None (shown_record (further.Discarded symbol.now))) }
{
    put_why(out, symbol.why)?;
    put_number(out, b"file", symbol.file)?;
    put_number(out, b"line", symbol.line)?;
    put_bytes_field(out, b"data", symbol.content)
}

/// The fields of an old record of how a module was compiled, and the name of the compiler.
pub fn put_compile(out: &mut Vec<u8>, symbol: &Compile<'_>) -> Result<(), AllocError>
    ensures { OnOk result (out.new.items ≡ out.old.items ++ says_text None (shown_record (further.Compile symbol.now))) }
{
    put_number(out, b"cpu", u32::from(symbol.cpu))?;
    put_number(out, b"language", u32::from(symbol.language))?;
    put_number(out, b"flags", u32::from(symbol.flags))?;
    put_behind_blank(out, symbol.name.as_bytes())
}

/// The fields of where a search for symbols starts.
pub fn put_start_search(out: &mut Vec<u8>, symbol: &StartSearch) -> Result<(), AllocError>
    ensures { OnOk result (out.new.items ≡ out.old.items ++ says_text None (shown_record (further.StartSearch symbol.now))) }
{
    put_index(out, b"start", symbol.start.0)?;
    put_number(out, b"section", u32::from(symbol.section))
}

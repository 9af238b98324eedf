//! The fields of references, modules and compilers.

ghost use Rattle.std.specs.Prelude.{◌≡◌, ◌++◌, None, [], codes, OnOk};
ghost use Rattle.pdb.specs.Data.{shown};
ghost use Rattle.pdb.specs.Fields.{number};
ghost use Rattle.pdb.specs.Views.{symbol_of};
ghost use Rattle.pdb_symbols.specs.declared.data.SymbolData.TheVariants as says;
ghost use Rattle.pdb.specs.Text.{name_bytes};
ghost use Rattle.tool_fields.specs.FieldTexts.{compiled_fields, fields_text, version_fields};

use crate::fields::{put_bool, put_label, put_number, put_reference};
use crate::flags::{put_compile_flags, put_export_flags};
use crate::module_machine::{byte_at_two, word_at_six};
use crate::values_forms::{put_language, put_processor, put_version};
use pdb::{CompileFlags, CompileFlagsSymbol, ExportSymbol, ProcedureReferenceSymbol, Symbol};
use pdb_text::put_one_line;
use std::alloc::AllocError;

/// The fields of a reference to a procedure.
pub fn put_procedure_reference(
    out: &mut Vec<u8>,
    symbol: &ProcedureReferenceSymbol<'_>,
) -> Result<(), AllocError>
    ensures { OnOk result (out.new.items ≡ out.old.items ++ fields_text None [] (shown (says.ProcedureReference symbol.now))) }
{
    put_reference(out, symbol.sum_name, symbol.symbol_index, symbol.module)?;
    put_bool(out, b"global", symbol.global)
}

/// The fields of an export.
pub fn put_export(out: &mut Vec<u8>, symbol: &ExportSymbol<'_>) -> Result<(), AllocError>
    ensures { OnOk result (out.new.items ≡ out.old.items ++ fields_text None [] (shown (says.Export symbol.now))) }
{
    put_number(out, b"ordinal", u32::from(symbol.ordinal))?;
    put_export_flags(out, symbol.flags)
}

/// What a module was compiled from, how and for what, by the numbers in the record.
#[tactic(auto, unfolding(crate::specs::FieldTexts::compiled_fields, crate::specs::FieldTexts::field))]
fn put_compiled(
    out: &mut Vec<u8>,
    source: &Symbol<'_>,
    flags: CompileFlags,
) -> Result<(), AllocError>
    ensures { OnOk result (out.new.items ≡ out.old.items ++ compiled_fields (number (symbol_of source.now).bytes 2 1) flags (number (symbol_of source.now).bytes 6 2)) }
{
    put_label(out, b"language")?;
    put_language(out, byte_at_two(source.raw_bytes()))?;
    put_compile_flags(out, flags)?;
    put_label(out, b"cpu_type")?;
    put_processor(out, word_at_six(source.raw_bytes()))
}

/// The versions of a compiler's two parts, and what it says of itself.
#[tactic(auto, unfolding(crate::specs::FieldTexts::version_fields, crate::specs::FieldTexts::field))]
fn put_versions(out: &mut Vec<u8>, symbol: &CompileFlagsSymbol<'_>) -> Result<(), AllocError>
    ensures { OnOk result (out.new.items ≡ out.old.items ++ version_fields symbol.now.frontend_version symbol.now.backend_version (name_bytes symbol.now.version_string)) }
{
    put_label(out, b"frontend_version")?;
    put_version(out, symbol.frontend_version)?;
    put_label(out, b"backend_version")?;
    put_version(out, symbol.backend_version)?;
    put_label(out, b"version_string")?;
    put_one_line(out, symbol.version_string.as_bytes())
}

/// The fields of a compiler, of which this is the record.
pub fn put_compile_flags_symbol(
    out: &mut Vec<u8>,
    source: &Symbol<'_>,
    symbol: &CompileFlagsSymbol<'_>,
) -> Result<(), AllocError>
    ensures { OnOk result (out.new.items ≡ out.old.items ++ fields_text None (symbol_of source.now).bytes (shown (says.CompileFlags symbol.now))) }
{
    put_compiled(out, source, symbol.flags)?;
    put_versions(out, symbol)
}

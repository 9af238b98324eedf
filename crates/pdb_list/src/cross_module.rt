//! The lines of what modules export to one another and import.

ghost use Rattle.std.specs.Prelude.{◌≡◌, ◌++◌, OnOk, codes};
ghost use Rattle.pdb.specs.ModuleViews.{exports_left};
ghost use Rattle.pdb.specs.CrossModule.{Reference};
ghost use Rattle.pdb_list.specs.ModuleTexts.{export_kind_text, export_list_text, export_text, exports_of_text, import_of_text, reference_text};

use crate::text::{put_error, put_refusal};
use pdb::{
    CrossModuleExport, CrossModuleExportIter, CrossModuleRef, FallibleIterator, IdIndex, Local,
    ModuleInfo, ModuleRef,
};
use pdb_text::{hex8, hex8_field, put_decimal, put_line_end};
use std::alloc::{AllocError, Global};

/// `id` or `type`, and a space.
fn kind_of(export: CrossModuleExport) -> &'static [u8]
    ensures { result.now ≡ export_kind_text export }
{
    if export.is_id() { b"id " } else { b"type " }
}

/// The line of an export.
#[tactic(auto, unfolding(crate::specs::ModuleTexts::export_text))]
fn put_export(out: &mut Vec<u8>, export: CrossModuleExport) -> Result<(), AllocError>
    ensures { OnOk result (out.new.items ≡ out.old.items ++ export_text export) }
{
    out.extend_from_slice(b"export ")?;
    out.extend_from_slice(kind_of(export))?;
    out.extend_from_slice(&hex8(export.local_number()))?;
    out.extend_from_slice(&hex8_field(export.global_number()))?;
    put_line_end(out)
}

/// The lines of the exports that an iterator has left, and then that of its fault.
fn put_list(out: &mut Vec<u8>, mut exports: CrossModuleExportIter<'_>) -> Result<(), AllocError>
    ensures { OnOk result (out.new.items ≡ out.old.items ++ export_list_text (exports_left exports.entry)) }
{
    loop {
        match exports.next() {
            Ok(Some(export)) => put_export(out, export)?,
            Ok(None) => return Ok(()),
            Err(e) => return put_error(out, e.number()),
        }
    }
}

/// The lines of a module's exports, or of their error.
#[tactic(auto, unfolding(crate::specs::ModuleTexts::exports_of_text))]
pub fn put_exports(
    alloc: Global,
    out: &mut Vec<u8>,
    info: &ModuleInfo<'_>,
) -> Result<(), AllocError>
    ensures { OnOk result (out.new.items ≡ out.old.items ++ exports_of_text info.now) }
{
    match info.exports(alloc) {
        Ok(exports) => put_list(out, exports.exports()),
        Err(e) => put_refusal(out, e),
    }
}

/// The line of what an index refers to.
#[tactic(auto, unfolding(crate::specs::ModuleTexts::reference_text))]
fn put_reference(out: &mut Vec<u8>, reference: CrossModuleRef<IdIndex>) -> Result<(), AllocError>
    ensures { OnOk result (out.new.items ≡ out.old.items ++ reference_text (record { name = reference.0.0.0; local = reference.1.0.0 })) }
{
    let CrossModuleRef(ModuleRef(name), Local(IdIndex(local))) = reference;
    out.extend_from_slice(b"import ")?;
    put_decimal(out, u64::from(name.0))?;
    out.extend_from_slice(&hex8_field(local))?;
    put_line_end(out)
}

/// The line of what an index refers to in another module, or of the error of the imports or of the index.
#[tactic(auto, unfolding(crate::specs::ModuleTexts::import_of_text))]
pub fn put_import(
    alloc: Global,
    out: &mut Vec<u8>,
    info: &ModuleInfo<'_>,
    index: u32,
) -> Result<(), AllocError>
    ensures { OnOk result (out.new.items ≡ out.old.items ++ import_of_text index info.now) }
{
    let imports = match info.imports(alloc) {
        Ok(imports) => imports,
        Err(e) => return put_refusal(out, e),
    };
    match imports.resolve_import(IdIndex(index)) {
        Ok(reference) => put_reference(out, reference),
        Err(e) => put_refusal(out, e),
    }
}

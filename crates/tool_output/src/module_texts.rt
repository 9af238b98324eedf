//! The text of a module of a file.

ghost use Rattle.std.specs.Prelude.{◌≡◌, ◌≢◌, ◌++◌, ◌⊎◌, Some, IfOk, IfErr, OnOk, IsErrOf, true};
ghost use Rattle.pdb.specs.Error.{Error};
ghost use Rattle.pdb.specs.Listed.{listed};
ghost use Rattle.pdb.specs.Source.{Continues, MayFail};
ghost use Rattle.pdb_resolve.specs.ImportTables.{ids_by};
ghost use Rattle.tool_output.specs.ErrorObjects.{error_of, none_of};
ghost use Rattle.tool_output.specs.ModuleTexts.{entry_text, in_file, line_if, listed_text, module_line, module_in, there_text};
ghost use Rattle.tool_output.specs.Stops.{StopsComposing};

use crate::module_errors::{put_none_of, put_refused_of};
use crate::stop::{Stop, stop_of};
use pdb::{Module, ModuleInfo, ModuleList, PDB, Source};
use pdb_resolve::GlobalIds;
use pdb_text::{put_decimal, put_line_end};
use std::alloc::{AllocError, Global};
use tool_arguments::options::OutputFormat;
use tool_fields::values::put_behind_blank;

/// A text of a module.
pub trait ModuleText {
    ghost use Rattle.std.specs.Prelude.{ℕ, List, Option, ◌≡◌, ◌++◌, OnOk, false};
    ghost use Rattle.pdb.specs.ModuleStream.{ModuleBytes};
    ghost use Rattle.pdb_resolve.specs.ImportTables.{ids_by};

    /// That of the bytes of the module of an index, by the ids that the whole file knows.
    ghost text: { Self → (ℕ → Option ℕ) → ℕ → ModuleBytes → List ℕ };

    /// Whether it has names of inlined calls; without them it is the same by any ids.
    fn names_calls(&self) -> bool
        ensures { result ≡ false → (f g : ℕ → Option ℕ) (k : ℕ) (m : ModuleBytes) → Self.text self.now f k m ≡ Self.text self.now g k m };

    /// Puts it behind what is there. It fails with out of memory alone.
    fn put(
        &self,
        alloc: Global,
        out: &mut Vec<u8>,
        k: u64,
        info: &ModuleInfo<'_>,
        global: &GlobalIds<'_>,
    ) -> Result<(), AllocError>
        ensures { OnOk result (out.new.items ≡ out.old.items ++ Self.text self.now (ids_by global.now) k info.now) };
}

/// The line that names a module, by its index in the list.
#[tactic(auto, unfolding(crate::specs::ModuleTexts::module_line))]
fn put_module_line(out: &mut Vec<u8>, k: u64, module: &Module<'_>) -> Result<(), AllocError>
    ensures { OnOk result (out.new.items ≡ out.old.items ++ module_line k «module».now) }
{
    out.extend_from_slice(b"module ")?;
    put_decimal(out, k)?;
    put_behind_blank(out, module.raw_module_name().as_bytes())?;
    put_line_end(out)
}

/// The line that names a module in a text, where several are printed.
fn put_line_if(
    out: &mut Vec<u8>,
    format: OutputFormat,
    several: bool,
    k: u64,
    module: &Module<'_>,
) -> Result<(), AllocError>
    ensures { OnOk result (out.new.items ≡ out.old.items ++ line_if format several k «module».now) }
{
    match format {
        OutputFormat::Text if several => put_module_line(out, k, module),
        OutputFormat::Text | OutputFormat::Json => Ok(()),
    }
}

/// The ids that the whole file knows by those of a module, if a text has names of inlined calls.
fn ids_for<'a, 's, S: Source<'s>, T: ModuleText>(
    alloc: Global,
    pdb: &mut PDB<'s, S>,
    texts: &T,
    k: u64,
    info: &'a ModuleInfo<'_>,
) -> Result<GlobalIds<'a>, Stop>
    ensures continues { Continues pdb.old pdb.new }
    ensures ids { pdb.new.told ≡ true → IfOk result (λ g. T.text texts.now (ids_by g) k info.entry.now ≡ in_file (T.text texts.now) pdb.old.file k info.entry.now) }
    ensures unwritten { IfErr result (StopsComposing (MayFail pdb.old pdb.new)) }
{
    if !texts.names_calls() {
        return Ok(GlobalIds::empty(alloc));
    }
    match GlobalIds::read(alloc, pdb, info) {
        Ok(global) => Ok(global),
        Err(e) => Err(stop_of(e)),
    }
}

/// The text of the stream of module `k`.
fn put_info<'s, S: Source<'s>, T: ModuleText>(
    alloc: Global,
    pdb: &mut PDB<'s, S>,
    out: &mut Vec<u8>,
    texts: &T,
    k: u64,
    info: &ModuleInfo<'_>,
) -> Result<(), Stop>
    ensures continues { Continues pdb.old pdb.new }
    ensures text { pdb.new.told ≡ true → OnOk result (out.new.items ≡ out.old.items ++ in_file (T.text texts.now) pdb.old.file k info.now) }
    ensures unwritten { IfErr result (StopsComposing (MayFail pdb.old pdb.new)) }
{
    let global = ids_for(alloc, pdb, texts, k, info)?;
    Ok(texts.put(alloc, out, k, info, &global)?)
}

/// The text of what was found of module `k`, whose number was given.
fn put_found<'s, S: Source<'s>, T: ModuleText>(
    alloc: Global,
    pdb: &mut PDB<'s, S>,
    out: &mut Vec<u8>,
    format: OutputFormat,
    texts: &T,
    k: u64,
    found: pdb::Result<Option<ModuleInfo<'_>>>,
) -> Result<(), Stop>
    ensures continues { Continues pdb.old pdb.new }
    ensures found { pdb.new.told ≡ true → IfOk found.entry (λ m. OnOk result (out.new.items ≡ out.old.items ++ there_text (in_file (T.text texts.now) pdb.old.file k) (none_of format k) m)) }
    ensures refused { IfErr found.entry (λ e. OnOk result ((e ≢ Error.OutOfMemory) × (e ≢ Error.IoError) × (out.new.items ≡ out.old.items ++ error_of format k e))) }
    ensures unwritten { IfErr result (StopsComposing (IsErrOf found.entry Error.IoError ⊎ MayFail pdb.old pdb.new)) }
{
    match found {
        Ok(Some(info)) => put_info(alloc, pdb, out, texts, k, &info),
        Ok(None) => Ok(put_none_of(out, format, k)?),
        Err(e) => put_refused_of(out, format, k, e),
    }
}

/// The text of a module of this index, behind the line that names it where several are printed.
fn put_entry<'s, S: Source<'s>, T: ModuleText>(
    alloc: Global,
    pdb: &mut PDB<'s, S>,
    format: OutputFormat,
    texts: &T,
    several: bool,
    k: u32,
    module: &Module<'_>,
    out: &mut Vec<u8>,
) -> Result<(), Stop>
    ensures continues { Continues pdb.old pdb.new }
    ensures text { pdb.new.told ≡ true → OnOk result (out.new.items ≡ out.old.items ++ entry_text format several (in_file (T.text texts.now) pdb.old.file) pdb.old.file k (Some «module».now)) }
    ensures unwritten { IfErr result (StopsComposing (MayFail pdb.old pdb.new)) }
{
    put_line_if(out, format, several, u64::from(k), module)?;
    let found = pdb.module_info(module);
    put_found(alloc, pdb, out, format, texts, u64::from(k), found)
}

// piece: put_by_index
/// The text of the module of an index in a list, behind the line that names it where several are printed.
pub(crate) fn put_by_index<'s, S: Source<'s>, T: ModuleText>(
    alloc: Global,
    pdb: &mut PDB<'s, S>,
    list: &mut ModuleList<'_>,
    format: OutputFormat,
    texts: &T,
    several: bool,
    k: u32,
    out: &mut Vec<u8>,
) -> Result<(), Stop>
    ensures continues { Continues pdb.old pdb.new }
    ensures kept { OnOk result (listed list.new ≡ listed list.old) }
    ensures text { pdb.new.told ≡ true → OnOk result (out.new.items ≡ out.old.items ++ module_in format several (in_file (T.text texts.now) pdb.old.file) pdb.old.file (listed list.old) k) }
    ensures unwritten { IfErr result (StopsComposing (MayFail pdb.old pdb.new)) }
{
    list.read_to(k)?;
    match list.get(k) {
        Ok(Some(module)) => put_entry(alloc, pdb, format, texts, several, k, module, out),
        Ok(None) => Ok(put_none_of(out, format, u64::from(k))?),
        Err(e) => put_refused_of(out, format, u64::from(k), e),
    }
}
// end

/// The text of a module of the list, behind the line that names it.
#[tactic(auto, unfolding(crate::specs::ModuleTexts::listed_text))]
pub(crate) fn put_listed<'s, S: Source<'s>, T: ModuleText>(
    alloc: Global,
    pdb: &mut PDB<'s, S>,
    format: OutputFormat,
    texts: &T,
    several: bool,
    k: u64,
    module: &Module<'_>,
    out: &mut Vec<u8>,
) -> Result<(), Stop>
    ensures continues { Continues pdb.old pdb.new }
    ensures text { pdb.new.told ≡ true → OnOk result (out.new.items ≡ out.old.items ++ listed_text format several (in_file (T.text texts.now) pdb.old.file) pdb.old.file k «module».now) }
    ensures unwritten { IfErr result (StopsComposing (MayFail pdb.old pdb.new)) }
{
    match pdb.module_info(module) {
        Ok(Some(info)) => {
            put_line_if(out, format, several, k, module)?;
            put_info(alloc, pdb, out, texts, k, &info)
        }
        Ok(None) => Ok(()),
        Err(e) => {
            put_line_if(out, format, several, k, module)?;
            put_refused_of(out, format, k, e)
        }
    }
}

//! What is wrong with a file, or that nothing is.

ghost use Rattle.std.specs.Prelude.{◌≡◌, ◌≢◌, ◌++◌, codes, Ok, Err, OnOk, IfOk, IfErr, IsErrOf, true};
ghost use Rattle.std.specs.Fmt.{decimal};
ghost use Rattle.pdb.specs.DbiViews.{modules_left, modules_steps};
ghost use Rattle.pdb.specs.Error.{Error};
ghost use Rattle.pdb.specs.Source.{Continues, MayFail};
ghost use Rattle.tool_check.specs.Checks.{items_of, modules_of_file};
ghost use Rattle.tool_check.specs.CheckTexts.{check_text, findings_text, is_nothing, module_text, modules_text, stream_text};
ghost use Rattle.tool_output.specs.Stops.{StopsComposing};

use crate::check_module::put_parts;
use crate::check_streams::put_streams_of;
use crate::findings::put_refusal;
use crate::subject::{Subject, put_sound_in};
use pdb::{Error, FallibleIterator, Module, ModuleInfo, ModuleIter, PDB, Source};
use pdb_text::put_decimal;
use std::alloc::{AllocError, Global};
use tool_arguments::options::OutputFormat;
use tool_output::each_file::FileText;
use tool_output::stop::Stop;

/// How the labels of the module of a number begin.
fn module_part(alloc: Global, k: u64) -> Result<Vec<u8>, AllocError>
    ensures { IfOk result (λ v. v.items ≡ codes "module " ++ decimal k) }
{
    let mut part = Vec::new(alloc);
    part.extend_from_slice(b"module ")?;
    put_decimal(&mut part, k)?;
    Ok(part)
}

/// The lines of what was found of a module.
fn put_stream(
    alloc: Global,
    out: &mut Vec<u8>,
    subject: &Subject<'_>,
    found: pdb::Result<Option<ModuleInfo<'_>>>,
) -> Result<(), Stop>
    ensures ok { IfOk found.entry (λ m. OnOk result (out.new.items ≡ out.old.items ++ stream_text subject.now (Ok m))) }
    ensures err { IfErr found.entry (λ e. OnOk result ((e ≢ Error.OutOfMemory) × (e ≢ Error.IoError) × (out.new.items ≡ out.old.items ++ stream_text subject.now (Err e)))) }
    ensures unwritten { IfErr result (StopsComposing (IsErrOf found.entry Error.IoError)) }
{
    match found {
        Ok(Some(info)) => put_parts(alloc, out, subject, &info),
        Ok(None) => Ok(()),
        Err(e) => put_refusal(out, subject, b"", e),
    }
}

/// The lines of the module of this number.
#[tactic(auto, unfolding(crate::specs::CheckTexts::module_text))]
fn put_module<'s, S: Source<'s>>(
    alloc: Global,
    pdb: &mut PDB<'s, S>,
    out: &mut Vec<u8>,
    format: OutputFormat,
    name: &[u8],
    k: u64,
    module: &Module<'_>,
) -> Result<(), Stop>
    ensures continues { Continues pdb.old pdb.new }
    ensures text { pdb.new.told ≡ true → OnOk result (out.new.items ≡ out.old.items ++ module_text format name.now pdb.old.file k «module».now) }
    ensures unwritten { IfErr result (StopsComposing (MayFail pdb.old pdb.new)) }
{
    let part = module_part(alloc, k)?;
    let subject = Subject::new(format, name, &part);
    let found = pdb.module_info(module);
    put_stream(alloc, out, &subject, found)
}

/// The lines of the modules of a list, from its start.
fn put_listed<'s, S: Source<'s>>(
    alloc: Global,
    pdb: &mut PDB<'s, S>,
    out: &mut Vec<u8>,
    format: OutputFormat,
    name: &[u8],
    mut modules: ModuleIter<'_>,
) -> Result<(), Stop>
    requires { modules_steps modules ≡ 0 }
    ensures continues { Continues pdb.old pdb.new }
    ensures text { pdb.new.told ≡ true → OnOk result (out.new.items ≡ out.old.items ++ modules_text format name.now pdb.old.file 0 (modules_left modules.entry).items) }
    ensures unwritten { IfErr result (StopsComposing (MayFail pdb.old pdb.new)) }
{
    let mut k = 0;
    loop {
        match modules.next() {
            Ok(Some(listed)) => put_module(alloc, pdb, out, format, name, k, &listed)?,
            Ok(None) => return Ok(()),
            Err(_) => return Ok(()),
        }
        k += 1;
    }
}

/// The lines of the modules of a file; none if their list has an error.
#[tactic(auto, unfolding(crate::specs::Checks::modules_of_file))]
fn put_modules<'s, S: Source<'s>>(
    alloc: Global,
    pdb: &mut PDB<'s, S>,
    out: &mut Vec<u8>,
    format: OutputFormat,
    name: &[u8],
) -> Result<(), Stop>
    ensures continues { Continues pdb.old pdb.new }
    ensures text { pdb.new.told ≡ true → OnOk result (out.new.items ≡ out.old.items ++ modules_text format name.now pdb.old.file 0 (items_of (modules_of_file pdb.old.file))) }
    ensures unwritten { IfErr result (StopsComposing (MayFail pdb.old pdb.new)) }
{
    let stream = match pdb.debug_information() {
        Ok(stream) => stream,
        Err(Error::OutOfMemory) => return Err(Stop::Memory),
        Err(Error::IoError) => return Err(Stop::Read),
        Err(_) => return Ok(()),
    };
    match stream.modules() {
        Ok(modules) => put_listed(alloc, pdb, out, format, name, modules),
        Err(_) => Ok(()),
    }
}

/// All lines of what is wrong with an opened file.
#[tactic(auto, unfolding(crate::specs::CheckTexts::findings_text))]
fn put_findings<'s, S: Source<'s>>(
    alloc: Global,
    pdb: &mut PDB<'s, S>,
    out: &mut Vec<u8>,
    format: OutputFormat,
    name: &[u8],
) -> Result<(), Stop>
    ensures continues { Continues pdb.old pdb.new }
    ensures text { pdb.new.told ≡ true → OnOk result (out.new.items ≡ out.old.items ++ findings_text format name.now pdb.old.file) }
    ensures unwritten { IfErr result (StopsComposing (MayFail pdb.old pdb.new)) }
{
    let subject = Subject::new(format, name, b"");
    put_streams_of(alloc, pdb, out, &subject)?;
    put_modules(alloc, pdb, out, format, name)
}

/// What is printed of an opened file of this name: what is wrong with it, or that nothing is.
pub fn check_of<'s, S: Source<'s>>(
    alloc: Global,
    pdb: &mut PDB<'s, S>,
    format: OutputFormat,
    name: &[u8],
) -> Result<FileText, Stop>
    ensures continues { Continues pdb.old pdb.new }
    ensures text { pdb.new.told ≡ true → IfOk result (λ p. p.text.items ≡ check_text format name.now pdb.old.file) }
    ensures well { pdb.new.told ≡ true → IfOk result (λ p. p.is_well ≡ is_nothing (findings_text format name.now pdb.old.file)) }
    ensures unwritten { IfErr result (StopsComposing (MayFail pdb.old pdb.new)) }
{
    let mut text = Vec::new(alloc);
    put_findings(alloc, pdb, &mut text, format, name)?;
    let is_well = text.is_empty();
    if is_well {
        put_sound_in(&mut text, format, name)?;
    }
    Ok(FileText { text, is_well })
}

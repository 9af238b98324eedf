//! Texts of the modules of a file, printed one after another.

ghost use Rattle.std.specs.Prelude.{◌≡◌, ◌≢◌, ◌⊎◌, count_by, flat_map, IfOk, IfErr, OnOk, true};
ghost use Rattle.pdb.specs.Error.{Error};
ghost use Rattle.pdb.specs.DbiViews.{modules_left, modules_steps};
ghost use Rattle.pdb.specs.Modules.{modules_in};
ghost use Rattle.pdb.specs.Listed.{listed};
ghost use Rattle.pdb.specs.Source.{Continues, MayFail};
ghost use Rattle.tool_output.specs.ErrorObjects.{error_in, error_of};
ghost use Rattle.tool_output.specs.ModuleTexts.{all_listed, are_several, has_stream, in_file, indexed_listed, list_text, module_in, plain_listed, several_in};
ghost use Rattle.tool_output.specs.Stops.{Halts, StopsComposing};
ghost use Rattle.tool_printing.specs.Printing.{Prints, shown};

use crate::error_objects::put_refused_in;
use crate::module_errors::put_error_of;
use crate::module_texts::{ModuleText, put_by_index, put_listed};
use crate::stop::Stop;
use pdb::{DebugInformation, Error, FallibleIterator, Module, ModuleIter, ModuleList, PDB, Source};
use std::alloc::Global;
use tool_arguments::options::OutputFormat;
use tool_printing::Printer;

/// Whether more than one index is given.
fn are_several(indices: &[u32]) -> bool
    ensures { result ≡ are_several indices.now }
{
    indices.len() > 1
}

/// Prints the texts of the modules of these indices in a list. Each is composed and then printed.
fn print_each<'s, S: Source<'s>, T: ModuleText, P: Printer>(
    alloc: Global,
    pdb: &mut PDB<'s, S>,
    list: &mut ModuleList<'_>,
    format: OutputFormat,
    texts: &T,
    several: bool,
    indices: &[u32],
    out: &mut P,
) -> Result<(), Stop>
    ensures continues { Continues pdb.old pdb.new }
    ensures prints { pdb.new.told ≡ true → Prints (shown (flat_map (module_in format several (in_file (T.text texts.now) pdb.old.file) pdb.old.file (listed list.old)) indices.now)) (P.state out.old) (P.state out.new) result }
    ensures halts { Halts (MayFail pdb.old pdb.new) (P.state out.old) (P.state out.new) result }
{
    let mut text = Vec::new(alloc);
    for k in indices {
        text.clear();
        put_by_index(alloc, pdb, list, format, texts, several, *k, &mut text)?;
        out.print(&text)?;
    }
    Ok(())
}

/// The error of a list, unless it is that memory or the source failed.
fn list_error(e: Error) -> Result<Error, Stop>
    ensures same { IfOk result (λ x. (x ≡ e) × (e ≢ Error.OutOfMemory) × (e ≢ Error.IoError)) }
    ensures unwritten { IfErr result (StopsComposing (e ≡ Error.IoError)) }
{
    match e {
        Error::OutOfMemory => Err(Stop::Memory),
        Error::IoError => Err(Stop::Read),
        e => Ok(e),
    }
}

/// Prints an error of the list in place of the text of each module that is asked for.
fn print_each_refused<P: Printer>(
    alloc: Global,
    format: OutputFormat,
    e: Error,
    indices: &[u32],
    out: &mut P,
) -> Result<(), Stop>
    ensures prints { Prints (shown (flat_map (λ k. error_of format k e) indices.now)) (P.state out.old) (P.state out.new) result }
    ensures halts { Halts ⊥ (P.state out.old) (P.state out.new) result }
{
    let mut lines = Vec::new(alloc);
    for k in indices {
        put_error_of(&mut lines, format, u64::from(*k), e)?;
    }
    Ok(out.print(&lines)?)
}

/// Prints the texts of the modules of these indices, each behind the line that names it where there are several. The
/// list is read once.
pub fn print_indexed_listed<'s, S: Source<'s>, T: ModuleText, P: Printer>(
    alloc: Global,
    pdb: &mut PDB<'s, S>,
    format: OutputFormat,
    texts: &T,
    indices: &[u32],
    out: &mut P,
) -> Result<(), Stop>
    ensures continues { Continues pdb.old pdb.new }
    ensures prints { pdb.new.told ≡ true → Prints (shown (indexed_listed format (in_file (T.text texts.now) pdb.old.file) pdb.old.file indices.now)) (P.state out.old) (P.state out.new) result }
    ensures halts { Halts (MayFail pdb.old pdb.new) (P.state out.old) (P.state out.new) result }
{
    let information = match pdb.debug_information() {
        Ok(information) => information,
        Err(e) => return print_each_refused(alloc, format, list_error(e)?, indices, out),
    };
    match information.modules() {
        Ok(modules) => {
            let mut list = ModuleList::new(alloc, modules);
            let several = are_several(indices);
            print_each(alloc, pdb, &mut list, format, texts, several, indices, out)
        }
        Err(e) => print_each_refused(alloc, format, list_error(e)?, indices, out),
    }
}

/// Prints the line of an error outside modules. Out of memory, and a source that failed, are passed on.
pub fn print_refused<P: Printer>(
    alloc: Global,
    format: OutputFormat,
    e: Error,
    out: &mut P,
) -> Result<(), Stop>
    ensures prints { Prints (shown (error_in format e)) (P.state out.old) (P.state out.new) result }
    ensures halts { Halts (e ≡ Error.IoError) (P.state out.old) (P.state out.new) result }
    ensures passed { OnOk result ((e ≢ Error.OutOfMemory) × (e ≢ Error.IoError)) }
    ensures unread { e ≡ Error.OutOfMemory ⊎ e ≡ Error.IoError → P.state out.new ≡ P.state out.old }
{
    let mut line = Vec::new(alloc);
    put_refused_in(&mut line, format, e)?;
    Ok(out.print(&line)?)
}

/// Prints the texts of the modules that an iterator has left, and then the line of its fault.
fn print_left<'s, S: Source<'s>, T: ModuleText, P: Printer>(
    alloc: Global,
    pdb: &mut PDB<'s, S>,
    format: OutputFormat,
    texts: &T,
    several: bool,
    mut modules: ModuleIter<'_>,
    out: &mut P,
) -> Result<(), Stop>
    requires { modules_steps modules ≡ 0 }
    ensures continues { Continues pdb.old pdb.new }
    ensures prints { pdb.new.told ≡ true → Prints (shown (list_text format several (in_file (T.text texts.now) pdb.old.file) pdb.old.file 0 (modules_left modules.entry))) (P.state out.old) (P.state out.new) result }
    ensures halts { Halts (MayFail pdb.old pdb.new) (P.state out.old) (P.state out.new) result }
{
    let mut text = Vec::new(alloc);
    let mut k = 0;
    loop {
        text.clear();
        match modules.next() {
            Ok(Some(module)) => {
                put_listed(alloc, pdb, format, texts, several, k, &module, &mut text)?
            }
            Ok(None) => return Ok(()),
            Err(e) => return print_refused(alloc, format, e, out),
        }
        out.print(&text)?;
        k += 1;
    }
}

/// Whether a module has a stream.
fn has_stream(module: &Module<'_>) -> bool
    ensures { result ≡ has_stream «module».now }
{
    module.stream().0 != 0xffff
}

/// How many of the modules that an iterator has left are printed, up to its fault.
fn count_printed(mut modules: ModuleIter<'_>) -> u64
    requires { modules_steps modules ≡ 0 }
    ensures { result ≡ count_by has_stream (modules_left modules.entry).items }
{
    let mut count = 0;
    loop {
        match modules.next() {
            Ok(Some(module)) => {
                if has_stream(&module) {
                    count += 1;
                }
            }
            Ok(None) => return count,
            Err(_) => return count,
        }
    }
}

/// Whether more than one module of a list is printed.
fn has_several(information: &DebugInformation<'_>) -> bool
    ensures { result ≡ several_in (modules_in information.now) }
{
    match information.modules() {
        Ok(modules) => count_printed(modules) > 1,
        Err(_) => false,
    }
}

/// Prints the texts of all modules of the list, and then the line of its fault.
#[tactic(auto, unfolding(crate::specs::ModuleTexts::all_listed))]
pub fn print_all_listed<'s, S: Source<'s>, T: ModuleText, P: Printer>(
    alloc: Global,
    pdb: &mut PDB<'s, S>,
    format: OutputFormat,
    texts: &T,
    out: &mut P,
) -> Result<(), Stop>
    ensures continues { Continues pdb.old pdb.new }
    ensures prints { pdb.new.told ≡ true → Prints (shown (all_listed format (in_file (T.text texts.now) pdb.old.file) pdb.old.file)) (P.state out.old) (P.state out.new) result }
    ensures halts { Halts (MayFail pdb.old pdb.new) (P.state out.old) (P.state out.new) result }
{
    let information = match pdb.debug_information() {
        Ok(information) => information,
        Err(e) => return print_refused(alloc, format, e, out),
    };
    let several = has_several(&information);
    match information.modules() {
        Ok(modules) => print_left(alloc, pdb, format, texts, several, modules, out),
        Err(e) => print_refused(alloc, format, e, out),
    }
}

/// Prints the texts of all modules of the list without lines that name them, and then the line of its fault.
#[tactic(auto, unfolding(crate::specs::ModuleTexts::plain_listed))]
pub fn print_plain_listed<'s, S: Source<'s>, T: ModuleText, P: Printer>(
    alloc: Global,
    pdb: &mut PDB<'s, S>,
    format: OutputFormat,
    texts: &T,
    out: &mut P,
) -> Result<(), Stop>
    ensures continues { Continues pdb.old pdb.new }
    ensures prints { pdb.new.told ≡ true → Prints (shown (plain_listed format (in_file (T.text texts.now) pdb.old.file) pdb.old.file)) (P.state out.old) (P.state out.new) result }
    ensures halts { Halts (MayFail pdb.old pdb.new) (P.state out.old) (P.state out.new) result }
{
    let information = match pdb.debug_information() {
        Ok(information) => information,
        Err(e) => return print_refused(alloc, format, e, out),
    };
    match information.modules() {
        Ok(modules) => print_left(alloc, pdb, format, texts, false, modules, out),
        Err(e) => print_refused(alloc, format, e, out),
    }
}

//! Texts of the modules of a file, and of a file that has none.

ghost use Rattle.std.specs.Prelude.{◌≡◌, flat_map, true};
ghost use Rattle.pdb.specs.Source.{Continues, MayFail};
ghost use Rattle.tool_output.specs.ErrorObjects.{none_of};
ghost use Rattle.tool_output.specs.ModuleTexts.{all_text, in_file, indexed_text, modules_text, plain_text};
ghost use Rattle.tool_output.specs.Stops.{Halts};
ghost use Rattle.tool_printing.specs.Printing.{Prints, shown};

use crate::absent::{DEBUG_INFORMATION, lacks};
use crate::module_errors::put_none_of;
use crate::module_printing::{print_all_listed, print_indexed_listed, print_plain_listed};
use crate::module_texts::ModuleText;
use crate::stop::Stop;
use pdb::{PDB, Source};
use std::alloc::Global;
use tool_arguments::options::OutputFormat;
use tool_printing::Printer;

/// Prints the texts of all modules of the list, and then the line of its fault.
#[tactic(auto, unfolding(crate::specs::ModuleTexts::all_text))]
pub fn print_all<'s, S: Source<'s>, T: ModuleText, P: Printer>(
    alloc: Global,
    pdb: &mut PDB<'s, S>,
    format: OutputFormat,
    texts: &T,
    out: &mut P,
) -> Result<(), Stop>
    ensures continues { Continues pdb.old pdb.new }
    ensures prints { pdb.new.told ≡ true → Prints (shown (all_text format (in_file (T.text texts.now) pdb.old.file) pdb.old.file)) (P.state out.old) (P.state out.new) result }
    ensures halts { Halts (MayFail pdb.old pdb.new) (P.state out.old) (P.state out.new) result }
{
    if lacks(pdb, DEBUG_INFORMATION) {
        return Ok(());
    }
    print_all_listed(alloc, pdb, format, texts, out)
}

/// Prints the texts of all modules of the list without lines that name them, and then the line of its fault.
#[tactic(auto, unfolding(crate::specs::ModuleTexts::plain_text))]
pub fn print_plain<'s, S: Source<'s>, T: ModuleText, P: Printer>(
    alloc: Global,
    pdb: &mut PDB<'s, S>,
    format: OutputFormat,
    texts: &T,
    out: &mut P,
) -> Result<(), Stop>
    ensures continues { Continues pdb.old pdb.new }
    ensures prints { pdb.new.told ≡ true → Prints (shown (plain_text format (in_file (T.text texts.now) pdb.old.file) pdb.old.file)) (P.state out.old) (P.state out.new) result }
    ensures halts { Halts (MayFail pdb.old pdb.new) (P.state out.old) (P.state out.new) result }
{
    if lacks(pdb, DEBUG_INFORMATION) {
        return Ok(());
    }
    print_plain_listed(alloc, pdb, format, texts, out)
}

/// Prints that none of the modules of these indices is there.
fn print_each_missing<P: Printer>(
    alloc: Global,
    format: OutputFormat,
    indices: &[u32],
    out: &mut P,
) -> Result<(), Stop>
    ensures prints { Prints (shown (flat_map (none_of format) indices.now)) (P.state out.old) (P.state out.new) result }
    ensures halts { Halts ⊥ (P.state out.old) (P.state out.new) result }
{
    let mut lines = Vec::new(alloc);
    for k in indices {
        put_none_of(&mut lines, format, u64::from(*k))?;
    }
    Ok(out.print(&lines)?)
}

/// Prints the texts of the modules of these indices, each behind the line that names it where there are several.
#[tactic(auto, unfolding(crate::specs::ModuleTexts::indexed_text))]
pub fn print_indexed<'s, S: Source<'s>, T: ModuleText, P: Printer>(
    alloc: Global,
    pdb: &mut PDB<'s, S>,
    format: OutputFormat,
    texts: &T,
    indices: &[u32],
    out: &mut P,
) -> Result<(), Stop>
    ensures continues { Continues pdb.old pdb.new }
    ensures prints { pdb.new.told ≡ true → Prints (shown (indexed_text format (in_file (T.text texts.now) pdb.old.file) pdb.old.file indices.now)) (P.state out.old) (P.state out.new) result }
    ensures halts { Halts (MayFail pdb.old pdb.new) (P.state out.old) (P.state out.new) result }
{
    if lacks(pdb, DEBUG_INFORMATION) {
        return print_each_missing(alloc, format, indices, out);
    }
    print_indexed_listed(alloc, pdb, format, texts, indices, out)
}

/// Prints the texts of the modules of these numbers; of all where there is no number.
pub fn print_modules<'s, S: Source<'s>, T: ModuleText, P: Printer>(
    alloc: Global,
    pdb: &mut PDB<'s, S>,
    format: OutputFormat,
    texts: &T,
    indices: &[u32],
    out: &mut P,
) -> Result<(), Stop>
    ensures continues { Continues pdb.old pdb.new }
    ensures prints { pdb.new.told ≡ true → Prints (shown (modules_text format (in_file (T.text texts.now) pdb.old.file) pdb.old.file indices.now)) (P.state out.old) (P.state out.new) result }
    ensures halts { Halts (MayFail pdb.old pdb.new) (P.state out.old) (P.state out.new) result }
{
    if indices.is_empty() {
        print_all(alloc, pdb, format, texts, out)
    } else {
        print_indexed(alloc, pdb, format, texts, indices, out)
    }
}

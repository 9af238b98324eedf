//! What is wrong with the streams of a file, its modules aside: those that are missing with the DBI stream are
//! left out.

ghost use Rattle.std.specs.Prelude.{◌≡◌, ◌++◌, ◌⊎◌, OnOk, IfOk, IfErr, true};
ghost use Rattle.pdb.specs.Source.{Continues, MayFail};
ghost use Rattle.tool_check.specs.CheckTexts.{debug_parts_text, file_text, streams_text, tables_text};
ghost use Rattle.tool_output.specs.Stops.{StopsComposing};
ghost use Rattle.tool_output.specs.declared.stop.Stop.{Stop};

use crate::check_file::{put_first, put_globals, put_items, put_lists};
use crate::file_parts::{FilePart, put_part};
use crate::subject::Subject;
use pdb::{PDB, Source};
use std::alloc::Global;
use tool_output::absent::{DEBUG_INFORMATION, lacks};
use tool_output::stop::Stop;

/// The lines of the DBI stream, of its lists, of the section headers, the address map and the frame table.
#[tactic(auto, unfolding(crate::specs::CheckTexts::debug_parts_text))]
fn put_debug_parts<'s, S: Source<'s>>(
    pdb: &mut PDB<'s, S>,
    out: &mut Vec<u8>,
    subject: &Subject<'_>,
) -> Result<(), Stop>
    ensures continues { Continues pdb.old pdb.new }
    ensures text { pdb.new.told ≡ true → OnOk result (out.new.items ≡ out.old.items ++ debug_parts_text subject.now pdb.old.file) }
    ensures unwritten { IfErr result (StopsComposing (MayFail pdb.old pdb.new)) }
{
    put_part(pdb, out, subject, FilePart::DebugInformation)?;
    put_lists(pdb, out, subject)?;
    put_part(pdb, out, subject, FilePart::Sections)?;
    put_part(pdb, out, subject, FilePart::AddressMap)?;
    put_part(pdb, out, subject, FilePart::FrameTable)
}

/// The lines of the streams up to the frame table.
#[tactic(auto, unfolding(crate::specs::CheckTexts::streams_text))]
fn put_streams<'s, S: Source<'s>>(
    alloc: Global,
    pdb: &mut PDB<'s, S>,
    out: &mut Vec<u8>,
    subject: &Subject<'_>,
    is_empty: bool,
) -> Result<(), Stop>
    ensures continues { Continues pdb.old pdb.new }
    ensures text { pdb.new.told ≡ true → OnOk result (out.new.items ≡ out.old.items ++ streams_text is_empty subject.now pdb.old.file) }
    ensures unwritten { IfErr result (StopsComposing (MayFail pdb.old pdb.new)) }
{
    put_first(alloc, pdb, out, subject)?;
    if is_empty {
        return Ok(());
    }
    put_debug_parts(pdb, out, subject)
}

/// The lines of the string table, the global symbols, the types and the ids.
#[tactic(auto, unfolding(crate::specs::CheckTexts::tables_text))]
fn put_tables<'s, S: Source<'s>>(
    alloc: Global,
    pdb: &mut PDB<'s, S>,
    out: &mut Vec<u8>,
    subject: &Subject<'_>,
    is_empty: bool,
) -> Result<(), Stop>
    ensures continues { Continues pdb.old pdb.new }
    ensures text { pdb.new.told ≡ true → OnOk result (out.new.items ≡ out.old.items ++ tables_text is_empty subject.now pdb.old.file) }
    ensures unwritten { IfErr result (StopsComposing (MayFail pdb.old pdb.new)) }
{
    put_part(pdb, out, subject, FilePart::StringTable)?;
    if !is_empty {
        put_globals(alloc, pdb, out, subject)?;
    }
    put_items(alloc, pdb, out, subject)
}

/// The lines of what is wrong with all but the modules, behind what each of them begins with.
pub fn put_streams_of<'s, S: Source<'s>>(
    alloc: Global,
    pdb: &mut PDB<'s, S>,
    out: &mut Vec<u8>,
    subject: &Subject<'_>,
) -> Result<(), Stop>
    ensures continues { Continues pdb.old pdb.new }
    ensures text { pdb.new.told ≡ true → OnOk result (out.new.items ≡ out.old.items ++ file_text subject.now pdb.old.file) }
    ensures unwritten { IfErr result (StopsComposing (MayFail pdb.old pdb.new)) }
{
    let is_empty = lacks(pdb, DEBUG_INFORMATION);
    put_streams(alloc, pdb, out, subject, is_empty)?;
    put_tables(alloc, pdb, out, subject, is_empty)
}

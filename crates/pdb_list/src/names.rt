//! The lines of the names of streams.

ghost use Rattle.std.specs.Prelude.{◌≡◌, ◌++◌, true, OnOk, codes, flat_map};
ghost use Rattle.pdb.specs.Source.{Continues};
ghost use Rattle.pdb.specs.DbiViews.{stream_name};
ghost use Rattle.pdb_list.specs.Unfailed.{Unfailed};
ghost use Rattle.pdb_list.specs.Texts.{names_text, stream_name_text};

use crate::text::{put_refusal, put_stream};
use pdb::{PDB, PDBInformation, Source, StreamName, StreamNames};
use pdb_text::put_line_end;
use std::alloc::{AllocError, Global};

/// The line of a name.
#[tactic(auto, unfolding(crate::specs::Texts::stream_name_text))]
fn put_name(out: &mut Vec<u8>, listed: &StreamName<'_>) -> Result<(), AllocError>
    ensures { OnOk result (out.new.items ≡ out.old.items ++ stream_name_text (stream_name listed.now)) }
{
    out.extend_from_slice(b"name ")?;
    put_stream(out, listed.stream_id)?;
    out.push(b' ')?;
    out.extend_from_slice(listed.name.as_bytes())?;
    put_line_end(out)
}

/// The lines of names.
fn put_list(out: &mut Vec<u8>, names: &StreamNames<'_>) -> Result<(), AllocError>
    ensures { OnOk result (out.new.items ≡ out.old.items ++ flat_map stream_name_text names.now) }
{
    for listed in names.iter() {
        put_name(out, listed)?;
    }
    Ok(())
}

/// The lines of the names of streams, or of their error.
#[tactic(auto, unfolding(crate::specs::Texts::names_text))]
pub fn put_names<'s, S: Source<'s>>(
    alloc: Global,
    out: &mut Vec<u8>,
    pdb: &mut PDB<'s, S>,
) -> Result<(), AllocError>
    ensures continues { Continues pdb.old pdb.new }
    ensures text { pdb.new.told ≡ true → Unfailed pdb.old pdb.new → OnOk result (out.new.items ≡ out.old.items ++ names_text pdb.old.file) }
{
    let stream = match pdb.pdb_information() {
        Ok(stream) => stream,
        Err(e) => return put_refusal(out, e),
    };
    match stream.stream_names(alloc) {
        Ok(names) => put_list(out, &names),
        Err(e) => put_refusal(out, e),
    }
}

//! The parts of a file that are whole or have one error, and the lines of these errors.

ghost use Rattle.std.specs.Prelude.{◌≡◌, ◌++◌, ◌⊎◌, OnOk, IfErr, IfSome, true};
ghost use Rattle.pdb.specs.Error.{Error};
ghost use Rattle.pdb.specs.Source.{Continues, MayFail};
ghost use Rattle.tool_check.specs.Checks.{IsErrorOf, error_of};
ghost use Rattle.tool_check.specs.CheckTexts.{part_label, part_text};
ghost use Rattle.tool_output.specs.Stops.{StopsComposing};
ghost use Rattle.tool_output.specs.declared.stop.Stop.{Stop};

use crate::findings::put_refusal;
use crate::subject::Subject;
use pdb::{Error, PDB, Source};
use tool_output::stop::Stop;

/// A part of a file that is read by one call, so that it has one error at most.
#[derive(Clone, Copy, Debug, PartialEq, Eq)]
pub enum FilePart {
    /// The information stream.
    Information,
    /// The DBI stream.
    DebugInformation,
    /// The section headers of the image.
    Sections,
    /// The address map.
    AddressMap,
    /// The frame table.
    FrameTable,
    /// The string table.
    StringTable,
}

/// What the line of a part's error begins with.
fn label_of(part: FilePart) -> &'static [u8]
    ensures { result.now ≡ part_label part }
{
    match part {
        FilePart::Information => b"information",
        FilePart::DebugInformation => b"debug information",
        FilePart::Sections => b"sections",
        FilePart::AddressMap => b"address map",
        FilePart::FrameTable => b"frame table",
        FilePart::StringTable => b"string table",
    }
}

/// The error of a part, if it can't be read.
fn error_of<'s, S: Source<'s>>(pdb: &mut PDB<'s, S>, part: FilePart) -> Option<Error>
    ensures continues { Continues pdb.old pdb.new }
    ensures failed { IfSome result (λ e. e ≡ Error.IoError → MayFail pdb.old pdb.new) }
    ensures is { pdb.new.told ≡ true → IsErrorOf (MayFail pdb.old pdb.new) result (error_of part pdb.old.file) }
{
    match part {
        FilePart::Information => pdb.pdb_information().err(),
        FilePart::DebugInformation => pdb.debug_information().err(),
        FilePart::Sections => pdb.sections().err(),
        FilePart::AddressMap => pdb.address_map().err(),
        FilePart::FrameTable => pdb.frame_table().err(),
        FilePart::StringTable => pdb.string_table().err(),
    }
}

/// The line of a part's error, if it has one.
#[inline(always)]
#[tactic(auto, unfolding(crate::specs::CheckTexts::part_text))]
pub fn put_part<'s, S: Source<'s>>(
    pdb: &mut PDB<'s, S>,
    out: &mut Vec<u8>,
    subject: &Subject<'_>,
    part: FilePart,
) -> Result<(), Stop>
    ensures continues { Continues pdb.old pdb.new }
    ensures text { pdb.new.told ≡ true → OnOk result (out.new.items ≡ out.old.items ++ part_text subject.now part pdb.old.file) }
    ensures unwritten { IfErr result (StopsComposing (MayFail pdb.old pdb.new)) }
{
    match error_of(pdb, part) {
        Some(e) => put_refusal(out, subject, label_of(part), e),
        None => Ok(()),
    }
}

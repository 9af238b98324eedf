//! Commands over several files: their keys, and what is wrong with them.

ghost use Rattle.std.specs.Prelude.{◌≡◌, ⊤, Err, IfErr, IfOk, IsErrOf, Ok, true};
ghost use Rattle.pdb.specs.Container.{opens};
ghost use Rattle.pdb.specs.Error.{Error};
ghost use Rattle.tool_output.specs.EachFile.{GivesText, file_text_view};
ghost use Rattle.tool_output.specs.Stops.{StopsOpening};
ghost use Rattle.tool_output.specs.declared.stop.Stop.{Stop};
ghost use Rattle.tool_program.specs.Hosts.{OfKnown};
ghost use Rattle.tool_program.specs.SeveralFiles.{checked_by};

use crate::host::Host;
use crate::key_line::key_line;
use crate::messages::report_stop;
use bumpalo::Bump;
use pdb_file::{KnownFile, ReadAt, ReadingSource};
use std::alloc::Global;
use std::io::Write;
use tool_arguments::operands::Operand;
use tool_arguments::options::{KeyFormat, OutputFormat};
use tool_check::checks::check_of;
use tool_output::each_file::{EachFile, FileText};
use tool_output::opening::opened;
use tool_output::stop::Stop;

/// The keys of files.
#[derive(Drop)]
pub struct Keys<'h, H> {
    host: &'h H,
    format: KeyFormat,
}

impl<'h, H: Host> Keys<'h, H> {
    /// The keys of a host's files, in a format.
    pub fn new(host: &'h H, format: KeyFormat) -> Self {
        Keys { host, format }
    }
}

impl<'h, H: Host> EachFile for Keys<'h, H> {
    ghost use Rattle.tool_program.specs.SeveralFiles.{keyed};

    ghost is_known = { λ k. H.is_known k.host.now };

    ghost printed = { λ k name. keyed k.format name (H.file k.host.now name) };

    fn text_of(&self, name: Operand<'_>) -> Result<FileText, Stop> {
        let bytes = self.host.open(name)?;
        let word = name.word.as_bytes();
        let text = key_line(self.host.alloc(), self.format, &bytes, bytes.size(), word)?;
        Ok(FileText {
            text,
            is_well: true,
        })
    }

    fn pass_over<E: Write>(&self, stop: Stop, name: Operand<'_>, err: &mut E) {
        report_stop(self.host, stop, name.word, err);
    }
}

/// What is printed of a file of this size: what is wrong with it, or that nothing is.
fn check_file<R: ReadAt>(
    alloc: Global,
    format: OutputFormat,
    bytes: &R,
    size: u64,
    name: &[u8],
) -> Result<FileText, Stop>
    ensures gives { R.is_steady bytes.now ≡ true → OfKnown (R.known bytes.now) size (λ F. GivesText result (checked_by format name.now F (opens F))) }
    ensures refused { OfKnown (R.known bytes.now) size (λ F. (e : Error) → IsErrOf result (Stop.Open e) → opens F ≡ Err e) }
    ensures stops { IfErr result (StopsOpening ⊤) }
    ensures text { OfKnown (R.known bytes.now) size (λ F. IfOk result (λ p. checked_by format name.now F (opens F) ≡ Ok (file_text_view p))) }
{
    let arena = Bump::new(alloc);
    let file = KnownFile::new(bytes);
    let source = ReadingSource::new(alloc, &arena, bytes, &file, size);
    let mut pdb = opened(alloc, source)?;
    check_of(alloc, &mut pdb, format, name)
}

/// What is wrong with files.
#[derive(Drop)]
pub struct Checks<'h, H> {
    host: &'h H,
    format: OutputFormat,
}

impl<'h, H: Host> Checks<'h, H> {
    /// What is wrong with a host's files, in a format.
    pub fn new(host: &'h H, format: OutputFormat) -> Self {
        Checks { host, format }
    }
}

impl<'h, H: Host> EachFile for Checks<'h, H> {
    ghost use Rattle.tool_program.specs.SeveralFiles.{checked};

    ghost is_known = { λ k. H.is_known k.host.now };

    ghost printed = { λ k name. checked k.format name (H.file k.host.now name) };

    fn text_of(&self, name: Operand<'_>) -> Result<FileText, Stop> {
        let bytes = self.host.open(name)?;
        let word = name.word.as_bytes();
        check_file(self.host.alloc(), self.format, &bytes, bytes.size(), word)
    }

    fn pass_over<E: Write>(&self, stop: Stop, name: Operand<'_>, err: &mut E) {
        report_stop(self.host, stop, name.word, err);
    }
}

//! The line records of a module, each found where it stands.

ghost use Rattle.std.specs.Prelude.{◌≡◌, ◌≢◌, [], map, length, IfOk, IfErr};
ghost use Rattle.pdb_modules.specs.KeptRows.{subsection_of};
ghost use Rattle.pdb_modules.specs.LineOrder.{InOrder};
ghost use Rattle.pdb_modules.specs.LineProgram.{listed_subsections};

use crate::files::{FileInfo, file_info};
use crate::line_info::LineInfo;
use crate::line_program::Listed;
use crate::line_search::find_in_part;
use crate::line_subsection::LineSubsection;
use crate::parts::ordered_parts;
use crate::search::count_upto;
use pdb_base::{Error, FileIndex, PdbInternalSectionOffset, Result, Steps};
use std::alloc::Global;
use std::marker::Model;

/// The line subsections of a module, among whose entries the record of a place is found as they stand: none is kept. A
/// contract sees them as it sees a `LineProgram`.
#[derive(Drop)]
pub struct LinePlaces<'a> {
    listed: Vec<Listed<'a>>,
    // The part of files' checksums.
    checksums: &'a [u8],
    // The bytes in which the subsections stand.
    lines_data: &'a [u8],
}

impl<'a> Model for LinePlaces<'a> {
    ghost use Rattle.pdb_modules.specs.LineProgram.{ProgramOf, listed_subsections};
    ghost use Rattle.pdb_modules.specs.LineOrder.{InOrder};

    ghost Value = { ProgramOf };

    ghost view = { λ p. record { subsections = listed_subsections p.listed.items; checksums = p.checksums.now; bytes = p.lines_data.now } };

    ghost invariant = { λ p. InOrder (listed_subsections p.listed.items) };
}

/// These subsections, of which no rows are kept.
fn listed_parts<'a>(alloc: Global, parts: &[LineSubsection<'a>]) -> Result<Vec<Listed<'a>>>
    ensures listed { IfOk result (λ listed. listed_subsections listed.items ≡ map subsection_of parts.now) }
    ensures lean { length parts.now ≡ 0 → IfErr result (λ e. e ≢ Error.OutOfMemory) }
    ensures refused { IfErr result (λ e. e ≡ Error.OutOfMemory) }
{
    let mut listed = Vec::with_capacity(alloc, parts.len())?;
    for part in parts {
        listed.push(Listed::bare(*part))?;
    }
    Ok(listed)
}

impl<'a> LinePlaces<'a> {
    ghost use Rattle.pdb_base.specs.Refusal.{Answers, Gives};
    ghost use Rattle.pdb_modules.specs.Files.{file_at};
    ghost use Rattle.pdb_modules.specs.FileViews.{shown_file};
    ghost use Rattle.pdb_modules.specs.LineOrder.{lines_for};
    ghost use Rattle.pdb_modules.specs.LineProgram.{program_of};
    ghost use Rattle.pdb_modules.specs.LineSearch.{first_covering};
    ghost use Rattle.pdb_modules.specs.ProgramParts.{lines_listed};

    /// The subsections of a module's lines data.
    #[tactic(auto, unfolding(crate::specs::LineProgram::program_of))]
    pub fn parse(alloc: Global, lines_data: &'a [u8]) -> Result<LinePlaces<'a>>
        ensures places { Gives (λ p. p) ⊥ result (program_of lines_data.entry.now) }
        // It takes no memory where there is no subsection of lines.
        ensures lean { lines_listed lines_data.entry.now ≡ [] → IfErr result (λ e. e ≢ Error.OutOfMemory) }
    {
        match ordered_parts(alloc, lines_data) {
            Ok(parts) => {
                LinePlaces::of(alloc, parts.lines.as_slice(), parts.checksums, lines_data)
            }
            Err(error) => Err(error),
        }
    }

    // These parts, of which those of lines stand in their order.
    fn of(
        alloc: Global,
        parts: &[LineSubsection<'a>],
        checksums: &'a [u8],
        lines_data: &'a [u8],
    ) -> Result<LinePlaces<'a>>
        requires { InOrder (map subsection_of parts.now) }
        ensures places { IfOk result (λ p. p ≡ record { subsections = map subsection_of parts.now; checksums = checksums.entry.now; bytes = lines_data.entry.now }) }
        ensures lean { length parts.now ≡ 0 → IfErr result (λ e. e ≢ Error.OutOfMemory) }
        ensures refused { IfErr result (λ e. e ≡ Error.OutOfMemory) }
    {
        let listed = listed_parts(alloc, parts)?;
        Ok(LinePlaces {
            listed,
            checksums,
            lines_data,
        })
    }

    /// The first record that covers a place, of those that `LineProgram::lines_for_symbol` gives there. It takes no
    /// memory.
    pub fn find(&self, place: PdbInternalSectionOffset) -> Option<LineInfo>
        ensures { result ≡ first_covering place (lines_for place self.now.subsections).items }
    {
        let upto = count_upto(self.listed.as_slice(), place, &mut Steps::new());
        if upto.count == 0 {
            return None;
        }
        if !upto.in_section {
            return None;
        }
        find_in_part(self.listed[upto.count - 1].part(), place)
    }

    /// The part of files' checksums, in which the records of the module's files stand one after another.
    pub fn checksums(&self) -> &'a [u8]
        ensures { result.now ≡ self.now.checksums }
    {
        self.checksums
    }

    /// The file of an index, as `LineProgram::get_file_info` returns it.
    pub fn get_file_info(&self, index: FileIndex) -> Result<FileInfo<'a>>
        ensures { Answers shown_file result (file_at self.now.checksums index.0) }
    {
        file_info(self.checksums, index.0)
    }
}

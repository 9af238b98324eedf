//! The line program of a module: all its line records, resolved once.

ghost use Rattle.std.specs.Prelude.{◌≡◌, ◌≢◌, ◌+◌, ◌-◌, ◌≤◌, [], ◌∷◌, ◌++◌, map, length, IfOk, IfErr, IsOk};
ghost use Rattle.pdb_modules.specs.KeptRows.{given_count, subsection_of};
ghost use Rattle.pdb_modules.specs.LineOrder.{InOrder};

use crate::files::{FileInfo, FileIterator, file_info};
use crate::line_subsection::LineSubsection;
use crate::lines::LineIterator;
use crate::parts::ordered_parts;
use crate::room::room;
use crate::rows::{Row, add_part, most_rows};
use crate::search::count_upto;
use pdb_base::{Error, FileIndex, PdbInternalSectionOffset, Result, Steps};
use std::alloc::Global;
use std::marker::Model;

/// A subsection, and which rows are its own.
#[derive(Clone, Copy)]
pub struct Listed<'a> {
    part: LineSubsection<'a>,
    // The index of its first row.
    from: usize,
    // The index behind the last of its rows that are given.
    to: usize,
    // The fault behind them.
    fault: Option<Error>,
}

/// The line records of a module. A contract sees it as its line subsections in their order.
#[derive(Drop)]
pub struct LineProgram<'a> {
    rows: Vec<Row>,
    listed: Vec<Listed<'a>>,
    // How many rows are given before the first fault.
    count: usize,
    fault: Option<Error>,
    // The part of files' checksums.
    checksums: &'a [u8],
    // The bytes in which the subsections stand.
    lines_data: &'a [u8],
}

impl<'a> Listed<'a> {
    /// A subsection of which no rows are kept.
    pub(crate) fn bare(part: LineSubsection<'a>) -> Self
        ensures { result.part ≡ part.entry }
    {
        Listed {
            part,
            from: 0,
            to: 0,
            fault: None,
        }
    }

    /// The subsection.
    pub(crate) fn part(&self) -> LineSubsection<'a>
        ensures { result ≡ self.now.part }
    {
        self.part
    }

    /// Where the subsection's code begins.
    pub(crate) fn place(&self) -> PdbInternalSectionOffset
        ensures { result ≡ self.now.part.place }
    {
        self.part.place
    }
}

impl<'a> Model for LineProgram<'a> {
    ghost use Rattle.pdb_modules.specs.LineProgram.{ProgramOf, listed_subsections, IsResolved};

    ghost Value = { ProgramOf };

    ghost view = { λ p. record { subsections = listed_subsections p.listed.items; checksums = p.checksums.now; bytes = p.lines_data.now } };

    ghost invariant = { λ p. IsResolved p.rows.items p.listed.items p.count p.fault p.lines_data.now };
}

/// How many of so many records are given where there is a fault behind them, or none: all but the last one, or all.
fn given_count(records: usize, fault: Option<Error>) -> usize
    ensures { result ≡ given_count records fault }
{
    match fault {
        None => records,
        Some(_) => records.saturating_sub(1),
    }
}

/// One more subsection is listed.
fn list_part<'a>(
    listed: &mut Vec<Listed<'a>>,
    part: LineSubsection<'a>,
    from: usize,
    to: usize,
    fault: Option<Error>,
) -> Result<()>
    ensures listed { IfOk result (λ _. listed.new.items ≡ listed.old.items ++ record { part = part.entry; from = from; to = to; fault = fault } ∷ []) }
    ensures refused { IfErr result (λ e. e ≡ Error.OutOfMemory) }
{
    listed.push(Listed {
        part,
        from,
        to,
        fault,
    })?;
    Ok(())
}

impl<'a> LineProgram<'a> {
    ghost use Rattle.std.specs.Prelude.{ℕ, ◌<◌, ◌^◌, slice_index_or, sum_by};
    ghost use Rattle.pdb_modules.specs.LineOrder.{lines_for, part_for};
    ghost use Rattle.pdb_base.specs.Refusal.{Answers, Gives};
    ghost use Rattle.pdb_modules.specs.Files.{files_of, file_at};
    ghost use Rattle.pdb_modules.specs.FileViews.{shown_file};
    ghost use Rattle.pdb_modules.specs.ModuleViews.{files_left, files_part, files_steps};
    ghost use Rattle.pdb_modules.specs.LineProgram.{part_bytes, program_of};
    ghost use Rattle.pdb_modules.specs.ProgramParts.{lines_listed};
    ghost use Rattle.pdb_modules.specs.Lines.{Subsection, lines_of};
    ghost use Rattle.pdb_modules.specs.LineViews.{lines_left, lines_part, lines_steps};

    // The line program of a module's lines data.
    pub(crate) fn parse(alloc: Global, lines_data: &'a [u8]) -> Result<LineProgram<'a>>
        ensures program { Gives (λ p. p) ⊥ result (program_of lines_data.entry.now) }
        ensures lean { lines_listed lines_data.entry.now ≡ [] → IfErr result (λ e. e ≢ Error.OutOfMemory) }
    {
        match ordered_parts(alloc, lines_data) {
            Ok(parts) => {
                LineProgram::resolve(alloc, parts.lines.as_slice(), parts.checksums, lines_data)
            }
            Err(error) => Err(error),
        }
    }

    // The line program of these parts, of which those of lines stand in their order.
    fn resolve(
        alloc: Global,
        parts: &[LineSubsection<'a>],
        checksums: &'a [u8],
        lines_data: &'a [u8],
    ) -> Result<LineProgram<'a>>
        requires order { InOrder (map subsection_of parts.now) }
        requires room { sum_by part_bytes parts.now ≤ length lines_data.now }
        requires few { length parts.now ≤ length lines_data.now }
        ensures program { IfOk result (λ p. p ≡ record { subsections = map subsection_of parts.now; checksums = checksums.entry.now; bytes = lines_data.entry.now }) }
        ensures lean { length parts.now ≡ 0 → IfErr result (λ e. e ≢ Error.OutOfMemory) }
        ensures refused { IfErr result (λ e. e ≡ Error.OutOfMemory) }
    {
        let mut rows = room(alloc, most_rows(parts), lines_data)?;
        let mut listed = room(alloc, parts.len(), lines_data)?;
        let mut count = 0;
        let mut fault: Option<Error> = None;
        for part in parts {
            let from = rows.len();
            let stop = add_part(&mut rows, *part)?;
            let to = from + given_count(rows.len() - from, stop);
            list_part(&mut listed, *part, from, to, stop)?;
            if fault.is_none() {
                fault = stop;
                count = given_count(rows.len(), fault);
            }
        }
        Ok(LineProgram {
            rows,
            listed,
            count,
            fault,
            checksums,
            lines_data,
        })
    }

    /// All records, in the order of the subsections, up to the first fault.
    pub fn lines(&self) -> LineIterator<'_>
        ensures left { lines_left result ≡ lines_of self.now.subsections }
        ensures part { lines_part result ≡ self.now.bytes }
        ensures steps { lines_steps result ≡ 0 }
    {
        let (rows, _) = self.rows.as_slice().split_at(self.count);
        LineIterator::new(rows, false, self.fault, self.lines_data)
    }

    // The records of a subsection as if it were the only one.
    fn lines_at(&self, index: usize) -> LineIterator<'_>
        requires { index < length self.now.subsections }
        ensures left { (d : Subsection) → lines_left result ≡ lines_of (slice_index_or self.now.subsections index d ∷ []) }
        ensures part { (d : Subsection) → lines_part result ≡ (slice_index_or self.now.subsections index d).bytes }
        ensures steps { lines_steps result ≡ 0 }
    {
        let listed = self.listed[index];
        let (_, rows) = self.rows.as_slice().split_at(listed.from);
        let (rows, _) = rows.split_at(listed.to - listed.from);
        LineIterator::new(rows, true, listed.fault, listed.part.bytes)
    }

    /// The records of the last subsection at or before `offset`, if it lies in the same section, as if it were the
    /// only one. It counts a step for each comparison with a listed subsection.
    pub fn lines_for_symbol_counted(
        &self,
        offset: PdbInternalSectionOffset,
        steps: &mut Steps,
    ) -> LineIterator<'_>
        ensures left { lines_left result ≡ lines_for offset self.now.subsections }
        ensures part { lines_part result ≡ part_for offset self.now.subsections }
        ensures begins { lines_steps result ≡ 0 }
        ensures probes { (digits : ℕ) → length self.now.subsections < 2 ^ digits → steps.new.count ≤ steps.old.count + digits }
        ensures grows { steps.old.count ≤ steps.new.count }
        ensures asks { 0 < length self.now.subsections → steps.old.count < steps.new.count }
    {
        let upto = count_upto(self.listed.as_slice(), offset, steps);
        if upto.count == 0 {
            return LineIterator::new(&[], true, None, &[]);
        }
        if !upto.in_section {
            return LineIterator::new(&[], true, None, &[]);
        }
        self.lines_at(upto.count - 1)
    }

    /// The records of the last subsection at or before `offset`, if it lies in the same section, as if it were the
    /// only one.
    pub fn lines_for_symbol(&self, offset: PdbInternalSectionOffset) -> LineIterator<'_>
        ensures left { lines_left result ≡ lines_for offset self.now.subsections }
        ensures part { lines_part result ≡ part_for offset self.now.subsections }
        ensures begins { lines_steps result ≡ 0 }
    {
        self.lines_for_symbol_counted(offset, &mut Steps::new())
    }

    /// The module's files, in the order of their checksums.
    pub fn files(&self) -> FileIterator<'a>
        ensures left { files_left result ≡ files_of self.now.checksums }
        ensures part { files_part result ≡ self.now.checksums }
        ensures steps { files_steps result ≡ 0 }
    {
        FileIterator::new(self.checksums)
    }

    /// The file of an index, which a line record names. Where the index is the checksums' end it is
    /// `InvalidFileChecksumOffset`; where it is past it, or its record isn't all there, `UnexpectedEof`; and a kind
    /// of checksum above 3 is `UnimplementedFileChecksumKind`.
    pub fn get_file_info(&self, index: FileIndex) -> Result<FileInfo<'a>>
        ensures { Answers shown_file result (file_at self.now.checksums index.0) }
    {
        file_info(self.checksums, index.0)
    }
}

//! The stream of a module.

ghost use Rattle.std.specs.Prelude.{◌≡◌, ◌≢◌, ◌≤◌, ◌%◌, ℕ, List, [], length, Some, Ok, IfOk, IfErr};
ghost use Rattle.pdb_base.specs.Refusal.{Answers, Gives};
ghost use Rattle.pdb_symbols.specs.Views.{symbols_left, symbols_bytes, symbols_steps};
ghost use Rattle.pdb_modules.specs.ModuleStream.{checked_part, symbols_part_of, symbols_of, symbols_at_of, lines_data_of, line_program_of, checksums_of, module_files_of, line_subsections_of, part_of_kind, inlinees_of, inlinees_part_of, imports_of, exports_of};
ghost use Rattle.pdb_modules.specs.ModuleViews.{files_left, files_part, files_steps, inlinees_left, inlinees_part, inlinees_steps};
ghost use Rattle.pdb_modules.specs.SubsectionViews.{seen_part};

use crate::exports::CrossModuleExports;
use crate::files::FileIterator;
use crate::imports::CrossModuleImports;
use crate::inlinees::InlineeIterator;
use crate::line_places::LinePlaces;
use crate::line_program::LineProgram;
use crate::parts::last_checksums;
use crate::subsections::{EXPORTS, IMPORTS, INLINEE_LINES, first_of_kind};
use pdb_base::part::part_of;
use pdb_base::{Error, Feature, ParseBuffer, Result, Stream, SymbolIndex};
use pdb_dbi::Module;
use pdb_symbols::SymbolIter;
use std::alloc::Global;
use std::marker::Model;

/// The number with which a symbols part begins: `cvinfo.h`'s `CV_SIGNATURE_C13`.
const SIGNATURE_C13: u32 = 4;

/// The stream of a module: its symbols, and then its lines data. A contract sees it as its bytes and the sizes of its
/// three parts, which the module's record says.
#[derive(Drop)]
pub struct ModuleInfo<'s> {
    stream: Stream<'s>,
    symbols_size: u32,
    lines_size: u32,
    c13_lines_size: u32,
}

impl<'s> Model for ModuleInfo<'s> {
    ghost use Rattle.pdb_modules.specs.ModuleStream.{ModuleBytes};

    ghost Value = { ModuleBytes };

    ghost view = { λ m. record { bytes = m.stream; symbols_size = m.symbols_size; lines_size = m.lines_size; c13_lines_size = m.c13_lines_size } };
}

/// A symbols part, which begins with its number where it isn't empty.
fn checked_part(part: &[u8]) -> Result<&[u8]>
    ensures part { Answers (λ s. s.now) result (checked_part part.entry.now) }
    ensures same { IfOk result (λ s. s.now ≡ part.entry.now) }
{
    if part.is_empty() {
        return Ok(part);
    }
    if ParseBuffer::from(part).parse_u32()? != SIGNATURE_C13 {
        return Err(Error::UnimplementedFeature(Feature::SymbolDataFormat));
    }
    Ok(part)
}

impl<'s> ModuleInfo<'s> {
    /// The stream of a module, whose record has the sizes of its parts. Nothing of it is read yet.
    pub fn parse(stream: Stream<'s>, module: &Module<'_>) -> Self
        ensures { result ≡ record { bytes = stream.entry; symbols_size = «module».now.symbols_size; lines_size = «module».now.lines_size; c13_lines_size = «module».now.c13_lines_size } }
    {
        let (symbols_size, lines_size, c13_lines_size) = module.sizes();
        ModuleInfo {
            stream,
            symbols_size,
            lines_size,
            c13_lines_size,
        }
    }

    /// The stream of a module with these sizes of its parts. Nothing of it is read yet.
    pub fn with_sizes(
        stream: Stream<'s>,
        symbols_size: u32,
        lines_size: u32,
        c13_lines_size: u32,
    ) -> Self
        ensures { result ≡ record { bytes = stream.entry; symbols_size = symbols_size; lines_size = lines_size; c13_lines_size = c13_lines_size } }
    {
        ModuleInfo {
            stream,
            symbols_size,
            lines_size,
            c13_lines_size,
        }
    }

    // The symbols part.
    #[tactic(auto, unfolding(crate::specs::ModuleStream::symbols_part_of))]
    pub fn symbols_part(&self) -> Result<&[u8]>
        ensures part { Answers (λ s. s.now) result (symbols_part_of self.now) }
        ensures small { IfOk result (λ s. length s.now ≤ 4294967295) }
    {
        checked_part(part_of(self.stream.as_slice(), 0, self.symbols_size as usize)?)
    }

    /// The module's symbols, behind the number 4 with which their part begins; an empty part has no number. Where the
    /// part or its number isn't all there it is `UnexpectedEof`, and another number
    /// `UnimplementedFeature(SymbolDataFormat)`.
    pub fn symbols(&self) -> Result<SymbolIter<'_>>
        ensures left { Answers symbols_left result (symbols_of self.now) }
        ensures bytes { IfOk result (λ it. symbols_part_of self.now ≡ Ok (symbols_bytes it)) }
        ensures steps { IfOk result (λ it. symbols_steps it ≡ 0) }
    {
        self.symbols_at(SymbolIndex(4))
    }

    /// The module's symbols from an index on, whatever stands there; none where the index is past their end. It
    /// fails as `symbols` does.
    #[tactic(auto, unfolding(crate::specs::ModuleStream::symbols_at_of))]
    pub fn symbols_at(&self, index: SymbolIndex) -> Result<SymbolIter<'_>>
        ensures left { Answers symbols_left result (symbols_at_of index.0 self.now) }
        ensures bytes { IfOk result (λ it. symbols_part_of self.now ≡ Ok (symbols_bytes it)) }
        ensures steps { IfOk result (λ it. symbols_steps it ≡ 0) }
    {
        let mut symbols = SymbolIter::new(ParseBuffer::from(self.symbols_part()?));
        symbols.seek(index);
        Ok(symbols)
    }

    // The lines data.
    #[tactic(auto, unfolding(crate::specs::ModuleStream::lines_data_of))]
    fn lines_data(&self) -> Result<&[u8]>
        ensures bytes { Answers (λ s. s.now) result (lines_data_of self.now) }
        ensures refused { IfErr result (λ e. e ≡ Error.UnexpectedEof) }
    {
        part_of(
            self.stream.as_slice(),
            self.symbols_size as usize,
            self.c13_lines_size as usize,
        )
    }

    // The first part of a kind among the subsections, if there is one.
    #[tactic(auto, unfolding(crate::specs::ModuleStream::part_of_kind))]
    fn part_of_kind(&self, kind: u32) -> Result<Option<&[u8]>>
        ensures part { Answers seen_part result (part_of_kind kind self.now) }
        ensures refused { IfErr result (λ e. e ≢ Error.IoError) }
    {
        if self.lines_size > 0 {
            return Ok(None);
        }
        first_of_kind(self.lines_data()?, kind)
    }

    /// The module's line records and files, resolved once. It fails with `UnimplementedFeature(C11LinePrograms)`
    /// where the module has lines of the older form (C11); with `UnexpectedEof` where the lines data isn't all there,
    /// where a subsection isn't, or one of lines is shorter than its header; with `UnimplementedDebugSubsection` for a
    /// kind that isn't known; and with out of memory. A damaged block of lines is no error of it: the list of
    /// records returns that error where it is reached.
    #[tactic(auto, unfolding(crate::specs::ModuleStream::line_program_of, crate::specs::ModuleStream::line_subsections_of))]
    pub fn line_program(&self, alloc: Global) -> Result<LineProgram<'_>>
        ensures program { Gives (λ p. p) ⊥ result (line_program_of self.now) }
        // It takes no memory where it has no subsection of lines.
        ensures lean { line_subsections_of self.now ≡ [] → IfErr result (λ e. e ≢ Error.OutOfMemory) }
    {
        if self.lines_size > 0 {
            return Err(Error::UnimplementedFeature(Feature::C11LinePrograms));
        }
        LineProgram::parse(alloc, self.lines_data()?)
    }

    // The bytes of the files' checksums.
    #[tactic(auto, unfolding(crate::specs::ModuleStream::line_program_of, crate::specs::ModuleStream::checksums_of))]
    fn checksums(&self) -> Result<&[u8]>
        ensures part { Answers (λ s. s.now) result (checksums_of self.now) }
    {
        match self.lines_size {
            0 => last_checksums(self.lines_data()?),
            _ => Err(Error::UnimplementedFeature(Feature::C11LinePrograms)),
        }
    }

    /// The module's files, in the order of their checksums. It fails exactly where `line_program` does, with the same
    /// error, but never with out of memory: it takes none, and reads no block of lines.
    #[tactic(auto, unfolding(crate::specs::ModuleStream::checksums_of, crate::specs::ModuleStream::module_files_of))]
    pub fn files(&self) -> Result<FileIterator<'_>>
        ensures left { Answers files_left result (module_files_of self.now) }
        ensures part { IfOk result (λ it. checksums_of self.now ≡ Ok (files_part it)) }
        ensures steps { IfOk result (λ it. files_steps it ≡ 0) }
    {
        Ok(FileIterator::new(self.checksums()?))
    }

    /// The module's line subsections, in which the record of a place is found as it stands. It fails as
    /// `line_program` is.
    #[tactic(auto, unfolding(crate::specs::ModuleStream::line_program_of, crate::specs::ModuleStream::line_subsections_of))]
    pub fn line_places(&self, alloc: Global) -> Result<LinePlaces<'_>>
        ensures places { Gives (λ p. p) ⊥ result (line_program_of self.now) }
        // It takes no memory where it has no subsection of lines.
        ensures lean { line_subsections_of self.now ≡ [] → IfErr result (λ e. e ≢ Error.OutOfMemory) }
    {
        if self.lines_size == 0 {
            return LinePlaces::parse(alloc, self.lines_data()?);
        }
        Err(Error::UnimplementedFeature(Feature::C11LinePrograms))
    }

    /// The module's inlined functions. It is `UnexpectedEof` where the lines data isn't all there, or its first part
    /// of inlined functions is shorter than four bytes; and where no such part stands before a subsection that isn't
    /// all there or of a kind that isn't known, that subsection's error. There are none where the module has lines
    /// of the older form.
    #[tactic(auto, unfolding(crate::specs::ModuleStream::inlinees_of, crate::specs::ModuleStream::inlinees_part_of))]
    pub fn inlinees(&self) -> Result<InlineeIterator<'_>>
        ensures left { Answers inlinees_left result (inlinees_of self.now) }
        ensures part { IfOk result (λ it. inlinees_part_of self.now ≡ Ok (inlinees_part it)) }
        ensures steps { IfOk result (λ it. inlinees_steps it ≡ 0) }
    {
        match self.part_of_kind(INLINEE_LINES)? {
            Some(part) => InlineeIterator::parse(part),
            None => Ok(InlineeIterator::default()),
        }
    }

    /// What the module imports from others, by its first part of imports. It fails as `inlinees` does, where that
    /// part isn't whole (`UnexpectedEof`), and with out of memory.
    #[tactic(auto, unfolding(crate::specs::ModuleStream::imports_of))]
    pub fn imports(&self, alloc: Global) -> Result<CrossModuleImports<'_>>
        ensures imports { Gives (λ x. x) ⊥ result (imports_of self.now) }
        // It takes no memory where there is no such part.
        ensures lean { ((part : List ℕ) → part_of_kind 0xf7 self.now ≡ Ok (Some part) → ⊥) → IfErr result (λ e. e ≢ Error.OutOfMemory) }
        // Nor where that part is empty.
        ensures empty { part_of_kind 0xf7 self.now ≡ Ok (Some []) → IfErr result (λ e. e ≢ Error.OutOfMemory) }
    {
        match self.part_of_kind(IMPORTS)? {
            Some(part) => CrossModuleImports::parse(alloc, part),
            None => Ok(CrossModuleImports::empty(alloc)),
        }
    }

    /// What the module exports to others, by its first part of exports. It fails as `inlinees` does, with
    /// `InvalidStreamLength(CrossScopeExports)` where that part's size is no multiple of eight, and with
    /// `OutOfMemory`.
    #[tactic(auto, unfolding(crate::specs::ModuleStream::exports_of))]
    pub fn exports(&self, alloc: Global) -> Result<CrossModuleExports>
        ensures exports { Gives (λ x. x) ⊥ result (exports_of self.now) }
        // It takes no memory where there is no such part.
        ensures lean { ((part : List ℕ) → part_of_kind 0xf8 self.now ≡ Ok (Some part) → ⊥) → IfErr result (λ e. e ≢ Error.OutOfMemory) }
        // Nor where that part is empty, or its size is wrong.
        ensures empty { part_of_kind 0xf8 self.now ≡ Ok (Some []) → IfErr result (λ e. e ≢ Error.OutOfMemory) }
        ensures wrong_size { (part : List ℕ) → part_of_kind 0xf8 self.now ≡ Ok (Some part) → length part % 8 ≢ 0 → IfErr result (λ e. e ≢ Error.OutOfMemory) }
    {
        match self.part_of_kind(EXPORTS)? {
            Some(part) => CrossModuleExports::parse(alloc, part),
            None => Ok(CrossModuleExports::empty(alloc)),
        }
    }
}

//! The inlined functions of a module.

ghost use Rattle.std.specs.Prelude.{◌≡◌, ◌+◌, ◌≤◌, ◌<◌, ◌^◌, length, drop, IfOk, ⊤};
ghost use Rattle.pdb_base.specs.Cursor.{Reads};
ghost use Rattle.pdb_base.specs.Refusal.{Answers};
ghost use Rattle.pdb_modules.specs.Inlinees.{extra_files_at, extra_length, inlinee_at, inlinee_length, inlinees_in};

use crate::inlined_lines::InlineeLineIterator;
use pdb_base::little_endian::u32_at;
use pdb_base::{
    Error, FallibleIterator, FileIndex, IdIndex, ParseBuffer, PdbInternalSectionOffset, Result,
    Steps,
};
use pdb_symbols::InlineSiteSymbol;
use std::alloc::AllocError;
use std::marker::Model;

/// The signature of a part whose functions may have further files: `cvinfo.h`'s
/// `CV_INLINEE_SOURCE_LINE_SIGNATURE_EX`.
const SIGNATURE_EX: u32 = 1;

/// A function that is inlined somewhere: `cvinfo.h`'s `InlineeSourceLine`. A contract sees it as the index of its id,
/// the file and the line in which it begins, and the bytes of further files.
#[derive(Debug, Drop)]
pub struct Inlinee<'a> {
    index: IdIndex,
    file_index: FileIndex,
    line: u32,
    extra_files: &'a [u8],
}

impl<'a> Model for Inlinee<'a> {
    ghost use Rattle.pdb_modules.specs.Inlinees.{InlineeEntry};

    ghost Value = { InlineeEntry };

    ghost view = { λ x. record { index = x.index.0; file_index = x.file_index.0; line = x.line; extra_files = x.extra_files.now } };
}

impl<'a> Inlinee<'a> {
    ghost use Rattle.pdb_symbols.specs.AnnotationViews.{annotation_bytes};
    ghost use Rattle.pdb_modules.specs.Inlined.{inlined_lines};
    ghost use Rattle.pdb_modules.specs.InlinedViews.{inlined_left, inlined_part, inlined_steps};

    /// The index of the function's id record.
    pub fn index(&self) -> IdIndex
        ensures { result.0 ≡ self.now.index }
    {
        self.index
    }

    /// The file in which the function begins: the offset of its record among the module's checksums of files.
    pub fn file_index(&self) -> FileIndex
        ensures { result.0 ≡ self.now.file_index }
    {
        self.file_index
    }

    /// The line in which the function begins.
    pub fn line(&self) -> u32
        ensures { result ≡ self.now.line }
    {
        self.line
    }

    /// The line records of an inline site of this function, in the procedure that begins at `parent`. Where the
    /// site's annotations have a fault it comes instead of the last record before it.
    pub fn lines(
        &self,
        parent: PdbInternalSectionOffset,
        site: &InlineSiteSymbol<'a>,
    ) -> InlineeLineIterator<'a>
        ensures left { inlined_left result ≡ inlined_lines parent (record { 0 = self.now.file_index }) self.now.line (annotation_bytes site.now.annotations) }
        ensures part { inlined_part result ≡ annotation_bytes site.now.annotations }
        ensures steps { inlined_steps result ≡ 0 }
    {
        InlineeLineIterator::new(parent, self.file_index, self.line, site.annotations)
    }
}

impl Clone for Inlinee<'_> {
    ghost is_clone = { λ a b. b ≡ a };

    ghost is_infallible = { λ _. ⊤ };

    fn clone(&self) -> std::result::Result<Self, AllocError> {
        Ok(Inlinee {
            index: self.index,
            file_index: self.file_index,
            line: self.line,
            extra_files: self.extra_files,
        })
    }
}

/// All numbers are 0, and there are no further files.
impl Default for Inlinee<'_> {
    ghost use Rattle.std.specs.Prelude.{[]};

    ghost is_default = { λ x. x ≡ record { index = 0; file_index = 0; line = 0; extra_files = [] } };

    fn default() -> Self {
        Inlinee {
            index: IdIndex(0),
            file_index: FileIndex(0),
            line: 0,
            extra_files: &[],
        }
    }
}

/// The further files at the buffer's offset, where there may be any.
fn read_extra_files<'a>(buffer: &mut ParseBuffer<'a>, extended: bool) -> Result<&'a [u8]>
    ensures { Reads (λ s. s.now) buffer.old buffer.new result (extra_files_at extended buffer.old.bytes buffer.old.place) (extra_length extended) }
{
    if !extended {
        return Ok(&[]);
    }
    let count = buffer.parse_u32()?;
    buffer.take(4 * count as usize)
}

/// The inlined function at the buffer's offset.
#[tactic(auto, unfolding(crate::specs::Inlinees::inlinee_at))]
fn read_inlinee<'a>(buffer: &mut ParseBuffer<'a>, extended: bool) -> Result<Inlinee<'a>>
    ensures { Reads (λ x. x) buffer.old buffer.new result (inlinee_at extended buffer.old.bytes buffer.old.place) (inlinee_length extended buffer.old.place) }
{
    let fields = buffer.take(12)?;
    let extra_files = read_extra_files(buffer, extended)?;
    Ok(Inlinee {
        index: IdIndex(u32_at(fields, 0)),
        file_index: FileIndex(u32_at(fields, 4)),
        line: u32_at(fields, 8),
        extra_files,
    })
}

/// The inlined functions of a module, in the file's order. Each has twelve bytes, and in a part of signature 1 a count
/// of further files and four bytes for each. Where any of it isn't there it is `UnexpectedEof`, and then the list has
/// ended.
#[derive(Drop)]
pub struct InlineeIterator<'a> {
    buffer: ParseBuffer<'a>,
    extended: bool,
    steps: Steps,
    ghost small: { length buffer.bytes < 2 ^ 64 },
    ghost inside: { buffer.place ≤ length buffer.bytes },
    ghost going: { buffer.place < length buffer.bytes → steps.count ≤ buffer.place },
    ghost counted: { steps.count ≤ buffer.place + 1 },
}

impl<'a> InlineeIterator<'a> {
    ghost use Rattle.pdb_base.specs.Left.{ended};
    ghost use Rattle.pdb_modules.specs.ModuleViews.{inlinees_left, inlinees_part, inlinees_steps};

    // The functions of a part.
    #[tactic(auto, unfolding(crate::specs::Inlinees::inlinees_in, crate::specs::Inlinees::inlinees_from, pdb_base::specs::Fields::number_at))]
    pub(crate) fn parse(part: &'a [u8]) -> Result<Self>
        ensures left { Answers inlinees_left result (inlinees_in part.entry.now) }
        ensures part { IfOk result (λ it. inlinees_part it ≡ drop 4 part.entry.now) }
        ensures steps { IfOk result (λ it. inlinees_steps it ≡ 0) }
    {
        if part.len() < 4 {
            return Err(Error::UnexpectedEof);
        }
        let (_, functions) = part.split_at(4);
        Ok(InlineeIterator {
            buffer: ParseBuffer::from(functions),
            extended: u32_at(part, 0) == SIGNATURE_EX,
            steps: Steps::new(),
        })
    }
}

impl<'a> FallibleIterator for InlineeIterator<'a> {
    ghost use Rattle.std.specs.Prelude.{◌≢◌, IfErr, IfSome, IfNone};
    ghost use Rattle.pdb_base.specs.Left.{Yields};
    ghost use Rattle.pdb_base.specs.declared.error.Error.TheVariants.{IoError, OutOfMemory};
    ghost use Rattle.pdb_modules.specs.Inlinees.{InlineeEntry};
    ghost use Rattle.pdb_modules.specs.ModuleViews.{inlinees_left, inlinees_part, inlinees_steps};

    type Item = Inlinee<'a>;

    ghost Shown = { InlineeEntry };

    ghost shown = { λ x. x };

    ghost left = { inlinees_left };

    #[tactic(auto, using(pdb_base::proofs::Tilings::few))]
    fn next(&mut self) -> Result<Option<Inlinee<'a>>>
        ensures yields { Yields (λ x. x) (inlinees_left self.old) result (inlinees_left self.new) }
        ensures few { length (inlinees_left self.old).items < 2 ^ 64 }
        ensures part { inlinees_part self.new ≡ inlinees_part self.old }
        ensures bound { inlinees_steps self.new ≤ length (inlinees_part self.new) + 1 }
        ensures stepped { IfOk result (λ o. IfSome o (λ _. inlinees_steps self.new ≡ inlinees_steps self.old + 1)) }
        ensures stepped_to_fault { IfErr result (λ _. inlinees_steps self.new ≡ inlinees_steps self.old + 1) }
        ensures rests { IfOk result (λ o. IfNone o (inlinees_steps self.new ≡ inlinees_steps self.old)) }
        ensures refused { IfErr result (λ e. (e ≢ OutOfMemory) × (e ≢ IoError)) }
    {
        if self.buffer.is_empty() {
            return Ok(None);
        }
        self.steps.tick();
        match read_inlinee(&mut self.buffer, self.extended) {
            Ok(inlinee) => Ok(Some(inlinee)),
            Err(error) => {
                self.buffer.seek(usize::MAX);
                Err(error)
            }
        }
    }
}

/// The same functions, and the same steps so far.
impl Clone for InlineeIterator<'_> {
    ghost use Rattle.pdb_modules.specs.ModuleViews.{inlinees_left, inlinees_part, inlinees_steps};

    ghost is_clone = { λ a b. (inlinees_left b ≡ inlinees_left a) × (inlinees_part b ≡ inlinees_part a) × (inlinees_steps b ≡ inlinees_steps a) };

    ghost is_infallible = { λ _. ⊤ };

    fn clone(&self) -> std::result::Result<Self, AllocError> {
        Ok(InlineeIterator {
            buffer: self.buffer.clone()?,
            extended: self.extended,
            steps: self.steps.clone()?,
        })
    }
}

/// No functions.
impl Default for InlineeIterator<'_> {
    ghost use Rattle.std.specs.Prelude.{[]};
    ghost use Rattle.pdb_base.specs.Left.{ended};
    ghost use Rattle.pdb_modules.specs.ModuleViews.{inlinees_left, inlinees_part, inlinees_steps};

    ghost is_default = { λ it. (inlinees_left it ≡ ended) × (inlinees_part it ≡ []) × (inlinees_steps it ≡ 0) };

    #[tactic(auto, using(crate::proofs::InlineeLemmas::nothing_left))]
    fn default() -> Self {
        InlineeIterator {
            buffer: ParseBuffer::default(),
            extended: false,
            steps: Steps::new(),
        }
    }
}

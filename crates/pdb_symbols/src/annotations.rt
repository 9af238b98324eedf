//! Binary annotations: the small program by which an inline site gives its lines.

ghost use Rattle.std.specs.Prelude.{ℕ, ◌+◌, ◌^◌, ◌<◌, ◌≤◌, ◌≡◌, length, ⊤};
ghost use Rattle.pdb_symbols.specs.Annotations.{annotations_of, emits};

use crate::reading::read_annotation;
use pdb_base::{FallibleIterator, FileIndex, Result, Steps};
use std::alloc::AllocError;

/// An annotation: a change of what the next line record says, or that record itself. They are the `BA_OP_..` of
/// `cvinfo.h`, in the order of their opcodes from 1 to 13.
#[derive(Clone, Copy, Debug, Eq, PartialEq)]
pub enum BinaryAnnotation {
    /// The code offset, counted from the section's start.
    CodeOffset(u32),
    /// What is added to each code offset.
    ChangeCodeOffsetBase(u32),
    /// The code offset moves forward; emits a line record.
    ChangeCodeOffset(u32),
    /// The length of the last record's code; the code offset moves behind it.
    ChangeCodeLength(u32),
    /// The file.
    ChangeFile(FileIndex),
    /// The line moves by so much.
    ChangeLineOffset(i32),
    /// How many lines a record has.
    ChangeLineEndDelta(u32),
    /// The kind: 0 is an expression, 1 a statement.
    ChangeRangeKind(u32),
    /// The column in which a record starts.
    ChangeColumnStart(u32),
    /// The column in which a record ends moves by so much.
    ChangeColumnEndDelta(i32),
    /// The code offset moves forward, the line by so much; emits a line record.
    ChangeCodeOffsetAndLineOffset(u32, i32),
    /// The length of the record's code, and how far the code offset moves forward; emits a line record.
    ChangeCodeLengthAndCodeOffset(u32, u32),
    /// The column in which a record ends.
    ChangeColumnEnd(u32),
}

impl BinaryAnnotation {
    /// Whether the annotation emits a line record.
    #[inline]
    pub fn emits_line_info(self) -> bool
        ensures { result ≡ emits self }
    {
        matches!(
            self,
            BinaryAnnotation::ChangeCodeOffset(_)
                | BinaryAnnotation::ChangeCodeOffsetAndLineOffset(..)
                | BinaryAnnotation::ChangeCodeLengthAndCodeOffset(..)
        )
    }
}

/// The annotations of an inline site, as bytes.
#[derive(Clone, Copy, Debug, Eq, PartialEq)]
pub struct BinaryAnnotations<'t> {
    bytes: &'t [u8],
}

impl<'t> BinaryAnnotations<'t> {
    ghost use Rattle.pdb_symbols.specs.AnnotationViews.{annotation_bytes, annotations_left, annotations_bytes, annotations_steps};

    /// The annotations of these bytes.
    pub fn new(bytes: &'t [u8]) -> Self
        ensures { annotation_bytes result ≡ bytes.entry.now }
    {
        BinaryAnnotations { bytes }
    }

    /// The bytes of the annotations.
    pub fn as_bytes(&self) -> &'t [u8]
        ensures { result.now ≡ annotation_bytes self.now }
    {
        self.bytes
    }

    /// The annotations, in order.
    pub fn iter(&self) -> BinaryAnnotationsIter<'t>
        ensures left { annotations_left result ≡ annotations_of (annotation_bytes self.now) }
        ensures bytes { annotations_bytes result ≡ annotation_bytes self.now }
        ensures steps { annotations_steps result ≡ 0 }
    {
        BinaryAnnotationsIter {
            bytes: self.bytes,
            at: 0,
            steps: Steps::new(),
        }
    }
}

/// The annotations of a list, in order. Each is an opcode and its operands, numbers that are spelled in one, two or
/// four bytes. The list ends where no byte is left or the opcode is 0. A number whose bytes aren't there is
/// `UnexpectedEof`, one that begins with 0xe0 or above `InvalidCompressedAnnotation`, an opcode above 13
/// `UnknownBinaryAnnotation`; after each of them the list has ended.
#[derive(Drop)]
pub struct BinaryAnnotationsIter<'t> {
    bytes: &'t [u8],
    at: usize,
    steps: Steps,
    ghost inside: { at ≤ length bytes.now },
    ghost going: { at < length bytes.now → steps.count ≤ at },
    ghost counted: { steps.count ≤ at + 1 },
}

impl<'t> FallibleIterator for BinaryAnnotationsIter<'t> {
    ghost use Rattle.std.specs.Prelude.{◌≢◌, IfOk, IfErr, IfSome, IfNone};
    ghost use Rattle.pdb_base.specs.Left.{Yields};
    ghost use Rattle.pdb_base.specs.declared.error.Error.TheVariants.{IoError, OutOfMemory};
    ghost use Rattle.pdb_symbols.specs.declared.annotations.BinaryAnnotation.{BinaryAnnotation};
    ghost use Rattle.pdb_symbols.specs.AnnotationViews.{annotations_left, annotations_bytes, annotations_steps, AnnotationsEnded};

    type Item = BinaryAnnotation;

    ghost Shown = { BinaryAnnotation };

    ghost shown = { λ a. a };

    ghost left = { annotations_left };

    #[tactic(auto, using(pdb_base::proofs::Tilings::few))]
    #[inline(always)]
    fn next(&mut self) -> Result<Option<BinaryAnnotation>>
        ensures yields { Yields (λ a. a) (annotations_left self.old) result (annotations_left self.new) }
        ensures few { length (annotations_left self.old).items < 2 ^ 64 }
        ensures bytes { annotations_bytes self.new ≡ annotations_bytes self.old }
        ensures small { length (annotations_bytes self.new) < 2 ^ 64 }
        ensures bound { annotations_steps self.new ≤ length (annotations_bytes self.new) + 1 }
        ensures stepped { IfOk result (λ o. IfSome o (λ _. annotations_steps self.new ≡ annotations_steps self.old + 1)) }
        ensures stepped_to_fault { IfErr result (λ _. annotations_steps self.new ≡ annotations_steps self.old + 1) }
        // A 0 that is spelled takes a step.
        ensures stepped_to_end { IfOk result (λ o. IfNone o ((AnnotationsEnded self.old → ⊥) → annotations_steps self.new ≡ annotations_steps self.old + 1)) }
        // An iterator that has ended makes no step, and steps are never forgotten.
        ensures rests { AnnotationsEnded self.old → annotations_steps self.new ≡ annotations_steps self.old }
        ensures grows { annotations_steps self.old ≤ annotations_steps self.new }
        ensures ends { IfOk result (λ o. IfNone o (AnnotationsEnded self.new)) }
        ensures ends_at_fault { IfErr result (λ _. AnnotationsEnded self.new) }
        ensures refused { IfErr result (λ e. (e ≢ OutOfMemory) × (e ≢ IoError)) }
    {
        if self.at == self.bytes.len() {
            return Ok(None);
        }
        self.steps.tick();
        match read_annotation(self.bytes, self.at) {
            Ok(found) => match found.annotation {
                Some(annotation) => {
                    self.at = found.end;
                    Ok(Some(annotation))
                }
                None => {
                    self.at = self.bytes.len();
                    Ok(None)
                }
            },
            Err(error) => {
                self.at = self.bytes.len();
                Err(error)
            }
        }
    }
}

impl Default for BinaryAnnotationsIter<'_> {
    ghost use Rattle.pdb_symbols.specs.AnnotationViews.{annotations_left, annotations_bytes, annotations_steps};
    ghost use Rattle.std.specs.Prelude.{[]};
    ghost use Rattle.pdb_base.specs.Left.{ended};

    ghost is_default = { λ it. (annotations_left it ≡ ended) × (annotations_bytes it ≡ []) × (annotations_steps it ≡ 0) };

    #[tactic(auto, using(crate::proofs::AnnotationSteps::nothing_left))]
    fn default() -> Self {
        BinaryAnnotationsIter {
            bytes: &[],
            at: 0,
            steps: Steps::new(),
        }
    }
}

impl Clone for BinaryAnnotationsIter<'_> {
    ghost use Rattle.pdb_symbols.specs.AnnotationViews.{annotations_left, annotations_bytes, annotations_steps};

    ghost is_clone = { λ a b. (annotations_left b ≡ annotations_left a) × (annotations_bytes b ≡ annotations_bytes a) × (annotations_steps b ≡ annotations_steps a) };

    ghost is_infallible = { λ _. ⊤ };

    fn clone(&self) -> std::result::Result<Self, AllocError> {
        Ok(BinaryAnnotationsIter {
            bytes: self.bytes,
            at: self.at,
            steps: self.steps.clone()?,
        })
    }
}

impl Default for BinaryAnnotations<'_> {
    ghost use Rattle.std.specs.Prelude.{[]};
    ghost use Rattle.pdb_symbols.specs.AnnotationViews.{annotation_bytes};

    ghost is_default = { λ a. annotation_bytes a ≡ [] };

    fn default() -> Self {
        BinaryAnnotations { bytes: &[] }
    }
}

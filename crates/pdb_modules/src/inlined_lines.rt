//! The line records of an inline site.

ghost use Rattle.std.specs.Prelude.{ℕ, ◌+◌, ◌^◌, ◌<◌, ◌≤◌, ◌≡◌, ◌⊎◌, length, IsSome, ⊤};
ghost use Rattle.std.specs.Option.{option_len};
ghost use Rattle.pdb_base.specs.Left.{ended};
ghost use Rattle.pdb_modules.specs.Inlined.{inlined_lines};
ghost use Rattle.pdb_symbols.specs.AnnotationViews.{annotation_bytes, annotations_left, annotations_bytes, annotations_steps};

use crate::line_info::LineInfo;
use crate::pending::Lines;
use crate::seen::Seen;
use pdb_base::{FallibleIterator, FileIndex, PdbInternalSectionOffset, Result, Steps};
use pdb_symbols::{BinaryAnnotations, BinaryAnnotationsIter};
use std::alloc::AllocError;

/// The line records of an inline site, in the order of its annotations. Where the annotations have a fault, the last
/// record before it isn't given, and after the fault the list has ended.
#[derive(Drop)]
pub struct InlineeLineIterator<'a> {
    annotations: BinaryAnnotationsIter<'a>,
    lines: Lines,
    steps: Steps,
    ghost counted: { steps.count + length (annotations_left annotations).items ≤ length (annotations_bytes annotations) + 1 },
    ghost going: { (annotations_left annotations ≡ ended → ⊥) ⊎ IsSome lines.pending → steps.count + length (annotations_left annotations).items ≤ length (annotations_bytes annotations) },
    ghost room: { length (annotations_left annotations).items + option_len lines.pending ≤ length (annotations_bytes annotations) },
}

impl<'a> InlineeLineIterator<'a> {
    ghost use Rattle.pdb_modules.specs.InlinedViews.{inlined_left, inlined_part, inlined_steps};

    /// The records of a function that begins in this file and line, inlined in the procedure that begins at `parent`,
    /// by the annotations of its site.
    #[tactic(auto, using(pdb_base::proofs::Tilings::few))]
    pub fn new(
        parent: PdbInternalSectionOffset,
        file_index: FileIndex,
        line: u32,
        annotations: BinaryAnnotations<'a>,
    ) -> Self
        ensures left { inlined_left result ≡ inlined_lines parent file_index line (annotation_bytes annotations.entry) }
        ensures part { inlined_part result ≡ annotation_bytes annotations.entry }
        ensures steps { inlined_steps result ≡ 0 }
    {
        InlineeLineIterator {
            annotations: annotations.iter(),
            lines: Lines {
                section: parent.section,
                seen: Seen::new(parent.offset, file_index, line),
                pending: None,
            },
            steps: Steps::new(),
        }
    }
}

impl<'a> FallibleIterator for InlineeLineIterator<'a> {
    ghost use Rattle.std.specs.Prelude.{◌≢◌, IfOk, IfErr, IfSome, IfNone};
    ghost use Rattle.pdb_base.specs.Left.{Yields};
    ghost use Rattle.pdb_base.specs.declared.error.Error.TheVariants.{IoError, OutOfMemory};
    ghost use Rattle.pdb_modules.specs.declared.line_info.LineInfo.{LineInfo};
    ghost use Rattle.pdb_modules.specs.InlinedViews.{inlined_left, inlined_part, inlined_steps, inlined_ahead, InlinedEnded};

    type Item = LineInfo;

    ghost Shown = { LineInfo };

    ghost shown = { λ l. l };

    ghost left = { inlined_left };

    #[tactic(auto, using(crate::proofs::InlinedSteps::lines_few))]
    #[inline(always)]
    fn next(&mut self) -> Result<Option<LineInfo>>
        ensures yields { Yields (λ l. l) (inlined_left self.old) result (inlined_left self.new) }
        ensures few { length (inlined_left self.old).items < 2 ^ 64 }
        ensures part { inlined_part self.new ≡ inlined_part self.old }
        // A step is a turn that reads an annotation, gives the last record at their end, or meets the fault.
        ensures bound { inlined_steps self.new ≤ length (inlined_part self.new) + 1 }
        ensures grows { inlined_steps self.old ≤ inlined_steps self.new }
        // A list that has ended makes no step.
        ensures rests { InlinedEnded self.old → inlined_steps self.new ≡ inlined_steps self.old }
        ensures ends { IfOk result (λ o. IfNone o (InlinedEnded self.new)) }
        ensures ends_at_fault { IfErr result (λ _. InlinedEnded self.new) }
        ensures stepped { IfOk result (λ o. (InlinedEnded self.new → ⊥) → inlined_steps self.new + inlined_ahead self.new ≡ inlined_steps self.old + inlined_ahead self.old) }
        ensures stepped_to_last { IfOk result (λ o. IfSome o (λ _. InlinedEnded self.new → inlined_steps self.new ≡ inlined_steps self.old + inlined_ahead self.old + 1)) }
        ensures stepped_to_end { IfOk result (λ o. IfNone o (inlined_steps self.new ≡ inlined_steps self.old + inlined_ahead self.old)) }
        ensures stepped_to_fault { IfErr result (λ _. inlined_steps self.new ≡ inlined_steps self.old + inlined_ahead self.old + 1) }
        ensures refused { IfErr result (λ e. (e ≢ OutOfMemory) × (e ≢ IoError)) }
    {
        loop {
            match self.annotations.next() {
                Ok(Some(annotation)) => {
                    self.steps.tick();
                    if let Some(length) = self.lines.take_in(annotation) {
                        if let Some(line) = self.lines.emit(length) {
                            return Ok(Some(line));
                        }
                    }
                }
                Ok(None) => {
                    let last = self.lines.pending.take();
                    if last.is_some() {
                        self.steps.tick();
                    }
                    return Ok(last);
                }
                Err(error) => {
                    self.steps.tick();
                    self.lines.pending = None;
                    return Err(error);
                }
            }
        }
    }
}

impl Default for InlineeLineIterator<'_> {
    ghost use Rattle.pdb_modules.specs.InlinedViews.{inlined_left, inlined_part, inlined_steps};
    ghost use Rattle.std.specs.Prelude.{[]};

    ghost is_default = { λ it. (inlined_left it ≡ ended) × (inlined_part it ≡ []) × (inlined_steps it ≡ 0) };

    #[tactic(auto, using(crate::proofs::InlinedSteps::nothing_left))]
    fn default() -> Self {
        InlineeLineIterator {
            annotations: BinaryAnnotationsIter::default(),
            lines: Lines {
                section: 0,
                seen: Seen::new(0, FileIndex(0), 0),
                pending: None,
            },
            steps: Steps::new(),
        }
    }
}

impl Clone for InlineeLineIterator<'_> {
    ghost use Rattle.pdb_modules.specs.InlinedViews.{inlined_left, inlined_part, inlined_steps};

    ghost is_clone = { λ a b. (inlined_left b ≡ inlined_left a) × (inlined_part b ≡ inlined_part a) × (inlined_steps b ≡ inlined_steps a) };

    ghost is_infallible = { λ _. ⊤ };

    fn clone(&self) -> std::result::Result<Self, AllocError> {
        Ok(InlineeLineIterator {
            annotations: self.annotations.clone()?,
            lines: Lines {
                section: self.lines.section,
                seen: self.lines.seen,
                pending: self.lines.pending.clone()?,
            },
            steps: self.steps.clone()?,
        })
    }
}

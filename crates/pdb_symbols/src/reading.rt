//! One annotation of a list.

ghost use Rattle.std.specs.Prelude.{◌≡◌, ◌<◌, ◌≤◌, length, IfOk, ◌≢◌, Some};
ghost use Rattle.pdb_base.specs.Refusal.{Answers};
ghost use Rattle.pdb_symbols.specs.Annotations.{annotation_at, annotation_behind};

use crate::annotations::BinaryAnnotation;
use crate::spelling::{read_number, signed};
use pdb_base::{Error, FileIndex, Result};

// What stands at an offset: an annotation, or the 0 that ends a list; and the offset behind it.
#[derive(Clone, Copy)]
pub(crate) struct Found {
    pub annotation: Option<BinaryAnnotation>,
    pub end: usize,
}

// An annotation, and the offset behind it.
#[inline]
fn ending_at(annotation: BinaryAnnotation, end: usize) -> Found
    ensures { result ≡ record { annotation = Some annotation; end = end } }
{
    Found {
        annotation: Some(annotation),
        end,
    }
}

// What stands behind an opcode. Each arm reads its operands itself, so that there is one jump for an annotation.
#[inline(always)]
#[tactic(auto, unfolding(crate::specs::Annotations::annotation_behind))]
fn read_behind(opcode: u32, bytes: &[u8], at: usize) -> Result<Found>
    requires { at ≤ length bytes.now }
    ensures reads { Answers (λ f. f) result (annotation_behind opcode bytes.now at) }
    ensures inside { IfOk result (λ f. (at ≤ f.end) × (f.end ≤ length bytes.now)) }
{
    match opcode {
        0 => Ok(Found {
            annotation: None,
            end: at,
        }),
        1 => {
            let first = read_number(bytes, at)?;
            let annotation = BinaryAnnotation::CodeOffset(first.value);
            Ok(ending_at(annotation, first.end))
        }
        2 => {
            let first = read_number(bytes, at)?;
            let annotation = BinaryAnnotation::ChangeCodeOffsetBase(first.value);
            Ok(ending_at(annotation, first.end))
        }
        3 => {
            let first = read_number(bytes, at)?;
            let annotation = BinaryAnnotation::ChangeCodeOffset(first.value);
            Ok(ending_at(annotation, first.end))
        }
        4 => {
            let first = read_number(bytes, at)?;
            let annotation = BinaryAnnotation::ChangeCodeLength(first.value);
            Ok(ending_at(annotation, first.end))
        }
        5 => {
            let first = read_number(bytes, at)?;
            let annotation = BinaryAnnotation::ChangeFile(FileIndex(first.value));
            Ok(ending_at(annotation, first.end))
        }
        6 => {
            let first = read_number(bytes, at)?;
            let annotation = BinaryAnnotation::ChangeLineOffset(signed(first.value));
            Ok(ending_at(annotation, first.end))
        }
        7 => {
            let first = read_number(bytes, at)?;
            let annotation = BinaryAnnotation::ChangeLineEndDelta(first.value);
            Ok(ending_at(annotation, first.end))
        }
        8 => {
            let first = read_number(bytes, at)?;
            let annotation = BinaryAnnotation::ChangeRangeKind(first.value);
            Ok(ending_at(annotation, first.end))
        }
        9 => {
            let first = read_number(bytes, at)?;
            let annotation = BinaryAnnotation::ChangeColumnStart(first.value);
            Ok(ending_at(annotation, first.end))
        }
        10 => {
            let first = read_number(bytes, at)?;
            let annotation = BinaryAnnotation::ChangeColumnEndDelta(signed(first.value));
            Ok(ending_at(annotation, first.end))
        }
        11 => {
            let first = read_number(bytes, at)?;
            let annotation = BinaryAnnotation::ChangeCodeOffsetAndLineOffset(
                first.value % 16,
                signed(first.value / 16),
            );
            Ok(ending_at(annotation, first.end))
        }
        12 => {
            let first = read_number(bytes, at)?;
            let second = read_number(bytes, first.end)?;
            let annotation = BinaryAnnotation::ChangeCodeLengthAndCodeOffset(
                first.value,
                second.value,
            );
            Ok(ending_at(annotation, second.end))
        }
        13 => {
            let first = read_number(bytes, at)?;
            let annotation = BinaryAnnotation::ChangeColumnEnd(first.value);
            Ok(ending_at(annotation, first.end))
        }
        _ => Err(Error::UnknownBinaryAnnotation(opcode)),
    }
}

// What stands at an offset.
#[inline(always)]
#[tactic(auto, unfolding(crate::specs::Annotations::annotation_at))]
pub(crate) fn read_annotation(bytes: &[u8], at: usize) -> Result<Found>
    requires { at ≤ length bytes.now }
    ensures reads { Answers (λ f. f) result (annotation_at bytes.now at) }
    ensures inside { IfOk result (λ f. (at < f.end) × (f.end ≤ length bytes.now)) }
{
    let opcode = read_number(bytes, at)?;
    read_behind(opcode.value, bytes, opcode.end)
}

//! The subsections that a line program is made of.

ghost use Rattle.std.specs.Prelude.{◌≡◌, ◌≢◌, ◌+◌, ◌≤◌, [], ◌∷◌, ◌++◌, map, sum_by, length, vec_len, IfOk, IfErr};
ghost use Rattle.pdb_base.specs.Cursor.{Reads};
ghost use Rattle.pdb_base.specs.Refusal.{Answers, Gives};
ghost use Rattle.pdb_modules.specs.KeptRows.{subsection_of};
ghost use Rattle.pdb_modules.specs.LineProgram.{part_bytes};
ghost use Rattle.pdb_modules.specs.LineOrder.{InOrder};
ghost use Rattle.pdb_modules.specs.Subsections.{piece_length};
ghost use Rattle.pdb_modules.specs.ProgramParts.{checksums_in, whole_piece_at, lines_listed, lines_subsection, parts_of};
ghost use Rattle.pdb_modules.specs.SubsectionViews.{bytes_of_piece};
ghost use Rattle.pdb_modules.specs.PartViews.{program_of_parts};

use crate::line_subsection::LineSubsection;
use crate::rising::rising_in_front;
use crate::sort::sort;
use crate::subsections::{FILE_CHECKSUMS, LINES, Piece, read_piece};
use pdb_base::little_endian::{u16_at, u32_at};
use pdb_base::{Error, ParseBuffer, PdbInternalSectionOffset, Result};
use std::alloc::Global;

/// The subsections of lines in their order, and the bytes of the last one of files' checksums; none where there is
/// no such part.
#[derive(Drop)]
pub struct Parts<'a> {
    pub(crate) lines: Vec<LineSubsection<'a>>,
    pub(crate) checksums: &'a [u8],
}

/// The subsection at the buffer's offset, where one of lines has its whole header.
#[tactic(auto, unfolding(crate::specs::ProgramParts::whole_piece_at))]
fn read_whole_piece<'a>(buffer: &mut ParseBuffer<'a>) -> Result<Piece<'a>>
    ensures reads { Reads bytes_of_piece buffer.old buffer.new result (whole_piece_at buffer.old.bytes buffer.old.place) (piece_length buffer.old.place) }
    ensures headed { IfOk result (λ piece. piece.kind ≡ LINES → 12 ≤ length piece.body.now) }
{
    let piece = read_piece(buffer)?;
    if piece.kind == LINES && piece.body.len() < 12 {
        return Err(Error::UnexpectedEof);
    }
    Ok(piece)
}

/// The subsection of lines of these bytes.
fn lines_part(body: &[u8]) -> LineSubsection<'_>
    requires { 12 ≤ length body.now }
    ensures subsection { subsection_of result ≡ lines_subsection body.entry.now }
    ensures size { part_bytes result ≤ length body.entry.now }
{
    let (_, bytes) = body.split_at(12);
    let place = PdbInternalSectionOffset::new(u16_at(body, 4), u32_at(body, 0));
    let has_columns = u16_at(body, 6) % 2 == 1;
    LineSubsection {
        place,
        code_size: u32_at(body, 8),
        has_columns,
        bytes,
        rising: rising_in_front(place, bytes, has_columns),
    }
}

/// One more subsection of lines.
fn push_part<'a>(parts: &mut Vec<LineSubsection<'a>>, body: &'a [u8]) -> Result<()>
    requires { 12 ≤ length body.now }
    ensures pushed { IfOk result (λ _. map subsection_of parts.new.items ≡ map subsection_of parts.old.items ++ lines_subsection body.entry.now ∷ []) }
    ensures size { IfOk result (λ _. sum_by part_bytes parts.new.items ≤ sum_by part_bytes parts.old.items + length body.entry.now) }
    ensures count { IfOk result (λ _. vec_len parts.new ≡ vec_len parts.old + 1) }
    ensures refused { IfErr result (λ e. e ≡ Error.OutOfMemory) }
{
    parts.push(lines_part(body))?;
    Ok(())
}

/// The bytes of the last subsection of files' checksums; none where there is no such part. It fails as `ordered_parts`
/// does, but takes no memory: of the lines it reads no block.
pub(crate) fn last_checksums(lines_data: &[u8]) -> Result<&[u8]>
    ensures part { Answers (λ s. s.now) result (checksums_in lines_data.entry.now) }
{
    let mut checksums: &[u8] = &[];
    let mut buffer = ParseBuffer::from(lines_data);
    while !buffer.is_empty() {
        match read_whole_piece(&mut buffer) {
            Ok(piece) => {
                if piece.kind == FILE_CHECKSUMS {
                    checksums = piece.body;
                }
            }
            Err(error) => return Err(error),
        }
    }
    Ok(checksums)
}

/// The parts of a module's lines data.
pub(crate) fn ordered_parts<'a>(alloc: Global, lines_data: &'a [u8]) -> Result<Parts<'a>>
    ensures parts { Gives program_of_parts ⊥ result (parts_of lines_data.entry.now) }
    ensures room { IfOk result (λ parts. sum_by part_bytes parts.lines.items ≤ length lines_data.entry.now) }
    ensures order { IfOk result (λ parts. InOrder (map subsection_of parts.lines.items)) }
    ensures count { IfOk result (λ parts. vec_len parts.lines ≤ length lines_data.entry.now) }
    // Without a subsection of lines it takes no memory.
    ensures lean { lines_listed lines_data.entry.now ≡ [] → IfErr result (λ e. e ≢ Error.OutOfMemory) }
{
    let mut lines = Vec::new(alloc);
    let mut checksums: &'a [u8] = &[];
    let mut buffer = ParseBuffer::from(lines_data);
    while !buffer.is_empty() {
        match read_whole_piece(&mut buffer) {
            Ok(piece) => {
                if piece.kind == LINES {
                    push_part(&mut lines, piece.body)?;
                } else if piece.kind == FILE_CHECKSUMS {
                    checksums = piece.body;
                }
            }
            Err(error) => return Err(error),
        }
    }
    match sort(&mut lines) {
        Ok(()) => Ok(Parts { lines, checksums }),
        Err(_) => Err(Error::OutOfMemory),
    }
}

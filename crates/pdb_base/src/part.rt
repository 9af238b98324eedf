//! Parts of slices: a part of one, and one behind another.

ghost use Rattle.std.specs.Prelude.{◌≡◌, ◌+◌, ◌++◌, ◌≤◌, length, IfOk, IfErr, OnOk};
ghost use Rattle.pdb_base.specs.Fields.{bytes_at};
ghost use Rattle.pdb_base.specs.Refusal.{Answers};

use crate::error::{Error, Result};
use std::alloc::AllocError;

/// The part of so many bytes at an offset. `UnexpectedEof` where its end is past the bytes' end, even if it is empty.
#[tactic(auto, unfolding(crate::specs::Fields::bytes_at))]
pub fn part_of(bytes: &[u8], start: usize, size: usize) -> Result<&[u8]>
    ensures part { Answers (λ x. x.now) result (bytes_at bytes.now start size) }
    ensures refused { IfErr result (λ e. e ≡ Error.UnexpectedEof) }
    ensures fits { IfOk result (λ x. length x.now ≤ length bytes.now) }
    ensures ends { IfOk result (λ _. start + size ≤ length bytes.now) }
{
    if bytes.len() < start || bytes.len() - start < size {
        return Err(Error::UnexpectedEof);
    }
    Ok(&bytes[start..start + size])
}

/// How many bytes are copied at a time.
const PIECE: usize = 4096;

/// Puts bytes behind those that are there. On an error some of them may be there.
pub fn append(all: &mut Vec<u8>, bytes: &[u8]) -> std::result::Result<(), AllocError>
    ensures appended { OnOk result (all.new.items ≡ all.old.items ++ bytes.now) }
{
    let mut rest = bytes;
    while rest.len() > PIECE {
        let (piece, behind) = rest.split_at(PIECE);
        all.extend_from_slice(piece)?;
        rest = behind;
    }
    all.extend_from_slice(rest)
}

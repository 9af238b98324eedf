//! What the rules share: why a name isn't put together, and texts that are joined.

ghost use Rattle.std.specs.Prelude.{◌≡◌, ◌≤◌, [], ◌++◌, length, map, vec_capacity, IfOk, IsOk, OnOk};
ghost use Rattle.pdb_names.specs.Pieces.{behind_mark, joined as joined_texts};
ghost use Rattle.pdb_names.specs.declared.pieces.Stop.TheVariants.{OutOfMemory};

use std::alloc::{AllocError, AllocFailed, Global};

/// Why there is no name: no rule applies, or memory ran out.
#[derive(Clone, Copy)]
pub(crate) enum Stop {
    NoAnswer,
    OutOfMemory,
}

impl From<AllocError> for Stop {
    ghost from_gives = { λ _ e. e ≡ OutOfMemory };

    fn from(_error: AllocError) -> Stop {
        Stop::OutOfMemory
    }
}

impl<T: Drop> From<AllocFailed<T>> for Stop {
    ghost from_gives = { λ _ e. e ≡ OutOfMemory };

    fn from(_error: AllocFailed<T>) -> Stop {
        Stop::OutOfMemory
    }
}

/// One text more, behind a mark unless it is the first.
fn put_text(name: &mut Vec<u8>, is_first: bool, mark: &[u8], text: &[u8]) -> Result<(), AllocError>
    ensures ok { OnOk result (name.new.items ≡ behind_mark is_first mark.now name.old.items ++ text.now) }
    ensures fits { length (behind_mark is_first mark.now name.old.items ++ text.now) ≤ vec_capacity name.old → IsOk result }
{
    if !is_first {
        name.extend_from_slice(mark)?;
    }
    name.extend_from_slice(text)
}

/// Texts in one, with a mark between them.
#[tactic(auto, using(std::proofs::lemmas::Grind::common_steps, crate::proofs::Joining::one_more))]
pub(crate) fn joined(alloc: Global, mark: &[u8], texts: &[Vec<u8>]) -> Result<Vec<u8>, AllocError>
    ensures ok { IfOk result (λ t. t.items ≡ joined_texts mark.now (map (λ v. v.items) texts.now)) }
    ensures lean { joined_texts mark.now (map (λ v. v.items) texts.now) ≡ [] → IsOk result }
{
    let mut name = Vec::new(alloc);
    for (i, text) in texts.iter().enumerate() {
        put_text(&mut name, i == 0, mark, text)?;
    }
    Ok(name)
}

//! Texts that are cut off at a limit.

ghost use Rattle.std.specs.Prelude.{◌≡◌, ◌≤◌, ◌<◌, ◌+◌, length, OnErr, OnOk};
ghost use Rattle.std.specs.Fmt.{decimal};
ghost use Rattle.pdb_types.specs.Cuts.{IsCut, IsKept};

use pdb_text::put_decimal;
use std::alloc::AllocError;

// As much of a text as there is capacity for, behind what is there.
#[tactic(auto, using(crate::proofs::CutLemmas::put_all, crate::proofs::CutLemmas::put_some, crate::proofs::CutLemmas::kept_same))]
pub(crate) fn put(out: &mut Vec<u8>, limit: usize, text: &[u8]) -> Result<(), AllocError>
    requires { length out.old.items ≤ limit }
    ensures ok { OnOk result (IsCut limit out.old.items text.now out.new.items) }
    ensures err { OnErr result (IsKept out.old.items out.new.items) }
    ensures whole { OnOk result (length out.new.items < limit → length out.new.items ≡ length out.old.items + length text.now) }
{
    let room = limit - out.len();
    if text.len() <= room {
        out.extend_from_slice(text)
    } else {
        out.extend_from_slice(&text[..room])
    }
}

// As many decimal digits of a number as there is capacity for.
#[tactic(auto, using(crate::proofs::CutLemmas::truncated, crate::proofs::CutLemmas::kept_front_put))]
pub(crate) fn put_number(out: &mut Vec<u8>, limit: usize, number: u64) -> Result<(), AllocError>
    requires { length out.old.items ≤ limit }
    ensures ok { OnOk result (IsCut limit out.old.items (decimal number) out.new.items) }
    ensures err { OnErr result (IsKept out.old.items out.new.items) }
{
    put_decimal(out, number)?;
    out.truncate(limit);
    Ok(())
}

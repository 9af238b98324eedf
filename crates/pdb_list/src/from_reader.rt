//! Texts of a file of which no more is read than the commands ask for.

ghost use Rattle.std.specs.Prelude.{◌≡◌, ◌≤◌, ◌⊎◌, ℕ, length, true, OnOk, IsErrOf, IsErrAnd, Ok};
ghost use Rattle.std.specs.Option.{ForSome};
ghost use Rattle.std.specs.Io.KnownBytes.{Appends};
ghost use Rattle.pdb.specs.Container.{opens};
ghost use Rattle.pdb.specs.Refusal.{number_of};
ghost use Rattle.pdb_text.specs.Written.{WroteFirst, WroteFront};
ghost use Rattle.pdb_list.specs.CommandTexts.{command_text, texts};

use crate::command::Command;
use crate::engine::run_reading;
use crate::report::Fault;
use bumpalo::Bump;
use pdb_file::{KnownFile, MOST_BYTES, ReadAt, ReadingSource};
use std::alloc::Global;
use std::io::Write;

/// Lists what the commands ask for of a file of this size, which is read where a text needs it.
#[tactic(auto, using(pdb_text::proofs::Written::first_none))]
pub fn list_from<R: ReadAt, W: Write>(
    alloc: Global,
    input: &R,
    size: u64,
    commands: &[Command],
    out: &mut W,
) -> Result<(), Fault>
    ensures ok { ForSome (R.known input.now) (λ G. length G ≡ size → OnOk result ((opens G ≡ Ok tt)
        × Appends (W.contents out.old) (W.contents out.new) (texts G commands.now))) }
    ensures stopped { ForSome (R.known input.now) (λ G. length G ≡ size → IsErrAnd result (λ e. (e ≡ Fault.Read) ⊎ (e ≡ Fault.Memory))
        → WroteFirst (command_text G) (W.contents out.old) (W.contents out.new) commands.now) }
    ensures refused { ForSome (R.known input.now) (λ G. length G ≡ size → (n : ℕ) → IsErrOf result (Fault.Open n)
        → IsErrAnd (opens G) (λ e. n ≡ number_of e)) }
    ensures write { ForSome (R.known input.now) (λ G. length G ≡ size → IsErrOf result Fault.Write
        → WroteFront (W.contents out.old) (W.contents out.new) (texts G commands.now)) }
    // A reader that does not fail gives no read error, unless the file has more than 1 TiB.
    ensures steady { R.is_steady input.now ≡ true → ForSome (R.known input.now) (λ G. length G ≡ size → size ≤ 1099511627776 → IsErrOf result Fault.Read → ⊥) }
{
    if size > MOST_BYTES as u64 {
        return Err(Fault::Read);
    }
    let arena = Bump::new(alloc);
    let file = KnownFile::new(input);
    let source = ReadingSource::new(alloc, &arena, input, &file, size);
    run_reading(alloc, source, commands, out)?;
    Ok(())
}

//! The parts of a module's stream.

ghost use Rattle.std.specs.Prelude.{◌≡◌, ◌≢◌, ℕ, IfErr};
ghost use Rattle.pdb.specs.Error.TheVariants.{OutOfMemory};
ghost use Rattle.pdb.specs.Refusal.{Answers};
ghost use Rattle.pdb.specs.ModuleStream.{lines_data_of};
ghost use Rattle.pdb_c.specs.LineRows.{module_bytes};

use pdb::Result;
use pdb_base::part::part_of;

/// The lines data of a module's stream, behind its symbols.
#[tactic(auto, unfolding(pdb_modules::specs::ModuleStream::lines_data_of))]
pub fn lines_data(stream: &[u8], symbols_size: u32, c13_lines_size: u32) -> Result<&[u8]>
    ensures bytes { (lines_size : ℕ) → Answers (λ s. s.now) result (lines_data_of (module_bytes stream.entry.now symbols_size lines_size c13_lines_size)) }
    ensures memory { IfErr result (λ e. e ≢ OutOfMemory) }
{
    part_of(stream, symbols_size as usize, c13_lines_size as usize)
}

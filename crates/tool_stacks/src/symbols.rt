//! What the program knows of modules and of their PDBs.

use crate::address::KnownModule;
use std::alloc::AllocError;

/// The PDB of a module.
#[derive(Clone, Copy, Debug, PartialEq, Eq)]
pub struct FoundPdb {
    /// Which PDB it is, as the program counts them.
    pub pdb: usize,
    /// What is known of the module.
    pub module: KnownModule,
}

/// What the program knows of modules and of their PDBs. An answer that was given stays. It is told as long as contracts know
/// all that it answered: one whose read of a file fails is told no more, keeps the reason, and its owner stops.
pub trait Symbols {
    ghost use Rattle.std.specs.Prelude.{◌≡◌, [], ◌++◌, IfOk, OnOk, is_some, unwrap_or};
    ghost use Rattle.tool_stacks.specs.Answers.{Asked, Continues, Tells};

    // What it answers, and whether it is told: else contracts say nothing.
    ghost state: { Self → Asked };

    /// The PDB of the module of a name, as the name stands in the text.
    fn pdb_of(&mut self, name: &[u8]) -> Result<Option<FoundPdb>, AllocError>
        ensures continues { Continues (state self.old) (state self.new) }
        ensures found { Tells (state self.old) (state self.new) (λ a. IfOk result (λ found. found ≡ a.pdb_of name.now)) };

    /// Whether a function of a PDB begins at a relative address.
    fn begins_function(&mut self, pdb: usize, address: u32) -> Result<bool, AllocError>
        ensures continues { Continues (state self.old) (state self.new) }
        ensures begins { Tells (state self.old) (state self.new) (λ a. IfOk result (λ begins. begins ≡ a.begins_function pdb address)) };

    /// Appends the frames of a relative address of a PDB, a frame a line behind four blanks, and returns whether there are
    /// some: not where the address has no place, or its one frame has no name and no file.
    fn put_frames(
        &mut self,
        out: &mut Vec<u8>,
        pdb: usize,
        address: u32,
    ) -> Result<bool, AllocError>
        ensures continues { Continues (state self.old) (state self.new) }
        ensures answered { Tells (state self.old) (state self.new) (λ a. IfOk result (λ some. some ≡ is_some (a.frames pdb address))) }
        ensures puts { Tells (state self.old) (state self.new) (λ a. OnOk result (out.new.items ≡ out.old.items ++ unwrap_or (a.frames pdb address) [])) };
}

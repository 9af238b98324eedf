//! Laws of what the calls return.

ghost use Rattle.std.specs.Prelude.{◌≡◌, ℕ, ◌+◌, ◌*◌, ◌≤◌, List, length, Some, None};
ghost use Rattle.pdb.specs.PdbInternalSectionOffset.{PdbInternalSectionOffset};
ghost use Rattle.pdb.specs.ModuleStream.{ModuleBytes};
ghost use Rattle.pdb_resolve.specs.Resolved.{frames_of_module};

/// An address that no module has, has one frame. One of a module has at most one for each four bytes of the module's
/// symbols, and one more.
pub fn an_address_has_few_frames()
    ensures none { (file : List ℕ) (q : PdbInternalSectionOffset) → length (frames_of_module file q None) ≡ 1 }
    ensures some { (file : List ℕ) (q : PdbInternalSectionOffset) (m : ModuleBytes) → 4 * length (frames_of_module file q (Some m)) ≤ m.symbols_size + 4 }
{}

//! Laws of the definitions. Each is the contract of a function that does nothing. Those of the crates below stand in
//! `container`, `symbols`, `information` and `modules`.

ghost use Rattle.std.specs.Prelude.{◌≡◌, ◌≢◌, ℕ, List, All, Some, None, Ok};
ghost use Rattle.pdb_base.specs.Source.{State, Continues};
ghost use Rattle.pdb.specs.Answers.{Made, AreMade, IsAnswered, module_listed, module_of_file};
ghost use Rattle.pdb_base.specs.Container.{stream_of};
ghost use Rattle.pdb_dbi.specs.Modules.{ModuleEntry};

pub use pdb_base::laws as container;
pub use pdb_dbi::laws as information;
pub use pdb_modules::laws as modules;
pub use pdb_symbols::laws as symbols;

/// Whatever list of calls is made on an opened file, each returns what the file alone has: no call, failed ones
/// among them, changes what another one returns.
pub fn calls_answer_for_the_file_alone()
    ensures { (source opened : State) (calls : List Made) → Continues source opened → AreMade opened calls → All (IsAnswered source.file) calls }
{}

/// A module depends on its own stream alone: two files with the same DBI stream and, where the module at an index of
/// the list of modules has a stream, the same stream of it, have the same module there.
pub fn modules_stand_on_their_own_stream()
    ensures { (a b : List ℕ) (k : ℕ) → stream_of a 3 None ≡ stream_of b 3 None
        → ((m : ModuleEntry) → module_listed a k ≡ Ok (Some m) → m.stream ≢ 0xffff → stream_of a m.stream None ≡ stream_of b m.stream None)
        → module_of_file a k ≡ module_of_file b k }
{}

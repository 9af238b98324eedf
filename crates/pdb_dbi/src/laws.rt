//! Laws of the definitions. Each is the contract of a function that does nothing.

ghost use Rattle.std.specs.Prelude.{◌≡◌, ◌↔◌, ◌+◌, ◌/◌, ◌<◌, ℕ, List, length, slice_index_or, Some, None, Ok};
ghost use Rattle.pdb_base.specs.Fields.{bytes_at, number};
ghost use Rattle.pdb_base.specs.Left.{Left};
ghost use Rattle.pdb_base.specs.Tiling.{IsListing};
ghost use Rattle.pdb_dbi.specs.Modules.{ModuleEntry, IsModule, module_at, modules, modules_of};
ghost use Rattle.pdb_dbi.specs.Contributions.{IsContribution, contribution_at, contributions, contributions_of, record_size, records_of};
ghost use Rattle.pdb_dbi.specs.Header.{header_in};
ghost use Rattle.pdb_dbi.specs.Machine.{machine_of, machine_number};
ghost use Rattle.pdb_dbi.specs.Names.{Name, name_at, names_of, pairs_at};

use crate::contributions::DBISectionContribution;
use crate::header::DBIHeader;
use crate::machine::MachineType;

/// Where the DBI stream, which is stream 3, has a header, its first 1024 bytes have the same.
pub fn front_has_the_header()
    ensures { (file : List ℕ) (h : DBIHeader) → header_in file None ≡ Ok h → header_in file (Some 1024) ≡ Ok h }
{}

/// The machine of a machine's number is that machine.
pub fn enum_numbers_round_trip()
    ensures { (machine : MachineType) → machine_of (machine_number machine) ≡ machine }
{}

/// A number that is a machine's is the number of that machine.
pub fn number_of_machine()
    ensures { (n : ℕ) → (machine_of n ≡ MachineType.Unknown → ⊥) → machine_number (machine_of n) ≡ n }
{}

/// There are as many names of streams as pairs, and the k-th name is what the k-th pair says.
pub fn names_are_those_of_the_pairs()
    ensures { (b part pairs : List ℕ) (offset size : ℕ) (names : List Name) → bytes_at b offset size ≡ Ok part → pairs_at b (offset + size) ≡ Ok pairs
        → names_of b offset size ≡ Ok names → (length names ≡ length pairs / 8) × ((k : ℕ) (none : Name) → k < length names → name_at part pairs k ≡ Ok (slice_index_or names k none)) }
{}

/// Bytes have one list of modules, and it is the one that the contracts name.
pub fn one_list_of_modules()
    ensures is { (b : List ℕ) → IsListing modules b 0 (modules_of b) }
    ensures only { (b : List ℕ) (left : Left ModuleEntry) → IsListing modules b 0 left → left ≡ modules_of b }
{}

/// A module is read where its fields stand at their offsets.
pub fn modules_stand_at_their_places()
    ensures { (b : List ℕ) (p : ℕ) (m : ModuleEntry) → (module_at b p ≡ Ok m) ↔ IsModule b p m }
{}

/// A part with a version has one list of contributions, and it is the one that the contracts name.
pub fn one_list_of_contributions()
    ensures is { (part records : List ℕ) (left : Left DBISectionContribution) → records_of part ≡ Ok records → contributions_of part ≡ Ok left → IsListing (contributions (record_size (number part 0 4))) records 0 left }
    ensures only { (part records : List ℕ) (left : Left DBISectionContribution) → records_of part ≡ Ok records → IsListing (contributions (record_size (number part 0 4))) records 0 left → contributions_of part ≡ Ok left }
{}

/// A contribution is read where its fields stand at their offsets, in a record of the size that the part's version
/// says.
pub fn contributions_stand_at_their_places()
    ensures { (version p : ℕ) (b : List ℕ) (c : DBISectionContribution) → (contribution_at (record_size version) b p ≡ Ok c) ↔ IsContribution (record_size version) b p c }
{}

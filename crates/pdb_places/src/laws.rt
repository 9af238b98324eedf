//! Laws of the definitions.

ghost use Rattle.std.specs.Prelude.{◌≡◌, ℕ, ◌<◌, List, length, get_or, Some, None};
ghost use Rattle.pdb.specs.PdbInternalSectionOffset.{PdbInternalSectionOffset};
ghost use Rattle.pdb_places.specs.declared.range.CodeRange.{CodeRange};
ghost use Rattle.pdb_places.specs.Covering.{Covers, IsFirst, first_covering};

/// What is found at a place is what stands for the first listed range that covers it; nothing is found where none
/// does.
pub fn the_first_listed_is_found()
    ensures first { (q : PdbInternalSectionOffset) (rs : List CodeRange) (k : ℕ) (r : CodeRange) → IsFirst q rs k r → first_covering q rs ≡ Some r.payload }
    ensures missing { (q : PdbInternalSectionOffset) (rs : List CodeRange) → ((k : ℕ) (d : CodeRange) → k < length rs → Covers q (get_or rs k d) → ⊥) → first_covering q rs ≡ None }
{}

//! Laws of the definitions. Each is the contract of a function that does nothing.

ghost use Rattle.std.specs.Prelude.{◌≡◌, ◌↔◌, ℕ, List, Some, None, Ok};
ghost use Rattle.pdb_items.specs.Ids.{kind_at};
ghost use Rattle.pdb_types.specs.TypeSays.{TypeSays};
ghost use Rattle.pdb_types.specs.TypeRows.{type_form_of};
ghost use Rattle.pdb_types.specs.TypeReading.{IsType, type_at};
ghost use Rattle.pdb_base.specs.Left.{Left};
ghost use Rattle.pdb_base.specs.Tiling.{IsListing, listing};
ghost use Rattle.pdb_types.specs.MemberSays.{EntrySays};
ghost use Rattle.pdb_types.specs.MemberRows.{FoundEntry, entry_at};
ghost use Rattle.pdb_types.specs.MemberPlaces.{IsEntry};
ghost use Rattle.pdb_types.specs.MemberLists.{entries};

/// What is read of a type record is what its bytes say by the offsets of its fields, and nothing exactly where its kind
/// has no layout.
pub fn types_are_what_the_bytes_say()
    ensures says { (b : List ℕ) (d : TypeSays) → (type_at b ≡ Ok (Some d)) ↔ IsType b d }
    ensures none { (b : List ℕ) → (type_at b ≡ Ok None) ↔ (type_form_of (kind_at b) ≡ None) }
{}

/// What is read of an entry of a list of members is what its bytes say by the offsets of its parts.
pub fn entries_are_what_the_bytes_say()
    ensures { (b : List ℕ) (p : ℕ) (x : FoundEntry) → (entry_at b p ≡ Ok x) ↔ IsEntry b p x }
{}

/// The bytes of a list of members have exactly one list of entries: those that stand one behind the other, and then the
/// error where they stop.
pub fn one_list_of_entries()
    ensures is { (b : List ℕ) (p : ℕ) → IsListing entries b p (listing entries b p) }
    ensures only { (b : List ℕ) (p : ℕ) (left : Left EntrySays) → IsListing entries b p left → left ≡ listing entries b p }
{}

//! Laws of what is found by a place or an address.

ghost use Rattle.std.specs.Prelude.{◌≡◌, ℕ, ◌+◌, ◌-◌, ◌<◌, List, length, get_or, Some, None};
ghost use Rattle.pdb.specs.ImageSectionHeader.{ImageSectionHeader};
ghost use Rattle.pdb.specs.DBISectionContribution.{DBISectionContribution};
ghost use Rattle.pdb.specs.PdbInternalSectionOffset.{PdbInternalSectionOffset};
ghost use Rattle.pdb_places.specs.AddressPlaces.{Pair, IsLastUpto, last_upto, Holds, IsFirstHolding, numbered, place_from, place_in};
ghost use Rattle.pdb.specs.Tables.{Addresses};
ghost use Rattle.pdb_places.specs.PlaceAddresses.{AreSectionsApart, IsUnmoved, address_in};
ghost use Rattle.pdb_places.specs.ModulePlaces.{HasPlace, IsFirstContribution, module_among};
ghost use Rattle.pdb_places.specs.PublicNames.{PublicAt, StandsUpto, IsNearest, public_before};

/// The pair that is chosen for an address is the last listed one at or before it, and none is chosen where all begin
/// behind it.
pub fn the_last_pair_is_chosen()
    ensures is { (r : ℕ) (ps : List Pair) (k : ℕ) (p : Pair) → IsLastUpto r ps k p → last_upto r ps ≡ Some p }
    ensures only { (r : ℕ) (ps : List Pair) (p : Pair) → last_upto r ps ≡ Some p → (k : ℕ) × IsLastUpto r ps k p }
    ensures none { (r : ℕ) (ps : List Pair) → last_upto r ps ≡ None → (k : ℕ) (d : Pair) → k < length ps → r < (get_or ps k d).from }
{}

/// The place of an address lies in the first listed section that has it, and there is none where no section has it.
pub fn the_first_section_counts()
    ensures first { (r : ℕ) (hs : List ImageSectionHeader) (k : ℕ) (h : ImageSectionHeader) → IsFirstHolding r hs k h → place_from r 1 hs ≡ numbered (k + 1) (r - h.virtual_address) }
    ensures none { (r : ℕ) (hs : List ImageSectionHeader) → ((k : ℕ) (d : ImageSectionHeader) → k < length hs → Holds r (get_or hs k d) → ⊥) → place_from r 1 hs ≡ None }
{}

/// The address of a place leads back to that place, where no two sections have a common address and the image was not
/// rearranged.
pub fn the_address_of_a_place_leads_back()
    ensures { (a : Addresses) (q : PdbInternalSectionOffset) (r : ℕ) → IsUnmoved a → AreSectionsApart a.original_sections → q.section < 65536 → address_in a q ≡ Some r → place_in a r ≡ Some q }
{}

/// The module at a place is that of the first listed contribution which has it, and there is none where none has it.
pub fn the_first_contribution_counts()
    ensures first { (q : PdbInternalSectionOffset) (cs : List DBISectionContribution) (k : ℕ) (c : DBISectionContribution) → IsFirstContribution q cs k c → module_among q cs ≡ Some c.«module» }
    ensures none { (q : PdbInternalSectionOffset) (cs : List DBISectionContribution) → ((k : ℕ) (d : DBISectionContribution) → k < length cs → HasPlace q (get_or cs k d) → ⊥) → module_among q cs ≡ None }
{}

/// The public symbol before a place is the nearest of those that stand in its section, there or before it, and of
/// several at one place the first listed; there is none where none stands so.
pub fn the_nearest_public_symbol_counts()
    ensures is { (q : PdbInternalSectionOffset) (ps : List PublicAt) (k : ℕ) (p : PublicAt) → IsNearest q ps k p → public_before q ps ≡ Some p }
    ensures only { (q : PdbInternalSectionOffset) (ps : List PublicAt) (p : PublicAt) → public_before q ps ≡ Some p → (k : ℕ) × IsNearest q ps k p }
    ensures none { (q : PdbInternalSectionOffset) (ps : List PublicAt) → public_before q ps ≡ None → (k : ℕ) (d : PublicAt) → k < length ps → StandsUpto q (get_or ps k d) → ⊥ }
{}

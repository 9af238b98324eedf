//! Laws of the definitions. Each is the contract of a function that does nothing.

ghost use Rattle.std.specs.Prelude.{◌≡◌, ◌↔◌, ◌+◌, ◌<◌, ℕ, ℤ, List, take, Option, Some, None, Result, Bool, Ok, Err, IfErr, option_map};
ghost use Rattle.std.specs.Result.{result_map_both};
ghost use Rattle.pdb_base.specs.Left.{Left, Finds, Tests, found_in};
ghost use Rattle.pdb_base.specs.Tiling.{Row, IsInside, IsListing, listing};
ghost use Rattle.pdb_base.specs.Fields.{number_at, bytes_at, cstring_at, pascal_at, signed_at, variant_at, aligned_at, padding};
ghost use Rattle.pdb_base.specs.Places.{IsNumber, IsSigned, IsSlice, IsCString, IsPascal, IsVariant, IsAligned};
ghost use Rattle.pdb_base.specs.SectionHeader.{IsSectionHeader, header_at};
ghost use Rattle.pdb_base.specs.declared.section_header.ImageSectionHeader.{ImageSectionHeader};
ghost use Rattle.pdb_base.specs.declared.variant.Variant.{Variant};
ghost use Rattle.std.specs.Int.{Width};
ghost use Rattle.pdb_base.specs.Container.{opens, stream_of, page_numbers_of, RefusesStreams};

use crate::error::{Error, Result};

/// Bytes have one list of each kind from each offset on, and it is the one that the contracts name.
pub fn one_listing<A>()
    ensures is { (row : Row A) (b : List ℕ) (p : ℕ) → IsInside row → IsListing row b p (listing row b p) }
    ensures only { (row : Row A) (b : List ℕ) (p : ℕ) (left : Left A) → IsInside row → IsListing row b p left → left ≡ listing row b p }
{}

/// What a read gives is what stands at the offset: the number of so many bytes, also a signed one, that slice, the
/// bytes before the least offset of a zero byte, as many bytes as the byte there says, the number behind a prefix, or a
/// section header by its fields. Padding ends at the next multiple.
pub fn fields_stand_at_their_places()
    ensures number { (b : List ℕ) (p w n : ℕ) → (number_at b p w ≡ Ok n) ↔ IsNumber b p w n }
    ensures slice { (b : List ℕ) (p n : ℕ) (s : List ℕ) → (bytes_at b p n ≡ Ok s) ↔ IsSlice b p n s }
    ensures cstring { (b : List ℕ) (p : ℕ) (s : List ℕ) → (cstring_at b p ≡ Ok s) ↔ IsCString b p s }
    ensures pascal { (b : List ℕ) (p : ℕ) (s : List ℕ) → (pascal_at b p ≡ Ok s) ↔ IsPascal b p s }
    ensures signed { (b : List ℕ) (p : ℕ) (w : Width) (n : ℤ) → (signed_at b p w ≡ Ok n) ↔ IsSigned b p w n }
    ensures variant { (b : List ℕ) (p : ℕ) (v : Variant) → (variant_at b p ≡ Ok v) ↔ IsVariant b p v }
    ensures padding { (b : List ℕ) (p n q : ℕ) → 0 < n → ((aligned_at b p n ≡ Ok tt) × (q ≡ p + padding p n)) ↔ IsAligned b p n q }
    ensures section_header { (b : List ℕ) (p : ℕ) (h : ImageSectionHeader) → (header_at b p ≡ Ok h) ↔ IsSectionHeader b p h }
{}

/// Where a stream can be had whole, its front is its first bytes. Where all its page numbers are there, a number in
/// the front that is no page's refuses both alike.
pub fn front_is_the_beginning()
    ensures beginning { (file : List ℕ) (n limit : ℕ) (bytes : List ℕ) → stream_of file n None ≡ Ok bytes → stream_of file n (Some limit) ≡ Ok (take limit bytes) }
    ensures refusal { (file : List ℕ) (n limit page : ℕ) (pages : List ℕ) → page_numbers_of file n ≡ Ok pages → stream_of file n (Some limit) ≡ Err (Error.PageReferenceOutOfRange page) → stream_of file n None ≡ Err (Error.PageReferenceOutOfRange page) }
{}

/// A stream of a file that opens fails for the end of the file or of the directory, for a number that is no
/// page's, or because there is no such stream, and never for the container's front.
#[tactic(auto, using(crate::proofs::OpenLemmas::opened_refuses))]
pub fn opened_files_refuse_streams_alone()
    ensures { (file : List ℕ) (n : ℕ) (limit : Option ℕ) → opens file ≡ Ok tt → IfErr (stream_of file n limit) RefusesStreams }
{}

/// A search by a test of what items show gives the first item that passes it; where none does the list's fault, or
/// nothing.
pub fn a_test_finds_the_first<X, A, P: FnMut(&X) -> Result<bool>>()
    ensures { (shown : X → A) (test : A → Bool) → Tests shown P.FnMut test
        → (old new : Left A) (p : P) (result : Result (Option X) Error) → Finds shown P.FnMut old p result new
        → result_map_both (option_map shown) (λ e. e) result ≡ found_in test old }
{}

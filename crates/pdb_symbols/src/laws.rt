//! Laws of the definitions. Each is the contract of a function that does nothing, or that returns a number.

ghost use Rattle.std.specs.Prelude.{true, false, ◌≡◌, ℕ, ◌-◌, ◌*◌, ◌≤◌, List, ◌∷◌, ◌++◌, length, Ok, Err};
ghost use Rattle.pdb_base.specs.Left.{Left};
ghost use Rattle.pdb_base.specs.Tiling.{IsListing};
ghost use Rattle.pdb_base.specs.declared.error.Error.{Error};
ghost use Rattle.pdb_symbols.specs.declared.annotations.BinaryAnnotation.{BinaryAnnotation};
ghost use Rattle.pdb_symbols.specs.Annotations.{annotations, annotations_of};
ghost use Rattle.pdb_symbols.specs.Data.{Data};
ghost use Rattle.pdb_symbols.specs.Forms.{Is, Refusal, kind_at, record_at};
ghost use Rattle.pdb_symbols.specs.Scopes.{starts_of, ends_of, StartsScope, EndsScope};
ghost use Rattle.pdb_symbols.specs.Processors.{cpu_of, cpu_number};
ghost use Rattle.pdb_symbols.specs.Languages.{language_of, language_number};
ghost use Rattle.pdb_symbols.specs.declared.processor.CPUType.{CPUType};
ghost use Rattle.pdb_symbols.specs.declared.language.SourceLanguage.{SourceLanguage};
ghost use Rattle.pdb_symbols.specs.SymbolList.{Entry, symbols, symbols_from, StandsBehind};

use crate::language::SourceLanguage;
use crate::processor::CPUType;

/// Bytes have one list of symbols from each offset on, and it is the one that the contracts name.
pub fn one_list_of_symbols()
    ensures is { (b : List ℕ) (p : ℕ) → p ≤ length b → IsListing symbols b p (symbols_from b p) }
    ensures only { (b : List ℕ) (p : ℕ) (left : Left Entry) → p ≤ length b → IsListing symbols b p left
        → left ≡ symbols_from b p }
{}

/// A list of symbols that is started at the index of a symbol, which a list of the same bytes gave, begins with that
/// symbol, and then has what the other list has behind it.
pub fn symbols_resume_at_an_index()
    ensures items { (b : List ℕ) (p : ℕ) (before after : List Entry) (s : Entry)
        → (symbols_from b p).items ≡ before ++ s ∷ after → (symbols_from b s.index).items ≡ s ∷ after }
    ensures fault { (b : List ℕ) (p : ℕ) (before after : List Entry) (s : Entry)
        → (symbols_from b p).items ≡ before ++ s ∷ after → (symbols_from b s.index).fault ≡ (symbols_from b p).fault }
{}

/// The indices of two symbols, one given right after the other, differ by 2 for the first one's length, by its bytes,
/// and by whole records that fill the gap between them. From each offset on there is at most one symbol for every four
/// bytes.
pub fn symbol_spacing()
    ensures neighbours { (b : List ℕ) (p : ℕ) (before after : List Entry) (s t : Entry)
        → (symbols_from b p).items ≡ before ++ s ∷ t ∷ after → StandsBehind b s t }
    ensures few { (b : List ℕ) (p : ℕ) → 4 * length (symbols_from b p).items ≤ length b - p }
{}

/// What is read of a record, or its error, is what its bytes say by the offsets of its fields, and nothing else.
pub fn reading_is_what_the_bytes_say()
    ensures says { (b : List ℕ) (d : Data) → record_at b ≡ Ok d → Is b d }
    ensures reads { (b : List ℕ) (d : Data) → Is b d → record_at b ≡ Ok d }
    ensures refused { (b : List ℕ) (e : Error) → record_at b ≡ Err e → Refusal b e }
{}

/// Bytes have one list of annotations, and it is the one that the contracts name.
pub fn one_list_of_annotations()
    ensures is { (b : List ℕ) → IsListing annotations b 0 (annotations_of b) }
    ensures only { (b : List ℕ) (left : Left BinaryAnnotation) → IsListing annotations b 0 left → left ≡ annotations_of b }
{}

/// A record that says a procedure, a block, a thunk, separated code or an inlined call is of a kind that starts a
/// scope; the end of a scope, of a procedure or of an inlined call is of a kind that ends one; no kind does both.
pub fn scopes_are_exclusive()
    ensures starts { (b : List ℕ) (d : Data) → Is b d → StartsScope d → starts_of (kind_at b) ≡ true }
    ensures ends { (b : List ℕ) (d : Data) → Is b d → EndsScope d → ends_of (kind_at b) ≡ true }
    ensures exclusive { (kind : ℕ) → ends_of kind ≡ true → starts_of kind ≡ false }
{}

/// The number of each processor and of each language means that processor and that language.
pub fn enum_numbers_round_trip()
    ensures processors { (cpu : CPUType) → cpu_of (cpu_number cpu) ≡ cpu }
    ensures languages { (language : SourceLanguage) → language_of (language_number language) ≡ language }
{}

/// The number of a processor, as the law on numbers has it: its discriminant.
pub fn number_of_processor(cpu: CPUType) -> u16
    ensures { result ≡ cpu_number cpu }
{
    cpu as u16
}

/// The number of a language, as the law on numbers has it: its discriminant.
pub fn number_of_language(language: SourceLanguage) -> u8
    ensures { result ≡ language_number language }
{
    language as u8
}

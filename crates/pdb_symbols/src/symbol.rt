//! One symbol record.

ghost use Rattle.std.specs.Prelude.{◌≡◌, ◌≤◌, length};
ghost use Rattle.pdb_base.specs.Fields.{number};

use crate::data::SymbolData;
use crate::heading::{Heading, read_heading};
use crate::parse::parse_record;
use crate::scopes::{kind_ends_scope, kind_starts_scope};
use pdb_base::{Result, SymbolIndex};
use std::alloc::Global;
use std::fmt;

/// The kind of a record, one of the numbers `S_..` of `cvinfo.h`.
pub type SymbolKind = u16;

// The kind of the record of these bytes: the number in the first two.
#[inline]
#[tactic(auto, unfolding(pdb_base::specs::Fields::number))]
pub(crate) fn kind_of(bytes: &[u8]) -> SymbolKind
    requires { 2 ≤ length bytes.now }
    ensures { result ≡ number bytes.now 0 2 }
{
    u16::from_le_bytes([bytes[0], bytes[1]])
}

/// A symbol record: its offset in the list, and its bytes, the first two of which are its kind.
#[derive(Clone, Copy, PartialEq)]
pub struct Symbol<'t> {
    index: SymbolIndex,
    bytes: &'t [u8],
    ghost has_kind: { 2 ≤ length bytes.now },
}

impl<'t> Symbol<'t> {
    ghost use Rattle.std.specs.Prelude.{◌↔◌, ◌⊎◌, IfSome, IsSome, IfOk, IfErr, IsOkAnd, IsErrOf, IsTrue, Ok, true, ℕ, [], ◌∷◌};
    ghost use Rattle.pdb_base.specs.declared.error.Error.{Error};
    ghost use Rattle.pdb_base.specs.Refusal.{Gives};
    ghost use Rattle.pdb_symbols.specs.Data.{Data, shown};
    ghost use Rattle.pdb_symbols.specs.Kinds.{is_in};
    ghost use Rattle.pdb_symbols.specs.Scopes.{starts_of, ends_of, StartsScope, EndsScope};
    ghost use Rattle.pdb_symbols.specs.Forms.{Is, IsUnlistedKind, IsUnlistedPrefix, Refusal, kind_at, record_at};
    ghost use Rattle.pdb_symbols.specs.Headings.{heading_at, shown_heading};
    ghost use Rattle.pdb_symbols.specs.Views.{symbol_of};

    /// The record of these bytes, its kind among them, at an offset of its list. None below two bytes, since these have
    /// no kind.
    pub fn new(index: SymbolIndex, bytes: &'t [u8]) -> Option<Self>
        ensures some { IfSome result (λ s. symbol_of s ≡ record { index = index.0; bytes = bytes.entry.now }) }
        ensures when { IsSome result ↔ (2 ≤ length bytes.entry.now) }
    {
        if bytes.len() < 2 {
            return None;
        }
        Some(Symbol { index, bytes })
    }

    // The record of at least two bytes.
    #[inline]
    pub(crate) fn of(index: SymbolIndex, bytes: &'t [u8]) -> Self
        requires { 2 ≤ length bytes.now }
        ensures { symbol_of result ≡ record { index = index.0; bytes = bytes.entry.now } }
    {
        Symbol { index, bytes }
    }

    /// The record's offset: where its length stands in the buffer, in bytes.
    #[inline]
    pub fn index(&self) -> SymbolIndex
        ensures { result.0 ≡ (symbol_of self.now).index }
    {
        self.index
    }

    /// The record's kind: the number in its first two bytes.
    #[inline]
    pub fn raw_kind(&self) -> SymbolKind
        ensures { result ≡ kind_at (symbol_of self.now).bytes }
    {
        kind_of(self.bytes)
    }

    /// The record's bytes, its kind among them, without its length.
    #[inline]
    pub fn raw_bytes(&self) -> &'t [u8]
        ensures { result.now ≡ (symbol_of self.now).bytes }
    {
        self.bytes
    }

    /// Whether records of the kind start a scope, which a later record ends. A record that says a procedure, a block, a
    /// thunk, separated code or an inlined call does.
    #[inline]
    pub fn starts_scope(&self) -> bool
        ensures kind { result ≡ starts_of (kind_at (symbol_of self.now).bytes) }
        ensures says { (d : Data) → record_at (symbol_of self.now).bytes ≡ Ok d → StartsScope d → result ≡ true }
    {
        kind_starts_scope(self.raw_kind())
    }

    /// Whether records of the kind end a scope. A record that says the end of a scope, of a procedure or of an inlined
    /// call does.
    #[inline]
    pub fn ends_scope(&self) -> bool
        ensures kind { result ≡ ends_of (kind_at (symbol_of self.now).bytes) }
        ensures says { (d : Data) → record_at (symbol_of self.now).bytes ≡ Ok d → EndsScope d → result ≡ true }
    {
        kind_ends_scope(self.raw_kind())
    }

    /// What the record says. Its kind picks the form; the fields stand in the form's order, and bytes behind the last
    /// field are free. A kind with no form is `UnimplementedSymbolKind`, a constant's value with a prefix that isn't
    /// listed is `UnexpectedNumericPrefix`, and fields that aren't all there are `UnexpectedEof`. Variables in several
    /// registers (kinds 0x110a, 0x1005, 0x1117 and 0x1014) take memory for their list and may be `OutOfMemory`; no
    /// other kind takes any.
    #[tactic(auto, using(crate::proofs::Clauses::reads_of, crate::proofs::Clauses::only_of))]
    pub fn parse(&self, alloc: Global) -> Result<SymbolData<'t>>
        // The result is a function of the bytes, out of memory aside.
        ensures reads { Gives shown ⊥ result (record_at (symbol_of self.now).bytes) }
        // What is returned is what the bytes say.
        ensures found { IfOk result (λ d. Is (symbol_of self.now).bytes (shown d)) }
        // What the bytes say is returned, out of memory aside.
        ensures only { (d : Data) → Is (symbol_of self.now).bytes d → IsOkAnd result (λ s. shown s ≡ d) ⊎ IsErrOf result Error.OutOfMemory }
        // A kind with no row fails as such.
        ensures kind { (k : ℕ) → IsErrOf result (Error.UnimplementedSymbolKind k)
            ↔ IsUnlistedKind (symbol_of self.now).bytes k }
        // So is a constant's prefix that is there and unlisted.
        ensures prefix { (n : ℕ) → IsErrOf result (Error.UnexpectedNumericPrefix n)
            ↔ IsUnlistedPrefix (symbol_of self.now).bytes n }
        // Every other error is the end of the bytes, out of memory aside.
        ensures refused { IfErr result (λ e. (e ≡ Error.OutOfMemory) ⊎ Refusal (symbol_of self.now).bytes e) }
        // Memory is wanted for variables in several registers alone.
        ensures memory { IfErr result (λ e. e ≡ Error.OutOfMemory → IsTrue (is_in (0x110a ∷ 0x1005 ∷ 0x1117 ∷ 0x1014 ∷ []) (kind_at (symbol_of self.now).bytes))) }
    {
        parse_record(alloc, self.bytes)
    }

    /// The record's form and its name, as `parse` has them, without the other fields: of most forms these aren't read.
    /// It fails as `parse` does, and takes memory for the same kinds.
    #[inline(always)]
    #[tactic(auto, using(crate::proofs::HeadingClauses::heading_reads))]
    pub fn heading(&self, alloc: Global) -> Result<Heading<'t>>
        // The result is the form and the name of what the bytes say, or the same error, out of memory aside.
        ensures reads { Gives shown_heading ⊥ result (heading_at (symbol_of self.now).bytes) }
        // Memory is wanted for variables in several registers alone.
        ensures memory { IfErr result (λ e. e ≡ Error.OutOfMemory → IsTrue (is_in (0x110a ∷ 0x1005 ∷ 0x1117 ∷ 0x1014 ∷ []) (kind_at (symbol_of self.now).bytes))) }
    {
        read_heading(alloc, self.bytes)
    }
}

/// Shows the kind in hexadecimal digits and the number of the record's bytes.
impl fmt::Debug for Symbol<'_> {
    ghost use Rattle.std.specs.Prelude.{Some};
    ghost use Rattle.pdb_symbols.specs.Views.{symbol_of, debug_text};

    ghost debug_output = { λ s. Some (debug_text (symbol_of s).bytes) };

    fn fmt<W: fmt::Write>(&self, f: &mut fmt::Formatter<W>) -> fmt::Result {
        let kind = self.raw_kind();
        let count = self.bytes.len();
        write!(f, "Symbol{{ kind: 0x{kind:x} [{count} bytes] }}")
    }
}

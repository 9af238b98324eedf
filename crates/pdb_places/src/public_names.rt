//! The names of the public symbols before places.

ghost use Rattle.std.specs.Prelude.{◌≡◌, ◌+◌, ◌≤◌, ◌<◌, ◌^◌, ℕ, true, false, length, IfOk, IfErr, IsOk};
ghost use Rattle.std.specs.Option.{option_map};
ghost use Rattle.pdb.specs.Views.{symbols_left};
ghost use Rattle.pdb_places.specs.PublicNames.{publics_in, public_at};
ghost use Rattle.pdb_places.specs.PublicTable.{head_public, shown_found, IsPublicTable};

use crate::from_second::FromSecond;
use crate::public_table::{PublicTable, find_in, table_of};
use crate::publics::{nearest, public_of};
use pdb::{
    Error, FallibleIterator, PdbInternalSectionOffset, RawString, Result, Steps, SymbolIndex,
    SymbolIter, SymbolTable,
};
use std::alloc::Global;
use std::marker::Model;

/// A public symbol before a place: where it stands, and its name as the file has it.
#[derive(Clone, Copy, Debug, PartialEq)]
pub struct PublicName<'a> {
    /// Where it stands.
    pub place: PdbInternalSectionOffset,
    /// Its name.
    pub name: RawString<'a>,
}

/// The first symbol that an iterator has left, where it is public.
fn first_public<'t>(alloc: Global, mut symbols: SymbolIter<'t>) -> Option<PublicName<'t>>
    ensures { option_map shown_found result ≡ head_public (symbols_left symbols.entry).items }
{
    match symbols.next() {
        Ok(Some(symbol)) => match public_of(alloc, &symbol) {
            Some(public) => Some(PublicName {
                place: public.place,
                name: public.name,
            }),
            None => None,
        },
        Ok(None) => None,
        Err(_) => None,
    }
}

/// The public symbol before a place, by the symbols as they are listed.
#[tactic(auto, unfolding(crate::specs::PublicNames::publics_in))]
fn public_listed<'a>(
    alloc: Global,
    symbols: &'a SymbolTable<'a>,
    place: PdbInternalSectionOffset,
    steps: &mut Steps,
) -> Option<PublicName<'a>>
    ensures public { option_map shown_found result ≡ public_at place (Some symbols.entry.now) }
    ensures few { steps.new.count ≤ steps.old.count + length (publics_in (Some symbols.entry.now)) }
{
    match nearest(alloc, symbols.iter(), place, steps) {
        Some(public) => Some(PublicName {
            place: public.place,
            name: public.name,
        }),
        None => None,
    }
}

/// The public symbol before a place, by a table of the symbols.
fn public_in<'a>(
    alloc: Global,
    symbols: &'a SymbolTable<'a>,
    table: &PublicTable,
    place: PdbInternalSectionOffset,
    steps: &mut Steps,
) -> Option<PublicName<'a>>
    requires { IsPublicTable (publics_in (Some symbols.now)) table.now.sorted.items }
    ensures public { option_map shown_found result ≡ public_at place (Some symbols.entry.now) }
    ensures halved { (digits : ℕ) → length (publics_in (Some symbols.entry.now)) < 2 ^ digits → steps.new.count ≤ steps.old.count + digits }
    ensures few { steps.new.count ≤ steps.old.count + length (publics_in (Some symbols.entry.now)) }
{
    match find_in(table, place, steps) {
        Some(index) => first_public(alloc, symbols.iter_at(SymbolIndex(index))),
        None => None,
    }
}

/// The public symbols of a stream, of which the one before a place is found. A contract sees them as the stream, if
/// there is one, and whether it was asked for a place.
#[derive(Drop)]
pub struct PublicNames<'a> {
    symbols: Option<&'a SymbolTable<'a>>,
    table: FromSecond<PublicTable>,
}

impl<'a> Model for PublicNames<'a> {
    ghost use Rattle.std.specs.Option.{option_map};
    ghost use Rattle.pdb_places.specs.AskedStream.{AskedStream};
    ghost use Rattle.pdb_places.specs.FromSecond.{made_of, was_asked};
    ghost use Rattle.pdb_places.specs.PublicNames.{publics_in};
    ghost use Rattle.pdb_places.specs.PublicTable.{IsPublicTableIfMade};

    ghost Value = { AskedStream };

    ghost view = { λ n. record { stream = option_map (λ s. s.now) n.symbols; asked = was_asked n.table } };

    ghost invariant = { λ n. IsPublicTableIfMade (publics_in (option_map (λ s. s.now) n.symbols)) (made_of n.table) };
}

impl<'a> PublicNames<'a> {
    /// The public symbols of a stream; none without one. It takes no memory.
    pub fn new(symbols: Option<&'a SymbolTable<'a>>) -> Self
        ensures { result ≡ record { stream = option_map (λ s. s.now) symbols.entry; asked = false } }
    {
        PublicNames {
            symbols,
            table: FromSecond::new(),
        }
    }

    /// The public symbol before a place, as `find`, with a step for each look at a public symbol: never more
    /// than there are. From the second question on there are at most as many as their number has binary digits; those
    /// to make the table aren't counted.
    pub fn find_counted(
        &mut self,
        alloc: Global,
        place: PdbInternalSectionOffset,
        steps: &mut Steps,
    ) -> Result<Option<PublicName<'a>>>
        ensures found { IfOk result (λ n. option_map shown_found n ≡ public_at place self.old.stream) }
        ensures kept { self.new ≡ record { stream = self.old.stream; asked = true } }
        ensures refused { IfErr result (λ e. e ≡ Error.OutOfMemory) }
        ensures lean { self.old.asked ≡ false → IsOk result }
        ensures halved { self.old.asked ≡ true → (digits : ℕ) → length (publics_in self.old.stream) < 2 ^ digits
            → steps.new.count ≤ steps.old.count + digits }
        ensures few { steps.new.count ≤ steps.old.count + length (publics_in self.old.stream) }
    {
        let is_wanted = self.table.ask();
        let symbols = match self.symbols {
            Some(symbols) => symbols,
            None => return Ok(None),
        };
        if is_wanted {
            self.table.keep(table_of(alloc, symbols)?);
        }
        match self.table.made() {
            Some(table) => Ok(public_in(alloc, symbols, table, place, steps)),
            None => Ok(public_listed(alloc, symbols, place, steps)),
        }
    }

    /// The public symbol before a place: of those in its section that stand there or before it, the one of the greatest
    /// offset, and of several at one offset the first listed; none where there is none. A symbol that can't be read is
    /// as if it weren't there. The first call is one pass over the symbols, which takes no memory; at the second a
    /// table is made and kept, and later ones are looked up there. It fails with out of memory alone, and may then be
    /// called again.
    pub fn find(
        &mut self,
        alloc: Global,
        place: PdbInternalSectionOffset,
    ) -> Result<Option<PublicName<'a>>>
        ensures found { IfOk result (λ n. option_map shown_found n ≡ public_at place self.old.stream) }
        ensures kept { self.new ≡ record { stream = self.old.stream; asked = true } }
        ensures refused { IfErr result (λ e. e ≡ Error.OutOfMemory) }
        ensures lean { self.old.asked ≡ false → IsOk result }
    {
        self.find_counted(alloc, place, &mut Steps::new())
    }
}

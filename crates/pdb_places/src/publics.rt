//! Public symbols, and the nearest one before a place.

ghost use Rattle.std.specs.Prelude.{◌≡◌, ◌+◌, ◌≤◌, [], ◌∷◌, true, false, length, Some, IfSome, IsSome};
ghost use Rattle.std.specs.Option.{option_map, option_to_list};
ghost use Rattle.pdb.specs.Views.{symbol_of, symbols_left};
ghost use Rattle.pdb_symbols.specs.Kinds.{is_in};
ghost use Rattle.pdb_places.specs.PublicNames.{PublicAt, public_of, publics_among, public_before, nearer, stands_upto};
ghost use Rattle.pdb_places.specs.PublicPlaces.{IsPublicAt};
ghost use Rattle.pdb_places.specs.PublicTable.{shown_public, if_upto};

use pdb::{
    FallibleIterator, PdbInternalSectionOffset, RawString, Steps, Symbol, SymbolData, SymbolIndex,
    SymbolIter,
};
use pdb_base::little_endian::{u16_at, u32_at};
use std::alloc::Global;

/// A public symbol that was read.
#[derive(Clone, Copy)]
pub(crate) struct Public<'t> {
    pub(crate) index: SymbolIndex,
    pub(crate) place: PdbInternalSectionOffset,
    pub(crate) name: RawString<'t>,
}

/// Whether records of a kind may be public symbols.
fn is_public(kind: u16) -> bool
    ensures { result ≡ is_in (0x110e ∷ 0x1009 ∷ []) kind }
{
    kind == 0x110e || kind == 0x1009
}

/// The place of a public symbol by its record, where this is of the usual kind and its last byte is zero: so its name
/// ends, wherever. There are many, so no more is read.
pub(crate) fn quick_place(bytes: &[u8]) -> Option<PdbInternalSectionOffset>
    ensures { IfSome result (λ q. IsPublicAt bytes.now q) }
{
    let size = bytes.len();
    if size < 13 || u16_at(bytes, 0) != 0x110e || bytes[size - 1] != 0 {
        return None;
    }
    Some(PdbInternalSectionOffset {
        offset: u32_at(bytes, 6),
        section: u16_at(bytes, 10),
    })
}

/// The public symbol that a symbol is. It takes no memory.
pub(crate) fn public_of<'t>(alloc: Global, symbol: &Symbol<'t>) -> Option<Public<'t>>
    ensures { option_map shown_public result ≡ public_of (symbol_of symbol.now) }
{
    if !is_public(symbol.raw_kind()) {
        return None;
    }
    match symbol.parse(alloc) {
        Ok(SymbolData::Public(public)) => Some(Public {
            index: symbol.index(),
            place: public.offset,
            name: public.name,
        }),
        Ok(_) => None,
        Err(_) => None,
    }
}

/// Whether a public symbol stands in a place's section, there or before it.
fn stands_upto(place: PdbInternalSectionOffset, public: &Public<'_>) -> bool
    ensures { result ≡ stands_upto place (shown_public public.now) }
{
    public.place.section == place.section && public.place.offset <= place.offset
}

/// The nearer of two public symbols, of which the first was listed before the other.
fn nearer<'t>(best: Option<Public<'t>>, next: Public<'t>) -> Option<Public<'t>>
    ensures { option_map shown_public result ≡ nearer (option_map shown_public best.entry) (Some (shown_public next.entry)) }
{
    match best {
        Some(best) => {
            if best.place.offset < next.place.offset {
                Some(next)
            } else {
                Some(best)
            }
        }
        None => Some(next),
    }
}

/// Whether a public symbol at a place may be nearer before another one than that so far.
fn gets_nearer(
    best: Option<Public<'_>>,
    at: PdbInternalSectionOffset,
    place: PdbInternalSectionOffset,
) -> bool
    ensures { (p : PublicAt) → p.place ≡ at → result ≡ false → nearer (option_map shown_public best.entry) (if_upto place (Some p)) ≡ option_map shown_public best.entry }
{
    if at.section != place.section || at.offset > place.offset {
        return false;
    }
    match best {
        Some(best) => best.place.offset < at.offset,
        None => true,
    }
}

/// Whether a symbol is seen at once to be a public symbol that is no nearer.
fn is_farther(
    best: Option<Public<'_>>,
    symbol: &Symbol<'_>,
    place: PdbInternalSectionOffset,
) -> bool
    ensures nearest { result ≡ true → nearer (option_map shown_public best.entry) (if_upto place (public_of (symbol_of symbol.now))) ≡ option_map shown_public best.entry }
    ensures public { result ≡ true → IsSome (public_of (symbol_of symbol.now)) }
{
    match quick_place(symbol.raw_bytes()) {
        Some(at) => !gets_nearer(best, at, place),
        None => false,
    }
}

/// The nearest one before a place, of that so far and one more symbol. A look at a public symbol takes a step.
fn with<'t>(
    alloc: Global,
    best: Option<Public<'t>>,
    symbol: &Symbol<'t>,
    place: PdbInternalSectionOffset,
    steps: &mut Steps,
) -> Option<Public<'t>>
    ensures nearest { option_map shown_public result ≡ nearer (option_map shown_public best.entry) (if_upto place (public_of (symbol_of symbol.now))) }
    ensures counted { steps.new.count ≤ steps.old.count + length (option_to_list (public_of (symbol_of symbol.now))) }
{
    if is_farther(best, symbol, place) {
        steps.tick();
        return best;
    }
    match public_of(alloc, symbol) {
        Some(public) => {
            steps.tick();
            if stands_upto(place, &public) {
                nearer(best, public)
            } else {
                best
            }
        }
        None => best,
    }
}

/// The nearest public symbol before a place, of the symbols that an iterator has left, up to its fault. A look at a
/// public symbol takes a step.
pub(crate) fn nearest<'t>(
    alloc: Global,
    mut symbols: SymbolIter<'t>,
    place: PdbInternalSectionOffset,
    steps: &mut Steps,
) -> Option<Public<'t>>
    ensures nearest { option_map shown_public result ≡ public_before place (publics_among (symbols_left symbols.entry).items) }
    ensures few { steps.new.count ≤ steps.old.count + length (publics_among (symbols_left symbols.entry).items) }
{
    let mut best = None;
    loop {
        match symbols.next() {
            Ok(Some(symbol)) => best = with(alloc, best, &symbol, place, steps),
            Ok(None) => return best,
            Err(_) => return best,
        }
    }
}

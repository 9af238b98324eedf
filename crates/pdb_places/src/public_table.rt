//! The places of public symbols, sorted.

ghost use Rattle.std.specs.Prelude.{◌≡◌, ◌+◌, ◌-◌, ◌*◌, ◌++◌, [], ◌∷◌, ◌≤◌, ◌<◌, ◌^◌, ℕ, length, map, List, IfOk, IfErr, OnOk};
ghost use Rattle.std.specs.Option.{option_map, option_to_list};
ghost use Rattle.std.specs.List.Sorted.{IsNonDecreasingBy, IsPermutation};
ghost use Rattle.pdb.specs.Views.{symbol_of, symbols_left};
ghost use Rattle.pdb_places.specs.PublicNames.{PublicAt, public_of, publics_among, publics_in, public_before};
ghost use Rattle.pdb_places.specs.PublicTable.{place_parts, public_parts, public_index, key_of, key_upto, IsUptoCount, IsPublicTable};

use crate::public_place::PublicPlace;
use crate::publics::{public_of, quick_place};
use crate::range::order_of;
use pdb::{
    Error, FallibleIterator, PdbInternalSectionOffset, Result, Steps, Symbol, SymbolIter,
    SymbolTable,
};
use std::alloc::Global;

/// The last place in the order of public symbols that is at or before another.
fn key_upto(place: PdbInternalSectionOffset) -> u128
    ensures key { result ≡ key_upto place }
    ensures fits { place.offset < 2 ^ 32 }
{
    u128::from(order_of(place)) * 0x1_0000_0000 + 0xffff_ffff
}

/// One more row.
fn push(rows: &mut Vec<PublicPlace>, place: PdbInternalSectionOffset, index: u32) -> Result<()>
    ensures pushed { OnOk result (map place_parts rows.new.items ≡ map place_parts rows.old.items ++ (index, place) ∷ []) }
    ensures refused { IfErr result (λ e. e ≡ Error.OutOfMemory) }
{
    match rows.push(PublicPlace::new(place, index)) {
        Ok(()) => Ok(()),
        Err(_) => Err(Error::OutOfMemory),
    }
}

/// One more symbol.
fn add(alloc: Global, rows: &mut Vec<PublicPlace>, symbol: &Symbol<'_>) -> Result<()>
    ensures added { OnOk result (map place_parts rows.new.items ≡ map place_parts rows.old.items ++ map public_parts (option_to_list (public_of (symbol_of symbol.now)))) }
    ensures refused { IfErr result (λ e. e ≡ Error.OutOfMemory) }
{
    if let Some(place) = quick_place(symbol.raw_bytes()) {
        return push(rows, place, symbol.index().0);
    }
    match public_of(alloc, symbol) {
        Some(public) => push(rows, public.place, public.index.0),
        None => Ok(()),
    }
}

/// The rows of the public symbols that an iterator has left, up to its fault.
fn rows_of(alloc: Global, mut symbols: SymbolIter<'_>) -> Result<Vec<PublicPlace>>
    ensures rows { IfOk result (λ rows. map place_parts rows.items ≡ map public_parts (publics_among (symbols_left symbols.entry).items)) }
    ensures refused { IfErr result (λ e. e ≡ Error.OutOfMemory) }
{
    let mut rows = Vec::new(alloc);
    loop {
        match symbols.next() {
            Ok(Some(symbol)) => add(alloc, &mut rows, &symbol)?,
            Ok(None) => return Ok(rows),
            Err(_) => return Ok(rows),
        }
    }
}

/// Sorts rows by their order.
fn sort(rows: &mut Vec<PublicPlace>) -> Result<()>
    ensures rises { OnOk result (IsNonDecreasingBy key_of rows.new.items) }
    ensures all { OnOk result (IsPermutation rows.old.items rows.new.items) }
    ensures refused { IfErr result (λ e. e ≡ Error.OutOfMemory) }
{
    match rows.sort_by_key(|row| row.key()) {
        Ok(()) => Ok(()),
        Err(_) => Err(Error::OutOfMemory),
    }
}

/// How many rows stand at or before one in their order. They are searched by halving, and each look takes a step.
fn count_upto(rows: &[PublicPlace], last: u128, steps: &mut Steps) -> usize
    requires { IsNonDecreasingBy key_of rows.now }
    ensures count { IsUptoCount last rows.now result }
    ensures probes { (digits : ℕ) → length rows.now < 2 ^ digits → steps.new.count ≤ steps.old.count + digits }
    ensures few { steps.new.count ≤ steps.old.count + length rows.now }
{
    let mut low = 0;
    let mut high = rows.len();
    while low < high {
        let middle = low + (high - low) / 2;
        steps.tick();
        let key = rows[middle].key();
        if key <= last {
            low = middle + 1;
        } else {
            high = middle;
        }
    }
    low
}

/// The public symbols of a stream, in their order.
#[derive(Drop)]
pub(crate) struct PublicTable {
    pub(crate) sorted: Vec<PublicPlace>,
}

/// The table of a stream's public symbols.
#[tactic(auto, unfolding(crate::specs::PublicNames::publics_in))]
pub(crate) fn table_of(alloc: Global, symbols: &SymbolTable<'_>) -> Result<PublicTable>
    ensures table { IfOk result (λ t. IsPublicTable (publics_in (Some symbols.now)) t.sorted.items) }
    ensures refused { IfErr result (λ e. e ≡ Error.OutOfMemory) }
{
    let mut sorted = rows_of(alloc, symbols.iter())?;
    sort(&mut sorted)?;
    Ok(PublicTable { sorted })
}

/// The index of the public symbol before a place.
pub(crate) fn find_in(
    table: &PublicTable,
    place: PdbInternalSectionOffset,
    steps: &mut Steps,
) -> Option<u32>
    requires { IsNonDecreasingBy key_of table.now.sorted.items }
    ensures found { (ps : List PublicAt) → IsPublicTable ps table.now.sorted.items → result ≡ option_map public_index (public_before place ps) }
    ensures halved { (ps : List PublicAt) → IsPublicTable ps table.now.sorted.items → (digits : ℕ) → length ps < 2 ^ digits → steps.new.count ≤ steps.old.count + digits }
    ensures few { (ps : List PublicAt) → IsPublicTable ps table.now.sorted.items → steps.new.count ≤ steps.old.count + length ps }
{
    let rows = table.sorted.as_slice();
    let last = key_upto(place);
    let count = count_upto(rows, last, steps);
    if count == 0 {
        return None;
    }
    let row = rows[count - 1];
    if row.place.section == place.section {
        Some(row.index)
    } else {
        None
    }
}

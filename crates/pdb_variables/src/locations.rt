//! Where variables are while the code at a place runs.

ghost use Rattle.std.specs.Prelude.{◌≡◌, ◌≤◌, ◌++◌, ◌+◌, ◌<◌, ◌^◌, [], ◌∷◌, Some, None, IfOk, IfErr, OnOk, length};
ghost use Rattle.std.specs.List.{list_any};
ghost use Rattle.pdb.specs.Views.{symbol_of, symbols_bytes, symbols_left, symbols_place};
ghost use Rattle.pdb_records.specs.RangePieces.{is_in};
ghost use Rattle.pdb_records.specs.RecordViews.{gaps_in, gaps_left, shown_record};
ghost use Rattle.pdb_variables.specs.VariableRecords.{base_of, covers, extent_of, held_place, is_of_ranges, part_of, place_by, range_covers, ranged_place, stored_as, stored_at, stored_by, whole_of};
ghost use Rattle.pdb_variables.specs.VariableViews.{shown_extent, shown_location};

use crate::frame_bases::Bases;
use crate::variable_records::Held;
use pdb::{
    Error, FallibleIterator, PdbInternalSectionOffset, Register, Result, Symbol, SymbolIndex,
    SymbolIter, Variant,
};
use pdb_records::{AddressRange, Gaps, GapsIter, Record};
use std::alloc::Global;

/// Where a variable, or a part of it, is stored.
#[derive(Clone, Copy, Debug, Eq, PartialEq)]
pub enum Storage {
    /// In a register.
    Register(Register),
    /// In memory, so many bytes behind the value of a register.
    RegisterRelative(Register, i32),
    /// In memory, so many bytes behind the value of the base pointer.
    BasePointerRelative(i32),
    /// In memory, so many bytes behind the value of the register from which a frame counts. Its number is what
    /// `pdb_records::Machine::frame_register` takes; 0 where the function says none.
    FrameRelative(u8, i32),
    /// What a program of this number computes.
    Program(u32),
}

/// A part of a variable.
#[derive(Clone, Copy, Debug, Eq, PartialEq)]
pub struct VariablePart {
    /// The offset of the part in the variable, in bytes.
    pub offset: u32,
    /// Where the part is.
    pub storage: Storage,
}

/// Where a variable is.
#[derive(Debug, Drop)]
pub enum Location {
    /// Nowhere: the code at the place doesn't keep it.
    Nowhere,
    /// All of it in one storage.
    Whole(Storage),
    /// In parts, in the order of their records.
    Parts(Vec<VariablePart>),
    /// At an offset in a section, of the image or of a thread's storage.
    At(PdbInternalSectionOffset),
    /// It is a constant of this value.
    Value(Variant),
}

// What a record of a range says: the offset in the variable, none for all of it, and the storage.
#[derive(Clone, Copy)]
pub(crate) struct Stored {
    pub(crate) offset: Option<u32>,
    pub(crate) storage: Storage,
}

// The whole variable.
fn whole(storage: Storage) -> Option<Stored>
    ensures { result ≡ stored_as None storage }
{
    Some(Stored {
        offset: None,
        storage,
    })
}

// A part of it.
fn part(offset: u32, storage: Storage) -> Option<Stored>
    ensures { result ≡ stored_as (Some offset) storage }
{
    Some(Stored {
        offset: Some(offset),
        storage,
    })
}

// The whole variable, or a part of it, at an offset from the value of a register.
fn relative(subfield: Option<u16>, storage: Storage) -> Option<Stored>
    ensures { result ≡ stored_as subfield storage }
{
    match subfield {
        Some(offset) => part(u32::from(offset), storage),
        None => whole(storage),
    }
}

// Where a record of a range says that a variable is, in a frame that counts from this register.
fn stored_by(base: u8, parsed: &Record<'_>) -> Option<Stored>
    ensures { result ≡ stored_by base (shown_record parsed.now) }
{
    match parsed {
        Record::DefRange(s) => whole(Storage::Program(s.program)),
        Record::DefRangeSubfield(s) => part(s.offset_in_parent, Storage::Program(s.program)),
        Record::DefRangeRegister(s) => whole(Storage::Register(s.register)),
        Record::DefRangeFramePointerRelative(s) => whole(Storage::FrameRelative(base, s.offset)),
        Record::DefRangeSubfieldRegister(s) => {
            part(s.offset_in_parent, Storage::Register(s.register))
        }
        Record::DefRangeFramePointerRelativeFullScope(s) => {
            whole(Storage::FrameRelative(base, s.offset))
        }
        Record::DefRangeRegisterRelative(s) => {
            relative(s.subfield, Storage::RegisterRelative(s.register, s.offset))
        }
        _ => None,
    }
}

// In which code a record of a range holds.
#[derive(Clone, Copy)]
enum Extent<'t> {
    Nowhere,
    Everywhere,
    Within(AddressRange, Gaps<'t>),
}

// The same, by what the record says.
fn extent_of<'t>(parsed: &Record<'t>) -> Extent<'t>
    ensures { shown_extent result ≡ extent_of (shown_record parsed.now) }
{
    match parsed {
        Record::DefRange(s) => Extent::Within(s.range, s.gaps),
        Record::DefRangeSubfield(s) => Extent::Within(s.range, s.gaps),
        Record::DefRangeRegister(s) => Extent::Within(s.range, s.gaps),
        Record::DefRangeFramePointerRelative(s) => Extent::Within(s.range, s.gaps),
        Record::DefRangeSubfieldRegister(s) => Extent::Within(s.range, s.gaps),
        Record::DefRangeFramePointerRelativeFullScope(_) => Extent::Everywhere,
        Record::DefRangeRegisterRelative(s) => Extent::Within(s.range, s.gaps),
        _ => Extent::Nowhere,
    }
}

// Whether a gap that an iterator has left has a byte.
fn gap_has(mut gaps: GapsIter<'_>, at: u32) -> bool
    ensures { result ≡ list_any (is_in at) (gaps_left gaps.entry).items }
{
    loop {
        match gaps.next() {
            Ok(Some(gap)) => {
                if u32::from(gap.start) <= at && at < u32::from(gap.start) + u32::from(gap.len) {
                    return true;
                }
            }
            Ok(None) => return false,
            Err(_) => return false,
        }
    }
}

// Whether a range covers a place, and none of its gaps does.
fn range_covers(place: PdbInternalSectionOffset, range: AddressRange, gaps: Gaps<'_>) -> bool
    ensures { result ≡ range_covers place range (gaps_in gaps.entry) }
{
    if range.start.section != place.section || place.offset < range.start.offset {
        return false;
    }
    let at = place.offset - range.start.offset;
    at < u32::from(range.len) && !gap_has(gaps.iter(), at)
}

// Whether a record of a range holds at a place.
fn covers(place: PdbInternalSectionOffset, parsed: &Record<'_>) -> bool
    ensures { result ≡ covers place (extent_of (shown_record parsed.now)) }
{
    match extent_of(parsed) {
        Extent::Nowhere => false,
        Extent::Everywhere => true,
        Extent::Within(range, gaps) => range_covers(place, range, gaps),
    }
}

// What a symbol's record of a range says of a place; none where it holds elsewhere, or can't be read.
fn stored_at(place: PdbInternalSectionOffset, base: u8, symbol: &Symbol<'_>) -> Option<Stored>
    ensures { result ≡ stored_at place base (symbol_of symbol.now) }
{
    match Record::parse(symbol) {
        Ok(parsed) => {
            if covers(place, &parsed) {
                stored_by(base, &parsed)
            } else {
                None
            }
        }
        Err(_) => None,
    }
}

// Whether a kind is one of records of ranges.
fn is_of_ranges(kind: u16) -> bool
    ensures { result ≡ is_of_ranges kind }
{
    (0x113f <= kind && kind <= 0x1145) || kind == 0x1150 || kind == 0x1157
}

// Where a variable is of which these parts were found, and no whole one.
fn in_parts(parts: Vec<VariablePart>) -> Location
    ensures { shown_location result ≡ place_by [] parts.items }
{
    if parts.is_empty() {
        Location::Nowhere
    } else {
        Location::Parts(parts)
    }
}

// Where a variable is, by the records of ranges that an iterator gives first. It has then gone on.
fn ranged_ahead(
    alloc: Global,
    symbols: &mut SymbolIter<'_>,
    place: PdbInternalSectionOffset,
    base: u8,
) -> Result<Location>
    ensures is { IfOk result (λ l. shown_location l ≡ ranged_place place base (symbols_left symbols.old).items) }
    ensures bytes { symbols_bytes symbols.new ≡ symbols_bytes symbols.old }
    ensures refused { IfErr result (λ e. e ≡ Error.OutOfMemory) }
{
    let mut parts = Vec::new(alloc);
    loop {
        let symbol = match symbols.next() {
            Ok(Some(symbol)) => symbol,
            Ok(None) => return Ok(in_parts(parts)),
            Err(_) => return Ok(in_parts(parts)),
        };
        if !is_of_ranges(symbol.raw_kind()) {
            return Ok(in_parts(parts));
        }
        if let Some(stored) = stored_at(place, base, &symbol) {
            match stored.offset {
                Some(offset) => push(&mut parts, offset, stored.storage)?,
                None => return Ok(Location::Whole(stored.storage)),
            }
        }
    }
}

// One more part.
fn push(parts: &mut Vec<VariablePart>, offset: u32, storage: Storage) -> Result<()>
    ensures pushed { OnOk result (parts.new.items ≡ parts.old.items ++ record { offset = offset; storage = storage } ∷ []) }
    ensures refused { IfErr result (λ e. e ≡ Error.OutOfMemory) }
{
    match parts.push(VariablePart { offset, storage }) {
        Ok(()) => Ok(()),
        Err(_) => Err(Error::OutOfMemory),
    }
}

// The same, of an iterator that stands behind a symbol, and stands there again afterwards.
fn ranged_behind(
    alloc: Global,
    symbols: &mut SymbolIter<'_>,
    symbol: &Symbol<'_>,
    place: PdbInternalSectionOffset,
    base: u8,
) -> Result<Location>
    requires stands { symbols_place symbols.old ≡ (symbol_of symbol.now).index + 2 + length (symbol_of symbol.now).bytes }
    requires inside { symbols_place symbols.old ≤ length (symbols_bytes symbols.old) }
    requires small { length (symbols_bytes symbols.old) < 2 ^ 32 }
    ensures is { IfOk result (λ l. shown_location l ≡ ranged_place place base (symbols_left symbols.old).items) }
    ensures left { symbols_left symbols.new ≡ symbols_left symbols.old }
    ensures refused { IfErr result (λ e. e ≡ Error.OutOfMemory) }
{
    let behind = symbol.index().0 + 2 + symbol.raw_bytes().len() as u32;
    let location = ranged_ahead(alloc, symbols, place, base);
    symbols.seek(SymbolIndex(behind));
    location
}

/// Where a variable is that a symbol declares, behind which an iterator stands; it stands there again afterwards.
pub(crate) fn held_behind(
    alloc: Global,
    symbols: &mut SymbolIter<'_>,
    symbol: &Symbol<'_>,
    place: PdbInternalSectionOffset,
    bases: Bases,
    held: Held,
) -> Result<Location>
    requires stands { symbols_place symbols.old ≡ (symbol_of symbol.now).index + 2 + length (symbol_of symbol.now).bytes }
    requires inside { symbols_place symbols.old ≤ length (symbols_bytes symbols.old) }
    requires small { length (symbols_bytes symbols.old) < 2 ^ 32 }
    ensures is { IfOk result (λ l. shown_location l ≡ held_place place bases (symbols_left symbols.old).items held) }
    ensures left { symbols_left symbols.new ≡ symbols_left symbols.old }
    ensures refused { IfErr result (λ e. e ≡ Error.OutOfMemory) }
{
    match held {
        Held::InOne(storage) => Ok(Location::Whole(storage)),
        Held::ByRanges(parameter) => {
            ranged_behind(alloc, symbols, symbol, place, bases.of(parameter))
        }
        Held::AtOffset(offset) => Ok(Location::At(offset)),
        Held::OfValue(value) => Ok(Location::Value(value)),
    }
}

//! The sizes of types, many at once.

ghost use Rattle.std.specs.Prelude.{◌≡◌, ◌≤◌, ◌<◌, length, map};
ghost use Rattle.std.specs.Option.{option_map};
ghost use Rattle.pdb_items.specs.Items.{known_items_in};
ghost use Rattle.pdb_types.specs.DefinitionViews.{type_number};
ghost use Rattle.pdb_types.specs.TypeTexts.{small_size};
ghost use Rattle.pdb_c.specs.Rooms.{over};
ghost use Rattle.pdb_c.specs.TypeRows.{AreTypeSizes, TypeSizesTold, sized_row, type_size_row};

use crate::answers::{LARGE, code_of, room_code};
use crate::rooms::put_row;
use crate::types::Types;
use pdb::TypeIndex;
use std::alloc::Global;

/// The size of a type, and its full definition.
#[repr(C)]
#[derive(Clone, Copy)]
pub struct PdbTypeSize {
    /// How many bytes it has; 0 where that isn't known.
    pub size: u64,
    /// The index of its full definition; 0 where it has none.
    pub full: u32,
    /// 1 where it has a size.
    pub has_size: u32,
}

// A size that is a number of 64 bits.
#[tactic(auto, using(pdb_types::proofs::Counts::small_is))]
fn small_size(size: Option<i128>) -> Option<u64>
    ensures { result ≡ small_size size }
{
    u64::try_from(size?).ok()
}

/// The row of a size and of the full definition.
fn sized_row(size: Option<u64>, full: Option<TypeIndex>) -> PdbTypeSize
    ensures { result ≡ sized_row size (option_map type_number full) }
{
    let (size, has_size) = match size {
        Some(size) => (size, 1),
        None => (0, 0),
    };
    let full = match full {
        Some(full) => full.0,
        None => 0,
    };
    PdbTypeSize {
        size,
        full,
        has_size,
    }
}

/// The row of the type of an index.
fn type_size_row(types: &Types<'_>, index: u32) -> PdbTypeSize
    ensures { result ≡ type_size_row types.now.items index }
{
    sized_row(small_size(types.size(index)), types.full(index))
}

/// Puts the rows of the types of these indices.
fn put_sizes(types: &Types<'_>, indices: &[u32], rows: &mut [PdbTypeSize])
    ensures { rows.new ≡ over (map (type_size_row types.now.items) indices.now) rows.old }
{
    for (place, index) in indices.iter().enumerate() {
        put_row(rows, place, type_size_row(types, *index));
    }
}

/// The same, and whether the buffer is large enough.
fn fill(types: &Types<'_>, indices: &[u32], rows: &mut [PdbTypeSize]) -> u32
    ensures { AreTypeSizes (map (type_size_row types.now.items) indices.now) result rows.old rows.new }
{
    put_sizes(types, indices, rows);
    room_code(rows.len(), indices.len())
}

/// The sizes of the types of these indices, and their full definitions, as far as the buffer reaches.
#[unsafe(no_mangle)]
pub extern "C" fn pdb_type_size(
    alloc: Global,
    types: &[u8],
    indices: &[u32],
    rows: &mut [PdbTypeSize],
) -> u32
    ensures large { 4294967295 ≤ length types.now → (result ≡ 32) × (rows.new ≡ rows.old) }
    ensures sized { length types.now < 4294967295 → TypeSizesTold indices.now result rows.old rows.new (known_items_in types.now) }
{
    if types.len() >= 4294967295 {
        return LARGE;
    }
    match Types::new(alloc, types) {
        Ok(types) => fill(&types, indices, rows),
        Err(e) => code_of(e),
    }
}

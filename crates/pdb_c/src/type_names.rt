//! The names of types, many at once.

ghost use Rattle.std.specs.Prelude.{◌≡◌, ◌≤◌, ◌<◌, ◌++◌, [], ◌∷◌, length, map, OnOk, IfOk, IfErr};
ghost use Rattle.pdb_items.specs.Items.{known_items_in};
ghost use Rattle.pdb_c.specs.Boundary.{IsUntouched};
ghost use Rattle.pdb_c.specs.TypeRows.{AreTypeNames, TypeNamesTold, joined, type_name_row, type_name_rows, type_text};

use crate::answers::{LARGE, OUT_OF_MEMORY, both_code, code_of, room_code};
use crate::rooms::{put_bytes, put_rows};
use crate::types::Types;
use std::alloc::{AllocError, Global};

/// The name of a type.
#[repr(C)]
#[derive(Clone, Copy)]
pub struct PdbTypeName {
    /// The offset of the name in the buffer of names.
    pub at: usize,
    /// How many bytes it has.
    pub size: usize,
}

/// The rows of names, and the bytes of the names.
#[derive(Drop)]
struct Listed {
    rows: Vec<PdbTypeName>,
    bytes: Vec<u8>,
}

/// Adds the row of a name, and its bytes.
fn add(
    types: &Types<'_>,
    index: u32,
    rows: &mut Vec<PdbTypeName>,
    bytes: &mut Vec<u8>,
) -> Result<(), AllocError>
    ensures rows { OnOk result (rows.new.items ≡ rows.old.items ++ type_name_row (length bytes.old.items) (type_text types.now.items index) ∷ []) }
    ensures bytes { OnOk result (bytes.new.items ≡ bytes.old.items ++ type_text types.now.items index) }
{
    let at = bytes.len();
    types.put_name(bytes, index)?;
    rows.push(PdbTypeName {
        at,
        size: bytes.len() - at,
    })?;
    Ok(())
}

/// Adds the rows and the bytes of the names of types of these indices.
fn add_all(
    types: &Types<'_>,
    indices: &[u32],
    rows: &mut Vec<PdbTypeName>,
    bytes: &mut Vec<u8>,
) -> Result<(), AllocError>
    ensures rows { OnOk result (rows.new.items ≡ rows.old.items ++ type_name_rows (length bytes.old.items) (map (type_text types.now.items) indices.now)) }
    ensures bytes { OnOk result (bytes.new.items ≡ bytes.old.items ++ joined (map (type_text types.now.items) indices.now)) }
{
    for index in indices {
        add(types, *index, rows, bytes)?;
    }
    Ok(())
}

/// The rows of the names of types of these indices, and their bytes one after the other.
fn rows_of(alloc: Global, types: &Types<'_>, indices: &[u32]) -> Result<Listed, AllocError>
    ensures rows { IfOk result (λ it. it.rows.items ≡ type_name_rows 0 (map (type_text types.now.items) indices.now)) }
    ensures bytes { IfOk result (λ it. it.bytes.items ≡ joined (map (type_text types.now.items) indices.now)) }
{
    let mut rows = Vec::new(alloc);
    let mut bytes = Vec::new(alloc);
    add_all(types, indices, &mut rows, &mut bytes)?;
    Ok(Listed { rows, bytes })
}

/// Puts the rows of names and their bytes, and counts the bytes.
fn fill(
    alloc: Global,
    types: &Types<'_>,
    indices: &[u32],
    rows: &mut [PdbTypeName],
    names: &mut [u8],
    size: &mut usize,
) -> Result<u32, AllocError>
    ensures put { IfOk result (λ code. AreTypeNames (map (type_text types.now.items) indices.now) code rows.old rows.new names.old names.new size.new) }
    ensures refused { IfErr result (λ _. (rows.new ≡ rows.old) × (names.new ≡ names.old) × (size.new ≡ size.old)) }
{
    let it = rows_of(alloc, types, indices)?;
    *size = it.bytes.len();
    put_rows(&it.rows, rows);
    put_bytes(names, 0, &it.bytes);
    Ok(both_code(
        room_code(rows.len(), it.rows.len()),
        room_code(names.len(), it.bytes.len()),
    ))
}

/// The names of the types of these indices, in C++: a row of each, and the names one after the other, each as far as
/// its buffer reaches; how many bytes the names have.
#[unsafe(no_mangle)]
pub extern "C" fn pdb_type_name(
    alloc: Global,
    types: &[u8],
    indices: &[u32],
    rows: &mut [PdbTypeName],
    names: &mut [u8],
    size: &mut usize,
) -> u32
    ensures large { 4294967295 ≤ length types.now → (result ≡ 32) × (rows.new ≡ rows.old) × IsUntouched names.old names.new size.new }
    ensures named { length types.now < 4294967295 → TypeNamesTold indices.now result rows.old rows.new names.old names.new size.new (known_items_in types.now) }
{
    *size = 0;
    if types.len() >= 4294967295 {
        return LARGE;
    }
    match Types::new(alloc, types) {
        Ok(types) => match fill(alloc, &types, indices, rows, names, size) {
            Ok(code) => code,
            Err(_) => OUT_OF_MEMORY,
        },
        Err(e) => code_of(e),
    }
}

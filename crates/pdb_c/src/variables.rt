//! The variables in scope at addresses, many at once.

ghost use Rattle.std.specs.Prelude.{◌≡◌, ◌+◌, [], ◌∷◌, ◌⊎◌, length, true, map, Ok, Err, OnOk, IfErr};
ghost use Rattle.std.specs.Option.{is_some, unwrap_or};
ghost use Rattle.pdb.specs.Error.{Error};
ghost use Rattle.pdb.specs.Source.{Continues, IsKnown};
ghost use Rattle.pdb.specs.Container.{opens};
ghost use Rattle.pdb_variables.specs.VariableViews.{shown_location, shown_variable};
ghost use Rattle.pdb_c.specs.Rooms.{put};
ghost use Rattle.pdb_c.specs.Boundary.{IsRefused};
ghost use Rattle.pdb_c.specs.FrameRows.{told_of};
ghost use Rattle.pdb_c.specs.VariableRows.{kind_number, variable_row, part_row, located_rows, variable_rows, variable_names, variables_asked, names_asked, all_variable_rows, all_variable_names, AreVariables};

use crate::answers::{OUT_OF_MEMORY, both_code, code_of, room_code};
use crate::frames::{PdbAddress, add, place_asked, told_of};
use crate::member_numbers::{high_half, low_half};
use crate::rooms::{behind, put_row};
use crate::storage_numbers::{StorageNumbers, place_numbers, storage_numbers};
use pdb::{Error, MemorySource, PDB, Result};
use pdb_resolve::{Location, Resolver, Streams, VariableAt, VariableKind, VariablePart};
use std::alloc::Global;

/// A variable, or a part of one, and where it is while the code at an address runs. Its name is in the buffer of names.
#[repr(C)]
#[derive(Clone, Copy)]
pub struct PdbVariable {
    /// Of a constant the low 64 bits of its value.
    pub value: u64,
    /// The high 64 bits.
    pub value_high: u64,
    /// Which address it is of, counted from 0.
    pub address: usize,
    /// Which inlined call it belongs to, counted from the outermost one, from 0; 0 where it belongs to none.
    pub call: usize,
    /// Where its name begins.
    pub name_at: usize,
    /// How many bytes it has.
    pub name_size: usize,
    /// How many rows it has, one for each of its parts; 0 where it isn't in parts.
    pub parts: usize,
    /// The index of its type.
    pub type_index: u32,
    /// What it is, from 1.
    pub kind: u32,
    /// Where it is; 0 where it is nowhere.
    pub location: u32,
    /// The number of a register, of a frame's register or of a program.
    pub number: u32,
    /// How many bytes behind the register's value.
    pub displacement: i32,
    /// The offset in the section.
    pub offset: u32,
    /// The section.
    pub section: u32,
    /// The offset of the part in the variable.
    pub part: u32,
    /// 1 where this is a part of the variable.
    pub is_part: u32,
    /// 1 where it belongs to an inlined call.
    pub is_inlined: u32,
}

/// What a variable is, from 1.
fn kind_number(kind: VariableKind) -> u32
    ensures { result ≡ kind_number kind }
{
    match kind {
        VariableKind::Parameter => 1,
        VariableKind::Local => 2,
        VariableKind::Static => 3,
        VariableKind::Thread => 4,
        VariableKind::Constant => 5,
    }
}

/// The row of a variable of so many parts, or of the part of it at an offset.
fn variable_row(
    variable: &VariableAt<'_>,
    parts: usize,
    part: Option<u32>,
    stored: StorageNumbers,
    address: usize,
    name_at: usize,
) -> PdbVariable
    ensures { result ≡ variable_row address name_at (shown_variable variable.now) parts part stored }
{
    PdbVariable {
        value: low_half(stored.value),
        value_high: high_half(stored.value),
        address,
        call: variable.owner.unwrap_or(0),
        name_at,
        name_size: variable.name.as_bytes().len(),
        parts,
        type_index: variable.type_index.0,
        kind: kind_number(variable.kind),
        location: stored.location,
        number: stored.number,
        displacement: stored.displacement,
        offset: stored.offset,
        section: stored.section,
        part: part.unwrap_or(0),
        is_part: told_of(part.is_some()),
        is_inlined: told_of(variable.owner.is_some()),
    }
}

/// Puts a row behind those that are there.
fn put_variable_row(rows: &mut [PdbVariable], count: &mut usize, row: PdbVariable) -> Result<()>
    ensures rows { OnOk result (rows.new ≡ put count.old (row ∷ []) rows.old) }
    ensures count { OnOk result (count.new ≡ count.old + 1) }
    ensures refused { IfErr result (λ e. e ≡ Error.OutOfMemory) }
{
    put_row(rows, *count, row);
    *count = behind(*count, 1)?;
    Ok(())
}

/// Puts a row for each part of a variable.
fn put_part_rows(
    variable: &VariableAt<'_>,
    parts: &[VariablePart],
    address: usize,
    name_at: usize,
    rows: &mut [PdbVariable],
    count: &mut usize,
) -> Result<()>
    ensures rows { OnOk result (rows.new ≡ put count.old (map (part_row address name_at (shown_variable variable.now) (length parts.now)) parts.now) rows.old) }
    ensures count { OnOk result (count.new ≡ count.old + length parts.now) }
    ensures refused { IfErr result (λ e. e ≡ Error.OutOfMemory) }
{
    for part in parts {
        let stored = storage_numbers(part.storage);
        let row = variable_row(
            variable,
            parts.len(),
            Some(part.offset),
            stored,
            address,
            name_at,
        );
        put_variable_row(rows, count, row)?;
    }
    Ok(())
}

/// Puts the rows of a variable.
fn put_located(
    variable: &VariableAt<'_>,
    address: usize,
    name_at: usize,
    rows: &mut [PdbVariable],
    count: &mut usize,
) -> Result<()>
    ensures rows { OnOk result (rows.new ≡ put count.old (located_rows address name_at (shown_variable variable.now) (shown_location variable.now.location)) rows.old) }
    ensures count { OnOk result (count.new ≡ count.old + length (located_rows address name_at (shown_variable variable.now) (shown_location variable.now.location))) }
    ensures refused { IfErr result (λ e. e ≡ Error.OutOfMemory) }
{
    match &variable.location {
        Location::Parts(parts) => {
            put_part_rows(variable, parts.as_slice(), address, name_at, rows, count)
        }
        location => {
            let stored = place_numbers(location);
            let row = variable_row(variable, 0, None, stored, address, name_at);
            put_variable_row(rows, count, row)
        }
    }
}

/// Puts the rows of variables of the address with this number, and their names.
fn put_variables(
    found: &[VariableAt<'_>],
    address: usize,
    rows: &mut [PdbVariable],
    count: &mut usize,
    names: &mut [u8],
    size: &mut usize,
) -> Result<()>
    ensures rows { OnOk result (rows.new ≡ put count.old (variable_rows address size.old (map shown_variable found.now)) rows.old) }
    ensures count { OnOk result (count.new ≡ count.old + length (variable_rows address size.old (map shown_variable found.now))) }
    ensures names { OnOk result (names.new ≡ put size.old (variable_names (map shown_variable found.now)) names.old) }
    ensures size { OnOk result (size.new ≡ size.old + length (variable_names (map shown_variable found.now))) }
    ensures refused { IfErr result (λ e. e ≡ Error.OutOfMemory) }
{
    for variable in found {
        put_located(variable, address, *size, rows, count)?;
        add(names, size, variable.name.as_bytes())?;
    }
    Ok(())
}

/// Puts the variables in scope at an address, which has this number.
fn put_asked<'s>(
    resolver: &mut Resolver<'_, 's, MemorySource<'s>>,
    asked: &PdbAddress,
    address: usize,
    rows: &mut [PdbVariable],
    count: &mut usize,
    names: &mut [u8],
    size: &mut usize,
) -> Result<()>
    requires { IsKnown resolver.old }
    ensures continues { Continues resolver.old resolver.new }
    ensures rows { OnOk result (rows.new ≡ put count.old (variable_rows address size.old (variables_asked resolver.old.file asked.now)) rows.old) }
    ensures count { OnOk result (count.new ≡ count.old + length (variable_rows address size.old (variables_asked resolver.old.file asked.now))) }
    ensures names { OnOk result (names.new ≡ put size.old (names_asked resolver.old.file asked.now) names.old) }
    ensures size { OnOk result (size.new ≡ size.old + length (names_asked resolver.old.file asked.now)) }
{
    let place = place_asked(resolver, asked);
    let found = resolver.variables(place)?;
    put_variables(found.as_slice(), address, rows, count, names, size)
}

/// Puts the variables in scope at addresses, one address after another.
fn put_all<'s>(
    resolver: &mut Resolver<'_, 's, MemorySource<'s>>,
    asked: &[PdbAddress],
    rows: &mut [PdbVariable],
    count: &mut usize,
    names: &mut [u8],
    size: &mut usize,
) -> Result<()>
    requires { IsKnown resolver.old }
    ensures rows { OnOk result (rows.new ≡ put count.old (all_variable_rows resolver.old.file 0 size.old asked.now) rows.old) }
    ensures count { OnOk result (count.new ≡ count.old + length (all_variable_rows resolver.old.file 0 size.old asked.now)) }
    ensures names { OnOk result (names.new ≡ put size.old (all_variable_names resolver.old.file asked.now) names.old) }
    ensures size { OnOk result (size.new ≡ size.old + length (all_variable_names resolver.old.file asked.now)) }
{
    for (address, it) in asked.iter().enumerate() {
        put_asked(resolver, it, address, rows, count, names, size)?;
    }
    Ok(())
}

/// Puts the variables in scope at addresses of an opened file.
fn put_opened<'s>(
    alloc: Global,
    pdb: PDB<'s, MemorySource<'s>>,
    asked: &[PdbAddress],
    rows: &mut [PdbVariable],
    count: &mut usize,
    names: &mut [u8],
    size: &mut usize,
) -> Result<()>
    requires steady { pdb.steady ≡ true }
    requires known { IsKnown pdb }
    ensures rows { OnOk result (rows.new ≡ put count.old (all_variable_rows pdb.entry.file 0 size.old asked.now) rows.old) }
    ensures count { OnOk result (count.new ≡ count.old + length (all_variable_rows pdb.entry.file 0 size.old asked.now)) }
    ensures names { OnOk result (names.new ≡ put size.old (all_variable_names pdb.entry.file asked.now) names.old) }
    ensures size { OnOk result (size.new ≡ size.old + length (all_variable_names pdb.entry.file asked.now)) }
{
    let mut streams = Streams::new(alloc);
    let mut resolver = Resolver::new(alloc, pdb, &mut streams)?;
    put_all(&mut resolver, asked, rows, count, names, size)
}

/// The variables in scope at addresses, one address after the other: of each a row, or one for each of its parts, in
/// the order of their records; and their names: each as far as its buffer reaches; how many rows there are, and how
/// many bytes of names. The file is opened once. Out of memory, both counts are 0.
#[unsafe(no_mangle)]
pub extern "C" fn pdb_variables(
    alloc: Global,
    file: &[u8],
    asked: &[PdbAddress],
    rows: &mut [PdbVariable],
    count: &mut usize,
    names: &mut [u8],
    size: &mut usize,
) -> u32
    ensures refused { (e : Error) → opens file.now ≡ Err e → IsRefused result e × (rows.new ≡ rows.old) × (names.new ≡ names.old) × (count.new ≡ 0) × (size.new ≡ 0) }
    ensures put { opens file.now ≡ Ok tt → ((result ≡ 22) × (count.new ≡ 0) × (size.new ≡ 0)) ⊎ AreVariables file.now asked.now result rows.old rows.new count.new names.old names.new size.new }
{
    *count = 0;
    *size = 0;
    let pdb = match PDB::open(alloc, MemorySource::new(file)) {
        Ok(pdb) => pdb,
        Err(e) => return code_of(e),
    };
    match put_opened(alloc, pdb, asked, rows, count, names, size) {
        Ok(()) => both_code(room_code(rows.len(), *count), room_code(names.len(), *size)),
        Err(_) => {
            *count = 0;
            *size = 0;
            OUT_OF_MEMORY
        }
    }
}

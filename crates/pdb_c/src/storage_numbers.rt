//! Where variables are, in numbers.

ghost use Rattle.std.specs.Prelude.{◌≡◌, pos};
ghost use Rattle.pdb_variables.specs.VariableViews.{shown_location};
ghost use Rattle.pdb_types.specs.TypeRows.{value_of};
ghost use Rattle.pdb_c.specs.MemberRows.{in_bits};
ghost use Rattle.pdb_c.specs.StorageNumbers.{place_numbers, storage_numbers, stored, stored_nowhere};

use crate::member_numbers::in_bits;
use pdb::{PdbInternalSectionOffset, Variant};
use pdb_resolve::{Location, Storage};

/// Where a variable or a part of it is. What isn't used is 0.
#[derive(Clone, Copy)]
pub struct StorageNumbers {
    /// What kind of storage it is.
    pub location: u32,
    /// The number of a register, of a frame's register or of a program.
    pub number: u32,
    /// How many bytes behind the register's value.
    pub displacement: i32,
    /// The offset in the section.
    pub offset: u32,
    /// The section.
    pub section: u32,
    /// The value of a constant.
    pub value: u128,
}

/// A storage of a kind, with a number and a displacement.
pub fn stored(location: u32, number: u32, displacement: i32) -> StorageNumbers
    ensures { result ≡ stored location number displacement }
{
    StorageNumbers {
        location,
        number,
        displacement,
        offset: 0,
        section: 0,
        value: 0,
    }
}

/// No storage.
pub fn stored_nowhere() -> StorageNumbers
    ensures { result ≡ stored_nowhere }
{
    stored(0, 0, 0)
}

/// Where a variable or a part of it is stored.
pub fn storage_numbers(storage: Storage) -> StorageNumbers
    ensures { result ≡ storage_numbers storage }
{
    match storage {
        Storage::Register(register) => stored(1, u32::from(register.0), 0),
        Storage::RegisterRelative(register, offset) => stored(2, u32::from(register.0), offset),
        Storage::BasePointerRelative(offset) => stored(3, 0, offset),
        Storage::FrameRelative(base, offset) => stored(4, u32::from(base), offset),
        Storage::Program(program) => stored(5, program, 0),
    }
}

/// An offset in a section.
fn in_section(place: PdbInternalSectionOffset) -> StorageNumbers
    ensures { result ≡ record { location = 6; number = 0; displacement = pos 0; offset = place.offset; section = place.section; value = 0 } }
{
    StorageNumbers {
        location: 6,
        number: 0,
        displacement: 0,
        offset: place.offset,
        section: u32::from(place.section),
        value: 0,
    }
}

/// A constant.
fn constant(value: Variant) -> StorageNumbers
    ensures { result ≡ record { location = 7; number = 0; displacement = pos 0; offset = 0; section = 0; value = in_bits (value_of value) } }
{
    StorageNumbers {
        location: 7,
        number: 0,
        displacement: 0,
        offset: 0,
        section: 0,
        value: in_bits(value),
    }
}

/// Where a variable is that isn't in parts.
pub fn place_numbers(location: &Location) -> StorageNumbers
    ensures { result ≡ place_numbers (shown_location location.now) }
{
    match location {
        Location::Nowhere => stored_nowhere(),
        Location::Whole(storage) => storage_numbers(*storage),
        Location::Parts(_) => stored_nowhere(),
        Location::At(place) => in_section(*place),
        Location::Value(value) => constant(*value),
    }
}

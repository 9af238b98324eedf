//! The relative addresses that lines give.

ghost use Rattle.std.specs.Prelude.{◌≡◌};
ghost use Rattle.tool_stacks.specs.LineAddresses.{relative_by, relative_to};

use pdb_stacks::{relative_in_image, relative_of_pdb};

/// What is known of a module that has a PDB.
#[derive(Clone, Copy, Debug, PartialEq, Eq)]
pub enum KnownModule {
    /// Its image.
    Image {
        /// The load address that it prefers.
        base: u64,
        /// Its size in bytes.
        size: u32,
    },
    /// Only its PDB.
    Pdb {
        /// Whether its machine is x86 (14c).
        is_x86: bool,
    },
}

/// An address in a module, as a line gives it.
#[derive(Clone, Copy, Debug, PartialEq, Eq)]
pub enum LineAddress {
    /// A number that is relative to the module, or to address 0 of its image.
    Relative {
        /// The number.
        number: u64,
        /// Whether a `)` follows.
        is_closed: bool,
    },
    /// An offset in the module's range.
    InRange(u64),
    /// A number that counts from the start of a symbol: it isn't answered.
    FromSymbol,
}

/// The relative address of a number of a module.
fn relative_to(known: KnownModule, number: u64, is_closed: bool) -> Option<u32>
    ensures { result ≡ relative_to known number is_closed }
{
    match known {
        KnownModule::Image { base, size } => relative_in_image(base, size, number, is_closed),
        KnownModule::Pdb { is_x86 } => relative_of_pdb(is_x86, number, is_closed),
    }
}

/// The relative address that a line gives in a module, if it gives one.
pub(crate) fn relative_by(known: KnownModule, address: LineAddress) -> Option<u32>
    ensures { result ≡ relative_by known address }
{
    match address {
        LineAddress::Relative { number, is_closed } => relative_to(known, number, is_closed),
        LineAddress::InRange(offset) => u32::try_from(offset).ok(),
        LineAddress::FromSymbol => None,
    }
}

//! Crash text with its frames: what stands behind each line, by what the program knows of modules and PDBs.
#![tactic(auto)]

mod address;
mod asking;
mod begin;
mod line;
mod missing;
mod stack;
mod symbols;

pub use address::{KnownModule, LineAddress};
pub use begin::is_utf16;
pub use missing::{MissingPdb, put_missing};
pub use stack::StackText;
pub use symbols::{FoundPdb, Symbols};

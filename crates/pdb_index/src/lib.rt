//! The reader of an index: a list of bytes, made once of a PDB file, that has the frames of every address. A profiler maps
//! it into memory and looks addresses up: `Index::open(bytes)?.frames(address)?` is an iterator of frames, the innermost
//! first. Look-ups allocate nothing and keep no state, so any number of threads can share an index, and any bytes are safe
//! to read.
#![tactic(auto)]

mod cells;
mod depths;
mod error;
mod frames;
mod header;
mod index;
pub mod laws;
mod layout;
mod named;
mod nodes;
mod rising;
mod runs;
mod search;
mod segments;
mod steps;

pub use error::{Damaged, OpenError};
pub use frames::Frames;
pub use header::{Header, Key};
pub use index::Index;
pub use nodes::Frame;
pub use pdb_base::Steps;
pub use runs::Run;
pub use segments::Place;

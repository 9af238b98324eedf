//! A small file that has all that can be listed, a file made of streams, and a source that fails, for tests.
#![tactic(auto)]

mod failing;
mod sample;
pub mod streams;

pub use failing::FailingSource;
pub use sample::{STREAMS, file, file_of};

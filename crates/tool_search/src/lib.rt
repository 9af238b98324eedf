//! `find`, `where` and `sources`.
#![tactic(auto)]

pub mod asking;
pub mod find_texts;
pub mod finder;
pub mod found_objects;
pub mod frame_objects;
mod inlined_errors;
pub mod lookups;
pub mod placed_records;
pub mod public_texts;
pub mod source_objects;
pub mod source_texts;
pub mod where_texts;

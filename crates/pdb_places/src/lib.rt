//! Places in an image: by addresses, ranges, contributions and public symbols.
#![tactic(auto)]

pub mod address_places;
pub mod as_if_empty;
mod from_second;
pub mod laws;
pub mod module_places;
mod painted;
mod pairs;
pub mod place_addresses;
pub mod place_laws;
pub mod public_names;
mod public_place;
mod public_table;
mod publics;
pub mod range;
pub mod ranges;
mod sections;
mod span;

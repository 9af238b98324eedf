//! The variables in scope at a place of a module's code, and where each is.
#![tactic(auto)]

mod frame_bases;
pub mod locations;
pub mod open_scopes;
mod told_again;
pub mod variable_laws;
pub mod variable_records;
pub mod variables;

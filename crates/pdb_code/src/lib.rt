//! What a module's records say of the code at a place: procedures, sites of inlined functions, and names.
#![tactic(auto)]

pub mod calls;
mod code_records;
pub mod function_names;
pub mod leading;
mod lines;
pub mod module_parts;
pub mod procedures;
pub mod role;
mod rows;
pub mod site;

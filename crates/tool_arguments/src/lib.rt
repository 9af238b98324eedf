//! What the arguments of `pdb_tool` ask for, and what is wrong with them.
#![tactic(auto)]

pub mod arguments;
pub mod closest;
pub mod code_address;
pub mod commands;
pub mod help;
pub mod list_help;
pub mod messages;
pub mod mistakes;
pub mod operands;
pub mod option_names;
pub mod options;
pub mod requests;
pub mod sources_asked;
pub mod streams_asked;
pub mod symbol_values;
pub mod tasks;
pub mod usage;
pub mod wildcards;

//! `check`.
#![tactic(auto)]

pub mod check_file;
pub mod check_module;
pub mod check_streams;
pub mod check_types;
pub mod checks;
pub mod file_parts;
pub mod findings;
pub mod subject;

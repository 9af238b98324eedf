//! What a command writes: texts of modules one after another, errors, JSON objects, and why a command stops.
#![tactic(auto)]

pub mod absent;
pub mod each_file;
pub mod error_line;
pub mod error_objects;
pub mod fault;
pub mod file_modules;
pub mod file_streams;
pub mod module_errors;
pub mod module_printing;
pub mod module_texts;
pub mod objects;
pub mod opening;
pub mod stop;

//! The program for people, by what it is given: its arguments, its files, standard input and where it prints.
#![tactic(auto)]

pub mod file_kind;
pub mod file_printing;
pub mod found_laws;
pub mod host;
pub mod image_pdb;
pub mod json_laws;
pub mod key_line;
pub mod key_objects;
pub mod key_paths;
pub mod list_laws;
pub mod messages;
pub mod one_pdb;
pub mod several_files;
pub mod store;
pub mod store_paths;
pub mod tasks;
pub mod wanted;

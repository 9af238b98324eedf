//! Fields and values of symbol records, as texts.
#![tactic(auto)]

pub mod fields;
pub mod fields_code;
pub mod fields_data;
pub mod fields_references;
pub mod flags;
pub mod kind_names;
pub mod module_machine;
pub mod register_names;
pub mod type_kinds;
pub mod values;
pub mod values_forms;

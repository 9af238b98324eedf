//! The further symbol records, as texts.
#![tactic(auto)]

pub mod record_code;
pub mod record_fields;
pub mod record_flags;
pub mod record_image;
pub mod record_lists;
pub mod record_managed;
pub mod record_ranges;
pub mod record_texts;
pub mod record_values;
pub mod record_variables;

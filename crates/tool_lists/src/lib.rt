//! `modules`, `sections`, `frames`, `streams` and `stream`.
#![tactic(auto)]

pub mod frame_objects;
pub mod frame_texts;
pub mod module_lists;
pub mod module_sizes;
pub mod section_texts;
pub mod stream_bytes;
pub mod stream_objects;
pub mod stream_roles;
pub mod stream_texts;

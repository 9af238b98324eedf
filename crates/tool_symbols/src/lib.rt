//! `lines`, `scopes` and `symbols`.
#![tactic(auto)]

pub mod call_lines;
pub mod commands;
pub mod depth;
pub mod line_texts;
pub mod local_lines;
pub mod register_lines;
pub mod scope_frames;
pub mod scope_texts;
pub mod symbol_texts;
pub mod variable_places;

//! `resolve` and `variables`.
#![tactic(auto)]

pub mod lines;
pub mod resolve;
pub mod variable_texts;

//! `types`, and the names of types at the ends of lines.
#![tactic(auto)]

pub mod kept_ends;
pub mod line_names;
pub mod member_texts;
pub mod qualified_texts;
pub mod type_lines;
pub mod type_names;
pub mod type_texts;

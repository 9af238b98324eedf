//! The qualified names that decorated names spell.
#![tactic(auto)]

mod c_name;
mod itanium_name;
mod microsoft_name;
mod numbers;
mod pieces;
mod reader;
mod reads;
mod rust_name;
mod special_name;
mod spelling;
mod templates;
mod type_heads;

pub use spelling::put_name;

//! What an image says of its PDB file: an executable or a DLL in the PE format, with the CodeView record that names
//! the PDB.
#![tactic(auto)]

mod debug;
mod error;
mod header;
mod image;
pub mod laws;
mod part;
mod record;

pub use error::ImageError;
pub use header::is_image;
pub use image::Image;
pub use record::PdbReference;

//! Where symbol files are: the paths at which debuggers, symbol servers and linkers put the PDB of an image.
#![tactic(auto)]

mod file_names;
mod folders;
mod image_paths;
mod symbol_paths;

pub use file_names::{file_name, is_sound, put_within};
pub use folders::symbol_folders;
pub use image_paths::{SymbolFolder, pdb_paths, put_compressed};
pub use symbol_paths::{candidates, put_filed};

//! What code stands at an address.
#![tactic(auto)]

mod across_modules;
mod crossings;
mod exported_ids;
mod exporters;
mod frames;
mod global_ids;
mod global_names;
mod kept_file;
mod module_code;
mod module_numbers;
mod modules;
mod name_tables;
mod part;
mod resolver;
mod streams;
mod tables;
mod text;

pub use frames::{Frame, FunctionNames, plain_name};
pub use global_ids::{CallNames, GlobalIds};
pub use module_code::ModuleCode;
pub use name_tables::{ids_of, types_of};
pub use pdb_code::calls::InlinedCall;
pub use pdb_code::function_names::{FunctionName, is_x86};
pub use pdb_code::module_parts::read_known;
pub use pdb_places::address_places::AddressPlaces;
pub use pdb_places::module_places::ModulePlaces;
pub use pdb_places::place_addresses::PlaceAddresses;
pub use pdb_places::public_names::{PublicName, PublicNames};
pub use pdb_places::range::CodeRange;
pub use pdb_places::ranges::Ranges;
pub use pdb_variables::locations::{Location, Storage, VariablePart};
pub use pdb_variables::variable_records::VariableKind;
pub use pdb_variables::variables::VariableAt;
pub use resolver::Resolver;
pub use streams::Streams;
pub use text::{
    put_displaced_frame, put_displaced_frames, put_file, put_frame, put_frames, put_function_name,
    put_name,
};

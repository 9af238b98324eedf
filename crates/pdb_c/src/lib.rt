//! The reader of PDB files for callers in C: `include/pdb.h` declares the exports. No call keeps anything, and what a
//! record borrows is in the bytes that the caller passed.
#![tactic(auto)]

mod answers;
mod bytes;
mod contributions;
mod exports;
mod fields;
mod files;
mod frames;
mod further_records;
mod gaps;
mod image;
mod imports;
mod information;
mod inlinees;
mod key;
pub mod laws;
mod layout;
mod lines;
mod member_numbers;
mod members;
mod message;
mod modules;
mod names;
mod opened;
mod parts;
mod record_fields;
mod registers;
mod rooms;
mod sections;
mod storage_numbers;
mod stream_names;
mod streams;
mod symbols;
mod type_names;
mod type_sizes;
mod types;
mod variables;
mod version;

pub use contributions::{PdbContribution, pdb_contributions};
pub use exports::{PdbExport, pdb_exports};
pub use files::{PdbFile, pdb_files};
pub use frames::{PdbAddress, PdbFrame, pdb_frames};
pub use further_records::{PdbRecord, pdb_record};
pub use gaps::{PdbGap, pdb_gaps};
pub use image::{PdbImage, pdb_image};
pub use imports::{PdbImport, pdb_imports};
pub use information::{
    PdbDebugInformation, PdbInformation, pdb_debug_information, pdb_information,
};
pub use inlinees::{PdbInlinee, pdb_inlined_lines, pdb_inlinees};
pub use key::pdb_key;
pub use lines::{PdbLine, pdb_lines};
pub use members::{PdbMember, pdb_members};
pub use message::pdb_message;
pub use modules::{PdbModule, pdb_modules};
pub use names::{PdbName, pdb_name};
pub use opened::pdb_opens;
pub use registers::{pdb_frame_register, pdb_register_name};
pub use sections::{PdbSection, pdb_sections};
pub use stream_names::{PdbStreamName, pdb_stream_names};
pub use streams::{PdbStream, pdb_named_stream, pdb_streams};
pub use symbols::{PdbSymbol, pdb_global_symbols, pdb_symbols};
pub use type_names::{PdbTypeName, pdb_type_name};
pub use type_sizes::{PdbTypeSize, pdb_type_size};
pub use variables::{PdbVariable, pdb_variables};
pub use version::pdb_version;

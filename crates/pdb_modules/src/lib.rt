//! The streams of modules in Microsoft's program database (PDB) files: a module's symbols, its line records, the
//! files that they name, its inlined functions, and what it imports from other modules and exports to them.
#![tactic(auto)]

mod blocks;
mod exports;
mod files;
mod imports;
mod inlined_lines;
mod inlinee_finder;
mod inlinees;
pub mod laws;
mod line;
mod line_info;
mod line_places;
mod line_program;
mod line_records;
mod line_search;
mod line_subsection;
mod lines;
mod module_info;
mod parts;
mod pending;
mod rising;
mod room;
mod rows;
mod search;
mod seen;
mod sort;
mod subsections;

pub use exports::{CrossModuleExport, CrossModuleExportIter, CrossModuleExports};
pub use files::{FileChecksum, FileInfo, FileIterator, FileRecord, read_file_record};
pub use imports::{CrossModuleImports, CrossModuleRef, Imported, ModuleRef};
pub use inlined_lines::InlineeLineIterator;
pub use inlinee_finder::InlineeFinder;
pub use inlinees::{Inlinee, InlineeIterator};
pub use line_info::{LineInfo, LineInfoKind};
pub use line_places::LinePlaces;
pub use line_program::LineProgram;
pub use line_records::LineRecords;
pub use lines::LineIterator;
pub use module_info::ModuleInfo;
pub use subsections::{IMPORTS, first_of_kind};

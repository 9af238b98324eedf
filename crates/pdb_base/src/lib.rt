//! The base of a reader of Microsoft's program database (PDB) files: errors, bytes and offsets, names, numbers,
//! iterators that may fail, and the container MSF 7.00, in which a file is a set of numbered streams.
#![tactic(auto)]

mod buffer;
mod directory;
mod error;
mod index;
mod iterator;
pub mod laws;
pub mod little_endian;
mod msf;
mod pages;
pub mod part;
mod section_header;
mod source;
mod steps;
mod stream;
mod string_table;
mod text;
mod variant;
mod zeros;

pub use buffer::ParseBuffer;
pub use error::{Error, Feature, Part, Result};
pub use index::{
    FileIndex, IdIndex, ItemIndex, Local, PdbInternalSectionOffset, Register,
    SectionCharacteristics, StreamIndex, StringRef, SymbolIndex, TypeIndex,
};
pub use iterator::FallibleIterator;
pub use msf::Msf;
pub use section_header::ImageSectionHeader;
pub use source::{Meaning, MemorySource, Source, SourceSlice, View, bytes_in};
pub use steps::Steps;
pub use stream::Stream;
pub use string_table::StringTable;
pub use text::RawString;
pub use variant::Variant;

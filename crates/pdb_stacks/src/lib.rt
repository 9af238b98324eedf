//! How the text of a crash is read: the references of a line to code, the modules that it lists, and what one line says of
//! the next. It is over bytes alone: no file is read here.
#![tactic(auto)]

mod addresses;
mod bytes;
mod course;
mod decimals;
mod faults;
mod forms;
mod frame_numbers;
mod headings;
mod hex_numbers;
mod line_code;
mod marks;
mod module_lists;
mod module_names;
mod ranges;
mod references;
mod relative;
mod texts;

pub use addresses::process_address;
pub use bytes::Span;
pub use course::{Course, ReturnAddresses};
pub use faults::{fault_offset, faulting_module};
pub use frame_numbers::frame_number;
pub use headings::{Heading, heading_of};
pub use hex_numbers::SpelledNumber;
pub use line_code::{LineCode, put_line_code};
pub use module_lists::ListedModule;
pub use module_names::same_module;
pub use ranges::{ModuleRange, add_range, range_of};
pub use references::{Reference, put_references};
pub use relative::{relative_in_image, relative_of_pdb};

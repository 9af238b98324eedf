//! The information stream and the DBI stream of a PDB file: which file it is, and what it has on the image and its
//! modules.
#![tactic(auto)]

mod contributions;
mod debug_information;
mod extra_streams;
mod features;
mod header;
mod information;
pub mod laws;
mod machine;
mod module_list;
mod modules;
mod names;

pub use contributions::{DBISectionContribution, DBISectionContributionIter};
pub use debug_information::DebugInformation;
pub use extra_streams::DBIExtraStreams;
pub use header::{DBIHeader, HeaderVersion};
pub use information::PDBInformation;
pub use machine::MachineType;
pub use module_list::modules_of_bytes;
pub use modules::{Module, ModuleIter};
pub use names::{NameIter, StreamName, StreamNames};

//! A file that is read where it is needed: `ReadingSource` keeps what it read, and views borrow from it.
#![tactic(auto)]

mod bytes;
mod counted;
mod held;
mod reading;
mod run;
mod source;
mod whole;

pub use bytes::{FileBytes, bytes_of};
pub use counted::{CountedRead, CountedReader, ReadFailed};
pub use held::Held;
pub use reading::{FetchError, ReadAt};
pub use run::Run;
pub use source::{AnyFile, KnownFile, Meant, ReadingSource};
pub use whole::{MOST_BYTES, read_all, size_of};

//! Why an index could not be opened, or an address not looked up.

use thiserror::Error;

/// Why bytes do not open as an index.
#[derive(Clone, Copy, Debug, PartialEq, Eq, Error)]
pub enum OpenError {
    /// There are fewer than 96 bytes, or they do not begin with `pdbindex`.
    #[error("is no index of version 1")]
    NotAnIndex,
    /// The index has another version than 1.
    #[error("is no index of version 1")]
    Version,
    /// A field is wider than four bytes, or the tables do not end where the bytes end.
    #[error("the index is cut or has bytes behind it")]
    Length,
}

/// The tables of an index contradict each other: it was damaged after it was written.
#[derive(Clone, Copy, Debug, PartialEq, Eq, Error)]
#[error("the index is damaged")]
pub struct Damaged;

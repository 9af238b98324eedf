//! Why an image could not be read.

use thiserror::Error;

/// Why an image could not be read.
#[derive(Clone, Copy, Debug, PartialEq, Eq, Error)]
pub enum ImageError {
    /// The file doesn't begin with `MZ`.
    #[error("no image")]
    NotAnImage,
    /// Bytes that the format needs are not there.
    #[error("the data ends before a record does")]
    UnexpectedEof,
    /// The number at offset 60 doesn't lead to the bytes `PE\0\0`.
    #[error("no PE signature")]
    NoSignature,
    /// The optional header is neither that of PE32 nor that of PE32+.
    #[error("unknown optional header")]
    UnknownOptionalHeader,
    /// The image names a PDB file of the older version 2.00.
    #[error("an NB10 record, which names a PDB of version 2.00")]
    Nb10,
    /// The debug record has neither the signature `RSDS` nor `NB10`.
    #[error("unknown CodeView record")]
    UnknownCodeView,
}

/// The result of a call that reads an image.
pub type Result<T> = std::result::Result<T, ImageError>;

//! Why something could not be read.

ghost use Rattle.std.specs.Prelude.{◌≡◌, Some};
ghost use Rattle.pdb_base.specs.declared.error.Error.TheVariants.{OutOfMemory};
ghost use Rattle.pdb_base.specs.Refusal.{number_of, feature_text, part_text};

use std::alloc::{AllocError, AllocFailed};
use std::fmt;
use thiserror::Error;

/// A format, or a part of one, that this reader knows by name and doesn't read.
#[derive(Clone, Copy, Debug, PartialEq, Eq)]
pub enum Feature {
    /// A file of the container's version 2.00.
    SmallMsf,
    /// A string table that doesn't begin with `0xeffeeffe`.
    StringTable,
    /// A DBI header of before version 7.0, which has no signature.
    AncientDbiHeader,
    /// Symbols of a module that don't begin with the number 4.
    SymbolDataFormat,
    /// Line records of the C11 form.
    C11LinePrograms,
}

impl Feature {
    /// The feature's name.
    pub fn as_str(self) -> &'static str
        ensures { result.now ≡ feature_text self }
    {
        match self {
            Feature::SmallMsf => "small MSF file format",
            Feature::StringTable => "string table",
            Feature::AncientDbiHeader => "ancient DBI header",
            Feature::SymbolDataFormat => "Unsupported symbol data format",
            Feature::C11LinePrograms => "C11 line programs",
        }
    }
}

impl fmt::Display for Feature {
    ghost output = { λ feature. Some (feature_text feature) };

    fn fmt<W: fmt::Write>(&self, f: &mut fmt::Formatter<W>) -> fmt::Result {
        f.write_str(self.as_str())
    }
}

/// A part of a file whose length contradicts its format.
#[derive(Clone, Copy, Debug, PartialEq, Eq)]
pub enum Part {
    /// The numbers of further streams behind the DBI stream's parts.
    DebugHeader,
    /// A block of line records.
    LinesBlock,
    /// A module's exports to other modules.
    CrossScopeExports,
    /// What a file of streams is made of.
    Sample,
}

impl Part {
    /// The part's name.
    pub fn as_str(self) -> &'static str
        ensures { result.now ≡ part_text self }
    {
        match self {
            Part::DebugHeader => "DbgDataHdr",
            Part::LinesBlock => "DebugLinesBlock",
            Part::CrossScopeExports => "DebugCrossScopeExportsSubsection",
            Part::Sample => "sample",
        }
    }
}

impl fmt::Display for Part {
    ghost output = { λ part. Some (part_text part) };

    fn fmt<W: fmt::Write>(&self, f: &mut fmt::Formatter<W>) -> fmt::Result {
        f.write_str(self.as_str())
    }
}

/// Why a call failed. `number` distinguishes the errors by a number from 1 to 22.
#[derive(Clone, Copy, Debug, PartialEq, Eq, Error)]
pub enum Error {
    /// Bytes that a format needs are not there.
    #[error("the data ends before a record does")]
    UnexpectedEof,
    /// The file uses something that this reader doesn't read.
    #[error("not supported: {0}")]
    UnimplementedFeature(Feature),
    /// The bytes are no file of the container MSF 7.00.
    #[error("this is no PDB file of the format MSF 7.00")]
    UnrecognizedFileFormat,
    /// The container's page size is no power of two from 256 to 8388608.
    #[error("the container has an invalid page size: {0}")]
    InvalidPageSize(u32),
    /// A page number is 0 or not below the number of pages used.
    #[error("page {0} is not among the pages of the file")]
    PageReferenceOutOfRange(u32),
    /// There is no stream of this number.
    #[error("there is no stream {0}")]
    StreamNotFound(u32),
    /// No named stream has this name.
    #[error("there is no stream of this name")]
    StreamNameNotFound,
    /// The file has no stream of global symbols.
    #[error("the file has no global symbols")]
    GlobalSymbolsNotFound,
    /// The file's address map lacks a table.
    #[error("the file has no complete address map")]
    AddressMapNotFound,
    /// The length of a part contradicts its format.
    #[error("invalid length: {0}")]
    InvalidStreamLength(Part),
    /// A symbol record is too short for its kind.
    #[error("a symbol record is shorter than two bytes")]
    SymbolTooShort,
    /// Symbol records of this kind are not read.
    #[error("symbols of kind {0:#06x} are not supported")]
    UnimplementedSymbolKind(u16),
    /// Debug subsections of this kind are not read.
    #[error("debug subsections of kind {0:#x} are not supported")]
    UnimplementedDebugSubsection(u32),
    /// File checksums of this kind are not read.
    #[error("file checksums of kind {0} are not supported")]
    UnimplementedFileChecksumKind(u8),
    /// No file checksum begins at this offset.
    #[error("there is no file checksum at {0:#x}")]
    InvalidFileChecksumOffset(u32),
    /// A binary annotation has this unknown opcode.
    #[error("binary annotation {0} is unknown")]
    UnknownBinaryAnnotation(u32),
    /// A number of a binary annotation is spelled in no known way.
    #[error("a number in a binary annotation is not spelled as it must be")]
    InvalidCompressedAnnotation,
    /// This index refers to no other module.
    #[error("index {0:#x} refers to no other module")]
    NotACrossModuleRef(u32),
    /// What this index refers to is not among the imports.
    #[error("index {0:#x} is not among the imports of the module")]
    CrossModuleRefNotFound(u32),
    /// A number has a prefix that says no known kind of number.
    #[error("the prefix {0:#06x} says no known kind of number")]
    UnexpectedNumericPrefix(u16),
    /// The source of the file's bytes failed.
    #[error("the file could not be read")]
    IoError,
    /// Out of memory.
    #[error("out of memory")]
    OutOfMemory,
}

/// The result of a call that may fail.
pub type Result<T> = std::result::Result<T, Error>;

impl Error {
    /// The number of the error, from 1 to 22, in the order of the variants.
    pub fn number(&self) -> u8
        ensures { result ≡ number_of self.now }
    {
        match self {
            Error::UnexpectedEof => 1,
            Error::UnimplementedFeature(_) => 2,
            Error::UnrecognizedFileFormat => 3,
            Error::InvalidPageSize(_) => 4,
            Error::PageReferenceOutOfRange(_) => 5,
            Error::StreamNotFound(_) => 6,
            Error::StreamNameNotFound => 7,
            Error::GlobalSymbolsNotFound => 8,
            Error::AddressMapNotFound => 9,
            Error::InvalidStreamLength(_) => 10,
            Error::SymbolTooShort => 11,
            Error::UnimplementedSymbolKind(_) => 12,
            Error::UnimplementedDebugSubsection(_) => 13,
            Error::UnimplementedFileChecksumKind(_) => 14,
            Error::InvalidFileChecksumOffset(_) => 15,
            Error::UnknownBinaryAnnotation(_) => 16,
            Error::InvalidCompressedAnnotation => 17,
            Error::NotACrossModuleRef(_) => 18,
            Error::CrossModuleRefNotFound(_) => 19,
            Error::UnexpectedNumericPrefix(_) => 20,
            Error::IoError => 21,
            Error::OutOfMemory => 22,
        }
    }
}

impl From<AllocError> for Error {
    ghost from_gives = { λ _ e. e ≡ OutOfMemory };

    fn from(_e: AllocError) -> Error {
        Error::OutOfMemory
    }
}

impl<T: Drop> From<AllocFailed<T>> for Error {
    ghost from_gives = { λ _ e. e ≡ OutOfMemory };

    fn from(_e: AllocFailed<T>) -> Error {
        Error::OutOfMemory
    }
}

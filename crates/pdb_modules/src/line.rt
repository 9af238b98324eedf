//! What a line entry says.

use pdb_base::FileIndex;

/// The columns of a line entry.
#[derive(Clone, Copy)]
pub struct Columns {
    /// Where it starts.
    pub start: u16,
    /// Where it ends.
    pub end: u16,
}

/// What a line entry says of the source.
#[derive(Clone, Copy)]
pub struct Line {
    /// The file.
    pub file: FileIndex,
    /// The start line, the lines up to the end line, and the kind.
    pub flags: u32,
    /// The columns, where there are any.
    pub columns: Option<Columns>,
}

/// An entry of a block of a line subsection.
#[derive(Clone, Copy)]
pub struct Entry {
    /// The offset from the subsection's.
    pub offset: u32,
    /// What stands there.
    pub line: Line,
}

//! A line subsection as it is read.

ghost use Rattle.pdb_modules.specs.Rising.{RiseAt};

use pdb_base::PdbInternalSectionOffset;

/// A line subsection: where its code begins, and its blocks.
#[derive(Clone, Copy)]
pub struct LineSubsection<'a> {
    /// Where its code begins.
    pub place: PdbInternalSectionOffset,
    /// How many bytes of code it has.
    pub code_size: u32,
    /// Whether its entries have columns.
    pub has_columns: bool,
    /// Its blocks.
    pub bytes: &'a [u8],
    /// Of how many entries of its first block it was seen that they are no markers and that their offsets never fall.
    pub rising: usize,
    ghost rise: { RiseAt place has_columns bytes.now 0 rising },
}

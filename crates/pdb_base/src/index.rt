//! Numbers that name things, each with a type of its own.

ghost use Rattle.std.specs.Prelude.{◌≡◌, ◌+◌, ◌%◌, ◌^◌, ◌≤◌, ◌<◌, ◌↔◌, ℕ, IsTrue, Some, None};
ghost use Rattle.std.specs.Option.{SomeIff};
ghost use Rattle.pdb_base.specs.SectionOrder.{section_laws};
ghost use Rattle.pdb_base.specs.Index.{hex_of, by_section};

use std::cmp::Ordering;
use std::fmt;

/// An index by which a record names another one of its stream, or of another module's: `TypeIndex` and `IdIndex`.
pub trait ItemIndex: Copy + From<u32> {
    // The number of an index.
    ghost index_number: { Self → ℕ };

    /// The index of this number.
    fn from_number(n: u32) -> Self
        ensures { index_number result ≡ n };

    /// The index's number.
    fn number(self) -> u32
        ensures { result ≡ index_number self };

    /// Whether the index refers to another module: whether its top bit is set.
    fn is_cross_module(self) -> bool
        ensures { IsTrue result ↔ (2 ^ 31 ≤ index_number self) }
    {
        self.number() >= 0x8000_0000
    }
}

/// The index of a type record.
#[derive(Clone, Copy, Debug, Default, Eq, PartialEq, Ord, PartialOrd, Hash)]
pub struct TypeIndex(pub u32);

impl From<u32> for TypeIndex {
    ghost from_gives = { λ n i. i.0 ≡ n };

    fn from(n: u32) -> Self {
        TypeIndex::from_number(n)
    }
}

impl ItemIndex for TypeIndex {
    ghost index_number = { λ i. i.0 };

    fn from_number(n: u32) -> Self {
        TypeIndex(n)
    }

    fn number(self) -> u32 {
        self.0
    }
}

/// The index of an id record.
#[derive(Clone, Copy, Debug, Default, Eq, PartialEq, Ord, PartialOrd, Hash)]
pub struct IdIndex(pub u32);

impl From<u32> for IdIndex {
    ghost from_gives = { λ n i. i.0 ≡ n };

    fn from(n: u32) -> Self {
        IdIndex::from_number(n)
    }
}

impl ItemIndex for IdIndex {
    ghost index_number = { λ i. i.0 };

    fn from_number(n: u32) -> Self {
        IdIndex(n)
    }

    fn number(self) -> u32 {
        self.0
    }
}

/// An index that is local to one module, which another module refers to.
#[derive(Clone, Copy, Debug, Eq, PartialEq, Hash)]
pub struct Local<I: ItemIndex>(pub I);

/// The offset of a symbol record in its stream, in bytes.
#[derive(Clone, Copy, Debug, Default, Eq, PartialEq, Ord, PartialOrd, Hash)]
pub struct SymbolIndex(pub u32);

/// The offset of a file's checksum record in a module's checksums, in bytes.
#[derive(Clone, Copy, Debug, Default, Eq, PartialEq, Ord, PartialOrd, Hash)]
pub struct FileIndex(pub u32);

/// The offset of a name in the string table, in bytes.
#[derive(Clone, Copy, Debug, Default, Eq, PartialEq, Ord, PartialOrd, Hash)]
pub struct StringRef(pub u32);

/// Shows the offset as `0x` and lower hexadecimal digits.
impl fmt::Display for StringRef {
    ghost output = { λ r. Some (hex_of r.0) };

    fn fmt<W: fmt::Write>(&self, f: &mut fmt::Formatter<W>) -> fmt::Result {
        let place = self.0;
        write!(f, "0x{place:x}")
    }
}

/// The number of a stream; `0xffff` is none.
#[derive(Clone, Copy, Debug, Eq, PartialEq, Ord, PartialOrd, Hash)]
pub struct StreamIndex(pub u16);

impl StreamIndex {
    /// The index of no stream.
    pub fn none() -> Self
        ensures { result.0 ≡ 0xffff }
    {
        StreamIndex(0xffff)
    }

    /// The number by which the container knows the stream; none for `0xffff`.
    pub fn msf_number(self) -> Option<u32>
        ensures { SomeIff result (self.0 < 0xffff) self.0 }
    {
        if self.0 == 0xffff {
            None
        } else {
            Some(u32::from(self.0))
        }
    }
}

/// The number of a processor's register.
#[derive(Clone, Copy, Debug, Eq, PartialEq, Ord, PartialOrd, Hash)]
pub struct Register(pub u16);

/// The characteristics of an image's section, as in the section headers of the PE format.
#[derive(Clone, Copy, Debug, Eq, PartialEq)]
pub struct SectionCharacteristics(pub u32);

/// An offset in a section of the image, as the PDB file's own tables have it. Sections count from 1.
#[derive(Clone, Copy, Debug, Eq, PartialEq, Hash)]
pub struct PdbInternalSectionOffset {
    /// The offset from the section's start, in bytes.
    pub offset: u32,
    /// The section's number.
    pub section: u16,
}

impl PdbInternalSectionOffset {
    /// This offset in this section.
    pub fn new(section: u16, offset: u32) -> Self
        ensures section { result.section ≡ section }
        ensures offset { result.offset ≡ offset }
    {
        PdbInternalSectionOffset { offset, section }
    }

    /// The offset that lies `offset` bytes behind, modulo 2^32, in the same section.
    pub fn wrapping_add(self, offset: u32) -> Self
        ensures section { result.section ≡ self.section }
        ensures offset { result.offset ≡ (self.offset + offset) % 2 ^ 32 }
    {
        PdbInternalSectionOffset {
            offset: self.offset.wrapping_add(offset),
            section: self.section,
        }
    }
}

/// Offset 0 in section 0, which is no section of an image.
impl Default for PdbInternalSectionOffset {
    ghost is_default = { λ o. (o.offset ≡ 0) × (o.section ≡ 0) };

    fn default() -> Self {
        PdbInternalSectionOffset::new(0, 0)
    }
}

/// Offsets compare only within one section.
impl PartialOrd for PdbInternalSectionOffset {
    ghost partial_cmp = { by_section };

    ghost laws = { section_laws };

    fn partial_cmp(&self, other: &PdbInternalSectionOffset) -> Option<Ordering> {
        if self.section == other.section {
            Some(self.offset.cmp(&other.offset))
        } else {
            None
        }
    }
}

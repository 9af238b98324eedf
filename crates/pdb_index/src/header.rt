//! The header of an index.

ghost use Rattle.std.specs.Prelude.{◌≡◌, ◌+◌, ◌*◌, ◌≤◌, drop, length, take};
ghost use Rattle.pdb_base.specs.Fields.{number};
ghost use Rattle.pdb_index.specs.IndexHeader.{header_of, key_of};

use pdb_base::little_endian::{u16_at, u32_at};

/// The key by which a symbol server files the PDB file that the index was made of.
#[derive(Clone, Copy, Debug, PartialEq, Eq)]
pub struct Key {
    /// The file's GUID, in the order in which symbol servers print it.
    pub guid: [u8; 16],
    /// The file's age.
    pub age: u32,
}

/// What the header of an index says of the index and of its PDB file.
#[derive(Clone, Copy, Debug, PartialEq, Eq)]
pub struct Header {
    /// The key, unless the PDB file has none.
    pub key: Option<Key>,
    /// Whether the PDB file has an address map.
    pub has_address_map: bool,
    /// The number of the machine, as 0x8664 for x64; 0 if the PDB file does not say it.
    pub machine: u16,
    /// How many ranges of addresses the index has.
    pub segments: u32,
    /// How many sections of the image have runs.
    pub sections: u32,
    /// How many runs there are: ranges of code with the same frames.
    pub runs: u32,
    /// How many nodes the tree of frames has.
    pub nodes: u32,
    /// How many functions the nodes name, with the one that is none.
    pub functions: u32,
    /// How many files the nodes name, with the one that is none.
    pub files: u32,
    /// How many bytes all names have.
    pub name_bytes: u32,
    /// How many frames the deepest stack has: at most so many frames come for an address.
    pub deepest: u32,
    /// The size of the PDB file in bytes.
    pub pdb_size: u64,
}

/// The first 16 bytes.
fn first_16(bytes: &[u8]) -> [u8; 16]
    requires { 16 ≤ length bytes.now }
    ensures { result ≡ take 16 bytes.now }
{
    [
        bytes[0], bytes[1], bytes[2], bytes[3], bytes[4], bytes[5], bytes[6], bytes[7], bytes[8],
        bytes[9], bytes[10], bytes[11], bytes[12], bytes[13], bytes[14], bytes[15],
    ]
}

/// The key, where bit 0 of the flags is set.
fn read_key(bytes: &[u8]) -> Option<Key>
    requires { 96 ≤ length bytes.now }
    ensures { result ≡ key_of bytes.now }
{
    if u32_at(bytes, 12) % 2 == 0 {
        return None;
    }
    Some(Key {
        guid: first_16(&bytes[16..]),
        age: u32_at(bytes, 32),
    })
}

/// The number of eight bytes at an offset.
#[tactic(auto, using(crate::proofs::Numbers64::number_8_of_4))]
fn u64_at(bytes: &[u8], at: usize) -> u64
    requires { at + 8 ≤ length bytes.now }
    ensures { result ≡ number bytes.now at 8 }
{
    u64::from(u32_at(bytes, at)) + u64::from(u32_at(bytes, at + 4)) * 0x1_0000_0000
}

/// The header of an index of at least 96 bytes.
pub(crate) fn read_header(bytes: &[u8]) -> Header
    requires { 96 ≤ length bytes.now }
    ensures { result ≡ header_of bytes.now }
{
    Header {
        key: read_key(bytes),
        has_address_map: u32_at(bytes, 12) / 2 % 2 == 1,
        machine: u16_at(bytes, 36),
        segments: u32_at(bytes, 40),
        sections: u32_at(bytes, 44),
        runs: u32_at(bytes, 48),
        nodes: u32_at(bytes, 52),
        functions: u32_at(bytes, 56),
        files: u32_at(bytes, 60),
        name_bytes: u32_at(bytes, 64),
        deepest: u32_at(bytes, 68),
        pdb_size: u64_at(bytes, 72),
    }
}

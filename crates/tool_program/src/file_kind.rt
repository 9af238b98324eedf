//! What a file is that is no PDB of the supported format.

ghost use Rattle.std.specs.Prelude.{◌≡◌, ◌≤◌, length};
ghost use Rattle.tool_program.specs.FileKinds.{file_kind, front_kind, has_header, header_size};

use pdb_base::little_endian::u32_at;
use pdb_text::put_decimal;
use std::alloc::AllocError;

/// What a file is, by its first bytes and its size.
#[derive(Clone, Copy, Debug, PartialEq, Eq)]
pub enum FileKind {
    /// A file without bytes.
    Empty,
    /// An image, EXE or DLL: it begins with `MZ`.
    Image,
    /// A portable PDB of .NET: it begins with `BSJB`.
    PortablePdb,
    /// A PDB of version 2.00.
    OldPdb,
    /// A file that gzip compressed: it begins with 1f and 8b.
    Gzip,
    /// A PDB that should have as many bytes by its header, which is more than it has.
    Short(u64),
}

/// How many first bytes of a file show what kind of file it is.
pub const FRONT_SIZE: usize = 52;

const OLD_MAGIC: &[u8; 37] = b"Microsoft C/C++ program database 2.00";

const MAGIC: &[u8; 32] = b"Microsoft C/C++ MSF 7.00\r\n\x1aDS\0\0\0";

/// How many bytes a PDB has by its header: the size of a page times the number of pages.
fn header_size(front: &[u8]) -> u64
    requires { 52 ≤ length front.now }
    ensures { result ≡ header_size front.now }
{
    u64::from(u32_at(front, 32)) * u64::from(u32_at(front, 40))
}

/// Whether the bytes begin with the header of a PDB.
fn has_header(front: &[u8]) -> bool
    ensures { result ≡ has_header front.now }
{
    front.starts_with(MAGIC) && FRONT_SIZE <= front.len()
}

/// What the first bytes say.
fn front_kind(front: &[u8]) -> Option<FileKind>
    ensures { result ≡ front_kind front.now }
{
    if front.starts_with(b"MZ") {
        Some(FileKind::Image)
    } else if front.starts_with(b"BSJB") {
        Some(FileKind::PortablePdb)
    } else if front.starts_with(OLD_MAGIC) {
        Some(FileKind::OldPdb)
    } else if front.starts_with(b"\x1f\x8b") {
        Some(FileKind::Gzip)
    } else {
        None
    }
}

/// What a file is, by its first 52 bytes (all if it has fewer) and its size; none if nothing is known.
#[tactic(auto, unfolding(crate::specs::FileKinds::file_kind))]
pub fn file_kind(front: &[u8], size: u64) -> Option<FileKind>
    ensures { result ≡ file_kind front.now size }
{
    if size == 0 {
        return Some(FileKind::Empty);
    }
    if has_header(front) && size < header_size(front) {
        return Some(FileKind::Short(header_size(front)));
    }
    front_kind(front)
}

/// Puts what a file of this size is.
pub fn put_kind(out: &mut Vec<u8>, kind: FileKind, size: u64) -> Result<(), AllocError> {
    match kind {
        FileKind::Empty => out.extend_from_slice(b"it is empty"),
        FileKind::Image => out.extend_from_slice(b"it is an image (EXE or DLL)"),
        FileKind::PortablePdb => out.extend_from_slice(b"it is a portable PDB of .NET"),
        FileKind::OldPdb => out.extend_from_slice(b"it is a PDB of version 2.00"),
        FileKind::Gzip => out.extend_from_slice(b"it is compressed by gzip"),
        FileKind::Short(wanted) => {
            out.extend_from_slice(b"it is cut short, and has ")?;
            put_decimal(out, size)?;
            out.extend_from_slice(b" of ")?;
            put_decimal(out, wanted)?;
            out.extend_from_slice(b" bytes")
        }
    }
}

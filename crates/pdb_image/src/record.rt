//! The CodeView record `RSDS`, by which an image names its PDB.

ghost use Rattle.std.specs.Prelude.{◌≡◌, ◌==◌, ◌<◌, ◌≤◌, length, IfSome, position};
ghost use Rattle.pdb_image.specs.Parts.{Answers};
ghost use Rattle.pdb_image.specs.Debug.{before_zero as before_zero_in, guid_of as guid_there, reference_fields, reference_of};
ghost use Rattle.pdb_image.specs.Images.{reference};

use crate::error::{ImageError, Result};
use pdb_base::little_endian::u32_at;

/// The PDB file that an image names.
#[derive(Clone, Copy, Debug, PartialEq, Eq)]
pub struct PdbReference<'a> {
    /// The file's GUID: the first three fields greatest byte first, and then its last eight bytes. In this order the
    /// PDB file's own reader returns it, and symbol servers print it.
    pub guid: [u8; 16],
    /// How often the PDB file had been written.
    pub age: u32,
    /// The path of the PDB file, as the linker was given it: bytes in an encoding that the image doesn't name.
    pub path: &'a [u8],
}

/// Where the first zero byte is.
fn first_zero(bytes: &[u8]) -> Option<usize>
    ensures at { result ≡ position (λ x. x == 0) bytes.now }
    ensures bound { IfSome result (λ n. n < length bytes.now) }
{
    bytes.iter().position(|byte| *byte == 0)
}

/// The bytes before the first zero byte, or all.
fn before_zero(bytes: &[u8]) -> &[u8]
    ensures { result.now ≡ before_zero_in (position (λ x. x == 0) bytes.now) bytes.now }
{
    match first_zero(bytes) {
        Some(end) => &bytes[..end],
        None => bytes,
    }
}

/// The GUID of a record: the field of four bytes at 4 and the two of two bytes behind it, each its greatest byte first,
/// and then eight bytes.
#[tactic(auto, unfolding(crate::specs::Debug::guid_of))]
fn guid_of(bytes: &[u8]) -> [u8; 16]
    requires { 20 ≤ length bytes.now }
    ensures { result ≡ guid_there bytes.now }
{
    [
        bytes[7], bytes[6], bytes[5], bytes[4], bytes[9], bytes[8], bytes[11], bytes[10],
        bytes[12], bytes[13], bytes[14], bytes[15], bytes[16], bytes[17], bytes[18], bytes[19],
    ]
}

/// The fields of a record `RSDS`.
fn fields(bytes: &[u8]) -> PdbReference<'_>
    requires { 24 ≤ length bytes.now }
    ensures { reference result ≡ reference_fields bytes.now }
{
    PdbReference {
        guid: guid_of(bytes),
        age: u32_at(bytes, 20),
        path: before_zero(&bytes[24..]),
    }
}

/// What a CodeView record names.
#[tactic(auto, unfolding(crate::specs::Debug::reference_of))]
pub(crate) fn parse_record(bytes: &[u8]) -> Result<PdbReference<'_>>
    ensures { Answers reference result (reference_of bytes.now) }
{
    if bytes.len() < 4 {
        return Err(ImageError::UnexpectedEof);
    }
    if bytes.starts_with(b"NB10") {
        return Err(ImageError::Nb10);
    }
    if !bytes.starts_with(b"RSDS") {
        return Err(ImageError::UnknownCodeView);
    }
    if bytes.len() < 24 {
        return Err(ImageError::UnexpectedEof);
    }
    Ok(fields(bytes))
}

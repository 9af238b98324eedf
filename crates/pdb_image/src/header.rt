//! The headers of an image: the PE format's `IMAGE_FILE_HEADER` and `IMAGE_OPTIONAL_HEADER`.

ghost use Rattle.std.specs.Prelude.{◌≡◌, ◌+◌, ◌^◌, ◌≤◌, ◌<◌, length, IfOk};
ghost use Rattle.pdb_base.specs.Fields.{number};
ghost use Rattle.pdb_image.specs.Parts.{Answers};
ghost use Rattle.pdb_image.specs.Headers.{base_at as base_number, file_header_at as file_header_there, file_header_of, fixed_size as fixed_bytes, format_at as format_there, is_image as is_image_test, optional_fields as fields_there, optional_header_at as optional_header_there, signature_in};

use crate::error::{ImageError, Result};
use crate::part::u64_at;
use pdb_base::little_endian::{u16_at, u32_at};

/// The fields of the file header that this reader uses.
#[derive(Clone, Copy, Debug)]
pub struct FileHeader {
    /// The offset of the signature `PE\0\0` before the header.
    pub at: usize,
    /// The number of the machine.
    pub machine: u16,
    /// How many sections the image has.
    pub sections: u16,
    /// The time stamp.
    pub time_stamp: u32,
    /// The size of the optional header in bytes.
    pub optional_size: u16,
}

/// The format of an optional header.
#[derive(Clone, Copy, Debug)]
pub enum Format {
    /// With addresses of 32 bits.
    Pe32,
    /// With addresses of 64 bits.
    Pe32Plus,
}

/// The fields of the optional header that this reader uses.
#[derive(Clone, Copy, Debug)]
pub struct OptionalHeader {
    /// The offset of the header.
    pub at: usize,
    /// The size of the header in bytes.
    pub size: usize,
    /// How many of its bytes stand before the directories.
    pub fixed: usize,
    /// The address at which the image wants to be loaded.
    pub base: u64,
    /// The size of the image in memory, in bytes.
    pub size_of_image: u32,
    /// How many directories the header says that it has.
    pub directories: u32,
}

const SIGNATURE: u32 = 0x4550;

/// Whether the file is an image: it begins with `MZ`.
pub fn is_image(bytes: &[u8]) -> bool
    ensures { result ≡ is_image_test bytes.now }
{
    bytes.starts_with(b"MZ")
}

/// The offset of the signature `PE\0\0`.
#[tactic(auto, unfolding(crate::specs::Headers::signature_in))]
fn find_signature(bytes: &[u8]) -> Result<usize>
    ensures at { Answers (λ e. e) result (signature_in bytes.now) }
    ensures there { IfOk result (λ e. (e + 4 ≤ length bytes.now) × (e < 2 ^ 32)) }
{
    if !is_image(bytes) {
        return Err(ImageError::NotAnImage);
    }
    if bytes.len() < 64 {
        return Err(ImageError::UnexpectedEof);
    }
    let at = u32_at(bytes, 60) as usize;
    if bytes.len() < at + 4 {
        return Err(ImageError::UnexpectedEof);
    }
    if u32_at(bytes, at) != SIGNATURE {
        return Err(ImageError::NoSignature);
    }
    Ok(at)
}

/// The file header behind the signature at this offset.
#[tactic(auto, unfolding(crate::specs::Headers::file_header_at))]
fn file_header_at(bytes: &[u8], at: usize) -> Result<FileHeader>
    requires { at < 2 ^ 32 }
    ensures header { Answers (λ h. h) result (file_header_there bytes.now at) }
    ensures small { IfOk result (λ h. h.at < 2 ^ 32) }
{
    if bytes.len() < at + 24 {
        return Err(ImageError::UnexpectedEof);
    }
    Ok(FileHeader {
        at,
        machine: u16_at(bytes, at + 4),
        sections: u16_at(bytes, at + 6),
        time_stamp: u32_at(bytes, at + 8),
        optional_size: u16_at(bytes, at + 20),
    })
}

/// The file header of an image.
#[tactic(auto, unfolding(crate::specs::Headers::file_header_of))]
pub(crate) fn file_header(bytes: &[u8]) -> Result<FileHeader>
    ensures header { Answers (λ h. h) result (file_header_of bytes.now) }
    ensures small { IfOk result (λ h. h.at < 2 ^ 32) }
{
    let at = find_signature(bytes)?;
    file_header_at(bytes, at)
}

/// How many bytes of an optional header stand before its directories.
fn fixed_size(format: Format) -> usize
    ensures { result ≡ fixed_bytes format }
{
    match format {
        Format::Pe32 => 96,
        Format::Pe32Plus => 112,
    }
}

/// The address at which the image wants to be loaded.
fn base_at(bytes: &[u8], at: usize, format: Format) -> u64
    requires { at + 96 ≤ length bytes.now }
    ensures { result ≡ base_number bytes.now at format }
{
    match format {
        Format::Pe32 => u64::from(u32_at(bytes, at + 28)),
        Format::Pe32Plus => u64_at(bytes, at + 24),
    }
}

/// The format of the optional header of this offset and size.
#[tactic(auto, unfolding(crate::specs::Headers::format_at))]
fn format_at(bytes: &[u8], at: usize, size: usize) -> Result<Format>
    requires { at < 2 ^ 33 }
    ensures { Answers (λ f. f) result (format_there bytes.now at size) }
{
    if size < 2 || bytes.len() < at + 2 {
        return Err(ImageError::UnexpectedEof);
    }
    match u16_at(bytes, at) {
        0x10b => Ok(Format::Pe32),
        0x20b => Ok(Format::Pe32Plus),
        _ => Err(ImageError::UnknownOptionalHeader),
    }
}

/// The fields of the optional header of this offset, size and format.
#[tactic(auto, unfolding(crate::specs::Headers::optional_fields))]
fn optional_fields(bytes: &[u8], at: usize, size: usize, format: Format) -> Result<OptionalHeader>
    requires offset { at < 2 ^ 33 }
    requires small { size < 2 ^ 16 }
    ensures header { Answers (λ h. h) result (fields_there bytes.now at size format) }
    ensures there { IfOk result (λ h. (h.at ≡ at) × (h.size ≡ size) × (at + size ≤ length bytes.now) × (h.fixed ≤ 112)) }
{
    let fixed = fixed_size(format);
    if size < fixed || bytes.len() < at + size {
        return Err(ImageError::UnexpectedEof);
    }
    Ok(OptionalHeader {
        at,
        size,
        fixed,
        base: base_at(bytes, at, format),
        size_of_image: u32_at(bytes, at + 56),
        directories: u32_at(bytes, at + fixed - 4),
    })
}

/// The optional header of this offset and size.
#[tactic(auto, unfolding(crate::specs::Headers::optional_header_at))]
pub(crate) fn optional_header_at(bytes: &[u8], at: usize, size: usize) -> Result<OptionalHeader>
    requires offset { at < 2 ^ 33 }
    requires small { size < 2 ^ 16 }
    ensures header { Answers (λ h. h) result (optional_header_there bytes.now at size) }
    ensures there { IfOk result (λ h. (h.at ≡ at) × (h.size ≡ size) × (at + size ≤ length bytes.now) × (h.fixed ≤ 112)) }
{
    let format = format_at(bytes, at, size)?;
    optional_fields(bytes, at, size, format)
}

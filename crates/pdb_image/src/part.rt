//! Parts of an image's bytes.

ghost use Rattle.std.specs.Prelude.{◌≡◌, ◌+◌, ◌*◌, ◌≤◌, length};
ghost use Rattle.pdb_base.specs.Fields.{number};
ghost use Rattle.pdb_image.specs.Parts.{Answers, bytes_at};

use crate::error::{ImageError, Result};
use pdb_base::little_endian::u32_at;

/// The bytes of this size at an offset; `UnexpectedEof` where their end is past the image's end.
#[tactic(auto, unfolding(crate::specs::Parts::bytes_at))]
pub(crate) fn part_of(bytes: &[u8], start: usize, size: usize) -> Result<&[u8]>
    ensures { Answers (λ x. x.now) result (bytes_at bytes.now start size) }
{
    if bytes.len() < start || bytes.len() - start < size {
        return Err(ImageError::UnexpectedEof);
    }
    Ok(&bytes[start..start + size])
}

/// The number of eight bytes at an offset.
#[tactic(auto, using(crate::proofs::Finding::number_8_of_4))]
pub(crate) fn u64_at(bytes: &[u8], at: usize) -> u64
    requires { at + 8 ≤ length bytes.now }
    ensures { result ≡ number bytes.now at 8 }
{
    u64::from(u32_at(bytes, at)) + u64::from(u32_at(bytes, at + 4)) * 0x1_0000_0000
}

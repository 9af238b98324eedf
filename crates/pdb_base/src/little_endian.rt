//! Numbers, the least byte first, at offsets that are known to be there.

ghost use Rattle.std.specs.Prelude.{◌≡◌, ◌+◌, ◌≤◌, length};
ghost use Rattle.pdb_base.specs.Fields.{number};

/// The number of one byte at an offset.
#[inline]
#[tactic(auto, unfolding(crate::specs::Fields::number))]
pub fn u8_at(bytes: &[u8], at: usize) -> u8
    requires { at + 1 ≤ length bytes.now }
    ensures { result ≡ number bytes.now at 1 }
{
    bytes[at]
}

/// The number of two bytes at an offset.
#[inline]
#[tactic(auto, unfolding(crate::specs::Fields::number))]
pub fn u16_at(bytes: &[u8], at: usize) -> u16
    requires { at + 2 ≤ length bytes.now }
    ensures { result ≡ number bytes.now at 2 }
{
    u16::from_le_bytes([bytes[at], bytes[at + 1]])
}

/// The number of four bytes at an offset.
#[inline]
#[tactic(auto, unfolding(crate::specs::Fields::number))]
pub fn u32_at(bytes: &[u8], at: usize) -> u32
    requires { at + 4 ≤ length bytes.now }
    ensures { result ≡ number bytes.now at 4 }
{
    u32::from_le_bytes([bytes[at], bytes[at + 1], bytes[at + 2], bytes[at + 3]])
}

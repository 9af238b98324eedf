//! How texts begin.

ghost use Rattle.std.specs.Prelude.{◌≡◌, IfOk};
ghost use Rattle.tool_stacks.specs.Beginnings.{blanked, has_mark, is_utf16};

use std::alloc::{AllocError, Global};

/// Whether a text begins as UTF-16 does: such a text isn't read.
pub fn is_utf16(text: &[u8]) -> bool
    ensures { result ≡ is_utf16 text.now }
{
    text.starts_with(b"\xff\xfe") || text.starts_with(b"\xfe\xff")
}

/// Whether a text begins with the mark of UTF-8.
pub(crate) fn has_mark(text: &[u8]) -> bool
    ensures { result ≡ has_mark text.now }
{
    text.starts_with(b"\xef\xbb\xbf")
}

/// A text with blanks in place of its first three bytes.
pub(crate) fn blanked(alloc: Global, text: &[u8]) -> Result<Vec<u8>, AllocError>
    ensures { IfOk result (λ copy. copy.items ≡ blanked text.now) }
{
    let mut copy = Vec::new(alloc);
    copy.extend_from_slice(b"   ")?;
    copy.extend_from_slice(&text[text.len().min(3)..])?;
    Ok(copy)
}

//! Names as raw bytes.

ghost use Rattle.std.specs.Prelude.{◌≡◌, IfOk, IfErr, IsOk};
ghost use Rattle.std.specs.Str.{IsUtf8};
ghost use Rattle.std.specs.Cow.{cow_str_bytes, IsOwnedStr};
ghost use Rattle.pdb_base.specs.Text.{name_bytes, lossy_text};

use crate::error::{Error, Result};
use bstr::ByteSlice;
use std::alloc::Global;
use std::borrow::CowStr;

/// A name as it stands in the file: bytes that are mostly UTF-8 text, without the zero byte that ends them.
#[derive(Clone, Copy, Debug, PartialEq, Eq)]
pub struct RawString<'b> {
    bytes: &'b [u8],
}

impl<'b> RawString<'b> {
    pub(crate) fn new(bytes: &'b [u8]) -> Self
        ensures { name_bytes result ≡ bytes.now }
    {
        RawString { bytes }
    }

    /// The name's bytes.
    pub fn as_bytes(&self) -> &'b [u8]
        ensures { result.now ≡ name_bytes self.now }
    {
        self.bytes
    }

    /// The name as text: borrowed where its bytes are UTF-8, which takes no memory, and else a copy in which each
    /// maximal piece that is no character is replaced by U+FFFD.
    pub fn to_string(&self, alloc: Global) -> Result<CowStr<'b>>
        ensures text { IfOk result (λ text. cow_str_bytes text ≡ lossy_text (name_bytes self.now)) }
        ensures borrowed { IsUtf8 (name_bytes self.now) → IsOk result }
        ensures lent { IsUtf8 (name_bytes self.now) → IfOk result (λ text. IsOwnedStr text → ⊥) }
        ensures memory { IfErr result (λ e. e ≡ Error.OutOfMemory) }
    {
        Ok(self.as_bytes().to_str_lossy(alloc)?)
    }
}

impl<'b> From<&'b str> for RawString<'b> {
    ghost from_gives = { λ text name. name_bytes name ≡ text.now };

    fn from(text: &'b str) -> Self {
        RawString::new(text.as_bytes())
    }
}

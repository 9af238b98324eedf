//! An offset in a list of bytes, and reads there.

ghost use Rattle.std.specs.Prelude.{◌≡◌, ◌≤◌, ◌+◌, ◌-◌, [], length, IsTrue, ◌↔◌, ◌<◌, ◌==◌, position, IfSome, IfOk, IfErr, OnOk, min, take, ⊤};
ghost use Rattle.pdb_base.specs.Cursor.{Reads};
ghost use Rattle.std.specs.Int.{w16, w32, w64};
ghost use Rattle.pdb_base.specs.Fields.{number_at, signed_at, bytes_at, cstring_at, pascal_at, aligned_at, padding};
ghost use Rattle.pdb_base.specs.Text.{name_bytes};

use crate::error::{Error, Result};
use crate::text::RawString;
use crate::zeros::first_zero;
use std::alloc::AllocError;
use std::marker::Model;

/// Bytes, and an offset among them, at which the next read stands. Numbers are little-endian, and may stand at any
/// offset. After a read that finds too few bytes, which is `UnexpectedEof`, the offset isn't specified.
#[derive(Drop)]
pub struct ParseBuffer<'b> {
    buf: &'b [u8],
    at: usize,
}

impl<'b> Model for ParseBuffer<'b> {
    ghost use Rattle.std.specs.Prelude.{◌≤◌, length};
    ghost use Rattle.pdb_base.specs.Cursor.{Cursor};

    ghost Value = { Cursor };

    ghost view = { λ a. record { bytes = a.buf.now; place = a.at } };

    ghost invariant = { λ a. a.at ≤ length a.buf.now };
}

impl<'b> From<&'b [u8]> for ParseBuffer<'b> {
    ghost from_gives = { λ bytes buffer. buffer ≡ record { bytes = bytes.now; place = 0 } };

    fn from(bytes: &'b [u8]) -> Self {
        ParseBuffer { buf: bytes, at: 0 }
    }
}

impl<'b> ParseBuffer<'b> {
    /// How many bytes are left.
    pub fn len(&self) -> usize
        ensures { result + self.now.place ≡ length self.now.bytes }
    {
        self.buf.len() - self.at
    }

    /// Whether no byte is left.
    pub fn is_empty(&self) -> bool
        ensures { IsTrue result ↔ (self.now.place ≡ length self.now.bytes) }
    {
        self.at == self.buf.len()
    }

    /// The offset, counted from the start of the bytes.
    pub fn pos(&self) -> usize
        ensures { result ≡ self.now.place }
    {
        self.at
    }

    /// Reads a `u8`.
    pub fn parse_u8(&mut self) -> Result<u8>
        ensures { Reads (λ n. n) self.old self.new result (number_at self.old.bytes self.old.place 1) (λ _. 1) }
    {
        if self.buf.len() - self.at < 1 {
            return Err(Error::UnexpectedEof);
        }
        let number = self.buf[self.at];
        self.at += 1;
        Ok(number)
    }

    /// Reads a `u16`.
    pub fn parse_u16(&mut self) -> Result<u16>
        ensures { Reads (λ n. n) self.old self.new result (number_at self.old.bytes self.old.place 2) (λ _. 2) }
    {
        if self.buf.len() - self.at < 2 {
            return Err(Error::UnexpectedEof);
        }
        let number = u16::from_le_bytes([self.buf[self.at], self.buf[self.at + 1]]);
        self.at += 2;
        Ok(number)
    }

    /// Reads a `u32`.
    pub fn parse_u32(&mut self) -> Result<u32>
        ensures { Reads (λ n. n) self.old self.new result (number_at self.old.bytes self.old.place 4) (λ _. 4) }
    {
        if self.buf.len() - self.at < 4 {
            return Err(Error::UnexpectedEof);
        }
        let number = u32::from_le_bytes([
            self.buf[self.at],
            self.buf[self.at + 1],
            self.buf[self.at + 2],
            self.buf[self.at + 3],
        ]);
        self.at += 4;
        Ok(number)
    }

    /// Reads a `u64`.
    pub fn parse_u64(&mut self) -> Result<u64>
        ensures { Reads (λ n. n) self.old self.new result (number_at self.old.bytes self.old.place 8) (λ _. 8) }
    {
        if self.buf.len() - self.at < 8 {
            return Err(Error::UnexpectedEof);
        }
        let number = u64::from_le_bytes([
            self.buf[self.at],
            self.buf[self.at + 1],
            self.buf[self.at + 2],
            self.buf[self.at + 3],
            self.buf[self.at + 4],
            self.buf[self.at + 5],
            self.buf[self.at + 6],
            self.buf[self.at + 7],
        ]);
        self.at += 8;
        Ok(number)
    }

    /// Reads an `i16`.
    #[tactic(auto, unfolding(crate::specs::Fields::signed_at))]
    pub fn parse_i16(&mut self) -> Result<i16>
        ensures { Reads (λ n. n) self.old self.new result (signed_at self.old.bytes self.old.place w16) (λ _. 2) }
    {
        let number = self.parse_u16()?;
        Ok(number.cast_signed())
    }

    /// Reads an `i32`.
    #[tactic(auto, unfolding(crate::specs::Fields::signed_at))]
    pub fn parse_i32(&mut self) -> Result<i32>
        ensures { Reads (λ n. n) self.old self.new result (signed_at self.old.bytes self.old.place w32) (λ _. 4) }
    {
        let number = self.parse_u32()?;
        Ok(number.cast_signed())
    }

    /// Reads an `i64`.
    #[tactic(auto, unfolding(crate::specs::Fields::signed_at))]
    pub fn parse_i64(&mut self) -> Result<i64>
        ensures { Reads (λ n. n) self.old self.new result (signed_at self.old.bytes self.old.place w64) (λ _. 8) }
    {
        let number = self.parse_u64()?;
        Ok(number.cast_signed())
    }

    /// Reads the next `n` bytes, which are borrowed.
    pub fn take(&mut self, n: usize) -> Result<&'b [u8]>
        ensures reads { Reads (λ x. x.now) self.old self.new result (bytes_at self.old.bytes self.old.place n) (λ _. n) }
        ensures size { IfOk result (λ s. length s.now ≡ n) }
    {
        if self.buf.len() - self.at < n {
            return Err(Error::UnexpectedEof);
        }
        let start = self.at;
        self.at += n;
        Ok(&self.buf[start..start + n])
    }

    /// Reads the bytes up to the first zero byte, which is passed over; without one it is `UnexpectedEof`.
    #[inline]
    pub fn parse_cstring(&mut self) -> Result<RawString<'b>>
        ensures { Reads name_bytes self.old self.new result (cstring_at self.old.bytes self.old.place) (λ s. length s + 1) }
    {
        let (_, rest) = self.buf.split_at(self.at);
        match first_zero(rest) {
            Some(n) => {
                self.at += n + 1;
                let (name, _) = rest.split_at(n);
                Ok(RawString::new(name))
            }
            None => Err(Error::UnexpectedEof),
        }
    }

    /// Reads a length of one byte, and then that many bytes.
    #[tactic(auto, unfolding(crate::specs::Fields::pascal_at))]
    pub fn parse_u8_pascal_string(&mut self) -> Result<RawString<'b>>
        ensures { Reads name_bytes self.old self.new result (pascal_at self.old.bytes self.old.place) (λ s. length s + 1) }
    {
        let n = self.parse_u8()?;
        Ok(RawString::new(self.take(n as usize)?))
    }

    /// Goes forward to a multiple of `n`, counted from the start of the bytes. Where the padding isn't there it is
    /// `UnexpectedEof`.
    pub fn align(&mut self, n: usize) -> Result<()>
        requires { 0 < n }
        ensures { Reads (λ x. x) self.old self.new result (aligned_at self.old.bytes self.old.place n) (λ _. padding self.old.place n) }
    {
        let over = self.at % n;
        if over > 0 {
            if self.buf.len() - self.at < n - over {
                return Err(Error::UnexpectedEof);
            }
            self.at += n - over;
        }
        Ok(())
    }

    /// Goes to the offset `n`, or to the end where `n` is past it.
    pub fn seek(&mut self, n: usize)
        ensures { self.new ≡ record self.old { place = min n (length self.old.bytes) } }
    {
        self.at = n.min(self.buf.len());
    }

    /// Keeps the first `n` of all bytes; an offset behind them becomes their end. `UnexpectedEof` where there are
    /// fewer.
    pub fn truncate(&mut self, n: usize) -> Result<()>
        ensures ok { OnOk result ((n ≤ length self.old.bytes) × (self.new ≡ record { bytes = take n self.old.bytes; place = min self.old.place n })) }
        ensures err { IfErr result (λ e. (e ≡ Error.UnexpectedEof) × (length self.old.bytes < n) × (self.new.bytes ≡ self.old.bytes)) }
    {
        if self.buf.len() < n {
            return Err(Error::UnexpectedEof);
        }
        let (front, _) = self.buf.split_at(n);
        self.buf = front;
        self.at = self.at.min(n);
        Ok(())
    }
}

impl Default for ParseBuffer<'_> {
    ghost is_default = { λ b. b ≡ record { bytes = []; place = 0 } };

    fn default() -> Self {
        ParseBuffer { buf: &[], at: 0 }
    }
}

impl Clone for ParseBuffer<'_> {
    ghost is_clone = { λ a b. b ≡ a };

    ghost is_infallible = { λ _. ⊤ };

    fn clone(&self) -> std::result::Result<Self, AllocError> {
        Ok(ParseBuffer {
            buf: self.buf,
            at: self.at,
        })
    }
}

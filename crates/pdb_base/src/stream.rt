//! A stream: a list of bytes.

ghost use Rattle.std.specs.Prelude.{◌≡◌, ◌<◌, length, IsSome, IfSome, IfOk, ◌↔◌};
ghost use Rattle.pdb_base.specs.Source.{view_bytes};
ghost use Rattle.pdb_base.specs.Shared.{shared_bytes};

use crate::buffer::ParseBuffer;
use crate::source::View;
use std::alloc::{AllocError, Global};
use std::marker::Model;
use std::sync::Arc;

/// Bytes that clones share.
#[derive(Drop)]
enum Shared<'s> {
    Borrowed(&'s [u8]),
    Owned(Arc<Vec<u8>>),
}

/// The bytes of a stream of the container, fewer than 4294967295. A clone copies none of them. A contract sees it as
/// the list of its bytes.
pub struct Stream<'s> {
    bytes: Shared<'s>,
}

// By hand: what drops a stream takes one step, and doesn't see in which form its bytes are held.
impl Drop for Stream<'_> {
    fn drop(self) {
        let Stream { bytes: _ } = self;
    }
}

impl<'s> Model for Stream<'s> {
    ghost use Rattle.std.specs.Prelude.{ℕ, List, length, ◌<◌};

    ghost Value = { List ℕ };

    ghost use Rattle.pdb_base.specs.Shared.{shared_bytes};

    ghost view = { λ s. shared_bytes s.bytes };

    ghost invariant = { λ s. length (shared_bytes s.bytes) < 4294967295 };
}

impl<'s> Stream<'s> {
    /// The stream of these bytes; none from 4294967295 bytes on, since no stream has as many.
    pub fn new(bytes: &'s [u8]) -> Option<Self>
        ensures small { IsSome result ↔ (length bytes.now < 4294967295) }
        ensures bytes { IfSome result (λ s. s ≡ bytes.now) }
    {
        if bytes.len() >= 4294967295 {
            return None;
        }
        Some(Stream {
            bytes: Shared::Borrowed(bytes),
        })
    }

    pub(crate) fn of(alloc: Global, view: View<'s>) -> Result<Self, AllocError>
        requires { length (view_bytes view) < 4294967295 }
        ensures { IfOk result (λ s. s ≡ view_bytes view.entry) }
    {
        let bytes = match view {
            View::Borrowed(bytes) => Shared::Borrowed(bytes),
            View::Owned(bytes) => Shared::Owned(Arc::new(alloc, bytes)?),
        };
        Ok(Stream { bytes })
    }

    /// The stream's bytes.
    pub fn as_slice(&self) -> &[u8]
        ensures bytes { result.now ≡ self.now }
        ensures small { length self.now < 4294967295 }
    {
        match &self.bytes {
            Shared::Borrowed(bytes) => bytes,
            Shared::Owned(bytes) => bytes.as_slice(),
        }
    }

    /// A buffer over the stream's bytes, at their start.
    pub fn parse_buffer(&self) -> ParseBuffer<'_>
        ensures bytes { result ≡ record { bytes = self.now; place = 0 } }
        ensures small { length self.now < 4294967295 }
    {
        ParseBuffer::from(self.as_slice())
    }
}

impl Clone for Stream<'_> {
    ghost is_clone = { λ s copy. copy ≡ s };

    fn clone(&self) -> Result<Self, AllocError> {
        let bytes = match &self.bytes {
            Shared::Borrowed(bytes) => Shared::Borrowed(bytes),
            Shared::Owned(bytes) => Shared::Owned(bytes.clone()?),
        };
        Ok(Stream { bytes })
    }
}

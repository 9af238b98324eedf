//! Standard output, whose reader may close it.

use std::io::{self, ErrorKind, Write};

/// A writer that remembers whether its reader has closed it, which is no fault to speak of.
#[derive(Drop)]
pub struct Output<W: Write + Drop> {
    inner: W,
    is_closed: bool,
}

impl<W: Write + Drop> Output<W> {
    /// Output to a writer.
    pub fn new(inner: W) -> Self {
        Output {
            inner,
            is_closed: false,
        }
    }

    /// Whether a write found that the reader is gone.
    pub fn is_closed(&self) -> bool {
        self.is_closed
    }
}

impl<W: Write + Drop> Write for Output<W> {
    ghost contents = { λ o. W.contents o.inner };

    fn write(&mut self, bytes: &[u8]) -> io::Result<usize> {
        match self.inner.write(bytes) {
            Ok(count) => Ok(count),
            Err(e) => {
                self.is_closed = e.kind() == ErrorKind::BrokenPipe;
                Err(e)
            }
        }
    }

    fn flush(&mut self) -> io::Result<()> {
        self.inner.flush()
    }
}

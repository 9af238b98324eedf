//! Readers whose failures are counted.

ghost use Rattle.std.specs.Prelude.{◌≡◌};

use pdb_base::Steps;
use std::io::{self, Read};

/// A reader failed.
#[derive(Clone, Copy, Debug, PartialEq, Eq)]
pub struct ReadFailed;

/// A reader whose failures are counted. Contracts alone see the count.
pub trait CountedRead: Read {
    ghost use Rattle.std.specs.Prelude.{◌≡◌, ℕ};
    ghost use Rattle.std.specs.Io.{ReadsAtMost};
    ghost use Rattle.std.specs.Io.KnownBytes.{ReadConsumes};
    ghost use Rattle.pdb_file.specs.Causes.{failures_after};

    // How many calls of `read_part` failed.
    ghost failures: { Self → ℕ };

    /// The next bytes, put in a buffer; returns how many, and none only at the end or where the buffer has no room. It
    /// fails where the reader fails.
    fn read_part(&mut self, buf: &mut [u8]) -> Result<usize, ReadFailed>
        ensures bound { ReadsAtMost result buf.new }
        ensures bytes { ReadConsumes (Self.remaining self.old) (Self.remaining self.new) result buf.new }
        ensures failures { failures self.new ≡ failures_after (failures self.old) result };
}

/// A reader, with a count of its failures that takes no bytes.
#[derive(Drop)]
pub struct CountedReader<R: Read + Drop> {
    inner: R,
    failures: Steps,
}

impl<R: Read + Drop> CountedReader<R> {
    /// A reader that hasn't failed yet.
    pub fn counting(inner: R) -> Self
        ensures remaining { ⟦<CountedReader<R> as Read>⟧.remaining result ≡ R.remaining inner }
        ensures failures { ⟦<CountedReader<R> as CountedRead>⟧.failures result ≡ 0 }
    {
        CountedReader {
            inner,
            failures: Steps::new(),
        }
    }
}

impl<R: Read + Drop> Read for CountedReader<R> {
    ghost remaining = { λ c. R.remaining c.inner };

    fn read(&mut self, buf: &mut [u8]) -> io::Result<usize> {
        self.inner.read(buf)
    }
}

impl<R: Read + Drop> CountedRead for CountedReader<R> {
    ghost failures = { λ c. c.failures.count };

    fn read_part(&mut self, buf: &mut [u8]) -> Result<usize, ReadFailed> {
        match self.inner.read(buf) {
            Ok(count) => Ok(count),
            Err(_) => {
                self.failures.tick();
                Err(ReadFailed)
            }
        }
    }
}

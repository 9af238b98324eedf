//! Texts written to a writer whose failures are counted.

ghost use Rattle.std.specs.Prelude.{◌≡◌, OnOk, OnErr};
ghost use Rattle.std.specs.Io.KnownBytes.{Appends};
ghost use Rattle.pdb_text.specs.Counted.{counted};
ghost use Rattle.pdb_text.specs.Written.{WroteFront};

use crate::failures::Failures;
use crate::output::WriteFailed;
use std::io::{self, Write};

/// A writer whose failures are counted. Contracts alone see the count.
pub trait CountedWrite: Write {
    ghost use Rattle.std.specs.Prelude.{◌≡◌, ℕ, ◌<◌, IfOk, length};
    ghost use Rattle.std.specs.Io.{WritesAtMost};
    ghost use Rattle.std.specs.Io.KnownBytes.{WriteAppends};
    ghost use Rattle.pdb_text.specs.Counted.{counted};

    // How many calls of `write_part` failed.
    ghost failures: { Self → ℕ };

    /// Writes a beginning of the bytes, which isn't empty unless they are; returns how many it wrote. It fails where
    /// the writer fails or takes nothing.
    fn write_part(&mut self, bytes: &[u8]) -> Result<usize, WriteFailed>
        ensures bound { WritesAtMost result bytes.now }
        ensures bytes { WriteAppends (Self.contents self.old) (Self.contents self.new) result bytes.now }
        ensures some { IfOk result (λ n. 0 < length bytes.now → 0 < n) }
        ensures failures { failures self.new ≡ counted (failures self.old) result };
}

/// Writes all of the bytes. Where the writer fails or takes nothing, a beginning of them was written, and nowhere else
/// does it fail.
pub fn write_counted<W: CountedWrite>(out: &mut W, bytes: &[u8]) -> Result<(), WriteFailed>
    ensures ok { OnOk result (Appends (W.contents out.old) (W.contents out.new) bytes.now) }
    ensures err { OnErr result (WroteFront (W.contents out.old) (W.contents out.new) bytes.now) }
    ensures failures { W.failures out.new ≡ counted (W.failures out.old) result }
{
    let mut at = 0;
    while at < bytes.len() {
        at += out.write_part(&bytes[at..])?;
    }
    Ok(())
}

/// A writer, with a count of its failures that takes no bytes.
#[derive(Drop)]
pub struct CountedWriter<W: Write + Drop> {
    inner: W,
    failures: Failures,
}

impl<W: Write + Drop> CountedWriter<W> {
    /// A writer that hasn't failed yet.
    pub fn counting(inner: W) -> Self
        ensures contents { ⟦<CountedWriter<W> as Write>⟧.contents result ≡ W.contents inner }
        ensures failures { ⟦<CountedWriter<W> as CountedWrite>⟧.failures result ≡ 0 }
    {
        CountedWriter {
            inner,
            failures: Failures::new(),
        }
    }

    /// The writer.
    pub fn inner(&self) -> &W
        ensures { W.contents result.now ≡ ⟦<CountedWriter<W> as Write>⟧.contents self.now }
    {
        &self.inner
    }
}

impl<W: Write + Drop> Write for CountedWriter<W> {
    ghost contents = { λ c. W.contents c.inner };

    fn write(&mut self, bytes: &[u8]) -> io::Result<usize> {
        self.inner.write(bytes)
    }

    fn flush(&mut self) -> io::Result<()> {
        self.inner.flush()
    }
}

impl<W: Write + Drop> CountedWrite for CountedWriter<W> {
    ghost failures = { λ c. c.failures.count };

    fn write_part(&mut self, bytes: &[u8]) -> Result<usize, WriteFailed> {
        if bytes.is_empty() {
            return Ok(0);
        }
        match self.inner.write(bytes) {
            Ok(0) | Err(_) => {
                self.failures.add();
                Err(WriteFailed)
            }
            Ok(count) => Ok(count),
        }
    }
}

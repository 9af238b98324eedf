//! Texts written to a writer.

ghost use Rattle.std.specs.Prelude.{OnOk, OnErr};
ghost use Rattle.std.specs.Io.KnownBytes.{Appends};
ghost use Rattle.pdb_text.specs.Written.{WroteFront};

use std::io::Write;

/// The writer failed, or took nothing.
#[derive(Clone, Copy, Debug, PartialEq, Eq)]
pub struct WriteFailed;

/// Writes all of the bytes. Where the writer fails or takes nothing, a beginning of them was written.
pub fn write_out<W: Write>(out: &mut W, bytes: &[u8]) -> Result<(), WriteFailed>
    ensures ok { OnOk result (Appends (W.contents out.old) (W.contents out.new) bytes.now) }
    ensures err { OnErr result (WroteFront (W.contents out.old) (W.contents out.new) bytes.now) }
{
    let mut at = 0;
    while at < bytes.len() {
        match out.write(&bytes[at..]) {
            Ok(0) | Err(_) => return Err(WriteFailed),
            Ok(n) => at += n,
        }
    }
    Ok(())
}

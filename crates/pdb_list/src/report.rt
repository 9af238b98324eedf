//! Faults of the program, as lines and exit statuses.

ghost use Rattle.std.specs.Prelude.{◌≡◌, OnOk, OnErr};
ghost use Rattle.std.specs.Io.KnownBytes.{Appends};
ghost use Rattle.std.specs.Fmt.{decimal};
ghost use Rattle.pdb_text.specs.Written.{WroteFront};
ghost use Rattle.pdb_list.specs.Faults.{fault_line, status_of};

use crate::engine::RunError;
use pdb_file::FetchError;
use pdb_text::{WordsError, WriteFailed, write_out};
use std::alloc::AllocError;
use std::io::Write;

/// Why the program failed.
#[derive(Clone, Copy, Debug, PartialEq, Eq)]
pub enum Fault {
    /// A word is no command, or FILE stands without one.
    Usage,
    /// The file can't be read, or has more than 1099511627776 bytes.
    Read,
    /// The file can't be opened as a container, with the error's number.
    Open(u8),
    /// Out of memory.
    Memory,
    /// Standard output failed.
    Write,
}

impl From<AllocError> for Fault {
    ghost use Rattle.pdb_list.specs.declared.report.Fault.TheVariants.{Memory};

    ghost from_gives = { λ _ e. e ≡ Memory };

    fn from(_e: AllocError) -> Fault {
        Fault::Memory
    }
}

impl From<RunError> for Fault {
    ghost use Rattle.pdb_list.specs.Faults.{fault_of_run};

    ghost from_gives = { λ e f. f ≡ fault_of_run e };

    fn from(e: RunError) -> Fault {
        match e {
            RunError::OutOfMemory => Fault::Memory,
            RunError::Open(refusal) => Fault::Open(refusal.number()),
            RunError::Read => Fault::Read,
            RunError::Write => Fault::Write,
        }
    }
}

impl From<FetchError> for Fault {
    ghost use Rattle.pdb_list.specs.Faults.{fault_of_fetch};

    ghost from_gives = { λ e f. f ≡ fault_of_fetch e };

    fn from(e: FetchError) -> Fault {
        match e {
            FetchError::Read => Fault::Read,
            FetchError::Memory => Fault::Memory,
        }
    }
}

impl From<WordsError> for Fault {
    ghost use Rattle.pdb_list.specs.Faults.{fault_of_words};

    ghost from_gives = { λ e f. f ≡ fault_of_words e };

    fn from(e: WordsError) -> Fault {
        match e {
            WordsError::BadWord(_) => Fault::Usage,
            WordsError::OutOfMemory => Fault::Memory,
        }
    }
}

#[tactic(auto, using(std::proofs::lemmas::Fmt::decimal_digit))]
fn write_decimal<W: Write>(out: &mut W, n: u8) -> Result<(), WriteFailed>
    ensures ok { OnOk result (Appends (W.contents out.old) (W.contents out.new) (decimal n)) }
    ensures err { OnErr result (WroteFront (W.contents out.old) (W.contents out.new) (decimal n)) }
{
    if n < 10 {
        return write_out(out, &[b'0' + n]);
    }
    write_decimal(out, n / 10)?;
    write_out(out, &[b'0' + n % 10])
}

fn write_line<W: Write>(fault: &Fault, out: &mut W) -> Result<(), WriteFailed>
    ensures ok { OnOk result (Appends (W.contents out.old) (W.contents out.new) (fault_line fault.now)) }
    ensures err { OnErr result (WroteFront (W.contents out.old) (W.contents out.new) (fault_line fault.now)) }
{
    match fault {
        Fault::Usage => write_out(out, b"usage: pdb_list FILE COMMAND..\n"),
        Fault::Read => write_out(out, b"cannot read file\n"),
        Fault::Open(number) => {
            write_out(out, b"cannot open: ")?;
            write_decimal(out, *number)?;
            write_out(out, b"\n")
        }
        Fault::Memory => write_out(out, b"out of memory\n"),
        Fault::Write => write_out(out, b"cannot write\n"),
    }
}

/// Writes the fault's line and returns the exit status, from 2 to 6. Where `err` fails, a beginning of the line was
/// written, and the status is the same.
#[tactic(auto, using(pdb_text::proofs::Written::front_all))]
pub fn report<W: Write>(fault: &Fault, err: &mut W) -> u8
    ensures status { result ≡ status_of fault.now }
    ensures line { WroteFront (W.contents err.old) (W.contents err.new) (fault_line fault.now) }
{
    let _ = write_line(fault, err);
    match fault {
        Fault::Usage => 2,
        Fault::Read => 3,
        Fault::Open(_) => 4,
        Fault::Memory => 5,
        Fault::Write => 6,
    }
}

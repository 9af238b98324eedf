//! Where the texts of commands are printed.

ghost use Rattle.std.specs.Prelude.{◌≡◌, ◌++◌, ◌<◌, IfSome, None, OnErr, OnOk, false, get_or, length, take};
ghost use Rattle.std.specs.Io.KnownBytes.{Appends};
ghost use Rattle.pdb_text.specs.Counted.{counted};
ghost use Rattle.pdb_text.specs.Written.{WroteFront};
ghost use Rattle.tool_printing.specs.Printing.{has_bytes, has_mark, mark, unmarked};

use bstr::ByteSlice;
use pdb_text::{CountedWrite, WriteFailed, write_counted};
use std::alloc::AllocError;

/// What stands in a composed text where an error was met: no name and no line has this byte.
pub const MARK: u8 = 0;

/// Appends a mark: what follows, or what would follow, has an error.
pub fn put_mark(out: &mut Vec<u8>) -> Result<(), AllocError>
    ensures { OnOk result (out.new.items ≡ out.old.items ++ mark) }
{
    out.extend_from_slice(&[MARK])
}

/// Where texts are printed. It notes whether one of them was made of something that has an error.
pub trait Printer: Drop {
    ghost use Rattle.std.specs.Prelude.{◌≡◌};
    ghost use Rattle.pdb_text.specs.Counted.{counted};
    ghost use Rattle.tool_printing.specs.Printing.{Printing, Prints, shown};

    ghost state: { Self → Printing };

    /// Prints a text that was composed with marks, without these.
    fn print(&mut self, text: &[u8]) -> Result<(), WriteFailed>
        ensures prints { Prints (shown text.now) (state self.old) (state self.new) result }
        ensures failures { (state self.new).failures ≡ counted (state self.old).failures result };

    /// Prints bytes as they are, and notes whether they were made of something that has an error.
    fn print_bytes(&mut self, bytes: &[u8], is_damaged: bool) -> Result<(), WriteFailed>
        ensures prints { Prints (record { bytes = bytes.now; damaged = is_damaged }) (state self.old) (state self.new) result }
        ensures failures { (state self.new).failures ≡ counted (state self.old).failures result };
}

/// A writer to which texts are printed.
#[derive(Drop)]
pub struct Printout<'a, W: CountedWrite> {
    writer: &'a mut W,
    is_damaged: bool,
    has_text: bool,
}

impl<'a, W: CountedWrite> Printout<'a, W> {
    /// A writer to which no text was printed yet.
    pub fn new(writer: &'a mut W) -> Self {
        Printout {
            writer,
            is_damaged: false,
            has_text: false,
        }
    }

    /// Whether a text was made of something that has an error.
    pub fn is_damaged(&self) -> bool
        ensures { result ≡ (⟦<Printout<'a, W> as Printer>⟧.state self.now).damaged }
    {
        self.is_damaged
    }

    /// Whether a text had bytes.
    pub fn has_text(&self) -> bool
        ensures { result ≡ (⟦<Printout<'a, W> as Printer>⟧.state self.now).some }
    {
        self.has_text
    }
}

impl<'a, W: CountedWrite> Printer for Printout<'a, W> {
    ghost state = { λ p. record { contents = W.contents p.writer.now; failures = W.failures p.writer.now; damaged = p.is_damaged; some = p.has_text } };

    fn print(&mut self, text: &[u8]) -> Result<(), WriteFailed> {
        self.is_damaged |= has_mark(text);
        write_unmarked(self.writer, text)?;
        self.has_text |= has_unmarked(text);
        Ok(())
    }

    fn print_bytes(&mut self, bytes: &[u8], is_damaged: bool) -> Result<(), WriteFailed> {
        self.is_damaged |= is_damaged;
        write_counted(self.writer, bytes)?;
        self.has_text |= !bytes.is_empty();
        Ok(())
    }
}

/// Writes a text without its marks.
fn write_unmarked<W: CountedWrite>(out: &mut W, text: &[u8]) -> Result<(), WriteFailed>
    ensures ok { OnOk result (Appends (W.contents out.old) (W.contents out.new) (unmarked text.now)) }
    ensures err { OnErr result (WroteFront (W.contents out.old) (W.contents out.new) (unmarked text.now)) }
    ensures failures { W.failures out.new ≡ counted (W.failures out.old) result }
{
    let mut rest = text;
    while let Some(at) = first_mark(rest) {
        let (front, marked) = rest.split_at(at);
        write_counted(out, front)?;
        rest = &marked[1..];
    }
    write_counted(out, rest)
}

/// Where the first mark of a text stands.
fn first_mark(text: &[u8]) -> Option<usize>
    ensures there { IfSome result (λ k. (k < length text.now) × (get_or text.now k 0 ≡ 0)) }
    ensures before { IfSome result (λ k. has_mark (take k text.now) ≡ false) }
    ensures none { result ≡ None → has_mark text.now ≡ false }
{
    text.find_byte(MARK)
}

/// Whether a text has a mark.
fn has_mark(text: &[u8]) -> bool
    ensures { result ≡ has_mark text.now }
{
    match first_mark(text) {
        Some(_) => true,
        None => false,
    }
}

/// Whether a text has bytes beside its marks.
#[tactic(auto, using(crate::proofs::Marks::byte_here, crate::proofs::Marks::mark_here, crate::proofs::Marks::none_left))]
fn has_unmarked(text: &[u8]) -> bool
    ensures { result ≡ has_bytes (unmarked text.now) }
{
    for byte in text {
        if *byte != MARK {
            return true;
        }
    }
    false
}

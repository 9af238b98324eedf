//! Lists of symbol records.

ghost use Rattle.std.specs.Prelude.{ℕ, ◌+◌, ◌^◌, ◌<◌, ◌≤◌, ◌≡◌, length};
ghost use Rattle.pdb_symbols.specs.SymbolList.{symbols_from};

use crate::record::read_record;
use crate::symbol::Symbol;
use pdb_base::{FallibleIterator, ParseBuffer, Result, Steps, Stream, SymbolIndex};
use std::marker::Model;

/// A stream of symbol records. A contract sees it as the list of its bytes.
#[derive(Drop)]
pub struct SymbolTable<'s> {
    stream: Stream<'s>,
}

impl<'s> Model for SymbolTable<'s> {
    ghost use Rattle.std.specs.Prelude.{ℕ, List};

    ghost Value = { List ℕ };

    ghost view = { λ t. t.stream };
}

impl<'s> SymbolTable<'s> {
    ghost use Rattle.pdb_symbols.specs.Views.{symbols_left, symbols_bytes, symbols_steps};

    /// The records of a stream.
    pub fn new(stream: Stream<'s>) -> Self
        ensures { result ≡ stream.entry }
    {
        SymbolTable { stream }
    }

    /// The symbols from the stream's start on.
    pub fn iter(&self) -> SymbolIter<'_>
        ensures left { symbols_left result ≡ symbols_from self.now 0 }
        ensures bytes { symbols_bytes result ≡ self.now }
        ensures steps { symbols_steps result ≡ 0 }
    {
        SymbolIter::new(self.stream.parse_buffer())
    }

    /// The symbols from an index on, whatever stands there; none where the index is past the stream's end.
    pub fn iter_at(&self, index: SymbolIndex) -> SymbolIter<'_>
        ensures left { symbols_left result ≡ symbols_from self.now index.0 }
        ensures bytes { symbols_bytes result ≡ self.now }
        ensures steps { symbols_steps result ≡ 0 }
    {
        let mut symbols = self.iter();
        symbols.seek(index);
        symbols
    }
}

/// The symbols of a buffer, record by record. A record is a length of two bytes and then that many bytes, the first
/// two of which are its kind; records of the kinds 0x0402 (`S_ALIGN`) and 0x0007 (`S_SKIP`) make no symbol. A
/// symbol's index is the offset of its record's length. A length below 2 is `SymbolTooShort`, and a length or bytes
/// that aren't there are `UnexpectedEof`; after either the list has ended until the next `seek` or `skip_to`.
#[derive(Drop)]
pub struct SymbolIter<'t> {
    buffer: ParseBuffer<'t>,
    steps: Steps,
    ghost small: { length buffer.bytes < 2 ^ 32 },
    ghost inside: { buffer.place ≤ length buffer.bytes },
    ghost going: { buffer.place < length buffer.bytes → steps.count ≤ buffer.place },
    ghost counted: { steps.count ≤ buffer.place + 1 },
}

impl<'t> SymbolIter<'t> {
    ghost use Rattle.std.specs.Prelude.{◌*◌, ◌≢◌, min, IfOk, IfErr, IfSome};
    ghost use Rattle.pdb_base.specs.Left.{Yields};
    ghost use Rattle.pdb_base.specs.declared.error.Error.TheVariants.{IoError, OutOfMemory};
    ghost use Rattle.pdb_symbols.specs.Views.{symbol_of, symbols_left, symbols_bytes, symbols_place, symbols_steps};

    /// The symbols from the buffer's offset on. The whole buffer has at most 4294967295 bytes, so that each offset is
    /// an index.
    pub fn new(buffer: ParseBuffer<'t>) -> Self
        requires { length buffer.bytes ≤ 4294967295 }
        ensures left { symbols_left result ≡ symbols_from buffer.entry.bytes buffer.entry.place }
        ensures bytes { symbols_bytes result ≡ buffer.entry.bytes }
        ensures place { symbols_place result ≡ buffer.entry.place }
        ensures steps { symbols_steps result ≡ 0 }
    {
        SymbolIter {
            buffer,
            steps: Steps::new(),
        }
    }

    /// Goes to an index, whatever stands there, also after the list has ended; past the end stands the end.
    pub fn seek(&mut self, index: SymbolIndex)
        ensures left { symbols_left self.new ≡ symbols_from (symbols_bytes self.old) index.0 }
        ensures bytes { symbols_bytes self.new ≡ symbols_bytes self.old }
        ensures place { symbols_place self.new ≡ min index.0 (length (symbols_bytes self.old)) }
        ensures steps { symbols_steps self.new ≡ 0 }
    {
        self.buffer.seek(index.0 as usize);
        self.steps = Steps::new();
    }

    /// Goes to an index, as `seek`, and then gives the next symbol. Iteration goes on behind it.
    pub fn skip_to(&mut self, index: SymbolIndex) -> Result<Option<Symbol<'t>>>
        ensures yields { Yields symbol_of (symbols_from (symbols_bytes self.old) index.0) result (symbols_left self.new) }
        ensures bytes { symbols_bytes self.new ≡ symbols_bytes self.old }
        ensures bound { symbols_steps self.new ≤ length (symbols_bytes self.new) + 1 }
        // Steps are counted from the index on, one for each record that was passed, as `next` counts them.
        ensures few { IfOk result (λ _. 4 * symbols_steps self.new + min index.0 (length (symbols_bytes self.old)) ≤ symbols_place self.new) }
        ensures each { IfOk result (λ _. symbols_place self.new ≤ min index.0 (length (symbols_bytes self.old)) + 65537 * symbols_steps self.new) }
        ensures few_to_fault { IfErr result (λ _. 4 * symbols_steps self.new + min index.0 (length (symbols_bytes self.old)) ≤ symbols_place self.new + 4) }
        ensures refused { IfErr result (λ e. (e ≢ OutOfMemory) × (e ≢ IoError)) }
    {
        self.seek(index);
        self.next()
    }
}

impl<'t> FallibleIterator for SymbolIter<'t> {
    ghost use Rattle.std.specs.Prelude.{◌*◌, ◌≢◌, IfOk, IfErr, IfSome, IfNone};
    ghost use Rattle.pdb_base.specs.Left.{Yields};
    ghost use Rattle.pdb_base.specs.declared.error.Error.TheVariants.{IoError, OutOfMemory};
    ghost use Rattle.pdb_symbols.specs.SymbolList.{Entry};
    ghost use Rattle.pdb_symbols.specs.Views.{symbol_of, symbols_left, symbols_bytes, symbols_place, symbols_steps, SymbolsEnded};

    type Item = Symbol<'t>;

    ghost Shown = { Entry };

    ghost shown = { symbol_of };

    ghost left = { symbols_left };

    #[tactic(auto, using(pdb_base::proofs::Tilings::few, crate::proofs::SymbolSteps::item_left, crate::proofs::SymbolSteps::padding_left, crate::proofs::SymbolSteps::fault_left, crate::proofs::SymbolSteps::end_left))]
    #[inline]
    fn next(&mut self) -> Result<Option<Symbol<'t>>>
        ensures yields { Yields symbol_of (symbols_left self.old) result (symbols_left self.new) }
        ensures few { length (symbols_left self.old).items < 2 ^ 64 }
        ensures bytes { symbols_bytes self.new ≡ symbols_bytes self.old }
        // Steps are counted from the start, or from the last `seek` or `skip_to`.
        ensures bound { symbols_steps self.new ≤ length (symbols_bytes self.new) + 1 }
        ensures stepped { IfOk result (λ o. IfSome o (λ _. symbols_steps self.old < symbols_steps self.new)) }
        ensures stepped_to_fault { IfErr result (λ _. symbols_steps self.old < symbols_steps self.new) }
        // An iterator that has ended makes no step, and steps are never forgotten.
        ensures rests { SymbolsEnded self.old → symbols_steps self.new ≡ symbols_steps self.old }
        ensures grows { symbols_steps self.old ≤ symbols_steps self.new }
        // Each record that is passed takes one step, and has 4 to 65,537 bytes; so has the one that is given, which is
        // passed last; a fault takes one more.
        ensures few_steps { IfOk result (λ _. 4 * symbols_steps self.new + symbols_place self.old ≤ 4 * symbols_steps self.old + symbols_place self.new) }
        ensures each_steps { IfOk result (λ _. symbols_place self.new + 65537 * symbols_steps self.old ≤ symbols_place self.old + 65537 * symbols_steps self.new) }
        ensures few_to_fault { IfErr result (λ _. 4 * symbols_steps self.new + symbols_place self.old ≤ 4 * symbols_steps self.old + symbols_place self.new + 4) }
        ensures behind { IfOk result (λ o. IfSome o (λ s. symbols_place self.new ≡ (symbol_of s).index + 2 + length (symbol_of s).bytes)) }
        ensures small { length (symbols_bytes self.new) < 2 ^ 32 }
        ensures ends { IfOk result (λ o. IfNone o (SymbolsEnded self.new)) }
        ensures ends_at_fault { IfErr result (λ _. SymbolsEnded self.new) }
        ensures refused { IfErr result (λ e. (e ≢ OutOfMemory) × (e ≢ IoError)) }
    {
        while !self.buffer.is_empty() {
            self.steps.tick();
            match read_record(&mut self.buffer) {
                Ok(Some(symbol)) => return Ok(Some(symbol)),
                Ok(None) => {}
                Err(error) => {
                    self.buffer.seek(usize::MAX);
                    return Err(error);
                }
            }
        }
        Ok(None)
    }
}

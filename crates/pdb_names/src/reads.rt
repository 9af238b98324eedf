//! A count of the bytes that were read, which contracts alone see.

ghost use Rattle.std.specs.Prelude.{◌≡◌, ◌≤◌, ℕ, ◌+◌, ◌-◌, drop, length};
ghost use Rattle.std.specs.Borrow.{ftrue};
ghost use Rattle.pdb_names.specs.Reads.{Passed};

use std::marker::Model;

/// How many bytes of a name were read. Contracts alone see the number: it takes no bytes in a running program, and
/// only `pass` raises it.
#[derive(Drop)]
pub(crate) struct Reads {
    pub ghost count: { ℕ },
}

impl Model for Reads {
    ghost also_owns = { λ _. ftrue };
}

impl Reads {
    /// No byte so far.
    pub(crate) fn new() -> Reads
        ensures { result.count ≡ 0 }
    {
        Reads {}
    }

    /// Counts the bytes that were passed over, by what was left before and what is left behind them.
    pub(crate) fn pass(&mut self, _before: &[u8], _behind: &[u8])
        ensures { self.new.count ≡ self.old.count + (length _before.now - length _behind.now) }
    {}

    /// The bytes behind so many, which are counted.
    pub(crate) fn past<'d>(&mut self, bytes: &'d [u8], count: usize) -> &'d [u8]
        requires { count ≤ length bytes.now }
        ensures said { result.now ≡ drop count bytes.now }
        ensures counted { Passed self.old.count self.new.count bytes.now result.now }
    {
        let rest = &bytes[count..];
        self.pass(bytes, rest);
        rest
    }
}

//! A count of failures that contracts alone see.

ghost use Rattle.std.specs.Prelude.{◌≡◌, ℕ, ◌+◌};
ghost use Rattle.std.specs.Borrow.{ftrue};

use std::marker::Model;

/// How many writes failed. Contracts alone see the number: it takes no bytes in a running program, and only `add`
/// raises it.
#[derive(Drop)]
pub struct Failures {
    pub ghost count: { ℕ },
}

impl Model for Failures {
    ghost also_owns = { λ _. ftrue };
}

impl Failures {
    /// No failure so far.
    pub(crate) fn new() -> Failures
        ensures { result.count ≡ 0 }
    {
        Failures {}
    }

    /// One more failure.
    pub(crate) fn add(&mut self)
        ensures { self.new.count ≡ self.old.count + 1 }
    {
        *self = self.after();
    }

    // The count after one more failure.
    fn after(&self) -> Failures
        ensures { result.count ≡ self.now.count + 1 }
    {
        Failures {}
    }
}

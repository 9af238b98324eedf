//! A count of steps that contracts alone see.

ghost use Rattle.std.specs.Prelude.{◌≡◌, ℕ, ◌+◌};
ghost use Rattle.std.specs.Borrow.{ftrue};

use std::alloc::AllocError;
use std::marker::Model;

/// How many steps an iterator took since its start. Contracts alone see the number: it takes no bytes in a running
/// program, and only `tick` raises it.
#[derive(Drop)]
pub struct Steps {
    pub ghost count: { ℕ },
}

impl Model for Steps {
    ghost also_owns = { λ _. ftrue };
}

impl Steps {
    /// No step so far.
    pub fn new() -> Steps
        ensures { result.count ≡ 0 }
    {
        Steps {}
    }

    /// One more step.
    pub fn tick(&mut self)
        ensures { self.new.count ≡ self.old.count + 1 }
    {
        *self = self.after();
    }

    // The same count once more.
    fn again(&self) -> Steps
        ensures { result.count ≡ self.now.count }
    {
        Steps {}
    }

    // The count after one more step.
    fn after(&self) -> Steps
        ensures { result.count ≡ self.now.count + 1 }
    {
        Steps {}
    }
}

impl Clone for Steps {
    ghost use Rattle.std.specs.Prelude.{◌≡◌, ⊤};

    ghost is_clone = { λ x y. y.count ≡ x.count };

    ghost is_infallible = { λ _. ⊤ };

    fn clone(&self) -> Result<Steps, AllocError> {
        Ok(self.again())
    }
}

impl Default for Steps {
    ghost is_default = { λ x. x.count ≡ 0 };

    fn default() -> Steps {
        Steps::new()
    }
}

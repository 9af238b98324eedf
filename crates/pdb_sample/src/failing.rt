//! A source that fails, for tests.

ghost use Rattle.std.specs.Prelude.{◌≡◌, ℕ, ◌+◌, ◌-◌, ◌^◌, ◌<◌, ◌≤◌, ◌&&◌, min, nat_lt, is_none, false, None, Some};
ghost use Rattle.pdb_base.specs.Source.{State};
ghost use Rattle.pdb_sample.specs.Failing.{Failing, state_of};

use pdb_base::{Error, Meaning, Result, Source, SourceSlice, View};
use std::alloc::Global;
use std::marker::Model;

/// A source that fails once, at a view chosen before, or always.
#[derive(Drop)]
pub struct FailingSource<S: Meaning> {
    source: S,
    left: Option<u64>,
    own: u64,
}

impl<S: Meaning> Model for FailingSource<S> {
    ghost use Rattle.pdb_sample.specs.Failing.{Failing};

    ghost Value = { Failing S };

    ghost view = { λ s. record { source = s.source; left = s.left; own = s.own } };
}

impl<S: Meaning> FailingSource<S> {
    /// The source of which the view of number `k`, counted from 0, fails where it lies inside the file.
    pub fn new(source: S, k: u64) -> Self
        ensures { result ≡ record { source = source; left = Some k; own = 0 } }
    {
        FailingSource {
            source,
            left: Some(k),
            own: 0,
        }
    }

    /// The source whose count of failures stands at its greatest value, so that every view inside the file fails.
    pub fn spent(source: S) -> Self
        ensures { result ≡ record { source = source; left = None; own = 2 ^ 64 - 1 } }
    {
        FailingSource {
            source,
            left: None,
            own: u64::MAX,
        }
    }
}

impl<S: Meaning> Meaning for FailingSource<S> {
    ghost state = { λ s. state_of S.state s };
}

impl<'s, S: Source<'s>> Source<'s> for FailingSource<S> {
    fn view(&mut self, alloc: Global, slices: &[SourceSlice]) -> Result<View<'s>> {
        let spent = self.failures() == u64::MAX;
        let fails = self.left == Some(0);
        self.left = match self.left {
            Some(k) => k.checked_sub(1),
            None => None,
        };
        let view = self.source.view(alloc, slices);
        if let Err(Error::UnexpectedEof) = view {
            return view;
        }
        if spent || fails {
            self.own = self.own.saturating_add(1);
            return Err(Error::IoError);
        }
        view
    }

    fn failures(&self) -> u64 {
        self.own.saturating_add(self.source.failures())
    }

    fn steady(&self) -> bool {
        self.left.is_none() && self.failures() < u64::MAX && self.source.steady()
    }
}

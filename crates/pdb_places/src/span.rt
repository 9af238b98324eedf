//! Numbers that something has.

ghost use Rattle.std.specs.Prelude.{◌≤◌};

/// Numbers from one up to another, and what stands for them.
#[derive(Clone, Copy)]
pub(crate) struct Span {
    pub start: u64,
    pub end: u64,
    pub owner: u32,
    ghost rises: { start ≤ end },
}

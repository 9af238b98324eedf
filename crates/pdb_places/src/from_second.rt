//! A table that is made at the second question.

ghost use Rattle.std.specs.Prelude.{◌≡◌};
ghost use Rattle.std.specs.Option.{option_map};
ghost use Rattle.pdb_places.specs.FromSecond.{behind_question, is_wanted, made_of};
ghost use Rattle.pdb_places.specs.declared.from_second.FromSecond.TheVariants.{Made, Unasked};

/// A table that is made at the second question, since one pass over a list is as fast for the first one.
#[derive(Drop)]
pub(crate) enum FromSecond<T> {
    /// There was no question.
    Unasked,
    /// There was one, or the table couldn't be made.
    Asked,
    /// The table.
    Made(T),
}

impl<T: Drop> FromSecond<T> {
    /// There was no question.
    pub(crate) fn new() -> Self
        ensures { result ≡ Unasked }
    {
        FromSecond::Unasked
    }

    /// Notes a question. Returns whether the table has to be made for it.
    pub(crate) fn ask(&mut self) -> bool
        ensures wanted { result ≡ is_wanted self.old }
        ensures asked { self.new ≡ behind_question self.old }
    {
        match self {
            FromSecond::Unasked => {
                *self = FromSecond::Asked;
                false
            }
            FromSecond::Asked => true,
            FromSecond::Made(_) => false,
        }
    }

    /// Keeps the table.
    pub(crate) fn keep(&mut self, table: T)
        ensures { self.new ≡ Made table }
    {
        *self = FromSecond::Made(table);
    }

    /// The table, where it was made.
    pub(crate) fn made(&self) -> Option<&T>
        ensures { option_map (λ t. t.now) result ≡ made_of self.now }
    {
        match self {
            FromSecond::Made(table) => Some(table),
            _ => None,
        }
    }
}

//! Names that stand one behind another in a record, and are borrowed.

ghost use Rattle.std.specs.Prelude.{◌≡◌, ◌<◌, ◌^◌, length, nat_eq};
ghost use Rattle.std.specs.Cmp.Lexicographic.{pointwise};
ghost use Rattle.pdb_base.specs.Refusal.{Answers};
ghost use Rattle.pdb_records.specs.RecordParts.{names_at, names_counted, names_passed, counted_names_at};
ghost use Rattle.pdb_records.specs.RecordViews.{TakesName, strings_in, strings_left};

use crate::fields::parse_rest;
use pdb_base::{FallibleIterator, ParseBuffer, RawString, Result};

/// Names, each before a zero byte, as the record's bytes from the first one on, and their number.
#[derive(Clone, Copy, Debug)]
pub struct Strings<'t> {
    bytes: &'t [u8],
    count: usize,
}

/// Two lists are equal where they have the same names.
impl PartialEq for Strings<'_> {
    ghost use Rattle.std.specs.Prelude.{nat_eq};
    ghost use Rattle.std.specs.Cmp.{on_per, partial_equiv_from_equiv};
    ghost use Rattle.std.specs.Cmp.Lexicographic.{lists_equiv, nat_list_eq_equiv, pointwise};
    ghost use Rattle.pdb_records.specs.RecordViews.{strings_in};

    ghost eq = { λ a b. pointwise (pointwise nat_eq) (strings_in a) (strings_in b) };

    ghost laws = { on_per strings_in (partial_equiv_from_equiv (lists_equiv nat_list_eq_equiv)) };

    fn eq(&self, other: &Self) -> bool {
        same_names(self.iter(), other.iter())
    }
}

impl Eq for Strings<'_> {
    ghost use Rattle.std.specs.Cmp.{on_equiv};
    ghost use Rattle.std.specs.Cmp.Lexicographic.{lists_equiv, nat_list_eq_equiv};
    ghost use Rattle.pdb_records.specs.RecordViews.{strings_in};

    ghost laws = { on_equiv strings_in (lists_equiv nat_list_eq_equiv) };
}

impl<'t> Strings<'t> {
    ghost use Rattle.std.specs.Prelude.{None};

    /// The names, in order.
    pub fn iter(&self) -> StringsIter<'t>
        ensures { strings_left result ≡ record { items = strings_in self.now; fault = None } }
    {
        StringsIter {
            buffer: ParseBuffer::from(self.bytes),
            count: self.count,
        }
    }
}

/// The names of a list, in order. This list has no error.
#[derive(Drop)]
pub struct StringsIter<'t> {
    buffer: ParseBuffer<'t>,
    count: usize,
}

impl<'t> FallibleIterator for StringsIter<'t> {
    ghost use Rattle.std.specs.Prelude.{◌≢◌, IfErr, ℕ, List, IsOk};
    ghost use Rattle.pdb_base.specs.Left.{Yields};
    ghost use Rattle.pdb_base.specs.declared.error.Error.TheVariants.{IoError, OutOfMemory};
    ghost use Rattle.pdb_base.specs.Text.{name_bytes};
    ghost use Rattle.pdb_records.specs.RecordViews.{strings_left};

    type Item = RawString<'t>;

    ghost Shown = { List ℕ };

    ghost shown = { name_bytes };

    ghost left = { strings_left };

    #[tactic(auto, using(crate::proofs::NameLoops::no_more_names))]
    fn next(&mut self) -> Result<Option<RawString<'t>>>
        ensures yields { Yields name_bytes (strings_left self.old) result (strings_left self.new) }
        ensures few { length (strings_left self.old).items < 2 ^ 64 }
        ensures refused { IfErr result (λ e. (e ≢ OutOfMemory) × (e ≢ IoError)) }
        // The list has no error.
        ensures ok { IsOk result }
    {
        if self.count == 0 {
            return Ok(None);
        }
        match self.buffer.parse_cstring() {
            Ok(name) => {
                self.count -= 1;
                Ok(Some(name))
            }
            Err(_) => {
                self.count = 0;
                Ok(None)
            }
        }
    }
}

// The next name.
fn next_name<'t>(names: &mut StringsIter<'t>) -> Option<RawString<'t>>
    ensures { TakesName (strings_left names.old).items result (strings_left names.new).items }
{
    match names.next() {
        Ok(name) => name,
        Err(_) => None,
    }
}

// Whether both lists have the same names left.
fn same_names(mut left: StringsIter<'_>, mut right: StringsIter<'_>) -> bool
    ensures { result ≡ pointwise (pointwise nat_eq) (strings_left left.entry).items (strings_left right.entry).items }
{
    while let Some(name) = next_name(&mut left) {
        let Some(other) = next_name(&mut right) else {
            return false;
        };
        if name.as_bytes() != other.as_bytes() {
            return false;
        }
    }
    next_name(&mut right).is_none()
}

// How many names stand up to the first empty one, which isn't counted, or to the end of the bytes.
fn count_names(bytes: &[u8]) -> Result<usize>
    ensures { Answers (λ n. n) result (names_counted bytes.now 0) }
{
    let mut buffer = ParseBuffer::from(bytes);
    let mut count = 0usize;
    while !buffer.is_empty() {
        let name = buffer.parse_cstring()?;
        if name.as_bytes().is_empty() {
            return Ok(count);
        }
        count += 1;
    }
    Ok(count)
}

// Whether so many names are there.
fn pass_names(bytes: &[u8], count: u16) -> Result<()>
    ensures { Answers (λ x. x) result (names_passed count bytes.now 0) }
{
    let mut buffer = ParseBuffer::from(bytes);
    for _ in 0..count {
        let _name = buffer.parse_cstring()?;
    }
    Ok(())
}

// The names up to the first empty one, which is none of them, or to the end of the bytes.
pub(crate) fn parse_names<'t>(buffer: &mut ParseBuffer<'t>) -> Result<Strings<'t>>
    ensures { Answers strings_in result (names_at buffer.old.bytes buffer.old.place) }
{
    let bytes = parse_rest(buffer)?;
    let count = count_names(bytes)?;
    Ok(Strings { bytes, count })
}

// A count, and so many names.
pub(crate) fn parse_counted_names<'t>(buffer: &mut ParseBuffer<'t>) -> Result<Strings<'t>>
    ensures { Answers strings_in result (counted_names_at buffer.old.bytes buffer.old.place) }
{
    let count = buffer.parse_u16()?;
    let bytes = parse_rest(buffer)?;
    pass_names(bytes, count)?;
    Ok(Strings {
        bytes,
        count: usize::from(count),
    })
}

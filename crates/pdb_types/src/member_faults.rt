//! The faults of lists of members, where many types have one list.

ghost use Rattle.std.specs.Prelude.{◌≡◌, ◌+◌, ◌*◌, ◌≤◌, All, IfOk, None, slice_get, vec_capacity, vec_len};
ghost use Rattle.pdb_base.specs.Tiling.{listing};
ghost use Rattle.pdb_items.specs.Items.{item_with};
ghost use Rattle.pdb_types.specs.MemberEnds.{chain_end, end_of, entries_read, fault_of, is_endless, list_end, unread_end};
ghost use Rattle.pdb_types.specs.MemberEndViews.{IsEndIn, place_behind};
ghost use Rattle.pdb_types.specs.MemberLists.{entries, members_of};
ghost use Rattle.pdb_types.specs.ReadListViews.{lists_read};

use crate::member_lists::{LISTS, list_bytes, some_list};
use crate::member_readers::read_entry;
use crate::read_lists::ReadLists;
use crate::rows::push_row;
use pdb_base::{Error, FallibleIterator, Steps, TypeIndex};
use pdb_items::{ItemFinder, ItemIter};
use std::alloc::{AllocError, Global};
use std::marker::Model;

// The list with which the entries of a list go on. Each entry is read once.
fn read_end(bytes: &[u8], steps: &mut Steps) -> Result<Option<u32>, Error>
    ensures reads { result ≡ end_of None (listing entries bytes.now 2) }
    ensures stepped { steps.new.count ≡ steps.old.count + entries_read (listing entries bytes.now 2) }
{
    let mut list = None;
    let mut at = 2;
    while at < bytes.len() {
        let found = read_entry(bytes, at, steps)?;
        list = found.entry.named_behind(list);
        at = found.end;
    }
    Ok(list)
}

// The list with which the list of an index goes on.
fn list_end(types: &ItemFinder<'_>, list: u32) -> Result<Option<u32>, Error>
    ensures { result ≡ list_end (item_with types.now list) }
{
    match list_bytes(types, list) {
        Some(bytes) => read_end(bytes, &mut Steps::new()),
        None => Err(Error::UnexpectedEof),
    }
}

// How the list of an index ends; an item that is no list of members ends as one that isn't there.
#[derive(Clone, Copy)]
struct ListEnd {
    index: u32,
    end: Result<Option<u32>, Error>,
}

/// How lists of members end that go on in one another (`LF_INDEX`).
#[derive(Clone, Copy, Debug, PartialEq, Eq)]
pub enum ChainEnd {
    /// All are read, or as many as may be.
    Whole,
    /// They continue in themselves: one names a list that was read before.
    Endless,
    /// One can't be read.
    Refused(Error),
}

// How lists end behind as many as may be read, by the list that would be next.
fn unread_end(read: &ReadLists, left: Option<u32>) -> ChainEnd
    ensures { result ≡ unread_end (lists_read read.now) left }
{
    match left {
        Some(index) if read.has(index) => ChainEnd::Endless,
        _ => ChainEnd::Whole,
    }
}

/// The faults of the lists of members of a file's types. Each list is read once, when this is made, so that it doesn't
/// matter how many types have it. A contract sees the types.
#[derive(Drop)]
pub struct MemberFaults<'x, 't> {
    types: &'x ItemFinder<'t>,
    // By the items that were passed, in their order.
    ends: Vec<ListEnd>,
}

impl<'x, 't> Model for MemberFaults<'x, 't> {
    ghost use Rattle.std.specs.Prelude.{◌≤◌, ◌*◌, List, All, vec_capacity, vec_len};
    ghost use Rattle.pdb_items.specs.Items.{ItemEntry};
    ghost use Rattle.pdb_types.specs.MemberEndViews.{IsEndIn};

    ghost Value = { List ItemEntry };

    ghost view = { λ f. f.types.now };

    // At most half of the capacity is unused.
    ghost invariant = { λ f. All (IsEndIn f.types.now) f.ends.items × (vec_capacity f.ends ≤ 2 * vec_len f.ends) };
}

// How the lists among items end.
fn ends_of(
    alloc: Global,
    types: &ItemFinder<'_>,
    mut items: ItemIter<'_>,
) -> Result<Vec<ListEnd>, AllocError>
    ensures ends { IfOk result (λ ends. All (IsEndIn types.now) ends.items) }
    ensures room { IfOk result (λ ends. vec_capacity ends ≤ 2 * vec_len ends) }
{
    let mut ends = Vec::new(alloc);
    while let Ok(Some(item)) = items.next() {
        let index = item.index();
        let end = list_end(types, index);
        push_row(&mut ends, ListEnd { index, end })?;
    }
    Ok(ends)
}

// Where the end of the list of an index stands, if the ends have consecutive indices.
fn position(ends: &[ListEnd], list: u32) -> usize
    ensures { result ≡ place_behind (slice_get ends.now 0) list }
{
    match ends.first() {
        Some(first) => list.wrapping_sub(first.index) as usize,
        None => 0,
    }
}

impl<'x, 't> MemberFaults<'x, 't> {
    /// Those of a file's types, which are passed twice: as they are found, and one after another. Memory may run out
    /// for the table of the lists' ends.
    pub fn of_types(
        alloc: Global,
        types: &'x ItemFinder<'t>,
        items: ItemIter<'t>,
    ) -> Result<Self, AllocError>
        ensures { IfOk result (λ faults. faults ≡ types.entry.now) }
    {
        let ends = ends_of(alloc, types, items)?;
        Ok(MemberFaults { types, ends })
    }

    // How the list of an index ends.
    fn end(&self, list: u32) -> Result<Option<u32>, Error>
        ensures { result ≡ list_end (item_with self.now list) }
    {
        if let Some(known) = self.ends.as_slice().get(position(&self.ends, list)) {
            if known.index == list {
                return known.end;
            }
        }
        list_end(self.types, list)
    }

    // How the lists end that go on from the list of an index, 0 for none.
    fn chain(&self, list: u32) -> ChainEnd
        ensures { result ≡ chain_end self.now list }
    {
        let mut read = ReadLists::new();
        let mut left = some_list(list);
        for _ in 0..LISTS {
            let Some(index) = left else {
                return ChainEnd::Whole;
            };
            if read.has(index) {
                return ChainEnd::Endless;
            }
            read.add(index);
            match self.end(index) {
                Ok(next) => left = next,
                Err(error) => return ChainEnd::Refused(error),
            }
        }
        unread_end(&read, left)
    }

    /// How the lists of members end that go on from the list of this index, as `Tag::fields` has it: 0 for none. That
    /// they continue in themselves is no error of `MemberIter`.
    #[tactic(auto, using(crate::proofs::MemberFaultSteps::chain_fault))]
    pub fn chain_end(&self, list: TypeIndex) -> ChainEnd
        ensures ends { result ≡ chain_end self.now list.0 }
        ensures fault { fault_of result ≡ (members_of self.now list.0).fault }
    {
        self.chain(list.0)
    }
}

//! Items found by their indices.

ghost use Rattle.std.specs.Prelude.{◌≡◌, ◌+◌, ◌*◌, ◌++◌, [], ◌∷◌, ◌^◌, ◌<◌, ◌≤◌, length, map, option_map, vec_len, vec_capacity, Ok, IfOk, IfErr, IsOk};
ghost use Rattle.pdb_base.specs.Refusal.{Gives};
ghost use Rattle.pdb_items.specs.Items.{item_with, known_items_in};
ghost use Rattle.pdb_items.specs.ItemViews.{item_of, places_of};

use crate::items::Item;
use crate::record::{read_header, record_in, record_size};
use pdb_base::{Error, Result};
use std::alloc::Global;
use std::marker::Model;

/// One more offset. The capacity doubles where it is used up: it is never more than twice what was seen.
fn push_place(places: &mut Vec<u32>, place: u32) -> Result<()>
    requires { vec_capacity places.old ≤ 2 * vec_len places.old }
    ensures pushed { IfOk result (λ _. places.new.items ≡ places.old.items ++ place ∷ []) }
    ensures room { IfOk result (λ _. vec_capacity places.new ≤ 2 * vec_len places.new) }
    ensures refused { IfErr result (λ e. e ≡ Error.OutOfMemory) }
{
    let count = places.len();
    if count == places.capacity() {
        places.reserve_exact(count.max(1))?;
    }
    // The capacity is there: nothing grows.
    places.push_reserved(place);
    Ok(())
}

/// The offsets of all records up to the first that isn't there.
fn read_places(alloc: Global, records: &[u8]) -> Result<Vec<u32>>
    requires { length records.now < 2 ^ 32 }
    ensures places { IfOk result (λ places. places.items ≡ places_of records.now) }
    ensures room { IfOk result (λ places. vec_capacity places ≤ 2 * vec_len places) }
    ensures lean { places_of records.now ≡ [] → IsOk result }
    ensures refused { IfErr result (λ e. e ≡ Error.OutOfMemory) }
{
    let mut places = Vec::new(alloc);
    let mut place = 0;
    while let Some(size) = record_size(records, place) {
        push_place(&mut places, place as u32)?;
        place += size;
    }
    Ok(places)
}

/// The items of a stream up to the first fault, found by their indices. It takes memory when it is made: at most eight
/// bytes for each item that was seen. A contract sees it as the list of the items.
#[derive(Drop)]
pub struct ItemFinder<'t> {
    first: u32,
    records: &'t [u8],
    // The offset of each item's length.
    places: Vec<u32>,
}

impl<'t> Model for ItemFinder<'t> {
    ghost use Rattle.std.specs.Prelude.{◌≡◌, ◌≤◌, ◌*◌, List, vec_len, vec_capacity};
    ghost use Rattle.pdb_items.specs.Items.{ItemEntry, items_from};
    ghost use Rattle.pdb_items.specs.ItemViews.{places_of};

    ghost Value = { List ItemEntry };

    ghost view = { λ f. (items_from f.first f.records.now 0).items };

    // Each offset is kept, and at most half of the capacity is unused.
    ghost invariant = { λ f. (f.places.items ≡ places_of f.records.now) × (vec_capacity f.places ≤ 2 * vec_len f.places) };
}

impl<'t> ItemFinder<'t> {
    /// The items of a stream of types or ids, before the first fault. `UnexpectedEof` as `ItemIter::new` has it;
    /// `OutOfMemory` where there is no memory for the table of offsets. Without items it takes no memory.
    #[tactic(auto, unfolding(crate::specs::Items::items_in, crate::specs::Items::known_items_in))]
    pub fn new(alloc: Global, stream: &'t [u8]) -> Result<Self>
        requires { length stream.now < 2 ^ 32 }
        ensures items { Gives (λ f. f) ⊥ result (known_items_in stream.now) }
        ensures lean { known_items_in stream.now ≡ Ok [] → IsOk result }
    {
        let (first, records) = read_header(stream)?;
        let places = read_places(alloc, records)?;
        Ok(ItemFinder {
            first,
            records,
            places,
        })
    }

    /// No items: what stands for a stream that can't be read, or isn't there. It takes no memory.
    #[tactic(auto, using(crate::proofs::ItemPlaces::no_places, crate::proofs::ItemLists::no_items_left))]
    pub fn empty(alloc: Global) -> Self
        ensures { result ≡ [] }
    {
        ItemFinder {
            first: 0,
            records: &[],
            places: Vec::new(alloc),
        }
    }

    /// The item of an index; none where the stream has no such item before its first fault.
    pub fn find(&self, index: u32) -> Option<Item<'t>>
        ensures { option_map item_of result ≡ item_with self.now index }
    {
        if index < self.first {
            return None;
        }
        let number = (index - self.first) as usize;
        let places = self.places.as_slice();
        if number >= places.len() {
            return None;
        }
        let bytes = record_in(self.records, places[number] as usize);
        Some(Item::of(index, bytes))
    }
}

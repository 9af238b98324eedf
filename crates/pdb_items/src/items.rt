//! Lists of items.

ghost use Rattle.std.specs.Prelude.{◌≡◌, ◌+◌, ◌^◌, ◌<◌, ◌≤◌, length, ⊤};
ghost use Rattle.pdb_base.specs.Fields.{number};

use crate::record::{read_header, read_record};
use pdb_base::little_endian::u16_at;
use pdb_base::{FallibleIterator, ParseBuffer, Result, Steps};
use std::alloc::AllocError;

/// A record of a type or of an id: its index, and its bytes, the first two of which are its kind.
#[derive(Clone, Copy, Debug, PartialEq)]
pub struct Item<'t> {
    index: u32,
    bytes: &'t [u8],
    ghost has_kind: { 2 ≤ length bytes.now },
}

impl<'t> Item<'t> {
    ghost use Rattle.pdb_items.specs.ItemViews.{item_of};

    // The item of at least two bytes.
    pub(crate) fn of(index: u32, bytes: &'t [u8]) -> Self
        requires { 2 ≤ length bytes.now }
        ensures { item_of result ≡ record { index = index; bytes = bytes.entry.now } }
    {
        Item { index, bytes }
    }

    /// The item's index.
    pub fn index(&self) -> u32
        ensures { result ≡ (item_of self.now).index }
    {
        self.index
    }

    /// The item's kind: the number in its first two bytes.
    pub fn raw_kind(&self) -> u16
        ensures { result ≡ number (item_of self.now).bytes 0 2 }
    {
        u16_at(self.bytes, 0)
    }

    /// The item's bytes, its kind among them, without its length.
    pub fn raw_bytes(&self) -> &'t [u8]
        ensures bytes { result.now ≡ (item_of self.now).bytes }
        ensures kind { 2 ≤ length result.now }
    {
        self.bytes
    }
}

/// One more than the greatest index.
const INDEX_LIMIT: u64 = 0x1_0000_0000;

/// The items of a stream, in their order. A record is a length of two bytes, which is at least 2, and then that many
/// bytes; the first has the index that the header gives, and each other one the next. Where a record isn't there it is
/// `UnexpectedEof`, and then the list has ended; it ends also behind the index 4294967295.
#[derive(Drop)]
pub struct ItemIter<'t> {
    buffer: ParseBuffer<'t>,
    next_index: u64,
    steps: Steps,
    ghost small: { length buffer.bytes < 2 ^ 32 },
    ghost inside: { buffer.place ≤ length buffer.bytes },
    ghost indices: { next_index ≤ 2 ^ 32 },
    ghost going: { buffer.place < length buffer.bytes → steps.count ≤ buffer.place },
    ghost counted: { steps.count ≤ buffer.place + 1 },
}

impl<'t> ItemIter<'t> {
    ghost use Rattle.std.specs.Prelude.{IfOk, Ok};
    ghost use Rattle.pdb_base.specs.Refusal.{Answers};
    ghost use Rattle.pdb_items.specs.Items.{item_records_of, items_in};
    ghost use Rattle.pdb_items.specs.ItemViews.{items_left, items_bytes, items_steps};

    /// The items of a stream of types or ids: none of a stream of 0 bytes. `UnexpectedEof` where another stream has no
    /// whole header of 56 bytes, or not all bytes of its records.
    #[tactic(auto, unfolding(crate::specs::Items::items_in))]
    pub fn new(stream: &'t [u8]) -> Result<Self>
        requires { length stream.now < 2 ^ 32 }
        ensures left { Answers items_left result (items_in stream.entry.now) }
        ensures bytes { IfOk result (λ it. item_records_of stream.entry.now ≡ Ok (items_bytes it)) }
        ensures steps { IfOk result (λ it. items_steps it ≡ 0) }
    {
        let (first, records) = read_header(stream)?;
        Ok(ItemIter {
            buffer: ParseBuffer::from(records),
            next_index: u64::from(first),
            steps: Steps::new(),
        })
    }
}

impl<'t> FallibleIterator for ItemIter<'t> {
    ghost use Rattle.std.specs.Prelude.{◌≢◌, IfOk, IfErr, IfSome};
    ghost use Rattle.pdb_base.specs.declared.error.Error.TheVariants.{IoError, OutOfMemory};
    ghost use Rattle.std.specs.Option.{IfNone};
    ghost use Rattle.pdb_base.specs.Left.{Yields};
    ghost use Rattle.pdb_items.specs.Items.{ItemEntry};
    ghost use Rattle.pdb_items.specs.ItemViews.{item_of, items_left, items_bytes, items_steps};

    type Item = Item<'t>;

    ghost Shown = { ItemEntry };

    ghost shown = { item_of };

    ghost left = { items_left };

    #[tactic(auto, using(crate::proofs::ItemLists::few_items))]
    fn next(&mut self) -> Result<Option<Item<'t>>>
        ensures yields { Yields item_of (items_left self.old) result (items_left self.new) }
        ensures few { length (items_left self.old).items < 2 ^ 64 }
        ensures bytes { items_bytes self.new ≡ items_bytes self.old }
        ensures small { length (items_bytes self.new) < 2 ^ 32 }
        ensures bound { items_steps self.new ≤ length (items_bytes self.new) + 1 }
        ensures stepped { IfOk result (λ o. IfSome o (λ _. items_steps self.new ≡ items_steps self.old + 1)) }
        ensures rests { IfOk result (λ o. IfNone o (items_steps self.new ≡ items_steps self.old)) }
        ensures stepped_to_fault { IfErr result (λ _. items_steps self.new ≡ items_steps self.old + 1) }
        ensures refused { IfErr result (λ e. (e ≢ OutOfMemory) × (e ≢ IoError)) }
    {
        if self.buffer.is_empty() {
            return Ok(None);
        }
        if self.next_index >= INDEX_LIMIT {
            return Ok(None);
        }
        self.steps.tick();
        match read_record(&mut self.buffer) {
            Ok(bytes) => {
                let index = self.next_index as u32;
                self.next_index += 1;
                Ok(Some(Item::of(index, bytes)))
            }
            Err(error) => {
                self.buffer.seek(usize::MAX);
                Err(error)
            }
        }
    }
}

/// The same items, and the same steps so far.
impl Clone for ItemIter<'_> {
    ghost use Rattle.pdb_items.specs.ItemViews.{items_left, items_bytes, items_steps};

    ghost is_clone = { λ a b. (items_left b ≡ items_left a) × (items_bytes b ≡ items_bytes a) × (items_steps b ≡ items_steps a) };

    ghost is_infallible = { λ _. ⊤ };

    fn clone(&self) -> std::result::Result<Self, AllocError> {
        Ok(ItemIter {
            buffer: self.buffer.clone()?,
            next_index: self.next_index,
            steps: self.steps.clone()?,
        })
    }
}

/// No items.
impl Default for ItemIter<'_> {
    ghost use Rattle.std.specs.Prelude.{[]};
    ghost use Rattle.pdb_base.specs.Left.{ended};
    ghost use Rattle.pdb_items.specs.ItemViews.{items_left, items_bytes, items_steps};

    ghost is_default = { λ it. (items_left it ≡ ended) × (items_bytes it ≡ []) × (items_steps it ≡ 0) };

    #[tactic(auto, using(crate::proofs::ItemLists::nothing_left))]
    fn default() -> Self {
        ItemIter {
            buffer: ParseBuffer::default(),
            next_index: 0,
            steps: Steps::new(),
        }
    }
}

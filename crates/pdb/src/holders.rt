//! Streams and tables that are handed on: what `PDB`'s accessors give.

ghost use Rattle.std.specs.Prelude.{◌≡◌};
ghost use Rattle.std.specs.Option.{option_map};

use pdb_base::{ImageSectionHeader, Result, Stream};
use pdb_items::{ItemFinder, ItemIter};
use pdb_types::TypeDefinitions;
use std::alloc::Global;
use std::marker::Model;

/// The stream of type records, stream 2 (TPI). A contract sees it as the list of its bytes.
#[derive(Drop)]
pub struct TypeInformation<'s> {
    types: Stream<'s>,
}

impl<'s> Model for TypeInformation<'s> {
    ghost use Rattle.std.specs.Prelude.{ℕ, List};

    ghost Value = { List ℕ };

    ghost view = { λ t. t.types };
}

impl<'s> TypeInformation<'s> {
    ghost use Rattle.std.specs.Prelude.{IfOk, Ok};
    ghost use Rattle.pdb_base.specs.Refusal.{Answers, Gives};
    ghost use Rattle.pdb_items.specs.Items.{item_records_of, items_in, known_items_in};
    ghost use Rattle.pdb_items.specs.ItemViews.{items_left, items_bytes, items_steps};
    ghost use Rattle.pdb_types.specs.FullTypes.{first_definition};
    ghost use Rattle.pdb.specs.Definitions.{definitions_in};

    pub(crate) fn new(types: Stream<'s>) -> Self
        ensures { result ≡ types.entry }
    {
        TypeInformation { types }
    }

    /// The stream.
    pub fn stream(&self) -> &Stream<'s>
        ensures { result.now ≡ self.now }
    {
        &self.types
    }

    /// The types, in the order of their indices. `UnexpectedEof` where the stream's header of 56 bytes isn't there, or
    /// the bytes of the records by its size.
    pub fn iter(&self) -> Result<ItemIter<'_>>
        ensures left { Answers items_left result (items_in self.now) }
        ensures bytes { IfOk result (λ it. item_records_of self.now ≡ Ok (items_bytes it)) }
        ensures steps { IfOk result (λ it. items_steps it ≡ 0) }
    {
        ItemIter::new(self.types.as_slice())
    }

    /// The full definitions among the types up to the first fault, which sizes and names of types are found by. It
    /// fails as `iter` does, and takes memory for a row of each definition.
    #[tactic(auto, unfolding(crate::specs::Definitions::definitions_in, pdb_items::specs::Items::known_items_in))]
    pub fn definitions(&self, alloc: Global) -> Result<TypeDefinitions<'_>>
        ensures { Gives first_definition ⊥ result (definitions_in self.now) }
    {
        Ok(TypeDefinitions::new(alloc, self.iter()?)?)
    }

    /// The types up to the first fault, found by their indices. It fails as `iter` does, and takes four bytes of
    /// memory for each item that was seen.
    pub fn finder(&self, alloc: Global) -> Result<ItemFinder<'_>>
        ensures { Gives (λ f. f) ⊥ result (known_items_in self.now) }
    {
        ItemFinder::new(alloc, self.types.as_slice())
    }
}

/// The stream of id records, stream 4 (IPI). A contract sees it as the list of its bytes.
#[derive(Drop)]
pub struct IdInformation<'s> {
    ids: Stream<'s>,
}

impl<'s> Model for IdInformation<'s> {
    ghost use Rattle.std.specs.Prelude.{ℕ, List};

    ghost Value = { List ℕ };

    ghost view = { λ i. i.ids };
}

impl<'s> IdInformation<'s> {
    ghost use Rattle.std.specs.Prelude.{IfOk, Ok};
    ghost use Rattle.pdb_base.specs.Refusal.{Answers, Gives};
    ghost use Rattle.pdb_items.specs.Items.{item_records_of, items_in, known_items_in};
    ghost use Rattle.pdb_items.specs.ItemViews.{items_left, items_bytes, items_steps};

    pub(crate) fn new(ids: Stream<'s>) -> Self
        ensures { result ≡ ids.entry }
    {
        IdInformation { ids }
    }

    /// The stream.
    pub fn stream(&self) -> &Stream<'s>
        ensures { result.now ≡ self.now }
    {
        &self.ids
    }

    /// The ids, in the order of their indices. `UnexpectedEof` where the stream's header of 56 bytes isn't there, or
    /// the bytes of the records by its size.
    pub fn iter(&self) -> Result<ItemIter<'_>>
        ensures left { Answers items_left result (items_in self.now) }
        ensures bytes { IfOk result (λ it. item_records_of self.now ≡ Ok (items_bytes it)) }
        ensures steps { IfOk result (λ it. items_steps it ≡ 0) }
    {
        ItemIter::new(self.ids.as_slice())
    }

    /// The ids up to the first fault, found by their indices. It fails as `iter` does, and takes four bytes of
    /// memory for each item that was seen.
    pub fn finder(&self, alloc: Global) -> Result<ItemFinder<'_>>
        ensures { Gives (λ f. f) ⊥ result (known_items_in self.now) }
    {
        ItemFinder::new(alloc, self.ids.as_slice())
    }
}

/// A table from one kind of address to another (OMAP), unparsed. A contract sees it as the list of its bytes.
#[derive(Drop)]
pub struct OMAPTable<'s> {
    stream: Stream<'s>,
}

impl<'s> Model for OMAPTable<'s> {
    ghost use Rattle.std.specs.Prelude.{ℕ, List};

    ghost Value = { List ℕ };

    ghost view = { λ t. t.stream };
}

impl<'s> OMAPTable<'s> {
    pub(crate) fn new(stream: Stream<'s>) -> Self
        ensures { result ≡ stream.entry }
    {
        OMAPTable { stream }
    }

    /// The stream.
    pub fn stream(&self) -> &Stream<'s>
        ensures { result.now ≡ self.now }
    {
        &self.stream
    }
}

/// The streams of frame data: `dbi.h`'s `FPO_DATA` and `FRAMEDATA`, unparsed.
#[derive(Drop)]
pub struct FrameTable<'s> {
    old_stream: Option<Stream<'s>>,
    new_stream: Option<Stream<'s>>,
}

impl<'s> Model for FrameTable<'s> {
    ghost use Rattle.pdb.specs.Tables.{Frames};

    ghost Value = { Frames };

    ghost view = { λ t. record { old_stream = t.old_stream; new_stream = t.new_stream } };
}

impl<'s> FrameTable<'s> {
    pub(crate) fn new(old_stream: Option<Stream<'s>>, new_stream: Option<Stream<'s>>) -> Self
        ensures { result ≡ record { old_stream = old_stream.entry; new_stream = new_stream.entry } }
    {
        FrameTable {
            old_stream,
            new_stream,
        }
    }

    /// The stream of `FPO_DATA` records, where the file has one.
    pub fn old_stream(&self) -> Option<&Stream<'s>>
        ensures { option_map (λ s. s.now) result ≡ self.now.old_stream }
    {
        self.old_stream.as_ref()
    }

    /// The stream of `FRAMEDATA` records, where the file has one.
    pub fn new_stream(&self) -> Option<&Stream<'s>>
        ensures { option_map (λ s. s.now) result ≡ self.now.new_stream }
    {
        self.new_stream.as_ref()
    }
}

/// How addresses of an image that was rearranged are those of the image before: the section headers of both, and the
/// tables between their addresses. Where the image wasn't rearranged its section headers stand as the original ones,
/// and there is nothing else.
pub struct AddressMap<'s> {
    original_sections: Vec<ImageSectionHeader>,
    transformed_sections: Option<Vec<ImageSectionHeader>>,
    omap_from_src: Option<OMAPTable<'s>>,
    omap_to_src: Option<OMAPTable<'s>>,
}

// By hand, as that of `PDB`.
impl Drop for AddressMap<'_> {
    fn drop(self) {
        let AddressMap {
            original_sections: _,
            transformed_sections: _,
            omap_from_src: _,
            omap_to_src: _,
        } = self;
    }
}

impl<'s> Model for AddressMap<'s> {
    ghost use Rattle.std.specs.Option.{option_map};
    ghost use Rattle.pdb.specs.Tables.{Addresses};

    ghost Value = { Addresses };

    ghost view = { λ m. record {
      original_sections = m.original_sections.items;
      transformed_sections = option_map (λ v. v.items) m.transformed_sections;
      omap_from_src = m.omap_from_src;
      omap_to_src = m.omap_to_src;
    } };
}

impl<'s> AddressMap<'s> {
    ghost use Rattle.std.specs.Prelude.{Some};
    ghost use Rattle.pdb.specs.Tables.{as_original};

    // The map of an image that wasn't rearranged.
    pub(crate) fn of_original(sections: Vec<ImageSectionHeader>) -> Self
        ensures { result ≡ as_original sections.items }
    {
        AddressMap {
            original_sections: sections,
            transformed_sections: None,
            omap_from_src: None,
            omap_to_src: None,
        }
    }

    // The map of an image that was rearranged.
    pub(crate) fn of_transformed(
        original: Vec<ImageSectionHeader>,
        transformed: Vec<ImageSectionHeader>,
        from_src: OMAPTable<'s>,
        to_src: OMAPTable<'s>,
    ) -> Self
        ensures { result ≡ record { original_sections = original.items; transformed_sections = Some transformed.items; omap_from_src = Some from_src.entry; omap_to_src = Some to_src.entry } }
    {
        AddressMap {
            original_sections: original,
            transformed_sections: Some(transformed),
            omap_from_src: Some(from_src),
            omap_to_src: Some(to_src),
        }
    }

    /// The section headers of the image before it was rearranged.
    pub fn original_sections(&self) -> &[ImageSectionHeader]
        ensures { result.now ≡ self.now.original_sections }
    {
        &self.original_sections
    }

    /// The section headers of the image as it is, where it was rearranged.
    pub fn transformed_sections(&self) -> Option<&[ImageSectionHeader]>
        ensures { option_map (λ s. s.now) result ≡ self.now.transformed_sections }
    {
        match &self.transformed_sections {
            Some(sections) => Some(sections.as_slice()),
            None => None,
        }
    }

    /// The table from addresses before to those of the image as it is.
    pub fn omap_from_src(&self) -> Option<&OMAPTable<'s>>
        ensures { option_map (λ t. t.now) result ≡ self.now.omap_from_src }
    {
        self.omap_from_src.as_ref()
    }

    /// The table from addresses of the image as it is to those before.
    pub fn omap_to_src(&self) -> Option<&OMAPTable<'s>>
        ensures { option_map (λ t. t.now) result ≡ self.now.omap_to_src }
    {
        self.omap_to_src.as_ref()
    }
}

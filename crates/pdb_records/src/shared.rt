//! Variables that threads of accelerators share: the structs, and how they are read.

ghost use Rattle.std.specs.Prelude.{◌≡◌, ◌==◌, ◌<◌, ◌≤◌, ◌+◌, ◌^◌, length};
ghost use Rattle.pdb_base.specs.Layouts.{ReadsPart};
ghost use Rattle.pdb_base.specs.Refusal.{Answers};
ghost use Rattle.pdb_records.specs.RecordLists.{tag_at};
ghost use Rattle.pdb_records.specs.RecordParts.{shared_head};
ghost use Rattle.pdb_records.specs.RecordTable.{read_of_record};
ghost use Rattle.pdb_records.specs.RecordViews.{shown_record};
ghost use Rattle.pdb_records.specs.declared.form.RecordForm.TheVariants as form;

use crate::fields::{parse_name, parse_rest};
use crate::flags::VariableFlags;
use crate::lists::whole_items;
use crate::record::Record;
use pdb_base::little_endian::u32_at;
use pdb_base::{FallibleIterator, ParseBuffer, RawString, Result, TypeIndex};

// How many bytes a pointer's tag has.
const TAG_BYTES: usize = 8;

/// A variable that a group of threads shares: `LOCALDPCGROUPSHAREDSYM` of `cvinfo.h`, in records
/// `S_LOCAL_DPC_GROUPSHARED` (0x1154).
#[derive(Clone, Copy, Debug, Eq, PartialEq)]
pub struct LocalGroupShared<'t> {
    /// The variable's type.
    pub type_index: TypeIndex,
    /// The variable's flags.
    pub flags: VariableFlags,
    /// The slot of the data.
    pub data_slot: u16,
    /// The offset in the slot, in bytes.
    pub data_offset: u16,
    /// The variable's name.
    pub name: RawString<'t>,
}

/// The variables that pointers with tags point to: `DPCSYMTAGMAP` of `cvinfo.h`, in records `S_DPC_SYM_TAG_MAP`
/// (0x1158).
#[derive(Clone, Copy, Debug, Eq, PartialEq)]
pub struct PointerTagMap<'t> {
    /// The tags.
    pub tags: PointerTags<'t>,
}

/// A tag of a pointer: `CV_DPC_SYM_TAG_MAP_ENTRY` of `cvinfo.h`.
#[derive(Clone, Copy, Debug, Eq, PartialEq)]
pub struct PointerTag {
    /// The tag's value.
    pub tag: u32,
    /// The offset of the record of the variable.
    pub record_offset: i32,
}

// A tag of eight bytes at an offset.
#[inline]
fn read_tag(bytes: &[u8], at: usize) -> PointerTag
    requires { at + 8 ≤ length bytes.now }
    ensures { result ≡ tag_at bytes.now at }
{
    PointerTag {
        tag: u32_at(bytes, at),
        record_offset: u32_at(bytes, at + 4).cast_signed(),
    }
}

/// Tags of pointers, as the record's bytes in which they stand.
#[derive(Clone, Copy, Debug)]
pub struct PointerTags<'t> {
    bytes: &'t [u8],
}

/// Two lists are equal where they have the same tags.
impl PartialEq for PointerTags<'_> {
    ghost use Rattle.std.specs.Prelude.{nat_eq};
    ghost use Rattle.std.specs.Cmp.{on_per, partial_equiv_from_equiv};
    ghost use Rattle.std.specs.Cmp.Lexicographic.{nat_list_eq_equiv, pointwise};
    ghost use Rattle.pdb_records.specs.RecordViews.{whole_tags};

    ghost eq = { λ a b. pointwise nat_eq (whole_tags a) (whole_tags b) };

    ghost laws = { on_per whole_tags (partial_equiv_from_equiv nat_list_eq_equiv) };

    fn eq(&self, other: &Self) -> bool {
        whole_items(self.bytes, TAG_BYTES) == whole_items(other.bytes, TAG_BYTES)
    }
}

impl Eq for PointerTags<'_> {
    ghost use Rattle.std.specs.Cmp.{on_equiv};
    ghost use Rattle.std.specs.Cmp.Lexicographic.{nat_list_eq_equiv};
    ghost use Rattle.pdb_records.specs.RecordViews.{whole_tags};

    ghost laws = { on_equiv whole_tags nat_list_eq_equiv };
}

impl<'t> PointerTags<'t> {
    ghost use Rattle.std.specs.Prelude.{None};
    ghost use Rattle.pdb_records.specs.RecordViews.{tag_bytes, tags_in, tags_left};

    /// The tags that stand in these bytes: as many as are whole, of eight bytes each. Up to seven bytes behind the
    /// last one mean nothing.
    pub fn new(bytes: &'t [u8]) -> Self
        ensures { tag_bytes result ≡ bytes.entry.now }
    {
        PointerTags { bytes }
    }

    /// The number of tags.
    #[tactic(auto, using(crate::proofs::ListSteps::eights_all))]
    pub fn len(&self) -> usize
        ensures { result ≡ length (tags_in self.now) }
    {
        self.bytes.len() / TAG_BYTES
    }

    /// Whether there is no tag.
    pub fn is_empty(&self) -> bool
        ensures { result ≡ (length (tags_in self.now) == 0) }
    {
        self.len() == 0
    }

    /// The tags, in order.
    pub fn iter(&self) -> PointerTagsIter<'t>
        ensures { tags_left result ≡ record { items = tags_in self.now; fault = None } }
    {
        PointerTagsIter {
            bytes: self.bytes,
            at: 0,
        }
    }
}

/// The tags of a list, in order. This list has no error.
#[derive(Clone, Copy, Drop)]
pub struct PointerTagsIter<'t> {
    bytes: &'t [u8],
    at: usize,
}

impl<'t> FallibleIterator for PointerTagsIter<'t> {
    ghost use Rattle.std.specs.Prelude.{◌≢◌, IfErr, IsOk, None};
    ghost use Rattle.pdb_records.specs.RecordViews.{tags_left};
    ghost use Rattle.pdb_base.specs.Left.{Yields};
    ghost use Rattle.pdb_base.specs.declared.error.Error.TheVariants.{IoError, OutOfMemory};
    ghost use Rattle.pdb_records.specs.declared.shared.PointerTag.{PointerTag};

    type Item = PointerTag;

    ghost Shown = { PointerTag };

    ghost shown = { λ tag. tag };

    ghost left = { tags_left };

    #[tactic(auto, using(crate::proofs::ListSteps::eights_few))]
    fn next(&mut self) -> Result<Option<PointerTag>>
        ensures yields { Yields (λ tag. tag) (tags_left self.old) result (tags_left self.new) }
        ensures few { length (tags_left self.old).items < 2 ^ 64 }
        ensures refused { IfErr result (λ e. (e ≢ OutOfMemory) × (e ≢ IoError)) }
        // The list has no error.
        ensures ok { IsOk result }
    {
        if self.at >= self.bytes.len() / TAG_BYTES {
            return Ok(None);
        }
        let tag = read_tag(self.bytes, TAG_BYTES * self.at);
        self.at += 1;
        Ok(Some(tag))
    }
}

// A type, flags, a slot, and the offset in it.
#[inline]
#[tactic(auto, unfolding(pdb_base::specs::Layouts::together_at))]
fn parse_shared_head(buffer: &mut ParseBuffer<'_>) -> Result<(TypeIndex, VariableFlags, u16, u16)>
    ensures { ReadsPart (λ x. (x.0, (x.1, (x.2, x.3)))) shared_head 0 buffer.old buffer.new result }
{
    let type_index = TypeIndex(buffer.parse_u32()?);
    let flags = VariableFlags::of(buffer.parse_u16()?);
    let data_slot = buffer.parse_u16()?;
    let data_offset = buffer.parse_u16()?;
    Ok((type_index, flags, data_slot, data_offset))
}

#[inline]
#[tactic(auto, unfolding(crate::specs::RecordTable::read_of_record))]
pub(crate) fn parse_local_group_shared<'t>(
    kind: u16,
    buffer: &mut ParseBuffer<'t>,
) -> Result<Record<'t>>
    requires { buffer.old.place ≡ 2 }
    ensures { Answers shown_record result (read_of_record form.LocalGroupShared kind buffer.old.bytes) }
{
    let (type_index, flags, data_slot, data_offset) = parse_shared_head(buffer)?;
    let name = parse_name(kind, buffer)?;
    Ok(Record::LocalGroupShared(LocalGroupShared {
        type_index,
        flags,
        data_slot,
        data_offset,
        name,
    }))
}

#[inline]
#[tactic(auto, unfolding(crate::specs::RecordTable::read_of_record))]
pub(crate) fn parse_pointer_tag_map<'t>(
    kind: u16,
    buffer: &mut ParseBuffer<'t>,
) -> Result<Record<'t>>
    requires { buffer.old.place ≡ 2 }
    ensures { Answers shown_record result (read_of_record form.PointerTagMap kind buffer.old.bytes) }
{
    let tags = parse_rest(buffer)?;
    Ok(Record::PointerTagMap(PointerTagMap {
        tags: PointerTags::new(tags),
    }))
}

//! Calls and other things in code: the structs, and how they are read.

ghost use Rattle.std.specs.Prelude.{◌≡◌, take};
ghost use Rattle.pdb_base.specs.Layouts.{ReadsPart};
ghost use Rattle.pdb_base.specs.Refusal.{Answers};
ghost use Rattle.pdb_records.specs.RecordFlags.{entry_kind_of};
ghost use Rattle.pdb_records.specs.RecordParts.{counted_ids, table_base};
ghost use Rattle.pdb_records.specs.RecordTable.{read_of_record};
ghost use Rattle.pdb_records.specs.RecordViews.{shown_record};
ghost use Rattle.pdb_records.specs.declared.form.RecordForm.TheVariants as form;

use crate::fields::{parse_name, parse_offset, parse_rest, parse_site_of_type, parse_two_places};
use crate::lists::{Numbers, Relation};
use crate::record::Record;
use crate::strings::{Strings, parse_counted_names};
use pdb_base::{IdIndex, ParseBuffer, PdbInternalSectionOffset, RawString, Result, TypeIndex};

/// An indirect call: `CALLSITEINFO` of `cvinfo.h`, in records `S_CALLSITEINFO` (0x1139).
#[derive(Clone, Copy, Debug, Eq, PartialEq)]
pub struct CallSiteInfo {
    /// Where the call stands.
    pub offset: PdbInternalSectionOffset,
    /// The type of the function that is called.
    pub type_index: TypeIndex,
}

/// A call that allocates memory: `HEAPALLOCSITE` of `cvinfo.h`, in records `S_HEAPALLOCSITE` (0x115e).
#[derive(Clone, Copy, Debug, Eq, PartialEq)]
pub struct HeapAllocationSite {
    /// Where the call stands.
    pub offset: PdbInternalSectionOffset,
    /// The length of the call's instruction, in bytes.
    pub instruction_bytes: u16,
    /// The type of what is allocated.
    pub type_index: TypeIndex,
}

/// Functions that a procedure calls, that call it, or that are inlined in it: `FUNCTIONLIST` of `cvinfo.h`, in
/// records `S_CALLEES` (0x115a), `S_CALLERS` (0x115b) and `S_INLINEES` (0x1168).
#[derive(Clone, Copy, Debug, Eq, PartialEq)]
pub struct FunctionList<'t> {
    /// How the functions belong to the procedure.
    pub relation: Relation,
    /// The ids of the functions.
    pub functions: Numbers<'t>,
    /// How often each was called, in the functions' order: at most as many as functions. One without a number has 0.
    pub invocations: Numbers<'t>,
}

/// What an entry of a jump table is: `CV_armswitchtype` of `cvinfo.h`. `Shl1` ones are shifted left by one bit.
#[derive(Clone, Copy, Debug, Eq, PartialEq)]
pub enum EntryKind {
    /// `i8`: 0.
    Int1,
    /// `u8`: 1.
    Uint1,
    /// `i16`: 2.
    Int2,
    /// `u16`: 3.
    Uint2,
    /// `i32`: 4.
    Int4,
    /// `u32`: 5.
    Uint4,
    /// An address: 6.
    Pointer,
    /// `u8`, shifted: 7.
    Uint1Shl1,
    /// `u16`, shifted: 8.
    Uint2Shl1,
    /// `i8`, shifted: 9.
    Int1Shl1,
    /// `i16`, shifted: 10.
    Int2Shl1,
    /// Another number.
    Unknown(u16),
}

impl EntryKind {
    // The kind of a number.
    #[inline]
    fn of(number: u16) -> Self
        ensures { result ≡ entry_kind_of number }
    {
        match number {
            0 => EntryKind::Int1,
            1 => EntryKind::Uint1,
            2 => EntryKind::Int2,
            3 => EntryKind::Uint2,
            4 => EntryKind::Int4,
            5 => EntryKind::Uint4,
            6 => EntryKind::Pointer,
            7 => EntryKind::Uint1Shl1,
            8 => EntryKind::Uint2Shl1,
            9 => EntryKind::Int1Shl1,
            10 => EntryKind::Int2Shl1,
            _ => EntryKind::Unknown(number),
        }
    }
}

/// A jump by a table: `ARMSWITCHTABLE` of `cvinfo.h`, in records `S_ARMSWITCHTABLE` (0x1159), of all processors.
#[derive(Clone, Copy, Debug, Eq, PartialEq)]
pub struct JumpTable {
    /// The `section:offset` to which an entry is added.
    pub base: PdbInternalSectionOffset,
    /// What an entry is.
    pub entry_kind: EntryKind,
    /// Where the jump stands.
    pub branch: PdbInternalSectionOffset,
    /// Where the table stands.
    pub table: PdbInternalSectionOffset,
    /// The number of entries.
    pub entries: u32,
}

/// What a profile says of a procedure: `POGOINFO` of `cvinfo.h`, in records `S_POGODATA` (0x115c).
#[derive(Clone, Copy, Debug, Eq, PartialEq)]
pub struct PogoData {
    /// How often the procedure was called.
    pub invocations: u32,
    /// How many instructions were run in it.
    pub dynamic_count: i64,
    /// How many instructions it has.
    pub instructions: u32,
    /// How many of them are live.
    pub live_instructions: u32,
}

/// A function that can be patched while it runs: `HOTPATCHFUNC` of LLVM, in records `S_HOTPATCHFUNC` (0x1169).
#[derive(Clone, Copy, Debug, Eq, PartialEq)]
pub struct HotPatchFunction<'t> {
    /// The function's id.
    pub id: IdIndex,
    /// The function's name.
    pub name: RawString<'t>,
}

/// Strings that the program's text gave for a `section:offset` (`__annotation`): `ANNOTATIONSYM` of `cvinfo.h`, in
/// records `S_ANNOTATION` (0x1019).
#[derive(Clone, Copy, Debug, Eq, PartialEq)]
pub struct Annotation<'t> {
    /// Where the annotation stands.
    pub offset: PdbInternalSectionOffset,
    /// The strings.
    pub strings: Strings<'t>,
}

#[inline]
#[tactic(auto, unfolding(crate::specs::RecordTable::read_of_record))]
pub(crate) fn parse_call_site_info<'t>(
    kind: u16,
    buffer: &mut ParseBuffer<'t>,
) -> Result<Record<'t>>
    requires { buffer.old.place ≡ 2 }
    ensures { Answers shown_record result (read_of_record form.CallSiteInfo kind buffer.old.bytes) }
{
    let (offset, _unused, type_index) = parse_site_of_type(buffer)?;
    Ok(Record::CallSiteInfo(CallSiteInfo { offset, type_index }))
}

#[inline]
#[tactic(auto, unfolding(crate::specs::RecordTable::read_of_record))]
pub(crate) fn parse_heap_allocation_site<'t>(
    kind: u16,
    buffer: &mut ParseBuffer<'t>,
) -> Result<Record<'t>>
    requires { buffer.old.place ≡ 2 }
    ensures { Answers shown_record result (read_of_record form.HeapAllocationSite kind buffer.old.bytes) }
{
    let (offset, instruction_bytes, type_index) = parse_site_of_type(buffer)?;
    Ok(Record::HeapAllocationSite(HeapAllocationSite {
        offset,
        instruction_bytes,
        type_index,
    }))
}

// A count, and the bytes of so many numbers.
#[inline]
#[tactic(auto, unfolding(pdb_base::specs::Layouts::together_at))]
fn parse_counted_ids<'t>(buffer: &mut ParseBuffer<'t>) -> Result<(u32, &'t [u8])>
    ensures { ReadsPart (λ x. (x.0, x.1.now)) counted_ids 0 buffer.old buffer.new result }
{
    let count = buffer.parse_u32()?;
    let functions = buffer.take(4 * count as usize)?;
    Ok((count, functions))
}

// The first bytes, at most so many.
#[inline]
fn front(bytes: &[u8], limit: usize) -> &[u8]
    ensures { result.now ≡ take limit bytes.entry.now }
{
    if limit < bytes.len() {
        let (front, _) = bytes.split_at(limit);
        front
    } else {
        bytes
    }
}

#[inline]
#[tactic(auto, unfolding(crate::specs::RecordTable::read_of_record))]
pub(crate) fn parse_function_list<'t>(kind: u16, buffer: &mut ParseBuffer<'t>) -> Result<Record<'t>>
    requires { buffer.old.place ≡ 2 }
    ensures { Answers shown_record result (read_of_record form.FunctionList kind buffer.old.bytes) }
{
    let (count, functions) = parse_counted_ids(buffer)?;
    let behind = parse_rest(buffer)?;
    Ok(Record::FunctionList(FunctionList {
        relation: Relation::of(kind),
        functions: Numbers::new(functions),
        invocations: Numbers::new(front(behind, 4 * count as usize)),
    }))
}

// Where a jump table's base stands, and what its entries are.
#[inline]
#[tactic(auto, unfolding(pdb_base::specs::Layouts::together_at))]
fn parse_table_base(buffer: &mut ParseBuffer<'_>) -> Result<(PdbInternalSectionOffset, u16)>
    ensures { ReadsPart (λ x. x) table_base 0 buffer.old buffer.new result }
{
    let base = parse_offset(buffer)?;
    let entry_kind = buffer.parse_u16()?;
    Ok((base, entry_kind))
}

#[inline]
#[tactic(auto, unfolding(crate::specs::RecordTable::read_of_record))]
pub(crate) fn parse_jump_table<'t>(kind: u16, buffer: &mut ParseBuffer<'t>) -> Result<Record<'t>>
    requires { buffer.old.place ≡ 2 }
    ensures { Answers shown_record result (read_of_record form.JumpTable kind buffer.old.bytes) }
{
    let (base, entry_kind) = parse_table_base(buffer)?;
    let (branch, table) = parse_two_places(buffer)?;
    let entries = buffer.parse_u32()?;
    Ok(Record::JumpTable(JumpTable {
        base,
        entry_kind: EntryKind::of(entry_kind),
        branch,
        table,
        entries,
    }))
}

#[inline]
#[tactic(auto, unfolding(crate::specs::RecordTable::read_of_record))]
pub(crate) fn parse_pogo_data<'t>(kind: u16, buffer: &mut ParseBuffer<'t>) -> Result<Record<'t>>
    requires { buffer.old.place ≡ 2 }
    ensures { Answers shown_record result (read_of_record form.PogoData kind buffer.old.bytes) }
{
    let invocations = buffer.parse_u32()?;
    let dynamic_count = buffer.parse_i64()?;
    let instructions = buffer.parse_u32()?;
    let live_instructions = buffer.parse_u32()?;
    Ok(Record::PogoData(PogoData {
        invocations,
        dynamic_count,
        instructions,
        live_instructions,
    }))
}

#[inline]
#[tactic(auto, unfolding(crate::specs::RecordTable::read_of_record))]
pub(crate) fn parse_hot_patch_function<'t>(
    kind: u16,
    buffer: &mut ParseBuffer<'t>,
) -> Result<Record<'t>>
    requires { buffer.old.place ≡ 2 }
    ensures { Answers shown_record result (read_of_record form.HotPatchFunction kind buffer.old.bytes) }
{
    let id = IdIndex(buffer.parse_u32()?);
    let name = parse_name(kind, buffer)?;
    Ok(Record::HotPatchFunction(HotPatchFunction { id, name }))
}

#[inline]
#[tactic(auto, unfolding(crate::specs::RecordTable::read_of_record))]
pub(crate) fn parse_annotation<'t>(kind: u16, buffer: &mut ParseBuffer<'t>) -> Result<Record<'t>>
    requires { buffer.old.place ≡ 2 }
    ensures { Answers shown_record result (read_of_record form.Annotation kind buffer.old.bytes) }
{
    let offset = parse_offset(buffer)?;
    let strings = parse_counted_names(buffer)?;
    Ok(Record::Annotation(Annotation { offset, strings }))
}

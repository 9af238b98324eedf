//! What a further record says, field by field. What a record doesn't have is 0 or empty.

ghost use Rattle.std.specs.Prelude.{◌≡◌, ◌+◌, nat_le, length};
ghost use Rattle.pdb_records.specs.RecordViews.{gaps_in, shown_record};
ghost use Rattle.pdb_c.specs.RecordNumbers.{flags_at, flags_place, form_from_14, form_from_27, number_there, other_place, other_size, record_form, record_gaps, record_name, record_part, record_place, record_range, record_size, record_storage, record_type};

use crate::storage_numbers::{StorageNumbers, stored, stored_nowhere};
use pdb::PdbInternalSectionOffset;
use pdb_base::little_endian::{u8_at, u16_at, u32_at};
use pdb_records::{AddressRange, Gaps, Record};

/// The number of a record layout from 27 on.
fn form_from_27(said: &Record<'_>) -> u32
    ensures { result ≡ form_from_27 (shown_record said.now) }
{
    match said {
        Record::RegisterRelativeOld(_) => 27,
        Record::With(_) => 28,
        Record::VirtualTablePath(_) => 29,
        Record::ModuleTypeReference(_) => 30,
        Record::MiniReference(_) => 31,
        Record::Discarded(_) => 32,
        Record::Compile(_) => 33,
        Record::StartSearch(_) => 34,
        Record::EndOfArguments => 35,
        Record::Slot(_) => 36,
        Record::ManagedSlot(_) => 37,
        Record::ManagedFrameRelative(_) => 38,
        Record::ManagedRegister(_) => 39,
        Record::ManagedRegisterRelative(_) => 40,
        _ => 0,
    }
}

/// The same from 14 on.
fn form_from_14(said: &Record<'_>) -> u32
    ensures { result ≡ form_from_14 (shown_record said.now) }
{
    match said {
        Record::FunctionList(_) => 14,
        Record::JumpTable(_) => 15,
        Record::CoffGroup(_) => 16,
        Record::Section(_) => 17,
        Record::EnvironmentBlock(_) => 18,
        Record::Annotation(_) => 19,
        Record::PogoData(_) => 20,
        Record::HotPatchFunction(_) => 21,
        Record::ManagedProcedure(_) => 22,
        Record::TokenReference(_) => 23,
        Record::Oem(_) => 24,
        Record::LocalGroupShared(_) => 25,
        Record::PointerTagMap(_) => 26,
        _ => form_from_27(said),
    }
}

/// The number of a record layout, from 1.
pub fn record_form(said: &Record<'_>) -> u32
    ensures { result ≡ record_form (shown_record said.now) }
{
    match said {
        Record::FrameProcedure(_) => 1,
        Record::BasePointerRelative(_) => 2,
        Record::DefRange(_) => 3,
        Record::DefRangeSubfield(_) => 4,
        Record::DefRangeRegister(_) => 5,
        Record::DefRangeFramePointerRelative(_) => 6,
        Record::DefRangeSubfieldRegister(_) => 7,
        Record::DefRangeFramePointerRelativeFullScope(_) => 8,
        Record::DefRangeRegisterRelative(_) => 9,
        Record::FileStatic(_) => 10,
        Record::FrameCookie(_) => 11,
        Record::CallSiteInfo(_) => 12,
        Record::HeapAllocationSite(_) => 13,
        _ => form_from_14(said),
    }
}

/// Where a variable or a part of it is; of a frame's cookie where that is.
pub fn record_storage(said: &Record<'_>) -> StorageNumbers
    ensures { result ≡ record_storage (shown_record said.now) }
{
    match said {
        Record::BasePointerRelative(it) => stored(3, 0, it.offset),
        Record::DefRange(it) => stored(5, it.program, 0),
        Record::DefRangeSubfield(it) => stored(5, it.program, 0),
        Record::DefRangeRegister(it) => stored(1, u32::from(it.register.0), 0),
        Record::DefRangeFramePointerRelative(it) => stored(4, 0, it.offset),
        Record::DefRangeSubfieldRegister(it) => stored(1, u32::from(it.register.0), 0),
        Record::DefRangeFramePointerRelativeFullScope(it) => stored(4, 0, it.offset),
        Record::DefRangeRegisterRelative(it) => stored(2, u32::from(it.register.0), it.offset),
        Record::FrameCookie(it) => stored(2, u32::from(it.register.0), it.offset),
        Record::RegisterRelativeOld(it) => stored(2, u32::from(it.register.0), it.offset),
        Record::ManagedFrameRelative(it) => stored(4, 0, it.offset),
        Record::ManagedRegister(it) => stored(1, u32::from(it.register.0), 0),
        Record::ManagedRegisterRelative(it) => stored(2, u32::from(it.register.0), it.offset),
        _ => stored_nowhere(),
    }
}

/// The offset of a part in its variable.
pub fn record_part(said: &Record<'_>) -> Option<u32>
    ensures { result ≡ record_part (shown_record said.now) }
{
    match said {
        Record::DefRangeSubfield(it) => Some(it.offset_in_parent),
        Record::DefRangeSubfieldRegister(it) => Some(it.offset_in_parent),
        Record::DefRangeRegisterRelative(it) => it.subfield.map(u32::from),
        _ => None,
    }
}

/// The code in which a record of a range holds, but for its gaps.
fn record_range(said: &Record<'_>) -> Option<AddressRange>
    ensures { result ≡ record_range (shown_record said.now) }
{
    match said {
        Record::DefRange(it) => Some(it.range),
        Record::DefRangeSubfield(it) => Some(it.range),
        Record::DefRangeRegister(it) => Some(it.range),
        Record::DefRangeFramePointerRelative(it) => Some(it.range),
        Record::DefRangeSubfieldRegister(it) => Some(it.range),
        Record::DefRangeRegisterRelative(it) => Some(it.range),
        _ => None,
    }
}

/// The section and the offset of a record without a range.
fn other_place(said: &Record<'_>) -> Option<PdbInternalSectionOffset>
    ensures { result ≡ other_place (shown_record said.now) }
{
    match said {
        Record::FrameProcedure(it) => Some(it.exception_handler),
        Record::CallSiteInfo(it) => Some(it.offset),
        Record::HeapAllocationSite(it) => Some(it.offset),
        Record::JumpTable(it) => Some(it.branch),
        Record::CoffGroup(it) => Some(it.offset),
        Record::Section(it) => Some(PdbInternalSectionOffset::new(it.section, 0)),
        Record::Annotation(it) => Some(it.offset),
        Record::ManagedProcedure(it) => Some(it.offset),
        Record::With(it) => Some(it.offset),
        Record::VirtualTablePath(it) => Some(it.offset),
        Record::ManagedSlot(it) => Some(it.attributes.live),
        Record::ManagedFrameRelative(it) => Some(it.attributes.live),
        Record::ManagedRegister(it) => Some(it.attributes.live),
        Record::ManagedRegisterRelative(it) => Some(it.attributes.live),
        _ => None,
    }
}

/// The section and the offset: of a range its start.
pub fn record_place(said: &Record<'_>) -> Option<PdbInternalSectionOffset>
    ensures { result ≡ record_place (shown_record said.now) }
{
    match record_range(said) {
        Some(range) => Some(range.start),
        None => other_place(said),
    }
}

/// The size in bytes of what a record without a range describes.
fn other_size(said: &Record<'_>) -> u32
    ensures { result ≡ other_size (shown_record said.now) }
{
    match said {
        Record::FrameProcedure(it) => it.frame_bytes,
        Record::HeapAllocationSite(it) => u32::from(it.instruction_bytes),
        Record::CoffGroup(it) => it.len,
        Record::Section(it) => it.len,
        Record::ManagedProcedure(it) => it.len,
        Record::With(it) => it.len,
        _ => 0,
    }
}

/// The size in bytes of what the record describes.
pub fn record_size(said: &Record<'_>) -> u32
    ensures { result ≡ record_size (shown_record said.now) }
{
    match record_range(said) {
        Some(range) => u32::from(range.len),
        None => other_size(said),
    }
}

/// The index of the type.
pub fn record_type(said: &Record<'_>) -> u32
    ensures { result ≡ record_type (shown_record said.now) }
{
    match said {
        Record::BasePointerRelative(it) => it.type_index.0,
        Record::FileStatic(it) => it.type_index.0,
        Record::CallSiteInfo(it) => it.type_index.0,
        Record::HeapAllocationSite(it) => it.type_index.0,
        Record::Oem(it) => it.type_index.0,
        Record::LocalGroupShared(it) => it.type_index.0,
        Record::RegisterRelativeOld(it) => it.type_index.0,
        Record::VirtualTablePath(it) => it.root.0,
        Record::Slot(it) => it.type_index.0,
        Record::ManagedSlot(it) => it.type_index.0,
        Record::ManagedFrameRelative(it) => it.type_index.0,
        Record::ManagedRegister(it) => it.type_index.0,
        Record::ManagedRegisterRelative(it) => it.type_index.0,
        _ => 0,
    }
}

/// The name.
pub fn record_name<'a>(said: &Record<'a>) -> &'a [u8]
    ensures { result.now ≡ record_name (shown_record said.now) }
{
    match said {
        Record::BasePointerRelative(it) => it.name.as_bytes(),
        Record::FileStatic(it) => it.name.as_bytes(),
        Record::CoffGroup(it) => it.name.as_bytes(),
        Record::Section(it) => it.name.as_bytes(),
        Record::HotPatchFunction(it) => it.name.as_bytes(),
        Record::ManagedProcedure(it) => it.name.as_bytes(),
        Record::TokenReference(it) => it.name.as_bytes(),
        Record::LocalGroupShared(it) => it.name.as_bytes(),
        Record::RegisterRelativeOld(it) => it.name.as_bytes(),
        Record::With(it) => it.name.as_bytes(),
        Record::MiniReference(it) => it.name.as_bytes(),
        Record::Compile(it) => it.name.as_bytes(),
        Record::Slot(it) => it.name.as_bytes(),
        Record::ManagedSlot(it) => it.name.as_bytes(),
        Record::ManagedFrameRelative(it) => it.name.as_bytes(),
        Record::ManagedRegister(it) => it.name.as_bytes(),
        Record::ManagedRegisterRelative(it) => it.name.as_bytes(),
        _ => &[],
    }
}

/// Where a record has its flags, and of how many bytes they are.
#[derive(Clone, Copy)]
pub enum FlagsPlace {
    NoFlags,
    OneByte(usize),
    TwoBytes(usize),
    FourBytes(usize),
}

fn flags_place(said: &Record<'_>) -> FlagsPlace
    ensures { result ≡ flags_place (shown_record said.now) }
{
    match said {
        Record::FrameProcedure(_) => FlagsPlace::FourBytes(24),
        Record::FileStatic(_) => FlagsPlace::TwoBytes(10),
        Record::FrameCookie(_) => FlagsPlace::OneByte(9),
        Record::CoffGroup(_) => FlagsPlace::FourBytes(6),
        Record::Section(_) => FlagsPlace::FourBytes(14),
        Record::EnvironmentBlock(_) => FlagsPlace::OneByte(2),
        Record::ManagedProcedure(_) => FlagsPlace::OneByte(36),
        Record::LocalGroupShared(_) => FlagsPlace::TwoBytes(6),
        Record::ModuleTypeReference(_) => FlagsPlace::FourBytes(2),
        Record::MiniReference(_) => FlagsPlace::TwoBytes(8),
        Record::Compile(_) => FlagsPlace::TwoBytes(4),
        Record::ManagedSlot(_) => FlagsPlace::TwoBytes(16),
        Record::ManagedFrameRelative(_) => FlagsPlace::TwoBytes(16),
        Record::ManagedRegister(_) => FlagsPlace::TwoBytes(12),
        Record::ManagedRegisterRelative(_) => FlagsPlace::TwoBytes(18),
        _ => FlagsPlace::NoFlags,
    }
}

/// Whether so many bytes stand at one.
fn has_bytes(bytes: &[u8], at: usize, size: usize) -> bool
    ensures { result ≡ nat_le (at + size) (length bytes.now) }
{
    size <= bytes.len() && at <= bytes.len() - size
}

/// The flags of a record of these bytes.
pub fn record_flags(bytes: &[u8], said: &Record<'_>) -> u32
    ensures { result ≡ flags_at bytes.now (flags_place (shown_record said.now)) }
{
    match flags_place(said) {
        FlagsPlace::OneByte(at) if has_bytes(bytes, at, 1) => u32::from(u8_at(bytes, at)),
        FlagsPlace::TwoBytes(at) if has_bytes(bytes, at, 2) => u32::from(u16_at(bytes, at)),
        FlagsPlace::FourBytes(at) if has_bytes(bytes, at, 4) => u32_at(bytes, at),
        _ => 0,
    }
}

/// The gaps of the code in which a range holds.
pub fn record_gaps<'a>(said: &Record<'a>) -> Gaps<'a>
    ensures { gaps_in result ≡ record_gaps (shown_record said.now) }
{
    match said {
        Record::DefRange(it) => it.gaps,
        Record::DefRangeSubfield(it) => it.gaps,
        Record::DefRangeRegister(it) => it.gaps,
        Record::DefRangeFramePointerRelative(it) => it.gaps,
        Record::DefRangeSubfieldRegister(it) => it.gaps,
        Record::DefRangeRegisterRelative(it) => it.gaps,
        _ => Gaps::new(&[]),
    }
}

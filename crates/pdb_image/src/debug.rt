//! The debug directory of an image, whose entries are the PE format's `IMAGE_DEBUG_DIRECTORY`.

ghost use Rattle.std.specs.Prelude.{◌≡◌, ◌+◌, ◌*◌, ◌^◌, ◌≤◌, ◌<◌, ◌-◌, length, IfOk, IfSome};
ghost use Rattle.pdb_base.specs.Fields.{number};
ghost use Rattle.pdb_image.specs.Parts.{Answers};
ghost use Rattle.pdb_image.specs.Debug.{code_view_in, code_view_of, directory_of, entries_at, has_address as has_address_test, offset_in as offset_there, record_at as record_there, section_of};
ghost use Rattle.std.specs.Option.{option_map};

use crate::error::{ImageError, Result};
use crate::header::OptionalHeader;
use crate::part::part_of;
use pdb_base::little_endian::u32_at;

/// Where the debug directory is in memory.
#[derive(Clone, Copy, Debug)]
pub struct DebugDirectory {
    /// The address of its first entry, relative to the image's base.
    pub address: u32,
    /// How many entries it has.
    pub entries: u32,
}

/// The debug directory by the optional header: directory 6; one without entries where the header is too short for it.
pub(crate) fn debug_directory(bytes: &[u8], header: OptionalHeader) -> DebugDirectory
    requires there { header.at + header.size ≤ length bytes.now }
    requires small { (header.at < 2 ^ 33) × (header.size < 2 ^ 16) × (header.fixed ≤ 112) }
    ensures directory { result ≡ directory_of bytes.now header }
    ensures few { result.entries < 2 ^ 28 }
{
    if header.directories > 6 && header.fixed + 56 <= header.size {
        DebugDirectory {
            address: u32_at(bytes, header.at + header.fixed + 48),
            entries: u32_at(bytes, header.at + header.fixed + 52) / 28,
        }
    } else {
        DebugDirectory {
            address: 0,
            entries: 0,
        }
    }
}

/// Whether the raw data of a section has the byte at an address.
fn has_address(bytes: &[u8], headers: usize, address: u32, section: usize) -> bool
    requires there { headers + 40 * section + 40 ≤ length bytes.now }
    requires small { headers + 40 * section < 2 ^ 60 }
    ensures { result ≡ has_address_test bytes.now headers address section }
{
    let at = headers + 40 * section;
    let start = u32_at(bytes, at + 12);
    let size = u32_at(bytes, at + 16);
    start <= address && u64::from(address) < u64::from(start) + u64::from(size)
}

#[tactic(auto, unfolding(crate::specs::Debug::section_of), using(crate::proofs::Finding::find_step, crate::proofs::Finding::find_end))]
/// The first section whose raw data has the byte at an address.
fn find_section(bytes: &[u8], headers: usize, count: u16, address: u32) -> Option<usize>
    requires there { headers + 40 * count ≤ length bytes.now }
    requires small { headers < 2 ^ 59 }
    ensures section { result ≡ section_of bytes.now headers count address }
    ensures below { IfSome result (λ i. (i < count) × (number bytes.now (headers + 40 * i + 12) 4 ≤ address)) }
{
    for section in 0..count as usize {
        if has_address(bytes, headers, address, section) {
            return Some(section);
        }
    }
    None
}

/// The offset in the file of the byte at an address, in a section that has it.
fn offset_in(bytes: &[u8], headers: usize, address: u32, section: usize) -> usize
    requires there { headers + 40 * section + 40 ≤ length bytes.now }
    requires small { headers + 40 * section < 2 ^ 60 }
    requires inside { number bytes.now (headers + 40 * section + 12) 4 ≤ address }
    ensures at { result ≡ offset_there bytes.now headers address section }
    ensures bound { result < 2 ^ 33 }
{
    let at = headers + 40 * section;
    u32_at(bytes, at + 20) as usize + (address - u32_at(bytes, at + 12)) as usize
}

/// The offset of the entries of the debug directory.
#[tactic(auto, unfolding(crate::specs::Debug::entries_at))]
fn find_entries(
    bytes: &[u8],
    headers: usize,
    count: u16,
    directory: DebugDirectory,
) -> Result<usize>
    requires there { headers + 40 * count ≤ length bytes.now }
    requires small { headers < 2 ^ 59 }
    requires few { directory.entries < 2 ^ 28 }
    ensures at { Answers (λ p. p) result (entries_at bytes.now headers count directory) }
    ensures fits { IfOk result (λ p. (p + 28 * directory.entries ≤ length bytes.now) × (p < 2 ^ 33)) }
{
    let Some(section) = find_section(bytes, headers, count, directory.address) else {
        return Err(ImageError::UnexpectedEof);
    };
    let at = offset_in(bytes, headers, directory.address, section);
    if bytes.len() < at + 28 * directory.entries as usize {
        return Err(ImageError::UnexpectedEof);
    }
    Ok(at)
}

/// The type of the entry of a CodeView record.
const CODE_VIEW: u32 = 2;

#[tactic(auto, unfolding(crate::specs::Debug::code_view_of), using(crate::proofs::Finding::find_step, crate::proofs::Finding::find_end))]
/// The first entry for a CodeView record.
fn find_code_view(bytes: &[u8], entries: usize, count: u32) -> Option<usize>
    requires there { entries + 28 * count ≤ length bytes.now }
    requires small { entries < 2 ^ 33 }
    ensures entry { result ≡ code_view_of bytes.now entries count }
    ensures below { IfSome result (λ i. i < count) }
{
    for entry in 0..count as usize {
        if u32_at(bytes, entries + 28 * entry + 12) == CODE_VIEW {
            return Some(entry);
        }
    }
    None
}

/// The bytes of the record of an entry.
fn record_at(bytes: &[u8], entries: usize, entry: Option<usize>) -> Result<Option<&[u8]>>
    requires { IfSome entry (λ i. (entries + 28 * i + 28 ≤ length bytes.now) × (entries + 28 * i < 2 ^ 60)) }
    ensures { Answers (option_map (λ x. x.now)) result (record_there bytes.now entries entry) }
{
    let Some(entry) = entry else {
        return Ok(None);
    };
    let at = entries + 28 * entry;
    let size = u32_at(bytes, at + 16) as usize;
    let record = part_of(bytes, u32_at(bytes, at + 24) as usize, size)?;
    Ok(Some(record))
}

/// The bytes of the image's CodeView record, where it has one. The headers of its sections begin at `headers`.
#[tactic(auto, unfolding(crate::specs::Debug::code_view_in))]
pub(crate) fn find_record(
    bytes: &[u8],
    headers: usize,
    count: u16,
    directory: DebugDirectory,
) -> Result<Option<&[u8]>>
    requires small { headers < 2 ^ 59 }
    requires few { directory.entries < 2 ^ 28 }
    ensures { Answers (option_map (λ x. x.now)) result (code_view_in bytes.now headers count directory) }
{
    if bytes.len() < headers + 40 * count as usize {
        return Err(ImageError::UnexpectedEof);
    }
    if directory.entries == 0 {
        return Ok(None);
    }
    let entries = find_entries(bytes, headers, count, directory)?;
    let entry = find_code_view(bytes, entries, directory.entries);
    record_at(bytes, entries, entry)
}

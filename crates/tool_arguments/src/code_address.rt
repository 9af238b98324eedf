//! Addresses of code, as arguments and lines spell them.

ghost use Rattle.std.specs.Prelude.{◌≡◌, length};
ghost use Rattle.std.specs.Char.{is_ascii_hexdigit};
ghost use Rattle.std.specs.List.{list_all, position};
ghost use Rattle.tool_arguments.specs.CodeAddresses.{address_number, below_base, code_address, has_backtick, has_prefix, has_suffix, hex_in, is_colon, is_hex, joined, place_in, place_of, relative, spelled_in};

use pdb_base::PdbInternalSectionOffset;

/// An address as it is spelled.
#[derive(Clone, Copy, Debug, PartialEq, Eq)]
pub enum SpelledAddress {
    /// A number, from which the load address of the image is still to be subtracted.
    Number(u64),
    /// A section and an offset.
    Place(PdbInternalSectionOffset),
}

/// An address of code.
#[derive(Clone, Copy, Debug, PartialEq, Eq)]
pub enum CodeAddress {
    /// A relative virtual address.
    Rva(u32),
    /// A section and an offset.
    Place(PdbInternalSectionOffset),
    /// An address below the base, or 2^32 or more above it, at which no code is.
    Nowhere,
}

/// Whether all bytes of a word are hex digits.
pub fn is_all_hex(word: &[u8]) -> bool
    ensures { result ≡ list_all is_ascii_hexdigit word.now }
{
    word.iter().all(|b| b.is_ascii_hexdigit())
}

/// Whether a word is 1 to 16 hex digits.
fn is_hex(word: &[u8]) -> bool
    ensures { result ≡ is_hex word.now }
{
    !word.is_empty() && word.len() <= 16 && is_all_hex(word)
}

/// The number below 2^64 that hex digits write.
#[tactic(auto, unfolding(crate::specs::CodeAddresses::hex_in))]
pub fn hex_in(word: &[u8]) -> Option<u64>
    ensures { result ≡ hex_in word.now }
{
    if !is_hex(word) {
        return None;
    }
    let Ok(text) = std::str::from_utf8(word) else {
        return None;
    };
    u64::from_str_radix(text, 16).ok()
}

/// Whether `0x` or `0X` stands in front.
fn has_prefix(word: &[u8]) -> bool
    ensures { result ≡ has_prefix word.now }
{
    word.starts_with(b"0x") || word.starts_with(b"0X")
}

/// Whether a backtick stands before the last eight digits.
fn has_backtick(word: &[u8]) -> bool
    ensures { result ≡ has_backtick word.now }
{
    word.len() > 9 && word[word.len() - 9] == b'`'
}

/// Whether an `h` stands at the end.
fn has_suffix(word: &[u8]) -> bool
    ensures { result ≡ has_suffix word.now }
{
    !word.is_empty() && word[word.len() - 1] == b'h'
}

/// A number of 32 bits behind another one; none where one of them has more.
fn joined(high: Option<u64>, low: Option<u64>) -> Option<u64>
    ensures { result ≡ joined high low }
{
    let high = u32::try_from(high?).ok()?;
    let low = u32::try_from(low?).ok()?;
    Some(u64::from(high) * 0x1_0000_0000 + u64::from(low))
}

/// The number that an address is spelled as: `HEX`, `0xHEX`, `0XHEX`, `HEXh`, or `HEX` with a backtick before its last
/// eight digits, of 1 to 16 digits.
#[inline(always)]
#[tactic(auto, unfolding(crate::specs::CodeAddresses::address_number))]
pub fn address_number(word: &[u8]) -> Option<u64>
    ensures { result ≡ address_number word.now }
{
    if has_prefix(word) {
        return hex_in(&word[2..]);
    }
    if has_backtick(word) {
        let (high, rest) = word.split_at(word.len() - 9);
        return joined(hex_in(high), hex_in(&rest[1..]));
    }
    if has_suffix(word) {
        return hex_in(&word[..word.len() - 1]);
    }
    hex_in(word)
}

/// An address below the base: relative where it is in an image of this size, since no code is below its load address.
fn below_base(size: u32, address: u64) -> CodeAddress
    ensures { result ≡ below_base size address }
{
    match u32::try_from(address) {
        Ok(relative) if relative < size => CodeAddress::Rva(relative),
        _ => CodeAddress::Nowhere,
    }
}

/// An address, relative to its base; none where it needs one.
fn relative(base: Option<u64>, size: u32, address: u64) -> Option<CodeAddress>
    ensures { result ≡ relative base size address }
{
    match base {
        Some(base) => match address.checked_sub(base) {
            Some(relative) => match u32::try_from(relative) {
                Ok(relative) => Some(CodeAddress::Rva(relative)),
                Err(_) => Some(CodeAddress::Nowhere),
            },
            None => Some(below_base(size, address)),
        },
        None => Some(CodeAddress::Rva(u32::try_from(address).ok()?)),
    }
}

/// The place of these numbers, where they are a section's and an offset.
fn place_of(section: u64, offset: u64) -> Option<SpelledAddress>
    ensures { result ≡ place_of section offset }
{
    Some(SpelledAddress::Place(PdbInternalSectionOffset {
        section: u16::try_from(section).ok()?,
        offset: u32::try_from(offset).ok()?,
    }))
}

/// The place that two words are.
fn place_in(section: &[u8], offset: &[u8]) -> Option<SpelledAddress>
    ensures { result ≡ place_in section.now offset.now }
{
    place_of(hex_in(section)?, hex_in(offset)?)
}

/// Where the first colon of a word stands.
fn first_colon(word: &[u8]) -> Option<usize>
    ensures { result ≡ position is_colon word.now }
{
    word.iter().position(|b| *b == b':')
}

/// The address that a word spells: a number, or `SECTION:OFFSET`, both in hex; none where the word is neither, or a
/// number is too great.
#[inline(always)]
#[tactic(auto, unfolding(crate::specs::CodeAddresses::spelled_in))]
pub fn spelled_in(word: &[u8]) -> Option<SpelledAddress>
    ensures { result ≡ spelled_in word.now }
{
    match first_colon(word) {
        Some(at) => place_in(&word[..at], &word[at + 1..]),
        None => Some(SpelledAddress::Number(address_number(word)?)),
    }
}

/// The address of code, by the load address of its image; none where it needs one. `size` is the size of the image where
/// the load address is its own, and else 0: an address below both is relative.
pub fn code_address(base: Option<u64>, size: u32, spelled: SpelledAddress) -> Option<CodeAddress>
    ensures { result ≡ code_address base size spelled }
{
    match spelled {
        SpelledAddress::Number(address) => relative(base, size, address),
        SpelledAddress::Place(place) => Some(CodeAddress::Place(place)),
    }
}

//! Lists of further records, their items joined by commas.

ghost use Rattle.std.specs.Prelude.{◌≡◌, ◌++◌, codes, OnOk};
ghost use Rattle.std.specs.Fmt.{decimal, signed_decimal};
ghost use Rattle.pdb_records.specs.RecordViews.{gaps_in, gaps_left, numbers_in_list, numbers_left, strings_in, strings_left, tags_in, tags_left};
ghost use Rattle.pdb_text.specs.Digits.{hex};
ghost use Rattle.tool_fields.specs.RecordValues.{gap_text, joined_texts, string_text, tag_text, texts_behind};

use pdb::FallibleIterator;
use pdb_records::{
    AddressGap, Gaps, GapsIter, Numbers, NumbersIter, PointerTag, PointerTags, PointerTagsIter,
    Strings, StringsIter,
};
use pdb_text::{put_decimal, put_hex8, put_one_line};
use std::alloc::AllocError;
use tool_fields::values_forms::put_signed;

/// A gap's start, counted from the range's start, and its length.
fn put_gap(out: &mut Vec<u8>, gap: AddressGap) -> Result<(), AllocError>
    ensures { OnOk result (out.new.items ≡ out.old.items ++ gap_text gap) }
{
    put_decimal(out, u64::from(gap.start))?;
    out.push(b'+')?;
    put_decimal(out, u64::from(gap.len))
}

/// A pointer's tag, and the offset of the record of its variable.
fn put_tag(out: &mut Vec<u8>, tag: PointerTag) -> Result<(), AllocError>
    ensures { OnOk result (out.new.items ≡ out.old.items ++ tag_text tag) }
{
    put_decimal(out, u64::from(tag.tag))?;
    out.push(b':')?;
    put_signed(out, i64::from(tag.record_offset))
}

/// The gaps of a range, each behind a comma.
fn put_more_gaps(out: &mut Vec<u8>, mut gaps: GapsIter<'_>) -> Result<(), AllocError>
    ensures { OnOk result (out.new.items ≡ out.old.items ++ texts_behind gap_text (gaps_left gaps.entry).items) }
{
    loop {
        match gaps.next() {
            Ok(Some(gap)) => {
                out.push(b',')?;
                put_gap(out, gap)?;
            }
            Ok(None) => return Ok(()),
            Err(_) => return Ok(()),
        }
    }
}

/// The gaps of a range, joined by commas, or `-` where there are none.
pub fn put_gaps(out: &mut Vec<u8>, gaps: Gaps<'_>) -> Result<(), AllocError>
    ensures { OnOk result (out.new.items ≡ out.old.items ++ joined_texts gap_text (gaps_in gaps.entry)) }
{
    let mut gaps = gaps.iter();
    match gaps.next() {
        Ok(Some(gap)) => {
            put_gap(out, gap)?;
            put_more_gaps(out, gaps)
        }
        Ok(None) => out.extend_from_slice(b"-"),
        Err(_) => out.extend_from_slice(b"-"),
    }
}

/// Numbers in eight hex digits, each behind a comma.
fn put_more_ids(out: &mut Vec<u8>, mut ids: NumbersIter<'_>) -> Result<(), AllocError>
    ensures { OnOk result (out.new.items ≡ out.old.items ++ texts_behind (hex 8) (numbers_left ids.entry).items) }
{
    loop {
        match ids.next() {
            Ok(Some(number)) => {
                out.push(b',')?;
                put_hex8(out, number)?;
            }
            Ok(None) => return Ok(()),
            Err(_) => return Ok(()),
        }
    }
}

/// Numbers in eight hex digits, joined by commas, or `-` where there are none.
pub fn put_ids(out: &mut Vec<u8>, ids: Numbers<'_>) -> Result<(), AllocError>
    ensures { OnOk result (out.new.items ≡ out.old.items ++ joined_texts (hex 8) (numbers_in_list ids.entry)) }
{
    let mut ids = ids.iter();
    match ids.next() {
        Ok(Some(number)) => {
            put_hex8(out, number)?;
            put_more_ids(out, ids)
        }
        Ok(None) => out.extend_from_slice(b"-"),
        Err(_) => out.extend_from_slice(b"-"),
    }
}

/// Numbers in decimal digits, each behind a comma.
fn put_more_counts(out: &mut Vec<u8>, mut counts: NumbersIter<'_>) -> Result<(), AllocError>
    ensures { OnOk result (out.new.items ≡ out.old.items ++ texts_behind decimal (numbers_left counts.entry).items) }
{
    loop {
        match counts.next() {
            Ok(Some(number)) => {
                out.push(b',')?;
                put_decimal(out, u64::from(number))?;
            }
            Ok(None) => return Ok(()),
            Err(_) => return Ok(()),
        }
    }
}

/// Numbers in decimal digits, joined by commas, or `-` where there are none.
pub fn put_counts(out: &mut Vec<u8>, counts: Numbers<'_>) -> Result<(), AllocError>
    ensures { OnOk result (out.new.items ≡ out.old.items ++ joined_texts decimal (numbers_in_list counts.entry)) }
{
    let mut counts = counts.iter();
    match counts.next() {
        Ok(Some(number)) => {
            put_decimal(out, u64::from(number))?;
            put_more_counts(out, counts)
        }
        Ok(None) => out.extend_from_slice(b"-"),
        Err(_) => out.extend_from_slice(b"-"),
    }
}

/// Tags of pointers, each behind a comma.
fn put_more_tags(out: &mut Vec<u8>, mut tags: PointerTagsIter<'_>) -> Result<(), AllocError>
    ensures { OnOk result (out.new.items ≡ out.old.items ++ texts_behind tag_text (tags_left tags.entry).items) }
{
    loop {
        match tags.next() {
            Ok(Some(tag)) => {
                out.push(b',')?;
                put_tag(out, tag)?;
            }
            Ok(None) => return Ok(()),
            Err(_) => return Ok(()),
        }
    }
}

/// Tags of pointers, joined by commas, or `-` where there are none.
pub fn put_tags(out: &mut Vec<u8>, tags: PointerTags<'_>) -> Result<(), AllocError>
    ensures { OnOk result (out.new.items ≡ out.old.items ++ joined_texts tag_text (tags_in tags.entry)) }
{
    let mut tags = tags.iter();
    match tags.next() {
        Ok(Some(tag)) => {
            put_tag(out, tag)?;
            put_more_tags(out, tags)
        }
        Ok(None) => out.extend_from_slice(b"-"),
        Err(_) => out.extend_from_slice(b"-"),
    }
}

/// Strings, each on one line and behind a comma.
fn put_more_strings(out: &mut Vec<u8>, mut strings: StringsIter<'_>) -> Result<(), AllocError>
    ensures { OnOk result (out.new.items ≡ out.old.items ++ texts_behind string_text (strings_left strings.entry).items) }
{
    loop {
        match strings.next() {
            Ok(Some(string)) => {
                out.push(b',')?;
                put_one_line(out, string.as_bytes())?;
            }
            Ok(None) => return Ok(()),
            Err(_) => return Ok(()),
        }
    }
}

/// Strings, each on one line, joined by commas, or `-` where there are none.
pub fn put_strings(out: &mut Vec<u8>, strings: Strings<'_>) -> Result<(), AllocError>
    ensures { OnOk result (out.new.items ≡ out.old.items ++ joined_texts string_text (strings_in strings.entry)) }
{
    let mut strings = strings.iter();
    match strings.next() {
        Ok(Some(string)) => {
            put_one_line(out, string.as_bytes())?;
            put_more_strings(out, strings)
        }
        Ok(None) => out.extend_from_slice(b"-"),
        Err(_) => out.extend_from_slice(b"-"),
    }
}

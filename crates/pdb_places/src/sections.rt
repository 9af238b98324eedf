//! The section of an address.

ghost use Rattle.std.specs.Prelude.{◌≡◌, ◌+◌, ◌-◌, ◌≤◌, ◌<◌, ◌^◌, ℕ, length, take, IfOk, IfErr};
ghost use Rattle.pdb_places.specs.AddressPlaces.{numbered, place_from};
ghost use Rattle.pdb_places.specs.PaintedSections.{AreSectionSpans, AreSectionCuts, IsPlaced};

use crate::painted::{Cut, find_painted, paint};
use crate::span::Span;
use pdb::{Error, ImageSectionHeader, PdbInternalSectionOffset, Result, Steps};
use std::alloc::Global;

/// The offset of an address in a section that has it.
fn offset_in(at: u64, address: u32, size: u32) -> u32
    requires from { address ≤ at }
    requires before { at < address + size }
    ensures { result ≡ at - address }
{
    (at - u64::from(address)) as u32
}

/// A place in the section behind so many others.
fn numbered(before: usize, offset: u32) -> Option<PdbInternalSectionOffset>
    ensures { result ≡ numbered (before + 1) offset }
{
    if before < 65535 {
        Some(PdbInternalSectionOffset::new(before as u16 + 1, offset))
    } else {
        None
    }
}

/// The sections that a place can name: the first ones.
fn nameable(sections: &[ImageSectionHeader]) -> &[ImageSectionHeader]
    ensures { result.now ≡ take 65535 sections.now }
{
    if sections.len() <= 65535 {
        return sections;
    }
    let (first, _) = sections.split_at(65535);
    first
}

/// The addresses that a section has, with its number counted from 0.
fn span_of(number: u32, section: &ImageSectionHeader) -> Span
    ensures start { result.start ≡ section.now.virtual_address }
    ensures end { result.end ≡ section.now.virtual_address + section.now.virtual_size }
    ensures owner { result.owner ≡ number }
{
    Span {
        start: u64::from(section.virtual_address),
        end: u64::from(section.virtual_address) + u64::from(section.virtual_size),
        owner: number,
    }
}

/// The addresses that sections have.
fn spans_of(alloc: Global, sections: &[ImageSectionHeader]) -> Result<Vec<Span>>
    requires { length sections.now ≤ 65535 }
    ensures spans { IfOk result (λ spans. AreSectionSpans sections.now spans.items) }
    ensures refused { IfErr result (λ e. e ≡ Error.OutOfMemory) }
{
    let mut spans = Vec::with_capacity(alloc, sections.len())?;
    for (number, section) in sections.iter().enumerate() {
        spans.push(span_of(number as u32, section))?;
    }
    Ok(spans)
}

/// The cuts of sections, between which one of them has all addresses.
pub(crate) fn paint_sections(alloc: Global, sections: &[ImageSectionHeader]) -> Result<Vec<Cut>>
    ensures cuts { IfOk result (λ cuts. AreSectionCuts sections.now cuts.items) }
    ensures refused { IfErr result (λ e. e ≡ Error.OutOfMemory) }
{
    let spans = spans_of(alloc, nameable(sections))?;
    paint(alloc, spans.as_slice())
}

/// The place of an address in the section of a number, counted from 0.
fn place_in(
    sections: &[ImageSectionHeader],
    number: u32,
    at: u64,
) -> Option<PdbInternalSectionOffset>
    requires { IsPlaced at sections.now number }
    ensures { result ≡ place_from at 1 sections.now }
{
    let section = &sections[number as usize];
    let offset = offset_in(at, section.virtual_address, section.virtual_size);
    numbered(number as usize, offset)
}

/// The place of an address in the first section that has it, by the cuts of the sections, with a step for each look.
pub(crate) fn place_among(
    sections: &[ImageSectionHeader],
    cuts: &[Cut],
    at: u64,
    steps: &mut Steps,
) -> Option<PdbInternalSectionOffset>
    requires { AreSectionCuts sections.now cuts.now }
    ensures place { result ≡ place_from at 1 sections.now }
    ensures soon { (digits : ℕ) → length sections.now < 2 ^ digits → steps.new.count ≤ steps.old.count + digits + 1 }
    ensures few { steps.new.count ≤ steps.old.count + length sections.now }
{
    match find_painted(cuts, at, steps) {
        Some(number) => place_in(sections, number, at),
        None => None,
    }
}

//! Spans of numbers that may overlap, painted once: the first listed one that has a number is then found by halving.

ghost use Rattle.std.specs.Prelude.{◌≡◌, ◌+◌, ◌++◌, ◌<◌, ◌≤◌, ◌^◌, ◌-◌, ◌∷◌, ℕ, take, drop, List, [], None, false, length, get_or, IfOk, IfErr, OnOk, IsTrue};
ghost use Rattle.std.specs.Option.{option_or};
ghost use Rattle.pdb_places.specs.declared.painted.Cut.{Cut};
ghost use Rattle.pdb_places.specs.Painting.{owner_at, owner_upto, IsRising, AreCuts, IsOver, LaysOn, PaintsOn, ArePaintedOf};

use crate::span::Span;
use pdb::{Error, Result as PdbResult, Steps};
use std::alloc::{AllocError, Global};

/// What stands for the numbers from one on, up to the next cut.
#[derive(Clone, Copy)]
pub(crate) struct Cut {
    start: u64,
    owner: Option<u32>,
}

/// What stands for a number by the first layer, or else by the second one.
fn either(upper: Option<u32>, lower: Option<u32>) -> Option<u32>
    ensures { result ≡ option_or upper lower }
{
    match upper {
        Some(owner) => Some(owner),
        None => lower,
    }
}

/// Whether the next cut of two layers is one of the first layer.
fn is_of_first(first: &[Cut], i: usize, second: &[Cut], j: usize) -> bool
    requires { (length first.now ≤ i) → j < length second.now }
    ensures first { IsTrue result → i < length first.now }
    ensures before { IsTrue result → (d e : Cut) → j < length second.now → (get_or first.now i d).start ≤ (get_or second.now j e).start }
    ensures second { result ≡ false → j < length second.now }
    ensures behind { result ≡ false → (d e : Cut) → i < length first.now → (get_or second.now j e).start ≤ (get_or first.now i d).start }
{
    if i >= first.len() {
        return false;
    }
    if j >= second.len() {
        return true;
    }
    first[i].start <= second[j].start
}

/// A cut of a list.
fn cut_at(cuts: &[Cut], i: usize) -> Cut
    requires { i < length cuts.now }
    ensures { (d : Cut) → result ≡ get_or cuts.now i d }
{
    cuts[i]
}

/// Lays one layer of cuts over another one.
fn merge(first: &[Cut], second: &[Cut], layer: &mut Vec<Cut>) -> Result<(), AllocError>
    requires first { IsRising first.now }
    requires second { IsRising second.now }
    ensures { OnOk result (IsOver first.now second.now layer.new.items) }
{
    layer.clear();
    let mut upper = None;
    let mut lower = None;
    let mut i = 0;
    let mut j = 0;
    while i < first.len() || j < second.len() {
        if is_of_first(first, i, second, j) {
            let cut = cut_at(first, i);
            upper = cut.owner;
            let owner = either(upper, lower);
            layer.push(Cut {
                start: cut.start,
                owner,
            })?;
            i += 1;
        } else {
            let cut = cut_at(second, j);
            lower = cut.owner;
            let owner = either(upper, lower);
            layer.push(Cut {
                start: cut.start,
                owner,
            })?;
            j += 1;
        }
    }
    Ok(())
}

/// Lays the cuts from one place up to another over those behind, in their place.
fn lay_over(
    cuts: &mut Vec<Cut>,
    from: usize,
    middle: usize,
    layer: &mut Vec<Cut>,
) -> Result<(), AllocError>
    requires order { from ≤ middle }
    requires inside { middle ≤ length cuts.now.items }
    requires first { IsRising (take (middle - from) (drop from cuts.now.items)) }
    requires second { IsRising (drop middle cuts.now.items) }
    ensures { OnOk result (LaysOn (take from cuts.old.items) (take (middle - from) (drop from cuts.old.items)) (drop middle cuts.old.items) cuts.new.items) }
{
    merge(
        &cuts.as_slice()[from..middle],
        &cuts.as_slice()[middle..],
        layer,
    )?;
    cuts.truncate(from);
    cuts.extend_from_slice(layer.as_slice())
}

/// Puts the two cuts of a span behind others.
fn put_span(span: Span, cuts: &mut Vec<Cut>) -> Result<(), AllocError>
    ensures { OnOk result (PaintsOn (span ∷ []) cuts.old.items cuts.new.items) }
{
    cuts.extend_from_slice(&[
        Cut {
            start: span.start,
            owner: Some(span.owner),
        },
        Cut {
            start: span.end,
            owner: None,
        },
    ])
}

/// Puts the cuts of spans behind others: those of each half, and the first laid over the second.
fn paint_on(spans: &[Span], cuts: &mut Vec<Cut>, layer: &mut Vec<Cut>) -> Result<(), AllocError>
    ensures { OnOk result (PaintsOn spans.now cuts.old.items cuts.new.items) }
{
    let half = spans.len() / 2;
    if half == 0 {
        return match spans.first() {
            Some(span) => put_span(*span, cuts),
            None => Ok(()),
        };
    }
    let (first, second) = spans.split_at(half);
    let from = cuts.len();
    paint_on(first, cuts, layer)?;
    let middle = cuts.len();
    paint_on(second, cuts, layer)?;
    lay_over(cuts, from, middle, layer)
}

/// The cuts by which the first listed of these spans is found that has a number. It takes memory for all cuts at once.
pub(crate) fn paint(alloc: Global, spans: &[Span]) -> PdbResult<Vec<Cut>>
    ensures painted { IfOk result (λ cuts. ArePaintedOf spans.now cuts.items) }
    ensures refused { IfErr result (λ e. e ≡ Error.OutOfMemory) }
{
    let count = spans.len().saturating_mul(2);
    let mut cuts = Vec::with_capacity(alloc, count)?;
    let mut layer = Vec::with_capacity(alloc, count)?;
    paint_on(spans, &mut cuts, &mut layer)?;
    Ok(cuts)
}

/// What a cut says at or behind it.
fn owner_upto(at: u64, cut: Cut) -> Option<u32>
    ensures { result ≡ owner_upto at cut }
{
    if cut.start <= at { cut.owner } else { None }
}

/// What stands for a number by cuts. They are searched by halving, and each look at a cut and the next one takes a
/// step.
pub(crate) fn find_painted(cuts: &[Cut], at: u64, steps: &mut Steps) -> Option<u32>
    requires { AreCuts cuts.now }
    ensures found { result ≡ owner_at at None cuts.now }
    ensures probes { (digits : ℕ) → length cuts.now ≤ 2 ^ digits → steps.new.count ≤ steps.old.count + digits }
{
    let mut low = 0;
    let mut high = cuts.len().saturating_sub(1);
    let mut found = None;
    while low < high {
        let middle = low + (high - low) / 2;
        steps.tick();
        if cut_at(cuts, middle + 1).start <= at {
            low = middle + 1;
        } else {
            high = middle;
            found = owner_upto(at, cut_at(cuts, middle));
        }
    }
    found
}

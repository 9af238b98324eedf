//! The ends of the last lines: most lines end with the name of a type, or of an inlined function, that was written
//! shortly before.

ghost use Rattle.std.specs.Prelude.{◌≡◌, ◌<◌, length, replicate, true, None, Some, IfOk, OnOk};
ghost use Rattle.std.specs.List.{All};
ghost use Rattle.tool_types.specs.KeptEnds.{IsCallEnd, IsEnd, number_of_type};
ghost use Rattle.tool_types.specs.LineNames.{call_end, typed_end};
ghost use Rattle.tool_types.specs.LineViews.{names_of_lines};

use crate::line_names::{LineEnd, LineNames};
use pdb::TypeIndex;
use std::alloc::{AllocError, Global};

/// How many ends are kept: nineteen in twenty lines of large programs have one of so many.
const KEPT: usize = 1024;

/// The ends of the last lines, each at a slot that its type's index gives; those of lines of inlined calls, by their
/// ids.
#[derive(Drop)]
pub struct KeptEnds<'x, 'a> {
    alloc: Global,
    names: LineNames<'x, 'a>,
    rows: Vec<Option<LineEnd>>,
    calls: Vec<Option<LineEnd>>,
    ghost exact: { All (IsEnd (names_of_lines names)) rows.items },
    ghost full: { 0 < length rows.items → length rows.items ≡ 1024 },
    ghost exact_calls: { All (IsCallEnd (names_of_lines names)) calls.items },
    ghost full_calls: { 0 < length calls.items → length calls.items ≡ 1024 },
}

/// The index of a type; 0 where there is none.
fn number_of_type(index: Option<TypeIndex>) -> u32
    ensures { result ≡ number_of_type index }
{
    match index {
        Some(index) => index.0,
        None => 0,
    }
}

/// The slot of the end of an index. Pointers to a simple type have its index and a multiple of 256; they have other
/// slots.
fn slot_of(index: u32) -> usize
    ensures { result < 1024 }
{
    let index = index as usize;
    (index + index / 256) % KEPT
}

/// Places without an end.
fn vacant(alloc: Global) -> Result<Vec<Option<LineEnd>>, AllocError>
    ensures { IfOk result (λ rows. rows.items ≡ replicate 1024 None) }
{
    let mut rows = Vec::new(alloc);
    while rows.len() < KEPT {
        rows.push(None)?;
    }
    Ok(rows)
}

impl<'x, 'a> KeptEnds<'x, 'a> {
    ghost use Rattle.tool_types.specs.KeptViews.{kept_call, kept_names, kept_text};

    /// No ends so far, of lines with these names. It takes no memory.
    pub fn new(alloc: Global, names: LineNames<'x, 'a>) -> Self
        ensures { kept_names result ≡ names_of_lines names.entry }
    {
        KeptEnds {
            alloc,
            names,
            rows: Vec::new(alloc),
            calls: Vec::new(alloc),
        }
    }

    /// The names at the ends of lines.
    pub fn names(&self) -> LineNames<'x, 'a>
        ensures { names_of_lines result ≡ kept_names self.now }
    {
        self.names
    }

    // Whether the end of an index is at its slot.
    fn has(&self, slot: usize, index: u32) -> bool
        ensures { result ≡ true → kept_text self.now slot ≡ typed_end (kept_names self.now) (Some (record { 0 = index })) }
    {
        match self.rows.get(slot) {
            Some(Some(end)) => end.index == index,
            _ => false,
        }
    }

    // Takes the memory for all ends before the first one: a module of a few symbols has none.
    #[tactic(auto, using(crate::proofs::KeptLemmas::vacant_size, crate::proofs::KeptLemmas::vacant_ends))]
    fn take_slots(&mut self) -> Result<(), AllocError>
        ensures names { kept_names self.new ≡ kept_names self.old }
        ensures full { OnOk result (length self.new.rows.items ≡ 1024) }
    {
        if self.rows.is_empty() {
            self.rows = vacant(self.alloc)?;
        }
        Ok(())
    }

    // Puts the end of an index at a slot.
    fn fill(&mut self, slot: usize, index: u32) -> Result<(), AllocError>
        requires { slot < 1024 }
        ensures names { kept_names self.new ≡ kept_names self.old }
        ensures kept { OnOk result (kept_text self.new slot ≡ typed_end (kept_names self.new) (Some (record { 0 = index }))) }
    {
        self.take_slots()?;
        let end = self.names.end(self.alloc, index)?;
        self.rows[slot] = Some(end);
        Ok(())
    }

    /// Where the end of a line behind what has a type is kept from now on.
    #[inline(always)]
    #[tactic(auto, using(crate::proofs::KeptLemmas::end_by_number))]
    pub fn keep(&mut self, index: Option<TypeIndex>) -> Result<usize, AllocError>
        ensures names { kept_names self.new ≡ kept_names self.old }
        ensures kept { IfOk result (λ slot. kept_text self.new slot ≡ typed_end (kept_names self.new) index) }
    {
        let number = number_of_type(index);
        let slot = slot_of(number);
        if !self.has(slot, number) {
            self.fill(slot, number)?;
        }
        Ok(slot)
    }

    // Whether the end of lines of the calls of an id is at its slot.
    fn has_call(&self, slot: usize, id: u32) -> bool
        ensures { result ≡ true → kept_call self.now slot ≡ call_end (kept_names self.now) id }
    {
        match self.calls.get(slot) {
            Some(Some(end)) => end.index == id,
            _ => false,
        }
    }

    // Takes the memory for all ends of lines of calls before the first one.
    #[tactic(auto, using(crate::proofs::KeptLemmas::vacant_size, crate::proofs::KeptLemmas::vacant_ends))]
    fn take_calls(&mut self) -> Result<(), AllocError>
        ensures names { kept_names self.new ≡ kept_names self.old }
        ensures full { OnOk result (length self.new.calls.items ≡ 1024) }
    {
        if self.calls.is_empty() {
            self.calls = vacant(self.alloc)?;
        }
        Ok(())
    }

    // Puts the end of lines of the calls of an id at a slot.
    fn fill_call(&mut self, slot: usize, id: u32) -> Result<(), AllocError>
        requires { slot < 1024 }
        ensures names { kept_names self.new ≡ kept_names self.old }
        ensures kept { OnOk result (kept_call self.new slot ≡ call_end (kept_names self.new) id) }
    {
        self.take_calls()?;
        let end = self.names.call_end(self.alloc, id)?;
        self.calls[slot] = Some(end);
        Ok(())
    }

    /// Where the end of a line of an inlined call is kept from now on.
    pub fn keep_call(&mut self, id: u32) -> Result<usize, AllocError>
        ensures names { kept_names self.new ≡ kept_names self.old }
        ensures kept { IfOk result (λ slot. kept_call self.new slot ≡ call_end (kept_names self.new) id) }
    {
        let slot = slot_of(id);
        if !self.has_call(slot, id) {
            self.fill_call(slot, id)?;
        }
        Ok(slot)
    }

    /// The end of a line of an inlined call that is kept at a slot; empty where there is none.
    pub fn call_at(&self, slot: usize) -> &[u8]
        ensures { result.now ≡ kept_call self.now slot }
    {
        match self.calls.get(slot) {
            Some(Some(end)) => &end.text,
            _ => &[],
        }
    }

    /// The end that is kept at a slot; empty where there is none.
    pub fn at(&self, slot: usize) -> &[u8]
        ensures { result.now ≡ kept_text self.now slot }
    {
        match self.rows.get(slot) {
            Some(Some(end)) => &end.text,
            _ => &[],
        }
    }
}

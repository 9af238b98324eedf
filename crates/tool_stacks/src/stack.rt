//! A crash text that is read line by line.

ghost use Rattle.std.specs.Prelude.{◌≡◌, ◌++◌, ◌||◌, IfOk, OnOk, map, not};
ghost use Rattle.tool_stacks.specs.Answers.{Continues, Tells};
ghost use Rattle.tool_stacks.specs.Frames.{Shows, shown_of};
ghost use Rattle.tool_stacks.specs.LineUses.{heard_of};
ghost use Rattle.tool_stacks.specs.Missing.{missing_of};
ghost use Rattle.tool_stacks.specs.Stacks.{begun, frames_in, fresh, has_references, heard_under, is_some_use, kind_under, last_frames, line_text, listing, read_after, read_line, reading_of, shown_in, shown_under, with_range_of};

use crate::asking::Shown;
use crate::begin::{blanked, has_mark};
use crate::line::{Known, LineUse, Modules, add_module, ask_line};
use crate::missing::MissingPdb;
use crate::symbols::Symbols;
use pdb_stacks::{Course, Heading, ListedModule, ReturnAddresses, frame_number, heading_of};
use std::alloc::{AllocError, Global};

/// A crash text that is read line by line.
#[derive(Drop)]
pub struct StackText {
    /// Which addresses are return addresses.
    which: ReturnAddresses,
    /// What the lines so far say of the next one.
    course: Course,
    known: Known,
    shown: Shown,
    /// Whether a line was read.
    is_begun: bool,
    /// Whether the lines so far have a reference.
    has_references: bool,
    /// Whether one of these has frames.
    has_frames: bool,
}

impl StackText {
    /// A text of which no line was read.
    pub fn new(alloc: Global, which: ReturnAddresses) -> StackText
        ensures { reading_of result ≡ begun which }
    {
        StackText {
            which,
            course: Course::begin(),
            known: Known {
                modules: Modules {
                    names: Vec::new(alloc),
                    ranges: Vec::new(alloc),
                },
                failed: None,
                references: Vec::new(alloc),
            },
            shown: Shown {
                frames: Vec::new(alloc),
                last: None,
                missing: Vec::new(alloc),
            },
            is_begun: false,
            has_references: false,
            has_frames: false,
        }
    }

    /// Adds the range of a module by its load address and its size in bytes. It replaces those that it overlaps. There are
    /// 4,096 at most: a further one is passed over.
    pub fn add_module(&mut self, name: &[u8], start: u64, size: u64) -> Result<(), AllocError>
        ensures { OnOk result (reading_of self.new ≡ with_range_of name.now start size (reading_of self.old)) }
    {
        add_module(&mut self.known.modules, name, start, size)
    }

    /// The modules without a PDB, in the order of their first references.
    pub fn missing(&self) -> &[MissingPdb]
        ensures { map missing_of result.now ≡ (reading_of self.now).missing }
    {
        &self.shown.missing
    }

    /// Whether a reference of the lines so far has frames, or they have none.
    pub fn is_answered(&self) -> bool
        ensures { result ≡ ((reading_of self.now).answered || not (reading_of self.now).references) }
    {
        self.has_frames || !self.has_references
    }

    /// Appends a line as it stands, and the frames of its references. The line is without its end; `is_ended` says whether
    /// it has one, and a last line without an end gets one if frames follow. Where memory runs out the text isn't read on.
    pub fn put_line<S: Symbols>(
        &mut self,
        out: &mut Vec<u8>,
        symbols: &mut S,
        line: &[u8],
        is_ended: bool,
    ) -> Result<(), AllocError>
        ensures continues { Continues (S.state symbols.old) (S.state symbols.new) }
        ensures line { OnOk result (out.new.items ≡ out.old.items ++ line_text line.now is_ended (last_frames self.new)) }
        ensures frames { Tells (S.state symbols.old) (S.state symbols.new) (λ a. OnOk result (last_frames self.new ≡ frames_in a (reading_of self.old) line.now)) }
        ensures reading { Tells (S.state symbols.old) (S.state symbols.new) (λ a. OnOk result (reading_of self.new ≡ read_line a (reading_of self.old) line.now)) }
    {
        read_first(self, symbols, line)?;
        put_line(out, line, is_ended, &self.shown.frames)
    }
}

/// Appends a line and the frames behind it. A last line without its end gets one if frames follow.
fn put_line(out: &mut Vec<u8>, line: &[u8], is_ended: bool, frames: &[u8]) -> Result<(), AllocError>
    ensures { OnOk result (out.new.items ≡ out.old.items ++ line_text line.now is_ended frames.now) }
{
    out.extend_from_slice(line)?;
    if is_ended || !frames.is_empty() {
        out.push(b'\n')?;
    }
    out.extend_from_slice(frames)
}

/// Reads a line. The mark of UTF-8 at the text's begin counts as blanks.
fn read_first<S: Symbols>(
    text: &mut StackText,
    symbols: &mut S,
    line: &[u8],
) -> Result<(), AllocError>
    ensures continues { Continues (S.state symbols.old) (S.state symbols.new) }
    ensures frames { Tells (S.state symbols.old) (S.state symbols.new) (λ a. OnOk result (last_frames text.new ≡ frames_in a (reading_of text.old) line.now)) }
    ensures reading { Tells (S.state symbols.old) (S.state symbols.new) (λ a. OnOk result (reading_of text.new ≡ read_line a (reading_of text.old) line.now)) }
{
    if text.is_begun || !has_mark(line) {
        return read_line(text, symbols, line);
    }
    let blanked = blanked(*text.shown.frames.allocator(), line)?;
    read_line(text, symbols, &blanked)
}

/// Forgets the frames of the line before.
fn forget(shown: &mut Shown)
    ensures { shown_of shown.new ≡ fresh (shown_of shown.old).missing }
{
    shown.frames.clear();
    shown.last = None;
}

/// Whether there are references.
fn is_some_use(found: LineUse) -> bool
    ensures { result ≡ is_some_use found }
{
    match found {
        LineUse::Nothing => false,
        LineUse::Fault | LineUse::References => true,
    }
}

/// Whether there are references that aren't the offset of a fault.
fn has_references(found: LineUse) -> bool
    ensures { result ≡ has_references found }
{
    match found {
        LineUse::Nothing | LineUse::Fault => false,
        LineUse::References => true,
    }
}

/// Reads a line: what it is, what it lists, its frames, and what it says of the next one.
fn read_line<S: Symbols>(
    text: &mut StackText,
    symbols: &mut S,
    line: &[u8],
) -> Result<(), AllocError>
    ensures continues { Continues (S.state symbols.old) (S.state symbols.new) }
    ensures frames { Tells (S.state symbols.old) (S.state symbols.new) (λ a. OnOk result (last_frames text.new ≡ (shown_in a (reading_of text.old) line.now).frames)) }
    ensures reading { Tells (S.state symbols.old) (S.state symbols.new) (λ a. OnOk result (reading_of text.new ≡ read_after a (reading_of text.old) line.now)) }
{
    forget(&mut text.shown);
    let heading = heading_of(line);
    let returns = text
        .course
        .has_return_addresses(text.which, frame_number(line));
    let runs = text.course.lists_unloaded;
    let found = read_heading(
        &mut text.known,
        &mut text.shown,
        symbols,
        line,
        heading,
        runs,
        returns,
    )?;
    text.is_begun = true;
    text.has_references |= is_some_use(found);
    text.has_frames |= text.shown.last.is_some();
    text.course = text.course.after(heading, has_references(found));
    Ok(())
}

/// Reads a line by what it is, and returns which references it has.
fn read_heading<S: Symbols>(
    known: &mut Known,
    shown: &mut Shown,
    symbols: &mut S,
    line: &[u8],
    heading: Heading,
    lists_unloaded: bool,
    is_return: bool,
) -> Result<LineUse, AllocError>
    ensures continues { Continues (S.state symbols.old) (S.state symbols.new) }
    ensures kind { IfOk result (λ kind. kind ≡ kind_under heading line.now (heard_of known.old)) }
    ensures heard { OnOk result (heard_of known.new ≡ heard_under heading lists_unloaded line.now (heard_of known.old)) }
    ensures shows { Shows (S.state symbols.old) (S.state symbols.new) result shown.old shown.new (λ a. shown_under heading a is_return line.now (heard_of known.old)) }
{
    match heading {
        Heading::Unloaded | Heading::Inline => Ok(LineUse::Nothing),
        Heading::Module(module) => {
            list_module(known, line, module, lists_unloaded)?;
            Ok(LineUse::Nothing)
        }
        Heading::Other => ask_line(known, shown, symbols, line, is_return),
    }
}

/// Adds the module that a line lists, unless the list of unloaded modules runs.
fn list_module(
    known: &mut Known,
    line: &[u8],
    module: ListedModule,
    lists_unloaded: bool,
) -> Result<(), AllocError>
    ensures { OnOk result (heard_of known.new ≡ listing lists_unloaded line.now «module» (heard_of known.old)) }
{
    if lists_unloaded {
        return Ok(());
    }
    let name = module.name.of(line);
    add_module(&mut known.modules, name, module.start, module.size)
}

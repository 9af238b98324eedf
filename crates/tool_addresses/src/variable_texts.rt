//! The text of a place with the variables in scope there.

ghost use Rattle.std.specs.Prelude.{◌≡◌, ◌++◌, ℕ, List, [], map, option_copied, replicate, IfOk, IfErr, OnOk, true};
ghost use Rattle.pdb.specs.Answers.{debug_information_in};
ghost use Rattle.pdb.specs.Source.{Continues, MayFail};
ghost use Rattle.pdb_places.specs.AsIfEmpty.{if_read};
ghost use Rattle.pdb_resolve.specs.KeptFrames.{shown_frame};
ghost use Rattle.pdb_variables.specs.VariableViews.{shown_location, shown_variable};
ghost use Rattle.tool_fields.specs.ModuleMachines.{file_machine};
ghost use Rattle.tool_addresses.specs.OwnedLines.{Keeps, call_texts, calls_behind, first_text, further_texts, last_texts, own_behind, with_line};
ghost use Rattle.tool_addresses.specs.VariableTexts.{framed, framed_text, further_parts, kind_word, location_text, machine_at, parts_text, storage_text, stored_part, variable_line, variables_text};
ghost use Rattle.tool_output.specs.Stops.{StopsComposing};
ghost use Rattle.tool_output.specs.declared.stop.Stop.{Stop};

use pdb::{DebugInformation, PdbInternalSectionOffset, Source};
use pdb_records::Machine;
use pdb_resolve::{
    Frame, Location, Resolver, Storage, VariableAt, VariableKind, VariablePart, put_frame,
};
use pdb_text::put_line_end;
use std::alloc::{AllocError, Global};
use tool_fields::register_names::put_register_name;
use tool_fields::values::{put_behind_blank, put_place};
use tool_fields::values_forms::put_variant;
use tool_output::stop::{Stop, stop_of};
use tool_symbols::symbol_texts::machine_in;
use tool_symbols::variable_places::{
    put_at_base_pointer, put_at_register, put_in_frame, put_part, put_program,
};

/// The word for what a variable is.
fn kind_word(kind: VariableKind) -> &'static str
    ensures { result.now ≡ kind_word kind }
{
    match kind {
        VariableKind::Parameter => "param",
        VariableKind::Local => "local",
        VariableKind::Static => "static",
        VariableKind::Thread => "thread",
        VariableKind::Constant => "constant",
    }
}

/// Where a variable, or a part of it, is stored.
fn put_storage(
    out: &mut Vec<u8>,
    machine: Option<Machine>,
    storage: Storage,
) -> Result<(), AllocError>
    ensures { OnOk result (out.new.items ≡ out.old.items ++ storage_text machine storage) }
{
    match storage {
        Storage::Register(register) => put_register_name(out, machine, register),
        Storage::RegisterRelative(register, offset) => {
            put_at_register(out, machine, register, offset)
        }
        Storage::BasePointerRelative(offset) => put_at_base_pointer(out, machine, offset),
        Storage::FrameRelative(base, offset) => put_in_frame(out, machine, base, offset),
        Storage::Program(program) => put_program(out, program),
    }
}

/// A part of a variable: its offset, and where it is.
fn put_stored_part(
    out: &mut Vec<u8>,
    machine: Option<Machine>,
    part: VariablePart,
) -> Result<(), AllocError>
    ensures { OnOk result (out.new.items ≡ out.old.items ++ stored_part machine part) }
{
    put_part(out, part.offset)?;
    put_storage(out, machine, part.storage)
}

/// Parts behind the first one.
fn put_further_parts(
    out: &mut Vec<u8>,
    machine: Option<Machine>,
    parts: &[VariablePart],
) -> Result<(), AllocError>
    ensures { OnOk result (out.new.items ≡ out.old.items ++ further_parts machine parts.now) }
{
    for part in parts {
        out.push(b',')?;
        put_stored_part(out, machine, *part)?;
    }
    Ok(())
}

/// The parts of a variable, with a comma between them.
fn put_parts(
    out: &mut Vec<u8>,
    machine: Option<Machine>,
    parts: &[VariablePart],
) -> Result<(), AllocError>
    ensures { OnOk result (out.new.items ≡ out.old.items ++ parts_text machine parts.now) }
{
    match parts.split_first() {
        Some((first, further)) => {
            put_stored_part(out, machine, *first)?;
            put_further_parts(out, machine, further)
        }
        None => Ok(()),
    }
}

/// Where a variable is; `-` if it is nowhere.
fn put_location(
    out: &mut Vec<u8>,
    machine: Option<Machine>,
    location: &Location,
) -> Result<(), AllocError>
    ensures { OnOk result (out.new.items ≡ out.old.items ++ location_text machine (shown_location location.now)) }
{
    match location {
        Location::Nowhere => out.extend_from_slice(b"-"),
        Location::Whole(storage) => put_storage(out, machine, *storage),
        Location::Parts(parts) => put_parts(out, machine, parts.as_slice()),
        Location::At(offset) => put_place(out, *offset),
        Location::Value(value) => put_variant(out, *value),
    }
}

/// The capacity for a line before it grows, in bytes.
const LINE: usize = 64;

/// The line of a variable.
#[tactic(auto, unfolding(crate::specs::VariableTexts::variable_line))]
pub fn put_variable(
    out: &mut Vec<u8>,
    machine: Option<Machine>,
    variable: &VariableAt<'_>,
) -> Result<(), AllocError>
    ensures { OnOk result (out.new.items ≡ out.old.items ++ variable_line machine (shown_variable variable.now)) }
{
    out.reserve(LINE)?;
    out.extend_from_slice(b"  ")?;
    out.extend_from_slice(kind_word(variable.kind).as_bytes())?;
    out.push(b' ')?;
    put_location(out, machine, &variable.location)?;
    put_behind_blank(out, variable.name.as_bytes())?;
    put_line_end(out)
}

/// The lines of variables, kept apart by the frames behind which they stand: a pass over the variables is enough,
/// however many frames there are.
#[derive(Drop)]
struct OwnedLines {
    /// Those of the function's own variables.
    own: Vec<u8>,
    /// Those of each inlined call, by its number.
    calls: Vec<Vec<u8>>,
}

/// So many empty texts.
fn empty_texts(alloc: Global, count: usize) -> Result<Vec<Vec<u8>>, AllocError>
    ensures { IfOk result (λ texts. map (λ text. text.items) texts.items ≡ replicate count []) }
{
    let mut texts = Vec::with_capacity(alloc, count)?;
    for _ in 0..count {
        texts.push(Vec::new(alloc))?;
    }
    Ok(texts)
}

/// The line of a variable behind the text of this number, if there is one.
fn put_in_text(
    texts: &mut Vec<Vec<u8>>,
    number: usize,
    machine: Option<Machine>,
    variable: &VariableAt<'_>,
) -> Result<(), AllocError>
    ensures { OnOk result (map (λ text. text.items) texts.new.items ≡ with_line (variable_line machine (shown_variable variable.now)) number (map (λ text. text.items) texts.old.items)) }
{
    match texts.get_mut(number) {
        Some(text) => put_variable(text, machine, variable),
        None => Ok(()),
    }
}

impl OwnedLines {
    /// No lines, of a function with so many calls.
    fn of_calls(alloc: Global, count: usize) -> Result<Self, AllocError>
        ensures own { IfOk result (λ t. t.own.items ≡ []) }
        ensures calls { IfOk result (λ t. call_texts t ≡ replicate count []) }
    {
        Ok(OwnedLines {
            own: Vec::new(alloc),
            calls: empty_texts(alloc, count)?,
        })
    }

    /// One more line; nothing if the variable is of another call.
    fn put(&mut self, machine: Option<Machine>, variable: &VariableAt<'_>) -> Result<(), AllocError>
        ensures own { OnOk result (self.new.own.items ≡ own_behind (variable_line machine (shown_variable variable.now)) variable.now.owner self.old.own.items) }
        ensures calls { OnOk result (call_texts self.new ≡ calls_behind (variable_line machine (shown_variable variable.now)) variable.now.owner (call_texts self.old)) }
    {
        match variable.owner {
            Some(call) => put_in_text(&mut self.calls, call, machine, variable),
            None => put_variable(&mut self.own, machine, variable),
        }
    }

    /// Puts the lines of the last call, which is then none any more; without a call those of the function.
    #[tactic(auto, using(crate::proofs::OwnedLines::popped_first, crate::proofs::OwnedLines::popped_rest))]
    fn put_last(&mut self, out: &mut Vec<u8>) -> Result<(), AllocError>
        ensures text { OnOk result (out.new.items ≡ out.old.items ++ first_text self.old.own.items (last_texts self.old)) }
        ensures own { self.new.own.items ≡ self.old.own.items }
        ensures calls { last_texts self.new ≡ further_texts (last_texts self.old) }
    {
        match self.calls.pop() {
            Some(text) => out.extend_from_slice(text.as_slice()),
            None => out.extend_from_slice(self.own.as_slice()),
        }
    }
}

/// The lines of variables, by owners: the function, and so many calls.
#[tactic(auto, using(crate::proofs::OwnedLines::none_kept))]
fn owned_lines(
    alloc: Global,
    machine: Option<Machine>,
    variables: &[VariableAt<'_>],
    calls: usize,
) -> Result<OwnedLines, AllocError>
    ensures { IfOk result (λ t. Keeps machine (map shown_variable variables.now) calls t) }
{
    let mut lines = OwnedLines::of_calls(alloc, calls)?;
    for variable in variables {
        lines.put(machine, variable)?;
    }
    Ok(lines)
}

/// The lines of frames, and behind those of each the lines of its variables.
#[tactic(auto, using(crate::proofs::OwnedLines::all_put))]
pub fn put_framed(
    out: &mut Vec<u8>,
    machine: Option<Machine>,
    variables: &[VariableAt<'_>],
    frames: &[Frame<'_>],
) -> Result<(), AllocError>
    ensures { OnOk result (out.new.items ≡ out.old.items ++ framed machine (map shown_variable variables.now) (map shown_frame frames.now)) }
{
    let alloc = *out.allocator();
    let calls = frames.len().saturating_sub(1);
    let mut lines = owned_lines(alloc, machine, variables, calls)?;
    for frame in frames {
        put_frame(out, frame)?;
        lines.put_last(out)?;
    }
    Ok(())
}

/// The machine that the header of a DBI stream names; none without one.
#[tactic(auto, using(crate::proofs::HeaderMachines::header_read, crate::proofs::HeaderMachines::no_header))]
fn header_machine(information: Option<&DebugInformation<'_>>) -> Option<Machine>
    ensures { (file : List ℕ) → option_copied information.entry ≡ if_read (debug_information_in file) → result ≡ file_machine file }
{
    match information {
        Some(information) => Machine::of_image(information.header().machine_type),
        None => None,
    }
}

/// The machine of the code at a place.
fn machine_at<'s, S: Source<'s>>(
    alloc: Global,
    resolver: &mut Resolver<'_, 's, S>,
    place: Option<PdbInternalSectionOffset>,
) -> Result<Option<Machine>, Stop>
    ensures continues { Continues resolver.old resolver.new }
    ensures is { resolver.new.told ≡ true → IfOk result (λ m. m ≡ machine_at resolver.old.file place) }
    ensures unwritten { IfErr result (StopsComposing (MayFail resolver.old resolver.new)) }
{
    let Some(place) = place else {
        return Ok(None);
    };
    match resolver.module_info_at(place).map_err(stop_of)? {
        Some(info) => {
            let header = header_machine(resolver.information_read());
            Ok(machine_in(alloc, header, info)?)
        }
        None => Ok(None),
    }
}

/// The text of a place: the lines of each frame, those of its variables, and an empty line.
#[tactic(auto, unfolding(crate::specs::VariableTexts::variables_text))]
pub fn put_variables<'s, S: Source<'s>>(
    resolver: &mut Resolver<'_, 's, S>,
    out: &mut Vec<u8>,
    place: Option<PdbInternalSectionOffset>,
) -> Result<(), Stop>
    ensures continues { Continues resolver.old resolver.new }
    ensures text { resolver.new.told ≡ true → OnOk result (out.new.items ≡ out.old.items ++ variables_text resolver.old.file place) }
    ensures unwritten { IfErr result (StopsComposing (MayFail resolver.old resolver.new)) }
{
    let frames = resolver.frames(place).map_err(stop_of)?;
    let variables = resolver.variables(place).map_err(stop_of)?;
    let alloc = *out.allocator();
    let machine = machine_at(alloc, resolver, place)?;
    put_framed(out, machine, variables.as_slice(), frames.as_slice())?;
    Ok(put_line_end(out)?)
}

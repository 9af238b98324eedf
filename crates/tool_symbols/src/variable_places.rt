//! Where variables are, in words.

ghost use Rattle.std.specs.Prelude.{◌≡◌, ◌++◌, codes, flat_map, OnOk};
ghost use Rattle.pdb_records.specs.RecordViews.{gaps_in, shown_record};
ghost use Rattle.tool_fields.specs.RecordValues.{frame_register_on};
ghost use Rattle.tool_fields.specs.ValueTexts.{register_on};
ghost use Rattle.pdb.specs.Views.{symbol_of};
ghost use Rattle.tool_symbols.specs.VariableViews.{shown_extent};
ghost use Rattle.tool_symbols.specs.VariablePlaces.{base_of, base_pointer, behind_lines, extent_lines, extent_of, frame_text, in_frame, is_of_ranges, memory_text, offset_text, part_if, part_text, piece_line, place_of, program_text, range_lines, where_text};

use crate::depth::put_blanks;
use crate::scope_frames::Bases;
use pdb::{PdbInternalSectionOffset, Register, Symbol};
use pdb_records::{AddressRange, Gaps, Machine, Piece, Pieces, Record};
use pdb_text::{put_decimal, put_field, put_line_end};
use std::alloc::{AllocError, Global};
use tool_fields::register_names::{frame_register, put_register_name};
use tool_fields::values::put_place;

/// An offset behind a register's name: with its sign, and nothing for 0.
fn put_offset(out: &mut Vec<u8>, offset: i32) -> Result<(), AllocError>
    ensures { OnOk result (out.new.items ≡ out.old.items ++ offset_text offset) }
{
    let size = offset.unsigned_abs();
    if size == 0 {
        return Ok(());
    }
    out.push(if offset.is_negative() { b'-' } else { b'+' })?;
    put_decimal(out, u64::from(size))
}

/// A place in memory: a register's name and an offset from its value, in brackets.
fn put_memory_at(
    out: &mut Vec<u8>,
    machine: Option<Machine>,
    register: Register,
    offset: i32,
) -> Result<(), AllocError>
    ensures { OnOk result (out.new.items ≡ out.old.items ++ memory_text (register_on machine register) offset) }
{
    out.push(b'[')?;
    put_register_name(out, machine, register)?;
    put_offset(out, offset)?;
    out.extend_from_slice(b"]")
}

/// The same, where the name isn't that of a register's number.
fn put_memory(out: &mut Vec<u8>, name: &[u8], offset: i32) -> Result<(), AllocError>
    ensures { OnOk result (out.new.items ≡ out.old.items ++ memory_text name.now offset) }
{
    out.push(b'[')?;
    out.extend_from_slice(name)?;
    put_offset(out, offset)?;
    out.extend_from_slice(b"]")
}

/// The name of a machine's base pointer; `frame` where none is known.
fn base_pointer(machine: Option<Machine>) -> &'static str
    ensures { result.now ≡ base_pointer machine }
{
    match machine {
        Some(Machine::X86) => "ebp",
        Some(Machine::X64) => "rbp",
        _ => "frame",
    }
}

/// A place at an offset from the base pointer.
pub fn put_at_base_pointer(
    out: &mut Vec<u8>,
    machine: Option<Machine>,
    offset: i32,
) -> Result<(), AllocError>
    ensures { OnOk result (out.new.items ≡ out.old.items ++ memory_text (base_pointer machine) offset) }
{
    put_memory(out, base_pointer(machine).as_bytes(), offset)
}

/// A place at an offset from the value of a register.
pub fn put_at_register(
    out: &mut Vec<u8>,
    machine: Option<Machine>,
    register: Register,
    offset: i32,
) -> Result<(), AllocError>
    ensures { OnOk result (out.new.items ≡ out.old.items ++ memory_text (register_on machine register) offset) }
{
    put_memory_at(out, machine, register, offset)
}

/// A place at an offset from the register of a frame; `frame` where it is not known.
pub fn put_in_frame(
    out: &mut Vec<u8>,
    machine: Option<Machine>,
    base: u8,
    offset: i32,
) -> Result<(), AllocError>
    ensures { OnOk result (out.new.items ≡ out.old.items ++ in_frame machine base offset) }
{
    match frame_register(machine, base) {
        Some(register) => put_memory_at(out, machine, register, offset),
        None => put_memory(out, b"frame", offset),
    }
}

/// The offset of a part in its variable.
pub fn put_part(out: &mut Vec<u8>, offset: u32) -> Result<(), AllocError>
    ensures { OnOk result (out.new.items ≡ out.old.items ++ part_text offset) }
{
    out.push(b'+')?;
    put_decimal(out, u64::from(offset))?;
    out.extend_from_slice(b":")
}

/// The same, where there is a part.
fn put_part_if(out: &mut Vec<u8>, subfield: Option<u16>) -> Result<(), AllocError>
    ensures { OnOk result (out.new.items ≡ out.old.items ++ part_if subfield) }
{
    match subfield {
        Some(offset) => put_part(out, u32::from(offset)),
        None => Ok(()),
    }
}

/// The number of a program that computes a variable.
pub fn put_program(out: &mut Vec<u8>, program: u32) -> Result<(), AllocError>
    ensures { OnOk result (out.new.items ≡ out.old.items ++ program_text program) }
{
    out.extend_from_slice(b"program:")?;
    put_decimal(out, u64::from(program))
}

/// A part of a variable, and the number of the program that computes it.
fn put_part_by_program(out: &mut Vec<u8>, part: u32, program: u32) -> Result<(), AllocError>
    ensures { OnOk result (out.new.items ≡ out.old.items ++ (part_text part ++ program_text program)) }
{
    put_part(out, part)?;
    put_program(out, program)
}

/// A part of a variable, and its register.
fn put_part_in_register(
    out: &mut Vec<u8>,
    machine: Option<Machine>,
    part: u32,
    register: Register,
) -> Result<(), AllocError>
    ensures { OnOk result (out.new.items ≡ out.old.items ++ (part_text part ++ register_on machine register)) }
{
    put_part(out, part)?;
    put_register_name(out, machine, register)
}

/// A part of a variable, if it isn't the whole one, and its place at an offset from the value of a register.
fn put_part_at_register(
    out: &mut Vec<u8>,
    machine: Option<Machine>,
    subfield: Option<u16>,
    register: Register,
    offset: i32,
) -> Result<(), AllocError>
    ensures { OnOk result (out.new.items ≡ out.old.items ++ (part_if subfield ++ memory_text (register_on machine register) offset)) }
{
    put_part_if(out, subfield)?;
    put_memory_at(out, machine, register, offset)
}

/// Where a record of a range says that a variable is, or a part of one.
fn put_where(
    out: &mut Vec<u8>,
    machine: Option<Machine>,
    base: u8,
    parsed: &Record<'_>,
) -> Result<(), AllocError>
    ensures { OnOk result (out.new.items ≡ out.old.items ++ where_text machine base (shown_record parsed.now)) }
{
    match parsed {
        Record::DefRange(s) => put_program(out, s.program),
        Record::DefRangeSubfield(s) => put_part_by_program(out, s.offset_in_parent, s.program),
        Record::DefRangeRegister(s) => put_register_name(out, machine, s.register),
        Record::DefRangeFramePointerRelative(s) => put_in_frame(out, machine, base, s.offset),
        Record::DefRangeSubfieldRegister(s) => {
            put_part_in_register(out, machine, s.offset_in_parent, s.register)
        }
        Record::DefRangeFramePointerRelativeFullScope(s) => {
            put_in_frame(out, machine, base, s.offset)
        }
        Record::DefRangeRegisterRelative(s) => {
            put_part_at_register(out, machine, s.subfield, s.register, s.offset)
        }
        _ => Ok(()),
    }
}

/// In which code a variable is somewhere.
#[derive(Clone, Copy)]
enum Extent<'t> {
    Nowhere,
    Everywhere,
    Within(AddressRange, Gaps<'t>),
}

/// In which code a record of a range holds.
fn extent_of<'t>(parsed: &Record<'t>) -> Extent<'t>
    ensures { shown_extent result ≡ extent_of (shown_record parsed.now) }
{
    match parsed {
        Record::DefRange(s) => Extent::Within(s.range, s.gaps),
        Record::DefRangeSubfield(s) => Extent::Within(s.range, s.gaps),
        Record::DefRangeRegister(s) => Extent::Within(s.range, s.gaps),
        Record::DefRangeFramePointerRelative(s) => Extent::Within(s.range, s.gaps),
        Record::DefRangeSubfieldRegister(s) => Extent::Within(s.range, s.gaps),
        Record::DefRangeFramePointerRelativeFullScope(_) => Extent::Everywhere,
        Record::DefRangeRegisterRelative(s) => Extent::Within(s.range, s.gaps),
        _ => Extent::Nowhere,
    }
}

/// Where a piece of a range stands that starts at this place.
fn place_of(start: PdbInternalSectionOffset, piece: Piece) -> PdbInternalSectionOffset
    ensures { result ≡ place_of start piece }
{
    PdbInternalSectionOffset {
        offset: start.offset.wrapping_add(u32::from(piece.start)),
        section: start.section,
    }
}

/// The line of a piece of a range that starts at this place.
fn put_piece(
    out: &mut Vec<u8>,
    depth: usize,
    word: &[u8],
    start: PdbInternalSectionOffset,
    piece: Piece,
) -> Result<(), AllocError>
    ensures { OnOk result (out.new.items ≡ out.old.items ++ piece_line depth word.now start piece) }
{
    put_blanks(out, depth)?;
    out.extend_from_slice(word)?;
    out.push(b' ')?;
    put_place(out, place_of(start, piece))?;
    put_field(out, u64::from(piece.len))?;
    put_line_end(out)
}

/// The lines of pieces.
fn put_pieces(
    out: &mut Vec<u8>,
    depth: usize,
    word: &[u8],
    start: PdbInternalSectionOffset,
    pieces: &[Piece],
) -> Result<(), AllocError>
    ensures { OnOk result (out.new.items ≡ out.old.items ++ flat_map (piece_line depth word.now start) pieces.now) }
{
    for piece in pieces {
        put_piece(out, depth, word, start, *piece)?;
    }
    Ok(())
}

/// Puts the lines of records of ranges. What it has is used again for the next record.
#[derive(Drop)]
pub struct RangeLines {
    word: Vec<u8>,
    pieces: Pieces,
}

impl RangeLines {
    /// It takes no memory.
    pub fn new(alloc: Global) -> Self {
        RangeLines {
            word: Vec::new(alloc),
            pieces: Pieces::new(alloc),
        }
    }

    /// The lines of a word for each piece of the code in which it holds.
    fn put_extent(
        &mut self,
        out: &mut Vec<u8>,
        depth: usize,
        extent: Extent<'_>,
    ) -> Result<(), AllocError>
        ensures { OnOk result (out.new.items ≡ out.old.items ++ extent_lines depth self.old.word.items (shown_extent extent.entry)) }
    {
        match extent {
            Extent::Nowhere => Ok(()),
            Extent::Everywhere => {
                put_blanks(out, depth)?;
                out.extend_from_slice(self.word.as_slice())?;
                put_line_end(out)
            }
            Extent::Within(range, gaps) => {
                self.pieces.find(range.len, gaps)?;
                put_pieces(
                    out,
                    depth,
                    self.word.as_slice(),
                    range.start,
                    self.pieces.as_slice(),
                )
            }
        }
    }

    /// The lines of a record of a range.
    #[tactic(auto, unfolding(crate::specs::VariablePlaces::range_lines))]
    fn put(
        &mut self,
        out: &mut Vec<u8>,
        machine: Option<Machine>,
        base: u8,
        depth: usize,
        parsed: &Record<'_>,
    ) -> Result<(), AllocError>
        ensures { OnOk result (out.new.items ≡ out.old.items ++ range_lines machine base depth (shown_record parsed.now)) }
    {
        self.word.clear();
        put_where(&mut self.word, machine, base, parsed)?;
        self.put_extent(out, depth, extent_of(parsed))
    }

    /// The lines of a symbol that is a record of a range, behind a variable; nothing where it can't be read.
    pub fn put_behind(
        &mut self,
        out: &mut Vec<u8>,
        machine: Option<Machine>,
        bases: Bases,
        depth: usize,
        variable: Option<bool>,
        symbol: &Symbol<'_>,
    ) -> Result<(), AllocError>
        ensures { OnOk result (out.new.items ≡ out.old.items ++ behind_lines machine bases depth variable (symbol_of symbol.now).bytes) }
    {
        let Some(parameter) = variable else {
            return Ok(());
        };
        match Record::parse(symbol) {
            Ok(parsed) => self.put(out, machine, base_of(bases, parameter), depth, &parsed),
            Err(_) => Ok(()),
        }
    }
}

/// The base from which a variable counts.
fn base_of(bases: Bases, parameter: bool) -> u8
    ensures { result ≡ base_of bases parameter }
{
    if parameter {
        bases.parameter
    } else {
        bases.local
    }
}

/// Whether a kind is one of records of ranges.
pub fn is_of_ranges(kind: u16) -> bool
    ensures { result ≡ is_of_ranges kind }
{
    (0x113f <= kind && kind <= 0x1145) || kind == 0x1150 || kind == 0x1157
}

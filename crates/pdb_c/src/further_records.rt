//! Further records: what `pdb_symbols` and `pdb_global_symbols` don't read.

ghost use Rattle.std.specs.Prelude.{◌≡◌, Ok, Err, is_some};
ghost use Rattle.std.specs.Option.{unwrap_or};
ghost use Rattle.pdb.specs.Refusal.{Answers, number_of};
ghost use Rattle.pdb_records.specs.RecordViews.{shown_record};
ghost use Rattle.pdb_c.specs.FrameRows.{told_of};
ghost use Rattle.pdb_c.specs.RecordNumbers.{IsRecordRow, RecordTold, offset_or_zero, record_in, record_row, section_or_zero};

use crate::answers::{DONE, code_of};
use crate::frames::told_of;
use crate::record_fields::{
    record_flags, record_form, record_name, record_part, record_place, record_size, record_storage,
    record_type,
};
use pdb::{Error, PdbInternalSectionOffset, Result, Symbol, SymbolIndex};
use pdb_records::Record;

/// A further record in numbers. A field that the record doesn't have is 0 or empty. The name borrows the record.
#[repr(C)]
#[derive(Clone, Copy)]
pub struct PdbRecord<'a> {
    /// Its name.
    pub name: &'a [u8],
    /// The record layout, from 1.
    pub form: u32,
    /// The index of its type.
    pub type_index: u32,
    /// Its flags.
    pub flags: u32,
    /// Where the variable is, or a part of it.
    pub location: u32,
    /// The number of a register or of a program.
    pub number: u32,
    /// How many bytes behind the register's value.
    pub displacement: i32,
    /// The offset in the section: of a range its start.
    pub offset: u32,
    /// The section.
    pub section: u32,
    /// How many bytes what stands there has.
    pub size: u32,
    /// The offset of a part in its variable.
    pub part: u32,
    /// 1 where it has an offset in a section.
    pub has_place: u32,
    /// 1 where it is of a part of the variable.
    pub is_part: u32,
}

fn place_or_zero(place: Option<PdbInternalSectionOffset>) -> PdbInternalSectionOffset
    ensures offset { result.offset ≡ offset_or_zero place }
    ensures section { result.section ≡ section_or_zero place }
{
    match place {
        Some(place) => place,
        None => PdbInternalSectionOffset::new(0, 0),
    }
}

/// The row of a record of these bytes.
fn record_row<'a>(bytes: &[u8], said: &Record<'a>) -> PdbRecord<'a>
    ensures { IsRecordRow result (record_row bytes.now (shown_record said.now)) }
{
    let stored = record_storage(said);
    let place = record_place(said);
    let part = record_part(said);
    PdbRecord {
        name: record_name(said),
        form: record_form(said),
        type_index: record_type(said),
        flags: record_flags(bytes, said),
        location: stored.location,
        number: stored.number,
        displacement: stored.displacement,
        offset: place_or_zero(place).offset,
        section: u32::from(place_or_zero(place).section),
        size: record_size(said),
        part: part.unwrap_or(0),
        has_place: told_of(place.is_some()),
        is_part: told_of(part.is_some()),
    }
}

/// What is read of a record's bytes.
pub fn record_in(bytes: &[u8]) -> Result<Record<'_>>
    ensures { Answers shown_record result (record_in bytes.entry.now) }
{
    match Symbol::new(SymbolIndex(0), bytes) {
        Some(symbol) => Record::parse(&symbol),
        None => Err(Error::SymbolTooShort),
    }
}

/// What a record says that `pdb_symbols` doesn't read, by its bytes with the kind and without the length. On an error
/// `out` stays as it was.
#[unsafe(no_mangle)]
pub extern "C" fn pdb_record<'a>(bytes: &'a [u8], out: &mut PdbRecord<'a>) -> u32
    ensures { RecordTold bytes.now result out.old out.new (record_in bytes.now) }
{
    match record_in(bytes) {
        Ok(said) => {
            *out = record_row(bytes, &said);
            DONE
        }
        Err(e) => code_of(e),
    }
}

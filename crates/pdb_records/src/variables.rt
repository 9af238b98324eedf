//! Variables: the structs, and how they are read.

ghost use Rattle.std.specs.Prelude.{◌≡◌};
ghost use Rattle.pdb_base.specs.Layouts.{ReadsPart};
ghost use Rattle.pdb_base.specs.Refusal.{Answers};
ghost use Rattle.pdb_records.specs.RecordParts.{static_head};
ghost use Rattle.pdb_records.specs.RecordTable.{read_of_record};
ghost use Rattle.pdb_records.specs.RecordViews.{shown_record};
ghost use Rattle.pdb_records.specs.declared.form.RecordForm.TheVariants as form;

use crate::fields::parse_name;
use crate::flags::VariableFlags;
use crate::record::Record;
use pdb_base::{ParseBuffer, RawString, Result, TypeIndex};

/// A variable at an offset from the frame's base pointer: `BPRELSYM32` of `cvinfo.h`, in records `S_BPREL32` (0x110b)
/// and `S_BPREL32_ST` (0x1006).
#[derive(Clone, Copy, Debug, Eq, PartialEq)]
pub struct BasePointerRelative<'t> {
    /// How far behind the base pointer's value the variable stands, in bytes.
    pub offset: i32,
    /// The variable's type.
    pub type_index: TypeIndex,
    /// The variable's name.
    pub name: RawString<'t>,
}

/// A static variable of a file that is kept in registers: `FILESTATICSYM` of `cvinfo.h`, in records `S_FILESTATIC`
/// (0x1153). The records behind it have its locations.
#[derive(Clone, Copy, Debug, Eq, PartialEq)]
pub struct FileStatic<'t> {
    /// The variable's type.
    pub type_index: TypeIndex,
    /// Where the name of the module's file stands in the string table, in bytes.
    pub module_file: u32,
    /// The variable's flags.
    pub flags: VariableFlags,
    /// The variable's name.
    pub name: RawString<'t>,
}

#[inline]
#[tactic(auto, unfolding(crate::specs::RecordTable::read_of_record))]
pub(crate) fn parse_base_pointer_relative<'t>(
    kind: u16,
    buffer: &mut ParseBuffer<'t>,
) -> Result<Record<'t>>
    requires { buffer.old.place ≡ 2 }
    ensures { Answers shown_record result (read_of_record form.BasePointerRelative kind buffer.old.bytes) }
{
    let offset = buffer.parse_i32()?;
    let type_index = TypeIndex(buffer.parse_u32()?);
    let name = parse_name(kind, buffer)?;
    Ok(Record::BasePointerRelative(BasePointerRelative {
        offset,
        type_index,
        name,
    }))
}

// A type, where the name of its module's file stands, and flags.
#[inline]
#[tactic(auto, unfolding(pdb_base::specs::Layouts::together_at))]
fn parse_static_head(buffer: &mut ParseBuffer<'_>) -> Result<(TypeIndex, u32, VariableFlags)>
    ensures { ReadsPart (λ x. (x.0, (x.1, x.2))) static_head 0 buffer.old buffer.new result }
{
    let type_index = TypeIndex(buffer.parse_u32()?);
    let module_file = buffer.parse_u32()?;
    let flags = VariableFlags::of(buffer.parse_u16()?);
    Ok((type_index, module_file, flags))
}

#[inline]
#[tactic(auto, unfolding(crate::specs::RecordTable::read_of_record))]
pub(crate) fn parse_file_static<'t>(kind: u16, buffer: &mut ParseBuffer<'t>) -> Result<Record<'t>>
    requires { buffer.old.place ≡ 2 }
    ensures { Answers shown_record result (read_of_record form.FileStatic kind buffer.old.bytes) }
{
    let (type_index, module_file, flags) = parse_static_head(buffer)?;
    let name = parse_name(kind, buffer)?;
    Ok(Record::FileStatic(FileStatic {
        type_index,
        module_file,
        flags,
        name,
    }))
}

//! Records of older compilers, and of other kinds of code: the structs, and how they are read.

ghost use Rattle.std.specs.Prelude.{◌≡◌};
ghost use Rattle.pdb_base.specs.Layouts.{ReadsPart};
ghost use Rattle.pdb_base.specs.Refusal.{Answers};
ghost use Rattle.pdb_records.specs.RecordFlags.{discard_of};
ghost use Rattle.pdb_records.specs.RecordParts.{with_span};
ghost use Rattle.pdb_records.specs.RecordTable.{read_of_record};
ghost use Rattle.pdb_records.specs.RecordViews.{shown_record};
ghost use Rattle.pdb_records.specs.declared.form.RecordForm.TheVariants as form;

use crate::fields::{parse_module, parse_name, parse_offset, parse_optional_index, parse_rest};
use crate::flags::{MiniReferenceFlags, ModuleTypeFlags};
use crate::record::Record;
use pdb_base::{
    ParseBuffer, PdbInternalSectionOffset, RawString, Register, Result, SymbolIndex, TypeIndex,
};

/// A variable at an offset from a register's value: `REGREL32` of `cvinfo.h`, in records `S_REGREL32_ST` (0x100d).
#[derive(Clone, Copy, Debug, Eq, PartialEq)]
pub struct RegisterRelativeOld<'t> {
    /// How far behind the register's value the variable stands, in bytes.
    pub offset: i32,
    /// The variable's type.
    pub type_index: TypeIndex,
    /// The register.
    pub register: Register,
    /// The variable's name.
    pub name: RawString<'t>,
}

/// A scope in which members of a variable are named alone: `WITHSYM32` of `cvinfo.h`, in records `S_WITH32` (0x1104)
/// and `S_WITH32_ST` (0x0208).
#[derive(Clone, Copy, Debug, Eq, PartialEq)]
pub struct With<'t> {
    /// The index of the symbol in whose scope it stands.
    pub parent: Option<SymbolIndex>,
    /// The index of the symbol that ends the scope.
    pub end: SymbolIndex,
    /// The length of the scope's code, in bytes.
    pub len: u32,
    /// Where the scope's code stands.
    pub offset: PdbInternalSectionOffset,
    /// The expression of the variable.
    pub name: RawString<'t>,
}

/// Where a table of virtual functions stands, by the path to a base class: `VPATHSYM32` of `cvinfo.h`, in records
/// `S_VFTABLE32` (0x100c).
#[derive(Clone, Copy, Debug, Eq, PartialEq)]
pub struct VirtualTablePath {
    /// The type of the class.
    pub root: TypeIndex,
    /// The type of the path to the base class.
    pub path: TypeIndex,
    /// Where the table stands.
    pub offset: PdbInternalSectionOffset,
}

/// How a module's types are kept: `MODTYPEREF` of `cvinfo.h`, in records `S_MOD_TYPEREF` (0x115f).
#[derive(Clone, Copy, Debug, Eq, PartialEq)]
pub struct ModuleTypeReference {
    /// Where the types are.
    pub flags: ModuleTypeFlags,
    /// A number of a stream or of a module, by the flags.
    pub word0: u16,
    /// A second such number.
    pub word1: u16,
}

/// A reference into an object file: `REFMINIPDB` of `cvinfo.h`, in records `S_REF_MINIPDB` (0x1160).
#[derive(Clone, Copy, Debug, Eq, PartialEq)]
pub struct MiniReference<'t> {
    /// A section of the object file, or a type, by the flags.
    pub value: u32,
    /// The module's number, counted from 0; the record counts from 1, and says 0 for none.
    pub module: Option<usize>,
    /// What is referred to.
    pub flags: MiniReferenceFlags,
    /// The name.
    pub name: RawString<'t>,
}

/// Why the linker discarded what a record was of: `DISCARDED_..` of `cvinfo.h`.
#[derive(Clone, Copy, Debug, Eq, PartialEq)]
pub enum Discard {
    /// It isn't said: 0.
    NotSaid,
    /// Another one of the same name was selected: 1.
    NotSelected,
    /// Nothing refers to it: 2.
    NotReferenced,
    /// Another number.
    Unknown(u8),
}

impl Discard {
    // The reason in bits 0 to 7 of a word.
    #[inline]
    fn of(word: u32) -> Self
        ensures { result ≡ discard_of word }
    {
        match (word % 256) as u8 {
            0 => Discard::NotSaid,
            1 => Discard::NotSelected,
            2 => Discard::NotReferenced,
            other => Discard::Unknown(other),
        }
    }
}

/// A record of what the linker discarded: `DISCARDEDSYM` of `cvinfo.h`, in records `S_DISCARDED` (0x113b).
#[derive(Clone, Copy, Debug, Eq, PartialEq)]
pub struct Discarded<'t> {
    /// Why it was discarded: bits 0 to 7 of the flags.
    pub why: Discard,
    /// The first file id where it was, or 0xffffffff.
    pub file: u32,
    /// The first line where it was.
    pub line: u32,
    /// The records that were discarded, to the record's end.
    pub content: &'t [u8],
}

/// How a module was compiled, as the oldest compilers wrote it: `CFLAGSYM` of `cvinfo.h`, in records `S_COMPILE`
/// (0x0001).
#[derive(Clone, Copy, Debug, Eq, PartialEq)]
pub struct Compile<'t> {
    /// The number of the processor.
    pub cpu: u8,
    /// The number of the language.
    pub language: u8,
    /// Flags of the code, the floating-point unit and the memory model.
    pub flags: u16,
    /// The compiler's name and version.
    pub name: RawString<'t>,
}

/// Where a search for symbols starts: `SEARCHSYM` of `cvinfo.h`, in records `S_SSEARCH` (0x0005).
#[derive(Clone, Copy, Debug, Eq, PartialEq)]
pub struct StartSearch {
    /// The index of the procedure at which it starts.
    pub start: SymbolIndex,
    /// The section.
    pub section: u16,
}

#[inline]
#[tactic(auto, unfolding(crate::specs::RecordTable::read_of_record))]
pub(crate) fn parse_register_relative_old<'t>(
    kind: u16,
    buffer: &mut ParseBuffer<'t>,
) -> Result<Record<'t>>
    requires { buffer.old.place ≡ 2 }
    ensures { Answers shown_record result (read_of_record form.RegisterRelativeOld kind buffer.old.bytes) }
{
    let offset = buffer.parse_i32()?;
    let type_index = TypeIndex(buffer.parse_u32()?);
    let register = Register(buffer.parse_u16()?);
    let name = parse_name(kind, buffer)?;
    Ok(Record::RegisterRelativeOld(RegisterRelativeOld {
        offset,
        type_index,
        register,
        name,
    }))
}

// The symbol around a scope, the end of the scope, and its length.
#[inline]
#[tactic(auto, unfolding(pdb_base::specs::Layouts::together_at))]
fn parse_with_span(buffer: &mut ParseBuffer<'_>) -> Result<(Option<SymbolIndex>, SymbolIndex, u32)>
    ensures { ReadsPart (λ x. (x.0, (x.1, x.2))) with_span 0 buffer.old buffer.new result }
{
    let parent = parse_optional_index(buffer)?;
    let end = SymbolIndex(buffer.parse_u32()?);
    let len = buffer.parse_u32()?;
    Ok((parent, end, len))
}

#[inline]
#[tactic(auto, unfolding(crate::specs::RecordTable::read_of_record))]
pub(crate) fn parse_with<'t>(kind: u16, buffer: &mut ParseBuffer<'t>) -> Result<Record<'t>>
    requires { buffer.old.place ≡ 2 }
    ensures { Answers shown_record result (read_of_record form.With kind buffer.old.bytes) }
{
    let (parent, end, len) = parse_with_span(buffer)?;
    let offset = parse_offset(buffer)?;
    let name = parse_name(kind, buffer)?;
    Ok(Record::With(With {
        parent,
        end,
        len,
        offset,
        name,
    }))
}

#[inline]
#[tactic(auto, unfolding(crate::specs::RecordTable::read_of_record))]
pub(crate) fn parse_virtual_table_path<'t>(
    kind: u16,
    buffer: &mut ParseBuffer<'t>,
) -> Result<Record<'t>>
    requires { buffer.old.place ≡ 2 }
    ensures { Answers shown_record result (read_of_record form.VirtualTablePath kind buffer.old.bytes) }
{
    let root = TypeIndex(buffer.parse_u32()?);
    let path = TypeIndex(buffer.parse_u32()?);
    let offset = parse_offset(buffer)?;
    Ok(Record::VirtualTablePath(VirtualTablePath { root, path, offset }))
}

#[inline]
#[tactic(auto, unfolding(crate::specs::RecordTable::read_of_record))]
pub(crate) fn parse_module_type_reference<'t>(
    kind: u16,
    buffer: &mut ParseBuffer<'t>,
) -> Result<Record<'t>>
    requires { buffer.old.place ≡ 2 }
    ensures { Answers shown_record result (read_of_record form.ModuleTypeReference kind buffer.old.bytes) }
{
    let flags = ModuleTypeFlags::of(buffer.parse_u32()?);
    let word0 = buffer.parse_u16()?;
    let word1 = buffer.parse_u16()?;
    Ok(Record::ModuleTypeReference(ModuleTypeReference {
        flags,
        word0,
        word1,
    }))
}

#[inline]
#[tactic(auto, unfolding(crate::specs::RecordTable::read_of_record))]
pub(crate) fn parse_mini_reference<'t>(
    kind: u16,
    buffer: &mut ParseBuffer<'t>,
) -> Result<Record<'t>>
    requires { buffer.old.place ≡ 2 }
    ensures { Answers shown_record result (read_of_record form.MiniReference kind buffer.old.bytes) }
{
    let value = buffer.parse_u32()?;
    let module = parse_module(buffer)?;
    let flags = MiniReferenceFlags::of(buffer.parse_u16()?);
    let name = parse_name(kind, buffer)?;
    Ok(Record::MiniReference(MiniReference {
        value,
        module,
        flags,
        name,
    }))
}

#[inline]
#[tactic(auto, unfolding(crate::specs::RecordTable::read_of_record))]
pub(crate) fn parse_discarded<'t>(kind: u16, buffer: &mut ParseBuffer<'t>) -> Result<Record<'t>>
    requires { buffer.old.place ≡ 2 }
    ensures { Answers shown_record result (read_of_record form.Discarded kind buffer.old.bytes) }
{
    let word = buffer.parse_u32()?;
    let file = buffer.parse_u32()?;
    let line = buffer.parse_u32()?;
    let content = parse_rest(buffer)?;
    Ok(Record::Discarded(Discarded {
        why: Discard::of(word),
        file,
        line,
        content,
    }))
}

#[inline]
#[tactic(auto, unfolding(crate::specs::RecordTable::read_of_record))]
pub(crate) fn parse_compile<'t>(kind: u16, buffer: &mut ParseBuffer<'t>) -> Result<Record<'t>>
    requires { buffer.old.place ≡ 2 }
    ensures { Answers shown_record result (read_of_record form.Compile kind buffer.old.bytes) }
{
    let cpu = buffer.parse_u8()?;
    let language = buffer.parse_u8()?;
    let flags = buffer.parse_u16()?;
    let name = parse_name(kind, buffer)?;
    Ok(Record::Compile(Compile {
        cpu,
        language,
        flags,
        name,
    }))
}

#[inline]
#[tactic(auto, unfolding(crate::specs::RecordTable::read_of_record))]
pub(crate) fn parse_start_search<'t>(kind: u16, buffer: &mut ParseBuffer<'t>) -> Result<Record<'t>>
    requires { buffer.old.place ≡ 2 }
    ensures { Answers shown_record result (read_of_record form.StartSearch kind buffer.old.bytes) }
{
    let start = SymbolIndex(buffer.parse_u32()?);
    let section = buffer.parse_u16()?;
    Ok(Record::StartSearch(StartSearch { start, section }))
}

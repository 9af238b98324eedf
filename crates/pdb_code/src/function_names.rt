//! The names of functions, and what names a place.

ghost use Rattle.std.specs.Prelude.{◌≡◌, ℕ, List, ◌++◌, None, Some, option_copied, IfOk, IfErr, OnOk};
ghost use Rattle.std.specs.Option.{option_map};
ghost use Rattle.pdb.specs.Text.{name_bytes};
ghost use Rattle.pdb_names.specs.Spelling.{spelled, text_of};
ghost use Rattle.pdb_code.specs.Namings.{plain, IsNamed, name_shown, shown_function_name, shown_naming};
ghost use Rattle.pdb_code.specs.Leading.{leading_text, prefix_of, target_text};
ghost use Rattle.pdb_code.specs.Machines.{x86_by};
ghost use Rattle.pdb_code.specs.ModuleCode.{named, unnamed};

use pdb::{
    DebugInformation, Error, PdbInternalSectionOffset, QualifiedName, RawString, Result,
    TrampolineType,
};
use pdb_names::put_name as put_spelled;
use pdb_text::put_decimal;
use std::alloc::{AllocError, Global};
use std::result::Result as StdResult;

/// The name of a function.
#[derive(Drop)]
pub enum FunctionName<'a> {
    /// A name as the file has it.
    Read(QualifiedName<'a>),
    /// A name that is made: what a public symbol's decorated name spells, or that of a jump which the linker made.
    Made(Vec<u8>),
}

impl<'a> FunctionName<'a> {
    /// What stands before the name and `::`, if anything does.
    pub fn qualifier(&self) -> Option<RawString<'a>>
        ensures { option_map name_bytes result ≡ (shown_function_name self.now).scope }
    {
        match self {
            FunctionName::Read(name) => name.scope,
            FunctionName::Made(_) => None,
        }
    }

    /// The bytes of the name without what stands before it.
    pub fn unqualified(&self) -> &[u8]
        ensures { result.now ≡ (shown_function_name self.now).name }
    {
        match self {
            FunctionName::Read(name) => name.name.as_bytes(),
            FunctionName::Made(name) => name.as_slice(),
        }
    }
}

/// What names a place: a function's name, and the offset in its section at which the record that has the name begins.
#[derive(Drop)]
pub struct Naming<'a> {
    pub name: Option<FunctionName<'a>>,
    pub start: Option<u32>,
}

/// Nothing names a place.
pub fn nothing<'a>() -> Naming<'a>
    ensures { IsNamed result unnamed }
{
    Naming {
        name: None,
        start: None,
    }
}

/// What names the code of a record at a place, with a name that is read or made.
pub fn naming_at<'a>(name: FunctionName<'a>, place: PdbInternalSectionOffset) -> Naming<'a>
    ensures { (bytes : List ℕ) → shown_function_name name.entry ≡ plain bytes → IsNamed result (named bytes place) }
{
    Naming {
        name: Some(name),
        start: Some(place.offset),
    }
}

/// What names code by its record: the record's name, and the offset in its section at which the code begins.
#[derive(Clone, Copy)]
pub struct NamedCode<'t> {
    pub name: Option<RawString<'t>>,
    pub start: Option<u32>,
}

/// What names the code of a record at a place.
pub fn named_code<'t>(name: RawString<'t>, place: PdbInternalSectionOffset) -> NamedCode<'t>
    ensures { shown_naming result ≡ named (name_bytes name.entry) place }
{
    NamedCode {
        name: Some(name),
        start: Some(place.offset),
    }
}

impl<'t> From<NamedCode<'t>> for Naming<'t> {
    ghost from_gives = { λ code n. IsNamed n (shown_naming code) };

    fn from(code: NamedCode<'t>) -> Self {
        Naming {
            name: match code.name {
                Some(name) => Some(name_read(name)),
                None => None,
            },
            start: code.start,
        }
    }
}

/// A name as the file has it, which isn't qualified.
pub fn name_read<'a>(name: RawString<'a>) -> FunctionName<'a>
    ensures { shown_function_name result ≡ plain (name_bytes name.entry) }
{
    FunctionName::Read(QualifiedName { scope: None, name })
}

/// Whether an image is for x86, by the header of the DBI stream.
pub fn is_x86(information: Option<&DebugInformation<'_>>) -> bool
    ensures { result ≡ x86_by (option_copied information.entry) }
{
    match information {
        Some(information) => information.header().machine_type == 0x14c,
        None => false,
    }
}

/// The name that a decorated name spells, or its bytes as they are.
pub fn spelled_name<'a>(alloc: Global, name: RawString<'a>, x86: bool) -> Result<FunctionName<'a>>
    ensures spelled { IfOk result (λ n. shown_function_name n ≡ plain (text_of (name_bytes name.entry) (spelled (name_bytes name.entry) x86))) }
    ensures refused { IfErr result (λ e. e ≡ Error.OutOfMemory) }
{
    let mut spelled = Vec::new(alloc);
    if put_spelled(&mut spelled, name.as_bytes(), x86)? {
        return Ok(FunctionName::Made(spelled));
    }
    Ok(name_read(name))
}

/// The name of a jump which the linker made, and of what it leads to.
pub fn leading_name<'a>(
    alloc: Global,
    kind: TrampolineType,
    number: u32,
    target: Option<&FunctionName<'_>>,
) -> Result<FunctionName<'a>>
    ensures name { IfOk result (λ n. shown_function_name n ≡ plain (leading_text kind number (option_map name_shown (option_copied target.entry)))) }
    ensures refused { IfErr result (λ e. e ≡ Error.OutOfMemory) }
{
    let mut name = Vec::new(alloc);
    put_prefix(&mut name, kind)?;
    name.push(b'+')?;
    put_decimal(&mut name, u64::from(number))?;
    name.push(b'(')?;
    put_target(&mut name, target)?;
    name.push(b')')?;
    Ok(FunctionName::Made(name))
}

/// What the name of such a jump begins with.
fn put_prefix(out: &mut Vec<u8>, kind: TrampolineType) -> StdResult<(), AllocError>
    ensures { OnOk result (out.new.items ≡ out.old.items ++ prefix_of kind) }
{
    match kind {
        TrampolineType::BranchIsland => out.extend_from_slice(b"island"),
        _ => out.extend_from_slice(b"ILT"),
    }
}

/// The name of what such a jump leads to.
fn put_target(out: &mut Vec<u8>, target: Option<&FunctionName<'_>>) -> StdResult<(), AllocError>
    ensures { OnOk result (out.new.items ≡ out.old.items ++ target_text (option_map name_shown (option_copied target.entry))) }
{
    match target {
        Some(name) if !name.unqualified().is_empty() => out.extend_from_slice(name.unqualified()),
        _ => out.extend_from_slice(b"??"),
    }
}

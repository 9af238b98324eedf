//! Modules and compilers: the structs, and how they are read.

ghost use Rattle.std.specs.Prelude.{◌≡◌};
ghost use Rattle.pdb_base.specs.Refusal.{Answers};
ghost use Rattle.pdb_symbols.specs.Data.{shown};
ghost use Rattle.pdb_base.specs.Layouts.{ReadsPart};
ghost use Rattle.pdb_symbols.specs.Groups.{compiled_for, three_numbers, qfe, version, versions, version_parts};
ghost use Rattle.pdb_symbols.specs.FormTable.{read_of};
ghost use Rattle.pdb_symbols.specs.declared.form.Form.TheVariants as form;

use crate::data::SymbolData;
use crate::fields::parse_name;
use crate::flags::{CompileFlags, ExportSymbolFlags};
use crate::language::SourceLanguage;
use crate::processor::CPUType;
use pdb_base::{IdIndex, ParseBuffer, RawString, Result};

/// The name of an object file: `OBJNAMESYM` of `cvinfo.h`, in records `S_OBJNAME` (0x1101) and `S_OBJNAME_ST` (0x0009).
#[derive(Clone, Copy, Debug, Eq, PartialEq)]
pub struct ObjNameSymbol<'t> {
    /// The file's signature.
    pub signature: u32,
    /// The file's name.
    pub name: RawString<'t>,
}

/// The version of a compiler.
#[derive(Clone, Copy, Debug, Eq, PartialEq)]
pub struct CompilerVersion {
    /// The major number.
    pub major: u16,
    /// The minor number.
    pub minor: u16,
    /// The build's number.
    pub build: u16,
    /// The number of the quick fix, which kind 0x113c alone has.
    pub qfe: Option<u16>,
}

/// How a module was compiled: `COMPILESYM` and `COMPILESYM3` of `cvinfo.h`, in records `S_COMPILE2` (0x1116),
/// `S_COMPILE2_ST` (0x1013) and `S_COMPILE3` (0x113c).
#[derive(Clone, Copy, Debug, Eq, PartialEq)]
pub struct CompileFlagsSymbol<'t> {
    /// The language.
    pub language: SourceLanguage,
    /// The compiler's flags.
    pub flags: CompileFlags,
    /// The processor that was compiled for.
    pub cpu_type: CPUType,
    /// The version of the compiler's front end.
    pub frontend_version: CompilerVersion,
    /// The version of the compiler's back end.
    pub backend_version: CompilerVersion,
    /// The version as text.
    pub version_string: RawString<'t>,
}

/// A namespace that is used: `UNAMESPACE` of `cvinfo.h`, in records `S_UNAMESPACE` (0x1124) and `S_UNAMESPACE_ST`
/// (0x1029).
#[derive(Clone, Copy, Debug, Eq, PartialEq)]
pub struct UsingNamespaceSymbol<'t> {
    /// The namespace's name.
    pub name: RawString<'t>,
}

/// A symbol that the image exports: `EXPORTSYM` of `cvinfo.h`, in records `S_EXPORT` (0x1138).
#[derive(Clone, Copy, Debug, Eq, PartialEq)]
pub struct ExportSymbol<'t> {
    /// The ordinal by which it is exported.
    pub ordinal: u16,
    /// The export's flags.
    pub flags: ExportSymbolFlags,
    /// The name.
    pub name: RawString<'t>,
}

/// What a module was built with: `BUILDINFOSYM` of `cvinfo.h`, in records `S_BUILDINFO` (0x114c).
#[derive(Clone, Copy, Debug, Eq, PartialEq)]
pub struct BuildInfoSymbol {
    /// The id of the build's record.
    pub id: IdIndex,
}

#[inline]
#[tactic(auto, unfolding(crate::specs::FormTable::read_of))]
pub(crate) fn parse_obj_name<'t>(kind: u16, buffer: &mut ParseBuffer<'t>) -> Result<SymbolData<'t>>
    requires { buffer.old.place ≡ 2 }
    ensures { Answers shown result (read_of form.ObjName kind buffer.old.bytes) }
{
    let signature = buffer.parse_u32()?;
    let name = parse_name(kind, buffer)?;
    Ok(SymbolData::ObjName(ObjNameSymbol { signature, name }))
}

// A language, flags, a byte that is unused, and a processor.
#[inline]
#[tactic(auto, unfolding(pdb_base::specs::Layouts::grouped_at))]
fn parse_compiled_for(
    kind: u16,
    buffer: &mut ParseBuffer<'_>,
) -> Result<(SourceLanguage, CompileFlags, u8, CPUType)>
    ensures { ReadsPart (λ x. (x.0, (x.1, (x.2, x.3)))) compiled_for kind buffer.old buffer.new result }
{
    let language = SourceLanguage::from(buffer.parse_u8()?);
    let flags = CompileFlags::of(kind, buffer.parse_u16()?);
    let unused = buffer.parse_u8()?;
    let cpu_type = CPUType::from(buffer.parse_u16()?);
    Ok((language, flags, unused, cpu_type))
}

#[inline]
#[tactic(auto, unfolding(pdb_base::specs::Layouts::together_at))]
fn parse_three_numbers(buffer: &mut ParseBuffer<'_>) -> Result<(u16, u16, u16)>
    ensures { ReadsPart (λ x. (x.0, (x.1, x.2))) three_numbers 0 buffer.old buffer.new result }
{
    let first = buffer.parse_u16()?;
    let second = buffer.parse_u16()?;
    let third = buffer.parse_u16()?;
    Ok((first, second, third))
}

// The number of a quick fix, which kind 0x113c alone has.
#[inline]
fn parse_qfe(kind: u16, buffer: &mut ParseBuffer<'_>) -> Result<Option<u16>>
    ensures { ReadsPart (λ x. x) qfe kind buffer.old buffer.new result }
{
    if kind != 0x113c {
        return Ok(None);
    }
    let number = buffer.parse_u16()?;
    Ok(Some(number))
}

#[inline]
#[tactic(auto, unfolding(pdb_base::specs::Layouts::grouped_at))]
fn parse_version(kind: u16, buffer: &mut ParseBuffer<'_>) -> Result<CompilerVersion>
    ensures { ReadsPart version_parts version kind buffer.old buffer.new result }
{
    let (major, minor, build) = parse_three_numbers(buffer)?;
    let qfe = parse_qfe(kind, buffer)?;
    Ok(CompilerVersion {
        major,
        minor,
        build,
        qfe,
    })
}

// The versions of the front end and of the back end.
#[inline]
#[tactic(auto, unfolding(pdb_base::specs::Layouts::grouped_at))]
fn parse_versions(
    kind: u16,
    buffer: &mut ParseBuffer<'_>,
) -> Result<(CompilerVersion, CompilerVersion)>
    ensures { ReadsPart (λ x. (version_parts x.0, version_parts x.1)) versions kind buffer.old buffer.new result }
{
    let frontend = parse_version(kind, buffer)?;
    let backend = parse_version(kind, buffer)?;
    Ok((frontend, backend))
}

#[inline]
#[tactic(auto, unfolding(crate::specs::FormTable::read_of))]
pub(crate) fn parse_compile_flags<'t>(
    kind: u16,
    buffer: &mut ParseBuffer<'t>,
) -> Result<SymbolData<'t>>
    requires { buffer.old.place ≡ 2 }
    ensures { Answers shown result (read_of form.CompileFlags kind buffer.old.bytes) }
{
    let (language, flags, _, cpu_type) = parse_compiled_for(kind, buffer)?;
    let (frontend_version, backend_version) = parse_versions(kind, buffer)?;
    let version_string = parse_name(kind, buffer)?;
    Ok(SymbolData::CompileFlags(CompileFlagsSymbol {
        language,
        flags,
        cpu_type,
        frontend_version,
        backend_version,
        version_string,
    }))
}

#[inline]
#[tactic(auto, unfolding(crate::specs::FormTable::read_of))]
pub(crate) fn parse_using_namespace<'t>(
    kind: u16,
    buffer: &mut ParseBuffer<'t>,
) -> Result<SymbolData<'t>>
    requires { buffer.old.place ≡ 2 }
    ensures { Answers shown result (read_of form.UsingNamespace kind buffer.old.bytes) }
{
    let name = parse_name(kind, buffer)?;
    Ok(SymbolData::UsingNamespace(UsingNamespaceSymbol { name }))
}

#[inline]
#[tactic(auto, unfolding(crate::specs::FormTable::read_of))]
pub(crate) fn parse_export<'t>(kind: u16, buffer: &mut ParseBuffer<'t>) -> Result<SymbolData<'t>>
    requires { buffer.old.place ≡ 2 }
    ensures { Answers shown result (read_of form.Export kind buffer.old.bytes) }
{
    let ordinal = buffer.parse_u16()?;
    let flags = ExportSymbolFlags::of(buffer.parse_u16()?);
    let name = parse_name(kind, buffer)?;
    Ok(SymbolData::Export(ExportSymbol {
        ordinal,
        flags,
        name,
    }))
}

#[inline]
#[tactic(auto, unfolding(crate::specs::FormTable::read_of))]
pub(crate) fn parse_build_info<'t>(
    kind: u16,
    buffer: &mut ParseBuffer<'t>,
) -> Result<SymbolData<'t>>
    requires { buffer.old.place ≡ 2 }
    ensures { Answers shown result (read_of form.BuildInfo kind buffer.old.bytes) }
{
    let id = IdIndex(buffer.parse_u32()?);
    Ok(SymbolData::BuildInfo(BuildInfoSymbol { id }))
}

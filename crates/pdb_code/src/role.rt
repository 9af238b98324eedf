//! The role of a symbol record in the code of a module.

ghost use Rattle.std.specs.Prelude.{◌≡◌, ◌≤◌, ◌⊎◌, false, IfOk, IfErr, IfSome};
ghost use Rattle.pdb.specs.Forms.{kind_at, record_at};
ghost use Rattle.pdb.specs.Views.{symbol_of};
ghost use Rattle.pdb_code.specs.ModuleCode.{is_managed, is_trampoline, role};
ghost use Rattle.pdb_code.specs.ModuleCode.Role.{passed};
ghost use Rattle.pdb_code.specs.Kept.{EndsInZero, procedure_role, shown_role, site_role};

use crate::code_records::may_be_code;
use pdb::{
    BinaryAnnotations, Error, IdIndex, InlineSiteSymbol, PdbInternalSectionOffset, Result, Symbol,
    SymbolData, SymbolIndex,
};
use pdb_base::little_endian::{u8_at, u16_at, u32_at};
use std::alloc::Global;

/// A piece of code: where it begins, how many bytes it has, and the symbol that ends its scope.
#[derive(Clone, Copy)]
pub struct Span {
    pub(crate) place: PdbInternalSectionOffset,
    pub(crate) length: u32,
    pub(crate) end: SymbolIndex,
}

/// The role of a symbol in the code of a module.
#[derive(Clone, Copy)]
pub enum Role<'t> {
    /// A procedure.
    Procedure(Span),
    /// A thunk or separated code.
    Other(Span),
    /// A site into which a function was inlined, of which the function and the annotations were read.
    Site(InlineSiteSymbol<'t>),
    /// Another symbol, or one that can't be read.
    Passed,
}

/// The role of a site's record, whose annotations begin at `from`. There are many, so no more is read than what shows
/// its lines.
#[inline]
fn site_role(bytes: &[u8], from: usize) -> Role<'_>
    requires { 14 ≤ from }
    ensures { shown_role result ≡ site_role from bytes.entry.now }
{
    if bytes.len() < from {
        return Role::Passed;
    }
    let (_, annotations) = bytes.split_at(from);
    Role::Site(InlineSiteSymbol {
        parent: None,
        end: SymbolIndex(0),
        inlinee: IdIndex(u32_at(bytes, 10)),
        invocations: None,
        annotations: BinaryAnnotations::new(annotations),
    })
}

/// The role of a symbol, by all that its record says; out of memory is passed on.
fn parsed_role<'t>(alloc: Global, symbol: &Symbol<'t>) -> Result<Role<'t>>
    ensures is { IfOk result (λ h. shown_role h ≡ role (record_at (symbol_of symbol.now).bytes)) }
    ensures refused { IfErr result (λ e. e ≡ Error.OutOfMemory) }
{
    match symbol.parse(alloc) {
        Ok(SymbolData::Procedure(s)) => Ok(Role::Procedure(Span {
            place: s.offset,
            length: s.len,
            end: s.end,
        })),
        Ok(SymbolData::Thunk(s)) => Ok(Role::Other(Span {
            place: s.offset,
            length: u32::from(s.len),
            end: s.end,
        })),
        Ok(SymbolData::SeparatedCode(s)) => Ok(Role::Other(Span {
            place: s.offset,
            length: s.len,
            end: s.end,
        })),
        Ok(SymbolData::InlineSite(site)) => Ok(Role::Site(site)),
        Ok(_) => Ok(Role::Passed),
        Err(Error::OutOfMemory) => Err(Error::OutOfMemory),
        Err(_) => Ok(Role::Passed),
    }
}

/// The code of a procedure, by the places of the numbers in its record. None where the record's last byte isn't zero:
/// then its name may not end, and all of it has to be read.
#[inline]
fn procedure_span(bytes: &[u8]) -> Option<Span>
    ensures span { IfSome result (λ s. shown_role (Role.Procedure s) ≡ procedure_role bytes.now) }
    ensures ends { IfSome result (λ _. EndsInZero bytes.now) }
{
    if bytes.len() < 38 {
        return None;
    }
    if u8_at(bytes, bytes.len() - 1) != 0 {
        return None;
    }
    Some(Span {
        place: PdbInternalSectionOffset::new(u16_at(bytes, 34), u32_at(bytes, 30)),
        length: u32_at(bytes, 14),
        end: SymbolIndex(u32_at(bytes, 6)),
    })
}

/// Whether a symbol may have a role.
#[inline(always)]
#[tactic(auto, using(crate::proofs::CodeKinds::passed_over))]
fn has_role(symbol: &Symbol<'_>) -> bool
    ensures { result ≡ false → role (record_at (symbol_of symbol.now).bytes) ≡ passed }
{
    may_be_code(symbol.raw_kind())
}

/// Whether a kind is that of managed procedures.
#[inline]
pub(crate) fn is_managed(kind: u16) -> bool
    ensures { result ≡ is_managed kind }
{
    kind == 0x112a || kind == 0x112b || kind == 0x101a || kind == 0x101b
}

/// Whether a kind is that of trampolines.
#[inline(always)]
pub(crate) fn is_trampoline(kind: u16) -> bool
    ensures { result ≡ is_trampoline kind }
{
    kind == 0x112c
}

/// The role of a symbol that starts no site; out of memory is passed on.
#[inline(always)]
fn other_role<'t>(alloc: Global, symbol: &Symbol<'t>) -> Result<Role<'t>>
    ensures is { IfOk result (λ h. shown_role h ≡ role (record_at (symbol_of symbol.now).bytes)) }
    ensures refused { IfErr result (λ e. e ≡ Error.OutOfMemory) }
{
    if !has_role(symbol) {
        return Ok(Role::Passed);
    }
    parsed_role(alloc, symbol)
}

/// The role of a symbol of one of the two usual kinds of procedures; out of memory is passed on.
#[inline]
#[tactic(auto, using(crate::proofs::ProcedureRecords::procedure_read))]
fn usual_procedure<'t>(alloc: Global, symbol: &Symbol<'t>) -> Result<Role<'t>>
    requires { (kind_at (symbol_of symbol.now).bytes ≡ 0x110f) ⊎ (kind_at (symbol_of symbol.now).bytes ≡ 0x1110) }
    ensures is { IfOk result (λ h. shown_role h ≡ role (record_at (symbol_of symbol.now).bytes)) }
    ensures refused { IfErr result (λ e. e ≡ Error.OutOfMemory) }
{
    match procedure_span(symbol.raw_bytes()) {
        Some(span) => Ok(Role::Procedure(span)),
        None => other_role(alloc, symbol),
    }
}

/// The role of a symbol; out of memory is passed on.
#[inline(always)]
pub fn role_of<'t>(alloc: Global, symbol: &Symbol<'t>) -> Result<Role<'t>>
    ensures is { IfOk result (λ h. shown_role h ≡ role (record_at (symbol_of symbol.now).bytes)) }
    ensures refused { IfErr result (λ e. e ≡ Error.OutOfMemory) }
{
    match symbol.raw_kind() {
        0x114d => Ok(site_role(symbol.raw_bytes(), 14)),
        0x115d => Ok(site_role(symbol.raw_bytes(), 18)),
        0x110f | 0x1110 => usual_procedure(alloc, symbol),
        _ => other_role(alloc, symbol),
    }
}

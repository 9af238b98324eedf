//! Thunks and trampolines: the structs, and how they are read.

ghost use Rattle.std.specs.Prelude.{◌≡◌};
ghost use Rattle.pdb_base.specs.Refusal.{Answers};
ghost use Rattle.pdb_symbols.specs.Data.{shown, shown_thunk_kind, adjustor_delta, adjustor_target};
ghost use Rattle.pdb_base.specs.Layouts.{ReadsPart};
ghost use Rattle.pdb_symbols.specs.Groups.{thunk_place, thunk_head, thunk_does, trampoline_of};
ghost use Rattle.pdb_symbols.specs.FormTable.{read_of};
ghost use Rattle.pdb_symbols.specs.declared.form.Form.TheVariants as form;
ghost use Rattle.pdb_base.specs.Text.{name_bytes};

use crate::data::SymbolData;
use crate::fields::{parse_name, parse_offset, parse_two_places};
use crate::procedures::parse_scope;
use pdb_base::{ParseBuffer, PdbInternalSectionOffset, RawString, Result, SymbolIndex};

/// What a thunk does that adjusts `this`: `THUNK_ORDINAL_ADJUSTOR` of `cvinfo.h`.
#[derive(Clone, Copy, Debug, Eq, PartialEq)]
pub struct ThunkAdjustor<'t> {
    delta: u16,
    target: RawString<'t>,
}

impl<'t> ThunkAdjustor<'t> {
    /// What is added to `this`, in bytes.
    pub fn delta(&self) -> u16
        ensures { result ≡ adjustor_delta self.now }
    {
        self.delta
    }

    /// The name of the function to which the thunk leads.
    pub fn target(&self) -> RawString<'t>
        ensures { name_bytes result ≡ adjustor_target self.now }
    {
        self.target
    }
}

/// What a thunk does: `THUNK_ORDINAL` of `cvinfo.h`, and what stands behind the name for it.
#[derive(Clone, Copy, Debug, Eq, PartialEq)]
pub enum ThunkKind<'t> {
    /// A plain thunk: ordinal 0.
    NoType,
    /// One that adjusts `this`: ordinal 1.
    Adjustor(ThunkAdjustor<'t>),
    /// A virtual call, by the offset of its entry in the table: ordinal 2.
    VCall(u16),
    /// One of pcode: ordinal 3.
    PCode,
    /// One that loads the address to which it jumps: ordinal 4.
    Load,
    /// Any other ordinal.
    Unknown(u8),
}

/// A thunk: `THUNKSYM32` of `cvinfo.h`, in records `S_THUNK32` (0x1102) and `S_THUNK32_ST` (0x0206). It starts a scope.
#[derive(Clone, Copy, Debug, Eq, PartialEq)]
pub struct ThunkSymbol<'t> {
    /// The symbol around this one, if any.
    pub parent: Option<SymbolIndex>,
    /// The symbol that ends the scope.
    pub end: SymbolIndex,
    /// The next symbol, if it is named.
    pub next: Option<SymbolIndex>,
    /// Where the code begins.
    pub offset: PdbInternalSectionOffset,
    /// The length of the code, in bytes.
    pub len: u16,
    /// What the thunk does.
    pub kind: ThunkKind<'t>,
    /// The name.
    pub name: RawString<'t>,
}

/// What a trampoline is for: `TRAMP_e` of `cvinfo.h`.
#[derive(Clone, Copy, Debug, Eq, PartialEq)]
pub enum TrampolineType {
    /// For incremental linking: number 0.
    Incremental,
    /// For a jump that is too far: number 1.
    BranchIsland,
    /// Any other number.
    Unknown,
}

impl TrampolineType {
    // The type of a number.
    #[inline]
    fn of(number: u16) -> Self
        ensures { result ≡ trampoline_of number }
    {
        match number {
            0 => TrampolineType::Incremental,
            1 => TrampolineType::BranchIsland,
            _ => TrampolineType::Unknown,
        }
    }
}

/// A jump that the linker made: `TRAMPOLINESYM` of `cvinfo.h`, in records `S_TRAMPOLINE` (0x112c).
#[derive(Clone, Copy, Debug, Eq, PartialEq)]
pub struct TrampolineSymbol {
    /// What it is for.
    pub tramp_type: TrampolineType,
    /// The size of its code, in bytes.
    pub size: u16,
    /// Where its code begins.
    pub thunk: PdbInternalSectionOffset,
    /// Where it leads.
    pub target: PdbInternalSectionOffset,
}

// A `section:offset`, a length and an ordinal.
#[inline]
#[tactic(auto, unfolding(pdb_base::specs::Layouts::together_at))]
fn parse_thunk_place(buffer: &mut ParseBuffer<'_>) -> Result<(PdbInternalSectionOffset, u16, u8)>
    ensures { ReadsPart (λ x. (x.0, (x.1, x.2))) thunk_place 0 buffer.old buffer.new result }
{
    let offset = parse_offset(buffer)?;
    let len = buffer.parse_u16()?;
    let ordinal = buffer.parse_u8()?;
    Ok((offset, len, ordinal))
}

type ThunkHead = (
    (Option<SymbolIndex>, SymbolIndex, Option<SymbolIndex>),
    (PdbInternalSectionOffset, u16, u8),
);

#[inline]
#[tactic(auto, unfolding(pdb_base::specs::Layouts::together_at))]
fn parse_thunk_head(buffer: &mut ParseBuffer<'_>) -> Result<ThunkHead>
    ensures { ReadsPart (λ x. ((x.0.0, (x.0.1, x.0.2)), (x.1.0, (x.1.1, x.1.2)))) thunk_head 0 buffer.old buffer.new result }
{
    let scope = parse_scope(buffer)?;
    let place = parse_thunk_place(buffer)?;
    Ok((scope, place))
}

// What a thunk of an ordinal does, behind its name.
#[inline]
#[tactic(auto, unfolding(pdb_base::specs::Layouts::together_at, crate::specs::Groups::thunk_tail))]
fn parse_thunk_kind<'t>(ordinal: u8, buffer: &mut ParseBuffer<'t>) -> Result<ThunkKind<'t>>
    ensures { Answers shown_thunk_kind result ((thunk_does ordinal).at 0 buffer.old.bytes buffer.old.place) }
{
    match ordinal {
        0 => Ok(ThunkKind::NoType),
        1 => {
            let delta = buffer.parse_u16()?;
            let target = buffer.parse_cstring()?;
            Ok(ThunkKind::Adjustor(ThunkAdjustor { delta, target }))
        }
        2 => {
            let offset = buffer.parse_u16()?;
            Ok(ThunkKind::VCall(offset))
        }
        3 => Ok(ThunkKind::PCode),
        4 => Ok(ThunkKind::Load),
        _ => Ok(ThunkKind::Unknown(ordinal)),
    }
}

#[inline]
#[tactic(auto, unfolding(crate::specs::FormTable::read_of))]
pub(crate) fn parse_thunk<'t>(kind: u16, buffer: &mut ParseBuffer<'t>) -> Result<SymbolData<'t>>
    requires { buffer.old.place ≡ 2 }
    ensures { Answers shown result (read_of form.Thunk kind buffer.old.bytes) }
{
    let ((parent, end, next), (offset, len, ordinal)) = parse_thunk_head(buffer)?;
    let name = parse_name(kind, buffer)?;
    let kind = parse_thunk_kind(ordinal, buffer)?;
    Ok(SymbolData::Thunk(ThunkSymbol {
        parent,
        end,
        next,
        offset,
        len,
        kind,
        name,
    }))
}

#[inline]
#[tactic(auto, unfolding(crate::specs::FormTable::read_of))]
pub(crate) fn parse_trampoline<'t>(
    kind: u16,
    buffer: &mut ParseBuffer<'t>,
) -> Result<SymbolData<'t>>
    requires { buffer.old.place ≡ 2 }
    ensures { Answers shown result (read_of form.Trampoline kind buffer.old.bytes) }
{
    let tramp_type = TrampolineType::of(buffer.parse_u16()?);
    let size = buffer.parse_u16()?;
    let (thunk, target) = parse_two_places(buffer)?;
    Ok(SymbolData::Trampoline(TrampolineSymbol {
        tramp_type,
        size,
        thunk,
        target,
    }))
}

//! The scopes of a function that are open, and whether the code at a place is in them.

ghost use Rattle.std.specs.Prelude.{◌≡◌, ◌≤◌, ◌+◌, ◌<◌, ◌^◌, ◌++◌, IfOk, IfErr, OnOk, reverse};
ghost use Rattle.pdb.specs.Views.{symbol_of};
ghost use Rattle.pdb_records.specs.RecordReading.{further_at};
ghost use Rattle.pdb_variables.specs.Variables.{enters, enters_further, has_call};
ghost use Rattle.pdb_variables.specs.VariableViews.{listed_by, procedure_of_place};
ghost use Rattle.pdb_variables.specs.VariableWalk.{function_scope, innermost, scope_by, scope_of};

use crate::frame_bases::Bases;
use pdb::{Error, InlineeFinder, PdbInternalSectionOffset, Result, Symbol, SymbolData};
use pdb_code::calls::has_line;
use pdb_code::procedures::ListedProcedure;
use pdb_code::role::{Role, role_of};
use pdb_places::range::bytes_cover;
use pdb_records::Record;
use std::alloc::Global;

/// A scope that is open, in that of a function or the function's own.
#[derive(Clone, Copy)]
pub(crate) struct OpenScope {
    /// Whether the code at the place is in it and in those around it.
    pub(crate) entered: bool,
    /// The number of the inlined call of the innermost site; none where there is no site.
    pub(crate) owner: Option<usize>,
    /// The registers from which variables of the frame count.
    pub(crate) bases: Bases,
}

/// The innermost of the scopes that are open; the function's own, in a frame of these registers, where there is no
/// other.
#[tactic(auto, using(crate::proofs::OpenScopeStack::last_is))]
pub(crate) fn innermost(bases: Bases, around: &[OpenScope]) -> OpenScope
    ensures { result ≡ innermost bases (reverse around.now) }
{
    match around.last() {
        Some(scope) => *scope,
        None => OpenScope {
            entered: true,
            owner: None,
            bases,
        },
    }
}

/// Whether a symbol starts a scope in which members are named alone; it has the code around it.
fn is_with(symbol: &Symbol<'_>) -> bool
    ensures { result ≡ enters_further (further_at (symbol_of symbol.now).bytes) }
{
    match Record::parse(symbol) {
        Ok(Record::With(_)) => true,
        Ok(_) => false,
        Err(_) => false,
    }
}

/// A place, with what shows which inlined calls have it: the procedure there, and the inlined functions of the module.
#[derive(Clone, Copy)]
pub struct CodePlace<'k, 'a> {
    pub place: PdbInternalSectionOffset,
    pub procedure: Option<ListedProcedure>,
    pub known: &'k InlineeFinder<'a>,
}

impl<'k, 'a> CodePlace<'k, 'a> {
    /// Whether a symbol is a site that has a call at the place.
    pub(crate) fn has_call(self, alloc: Global, symbol: &Symbol<'a>) -> Result<bool>
        ensures is { IfOk result (λ b. b ≡ has_call self.entry.place (listed_by self.entry) (procedure_of_place self.entry) (symbol_of symbol.now)) }
        ensures refused { IfErr result (λ e. e ≡ Error.OutOfMemory) }
    {
        let Some(procedure) = self.procedure else {
            return Ok(false);
        };
        if symbol.index().0 <= procedure.index || procedure.end <= symbol.index().0 {
            return Ok(false);
        }
        match role_of(alloc, symbol) {
            Ok(Role::Site(site)) => Ok(has_line(self.known, self.place, procedure.place, &site)),
            Ok(_) => Ok(false),
            Err(_) => Err(Error::OutOfMemory),
        }
    }

    /// Whether the scope that a symbol starts has the place.
    fn enters(self, alloc: Global, called: bool, symbol: &Symbol<'a>) -> Result<bool>
        requires { called ≡ has_call self.place (listed_by self) (procedure_of_place self) (symbol_of symbol.now) }
        ensures is { IfOk result (λ b. b ≡ enters self.entry.place (listed_by self.entry) (procedure_of_place self.entry) (symbol_of symbol.now)) }
        ensures refused { IfErr result (λ e. e ≡ Error.OutOfMemory) }
    {
        match symbol.parse(alloc) {
            Ok(SymbolData::Block(s)) => Ok(bytes_cover(self.place, s.offset, s.len)),
            Ok(SymbolData::SeparatedCode(s)) => Ok(bytes_cover(self.place, s.offset, s.len)),
            Ok(SymbolData::InlineSite(_)) => Ok(called),
            Ok(_) => Ok(false),
            Err(Error::OutOfMemory) => Err(Error::OutOfMemory),
            Err(_) => Ok(is_with(symbol)),
        }
    }

    /// The scope that a symbol starts in another one, behind so many calls, in a frame of these registers.
    pub(crate) fn scope_of(
        self,
        alloc: Global,
        called: bool,
        calls: usize,
        inner: OpenScope,
        bases: Bases,
        symbol: &Symbol<'a>,
    ) -> Result<OpenScope>
        requires { called ≡ has_call self.place (listed_by self) (procedure_of_place self) (symbol_of symbol.now) }
        ensures is { IfOk result (λ o. o ≡ scope_of self.entry.place (listed_by self.entry) (procedure_of_place self.entry) (symbol_of symbol.now) calls inner bases) }
        ensures refused { IfErr result (λ e. e ≡ Error.OutOfMemory) }
    {
        let entering = self.enters(alloc, called, symbol)?;
        Ok(OpenScope {
            entered: entering && inner.entered,
            owner: if called { Some(calls) } else { inner.owner },
            bases,
        })
    }
}

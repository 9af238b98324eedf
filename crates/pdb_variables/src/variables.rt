//! The variables that are in scope at a place.

ghost use Rattle.std.specs.Prelude.{◌≡◌, ◌≤◌, ◌<◌, ◌+◌, ◌++◌, ◌^◌, [], IfOk, IfErr, OnOk, map, length, reverse};
ghost use Rattle.std.specs.Option.{option_to_list};
ghost use Rattle.pdb.specs.Views.{symbol_of, symbols_bytes, symbols_left, symbols_place};
ghost use Rattle.pdb_code.specs.ModuleCode.{symbols_in};
ghost use Rattle.pdb_code.specs.Kept.{IsListed};
ghost use Rattle.pdb_variables.specs.Variables.{has_call, is_told, records_behind, variable_of, variables_among};
ghost use Rattle.pdb_variables.specs.VariableViews.{listed_by, procedure_of_place, records_left, shown_declared, shown_variable};
ghost use Rattle.pdb_variables.specs.VariableWalk.{counted, scopes_after, scopes_behind, still_open, variable_one, variables_ahead};

use crate::frame_bases::{Bases, bases_behind, bases_of};
use crate::locations::{Location, held_behind};
use crate::open_scopes::{CodePlace, OpenScope, innermost};
use crate::told_again::ToldVariables;
use crate::variable_records::{Declared, VariableKind, declared_at};
use pdb::{
    Error, FallibleIterator, ModuleInfo, RawString, Result, Symbol, SymbolIndex, SymbolIter,
    TypeIndex,
};
use std::alloc::Global;

/// A variable that is in scope at a place.
#[derive(Drop)]
pub struct VariableAt<'a> {
    /// The number of the inlined call whose variable it is, in the order of `ModuleCode::inlined`; none for one of the
    /// function itself.
    pub owner: Option<usize>,
    /// What it is.
    pub kind: VariableKind,
    /// Its type.
    pub type_index: TypeIndex,
    /// Its name.
    pub name: RawString<'a>,
    /// Where it is while the code at the place runs.
    pub location: Location,
}

/// One more variable, which a symbol declares in a scope.
fn add_declared<'a>(
    alloc: Global,
    found: &mut Vec<VariableAt<'a>>,
    symbols: &mut SymbolIter<'a>,
    symbol: &Symbol<'a>,
    asked: CodePlace<'_, 'a>,
    told: &ToldVariables<'a>,
    inner: OpenScope,
    declared: &Declared<'a>,
) -> Result<()>
    requires stands { symbols_place symbols.old ≡ (symbol_of symbol.now).index + 2 + length (symbol_of symbol.now).bytes }
    requires inside { symbols_place symbols.old ≤ length (symbols_bytes symbols.old) }
    requires small { length (symbols_bytes symbols.old) < 2 ^ 32 }
    ensures added { OnOk result (map shown_variable found.new.items ≡ map shown_variable found.old.items ++ option_to_list (variable_of asked.entry.place (listed_by asked.entry) (procedure_of_place asked.entry) (is_told told.now) inner.bases inner.owner (symbols_left symbols.old).items (shown_declared declared.now))) }
    ensures left { symbols_left symbols.new ≡ symbols_left symbols.old }
    ensures refused { IfErr result (λ e. e ≡ Error.OutOfMemory) }
{
    if told.have_again(declared) {
        return Ok(());
    }
    let location = held_behind(
        alloc,
        symbols,
        symbol,
        asked.place,
        inner.bases,
        declared.held,
    )?;
    let variable = VariableAt {
        owner: inner.owner,
        kind: declared.kind,
        type_index: declared.type_index,
        name: declared.name,
        location,
    };
    match found.push(variable) {
        Ok(()) => Ok(()),
        Err(_) => Err(Error::OutOfMemory),
    }
}

/// The variable of one more symbol in a scope, if it declares one that is in scope.
fn add<'a>(
    alloc: Global,
    found: &mut Vec<VariableAt<'a>>,
    symbols: &mut SymbolIter<'a>,
    symbol: &Symbol<'a>,
    asked: CodePlace<'_, 'a>,
    told: &ToldVariables<'a>,
    inner: OpenScope,
) -> Result<()>
    requires stands { symbols_place symbols.old ≡ (symbol_of symbol.now).index + 2 + length (symbol_of symbol.now).bytes }
    requires inside { symbols_place symbols.old ≤ length (symbols_bytes symbols.old) }
    requires small { length (symbols_bytes symbols.old) < 2 ^ 32 }
    ensures added { OnOk result (map shown_variable found.new.items ≡ map shown_variable found.old.items ++ option_to_list (variable_one asked.entry.place (listed_by asked.entry) (procedure_of_place asked.entry) inner.bases (is_told told.now) inner (symbol_of symbol.now) (symbols_left symbols.old).items)) }
    ensures left { symbols_left symbols.new ≡ symbols_left symbols.old }
    ensures refused { IfErr result (λ e. e ≡ Error.OutOfMemory) }
{
    if !inner.entered {
        return Ok(());
    }
    match declared_at(alloc, symbol) {
        Ok(Some(declared)) => {
            add_declared(alloc, found, symbols, symbol, asked, told, inner, &declared)
        }
        Ok(None) => Ok(()),
        Err(_) => Err(Error::OutOfMemory),
    }
}

/// Opens a scope where a symbol starts one, in a function whose frame has these registers.
#[tactic(auto, using(crate::proofs::OpenScopeStack::one_more, crate::proofs::OpenScopeStack::count_is))]
fn enter<'a>(
    alloc: Global,
    around: &mut Vec<OpenScope>,
    symbols: &mut SymbolIter<'a>,
    asked: CodePlace<'_, 'a>,
    bases: Bases,
    called: bool,
    calls: usize,
    symbol: &Symbol<'a>,
) -> Result<()>
    requires called { called ≡ has_call asked.place (listed_by asked) (procedure_of_place asked) (symbol_of symbol.now) }
    requires stands { symbols_place symbols.old ≡ (symbol_of symbol.now).index + 2 + length (symbol_of symbol.now).bytes }
    requires inside { symbols_place symbols.old ≤ length (symbols_bytes symbols.old) }
    requires small { length (symbols_bytes symbols.old) < 2 ^ 32 }
    ensures is { OnOk result (reverse around.new.items ≡ scopes_behind asked.entry.place (listed_by asked.entry) (procedure_of_place asked.entry) bases (symbol_of symbol.now) (symbols_left symbols.old).items calls (reverse around.old.items)) }
    ensures left { symbols_left symbols.new ≡ symbols_left symbols.old }
    ensures bytes { symbols_bytes symbols.new ≡ symbols_bytes symbols.old }
    ensures place { symbols_place symbols.new ≡ symbols_place symbols.old }
    ensures refused { IfErr result (λ e. e ≡ Error.OutOfMemory) }
{
    if !symbol.starts_scope() {
        return Ok(());
    }
    let inner = innermost(bases, around.as_slice());
    let own = bases_behind(symbols, symbol, around.len(), inner.bases);
    let scope = asked.scope_of(alloc, called, calls, inner, own, symbol)?;
    match around.push(scope) {
        Ok(()) => Ok(()),
        Err(_) => Err(Error::OutOfMemory),
    }
}

/// Leaves the innermost scope where a symbol ends it, or opens one where it starts one. The result is whether the
/// function's own scope is still open.
#[tactic(auto, using(crate::proofs::OpenScopeStack::popped))]
fn pass<'a>(
    alloc: Global,
    around: &mut Vec<OpenScope>,
    symbols: &mut SymbolIter<'a>,
    asked: CodePlace<'_, 'a>,
    bases: Bases,
    called: bool,
    calls: usize,
    symbol: &Symbol<'a>,
) -> Result<bool>
    requires called { called ≡ has_call asked.place (listed_by asked) (procedure_of_place asked) (symbol_of symbol.now) }
    requires stands { symbols_place symbols.old ≡ (symbol_of symbol.now).index + 2 + length (symbol_of symbol.now).bytes }
    requires inside { symbols_place symbols.old ≤ length (symbols_bytes symbols.old) }
    requires small { length (symbols_bytes symbols.old) < 2 ^ 32 }
    ensures is { IfOk result (λ going. still_open going (reverse around.new.items) ≡ scopes_after asked.entry.place (listed_by asked.entry) (procedure_of_place asked.entry) bases (symbol_of symbol.now) (symbols_left symbols.old).items calls (reverse around.old.items)) }
    ensures left { symbols_left symbols.new ≡ symbols_left symbols.old }
    ensures bytes { symbols_bytes symbols.new ≡ symbols_bytes symbols.old }
    ensures place { symbols_place symbols.new ≡ symbols_place symbols.old }
    ensures refused { IfErr result (λ e. e ≡ Error.OutOfMemory) }
{
    if symbol.ends_scope() {
        return Ok(around.pop().is_some());
    }
    enter(alloc, around, symbols, asked, bases, called, calls, symbol)?;
    Ok(true)
}

/// One more call, where a symbol has one.
fn count(calls: usize, called: bool) -> usize
    requires { calls + 1 < 2 ^ 64 }
    ensures { result ≡ counted called calls }
{
    if called { calls + 1 } else { calls }
}

/// The variables of a function whose symbols an iterator has left, up to its fault.
fn variables_ahead<'a>(
    alloc: Global,
    mut symbols: SymbolIter<'a>,
    asked: CodePlace<'_, 'a>,
    bases: Bases,
    told: &ToldVariables<'a>,
) -> Result<Vec<VariableAt<'a>>>
    ensures variables { IfOk result (λ vs. map shown_variable vs.items ≡ variables_ahead asked.entry.place (listed_by asked.entry) (procedure_of_place asked.entry) bases (is_told told.now) [] 0 (symbols_left symbols.entry).items) }
    ensures refused { IfErr result (λ e. e ≡ Error.OutOfMemory) }
{
    let mut found = Vec::new(alloc);
    let mut around = Vec::new(alloc);
    let mut calls = 0usize;
    loop {
        match symbols.next() {
            Ok(Some(symbol)) => {
                let inner = innermost(bases, around.as_slice());
                let called = asked.has_call(alloc, &symbol)?;
                let going = pass(
                    alloc,
                    &mut around,
                    &mut symbols,
                    asked,
                    bases,
                    called,
                    calls,
                    &symbol,
                )?;
                add(alloc, &mut found, &mut symbols, &symbol, asked, told, inner)?;
                if !going {
                    return Ok(found);
                }
                calls = count(calls, called);
            }
            Ok(None) => return Ok(found),
            Err(_) => return Ok(found),
        }
    }
}

/// The symbols behind that of an index; none where it starts no scope.
fn symbols_behind<'a>(info: &'a ModuleInfo<'a>, index: SymbolIndex) -> Option<SymbolIter<'a>>
    requires { IsListed index.0 (symbols_in info.now) }
    ensures { records_left result ≡ records_behind index.0 (symbols_in info.entry.now) }
{
    let Ok(mut symbols) = info.symbols_at(index) else {
        return None;
    };
    match symbols.next() {
        Ok(Some(symbol)) => {
            if symbol.starts_scope() {
                Some(symbols)
            } else {
                None
            }
        }
        Ok(None) => None,
        Err(_) => None,
    }
}

/// The variables of a function, by the index of its symbol.
pub fn variables_of<'a>(
    alloc: Global,
    info: &'a ModuleInfo<'a>,
    index: SymbolIndex,
    asked: CodePlace<'_, 'a>,
) -> Result<Vec<VariableAt<'a>>>
    requires { IsListed index.0 (symbols_in info.now) }
    ensures variables { IfOk result (λ vs. map shown_variable vs.items ≡ variables_among asked.entry.place (listed_by asked.entry) (procedure_of_place asked.entry) (records_behind index.0 (symbols_in info.entry.now))) }
    ensures refused { IfErr result (λ e. e ≡ Error.OutOfMemory) }
{
    let told = match symbols_behind(info, index) {
        Some(symbols) => ToldVariables::new(alloc, symbols)?,
        None => return Ok(Vec::new(alloc)),
    };
    let bases = match symbols_behind(info, index) {
        Some(symbols) => bases_of(symbols),
        None => return Ok(Vec::new(alloc)),
    };
    match symbols_behind(info, index) {
        Some(symbols) => variables_ahead(alloc, symbols, asked, bases, &told),
        None => Ok(Vec::new(alloc)),
    }
}

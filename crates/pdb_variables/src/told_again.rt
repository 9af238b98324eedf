//! The variables of a function that records of ranges follow. Compilers of optimized code declare some of them again,
//! each in one storage alone.

ghost use Rattle.std.specs.Prelude.{◌≡◌, ◌≤◌, ◌<◌, ◌+◌, ◌++◌, ◌^◌, ℕ, List, IfOk, IfErr, OnOk, map, length};
ghost use Rattle.std.specs.Option.{is_some, option_map, option_and_then, option_to_list};
ghost use Rattle.std.specs.List.Sorted.{IsSortedBy};
ghost use Rattle.pdb.specs.Views.{symbol_of, symbols_left};
ghost use Rattle.pdb_code.specs.Kept.{site_of};
ghost use Rattle.pdb_variables.specs.VariableRecords.{declared_at, key_of, told_key};
ghost use Rattle.pdb_variables.specs.Variables.{is_told, is_told_again};
ghost use Rattle.pdb_variables.specs.VariableViews.{goes_before, key_list, shown_declared};
ghost use Rattle.pdb_variables.specs.VariableWalk.{told_ahead, told_one, within_behind};

use crate::variable_records::{Declared, Held, declared_at};
use pdb::{Error, FallibleIterator, Result, Symbol, SymbolIter};
use pdb_code::role::{Role, role_of};
use std::alloc::Global;
use std::marker::Model;

// By what a variable is known: the index of its type, and its name.
#[derive(Clone, Copy, PartialEq, Eq, PartialOrd, Ord)]
pub(crate) struct VariableKey<'t> {
    type_index: u32,
    name: &'t [u8],
}

// The key of a variable.
fn key_of<'t>(declared: &Declared<'t>) -> VariableKey<'t>
    ensures { key_list result ≡ key_of (shown_declared declared.now) }
{
    VariableKey {
        type_index: declared.type_index.0,
        name: declared.name.as_bytes(),
    }
}

// The key of a variable that records of ranges follow; none of another.
fn told_key<'t>(declared: &Declared<'t>) -> Option<VariableKey<'t>>
    ensures { option_map key_list result ≡ told_key (shown_declared declared.now) }
{
    match declared.held {
        Held::ByRanges(_) => Some(key_of(declared)),
        _ => None,
    }
}

// The key of the variable with ranges that a symbol declares.
fn key_at<'t>(alloc: Global, symbol: &Symbol<'t>) -> Result<Option<VariableKey<'t>>>
    ensures key { IfOk result (λ k. option_map key_list k ≡ option_and_then told_key (declared_at (symbol_of symbol.now))) }
    ensures refused { IfErr result (λ e. e ≡ Error.OutOfMemory) }
{
    match declared_at(alloc, symbol) {
        Ok(Some(declared)) => Ok(told_key(&declared)),
        Ok(None) => Ok(None),
        Err(_) => Err(Error::OutOfMemory),
    }
}

// One more symbol, in so many scopes from the outermost site on.
fn add<'t>(
    alloc: Global,
    keys: &mut Vec<VariableKey<'t>>,
    within: usize,
    symbol: &Symbol<'t>,
) -> Result<()>
    ensures added { OnOk result (map key_list keys.new.items ≡ map key_list keys.old.items ++ option_to_list (told_one within (symbol_of symbol.now))) }
    ensures refused { IfErr result (λ e. e ≡ Error.OutOfMemory) }
{
    if within > 0 {
        return Ok(());
    }
    match key_at(alloc, symbol)? {
        Some(key) => match keys.push(key) {
            Ok(()) => Ok(()),
            Err(_) => Err(Error::OutOfMemory),
        },
        None => Ok(()),
    }
}

// Whether a symbol is a site of an inlined function.
fn is_site(alloc: Global, symbol: &Symbol<'_>) -> Result<bool>
    ensures is { IfOk result (λ b. b ≡ is_some (site_of (symbol_of symbol.now))) }
    ensures refused { IfErr result (λ e. e ≡ Error.OutOfMemory) }
{
    match role_of(alloc, symbol) {
        Ok(Role::Site(_)) => Ok(true),
        Ok(_) => Ok(false),
        Err(_) => Err(Error::OutOfMemory),
    }
}

// In how many scopes from the outermost site on one stands that is behind a symbol, which ends none.
fn within_behind(alloc: Global, within: usize, symbol: &Symbol<'_>) -> Result<usize>
    requires { within + 1 < 2 ^ 64 }
    ensures is { IfOk result (λ n. n ≡ within_behind (symbol_of symbol.now) within) }
    ensures bound { IfOk result (λ n. n ≤ within + 1) }
    ensures refused { IfErr result (λ e. e ≡ Error.OutOfMemory) }
{
    if !symbol.starts_scope() {
        return Ok(within);
    }
    if within > 0 || is_site(alloc, symbol)? {
        Ok(within + 1)
    } else {
        Ok(0)
    }
}

// The keys of the variables with ranges in a function's scope, outside its inlined sites, whose symbols an iterator has
// left, up to its fault.
fn told_ahead<'t>(alloc: Global, mut symbols: SymbolIter<'t>) -> Result<Vec<VariableKey<'t>>>
    ensures keys { IfOk result (λ keys. map key_list keys.items ≡ told_ahead 0 0 (symbols_left symbols.entry).items) }
    ensures refused { IfErr result (λ e. e ≡ Error.OutOfMemory) }
{
    let mut keys = Vec::new(alloc);
    let mut depth = 0usize;
    let mut within = 0usize;
    loop {
        match symbols.next() {
            Ok(Some(symbol)) => {
                add(alloc, &mut keys, within, &symbol)?;
                if symbol.ends_scope() {
                    if depth == 0 {
                        return Ok(keys);
                    }
                    depth -= 1;
                    within = within.saturating_sub(1);
                } else {
                    within = within_behind(alloc, within, &symbol)?;
                    if symbol.starts_scope() {
                        depth += 1;
                    }
                }
            }
            Ok(None) => return Ok(keys),
            Err(_) => return Ok(keys),
        }
    }
}

// Sorts keys.
fn sort(keys: &mut Vec<VariableKey<'_>>) -> Result<()>
    ensures rises { OnOk result (IsSortedBy goes_before keys.new.items) }
    ensures same { OnOk result ((key : List ℕ) → is_told (map key_list keys.new.items) key ≡ is_told (map key_list keys.old.items) key) }
    ensures refused { IfErr result (λ e. e ≡ Error.OutOfMemory) }
{
    match keys.sort_by_key(|key| *key) {
        Ok(()) => Ok(()),
        Err(_) => Err(Error::OutOfMemory),
    }
}

// Whether a key is among keys, which are searched by halving.
fn has_key(keys: &[VariableKey<'_>], key: VariableKey<'_>) -> bool
    requires { IsSortedBy goes_before keys.now }
    ensures { result ≡ is_told (map key_list keys.now) (key_list key.entry) }
{
    let at = keys.partition_point(|row| row.cmp(&key).is_lt());
    match keys.get(at) {
        Some(row) => row.cmp(&key).is_eq(),
        None => false,
    }
}

/// The variables with ranges of a function. A contract sees them as their types and names, in any order.
#[derive(Drop)]
pub(crate) struct ToldVariables<'t> {
    sorted: Vec<VariableKey<'t>>,
}

impl<'t> Model for ToldVariables<'t> {
    ghost use Rattle.std.specs.Prelude.{ℕ, List, map};
    ghost use Rattle.std.specs.List.Sorted.{IsSortedBy};
    ghost use Rattle.pdb_variables.specs.VariableViews.{goes_before, key_list};

    ghost Value = { List (List ℕ) };

    ghost view = { λ t. map key_list t.sorted.items };

    ghost invariant = { λ t. IsSortedBy goes_before t.sorted.items };
}

impl<'t> ToldVariables<'t> {
    /// Those of a function whose symbols an iterator has left, up to its fault.
    pub(crate) fn new(alloc: Global, symbols: SymbolIter<'t>) -> Result<Self>
        ensures is { IfOk result (λ t. is_told t ≡ is_told (told_ahead 0 0 (symbols_left symbols.entry).items)) }
        ensures refused { IfErr result (λ e. e ≡ Error.OutOfMemory) }
    {
        let mut sorted = told_ahead(alloc, symbols)?;
        sort(&mut sorted)?;
        Ok(ToldVariables { sorted })
    }

    /// Whether a variable is in one storage, and one with ranges has its type and its name.
    pub(crate) fn have_again(&self, declared: &Declared<'_>) -> bool
        ensures { result ≡ is_told_again (is_told self.now) (shown_declared declared.now) }
    {
        match declared.held {
            Held::InOne(_) => has_key(self.sorted.as_slice(), key_of(declared)),
            _ => false,
        }
    }
}

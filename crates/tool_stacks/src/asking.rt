//! The frames of a line's references.

ghost use Rattle.std.specs.Prelude.{◌≡◌, IfOk, map};
ghost use Rattle.tool_stacks.specs.Answers.{Continues, Tells};
ghost use Rattle.tool_stacks.specs.Frames.{Shows, asked, asked_all, asked_found, call_of, is_last, shown_at};
ghost use Rattle.tool_stacks.specs.LineUses.{address_of, reference_use, use_of};

use crate::address::{LineAddress, relative_by};
use crate::missing::{MissingPdb, count_missing};
use crate::symbols::{FoundPdb, Symbols};
use pdb_stacks::Reference;
use std::alloc::AllocError;

/// A relative address of a PDB.
#[derive(Clone, Copy, Debug, PartialEq, Eq)]
pub(crate) struct PdbAddress {
    pub(crate) pdb: usize,
    pub(crate) address: u32,
}

/// What the references of a line have so far.
#[derive(Drop)]
pub(crate) struct Shown {
    /// Their frames.
    pub(crate) frames: Vec<u8>,
    /// The last address that has frames.
    pub(crate) last: Option<PdbAddress>,
    /// The modules without a PDB, those of the lines before too.
    pub(crate) missing: Vec<MissingPdb>,
}

/// The address whose frames are those of another one. Of a return address it is that of the byte before, which is of the call,
/// unless it begins a function.
fn call_of<S: Symbols>(
    symbols: &mut S,
    at: PdbAddress,
    is_return: bool,
) -> Result<PdbAddress, AllocError>
    ensures continues { Continues (S.state symbols.old) (S.state symbols.new) }
    ensures call { Tells (S.state symbols.old) (S.state symbols.new) (λ a. IfOk result (λ call. call ≡ call_of a is_return at)) }
{
    if !is_return || at.address == 0 || symbols.begins_function(at.pdb, at.address)? {
        return Ok(at);
    }
    Ok(PdbAddress {
        pdb: at.pdb,
        address: at.address - 1,
    })
}

/// Whether an address is the last one.
fn is_last(last: Option<PdbAddress>, at: PdbAddress) -> bool
    ensures { result ≡ is_last last at }
{
    match last {
        Some(last) => last.pdb == at.pdb && last.address == at.address,
        None => false,
    }
}

/// Appends the frames of an address, if it has some, and isn't the last one.
fn show<S: Symbols>(shown: &mut Shown, symbols: &mut S, at: PdbAddress) -> Result<(), AllocError>
    ensures continues { Continues (S.state symbols.old) (S.state symbols.new) }
    ensures shows { Shows (S.state symbols.old) (S.state symbols.new) result shown.old shown.new (λ a. shown_at a at) }
{
    if is_last(shown.last, at) {
        return Ok(());
    }
    if symbols.put_frames(&mut shown.frames, at.pdb, at.address)? {
        shown.last = Some(at);
    }
    Ok(())
}

/// Appends the frames of an address that a line gives in a module that has a PDB.
fn ask_found<S: Symbols>(
    shown: &mut Shown,
    symbols: &mut S,
    found: FoundPdb,
    address: LineAddress,
    is_return: bool,
) -> Result<(), AllocError>
    ensures continues { Continues (S.state symbols.old) (S.state symbols.new) }
    ensures shows { Shows (S.state symbols.old) (S.state symbols.new) result shown.old shown.new (λ a. asked_found a is_return address found) }
{
    let Some(address) = relative_by(found.module, address) else {
        return Ok(());
    };
    let at = PdbAddress {
        pdb: found.pdb,
        address,
    };
    let call = call_of(symbols, at, is_return)?;
    show(shown, symbols, call)
}

/// Appends the frames of an address that a line gives in the module of a name; where that has no PDB, it is counted.
pub(crate) fn ask<S: Symbols>(
    shown: &mut Shown,
    symbols: &mut S,
    name: &[u8],
    address: LineAddress,
    is_return: bool,
) -> Result<(), AllocError>
    ensures continues { Continues (S.state symbols.old) (S.state symbols.new) }
    ensures shows { Shows (S.state symbols.old) (S.state symbols.new) result shown.old shown.new (λ a. asked a is_return (use_of name.now address)) }
{
    match symbols.pdb_of(name)? {
        Some(found) => ask_found(shown, symbols, found, address, is_return),
        None => count_missing(&mut shown.missing, name),
    }
}

/// The address that a reference gives.
fn address_of(reference: Reference) -> LineAddress
    ensures { result ≡ address_of reference }
{
    match reference.symbol {
        Some(_) => LineAddress::FromSymbol,
        None => LineAddress::Relative {
            number: reference.number,
            is_closed: reference.is_closed,
        },
    }
}

/// Appends the frames of the references of a line.
pub(crate) fn ask_all<S: Symbols>(
    shown: &mut Shown,
    symbols: &mut S,
    line: &[u8],
    references: &[Reference],
    is_return: bool,
) -> Result<(), AllocError>
    ensures continues { Continues (S.state symbols.old) (S.state symbols.new) }
    ensures shows { Shows (S.state symbols.old) (S.state symbols.new) result shown.old shown.new (λ a. asked_all a is_return (map (reference_use line.now) references.now)) }
{
    for reference in references {
        let address = address_of(*reference);
        ask(
            shown,
            symbols,
            reference.module.of(line),
            address,
            is_return,
        )?;
    }
    Ok(())
}

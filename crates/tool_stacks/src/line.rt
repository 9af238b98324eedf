//! What lines say of the lines behind them, and the frames of a line.

ghost use Rattle.std.specs.Prelude.{◌≡◌, IfOk, OnOk, None, false};
ghost use Rattle.tool_stacks.specs.Answers.{Continues};
ghost use Rattle.tool_stacks.specs.Frames.{Shows, asked_all, known_shown, line_shown};
ghost use Rattle.tool_stacks.specs.LineUses.{address_use, address_uses, failed_after, fault_address, fault_uses, heard_by, heard_of, is_closed_at, kind_by, kind_if, line_heard, line_kind, modules_of, name_items, with_module};

use crate::address::LineAddress;
use crate::asking::{Shown, ask, ask_all};
use crate::symbols::Symbols;
use pdb_stacks::{
    LineCode, ModuleRange, Reference, SpelledNumber, add_range, faulting_module, put_line_code,
    range_of,
};
use std::alloc::{AllocError, Global};

/// Which references a line has.
#[derive(Clone, Copy, Debug, PartialEq, Eq)]
pub(crate) enum LineUse {
    /// None.
    Nothing,
    /// The offset of a fault, which is never a return address.
    Fault,
    /// Others.
    References,
}

/// The modules of a process.
#[derive(Drop)]
pub(crate) struct Modules {
    /// Their names.
    pub(crate) names: Vec<Vec<u8>>,
    /// Their ranges, by the indices of their names.
    pub(crate) ranges: Vec<ModuleRange>,
}

/// What is known of modules by the lines so far.
#[derive(Drop)]
pub(crate) struct Known {
    pub(crate) modules: Modules,
    /// The module that failed, whose offset is still to come.
    pub(crate) failed: Option<Vec<u8>>,
    /// The references of a line.
    pub(crate) references: Vec<Reference>,
}

/// Adds the range of a module.
pub(crate) fn add_module(
    modules: &mut Modules,
    name: &[u8],
    start: u64,
    size: u64,
) -> Result<(), AllocError>
    ensures { OnOk result (modules_of modules.new ≡ with_module name.now start size (modules_of modules.old)) }
{
    let module = modules.names.len();
    modules
        .names
        .push(name.to_vec(*modules.names.allocator())?)?;
    add_range(
        &mut modules.ranges,
        ModuleRange {
            start,
            size,
            module,
        },
    )
}

/// Notes the module that a line says has failed.
pub(crate) fn note_failed(
    alloc: Global,
    failed: &mut Option<Vec<u8>>,
    line: &[u8],
) -> Result<(), AllocError>
    ensures { OnOk result (name_items failed.new ≡ failed_after line.now (name_items failed.old)) }
{
    if let Some(name) = faulting_module(line) {
        *failed = Some(name.of(line).to_vec(alloc)?);
    }
    Ok(())
}

/// Whether `)` stands at an offset of a line.
fn is_closed_at(line: &[u8], at: usize) -> bool
    ensures { result ≡ is_closed_at line.now at }
{
    match line.get(at) {
        Some(byte) => *byte == b')',
        None => false,
    }
}

/// The address that the offset of a fault gives.
fn fault_address(line: &[u8], offset: SpelledNumber) -> LineAddress
    ensures { result ≡ fault_address line.now offset }
{
    LineAddress::Relative {
        number: offset.number,
        is_closed: is_closed_at(line, offset.text.end),
    }
}

/// Appends the frames of the offset of a fault, which uses the module up.
fn ask_fault<S: Symbols>(
    failed: &mut Option<Vec<u8>>,
    shown: &mut Shown,
    symbols: &mut S,
    line: &[u8],
    offset: SpelledNumber,
) -> Result<(), AllocError>
    ensures continues { Continues (S.state symbols.old) (S.state symbols.new) }
    ensures used { OnOk result (failed.new ≡ None) }
    ensures shows { Shows (S.state symbols.old) (S.state symbols.new) result shown.old shown.new (λ a. asked_all a false (fault_uses line.now (name_items failed.old) offset)) }
{
    match failed.take() {
        Some(name) => ask(shown, symbols, &name, fault_address(line, offset), false),
        None => Ok(()),
    }
}

/// Appends the frames of an address of the process, where a range has it, and returns what the line has.
fn ask_address<S: Symbols>(
    modules: &Modules,
    shown: &mut Shown,
    symbols: &mut S,
    number: u64,
    is_return: bool,
) -> Result<LineUse, AllocError>
    ensures continues { Continues (S.state symbols.old) (S.state symbols.new) }
    ensures kind { IfOk result (λ kind. kind ≡ kind_if (address_use (modules_of modules.now) number)) }
    ensures shows { Shows (S.state symbols.old) (S.state symbols.new) result shown.old shown.new (λ a. asked_all a is_return (address_uses (modules_of modules.now) number)) }
{
    let Some(range) = range_of(&modules.ranges, number) else {
        return Ok(LineUse::Nothing);
    };
    let Some(name) = modules.names.get(range.module) else {
        return Ok(LineUse::Nothing);
    };
    let address = LineAddress::InRange(number.saturating_sub(range.start));
    ask(shown, symbols, name, address, is_return)?;
    Ok(LineUse::References)
}

/// Appends the frames of a line by what of it stands for code, and returns which references it has.
fn ask_code<S: Symbols>(
    known: &mut Known,
    shown: &mut Shown,
    symbols: &mut S,
    line: &[u8],
    code: LineCode,
    is_return: bool,
) -> Result<LineUse, AllocError>
    ensures continues { Continues (S.state symbols.old) (S.state symbols.new) }
    ensures kind { IfOk result (λ kind. kind ≡ kind_by (heard_of known.old) code) }
    ensures heard { OnOk result (heard_of known.new ≡ heard_by (heard_of known.old) code) }
    ensures shows { Shows (S.state symbols.old) (S.state symbols.new) result shown.old shown.new (λ a. known_shown a is_return line.now known.old code) }
{
    match code {
        LineCode::Fault(offset) => {
            ask_fault(&mut known.failed, shown, symbols, line, offset)?;
            Ok(LineUse::Fault)
        }
        LineCode::References => {
            ask_all(shown, symbols, line, &known.references, is_return)?;
            Ok(LineUse::References)
        }
        LineCode::Address(address) => {
            ask_address(&known.modules, shown, symbols, address.number, is_return)
        }
        LineCode::Nothing => Ok(LineUse::Nothing),
    }
}

/// Appends the frames of a line that is no heading, and returns which references it has.
pub(crate) fn ask_line<S: Symbols>(
    known: &mut Known,
    shown: &mut Shown,
    symbols: &mut S,
    line: &[u8],
    is_return: bool,
) -> Result<LineUse, AllocError>
    ensures continues { Continues (S.state symbols.old) (S.state symbols.new) }
    ensures kind { IfOk result (λ kind. kind ≡ line_kind line.now (heard_of known.old)) }
    ensures heard { OnOk result (heard_of known.new ≡ line_heard line.now (heard_of known.old)) }
    ensures shows { Shows (S.state symbols.old) (S.state symbols.new) result shown.old shown.new (λ a. line_shown a is_return line.now (heard_of known.old)) }
{
    note_failed(*shown.frames.allocator(), &mut known.failed, line)?;
    let code = put_line_code(&mut known.references, line, known.failed.is_some())?;
    ask_code(known, shown, symbols, line, code, is_return)
}

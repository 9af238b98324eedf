//! What of a line stands for code.

ghost use Rattle.std.specs.Prelude.{◌≡◌, IfOk, OnOk};
ghost use Rattle.pdb_stacks.specs.LineCode.{code_in, fault_of, listed_by, without_references};

use crate::addresses::process_address;
use crate::faults::fault_offset;
use crate::hex_numbers::SpelledNumber;
use crate::references::{Reference, put_references};
use std::alloc::AllocError;

/// What of a line stands for code, where the line is no other heading.
#[derive(Clone, Copy, Debug, PartialEq, Eq)]
pub enum LineCode {
    /// The offset of a fault, which is relative to the module that failed.
    Fault(SpelledNumber),
    /// The references in the list, of which there is one at least.
    References,
    /// The address of a process, which is a reference where the range of a module has it.
    Address(SpelledNumber),
    /// Nothing.
    Nothing,
}

/// The offset of a fault, where it is known which module failed.
fn fault_of(line: &[u8], knows_module: bool) -> Option<SpelledNumber>
    ensures { result ≡ fault_of line.now knows_module }
{
    if knows_module {
        fault_offset(line)
    } else {
        None
    }
}

/// What of a line without references stands for code.
fn without_references(line: &[u8]) -> LineCode
    ensures { result ≡ without_references line.now }
{
    match process_address(line) {
        Some(address) => LineCode::Address(address),
        None => LineCode::Nothing,
    }
}

/// What of a line stands for code, where `heading_of` says that it may have references: the first of these that there is. The
/// references are put into the list, in place of what it has; of a fault there are none. `knows_module` says whether it is
/// known which module failed, by this line or by one before it. The offset of a fault uses that up.
pub fn put_line_code(
    out: &mut Vec<Reference>,
    line: &[u8],
    knows_module: bool,
) -> Result<LineCode, AllocError>
    ensures code { IfOk result (λ code. code ≡ code_in line.now knows_module) }
    ensures puts { OnOk result (out.new.items ≡ listed_by line.now (fault_of line.now knows_module)) }
{
    if let Some(offset) = fault_of(line, knows_module) {
        out.clear();
        return Ok(LineCode::Fault(offset));
    }
    put_references(out, line)?;
    if out.is_empty() {
        Ok(without_references(line))
    } else {
        Ok(LineCode::References)
    }
}

//! Lines of Windows' reports: the module that failed, and the offset in it.

ghost use Rattle.std.specs.Prelude.{◌≡◌};
ghost use Rattle.pdb_stacks.specs.FaultLines.{fault_offset, faulting_module, name_behind_label, number_behind_label, path_end};

use crate::bytes::{Kind, Span, run_end, run_start};
use crate::hex_numbers::{SpelledNumber, hex_at};
use crate::module_lists::file_name;
use crate::texts::{find_label, past_text};

/// The end of the path at an offset: up to a comma, a control, or the line's end, without blanks at its end.
fn path_end(line: &[u8], start: usize) -> usize
    ensures { result ≡ path_end line.now start }
{
    run_start(Kind::Blank, line, run_end(Kind::Path, line, start))
}

/// The name of the file whose path stands behind a label and blanks.
fn name_behind_label(line: &[u8], label: usize) -> Option<Span>
    ensures { result ≡ name_behind_label line.now label }
{
    let start = run_end(Kind::Blank, line, label);
    let end = path_end(line, start);
    let name = file_name(line, Span { start, end });
    if name.is_empty() { None } else { Some(name) }
}

/// The name of the module that a report says has failed, behind `Faulting module name:` or `Fault Module Name:` in any case.
/// It is that of the fault's offset in a later line, or in this one.
#[tactic(auto, unfolding(crate::specs::FaultLines::faulting_module))]
pub fn faulting_module(line: &[u8]) -> Option<Span>
    ensures { result ≡ faulting_module line.now }
{
    name_behind_label(
        line,
        find_label(line, b"Faulting module name:", b"Fault Module Name:")?,
    )
}

/// The hex number that stands behind a label and blanks, perhaps behind `0x`.
fn number_behind_label(line: &[u8], label: usize) -> Option<SpelledNumber>
    ensures { result ≡ number_behind_label line.now label }
{
    let start = run_end(Kind::Blank, line, label);
    let hex = hex_at(line, past_text(line, start, b"0x"))?;
    Some(SpelledNumber {
        text: Span {
            start,
            end: hex.end,
        },
        number: hex.number,
    })
}

/// The offset of a fault in its module, behind `Fault offset:` or `Exception Offset:` in any case: a hex number, perhaps
/// behind `0x`.
#[tactic(auto, unfolding(crate::specs::FaultLines::fault_offset))]
pub fn fault_offset(line: &[u8]) -> Option<SpelledNumber>
    ensures { result ≡ fault_offset line.now }
{
    number_behind_label(
        line,
        find_label(line, b"Fault offset:", b"Exception Offset:")?,
    )
}

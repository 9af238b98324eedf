//! What stands behind the name of a module where it is a reference.

ghost use Rattle.std.specs.Prelude.{◌≡◌};
ghost use Rattle.pdb_stacks.specs.ModuleForms.{apart, behind_address, behind_base, behind_base_word, behind_dotted, closed_hex, form_at, in_parentheses, of_base, of_symbol, relative};
ghost use Rattle.pdb_stacks.specs.SymbolMarks.{IsSymbolMark};

use crate::bytes::{Kind, Span, run_end};
use crate::hex_numbers::{Hex, hex_behind, offset_at};
use crate::texts::behind_text;

/// What stands behind the name of a module.
#[derive(Clone, Copy)]
pub(crate) struct Form {
    /// The name of a symbol; none where the number is relative to the module.
    pub(crate) symbol: Option<Span>,
    /// Whether the number stands directly behind the name, as it does behind a symbol's too.
    pub(crate) is_plain: bool,
    /// The number, and where the reference ends.
    pub(crate) hex: Hex,
}

/// A hex number in parentheses, of which the text has the first one.
#[tactic(auto, unfolding(crate::specs::ModuleForms::closed_hex))]
fn closed_hex(line: &[u8], at: usize, text: &[u8]) -> Option<Hex>
    ensures { result ≡ closed_hex line.now at text.now }
{
    let hex = hex_behind(line, at, text)?;
    let end = behind_text(line, hex.end, b")")?;
    Some(Hex {
        number: hex.number,
        end,
    })
}

/// `(+0xHEX)` or ` (+0xHEX)`.
#[tactic(auto, unfolding(crate::specs::ModuleForms::in_parentheses))]
fn in_parentheses(line: &[u8], at: usize) -> Option<Hex>
    ensures { result ≡ in_parentheses line.now at }
{
    match closed_hex(line, at, b"(+0x") {
        Some(hex) => Some(hex),
        None => closed_hex(line, at, b" (+0x"),
    }
}

/// ` + 0xHEX` or `@0xHEX`, where the name has a dot.
#[tactic(auto, unfolding(crate::specs::ModuleForms::behind_dotted))]
fn behind_dotted(line: &[u8], at: usize, has_dot: bool) -> Option<Hex>
    ensures { result ≡ behind_dotted line.now at has_dot }
{
    if !has_dot {
        return None;
    }
    match hex_behind(line, at, b" + 0x") {
        Some(hex) => Some(hex),
        None => hex_behind(line, at, b"@0x"),
    }
}

/// The offset behind blanks, `0x` and 16 hex digits.
#[tactic(auto, unfolding(crate::specs::ModuleForms::behind_address))]
fn behind_address(line: &[u8], at: usize) -> Option<usize>
    ensures { result ≡ behind_address line.now at }
{
    let start = run_end(Kind::Blank, line, at);
    if start == at {
        return None;
    }
    let digits = behind_text(line, start, b"0x")?;
    let end = run_end(Kind::HexDigit, line, digits);
    if end - digits == 16 { Some(end) } else { None }
}

/// Blanks, the module's address, ` + HEX`.
#[tactic(auto, unfolding(crate::specs::ModuleForms::behind_base))]
fn behind_base(line: &[u8], at: usize) -> Option<Hex>
    ensures { result ≡ behind_base line.now at }
{
    hex_behind(line, behind_address(line, at)?, b" + ")
}

/// `!<BaseAddress>` and an offset.
#[tactic(auto, unfolding(crate::specs::ModuleForms::behind_base_word))]
fn behind_base_word(line: &[u8], at: usize) -> Option<Hex>
    ensures { result ≡ behind_base_word line.now at }
{
    offset_at(line, behind_text(line, at, b"!<BaseAddress>")?)
}

/// The last two of these forms.
#[tactic(auto, unfolding(crate::specs::ModuleForms::of_base))]
fn of_base(line: &[u8], at: usize) -> Option<Hex>
    ensures { result ≡ of_base line.now at }
{
    match behind_base(line, at) {
        Some(hex) => Some(hex),
        None => behind_base_word(line, at),
    }
}

/// A number in parentheses, or relative to the module's address.
#[tactic(auto, unfolding(crate::specs::ModuleForms::apart))]
fn apart(line: &[u8], at: usize) -> Option<Hex>
    ensures { result ≡ apart line.now at }
{
    match in_parentheses(line, at) {
        Some(hex) => Some(hex),
        None => of_base(line, at),
    }
}

/// The number that is relative to the module, of each form but `+0xHEX`.
#[tactic(auto, unfolding(crate::specs::ModuleForms::relative))]
fn relative(line: &[u8], at: usize, has_dot: bool) -> Option<Hex>
    ensures { result ≡ relative line.now at has_dot }
{
    match behind_dotted(line, at, has_dot) {
        Some(hex) => Some(hex),
        None => apart(line, at),
    }
}

/// `!`, the name of a symbol up to the nearest mark, and an offset there.
#[tactic(auto, unfolding(crate::specs::ModuleForms::of_symbol))]
fn of_symbol(line: &[u8], at: usize, mark: usize) -> Option<Form>
    requires { IsSymbolMark line.now at mark }
    ensures { result ≡ of_symbol line.now at }
{
    let start = behind_text(line, at, b"!")?;
    if mark == start {
        return None;
    }
    let hex = offset_at(line, mark)?;
    Some(Form {
        symbol: Some(Span { start, end: mark }),
        is_plain: false,
        hex,
    })
}

/// The form that stands behind the name of a module.
#[tactic(auto, unfolding(crate::specs::ModuleForms::form_at))]
pub(crate) fn form_at(line: &[u8], at: usize, has_dot: bool, mark: usize) -> Option<Form>
    requires { IsSymbolMark line.now at mark }
    ensures { result ≡ form_at line.now at has_dot }
{
    if let Some(hex) = hex_behind(line, at, b"+0x") {
        return Some(Form {
            symbol: None,
            is_plain: true,
            hex,
        });
    }
    if let Some(hex) = relative(line, at, has_dot) {
        return Some(Form {
            symbol: None,
            is_plain: false,
            hex,
        });
    }
    of_symbol(line, at, mark)
}

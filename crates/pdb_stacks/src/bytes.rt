//! Kinds of bytes, and runs of a kind.

ghost use Rattle.std.specs.Prelude.{◌≡◌, ◌≤◌, drop, length, max, nat_le, slice_range};
ghost use Rattle.pdb_stacks.specs.LineBytes.{is_identifier, is_of, kind_at, run_end, run_start};

/// A kind of byte of which lines have runs.
#[derive(Clone, Copy)]
pub(crate) enum Kind {
    /// A blank: a space or a tab.
    Blank,
    /// A control: a byte below 20.
    Control,
    /// A decimal digit.
    Digit,
    /// A hex digit.
    HexDigit,
    /// A byte of a word: a letter, a digit, `_`, or a backtick.
    Word,
    /// A byte of the name of a module: a letter, a digit, `_`, `.`, `-`, `~`, or one that isn't ASCII.
    Module,
    /// A byte that can't stand behind a hex number: a letter, a digit, `_`, `(`, `/`, or a backtick.
    JoinsHex,
    /// A byte of the name of a file in a path: no `/` and no `\`.
    FileName,
    /// A byte of a path that a comma or a control ends.
    Path,
    /// A byte that the end of a line may have: a blank or a carriage return.
    LineEnd,
}

/// Whether a byte is a letter, a digit, or `_`.
fn is_identifier(byte: u8) -> bool
    ensures { result ≡ is_identifier byte }
{
    byte.is_ascii_alphanumeric() || byte == b'_'
}

/// Whether a byte is of a kind.
#[tactic(auto, unfolding(crate::specs::LineBytes::is_of))]
pub(crate) fn is_of(kind: Kind, byte: u8) -> bool
    ensures { result ≡ is_of kind byte }
{
    match kind {
        Kind::Blank => byte == b' ' || byte == b'\t',
        Kind::Control => byte < 32,
        Kind::Digit => byte.is_ascii_digit(),
        Kind::HexDigit => byte.is_ascii_hexdigit(),
        Kind::Word => is_identifier(byte) || byte == b'`',
        Kind::Module => {
            is_identifier(byte) || byte == b'.' || byte == b'-' || byte == b'~' || byte >= 128
        }
        Kind::JoinsHex => is_identifier(byte) || byte == b'(' || byte == b'/' || byte == b'`',
        Kind::FileName => byte != b'/' && byte != b'\\',
        Kind::Path => byte >= 32 && byte != b',',
        Kind::LineEnd => byte == b' ' || byte == b'\t' || byte == b'\r',
    }
}

/// A piece of a line, by offsets.
#[derive(Clone, Copy, Debug, PartialEq, Eq)]
pub struct Span {
    /// The offset of its first byte.
    pub start: usize,
    /// The offset behind its last byte.
    pub end: usize,
}

impl Span {
    /// The bytes of the piece.
    pub fn of(self, line: &[u8]) -> &[u8]
        ensures { result.now ≡ slice_range line.now self.start self.end }
    {
        between(line, self.start, self.end)
    }

    /// Whether it has no byte.
    pub fn is_empty(self) -> bool
        ensures { result ≡ nat_le self.end self.start }
    {
        self.end <= self.start
    }
}

/// What stands from an offset on.
pub(crate) fn behind(line: &[u8], at: usize) -> &[u8]
    ensures { result.now ≡ drop at line.now }
{
    &line[at.min(line.len())..]
}

/// What stands from an offset on, before another one.
pub(crate) fn between(line: &[u8], start: usize, end: usize) -> &[u8]
    ensures { result.now ≡ slice_range line.now start end }
{
    let rest = behind(line, start);
    &rest[..end.saturating_sub(start).min(rest.len())]
}

/// Whether a byte of a kind stands at an offset.
#[tactic(auto, unfolding(crate::specs::LineBytes::kind_at))]
pub(crate) fn kind_at(kind: Kind, line: &[u8], at: usize) -> bool
    ensures { result ≡ kind_at kind line.now at }
{
    match behind(line, at) {
        [byte, ..] => is_of(kind, *byte),
        [] => false,
    }
}

/// Where the bytes of a kind end that stand from an offset on.
pub(crate) fn run_end(kind: Kind, line: &[u8], from: usize) -> usize
    ensures is { result ≡ run_end kind line.now from }
    ensures from { from ≤ result }
{
    for at in from..line.len() {
        if !is_of(kind, line[at]) {
            return at;
        }
    }
    from.max(line.len())
}

/// Where the bytes of a kind begin that stand before an offset.
pub(crate) fn run_start(kind: Kind, line: &[u8], end: usize) -> usize
    ensures is { result ≡ run_start kind line.now end }
    ensures within { result ≤ length line.now }
{
    let mut start = end.min(line.len());
    while start > 0 {
        if !is_of(kind, line[start - 1]) {
            return start;
        }
        start -= 1;
    }
    0
}

//! Which stream of a file is asked for.

ghost use Rattle.std.specs.Prelude.{◌≡◌};
ghost use Rattle.tool_arguments.specs.StreamsAsked.{stream_of, stream_view};

use pdb_text::long_number_in;

/// A stream of a file.
#[derive(Clone, Copy, Debug)]
pub enum StreamAsked<'w> {
    /// The one of this number, which may be larger than any.
    Number(u64),
    /// The first of this name.
    Name(&'w [u8]),
}

/// The stream that a word asks for: one to ten digits are its number, any other word is its name.
pub fn stream_of(word: &str) -> StreamAsked<'_>
    ensures { stream_view result ≡ stream_of word.now }
{
    match long_number_in(word) {
        Some(number) => StreamAsked::Number(number),
        None => StreamAsked::Name(word.as_bytes()),
    }
}

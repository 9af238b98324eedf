//! Addresses whose code is asked for, and how it is written.

ghost use Rattle.std.specs.Prelude.{◌≡◌, map, option_map};
ghost use Rattle.tool_arguments.specs.Requests.{address_by, address_view, first_needing, request_at, request_in, request_of, request_view, style_of, style_view};

use crate::code_address::{CodeAddress, SpelledAddress, code_address, spelled_in};
use crate::options::{Detail, Options, OutputFormat};

/// How the code at an address is written.
#[derive(Clone, Copy, Debug)]
pub enum Style<'w> {
    /// As text.
    Frames,
    /// As text behind a line with the argument.
    Headed(&'w [u8]),
    /// As a JSON object with the argument.
    Object(&'w [u8]),
}

/// An address, and how its code is written.
#[derive(Clone, Copy, Debug)]
pub struct Request<'w> {
    /// How it is written.
    pub style: Style<'w>,
    /// What its text has beside the frames.
    pub detail: Detail,
    /// The address.
    pub address: CodeAddress,
}

/// An argument that is an address.
#[derive(Clone, Copy, Debug)]
pub struct AddressWord<'w> {
    /// Its index among the program's arguments.
    pub argument: usize,
    /// The argument.
    pub word: &'w [u8],
    /// The address that it spells.
    pub address: SpelledAddress,
}

/// How the code at the address is written that an argument is.
fn style_of(options: Options, word: &[u8]) -> Style<'_>
    ensures { style_view result ≡ style_of options.format options.addresses word.now }
{
    match options.format {
        OutputFormat::Json => Style::Object(word),
        OutputFormat::Text if options.addresses => Style::Headed(word),
        OutputFormat::Text => Style::Frames,
    }
}

/// The request of a word for the code at an address.
fn request_at(options: Options, word: &[u8], address: CodeAddress) -> Request<'_>
    ensures { request_view result ≡ request_at options word.now address }
{
    Request {
        style: style_of(options, word),
        detail: options.detail,
        address,
    }
}

/// The address of code, by what the options say of the load address.
#[inline(always)]
fn address_by(options: Options, address: SpelledAddress) -> Option<CodeAddress>
    ensures { result ≡ address_by options address }
{
    code_address(options.base, options.own_size, address)
}

/// The argument of the first of these addresses that needs a load address, where there is none.
pub fn first_needing(options: Options, addresses: &[AddressWord<'_>]) -> Option<usize>
    ensures { result ≡ first_needing options (map address_view addresses.now) }
{
    for address in addresses {
        if address_by(options, address.address).is_none() {
            return Some(address.argument);
        }
    }
    None
}

/// The request of an argument that is an address. Where it needs a base and there is none, no code is there.
#[inline(always)]
#[tactic(auto, unfolding(crate::specs::Requests::request_of))]
pub fn request_of<'w>(options: Options, argument: AddressWord<'w>) -> Request<'w>
    ensures { request_view result ≡ request_of options (address_view argument.entry) }
{
    let address = address_by(options, argument.address).unwrap_or(CodeAddress::Nowhere);
    request_at(options, argument.word, address)
}

/// The request of a word; none where it is no address, or needs a base.
#[inline(always)]
#[tactic(auto, unfolding(crate::specs::Requests::request_in))]
pub fn request_in(options: Options, word: &[u8]) -> Option<Request<'_>>
    ensures { option_map request_view result ≡ request_in options word.now }
{
    let address = address_by(options, spelled_in(word)?)?;
    Some(request_at(options, word, address))
}

//! Texts of the code at addresses.

ghost use Rattle.std.specs.Prelude.{◌≡◌, ◌≢◌, codes, ◌++◌, not, true, IfOk, IfErr, OnOk, IsErrAnd};
ghost use Rattle.pdb.specs.Source.{Continues, MayFail};
ghost use Rattle.tool_arguments.specs.Requests.{request_view, style_view};
ghost use Rattle.tool_addresses.specs.RequestTexts.{address_shown, asked_line, request_text, styled_text};
ghost use Rattle.tool_addresses.specs.CodeTexts.{code_text, is_damaged_at, is_whole_where, place_at};
ghost use Rattle.tool_output.specs.Stops.{Halts, StopsComposing};
ghost use Rattle.tool_output.specs.declared.stop.Stop.{Stop};
ghost use Rattle.tool_printing.specs.Printing.{PrintedFirst, Prints, all_shown};

use crate::variable_texts::put_variables;
use pdb::{PdbInternalSectionOffset, Source};
use pdb_resolve::Resolver;
use pdb_text::put_line_end;
use std::alloc::Global;
use tool_arguments::code_address::CodeAddress;
use tool_arguments::options::{Detail, Options};
use tool_arguments::requests::{AddressWord, Request, Style, request_of};
use tool_output::stop::{Stop, stop_of};
use tool_printing::Printer;
use tool_search::frame_objects::put_asked_line;

/// The place of an address.
fn place_at<'s, S: Source<'s>>(
    resolver: &Resolver<'_, 's, S>,
    address: CodeAddress,
) -> Option<PdbInternalSectionOffset>
    ensures { resolver.now.told ≡ true → result ≡ place_at resolver.now.file address }
{
    match address {
        CodeAddress::Rva(address) => resolver.place(address),
        CodeAddress::Place(place) => Some(place),
        CodeAddress::Nowhere => None,
    }
}

// piece: put_code
/// The text of the code at a place.
pub fn put_code<'s, S: Source<'s>>(
    resolver: &mut Resolver<'_, 's, S>,
    out: &mut Vec<u8>,
    detail: Detail,
    place: Option<PdbInternalSectionOffset>,
) -> Result<(), Stop>
    ensures continues { Continues resolver.old resolver.new }
    ensures text { resolver.new.told ≡ true → OnOk result (out.new.items ≡ out.old.items ++ code_text resolver.old.file detail place) }
    ensures unwritten { IfErr result (StopsComposing (MayFail resolver.old resolver.new)) }
{
    match detail {
        Detail::Plain => resolver.put_text(out, place).map_err(stop_of),
        Detail::Offsets => resolver.put_displaced_text(out, place).map_err(stop_of),
        Detail::Variables => put_variables(resolver, out, place),
    }
}
// end

/// The text of the code at a place, behind a line with the argument.
fn put_headed<'s, S: Source<'s>>(
    resolver: &mut Resolver<'_, 's, S>,
    out: &mut Vec<u8>,
    word: &[u8],
    detail: Detail,
    place: Option<PdbInternalSectionOffset>,
) -> Result<(), Stop>
    ensures continues { Continues resolver.old resolver.new }
    ensures text { resolver.new.told ≡ true → OnOk result (out.new.items ≡ out.old.items ++ (word.now ++ codes "\n" ++ code_text resolver.old.file detail place)) }
    ensures unwritten { IfErr result (StopsComposing (MayFail resolver.old resolver.new)) }
{
    out.extend_from_slice(word)?;
    put_line_end(out)?;
    put_code(resolver, out, detail, place)
}

/// The JSON object of an argument, and of the frames of its place.
#[tactic(auto, unfolding(crate::specs::RequestTexts::asked_line))]
fn put_object<'s, S: Source<'s>>(
    resolver: &mut Resolver<'_, 's, S>,
    out: &mut Vec<u8>,
    word: &[u8],
    place: Option<PdbInternalSectionOffset>,
) -> Result<(), Stop>
    ensures continues { Continues resolver.old resolver.new }
    ensures text { resolver.new.told ≡ true → OnOk result (out.new.items ≡ out.old.items ++ asked_line resolver.old.file word.now place) }
    ensures unwritten { IfErr result (StopsComposing (MayFail resolver.old resolver.new)) }
{
    let frames = resolver.frames(place).map_err(stop_of)?;
    let alloc = *out.allocator();
    Ok(put_asked_line(alloc, out, word, &frames)?)
}

/// The text of a request of which this is the place: what asks it, where that is written, and what code stands there.
#[inline(always)]
fn put_request_text<'s, S: Source<'s>>(
    resolver: &mut Resolver<'_, 's, S>,
    out: &mut Vec<u8>,
    request: &Request<'_>,
    place: Option<PdbInternalSectionOffset>,
) -> Result<(), Stop>
    ensures continues { Continues resolver.old resolver.new }
    ensures text { resolver.new.told ≡ true → OnOk result (out.new.items ≡ out.old.items ++ styled_text resolver.old.file request.now.detail (style_view request.now.style) place) }
    ensures unwritten { IfErr result (StopsComposing (MayFail resolver.old resolver.new)) }
{
    match request.style {
        Style::Frames => put_code(resolver, out, request.detail, place),
        Style::Headed(word) => put_headed(resolver, out, word, request.detail, place),
        Style::Object(word) => put_object(resolver, out, word, place),
    }
}

/// Whether what is read of the module at a place has no error.
#[inline(always)]
fn is_whole_where<'s, S: Source<'s>>(
    resolver: &mut Resolver<'_, 's, S>,
    place: Option<PdbInternalSectionOffset>,
) -> Result<bool, Stop>
    ensures continues { Continues resolver.old resolver.new }
    ensures whole { resolver.new.told ≡ true → IfOk result (λ b. b ≡ is_whole_where resolver.old.file place) }
    ensures unwritten { IfErr result (StopsComposing (MayFail resolver.old resolver.new)) }
{
    match place {
        Some(place) => resolver.is_whole_at(place).map_err(stop_of),
        None => Ok(true),
    }
}

/// The text of a request. The result is whether what is read of the module there has an error.
#[inline(always)]
#[tactic(auto, unfolding(crate::specs::RequestTexts::request_text))]
pub fn put_request<'s, S: Source<'s>>(
    resolver: &mut Resolver<'_, 's, S>,
    out: &mut Vec<u8>,
    request: &Request<'_>,
) -> Result<bool, Stop>
    ensures continues { Continues resolver.old resolver.new }
    ensures text { resolver.new.told ≡ true → OnOk result (out.new.items ≡ out.old.items ++ request_text resolver.old.file (request_view request.now)) }
    ensures damaged { resolver.new.told ≡ true → IfOk result (λ b. b ≡ is_damaged_at resolver.old.file request.now.address) }
    ensures unwritten { IfErr result (StopsComposing (MayFail resolver.old resolver.new)) }
{
    let place = place_at(resolver, request.address);
    put_request_text(resolver, out, request, place)?;
    Ok(!is_whole_where(resolver, place)?)
}

// piece: print_addresses
/// Prints the texts of the code at addresses, one after another. Each is composed and then printed.
pub fn print_addresses<'s, S: Source<'s>, P: Printer>(
    alloc: Global,
    resolver: &mut Resolver<'_, 's, S>,
    options: Options,
    addresses: &[AddressWord<'_>],
    out: &mut P,
) -> Result<(), Stop>
    ensures continues { Continues resolver.old resolver.new }
    ensures prints { resolver.new.told ≡ true → Prints (all_shown (address_shown resolver.old.file options) addresses.now) (P.state out.old) (P.state out.new) result }
    ensures halts { Halts (MayFail resolver.old resolver.new) (P.state out.old) (P.state out.new) result }
    // Where it ended but for a failed write, the texts of some first addresses were printed, whole.
    ensures whole { resolver.new.told ≡ true → IsErrAnd result (λ e. e ≢ Stop.Write) → PrintedFirst (address_shown resolver.old.file options) addresses.now (P.state out.old) (P.state out.new) }
{
    let mut text = Vec::new(alloc);
    for address in addresses {
        text.clear();
        let is_damaged = put_request(resolver, &mut text, &request_of(options, *address))?;
        out.print_bytes(&text, is_damaged)?;
    }
    Ok(())
}
// end

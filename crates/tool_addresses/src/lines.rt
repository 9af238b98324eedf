//! Answers to the lines of standard input.

ghost use Rattle.std.specs.Prelude.{◌≡◌, ◌<◌, ◌++◌, ◌⊎◌, true, false, IfOk, IfErr, IfSome, IsErrOf, OnOk, Some, length};
ghost use Rattle.std.specs.IoError.{error_kind};
ghost use Rattle.std.specs.Io.KnownBytes.{IsAtEnd};
ghost use Rattle.std.specs.Io.BufRead.{drop_through, strip_last, take_through};
ghost use Rattle.pdb.specs.Source.{Continues, MayFail};
ghost use Rattle.tool_arguments.specs.CodeAddresses.{without_blanks};
ghost use Rattle.tool_addresses.specs.AnsweredLines.{AnsweredUpTo, lines_of, of_first_line};
ghost use Rattle.tool_addresses.specs.RequestTexts.{line_shown, unasked_text};
ghost use Rattle.tool_output.specs.Stops.{StopsAnswering, StopsComposing, stop_of_kind};
ghost use Rattle.tool_output.specs.WriteFailures.{failures_after};
ghost use Rattle.tool_output.specs.declared.stop.Stop.{Stop};
ghost use Rattle.tool_printing.specs.Printing.{Prints, all_shown};

use crate::resolve::put_request;
use pdb::Source;
use pdb_resolve::Resolver;
use pdb_text::put_line_end;
use std::alloc::{AllocError, Global};
use std::io::{self, BufRead, ErrorKind};
use tool_arguments::options::{Options, OutputFormat};
use tool_arguments::requests::request_in;
use tool_output::stop::Stop;
use tool_printing::Printer;
use tool_search::frame_objects::put_unasked_line;

/// The text of a line that is no address.
fn put_unasked(format: OutputFormat, line: &[u8], out: &mut Vec<u8>) -> Result<(), AllocError>
    ensures { OnOk result (out.new.items ≡ out.old.items ++ unasked_text format line.now) }
{
    match format {
        OutputFormat::Text => {
            out.extend_from_slice(line)?;
            put_line_end(out)
        }
        OutputFormat::Json => {
            let alloc = *out.allocator();
            put_unasked_line(alloc, out, line)
        }
    }
}

/// The text of a line without its end. The result is whether what is read of the module there has an error.
#[tactic(auto, unfolding(crate::specs::RequestTexts::line_shown))]
fn put_answer<'s, S: Source<'s>>(
    resolver: &mut Resolver<'_, 's, S>,
    options: Options,
    line: &[u8],
    out: &mut Vec<u8>,
) -> Result<bool, Stop>
    ensures continues { Continues resolver.old resolver.new }
    ensures text { resolver.new.told ≡ true → OnOk result (out.new.items ≡ out.old.items ++ (line_shown resolver.old.file options line.now).bytes) }
    ensures damaged { resolver.new.told ≡ true → IfOk result (λ b. b ≡ (line_shown resolver.old.file options line.now).damaged) }
    ensures unwritten { IfErr result (StopsComposing (MayFail resolver.old resolver.new)) }
{
    match request_in(options, trimmed(line)) {
        Some(request) => put_request(resolver, out, &request),
        None => {
            put_unasked(options.format, line, out)?;
            Ok(false)
        }
    }
}

/// Bytes without the blanks at both ends.
fn trimmed(line: &[u8]) -> &[u8]
    ensures { result.now ≡ without_blanks line.now }
{
    line.trim_ascii()
}

/// Why a line couldn't be read.
fn line_stop(e: &io::Error) -> Stop
    ensures { result ≡ stop_of_kind (error_kind e.now) }
{
    match e.kind() {
        ErrorKind::OutOfMemory => Stop::Memory,
        _ => Stop::Input,
    }
}

/// Reads the next line of a reader, with its end, instead of what is there; returns how many bytes it has.
#[tactic(auto, using(crate::proofs::AnsweredLines::some_left))]
fn read_line<R: BufRead>(input: &mut R, line: &mut Vec<u8>) -> Result<usize, Stop>
    ensures line { IfSome (R.remaining input.old) (λ xs. OnOk result (line.new.items ≡ take_through 10 xs)) }
    ensures rest { IfSome (R.remaining input.old) (λ xs. OnOk result (R.remaining input.new ≡ Some (drop_through 10 xs))) }
    ensures end { IfOk result (λ n. n ≡ 0 → IsAtEnd (R.remaining input.old)) }
    ensures count { IfOk result (λ n. n ≡ length line.new.items) }
    ensures some { IfOk result (λ n. 0 < n → IfSome (R.remaining input.old) (λ xs. 0 < length xs)) }
    ensures unwritten { IfErr result (λ e. (e ≡ Stop.Memory) ⊎ (e ≡ Stop.Input)) }
{
    line.clear();
    input.read_until(b'\n', line).map_err(|e| line_stop(&e))
}

/// A line without its end.
fn without_end(line: &[u8]) -> &[u8]
    ensures { result.now ≡ strip_last 10 line.now }
{
    line.strip_suffix(b"\n").unwrap_or(line)
}

/// What is kept from line to line: where a line is read, and where its text is composed.
#[derive(Drop)]
struct LineBuffers {
    line: Vec<u8>,
    text: Vec<u8>,
}

impl LineBuffers {
    // Empty ones, which take no memory yet.
    fn new(alloc: Global) -> Self {
        LineBuffers {
            line: Vec::new(alloc),
            text: Vec::new(alloc),
        }
    }
}

/// Reads the next line of a reader, and prints its text; returns whether there was one.
fn answer_line<'s, S: Source<'s>, R: BufRead, P: Printer>(
    resolver: &mut Resolver<'_, 's, S>,
    options: Options,
    buffers: &mut LineBuffers,
    input: &mut R,
    out: &mut P,
) -> Result<bool, Stop>
    ensures continues { Continues resolver.old resolver.new }
    ensures prints { resolver.new.told ≡ true → IfSome (R.remaining input.old) (λ xs. Prints (of_first_line (line_shown resolver.old.file options) xs) (P.state out.old) (P.state out.new) result) }
    ensures stops { IfErr result (StopsAnswering (MayFail resolver.old resolver.new)) }
    ensures failures { (P.state out.new).failures ≡ failures_after (P.state out.old).failures result }
    // The first line that was left, and no more, was read.
    ensures read { IfSome (R.remaining input.old) (λ xs. OnOk result (R.remaining input.new ≡ Some (drop_through 10 xs))) }
    // There was a line exactly where bytes were left.
    ensures end { IfOk result (λ more. more ≡ false → IsAtEnd (R.remaining input.old)) }
    ensures more { IfOk result (λ more. more ≡ true → IfSome (R.remaining input.old) (λ xs. 0 < length xs)) }
    // Where its text can't be printed, that line and no more was read.
    ensures unprinted { IsErrOf result Stop.Write → IfSome (R.remaining input.old) (λ xs. (0 < length xs) × (R.remaining input.new ≡ Some (drop_through 10 xs))) }
{
    if read_line(input, &mut buffers.line)? == 0 {
        return Ok(false);
    }
    buffers.text.clear();
    let is_damaged = put_answer(
        resolver,
        options,
        without_end(&buffers.line),
        &mut buffers.text,
    )?;
    out.print_bytes(&buffers.text, is_damaged)?;
    Ok(true)
}

/// Prints the texts of the lines of a reader, one after another: the text of each is printed before the next line is
/// read.
pub fn answer_lines<'s, S: Source<'s>, R: BufRead, P: Printer>(
    alloc: Global,
    resolver: &mut Resolver<'_, 's, S>,
    options: Options,
    input: &mut R,
    out: &mut P,
) -> Result<(), Stop>
    ensures continues { Continues resolver.old resolver.new }
    ensures prints { resolver.new.told ≡ true → IfSome (R.remaining input.old) (λ xs. Prints (all_shown (line_shown resolver.old.file options) (lines_of xs)) (P.state out.old) (P.state out.new) result) }
    ensures stops { IfErr result (StopsAnswering (MayFail resolver.old resolver.new)) }
    ensures failures { (P.state out.new).failures ≡ failures_after (P.state out.old).failures result }
    // No line is read before the texts of those before it were printed.
    ensures order { resolver.new.told ≡ true → IsErrOf result Stop.Write → IfSome (R.remaining input.old) (λ xs. IfSome (R.remaining input.new) (λ rest. AnsweredUpTo (line_shown resolver.old.file options) xs rest (P.state out.old) (P.state out.new))) }
{
    let mut buffers = LineBuffers::new(alloc);
    for _ in 0..u64::MAX {
        if !answer_line(resolver, options, &mut buffers, input, out)? {
            return Ok(());
        }
    }
    Err(Stop::Input)
}

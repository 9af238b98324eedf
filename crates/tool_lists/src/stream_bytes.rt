//! The bytes of a stream: `stream`.

ghost use Rattle.std.specs.Prelude.{◌≡◌, ◌≢◌, true, IfErr, IfOk, IsErrOf};
ghost use Rattle.pdb.specs.Error.{Error};
ghost use Rattle.pdb.specs.Refusal.{Gives};
ghost use Rattle.pdb.specs.Source.{Continues, MayFail};
ghost use Rattle.tool_arguments.specs.StreamsAsked.{stream_view};
ghost use Rattle.tool_lists.specs.StreamBytes.{gap_of, gap_in, numbered_in, stream_asked_in, stream_shown};
ghost use Rattle.tool_output.specs.Stops.{Halts, StopsComposing};
ghost use Rattle.tool_printing.specs.Printing.{Prints};

use pdb::{Error, PDB, Result as Answer, Source, Stream, StreamIndex};
use tool_arguments::streams_asked::StreamAsked;
use tool_output::stop::Stop;
use tool_printing::Printer;

/// Why no bytes of a stream are there.
#[derive(Clone, Copy, Debug, PartialEq, Eq)]
pub enum StreamGap {
    /// The file has no such stream.
    Missing,
    /// It can't be read.
    Refused(Error),
}

/// The stream of a number, where the file has one. A file names its streams by two bytes, of which the greatest names none.
#[tactic(auto, unfolding(pdb::specs::Answers::raw_stream_in))]
fn stream_of_number<'s, S: Source<'s>>(pdb: &mut PDB<'s, S>, number: u64) -> Answer<Stream<'s>>
    ensures continues { Continues pdb.old pdb.new }
    ensures failed { IsErrOf result Error.IoError → MayFail pdb.old pdb.new }
    ensures answer { pdb.new.told ≡ true → Gives (λ s. s) (MayFail pdb.old pdb.new) result (numbered_in pdb.old.file number) }
{
    let Ok(number) = u16::try_from(number) else {
        return Err(Error::StreamNameNotFound);
    };
    match pdb.raw_stream(StreamIndex(number))? {
        Some(stream) => Ok(stream),
        None => Err(Error::StreamNameNotFound),
    }
}

/// The stream that is asked for.
fn stream_asked<'s, S: Source<'s>>(
    pdb: &mut PDB<'s, S>,
    asked: StreamAsked<'_>,
) -> Answer<Stream<'s>>
    ensures continues { Continues pdb.old pdb.new }
    ensures failed { IsErrOf result Error.IoError → MayFail pdb.old pdb.new }
    ensures answer { pdb.new.told ≡ true → Gives (λ s. s) (MayFail pdb.old pdb.new) result (stream_asked_in pdb.old.file (stream_view asked.entry)) }
{
    match asked {
        StreamAsked::Number(number) => stream_of_number(pdb, number),
        StreamAsked::Name(name) => pdb.named_stream(name),
    }
}

/// What a refusal says of a stream.
fn gap_of(e: Error) -> StreamGap
    ensures { result ≡ gap_of e }
{
    match e {
        Error::StreamNotFound(_) | Error::StreamNameNotFound => StreamGap::Missing,
        e => StreamGap::Refused(e),
    }
}

/// What a refusal says of a stream; out of memory, and a source that failed, are passed on.
fn gap_or_stop(e: Error) -> Result<StreamGap, Stop>
    ensures gap { IfOk result (λ gap. (e ≢ Error.OutOfMemory) × (e ≢ Error.IoError) × (gap ≡ gap_of e)) }
    ensures unwritten { IfErr result (StopsComposing (e ≡ Error.IoError)) }
{
    match e {
        Error::OutOfMemory => Err(Stop::Memory),
        Error::IoError => Err(Stop::Read),
        e => Ok(gap_of(e)),
    }
}

/// Writes the bytes of a stream as they are; where they can't be had whole, it writes nothing, and says why.
pub fn print_stream<'s, S: Source<'s>, P: Printer>(
    pdb: &mut PDB<'s, S>,
    asked: StreamAsked<'_>,
    out: &mut P,
) -> Result<Option<StreamGap>, Stop>
    ensures continues { Continues pdb.old pdb.new }
    ensures prints { pdb.new.told ≡ true → Prints (stream_shown (stream_asked_in pdb.old.file (stream_view asked.entry))) (P.state out.old) (P.state out.new) result }
    ensures gap { pdb.new.told ≡ true → IfOk result (λ gap. gap ≡ gap_in (stream_asked_in pdb.old.file (stream_view asked.entry))) }
    ensures halts { Halts (MayFail pdb.old pdb.new) (P.state out.old) (P.state out.new) result }
{
    match stream_asked(pdb, asked) {
        Ok(stream) => {
            out.print_bytes(stream.as_slice(), false)?;
            Ok(None)
        }
        Err(e) => Ok(Some(gap_or_stop(e)?)),
    }
}

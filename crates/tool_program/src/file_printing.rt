//! What is printed of a file.

ghost use Rattle.std.specs.Prelude.{◌≡◌, ⊤, false, true, Err, Ok, IfErr, IfOk, IsErrOf, OnOk, option_copied};
ghost use Rattle.pdb.specs.Container.{opens};
ghost use Rattle.pdb.specs.Error.{Error};
ghost use Rattle.pdb.specs.Source.{Continues, IsKnown};
ghost use Rattle.tool_addresses.specs.RequestTexts.{address_shown};
ghost use Rattle.tool_arguments.specs.StreamsAsked.{stream_view};
ghost use Rattle.tool_lists.specs.StreamBytes.{gap_in, stream_asked_in, stream_shown};
ghost use Rattle.tool_output.specs.Stops.{Halts, StopsAsked, StopsCommand, StopsComposing};
ghost use Rattle.tool_output.specs.WriteFailures.{failures_after};
ghost use Rattle.tool_output.specs.declared.stop.Stop.{Stop};
ghost use Rattle.tool_printing.specs.Printing.{Prints, all_shown};
ghost use Rattle.tool_program.specs.FileTexts.{file_shown};
ghost use Rattle.tool_program.specs.Hosts.{OfKnown};
ghost use Rattle.tool_program.specs.Wanted.{AnswersWanted, IsRefused, PrintsWanted};

use crate::wanted::other_key;
use bumpalo::Bump;
use pdb::{PDB, Source};
use pdb_file::{KnownFile, ReadAt, ReadingSource};
use pdb_resolve::{Resolver, Streams};
use std::alloc::Global;
use std::io::BufRead;
use tool_addresses::lines::answer_lines;
use tool_addresses::resolve::print_addresses;
use tool_arguments::options::Options;
use tool_arguments::requests::AddressWord;
use tool_arguments::streams_asked::StreamAsked;
use tool_arguments::tasks::FileTask;
use tool_lists::frame_texts::print_frames;
use tool_lists::module_lists::print_modules;
use tool_lists::section_texts::print_sections;
use tool_lists::stream_bytes::{StreamGap, print_stream};
use tool_lists::stream_texts::print_streams;
use tool_output::opening::opened;
use tool_output::stop::{Stop, stop_of};
use tool_printing::Printer;
use tool_search::lookups::{print_find, print_sources, print_where};
use tool_symbols::commands::{print_all_symbols, print_lines, print_scopes, print_symbols};
use tool_types::type_texts::print_types;

/// A resolver over an opened file.
fn resolver_over<'a, 's, S: Source<'s>>(
    alloc: Global,
    pdb: PDB<'s, S>,
    streams: &'a mut Streams<'s>,
) -> Result<Resolver<'a, 's, S>, Stop>
    ensures continues { IfOk result (λ r. Continues pdb.entry r) }
    ensures unwritten { IfErr result (StopsComposing (pdb.entry.steady ≡ false)) }
{
    match Resolver::new(alloc, pdb, streams) {
        Ok(resolver) => Ok(resolver),
        Err(e) => Err(stop_of(e)),
    }
}

/// Prints the code at addresses of an opened file.
fn print_code<'s, S: Source<'s>, P: Printer>(
    alloc: Global,
    pdb: PDB<'s, S>,
    options: Options,
    addresses: &[AddressWord<'_>],
    out: &mut P,
) -> Result<(), Stop>
    ensures prints { IsKnown pdb.entry → Prints (all_shown (address_shown pdb.entry.file options) addresses.now) (P.state out.old) (P.state out.new) result }
    ensures halts { Halts (pdb.entry.steady ≡ false) (P.state out.old) (P.state out.new) result }
{
    let mut streams = Streams::new(alloc);
    let mut resolver = resolver_over(alloc, pdb, &mut streams)?;
    print_addresses(alloc, &mut resolver, options, addresses, out)
}

/// Prints what is asked for of an opened file.
fn print_task<'s, S: Source<'s>, P: Printer>(
    alloc: Global,
    mut pdb: PDB<'s, S>,
    task: &FileTask<'_>,
    out: &mut P,
) -> Result<(), Stop>
    ensures prints { IsKnown pdb.entry → Prints (file_shown pdb.entry.file task.now) (P.state out.old) (P.state out.new) result }
    ensures halts { Halts (pdb.entry.steady ≡ false) (P.state out.old) (P.state out.new) result }
{
    match task {
        FileTask::Code(options, addresses) => print_code(alloc, pdb, *options, addresses, out),
        FileTask::Lines(indices) => print_lines(alloc, &mut pdb, indices, out),
        FileTask::Scopes(indices) => print_scopes(alloc, &mut pdb, indices, out),
        FileTask::Symbols(indices) => print_symbols(alloc, &mut pdb, indices, out),
        FileTask::AllSymbols => print_all_symbols(alloc, &mut pdb, out),
        FileTask::Types(indices) => print_types(alloc, &mut pdb, indices, out),
        FileTask::Sources(format, indices) => print_sources(alloc, &mut pdb, *format, indices, out),
        FileTask::Find(format, words) => print_find(alloc, &mut pdb, *format, words, out),
        FileTask::Where(format, asked) => print_where(alloc, &mut pdb, *format, asked, out),
        FileTask::Modules(format) => print_modules(alloc, &mut pdb, *format, out),
        FileTask::Sections(format) => print_sections(alloc, &mut pdb, *format, out),
        FileTask::Frames(format) => print_frames(alloc, &mut pdb, *format, out),
        FileTask::Streams(format) => print_streams(alloc, &mut pdb, *format, out),
    }
}

/// Prints what is asked for of a file of this size, if it is the wanted one; else returns its key. No more of the file
/// is read than both ask for.
pub fn print_file<R: ReadAt, P: Printer>(
    alloc: Global,
    bytes: &R,
    size: u64,
    wanted: Option<&[u8]>,
    task: &FileTask<'_>,
    out: &mut P,
) -> Result<Option<Vec<u8>>, Stop>
    ensures prints { OfKnown (R.known bytes.now) size (λ F. PrintsWanted F (option_copied wanted.entry) (file_shown F task.now) (P.state out.old) (P.state out.new) result) }
    ensures opened { OfKnown (R.known bytes.now) size (λ F. OnOk result (opens F ≡ Ok tt)) }
    ensures refused { OfKnown (R.known bytes.now) size (λ F. (e : Error) → IsErrOf result (Stop.Open e) → IsRefused F (option_copied wanted.entry) e) }
    ensures steady { R.is_steady bytes.now ≡ true → OfKnown (R.known bytes.now) size (λ F. IsErrOf result Stop.Read → ⊥) }
    ensures stops { IfErr result (StopsCommand ⊤) }
    ensures failures { (P.state out.new).failures ≡ failures_after (P.state out.old).failures result }
{
    let arena = Bump::new(alloc);
    let file = KnownFile::new(bytes);
    let source = ReadingSource::new(alloc, &arena, bytes, &file, size);
    let mut pdb = opened(alloc, source)?;
    match other_key(alloc, &mut pdb, wanted)? {
        Some(key) => Ok(Some(key)),
        None => {
            print_task(alloc, pdb, task, out)?;
            Ok(None)
        }
    }
}

/// Writes the bytes of a stream of a file of this size; where they can't be had whole, it writes nothing, and says why.
pub fn print_stream_of<R: ReadAt, P: Printer>(
    alloc: Global,
    bytes: &R,
    size: u64,
    asked: StreamAsked<'_>,
    out: &mut P,
) -> Result<Option<StreamGap>, Stop>
    ensures prints { OfKnown (R.known bytes.now) size (λ F. Prints (stream_shown (stream_asked_in F (stream_view asked.entry))) (P.state out.old) (P.state out.new) result) }
    ensures gap { OfKnown (R.known bytes.now) size (λ F. IfOk result (λ gap. gap ≡ gap_in (stream_asked_in F (stream_view asked.entry)))) }
    ensures opened { OfKnown (R.known bytes.now) size (λ F. OnOk result (opens F ≡ Ok tt)) }
    ensures refused { OfKnown (R.known bytes.now) size (λ F. (e : Error) → IsErrOf result (Stop.Open e) → opens F ≡ Err e) }
    ensures steady { R.is_steady bytes.now ≡ true → OfKnown (R.known bytes.now) size (λ F. IsErrOf result Stop.Read → ⊥) }
    ensures stops { IfErr result (StopsCommand ⊤) }
    ensures failures { (P.state out.new).failures ≡ failures_after (P.state out.old).failures result }
{
    let arena = Bump::new(alloc);
    let file = KnownFile::new(bytes);
    let source = ReadingSource::new(alloc, &arena, bytes, &file, size);
    let mut pdb = opened(alloc, source)?;
    print_stream(&mut pdb, asked, out)
}

/// Prints the texts of the lines of a reader over a file of this size, each before the next is read, if it is the
/// wanted one; else returns its key. No more of the file is read than its key and the lines ask for.
pub fn answer_file<R: ReadAt, I: BufRead, P: Printer>(
    alloc: Global,
    bytes: &R,
    size: u64,
    wanted: Option<&[u8]>,
    options: Options,
    input: &mut I,
    out: &mut P,
) -> Result<Option<Vec<u8>>, Stop>
    ensures prints { OfKnown (R.known bytes.now) size (λ F. AnswersWanted F (option_copied wanted.entry) options (I.remaining input.old) (P.state out.old) (P.state out.new) result) }
    ensures opened { OfKnown (R.known bytes.now) size (λ F. OnOk result (opens F ≡ Ok tt)) }
    ensures refused { OfKnown (R.known bytes.now) size (λ F. (e : Error) → IsErrOf result (Stop.Open e) → IsRefused F (option_copied wanted.entry) e) }
    ensures steady { R.is_steady bytes.now ≡ true → OfKnown (R.known bytes.now) size (λ F. IsErrOf result Stop.Read → ⊥) }
    ensures stops { IfErr result (StopsAsked ⊤) }
    ensures failures { (P.state out.new).failures ≡ failures_after (P.state out.old).failures result }
{
    let arena = Bump::new(alloc);
    let file = KnownFile::new(bytes);
    let source = ReadingSource::new(alloc, &arena, bytes, &file, size);
    let mut pdb = opened(alloc, source)?;
    match other_key(alloc, &mut pdb, wanted)? {
        Some(key) => Ok(Some(key)),
        None => {
            let mut streams = Streams::new(alloc);
            let mut resolver = resolver_over(alloc, pdb, &mut streams)?;
            answer_lines(alloc, &mut resolver, options, input, out)?;
            Ok(None)
        }
    }
}

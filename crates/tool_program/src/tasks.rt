//! What the program does.

ghost use Rattle.std.specs.Prelude.{◌≡◌, map};
ghost use Rattle.tool_arguments.specs.Requests.{address_view};
ghost use Rattle.tool_program.specs.Tasks.{all_based, exit_status, looks_up};

use crate::file_printing::{answer_file, print_file, print_stream_of};
use crate::host::Host;
use crate::key_line::image_wants;
use crate::messages::{report_damage, report_gap, report_other_key, report_reading, report_stop};
use crate::one_pdb::{OnePdb, one_pdb};
use crate::several_files::{Checks, Keys};
use crate::store::store_files;
use crate::wanted::{WantedKey, wanted_key};
use pdb_text::{CountedWrite, write_out};
use std::alloc::Global;
use std::io::{BufRead, Write};
use tool_arguments::commands::Command;
use tool_arguments::help::{VERSION, help_text};
use tool_arguments::list_help::LIST;
use tool_arguments::mistakes::{Mistake, Wrong};
use tool_arguments::operands::Operand;
use tool_arguments::options::{Options, ValueAt, Wanted, value_in};
use tool_arguments::requests::{AddressWord, first_needing};
use tool_arguments::streams_asked::StreamAsked;
use tool_arguments::tasks::{FileTask, Task, task_in};
use tool_output::each_file::print_each_file;
use tool_output::fault::{Fault, status_of};
use tool_output::stop::Stop;
use tool_printing::Printout;

/// Whether all was found, and nothing is wrong with any of several files.
pub type IsWell = Result<bool, Fault>;

/// The standard streams.
#[derive(Drop)]
pub struct StandardStreams<'a, I: BufRead, W: CountedWrite, E: Write> {
    /// Standard input.
    pub input: &'a mut I,
    /// Standard output.
    pub out: &'a mut W,
    /// Standard error.
    pub err: &'a mut E,
}

/// The key that is wanted, if one is, and the image that needs it; and the options, with the load address of an image if no
/// other is given.
#[derive(Drop)]
struct Wants<'w> {
    key: Option<Vec<u8>>,
    image: Option<&'w str>,
    options: Options,
}

impl Wants<'_> {
    /// The key that is wanted, and who needs it.
    fn wanted(&self) -> Option<WantedKey<'_>> {
        let key = self.key.as_deref()?;
        Some(WantedKey {
            image: self.image,
            key,
        })
    }
}

/// Whether finding nothing is an answer that the exit status tells.
fn looks_up(task: &FileTask<'_>) -> bool
    ensures { result ≡ looks_up task.now }
{
    matches!(task, FileTask::Find(..) | FileTask::Where(..))
}

/// What the image wants that the value of an option names.
fn wants_of_image<'w, H: Host>(
    host: &H,
    options: Options,
    words: &'w [String],
    value: ValueAt,
) -> Result<Wants<'w>, Stop> {
    let name = Operand {
        argument: value.argument,
        word: value_in(words, value),
    };
    let image = host.open(name)?;
    let wants = image_wants(host.alloc(), &image, image.size())?;
    Ok(Wants {
        key: Some(wants.key),
        image: Some(name.word),
        options: options.with_base_of(wants.base, wants.size),
    })
}

/// What the options want.
fn wants_of<'w, H: Host>(
    host: &H,
    options: Options,
    words: &'w [String],
) -> Result<Wants<'w>, Fault> {
    match options.wanted {
        None => Ok(Wants {
            key: None,
            image: None,
            options,
        }),
        Some(Wanted::Key(value)) => {
            let key = wanted_key(host.alloc(), value_in(words, value)).map_err(Stop::from)?;
            Ok(Wants {
                key: Some(key),
                image: None,
                options,
            })
        }
        Some(Wanted::Image(value)) => wants_of_image(host, options, words, value).map_err(
            |stop| Fault::Image(stop, value),
        ),
    }
}

/// Why the program fails where a command stopped over a PDB. That it can't be read is reported here, if no argument names it.
fn fault_over<H: Host, E: Write>(
    host: &H,
    stop: Stop,
    own_path: Option<&str>,
    name: Operand<'_>,
    err: &mut E,
) -> Fault {
    match (own_path, stop) {
        (Some(path), Stop::Read | Stop::Open(_)) => {
            report_stop(host, stop, path, err);
            Fault::Reported(stop)
        }
        _ => Fault::Stopped(stop, name.argument),
    }
}

/// Whether a text was printed. That what was read for it has an error is reported, unless it can't be printed; and that the
/// file isn't the wanted one. `own_path` is the path of a PDB that no argument names.
fn printed_or_other<H: Host, E: Write>(
    host: &H,
    printed: Result<Option<Vec<u8>>, Stop>,
    is_damaged: bool,
    own_path: Option<&str>,
    name: Operand<'_>,
    wanted: Option<WantedKey<'_>>,
    err: &mut E,
) -> IsWell {
    let path = own_path.unwrap_or(name.word);
    if is_damaged && !matches!(printed, Err(Stop::Write)) {
        report_damage(host.alloc(), path, err);
    }
    match printed {
        Ok(None) => Ok(true),
        Ok(Some(key)) => {
            if let Some(wanted) = wanted {
                report_other_key(host.alloc(), path, &key, wanted, err);
            }
            Err(Fault::OtherKey)
        }
        Err(stop) => Err(fault_over(host, stop, own_path, name, err)),
    }
}

/// The key that is wanted, if one is.
fn key_of(wanted: Option<WantedKey<'_>>) -> Option<&[u8]> {
    match wanted {
        Some(wanted) => Some(wanted.key),
        None => None,
    }
}

/// Prints what is asked for of a PDB, if it is the wanted one. An operand names it or its image.
fn print_of<H: Host, I: BufRead, W: CountedWrite, E: Write>(
    host: &H,
    file: &OnePdb<H::File>,
    name: Operand<'_>,
    wanted: Option<WantedKey<'_>>,
    task: &FileTask<'_>,
    streams: &mut StandardStreams<'_, I, W, E>,
) -> IsWell {
    let mut out = Printout::new(streams.out);
    let printed = print_file(
        host.alloc(),
        &file.bytes,
        file.bytes.size(),
        key_of(wanted),
        task,
        &mut out,
    );
    let is_well = out.has_text() || !looks_up(task);
    let is_damaged = out.is_damaged();
    printed_or_other(
        host,
        printed,
        is_damaged,
        file.own_path(),
        name,
        wanted,
        streams.err,
    )?;
    Ok(is_well)
}

/// That no address needs a load address which isn't known.
fn all_based(options: Options, addresses: &[AddressWord<'_>]) -> Result<(), Mistake>
    ensures { result ≡ all_based options (map address_view addresses.now) }
{
    match first_needing(options, addresses) {
        Some(argument) => Err(Mistake {
            argument,
            wrong: Wrong::NeedsBase,
        }),
        None => Ok(()),
    }
}

/// Prints the code at addresses.
fn print_code<H: Host, I: BufRead, W: CountedWrite, E: Write>(
    host: &H,
    options: Options,
    name: Operand<'_>,
    addresses: Vec<AddressWord<'_>>,
    words: &[String],
    streams: &mut StandardStreams<'_, I, W, E>,
) -> IsWell {
    let wants = wants_of(host, options, words)?;
    let file = one_pdb(host, name, words, streams.err)?;
    let options = file.options(wants.options);
    all_based(options, &addresses).map_err(Fault::Mistaken)?;
    let task = FileTask::Code(options, addresses);
    print_of(host, &file, name, wants.wanted(), &task, streams)
}

/// Prints the code at the addresses that the lines of standard input are.
fn answer_input<H: Host, I: BufRead, W: CountedWrite, E: Write>(
    host: &H,
    options: Options,
    name: Operand<'_>,
    words: &[String],
    streams: &mut StandardStreams<'_, I, W, E>,
) -> IsWell {
    let alloc = host.alloc();
    let has_input = host.has_input();
    let wants = wants_of(host, options, words)?;
    let file = one_pdb(host, name, words, streams.err)?;
    if !has_input {
        return Err(Fault::NoInput);
    }
    if host.is_asked_by_hand() {
        report_reading(streams.err);
    }
    let wanted = wants.wanted();
    let mut out = Printout::new(streams.out);
    let printed = answer_file(
        alloc,
        &file.bytes,
        file.bytes.size(),
        key_of(wanted),
        file.options(wants.options),
        streams.input,
        &mut out,
    );
    let is_damaged = out.is_damaged();
    let own_path = file.own_path();
    printed_or_other(
        host,
        printed,
        is_damaged,
        own_path,
        name,
        wanted,
        streams.err,
    )
}

/// That each argument but the one that names a file is UTF-8.
fn others_are_text<H: Host>(host: &H, file: Operand<'_>) -> Result<(), Fault> {
    for argument in host.not_text() {
        if *argument != file.argument {
            return Err(Fault::NotText(*argument));
        }
    }
    Ok(())
}

/// That what is looked up is UTF-8.
fn all_text<H: Host>(host: &H, file: Operand<'_>, task: &FileTask<'_>) -> Result<(), Fault> {
    if looks_up(task) {
        others_are_text(host, file)
    } else {
        Ok(())
    }
}

/// Writes the bytes of a stream.
fn write_stream<H: Host, I: BufRead, W: CountedWrite, E: Write>(
    host: &H,
    name: Operand<'_>,
    asked: StreamAsked<'_>,
    words: &[String],
    streams: &mut StandardStreams<'_, I, W, E>,
) -> IsWell {
    others_are_text(host, name)?;
    let file = one_pdb(host, name, words, streams.err)?;
    let mut out = Printout::new(streams.out);
    let written = print_stream_of(
        host.alloc(),
        &file.bytes,
        file.bytes.size(),
        asked,
        &mut out,
    );
    match written {
        Ok(None) => Ok(true),
        Ok(Some(gap)) => {
            let path = file.own_path().unwrap_or(name.word);
            report_gap(host.alloc(), path, asked, gap, streams.err);
            Ok(false)
        }
        Err(stop) => Err(fault_over(host, stop, file.own_path(), name, streams.err)),
    }
}

/// Prints a text of the program's own.
fn print_own<W: Write>(text: &[u8], out: &mut W) -> IsWell {
    write_out(out, text)?;
    Ok(true)
}

/// Prints help: on all, or on a command.
fn print_help<H: Host, W: Write>(host: &H, command: Option<Command>, out: &mut W) -> IsWell {
    let text = help_text(host.alloc(), command).map_err(Stop::from)?;
    print_own(&text, out)
}

/// Does what the arguments ask for. The result is whether all was found, and nothing is wrong with any of several files.
pub fn run<H: Host, I: BufRead, W: CountedWrite, E: Write>(
    host: &H,
    words: &[String],
    streams: &mut StandardStreams<'_, I, W, E>,
) -> IsWell {
    match task_in(host.alloc(), words)? {
        Task::Help(command) => print_help(host, command, streams.out),
        Task::ListHelp => print_own(LIST.as_bytes(), streams.out),
        Task::Version => print_own(VERSION.as_bytes(), streams.out),
        Task::Keys(format, files) => {
            let mut out = Printout::new(streams.out);
            print_each_file(&Keys::new(host, format), &files, &mut out, streams.err)
        }
        Task::Checks(format, files) => {
            let mut out = Printout::new(streams.out);
            print_each_file(&Checks::new(host, format), &files, &mut out, streams.err)
        }
        Task::Resolve(options, file, addresses) => {
            print_code(host, options, file, addresses, words, streams)
        }
        Task::Store(storing, files) => store_files(
            host,
            storing,
            &files,
            words,
            streams.out,
            streams.err,
        ),
        Task::Stream(file, asked) => write_stream(host, file, asked, words, streams),
        Task::ResolveLines(options, file) => answer_input(host, options, file, words, streams),
        Task::File(file, task) => {
            all_text(host, file, &task)?;
            let pdb = one_pdb(host, file, words, streams.err)?;
            print_of(host, &pdb, file, None, &task, streams)
        }
    }
}

/// The exit status.
pub fn exit_status(ended: IsWell) -> u8
    ensures { result ≡ exit_status ended }
{
    match ended {
        Ok(true) => 0,
        Ok(false) => 1,
        Err(fault) => status_of(fault),
    }
}

//! What is printed on standard error.

ghost use Rattle.std.specs.Prelude.{◌≡◌, ◌++◌, OnOk, option_copied};
ghost use Rattle.tool_arguments.specs.StreamsAsked.{stream_view};
ghost use Rattle.tool_program.specs.Messages.{about, lacking, lacks_stream, named, needed, no_pdb, no_stream, other_key, wrong_pdb};

use crate::file_kind::{FileKind, file_kind, put_kind};
use crate::host::Host;
use crate::wanted::WantedKey;
use pdb_paths::file_name;
use pdb_text::{put_decimal, put_one_line, write_out};
use std::alloc::{AllocError, Global};
use std::io::Write;
use tool_arguments::closest::closest;
use tool_arguments::messages::{put_mistake, word_at};
use tool_arguments::mistakes::{Mistake, Wrong};
use tool_arguments::options::value_in;
use tool_arguments::streams_asked::StreamAsked;
use tool_fields::values::put_behind_blank;
use tool_lists::stream_bytes::StreamGap;
use tool_output::fault::Fault;
use tool_output::stop::{Stop, Unopened};

/// What a file is that can't be opened as a PDB, and its size.
type Kind = Option<(FileKind, u64)>;

/// Why a file can't be opened.
fn reason_of(why: Unopened) -> &'static str {
    match why {
        Unopened::Missing => "cannot read file: no such file",
        Unopened::Directory => "cannot read file: it is a directory",
        Unopened::Denied => "cannot read file: permission denied",
        Unopened::NotText => "cannot read file: its name is not UTF-8",
        Unopened::Other => "cannot read file",
    }
}

/// Appends a name on one line, between two texts.
#[tactic(auto, unfolding(crate::specs::Messages::named))]
fn put_named(out: &mut Vec<u8>, before: &[u8], name: &str, behind: &[u8]) -> Result<(), AllocError>
    ensures { OnOk result (out.new.items ≡ out.old.items ++ named before.now name.now behind.now) }
{
    out.extend_from_slice(before)?;
    put_one_line(out, name.as_bytes())?;
    out.extend_from_slice(behind)
}

/// Appends a line on a file.
#[tactic(auto, unfolding(crate::specs::Messages::about))]
fn put_about(out: &mut Vec<u8>, name: &str, text: &[u8]) -> Result<(), AllocError>
    ensures { OnOk result (out.new.items ≡ out.old.items ++ about name.now text.now) }
{
    put_named(out, b"pdb_tool: ", name, b": ")?;
    out.extend_from_slice(text)?;
    out.extend_from_slice(b"\n")
}

/// Appends the error of a file that can't be opened, and what the file is instead.
fn put_opening(out: &mut Vec<u8>, name: &str, e: pdb::Error, kind: Kind) -> Result<(), AllocError> {
    let alloc = *out.allocator();
    let mut text = format!(in alloc; "{e}")?.into_bytes();
    if let Some((kind, size)) = kind {
        text.extend_from_slice(b": ")?;
        put_kind(&mut text, kind, size)?;
    }
    put_about(out, name, &text)
}

/// Appends what stopped a command over a file.
fn put_stop(out: &mut Vec<u8>, stop: Stop, name: &str, kind: Kind) -> Result<(), AllocError> {
    match stop {
        Stop::Unopened(why) => put_about(out, name, reason_of(why).as_bytes()),
        Stop::Read => put_about(out, name, b"cannot read file"),
        Stop::Input => out.extend_from_slice(b"pdb_tool: cannot read standard input\n"),
        Stop::Open(e) => put_opening(out, name, e, kind),
        Stop::Image(e) => {
            let text = format!(in *out.allocator(); "{e}")?;
            put_about(out, name, text.as_bytes())
        }
        Stop::NoPdb => put_about(out, name, b"names no PDB"),
        Stop::Memory => out.extend_from_slice(b"pdb_tool: out of memory\n"),
        Stop::Write => out.extend_from_slice(b"pdb_tool: cannot write\n"),
    }
}

/// What the file of a name is that couldn't be opened as a PDB; none of one that has no size, such as a pipe.
fn kind_of<H: Host>(host: &H, stop: Stop, name: &str) -> Kind {
    let Stop::Open(_) = stop else {
        return None;
    };
    let (front, size) = host.front(name)?;
    let kind = file_kind(&front, size)?;
    Some((kind, size))
}

/// Appends what is wrong with an argument, and what to write instead.
fn put_mistaken(out: &mut Vec<u8>, words: &[String], mistake: Mistake) -> Result<(), AllocError> {
    let suggested = match mistake.wrong {
        Wrong::UnknownCommand => closest(word_at(words, mistake.argument)),
        _ => None,
    };
    put_mistake(out, words, mistake, suggested)
}

/// Appends a fault's lines. That a file isn't the wanted one, and what happened to a file that no argument names, was printed
/// where it was found.
fn put_fault<H: Host>(
    host: &H,
    out: &mut Vec<u8>,
    fault: Fault,
    words: &[String],
) -> Result<(), AllocError> {
    match fault {
        Fault::Mistaken(mistake) => put_mistaken(out, words, mistake),
        Fault::NotText(argument) => {
            put_about(out, word_at(words, argument), b"the argument is not UTF-8")
        }
        Fault::NoInput => out.extend_from_slice(
            b"pdb_tool: standard input is closed: no addresses can be read from it\n",
        ),
        Fault::Stopped(stop, argument) => {
            let name = word_at(words, argument);
            put_stop(out, stop, name, kind_of(host, stop, name))
        }
        Fault::Image(stop, value) => put_stop(out, stop, value_in(words, value), None),
        Fault::OtherKey | Fault::Reported(_) => Ok(()),
    }
}

/// Appends the key that a file should have, and which image needs it.
#[tactic(auto, unfolding(crate::specs::Messages::needed))]
fn put_needed(out: &mut Vec<u8>, image: Option<&str>, key: &[u8]) -> Result<(), AllocError>
    ensures { OnOk result (out.new.items ≡ out.old.items ++ needed (option_copied image.entry) key.now) }
{
    match image {
        Some(image) => {
            put_named(out, b", ", image, b" needs ")?;
        }
        None => out.extend_from_slice(b", and not ")?,
    }
    out.extend_from_slice(key)
}

/// Appends that a file of this name isn't the wanted PDB, up to the key that it has.
#[tactic(auto, unfolding(crate::specs::Messages::wrong_pdb))]
fn put_wrong_pdb(out: &mut Vec<u8>, name: &str) -> Result<(), AllocError>
    ensures { OnOk result (out.new.items ≡ out.old.items ++ wrong_pdb name.now) }
{
    put_named(out, b"pdb_tool: wrong PDB: ", name, b" has the key ")
}

/// Appends that a file of this name and this key isn't the wanted PDB, and which key it should have.
#[tactic(auto, unfolding(crate::specs::Messages::other_key))]
fn put_other_key(
    out: &mut Vec<u8>,
    name: &str,
    key: &[u8],
    wanted: WantedKey<'_>,
) -> Result<(), AllocError>
    ensures { OnOk result (out.new.items ≡ out.old.items ++ other_key name.now key.now (option_copied wanted.entry.image) wanted.entry.key.now) }
{
    put_wrong_pdb(out, name)?;
    out.extend_from_slice(key)?;
    put_needed(out, wanted.image, wanted.key)?;
    out.extend_from_slice(b"\n")
}

/// Writes a message that was composed; if there was no memory for it, that. If standard error fails too, nobody
/// can be told.
fn report<E: Write>(composed: Result<(), AllocError>, text: &[u8], err: &mut E) {
    let _ = match composed {
        Ok(()) => write_out(err, text),
        Err(_) => write_out(err, b"pdb_tool: out of memory\n"),
    };
}

/// Writes what stopped a command over a file.
pub fn report_stop<H: Host, E: Write>(host: &H, stop: Stop, name: &str, err: &mut E) {
    let mut text = Vec::new(host.alloc());
    let composed = put_stop(&mut text, stop, name, kind_of(host, stop, name));
    report(composed, &text, err);
}

/// Writes that a file of this name and this key isn't the wanted PDB.
pub fn report_other_key<E: Write>(
    alloc: Global,
    name: &str,
    key: &[u8],
    wanted: WantedKey<'_>,
    err: &mut E,
) {
    let mut text = Vec::new(alloc);
    let composed = put_other_key(&mut text, name, key, wanted);
    report(composed, &text, err);
}

/// Writes that a file is compressed.
pub fn report_compressed<E: Write>(alloc: Global, name: &str, err: &mut E) {
    let mut text = Vec::new(alloc);
    let composed = put_about(&mut text, name, b"is compressed: expand it first");
    report(composed, &text, err);
}

/// Appends that the PDB of an image, which has this path and this key, isn't found.
#[tactic(auto, unfolding(crate::specs::Messages::no_pdb))]
fn put_no_pdb(out: &mut Vec<u8>, image: &str, path: &[u8], pdb_key: &[u8]) -> Result<(), AllocError>
    ensures { OnOk result (out.new.items ≡ out.old.items ++ no_pdb image.now path.now pdb_key.now) }
{
    let mut text = Vec::new(*out.allocator());
    text.extend_from_slice(b"its PDB")?;
    put_behind_blank(&mut text, file_name(path))?;
    text.extend_from_slice(b" ")?;
    text.extend_from_slice(pdb_key)?;
    text.extend_from_slice(b" is not found")?;
    put_about(out, image, &text)
}

/// Writes that the PDB of an image, which has this path and this key, isn't found.
pub fn report_no_pdb<E: Write>(alloc: Global, image: &str, path: &[u8], key: &[u8], err: &mut E) {
    let mut text = Vec::new(alloc);
    let composed = put_no_pdb(&mut text, image, path, key);
    report(composed, &text, err);
}

/// Why a file can't be written.
fn unwritten_by(why: Unopened) -> &'static str {
    match why {
        Unopened::Missing => "cannot write file: no such folder",
        Unopened::Directory => "cannot write file: it is a directory",
        Unopened::Denied => "cannot write file: permission denied",
        Unopened::NotText | Unopened::Other => "cannot write file",
    }
}

/// Writes that a file can't be written.
pub fn report_unwritten<E: Write>(alloc: Global, path: &str, why: Unopened, err: &mut E) {
    let mut text = Vec::new(alloc);
    let composed = put_about(&mut text, path, unwritten_by(why).as_bytes());
    report(composed, &text, err);
}

/// Writes that another file is where one was to be stored.
pub fn report_other_contents<E: Write>(alloc: Global, path: &str, err: &mut E) {
    let mut text = Vec::new(alloc);
    let composed = put_about(&mut text, path, b"is there already, with other contents");
    report(composed, &text, err);
}

/// Writes that a file can't be stored under its name.
pub fn report_unnamed<E: Write>(alloc: Global, name: &str, err: &mut E) {
    let mut text = Vec::new(alloc);
    let composed = put_about(&mut text, name, b"no file can be stored under its name");
    report(composed, &text, err);
}

/// Appends which stream a file lacks.
#[tactic(auto, unfolding(crate::specs::Messages::lacking))]
fn put_lacking(out: &mut Vec<u8>, asked: StreamAsked<'_>) -> Result<(), AllocError>
    ensures { OnOk result (out.new.items ≡ out.old.items ++ lacking (stream_view asked.entry)) }
{
    match asked {
        StreamAsked::Number(number) => put_decimal(out, number),
        StreamAsked::Name(name) => {
            out.extend_from_slice(b"called ")?;
            put_one_line(out, name)
        }
    }
}

/// Appends that a file lacks a stream.
fn put_lacks_stream(out: &mut Vec<u8>, name: &str, asked: StreamAsked<'_>) -> Result<(), AllocError>
    ensures { OnOk result (out.new.items ≡ out.old.items ++ lacks_stream name.now (stream_view asked.entry)) }
{
    put_named(out, b"pdb_tool: ", name, b" has no stream ")?;
    put_lacking(out, asked)?;
    Ok(())
}

/// Appends that a file lacks a stream, and where to look.
fn put_no_stream(out: &mut Vec<u8>, name: &str, asked: StreamAsked<'_>) -> Result<(), AllocError>
    ensures { OnOk result (out.new.items ≡ out.old.items ++ no_stream name.now (stream_view asked.entry)) }
{
    put_lacks_stream(out, name, asked)?;
    out.extend_from_slice(b": pdb_tool streams FILE lists them\n")
}

/// Writes why no bytes of a stream are there.
pub fn report_gap<E: Write>(
    alloc: Global,
    name: &str,
    asked: StreamAsked<'_>,
    gap: StreamGap,
    err: &mut E,
) {
    let mut text = Vec::new(alloc);
    let composed = match gap {
        StreamGap::Missing => put_no_stream(&mut text, name, asked),
        StreamGap::Refused(e) => put_opening(&mut text, name, e, None),
    };
    report(composed, &text, err);
}

/// Writes that the variable with the folders of symbols isn't UTF-8, and isn't used.
pub fn report_variable<E: Write>(err: &mut E) {
    let _ = write_out(
        err,
        b"pdb_tool: _NT_SYMBOL_PATH: is not UTF-8, and is passed over\n",
    );
}

/// Writes that what was printed of a file has an error, and where to look.
pub fn report_damage<E: Write>(alloc: Global, name: &str, err: &mut E) {
    let mut text = Vec::new(alloc);
    let composed = put_about(
        &mut text,
        name,
        b"a part of the file is damaged: see pdb_tool check",
    );
    report(composed, &text, err);
}

/// Writes that addresses are read from a terminal.
pub fn report_reading<E: Write>(err: &mut E) {
    let _ = write_out(
        err,
        b"pdb_tool: reading addresses from standard input, one a line\n",
    );
}

/// Writes a fault. If standard error fails, nobody can be told.
pub fn report_fault<H: Host, E: Write>(host: &H, fault: Fault, words: &[String], err: &mut E) {
    let mut text = Vec::new(host.alloc());
    let composed = put_fault(host, &mut text, fault, words);
    report(composed, &text, err);
}

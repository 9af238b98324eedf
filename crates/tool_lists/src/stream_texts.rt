//! The text of `streams`.

ghost use Rattle.std.specs.Prelude.{◌≡◌, ◌≢◌, ◌≤◌, ◌<◌, ◌+◌, ◌++◌, ℕ, List, Some, None, option_copied, true, codes, drop, flat_map, length, map, take, OnOk, Ok, IfOk, IfErr, IsErrOf};
ghost use Rattle.std.specs.List.{prefix_len, range_with_len};
ghost use Rattle.std.specs.Option.{option_map};
ghost use Rattle.pdb.specs.Container.{stream_of, stream_size};
ghost use Rattle.pdb.specs.Answers.{information_in};
ghost use Rattle.pdb.specs.DbiViews.{information as information_said};
ghost use Rattle.pdb_places.specs.AsIfEmpty.{if_read};
ghost use Rattle.tool_output.specs.FileNames.{names_in};
ghost use Rattle.pdb.specs.Error.{Error};
ghost use Rattle.pdb.specs.Source.{Continues, MayFail};
ghost use Rattle.tool_lists.specs.StreamOrder.{is_of, rises};
ghost use Rattle.tool_lists.specs.StreamRoles.{hash_roles, known_text, line_text, role_view, stream_number};
ghost use Rattle.tool_lists.specs.StreamTexts.{debug_roles, information_roles, line_in, line_of, read_or_none, role_line, roles_by, roles_of, size_text, stream_line, streams_command, what_list};
ghost use Rattle.tool_output.specs.Stops.{Halts, StopsComposing};
ghost use Rattle.tool_output.specs.declared.stop.Stop.{Stop};
ghost use Rattle.tool_printing.specs.Printing.{Prints, shown};

use crate::stream_objects::put_line_object;
use crate::stream_roles::{
    Known, Role, put_extra, put_fixed, put_hashes, put_header, put_modules, put_names, put_what,
    sort,
};
use pdb::{
    DBIExtraStreams, DebugInformation, Error, PDB, PDBInformation, Source, StreamIndex, StreamNames,
};
use pdb_text::{put_decimal, put_line_end};
use std::alloc::{AllocError, Global};
use tool_arguments::options::OutputFormat;
use tool_output::error_objects::put_refused_in;
use tool_output::stop::Stop;
use tool_printing::Printer;

/// The size of a stream in decimal digits, or `-` of one that is absent.
fn put_size(out: &mut Vec<u8>, size: Option<u32>) -> Result<(), AllocError>
    ensures { OnOk result (out.new.items ≡ out.old.items ++ size_text size) }
{
    match size {
        Some(size) => put_decimal(out, u64::from(size)),
        None => out.extend_from_slice(b"-"),
    }
}

/// All that a stream is, behind the first.
fn put_more(out: &mut Vec<u8>, roles: &[Role<'_>]) -> Result<(), AllocError>
    ensures { OnOk result (out.new.items ≡ out.old.items ++ flat_map (λ x. codes ", " ++ line_text x.label x.name) (map role_view roles.now)) }
{
    for role in roles {
        out.extend_from_slice(b", ")?;
        put_what(out, role.what)?;
    }
    Ok(())
}

/// All that a stream is, or `-`.
fn put_roles(out: &mut Vec<u8>, roles: &[Role<'_>]) -> Result<(), AllocError>
    ensures { OnOk result (out.new.items ≡ out.old.items ++ what_list (map role_view roles.now)) }
{
    match roles.split_first() {
        Some((first, more)) => {
            put_what(out, first.what)?;
            put_more(out, more)
        }
        None => out.extend_from_slice(b"-"),
    }
}

/// The line of a stream.
#[tactic(auto, unfolding(crate::specs::StreamTexts::line_of))]
fn put_line(
    out: &mut Vec<u8>,
    number: u32,
    size: Option<u32>,
    roles: &[Role<'_>],
) -> Result<(), AllocError>
    ensures { OnOk result (out.new.items ≡ out.old.items ++ line_of number size (map role_view roles.now)) }
{
    put_decimal(out, u64::from(number))?;
    out.push(b' ')?;
    put_size(out, size)?;
    out.push(b' ')?;
    put_roles(out, roles)?;
    put_line_end(out)
}

/// The line of a stream, in a format. Texts are composed in `room`.
fn put_line_in(
    out: &mut Vec<u8>,
    format: OutputFormat,
    room: &mut Vec<u8>,
    number: u32,
    size: Option<u32>,
    roles: &[Role<'_>],
) -> Result<(), AllocError>
    ensures { OnOk result (out.new.items ≡ out.old.items ++ line_in format number size (map role_view roles.now)) }
{
    match format {
        OutputFormat::Text => put_line(out, number, size, roles),
        OutputFormat::Json => put_line_object(out, room, number, size, roles),
    }
}

/// How many of the first roles are those of a stream.
fn count_of(roles: &[Role<'_>], number: u32) -> usize
    ensures count { result ≡ prefix_len (is_of stream_number number) roles.now }
    ensures most { result ≤ length roles.now }
{
    let mut count = 0;
    for role in roles {
        if role.stream != number {
            return count;
        }
        count += 1;
    }
    count
}

/// The line of a stream of a file.
#[tactic(auto, using(tool_output::proofs::Refused::refused_is))]
fn put_stream<'s, S: Source<'s>>(
    out: &mut Vec<u8>,
    format: OutputFormat,
    room: &mut Vec<u8>,
    pdb: &PDB<'s, S>,
    number: u32,
    roles: &[Role<'_>],
) -> Result<(), AllocError>
    ensures { pdb.now.told ≡ true → OnOk result (out.new.items ≡ out.old.items ++ line_in format number (if_read (stream_size pdb.now.file number)) (map role_view roles.now)) }
{
    match pdb.stream_size(number) {
        Ok(size) => put_line_in(out, format, room, number, Some(size), roles),
        Err(_) => put_line_in(out, format, room, number, None, roles),
    }
}

/// The first of some sorted roles that are those of a stream, from an index on.
fn here<'r, 'a>(roles: &'r [Role<'a>], at: usize, number: u32) -> &'r [Role<'a>]
    requires { at ≤ length roles.now }
    ensures here { result.now ≡ take (prefix_len (is_of stream_number number) (drop at roles.now)) (drop at roles.now) }
    ensures count { length result.now ≡ prefix_len (is_of stream_number number) (drop at roles.now) }
    ensures within { at + length result.now ≤ length roles.now }
{
    let rest = &roles[at..];
    &rest[..count_of(rest, number)]
}

/// The lines of so many streams, by roles in the order of their streams.
fn put_lines<'s, S: Source<'s>>(
    out: &mut Vec<u8>,
    format: OutputFormat,
    pdb: &PDB<'s, S>,
    roles: &[Role<'_>],
    count: u32,
) -> Result<(), AllocError>
    requires { rises stream_number 0 roles.now ≡ true }
    ensures { pdb.now.told ≡ true → OnOk result (out.new.items ≡ out.old.items ++ flat_map (role_line format pdb.now.file roles.now) (range_with_len 0 count)) }
{
    let mut room = Vec::new(*out.allocator());
    let mut at = 0;
    for number in 0..count {
        let here = here(roles, at, number);
        put_stream(out, format, &mut room, pdb, number, here)?;
        at += here.len();
    }
    Ok(())
}

/// The value of a result; none where the file has an error there. Out of memory and a failed source are passed on.
fn if_read<T: Drop>(answer: pdb::Result<T>) -> Result<Option<T>, Stop>
    ensures some { IfOk answer (λ x. result ≡ Ok (Some x)) }
    ensures none { IfErr answer (λ e. IfOk result (λ o. (o ≡ None) × (e ≢ Error.OutOfMemory) × (e ≢ Error.IoError))) }
    ensures unwritten { IfErr result (StopsComposing (IsErrOf answer Error.IoError)) }
{
    match answer {
        Ok(it) => Ok(Some(it)),
        Err(Error::OutOfMemory) => Err(Stop::Memory),
        Err(Error::IoError) => Err(Stop::Read),
        Err(_) => Ok(None),
    }
}

/// What streams are by the DBI stream.
#[tactic(auto, unfolding(crate::specs::StreamTexts::information_roles))]
fn put_information(
    roles: &mut Vec<Role<'_>>,
    information: &DebugInformation<'_>,
) -> Result<(), AllocError>
    ensures { OnOk result (map role_view roles.new.items ≡ map role_view roles.old.items ++ information_roles information.now) }
{
    put_header(roles, information.header())?;
    if let Ok(extra) = DBIExtraStreams::new(information) {
        put_extra(roles, &extra)?;
    }
    match information.modules() {
        Ok(modules) => put_modules(roles, modules),
        Err(_) => Ok(()),
    }
}

/// What streams are by the DBI stream of a file.
fn put_debug<'s, S: Source<'s>>(pdb: &mut PDB<'s, S>, roles: &mut Vec<Role<'_>>) -> Result<(), Stop>
    ensures continues { Continues pdb.old pdb.new }
    ensures roles { pdb.new.told ≡ true → OnOk result (map role_view roles.new.items ≡ map role_view roles.old.items ++ debug_roles pdb.old.file) }
    ensures unwritten { IfErr result (StopsComposing (MayFail pdb.old pdb.new)) }
{
    match if_read(pdb.debug_information())? {
        Some(information) => Ok(put_information(roles, &information)?),
        None => Ok(()),
    }
}

/// What streams are by the header of a stream of types or ids.
#[tactic(auto, unfolding(pdb::specs::Answers::raw_stream_in))]
fn put_items<'s, S: Source<'s>>(
    pdb: &mut PDB<'s, S>,
    roles: &mut Vec<Role<'_>>,
    number: u16,
    hashes: Known,
    further: Known,
) -> Result<(), Stop>
    requires { number < 5 }
    ensures continues { Continues pdb.old pdb.new }
    ensures roles { pdb.new.told ≡ true → OnOk result (map role_view roles.new.items ≡ map role_view roles.old.items ++ read_or_none (stream_of pdb.old.file number None) (hash_roles (known_text hashes) (known_text further))) }
    ensures unwritten { IfErr result (StopsComposing (MayFail pdb.old pdb.new)) }
{
    match if_read(pdb.raw_stream(StreamIndex(number)))? {
        Some(Some(stream)) => Ok(put_hashes(roles, stream.as_slice(), hashes, further)?),
        Some(None) | None => Ok(()),
    }
}

/// What all streams are, by the names of streams and the rest of a file.
#[tactic(auto, unfolding(crate::specs::StreamTexts::roles_by))]
fn put_all<'a, 's, S: Source<'s>>(
    pdb: &mut PDB<'s, S>,
    names: Option<&StreamNames<'a>>,
    roles: &mut Vec<Role<'a>>,
) -> Result<(), Stop>
    ensures continues { Continues pdb.old pdb.new }
    ensures roles { pdb.new.told ≡ true → OnOk result (map role_view roles.new.items ≡ map role_view roles.old.items ++ roles_by pdb.old.file (option_copied names.entry)) }
    ensures unwritten { IfErr result (StopsComposing (MayFail pdb.old pdb.new)) }
{
    // The large streams are read first: a short read takes the front of the next stream too, which is then copied.
    let mut hashes = Vec::new(*roles.allocator());
    put_items(
        pdb,
        &mut hashes,
        2,
        Known::TypeHashes,
        Known::FurtherTypeHashes,
    )?;
    put_items(pdb, &mut hashes, 4, Known::IdHashes, Known::FurtherIdHashes)?;
    put_fixed(roles)?;
    if let Some(names) = names {
        put_names(roles, names)?;
    }
    put_debug(pdb, roles)?;
    Ok(roles.append(&mut hashes)?)
}

/// The names of streams, if they can be read.
#[tactic(auto, using(crate::proofs::StreamNames::names_by, crate::proofs::StreamNames::names_none))]
fn names_of<'a>(
    alloc: Global,
    information: Option<&'a PDBInformation<'_>>,
) -> Result<Option<StreamNames<'a>>, Stop>
    ensures names { (file : List ℕ) → option_map information_said (option_copied information.entry) ≡ if_read (information_in file) → IfOk result (λ o. o ≡ if_read (names_in file)) }
    ensures unwritten { IfErr result (λ e. e ≡ Stop.Memory) }
{
    match information {
        Some(information) => if_read(information.stream_names(alloc)),
        None => Ok(None),
    }
}

/// The lines of all streams, by the names of streams.
#[tactic(auto, using(crate::proofs::StreamFilters::lines_sorted, crate::proofs::StreamFilters::rises_sorted_roles))]
fn put_streams<'a, 's, S: Source<'s>>(
    alloc: Global,
    pdb: &mut PDB<'s, S>,
    names: Option<&StreamNames<'a>>,
    count: u32,
    format: OutputFormat,
    out: &mut Vec<u8>,
) -> Result<(), Stop>
    ensures continues { Continues pdb.old pdb.new }
    ensures text { pdb.new.told ≡ true → OnOk result (out.new.items ≡ out.old.items ++ flat_map (stream_line format pdb.old.file (roles_by pdb.old.file (option_copied names.entry))) (range_with_len 0 count)) }
    ensures unwritten { IfErr result (StopsComposing (MayFail pdb.old pdb.new)) }
{
    let mut roles = Vec::new(alloc);
    put_all(pdb, names, &mut roles)?;
    sort(&mut roles)?;
    Ok(put_lines(out, format, pdb, &roles, count)?)
}

/// The lines of so many streams of a file.
fn put_counted<'s, S: Source<'s>>(
    alloc: Global,
    pdb: &mut PDB<'s, S>,
    count: u32,
    format: OutputFormat,
    out: &mut Vec<u8>,
) -> Result<(), Stop>
    ensures continues { Continues pdb.old pdb.new }
    ensures text { pdb.new.told ≡ true → OnOk result (out.new.items ≡ out.old.items ++ flat_map (stream_line format pdb.old.file (roles_of pdb.old.file)) (range_with_len 0 count)) }
    ensures unwritten { IfErr result (StopsComposing (MayFail pdb.old pdb.new)) }
{
    let information = if_read(pdb.pdb_information())?;
    let names = names_of(alloc, information.as_ref())?;
    put_streams(alloc, pdb, names.as_ref(), count, format, out)
}

/// The lines of all streams of a file, or the line of the error of its directory.
#[tactic(auto, unfolding(crate::specs::StreamTexts::streams_command))]
fn put_command<'s, S: Source<'s>>(
    alloc: Global,
    pdb: &mut PDB<'s, S>,
    format: OutputFormat,
    out: &mut Vec<u8>,
) -> Result<(), Stop>
    ensures continues { Continues pdb.old pdb.new }
    ensures text { pdb.new.told ≡ true → OnOk result (out.new.items ≡ out.old.items ++ streams_command format pdb.old.file) }
    ensures unwritten { IfErr result (StopsComposing (MayFail pdb.old pdb.new)) }
{
    match pdb.stream_count() {
        Ok(count) => put_counted(alloc, pdb, count, format, out),
        Err(e) => put_refused_in(out, format, e),
    }
}

/// Prints the size of each stream of a file, and what it is.
pub fn print_streams<'s, S: Source<'s>, P: Printer>(
    alloc: Global,
    pdb: &mut PDB<'s, S>,
    format: OutputFormat,
    out: &mut P,
) -> Result<(), Stop>
    ensures continues { Continues pdb.old pdb.new }
    ensures prints { pdb.new.told ≡ true → Prints (shown (streams_command format pdb.old.file)) (P.state out.old) (P.state out.new) result }
    ensures halts { Halts (MayFail pdb.old pdb.new) (P.state out.old) (P.state out.new) result }
{
    let mut text = Vec::new(alloc);
    put_command(alloc, pdb, format, &mut text)?;
    Ok(out.print(&text)?)
}

//! The text of `modules`.

ghost use Rattle.std.specs.Prelude.{◌≡◌, ◌∷◌, ◌++◌, true, IfOk, IfErr, OnOk, codes};
ghost use Rattle.json.specs.Token.{key};
ghost use Rattle.json.specs.Tree.{json_tokens, members_tokens};
ghost use Rattle.pdb.specs.Contributions.{contributions_in};
ghost use Rattle.pdb.specs.DbiViews.{modules_left, modules_steps};
ghost use Rattle.pdb.specs.Source.{Continues, MayFail};
ghost use Rattle.pdb_places.specs.AsIfEmpty.{items_of};
ghost use Rattle.tool_lists.specs.ModuleLists.{listed_in, listed_line, listed_value, size_value, module_list_text, modules_command, modules_of_stream, object_member, object_text, object_value};
ghost use Rattle.tool_lists.specs.ModuleSizes.{bytes_of_module, size_in};
ghost use Rattle.tool_output.specs.Objects.{Adds, json_line};
ghost use Rattle.tool_output.specs.Stops.{Halts, StopsComposing};
ghost use Rattle.tool_output.specs.declared.stop.Stop.{Stop};
ghost use Rattle.tool_printing.specs.Printing.{Prints, shown};

use crate::module_sizes::{size_of_module, sizes_of};
use json::Writer;
use pdb::{DebugInformation, FallibleIterator, Module, ModuleIter, PDB, Source};
use pdb_text::{put_decimal, put_field, put_line_end, put_one_line};
use std::alloc::{AllocError, Global};
use tool_arguments::options::OutputFormat;
use tool_fields::values::put_behind_blank;
use tool_output::absent::{DEBUG_INFORMATION, lacks};
use tool_output::error_objects::{put_error_in, put_refused_in};
use tool_output::objects::{
    begin_numbered, end_line, put_member, put_number, put_text, value_behind,
};
use tool_output::stop::Stop;
use tool_printing::Printer;

/// The greatest number up to which each reader of JSON has all of them exactly: 2^53.
const GREATEST_NUMBER: u64 = 0x20_0000_0000_0000;

/// How many bytes each module of a file has; none where the contributions can't be read.
#[tactic(auto, using(crate::proofs::SameSizes::same_sizes))]
fn module_sizes(alloc: Global, information: &DebugInformation<'_>) -> Result<Vec<u64>, AllocError>
    ensures { IfOk result (λ v. size_in v.items ≡ bytes_of_module (items_of (contributions_in information.now))) }
{
    match information.section_contributions() {
        Ok(contributions) => sizes_of(alloc, contributions),
        Err(_) => Ok(Vec::new(alloc)),
    }
}

/// The file from which a module came, in brackets, unless it is empty or the module's own name.
fn put_object(out: &mut Vec<u8>, listed: &Module<'_>) -> Result<(), AllocError>
    ensures { OnOk result (out.new.items ≡ out.old.items ++ object_text listed.now) }
{
    let object = listed.raw_object_file_name().as_bytes();
    let name = listed.raw_module_name().as_bytes();
    if object == b"".as_slice() || object == name {
        return Ok(());
    }
    out.extend_from_slice(b" [")?;
    put_one_line(out, object)?;
    out.extend_from_slice(b"]")
}

/// The line of module `k`.
#[tactic(auto, unfolding(crate::specs::ModuleLists::listed_line))]
fn put_listed(
    out: &mut Vec<u8>,
    sizes: &[u64],
    k: u64,
    listed: &Module<'_>,
) -> Result<(), AllocError>
    ensures { OnOk result (out.new.items ≡ out.old.items ++ listed_line (size_in sizes.now) k listed.now) }
{
    put_decimal(out, k)?;
    put_field(out, size_of_module(sizes, k))?;
    put_behind_blank(out, listed.raw_module_name().as_bytes())?;
    put_object(out, listed)?;
    put_line_end(out)
}

/// The file from which a module came, as a JSON value.
fn put_object_value(
    alloc: Global,
    writer: &mut Writer,
    listed: &Module<'_>,
) -> Result<(), AllocError>
    ensures { Adds result writer.old writer.new (json_tokens (object_value listed.now)) }
{
    let object = listed.raw_object_file_name().as_bytes();
    if object == b"".as_slice() || object == listed.raw_module_name().as_bytes() {
        return writer.null();
    }
    put_text(alloc, writer, object)
}

/// The same, as the last member of an object.
fn put_object_member(
    alloc: Global,
    writer: &mut Writer,
    listed: &Module<'_>,
) -> Result<(), AllocError>
    ensures { Adds result writer.old writer.new (members_tokens (object_member listed.now)) }
{
    writer.key("object")?;
    put_object_value(alloc, writer, listed)?;
    writer.end_object()
}

/// How many bytes a module has, as a member of an object: a number where each reader of JSON has it exactly, and else a
/// string of its digits.
#[tactic(auto, unfolding(crate::specs::ModuleLists::size_value))]
pub fn put_size(alloc: Global, writer: &mut Writer, bytes: u64) -> Result<(), AllocError>
    ensures { Adds result writer.old writer.new (key (codes "bytes") ∷ json_tokens (size_value bytes)) }
{
    if bytes <= GREATEST_NUMBER {
        return put_number(writer, "bytes", bytes);
    }
    let mut digits = Vec::new(alloc);
    put_decimal(&mut digits, bytes)?;
    put_member(alloc, writer, "bytes", &digits)
}

/// The JSON object of module `k`.
fn put_listed_value(
    alloc: Global,
    writer: &mut Writer,
    sizes: &[u64],
    k: u64,
    listed: &Module<'_>,
) -> Result<(), AllocError>
    ensures { Adds result writer.old writer.new (json_tokens (listed_value (size_in sizes.now) k listed.now)) }
{
    begin_numbered(writer, "module", k)?;
    put_size(alloc, writer, size_of_module(sizes, k))?;
    put_member(alloc, writer, "name", listed.raw_module_name().as_bytes())?;
    put_object_member(alloc, writer, listed)?;
    Ok(())
}

/// Its line, as an object.
#[tactic(auto, unfolding(tool_output::specs::Objects::json_line))]
fn put_listed_object(
    out: &mut Vec<u8>,
    sizes: &[u64],
    k: u64,
    listed: &Module<'_>,
) -> Result<(), AllocError>
    ensures { OnOk result (out.new.items ≡ out.old.items ++ json_line (listed_value (size_in sizes.now) k listed.now)) }
{
    let alloc = *out.allocator();
    let mut writer = value_behind(out);
    put_listed_value(alloc, &mut writer, sizes, k, listed)?;
    end_line(out, writer)
}

/// The line of module `k`, in a format.
fn put_listed_in(
    out: &mut Vec<u8>,
    format: OutputFormat,
    sizes: &[u64],
    k: u64,
    listed: &Module<'_>,
) -> Result<(), AllocError>
    ensures { OnOk result (out.new.items ≡ out.old.items ++ listed_in format (size_in sizes.now) k listed.now) }
{
    match format {
        OutputFormat::Text => put_listed(out, sizes, k, listed),
        OutputFormat::Json => put_listed_object(out, sizes, k, listed),
    }
}

/// The lines of the modules of a list, from its start, and then that of its fault.
fn put_list(
    out: &mut Vec<u8>,
    format: OutputFormat,
    sizes: &[u64],
    mut modules: ModuleIter<'_>,
) -> Result<(), AllocError>
    requires { modules_steps modules ≡ 0 }
    ensures { OnOk result (out.new.items ≡ out.old.items ++ module_list_text format (size_in sizes.now) 0 (modules_left modules.entry)) }
{
    let mut k = 0;
    loop {
        match modules.next() {
            Ok(Some(listed)) => put_listed_in(out, format, sizes, k, &listed)?,
            Ok(None) => return Ok(()),
            Err(e) => return put_error_in(out, format, e),
        }
        k += 1;
    }
}

/// The modules of a DBI stream.
fn put_stream(
    alloc: Global,
    out: &mut Vec<u8>,
    format: OutputFormat,
    information: &DebugInformation<'_>,
) -> Result<(), Stop>
    ensures text { OnOk result (out.new.items ≡ out.old.items ++ modules_of_stream format information.now) }
    ensures unwritten { IfErr result (λ e. e ≡ Stop.Memory) }
{
    let sizes = module_sizes(alloc, information)?;
    match information.modules() {
        Ok(modules) => Ok(put_list(out, format, &sizes, modules)?),
        Err(e) => put_refused_in(out, format, e),
    }
}

/// The modules of a file, or the line of the error of its DBI stream; nothing where it has none.
#[tactic(auto, unfolding(crate::specs::ModuleLists::modules_command))]
fn put_modules<'s, S: Source<'s>>(
    alloc: Global,
    pdb: &mut PDB<'s, S>,
    format: OutputFormat,
    out: &mut Vec<u8>,
) -> Result<(), Stop>
    ensures continues { Continues pdb.old pdb.new }
    ensures text { pdb.new.told ≡ true → OnOk result (out.new.items ≡ out.old.items ++ modules_command format pdb.old.file) }
    ensures unwritten { IfErr result (StopsComposing (MayFail pdb.old pdb.new)) }
{
    if lacks(pdb, DEBUG_INFORMATION) {
        return Ok(());
    }
    match pdb.debug_information() {
        Ok(information) => put_stream(alloc, out, format, &information),
        Err(e) => put_refused_in(out, format, e),
    }
}

/// Prints the list of the modules of a file.
pub fn print_modules<'s, S: Source<'s>, P: Printer>(
    alloc: Global,
    pdb: &mut PDB<'s, S>,
    format: OutputFormat,
    out: &mut P,
) -> Result<(), Stop>
    ensures continues { Continues pdb.old pdb.new }
    ensures prints { pdb.new.told ≡ true → Prints (shown (modules_command format pdb.old.file)) (P.state out.old) (P.state out.new) result }
    ensures halts { Halts (MayFail pdb.old pdb.new) (P.state out.old) (P.state out.new) result }
{
    let mut text = Vec::new(alloc);
    put_modules(alloc, pdb, format, &mut text)?;
    Ok(out.print(&text)?)
}

//! The lines of modules.

ghost use Rattle.std.specs.Prelude.{◌≡◌, ◌++◌, true, OnOk, codes};
ghost use Rattle.pdb.specs.Source.{Continues};
ghost use Rattle.pdb.specs.DbiViews.{modules_left, modules_steps};
ghost use Rattle.pdb_list.specs.Unfailed.{Unfailed};
ghost use Rattle.pdb_list.specs.Texts.{module_line, module_list_text, modules_text, object_line, parts_text};

use crate::text::{put_error, put_refusal, put_stream};
use pdb::{FallibleIterator, Module, ModuleIter, PDB, Source};
use pdb_text::{put_decimal, put_field, put_line_end};
use std::alloc::AllocError;

/// The number of the module's stream, and the sizes of its three parts.
#[tactic(auto, unfolding(crate::specs::Texts::parts_text))]
fn put_parts(out: &mut Vec<u8>, listed: &Module<'_>) -> Result<(), AllocError>
    ensures { OnOk result (out.new.items ≡ out.old.items ++ parts_text listed.now) }
{
    let (symbols, lines, c13_lines) = listed.sizes();
    put_stream(out, listed.stream())?;
    put_field(out, u64::from(symbols))?;
    put_field(out, u64::from(lines))?;
    put_field(out, u64::from(c13_lines))
}

/// The line of the module with this index in the list.
#[tactic(auto, unfolding(crate::specs::Texts::module_line))]
fn put_module(out: &mut Vec<u8>, k: u64, listed: &Module<'_>) -> Result<(), AllocError>
    ensures { OnOk result (out.new.items ≡ out.old.items ++ module_line k listed.now) }
{
    out.extend_from_slice(b"module ")?;
    put_decimal(out, k)?;
    out.push(b' ')?;
    put_parts(out, listed)?;
    out.push(b' ')?;
    out.extend_from_slice(listed.raw_module_name().as_bytes())?;
    put_line_end(out)
}

/// The line of the file from which the linker took the module.
#[tactic(auto, unfolding(crate::specs::Texts::object_line))]
fn put_object(out: &mut Vec<u8>, listed: &Module<'_>) -> Result<(), AllocError>
    ensures { OnOk result (out.new.items ≡ out.old.items ++ object_line listed.now) }
{
    out.extend_from_slice(b"object ")?;
    out.extend_from_slice(listed.raw_object_file_name().as_bytes())?;
    put_line_end(out)
}

/// The lines of the modules of a list, from its start, and then that of its fault.
fn put_list(out: &mut Vec<u8>, mut modules: ModuleIter<'_>) -> Result<(), AllocError>
    requires { modules_steps modules ≡ 0 }
    ensures { OnOk result (out.new.items ≡ out.old.items ++ module_list_text 0 (modules_left modules.entry)) }
{
    let mut k = 0;
    loop {
        match modules.next() {
            Ok(Some(listed)) => {
                put_module(out, k, &listed)?;
                put_object(out, &listed)?;
            }
            Ok(None) => return Ok(()),
            Err(e) => return put_error(out, e.number()),
        }
        k += 1;
    }
}

/// The lines of the modules, or of their error.
#[tactic(auto, unfolding(crate::specs::Texts::modules_text))]
pub fn put_modules<'s, S: Source<'s>>(
    out: &mut Vec<u8>,
    pdb: &mut PDB<'s, S>,
) -> Result<(), AllocError>
    ensures continues { Continues pdb.old pdb.new }
    ensures text { pdb.new.told ≡ true → Unfailed pdb.old pdb.new → OnOk result (out.new.items ≡ out.old.items ++ modules_text pdb.old.file) }
{
    let stream = match pdb.debug_information() {
        Ok(stream) => stream,
        Err(e) => return put_refusal(out, e),
    };
    match stream.modules() {
        Ok(modules) => put_list(out, modules),
        Err(e) => put_refusal(out, e),
    }
}

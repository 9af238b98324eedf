//! What a module imports from other modules.

ghost use Rattle.std.specs.Prelude.{◌≡◌, ◌≢◌, ◌≤◌, ◌<◌, ℕ, List, length, map, Some, Ok, Err, IfErr};
ghost use Rattle.pdb.specs.Error.TheVariants.{OutOfMemory};
ghost use Rattle.pdb.specs.Refusal.{Gives};
ghost use Rattle.pdb_modules.specs.ImportViews.{module_of};
ghost use Rattle.pdb.specs.ModuleStream.{imports_of, part_of_kind};
ghost use Rattle.pdb_c.specs.Rooms.{over};
ghost use Rattle.pdb_c.specs.Lists.{IsListed, whole_list};
ghost use Rattle.pdb_c.specs.LineRows.{module_bytes};
ghost use Rattle.pdb_c.specs.CrossRows.{import_row, ImportsTold, ImportsPut, ImportsExact};

use crate::answers::{LARGE, code_of, list_code};
use crate::parts::lines_data;
use crate::rooms::put_row;
use pdb::{CrossModuleImports, Result};
use pdb_modules::{IMPORTS, Imported, first_of_kind};
use std::alloc::Global;

/// What is imported from one module. The numbers are bytes of the module's stream.
#[repr(C)]
#[derive(Clone, Copy)]
pub struct PdbImport<'a> {
    /// The numbers, each local to that module: four bytes each, the lowest first.
    pub numbers: &'a [u8],
    /// The offset of that module's name in the string table.
    pub name: u32,
}

fn shown<'a>(imported: &Imported<'a>) -> PdbImport<'a>
    ensures { import_row result ≡ module_of imported.now }
{
    PdbImport {
        numbers: imported.numbers(),
        name: imported.name().0.0,
    }
}

/// Puts modules from which something is imported.
fn put_modules<'a>(modules: &[Imported<'a>], records: &mut [PdbImport<'a>])
    ensures { map import_row records.new ≡ over (map module_of modules.now) (map import_row records.old) }
{
    for (place, imported) in modules.iter().enumerate() {
        put_row(records, place, shown(imported));
    }
}

/// Puts imports, and counts them.
#[tactic(auto, using(crate::proofs::ListSteps::listed_whole))]
fn fill<'a>(
    imports: &CrossModuleImports<'a>,
    records: &mut [PdbImport<'a>],
    count: &mut usize,
) -> u32
    ensures { IsListed import_row (λ x. x) result records.old records.new count.new (whole_list imports.now) }
{
    let modules = imports.modules();
    put_modules(modules, records);
    *count = modules.len();
    list_code(records.len(), modules.len(), None)
}

/// The imports of a module's stream of these bytes and sizes.
#[tactic(auto, unfolding(pdb_modules::specs::ModuleStream::imports_of, pdb_modules::specs::ModuleStream::part_of_kind))]
fn imports<'a>(
    alloc: Global,
    stream: &'a [u8],
    symbols_size: u32,
    lines_size: u32,
    c13_lines_size: u32,
) -> Result<CrossModuleImports<'a>>
    ensures imports { Gives (λ x. x) ⊥ result (imports_of (module_bytes stream.entry.now symbols_size lines_size c13_lines_size)) }
    ensures lean { ((part : List ℕ) → part_of_kind 0xf7 (module_bytes stream.entry.now symbols_size lines_size c13_lines_size) ≡ Ok (Some part) → ⊥) → IfErr result (λ e. e ≢ OutOfMemory) }
{
    if lines_size > 0 {
        return Ok(CrossModuleImports::empty(alloc));
    }
    let lines_data = lines_data(stream, symbols_size, c13_lines_size)?;
    match first_of_kind(lines_data, IMPORTS)? {
        Some(part) => CrossModuleImports::parse(alloc, part),
        None => Ok(CrossModuleImports::empty(alloc)),
    }
}

/// What a module imports, by its stream of these bytes and sizes: as many modules as there is capacity for, and how
/// many there are.
#[tactic(auto, using(crate::proofs::Codes::obtained, crate::proofs::Codes::refused, crate::proofs::Codes::owed, crate::proofs::Codes::not_memory))]
#[unsafe(no_mangle)]
pub extern "C" fn pdb_imports<'a>(
    alloc: Global,
    stream: &'a [u8],
    symbols_size: u32,
    lines_size: u32,
    c13_lines_size: u32,
    records: &mut [PdbImport<'a>],
    count: &mut usize,
) -> u32
    ensures large { 4294967295 ≤ length stream.now → (result ≡ 32) × (records.new ≡ records.old) × (count.new ≡ 0) }
    ensures listed { length stream.now < 4294967295 → ImportsTold result records.old records.new count.new (module_bytes stream.now symbols_size lines_size c13_lines_size) }
    // It takes no memory where there is no such part.
    ensures lean { length stream.now < 4294967295 → ((part : List ℕ) → part_of_kind 0xf7 (module_bytes stream.now symbols_size lines_size c13_lines_size) ≡ Ok (Some part) → ⊥) → ImportsExact result records.old records.new count.new (module_bytes stream.now symbols_size lines_size c13_lines_size) }
{
    *count = 0;
    if stream.len() >= 4294967295 {
        return LARGE;
    }
    match imports(alloc, stream, symbols_size, lines_size, c13_lines_size) {
        Ok(imports) => fill(&imports, records, count),
        Err(e) => code_of(e),
    }
}

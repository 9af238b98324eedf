//! What a module exports to other modules.

ghost use Rattle.std.specs.Prelude.{◌≡◌, ◌≤◌, ◌<◌, ℕ, List, length, Some, Ok, Err};
ghost use Rattle.pdb.specs.ModuleViews.{exports_left};
ghost use Rattle.pdb.specs.ModuleStream.{exports_of, part_of_kind};
ghost use Rattle.pdb_c.specs.Lists.{IsListed};
ghost use Rattle.pdb_c.specs.LineRows.{module_bytes};
ghost use Rattle.pdb_c.specs.CrossRows.{export_row, ExportsTold, ExportsPut, ExportsExact};

use crate::answers::{LARGE, code_of, list_code};
use crate::rooms::put_row;
use pdb::{CrossModuleExport, CrossModuleExportIter, FallibleIterator, ModuleInfo, Stream};
use std::alloc::Global;

/// An export: the top bit of the local number is set for an id, and not for a type.
#[repr(C)]
#[derive(Clone, Copy)]
pub struct PdbExport {
    /// The number that is local to the module.
    pub local: u32,
    /// The number that the whole file knows.
    pub global: u32,
}

fn shown(export: CrossModuleExport) -> PdbExport
    ensures { result ≡ export_row export }
{
    PdbExport {
        local: export.local_number(),
        global: export.global_number(),
    }
}

/// Puts the exports that are left, and counts them.
fn fill(mut exports: CrossModuleExportIter<'_>, records: &mut [PdbExport], count: &mut usize) -> u32
    ensures { IsListed (λ r. r) export_row result records.old records.new count.new (exports_left exports.entry) }
{
    let mut n = 0usize;
    loop {
        match exports.next() {
            Ok(Some(export)) => {
                put_row(records, n, shown(export));
                n += 1;
            }
            Ok(None) => {
                *count = n;
                return list_code(records.len(), n, None);
            }
            Err(e) => {
                *count = n;
                return list_code(records.len(), n, Some(e));
            }
        }
    }
}

/// Puts the exports of a module.
#[tactic(auto, using(crate::proofs::Codes::obtained, crate::proofs::Codes::refused, crate::proofs::Codes::owed, crate::proofs::Codes::not_memory))]
fn exports_of(
    alloc: Global,
    module_info: &ModuleInfo<'_>,
    records: &mut [PdbExport],
    count: &mut usize,
) -> u32
    requires { count.old ≡ 0 }
    ensures listed { ExportsTold result records.old records.new count.new module_info.now }
    ensures lean { ((part : List ℕ) → part_of_kind 0xf8 module_info.now ≡ Ok (Some part) → ⊥) → ExportsExact result records.old records.new count.new module_info.now }
{
    match module_info.exports(alloc) {
        Ok(exports) => fill(exports.exports(), records, count),
        Err(e) => code_of(e),
    }
}

/// What a module exports, by its stream of these bytes and sizes: as many exports as there is capacity for, and how
/// many there are.
#[unsafe(no_mangle)]
pub extern "C" fn pdb_exports(
    alloc: Global,
    stream: &[u8],
    symbols_size: u32,
    lines_size: u32,
    c13_lines_size: u32,
    records: &mut [PdbExport],
    count: &mut usize,
) -> u32
    ensures large { 4294967295 ≤ length stream.now → (result ≡ 32) × (records.new ≡ records.old) × (count.new ≡ 0) }
    ensures listed { length stream.now < 4294967295 → ExportsTold result records.old records.new count.new (module_bytes stream.now symbols_size lines_size c13_lines_size) }
    // It takes no memory where there is no such part.
    ensures lean { length stream.now < 4294967295 → ((part : List ℕ) → part_of_kind 0xf8 (module_bytes stream.now symbols_size lines_size c13_lines_size) ≡ Ok (Some part) → ⊥) → ExportsExact result records.old records.new count.new (module_bytes stream.now symbols_size lines_size c13_lines_size) }
{
    *count = 0;
    let Some(bytes) = Stream::new(stream) else {
        return LARGE;
    };
    let info = ModuleInfo::with_sizes(bytes, symbols_size, lines_size, c13_lines_size);
    exports_of(alloc, &info, records, count)
}

//! The modules of a DBI stream.

ghost use Rattle.std.specs.Prelude.{◌≡◌, ◌≤◌, ◌<◌, length, Ok, IfOk};
ghost use Rattle.pdb.specs.Modules.{ModuleEntry, modules_in};
ghost use Rattle.pdb.specs.DbiViews.{modules_left};
ghost use Rattle.pdb_c.specs.Lists.{IsListed, Listed};
ghost use Rattle.pdb_c.specs.Numbers.{entry_of};

use crate::answers::{LARGE, code_of, list_code};
use crate::rooms::put_row;
use pdb::{FallibleIterator, Module, ModuleIter, modules_of_bytes};

/// A module. Its names are bytes of the DBI stream.
#[repr(C)]
#[derive(Clone, Copy)]
pub struct PdbModule<'a> {
    /// The module's name.
    pub name: &'a [u8],
    /// The name of the file from which the linker took it.
    pub object: &'a [u8],
    /// Its stream; 0xffff is none.
    pub stream: u32,
    /// The size of that stream's symbols.
    pub symbols_size: u32,
    /// The size of its lines of the older form.
    pub lines_size: u32,
    /// The size of its lines of the newer form.
    pub c13_lines_size: u32,
}

fn shown<'a>(listed: &Module<'a>) -> PdbModule<'a>
    ensures { entry_of result ≡ listed.now }
{
    let (symbols_size, lines_size, c13_lines_size) = listed.sizes();
    PdbModule {
        name: listed.raw_module_name().as_bytes(),
        object: listed.raw_object_file_name().as_bytes(),
        stream: u32::from(listed.stream().0),
        symbols_size,
        lines_size,
        c13_lines_size,
    }
}

/// Puts the modules that are left, and counts them.
fn fill<'a>(mut modules: ModuleIter<'a>, records: &mut [PdbModule<'a>], count: &mut usize) -> u32
    ensures { IsListed entry_of (λ m. m) result records.old records.new count.new (modules_left modules.entry) }
{
    let mut n = 0usize;
    loop {
        match modules.next() {
            Ok(Some(module)) => {
                put_row(records, n, shown(&module));
                n += 1;
            }
            Ok(None) => {
                *count = n;
                return list_code(records.len(), n, None);
            }
            Err(e) => {
                *count = n;
                return list_code(records.len(), n, Some(e));
            }
        }
    }
}

/// The modules that a DBI stream of these bytes lists: as many as there is capacity for, and how many there are.
#[unsafe(no_mangle)]
pub extern "C" fn pdb_modules<'a>(
    dbi: &'a [u8],
    records: &mut [PdbModule<'a>],
    count: &mut usize,
) -> u32
    ensures large { 4294967295 ≤ length dbi.now → (result ≡ 32) × (records.new ≡ records.old) × (count.new ≡ 0) }
    ensures listed { length dbi.now < 4294967295 → Listed entry_of (λ m. m) result records.old records.new count.new (modules_in dbi.now) }
{
    *count = 0;
    if dbi.len() >= 4294967295 {
        return LARGE;
    }
    match modules_of_bytes(dbi) {
        Ok(modules) => fill(modules, records, count),
        Err(e) => code_of(e),
    }
}

//! What a module imports from other modules.

ghost use Rattle.std.specs.Prelude.{◌≡◌, ◌≢◌, ◌≤◌, ◌*◌, ◌++◌, [], ◌∷◌, map, length, IfOk, IfErr};
ghost use Rattle.pdb_base.specs.Cursor.{Reads};
ghost use Rattle.pdb_base.specs.Refusal.{Answers, Gives};
ghost use Rattle.pdb_modules.specs.CrossModule.{imported_at, imported_length, imports_in, reference_of};
ghost use Rattle.pdb_modules.specs.ImportViews.{module_of};

use crate::room::room;
use pdb_base::little_endian::u32_at;
use pdb_base::{Error, ItemIndex, Local, ParseBuffer, Result, StringRef};
use std::alloc::Global;
use std::fmt;
use std::marker::Model;

/// A module by its name, which is given by its offset in the string table.
#[derive(Clone, Copy, Debug, Eq, PartialEq, Ord, PartialOrd, Hash)]
pub struct ModuleRef(pub StringRef);

/// Shows the offset of the name, as `StringRef` does.
impl fmt::Display for ModuleRef {
    ghost use Rattle.std.specs.Prelude.{Some};
    ghost use Rattle.pdb_base.specs.Index.{hex_of};

    ghost output = { λ m. Some (hex_of m.0.0) };

    fn fmt<W: fmt::Write>(&self, f: &mut fmt::Formatter<W>) -> fmt::Result {
        let name = self.0;
        write!(f, "{name}")
    }
}

/// A reference to a record of another module: that module, and the index that is local to it.
#[derive(Clone, Copy, Debug, Eq, PartialEq, Hash)]
pub struct CrossModuleRef<I: ItemIndex>(pub ModuleRef, pub Local<I>);

/// What is imported from one module.
#[derive(Clone, Copy)]
pub struct Imported<'a> {
    pub(crate) name: u32,
    // The numbers that are local to that module, four bytes each.
    pub(crate) numbers: &'a [u8],
}

/// The module at the buffer's offset.
#[tactic(auto, unfolding(crate::specs::CrossModule::imported_at))]
fn read_imported<'a>(buffer: &mut ParseBuffer<'a>) -> Result<Imported<'a>>
    ensures { Reads module_of buffer.old buffer.new result (imported_at buffer.old.bytes buffer.old.place) (imported_length buffer.old.place) }
{
    let name = buffer.parse_u32()?;
    let count = buffer.parse_u32()?;
    let numbers = buffer.take(4 * count as usize)?;
    Ok(Imported { name, numbers })
}

/// One more module.
fn push_imported<'a>(modules: &mut Vec<Imported<'a>>, imported: Imported<'a>) -> Result<()>
    ensures pushed { IfOk result (λ _. map module_of modules.new.items ≡ map module_of modules.old.items ++ module_of imported.entry ∷ []) }
    ensures refused { IfErr result (λ e. e ≡ Error.OutOfMemory) }
{
    modules.push(imported)?;
    Ok(())
}

/// How many modules a part has, up to its end or its fault. Each has eight bytes at least.
fn count_modules(part: &[u8]) -> usize
    ensures { 8 * result ≤ length part.now }
{
    let mut count = 0;
    let mut buffer = ParseBuffer::from(part);
    while !buffer.is_empty() {
        match read_imported(&mut buffer) {
            Ok(_imported) => count += 1,
            Err(_error) => return count,
        }
    }
    count
}

/// The modules of a part.
fn read_modules<'a>(alloc: Global, part: &'a [u8]) -> Result<Vec<Imported<'a>>>
    ensures modules { Gives (λ modules. map module_of modules.items) ⊥ result (imports_in part.entry.now) }
    // An empty part takes no memory.
    ensures lean { length part.entry.now ≡ 0 → IfErr result (λ e. e ≢ Error.OutOfMemory) }
{
    let mut modules = room(alloc, count_modules(part), part)?;
    let mut buffer = ParseBuffer::from(part);
    while !buffer.is_empty() {
        match read_imported(&mut buffer) {
            Ok(imported) => push_imported(&mut modules, imported)?,
            Err(error) => return Err(error),
        }
    }
    Ok(modules)
}

/// What a module imports from other modules: `cvinfo.h`'s `CrossScopeReferences`. A contract sees it as the list of
/// the modules, each by its name's offset and the bytes of its numbers.
#[derive(Drop)]
pub struct CrossModuleImports<'a> {
    modules: Vec<Imported<'a>>,
}

impl<'a> Model for CrossModuleImports<'a> {
    ghost use Rattle.std.specs.Prelude.{List, map};
    ghost use Rattle.pdb_modules.specs.CrossModule.{ImportedModule};
    ghost use Rattle.pdb_modules.specs.ImportViews.{module_of};

    ghost Value = { List ImportedModule };

    ghost view = { λ x. map module_of x.modules.items };
}

impl<'a> Imported<'a> {
    /// The module, by its name.
    pub fn name(&self) -> ModuleRef
        ensures { result.0.0 ≡ (module_of self.now).name }
    {
        ModuleRef(StringRef(self.name))
    }

    /// The numbers that are imported: each is local to that module, and has four bytes, the lowest first.
    pub fn numbers(&self) -> &'a [u8]
        ensures { result.now ≡ (module_of self.now).bytes }
    {
        self.numbers
    }
}

impl<'a> CrossModuleImports<'a> {
    /// The imports of a part: its modules, or the fault that stands among them.
    pub fn parse(alloc: Global, part: &'a [u8]) -> Result<Self>
        ensures imports { Gives (λ x. x) ⊥ result (imports_in part.entry.now) }
        // An empty part takes no memory.
        ensures lean { part.entry.now ≡ [] → IfErr result (λ e. e ≢ Error.OutOfMemory) }
    {
        match read_modules(alloc, part) {
            Ok(modules) => Ok(CrossModuleImports { modules }),
            Err(error) => Err(error),
        }
    }

    /// The modules from which something is imported, in the file's order.
    pub fn modules(&self) -> &[Imported<'a>]
        ensures { map module_of result.now ≡ self.now }
    {
        self.modules.as_slice()
    }

    /// No imports. It takes no memory.
    pub fn empty(alloc: Global) -> Self
        ensures { result ≡ [] }
    {
        CrossModuleImports {
            modules: Vec::new(alloc),
        }
    }

    /// The record of another module to which an index refers: bits 20 to 30 are the index of that module among the
    /// imports, and bits 0 to 19 that of the number. An index without the top bit is `NotACrossModuleRef`; where the
    /// module or the number isn't there it is `CrossModuleRefNotFound`.
    #[tactic(auto, unfolding(crate::specs::CrossModule::reference_of))]
    pub fn resolve_import<I: ItemIndex>(&self, index: I) -> Result<CrossModuleRef<I>>
        ensures { Answers (λ r. record { name = r.0.0.0; local = I.index_number r.1.0 }) result (reference_of (I.index_number index) self.now) }
    {
        let number = index.number();
        if number < 0x8000_0000 {
            return Err(Error::NotACrossModuleRef(number));
        }
        let place = (number / 0x10_0000 % 0x800) as usize;
        if place >= self.modules.len() {
            return Err(Error::CrossModuleRefNotFound(number));
        }
        let module = self.modules[place];
        let at = (number % 0x10_0000) as usize;
        if at >= module.numbers.len() / 4 {
            return Err(Error::CrossModuleRefNotFound(number));
        }
        let local = I::from_number(u32_at(module.numbers, 4 * at));
        Ok(CrossModuleRef(ModuleRef(StringRef(module.name)), Local(local)))
    }

    /// The same imports once more. It fails with out of memory alone.
    pub fn try_clone(&self, alloc: Global) -> Result<Self>
        ensures same { IfOk result (λ x. x ≡ self.now) }
        ensures refused { IfErr result (λ e. e ≡ Error.OutOfMemory) }
    {
        let Ok(mut modules) = Vec::with_capacity(alloc, self.modules.len()) else {
            return Err(Error::OutOfMemory);
        };
        if modules.extend_from_slice(self.modules.as_slice()).is_err() {
            return Err(Error::OutOfMemory);
        }
        Ok(CrossModuleImports { modules })
    }
}

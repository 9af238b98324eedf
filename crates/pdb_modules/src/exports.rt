//! What a module exports to other modules.

ghost use Rattle.std.specs.Prelude.{◌≡◌, ◌≢◌, ◌%◌, ◌+◌, ◌++◌, [], ◌∷◌, ◌/◌, ◌≤◌, ◌<◌, ◌^◌, ℕ, map, length, Ok, None, IfOk, IfErr, IsOk, OnOk, IsTrue, ◌↔◌, option_map, ⊤};
ghost use Rattle.std.specs.List.{range_with_len};
ghost use Rattle.pdb_base.specs.Refusal.{Gives};
ghost use Rattle.pdb_modules.specs.CrossModule.{export_in, exports_in, global_of, Increases};
ghost use Rattle.pdb_modules.specs.ExportViews.{export_of, local_of, global_number_of, is_id};

use crate::room::room;
use pdb_base::little_endian::u32_at;
use pdb_base::{
    Error, FallibleIterator, IdIndex, ItemIndex, Local, Part, Result, Steps, TypeIndex,
};
use std::alloc::{AllocError, Global};
use std::cmp::Ordering;
use std::marker::Model;

/// An export of a module: an index that is local to it, and the one by which the whole file knows the same record.
/// `cvinfo.h` calls the two a `LocalIdAndGlobalIdPair`.
#[derive(Clone, Copy, Debug, Eq, PartialEq)]
pub enum CrossModuleExport {
    /// A type.
    Type(Local<TypeIndex>, TypeIndex),
    /// An id: its local number has the top bit.
    Id(Local<IdIndex>, IdIndex),
}

impl CrossModuleExport {
    /// Whether it is an id.
    pub fn is_id(self) -> bool
        ensures { result ≡ is_id self }
    {
        matches!(self, CrossModuleExport::Id(..))
    }

    /// The number that is local to the module.
    pub fn local_number(self) -> u32
        ensures { result ≡ local_of self }
    {
        match self {
            CrossModuleExport::Type(local, _) => local.0.0,
            CrossModuleExport::Id(local, _) => local.0.0,
        }
    }

    /// The number that the whole file knows.
    pub fn global_number(self) -> u32
        ensures { result ≡ global_number_of self }
    {
        match self {
            CrossModuleExport::Type(_, global) => global.0,
            CrossModuleExport::Id(_, global) => global.0,
        }
    }
}

/// The export of a local number and a global one.
fn export(local: u32, global: u32) -> CrossModuleExport
    ensures { result ≡ export_of (local, global) }
{
    if local >= 0x8000_0000 {
        CrossModuleExport::Id(Local(IdIndex(local)), IdIndex(global))
    } else {
        CrossModuleExport::Type(Local(TypeIndex(local)), TypeIndex(global))
    }
}

/// Whether each local number is above those before it.
fn increases(exports: &[(u32, u32)]) -> bool
    ensures { IsTrue result ↔ Increases exports.now }
{
    for i in 1..exports.len() {
        if exports[i].0 <= exports[i - 1].0 {
            return false;
        }
    }
    true
}

/// The global number of a local one among exports whose local numbers increase: it is searched by halving, and each
/// comparison takes a step.
fn halve(exports: &[(u32, u32)], local: u32, steps: &mut Steps) -> Option<u32>
    requires { Increases exports.now }
    ensures found { result ≡ global_of local exports.now }
    ensures probes { (digits : ℕ) → length exports.now < 2 ^ digits → steps.new.count ≤ steps.old.count + digits }
    ensures grows { steps.old.count ≤ steps.new.count }
    ensures asks { 0 < length exports.now → steps.old.count < steps.new.count }
{
    let mut low = 0;
    let mut high = exports.len();
    while low < high {
        let middle = low + (high - low) / 2;
        steps.tick();
        let (other, global) = exports[middle];
        match other.cmp(&local) {
            Ordering::Equal => return Some(global),
            Ordering::Less => low = middle + 1,
            Ordering::Greater => high = middle,
        }
    }
    None
}

/// The global number of the first export of a local one: they are looked at one by one, and each comparison takes a
/// step.
fn look_through(exports: &[(u32, u32)], local: u32, steps: &mut Steps) -> Option<u32>
    ensures found { result ≡ global_of local exports.now }
    ensures probes { steps.new.count ≤ steps.old.count + length exports.now }
    ensures grows { steps.old.count ≤ steps.new.count }
    ensures asks { 0 < length exports.now → steps.old.count < steps.new.count }
    ensures all { result ≡ None → steps.new.count ≡ steps.old.count + length exports.now }
{
    for (other, global) in exports {
        steps.tick();
        if *other == local {
            return Some(*global);
        }
    }
    None
}

/// One more pair.
fn push_pair(pairs: &mut Vec<(u32, u32)>, local: u32, global: u32) -> Result<()>
    ensures pushed { IfOk result (λ _. pairs.new.items ≡ pairs.old.items ++ (local, global) ∷ []) }
    ensures refused { IfErr result (λ e. e ≡ Error.OutOfMemory) }
{
    pairs.push((local, global))?;
    Ok(())
}

/// The pairs of a part whose size is a multiple of eight.
fn read_pairs(alloc: Global, part: &[u8]) -> Result<Vec<(u32, u32)>>
    ensures pairs { IfOk result (λ pairs. pairs.items ≡ map (export_in part.now) (range_with_len 0 (length part.now / 8))) }
    ensures lean { length part.now ≡ 0 → IfErr result (λ e. e ≢ Error.OutOfMemory) }
    ensures refused { IfErr result (λ e. e ≡ Error.OutOfMemory) }
{
    let count = part.len() / 8;
    let mut pairs = room(alloc, count, part)?;
    for i in 0..count {
        push_pair(&mut pairs, u32_at(part, 8 * i), u32_at(part, 8 * i + 4))?;
    }
    Ok(pairs)
}

/// What a module exports to other modules: local numbers with the ones that the whole file knows, in the file's
/// order. A contract sees it as the list of the pairs.
#[derive(Drop)]
pub struct CrossModuleExports {
    exports: Vec<(u32, u32)>,
    // Whether each local number is above those before it.
    increases: bool,
}

impl Model for CrossModuleExports {
    ghost use Rattle.std.specs.Prelude.{ℕ, List, IsTrue, ◌↔◌};
    ghost use Rattle.pdb_modules.specs.CrossModule.{Increases};

    ghost Value = { List (ℕ × ℕ) };

    ghost view = { λ x. x.exports.items };

    ghost invariant = { λ x. IsTrue x.increases ↔ Increases x.exports.items };
}

impl CrossModuleExports {
    ghost use Rattle.std.specs.Prelude.{List};
    ghost use Rattle.pdb_modules.specs.ModuleViews.{exports_left, exports_listed, exports_steps};

    // The exports of a part.
    #[tactic(auto, unfolding(crate::specs::CrossModule::exports_in))]
    pub(crate) fn parse(alloc: Global, part: &[u8]) -> Result<Self>
        ensures exports { Gives (λ x. x) ⊥ result (exports_in part.now) }
        // An empty part takes no memory, nor does one of a wrong size.
        ensures lean { part.now ≡ [] → IfErr result (λ e. e ≢ Error.OutOfMemory) }
        ensures wrong_size { length part.now % 8 ≢ 0 → IfErr result (λ e. e ≢ Error.OutOfMemory) }
    {
        if part.len() % 8 != 0 {
            return Err(Error::InvalidStreamLength(Part::CrossScopeExports));
        }
        Ok(CrossModuleExports::of(read_pairs(alloc, part)?))
    }

    // The exports of these pairs.
    fn of(exports: Vec<(u32, u32)>) -> Self
        ensures { result ≡ exports.items }
    {
        let increases = increases(exports.as_slice());
        CrossModuleExports { exports, increases }
    }

    /// No exports. It takes no memory.
    pub fn empty(alloc: Global) -> Self
        ensures { result ≡ [] }
    {
        CrossModuleExports::of(Vec::new(alloc))
    }

    /// How many exports there are.
    pub fn len(&self) -> usize
        ensures { result ≡ length self.now }
    {
        self.exports.len()
    }

    /// Whether there are none.
    pub fn is_empty(&self) -> bool
        ensures { IsTrue result ↔ (length self.now ≡ 0) }
    {
        self.exports.is_empty()
    }

    /// The exports, in the file's order.
    pub fn exports(&self) -> CrossModuleExportIter<'_>
        ensures left { exports_left result ≡ record { items = map export_of self.now; fault = None } }
        ensures listed { exports_listed result ≡ self.now }
        ensures steps { exports_steps result ≡ 0 }
    {
        CrossModuleExportIter::new(self.exports.as_slice())
    }

    /// The exports as pairs of a local number and the one that the whole file knows, in the file's order.
    pub fn pairs(&self) -> &[(u32, u32)]
        ensures { result.now ≡ self.now }
    {
        self.exports.as_slice()
    }

    /// Whether each local number is above those before it.
    pub fn increases(&self) -> bool
        ensures { IsTrue result ↔ Increases self.now }
    {
        self.increases
    }

    /// The index that the whole file knows, of the first export of a local one; none where it isn't exported.
    pub fn resolve_import<I: ItemIndex>(&self, local: Local<I>) -> Result<Option<I>>
        ensures found { IfOk result (λ global. option_map I.index_number global ≡ global_of (I.index_number local.0) self.now) }
        ensures ok { IsOk result }
    {
        self.resolve_import_counted(local, &mut Steps::new())
    }

    /// The same as `resolve_import`, with a step for each comparison with an export. Where each local number is above
    /// those before it there are at most as many as the number of exports has binary digits, and else at most as
    /// many as there are exports.
    pub fn resolve_import_counted<I: ItemIndex>(
        &self,
        local: Local<I>,
        steps: &mut Steps,
    ) -> Result<Option<I>>
        ensures found { IfOk result (λ global. option_map I.index_number global ≡ global_of (I.index_number local.0) self.now) }
        ensures ok { IsOk result }
        ensures halved { Increases self.now → (digits : ℕ) → length self.now < 2 ^ digits → steps.new.count ≤ steps.old.count + digits }
        ensures one_by_one { (Increases self.now → ⊥) → steps.new.count ≤ steps.old.count + length self.now }
        ensures grows { steps.old.count ≤ steps.new.count }
        ensures asks { 0 < length self.now → steps.old.count < steps.new.count }
    {
        let number = local.0.number();
        let exports = self.exports.as_slice();
        let global = if self.increases {
            halve(exports, number, steps)
        } else {
            look_through(exports, number, steps)
        };
        Ok(match global {
            Some(number) => Some(I::from_number(number)),
            None => None,
        })
    }

    /// The same exports once more. It fails with out of memory alone.
    pub fn try_clone(&self, alloc: Global) -> Result<Self>
        ensures same { IfOk result (λ x. x ≡ self.now) }
        ensures refused { IfErr result (λ e. e ≡ Error.OutOfMemory) }
    {
        let Ok(mut exports) = Vec::with_capacity(alloc, self.exports.len()) else {
            return Err(Error::OutOfMemory);
        };
        if exports.extend_from_slice(self.exports.as_slice()).is_err() {
            return Err(Error::OutOfMemory);
        }
        Ok(CrossModuleExports {
            exports,
            increases: self.increases,
        })
    }
}

/// The exports of a module, in the file's order. It has no fault.
#[derive(Drop)]
pub struct CrossModuleExportIter<'a> {
    // Those that are left.
    exports: &'a [(u32, u32)],
    // All of them.
    listed: &'a [(u32, u32)],
    steps: Steps,
    ghost counted: { steps.count + length exports.now ≤ length listed.now },
}

impl<'a> CrossModuleExportIter<'a> {
    ghost use Rattle.pdb_modules.specs.ModuleViews.{exports_left, exports_listed, exports_steps};

    // These exports.
    fn new(exports: &'a [(u32, u32)]) -> Self
        ensures left { exports_left result ≡ record { items = map export_of exports.entry.now; fault = None } }
        ensures listed { exports_listed result ≡ exports.entry.now }
        ensures steps { exports_steps result ≡ 0 }
    {
        CrossModuleExportIter {
            exports,
            listed: exports,
            steps: Steps::new(),
        }
    }
}

impl<'a> FallibleIterator for CrossModuleExportIter<'a> {
    ghost use Rattle.std.specs.Prelude.{◌≢◌, IfSome, IfNone};
    ghost use Rattle.pdb_base.specs.Left.{Yields};
    ghost use Rattle.pdb_base.specs.declared.error.Error.TheVariants.{IoError, OutOfMemory};
    ghost use Rattle.pdb_modules.specs.declared.exports.CrossModuleExport.{CrossModuleExport};
    ghost use Rattle.pdb_modules.specs.ModuleViews.{exports_left, exports_listed, exports_steps};

    type Item = CrossModuleExport;

    ghost Shown = { CrossModuleExport };

    ghost shown = { λ x. x };

    ghost left = { exports_left };

    fn next(&mut self) -> Result<Option<CrossModuleExport>>
        ensures yields { Yields (λ x. x) (exports_left self.old) result (exports_left self.new) }
        ensures few { length (exports_left self.old).items < 2 ^ 64 }
        ensures listed { exports_listed self.new ≡ exports_listed self.old }
        // Each export takes eight bytes of its part.
        ensures bound { exports_steps self.new ≤ length (exports_listed self.new) }
        ensures stepped { IfOk result (λ o. IfSome o (λ _. exports_steps self.new ≡ exports_steps self.old + 1)) }
        ensures rests { IfOk result (λ o. IfNone o (exports_steps self.new ≡ exports_steps self.old)) }
        ensures refused { IfErr result (λ e. (e ≢ OutOfMemory) × (e ≢ IoError)) }
    {
        if self.exports.is_empty() {
            return Ok(None);
        }
        let (local, global) = self.exports[0];
        let (_, rest) = self.exports.split_at(1);
        self.exports = rest;
        self.steps.tick();
        Ok(Some(export(local, global)))
    }
}

/// The same exports, and the same steps so far.
impl Clone for CrossModuleExportIter<'_> {
    ghost use Rattle.pdb_modules.specs.ModuleViews.{exports_left, exports_listed, exports_steps};

    ghost is_clone = { λ a b. (exports_left b ≡ exports_left a) × (exports_listed b ≡ exports_listed a) × (exports_steps b ≡ exports_steps a) };

    ghost is_infallible = { λ _. ⊤ };

    fn clone(&self) -> std::result::Result<Self, AllocError> {
        Ok(CrossModuleExportIter {
            exports: self.exports,
            listed: self.listed,
            steps: self.steps.clone()?,
        })
    }
}

/// No exports.
impl Default for CrossModuleExportIter<'_> {
    ghost use Rattle.pdb_base.specs.Left.{ended};
    ghost use Rattle.pdb_modules.specs.ModuleViews.{exports_left, exports_listed, exports_steps};

    ghost is_default = { λ it. (exports_left it ≡ ended) × (exports_listed it ≡ []) × (exports_steps it ≡ 0) };

    fn default() -> Self {
        CrossModuleExportIter::new(&[])
    }
}

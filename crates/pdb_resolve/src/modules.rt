//! The modules of a file, each of which is read once.

ghost use Rattle.std.specs.Prelude.{◌≡◌, ◌+◌, ◌==◌, ℕ, List, map, replicate, None, ◌<◌, length, option_copied, slice_get, slice_set, vec_len, Some, IfSome, IfOk, IfErr, OnOk, OnErr, true};
ghost use Rattle.pdb.specs.Error.TheVariants.{OutOfMemory};
ghost use Rattle.pdb.specs.ModuleStream.{ModuleBytes};
ghost use Rattle.pdb.specs.Answers.{module_info_in, debug_information_in};
ghost use Rattle.pdb.specs.Source.{Continues, MayFail, State};
ghost use Rattle.pdb.specs.DbiViews.{modules_left};
ghost use Rattle.pdb_places.specs.AsIfEmpty.{if_found, if_read, OnlyFails};
ghost use Rattle.pdb_resolve.specs.FileParts.{module_numbered, modules_where};
ghost use Rattle.pdb_code.specs.ModuleCode.{begins};
ghost use Rattle.pdb_resolve.specs.Resolved.{begun_where, procedure_where, procedures_where};
ghost use Rattle.pdb_code.specs.Listed.{shown_procedure};
ghost use Rattle.std.specs.Option.{option_map};
ghost use Rattle.pdb.specs.Text.{name_bytes};
ghost use Rattle.pdb_resolve.specs.WholeModules.{is_whole_numbered};
ghost use Rattle.pdb_resolve.specs.KeptParts.{AreModulesOf, boxed, code_kept, codes_of, rooms_left, stream_kept, streams_of};

use crate::crossings::ListedCode;
use crate::module_code::ModuleCode;
use crate::part::put_down;
use pdb::{
    DebugInformation, Error, FallibleIterator, Module, ModuleInfo, ModuleIter, PDB,
    PdbInternalSectionOffset, RawString, Result, Source,
};
use pdb_code::procedures::ListedProcedure;
use pdb_places::as_if_empty::if_read;
use std::alloc::Global;

/// Whether a listed module has no stream.
fn has_no_stream(module: &Module<'_>) -> bool
    ensures { result ≡ («module».now.stream == 0xffff) }
{
    module.stream().0 == 0xffff
}

/// The list of modules, and the code of those that were read.
#[derive(Drop)]
pub(crate) struct Modules<'a, 's> {
    pub(crate) listed: Vec<Module<'a>>,
    // Where the streams are put that will be read.
    pub(crate) rooms: &'a mut [Option<Box<ModuleInfo<'s>>>],
    // Those that were put there, by the numbers of their modules.
    pub(crate) infos: Vec<Option<&'a ModuleInfo<'s>>>,
    pub(crate) codes: Vec<Option<Box<ModuleCode<'a>>>>,
}

/// The modules that an iterator has left, up to its fault.
fn listed<'a>(alloc: Global, mut modules: ModuleIter<'a>) -> Result<Vec<Module<'a>>>
    ensures listed { IfOk result (λ v. v.items ≡ (modules_left modules.entry).items) }
    ensures refused { IfErr result (λ e. e ≡ Error.OutOfMemory) }
{
    let mut listed = Vec::new(alloc);
    loop {
        match modules.next() {
            Ok(Some(module)) => listed.push(module)?,
            Ok(None) => return Ok(listed),
            Err(_) => return Ok(listed),
        }
    }
}

/// The list of modules; none where it isn't there.
pub(crate) fn modules_of<'a>(
    alloc: Global,
    information: Option<&'a DebugInformation<'a>>,
) -> Result<Vec<Module<'a>>>
    ensures listed { IfOk result (λ v. v.items ≡ modules_where (option_copied information.entry)) }
    ensures refused { IfErr result (λ e. e ≡ Error.OutOfMemory) }
{
    let Some(information) = information else {
        return Ok(Vec::new(alloc));
    };
    match information.modules() {
        Ok(modules) => listed(alloc, modules),
        Err(_) => Ok(Vec::new(alloc)),
    }
}

/// The stream of a listed module; none where it has none, or where it has an error.
#[tactic(auto, using(crate::proofs::Asking::failed_on, crate::proofs::Asking::told))]
pub(crate) fn module_info<'s, S: Source<'s>>(
    pdb: &mut PDB<'s, S>,
    module: &Module<'_>,
) -> Result<Option<ModuleInfo<'s>>>
    ensures continues { Continues pdb.old pdb.new }
    ensures is { pdb.new.told ≡ true → IfOk result (λ i. i ≡ if_found (module_info_in pdb.old.file «module».now)) }
    ensures refused { IfErr result (λ e. OnlyFails (MayFail pdb.old pdb.new) e) }
{
    match if_read(pdb.module_info(module))? {
        Some(info) => Ok(info),
        None => Ok(None),
    }
}

/// So many buffers for modules.
fn rooms_of<'a, 's>(
    rooms: &'a mut Vec<Option<Box<ModuleInfo<'s>>>>,
    count: usize,
) -> Result<&'a mut [Option<Box<ModuleInfo<'s>>>]>
    ensures many { IfOk result (λ r. length r.now ≡ count) }
    ensures refused { IfErr result (λ e. e ≡ Error.OutOfMemory) }
{
    rooms.clear();
    for _ in 0..count {
        rooms.push(None)?;
    }
    Ok(rooms.as_mut_slice())
}

/// So many modules whose code wasn't read.
fn unread<'a>(alloc: Global, count: usize) -> Result<Vec<Option<Box<ModuleCode<'a>>>>>
    ensures unread { IfOk result (λ v. map boxed v.items ≡ replicate count None) }
    ensures refused { IfErr result (λ e. e ≡ Error.OutOfMemory) }
{
    let mut codes = Vec::new(alloc);
    for _ in 0..count {
        codes.push(None)?;
    }
    Ok(codes)
}

/// So many times nothing.
fn not_there<T: Drop>(alloc: Global, count: usize) -> Result<Vec<Option<T>>>
    ensures none { IfOk result (λ v. v.items ≡ replicate count None) }
    ensures refused { IfErr result (λ e. e ≡ Error.OutOfMemory) }
{
    let mut infos = Vec::new(alloc);
    for _ in 0..count {
        infos.push(None)?;
    }
    Ok(infos)
}

/// Puts an item into a place of a list.
fn set<T: Drop>(items: &mut Vec<Option<T>>, at: usize, item: T)
    requires { at < vec_len items.old }
    ensures { items.new.items ≡ slice_set items.old.items at (Some item) }
{
    items[at] = Some(item);
}

/// The modules of a file, of which none was read.
pub(crate) fn modules_from<'a, 's>(
    alloc: Global,
    information: Option<&'a DebugInformation<'a>>,
    rooms: &'a mut Vec<Option<Box<ModuleInfo<'s>>>>,
) -> Result<Modules<'a, 's>>
    ensures modules { (s : State) → (s.told ≡ true → option_copied information.entry ≡ if_read (debug_information_in s.file)) → IfOk result (λ m. AreModulesOf s m) }
    ensures refused { IfErr result (λ e. e ≡ Error.OutOfMemory) }
{
    let listed = modules_of(alloc, information)?;
    let codes = unread(alloc, listed.len())?;
    let infos = not_there(alloc, listed.len())?;
    let rooms = rooms_of(rooms, listed.len())?;
    Ok(Modules {
        listed,
        rooms,
        infos,
        codes,
    })
}

impl<'a, 's> Modules<'a, 's> {
    /// Reads the module of a number, unless it was read, or isn't there.
    pub(crate) fn read<S: Source<'s>>(
        &mut self,
        alloc: Global,
        pdb: &mut PDB<'s, S>,
        number: usize,
    ) -> Result<()>
        requires { AreModulesOf pdb.old self.old }
        ensures continues { Continues pdb.old pdb.new }
        ensures kept { AreModulesOf pdb.new self.new }
        ensures read { pdb.new.told ≡ true → IfOk result (λ _. code_kept self.new number ≡ module_numbered pdb.old.file number) }
        ensures stays { (k : ℕ) (m : ModuleBytes) → code_kept self.old k ≡ Some m → code_kept self.new k ≡ Some m }
        // A stream that is kept isn't read again.
        ensures once { (m : ModuleBytes) → stream_kept self.old number ≡ Some m → rooms_left self.new ≡ rooms_left self.old }
        ensures refused { IfErr result (λ e. OnlyFails (MayFail pdb.old pdb.new) e) }
    {
        if self.code(number).is_some() {
            return Ok(());
        }
        if let Some(info) = self.stream(number) {
            return self.keep(alloc, number, info);
        }
        let Some(module) = self.module_at(number) else {
            return Ok(());
        };
        match module_info(pdb, module)? {
            Some(info) => self.put_and_keep(alloc, number, info),
            None => Ok(()),
        }
    }

    /// The module of a number in the list.
    fn module_at(&self, number: usize) -> Option<&Module<'a>>
        ensures { option_copied result ≡ slice_get self.now.listed.items number }
    {
        self.listed.get(number)
    }

    /// The stream of the module of a number, if it was put down.
    fn stream(&self, number: usize) -> Option<&'a ModuleInfo<'s>>
        ensures { option_copied result ≡ stream_kept self.now number }
    {
        if number >= self.infos.len() {
            return None;
        }
        self.infos[number]
    }

    /// Puts the stream of the module of a number into the next buffer.
    fn put(
        &mut self,
        alloc: Global,
        number: usize,
        info: ModuleInfo<'s>,
    ) -> Result<&'a ModuleInfo<'s>>
        ensures listed { self.new.listed ≡ self.old.listed }
        ensures codes { codes_of self.new ≡ codes_of self.old }
        ensures is { IfOk result (λ r. r.now ≡ info.entry) }
        ensures taken { OnOk result (rooms_left self.old ≡ rooms_left self.new + 1) }
        ensures untaken { OnErr result (rooms_left self.new ≡ rooms_left self.old) }
        ensures put { OnOk result ((number < length (streams_of self.old)) × (streams_of self.new ≡ slice_set (streams_of self.old) number (Some info.entry))) }
        ensures refused { IfErr result (λ e. (e ≡ OutOfMemory) × (streams_of self.new ≡ streams_of self.old)) }
    {
        if number >= self.infos.len() {
            return Err(Error::OutOfMemory);
        }
        let info: &'a ModuleInfo<'s> = put_down(&mut self.rooms, Box::new(alloc, info)?)?;
        set(&mut self.infos, number, info);
        Ok(info)
    }

    /// Keeps the code of the module of a number, whose stream this is.
    fn keep(&mut self, alloc: Global, number: usize, info: &'a ModuleInfo<'s>) -> Result<()>
        ensures listed { self.new.listed ≡ self.old.listed }
        ensures streams { streams_of self.new ≡ streams_of self.old }
        ensures rooms { rooms_left self.new ≡ rooms_left self.old }
        ensures kept { OnOk result ((number < length (codes_of self.old)) × (codes_of self.new ≡ slice_set (codes_of self.old) number (Some info.entry.now))) }
        ensures refused { IfErr result (λ e. (e ≡ OutOfMemory) × (codes_of self.new ≡ codes_of self.old)) }
    {
        let code = Box::new(alloc, ModuleCode::new(alloc, info)?)?;
        if number >= self.codes.len() {
            return Err(Error::OutOfMemory);
        }
        self.codes[number] = Some(code);
        Ok(())
    }

    /// Puts the stream of the module of a number down, and keeps its code. Where memory ends behind the first, the
    /// stream stays.
    fn put_and_keep(&mut self, alloc: Global, number: usize, info: ModuleInfo<'s>) -> Result<()>
        ensures kept { (s : State) → AreModulesOf s self.old → stream_kept self.old number ≡ None → (s.told ≡ true → module_numbered s.file number ≡ Some info.entry) → AreModulesOf s self.new }
        ensures read { IfOk result (λ _. code_kept self.new number ≡ Some info.entry) }
        ensures stays { code_kept self.old number ≡ None → (k : ℕ) (m : ModuleBytes) → code_kept self.old k ≡ Some m → code_kept self.new k ≡ Some m }
        ensures refused { IfErr result (λ e. e ≡ OutOfMemory) }
    {
        let info = self.put(alloc, number, info)?;
        self.keep(alloc, number, info)
    }

    /// Whether a procedure of the module of a number begins at a place; none does where its code wasn't read.
    pub(crate) fn begins(
        &mut self,
        alloc: Global,
        number: usize,
        place: PdbInternalSectionOffset,
    ) -> Result<bool>
        ensures listed { self.new.listed ≡ self.old.listed }
        ensures streams { streams_of self.new ≡ streams_of self.old }
        ensures rooms { rooms_left self.new ≡ rooms_left self.old }
        ensures codes { codes_of self.new ≡ codes_of self.old }
        ensures begins { IfOk result (λ b. b ≡ begins place (procedures_where (code_kept self.old number))) }
        ensures refused { IfErr result (λ e. e ≡ OutOfMemory) }
    {
        if number >= self.codes.len() {
            return Ok(false);
        }
        match &mut self.codes[number] {
            Some(code) => code.begins(alloc, place),
            None => Ok(false),
        }
    }

    /// The name of the first procedure of the module of a number that begins at a place; none where its code wasn't
    /// read.
    pub(crate) fn begun_name(
        &mut self,
        alloc: Global,
        number: usize,
        place: PdbInternalSectionOffset,
    ) -> Result<Option<RawString<'a>>>
        ensures listed { self.new.listed ≡ self.old.listed }
        ensures streams { streams_of self.new ≡ streams_of self.old }
        ensures rooms { rooms_left self.new ≡ rooms_left self.old }
        ensures codes { codes_of self.new ≡ codes_of self.old }
        ensures name { IfOk result (λ n. option_map name_bytes n ≡ begun_where place (code_kept self.old number)) }
        ensures refused { IfErr result (λ e. e ≡ OutOfMemory) }
    {
        if number >= self.codes.len() {
            return Ok(None);
        }
        match &mut self.codes[number] {
            Some(code) => code.begun_name(alloc, place),
            None => Ok(None),
        }
    }

    /// Finds what the sites of the procedure at a place cover, in the module of a number, unless it is known, and gives
    /// the procedure; none where the module's code wasn't read.
    pub(crate) fn measure(
        &mut self,
        alloc: Global,
        number: usize,
        place: PdbInternalSectionOffset,
    ) -> Option<ListedProcedure>
        ensures procedure { option_map shown_procedure result ≡ procedure_where place (code_kept self.old number) }
        ensures listed { self.new.listed ≡ self.old.listed }
        ensures streams { streams_of self.new ≡ streams_of self.old }
        ensures rooms { rooms_left self.new ≡ rooms_left self.old }
        ensures codes { codes_of self.new ≡ codes_of self.old }
    {
        if number >= self.codes.len() {
            return None;
        }
        match &mut self.codes[number] {
            Some(code) => code.measure(alloc, place),
            None => None,
        }
    }

    /// Whether what is read of the module of a number, which was asked for, has no error; so it is where no such module
    /// is listed.
    pub(crate) fn is_whole(&self, number: usize) -> bool
        ensures { (s : State) → AreModulesOf s self.now → s.told ≡ true → code_kept self.now number ≡ module_numbered s.file number → result ≡ is_whole_numbered s.file number }
    {
        if let Some(code) = self.code(number) {
            return code.is_whole();
        }
        match self.module_at(number) {
            Some(module) => has_no_stream(module),
            None => true,
        }
    }

    /// The code of the module of a number, if it was read, and the list in which it has that number.
    pub(crate) fn listed_code(&self, number: usize) -> Option<ListedCode<'_, 'a>>
        ensures code { option_map (λ c. c.code.now) result ≡ code_kept self.now number }
        ensures listed { IfSome result (λ c. (c.number ≡ number) × (c.listed.now ≡ self.now.listed.items)) }
    {
        Some(ListedCode {
            listed: self.listed.as_slice(),
            number,
            code: self.code(number)?,
        })
    }

    /// The code of the module of a number, if it was read.
    pub(crate) fn code(&self, number: usize) -> Option<&ModuleCode<'a>>
        ensures { option_copied result ≡ code_kept self.now number }
    {
        if number >= self.codes.len() {
            return None;
        }
        match &self.codes[number] {
            Some(code) => Some(&**code),
            None => None,
        }
    }
}

//! What a resolver keeps of a file.

ghost use Rattle.std.specs.Prelude.{◌≡◌, ℕ, List, [], ◌∷◌, is_some, map, option_copied, Some, IfSome, IfOk, IfErr, true};
ghost use Rattle.std.specs.Option.{option_map};
ghost use Rattle.pdb.specs.Text.{name_bytes};
ghost use Rattle.pdb.specs.ModuleStream.{ModuleBytes};
ghost use Rattle.pdb.specs.Source.{Continues, MayFail, State};
ghost use Rattle.pdb.specs.Answers.{debug_information_in};
ghost use Rattle.pdb_places.specs.AsIfEmpty.{if_read, OnlyFails};
ghost use Rattle.pdb_places.specs.ModulePlaces.{module_number_at};
ghost use Rattle.pdb_resolve.specs.FileParts.{module_numbered};
ghost use Rattle.pdb_resolve.specs.Frames.{frame_without};
ghost use Rattle.pdb_code.specs.Namings.{plain, IsNamed, IsNameOf, shown_function_name};
ghost use Rattle.pdb_resolve.specs.Resolved.{begun_where, frames_of_file, function_where, leading_named, leading_where, module_of_place, named_by_public, other_of_file, procedure_where, procedures_where, public_counted, public_there, spelled_by, target_name, variables_where};
ghost use Rattle.pdb_code.specs.ModuleCode.{Named, begins};
ghost use Rattle.pdb_code.specs.Kept.{shown_leading};
ghost use Rattle.pdb_places.specs.PublicTable.{shown_found};
ghost use Rattle.pdb_resolve.specs.KeptFrames.{shown_frame};
ghost use Rattle.pdb_code.specs.Listed.{shown_procedure};
ghost use Rattle.pdb_variables.specs.VariableViews.{shown_variable};
ghost use Rattle.pdb_resolve.specs.WholeModules.{is_whole_at};
ghost use Rattle.pdb_resolve.specs.KeptParts.{code_kept, code_where, codes_of};

use crate::frames::{Frame, frame_without, push_frame};
use crate::module_code::ModuleCode;
use crate::modules::Modules;
use crate::tables::Tables;
use pdb::{Error, ModuleInfo, PDB, PdbInternalSectionOffset, RawString, Result, Source};
use pdb_code::function_names::{
    FunctionName, Naming, is_x86, leading_name, name_read, naming_at, nothing, spelled_name,
};
use pdb_code::leading::Leading;
use pdb_code::procedures::ListedProcedure;
use pdb_places::module_places::ModulePlaces;
use pdb_places::public_names::PublicName;
use pdb_variables::variables::VariableAt;
use std::alloc::Global;

/// What is kept of a file: which modules are where, their code, and what names are found by.
#[derive(Drop)]
pub(crate) struct KeptFile<'a, 's> {
    pub(crate) module_places: ModulePlaces<'a>,
    pub(crate) modules: Modules<'a, 's>,
    pub(crate) tables: Tables<'a, 's>,
}

/// The frame of a place of which no module's code is known, and which this names.
fn bare_frames<'a>(
    alloc: Global,
    place: PdbInternalSectionOffset,
    naming: Naming<'a>,
) -> Result<Vec<Frame<'a>>>
    ensures frames { (n : Named) → IsNamed naming.entry n → IfOk result (λ fs. map shown_frame fs.items ≡ frame_without place n ∷ []) }
    ensures refused { IfErr result (λ e. e ≡ Error.OutOfMemory) }
{
    let mut frames = Vec::new(alloc);
    push_frame(&mut frames, frame_without(place, naming))?;
    Ok(frames)
}

impl<'a, 's> KeptFile<'a, 's> {
    ghost use Rattle.pdb_resolve.specs.KeptNames.{IsFileKept};

    /// Reads the module from which the bytes at a place come, unless it was read, and returns its number.
    fn module_at<S: Source<'s>>(
        &mut self,
        alloc: Global,
        pdb: &mut PDB<'s, S>,
        place: PdbInternalSectionOffset,
    ) -> Result<Option<usize>>
        requires { IsFileKept pdb.old self.old }
        ensures continues { Continues pdb.old pdb.new }
        ensures kept { IsFileKept pdb.new self.new }
        ensures number { pdb.new.told ≡ true → IfOk result (λ n. n ≡ module_number_at place (if_read (debug_information_in pdb.old.file))) }
        ensures read { pdb.new.told ≡ true → IfOk result (λ n. IfSome n (λ k. code_kept self.new.modules k ≡ module_numbered pdb.old.file k)) }
        ensures stays { (k : ℕ) (m : ModuleBytes) → code_kept self.old.modules k ≡ Some m → code_kept self.new.modules k ≡ Some m }
        ensures refused { IfErr result (λ e. OnlyFails (MayFail pdb.old pdb.new) e) }
    {
        let Some(number) = self.module_places.find(alloc, place)? else {
            return Ok(None);
        };
        self.modules.read(alloc, pdb, number)?;
        Ok(Some(number))
    }

    /// Whether a function of the module of a number is at a place, where this is the procedure.
    fn has_function(
        &self,
        number: Option<usize>,
        procedure: Option<ListedProcedure>,
        place: PdbInternalSectionOffset,
    ) -> bool
        requires { option_map shown_procedure procedure ≡ procedure_where place (code_where self.now.modules number) }
        ensures { result ≡ is_some (function_where place (code_where self.now.modules number)) }
    {
        match self.code(number) {
            Some(code) => code.function_in(place, procedure).is_some(),
            None => false,
        }
    }

    /// The code of the module of a number, if it was read.
    fn code(&self, number: Option<usize>) -> Option<&ModuleCode<'a>>
        ensures { option_copied result ≡ code_where self.now.modules number }
    {
        match number {
            Some(number) => self.modules.code(number),
            None => None,
        }
    }

    /// Whether a procedure of the module of a number begins at a place.
    fn begins(
        &mut self,
        alloc: Global,
        number: Option<usize>,
        place: PdbInternalSectionOffset,
    ) -> Result<bool>
        ensures kept { (s : State) → IsFileKept s self.old → IsFileKept s self.new }
        ensures codes { codes_of self.new.modules ≡ codes_of self.old.modules }
        ensures begins { IfOk result (λ b. b ≡ begins place (procedures_where (code_where self.old.modules number))) }
        ensures refused { IfErr result (λ e. e ≡ Error.OutOfMemory) }
    {
        match number {
            Some(number) => self.modules.begins(alloc, number, place),
            None => Ok(false),
        }
    }

    /// The name that a public symbol's decorated name spells.
    fn spelled(&self, alloc: Global, name: RawString<'a>) -> Result<FunctionName<'a>>
        ensures name { (s : State) → IsFileKept s self.now → s.told ≡ true → IfOk result (λ n. shown_function_name n ≡ plain (spelled_by s.file (name_bytes name.entry))) }
        ensures refused { IfErr result (λ e. e ≡ Error.OutOfMemory) }
    {
        spelled_name(alloc, name, is_x86(self.tables.names.information))
    }

    /// The public symbol before a place, where it counts.
    fn counted_public<S: Source<'s>>(
        &mut self,
        alloc: Global,
        pdb: &mut PDB<'s, S>,
        number: Option<usize>,
        place: PdbInternalSectionOffset,
    ) -> Result<Option<PublicName<'a>>>
        requires { IsFileKept pdb.old self.old }
        ensures continues { Continues pdb.old pdb.new }
        ensures kept { IsFileKept pdb.new self.new }
        ensures codes { codes_of self.new.modules ≡ codes_of self.old.modules }
        ensures found { pdb.new.told ≡ true → IfOk result (λ p. option_map shown_found p ≡ public_counted pdb.old.file (code_where self.old.modules number) place) }
        ensures refused { IfErr result (λ e. OnlyFails (MayFail pdb.old pdb.new) e) }
    {
        let Some(public) = self.tables.globals.find(alloc, pdb, place)? else {
            return Ok(None);
        };
        if !self.module_places.reaches(public.place, place) {
            return Ok(None);
        }
        if self.begins(alloc, number, public.place)? {
            return Ok(None);
        }
        Ok(Some(public))
    }

    /// What the public symbol before a place names, where it counts.
    fn public<S: Source<'s>>(
        &mut self,
        alloc: Global,
        pdb: &mut PDB<'s, S>,
        number: Option<usize>,
        place: PdbInternalSectionOffset,
    ) -> Result<Naming<'a>>
        requires { IsFileKept pdb.old self.old }
        ensures continues { Continues pdb.old pdb.new }
        ensures kept { IsFileKept pdb.new self.new }
        ensures codes { codes_of self.new.modules ≡ codes_of self.old.modules }
        ensures named { pdb.new.told ≡ true → IfOk result (λ r. IsNamed r (named_by_public pdb.old.file (public_counted pdb.old.file (code_where self.old.modules number) place))) }
        ensures refused { IfErr result (λ e. OnlyFails (MayFail pdb.old pdb.new) e) }
    {
        match self.counted_public(alloc, pdb, number, place)? {
            Some(public) => Ok(naming_at(self.spelled(alloc, public.name)?, public.place)),
            None => Ok(nothing()),
        }
    }

    /// The name of the first public symbol at a place.
    fn public_there<S: Source<'s>>(
        &mut self,
        alloc: Global,
        pdb: &mut PDB<'s, S>,
        place: PdbInternalSectionOffset,
    ) -> Result<Option<FunctionName<'a>>>
        requires { IsFileKept pdb.old self.old }
        ensures continues { Continues pdb.old pdb.new }
        ensures kept { IsFileKept pdb.new self.new }
        ensures codes { codes_of self.new.modules ≡ codes_of self.old.modules }
        ensures name { pdb.new.told ≡ true → IfOk result (λ n. IsNameOf n (public_there pdb.old.file place)) }
        ensures refused { IfErr result (λ e. OnlyFails (MayFail pdb.old pdb.new) e) }
    {
        let Some(public) = self.tables.globals.find(alloc, pdb, place)? else {
            return Ok(None);
        };
        if public.place.section != place.section || public.place.offset != place.offset {
            return Ok(None);
        }
        Ok(Some(self.spelled(alloc, public.name)?))
    }

    /// The name of the first procedure of the module of a number that begins at a place.
    fn begun_name(
        &mut self,
        alloc: Global,
        number: Option<usize>,
        place: PdbInternalSectionOffset,
    ) -> Result<Option<RawString<'a>>>
        ensures kept { (s : State) → IsFileKept s self.old → IsFileKept s self.new }
        ensures codes { codes_of self.new.modules ≡ codes_of self.old.modules }
        ensures name { IfOk result (λ n. option_map name_bytes n ≡ begun_where place (code_where self.old.modules number)) }
        ensures refused { IfErr result (λ e. e ≡ Error.OutOfMemory) }
    {
        match number {
            Some(number) => self.modules.begun_name(alloc, number, place),
            None => Ok(None),
        }
    }

    /// The name of what begins at a place to which a linker's jump leads. The module there is read; what was read
    /// stays.
    fn target_name<S: Source<'s>>(
        &mut self,
        alloc: Global,
        pdb: &mut PDB<'s, S>,
        place: PdbInternalSectionOffset,
    ) -> Result<Option<FunctionName<'a>>>
        requires { IsFileKept pdb.old self.old }
        ensures continues { Continues pdb.old pdb.new }
        ensures kept { IsFileKept pdb.new self.new }
        ensures stays { (k : ℕ) (m : ModuleBytes) → code_kept self.old.modules k ≡ Some m → code_kept self.new.modules k ≡ Some m }
        ensures name { pdb.new.told ≡ true → IfOk result (λ n. IsNameOf n (target_name pdb.old.file place)) }
        ensures refused { IfErr result (λ e. OnlyFails (MayFail pdb.old pdb.new) e) }
    {
        let number = self.module_at(alloc, pdb, place)?;
        match self.begun_name(alloc, number, place)? {
            Some(name) => Ok(Some(name_read(name))),
            None => self.public_there(alloc, pdb, place),
        }
    }

    /// The linker's jump at a place, of the module of a number.
    fn leading(
        &self,
        alloc: Global,
        number: Option<usize>,
        place: PdbInternalSectionOffset,
    ) -> Result<Option<Leading>>
        ensures leading { IfOk result (λ t. option_map shown_leading t ≡ leading_where place (code_where self.now.modules number)) }
        ensures refused { IfErr result (λ e. e ≡ Error.OutOfMemory) }
    {
        match self.code(number) {
            Some(code) => code.leading(alloc, place),
            None => Ok(None),
        }
    }

    /// What names a linker's jump.
    fn leading_naming<S: Source<'s>>(
        &mut self,
        alloc: Global,
        pdb: &mut PDB<'s, S>,
        leading: Leading,
    ) -> Result<Naming<'a>>
        requires { IsFileKept pdb.old self.old }
        ensures continues { Continues pdb.old pdb.new }
        ensures kept { IsFileKept pdb.new self.new }
        ensures stays { (k : ℕ) (m : ModuleBytes) → code_kept self.old.modules k ≡ Some m → code_kept self.new.modules k ≡ Some m }
        ensures named { pdb.new.told ≡ true → IfOk result (λ r. IsNamed r (leading_named pdb.old.file (shown_leading leading))) }
        ensures refused { IfErr result (λ e. OnlyFails (MayFail pdb.old pdb.new) e) }
    {
        let target = self.target_name(alloc, pdb, leading.target)?;
        let name = leading_name(alloc, leading.kind, leading.number, target.as_ref())?;
        Ok(naming_at(name, leading.place))
    }

    /// What names a place at which the module of a number has no function, where this is the procedure there; nothing
    /// where it has one.
    fn other<S: Source<'s>>(
        &mut self,
        alloc: Global,
        pdb: &mut PDB<'s, S>,
        number: Option<usize>,
        procedure: Option<ListedProcedure>,
        place: PdbInternalSectionOffset,
    ) -> Result<Naming<'a>>
        requires kept { IsFileKept pdb.old self.old }
        requires procedure { option_map shown_procedure procedure ≡ procedure_where place (code_where self.old.modules number) }
        ensures continues { Continues pdb.old pdb.new }
        ensures kept { IsFileKept pdb.new self.new }
        ensures code { code_where self.new.modules number ≡ code_where self.old.modules number }
        ensures named { pdb.new.told ≡ true → IfOk result (λ r. IsNamed r (other_of_file pdb.old.file (code_where self.old.modules number) place)) }
        ensures refused { IfErr result (λ e. OnlyFails (MayFail pdb.old pdb.new) e) }
    {
        if self.has_function(number, procedure, place) {
            return Ok(nothing());
        }
        match self.leading(alloc, number, place)? {
            Some(leading) => self.leading_naming(alloc, pdb, leading),
            None => self.public(alloc, pdb, number, place),
        }
    }

    /// Finds what the sites of the procedure at a place cover, unless it is known, and gives the procedure.
    fn measure(
        &mut self,
        alloc: Global,
        number: Option<usize>,
        place: PdbInternalSectionOffset,
    ) -> Option<ListedProcedure>
        ensures procedure { option_map shown_procedure result ≡ procedure_where place (code_where self.old.modules number) }
        ensures kept { (s : State) → IsFileKept s self.old → IsFileKept s self.new }
        ensures codes { codes_of self.new.modules ≡ codes_of self.old.modules }
    {
        match number {
            Some(number) => self.modules.measure(alloc, number, place),
            None => None,
        }
    }

    /// The frames of a place.
    #[tactic(auto, unfolding(crate::specs::Resolved::frames_of_file))]
    pub(crate) fn frames<S: Source<'s>>(
        &mut self,
        alloc: Global,
        pdb: &mut PDB<'s, S>,
        place: PdbInternalSectionOffset,
    ) -> Result<Vec<Frame<'a>>>
        requires { IsFileKept pdb.old self.old }
        ensures continues { Continues pdb.old pdb.new }
        ensures kept { IsFileKept pdb.new self.new }
        ensures frames { pdb.new.told ≡ true → IfOk result (λ fs. map shown_frame fs.items ≡ frames_of_file pdb.old.file (Some place)) }
        ensures refused { IfErr result (λ e. OnlyFails (MayFail pdb.old pdb.new) e) }
    {
        let number = self.module_at(alloc, pdb, place)?;
        let procedure = self.measure(alloc, number, place);
        let other = self.other(alloc, pdb, number, procedure, place)?;
        let Some(number) = number else {
            return bare_frames(alloc, place, other);
        };
        match self.modules.listed_code(number) {
            Some(code) => self
                .tables
                .frames(alloc, pdb, &code, procedure, other, place),
            None => bare_frames(alloc, place, other),
        }
    }

    /// The variables that are in scope at a place.
    pub(crate) fn variables<S: Source<'s>>(
        &mut self,
        alloc: Global,
        pdb: &mut PDB<'s, S>,
        place: PdbInternalSectionOffset,
    ) -> Result<Vec<VariableAt<'a>>>
        requires { IsFileKept pdb.old self.old }
        ensures continues { Continues pdb.old pdb.new }
        ensures kept { IsFileKept pdb.new self.new }
        ensures variables { pdb.new.told ≡ true → IfOk result (λ vs. map shown_variable vs.items ≡ variables_where place (module_of_place pdb.old.file place)) }
        ensures refused { IfErr result (λ e. OnlyFails (MayFail pdb.old pdb.new) e) }
    {
        let Some(number) = self.module_at(alloc, pdb, place)? else {
            return Ok(Vec::new(alloc));
        };
        match self.modules.code(number) {
            Some(code) => Ok(code.variables_at(alloc, place)?),
            None => Ok(Vec::new(alloc)),
        }
    }

    /// Whether what is read of the module from which the bytes at a place come has no error.
    pub(crate) fn is_whole_at<S: Source<'s>>(
        &mut self,
        alloc: Global,
        pdb: &mut PDB<'s, S>,
        place: PdbInternalSectionOffset,
    ) -> Result<bool>
        requires { IsFileKept pdb.old self.old }
        ensures continues { Continues pdb.old pdb.new }
        ensures kept { IsFileKept pdb.new self.new }
        ensures whole { pdb.new.told ≡ true → IfOk result (λ b. b ≡ is_whole_at pdb.old.file place) }
        ensures refused { IfErr result (λ e. OnlyFails (MayFail pdb.old pdb.new) e) }
    {
        match self.module_at(alloc, pdb, place)? {
            Some(number) => Ok(self.modules.is_whole(number)),
            None => Ok(true),
        }
    }

    /// The stream of the module from which the bytes at a place come.
    pub(crate) fn module_info_at<S: Source<'s>>(
        &mut self,
        alloc: Global,
        pdb: &mut PDB<'s, S>,
        place: PdbInternalSectionOffset,
    ) -> Result<Option<&'a ModuleInfo<'a>>>
        requires { IsFileKept pdb.old self.old }
        ensures continues { Continues pdb.old pdb.new }
        ensures kept { IsFileKept pdb.new self.new }
        ensures found { pdb.new.told ≡ true → IfOk result (λ m. option_copied m ≡ module_of_place pdb.old.file place) }
        ensures refused { IfErr result (λ e. OnlyFails (MayFail pdb.old pdb.new) e) }
    {
        let Some(number) = self.module_at(alloc, pdb, place)? else {
            return Ok(None);
        };
        match self.modules.code(number) {
            Some(code) => Ok(Some(code.info())),
            None => Ok(None),
        }
    }
}

//! The code of one module.

ghost use Rattle.std.specs.Prelude.{◌≡◌, ◌+◌, ◌≤◌, ◌<◌, ◌^◌, ℕ, length, map, find, Some, IfOk, IfErr};
ghost use Rattle.std.specs.Option.{option_map, option_or, unwrap_or};
ghost use Rattle.pdb.specs.Data.{shown};
ghost use Rattle.pdb.specs.FileViews.{shown_file};
ghost use Rattle.pdb.specs.Text.{name_bytes};
ghost use Rattle.pdb_resolve.specs.Frames.{file_in};
ghost use Rattle.pdb_code.specs.Kept.{shown_call, shown_leading, IsListed};
ghost use Rattle.pdb_code.specs.SaidNames.{name_said};
ghost use Rattle.pdb_code.specs.Namings.{shown_naming};
ghost use Rattle.pdb_code.specs.Listed.{shown_procedure};
ghost use Rattle.pdb_variables.specs.Variables.{variables_at};
ghost use Rattle.pdb_variables.specs.VariableViews.{shown_variable};
ghost use Rattle.pdb_code.specs.Whole.{is_whole};
ghost use Rattle.pdb_places.specs.Pieces.{AreCodesApart, begins_at, index_of};
ghost use Rattle.pdb_code.specs.ModuleCode.{begins, begun_name, function_at, further_in, inlined_at, leading_at, least_in, line_at, managed_at, managed_in, managed_named, name_at, named_by, named_in, other_at, others_in, procedure_at, procedure_name, procedure_name_at, procedures_in, program_in, says_at, symbols_in, trampolines_in};

use pdb::{
    Error, FileIndex, FileInfo, InlineeFinder, LineInfo, LinePlaces, ModuleInfo,
    PdbInternalSectionOffset, RawString, Result, Steps, SymbolData, SymbolIndex,
};
use pdb_code::calls::{InlinedCall, calls_of, count_upto};
use pdb_code::function_names::{NamedCode, named_code};
use pdb_code::leading::{Leading, least_of};
use pdb_code::module_parts::{
    KnownInlinees, are_all, first_managed, first_name, first_said, read_inlinees, read_program,
    read_rows, starts_of,
};
use pdb_code::procedures::{ListedProcedure, procedure_with, ranges_of};
use pdb_code::site::{KeptSite, measure};
use pdb_places::ranges::Ranges;
use pdb_variables::open_scopes::CodePlace;
use pdb_variables::variables::{VariableAt, variables_of};
use std::alloc::Global;
use std::collections::BTreeMap;
use std::marker::Model;

/// The code of a module, of which what stands at a place is found. A contract sees it as the module's stream.
#[derive(Drop)]
pub struct ModuleCode<'a> {
    info: &'a ModuleInfo<'a>,
    procedures: Ranges,
    others: Ranges,
    managed: Ranges,
    trampolines: Ranges,
    // Where the first trampoline of each section begins.
    least: BTreeMap<u16, u32>,
    // The procedures as they are listed, and where they begin; the latter is made at the first question.
    listed: Vec<ListedProcedure>,
    starts: Option<Ranges>,
    // The sites of inlined functions. What those of a procedure cover is found when it is first asked for.
    sites: Vec<KeptSite<'a>>,
    program: Option<LinePlaces<'a>>,
    known: InlineeFinder<'a>,
    // Whether what is read of the module has no error.
    whole: bool,
}

impl<'a> Model for ModuleCode<'a> {
    ghost use Rattle.std.specs.Prelude.{◌≡◌};
    ghost use Rattle.pdb.specs.ModuleStream.{ModuleBytes};
    ghost use Rattle.pdb_code.specs.ModuleCode.{procedures_in, others_in, managed_in, trampolines_in, program_in, inlinees_in};
    ghost use Rattle.pdb.specs.Inlinees.{inlinee_with};
    ghost use Rattle.std.specs.Prelude.{map};
    ghost use Rattle.pdb_code.specs.Kept.{AreLeastIn, sites_in};
    ghost use Rattle.pdb_places.specs.Pieces.{AreStartsIfMade, IsKeptOf};
    ghost use Rattle.pdb_code.specs.Listed.{shown_procedure, entry_of, AreBounded};
    ghost use Rattle.pdb_code.specs.Whole.{is_whole};

    ghost Value = { ModuleBytes };

    ghost view = { λ x. x.info.now };

    ghost invariant = { λ x. IsKeptOf (procedures_in x.info.now) x.procedures × IsKeptOf (others_in x.info.now) x.others × (x.program ≡ program_in x.info.now) × (inlinee_with x.known ≡ inlinee_with (inlinees_in x.info.now)) × (map entry_of x.sites.items ≡ sites_in x.info.now) × (map shown_procedure x.listed.items ≡ procedures_in x.info.now) × AreStartsIfMade (procedures_in x.info.now) x.starts × AreBounded (inlinee_with x.known) x.sites.items × IsKeptOf (managed_in x.info.now) x.managed × IsKeptOf (trampolines_in x.info.now) x.trampolines × AreLeastIn (trampolines_in x.info.now) x.least × (x.whole ≡ is_whole x.info.now) };
}

impl<'a> ModuleCode<'a> {
    /// The code of a module, whose symbols are read once. A part that can't be read is as if it were empty; out of
    /// memory is passed on.
    pub fn new(alloc: Global, info: &'a ModuleInfo<'a>) -> Result<Self>
        ensures is { IfOk result (λ code. code ≡ info.entry.now) }
        ensures refused { IfErr result (λ e. e ≡ Error.OutOfMemory) }
    {
        let rows = read_rows(alloc, info)?;
        let ranges = ranges_of(alloc, rows.procedures.as_slice())?;
        let procedures = Ranges::new(alloc, ranges.as_slice())?;
        let others = Ranges::new(alloc, rows.others.as_slice())?;
        let managed = Ranges::new(alloc, rows.managed.as_slice())?;
        let least = least_of(alloc, rows.trampolines.as_slice())?;
        let trampolines = Ranges::new(alloc, rows.trampolines.as_slice())?;
        let program = read_program(alloc, info)?;
        let KnownInlinees {
            known,
            is_whole: are_inlinees_whole,
        } = read_inlinees(alloc, info)?;
        let whole = are_all(rows.is_whole, program.is_some(), are_inlinees_whole);
        Ok(ModuleCode {
            info,
            procedures,
            others,
            managed,
            trampolines,
            least,
            listed: rows.procedures,
            starts: None,
            sites: rows.sites,
            program,
            known,
            whole,
        })
    }

    /// Whether the symbols, the lines and the inlined functions of the module are there and have no error.
    pub fn is_whole(&self) -> bool
        ensures { result ≡ is_whole self.now }
    {
        self.whole
    }

    /// The symbol of the function at a place, as `function`, with a step for each look at a piece of code. Where the
    /// procedures don't overlap, nor the thunks and separated code, nor the managed procedures, there are at most as
    /// many as the numbers of the three have binary digits; and never more than all three.
    pub fn function_counted(
        &self,
        place: PdbInternalSectionOffset,
        steps: &mut Steps,
    ) -> Option<SymbolIndex>
        ensures found { option_map (λ i. i.0) result ≡ function_at place self.now }
        ensures halved { AreCodesApart (procedures_in self.now) → AreCodesApart (others_in self.now) → AreCodesApart (managed_in self.now) → (digits more rest : ℕ) → length (procedures_in self.now) < 2 ^ digits → length (others_in self.now) < 2 ^ more → length (managed_in self.now) < 2 ^ rest
            → steps.new.count ≤ steps.old.count + digits + more + rest }
        ensures few { steps.new.count ≤ steps.old.count + length (procedures_in self.now) + length (others_in self.now) + length (managed_in self.now) }
    {
        match self.procedures.find_counted(place, steps) {
            Some(index) => Some(SymbolIndex(index)),
            None => self.other_counted(place, steps),
        }
    }

    // The symbol of the thunk, the separated code or the managed procedure at a place, with a step for each look.
    fn other_counted(
        &self,
        place: PdbInternalSectionOffset,
        steps: &mut Steps,
    ) -> Option<SymbolIndex>
        ensures found { option_map (λ i. i.0) result ≡ option_or (option_map index_of (other_at place self.now)) (option_map index_of (managed_at place self.now)) }
        ensures halved { AreCodesApart (others_in self.now) → AreCodesApart (managed_in self.now) → (more rest : ℕ) → length (others_in self.now) < 2 ^ more → length (managed_in self.now) < 2 ^ rest
            → steps.new.count ≤ steps.old.count + more + rest }
        ensures few { steps.new.count ≤ steps.old.count + length (others_in self.now) + length (managed_in self.now) }
    {
        match self.others.find_counted(place, steps) {
            Some(index) => Some(SymbolIndex(index)),
            None => match self.managed.find_counted(place, steps) {
                Some(index) => Some(SymbolIndex(index)),
                None => None,
            },
        }
    }

    /// The symbol of the function at a place: the first procedure that covers it, or else the first thunk or separated
    /// code, or else the first managed procedure. It takes no memory.
    pub fn function(&self, place: PdbInternalSectionOffset) -> Option<SymbolIndex>
        ensures { option_map (λ i. i.0) result ≡ function_at place self.now }
    {
        self.function_counted(place, &mut Steps::new())
    }

    // The same, where this is the procedure at the place.
    pub(crate) fn function_in(
        &self,
        place: PdbInternalSectionOffset,
        procedure: Option<ListedProcedure>,
    ) -> Option<SymbolIndex>
        requires { option_map shown_procedure procedure ≡ procedure_at place self.now }
        ensures { option_map (λ i. i.0) result ≡ function_at place self.now }
    {
        match procedure {
            Some(procedure) => Some(SymbolIndex(procedure.index)),
            None => self.other_counted(place, &mut Steps::new()),
        }
    }

    // The module's stream.
    pub(crate) fn info(&self) -> &'a ModuleInfo<'a>
        ensures { result.now ≡ self.now }
    {
        self.info
    }

    /// The line at a place: the first record of the last subsection at or before it that covers it. It takes no memory.
    pub fn line(&self, place: PdbInternalSectionOffset) -> Option<LineInfo>
        ensures { result ≡ line_at place self.now }
    {
        self.program.as_ref()?.find(place)
    }

    /// The file of an index, which a line record names; none where its record can't be read.
    pub fn file(&self, index: FileIndex) -> Option<FileInfo<'a>>
        ensures { option_map shown_file result ≡ file_in (program_in self.now) index.0 }
    {
        self.program.as_ref()?.get_file_info(index).ok()
    }

    // The first procedure that covers a place.
    fn procedure(&self, place: PdbInternalSectionOffset) -> Option<ListedProcedure>
        ensures { option_map shown_procedure result ≡ procedure_at place self.now }
    {
        match self.procedures.find(place) {
            Some(index) => procedure_with(self.listed.as_slice(), index),
            None => None,
        }
    }

    /// The functions that were inlined at a place into the procedure there, in the order of their sites, each with the
    /// first record of its site that covers the place.
    pub fn inlined(
        &self,
        alloc: Global,
        place: PdbInternalSectionOffset,
    ) -> Result<Vec<InlinedCall>>
        ensures calls { IfOk result (λ calls. map shown_call calls.items ≡ inlined_at place self.now) }
        ensures refused { IfErr result (λ e. e ≡ Error.OutOfMemory) }
    {
        self.inlined_in(alloc, place, self.procedure(place))
    }

    // The same, where this is the procedure at the place.
    pub(crate) fn inlined_in(
        &self,
        alloc: Global,
        place: PdbInternalSectionOffset,
        procedure: Option<ListedProcedure>,
    ) -> Result<Vec<InlinedCall>>
        requires { option_map shown_procedure procedure ≡ procedure_at place self.now }
        ensures calls { IfOk result (λ calls. map shown_call calls.items ≡ inlined_at place self.now) }
        ensures refused { IfErr result (λ e. e ≡ Error.OutOfMemory) }
    {
        let Some(procedure) = procedure else {
            return Ok(Vec::new(alloc));
        };
        let sites = self.sites.as_slice();
        let (_, behind) = sites.split_at(count_upto(sites, procedure.index));
        calls_of(alloc, &self.known, behind, place, procedure)
    }

    /// The variables that are in scope at a place, in the order of their records. They are those of the function there
    /// and of the calls that are inlined there. It fails with out of memory alone.
    #[tactic(auto, unfolding(pdb_variables::specs::Variables::variables_at))]
    pub fn variables_at(
        &self,
        alloc: Global,
        place: PdbInternalSectionOffset,
    ) -> Result<Vec<VariableAt<'a>>>
        ensures variables { IfOk result (λ vs. map shown_variable vs.items ≡ variables_at place self.now) }
        ensures refused { IfErr result (λ e. e ≡ Error.OutOfMemory) }
    {
        let Some(index) = self.function(place) else {
            return Ok(Vec::new(alloc));
        };
        let asked = CodePlace {
            place,
            procedure: self.procedure(place),
            known: &self.known,
        };
        variables_of(alloc, self.info, index, asked)
    }

    // Finds what the sites of the procedure at a place cover, unless it is known, and gives the procedure. `inlined`
    // then passes those that have no call there.
    pub(crate) fn measure(
        &mut self,
        alloc: Global,
        place: PdbInternalSectionOffset,
    ) -> Option<ListedProcedure>
        ensures stays { self.new ≡ self.old }
        ensures procedure { option_map shown_procedure result ≡ procedure_at place self.old }
    {
        let procedure = self.procedure(place)?;
        let from = count_upto(self.sites.as_slice(), procedure.index);
        measure(alloc, &self.known, &mut self.sites, from, procedure);
        Some(procedure)
    }

    // The symbol of the first procedure that begins at a place. At the first call a table is made, and kept.
    fn begun(&mut self, alloc: Global, place: PdbInternalSectionOffset) -> Result<Option<u32>>
        ensures stays { self.new ≡ self.old }
        ensures found { IfOk result (λ o. o ≡ option_map index_of (find (begins_at place) (procedures_in self.old))) }
        ensures refused { IfErr result (λ e. e ≡ Error.OutOfMemory) }
    {
        if let Some(starts) = &self.starts {
            return Ok(starts.find(place));
        }
        let ranges = ranges_of(alloc, self.listed.as_slice())?;
        let starts = starts_of(alloc, ranges.as_slice())?;
        let begun = starts.find(place);
        self.starts = Some(starts);
        Ok(begun)
    }

    /// Whether a procedure begins at a place. At the first call a table is made, and kept. It fails with out of
    /// memory alone, and may then be called again.
    pub fn begins(&mut self, alloc: Global, place: PdbInternalSectionOffset) -> Result<bool>
        ensures stays { self.new ≡ self.old }
        ensures begins { IfOk result (λ b. b ≡ begins place (procedures_in self.old)) }
        ensures refused { IfErr result (λ e. e ≡ Error.OutOfMemory) }
    {
        Ok(self.begun(alloc, place)?.is_some())
    }

    // The name of the first procedure that begins at a place.
    pub(crate) fn begun_name(
        &mut self,
        alloc: Global,
        place: PdbInternalSectionOffset,
    ) -> Result<Option<RawString<'a>>>
        ensures stays { self.new ≡ self.old }
        ensures name { IfOk result (λ n. option_map name_bytes n ≡ begun_name place self.old) }
        ensures refused { IfErr result (λ e. e ≡ Error.OutOfMemory) }
    {
        match self.begun(alloc, place)? {
            Some(index) => self.procedure_name_of(alloc, index),
            None => Ok(None),
        }
    }

    // What the symbol of an index says; none where it can't be read.
    fn said(&self, alloc: Global, index: u32) -> Result<Option<SymbolData<'a>>>
        requires { IsListed index (symbols_in self.now) }
        ensures says { IfOk result (λ d. option_map shown d ≡ says_at self.now index) }
        ensures refused { IfErr result (λ e. e ≡ Error.OutOfMemory) }
    {
        match self.info.symbols_at(SymbolIndex(index)) {
            Ok(symbols) => first_said(alloc, symbols),
            Err(_) => Ok(None),
        }
    }

    // The name of the procedure whose symbol has an index.
    fn procedure_name_of(&self, alloc: Global, index: u32) -> Result<Option<RawString<'a>>>
        requires { IsListed index (symbols_in self.now) }
        ensures name { IfOk result (λ n. option_map name_bytes n ≡ procedure_name (says_at self.now index)) }
        ensures refused { IfErr result (λ e. e ≡ Error.OutOfMemory) }
    {
        match self.said(alloc, index) {
            Ok(Some(SymbolData::Procedure(procedure))) => Ok(Some(procedure.name)),
            Ok(_) => Ok(None),
            Err(_) => Err(Error::OutOfMemory),
        }
    }

    // The name of the first procedure that covers a place.
    fn procedure_name(
        &self,
        alloc: Global,
        place: PdbInternalSectionOffset,
    ) -> Result<Option<RawString<'a>>>
        ensures name { IfOk result (λ n. option_map name_bytes n ≡ procedure_name_at place self.now) }
        ensures refused { IfErr result (λ e. e ≡ Error.OutOfMemory) }
    {
        match self.procedures.find(place) {
            Some(index) => self.procedure_name_of(alloc, index),
            None => Ok(None),
        }
    }

    // What names the managed procedure whose symbol has an index.
    fn managed_of(&self, index: u32) -> Option<NamedCode<'a>>
        requires { IsListed index (symbols_in self.now) }
        ensures { option_map shown_naming result ≡ managed_named (further_in self.now (Some index)) }
    {
        match self.info.symbols_at(SymbolIndex(index)) {
            Ok(symbols) => first_managed(symbols),
            Err(_) => None,
        }
    }

    // What names a function that says this.
    fn named_by(&self, alloc: Global, said: Option<SymbolData<'a>>) -> Result<Option<NamedCode<'a>>>
        ensures named { IfOk result (λ n. option_map shown_naming n ≡ named_by self.now (option_map shown said.entry)) }
        ensures refused { IfErr result (λ e. e ≡ Error.OutOfMemory) }
    {
        match said {
            Some(SymbolData::Procedure(s)) => Ok(Some(named_code(s.name, s.offset))),
            Some(SymbolData::Thunk(s)) => Ok(Some(named_code(s.name, s.offset))),
            Some(SymbolData::SeparatedCode(s)) => Ok(Some(NamedCode {
                name: self.procedure_name(alloc, s.parent_offset)?,
                start: None,
            })),
            _ => Ok(None),
        }
    }

    // The name that the symbol of an index has; none where it can't be read.
    fn titled(&self, alloc: Global, index: u32) -> Result<Option<RawString<'a>>>
        requires { IsListed index (symbols_in self.now) }
        ensures name { IfOk result (λ n. option_map name_bytes n ≡ name_said (says_at self.now index)) }
        ensures refused { IfErr result (λ e. e ≡ Error.OutOfMemory) }
    {
        match self.info.symbols_at(SymbolIndex(index)) {
            Ok(symbols) => first_name(alloc, symbols),
            Err(_) => Ok(None),
        }
    }

    // What names the procedure at a place, by its name alone: the list says where it begins.
    fn procedure_naming(
        &self,
        alloc: Global,
        place: PdbInternalSectionOffset,
        procedure: ListedProcedure,
    ) -> Result<Option<NamedCode<'a>>>
        requires { procedure_at place self.now ≡ Some (shown_procedure procedure) }
        ensures named { IfOk result (λ n. option_map shown_naming n ≡ named_in self.now (function_at place self.now)) }
        ensures refused { IfErr result (λ e. e ≡ Error.OutOfMemory) }
    {
        match self.titled(alloc, procedure.index)? {
            Some(name) => Ok(Some(named_code(name, procedure.place))),
            None => Ok(None),
        }
    }

    // What names the function at a place, where this is the procedure there.
    pub(crate) fn naming_in(
        &self,
        alloc: Global,
        place: PdbInternalSectionOffset,
        procedure: Option<ListedProcedure>,
    ) -> Result<Option<NamedCode<'a>>>
        requires { option_map shown_procedure procedure ≡ procedure_at place self.now }
        ensures named { IfOk result (λ n. option_map shown_naming n ≡ named_in self.now (function_at place self.now)) }
        ensures refused { IfErr result (λ e. e ≡ Error.OutOfMemory) }
    {
        if let Some(procedure) = procedure {
            return self.procedure_naming(alloc, place, procedure);
        }
        let Some(index) = self.function_in(place, procedure) else {
            return Ok(None);
        };
        let said = self.said(alloc, index.0)?;
        match self.named_by(alloc, said)? {
            Some(named) => Ok(Some(named)),
            None => Ok(self.managed_of(index.0)),
        }
    }

    /// The name of the function at a place; that of separated code is its parent's. It fails with out of memory
    /// alone.
    pub fn function_name(
        &self,
        alloc: Global,
        place: PdbInternalSectionOffset,
    ) -> Result<Option<RawString<'a>>>
        ensures name { IfOk result (λ n. option_map name_bytes n ≡ name_at place self.now) }
        ensures refused { IfErr result (λ e. e ≡ Error.OutOfMemory) }
    {
        match self.naming_in(alloc, place, self.procedure(place))? {
            Some(named) => Ok(named.name),
            None => Ok(None),
        }
    }

    // The jump that a linker made at a place.
    pub(crate) fn leading(
        &self,
        alloc: Global,
        place: PdbInternalSectionOffset,
    ) -> Result<Option<Leading>>
        ensures leading { IfOk result (λ t. option_map shown_leading t ≡ leading_at place self.now) }
        ensures refused { IfErr result (λ e. e ≡ Error.OutOfMemory) }
    {
        let Some(index) = self.trampolines.find(place) else {
            return Ok(None);
        };
        match self.said(alloc, index)? {
            Some(SymbolData::Trampoline(s)) => Ok(Some(Leading {
                kind: s.tramp_type,
                place: s.thunk,
                number: s
                    .thunk
                    .offset
                    .saturating_sub(self.first_of(s.thunk.section)),
                target: s.target,
            })),
            _ => Ok(None),
        }
    }

    // The offset of the first trampoline in a section, 0 where it has none.
    fn first_of(&self, section: u16) -> u32
        ensures { result ≡ unwrap_or (least_in section (trampolines_in self.now)) 0 }
    {
        match self.least.get(&section) {
            Some(first) => *first,
            None => 0,
        }
    }
}

//! What the names of frames are found by.

ghost use Rattle.std.specs.Prelude.{◌≡◌, ◌++◌, [], ◌∷◌, map, reverse, option_copied, IfOk, IfErr, IsSome, None, true};
ghost use Rattle.std.specs.Option.{option_map};
ghost use Rattle.pdb.specs.Source.{Continues, MayFail};
ghost use Rattle.pdb.specs.Answers.{string_table_in};
ghost use Rattle.pdb_places.specs.AsIfEmpty.{if_read, OnlyFails};
ghost use Rattle.pdb_resolve.specs.FileParts.{names_in};
ghost use Rattle.pdb_resolve.specs.AcrossModules.{global_id_in};
ghost use Rattle.pdb_resolve.specs.Frames.{frames_in, inlined_frame, outer_named};
ghost use Rattle.pdb_code.specs.ModuleCode.{Named, program_in, inlined_at, procedure_at};
ghost use Rattle.pdb_code.specs.Listed.{shown_procedure};
ghost use Rattle.pdb_resolve.specs.KeptFrames.{shown_frame};
ghost use Rattle.pdb_code.specs.Namings.{IsNamed};
ghost use Rattle.pdb_resolve.specs.KeptCrossings.{AreCrossingsOf, IsListedCode};
ghost use Rattle.pdb_resolve.specs.KeptParts.{IsAskedOf, AreTablesOf};

use crate::crossings::{Crossings, ListedCode};
use crate::frames::{Frame, push_inlined, push_outer};
use crate::global_names::GlobalNames;
use crate::module_code::ModuleCode;
use crate::name_tables::NameTables;
use crate::part::Part;
use pdb::{Error, PDB, PdbInternalSectionOffset, Result, Source, StringTable};
use pdb_code::function_names::{Naming, nothing};
use pdb_code::procedures::ListedProcedure;
use std::alloc::Global;

/// The string table, the names of functions, what leads to ids of other modules, and the public symbols.
#[derive(Drop)]
pub(crate) struct Tables<'a, 's> {
    pub(crate) strings: Part<'a, StringTable<'s>>,
    pub(crate) names: NameTables<'a, 's>,
    pub(crate) crossings: Crossings<'a>,
    pub(crate) globals: GlobalNames<'a, 's>,
}

/// The string table.
fn strings_asked<'a, 's, S: Source<'s>>(
    pdb: &mut PDB<'s, S>,
    part: &mut Part<'a, StringTable<'s>>,
) -> Result<Option<&'a StringTable<'s>>>
    requires { IsAskedOf pdb.old.told (if_read (string_table_in pdb.old.file)) part.old }
    ensures continues { Continues pdb.old pdb.new }
    ensures asked { IsAskedOf pdb.new.told (if_read (string_table_in pdb.new.file)) part.new }
    ensures is { pdb.new.told ≡ true → IfOk result (λ o. option_copied o ≡ if_read (string_table_in pdb.old.file)) }
    ensures refused { IfErr result (λ e. OnlyFails (MayFail pdb.old pdb.new) e) }
{
    if part.asked {
        return Ok(part.there);
    }
    part.keep(pdb.string_table())
}

/// The frames of the functions that were inlined at a place, from the last site to the first.
#[tactic(auto, unfolding(crate::specs::FileParts::names_in, crate::specs::FileParts::modules_listed))]
fn inlined_frames<'a, 's, S: Source<'s>>(
    alloc: Global,
    pdb: &mut PDB<'s, S>,
    names: &mut NameTables<'a, 's>,
    crossings: &mut Crossings<'a>,
    code: &ListedCode<'_, 'a>,
    strings: Option<&'a StringTable<'a>>,
    procedure: Option<ListedProcedure>,
    place: PdbInternalSectionOffset,
) -> Result<Vec<Frame<'a>>>
    requires procedure { option_map shown_procedure procedure ≡ procedure_at place code.now.code.now }
    requires names { AreTablesOf pdb.old names.old }
    requires crossings { AreCrossingsOf pdb.old crossings.old }
    requires code { IsListedCode pdb.old code.now }
    requires strings { pdb.old.told ≡ true → option_copied strings ≡ if_read (string_table_in pdb.old.file) }
    ensures continues { Continues pdb.old pdb.new }
    ensures kept { AreTablesOf pdb.new names.new }
    ensures crossings { AreCrossingsOf pdb.new crossings.new }
    ensures frames { pdb.new.told ≡ true → IfOk result (λ fs. map shown_frame fs.items ≡ map (inlined_frame (names_in pdb.old.file) (global_id_in pdb.old.file code.now.code.now) (program_in code.now.code.now)) (reverse (inlined_at place code.now.code.now))) }
    ensures refused { IfErr result (λ e. OnlyFails (MayFail pdb.old pdb.new) e) }
{
    let calls = code.code.inlined_in(alloc, place, procedure)?;
    if calls.is_empty() {
        return Ok(Vec::new(alloc));
    }
    // The frame of the function itself comes behind them.
    let mut frames = Vec::with_capacity(alloc, calls.len().saturating_add(1))?;
    names.make(alloc, pdb)?;
    match &names.made {
        Some(made) => {
            push_inlined(
                alloc,
                pdb,
                &mut frames,
                crossings,
                code,
                made,
                strings,
                calls.as_slice(),
            )?
        }
        None => return Err(Error::OutOfMemory),
    }
    Ok(frames)
}

/// What names the function at a place; where no function is there, what else does.
fn outer_naming<'a>(
    alloc: Global,
    code: &ModuleCode<'a>,
    procedure: Option<ListedProcedure>,
    other: Naming<'a>,
    place: PdbInternalSectionOffset,
) -> Result<Naming<'a>>
    requires { option_map shown_procedure procedure ≡ procedure_at place code.now }
    ensures named { (n : Named) → IsNamed other.entry n → IfOk result (λ r. IsNamed r (outer_named n place code.now)) }
    ensures refused { IfErr result (λ e. e ≡ Error.OutOfMemory) }
{
    if code.function_in(place, procedure).is_none() {
        return Ok(other);
    }
    match code.naming_in(alloc, place, procedure)? {
        Some(named) => Ok(Naming::from(named)),
        None => Ok(nothing()),
    }
}

impl<'a, 's> Tables<'a, 's> {
    ghost use Rattle.pdb_resolve.specs.KeptNames.{AreNamesOf};

    /// The frames of a place in a module, whose procedure there is this, and which this names where no function is
    /// there.
    #[tactic(auto, unfolding(crate::specs::Frames::frames_in, crate::specs::FileParts::names_in))]
    pub(crate) fn frames<S: Source<'s>>(
        &mut self,
        alloc: Global,
        pdb: &mut PDB<'s, S>,
        code: &ListedCode<'_, 'a>,
        procedure: Option<ListedProcedure>,
        other: Naming<'a>,
        place: PdbInternalSectionOffset,
    ) -> Result<Vec<Frame<'a>>>
        requires names { AreNamesOf pdb.old self.old }
        requires code { IsListedCode pdb.old code.now }
        requires procedure { option_map shown_procedure procedure ≡ procedure_at place code.now.code.now }
        ensures continues { Continues pdb.old pdb.new }
        ensures kept { AreNamesOf pdb.new self.new }
        ensures frames { pdb.new.told ≡ true → (n : Named) → IsNamed other.entry n → IfOk result (λ fs. map shown_frame fs.items ≡ frames_in (names_in pdb.old.file) (global_id_in pdb.old.file code.now.code.now) n place code.now.code.now) }
        ensures refused { IfErr result (λ e. OnlyFails (MayFail pdb.old pdb.new) e) }
    {
        let strings = strings_asked(pdb, &mut self.strings)?;
        let mut frames = inlined_frames(
            alloc,
            pdb,
            &mut self.names,
            &mut self.crossings,
            code,
            strings,
            procedure,
            place,
        )?;
        let naming = outer_naming(alloc, code.code, procedure, other, place)?;
        push_outer(&mut frames, code.code, strings, naming, place)?;
        Ok(frames)
    }
}

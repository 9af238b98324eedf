//! The modules at places.

ghost use Rattle.std.specs.Prelude.{find, ◌≡◌, ◌+◌, ◌++◌, [], ◌∷◌, ◌≤◌, ◌<◌, ◌^◌, ℕ, true, false, length, map, List, IfOk, IfErr, IfSome, IsOk, IsSome, OnOk};
ghost use Rattle.std.specs.Option.{option_map};
ghost use Rattle.pdb.specs.DBISectionContribution.{DBISectionContribution};
ghost use Rattle.pdb.specs.DbiViews.{contributions_left, contributions_steps};
ghost use Rattle.pdb_places.specs.ModulePlaces.{contributions_known, contributes, none_listed, reaches, module_of, module_among, module_number_at, AreContributionsApart};
ghost use Rattle.pdb_places.specs.ModuleTable.{pieces_from, IsTableOf};
ghost use Rattle.pdb_places.specs.Pieces.{range_parts, AreRangesOf};

use crate::from_second::FromSecond;
use crate::range::{CodeRange, bytes_cover};
use crate::ranges::{Ranges, covers};
use pdb::{
    DBISectionContribution, DBISectionContributionIter, DebugInformation, Error, FallibleIterator,
    PdbInternalSectionOffset, Result, Steps,
};
use std::alloc::Global;
use std::marker::Model;

/// Whether a contribution has a place.
fn contributes(place: PdbInternalSectionOffset, contribution: &DBISectionContribution) -> bool
    ensures { result ≡ contributes place contribution.now }
{
    bytes_cover(place, contribution.offset, contribution.size)
}

/// The module of the first contribution that has a place, of those that an iterator has left. Each look at one takes a
/// step.
fn look_through(
    mut contributions: DBISectionContributionIter<'_>,
    place: PdbInternalSectionOffset,
    steps: &mut Steps,
) -> Option<usize>
    ensures found { result ≡ module_among place (contributions_left contributions.entry).items }
    ensures few { steps.new.count ≤ steps.old.count + length (contributions_left contributions.entry).items }
{
    loop {
        match contributions.next() {
            Ok(Some(contribution)) => {
                steps.tick();
                if contributes(place, &contribution) {
                    return Some(contribution.module);
                }
            }
            Ok(None) => return None,
            Err(_) => return None,
        }
    }
}

/// The first contribution that has a place, of those that an iterator has left.
fn first_having(
    mut contributions: DBISectionContributionIter<'_>,
    place: PdbInternalSectionOffset,
) -> Option<DBISectionContribution>
    ensures { result ≡ find (contributes place) (contributions_left contributions.entry).items }
{
    loop {
        match contributions.next() {
            Ok(Some(contribution)) => {
                if contributes(place, &contribution) {
                    return Some(contribution);
                }
            }
            Ok(None) => return None,
            Err(_) => return None,
        }
    }
}

/// Whether an iterator has none left.
fn has_none(mut contributions: DBISectionContributionIter<'_>) -> bool
    ensures { result ≡ none_listed (contributions_left contributions.entry).items }
{
    match contributions.next() {
        Ok(Some(_contribution)) => false,
        Ok(None) => true,
        Err(_) => true,
    }
}

/// Whether a DBI stream lists no contribution.
#[tactic(auto, unfolding(crate::specs::ModulePlaces::contributions_known))]
fn lists_none(information: &DebugInformation<'_>) -> bool
    ensures { result ≡ none_listed (contributions_known (Some information.now)) }
{
    match information.section_contributions() {
        Ok(contributions) => has_none(contributions),
        Err(_) => true,
    }
}

/// The first contribution that a DBI stream lists and that has a place.
#[tactic(auto, unfolding(crate::specs::ModulePlaces::contributions_known))]
fn first_listed(
    information: &DebugInformation<'_>,
    place: PdbInternalSectionOffset,
) -> Option<DBISectionContribution>
    ensures { result ≡ find (contributes place) (contributions_known (Some information.now)) }
{
    match information.section_contributions() {
        Ok(contributions) => first_having(contributions, place),
        Err(_) => None,
    }
}

/// Whether the contribution of a place has another place too, by the contributions as they are listed.
#[tactic(auto, unfolding(crate::specs::ModulePlaces::contributions_known))]
fn reaches_listed(
    information: Option<&DebugInformation<'_>>,
    from: PdbInternalSectionOffset,
    place: PdbInternalSectionOffset,
) -> bool
    ensures { result ≡ reaches from place (contributions_known (option_map (λ d. d.now) information.entry)) }
{
    match information {
        Some(information) => match first_listed(information, from) {
            Some(contribution) => contributes(place, &contribution),
            None => lists_none(information),
        },
        None => true,
    }
}

/// The module at a place, by the contributions as they are listed.
#[tactic(auto, unfolding(crate::specs::ModulePlaces::contributions_known))]
fn find_listed(
    information: Option<&DebugInformation<'_>>,
    place: PdbInternalSectionOffset,
    steps: &mut Steps,
) -> Option<usize>
    ensures found { result ≡ module_number_at place (option_map (λ d. d.now) information.entry) }
    ensures few { steps.new.count ≤ steps.old.count + length (contributions_known (option_map (λ d. d.now) information.entry)) }
{
    match information {
        Some(information) => match information.section_contributions() {
            Ok(contributions) => look_through(contributions, place, steps),
            Err(_) => None,
        },
        None => None,
    }
}

/// The ranges of contributions, each with its number among them, and the numbers of their modules.
#[derive(Drop)]
struct Rows {
    ranges: Vec<CodeRange>,
    modules: Vec<usize>,
}

/// One more contribution.
fn push(rows: &mut Rows, number: u32, contribution: &DBISectionContribution) -> Result<()>
    ensures ranges { OnOk result (map range_parts rows.new.ranges.items ≡ map range_parts rows.old.ranges.items ++ (number, (contribution.now.offset, contribution.now.size)) ∷ []) }
    ensures modules { OnOk result (rows.new.modules.items ≡ rows.old.modules.items ++ module_of contribution.now ∷ []) }
    ensures refused { IfErr result (λ e. e ≡ Error.OutOfMemory) }
{
    let range = CodeRange::new(contribution.offset, contribution.size, number);
    if rows.ranges.push(range).is_err() {
        return Err(Error::OutOfMemory);
    }
    if rows.modules.push(contribution.module).is_err() {
        return Err(Error::OutOfMemory);
    }
    Ok(())
}

/// The rows of the contributions that an iterator gives from its start on, up to its fault.
fn rows_of(alloc: Global, mut contributions: DBISectionContributionIter<'_>) -> Result<Rows>
    requires { contributions_steps contributions ≡ 0 }
    ensures ranges { IfOk result (λ rows. AreRangesOf (pieces_from 0 (contributions_left contributions.entry).items) rows.ranges.items) }
    ensures modules { IfOk result (λ rows. rows.modules.items ≡ map module_of (contributions_left contributions.entry).items) }
    ensures refused { IfErr result (λ e. e ≡ Error.OutOfMemory) }
{
    let mut rows = Rows {
        ranges: Vec::new(alloc),
        modules: Vec::new(alloc),
    };
    loop {
        match contributions.next() {
            Ok(Some(contribution)) => {
                let number = rows.ranges.len() as u32;
                push(&mut rows, number, &contribution)?;
            }
            Ok(None) => return Ok(rows),
            Err(_) => return Ok(rows),
        }
    }
}

/// The rows of a DBI stream's contributions.
#[tactic(auto, unfolding(crate::specs::ModulePlaces::contributions_known))]
fn rows_listed(alloc: Global, information: Option<&DebugInformation<'_>>) -> Result<Rows>
    ensures ranges { IfOk result (λ rows. AreRangesOf (pieces_from 0 (contributions_known (option_map (λ d. d.now) information.entry))) rows.ranges.items) }
    ensures modules { IfOk result (λ rows. rows.modules.items ≡ map module_of (contributions_known (option_map (λ d. d.now) information.entry))) }
    ensures refused { IfErr result (λ e. e ≡ Error.OutOfMemory) }
{
    if let Some(information) = information {
        if let Ok(contributions) = information.section_contributions() {
            return rows_of(alloc, contributions);
        }
    }
    Ok(Rows {
        ranges: Vec::new(alloc),
        modules: Vec::new(alloc),
    })
}

/// The contributions in the order of their places.
#[derive(Drop)]
struct ModuleTable {
    // The payload is the contribution's number.
    ranges: Ranges,
    // By the contributions' numbers.
    modules: Vec<usize>,
    // As they are listed.
    listed: Vec<CodeRange>,
}

/// The table of a DBI stream's contributions.
fn table_of(alloc: Global, information: Option<&DebugInformation<'_>>) -> Result<ModuleTable>
    ensures table { IfOk result (λ t. IsTableOf (contributions_known (option_map (λ d. d.now) information.entry)) t.ranges t.modules.items) }
    ensures listed { IfOk result (λ t. AreRangesOf (pieces_from 0 (contributions_known (option_map (λ d. d.now) information.entry))) t.listed.items) }
    ensures refused { IfErr result (λ e. e ≡ Error.OutOfMemory) }
{
    let rows = rows_listed(alloc, information)?;
    let ranges = Ranges::new(alloc, rows.ranges.as_slice())?;
    Ok(ModuleTable {
        ranges,
        modules: rows.modules,
        listed: rows.ranges,
    })
}

/// Whether the contribution of a place has another place too, by a table.
fn reaches_in(
    table: &ModuleTable,
    from: PdbInternalSectionOffset,
    place: PdbInternalSectionOffset,
) -> bool
    ensures { (cs : List DBISectionContribution) → IsTableOf cs table.now.ranges table.now.modules.items → AreRangesOf (pieces_from 0 cs) table.now.listed.items → result ≡ reaches from place cs }
{
    match table.ranges.find(from) {
        Some(number) => match table.listed.get(number as usize) {
            Some(range) => covers(*range, place),
            None => false,
        },
        None => table.listed.is_empty(),
    }
}

/// The module at a place, by a table.
fn find_in(table: &ModuleTable, place: PdbInternalSectionOffset, steps: &mut Steps) -> Option<usize>
    ensures found { (cs : List DBISectionContribution) → IsTableOf cs table.now.ranges table.now.modules.items → result ≡ module_among place cs }
    ensures halved { (cs : List DBISectionContribution) → IsTableOf cs table.now.ranges table.now.modules.items → AreContributionsApart cs → (digits : ℕ) → length cs < 2 ^ digits → steps.new.count ≤ steps.old.count + digits }
    ensures few { (cs : List DBISectionContribution) → IsTableOf cs table.now.ranges table.now.modules.items → steps.new.count ≤ steps.old.count + length cs }
{
    match table.ranges.find_counted(place, steps) {
        Some(number) => table.modules.get(number as usize).copied(),
        None => None,
    }
}

/// The place of the last question, and the module there.
#[derive(Clone, Copy)]
struct LastFound {
    place: PdbInternalSectionOffset,
    module: Option<usize>,
}

/// The contributions of an image's sections to their bytes, of which the module at a place is found. A contract sees it
/// as the DBI stream that lists them, if there is one, and whether it was asked for a place.
#[derive(Drop)]
pub struct ModulePlaces<'a> {
    information: Option<&'a DebugInformation<'a>>,
    table: FromSecond<ModuleTable>,
    last: Option<LastFound>,
}

impl<'a> Model for ModulePlaces<'a> {
    ghost use Rattle.std.specs.Option.{option_map};
    ghost use Rattle.pdb_places.specs.AskedStream.{AskedStream};
    ghost use Rattle.pdb_places.specs.FromSecond.{made_of, was_asked};
    ghost use Rattle.pdb_places.specs.ModulePlaces.{contributions_known};
    ghost use Rattle.pdb_places.specs.ModuleTable.{IsLastFound, IsTableIfMade};

    ghost Value = { AskedStream };

    ghost view = { λ m. record { stream = option_map (λ d. d.now) m.information; asked = was_asked m.table } };

    ghost invariant = { λ m. IsTableIfMade (contributions_known (option_map (λ d. d.now) m.information)) (made_of m.table) × IsLastFound (option_map (λ d. d.now) m.information) (was_asked m.table) m.last };
}

impl<'a> ModulePlaces<'a> {
    /// The contributions that a DBI stream lists; none without one. It takes no memory.
    pub fn new(information: Option<&'a DebugInformation<'a>>) -> Self
        ensures { result ≡ record { stream = option_map (λ d. d.now) information.entry; asked = false } }
    {
        ModulePlaces {
            information,
            table: FromSecond::new(),
            last: None,
        }
    }

    /// What the last question found, where it was for this place.
    fn last_found(&self, place: PdbInternalSectionOffset) -> Option<Option<usize>>
        ensures found { IfSome result (λ m. m ≡ module_number_at place self.now.stream) }
        ensures asked { IsSome result → self.now.asked ≡ true }
    {
        let last = self.last?;
        if last.place.section == place.section && last.place.offset == place.offset {
            return Some(last.module);
        }
        None
    }

    /// The module at a place, as `find`, with a step for each look at a contribution: never more than there are. From
    /// the second question on, and where the contributions don't overlap, there are at most as many as their number has
    /// binary digits; those to make the table aren't counted.
    pub fn find_counted(
        &mut self,
        alloc: Global,
        place: PdbInternalSectionOffset,
        steps: &mut Steps,
    ) -> Result<Option<usize>>
        ensures found { IfOk result (λ m. m ≡ module_number_at place self.old.stream) }
        ensures kept { self.new ≡ record { stream = self.old.stream; asked = true } }
        ensures refused { IfErr result (λ e. e ≡ Error.OutOfMemory) }
        ensures lean { self.old.asked ≡ false → IsOk result }
        ensures halved { self.old.asked ≡ true → AreContributionsApart (contributions_known self.old.stream) → (digits : ℕ) → length (contributions_known self.old.stream) < 2 ^ digits
            → steps.new.count ≤ steps.old.count + digits }
        ensures few { steps.new.count ≤ steps.old.count + length (contributions_known self.old.stream) }
    {
        if let Some(module) = self.last_found(place) {
            return Ok(module);
        }
        if self.table.ask() {
            self.table.keep(table_of(alloc, self.information)?);
        }
        match self.table.made() {
            Some(table) => {
                let module = find_in(table, place, steps);
                self.last = Some(LastFound { place, module });
                Ok(module)
            }
            None => {
                let module = find_listed(self.information, place, steps);
                self.last = Some(LastFound { place, module });
                Ok(module)
            }
        }
    }

    /// The number of the module at a place: that of the first listed contribution which has it, and none where none
    /// does, or where the contributions can't be read. The first call is one pass over the list, which takes no
    /// memory; at the second a table is made and kept, and later ones are looked up there. The same place once more is
    /// no further question. It fails with out of memory alone, and may then be called again.
    pub fn find(&mut self, alloc: Global, place: PdbInternalSectionOffset) -> Result<Option<usize>>
        ensures found { IfOk result (λ m. m ≡ module_number_at place self.old.stream) }
        ensures kept { self.new ≡ record { stream = self.old.stream; asked = true } }
        ensures refused { IfErr result (λ e. e ≡ Error.OutOfMemory) }
        ensures lean { self.old.asked ≡ false → IsOk result }
    {
        self.find_counted(alloc, place, &mut Steps::new())
    }
    /// Whether the contribution of a place has another place too: the first listed one that has the first place. It is
    /// true where no contribution is listed. It takes no memory.
    pub fn reaches(&self, from: PdbInternalSectionOffset, place: PdbInternalSectionOffset) -> bool
        ensures { result ≡ reaches from place (contributions_known self.now.stream) }
    {
        match self.table.made() {
            Some(table) => reaches_in(table, from, place),
            None => reaches_listed(self.information, from, place),
        }
    }
}

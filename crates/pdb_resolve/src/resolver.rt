//! What code stands at the addresses of a file.

ghost use Rattle.std.specs.Prelude.{◌≡◌, ◌++◌, false, map, option_copied, IfOk, IfErr, OnOk, OnErr, true};
ghost use Rattle.pdb.specs.Source.{Continues, MayFail};
ghost use Rattle.pdb.specs.Answers.{address_map_in, debug_information_in};
ghost use Rattle.pdb_places.specs.AsIfEmpty.{if_read, OnlyFails};
ghost use Rattle.pdb_resolve.specs.Frames.{displaced_frames, frames_text};
ghost use Rattle.pdb_resolve.specs.Resolved.{place_of_file, frames_of_file, module_of_place, variables_of_file};
ghost use Rattle.pdb_resolve.specs.KeptFrames.{shown_frame};
ghost use Rattle.pdb_variables.specs.VariableViews.{shown_variable};
ghost use Rattle.pdb_resolve.specs.WholeModules.{is_whole_at};

use crate::crossings::Crossings;
use crate::frames::{Frame, frame_nowhere, push_frame};
use crate::global_names::GlobalNames;
use crate::kept_file::KeptFile;
use crate::modules::modules_from;
use crate::name_tables::NameTables;
use crate::part::Part;
use crate::streams::Streams;
use crate::tables::Tables;
use crate::text::{put_displaced_frames, put_frames};
use pdb::{
    AddressMap, DebugInformation, Error, Meaning, ModuleInfo, PDB, PdbInternalSectionOffset,
    Result, Source,
};
use pdb_places::address_places::AddressPlaces;
use pdb_places::as_if_empty::if_read;
use pdb_places::module_places::ModulePlaces;
use pdb_variables::variables::VariableAt;
use std::alloc::Global;
use std::marker::Model;
use std::slice;

/// What code stands at the addresses of a file: which functions, inlined ones too, and which lines. What is read of the
/// file is kept: the list of modules and the address map from the start, all else from where it is first needed. Each
/// result is that of the file's bytes, whatever was asked before. A contract sees it as the state of its source.
pub struct Resolver<'a, 's, S: Meaning> {
    alloc: Global,
    pdb: PDB<'s, S>,
    places: AddressPlaces<'s>,
    kept: Box<KeptFile<'a, 's>>,
    // The text that is put down next; what it had before counts for nothing.
    text: Vec<u8>,
}

// By hand: what drops a resolver takes one step, and doesn't see what is kept.
impl<'a, 's, S: Meaning> Drop for Resolver<'a, 's, S> {
    fn drop(self) {
        let Resolver {
            alloc: _,
            pdb: _,
            places: _,
            kept: _,
            text: _,
        } = self;
    }
}

impl<'a, 's, S: Meaning> Model for Resolver<'a, 's, S> {
    ghost use Rattle.std.specs.Prelude.{◌≡◌, true};
    ghost use Rattle.pdb.specs.Source.{State};
    ghost use Rattle.pdb.specs.Answers.{address_map_in};
    ghost use Rattle.pdb_places.specs.AsIfEmpty.{if_read};
    ghost use Rattle.pdb_resolve.specs.KeptNames.{IsFileKept};

    ghost Value = { State };

    ghost view = { λ r. r.pdb };

    ghost invariant = { λ r. (r.pdb.told ≡ true → r.places ≡ if_read (address_map_in r.pdb.file)) × IsFileKept r.pdb r.kept.value };
}

/// The DBI stream; none where it can't be read.
fn information_of<'a, 's, S: Source<'s>>(
    pdb: &mut PDB<'s, S>,
    room: &'a mut Option<DebugInformation<'s>>,
) -> Result<Option<&'a DebugInformation<'s>>>
    ensures continues { Continues pdb.old pdb.new }
    ensures is { pdb.new.told ≡ true → IfOk result (λ o. option_copied o ≡ if_read (debug_information_in pdb.old.file)) }
    ensures refused { IfErr result (λ e. OnlyFails (MayFail pdb.old pdb.new) e) }
{
    Part::unasked(slice::from_mut(room)).keep(pdb.debug_information())
}

/// The address map; none where it has an error.
#[tactic(auto, using(crate::proofs::Asking::failed_on, crate::proofs::Asking::told))]
fn address_map_of<'s, S: Source<'s>>(pdb: &mut PDB<'s, S>) -> Result<Option<AddressMap<'s>>>
    ensures continues { Continues pdb.old pdb.new }
    ensures is { pdb.new.told ≡ true → IfOk result (λ o. o ≡ if_read (address_map_in pdb.old.file)) }
    ensures refused { IfErr result (λ e. OnlyFails (MayFail pdb.old pdb.new) e) }
{
    if_read(pdb.address_map())
}

impl<'a, 's, S: Source<'s>> Resolver<'a, 's, S> {
    /// Reads the address map and the list of modules of an opened file; a part that can't be read is as if it weren't
    /// there. `OutOfMemory`, and `IoError` where the source failed, are passed on. What `streams` held is dropped.
    pub fn new(alloc: Global, pdb: PDB<'s, S>, streams: &'a mut Streams<'s>) -> Result<Self>
        ensures continues { IfOk result (λ r. Continues pdb.entry r) }
        ensures refused { IfErr result (λ e. OnlyFails (pdb.entry.steady ≡ false) e) }
    {
        let mut pdb = pdb;
        let information = information_of(&mut pdb, &mut streams.information)?;
        let places = AddressPlaces::new(alloc, address_map_of(&mut pdb)?)?;
        let modules = modules_from(alloc, information, &mut streams.modules)?;
        let module_places = ModulePlaces::new(information);
        let tables = Tables {
            strings: Part::unasked(slice::from_mut(&mut streams.strings)),
            names: NameTables {
                ids: Part::unasked(slice::from_mut(&mut streams.ids)),
                types: Part::unasked(slice::from_mut(&mut streams.types)),
                made: None,
                information,
            },
            crossings: Crossings::new(alloc),
            globals: GlobalNames {
                globals: Part::unasked(slice::from_mut(&mut streams.globals)),
                publics: None,
            },
        };
        let kept = KeptFile {
            module_places,
            modules,
            tables,
        };
        Ok(Resolver {
            alloc,
            pdb,
            places,
            kept: Box::new(alloc, kept)?,
            text: Vec::new(alloc),
        })
    }

    /// The place of a relative virtual address, by the address map and the original sections; none where it has none.
    /// It takes no memory.
    pub fn place(&self, address: u32) -> Option<PdbInternalSectionOffset>
        ensures { self.now.told ≡ true → result ≡ place_of_file self.now.file address }
    {
        self.places.place(address)
    }

    /// The frames of a place, from the innermost outwards: the functions that were inlined there, and then the function
    /// itself; where none is known, one frame with the name of the public symbol before the place. Without a place it
    /// is one frame that says nothing. `OutOfMemory`, and `IoError` where the source failed, are passed on; the same
    /// call may then be made again.
    #[tactic(auto, unfolding(crate::specs::Resolved::frames_of_file))]
    pub fn frames(&mut self, place: Option<PdbInternalSectionOffset>) -> Result<Vec<Frame<'a>>>
        ensures continues { Continues self.old self.new }
        ensures frames { self.new.told ≡ true → IfOk result (λ fs. map shown_frame fs.items ≡ frames_of_file self.old.file place) }
        ensures refused { IfErr result (λ e. OnlyFails (MayFail self.old self.new) e) }
    {
        match place {
            Some(place) => self.kept.frames(self.alloc, &mut self.pdb, place),
            None => {
                let mut frames = Vec::new(self.alloc);
                push_frame(&mut frames, frame_nowhere())?;
                Ok(frames)
            }
        }
    }

    /// Puts the text of the frames of a place behind what is there: of each frame the function's name on a line, and
    /// the file, the line and the column on the next, with `:` between them; then an empty line. It fails as
    /// `frames` is; then `out` has what it had.
    pub fn put_text(
        &mut self,
        out: &mut Vec<u8>,
        place: Option<PdbInternalSectionOffset>,
    ) -> Result<()>
        ensures continues { Continues self.old self.new }
        ensures text { self.new.told ≡ true → OnOk result (out.new.items ≡ out.old.items ++ frames_text (frames_of_file self.old.file place)) }
        ensures unchanged { OnErr result (out.new.items ≡ out.old.items) }
        ensures refused { IfErr result (λ e. OnlyFails (MayFail self.old self.new) e) }
    {
        let frames = self.frames(place)?;
        self.text.clear();
        put_frames(&mut self.text, frames.as_slice())?;
        out.extend_from_slice(self.text.as_slice())?;
        Ok(())
    }

    /// The same as `put_text`, where the name of the function itself, or of the public symbol, has behind it `+0x` and
    /// how far the place is behind what has the name, in hex digits, unless it is there.
    pub fn put_displaced_text(
        &mut self,
        out: &mut Vec<u8>,
        place: Option<PdbInternalSectionOffset>,
    ) -> Result<()>
        ensures continues { Continues self.old self.new }
        ensures text { self.new.told ≡ true → OnOk result (out.new.items ≡ out.old.items ++ displaced_frames (frames_of_file self.old.file place)) }
        ensures unchanged { OnErr result (out.new.items ≡ out.old.items) }
        ensures refused { IfErr result (λ e. OnlyFails (MayFail self.old self.new) e) }
    {
        let frames = self.frames(place)?;
        self.text.clear();
        put_displaced_frames(&mut self.text, frames.as_slice())?;
        out.extend_from_slice(self.text.as_slice())?;
        Ok(())
    }

    /// The variables that are in scope at a place, in the order of their records: those of the function there and of
    /// the calls that are inlined there. Without a place there are none. `OutOfMemory`, and `IoError` where the source
    /// failed, are passed on; the same call may then be made again.
    pub fn variables(
        &mut self,
        place: Option<PdbInternalSectionOffset>,
    ) -> Result<Vec<VariableAt<'a>>>
        ensures continues { Continues self.old self.new }
        ensures variables { self.new.told ≡ true → IfOk result (λ vs. map shown_variable vs.items ≡ variables_of_file self.old.file place) }
        ensures refused { IfErr result (λ e. OnlyFails (MayFail self.old self.new) e) }
    {
        match place {
            Some(place) => self.kept.variables(self.alloc, &mut self.pdb, place),
            None => Ok(Vec::new(self.alloc)),
        }
    }

    /// The stream of the module from which the bytes at a place come; none where no module is there, or where its
    /// stream can't be read. It fails as `variables` does.
    pub fn module_info_at(
        &mut self,
        place: PdbInternalSectionOffset,
    ) -> Result<Option<&'a ModuleInfo<'a>>>
        ensures continues { Continues self.old self.new }
        ensures found { self.new.told ≡ true → IfOk result (λ m. option_copied m ≡ module_of_place self.old.file place) }
        ensures refused { IfErr result (λ e. OnlyFails (MayFail self.old self.new) e) }
    {
        self.kept.module_info_at(self.alloc, &mut self.pdb, place)
    }

    /// Whether what a resolver reads of the module from which the bytes at a place come has no error: its stream, its
    /// symbols, its lines and its inlined functions. So it is where no module is there, or one without a stream. It
    /// fails as `variables` does.
    pub fn is_whole_at(&mut self, place: PdbInternalSectionOffset) -> Result<bool>
        ensures continues { Continues self.old self.new }
        ensures whole { self.new.told ≡ true → IfOk result (λ b. b ≡ is_whole_at self.old.file place) }
        ensures refused { IfErr result (λ e. OnlyFails (MayFail self.old self.new) e) }
    {
        self.kept.is_whole_at(self.alloc, &mut self.pdb, place)
    }

    /// The DBI stream; none where it can't be read.
    pub fn information_read(&self) -> Option<&'a DebugInformation<'a>>
        ensures { self.now.told ≡ true → option_copied result ≡ if_read (debug_information_in self.now.file) }
    {
        self.kept.tables.names.information
    }
}

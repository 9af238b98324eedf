//! An opened index, and look-ups in it.

ghost use Rattle.std.specs.Prelude.{◌≡◌, ◌+◌, ◌*◌, ◌^◌, ◌<◌, ◌≤◌, length, true};
ghost use Rattle.std.specs.Option.{is_none};
ghost use Rattle.pdb_index.specs.IndexHeader.{error_of};
ghost use Rattle.pdb_index.specs.IndexLayout.{end_of, has_narrow_fields, HasNarrowFields, HasOtherTables, HasRows, HasWordTables, IsInside, layout_of};

use crate::depths::are_shallow;
use crate::error::{Damaged, OpenError};
use crate::frames::Frames;
use crate::header::{Header, read_header};
use crate::layout::{Layout, read_layout};
use crate::named::names_what_is_there;
use crate::rising::is_rising;
use crate::runs::{Run, run_at};
use crate::segments::{Place, find_place};
use pdb_base::Steps;
use pdb_base::little_endian::u32_at;
use std::alloc::{AllocError, Global};

/// An index of a PDB file. It borrows the index's bytes, and is cheap to copy. All look-ups are methods of it:
///
/// ```text
/// let index = Index::open(&bytes)?;
/// for frame in index.frames(0x1010)? {
///     let frame = frame?;
///     // frame.name, frame.file, frame.line
/// }
/// ```
#[derive(Clone, Copy, Debug)]
pub struct Index<'a> {
    pub(crate) bytes: &'a [u8],
    pub(crate) layout: Layout,
    ghost laid_out: { layout ≡ layout_of bytes.now },
    ghost words: { HasWordTables layout },
    ghost others: { HasOtherTables layout },
    ghost rows: { HasRows layout },
    ghost narrow: { HasNarrowFields layout },
    ghost inside: { IsInside layout (length bytes.now) },
    ghost header: { 96 ≤ length bytes.now },
    ghost opens: { is_none (error_of bytes.now) ≡ true },
}

/// Whether each field has at most four bytes, and steps are shifted by less than 32 bits.
fn has_narrow(layout: Layout) -> bool
    ensures { result ≡ has_narrow_fields layout }
{
    let fields = layout.fields;
    layout.values.width <= 4
        && fields.outer <= 4
        && fields.function <= 4
        && fields.file <= 4
        && fields.line <= 4
        && fields.column <= 4
        && layout.shift <= 31
}

impl<'a> Index<'a> {
    ghost use Rattle.std.specs.Prelude.{◌↔◌, IfOk, IsTrue};
    ghost use Rattle.pdb_index.specs.IndexHeader.{header_of};
    ghost use Rattle.pdb_index.specs.WellMade.{IsWellMade};
    ghost use Rattle.pdb_index.specs.IndexViews.{damage_of, frames_damage, frames_left, frames_of, GivesFrames, GivesPlace, GivesRun, GivesRunAt, index_bytes, Opens};

    /// Opens the bytes of an index, in a constant number of steps: only the header is read. Its errors, in this order:
    /// `NotAnIndex` for fewer than 96 bytes or another front than `pdbindex`, `Version` for another version than 1, and
    /// `Length` if a field has more than four bytes, or if the tables do not end where the bytes end. The tables may still
    /// contradict each other (`Damaged`).
    pub fn open(bytes: &'a [u8]) -> Result<Self, OpenError>
        ensures { Opens bytes.entry.now result }
    {
        if bytes.len() < 96 || !bytes.starts_with(b"pdbindex") {
            return Err(OpenError::NotAnIndex);
        }
        if u32_at(bytes, 8) != 1 {
            return Err(OpenError::Version);
        }
        let layout = read_layout(bytes);
        if !has_narrow(layout) || layout.names.end() != bytes.len() {
            return Err(OpenError::Length);
        }
        Ok(Index { bytes, layout })
    }

    /// What the header says: the key and the machine of the PDB file, and how large the tables are.
    pub fn header(&self) -> Header
        ensures { result ≡ header_of (index_bytes self.now) }
    {
        read_header(self.bytes)
    }

    /// Whether the tables agree with each other, as the writer makes them: segments, sections and runs rise, all that is named
    /// is there, and no stack has more frames than the header says. Then no look-up fails. It reads each row once, and takes
    /// memory once, four bytes a node.
    pub fn is_well_made(&self, alloc: Global) -> Result<bool, AllocError>
        ensures { IfOk result (λ r. IsTrue r ↔ IsWellMade (index_bytes self.now)) }
    {
        if !names_what_is_there(self) || !is_rising(self) {
            return Ok(false);
        }
        are_shallow(alloc, self)
    }

    /// The section and offset of an address relative to the image's base, or `None` if no code stands there. If the segments
    /// of the index rise, they are those of the last segment that begins at or before the address. It fails with `Damaged`
    /// if the first segment begins behind the address, or if the segment's section is above 65535.
    pub fn place(&self, address: u32) -> Result<Option<Place>, Damaged>
        ensures { GivesPlace (index_bytes self.now) address result }
    {
        find_place(self, address, &mut Steps::new()).ok_or(Damaged)
    }

    /// The run at a place, or `None` if nothing is known of the section's code. If sections and starts rise, it is the last
    /// run of the section that begins at or before the place. It fails with `Damaged` if the section's runs are not among
    /// the runs of the index, or if the first of them begins behind the place.
    pub fn run_at(&self, place: Place) -> Result<Option<Run>, Damaged>
        ensures { GivesRunAt (index_bytes self.now) place result }
    {
        run_at(self, place, &mut Steps::new()).ok_or(Damaged)
    }

    /// The run of an address: the run at its place, or `None` if it has no place or nothing is known of its code. Two
    /// addresses of one run have the same frames. It fails with `Damaged` where `place` or `run_at` does.
    pub fn run(&self, address: u32) -> Result<Option<Run>, Damaged>
        ensures { GivesRun (index_bytes self.now) address result }
    {
        self.run_counted(address, &mut Steps::new())
    }

    /// The run of an address, as `run` gives it. It counts each row of segments, sections and runs that it looks at: 129 at
    /// most, whatever the bytes are.
    pub fn run_counted(&self, address: u32, looks: &mut Steps) -> Result<Option<Run>, Damaged>
        ensures run { GivesRun (index_bytes self.now) address result }
        ensures few { looks.new.count ≤ looks.old.count + 129 }
    {
        match find_place(self, address, looks).ok_or(Damaged)? {
            Some(place) => run_at(self, place, looks).ok_or(Damaged),
            None => Ok(None),
        }
    }

    /// The frames of a run, the innermost first; of no run, one frame of which nothing is known.
    pub fn frames_of(&self, run: Option<Run>) -> Frames<'a>
        ensures frames { frames_left result ≡ frames_of (index_bytes self.now) run }
        ensures damage { frames_damage result ≡ damage_of run }
    {
        match run {
            None => Frames::unknown(*self),
            Some(run) => Frames::from_run(*self, run),
        }
    }

    /// The frames of an address relative to the image's base, the innermost first. There is one item at least: of code of
    /// which nothing is known it is a frame with neither name nor file. The call fails with `Damaged` where `run` does. An
    /// item is `Damaged`, and is the last one, if its node, function, file or name is not in the index, or if there are more
    /// frames than the header says: at most `header().deepest` frames of a run come.
    pub fn frames(&self, address: u32) -> Result<Frames<'a>, Damaged>
        ensures { GivesFrames (index_bytes self.now) address result }
    {
        let run = self.run(address)?;
        Ok(self.frames_of(run))
    }
}

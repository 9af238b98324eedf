//! The sites of a module as they are kept, each with the offsets that its lines cover.

ghost use Rattle.std.specs.Prelude.{◌≡◌, ℕ, ◌+◌, ◌<◌, ◌^◌, Option, None, true, false, min, max, map, slice_set, vec_len, IsTrue};
ghost use Rattle.std.specs.List.{All};
ghost use Rattle.pdb.specs.PdbInternalSectionOffset.{PdbInternalSectionOffset};
ghost use Rattle.pdb.specs.AnnotationViews.{annotation_bytes};
ghost use Rattle.pdb.specs.Forms.{record_at};
ghost use Rattle.pdb.specs.Inlined.{lines_of_site};
ghost use Rattle.pdb.specs.Inlinees.{InlineeEntry, inlinee_with};
ghost use Rattle.pdb.specs.InlinedViews.{inlined_left};
ghost use Rattle.pdb.specs.LineCover.{line_covers};
ghost use Rattle.pdb.specs.Views.{symbol_of};
ghost use Rattle.pdb_code.specs.ModuleCode.{role, call_of_role};
ghost use Rattle.pdb_code.specs.Listed.{outside, HasNoneOutside, entry_of, Bounds, IsBounded, AreBounded};

use crate::procedures::ListedProcedure;
use crate::role::{Role, role_of};
use pdb::{
    FallibleIterator, InlineSiteSymbol, InlineeFinder, InlineeLineIterator, LineInfo,
    PdbInternalSectionOffset, Symbol, SymbolIndex,
};
use std::alloc::Global;

/// The offsets from the first one to the last one; none where the first is behind the last.
#[derive(Clone, Copy)]
pub(crate) struct Extent {
    first: u32,
    last: u32,
}

impl Extent {
    /// All offsets.
    fn all() -> Self
        ensures first { result.first ≡ 0 }
        ensures last { result.last ≡ 4294967295 }
    {
        Extent {
            first: 0,
            last: u32::MAX,
        }
    }

    /// No offset.
    fn none() -> Self
        ensures first { result.first ≡ 4294967295 }
        ensures last { result.last ≡ 0 }
    {
        Extent {
            first: u32::MAX,
            last: 0,
        }
    }

    /// These offsets and so many from one on, and what lies between; the one behind them counts too.
    fn with(self, from: u32, length: u32) -> Self
        ensures first { result.first ≡ min self.first from }
        ensures last { result.last ≡ max self.last (min (from + length) 4294967295) }
    {
        Extent {
            first: self.first.min(from),
            last: self.last.max(from.saturating_add(length)),
        }
    }

    /// These offsets and those that a line record covers.
    fn with_line(self, line: &LineInfo) -> Self
        ensures before { (q : PdbInternalSectionOffset) → q.offset < 2 ^ 32 → outside q result ≡ true → outside q self ≡ true }
        ensures line { (q : PdbInternalSectionOffset) → q.offset < 2 ^ 32 → outside q result ≡ true → line_covers q line.now ≡ false }
    {
        match line.length {
            Some(length) => self.with(line.offset.offset, length),
            None => self,
        }
    }

    /// Whether a place's offset is none of these.
    #[inline]
    fn lacks(self, place: PdbInternalSectionOffset) -> bool
        ensures lacks { result ≡ outside place self }
        // A number of a place that was passed has its type's range.
        ensures fits { place.offset < 2 ^ 32 }
    {
        place.offset < self.first || self.last < place.offset
    }
}

/// The offsets that line records cover.
#[inline(never)]
fn extent_of(mut lines: InlineeLineIterator<'_>) -> Extent
    ensures { HasNoneOutside (inlined_left lines.entry).items result }
{
    let mut extent = Extent::none();
    loop {
        match lines.next() {
            Ok(Some(line)) => extent = extent.with_line(&line),
            Ok(None) => return extent,
            Err(_) => return extent,
        }
    }
}

/// The offsets that the lines of a site cover, in a procedure that begins at `parent`.
fn site_extent<'a>(
    known: &InlineeFinder<'a>,
    parent: PdbInternalSectionOffset,
    site: &InlineSiteSymbol<'a>,
) -> Extent
    ensures { HasNoneOutside (lines_of_site parent (annotation_bytes site.now.annotations) (inlinee_with known.now site.now.inlinee.0)).items result }
{
    match known.find(site.inlinee) {
        Some(inlinee) => extent_of(inlinee.lines(parent, site)),
        None => Extent::none(),
    }
}

/// A site, with the offsets that its lines cover in the procedure that begins at `parent`.
#[derive(Clone, Copy)]
pub struct KeptSite<'a> {
    symbol: Symbol<'a>,
    parent: PdbInternalSectionOffset,
    extent: Extent,
}

impl<'a> KeptSite<'a> {
    /// A site of which it isn't known what its lines cover.
    pub(crate) fn new(symbol: &Symbol<'a>) -> Self
        ensures symbol { entry_of result ≡ symbol_of symbol.now }
        ensures bounded { IsBounded result }
    {
        KeptSite {
            symbol: *symbol,
            parent: PdbInternalSectionOffset::new(0, 0),
            extent: Extent::all(),
        }
    }

    /// The site's symbol.
    pub(crate) fn symbol(&self) -> &Symbol<'a>
        ensures { symbol_of result.now ≡ entry_of self.now }
    {
        &self.symbol
    }

    /// The index of the site's symbol.
    pub(crate) fn index(&self) -> SymbolIndex
        ensures { result.0 ≡ (entry_of self.now).index }
    {
        self.symbol.index()
    }

    // Whether it is known what it covers in the procedure that begins at `parent`.
    fn is_in(&self, parent: PdbInternalSectionOffset) -> bool
        ensures { IsTrue result → self.now.parent ≡ parent }
    {
        self.parent.section == parent.section && self.parent.offset == parent.offset
    }

    /// Whether it is known that it has no call at a place, in the procedure that begins at `parent`.
    pub(crate) fn is_known_apart(
        &self,
        parent: PdbInternalSectionOffset,
        place: PdbInternalSectionOffset,
    ) -> bool
        ensures { (listed : ℕ → Option InlineeEntry) → Bounds listed self.now → IsTrue result → call_of_role place listed parent (role (record_at (entry_of self.now).bytes)) ≡ None }
    {
        self.is_in(parent) && self.extent.lacks(place)
    }

    // The site with what it covers in the procedure that begins at `parent`.
    fn measured(
        self,
        alloc: Global,
        known: &InlineeFinder<'a>,
        parent: PdbInternalSectionOffset,
    ) -> Self
        ensures symbol { entry_of result ≡ entry_of self.entry }
        ensures bounds { Bounds (inlinee_with known.now) result }
    {
        let extent = match role_of(alloc, &self.symbol) {
            Ok(Role::Site(site)) => site_extent(known, parent, &site),
            _ => Extent::all(),
        };
        KeptSite {
            symbol: self.symbol,
            parent,
            extent,
        }
    }
}

/// Puts a site into a place of a list.
fn set<'a>(sites: &mut Vec<KeptSite<'a>>, at: usize, site: KeptSite<'a>)
    requires { at < vec_len sites.old }
    ensures { sites.new.items ≡ slice_set sites.old.items at site.entry }
{
    sites[at] = site;
}

/// Finds what the sites of a procedure cover, of which the first has a place in the list, unless it is known.
pub fn measure<'a>(
    alloc: Global,
    known: &InlineeFinder<'a>,
    sites: &mut Vec<KeptSite<'a>>,
    from: usize,
    procedure: ListedProcedure,
)
    requires { AreBounded (inlinee_with known.now) sites.old.items }
    ensures same { map entry_of sites.new.items ≡ map entry_of sites.old.items }
    ensures bounded { AreBounded (inlinee_with known.now) sites.new.items }
{
    for i in from..sites.len() {
        let site = sites[i];
        if site.index().0 >= procedure.end || site.is_in(procedure.place) {
            return;
        }
        set(sites, i, site.measured(alloc, known, procedure.place));
    }
}

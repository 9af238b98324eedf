//! The inlined calls of a procedure that cover a place.

ghost use Rattle.std.specs.Prelude.{◌≡◌, ◌++◌, [], ◌∷◌, map, IfOk, IfErr, OnOk};
ghost use Rattle.std.specs.Option.{is_some, option_map, option_to_list};
ghost use Rattle.pdb.specs.AnnotationViews.{annotation_bytes};
ghost use Rattle.pdb.specs.Views.{symbol_of};
ghost use Rattle.pdb.specs.Forms.{record_at};
ghost use Rattle.pdb_code.specs.ModuleCode.{first_line, role, call_of, call_of_role};
ghost use Rattle.pdb.specs.Inlined.{lines_of_site};
ghost use Rattle.pdb.specs.Inlinees.{inlinee_with};
ghost use Rattle.pdb_code.specs.Kept.{shown_call, calls_until, AreRising, IsBehind};
ghost use Rattle.pdb_code.specs.Listed.{AreBounded, Bounds, entry_of};

use crate::lines::first_inlined_line;
use crate::procedures::ListedProcedure;
use crate::role::{Role, role_of};
use crate::site::KeptSite;
use pdb::{
    Error, IdIndex, InlineSiteSymbol, InlineeFinder, LineInfo, PdbInternalSectionOffset, Result,
    Symbol,
};
use std::alloc::Global;

/// A function that was inlined at a place: its id, and the line record of its code there.
#[derive(Drop)]
pub struct InlinedCall {
    /// The id of the function.
    pub id: IdIndex,
    /// The first record of the site that covers the place.
    pub line: LineInfo,
}

/// The first record of a site that covers a place, in a procedure that begins at `parent`.
fn site_line<'a>(
    known: &InlineeFinder<'a>,
    place: PdbInternalSectionOffset,
    parent: PdbInternalSectionOffset,
    site: &InlineSiteSymbol<'a>,
) -> Option<LineInfo>
    ensures { result ≡ first_line place (lines_of_site parent (annotation_bytes site.now.annotations) (inlinee_with known.now site.now.inlinee.0)).items }
{
    match known.find(site.inlinee) {
        Some(inlinee) => first_inlined_line(inlinee.lines(parent, site), place),
        None => None,
    }
}

/// Whether a site has a record that covers a place, in a procedure that begins at `parent`.
pub fn has_line<'a>(
    known: &InlineeFinder<'a>,
    place: PdbInternalSectionOffset,
    parent: PdbInternalSectionOffset,
    site: &InlineSiteSymbol<'a>,
) -> bool
    ensures { result ≡ is_some (first_line place (lines_of_site parent (annotation_bytes site.now.annotations) (inlinee_with known.now site.now.inlinee.0)).items) }
{
    site_line(known, place, parent, site).is_some()
}

/// How many calls there is capacity for once the first comes: few procedures have more at one place.
const USUAL_CALLS: usize = 16;

/// One more call.
fn push(calls: &mut Vec<InlinedCall>, id: IdIndex, line: LineInfo) -> Result<()>
    ensures pushed { OnOk result (map shown_call calls.new.items ≡ map shown_call calls.old.items ++ call_of id.0 line ∷ []) }
    ensures refused { IfErr result (λ e. e ≡ Error.OutOfMemory) }
{
    if calls.is_empty() {
        if calls.reserve(USUAL_CALLS).is_err() {
            return Err(Error::OutOfMemory);
        }
    }
    match calls.push(InlinedCall { id, line }) {
        Ok(()) => Ok(()),
        Err(_) => Err(Error::OutOfMemory),
    }
}

/// The call of one more symbol, if it has one that covers the place.
fn add<'a>(
    alloc: Global,
    calls: &mut Vec<InlinedCall>,
    known: &InlineeFinder<'a>,
    place: PdbInternalSectionOffset,
    parent: PdbInternalSectionOffset,
    symbol: &Symbol<'a>,
) -> Result<()>
    ensures added { OnOk result (map shown_call calls.new.items ≡ map shown_call calls.old.items ++ option_to_list (call_of_role place (inlinee_with known.now) parent (role (record_at (symbol_of symbol.now).bytes)))) }
    ensures refused { IfErr result (λ e. e ≡ Error.OutOfMemory) }
{
    match role_of(alloc, symbol) {
        Ok(Role::Site(site)) => match site_line(known, place, parent, &site) {
            Some(line) => push(calls, site.inlinee, line),
            None => Ok(()),
        },
        Ok(_) => Ok(()),
        Err(_) => Err(Error::OutOfMemory),
    }
}

/// The call of one more site, if it has one that covers the place.
fn add_site<'a>(
    alloc: Global,
    calls: &mut Vec<InlinedCall>,
    known: &InlineeFinder<'a>,
    place: PdbInternalSectionOffset,
    parent: PdbInternalSectionOffset,
    site: &KeptSite<'a>,
) -> Result<()>
    requires { Bounds (inlinee_with known.now) site.now }
    ensures added { OnOk result (map shown_call calls.new.items ≡ map shown_call calls.old.items ++ option_to_list (call_of_role place (inlinee_with known.now) parent (role (record_at (entry_of site.now).bytes)))) }
    ensures refused { IfErr result (λ e. e ≡ Error.OutOfMemory) }
{
    if site.is_known_apart(parent, place) {
        return Ok(());
    }
    add(alloc, calls, known, place, parent, site.symbol())
}

/// How many of a module's sites stand at or before an index.
pub fn count_upto(sites: &[KeptSite<'_>], index: u32) -> usize
    requires { AreRising sites.now }
    ensures { IsBehind index sites.now result }
{
    sites.partition_point(|site| site.index().0 <= index)
}

/// The calls of a procedure, of the sites behind it.
pub fn calls_of<'a>(
    alloc: Global,
    known: &InlineeFinder<'a>,
    sites: &[KeptSite<'a>],
    place: PdbInternalSectionOffset,
    procedure: ListedProcedure,
) -> Result<Vec<InlinedCall>>
    requires { AreBounded (inlinee_with known.now) sites.now }
    ensures calls { IfOk result (λ calls. map shown_call calls.items ≡ calls_until place (inlinee_with known.now) procedure.place procedure.end (map entry_of sites.now)) }
    ensures refused { IfErr result (λ e. e ≡ Error.OutOfMemory) }
{
    let mut calls = Vec::new(alloc);
    for site in sites {
        if site.index().0 >= procedure.end {
            return Ok(calls);
        }
        add_site(alloc, &mut calls, known, place, procedure.place, site)?;
    }
    Ok(calls)
}

//! The lines of public symbols that `find` finds.

ghost use Rattle.std.specs.Prelude.{◌≡◌, ◌++◌, false, None, codes, is_some, OnOk};
ghost use Rattle.pdb_names.specs.Spelling.{spelled, text_of};
ghost use Rattle.tool_search.specs.FindTexts.{found_in, public_line, public_name};

use crate::finder::Finder;
use pdb::PdbInternalSectionOffset;
use pdb_names::put_name;
use std::alloc::AllocError;

/// The line of a public symbol that was found. `spells` has the name that its name spells.
fn put_public_found(
    out: &mut Vec<u8>,
    finder: &Finder<'_, '_>,
    place: PdbInternalSectionOffset,
    name: &[u8],
    spells: &mut Vec<u8>,
) -> Result<(), AllocError>
    ensures { OnOk result (out.new.items ≡ out.old.items ++ found_in finder.now.format (codes "public") finder.now.addresses place None (public_name name.now spells.old.items)) }
{
    if spells.as_slice() == name {
        return finder.put_found(out, b"public", place, None, name);
    }
    spells.extend_from_slice(b" (")?;
    spells.extend_from_slice(name)?;
    spells.extend_from_slice(b")")?;
    finder.put_found(out, b"public", place, None, spells)
}

/// The line of a public symbol whose name may spell another one, where one of the two is asked for.
#[inline(never)]
#[tactic(auto, unfolding(crate::specs::FindTexts::public_line), using(crate::proofs::PublicNames::as_it_is))]
fn put_decorated(
    out: &mut Vec<u8>,
    finder: &Finder<'_, '_>,
    x86: bool,
    place: PdbInternalSectionOffset,
    name: &[u8],
    spells: &mut Vec<u8>,
) -> Result<(), AllocError>
    ensures { OnOk result (out.new.items ≡ out.old.items ++ public_line finder.now place name.now (text_of name.now (spelled name.now x86))) }
{
    spells.clear();
    if !put_name(spells, name, x86)? {
        return finder.put_if_asked(out, b"public", place, None, name);
    }
    if finder.is_asked(spells) || finder.is_asked(name) {
        put_public_found(out, finder, place, name, spells)
    } else {
        Ok(())
    }
}

/// Whether a name may spell another one: but on x86 each that does begins with an underscore or a question mark.
#[inline(always)]
#[tactic(auto, unfolding(pdb_names::specs::Spelling::spelled, pdb_names::specs::Spelling::prefixed, pdb_names::specs::Spelling::ruled))]
fn may_spell(name: &[u8], x86: bool) -> bool
    ensures { result ≡ false → is_some (spelled name.now x86) ≡ false }
{
    x86 || name.starts_with(b"_") || name.starts_with(b"?")
}

/// The line of a public symbol, where one of its names is asked for. Most names are copied nowhere but to their lines.
#[inline(always)]
#[tactic(auto, using(crate::proofs::PublicNames::as_it_is))]
pub fn put_public(
    out: &mut Vec<u8>,
    finder: &Finder<'_, '_>,
    x86: bool,
    place: PdbInternalSectionOffset,
    name: &[u8],
    spells: &mut Vec<u8>,
) -> Result<(), AllocError>
    ensures { OnOk result (out.new.items ≡ out.old.items ++ public_line finder.now place name.now (text_of name.now (spelled name.now x86))) }
{
    if may_spell(name, x86) {
        put_decorated(out, finder, x86, place, name, spells)
    } else {
        finder.put_if_asked(out, b"public", place, None, name)
    }
}

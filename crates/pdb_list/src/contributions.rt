//! The lines of section contributions.

ghost use Rattle.std.specs.Prelude.{◌≡◌, ◌++◌, true, OnOk, codes};
ghost use Rattle.pdb.specs.Source.{Continues};
ghost use Rattle.pdb.specs.DbiViews.{contributions_left};
ghost use Rattle.pdb_text.specs.Digits.{hex};
ghost use Rattle.pdb_list.specs.Unfailed.{Unfailed};
ghost use Rattle.pdb_list.specs.Texts.{contribution_list_text, contributed_text, contribution_text, contributions_text, offset_text};

use crate::text::{put_error, put_refusal};
use pdb::{
    DBISectionContribution, DBISectionContributionIter, FallibleIterator, PDB,
    PdbInternalSectionOffset, Source,
};
use pdb_text::{hex4, hex8, put_decimal};
use std::alloc::AllocError;

/// `contribution`, a section, `:` and an offset, each word with a space behind it.
#[inline(always)]
#[tactic(auto, unfolding(pdb_text::specs::Digits::hex))]
fn head(offset: PdbInternalSectionOffset) -> [u8; 27]
    ensures { result ≡ codes "contribution " ++ offset_text offset ++ codes " " }
{
    let s = hex4(offset.section);
    let o = hex8(offset.offset);
    [
        b'c', b'o', b'n', b't', b'r', b'i', b'b', b'u', b't', b'i', b'o', b'n', b' ', s[0], s[1],
        s[2], s[3], b':', o[0], o[1], o[2], o[3], o[4], o[5], o[6], o[7], b' ',
    ]
}

/// Eight hex digits between two spaces.
#[inline(always)]
#[tactic(auto, unfolding(pdb_text::specs::Digits::hex))]
fn between_spaces(n: u32) -> [u8; 10]
    ensures { result ≡ codes " " ++ hex 8 n ++ codes " " }
{
    let h = hex8(n);
    [b' ', h[0], h[1], h[2], h[3], h[4], h[5], h[6], h[7], b' ']
}

/// Two numbers of eight hex digits, a space before each, and the end of the line.
#[inline(always)]
#[tactic(auto, unfolding(pdb_text::specs::Digits::hex))]
fn tail(m: u32, n: u32) -> [u8; 19]
    ensures { result ≡ codes " " ++ hex 8 m ++ codes " " ++ hex 8 n ++ codes "\n" }
{
    let g = hex8(m);
    let h = hex8(n);
    [
        b' ', g[0], g[1], g[2], g[3], g[4], g[5], g[6], g[7], b' ', h[0], h[1], h[2], h[3], h[4],
        h[5], h[6], h[7], b'\n',
    ]
}

/// What the file says of a contribution's bytes, and the end of the line.
#[inline(always)]
#[tactic(auto, unfolding(crate::specs::Texts::contributed_text))]
fn put_contributed(
    out: &mut Vec<u8>,
    contribution: &DBISectionContribution,
) -> Result<(), AllocError>
    ensures { OnOk result (out.new.items ≡ out.old.items ++ contributed_text contribution.now ++ codes "\n") }
{
    put_decimal(out, u64::from(contribution.size))?;
    out.extend_from_slice(&between_spaces(contribution.characteristics.0))?;
    put_decimal(out, contribution.module as u64)?;
    out.extend_from_slice(&tail(contribution.data_crc, contribution.reloc_crc))?;
    Ok(())
}

/// The line of a contribution.
#[tactic(auto, unfolding(crate::specs::Texts::contribution_text))]
fn put_contribution(
    out: &mut Vec<u8>,
    contribution: &DBISectionContribution,
) -> Result<(), AllocError>
    ensures { OnOk result (out.new.items ≡ out.old.items ++ contribution_text contribution.now) }
{
    out.extend_from_slice(&head(contribution.offset))?;
    put_contributed(out, contribution)
}

/// The lines of the contributions that an iterator has left, and then that of its fault.
fn put_list(
    out: &mut Vec<u8>,
    mut contributions: DBISectionContributionIter<'_>,
) -> Result<(), AllocError>
    ensures { OnOk result (out.new.items ≡ out.old.items ++ contribution_list_text (contributions_left contributions.entry)) }
{
    loop {
        match contributions.next() {
            Ok(Some(contribution)) => put_contribution(out, &contribution)?,
            Ok(None) => return Ok(()),
            Err(e) => return put_error(out, e.number()),
        }
    }
}

/// The lines of the section contributions, or of their error.
#[tactic(auto, unfolding(crate::specs::Texts::contributions_text))]
pub fn put_contributions<'s, S: Source<'s>>(
    out: &mut Vec<u8>,
    pdb: &mut PDB<'s, S>,
) -> Result<(), AllocError>
    ensures continues { Continues pdb.old pdb.new }
    ensures text { pdb.new.told ≡ true → Unfailed pdb.old pdb.new → OnOk result (out.new.items ≡ out.old.items ++ contributions_text pdb.old.file) }
{
    let stream = match pdb.debug_information() {
        Ok(stream) => stream,
        Err(e) => return put_refusal(out, e),
    };
    match stream.section_contributions() {
        Ok(contributions) => put_list(out, contributions),
        Err(e) => put_refusal(out, e),
    }
}

//! Which bytes of the image came from which module.

ghost use Rattle.std.specs.Prelude.{◌≡◌, ◌≤◌, ◌<◌, length};
ghost use Rattle.pdb.specs.Contributions.{contributions_in};
ghost use Rattle.pdb.specs.DbiViews.{contributions_left};
ghost use Rattle.pdb_c.specs.Lists.{IsListed, Listed};
ghost use Rattle.pdb_c.specs.ContributionRows.{contribution_row};

use crate::answers::{LARGE, code_of, list_code};
use crate::rooms::put_row;
use pdb::{
    DBISectionContribution, DBISectionContributionIter, DebugInformation, FallibleIterator, Stream,
};

/// A section contribution: bytes of the image that came from one module.
#[repr(C)]
#[derive(Clone, Copy)]
pub struct PdbContribution {
    /// The module, by its index in the list of modules, counted from 0.
    pub module: usize,
    /// The offset of the first byte in the section.
    pub offset: u32,
    /// How many bytes.
    pub size: u32,
    /// The characteristics of the object file's section from which they came.
    pub characteristics: u32,
    /// A checksum of the bytes.
    pub data_crc: u32,
    /// A checksum of their relocations.
    pub reloc_crc: u32,
    /// The section, counted from 1.
    pub section: u16,
}

fn shown(listed: &DBISectionContribution) -> PdbContribution
    ensures { result ≡ contribution_row listed.now }
{
    PdbContribution {
        module: listed.module,
        offset: listed.offset.offset,
        size: listed.size,
        characteristics: listed.characteristics.0,
        data_crc: listed.data_crc,
        reloc_crc: listed.reloc_crc,
        section: listed.offset.section,
    }
}

/// Puts the contributions that are left, and counts them.
fn fill(
    mut contributions: DBISectionContributionIter<'_>,
    records: &mut [PdbContribution],
    count: &mut usize,
) -> u32
    ensures { IsListed (λ r. r) contribution_row result records.old records.new count.new (contributions_left contributions.entry) }
{
    let mut n = 0usize;
    loop {
        match contributions.next() {
            Ok(Some(contribution)) => {
                put_row(records, n, shown(&contribution));
                n += 1;
            }
            Ok(None) => {
                *count = n;
                return list_code(records.len(), n, None);
            }
            Err(e) => {
                *count = n;
                return list_code(records.len(), n, Some(e));
            }
        }
    }
}

/// Puts the contributions of a DBI stream.
fn contributions_of(
    information: &DebugInformation<'_>,
    records: &mut [PdbContribution],
    count: &mut usize,
) -> u32
    requires { count.old ≡ 0 }
    ensures { Listed (λ r. r) contribution_row result records.old records.new count.new (contributions_in information.now) }
{
    match information.section_contributions() {
        Ok(contributions) => fill(contributions, records, count),
        Err(e) => code_of(e),
    }
}

/// The section contributions that a DBI stream of these bytes lists: as many as the buffer has rows, and how many there
/// are.
#[tactic(auto, using(crate::proofs::DbiHeaders::information_same))]
#[unsafe(no_mangle)]
pub extern "C" fn pdb_contributions(
    dbi: &[u8],
    records: &mut [PdbContribution],
    count: &mut usize,
) -> u32
    ensures large { 4294967295 ≤ length dbi.now → (result ≡ 32) × (records.new ≡ records.old) × (count.new ≡ 0) }
    ensures listed { length dbi.now < 4294967295 → Listed (λ r. r) contribution_row result records.old records.new count.new (contributions_in dbi.now) }
{
    *count = 0;
    let Some(bytes) = Stream::new(dbi) else {
        return LARGE;
    };
    match DebugInformation::parse(bytes) {
        Ok(information) => contributions_of(&information, records, count),
        Err(e) => code_of(e),
    }
}

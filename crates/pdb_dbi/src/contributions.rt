//! The list of section contributions.

ghost use Rattle.std.specs.Prelude.{ℕ, ◌+◌, ◌^◌, ◌<◌, ◌≤◌, ◌≡◌, length, IfOk, Ok};
ghost use Rattle.pdb_base.specs.Cursor.{Reads};
ghost use Rattle.pdb_base.specs.Refusal.{Answers};
ghost use Rattle.pdb_dbi.specs.Contributions.{contribution_at, contribution_of, contributions_of, record_size, records_of};

use pdb_base::little_endian::{u16_at, u32_at};
use pdb_base::{
    Error, FallibleIterator, ParseBuffer, PdbInternalSectionOffset, Result, SectionCharacteristics,
    Steps,
};

/// Which bytes of the image came from which module: `dbi.h`'s `SC`.
#[derive(Clone, Copy, Debug)]
pub struct DBISectionContribution {
    /// Where the bytes begin: an offset in a section of the image.
    pub offset: PdbInternalSectionOffset,
    /// How many bytes.
    pub size: u32,
    /// The characteristics of the object file's section from which they came.
    pub characteristics: SectionCharacteristics,
    /// The module, by its index in the list of modules, counted from 0.
    pub module: usize,
    /// A checksum of the bytes.
    pub data_crc: u32,
    /// A checksum of their relocations.
    pub reloc_crc: u32,
}

/// The version of the part in which each record has four more bytes.
const VERSION_2: u32 = 0xf131_51e4;

/// The size of a record of a part of this version.
fn record_size(version: u32) -> usize
    ensures { result ≡ record_size version }
{
    if version == VERSION_2 { 32 } else { 28 }
}

/// The fields of a record.
fn contribution(fields: &[u8]) -> DBISectionContribution
    requires { 28 ≤ length fields.now }
    ensures { result ≡ contribution_of fields.now }
{
    DBISectionContribution {
        offset: PdbInternalSectionOffset::new(u16_at(fields, 0), u32_at(fields, 4)),
        size: u32_at(fields, 8),
        characteristics: SectionCharacteristics(u32_at(fields, 12)),
        module: usize::from(u16_at(fields, 16)),
        data_crc: u32_at(fields, 20),
        reloc_crc: u32_at(fields, 24),
    }
}

/// The contribution at the buffer's offset, of so many bytes.
#[tactic(auto, unfolding(crate::specs::Contributions::contribution_at))]
fn read_contribution(buffer: &mut ParseBuffer<'_>, size: usize) -> Result<DBISectionContribution>
    requires { 28 ≤ size }
    ensures { Reads (λ c. c) buffer.old buffer.new result (contribution_at size buffer.old.bytes buffer.old.place) (λ _. size) }
{
    let record = buffer.take(size)?;
    Ok(contribution(record))
}

/// The section contributions of a file, in their order: records of 28 bytes, or of 32 in a part of the version
/// `0xf13151e4`. A record that isn't all there is `UnexpectedEof`, and then the list has ended.
#[derive(Drop)]
pub struct DBISectionContributionIter<'c> {
    buffer: ParseBuffer<'c>,
    record_size: usize,
    steps: Steps,
    ghost whole: { 28 ≤ record_size },
    ghost small: { length buffer.bytes < 2 ^ 32 },
    ghost inside: { buffer.place ≤ length buffer.bytes },
    ghost going: { buffer.place < length buffer.bytes → steps.count ≤ buffer.place },
    ghost counted: { steps.count ≤ buffer.place + 1 },
}

impl<'c> DBISectionContributionIter<'c> {
    ghost use Rattle.pdb_dbi.specs.DbiViews.{contributions_left, contributions_bytes, contributions_steps};

    // The contributions of a part: its version, and then the records.
    #[tactic(auto, unfolding(crate::specs::Contributions::contributions_of, crate::specs::Contributions::records_of))]
    pub(crate) fn new(part: &'c [u8]) -> Result<Self>
        requires { length part.now < 2 ^ 32 }
        ensures left { Answers contributions_left result (contributions_of part.entry.now) }
        ensures bytes { IfOk result (λ it. records_of part.entry.now ≡ Ok (contributions_bytes it)) }
        ensures steps { IfOk result (λ it. contributions_steps it ≡ 0) }
    {
        if part.len() < 4 {
            return Err(Error::UnexpectedEof);
        }
        let version = u32_at(part, 0);
        let (_, records) = part.split_at(4);
        Ok(DBISectionContributionIter {
            buffer: ParseBuffer::from(records),
            record_size: record_size(version),
            steps: Steps::new(),
        })
    }
}

impl<'c> FallibleIterator for DBISectionContributionIter<'c> {
    ghost use Rattle.std.specs.Prelude.{◌≢◌, IfOk, IfErr, IfSome};
    ghost use Rattle.pdb_base.specs.declared.error.Error.TheVariants.{IoError, OutOfMemory};
    ghost use Rattle.std.specs.Option.{IfNone};
    ghost use Rattle.pdb_base.specs.Left.{Yields};
    ghost use Rattle.pdb_dbi.specs.declared.contributions.DBISectionContribution.{DBISectionContribution};
    ghost use Rattle.pdb_dbi.specs.DbiViews.{contributions_left, contributions_bytes, contributions_steps};

    type Item = DBISectionContribution;

    ghost Shown = { DBISectionContribution };

    ghost shown = { λ c. c };

    ghost left = { contributions_left };

    #[tactic(auto, using(pdb_base::proofs::Tilings::few))]
    fn next(&mut self) -> Result<Option<DBISectionContribution>>
        ensures yields { Yields (λ c. c) (contributions_left self.old) result (contributions_left self.new) }
        ensures few { length (contributions_left self.old).items < 2 ^ 64 }
        ensures bytes { contributions_bytes self.new ≡ contributions_bytes self.old }
        ensures small { length (contributions_bytes self.new) < 2 ^ 32 }
        ensures bound { contributions_steps self.new ≤ length (contributions_bytes self.new) + 1 }
        ensures stepped { IfOk result (λ o. IfSome o (λ _. contributions_steps self.new ≡ contributions_steps self.old + 1)) }
        ensures rests { IfOk result (λ o. IfNone o (contributions_steps self.new ≡ contributions_steps self.old)) }
        ensures stepped_to_fault { IfErr result (λ _. contributions_steps self.new ≡ contributions_steps self.old + 1) }
        ensures refused { IfErr result (λ e. (e ≢ OutOfMemory) × (e ≢ IoError)) }
    {
        if self.buffer.is_empty() {
            return Ok(None);
        }
        self.steps.tick();
        match read_contribution(&mut self.buffer, self.record_size) {
            Ok(contribution) => Ok(Some(contribution)),
            Err(error) => {
                self.buffer.seek(usize::MAX);
                Err(error)
            }
        }
    }
}

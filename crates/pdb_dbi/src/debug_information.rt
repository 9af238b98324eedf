//! The DBI stream: what a file has on the image and its modules.

ghost use Rattle.std.specs.Prelude.{◌≡◌, Ok, IfOk, IsOk};
ghost use Rattle.pdb_base.specs.Refusal.{Answers};
ghost use Rattle.pdb_dbi.specs.Header.{header_of, debug_information_of, age_in};
ghost use Rattle.pdb_dbi.specs.Contributions.{contribution_records_of, contributions_in};
ghost use Rattle.pdb_dbi.specs.ExtraStreams.{extra_streams_part_of};
ghost use Rattle.pdb_dbi.specs.Machine.{machine_in};
ghost use Rattle.pdb_dbi.specs.Modules.{module_list_of, modules_in};

use crate::contributions::DBISectionContributionIter;
use crate::header::{DBIHeader, parse_header};
use crate::machine::MachineType;
use crate::modules::ModuleIter;
use pdb_base::part::part_of;
use pdb_base::{Result, Stream};
use std::marker::Model;

/// The header's size, behind which the parts stand.
const HEADER_SIZE: usize = 64;

/// The DBI stream, whose header was read. A contract sees it as the stream's bytes.
#[derive(Drop)]
pub struct DebugInformation<'s> {
    stream: Stream<'s>,
    read_header: DBIHeader,
}

impl<'s> Model for DebugInformation<'s> {
    ghost use Rattle.std.specs.Prelude.{◌≡◌, ℕ, List, Ok};
    ghost use Rattle.pdb_dbi.specs.Header.{header_of};

    ghost Value = { List ℕ };

    ghost view = { λ d. d.stream };

    ghost invariant = { λ d. header_of d.stream ≡ Ok d.read_header };
}

impl<'s> DebugInformation<'s> {
    ghost use Rattle.pdb_dbi.specs.DbiViews.{modules_left, modules_bytes, modules_steps, contributions_left, contributions_bytes, contributions_steps};

    /// Reads the header of the DBI stream, and keeps the stream. It fails as `DBIHeader::parse` does.
    #[tactic(auto, unfolding(crate::specs::Header::debug_information_of))]
    pub fn parse(stream: Stream<'s>) -> Result<DebugInformation<'s>>
        ensures { Answers (λ d. d) result (debug_information_of stream.entry) }
    {
        let read_header = parse_header(stream.as_slice())?;
        Ok(DebugInformation {
            stream,
            read_header,
        })
    }

    /// The stream's header.
    pub fn header(&self) -> DBIHeader
        ensures { header_of self.now ≡ Ok result }
    {
        self.read_header
    }

    /// The machine that the image was made for, by the header's number. It never fails.
    pub fn machine_type(&self) -> Result<MachineType>
        ensures answer { Answers (λ m. m) result (machine_in self.now) }
        ensures ok { IsOk result }
    {
        Ok(MachineType::from(self.header().machine_type))
    }

    /// The modules, which stand behind the header: `UnexpectedEof` where their part isn't all there.
    #[tactic(auto, unfolding(crate::specs::Modules::modules_in, crate::specs::Modules::module_list_of))]
    pub fn modules(&self) -> Result<ModuleIter<'_>>
        ensures left { Answers modules_left result (modules_in self.now) }
        ensures bytes { IfOk result (λ it. module_list_of self.now ≡ Ok (modules_bytes it)) }
        ensures steps { IfOk result (λ it. modules_steps it ≡ 0) }
    {
        let size = self.header().module_list_size as usize;
        let list = part_of(self.stream.as_slice(), HEADER_SIZE, size)?;
        Ok(ModuleIter::new(list))
    }

    /// The section contributions, whose part stands behind the modules' one: `UnexpectedEof` where it isn't all there,
    /// and where it has no version.
    #[tactic(auto, unfolding(crate::specs::Contributions::contributions_in, crate::specs::Contributions::contribution_records_of, crate::specs::Contributions::contribution_part_of))]
    pub fn section_contributions(&self) -> Result<DBISectionContributionIter<'_>>
        ensures left { Answers contributions_left result (contributions_in self.now) }
        ensures bytes { IfOk result (λ it. contribution_records_of self.now ≡ Ok (contributions_bytes it)) }
        ensures steps { IfOk result (λ it. contributions_steps it ≡ 0) }
    {
        let header = self.header();
        let start = HEADER_SIZE + header.module_list_size as usize;
        let size = header.section_contribution_size as usize;
        let part = part_of(self.stream.as_slice(), start, size)?;
        DBISectionContributionIter::new(part)
    }

    // The part with the numbers of further streams.
    #[tactic(auto, unfolding(crate::specs::ExtraStreams::extra_streams_part_of))]
    pub(crate) fn extra_streams_part(&self) -> Result<&[u8]>
        ensures part { Answers (λ x. x.now) result (extra_streams_part_of self.now) }
    {
        let header = self.header();
        let start = HEADER_SIZE
            + header.module_list_size as usize
            + header.section_contribution_size as usize
            + header.section_map_size as usize
            + header.file_info_size as usize
            + header.type_server_map_size as usize
            + header.ec_substream_size as usize;
        let size = header.debug_header_size as usize;
        part_of(self.stream.as_slice(), start, size)
    }

    /// How often the file was written, by the header; none for 0, which says nothing.
    pub fn age(&self) -> Option<u32>
        ensures { age_in self.now ≡ Ok result }
    {
        match self.header().age {
            0 => None,
            age => Some(age),
        }
    }
}

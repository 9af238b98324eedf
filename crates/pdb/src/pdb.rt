//! An opened PDB file, and its streams.

ghost use Rattle.std.specs.Prelude.{◌≡◌, ◌≢◌, ℕ, List, Ok, IfOk, IfErr, IsErrOf, false, true, None};
ghost use Rattle.std.specs.Option.{option_map};
ghost use Rattle.pdb_base.specs.Refusal.{Gives};
ghost use Rattle.pdb_base.specs.Source.{State, Continues, MayFail, IsKnown};
ghost use Rattle.pdb_base.specs.Container.{opens, stream_of, stream_count as count_in, stream_size as size_in};
ghost use Rattle.pdb_dbi.specs.Header.{header_in};
ghost use Rattle.pdb_dbi.specs.DbiViews.{information};
ghost use Rattle.pdb.specs.Answers.{information_in, named_stream_in, debug_information_in, global_symbols_in, raw_stream_in, listed_stream as listed_stream_in, extra_streams_of_file, headers_in, sections_in, frame_table_in, transformed_in, address_map_in, string_table_in, module_info_in, module_of_file};

use crate::holders::{AddressMap, FrameTable, IdInformation, OMAPTable, TypeInformation};
use crate::named::index_named;
use crate::places::item_at;
use crate::sections::section_headers;
use pdb_base::{
    Error, ImageSectionHeader, Meaning, Msf, Result, Source, Stream, StreamIndex, StringTable,
};
use pdb_dbi::{DBIExtraStreams, DBIHeader, DebugInformation, Module, PDBInformation};
use pdb_modules::ModuleInfo;
use pdb_symbols::SymbolTable;
use std::alloc::Global;
use std::marker::Model;

/// The stream of type records.
const TYPE_STREAM: u32 = 2;

/// The stream of id records.
const ID_STREAM: u32 = 4;

/// The name of the string table's stream.
const NAMES: &[u8; 6] = b"/names";

/// The information stream.
const INFORMATION_STREAM: u32 = 1;

/// The stream of debug information.
const DBI_STREAM: u32 = 3;

/// How much of the DBI stream is read where its header alone is asked for.
const DBI_FRONT: u32 = 1024;

/// An opened PDB file. Each accessor returns what the file says, whatever was called before, failed calls among
/// them. A contract sees it as the state of its source: the file, how many views failed, and whether any can.
///
/// Each call fails as the container does for the streams that it reads: `UnexpectedEof` where the directory or a
/// page isn't all there, `PageReferenceOutOfRange` for a number that is no page's, `StreamNotFound`; `IoError` where
/// the source failed, and `OutOfMemory`. After an error the same call may be made again.
pub struct PDB<'s, S: Meaning> {
    alloc: Global,
    msf: Msf<'s, S>,
    debug_stream: Option<Stream<'s>>,
    header: Option<DBIHeader>,
    extra_streams: Option<DBIExtraStreams>,
}

// By hand: what drops a `PDB` takes one step, and doesn't see what is kept.
impl<'s, S: Meaning> Drop for PDB<'s, S> {
    fn drop(self) {
        let PDB {
            alloc: _,
            msf: _,
            debug_stream: _,
            header: _,
            extra_streams: _,
        } = self;
    }
}

impl<'s, S: Meaning> Model for PDB<'s, S> {
    ghost use Rattle.pdb_base.specs.Source.{State};
    ghost use Rattle.std.specs.Prelude.{◌≡◌, true};
    ghost use Rattle.pdb.specs.Answers.{AreKept};

    ghost Value = { State };

    ghost view = { λ p. p.msf };

    ghost invariant = { λ p. p.msf.told ≡ true → AreKept p.msf.file p.debug_stream p.header p.extra_streams };
}

impl<'s, S: Source<'s>> PDB<'s, S> {
    /// Opens a file, of which it reads the container's front and directory. `UnrecognizedFileFormat` where it is no
    /// file of the format MSF 7.00, `UnimplementedFeature` for one of version 2.00, and `InvalidPageSize`.
    pub fn open(alloc: Global, source: S) -> Result<Self>
        ensures continues { IfOk result (λ pdb. Continues (S.state source) pdb) }
        ensures failed { IsErrOf result Error.IoError → (S.state source).steady ≡ false }
        ensures opened { IfOk result (λ pdb. pdb.told ≡ true → opens (S.state source).file ≡ Ok tt) }
        ensures answer { IsKnown (S.state source) → Gives (λ _. tt) ((S.state source).steady ≡ false) result (opens (S.state source).file) }
    {
        Ok(PDB {
            alloc,
            msf: Msf::open(alloc, source)?,
            debug_stream: None,
            header: None,
            extra_streams: None,
        })
    }

    /// How many views of the source failed so far.
    pub fn failures(&self) -> u64
        ensures failures { result ≡ self.now.failures }
        ensures opened { self.now.told ≡ true → opens self.now.file ≡ Ok tt }
    {
        self.msf.failures()
    }

    /// Whether no view of the source can fail.
    pub fn steady(&self) -> bool
        ensures steady { result ≡ self.now.steady }
        ensures opened { self.now.told ≡ true → opens self.now.file ≡ Ok tt }
    {
        self.msf.steady()
    }

    /// How many streams the directory lists, absent ones too. `UnexpectedEof` where the directory ends before their
    /// sizes do.
    pub fn stream_count(&self) -> Result<u32>
        ensures count { self.now.told ≡ true → Gives (λ n. n) ⊥ result (count_in self.now.file) }
        ensures memory { IfErr result (λ e. e ≢ Error.OutOfMemory) }
        ensures read { IfErr result (λ e. e ≢ Error.IoError) }
    {
        self.msf.stream_count()
    }

    /// How many bytes a stream has, by the directory. `StreamNotFound` where there is no such stream or it is absent,
    /// and `UnexpectedEof` where the directory ends before the sizes do.
    pub fn stream_size(&self, number: u32) -> Result<u32>
        ensures size { self.now.told ≡ true → Gives (λ n. n) ⊥ result (size_in self.now.file number) }
        ensures memory { IfErr result (λ e. e ≢ Error.OutOfMemory) }
        ensures read { IfErr result (λ e. e ≢ Error.IoError) }
    {
        self.msf.stream_size(number)
    }

    /// The information stream, stream 1: the numbers by which a file is matched with its image, and the names of
    /// streams. `UnexpectedEof` below 32 bytes.
    #[tactic(auto, unfolding(crate::specs::Answers::information_in))]
    pub fn pdb_information(&mut self) -> Result<PDBInformation<'s>>
        ensures continues { Continues self.old self.new }
        ensures failed { IsErrOf result Error.IoError → MayFail self.old self.new }
        ensures answer { self.new.told ≡ true → Gives information (MayFail self.old self.new) result (information_in self.old.file) }
    {
        let stream = self.msf.get(INFORMATION_STREAM, None)?;
        PDBInformation::parse(stream)
    }

    /// The stream of the first name that is this one, unparsed. `UnexpectedEof` where the names of streams aren't all
    /// there, and `StreamNameNotFound` where none is this one, or the first that is has the index of no stream.
    #[tactic(auto, unfolding(crate::specs::Answers::named_stream_in))]
    pub fn named_stream(&mut self, name: &[u8]) -> Result<Stream<'s>>
        ensures continues { Continues self.old self.new }
        ensures failed { IsErrOf result Error.IoError → MayFail self.old self.new }
        ensures answer { self.new.told ≡ true → Gives (λ s. s) (MayFail self.old self.new) result (named_stream_in self.old.file name.now) }
    {
        let information = self.pdb_information()?;
        let names = information.stream_names(self.alloc)?;
        let index = index_named(&names, name)?;
        self.listed_stream(index, Error::StreamNameNotFound)
    }

    /// The stream of this index, unparsed, or this error for the index of no stream.
    fn listed_stream(&mut self, index: StreamIndex, refusal: Error) -> Result<Stream<'s>>
        requires { refusal ≢ Error.IoError }
        ensures continues { Continues self.old self.new }
        ensures failed { IsErrOf result Error.IoError → MayFail self.old self.new }
        ensures answer { self.new.told ≡ true → Gives (λ s. s) (MayFail self.old self.new) result (listed_stream_in self.old.file index.0 refusal) }
    {
        match index.msf_number() {
            Some(number) => self.msf.get(number, None),
            None => Err(refusal),
        }
    }

    /// The header in the front of the DBI stream; read once.
    #[tactic(auto, unfolding(pdb_dbi::specs::Header::header_in))]
    pub(crate) fn dbi_header(&mut self) -> Result<DBIHeader>
        ensures continues { Continues self.old self.new }
        ensures failed { IsErrOf result Error.IoError → MayFail self.old self.new }
        ensures header { self.new.told ≡ true → Gives (λ h. h) (MayFail self.old self.new) result (header_in self.old.file (Some 1024)) }
    {
        if let Some(header) = self.header {
            return Ok(header);
        }
        let front = self.msf.get(DBI_STREAM, Some(DBI_FRONT))?;
        let header = DBIHeader::parse(front)?;
        self.header = Some(header);
        Ok(header)
    }

    /// The DBI stream, unparsed; read once.
    fn debug_stream(&mut self) -> Result<Stream<'s>>
        ensures continues { Continues self.old self.new }
        ensures failed { IsErrOf result Error.IoError → MayFail self.old self.new }
        ensures stream { self.new.told ≡ true → Gives (λ s. s) (MayFail self.old self.new) result (stream_of self.old.file 3 None) }
    {
        if let Some(stream) = &self.debug_stream {
            return Ok(stream.clone()?);
        }
        let stream = self.msf.get(DBI_STREAM, None)?;
        self.debug_stream = Some(stream.clone()?);
        Ok(stream)
    }

    /// The DBI stream, stream 3: what the file has on the image and its modules. `UnimplementedFeature` for an
    /// ancient header.
    #[tactic(auto, unfolding(crate::specs::Answers::debug_information_in))]
    pub fn debug_information(&mut self) -> Result<DebugInformation<'s>>
        ensures continues { Continues self.old self.new }
        ensures failed { IsErrOf result Error.IoError → MayFail self.old self.new }
        ensures answer { self.new.told ≡ true → Gives (λ d. d) (MayFail self.old self.new) result (debug_information_in self.old.file) }
    {
        let stream = self.debug_stream()?;
        let information = DebugInformation::parse(stream)?;
        self.header = Some(information.header());
        Ok(information)
    }

    /// The stream of global symbols, by the header of the DBI stream, of which at most the first 1024 bytes are read.
    /// `UnimplementedFeature` for an ancient header, and `GlobalSymbolsNotFound` where the header names no stream.
    #[tactic(auto, using(pdb_base::proofs::Passing::may_after), unfolding(crate::specs::Answers::global_symbols_in))]
    pub fn global_symbols(&mut self) -> Result<SymbolTable<'s>>
        ensures continues { Continues self.old self.new }
        ensures failed { IsErrOf result Error.IoError → MayFail self.old self.new }
        ensures answer { self.new.told ≡ true → Gives (λ t. t) (MayFail self.old self.new) result (global_symbols_in self.old.file) }
    {
        let header = self.dbi_header()?;
        let records = header.symbol_records_stream;
        let stream = self.listed_stream(records, Error::GlobalSymbolsNotFound)?;
        Ok(SymbolTable::new(stream))
    }

    /// The stream of type records, stream 2.
    pub fn type_information(&mut self) -> Result<TypeInformation<'s>>
        ensures continues { Continues self.old self.new }
        ensures failed { IsErrOf result Error.IoError → MayFail self.old self.new }
        ensures answer { self.new.told ≡ true → Gives (λ t. t) (MayFail self.old self.new) result (stream_of self.old.file 2 None) }
    {
        Ok(TypeInformation::new(self.msf.get(TYPE_STREAM, None)?))
    }

    /// The stream of id records, stream 4.
    pub fn id_information(&mut self) -> Result<IdInformation<'s>>
        ensures continues { Continues self.old self.new }
        ensures failed { IsErrOf result Error.IoError → MayFail self.old self.new }
        ensures answer { self.new.told ≡ true → Gives (λ i. i) (MayFail self.old self.new) result (stream_of self.old.file 4 None) }
    {
        Ok(IdInformation::new(self.msf.get(ID_STREAM, None)?))
    }

    /// The numbers of further streams; read once, and the header with them.
    #[tactic(auto, using(pdb_base::proofs::Passing::may_after), unfolding(crate::specs::Answers::extra_streams_of_file))]
    fn extra_streams(&mut self) -> Result<DBIExtraStreams>
        ensures continues { Continues self.old self.new }
        ensures failed { IsErrOf result Error.IoError → MayFail self.old self.new }
        ensures answer { self.new.told ≡ true → Gives (λ x. x) (MayFail self.old self.new) result (extra_streams_of_file self.old.file) }
    {
        if let Some(extra_streams) = self.extra_streams {
            return Ok(extra_streams);
        }
        let information = self.debug_information()?;
        let extra_streams = DBIExtraStreams::new(&information)?;
        self.extra_streams = Some(extra_streams);
        Ok(extra_streams)
    }

    /// The section headers in a stream; none for the index of no stream.
    #[tactic(auto, using(pdb_base::proofs::Passing::may_after), unfolding(crate::specs::Answers::headers_in))]
    fn headers(&mut self, index: StreamIndex) -> Result<Option<Vec<ImageSectionHeader>>>
        ensures continues { Continues self.old self.new }
        ensures failed { IsErrOf result Error.IoError → MayFail self.old self.new }
        ensures answer { self.new.told ≡ true → Gives (option_map (λ v. v.items)) (MayFail self.old self.new) result (headers_in self.old.file index.0) }
    {
        let Some(stream) = self.raw_stream(index)? else {
            return Ok(None);
        };
        Ok(Some(section_headers(self.alloc, stream.as_slice())?))
    }

    /// The section headers of the image, one for each section; none where the file has no stream of them. It reads
    /// the numbers of further streams, as `frame_table` and `address_map` do, unless these were read before:
    /// `UnimplementedFeature` for an ancient header, `UnexpectedEof` where the numbers aren't there, and
    /// `InvalidStreamLength` where they are of an odd length. `UnexpectedEof` where the last header is cut.
    #[tactic(auto, using(pdb_base::proofs::Passing::may_after), unfolding(crate::specs::Answers::sections_in))]
    pub fn sections(&mut self) -> Result<Option<Vec<ImageSectionHeader>>>
        ensures continues { Continues self.old self.new }
        ensures failed { IsErrOf result Error.IoError → MayFail self.old self.new }
        ensures answer { self.new.told ≡ true → Gives (option_map (λ v. v.items)) (MayFail self.old self.new) result (sections_in self.old.file) }
    {
        let extra_streams = self.extra_streams()?;
        self.headers(extra_streams.section_headers)
    }

    /// The streams of frame data, unparsed, of the older form and then of the newer one, each where the file has it.
    #[tactic(auto, using(pdb_base::proofs::Passing::may_after), unfolding(crate::specs::Answers::frame_table_in))]
    pub fn frame_table(&mut self) -> Result<FrameTable<'s>>
        ensures continues { Continues self.old self.new }
        ensures failed { IsErrOf result Error.IoError → MayFail self.old self.new }
        ensures answer { self.new.told ≡ true → Gives (λ t. t) (MayFail self.old self.new) result (frame_table_in self.old.file) }
    {
        let extra_streams = self.extra_streams()?;
        let old_stream = self.raw_stream(extra_streams.fpo)?;
        let new_stream = self.raw_stream(extra_streams.framedata)?;
        Ok(FrameTable::new(old_stream, new_stream))
    }

    /// How addresses of a rearranged image are those of the image before. `AddressMapNotFound` where the file has the
    /// section headers of the image before, and lacks one of the two tables.
    #[tactic(auto, using(pdb_base::proofs::Passing::may_after), unfolding(crate::specs::Answers::address_map_in))]
    pub fn address_map(&mut self) -> Result<AddressMap<'s>>
        ensures continues { Continues self.old self.new }
        ensures failed { IsErrOf result Error.IoError → MayFail self.old self.new }
        ensures answer { self.new.told ≡ true → Gives (λ m. m) (MayFail self.old self.new) result (address_map_in self.old.file) }
    {
        let extra_streams = self.extra_streams()?;
        let sections = match self.headers(extra_streams.section_headers)? {
            Some(sections) => sections,
            None => Vec::new(self.alloc),
        };
        match self.headers(extra_streams.original_section_headers)? {
            Some(original) => self.transformed(extra_streams, sections, original),
            None => Ok(AddressMap::of_original(sections)),
        }
    }

    /// The address map of an image that was rearranged.
    #[tactic(auto, using(pdb_base::proofs::Passing::may_after), unfolding(crate::specs::Answers::transformed_in))]
    fn transformed(
        &mut self,
        extra_streams: DBIExtraStreams,
        sections: Vec<ImageSectionHeader>,
        original: Vec<ImageSectionHeader>,
    ) -> Result<AddressMap<'s>>
        ensures continues { Continues self.old self.new }
        ensures failed { IsErrOf result Error.IoError → MayFail self.old self.new }
        ensures answer { self.new.told ≡ true → Gives (λ m. m) (MayFail self.old self.new) result (transformed_in self.old.file extra_streams sections.items original.items) }
    {
        let missing = Error::AddressMapNotFound;
        let from_src = self.listed_stream(extra_streams.omap_from_src, missing)?;
        let to_src = self.listed_stream(extra_streams.omap_to_src, missing)?;
        let (from_src, to_src) = (OMAPTable::new(from_src), OMAPTable::new(to_src));
        Ok(AddressMap::of_transformed(original, sections, from_src, to_src))
    }

    /// The string table, which is the stream of the name `/names`, as `named_stream` gives it; then as
    /// `StringTable::parse`.
    #[tactic(auto, using(pdb_base::proofs::Passing::answers_give), unfolding(crate::specs::Answers::string_table_in))]
    pub fn string_table(&mut self) -> Result<StringTable<'s>>
        ensures continues { Continues self.old self.new }
        ensures failed { IsErrOf result Error.IoError → MayFail self.old self.new }
        ensures answer { self.new.told ≡ true → Gives (λ t. t) (MayFail self.old self.new) result (string_table_in self.old.file) }
    {
        let stream = self.named_stream(NAMES)?;
        StringTable::parse(stream)
    }

    /// The stream of a module, with the sizes of its parts; none where the module has no stream.
    #[tactic(auto, unfolding(crate::specs::Answers::module_info_in))]
    pub fn module_info(&mut self, module: &Module<'_>) -> Result<Option<ModuleInfo<'s>>>
        ensures continues { Continues self.old self.new }
        ensures failed { IsErrOf result Error.IoError → MayFail self.old self.new }
        ensures answer { self.new.told ≡ true → Gives (λ i. i) (MayFail self.old self.new) result (module_info_in self.old.file «module».now) }
    {
        let Some(stream) = self.raw_stream(module.stream())? else {
            return Ok(None);
        };
        Ok(Some(ModuleInfo::parse(stream, module)))
    }

    /// The stream of the module at this index of the list of modules, counted from 0; none where the whole list has no
    /// such module, or the module has no stream. What stands behind the module isn't read. It fails as
    /// `debug_information` and `DebugInformation::modules`, and `UnexpectedEof` where a module before it isn't all
    /// there.
    #[tactic(auto, using(pdb_base::proofs::Passing::may_after), unfolding(crate::specs::Answers::module_of_file, crate::specs::Answers::module_listed))]
    pub fn module_at(&mut self, place: usize) -> Result<Option<ModuleInfo<'s>>>
        ensures continues { Continues self.old self.new }
        ensures failed { IsErrOf result Error.IoError → MayFail self.old self.new }
        ensures answer { self.new.told ≡ true → Gives (λ i. i) (MayFail self.old self.new) result (module_of_file self.old.file place) }
    {
        let information = self.debug_information()?;
        let modules = information.modules()?;
        match item_at(modules, place)? {
            Some(module) => self.module_info(&module),
            None => Ok(None),
        }
    }

    /// The stream of this number, unparsed; none for the index of no stream, `0xffff`.
    #[tactic(auto, unfolding(crate::specs::Answers::raw_stream_in))]
    pub fn raw_stream(&mut self, index: StreamIndex) -> Result<Option<Stream<'s>>>
        ensures continues { Continues self.old self.new }
        ensures failed { IsErrOf result Error.IoError → MayFail self.old self.new }
        ensures answer { self.new.told ≡ true → Gives (λ s. s) (MayFail self.old self.new) result (raw_stream_in self.old.file index.0) }
    {
        let Some(number) = index.msf_number() else {
            return Ok(None);
        };
        Ok(Some(self.msf.get(number, None)?))
    }
}

impl<'s, S: Meaning> Meaning for PDB<'s, S> {
    ghost state = { λ pdb. pdb };
}

/// A stream by its index.
pub trait StreamIndexExt<P: Meaning>: Copy {
    /// What a stream of the file is.
    type Stream: Drop;

    // The number of an index.
    ghost stream_number: { Self → ℕ };

    // The bytes of a stream.
    ghost stream_bytes: { Self.Stream → List ℕ };

    /// The stream of this index, unparsed; none for the index of no stream. It is `PDB::raw_stream`.
    fn get(self, pdb: &mut P) -> Result<Option<Self::Stream>>
        ensures continues { Continues (P.state pdb.old) (P.state pdb.new) }
        ensures failed { IsErrOf result Error.IoError → MayFail (P.state pdb.old) (P.state pdb.new) }
        ensures answer { (P.state pdb.new).told ≡ true → Gives (option_map stream_bytes) (MayFail (P.state pdb.old) (P.state pdb.new)) result (raw_stream_in (P.state pdb.old).file (stream_number self)) };
}

impl<'s, S: Source<'s>> StreamIndexExt<PDB<'s, S>> for StreamIndex {
    type Stream = Stream<'s>;

    ghost stream_number = { λ index. index.0 };

    ghost stream_bytes = { λ stream. stream };

    fn get(self, pdb: &mut PDB<'s, S>) -> Result<Option<Stream<'s>>> {
        pdb.raw_stream(self)
    }
}

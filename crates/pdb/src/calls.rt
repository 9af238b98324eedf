//! Each accessor is a call of the lists of calls: what its contract says is what the law on them asks for.

ghost use Rattle.pdb_dbi.specs.DbiViews.{information};
ghost use Rattle.pdb.specs.Answers.{GoesOn, made};
ghost use Rattle.pdb.specs.Answers.Call.{PdbInformation, NamedStream, DebugInformation as DebugInformationCall, GlobalSymbols, TypeInformation as TypesCall, IdInformation as IdsCall, Sections, FrameTable as FrameTableCall, AddressMap as AddressMapCall, StringTable as StringTableCall, ModuleInfo as ModuleInfoCall, ModuleAt, RawStream};
ghost use Rattle.std.specs.Option.{option_map};

use crate::holders::{AddressMap, FrameTable, IdInformation, TypeInformation};
use crate::pdb::{PDB, StreamIndexExt};
use pdb_base::{ImageSectionHeader, Result, Source, Stream, StreamIndex, StringTable};
use pdb_dbi::{DebugInformation, Module, PDBInformation};
use pdb_modules::ModuleInfo;
use pdb_symbols::SymbolTable;

fn pdb_information<'s, S: Source<'s>>(pdb: &mut PDB<'s, S>) -> Result<PDBInformation<'s>>
    ensures { GoesOn (made pdb.old pdb.new PdbInformation information result) }
{
    pdb.pdb_information()
}

fn named_stream<'s, S: Source<'s>>(pdb: &mut PDB<'s, S>, name: &[u8]) -> Result<Stream<'s>>
    ensures { GoesOn (made pdb.old pdb.new (NamedStream name.now) (λ s. s) result) }
{
    pdb.named_stream(name)
}

fn debug_information<'s, S: Source<'s>>(pdb: &mut PDB<'s, S>) -> Result<DebugInformation<'s>>
    ensures { GoesOn (made pdb.old pdb.new DebugInformationCall (λ d. d) result) }
{
    pdb.debug_information()
}

fn global_symbols<'s, S: Source<'s>>(pdb: &mut PDB<'s, S>) -> Result<SymbolTable<'s>>
    ensures { GoesOn (made pdb.old pdb.new GlobalSymbols (λ t. t) result) }
{
    pdb.global_symbols()
}

fn raw_stream<'s, S: Source<'s>>(
    pdb: &mut PDB<'s, S>,
    index: StreamIndex,
) -> Result<Option<Stream<'s>>>
    ensures { GoesOn (made pdb.old pdb.new (RawStream index.0) (λ s. s) result) }
{
    pdb.raw_stream(index)
}

fn get<'s, S: Source<'s>>(pdb: &mut PDB<'s, S>, index: StreamIndex) -> Result<Option<Stream<'s>>>
    ensures { GoesOn (made pdb.old pdb.new (RawStream index.0) (option_map (λ s. s)) result) }
{
    index.get(pdb)
}

fn module_at<'s, S: Source<'s>>(
    pdb: &mut PDB<'s, S>,
    place: usize,
) -> Result<Option<ModuleInfo<'s>>>
    ensures { GoesOn (made pdb.old pdb.new (ModuleAt place) (λ i. i) result) }
{
    pdb.module_at(place)
}

fn type_information<'s, S: Source<'s>>(pdb: &mut PDB<'s, S>) -> Result<TypeInformation<'s>>
    ensures { GoesOn (made pdb.old pdb.new TypesCall (λ t. t) result) }
{
    pdb.type_information()
}

fn id_information<'s, S: Source<'s>>(pdb: &mut PDB<'s, S>) -> Result<IdInformation<'s>>
    ensures { GoesOn (made pdb.old pdb.new IdsCall (λ i. i) result) }
{
    pdb.id_information()
}

fn sections<'s, S: Source<'s>>(pdb: &mut PDB<'s, S>) -> Result<Option<Vec<ImageSectionHeader>>>
    ensures { GoesOn (made pdb.old pdb.new Sections (option_map (λ v. v.items)) result) }
{
    pdb.sections()
}

fn frame_table<'s, S: Source<'s>>(pdb: &mut PDB<'s, S>) -> Result<FrameTable<'s>>
    ensures { GoesOn (made pdb.old pdb.new FrameTableCall (λ t. t) result) }
{
    pdb.frame_table()
}

fn address_map<'s, S: Source<'s>>(pdb: &mut PDB<'s, S>) -> Result<AddressMap<'s>>
    ensures { GoesOn (made pdb.old pdb.new AddressMapCall (λ m. m) result) }
{
    pdb.address_map()
}

fn string_table<'s, S: Source<'s>>(pdb: &mut PDB<'s, S>) -> Result<StringTable<'s>>
    ensures { GoesOn (made pdb.old pdb.new StringTableCall (λ t. t) result) }
{
    pdb.string_table()
}

fn module_info<'s, S: Source<'s>>(
    pdb: &mut PDB<'s, S>,
    module: &Module<'_>,
) -> Result<Option<ModuleInfo<'s>>>
    ensures { GoesOn (made pdb.old pdb.new (ModuleInfoCall «module».now) (λ i. i) result) }
{
    pdb.module_info(module)
}

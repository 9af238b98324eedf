//! How many bytes the records have that cross: `include/pdb.h` says the same to the C compiler.

use crate::contributions::PdbContribution;
use crate::exports::PdbExport;
use crate::files::PdbFile;
use crate::frames::{PdbAddress, PdbFrame};
use crate::further_records::PdbRecord;
use crate::gaps::PdbGap;
use crate::image::PdbImage;
use crate::imports::PdbImport;
use crate::information::{PdbDebugInformation, PdbInformation};
use crate::inlinees::PdbInlinee;
use crate::lines::PdbLine;
use crate::members::PdbMember;
use crate::modules::PdbModule;
use crate::names::PdbName;
use crate::sections::PdbSection;
use crate::stream_names::PdbStreamName;
use crate::streams::PdbStream;
use crate::symbols::PdbSymbol;
use crate::type_names::PdbTypeName;
use crate::type_sizes::PdbTypeSize;
use crate::variables::PdbVariable;

const _: () = prove!(size_of::<PdbInformation>() == 44);

const _: () = prove!(size_of::<PdbDebugInformation>() == 16);

const _: () = prove!(size_of::<PdbStream>() == 24);

const _: () = prove!(size_of::<PdbModule<'_>>() == 48);

const _: () = prove!(size_of::<PdbSymbol<'_>>() == 88);

const _: () = prove!(size_of::<PdbLine>() == 40);

const _: () = prove!(size_of::<PdbFile<'_>>() == 32);

const _: () = prove!(size_of::<PdbInlinee>() == 20);

const _: () = prove!(size_of::<PdbImport<'_>>() == 24);

const _: () = prove!(size_of::<PdbExport>() == 8);

const _: () = prove!(size_of::<PdbName<'_>>() == 16);

const _: () = prove!(size_of::<PdbAddress>() == 8);

const _: () = prove!(size_of::<PdbFrame>() == 56);

const _: () = prove!(size_of::<PdbSection>() == 44);

const _: () = prove!(size_of::<PdbContribution>() == 32);

const _: () = prove!(size_of::<PdbStreamName>() == 24);

const _: () = prove!(size_of::<PdbImage<'_>>() == 80);

const _: () = prove!(size_of::<PdbTypeName>() == 16);

const _: () = prove!(size_of::<PdbTypeSize>() == 16);

const _: () = prove!(size_of::<PdbMember<'_>>() == 64);

const _: () = prove!(size_of::<PdbVariable>() == 96);

const _: () = prove!(size_of::<PdbRecord<'_>>() == 64);

const _: () = prove!(size_of::<PdbGap>() == 8);

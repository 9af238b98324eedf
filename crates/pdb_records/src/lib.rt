//! Symbol records of Microsoft's program database (PDB) files beside the 27 layouts of `pdb_symbols`: where variables
//! live, frames, call sites, sections, managed code.
#![tactic(auto)]

mod code;
mod fields;
mod flags;
mod form;
mod frames;
mod image;
pub mod laws;
mod lists;
mod machine;
mod managed;
mod managed_variables;
mod names;
mod older;
mod pieces;
mod ranges;
mod record;
mod registers_arm;
mod registers_arm64;
mod registers_common;
mod registers_mips;
mod registers_x64;
mod registers_x64_high;
mod registers_x86;
mod shared;
mod strings;
mod variables;

pub use code::{
    Annotation, CallSiteInfo, EntryKind, FunctionList, HeapAllocationSite, HotPatchFunction,
    JumpTable, PogoData,
};
pub use flags::{FrameFlags, MiniReferenceFlags, ModuleTypeFlags, VariableFlags};
pub use frames::{CookieKind, FrameCookie, FrameProcedure};
pub use image::{CoffGroup, EnvironmentBlock, Section};
pub use lists::{AddressGap, AddressRange, Gaps, GapsIter, Numbers, NumbersIter, Relation};
pub use machine::Machine;
pub use managed::{ManagedProcedure, Oem, TokenReference};
pub use managed_variables::{
    Attributes, ManagedFrameRelative, ManagedRegister, ManagedRegisterRelative, ManagedSlot, Slot,
};
pub use names::{language_name, processor_name};
pub use older::{
    Compile, Discard, Discarded, MiniReference, ModuleTypeReference, RegisterRelativeOld,
    StartSearch, VirtualTablePath, With,
};
pub use pieces::{Piece, Pieces};
pub use ranges::{
    DefRange, DefRangeFramePointerRelative, DefRangeFramePointerRelativeFullScope,
    DefRangeRegister, DefRangeRegisterRelative, DefRangeSubfield, DefRangeSubfieldRegister,
};
pub use record::Record;
pub use shared::{LocalGroupShared, PointerTag, PointerTagMap, PointerTags, PointerTagsIter};
pub use strings::{Strings, StringsIter};
pub use variables::{BasePointerRelative, FileStatic};

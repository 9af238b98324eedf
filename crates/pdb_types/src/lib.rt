//! Names, sizes and contents of the types of Microsoft's program database (PDB) files.
#![tactic(auto)]

mod backs;
mod cuts;
mod declarations;
mod definitions;
mod enumerators;
mod fronts;
mod functions;
pub mod laws;
mod member_faults;
mod member_lists;
mod member_readers;
mod members;
mod names;
mod overloads;
mod pieces;
mod pointer;
mod read_lists;
mod readers;
mod records;
mod rows;
mod shapes;
mod simple;
mod sizes;
mod tags;
mod type_data;
mod visits;
mod whole_name;
mod wrappers;

pub use declarations::{put_declaration, put_declaration_counted};
pub use definitions::TypeDefinitions;
pub use enumerators::{EnumeratorValue, bit_position, enumerator_value};
pub use functions::function_type;
pub use member_faults::{ChainEnd, MemberFaults};
pub use member_lists::MemberIter;
pub use members::{FieldAttributes, Member};
pub use overloads::{MethodListEntry, OverloadIter};
pub use pointer::{PointerAttributes, PointerMode, Qualifiers};
pub use records::{
    Alias, ArgumentList, Array, Bitfield, MemberFunction, Modifier, Pointer, Procedure,
    VirtualTableShape,
};
pub use tags::{Class, Enumeration, Tag, Union};
pub use type_data::TypeData;
pub use whole_name::{put_name, put_name_counted, put_name_start};

//! The text of `types`.

ghost use Rattle.std.specs.Prelude.{◌≡◌, ◌++◌, [], true, false, flat_map, option_copied, IfOk, IfErr, OnOk};
ghost use Rattle.std.specs.Option.{option_map};
ghost use Rattle.pdb.specs.Source.{Continues, MayFail};
ghost use Rattle.pdb_items.specs.ItemViews.{item_of, items_left};
ghost use Rattle.pdb_resolve.specs.FileParts.{items_where};
ghost use Rattle.pdb_types.specs.FullTypes.{definitions_among, first_definition};
ghost use Rattle.pdb_types.specs.TypeReading.{shown_tag, shown_type};
ghost use Rattle.tool_types.specs.TypeTexts.{index_lines, item_lines, members_by, stream_text, types_command, types_in, types_left, underlying_of};
ghost use Rattle.tool_types.specs.TypeViews.{types_of};
ghost use Rattle.tool_output.specs.Stops.{Halts};
ghost use Rattle.tool_output.specs.declared.stop.Stop.{Stop};
ghost use Rattle.tool_printing.specs.Printing.{Prints, shown};

use crate::member_texts::put_members;
use crate::type_lines::{
    Types, definitions_of, put_item_line, put_missing_line, put_simple_line, said_of, tag_said,
};
use pdb::{FallibleIterator, Item, ItemFinder, ItemIter, PDB, Source, TypeIndex, TypeInformation};
use pdb_resolve::types_of;
use pdb_types::{Tag, TypeData, TypeDefinitions};
use std::alloc::{AllocError, Global};
use tool_arguments::options::OutputFormat;
use tool_output::absent::{TYPES, lacks};
use tool_output::file_streams::types_stream;
use tool_output::module_printing::print_refused;
use tool_output::stop::{Stop, stop_of};
use tool_printing::Printer;

/// The type that values of a type are numbers of; index 0 where it is no enumeration.
fn underlying_of(says: &Option<TypeData<'_>>) -> TypeIndex
    ensures { result ≡ underlying_of (option_map shown_type says.now) }
{
    match says {
        Some(TypeData::Enumeration(enumeration)) => enumeration.underlying,
        _ => TypeIndex(0),
    }
}

/// The lines of the members of what has this tag; of what is only declared none.
fn put_members_by(
    out: &mut Vec<u8>,
    types: Types<'_, '_>,
    underlying: TypeIndex,
    tag: &Option<Tag<'_>>,
) -> Result<(), AllocError>
    ensures { OnOk result (out.new.items ≡ out.old.items ++ members_by (types_of types.entry) underlying (option_map shown_tag tag.now)) }
{
    match tag {
        Some(tag) if !tag.is_forward => put_members(out, types, underlying, tag.fields),
        _ => Ok(()),
    }
}

/// The line of a type, and those of its members.
fn put_item(out: &mut Vec<u8>, types: Types<'_, '_>, item: &Item<'_>) -> Result<(), AllocError>
    ensures { OnOk result (out.new.items ≡ out.old.items ++ item_lines (types_of types.entry) (item_of item.now)) }
{
    let says = said_of(item);
    put_item_line(out, types, item, &says)?;
    put_members_by(out, types, underlying_of(&says), &tag_said(&says))
}

/// The lines of the type of an index.
#[tactic(auto, unfolding(crate::specs::TypeTexts::index_lines))]
fn put_index(out: &mut Vec<u8>, types: Types<'_, '_>, index: u32) -> Result<(), AllocError>
    ensures { OnOk result (out.new.items ≡ out.old.items ++ index_lines (types_of types.entry) index) }
{
    if index < 0x1000 {
        return put_simple_line(out, types, TypeIndex(index));
    }
    match types.items.find(index) {
        Some(item) => put_item(out, types, &item),
        None => put_missing_line(out, TypeIndex(index)),
    }
}

/// Prints the lines of the types that an iterator has left, and then that of its fault. Those of each type are composed
/// and then printed.
fn print_left<P: Printer>(
    alloc: Global,
    types: Types<'_, '_>,
    mut items: ItemIter<'_>,
    out: &mut P,
) -> Result<(), Stop>
    ensures prints { Prints (shown (types_left (types_of types.entry) (items_left items.entry))) (P.state out.old) (P.state out.new) result }
    ensures halts { Halts ⊥ (P.state out.old) (P.state out.new) result }
{
    let mut text = Vec::new(alloc);
    loop {
        text.clear();
        match items.next() {
            Ok(Some(item)) => put_item(&mut text, types, &item)?,
            Ok(None) => return Ok(()),
            Err(e) => return print_refused(alloc, OutputFormat::Text, e, out),
        }
        out.print(&text)?;
    }
}

/// Prints the lines of the types of these indices.
fn print_each<P: Printer>(
    alloc: Global,
    types: Types<'_, '_>,
    indices: &[u32],
    out: &mut P,
) -> Result<(), Stop>
    ensures prints { Prints (shown (flat_map (index_lines (types_of types.entry)) indices.now)) (P.state out.old) (P.state out.new) result }
    ensures halts { Halts ⊥ (P.state out.old) (P.state out.new) result }
{
    let mut text = Vec::new(alloc);
    for index in indices {
        text.clear();
        put_index(&mut text, types, *index)?;
        out.print(&text)?;
    }
    Ok(())
}

/// The types of a stream by their indices, and the full definitions among them; none where the stream isn't there or
/// has an error.
fn type_tables<'a>(
    alloc: Global,
    information: Option<&'a TypeInformation<'a>>,
) -> Result<(ItemFinder<'a>, TypeDefinitions<'a>), Stop>
    ensures items { IfOk result (λ t. t.0 ≡ items_where (option_copied information.entry)) }
    ensures definitions { IfOk result (λ t. first_definition t.1 ≡ first_definition (definitions_among (items_where (option_copied information.entry)))) }
    ensures unwritten { IfErr result (λ e. e ≡ Stop.Memory) }
{
    let items = types_of(alloc, information).map_err(stop_of)?;
    let definitions = definitions_of(alloc, information)?;
    Ok((items, definitions))
}

/// Prints the lines of the types of these indices of an opened file.
#[tactic(auto, unfolding(pdb_resolve::specs::FileParts::items_listed))]
fn print_asked<'s, S: Source<'s>, P: Printer>(
    alloc: Global,
    pdb: &mut PDB<'s, S>,
    indices: &[u32],
    out: &mut P,
) -> Result<(), Stop>
    ensures continues { Continues pdb.old pdb.new }
    ensures prints { pdb.new.told ≡ true → Prints (shown (flat_map (index_lines (types_in pdb.old.file)) indices.now)) (P.state out.old) (P.state out.new) result }
    ensures halts { Halts (MayFail pdb.old pdb.new) (P.state out.old) (P.state out.new) result }
{
    let information = types_stream(pdb)?;
    let tables = type_tables(alloc, information.as_ref())?;
    let types = Types {
        items: &tables.0,
        definitions: &tables.1,
    };
    print_each(alloc, types, indices, out)
}

/// Prints the lines of the types of a stream.
fn print_stream<P: Printer>(
    alloc: Global,
    information: &TypeInformation<'_>,
    out: &mut P,
) -> Result<(), Stop>
    ensures prints { Prints (shown (stream_text information.now)) (P.state out.old) (P.state out.new) result }
    ensures halts { Halts ⊥ (P.state out.old) (P.state out.new) result }
{
    let listed = match information.iter() {
        Ok(listed) => listed,
        Err(e) => return print_refused(alloc, OutputFormat::Text, e, out),
    };
    let tables = type_tables(alloc, Some(information))?;
    let types = Types {
        items: &tables.0,
        definitions: &tables.1,
    };
    print_left(alloc, types, listed, out)
}

/// Prints the lines of all types of an opened file.
fn print_all<'s, S: Source<'s>, P: Printer>(
    alloc: Global,
    pdb: &mut PDB<'s, S>,
    out: &mut P,
) -> Result<(), Stop>
    ensures continues { Continues pdb.old pdb.new }
    ensures prints { pdb.new.told ≡ true → Prints (shown (types_command pdb.old.file [])) (P.state out.old) (P.state out.new) result }
    ensures halts { Halts (MayFail pdb.old pdb.new) (P.state out.old) (P.state out.new) result }
{
    if lacks(pdb, TYPES) {
        return Ok(());
    }
    match pdb.type_information() {
        Ok(information) => print_stream(alloc, &information, out),
        Err(e) => print_refused(alloc, OutputFormat::Text, e, out),
    }
}

/// Prints the lines of types of a file: those of these indices, or of all where there is none.
pub fn print_types<'s, S: Source<'s>, P: Printer>(
    alloc: Global,
    pdb: &mut PDB<'s, S>,
    indices: &[u32],
    out: &mut P,
) -> Result<(), Stop>
    ensures continues { Continues pdb.old pdb.new }
    ensures prints { pdb.new.told ≡ true → Prints (shown (types_command pdb.old.file indices.now)) (P.state out.old) (P.state out.new) result }
    ensures halts { Halts (MayFail pdb.old pdb.new) (P.state out.old) (P.state out.new) result }
{
    match indices.split_first() {
        Some(_) => print_asked(alloc, pdb, indices, out),
        None => print_all(alloc, pdb, out),
    }
}

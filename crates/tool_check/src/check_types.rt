//! What is wrong with the types of a file, and with their members.

ghost use Rattle.std.specs.Prelude.{◌≡◌, ◌++◌, ◌⊎◌, codes, flat_map, None, OnOk, IfErr, true};
ghost use Rattle.std.specs.Option.{option_map};
ghost use Rattle.pdb.specs.Container.{stream_of};
ghost use Rattle.pdb.specs.Source.{Continues, MayFail};
ghost use Rattle.pdb_items.specs.ItemViews.{item_of, items_left};
ghost use Rattle.pdb_types.specs.MemberEnds.{fault_of, is_endless};
ghost use Rattle.pdb_types.specs.TypeReading.{shown_tag};
ghost use Rattle.tool_check.specs.Checks.{has_endless_members, members_ended_by};
ghost use Rattle.tool_check.specs.CheckTexts.{at_index, endless_text, listed_types_text, type_text, type_texts};
ghost use Rattle.tool_output.specs.Stops.{StopsComposing};
ghost use Rattle.tool_output.specs.declared.stop.Stop.{Stop};

use crate::check_file::put_items_refusal;
use crate::findings::{label_at, put_damage_at, put_list};
use crate::subject::Subject;
use pdb::{FallibleIterator, Item, ItemIter, PDB, Source, TypeInformation};
use pdb_resolve::types_of;
use pdb_types::{ChainEnd, MemberFaults, Tag};
use std::alloc::{AllocError, Global};
use tool_output::stop::{Stop, stop_of};
use tool_types::type_lines::{said_of, tag_said};

/// How the lists of members of what has this tag end; what is only declared has none.
fn members_end(faults: &MemberFaults<'_, '_>, tag: &Option<Tag<'_>>) -> ChainEnd
    ensures fault { fault_of result ≡ members_ended_by faults.now (option_map shown_tag tag.now) }
    ensures endless { is_endless result ≡ has_endless_members faults.now (option_map shown_tag tag.now) }
{
    match tag {
        Some(tag) if !tag.is_forward => faults.chain_end(tag.fields),
        _ => ChainEnd::Whole,
    }
}

/// The line of the list of members of a type that continues in itself.
fn put_endless(
    alloc: Global,
    out: &mut Vec<u8>,
    subject: &Subject<'_>,
    index: u32,
) -> Result<(), AllocError>
    ensures { OnOk result (out.new.items ≡ out.old.items ++ endless_text subject.now (at_index (codes "type ") index) true) }
{
    let label = label_at(alloc, b"type ", index)?;
    subject.put_line(out, &label, b"the list of members continues in itself")
}

/// The lines of what is wrong with the members of a type.
fn put_type(
    alloc: Global,
    out: &mut Vec<u8>,
    subject: &Subject<'_>,
    faults: &MemberFaults<'_, '_>,
    item: &Item<'_>,
) -> Result<(), AllocError>
    ensures { OnOk result (out.new.items ≡ out.old.items ++ type_text subject.now faults.now (item_of item.now)) }
{
    match members_end(faults, &tag_said(&said_of(item))) {
        ChainEnd::Whole => Ok(()),
        ChainEnd::Refused(e) => put_damage_at(alloc, out, subject, b"type ", item.index(), e),
        ChainEnd::Endless => put_endless(alloc, out, subject, item.index()),
    }
}

/// The lines of the faults of the members of the types that an iterator has left.
fn put_each(
    alloc: Global,
    out: &mut Vec<u8>,
    subject: &Subject<'_>,
    faults: &MemberFaults<'_, '_>,
    mut items: ItemIter<'_>,
) -> Result<(), AllocError>
    ensures { OnOk result (out.new.items ≡ out.old.items ++ flat_map (type_text subject.now faults.now) (items_left items.entry).items) }
{
    loop {
        match items.next() {
            Ok(Some(item)) => put_type(alloc, out, subject, faults, &item)?,
            Ok(None) => return Ok(()),
            Err(_) => return Ok(()),
        }
    }
}

/// The same of a stream of types.
#[tactic(auto, unfolding(crate::specs::CheckTexts::type_texts))]
fn put_members(
    alloc: Global,
    out: &mut Vec<u8>,
    subject: &Subject<'_>,
    information: &TypeInformation<'_>,
) -> Result<(), Stop>
    ensures text { OnOk result (out.new.items ≡ out.old.items ++ type_texts subject.now information.now) }
    ensures unwritten { IfErr result (StopsComposing ⊥) }
{
    let types = types_of(alloc, Some(information)).map_err(stop_of)?;
    let (Ok(listed), Ok(items)) = (information.iter(), information.iter()) else {
        return Ok(());
    };
    let faults = MemberFaults::of_types(alloc, &types, listed)?;
    Ok(put_each(alloc, out, subject, &faults, items)?)
}

/// The line of the types, and those of their members.
pub(crate) fn put_types<'s, S: Source<'s>>(
    alloc: Global,
    pdb: &mut PDB<'s, S>,
    out: &mut Vec<u8>,
    subject: &Subject<'_>,
    label: &[u8],
) -> Result<(), Stop>
    ensures continues { Continues pdb.old pdb.new }
    ensures text { pdb.new.told ≡ true → OnOk result (out.new.items ≡ out.old.items ++ listed_types_text subject.now label.now (stream_of pdb.old.file 2 None)) }
    ensures unwritten { IfErr result (StopsComposing (MayFail pdb.old pdb.new)) }
{
    match pdb.type_information() {
        Ok(types) => {
            put_list(out, subject, label, types.iter())?;
            put_members(alloc, out, subject, &types)
        }
        Err(e) => put_items_refusal(out, subject, label, e),
    }
}

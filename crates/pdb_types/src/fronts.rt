//! What stands before a declared name.

ghost use Rattle.std.specs.Prelude.{◌≡◌, ◌++◌, ◌≤◌, ◌<◌, ◌+◌, ◌*◌, codes, false, length, OnErr, OnOk};
ghost use Rattle.std.specs.Option.{option_map};
ghost use Rattle.pdb_types.specs.Cuts.{IsCut, IsKept};
ghost use Rattle.pdb_types.specs.FullTypes.{first_definition};
ghost use Rattle.pdb_types.specs.TypeFlags.{pointer_qualifiers};
ghost use Rattle.pdb_types.specs.TypeReading.{shown_type};
ghost use Rattle.pdb_types.specs.TypeTexts.{member_gap, modified, name_in, parts, parts_of, pointed, star};
ghost use Rattle.pdb_types.specs.Visits.{Bounded, Paid, is_restricted};

use crate::cuts::put;
use crate::definitions::TypeDefinitions;
use crate::names::{put_list, put_name_at};
use crate::pieces::{put_record_name, put_table, put_words_before, put_words_behind};
use crate::pointer::PointerMode;
use crate::records::{Modifier, Pointer};
use crate::shapes::{Shape, is_right, put_mark, put_member_gap, shape_of};
use crate::simple::put_simple;
use crate::type_data::TypeData;
use crate::visits::visit;
use pdb_base::Steps;
use pdb_items::ItemFinder;
use std::alloc::AllocError;

// A star of a pointer to a member of a class.
#[cycle(pieces)]
#[tactic(auto, using(crate::proofs::CutLemmas::kept_then, crate::proofs::CutLemmas::on_kept, crate::proofs::CutLemmas::cut_three))]
fn put_member_mark(
    types: &ItemFinder<'_>,
    full: &TypeDefinitions<'_>,
    out: &mut Vec<u8>,
    limit: usize,
    shape: Shape,
    class: u32,
    depth: u32,
    steps: &mut Steps,
) -> Result<(), AllocError>
    requires short { length out.old.items ≤ limit }
    requires deep { depth < 64 }
    ensures ok { OnOk result (IsCut limit out.old.items (member_gap shape ++ (name_in (parts types.now (first_definition full.now) depth class) ++ codes "::*")) out.new.items) }
    ensures err { OnErr result (IsKept out.old.items out.new.items) }
    ensures paid { OnOk result (length out.new.items < limit → Paid 0 steps.old.count (steps.new.count + 64) out.old.items out.new.items) }
    ensures most { Bounded (256 * depth) limit steps.old.count steps.new.count out.old.items }
    ensures idle { limit ≤ length out.old.items → steps.new.count ≡ steps.old.count }
{
    put_member_gap(out, limit, shape)?;
    put_name_at(types, full, out, limit, class, depth, steps)?;
    put(out, limit, b"::*")
}

// What stands between the front of what is pointed to and the qualifiers.
#[cycle(pieces)]
fn put_star(
    types: &ItemFinder<'_>,
    full: &TypeDefinitions<'_>,
    out: &mut Vec<u8>,
    limit: usize,
    shape: Shape,
    mode: PointerMode,
    depth: u32,
    steps: &mut Steps,
) -> Result<(), AllocError>
    requires short { length out.old.items ≤ limit }
    requires deep { depth < 64 }
    ensures ok { OnOk result (IsCut limit out.old.items (star (λ j. name_in (parts types.now (first_definition full.now) depth j)) shape mode) out.new.items) }
    ensures err { OnErr result (IsKept out.old.items out.new.items) }
    ensures paid { OnOk result (length out.new.items < limit → Paid 0 steps.old.count (steps.new.count + 64) out.old.items out.new.items) }
    ensures most { Bounded (256 * depth) limit steps.old.count steps.new.count out.old.items }
    ensures idle { limit ≤ length out.old.items → steps.new.count ≡ steps.old.count }
{
    match mode {
        PointerMode::Pointer => put_mark(out, limit, shape, b"*"),
        PointerMode::LvalueReference => put_mark(out, limit, shape, b"&"),
        PointerMode::RvalueReference => put_mark(out, limit, shape, b"&&"),
        PointerMode::DataMember(class) | PointerMode::MemberFunction(class) => {
            put_member_mark(types, full, out, limit, shape, class.0, depth, steps)
        }
    }
}

// The front of a pointer.
#[cycle(pieces)]
#[tactic(auto, using(crate::proofs::CutLemmas::kept_then, crate::proofs::CutLemmas::on_kept, crate::proofs::CutLemmas::cut_three))]
fn put_pointer_front(
    types: &ItemFinder<'_>,
    full: &TypeDefinitions<'_>,
    out: &mut Vec<u8>,
    limit: usize,
    pointer: Pointer,
    depth: u32,
    steps: &mut Steps,
) -> Result<(), AllocError>
    requires short { length out.old.items ≤ limit }
    requires deep { depth < 64 }
    ensures ok { OnOk result (IsCut limit out.old.items ((pointed (λ j. name_in (parts types.now (first_definition full.now) depth j)) pointer.mode (pointer_qualifiers pointer.attributes.0) (parts types.now (first_definition full.now) depth pointer.referent.0)).front) out.new.items) }
    ensures err { OnErr result (IsKept out.old.items out.new.items) }
    ensures paid { OnOk result (length out.new.items < limit → Paid depth steps.old.count steps.new.count out.old.items out.new.items) }
    ensures most { Bounded (254 * (depth + 1)) limit steps.old.count (steps.new.count + 1) out.old.items }
{
    put_front(types, full, out, limit, pointer.referent.0, depth, steps)?;
    let shape = shape_of(types, pointer.referent.0, depth, steps);
    put_star(types, full, out, limit, shape, pointer.mode, depth, steps)?;
    put_words_behind(out, limit, pointer.attributes.qualifiers())
}

// The front of a type with qualifiers. Which side they stand on is asked only where there is one.
#[cycle(pieces)]
#[tactic(auto, using(crate::proofs::CutLemmas::kept_then, crate::proofs::CutLemmas::on_kept, crate::proofs::CutLemmas::cut_then, crate::proofs::NameSteps::without_words))]
fn put_modifier_front(
    types: &ItemFinder<'_>,
    full: &TypeDefinitions<'_>,
    out: &mut Vec<u8>,
    limit: usize,
    modifier: Modifier,
    depth: u32,
    steps: &mut Steps,
) -> Result<(), AllocError>
    requires short { length out.old.items ≤ limit }
    requires deep { depth < 64 }
    requires unrestricted { modifier.qualifiers.is_restrict ≡ false }
    ensures ok { OnOk result (IsCut limit out.old.items ((modified modifier.qualifiers (parts types.now (first_definition full.now) depth modifier.underlying.0)).front) out.new.items) }
    ensures err { OnErr result (IsKept out.old.items out.new.items) }
    ensures paid { OnOk result (length out.new.items < limit → Paid depth steps.old.count steps.new.count out.old.items out.new.items) }
    ensures most { Bounded (254 * (depth + 1)) limit steps.old.count (steps.new.count + 1) out.old.items }
{
    if modifier.qualifiers.is_empty() {
        return put_front(types, full, out, limit, modifier.underlying.0, depth, steps);
    }
    if is_right(types, modifier.underlying.0, depth, steps) {
        put_front(types, full, out, limit, modifier.underlying.0, depth, steps)?;
        put_words_behind(out, limit, modifier.qualifiers)
    } else {
        put_words_before(out, limit, modifier.qualifiers)?;
        put_front(types, full, out, limit, modifier.underlying.0, depth, steps)
    }
}

// What stands before a declared name, of a type that says this.
#[cycle(pieces)]
pub(crate) fn put_front_by(
    types: &ItemFinder<'_>,
    full: &TypeDefinitions<'_>,
    out: &mut Vec<u8>,
    limit: usize,
    says: Option<TypeData<'_>>,
    depth: u32,
    steps: &mut Steps,
) -> Result<(), AllocError>
    requires short { length out.old.items ≤ limit }
    requires deep { depth < 64 }
    requires unrestricted { is_restricted (option_map shown_type says) ≡ false }
    ensures ok { OnOk result (IsCut limit out.old.items ((parts_of types.now (first_definition full.now) depth (parts types.now (first_definition full.now) depth) (option_map shown_type says.entry)).front) out.new.items) }
    ensures err { OnErr result (IsKept out.old.items out.new.items) }
    ensures paid { OnOk result (length out.new.items < limit → Paid depth steps.old.count steps.new.count out.old.items out.new.items) }
    ensures most { Bounded (254 * (depth + 1)) limit steps.old.count (steps.new.count + 1) out.old.items }
{
    match says {
        None => put(out, limit, b"??"),
        Some(TypeData::Modifier(it)) => put_modifier_front(
            types, full, out, limit, it, depth, steps,
        ),
        Some(TypeData::Pointer(it)) => put_pointer_front(types, full, out, limit, it, depth, steps),
        Some(TypeData::Array(it)) => put_front(types, full, out, limit, it.element.0, depth, steps),
        Some(TypeData::Bitfield(it)) => put_front(
            types,
            full,
            out,
            limit,
            it.underlying.0,
            depth,
            steps,
        ),
        Some(TypeData::Procedure(it)) => {
            put_front(types, full, out, limit, it.return_type.0, depth, steps)
        }
        Some(TypeData::MemberFunction(it)) => {
            put_front(types, full, out, limit, it.return_type.0, depth, steps)
        }
        Some(TypeData::ArgumentList(it)) => put_list(types, full, out, limit, &it, depth, steps),
        Some(TypeData::Class(it)) => put_record_name(out, limit, it.tag.name.as_bytes()),
        Some(TypeData::Union(it)) => put_record_name(out, limit, it.tag.name.as_bytes()),
        Some(TypeData::Enumeration(it)) => put_record_name(out, limit, it.tag.name.as_bytes()),
        Some(TypeData::VirtualTableShape(it)) => put_table(out, limit, it.methods),
        Some(TypeData::FieldList) => put(out, limit, b"<field list>"),
        Some(TypeData::Alias(it)) => put_record_name(out, limit, it.name.as_bytes()),
    }
}

// What stands before a declared name.
#[cycle(pieces)]
#[tactic(auto, using(crate::proofs::NameSteps::parts_simple, crate::proofs::NameSteps::parts_end, crate::proofs::NameSteps::parts_step, crate::proofs::VisitSteps::unrestricted, crate::proofs::CutLemmas::cut_full))]
pub(crate) fn put_front(
    types: &ItemFinder<'_>,
    full: &TypeDefinitions<'_>,
    out: &mut Vec<u8>,
    limit: usize,
    index: u32,
    depth: u32,
    steps: &mut Steps,
) -> Result<(), AllocError>
    requires short { length out.old.items ≤ limit }
    requires deep { depth ≤ 64 }
    ensures ok { OnOk result (IsCut limit out.old.items ((parts types.now (first_definition full.now) depth index).front) out.new.items) }
    ensures err { OnErr result (IsKept out.old.items out.new.items) }
    ensures paid { OnOk result (length out.new.items < limit → Paid depth steps.old.count steps.new.count out.old.items out.new.items) }
    ensures most { Bounded (254 * depth) limit steps.old.count steps.new.count out.old.items }
    ensures idle { limit ≤ length out.old.items → steps.new.count ≡ steps.old.count }
{
    if index < 0x1000 {
        return put_simple(out, limit, index);
    }
    if depth == 0 {
        return put(out, limit, b"<...>");
    }
    if out.len() >= limit {
        return Ok(());
    }
    let says = visit(types, index, steps);
    put_front_by(types, full, out, limit, says, depth - 1, steps)
}

//! The names of types, and of the arguments of functions.

ghost use Rattle.std.specs.Prelude.{◌≡◌, ◌++◌, ◌≤◌, ◌<◌, ◌+◌, ◌*◌, false, length, OnErr, OnOk};
ghost use Rattle.std.specs.Option.{option_map};
ghost use Rattle.pdb_types.specs.Cuts.{IsCut, IsKept};
ghost use Rattle.pdb_types.specs.FullTypes.{first_definition};
ghost use Rattle.pdb_types.specs.TypeReading.{arguments_of, shown_type};
ghost use Rattle.pdb_types.specs.TypeTexts.{arguments_by, arguments_text, last_text, list_text, name_in, parts, parts_of};
ghost use Rattle.pdb_types.specs.Visits.{Bounded, Paid, is_restricted};

use crate::backs::put_back_by;
use crate::cuts::put;
use crate::definitions::TypeDefinitions;
use crate::fronts::put_front_by;
use crate::records::ArgumentList;
use crate::shapes::shape_by;
use crate::simple::put_simple;
use crate::type_data::TypeData;
use crate::visits::visit;
use pdb_base::{Steps, TypeIndex};
use pdb_items::ItemFinder;
use std::alloc::AllocError;

// The name of a type that says this.
#[cycle(pieces)]
#[tactic(auto, using(crate::proofs::CutLemmas::kept_then, crate::proofs::CutLemmas::on_kept, crate::proofs::CutLemmas::cut_then, crate::proofs::CutLemmas::cut_none))]
fn put_name_by(
    types: &ItemFinder<'_>,
    full: &TypeDefinitions<'_>,
    out: &mut Vec<u8>,
    limit: usize,
    says: Option<TypeData<'_>>,
    depth: u32,
    steps: &mut Steps,
) -> Result<(), AllocError>
    requires short { length out.old.items ≤ limit }
    requires deep { depth < 64 }
    requires unrestricted { is_restricted (option_map shown_type says) ≡ false }
    ensures ok { OnOk result (IsCut limit out.old.items (name_in (parts_of types.now (first_definition full.now) depth (parts types.now (first_definition full.now) depth) (option_map shown_type says.entry))) out.new.items) }
    ensures err { OnErr result (IsKept out.old.items out.new.items) }
    ensures paid { OnOk result (length out.new.items < limit → Paid (3 * (depth + 1)) steps.old.count (steps.new.count + 1) out.old.items out.new.items) }
    ensures most { Bounded (256 * (depth + 1)) limit steps.old.count (steps.new.count + 1) out.old.items }
{
    put_front_by(types, full, out, limit, says, depth, steps)?;
    if shape_by(types, says, depth, steps).is_function() {
        put(out, limit, b" ")?;
    }
    put_back_by(types, full, out, limit, says, depth, steps)
}

// The name of the type of an index.
#[cycle(pieces)]
#[tactic(auto, using(crate::proofs::NameSteps::parts_simple, crate::proofs::NameSteps::parts_end, crate::proofs::NameSteps::parts_step, crate::proofs::VisitSteps::unrestricted, crate::proofs::CutLemmas::cut_none, crate::proofs::CutLemmas::cut_full))]
pub(crate) fn put_name_at(
    types: &ItemFinder<'_>,
    full: &TypeDefinitions<'_>,
    out: &mut Vec<u8>,
    limit: usize,
    index: u32,
    depth: u32,
    steps: &mut Steps,
) -> Result<(), AllocError>
    requires short { length out.old.items ≤ limit }
    requires deep { depth ≤ 64 }
    ensures ok { OnOk result (IsCut limit out.old.items (name_in (parts types.now (first_definition full.now) depth index)) out.new.items) }
    ensures err { OnErr result (IsKept out.old.items out.new.items) }
    ensures paid { OnOk result (length out.new.items < limit → Paid (3 * depth) steps.old.count steps.new.count out.old.items out.new.items) }
    ensures most { Bounded (256 * depth) limit steps.old.count steps.new.count out.old.items }
    ensures idle { limit ≤ length out.old.items → steps.new.count ≡ steps.old.count }
{
    if index < 0x1000 {
        return put_simple(out, limit, index);
    }
    if depth == 0 {
        return put(out, limit, b"<...>");
    }
    if out.len() >= limit {
        return Ok(());
    }
    let says = visit(types, index, steps);
    put_name_by(types, full, out, limit, says, depth - 1, steps)
}

// The last argument of a list.
#[cycle(pieces)]
fn put_last(
    types: &ItemFinder<'_>,
    full: &TypeDefinitions<'_>,
    out: &mut Vec<u8>,
    limit: usize,
    argument: TypeIndex,
    depth: u32,
    steps: &mut Steps,
) -> Result<(), AllocError>
    requires short { length out.old.items ≤ limit }
    requires deep { depth < 64 }
    ensures ok { OnOk result (IsCut limit out.old.items (last_text (λ j. name_in (parts types.now (first_definition full.now) depth j)) argument) out.new.items) }
    ensures err { OnErr result (IsKept out.old.items out.new.items) }
    ensures paid { OnOk result (length out.new.items < limit → Paid (3 * depth) steps.old.count steps.new.count out.old.items out.new.items) }
    ensures most { Bounded (256 * depth) limit steps.old.count steps.new.count out.old.items }
    ensures idle { limit ≤ length out.old.items → steps.new.count ≡ steps.old.count }
{
    if argument.0 == 0 {
        put(out, limit, b"...")
    } else {
        put_name_at(types, full, out, limit, argument.0, depth, steps)
    }
}

// A list of arguments.
#[cycle(pieces)]
#[tactic(auto, using(crate::proofs::CutLemmas::kept_then, crate::proofs::CutLemmas::on_kept))]
pub(crate) fn put_list(
    types: &ItemFinder<'_>,
    full: &TypeDefinitions<'_>,
    out: &mut Vec<u8>,
    limit: usize,
    arguments: &ArgumentList<'_>,
    depth: u32,
    steps: &mut Steps,
) -> Result<(), AllocError>
    requires short { length out.old.items ≤ limit }
    requires deep { depth < 64 }
    ensures ok { OnOk result (IsCut limit out.old.items (list_text (λ j. name_in (parts types.now (first_definition full.now) depth j)) (arguments_of arguments.now)) out.new.items) }
    ensures err { OnErr result (IsKept out.old.items out.new.items) }
    ensures paid { OnOk result (length out.new.items < limit → Paid 0 steps.old.count (steps.new.count + 64) out.old.items out.new.items) }
    ensures most { Bounded (256 * depth) limit steps.old.count steps.new.count out.old.items }
    ensures idle { limit ≤ length out.old.items → steps.new.count ≡ steps.old.count }
{
    let count = arguments.len();
    if count == 0 {
        return put(out, limit, b"()");
    }
    let last = count - 1;
    put(out, limit, b"(")?;
    for k in 0..last {
        put_name_at(types, full, out, limit, arguments.at(k).0, depth, steps)?;
        put(out, limit, b", ")?;
    }
    put_last(types, full, out, limit, arguments.at(last), depth, steps)?;
    put(out, limit, b")")
}

// The arguments of a function whose list says this.
#[cycle(pieces)]
fn put_arguments_by(
    types: &ItemFinder<'_>,
    full: &TypeDefinitions<'_>,
    out: &mut Vec<u8>,
    limit: usize,
    says: Option<TypeData<'_>>,
    depth: u32,
    steps: &mut Steps,
) -> Result<(), AllocError>
    requires short { length out.old.items ≤ limit }
    requires deep { depth < 64 }
    ensures ok { OnOk result (IsCut limit out.old.items (arguments_by (parts_of types.now (first_definition full.now) depth (parts types.now (first_definition full.now) depth) (option_map shown_type says.entry)).front (option_map shown_type says.entry)) out.new.items) }
    ensures err { OnErr result (IsKept out.old.items out.new.items) }
    ensures paid { OnOk result (length out.new.items < limit → Paid 0 steps.old.count (steps.new.count + 1) out.old.items out.new.items) }
    ensures most { Bounded (256 * depth) limit steps.old.count steps.new.count out.old.items }
    ensures idle { limit ≤ length out.old.items → steps.new.count ≡ steps.old.count }
{
    match says {
        Some(TypeData::ArgumentList(it)) => put_list(types, full, out, limit, &it, depth, steps),
        _ => put(out, limit, b"(??)"),
    }
}

// The arguments of a function, by the index of their list.
#[cycle(pieces)]
#[tactic(auto, using(crate::proofs::NameSteps::arguments_low, crate::proofs::NameSteps::arguments_end, crate::proofs::NameSteps::arguments_step))]
pub(crate) fn put_arguments(
    types: &ItemFinder<'_>,
    full: &TypeDefinitions<'_>,
    out: &mut Vec<u8>,
    limit: usize,
    index: u32,
    depth: u32,
    steps: &mut Steps,
) -> Result<(), AllocError>
    requires short { length out.old.items ≤ limit }
    requires deep { depth < 64 }
    ensures ok { OnOk result (IsCut limit out.old.items (arguments_text types.now depth (parts types.now (first_definition full.now) depth) index) out.new.items) }
    ensures err { OnErr result (IsKept out.old.items out.new.items) }
    ensures paid { OnOk result (length out.new.items < limit → Paid 0 steps.old.count steps.new.count out.old.items out.new.items) }
    ensures most { Bounded (254 * depth) limit steps.old.count steps.new.count out.old.items }
    ensures idle { limit ≤ length out.old.items → steps.new.count ≤ steps.old.count + 1 }
{
    if index < 0x1000 {
        return put(out, limit, b"(??)");
    }
    if depth == 0 {
        return put(out, limit, b"(<...>)");
    }
    let says = visit(types, index, steps);
    put_arguments_by(types, full, out, limit, says, depth - 1, steps)
}

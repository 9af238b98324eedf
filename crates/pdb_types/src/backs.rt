//! What stands behind a declared name.

ghost use Rattle.std.specs.Prelude.{◌≡◌, ◌++◌, ◌≤◌, ◌<◌, ◌+◌, ◌*◌, codes, length, not, OnErr, OnOk};
ghost use Rattle.std.specs.Fmt.{decimal};
ghost use Rattle.std.specs.Option.{option_map};
ghost use Rattle.pdb_types.specs.Cuts.{IsCut, IsKept};
ghost use Rattle.pdb_types.specs.FullTypes.{first_definition, size_of};
ghost use Rattle.pdb_types.specs.TypeReading.{shown_type};
ghost use Rattle.pdb_types.specs.TypeTexts.{arguments_text, count_text, is_plain, object_text, parts, parts_of, small, small_size, where_so};
ghost use Rattle.pdb_types.specs.Visits.{Bounded, Paid};

use crate::cuts::{put, put_number};
use crate::definitions::TypeDefinitions;
use crate::names::put_arguments;
use crate::pieces::{put_count, put_object};
use crate::records::{Array, Bitfield, MemberFunction, Procedure};
use crate::type_data::TypeData;
use crate::visits::visit_wrapper;
use pdb_base::Steps;
use pdb_items::ItemFinder;
use std::alloc::AllocError;

// The same, of a type that says this.
#[cycle(pieces)]
#[tactic(auto, using(crate::proofs::CutLemmas::kept_then, crate::proofs::CutLemmas::on_kept, crate::proofs::CutLemmas::cut_then))]
fn put_closed_by(
    types: &ItemFinder<'_>,
    full: &TypeDefinitions<'_>,
    out: &mut Vec<u8>,
    limit: usize,
    says: Option<TypeData<'_>>,
    depth: u32,
    steps: &mut Steps,
) -> Result<(), AllocError>
    requires short { length out.old.items ≤ limit }
    requires deep { depth < 64 }
    ensures ok { OnOk result (IsCut limit out.old.items (where_so (not (is_plain (parts_of types.now (first_definition full.now) depth (parts types.now (first_definition full.now) depth) (option_map shown_type says.entry)).shape)) (codes ")") ++ (parts_of types.now (first_definition full.now) depth (parts types.now (first_definition full.now) depth) (option_map shown_type says.entry)).back) out.new.items) }
    ensures err { OnErr result (IsKept out.old.items out.new.items) }
    ensures paid { OnOk result (length out.new.items < limit → Paid depth steps.old.count steps.new.count out.old.items out.new.items) }
    ensures most { Bounded (254 * (depth + 1)) limit steps.old.count (steps.new.count + 1) out.old.items }
{
    match says {
        Some(TypeData::Modifier(it)) => {
            put_pointer_back(types, full, out, limit, it.underlying.0, depth, steps)
        }
        Some(TypeData::Array(_) | TypeData::Procedure(_) | TypeData::MemberFunction(_)) => {
            put(out, limit, b")")?;
            put_back_by(types, full, out, limit, says, depth, steps)
        }
        _ => put_back_by(types, full, out, limit, says, depth, steps),
    }
}

// What stands behind a star before a type: a parenthesis unless that is plain, and what stands behind the type.
#[cycle(pieces)]
#[tactic(auto, using(crate::proofs::NameSteps::parts_simple, crate::proofs::NameSteps::parts_end, crate::proofs::CutLemmas::cut_none, crate::proofs::CutLemmas::cut_full))]
fn put_pointer_back(
    types: &ItemFinder<'_>,
    full: &TypeDefinitions<'_>,
    out: &mut Vec<u8>,
    limit: usize,
    referent: u32,
    depth: u32,
    steps: &mut Steps,
) -> Result<(), AllocError>
    requires short { length out.old.items ≤ limit }
    requires deep { depth ≤ 64 }
    ensures ok { OnOk result (IsCut limit out.old.items (where_so (not (is_plain (parts types.now (first_definition full.now) depth referent).shape)) (codes ")") ++ (parts types.now (first_definition full.now) depth referent).back) out.new.items) }
    ensures err { OnErr result (IsKept out.old.items out.new.items) }
    ensures paid { OnOk result (length out.new.items < limit → Paid depth steps.old.count steps.new.count out.old.items out.new.items) }
    ensures most { Bounded (254 * depth) limit steps.old.count steps.new.count out.old.items }
    ensures idle { limit ≤ length out.old.items → steps.new.count ≡ steps.old.count }
{
    if referent < 0x1000 || depth == 0 || out.len() >= limit {
        return Ok(());
    }
    let says = visit_wrapper(types, referent, steps);
    put_closed_by(types, full, out, limit, says, depth - 1, steps)
}

// The back of an array.
#[cycle(pieces)]
#[tactic(auto, using(crate::proofs::CutLemmas::kept_then, crate::proofs::CutLemmas::on_kept, crate::proofs::CutLemmas::cut_four))]
fn put_array_back(
    types: &ItemFinder<'_>,
    full: &TypeDefinitions<'_>,
    out: &mut Vec<u8>,
    limit: usize,
    array: Array,
    depth: u32,
    steps: &mut Steps,
) -> Result<(), AllocError>
    requires short { length out.old.items ≤ limit }
    requires deep { depth < 64 }
    ensures ok { OnOk result (IsCut limit out.old.items (codes "[" ++ (count_text (small array.size) (small_size (size_of types.now (first_definition full.now) array.element.0)) ++ (codes "]" ++ (parts types.now (first_definition full.now) depth array.element.0).back))) out.new.items) }
    ensures err { OnErr result (IsKept out.old.items out.new.items) }
    ensures paid { OnOk result (length out.new.items < limit → Paid depth steps.old.count steps.new.count out.old.items out.new.items) }
    ensures most { Bounded (254 * depth) limit steps.old.count steps.new.count out.old.items }
    ensures idle { limit ≤ length out.old.items → steps.new.count ≡ steps.old.count }
{
    put(out, limit, b"[")?;
    put_count(out, limit, array.size, full.size(types, array.element))?;
    put(out, limit, b"]")?;
    put_back(types, full, out, limit, array.element.0, depth, steps)
}

// The back of the type of a bit field.
#[cycle(pieces)]
#[tactic(auto, using(crate::proofs::CutLemmas::kept_then, crate::proofs::CutLemmas::on_kept, crate::proofs::CutLemmas::cut_three))]
fn put_bits_back(
    types: &ItemFinder<'_>,
    full: &TypeDefinitions<'_>,
    out: &mut Vec<u8>,
    limit: usize,
    bits: Bitfield,
    depth: u32,
    steps: &mut Steps,
) -> Result<(), AllocError>
    requires short { length out.old.items ≤ limit }
    requires deep { depth < 64 }
    ensures ok { OnOk result (IsCut limit out.old.items ((parts types.now (first_definition full.now) depth bits.underlying.0).back ++ (codes " : " ++ decimal bits.len)) out.new.items) }
    ensures err { OnErr result (IsKept out.old.items out.new.items) }
    ensures paid { OnOk result (length out.new.items < limit → Paid depth steps.old.count steps.new.count out.old.items out.new.items) }
    ensures most { Bounded (254 * depth) limit steps.old.count steps.new.count out.old.items }
    ensures idle { limit ≤ length out.old.items → steps.new.count ≡ steps.old.count }
{
    put_back(types, full, out, limit, bits.underlying.0, depth, steps)?;
    put(out, limit, b" : ")?;
    put_number(out, limit, u64::from(bits.len))
}

// The back of a function.
#[cycle(pieces)]
#[tactic(auto, using(crate::proofs::CutLemmas::kept_then, crate::proofs::CutLemmas::on_kept, crate::proofs::CutLemmas::cut_then))]
fn put_procedure_back(
    types: &ItemFinder<'_>,
    full: &TypeDefinitions<'_>,
    out: &mut Vec<u8>,
    limit: usize,
    procedure: Procedure,
    depth: u32,
    steps: &mut Steps,
) -> Result<(), AllocError>
    requires short { length out.old.items ≤ limit }
    requires deep { depth < 64 }
    ensures ok { OnOk result (IsCut limit out.old.items (arguments_text types.now depth (parts types.now (first_definition full.now) depth) procedure.argument_list.0 ++ (parts types.now (first_definition full.now) depth procedure.return_type.0).back) out.new.items) }
    ensures err { OnErr result (IsKept out.old.items out.new.items) }
    ensures paid { OnOk result (length out.new.items < limit → Paid depth steps.old.count steps.new.count out.old.items out.new.items) }
    ensures most { Bounded (254 * depth) limit steps.old.count steps.new.count out.old.items }
    ensures idle { limit ≤ length out.old.items → steps.new.count ≤ steps.old.count + 1 }
{
    put_arguments(
        types,
        full,
        out,
        limit,
        procedure.argument_list.0,
        depth,
        steps,
    )?;
    put_back(
        types,
        full,
        out,
        limit,
        procedure.return_type.0,
        depth,
        steps,
    )
}

// The back of a member function.
#[cycle(pieces)]
#[tactic(auto, using(crate::proofs::CutLemmas::kept_then, crate::proofs::CutLemmas::on_kept, crate::proofs::CutLemmas::cut_then))]
fn put_method_back(
    types: &ItemFinder<'_>,
    full: &TypeDefinitions<'_>,
    out: &mut Vec<u8>,
    limit: usize,
    method: MemberFunction,
    depth: u32,
    steps: &mut Steps,
) -> Result<(), AllocError>
    requires short { length out.old.items ≤ limit }
    requires deep { depth < 64 }
    ensures ok { OnOk result (IsCut limit out.old.items ((arguments_text types.now depth (parts types.now (first_definition full.now) depth) method.argument_list.0 ++ object_text types.now method.this_type.0) ++ (parts types.now (first_definition full.now) depth method.return_type.0).back) out.new.items) }
    ensures err { OnErr result (IsKept out.old.items out.new.items) }
    ensures paid { OnOk result (length out.new.items < limit → Paid depth steps.old.count steps.new.count out.old.items out.new.items) }
    ensures most { Bounded (254 * depth) limit steps.old.count steps.new.count out.old.items }
    ensures idle { limit ≤ length out.old.items → steps.new.count ≤ steps.old.count + 1 }
{
    put_arguments(
        types,
        full,
        out,
        limit,
        method.argument_list.0,
        depth,
        steps,
    )?;
    put_object(types, out, limit, method.this_type.0)?;
    put_back(types, full, out, limit, method.return_type.0, depth, steps)
}

// What stands behind a declared name, of a type that says this.
#[cycle(pieces)]
#[tactic(auto, using(crate::proofs::CutLemmas::cut_none))]
pub(crate) fn put_back_by(
    types: &ItemFinder<'_>,
    full: &TypeDefinitions<'_>,
    out: &mut Vec<u8>,
    limit: usize,
    says: Option<TypeData<'_>>,
    depth: u32,
    steps: &mut Steps,
) -> Result<(), AllocError>
    requires short { length out.old.items ≤ limit }
    requires deep { depth < 64 }
    ensures ok { OnOk result (IsCut limit out.old.items ((parts_of types.now (first_definition full.now) depth (parts types.now (first_definition full.now) depth) (option_map shown_type says.entry)).back) out.new.items) }
    ensures err { OnErr result (IsKept out.old.items out.new.items) }
    ensures paid { OnOk result (length out.new.items < limit → Paid depth steps.old.count steps.new.count out.old.items out.new.items) }
    ensures most { Bounded (254 * (depth + 1)) limit steps.old.count (steps.new.count + 1) out.old.items }
    ensures idle { limit ≤ length out.old.items → steps.new.count ≤ steps.old.count + 1 }
{
    match says {
        Some(TypeData::Modifier(it)) => put_back(
            types,
            full,
            out,
            limit,
            it.underlying.0,
            depth,
            steps,
        ),
        Some(TypeData::Pointer(it)) => put_pointer_back(
            types,
            full,
            out,
            limit,
            it.referent.0,
            depth,
            steps,
        ),
        Some(TypeData::Array(it)) => put_array_back(types, full, out, limit, it, depth, steps),
        Some(TypeData::Bitfield(it)) => put_bits_back(types, full, out, limit, it, depth, steps),
        Some(TypeData::Procedure(it)) => put_procedure_back(
            types, full, out, limit, it, depth, steps,
        ),
        Some(TypeData::MemberFunction(it)) => put_method_back(
            types, full, out, limit, it, depth, steps,
        ),
        _ => Ok(()),
    }
}

// What stands behind a declared name.
#[cycle(pieces)]
#[tactic(auto, using(crate::proofs::NameSteps::parts_simple, crate::proofs::NameSteps::parts_end, crate::proofs::WrapperSteps::back_step, crate::proofs::CutLemmas::cut_none, crate::proofs::CutLemmas::cut_full))]
pub(crate) fn put_back(
    types: &ItemFinder<'_>,
    full: &TypeDefinitions<'_>,
    out: &mut Vec<u8>,
    limit: usize,
    index: u32,
    depth: u32,
    steps: &mut Steps,
) -> Result<(), AllocError>
    requires short { length out.old.items ≤ limit }
    requires deep { depth ≤ 64 }
    ensures ok { OnOk result (IsCut limit out.old.items ((parts types.now (first_definition full.now) depth index).back) out.new.items) }
    ensures err { OnErr result (IsKept out.old.items out.new.items) }
    ensures paid { OnOk result (length out.new.items < limit → Paid depth steps.old.count steps.new.count out.old.items out.new.items) }
    ensures most { Bounded (254 * depth) limit steps.old.count steps.new.count out.old.items }
    ensures idle { limit ≤ length out.old.items → steps.new.count ≡ steps.old.count }
{
    if index < 0x1000 || depth == 0 || out.len() >= limit {
        return Ok(());
    }
    let says = visit_wrapper(types, index, steps);
    put_back_by(types, full, out, limit, says, depth - 1, steps)
}

//! What the names of types depend on beside their texts: whether a pointer needs parentheses, and where qualifiers
//! stand.

ghost use Rattle.std.specs.Prelude.{◌≡◌, ◌++◌, ◌≤◌, ◌<◌, ◌+◌, ℕ, List, Option, length, OnErr, OnOk};
ghost use Rattle.std.specs.Option.{option_map};
ghost use Rattle.pdb_types.specs.Cuts.{IsCut, IsKept};
ghost use Rattle.pdb_types.specs.TypeReading.{shown_type};
ghost use Rattle.pdb_types.specs.TypeTexts.{gap, is_function, is_plain, member_gap, parts, parts_of};

use crate::cuts::put;
use crate::simple::is_simple_pointer;
use crate::type_data::TypeData;
use crate::visits::visit_wrapper;
use pdb_base::Steps;
use pdb_items::ItemFinder;
use std::alloc::AllocError;

// What a type is to a pointer to it, which needs parentheses unless it is plain.
#[derive(Clone, Copy)]
pub(crate) enum Shape {
    Plain,
    Array,
    Function,
}

impl Shape {
    pub(crate) fn is_plain(self) -> bool
        ensures { result ≡ is_plain self }
    {
        match self {
            Shape::Plain => true,
            Shape::Array | Shape::Function => false,
        }
    }

    pub(crate) fn is_function(self) -> bool
        ensures { result ≡ is_function self }
    {
        match self {
            Shape::Function => true,
            Shape::Plain | Shape::Array => false,
        }
    }
}

// The shape of a type that says this.
#[cycle(shapes)]
pub(crate) fn shape_by(
    types: &ItemFinder<'_>,
    says: Option<TypeData<'_>>,
    depth: u32,
    steps: &mut Steps,
) -> Shape
    ensures said { (first : List ℕ → Option ℕ) → result ≡ (parts_of types.now first depth (parts types.now first depth) (option_map shown_type says.entry)).shape }
    ensures few { steps.new.count ≤ steps.old.count + depth }
{
    match says {
        Some(TypeData::Modifier(modifier)) => shape_of(types, modifier.underlying.0, depth, steps),
        Some(TypeData::Array(_)) => Shape::Array,
        Some(TypeData::Procedure(_) | TypeData::MemberFunction(_)) => Shape::Function,
        _ => Shape::Plain,
    }
}

// The shape of the type of an index.
#[cycle(shapes)]
#[tactic(auto, using(crate::proofs::NameSteps::parts_simple, crate::proofs::NameSteps::parts_end, crate::proofs::WrapperSteps::shape_step))]
pub(crate) fn shape_of(types: &ItemFinder<'_>, index: u32, depth: u32, steps: &mut Steps) -> Shape
    ensures said { (first : List ℕ → Option ℕ) → result ≡ (parts types.now first depth index).shape }
    ensures few { steps.new.count ≤ steps.old.count + depth }
{
    if index < 0x1000 || depth == 0 {
        return Shape::Plain;
    }
    let says = visit_wrapper(types, index, steps);
    shape_by(types, says, depth - 1, steps)
}

// Whether qualifiers stand behind the front of a type that says this.
#[cycle(sides)]
fn is_right_by(
    types: &ItemFinder<'_>,
    says: Option<TypeData<'_>>,
    depth: u32,
    steps: &mut Steps,
) -> bool
    ensures said { (first : List ℕ → Option ℕ) → result ≡ (parts_of types.now first depth (parts types.now first depth) (option_map shown_type says.entry)).is_right }
    ensures few { steps.new.count ≤ steps.old.count + depth }
{
    match says {
        Some(TypeData::Modifier(modifier)) => is_right(types, modifier.underlying.0, depth, steps),
        Some(TypeData::Array(array)) => is_right(types, array.element.0, depth, steps),
        Some(TypeData::Pointer(_)) => true,
        _ => false,
    }
}

// Whether qualifiers stand behind the front of the type of an index.
#[cycle(sides)]
#[tactic(auto, using(crate::proofs::NameSteps::parts_simple, crate::proofs::NameSteps::parts_end, crate::proofs::WrapperSteps::side_step))]
pub(crate) fn is_right(types: &ItemFinder<'_>, index: u32, depth: u32, steps: &mut Steps) -> bool
    ensures said { (first : List ℕ → Option ℕ) → result ≡ (parts types.now first depth index).is_right }
    ensures few { steps.new.count ≤ steps.old.count + depth }
{
    if index < 0x1000 {
        return is_simple_pointer(index);
    }
    if depth == 0 {
        return false;
    }
    let says = visit_wrapper(types, index, steps);
    is_right_by(types, says, depth - 1, steps)
}

// What stands between the front of a type of this shape and a star.
#[tactic(auto, using(crate::proofs::CutLemmas::cut_none))]
fn put_gap(out: &mut Vec<u8>, limit: usize, shape: Shape) -> Result<(), AllocError>
    requires { length out.old.items ≤ limit }
    ensures ok { OnOk result (IsCut limit out.old.items (gap shape) out.new.items) }
    ensures err { OnErr result (IsKept out.old.items out.new.items) }
{
    if shape.is_plain() {
        Ok(())
    } else {
        put(out, limit, b" (")
    }
}

// The same before the class of a member.
pub(crate) fn put_member_gap(
    out: &mut Vec<u8>,
    limit: usize,
    shape: Shape,
) -> Result<(), AllocError>
    requires { length out.old.items ≤ limit }
    ensures ok { OnOk result (IsCut limit out.old.items (member_gap shape) out.new.items) }
    ensures err { OnErr result (IsKept out.old.items out.new.items) }
    ensures long { OnOk result (length out.new.items < limit → length out.old.items < length out.new.items) }
{
    if shape.is_plain() {
        put(out, limit, b" ")
    } else {
        put(out, limit, b" (")
    }
}

// A star of a pointer or a reference.
#[tactic(auto, using(crate::proofs::CutLemmas::kept_then, crate::proofs::CutLemmas::on_kept, crate::proofs::CutLemmas::cut_then))]
pub(crate) fn put_mark(
    out: &mut Vec<u8>,
    limit: usize,
    shape: Shape,
    mark: &[u8],
) -> Result<(), AllocError>
    requires short { length out.old.items ≤ limit }
    requires marked { 0 < length mark.now }
    ensures ok { OnOk result (IsCut limit out.old.items (gap shape ++ mark.now) out.new.items) }
    ensures err { OnErr result (IsKept out.old.items out.new.items) }
    ensures long { OnOk result (length out.new.items < limit → length out.old.items < length out.new.items) }
{
    put_gap(out, limit, shape)?;
    put(out, limit, mark)
}

//! Declarations of names with types, as far as they go.

ghost use Rattle.std.specs.Prelude.{◌≡◌, ◌≤◌, ◌<◌, ◌+◌, ◌*◌, ◌++◌, drop, length, OnErr, OnOk};
ghost use Rattle.pdb_types.specs.Cuts.{IsCut, IsKept};
ghost use Rattle.pdb_types.specs.FullTypes.{first_definition};
ghost use Rattle.pdb_types.specs.TypeTexts.{parts};
ghost use Rattle.pdb_types.specs.Declarations.{blank_behind, declared_in, shown_declaration};
ghost use Rattle.pdb_types.specs.Visits.{Bounded, Paid};

use crate::backs::put_back;
use crate::cuts::put;
use crate::definitions::TypeDefinitions;
use crate::fronts::put_front;
use pdb_base::{Steps, TypeIndex};
use pdb_items::ItemFinder;
use std::alloc::AllocError;

/// How deep records may stand in one another.
const DEPTH: u32 = 64;

/// How many bytes a declaration has at most, without the mark.
const LENGTH: usize = 65_536;

// What stands between a front and a name.
fn blank_behind(front: &[u8]) -> &'static [u8]
    ensures { result.now ≡ blank_behind front.now }
{
    let count = front.len();
    if count > 0 && matches!(front[count - 1], b'*' | b'&' | b'(') {
        b""
    } else {
        b" "
    }
}

// A front, and what stands between it and a name.
#[tactic(auto, using(crate::proofs::CutLemmas::kept_then, crate::proofs::CutLemmas::on_kept, crate::proofs::DeclarationSteps::front_then))]
fn put_front_and_blank(
    types: &ItemFinder<'_>,
    definitions: &TypeDefinitions<'_>,
    out: &mut Vec<u8>,
    limit: usize,
    index: u32,
    steps: &mut Steps,
) -> Result<(), AllocError>
    requires { length out.old.items ≤ limit }
    ensures ok { OnOk result (IsCut limit out.old.items ((parts types.now (first_definition definitions.now) 64 index).front ++ blank_behind (parts types.now (first_definition definitions.now) 64 index).front) out.new.items) }
    ensures err { OnErr result (IsKept out.old.items out.new.items) }
    ensures paid { OnOk result (length out.new.items < limit → Paid 64 steps.old.count steps.new.count out.old.items out.new.items) }
    ensures most { Bounded 16256 limit steps.old.count steps.new.count out.old.items }
{
    let start = out.len();
    put_front(types, definitions, out, limit, index, DEPTH, steps)?;
    let blank = blank_behind(out.as_slice().split_at(start).1);
    put(out, limit, blank)
}

// A declaration, as far as a limit goes.
#[tactic(auto, using(crate::proofs::CutLemmas::kept_then, crate::proofs::CutLemmas::on_kept, crate::proofs::DeclarationSteps::declared_parts))]
fn put_declared(
    types: &ItemFinder<'_>,
    definitions: &TypeDefinitions<'_>,
    out: &mut Vec<u8>,
    limit: usize,
    index: u32,
    name: &[u8],
    steps: &mut Steps,
) -> Result<(), AllocError>
    requires { length out.old.items ≤ limit }
    ensures ok { OnOk result (IsCut limit out.old.items (declared_in name.now (parts types.now (first_definition definitions.now) 64 index)) out.new.items) }
    ensures err { OnErr result (IsKept out.old.items out.new.items) }
    ensures paid { OnOk result (length out.new.items < limit → Paid 128 steps.old.count steps.new.count out.old.items out.new.items) }
    ensures most { Bounded 16384 limit steps.old.count steps.new.count out.old.items }
{
    put_front_and_blank(types, definitions, out, limit, index, steps)?;
    put(out, limit, name)?;
    put_back(types, definitions, out, limit, index, DEPTH, steps)
}

/// Writes the declaration of a name with a type in C++, as `int (*name)(char)`, behind what the buffer holds. It has at
/// most 65,536 bytes, the name among them; what is cut off shows as `<...>`, as in `put_name`.
pub fn put_declaration(
    types: &ItemFinder<'_>,
    definitions: &TypeDefinitions<'_>,
    out: &mut Vec<u8>,
    index: TypeIndex,
    name: &[u8],
) -> Result<(), AllocError>
    ensures ok { OnOk result (out.new.items ≡ out.old.items ++ shown_declaration types.now (first_definition definitions.now) index.0 name.now) }
    ensures err { OnErr result (IsKept out.old.items out.new.items) }
{
    put_declaration_counted(types, definitions, out, index, name, &mut Steps::new())
}

/// The same as `put_declaration`, with a step for each record that is read to follow types. A declaration takes at most
/// 128 for each byte that is written, and 128 more. One that is cut off takes at most 4 for each of 65,537 bytes and 64
/// levels.
#[tactic(auto, unfolding(crate::specs::Declarations::shown_declaration), using(crate::proofs::CutLemmas::cut_short, crate::proofs::CutLemmas::cut_long, crate::proofs::CutLemmas::kept_cut))]
pub fn put_declaration_counted(
    types: &ItemFinder<'_>,
    definitions: &TypeDefinitions<'_>,
    out: &mut Vec<u8>,
    index: TypeIndex,
    name: &[u8],
    steps: &mut Steps,
) -> Result<(), AllocError>
    ensures ok { OnOk result (out.new.items ≡ out.old.items ++ shown_declaration types.now (first_definition definitions.now) index.0 name.now) }
    ensures err { OnErr result (IsKept out.old.items out.new.items) }
    ensures paid { OnOk result (length out.new.items ≤ length out.old.items + 65536 → Paid 128 steps.old.count steps.new.count out.old.items out.new.items) }
    ensures visits { steps.new.count ≤ steps.old.count + 4 * 64 * 65537 }
{
    let start = out.len();
    let limit = start + LENGTH + 1;
    put_declared(types, definitions, out, limit, index.0, name, steps)?;
    if out.len() > start + LENGTH {
        out.truncate(start + LENGTH);
        out.extend_from_slice(b"<...>")?;
    }
    Ok(())
}

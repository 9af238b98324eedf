//! The name of a type, as far as it goes.

ghost use Rattle.std.specs.Prelude.{◌≡◌, ◌++◌, ◌≤◌, ◌<◌, ◌+◌, ◌*◌, length, take, OnErr, OnOk};
ghost use Rattle.pdb_types.specs.Cuts.{IsKept};
ghost use Rattle.pdb_types.specs.FullTypes.{first_definition};
ghost use Rattle.pdb_types.specs.TypeTexts.{shown_name};
ghost use Rattle.pdb_types.specs.Visits.{Paid};

use crate::definitions::TypeDefinitions;
use crate::names::put_name_at;
use pdb_base::{Steps, TypeIndex};
use pdb_items::ItemFinder;
use std::alloc::AllocError;

/// How deep records may stand in one another.
const DEPTH: u32 = 64;

/// How many bytes a name has at most, without the mark.
const LENGTH: usize = 65_536;

/// Writes the name of a type in C++, as `int (*[2])(char)`, behind what the buffer holds. A name has at most 65,536
/// bytes, and types that refer to one another are followed 64 deep; what is cut off there shows as `<...>`. What has no
/// name shows as `??`.
pub fn put_name(
    types: &ItemFinder<'_>,
    definitions: &TypeDefinitions<'_>,
    out: &mut Vec<u8>,
    index: TypeIndex,
) -> Result<(), AllocError>
    ensures ok { OnOk result (out.new.items ≡ out.old.items ++ shown_name types.now (first_definition definitions.now) index.0) }
    ensures err { OnErr result (IsKept out.old.items out.new.items) }
{
    put_name_counted(types, definitions, out, index, &mut Steps::new())
}

/// The same as `put_name`, with a step for each record that is read to follow types. A name takes at most 128 for each
/// byte that is written, and 192 more. One that is cut off takes at most 4 for each of 65,537 bytes and 64 levels.
#[tactic(auto, unfolding(crate::specs::TypeTexts::shown_name), using(crate::proofs::CutLemmas::cut_short, crate::proofs::CutLemmas::cut_long, crate::proofs::CutLemmas::kept_cut))]
pub fn put_name_counted(
    types: &ItemFinder<'_>,
    definitions: &TypeDefinitions<'_>,
    out: &mut Vec<u8>,
    index: TypeIndex,
    steps: &mut Steps,
) -> Result<(), AllocError>
    ensures ok { OnOk result (out.new.items ≡ out.old.items ++ shown_name types.now (first_definition definitions.now) index.0) }
    ensures err { OnErr result (IsKept out.old.items out.new.items) }
    ensures paid { OnOk result (length out.new.items ≤ length out.old.items + 65536 → Paid 192 steps.old.count steps.new.count out.old.items out.new.items) }
    ensures visits { steps.new.count ≤ steps.old.count + 4 * 64 * 65537 }
{
    let start = out.len();
    let limit = start + LENGTH + 1;
    put_name_at(types, definitions, out, limit, index.0, DEPTH, steps)?;
    if out.len() > start + LENGTH {
        out.truncate(start + LENGTH);
        out.extend_from_slice(b"<...>")?;
    }
    Ok(())
}

/// The first `most` bytes of a name, as `put_name` writes it, with a step for each record that is read to follow types:
/// at most 128 for each byte that is asked for, and 16,384 more.
pub fn put_name_start(
    types: &ItemFinder<'_>,
    definitions: &TypeDefinitions<'_>,
    out: &mut Vec<u8>,
    index: TypeIndex,
    most: usize,
    steps: &mut Steps,
) -> Result<(), AllocError>
    requires { most ≤ 65536 }
    ensures ok { OnOk result (out.new.items ≡ out.old.items ++ take most (shown_name types.now (first_definition definitions.now) index.0)) }
    ensures err { OnErr result (IsKept out.old.items out.new.items) }
    ensures visits { steps.new.count ≤ steps.old.count + 128 * most + 16384 }
{
    let limit = out.len() + most;
    put_name_at(types, definitions, out, limit, index.0, DEPTH, steps)
}

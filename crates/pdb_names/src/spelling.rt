//! The name that a decorated name spells.

ghost use Rattle.std.specs.Prelude.{◌≡◌, ◌++◌, false, None, length, nat_lt, option_map, OnOk, OnErr, IfOk, is_some};
ghost use Rattle.std.specs.List.{list_all};
ghost use Rattle.pdb_names.specs.CNames.{c_name as name_of_c};
ghost use Rattle.pdb_names.specs.Pieces.{Gives};
ghost use Rattle.pdb_names.specs.Spelling.{is_allowed as allowed_test, prefixed as prefixed_name, ruled as ruled_name, spelled, text_of};

use crate::c_name::c_name;
use crate::itanium_name::itanium_name;
use crate::microsoft_name::microsoft_name;
use crate::pieces::Stop;
use crate::reads::Reads;
use std::alloc::{AllocError, Global};

/// How many bytes a name has at most, decorated or not.
const MOST: usize = 4096;

/// Whether a decorated name may have these bytes: none is below 0x20 or 0x7f.
fn is_allowed(decorated: &[u8]) -> bool
    ensures { result ≡ list_all allowed_test decorated.now }
{
    decorated.iter().all(|byte| 0x20 <= *byte && *byte != 0x7f)
}

/// The name of a C function on x86.
fn of_c(alloc: Global, decorated: &[u8]) -> Result<Vec<u8>, Stop>
    ensures { Gives (λ t. t.items) result (name_of_c decorated.now) }
{
    match c_name(decorated) {
        Some(name) => Ok(Vec::from_slice(alloc, name)?),
        None => Err(Stop::NoAnswer),
    }
}

/// The name of bytes without a prefix.
#[tactic(auto, unfolding(crate::specs::Spelling::ruled))]
fn ruled(alloc: Global, decorated: &[u8], x86: bool) -> Result<Vec<u8>, Stop>
    ensures { Gives (λ t. t.items) result (ruled_name decorated.now x86) }
{
    if decorated.starts_with(b"?") {
        microsoft_name(alloc, &decorated[1..], &mut Reads::new())
    } else if decorated.starts_with(b"_Z") {
        itanium_name(alloc, &decorated[2..])
    } else if x86 && decorated.starts_with(b"__Z") {
        itanium_name(alloc, &decorated[3..])
    } else if x86 {
        of_c(alloc, decorated)
    } else {
        Err(Stop::NoAnswer)
    }
}

/// Whether a rule may apply to a name: but on x86 each has an underscore or a question mark first.
#[tactic(auto, unfolding(crate::specs::Spelling::spelled, crate::specs::Spelling::prefixed, crate::specs::Spelling::ruled))]
fn has_rule(decorated: &[u8], x86: bool) -> bool
    ensures { result ≡ false → spelled decorated.now x86 ≡ None }
{
    x86 || decorated.starts_with(b"_") || decorated.starts_with(b"?")
}

/// The prefix of the slot of an import, which stays.
const IMPORTED: &[u8; 6] = b"__imp_";

/// The name of bytes, with the prefix of an import that they have.
#[tactic(auto, unfolding(crate::specs::Spelling::prefixed))]
fn prefixed(alloc: Global, decorated: &[u8], x86: bool) -> Result<Vec<u8>, Stop>
    ensures { Gives (λ t. t.items) result (prefixed_name decorated.now x86) }
{
    if !decorated.starts_with(IMPORTED) {
        return ruled(alloc, decorated, x86);
    }
    let name = ruled(alloc, &decorated[6..], x86)?;
    let mut whole = Vec::from_slice(alloc, IMPORTED)?;
    whole.extend_from_slice(&name)?;
    Ok(whole)
}

/// The name that a decorated name spells, where a rule applies.
#[tactic(auto, unfolding(crate::specs::Spelling::spelled))]
fn spell(alloc: Global, decorated: &[u8], x86: bool) -> Result<Vec<u8>, Stop>
    ensures { Gives (λ t. t.items) result (spelled decorated.now x86) }
{
    if !has_rule(decorated, x86) || decorated.len() > MOST || !is_allowed(decorated) {
        return Err(Stop::NoAnswer);
    }
    let name = prefixed(alloc, decorated, x86)?;
    if name.len() > MOST {
        return Err(Stop::NoAnswer);
    }
    Ok(name)
}

/// Appends the name that a decorated name spells, or its bytes as they are. The result is whether a rule applied.
/// `x86` says that the file is for x86, where names of C are decorated. Where memory runs out `out` is as it was.
pub fn put_name(out: &mut Vec<u8>, decorated: &[u8], x86: bool) -> Result<bool, AllocError>
    ensures ok { OnOk result (out.new.items ≡ out.old.items ++ text_of decorated.now (spelled decorated.now x86)) }
    ensures answered { IfOk result (λ is_answered. is_answered ≡ is_some (spelled decorated.now x86)) }
    ensures err { OnErr result (out.new.items ≡ out.old.items) }
{
    let alloc = *out.allocator();
    match spell(alloc, decorated, x86) {
        Ok(name) => {
            out.extend_from_slice(&name)?;
            Ok(true)
        }
        Err(Stop::NoAnswer) => {
            out.extend_from_slice(decorated)?;
            Ok(false)
        }
        Err(Stop::OutOfMemory) => Err(AllocError),
    }
}

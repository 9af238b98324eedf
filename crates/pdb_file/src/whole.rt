//! A file, read whole.

ghost use Rattle.std.specs.Prelude.{◌≡◌, ◌≤◌, ◌<◌, ◌+◌, drop, take, length, IfOk, IfErr, OnErr, OnOk, vec_len};
ghost use Rattle.std.specs.Io.KnownBytes.{Consumes, IsAtEnd, Keeps};
ghost use Rattle.pdb_file.specs.Causes.{IsCause, failures_after, failures_behind};

use crate::counted::{CountedRead, ReadFailed};
use crate::reading::FetchError;
use std::alloc::{AllocError, Global};
use std::fs::File;

/// The most bytes that a file may have.
pub const MOST_BYTES: usize = 1099511627776;

/// How many bytes are asked for at a time.
const CHUNK: usize = 16384;

/// By how many bytes the capacity for them grows at a time.
const PIECE: usize = 2048;

/// Capacity for the next bytes, behind those that are there.
fn make_room(bytes: &mut Vec<u8>) -> Result<(), AllocError>
    ensures front { OnOk result (take (vec_len bytes.old) bytes.new.items ≡ bytes.old.items) }
    ensures len { OnOk result (vec_len bytes.new ≡ vec_len bytes.old + 16384) }
{
    for _ in 0..CHUNK / PIECE {
        bytes.resize(bytes.len() + PIECE, 0)?;
    }
    Ok(())
}

/// The next bytes that a reader gives, put at an offset; returns how many.
fn read_at<R: CountedRead>(bytes: &mut [u8], at: usize, input: &mut R) -> Result<usize, ReadFailed>
    requires { at < length bytes.old }
    ensures front { take at bytes.new ≡ take at bytes.old }
    ensures fits { IfOk result (λ n. at + n ≤ length bytes.new) }
    ensures told { IfOk result (λ n. Consumes (R.remaining input.old) (R.remaining input.new) (take n (drop at bytes.new))) }
    ensures end { IfOk result (λ n. n ≡ 0 → IsAtEnd (R.remaining input.new)) }
    ensures kept { OnErr result (Keeps (R.remaining input.old) (R.remaining input.new)) }
    ensures failures { R.failures input.new ≡ failures_after (R.failures input.old) result }
{
    input.read_part(&mut bytes[at..])
}

/// The next bytes that a reader gives, put behind those that are there; returns how many.
fn read_more<R: CountedRead>(bytes: &mut Vec<u8>, input: &mut R) -> Result<usize, FetchError>
    ensures front { OnOk result (take (vec_len bytes.old) bytes.new.items ≡ bytes.old.items) }
    ensures told { OnOk result (Consumes (R.remaining input.old) (R.remaining input.new) (drop (vec_len bytes.old) bytes.new.items)) }
    ensures len { IfOk result (λ n. vec_len bytes.new ≡ vec_len bytes.old + n) }
    ensures end { IfOk result (λ n. n ≡ 0 → IsAtEnd (R.remaining input.new)) }
    ensures kept { OnErr result (Keeps (R.remaining input.old) (R.remaining input.new)) }
    ensures cause { R.failures input.new ≡ failures_behind (R.failures input.old) result }
{
    let at = bytes.len();
    make_room(bytes)?;
    let Ok(count) = read_at(bytes.as_mut_slice(), at, input) else {
        return Err(FetchError::Read);
    };
    bytes.truncate(at + count);
    Ok(count)
}

/// All bytes that a reader has left, if these are at most `most`.
#[tactic(auto, using(crate::proofs::GivenBytes::given_more, crate::proofs::GivenBytes::cause_of, crate::proofs::GivenBytes::cause_of_more))]
pub(crate) fn read_up_to<R: CountedRead>(
    alloc: Global,
    most: usize,
    input: &mut R,
) -> Result<Vec<u8>, FetchError>
    ensures all { IfOk result (λ v. Consumes (R.remaining input.old) (R.remaining input.new) v.items × IsAtEnd (R.remaining input.new)) }
    ensures most { IfOk result (λ v. vec_len v ≤ most) }
    ensures whole { OnOk result (R.failures input.new ≡ R.failures input.old) }
    ensures cause { IfErr result (IsCause most (R.remaining input.old) (R.remaining input.new) (R.failures input.old) (R.failures input.new)) }
{
    let mut bytes = Vec::new(alloc);
    loop {
        let count = read_more(&mut bytes, input)?;
        if count == 0 {
            return Ok(bytes);
        }
        if bytes.len() > most {
            return Err(FetchError::Read);
        }
    }
}

/// How many bytes a file has that can be read at an offset; none for a pipe and the like.
pub fn size_of(file: &File) -> Option<u64> {
    let it = file.metadata().ok()?;
    if !it.is_file() {
        return None;
    }
    Some(it.len())
}

/// All bytes that a reader has left. `FetchError::Read` where it fails or gives more than `MOST_BYTES`,
/// `FetchError::Memory` where a growth failed.
pub fn read_all<R: CountedRead>(alloc: Global, input: &mut R) -> Result<Vec<u8>, FetchError>
    ensures all { IfOk result (λ v. Consumes (R.remaining input.old) (R.remaining input.new) v.items × IsAtEnd (R.remaining input.new)) }
    ensures most { IfOk result (λ v. vec_len v ≤ 1099511627776) }
    ensures whole { OnOk result (R.failures input.new ≡ R.failures input.old) }
    ensures cause { IfErr result (IsCause 1099511627776 (R.remaining input.old) (R.remaining input.new) (R.failures input.old) (R.failures input.new)) }
{
    read_up_to(alloc, MOST_BYTES, input)
}

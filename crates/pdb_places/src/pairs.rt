//! The pairs of a table from addresses of the image to those before it was rearranged, or back.

ghost use Rattle.std.specs.Prelude.{◌≡◌, ◌+◌, ◌/◌, ◌≤◌, ◌<◌, ◌^◌, ℕ, length, IsTrue, ◌↔◌};
ghost use Rattle.pdb_places.specs.AddressPlaces.{pair_in, pairs_in, Rises, moved, moved_by};
ghost use Rattle.pdb_places.specs.Behind.{IsBehindLast};

use pdb::Steps;
use pdb_base::little_endian::u32_at;

/// Where a pair begins.
fn from_of(table: &[u8], pair: usize) -> u32
    requires { pair < length table.now / 8 }
    ensures { result ≡ (pair_in table.now pair).from }
{
    u32_at(table, 8 * pair)
}

/// Where a pair leads to.
fn to_of(table: &[u8], pair: usize) -> u32
    requires { pair < length table.now / 8 }
    ensures { result ≡ (pair_in table.now pair).to }
{
    u32_at(table, 8 * pair + 4)
}

/// Whether no pair of a table begins before an earlier one.
pub(crate) fn rises(table: &[u8]) -> bool
    ensures { IsTrue result ↔ Rises (pairs_in table.now) }
{
    for pair in 1..table.len() / 8 {
        let before = from_of(table, pair - 1);
        let from = from_of(table, pair);
        if from < before {
            return false;
        }
    }
    true
}

/// How many pairs begin at or before an address, where none begins before an earlier one. They are searched by
/// halving, and each look at a pair takes a step.
fn halve(table: &[u8], address: u64, steps: &mut Steps) -> usize
    requires { Rises (pairs_in table.now) }
    ensures behind { IsBehindLast address table.now result }
    ensures probes { (digits : ℕ) → length (pairs_in table.now) < 2 ^ digits → steps.new.count ≤ steps.old.count + digits }
    ensures few { steps.new.count ≤ steps.old.count + length (pairs_in table.now) }
{
    let mut low = 0;
    let mut high = table.len() / 8;
    while low < high {
        let middle = low + (high - low) / 2;
        steps.tick();
        let from = from_of(table, middle);
        if u64::from(from) <= address {
            low = middle + 1;
        } else {
            high = middle;
        }
    }
    low
}

/// The number behind the last pair at or before an address; 0 where there is none. They are looked at one by one from
/// the last one on, and each look takes a step.
fn look_back(table: &[u8], address: u64, steps: &mut Steps) -> usize
    ensures behind { IsBehindLast address table.now result }
    ensures few { steps.new.count ≤ steps.old.count + length (pairs_in table.now) }
{
    let mut left = table.len() / 8;
    while left > 0 {
        steps.tick();
        let from = from_of(table, left - 1);
        if u64::from(from) <= address {
            return left;
        }
        left -= 1;
    }
    0
}

/// The number behind the last pair at or before an address; 0 where there is none. Each look at a pair takes a step.
fn behind_last(table: &[u8], rises: bool, address: u64, steps: &mut Steps) -> usize
    requires { IsTrue rises ↔ Rises (pairs_in table.now) }
    ensures behind { IsBehindLast address table.now result }
    ensures halved { Rises (pairs_in table.now) → (digits : ℕ) → length (pairs_in table.now) < 2 ^ digits → steps.new.count ≤ steps.old.count + digits }
    ensures few { steps.new.count ≤ steps.old.count + length (pairs_in table.now) }
{
    if rises {
        halve(table, address, steps)
    } else {
        look_back(table, address, steps)
    }
}

/// Where an address goes by a pair at or before it.
fn moved(address: u64, from: u32, to: u32) -> Option<u64>
    requires behind { from ≤ address }
    requires small { address < 2 ^ 33 }
    ensures { result ≡ moved address (record { from = from; to = to }) }
{
    if to == 0 {
        None
    } else {
        Some(u64::from(to) + address - u64::from(from))
    }
}

/// Where an address goes by the last listed pair at or before it, with a step for each look at a pair.
pub(crate) fn translate(table: &[u8], rises: bool, address: u64, steps: &mut Steps) -> Option<u64>
    requires pairs { IsTrue rises ↔ Rises (pairs_in table.now) }
    requires small { address < 2 ^ 33 }
    ensures moved { result ≡ moved_by address (pairs_in table.now) }
    ensures halved { Rises (pairs_in table.now) → (digits : ℕ) → length (pairs_in table.now) < 2 ^ digits → steps.new.count ≤ steps.old.count + digits }
    ensures few { steps.new.count ≤ steps.old.count + length (pairs_in table.now) }
{
    let behind = behind_last(table, rises, address, steps);
    if behind == 0 {
        return None;
    }
    let from = from_of(table, behind - 1);
    let to = to_of(table, behind - 1);
    moved(address, from, to)
}

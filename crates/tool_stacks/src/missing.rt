//! The names of modules that have no PDB.

ghost use Rattle.std.specs.Prelude.{◌≡◌, ◌<◌, ◌++◌, IfSome, OnOk, None, length, map};
ghost use Rattle.tool_stacks.specs.Missing.{count_text, counted, counted_at, index_in, is_named, missing_line, missing_of, more};

use pdb_text::put_decimal;
use std::alloc::AllocError;

/// A module that has no PDB.
#[derive(Drop)]
pub struct MissingPdb {
    /// Its name, as it stands in the text.
    pub name: Vec<u8>,
    /// How many references the text has to it.
    pub count: u64,
}

/// Whether a module has a name.
fn is_named(module: &MissingPdb, name: &[u8]) -> bool
    ensures { result ≡ is_named name.now (missing_of «module».now) }
{
    module.name.as_slice() == name
}

/// The index of a name.
#[tactic(auto, unfolding(crate::specs::Missing::index_in))]
fn index_of(missing: &[MissingPdb], name: &[u8]) -> Option<usize>
    ensures at { result ≡ index_in name.now missing.now }
    ensures bound { IfSome result (λ n. n < length missing.now) }
{
    missing.iter().position(|module| is_named(module, name))
}

/// Counts one more reference.
fn count_one(missing: &mut MissingPdb)
    ensures { missing_of missing.new ≡ more (missing_of missing.old) }
{
    missing.count = missing.count.saturating_add(1);
}

/// Appends a module that has one reference, unless there are 4,096.
fn push_missing(missing: &mut Vec<MissingPdb>, name: &[u8]) -> Result<(), AllocError>
    ensures { OnOk result (map missing_of missing.new.items ≡ counted_at name.now (map missing_of missing.old.items) None) }
{
    if missing.len() < 4096 {
        let name = name.to_vec(*missing.allocator())?;
        missing.push(MissingPdb { name, count: 1 })?;
    }
    Ok(())
}

/// Counts a reference to a module without a PDB. There are 4,096 names at most: a further one is passed over.
pub(crate) fn count_missing(missing: &mut Vec<MissingPdb>, name: &[u8]) -> Result<(), AllocError>
    ensures { OnOk result (map missing_of missing.new.items ≡ counted name.now (map missing_of missing.old.items)) }
{
    match index_of(missing, name) {
        Some(index) => {
            count_one(&mut missing[index]);
            Ok(())
        }
        None => push_missing(missing, name),
    }
}

/// Appends how many addresses a module has.
fn put_count(out: &mut Vec<u8>, count: u64) -> Result<(), AllocError>
    ensures { OnOk result (out.new.items ≡ out.old.items ++ count_text count) }
{
    put_decimal(out, count)?;
    if count == 1 {
        out.extend_from_slice(b" address")
    } else {
        out.extend_from_slice(b" addresses")
    }
}

/// Appends what is reported at the end of a module without a PDB: `no PDB for NAME (2 addresses)`.
pub fn put_missing(out: &mut Vec<u8>, missing: &MissingPdb) -> Result<(), AllocError>
    ensures { OnOk result (out.new.items ≡ out.old.items ++ missing_line (missing_of missing.now)) }
{
    out.extend_from_slice(b"no PDB for ")?;
    out.extend_from_slice(&missing.name)?;
    out.extend_from_slice(b" (")?;
    put_count(out, missing.count)?;
    out.extend_from_slice(b")")
}

//! The key under which a symbol server has a file.

ghost use Rattle.std.specs.Prelude.{◌≡◌, ◌<◌, ◌++◌, flat_map, false, true, Ok, IfOk, OnOk, IsErrOf};
ghost use Rattle.std.specs.Fmt.{digits, digit_glyph};
ghost use Rattle.pdb_base.specs.Refusal.{Gives};
ghost use Rattle.pdb_base.specs.Source.{Continues, IsKnown, MayFail};
ghost use Rattle.pdb.specs.Keys.{age_of_file, byte_text, key_in, key_of_file, key_text};

use crate::pdb::PDB;
use pdb_base::{Error, Result, Source};
use std::alloc::{AllocError, Global};

/// A hex digit in upper case.
fn glyph(d: u8) -> u8
    requires { d < 16 }
    ensures { result ≡ digit_glyph true d }
{
    if d < 10 { b'0' + d } else { b'A' + (d - 10) }
}

/// Appends each byte in two hex digits of upper case. The only error is out of memory.
pub fn put_hex_bytes(out: &mut Vec<u8>, bytes: &[u8]) -> std::result::Result<(), AllocError>
    ensures { OnOk result (out.new.items ≡ out.old.items ++ flat_map byte_text bytes.now) }
{
    for byte in bytes {
        out.extend_from_slice(&[glyph(*byte / 16), glyph(*byte % 16)])?;
    }
    Ok(())
}

/// Appends a number in hex digits of upper case, without zeros in front.
fn put_hex(alloc: Global, out: &mut Vec<u8>, n: u32) -> std::result::Result<(), AllocError>
    ensures { OnOk result (out.new.items ≡ out.old.items ++ digits 16 true n) }
{
    let text = format!(in alloc; "{n:X}")?;
    out.extend_from_slice(text.as_bytes())
}

/// The text of a key: the 16 bytes of a GUID, in the order in which it is printed, in 32 hex digits, and an age in 1 to
/// 8 hex digits, all in upper case. The only error is out of memory.
pub fn key_text(
    alloc: Global,
    guid: &[u8; 16],
    age: u32,
) -> std::result::Result<Vec<u8>, AllocError>
    ensures { IfOk result (λ v. v.items ≡ key_text guid.now age) }
{
    let mut out = Vec::new(alloc);
    put_hex_bytes(&mut out, guid)?;
    put_hex(alloc, &mut out, age)?;
    Ok(out)
}

// piece: age
/// The age that the header of the DBI stream has, or else `other`.
fn age<'s, S: Source<'s>>(pdb: &mut PDB<'s, S>, other: u32) -> Result<u32>
    ensures continues { Continues pdb.old pdb.new }
    ensures failed { IsErrOf result Error.IoError → MayFail pdb.old pdb.new }
    ensures answer { pdb.new.told ≡ true → Gives (λ n. n) (MayFail pdb.old pdb.new) result (Ok (age_of_file pdb.old.file other)) }
{
    match pdb.dbi_header() {
        Ok(header) if header.age != 0 => Ok(header.age),
        Ok(_) => Ok(other),
        Err(Error::OutOfMemory) => Err(Error::OutOfMemory),
        Err(Error::IoError) => Err(Error::IoError),
        Err(_) => Ok(other),
    }
}
// end

// piece: key_in
/// The key of an opened file, as `key_text` writes it: the GUID of the information stream, and the age in the header of
/// the DBI stream, of which at most the first 1024 bytes are read. The age is that of the information stream where the
/// header has none, or can't be read. An error is that of the information stream, out of memory, or `IoError` where the
/// source failed.
#[tactic(auto, unfolding(crate::specs::Keys::key_in))]
pub fn key_in<'s, S: Source<'s>>(alloc: Global, pdb: &mut PDB<'s, S>) -> Result<Vec<u8>>
    ensures continues { Continues pdb.old pdb.new }
    ensures failed { IsErrOf result Error.IoError → MayFail pdb.old pdb.new }
    ensures answer { pdb.new.told ≡ true → Gives (λ v. v.items) (MayFail pdb.old pdb.new) result (key_in pdb.old.file) }
{
    let information = pdb.pdb_information()?;
    let age = age(pdb, information.age)?;
    Ok(key_text(alloc, &information.guid, age)?)
}
// end

/// The key of a source's file, as `key_in` has it. A further error is that with which the file can't be opened.
#[tactic(auto, unfolding(crate::specs::Keys::key_of_file))]
pub fn key_of<'s, S: Source<'s>>(alloc: Global, source: S) -> Result<Vec<u8>>
    ensures failed { IsErrOf result Error.IoError → (S.state source).steady ≡ false }
    ensures key { IsKnown (S.state source) → Gives (λ v. v.items) ((S.state source).steady ≡ false) result (key_of_file (S.state source).file) }
{
    let mut pdb = PDB::open(alloc, source)?;
    key_in(alloc, &mut pdb)
}

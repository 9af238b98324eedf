//! JSON values, one a line.

ghost use Rattle.std.specs.Prelude.{◌≡◌, ◌∷◌, ◌++◌, [], codes, OnOk};
ghost use Rattle.json.specs.Json.{member, no_members, null};
ghost use Rattle.json.specs.Print.{print};
ghost use Rattle.json.specs.Token.{begin_object, key, number, string};
ghost use Rattle.json.specs.Tree.{json_tokens, members_tokens};
ghost use Rattle.tool_output.specs.Objects.{Adds, known_value, number_value, text_value};

use bstr::ByteSlice;
use json::Writer;
use pdb_text::put_line_end;
use std::alloc::{AllocError, Global};
use std::mem;

/// A writer of a value behind a text, which it takes.
pub fn value_behind(out: &mut Vec<u8>) -> Writer
    ensures before { result.before ≡ out.old.items }
    ensures tokens { result.tokens ≡ [] }
{
    let alloc = *out.allocator();
    Writer::new(mem::replace(out, Vec::new(alloc)))
}

/// Ends the line of a value.
pub fn end_line(out: &mut Vec<u8>, writer: Writer) -> Result<(), AllocError>
    ensures { OnOk result (out.new.items ≡ writer.before ++ (print writer.tokens ++ codes "\n")) }
{
    *out = writer.into_inner();
    put_line_end(out)
}

/// A string of bytes, with U+FFFD for each maximal piece that is no character.
pub fn put_text(alloc: Global, writer: &mut Writer, bytes: &[u8]) -> Result<(), AllocError>
    ensures { Adds result writer.old writer.new (json_tokens (text_value bytes.now)) }
{
    let text = bytes.to_str_lossy(alloc)?;
    writer.string(&text)
}

/// The same; `null` where there are no bytes.
#[tactic(auto, using(crate::proofs::KnownValues::known_none, crate::proofs::KnownValues::known_some))]
pub fn put_known(alloc: Global, writer: &mut Writer, bytes: &[u8]) -> Result<(), AllocError>
    ensures { Adds result writer.old writer.new (json_tokens (known_value bytes.now)) }
{
    if bytes.is_empty() {
        return writer.null();
    }
    put_text(alloc, writer, bytes)
}

/// A member that is a number.
pub fn put_number(writer: &mut Writer, name: &str, n: u64) -> Result<(), AllocError>
    ensures { Adds result writer.old writer.new (key name.now ∷ json_tokens (number_value n)) }
{
    writer.key(name)?;
    writer.u64(n)
}

/// A member that is `null`.
pub fn put_null(writer: &mut Writer, name: &str) -> Result<(), AllocError>
    ensures { Adds result writer.old writer.new (key name.now ∷ json_tokens null) }
{
    writer.key(name)?;
    writer.null()
}

/// A member that is a string.
pub fn put_member(
    alloc: Global,
    writer: &mut Writer,
    name: &str,
    bytes: &[u8],
) -> Result<(), AllocError>
    ensures { Adds result writer.old writer.new (key name.now ∷ json_tokens (text_value bytes.now)) }
{
    writer.key(name)?;
    put_text(alloc, writer, bytes)
}

/// The last member of an object, a string.
pub fn put_last(
    alloc: Global,
    writer: &mut Writer,
    name: &str,
    bytes: &[u8],
) -> Result<(), AllocError>
    ensures { Adds result writer.old writer.new (members_tokens (member name.now (text_value bytes.now) no_members)) }
{
    put_member(alloc, writer, name, bytes)?;
    writer.end_object()
}

/// An object that has a number so far.
pub fn begin_numbered(writer: &mut Writer, name: &str, n: u64) -> Result<(), AllocError>
    ensures { Adds result writer.old writer.new (begin_object ∷ key name.now ∷ json_tokens (number_value n)) }
{
    writer.begin_object()?;
    put_number(writer, name, n)
}

/// An object that has a string so far.
pub fn begin_text(
    alloc: Global,
    writer: &mut Writer,
    name: &str,
    bytes: &[u8],
) -> Result<(), AllocError>
    ensures { Adds result writer.old writer.new (begin_object ∷ key name.now ∷ json_tokens (text_value bytes.now)) }
{
    writer.begin_object()?;
    put_member(alloc, writer, name, bytes)
}

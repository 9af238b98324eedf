//! The text of frames.

ghost use Rattle.std.specs.Prelude.{◌≡◌, ◌++◌, codes, map, flat_map, option_copied, OnOk};
ghost use Rattle.std.specs.Fmt.{decimal};
ghost use Rattle.std.specs.Option.{option_map};
ghost use Rattle.pdb.specs.Qualified.{shown_qualified};
ghost use Rattle.pdb.specs.Text.{name_bytes};
ghost use Rattle.pdb_resolve.specs.Frames.{known_text, scoped_text, name_text, file_text, frame_text, frames_text, displacement_text, displaced_text, displaced_frames};
ghost use Rattle.pdb_resolve.specs.KeptFrames.{shown_frame};
ghost use Rattle.pdb_code.specs.Namings.{shown_function_name};

use crate::frames::Frame;
use pdb::{QualifiedName, RawString};
use pdb_code::function_names::FunctionName;
use pdb_text::{put_decimal, put_line_end, put_one_line, put_short_hex};
use std::alloc::AllocError;

/// A name on one line, `??` where it is empty.
fn put_known(out: &mut Vec<u8>, known: &[u8]) -> Result<(), AllocError>
    ensures { OnOk result (out.new.items ≡ out.old.items ++ known_text known.now) }
{
    if known.is_empty() {
        return out.extend_from_slice(b"??");
    }
    put_one_line(out, known)
}

/// A function's name behind what stands before it.
fn put_scoped(
    out: &mut Vec<u8>,
    scope: Option<RawString<'_>>,
    name: &[u8],
) -> Result<(), AllocError>
    ensures { OnOk result (out.new.items ≡ out.old.items ++ scoped_text (option_map name_bytes scope.entry) name.now) }
{
    match scope {
        Some(scope) => {
            put_one_line(out, scope.as_bytes())?;
            out.extend_from_slice(b"::")?;
            put_one_line(out, name)
        }
        None => put_known(out, name),
    }
}

/// A function's name, `??` where there is none.
pub fn put_name(out: &mut Vec<u8>, name: Option<QualifiedName<'_>>) -> Result<(), AllocError>
    ensures { OnOk result (out.new.items ≡ out.old.items ++ name_text (option_map shown_qualified name.entry)) }
{
    match name {
        Some(name) => put_scoped(out, name.scope, name.name.as_bytes()),
        None => out.extend_from_slice(b"??"),
    }
}

/// Appends the name of a function on one line, `??` where there is none or it is empty.
pub fn put_function_name(
    out: &mut Vec<u8>,
    name: Option<&FunctionName<'_>>,
) -> Result<(), AllocError>
    ensures { OnOk result (out.new.items ≡ out.old.items ++ name_text (option_map shown_function_name (option_copied name.entry))) }
{
    match name {
        Some(name) => put_scoped(out, name.qualifier(), name.unqualified()),
        None => out.extend_from_slice(b"??"),
    }
}

/// Appends the name of a source file on one line, `??` where there is none or it is empty.
pub fn put_file(out: &mut Vec<u8>, file: Option<RawString<'_>>) -> Result<(), AllocError>
    ensures { OnOk result (out.new.items ≡ out.old.items ++ file_text (option_map name_bytes file.entry)) }
{
    match file {
        Some(file) => put_known(out, file.as_bytes()),
        None => out.extend_from_slice(b"??"),
    }
}

/// The end of a frame's second line: the column behind a `:`. Most have none, which is printed as 0.
#[inline]
#[tactic(auto, using(std::proofs::lemmas::Fmt::decimal_digit))]
fn put_column(out: &mut Vec<u8>, column: u32) -> Result<(), AllocError>
    ensures { OnOk result (out.new.items ≡ out.old.items ++ (codes ":" ++ decimal column ++ codes "\n")) }
{
    if column < 10 {
        return out.extend_from_slice(&[b':', b'0' + column as u8, b'\n']);
    }
    out.push(b':')?;
    put_decimal(out, u64::from(column))?;
    put_line_end(out)
}

/// The second line of a frame: its file, line and column, with `:` between them.
fn put_position(out: &mut Vec<u8>, frame: &Frame<'_>) -> Result<(), AllocError>
    ensures { OnOk result (out.new.items ≡ out.old.items ++ (file_text (shown_frame frame.now).file ++ codes ":" ++ decimal (shown_frame frame.now).line ++ codes ":" ++ decimal (shown_frame frame.now).column ++ codes "\n")) }
{
    put_file(out, frame.file)?;
    out.push(b':')?;
    put_decimal(out, u64::from(frame.line))?;
    put_column(out, frame.column)
}

/// A frame's name on a line, and its file, line and column on the next, with `:` between them.
pub fn put_frame(out: &mut Vec<u8>, frame: &Frame<'_>) -> Result<(), AllocError>
    ensures { OnOk result (out.new.items ≡ out.old.items ++ frame_text (shown_frame frame.now)) }
{
    put_function_name(out, frame.name.as_ref())?;
    put_line_end(out)?;
    put_position(out, frame)
}

/// `+0x` and how far a place is behind what has the name, in hex digits; nothing where it is there.
fn put_displacement(out: &mut Vec<u8>, displacement: Option<u32>) -> Result<(), AllocError>
    ensures { OnOk result (out.new.items ≡ out.old.items ++ displacement_text displacement) }
{
    match displacement {
        Some(bytes) if bytes != 0 => {
            out.extend_from_slice(b"+0x")?;
            put_short_hex(out, bytes)
        }
        _ => Ok(()),
    }
}

/// The same as `put_frame`, with the displacement behind the name.
pub fn put_displaced_frame(out: &mut Vec<u8>, frame: &Frame<'_>) -> Result<(), AllocError>
    ensures { OnOk result (out.new.items ≡ out.old.items ++ displaced_text (shown_frame frame.now)) }
{
    put_function_name(out, frame.name.as_ref())?;
    put_displacement(out, frame.displacement)?;
    put_line_end(out)?;
    put_position(out, frame)
}

/// The text of the frames of an address: each frame's two lines, and an empty line.
pub fn put_frames(out: &mut Vec<u8>, frames: &[Frame<'_>]) -> Result<(), AllocError>
    ensures { OnOk result (out.new.items ≡ out.old.items ++ frames_text (map shown_frame frames.now)) }
{
    for frame in frames {
        put_frame(out, frame)?;
    }
    put_line_end(out)
}

/// The same as `put_frames`, with the displacement behind the name of each frame that has one.
pub fn put_displaced_frames(out: &mut Vec<u8>, frames: &[Frame<'_>]) -> Result<(), AllocError>
    ensures { OnOk result (out.new.items ≡ out.old.items ++ displaced_frames (map shown_frame frames.now)) }
{
    for frame in frames {
        put_displaced_frame(out, frame)?;
    }
    put_line_end(out)
}

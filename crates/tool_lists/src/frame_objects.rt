//! The JSON objects of `frames`.

ghost use Rattle.std.specs.Prelude.{◌≡◌, ◌∷◌, ◌++◌, codes, option_copied, OnOk};
ghost use Rattle.json.specs.Json.{boolean};
ghost use Rattle.json.specs.Token.{key};
ghost use Rattle.json.specs.Tree.{json_tokens, members_tokens};
ghost use Rattle.tool_lists.specs.FrameTexts.{flag_members, frame_value, last_flag_members, max_members, param_members, piece_members, program_member, program_of, prolog_members, saved_members, size_members};
ghost use Rattle.tool_output.specs.Objects.{Adds, json_line};

use crate::frame_texts::{kind_word, program_of};
use json::Writer;
use pdb::StringTable;
use pdb_frames::FrameData;
use std::alloc::{AllocError, Global};
use tool_output::objects::{
    begin_numbered, end_line, put_known, put_member, put_number, value_behind,
};

/// A member that is `true` or `false`.
fn put_boolean(writer: &mut Writer, name: &str, is_so: bool) -> Result<(), AllocError>
    ensures { Adds result writer.old writer.new (key name.now ∷ json_tokens (boolean is_so)) }
{
    writer.key(name)?;
    writer.boolean(is_so)
}

/// A program, as the last member of an object; `null` where it has no bytes.
fn put_program(alloc: Global, writer: &mut Writer, program: &[u8]) -> Result<(), AllocError>
    ensures { Adds result writer.old writer.new (members_tokens (program_member program.now)) }
{
    writer.key("program")?;
    put_known(alloc, writer, program)?;
    writer.end_object()
}

/// The last things that are so of a frame, and its program.
fn put_last_flags(
    alloc: Global,
    writer: &mut Writer,
    frame: &FrameData,
    program: &[u8],
) -> Result<(), AllocError>
    ensures { Adds result writer.old writer.new (members_tokens (last_flag_members frame.now program.now)) }
{
    put_boolean(writer, "start", frame.is_function_start)?;
    put_boolean(writer, "bp", frame.uses_base_pointer)?;
    put_program(alloc, writer, program)
}

/// What else is so of a frame, and its program.
#[tactic(auto, unfolding(crate::specs::FrameTexts::flag_members))]
fn put_flags(
    alloc: Global,
    writer: &mut Writer,
    frame: &FrameData,
    program: &[u8],
) -> Result<(), AllocError>
    ensures { Adds result writer.old writer.new (members_tokens (flag_members frame.now program.now)) }
{
    put_boolean(writer, "seh", frame.has_structured_eh)?;
    put_boolean(writer, "eh", frame.has_cpp_eh)?;
    put_last_flags(alloc, writer, frame, program)
}

/// The same behind the largest size of the stack.
#[tactic(auto, unfolding(crate::specs::FrameTexts::max_members))]
fn put_max(
    alloc: Global,
    writer: &mut Writer,
    frame: &FrameData,
    program: &[u8],
) -> Result<(), AllocError>
    ensures { Adds result writer.old writer.new (members_tokens (max_members frame.now program.now)) }
{
    put_number(writer, "max", u64::from(frame.max_stack_size))?;
    put_flags(alloc, writer, frame, program)
}

/// The same behind the size of the prolog.
#[tactic(auto, unfolding(crate::specs::FrameTexts::prolog_members))]
fn put_prolog(
    alloc: Global,
    writer: &mut Writer,
    frame: &FrameData,
    program: &[u8],
) -> Result<(), AllocError>
    ensures { Adds result writer.old writer.new (members_tokens (prolog_members frame.now program.now)) }
{
    put_number(writer, "prolog", u64::from(frame.prolog_size))?;
    put_max(alloc, writer, frame, program)
}

/// The same behind the size of the saved registers.
#[tactic(auto, unfolding(crate::specs::FrameTexts::saved_members))]
fn put_saved(
    alloc: Global,
    writer: &mut Writer,
    frame: &FrameData,
    program: &[u8],
) -> Result<(), AllocError>
    ensures { Adds result writer.old writer.new (members_tokens (saved_members frame.now program.now)) }
{
    put_number(writer, "saved", u64::from(frame.saved_regs_size))?;
    put_prolog(alloc, writer, frame, program)
}

/// The same behind the size of the parameters.
#[tactic(auto, unfolding(crate::specs::FrameTexts::param_members))]
fn put_params(
    alloc: Global,
    writer: &mut Writer,
    frame: &FrameData,
    program: &[u8],
) -> Result<(), AllocError>
    ensures { Adds result writer.old writer.new (members_tokens (param_members frame.now program.now)) }
{
    put_number(writer, "params", u64::from(frame.params_size))?;
    put_saved(alloc, writer, frame, program)
}

/// The same behind the size of the locals.
#[tactic(auto, unfolding(crate::specs::FrameTexts::size_members))]
fn put_sizes(
    alloc: Global,
    writer: &mut Writer,
    frame: &FrameData,
    program: &[u8],
) -> Result<(), AllocError>
    ensures { Adds result writer.old writer.new (members_tokens (size_members frame.now program.now)) }
{
    put_number(writer, "locals", frame.locals_size)?;
    put_params(alloc, writer, frame, program)
}

/// The same behind its size and its kind.
fn put_piece(
    alloc: Global,
    writer: &mut Writer,
    frame: &FrameData,
    program: &[u8],
) -> Result<(), AllocError>
    ensures { Adds result writer.old writer.new (members_tokens (piece_members frame.now program.now)) }
{
    put_number(writer, "size", u64::from(frame.code_size))?;
    put_member(
        alloc,
        writer,
        "kind",
        kind_word(frame.frame_type).as_bytes(),
    )?;
    put_sizes(alloc, writer, frame, program)
}

/// The JSON object of a record.
fn put_frame_value(
    alloc: Global,
    writer: &mut Writer,
    frame: &FrameData,
    program: &[u8],
) -> Result<(), AllocError>
    ensures { Adds result writer.old writer.new (json_tokens (frame_value frame.now program.now)) }
{
    begin_numbered(writer, "rva", u64::from(frame.code_start))?;
    put_piece(alloc, writer, frame, program)?;
    Ok(())
}

/// Its line, as an object.
#[tactic(auto, unfolding(tool_output::specs::Objects::json_line))]
pub fn put_frame_object(
    out: &mut Vec<u8>,
    strings: Option<&StringTable<'_>>,
    frame: &FrameData,
) -> Result<(), AllocError>
    ensures { OnOk result (out.new.items ≡ out.old.items ++ json_line (frame_value frame.now (program_of (option_copied strings.entry) frame.now.program))) }
{
    let alloc = *out.allocator();
    let mut writer = value_behind(out);
    let program = program_of(strings, frame.program);
    put_frame_value(alloc, &mut writer, frame, program)?;
    end_line(out, writer)
}

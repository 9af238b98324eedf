//! What a record says of a function's frame.

ghost use Rattle.std.specs.Prelude.{◌≡◌, ◌≤◌, length};
ghost use Rattle.pdb_frames.specs.Frames.{fpo_of, frame_data_of, fpo_type};

use pdb_base::StringRef;
use pdb_base::little_endian::{u16_at, u32_at};

/// The kind of a frame: `cvconst.h`'s `StackFrameTypeEnum`.
#[derive(Clone, Copy, Debug, Eq, PartialEq)]
pub enum FrameType {
    /// Without a frame pointer.
    Fpo,
    /// Of the kernel, where it was interrupted.
    Trap,
    /// Of a task's state segment.
    Tss,
    /// With a frame pointer.
    Standard,
    /// As a program of the string table says.
    FrameData,
}

/// How a piece of code has laid out its stack: `FRAMEDATA` of `cvinfo.h`, or `FPO_DATA` of `winnt.h`. Sizes are in bytes.
#[derive(Clone, Copy, Debug, Eq, PartialEq)]
pub struct FrameData {
    /// The kind of the frame.
    pub frame_type: FrameType,
    /// The address of the code's first byte, relative to the image's base.
    pub code_start: u32,
    /// How many bytes of code.
    pub code_size: u32,
    /// The size of the local variables.
    pub locals_size: u64,
    /// The size of the parameters.
    pub params_size: u32,
    /// How large the stack becomes at most; 0 where it isn't told.
    pub max_stack_size: u32,
    /// How many bytes of the code set the frame up.
    pub prolog_size: u16,
    /// The size of the registers that are saved.
    pub saved_regs_size: u16,
    /// Whether the function handles exceptions of Windows.
    pub has_structured_eh: bool,
    /// Whether it handles exceptions of C++.
    pub has_cpp_eh: bool,
    /// Whether the code is where a function begins; never told by `FPO_DATA`.
    pub is_function_start: bool,
    /// Whether the function keeps something else in the frame pointer; never told by `FRAMEDATA`.
    pub uses_base_pointer: bool,
    /// The program that undoes the frame, a string of the string table; none in `FPO_DATA`.
    pub program: Option<StringRef>,
}

/// The kind of a frame by the upper two of 16 bits.
fn fpo_type(bits: u16) -> FrameType
    ensures { result ≡ fpo_type bits }
{
    match bits >> 14 {
        0 => FrameType::Fpo,
        1 => FrameType::Trap,
        2 => FrameType::Tss,
        _ => FrameType::Standard,
    }
}

/// What the 32 bytes of a record of `FRAMEDATA` say.
#[tactic(auto, unfolding(crate::specs::Frames::frame_data_of))]
pub(crate) fn frame_data(fields: &[u8]) -> FrameData
    requires { 32 ≤ length fields.now }
    ensures { result ≡ frame_data_of fields.now }
{
    let flags = u32_at(fields, 28);
    FrameData {
        frame_type: FrameType::FrameData,
        code_start: u32_at(fields, 0),
        code_size: u32_at(fields, 4),
        locals_size: u64::from(u32_at(fields, 8)),
        params_size: u32_at(fields, 12),
        max_stack_size: u32_at(fields, 16),
        prolog_size: u16_at(fields, 24),
        saved_regs_size: u16_at(fields, 26),
        has_structured_eh: flags & 1 != 0,
        has_cpp_eh: flags & 2 != 0,
        is_function_start: flags & 4 != 0,
        uses_base_pointer: false,
        program: Some(StringRef(u32_at(fields, 20))),
    }
}

/// What the 16 bytes of a record of `FPO_DATA` say. It counts locals, parameters and registers in words of four bytes.
#[tactic(auto, unfolding(crate::specs::Frames::fpo_of))]
pub(crate) fn fpo_data(fields: &[u8]) -> FrameData
    requires { 16 ≤ length fields.now }
    ensures { result ≡ fpo_of fields.now }
{
    let bits = u16_at(fields, 14);
    FrameData {
        frame_type: fpo_type(bits),
        code_start: u32_at(fields, 0),
        code_size: u32_at(fields, 4),
        locals_size: 4 * u64::from(u32_at(fields, 8)),
        params_size: 4 * u32::from(u16_at(fields, 12)),
        max_stack_size: 0,
        prolog_size: bits % 256,
        saved_regs_size: 4 * (bits / 256 % 8),
        has_structured_eh: bits & 0x800 != 0,
        has_cpp_eh: false,
        is_function_start: false,
        uses_base_pointer: bits & 0x1000 != 0,
        program: None,
    }
}

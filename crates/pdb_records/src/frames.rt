//! Frames of procedures: the structs, and how they are read.

ghost use Rattle.std.specs.Prelude.{◌≡◌};
ghost use Rattle.pdb_base.specs.Layouts.{ReadsPart};
ghost use Rattle.pdb_base.specs.Refusal.{Answers};
ghost use Rattle.pdb_records.specs.RecordFlags.{cookie_of, local_base_of, parameter_base_of};
ghost use Rattle.pdb_records.specs.RecordParts.{frame_sizes};
ghost use Rattle.pdb_records.specs.RecordTable.{read_of_record};
ghost use Rattle.pdb_records.specs.RecordViews.{shown_record};
ghost use Rattle.pdb_records.specs.declared.form.RecordForm.TheVariants as form;

use crate::fields::parse_offset;
use crate::flags::FrameFlags;
use crate::record::Record;
use pdb_base::{ParseBuffer, PdbInternalSectionOffset, Register, Result};

/// The frame of a procedure: `FRAMEPROCSYM` of `cvinfo.h`, in records `S_FRAMEPROC` (0x1012).
#[derive(Clone, Copy, Debug, Eq, PartialEq)]
pub struct FrameProcedure {
    /// The size of the frame, in bytes.
    pub frame_bytes: u32,
    /// The size of the padding in the frame, in bytes.
    pub padding_bytes: u32,
    /// The offset of the padding in the frame, in bytes.
    pub padding_offset: u32,
    /// The size of the saved registers, in bytes.
    pub saved_register_bytes: u32,
    /// Where the exception handler stands.
    pub exception_handler: PdbInternalSectionOffset,
    /// The flags, without the two encoded registers.
    pub flags: FrameFlags,
    /// The encoded register from which local variables count, 0 to 3: bits 14 and 15 of the flags.
    pub local_base: u8,
    /// The encoded register from which parameters count, 0 to 3: bits 16 and 17 of the flags.
    pub parameter_base: u8,
}

/// How the security cookie of a frame is made: `CV_cookietype_e` of `cvinfo.h`.
#[derive(Clone, Copy, Debug, Eq, PartialEq)]
pub enum CookieKind {
    /// A copy: 0.
    Copy,
    /// Combined with the stack pointer: 1.
    XorStackPointer,
    /// Combined with the base pointer: 2.
    XorBasePointer,
    /// Combined with `r13`: 3.
    XorR13,
    /// Another number.
    Unknown(u8),
}

impl CookieKind {
    // The kind of a number.
    #[inline]
    fn of(number: u8) -> Self
        ensures { result ≡ cookie_of number }
    {
        match number {
            0 => CookieKind::Copy,
            1 => CookieKind::XorStackPointer,
            2 => CookieKind::XorBasePointer,
            3 => CookieKind::XorR13,
            _ => CookieKind::Unknown(number),
        }
    }
}

/// Where the security cookie of a frame stands: `FRAMECOOKIE` of `cvinfo.h`, in records `S_FRAMECOOKIE` (0x113a).
#[derive(Clone, Copy, Debug, Eq, PartialEq)]
pub struct FrameCookie {
    /// How far behind the register's value the cookie stands, in bytes.
    pub offset: i32,
    /// The register.
    pub register: Register,
    /// How the cookie is made.
    pub cookie: CookieKind,
    /// Flags, of which `cvinfo.h` names none.
    pub flags: u8,
}

// The sizes of a frame.
#[inline]
#[tactic(auto, unfolding(pdb_base::specs::Layouts::together_at))]
fn parse_frame_sizes(buffer: &mut ParseBuffer<'_>) -> Result<(u32, u32, u32, u32)>
    ensures { ReadsPart (λ x. (x.0, (x.1, (x.2, x.3)))) frame_sizes 0 buffer.old buffer.new result }
{
    let frame_bytes = buffer.parse_u32()?;
    let padding_bytes = buffer.parse_u32()?;
    let padding_offset = buffer.parse_u32()?;
    let saved_register_bytes = buffer.parse_u32()?;
    Ok((
        frame_bytes,
        padding_bytes,
        padding_offset,
        saved_register_bytes,
    ))
}

// The two encoded registers of a frame's flags: of local variables, and of parameters.
#[inline]
fn bases(flags: u32) -> (u8, u8)
    ensures { result ≡ (local_base_of flags, parameter_base_of flags) }
{
    ((flags / 0x4000 % 4) as u8, (flags / 0x1_0000 % 4) as u8)
}

#[inline]
#[tactic(auto, unfolding(crate::specs::RecordTable::read_of_record))]
pub(crate) fn parse_frame_procedure<'t>(
    kind: u16,
    buffer: &mut ParseBuffer<'t>,
) -> Result<Record<'t>>
    requires { buffer.old.place ≡ 2 }
    ensures { Answers shown_record result (read_of_record form.FrameProcedure kind buffer.old.bytes) }
{
    let (frame_bytes, padding_bytes, padding_offset, saved_register_bytes) = parse_frame_sizes(
        buffer,
    )?;
    let exception_handler = parse_offset(buffer)?;
    let flags = buffer.parse_u32()?;
    let (local_base, parameter_base) = bases(flags);
    Ok(Record::FrameProcedure(FrameProcedure {
        frame_bytes,
        padding_bytes,
        padding_offset,
        saved_register_bytes,
        exception_handler,
        flags: FrameFlags::of(flags),
        local_base,
        parameter_base,
    }))
}

#[inline]
#[tactic(auto, unfolding(crate::specs::RecordTable::read_of_record))]
pub(crate) fn parse_frame_cookie<'t>(kind: u16, buffer: &mut ParseBuffer<'t>) -> Result<Record<'t>>
    requires { buffer.old.place ≡ 2 }
    ensures { Answers shown_record result (read_of_record form.FrameCookie kind buffer.old.bytes) }
{
    let offset = buffer.parse_i32()?;
    let register = Register(buffer.parse_u16()?);
    let cookie = CookieKind::of(buffer.parse_u8()?);
    let flags = buffer.parse_u8()?;
    Ok(Record::FrameCookie(FrameCookie {
        offset,
        register,
        cookie,
        flags,
    }))
}

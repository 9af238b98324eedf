//! The subsections of a module's lines data.

ghost use Rattle.std.specs.Prelude.{◌≡◌, ◌≢◌, IfErr};
ghost use Rattle.pdb_base.specs.Cursor.{Reads};
ghost use Rattle.pdb_base.specs.Refusal.{Answers};
ghost use Rattle.pdb_modules.specs.Subsections.{is_known, first_part, piece_at, piece_length};
ghost use Rattle.pdb_modules.specs.SubsectionViews.{bytes_of_piece, seen_part};

use pdb_base::{Error, ParseBuffer, Result};

/// The kind of a subsection of lines: `cvinfo.h`'s `DEBUG_S_LINES`.
pub(crate) const LINES: u32 = 0xf2;
/// Of files' checksums: `DEBUG_S_FILECHKSMS`.
pub(crate) const FILE_CHECKSUMS: u32 = 0xf4;
/// Of inlined functions: `DEBUG_S_INLINEELINES`.
pub(crate) const INLINEE_LINES: u32 = 0xf6;
/// The kind of a subsection of imports from other modules: `DEBUG_S_CROSSSCOPEIMPORTS`.
pub const IMPORTS: u32 = 0xf7;
/// Of exports to other modules: `DEBUG_S_CROSSSCOPEEXPORTS`.
pub(crate) const EXPORTS: u32 = 0xf8;

/// A subsection: its kind, and the bytes behind its header.
#[derive(Clone, Copy)]
pub struct Piece<'a> {
    pub(crate) kind: u32,
    pub(crate) body: &'a [u8],
}

/// Whether a subsection's kind is known, or says that it is to be passed over: `cvinfo.h`'s `DEBUG_S_IGNORE`.
fn is_known(kind: u32) -> bool
    ensures { result ≡ is_known kind }
{
    (kind >= 0xf1 && kind <= 0xfd) || kind >= 0x8000_0000
}

/// The subsection at the buffer's offset.
#[tactic(auto, unfolding(crate::specs::Subsections::piece_at))]
pub(crate) fn read_piece<'a>(buffer: &mut ParseBuffer<'a>) -> Result<Piece<'a>>
    ensures reads { Reads bytes_of_piece buffer.old buffer.new result (piece_at buffer.old.bytes buffer.old.place) (piece_length buffer.old.place) }
{
    let kind = buffer.parse_u32()?;
    let size = buffer.parse_u32()?;
    let body = buffer.take(size as usize)?;
    if !is_known(kind) {
        return Err(Error::UnimplementedDebugSubsection(kind));
    }
    Ok(Piece { kind, body })
}

/// The bytes of the first subsection of a kind among a module's lines data, if there is one. A fault behind it isn't
/// met.
pub fn first_of_kind(lines_data: &[u8], kind: u32) -> Result<Option<&[u8]>>
    ensures part { Answers seen_part result (first_part kind lines_data.entry.now) }
    ensures refused { IfErr result (λ e. e ≢ Error.IoError) }
{
    let mut buffer = ParseBuffer::from(lines_data);
    while !buffer.is_empty() {
        match read_piece(&mut buffer) {
            Ok(piece) => {
                if piece.kind == kind {
                    return Ok(Some(piece.body));
                }
            }
            Err(error) => return Err(error),
        }
    }
    Ok(None)
}

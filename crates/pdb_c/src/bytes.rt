//! Bytes that are copied into the caller's buffer.

ghost use Rattle.std.specs.Prelude.{◌≡◌, Ok};
ghost use Rattle.pdb_c.specs.Rooms.{put};
ghost use Rattle.pdb_c.specs.Boundary.{IsCopied};

use crate::answers::room_code;
use crate::rooms::put_bytes;

/// Copies bytes into a buffer, as far as it reaches, and says how many there are.
pub fn copy(bytes: &[u8], room: &mut [u8], size: &mut usize) -> u32
    ensures { IsCopied result room.old room.new size.new bytes.now }
{
    *size = bytes.len();
    put_bytes(room, 0, bytes);
    room_code(room.len(), bytes.len())
}

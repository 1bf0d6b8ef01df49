ghost use Rattle.std.specs.Prelude.{IfOk, IfErr};
ghost use Rattle.svid_wire.specs.Streams.{IsRead, IsReadFault, drawn};

use crate::{ReadFault, Source, Stopped};
use std::alloc::Global;

// How many bytes a call asks of a source.
const ROOM: usize = 65536;

/// All bytes of a source to its end, where they are at most `limit`.
///
/// Errors: `Stopped` where a call of the source stopped, `TooMuch` where more than `limit` bytes came, `OutOfMemory` where memory
/// was refused for bytes that came. Then it drops these bytes, and the source has given them. It keeps at most `limit` bytes and
/// one buffer of 64 KiB.
pub fn read_up_to<S: Source>(
    alloc: Global,
    source: &mut S,
    limit: usize,
) -> Result<Vec<u8>, ReadFault>
    ensures ok { IfOk result (λ bytes. IsRead (drawn S.left S.stops source.old source.new) limit bytes.items) }
    ensures fault { IfErr result (IsReadFault (drawn S.left S.stops source.old source.new) limit) }
{
    let mut bytes = Vec::new(alloc);
    let mut room = [0; ROOM];
    while let Ok(given) = source.get(&mut room) {
        if given == 0 {
            return Ok(bytes);
        }
        if limit - bytes.len() < given {
            return Err(ReadFault::TooMuch);
        }
        bytes.extend_from_slice(room.split_at(given).0)?;
    }
    Err(ReadFault::Stopped)
}

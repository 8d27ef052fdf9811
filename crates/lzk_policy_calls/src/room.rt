//! Bytes in the room of a caller.

ghost use Rattle.lzk_policy_calls.specs.Room.{Puts};

use crate::refusal::PolicyRefusal;
use lzk_calls::place;

/// Puts bytes in front of a room, or refuses a room that is smaller. How many they are.
pub(crate) fn put(bytes: &[u8], room: &mut [u8]) -> Result<u64, PolicyRefusal>
    ensures { Puts bytes.now room.old room.new result }
{
    match place(bytes, room) {
        Ok(count) => Ok(count),
        Err(count) => Err(PolicyRefusal::NoRoom(count)),
    }
}

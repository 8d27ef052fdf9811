//! Bytes in the room of a caller.

ghost use Rattle.std.specs.Prelude.{IfErr, IfOk};
ghost use Rattle.lzk_calls.specs.Room.{ArePut, DoNotFit, Puts};

use crate::refusal::Refusal;

/// Puts bytes in front of a room, where they fit. How many they are, in either case.
pub fn place(bytes: &[u8], room: &mut [u8]) -> Result<u64, u64>
    ensures put { IfOk result (ArePut bytes.now room.old room.new) }
    ensures unfit { IfErr result (DoNotFit bytes.now room.old room.new) }
{
    let count = bytes.len();
    if count > room.len() {
        return Err(count as u64);
    }
    let (front, _) = room.split_at_mut(count);
    front.copy_from_slice(bytes);
    Ok(count as u64)
}

/// Puts bytes in front of a room, or refuses a room that is smaller. How many they are.
pub fn put(bytes: &[u8], room: &mut [u8]) -> Result<u64, Refusal>
    ensures { Puts bytes.now room.old room.new result }
{
    match place(bytes, room) {
        Ok(count) => Ok(count),
        Err(count) => Err(Refusal::NoRoom(count)),
    }
}

//! The caller's room.

ghost use Rattle.std.specs.Prelude.{◌≡◌, ◌≢◌, ◌↔◌, ◌≤◌, length, take, drop};

use crate::codes::{DONE, ROOM};

/// Copies the octets to the front of the room, if they fit.
pub(crate) fn put(octets: &[u8], room: &mut [u8]) -> u32
    ensures front { result ≡ 0 → take (length octets.now) room.new ≡ octets.now }
    ensures rest { result ≡ 0
        → drop (length octets.now) room.new ≡ drop (length octets.now) room.old }
    ensures done { result ≡ 0 ↔ (length octets.now ≤ length room.old) }
    ensures room { result ≢ 0 → result ≡ 3 }
    ensures unchanged { result ≢ 0 → room.new ≡ room.old }
{
    if octets.len() > room.len() {
        return ROOM;
    }
    let (front, _) = room.split_at_mut(octets.len());
    front.copy_from_slice(octets);
    DONE
}

//! How many octets the lengths of elements take, as an earlier run has found.

ghost use Rattle.std.specs.Prelude.{◌≡◌, ◌+◌, ◌*◌, ◌^◌, ◌<◌, ◌≤◌, true, false};

use std::cell::Cell;

/// The most octets that a length takes.
const MOST: usize = 9;

/// Returns how many octets to reserve for the length of an element that begins at a part.
pub(crate) fn reserved_at(lengths: &[Cell<u8>], part: usize) -> usize
    ensures some { 1 ≤ result }
    ensures few { result ≤ 9 }
{
    if part < lengths.len() {
        return (lengths[part].get() as usize).clamp(1, MOST);
    }
    1
}

/// Keeps how many octets the length of an element takes that begins at a part.
pub(crate) fn keep(lengths: &[Cell<u8>], part: usize, count: usize) {
    if part < lengths.len() && count <= MOST {
        lengths[part].set(count as u8);
    }
}

/// Forgets what is kept.
pub(crate) fn clear(lengths: &[Cell<u8>]) {
    for length in lengths {
        length.set(0);
    }
}

/// Returns whether `count` octets after `reserved` octets exceed `room` octets, and would not exceed them after
/// `own` octets.
pub(crate) fn is_cut(room: usize, reserved: usize, own: usize, count: usize) -> bool
    requires room { 8 * room < 2 ^ 64 }
    requires reserved { reserved ≤ 9 }
    requires own { own ≤ 9 }
    requires count { 8 * count < 2 ^ 64 }
    ensures cut { result ≡ true → own < reserved }
    ensures whole { result ≡ false → own + count ≤ room → reserved + count ≤ room }
{
    own + count <= room && room < reserved + count
}

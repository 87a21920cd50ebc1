//! Octets that lie one after another in the bits of others, from any bit on.

ghost use Rattle.std.specs.Prelude.{◌≡◌, ◌≢◌, ◌↔◌, ◌+◌, ◌*◌, ◌^◌, ◌<◌, ◌≤◌, length, take, drop};
ghost use Rattle.asn1_bits.specs.Bits.{bits, number};
ghost use Rattle.asn1_c.specs.Octets.{octets_at};

use crate::codes::{DONE, OUTSIDE, ROOM, TOO_MANY};
use asn1_values::{OctetSource, read_wide};

/// `count` octets from bit `first` of others on, which have them.
#[derive(Clone, Copy)]
pub(crate) struct OctetsAt<'a> {
    octets: &'a [u8],
    first: usize,
    count: usize,
    ghost few: { 8 * length octets.now < 2 ^ 64 },
    ghost within: { first + 8 * count ≤ 8 * length octets.now },
}

impl<'a> OctetsAt<'a> {
    /// Returns `count` octets from a bit on.
    pub(crate) fn new(octets: &'a [u8], first: usize, count: usize) -> OctetsAt<'a>
        requires few { 8 * length octets.now < 2 ^ 64 }
        requires within { first + 8 * count ≤ 8 * length octets.now }
        ensures list { octets_at result.octets.now result.first result.count
            ≡ octets_at octets.entry.now first count }
    {
        OctetsAt {
            octets,
            first,
            count,
        }
    }
}

impl OctetSource for OctetsAt<'_> {
    ghost list = { λ s. octets_at s.octets.now s.first s.count };

    fn count(&self) -> usize {
        self.count
    }

    fn octet(&self, i: usize) -> u8 {
        octet_at(self.octets, self.first + 8 * i)
    }
}

/// Copies `count` octets, which lie one after another from bit `first` on, to the front of the
/// room.
#[unsafe(no_mangle)]
pub extern "C" fn asn1v_octets_at(octets: &[u8], first: usize, count: usize, room: &mut [u8]) -> u32
    ensures copied { result ≡ 0 → take count room.new ≡ octets_at octets.now first count }
    ensures rest { result ≡ 0 → drop count room.new ≡ drop count room.old }
    ensures too_many { result ≡ 23 ↔ (2 ^ 64 ≤ 8 * length octets.now) }
    ensures outside { result ≢ 23 → result ≡ 1 ↔ (8 * length octets.now < first + 8 * count) }
    ensures room { result ≢ 23 → result ≡ 3 ↔ ((first + 8 * count ≤ 8 * length octets.now)
        × (length room.old < count)) }
    ensures codes { result ≢ 0 → result ≢ 23 → result ≢ 1 → result ≡ 3 }
    ensures unchanged { result ≢ 0 → room.new ≡ room.old }
{
    let Some(bits) = octets.len().checked_mul(8) else {
        return TOO_MANY;
    };
    if first as u128 + 8 * (count as u128) > bits as u128 {
        return OUTSIDE;
    }
    if count > room.len() {
        return ROOM;
    }
    copy_each(octets, first, count, room);
    DONE
}

/// Copies octets for which there is room.
fn copy_each(octets: &[u8], first: usize, count: usize, room: &mut [u8])
    requires few { 8 * length octets.now < 2 ^ 64 }
    requires within { first + 8 * count ≤ 8 * length octets.now }
    requires room { count ≤ length room.old }
    ensures copied { take count room.new ≡ octets_at octets.now first count }
    ensures rest { drop count room.new ≡ drop count room.old }
{
    for i in 0..count {
        room[i] = octet_at(octets, first + 8 * i);
    }
}

/// Returns the octet from a bit on.
pub(crate) fn octet_at(octets: &[u8], at: usize) -> u8
    requires { at + 8 ≤ 8 * length octets.now }
    ensures { result ≡ number (take 8 (drop at (bits octets.now))) }
{
    read_wide(octets, at, 8) as u8
}

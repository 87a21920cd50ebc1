//! Octets at an index.

ghost use Rattle.std.specs.Prelude.{◌≡◌, ◌+◌, ◌*◌, ◌%◌, ◌^◌, ◌<◌, ◌≤◌, ◌++◌, length, take, drop};
ghost use Rattle.asn1_bits.specs.Bits.{bits, digits};
ghost use Rattle.asn1_x691_writers.specs.Written.{IsGrown};

use asn1_schema::Span;
use asn1_x690_leaves::octets_at;
use asn1_x691_writers::{after, put_bits, put_number};

/// Writes an octet from bit `at` on. Returns the index after it.
#[inline(always)]
pub(crate) fn put_octet(octets: &mut [u8], at: usize, octet: u8) -> usize
    requires { 8 * length octets.old < 2 ^ 64 }
    ensures { IsGrown octets.old at octets.new result (digits octet 8) }
{
    if at % 8 > 0 {
        return put_number(octets, at, u64::from(octet), 8);
    }
    if at / 8 < octets.len() {
        octets[at / 8] = octet;
        return at + 8;
    }
    after(at, 8)
}

/// Writes octets over those from an index on.
#[inline(always)]
fn store(octets: &mut [u8], first: usize, own: &[u8])
    requires { first + length own.now ≤ length octets.old }
    ensures { take (first + length own.now) octets.new ≡ take first octets.old ++ own.now }
{
    let (_, rest) = octets.split_at_mut(first);
    let (front, _) = rest.split_at_mut(own.len());
    front.copy_from_slice(own);
}

/// Writes `count` bits of a source, from bit `from` on, to bit `at`. Returns the index of the bit
/// after them.
///
/// The bits must be inside the source. A few are written as a number, of others the octets are copied
/// if both begin at an octet.
#[inline(always)]
pub fn put_span(octets: &mut [u8], at: usize, source: &[u8], from: usize, count: usize) -> usize
    requires size { 8 * length octets.old < 2 ^ 64 }
    requires within { from + count ≤ 8 * length source.now }
    ensures { IsGrown octets.old at octets.new result (take count (drop from (bits source.now))) }
{
    // A number is written with eight octets that exist.
    if count <= 57 && at / 8 < octets.len().saturating_sub(7) {
        return put_bits(octets, at, source, from, count);
    }
    put_view(octets, at, source, from, count)
}

/// Writes bits as [`put_span`] does. It copies octets if both begin at an octet.
#[inline(always)]
fn put_view(octets: &mut [u8], at: usize, source: &[u8], from: usize, count: usize) -> usize
    requires size { 8 * length octets.old < 2 ^ 64 }
    requires within { from + count ≤ 8 * length source.now }
    ensures { IsGrown octets.old at octets.new result (take count (drop from (bits source.now))) }
{
    if at % 8 == 0 && from % 8 == 0 && count % 8 == 0 {
        let own = octets_at(source, Span { at: from, count });
        return put_octets(octets, at, own);
    }
    put_bits(octets, at, source, from, count)
}

/// Writes octets from bit `at` on, which is the first of an octet. Returns the index after them.
#[inline(always)]
fn put_octets(octets: &mut [u8], at: usize, own: &[u8]) -> usize
    requires size { 8 * length octets.old < 2 ^ 64 }
    requires own { 8 * length own.now < 2 ^ 64 }
    requires whole { at % 8 ≡ 0 }
    ensures { IsGrown octets.old at octets.new result (bits own.now) }
{
    let first = at / 8;
    if first <= octets.len() && own.len() <= octets.len() - first {
        store(octets, first, own);
        return at + 8 * own.len();
    }
    after(at, 8 * own.len())
}

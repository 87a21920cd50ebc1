//! Bits at an index of octets.
//!
//! Where octets are too few, a call writes nothing and returns the index that it would have reached
//! with enough of them: so a caller learns how many are needed.

ghost use Rattle.std.specs.Prelude.{◌≡◌, ◌+◌, ◌*◌, ◌^◌, ◌<◌, ◌≤◌, ◌++◌, ℕ, length, take, drop};
ghost use Rattle.asn1_bits.specs.Bits.{bits, digits, overwritten};
ghost use Rattle.asn1_x691_writers.specs.Written.{IsIndex, IsGrown};

use asn1_bits::{BitStr, Turns, overwrite_bitslice, overwrite_number, read_wide};

/// Returns the index `more` bits after another. From 2^64 - 8 on an index has only its bit in an
/// octet.
#[inline(always)]
pub fn after(at: usize, more: usize) -> usize
    ensures { (n : ℕ) → IsIndex at n → IsIndex result (n + more) }
{
    match at.checked_add(more) {
        Some(sum) => sum,
        None => usize::MAX - 7 + (at % 8 + more % 8) % 8,
    }
}

/// Writes eight octets over those from an index on.
#[inline(always)]
fn store(octets: &mut [u8], first: usize, word: u64)
    requires { first + 8 ≤ length octets.old }
    ensures { bits octets.new ≡ overwritten (bits octets.old) (8 * first) (digits word 64) }
{
    let (_, rest) = octets.split_at_mut(first);
    let (front, _) = rest.split_at_mut(8);
    // The front has eight octets, so no test is made.
    if let Some(target) = front.as_mut_array::<8>() {
        *target = word.to_be_bytes();
    }
}

/// Writes a number of `width` bits, which must be at most 57, from bit `at` on. Returns the index
/// after it. It clears the bits after it in eight octets.
#[inline(always)]
pub fn put_number(octets: &mut [u8], at: usize, value: u64, width: usize) -> usize
    requires size { 8 * length octets.old < 2 ^ 64 }
    requires width { width ≤ 57 }
    requires below { value < 2 ^ width }
    ensures { IsGrown octets.old at octets.new result (digits value width) }
{
    let first = at / 8;
    if width > 0 && first < octets.len().saturating_sub(7) {
        let shift = at % 8;
        let before = u64::from(octets[first]) >> (8 - shift);
        let word = ((before << width) + value) << (64 - shift - width);
        store(octets, first, word);
        return at + width;
    }
    put_last(octets, at, u128::from(value), width)
}

/// Writes a number of `width` bits, at most 128, near the end of the octets, or of more than 57
/// bits. Returns the index after it.
#[cold]
#[inline(never)]
fn put_last(octets: &mut [u8], at: usize, value: u128, width: usize) -> usize
    requires size { 8 * length octets.old < 2 ^ 64 }
    requires width { width ≤ 128 }
    ensures { IsGrown octets.old at octets.new result (digits value width) }
{
    let size = 8 * octets.len();
    if at > size || width > size - at {
        return after(at, width);
    }
    overwrite_number(octets, at, value, width, &mut Turns::new());
    at + width
}

/// Writes a number of `width` bits, which must be at most 128, from bit `at` on. Returns the index
/// after it.
#[inline(always)]
pub fn put_wide(octets: &mut [u8], at: usize, value: u128, width: usize) -> usize
    requires size { 8 * length octets.old < 2 ^ 64 }
    requires width { width ≤ 128 }
    requires below { value < 2 ^ width }
    ensures { IsGrown octets.old at octets.new result (digits value width) }
{
    if width <= 57 {
        return put_number(octets, at, value as u64, width);
    }
    put_last(octets, at, value, width)
}

/// Writes `count` bits of a source, from bit `from` on, to bit `at`. Returns the index after them.
/// The bits must be inside the source.
#[inline(always)]
pub fn put_bits(octets: &mut [u8], at: usize, source: &[u8], from: usize, count: usize) -> usize
    requires size { 8 * length octets.old < 2 ^ 64 }
    requires within { from + count ≤ 8 * length source.now }
    ensures { IsGrown octets.old at octets.new result (take count (drop from (bits source.now))) }
{
    if count <= 57 {
        return put_number(octets, at, read_few(source, from, count), count);
    }
    put_many(octets, at, source, from, count)
}

/// Returns the number of `count` bits, at most 57.
pub(crate) fn read_few(source: &[u8], from: usize, count: usize) -> u64
    requires count { count ≤ 57 }
    requires within { from + count ≤ 8 * length source.now }
    ensures digits { digits result count ≡ take count (drop from (bits source.now)) }
    ensures below { result < 2 ^ count }
{
    read_wide(source, from, count) as u64
}

/// Writes many bits of a source.
#[inline(never)]
fn put_many(octets: &mut [u8], at: usize, source: &[u8], from: usize, count: usize) -> usize
    requires size { 8 * length octets.old < 2 ^ 64 }
    requires within { from + count ≤ 8 * length source.now }
    ensures { IsGrown octets.old at octets.new result (take count (drop from (bits source.now))) }
{
    let size = 8 * octets.len();
    if at > size || count > size - at {
        return after(at, count);
    }
    // The bits are within the source, so no test is made.
    match BitStr::new(source, from, count) {
        Some(view) => {
            overwrite_bitslice(octets, at, view, &mut Turns::new());
            at + count
        }
        None => at,
    }
}

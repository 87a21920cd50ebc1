//! Lengths (X.690 8.1.3, 10.1), written before contents octets that exist already.

ghost use Rattle.std.specs.Prelude.{◌≡◌, ◌+◌, ◌-◌, ◌*◌, ◌/◌, ◌%◌, ◌^◌, ◌<◌, ◌≤◌, ℕ, Bool, List, length, take, drop};
ghost use Rattle.asn1_bits.specs.Bits.{bits, digits};
ghost use Rattle.asn1_x690.specs.Elements.{length_octets};
ghost use Rattle.asn1_x690_writers.specs.Written.{AreNotCut, HaveBits, IsLengthBefore};

use asn1_bits::{Turns, overwrite_number};

/// The octets of a length, as a number and its width in bits.
#[derive(Clone, Copy, Debug)]
struct LengthOctets {
    value: u128,
    width: usize,
}

/// Returns how many octets hold a number above 0.
fn octets_of(number: u64) -> usize
    requires { 0 < number }
    ensures some { 0 < result }
    ensures few { result ≤ 8 }
    ensures holds { number < 2 ^ (8 * result) }
    ensures least { 2 ^ (8 * (result - 1)) ≤ number }
{
    for octets in 1..8usize {
        if number < 1u64 << (8 * octets) {
            return octets;
        }
    }
    8
}

/// Returns the octets of a length of 128 or more (8.1.3.5).
fn long_length_of(count: usize) -> LengthOctets
    requires { 128 ≤ count }
    ensures encodes { (node : ℕ) → (length_octets node).encodes count (digits result.value result.width) }
    ensures whole { result.width % 8 ≡ 0 }
    ensures some { 8 ≤ result.width }
    ensures few { result.width ≤ 72 }
{
    let more = octets_of(count as u64);
    let first = (128 + more) as u128;
    LengthOctets {
        value: (first << (8 * more)) + count as u128,
        width: 8 + 8 * more,
    }
}

/// Returns the octets of a length.
fn length_of(count: usize) -> LengthOctets
    ensures encodes { (node : ℕ) → (length_octets node).encodes count (digits result.value result.width) }
    ensures whole { result.width % 8 ≡ 0 }
    ensures some { 8 ≤ result.width }
    ensures few { result.width ≤ 72 }
{
    if count >= 128 {
        return long_length_of(count);
    }
    LengthOctets {
        value: count as u128,
        width: 8,
    }
}

/// Moves `count` octets from one index to another.
fn move_contents(octets: &mut [u8], count: usize, from: usize, to: usize)
    requires from { from + count ≤ length octets.old }
    requires to { to + count ≤ length octets.old }
    ensures { take (8 * count) (drop (8 * to) (bits octets.new)) ≡ take (8 * count) (drop (8 * from) (bits octets.old)) }
{
    if from != to {
        octets.copy_within(from..from + count, to);
    }
}

/// Writes the length of `count` contents octets before them (X.690 8.1.3, 10.1). Returns how many
/// bits the length has.
///
/// The contents must begin after `reserved` octets. They are moved if their length takes another number
/// of octets. Nothing is written if the octets are too few for the contents, either there or after their
/// length.
#[inline(always)]
pub fn put_length_before(octets: &mut [u8], reserved: usize, count: usize) -> usize
    requires size { 8 * length octets.old < 2 ^ 64 }
    requires few { 8 * count < 2 ^ 64 }
    requires reserved { 8 * reserved < 2 ^ 64 }
    ensures some { 8 ≤ result }
    ensures few { result ≤ 72 }
    ensures whole { result % 8 ≡ 0 }
    ensures before { (contents : List Bool) → length contents ≡ 8 * count → HaveBits octets.old (8 * reserved) contents
        → AreNotCut octets.old reserved count result → IsLengthBefore contents count octets.new result }
{
    if count >= 128 || reserved != 1 {
        return put_length_and_move(octets, reserved, count);
    }
    if count < octets.len() {
        octets[0] = count as u8;
    }
    8
}

/// Writes a length as [`put_length_before`] does.
#[inline(never)]
fn put_length_and_move(octets: &mut [u8], reserved: usize, count: usize) -> usize
    requires size { 8 * length octets.old < 2 ^ 64 }
    requires few { 8 * count < 2 ^ 64 }
    requires reserved { 8 * reserved < 2 ^ 64 }
    ensures some { 8 ≤ result }
    ensures few { result ≤ 72 }
    ensures whole { result % 8 ≡ 0 }
    ensures before { (contents : List Bool) → length contents ≡ 8 * count → HaveBits octets.old (8 * reserved) contents
        → AreNotCut octets.old reserved count result → IsLengthBefore contents count octets.new result }
{
    let length = length_of(count);
    let own = length.width / 8;
    if own.max(reserved) + count <= octets.len() {
        move_contents(octets, count, reserved, own);
        overwrite_number(octets, 0, length.value, length.width, &mut Turns::new());
    }
    length.width
}

//! The number of octets before them, where it is known only after they were written (X.691 11.2).

ghost use Rattle.std.specs.Prelude.{◌≡◌, ℕ, Bool, List, ◌+◌, ◌*◌, ◌^◌, ◌<◌, ◌≤◌, ◌++◌, length, take, drop};
ghost use Rattle.asn1_bits.specs.Bits.{digits};
ghost use Rattle.asn1_x691_writers.specs.Enclosed.{length_bits, IsOver};
ghost use Rattle.asn1_x691_writers.specs.Written.{IsGrown};

use asn1_bits::{Turns, overwrite_number};

/// Moves `count` octets, which are those after the first one, by one octet.
fn move_octets(octets: &mut [u8], count: usize)
    requires { count + 2 ≤ length octets.old }
    ensures first { take 1 octets.new ≡ take 1 octets.old }
    ensures moved { take count (drop 2 octets.new) ≡ take count (drop 1 octets.old) }
{
    let (_, rest) = octets.split_at_mut(1);
    let (moved, _) = rest.split_at_mut(count + 1);
    moved.rotate_right(1);
}

/// Writes a number of `width` bits, at most 128, over bits that were written before. Does nothing
/// where the octets are too few for it.
fn put_over(octets: &mut [u8], at: usize, value: u128, width: usize)
    requires size { 8 * length octets.old < 2 ^ 64 }
    requires width { width ≤ 128 }
    requires fits { at + width < 2 ^ 64 }
    ensures { IsOver octets.old at (digits value width) octets.new }
{
    if at + width > 8 * octets.len() {
        return;
    }
    overwrite_number(octets, at, value, width, &mut Turns::new());
}

/// Writes the number of `count` octets in the minimal number of octets before them (X.691 11.9.3.6,
/// 11.9.3.7). Returns the index after the octets.
///
/// `count` must be less than 16,384. The octets must have been written after eight zeros, and the
/// zeros at bit `at`, which must be at most 7. The octets are moved if their number takes two
/// octets.
pub fn put_length_before(octets: &mut [u8], at: usize, count: usize) -> usize
    requires size { 8 * length octets.old < 2 ^ 64 }
    requires start { at < 8 }
    requires few { count < 16384 }
    ensures index { result ≡ at + length (length_bits count) + 8 * count }
    ensures grown { (was : List ℕ) (contents : List Bool) → length contents ≡ 8 * count
        → IsGrown was at octets.old (at + 8 + 8 * count) (digits 0 8 ++ contents)
        → IsGrown was at octets.new result (length_bits count ++ contents) }
{
    if count < 128 {
        put_over(octets, at, count as u128, 8);
        return at + 8 + 8 * count;
    }
    put_two_octets(octets, at, count)
}

/// Moves the octets, and writes their number in two octets before them.
fn put_two_octets(octets: &mut [u8], at: usize, count: usize) -> usize
    requires size { 8 * length octets.old < 2 ^ 64 }
    requires start { at < 8 }
    requires few { count < 16384 }
    ensures index { result ≡ at + 16 + 8 * count }
    ensures grown { (was : List ℕ) (contents : List Bool) → length contents ≡ 8 * count
        → IsGrown was at octets.old (at + 8 + 8 * count) (digits 0 8 ++ contents)
        → IsGrown was at octets.new result (digits (32768 + count) 16 ++ contents) }
{
    let end = at + 16 + 8 * count;
    if end > 8 * octets.len() {
        return end;
    }
    move_octets(octets, count + (at + 7) / 8);
    overwrite_number(octets, at, (32768 + count) as u128, 16, &mut Turns::new());
    end
}

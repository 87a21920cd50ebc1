//! Bits that are written as zeros and set afterwards, as presence bits are.

ghost use Rattle.std.specs.Prelude.{◌≡◌, ℕ, Bool, List, true, ◌+◌, ◌*◌, ◌^◌, ◌<◌, ◌++◌, ◌∷◌, length};
ghost use Rattle.asn1_bits.specs.Bits.{digits};
ghost use Rattle.asn1_x691_writers.specs.Written.{IsIndex, IsGrown};

use crate::bits::put_number;
use asn1_bits::{Turns, overwrite_number};

/// Writes `count` zeros from bit `at` on, and returns the index after them.
pub fn put_zeros(octets: &mut [u8], at: usize, count: usize) -> usize
    requires { 8 * length octets.old < 2 ^ 64 }
    ensures { IsGrown octets.old at octets.new result (digits 0 count) }
{
    let mut next = at;
    let mut left = count;
    while left > 57 {
        next = put_number(octets, next, 0, 57);
        left -= 57;
    }
    put_number(octets, next, 0, left)
}

/// Sets bit `at`, which was written before. It does nothing if the octets are too few for it.
pub fn set_bit(octets: &mut [u8], at: usize)
    requires { 8 * length octets.old < 2 ^ 64 }
    ensures { (was : List ℕ) (old new : ℕ) (xs ys : List Bool) (b : Bool) → ((n : ℕ) → IsIndex old n → IsIndex at (n + length xs))
        → IsGrown was old octets.old new (xs ++ (b ∷ ys)) → IsGrown was old octets.new new (xs ++ (true ∷ ys)) }
{
    if at >= 8 * octets.len() {
        return;
    }
    overwrite_number(octets, at, 1, 1, &mut Turns::new());
}

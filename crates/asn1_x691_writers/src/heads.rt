//! The start of a field.

ghost use Rattle.std.specs.Prelude.{◌≡◌, ◌*◌, ◌%◌, ◌^◌, ◌<◌, length, true};
ghost use Rattle.asn1_x691_writers.specs.Written.{IsGrown, start_of};

use crate::bits::put_number;

/// Writes the zeros up to the next octet in the ALIGNED variant (X.691 11.2.6, 11.5.7, 11.9.3.3).
/// Returns the index after them.
#[inline(always)]
pub fn put_start(octets: &mut [u8], at: usize, is_aligned: bool) -> usize
    requires { 8 * length octets.old < 2 ^ 64 }
    ensures { IsGrown octets.old at octets.new result (start_of is_aligned at) }
{
    if !is_aligned {
        return at;
    }
    put_number(octets, at, 0, (8 - at % 8) % 8)
}

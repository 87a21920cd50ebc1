//! Octets of two's complement, compared with numbers.

ghost use Rattle.std.specs.Prelude.{◌≡◌, ◌≤◌, ◌<◌, ◌^◌, ◌*◌, ◌+◌, ◌-◌, ◌%◌, pos, negsuc, ◌+ℤ◌, ◌<ℤ◌, ◌≤ℤ◌, true, false, length};
ghost use Rattle.asn1_bits.specs.Bits.{bits};
ghost use Rattle.asn1_schema.specs.PiecesOfParts.{bits_of, signed_number};
ghost use Rattle.asn1_x691.specs.Leaves.{IsBetween, IsOutside};
ghost use Rattle.asn1_x691_fields.specs.Numbers.{distance};

use crate::bits::number_at;
use crate::numbers::above;
use asn1_bits::read_wide;
use asn1_schema::Span;

/// Returns the least number of `count` digits whose first digit is 1.
fn half_of(count: usize) -> u128
    requires some { 0 < count }
    requires few { count ≤ 128 }
    ensures { result ≡ 2 ^ (count - 1) }
{
    1 << (count - 1)
}

/// Returns the number that is so far below -1.
fn below_minus_one(n: u128) -> i128
    requires { n < 2 ^ 127 }
    ensures { result ≡ negsuc n }
{
    -1 - n as i128
}

/// Returns the number of a span of two's complement. It must have from 1 to 128 bits, and be inside
/// the octets.
pub fn signed_at(octets: &[u8], span: Span) -> i128
    requires size { 8 * length octets.now < 2 ^ 64 }
    requires some { 0 < span.count }
    requires few { span.count ≤ 128 }
    requires inside { span.at + span.count ≤ 8 * length octets.now }
    ensures { result ≡ signed_number (bits_of (bits octets.now) span) }
{
    let half = half_of(span.count);
    let digits = read_wide(octets, span.at, span.count);
    if digits < half {
        return digits as i128;
    }
    below_minus_one(half - 1 - (digits - half))
}

/// Returns whether octets of two's complement are a number between two bounds. The number must be
/// in the minimal number of octets. One of more than 16 octets is not between them.
pub fn is_between(octets: &[u8], span: Span, least: i128, range: u128) -> bool
    requires size { 8 * length octets.now < 2 ^ 64 }
    requires fits { (least +ℤ pos range) <ℤ pos (2 ^ 127) }
    requires some { 0 < span.count }
    requires whole { span.count % 8 ≡ 0 }
    requires inside { span.at + span.count ≤ 8 * length octets.now }
    requires fewest { 8 < span.count → 2 ^ (span.count - 9) ≤ distance (signed_number (bits_of (bits octets.now) span)) }
    ensures between { result ≡ true → IsBetween least range (signed_number (bits_of (bits octets.now) span)) }
    ensures outside { result ≡ false → IsOutside least range (signed_number (bits_of (bits octets.now) span)) }
{
    if span.count > 128 {
        return false;
    }
    let number = signed_at(octets, span);
    least <= number && number <= above(least, range)
}

/// Returns whether octets of two's complement are a number below a bound. The number must be in the
/// minimal number of octets. One of more than 16 octets is below the bound if its first bit is 1.
pub fn is_below(octets: &[u8], span: Span, bound: i128) -> bool
    requires size { 8 * length octets.now < 2 ^ 64 }
    requires some { 0 < span.count }
    requires whole { span.count % 8 ≡ 0 }
    requires inside { span.at + span.count ≤ 8 * length octets.now }
    requires fewest { 8 < span.count → 2 ^ (span.count - 9) ≤ distance (signed_number (bits_of (bits octets.now) span)) }
    ensures below { result ≡ true → signed_number (bits_of (bits octets.now) span) <ℤ bound }
    ensures above { result ≡ false → bound ≤ℤ signed_number (bits_of (bits octets.now) span) }
{
    if span.count > 128 {
        return number_at(octets, span.at, 1) == 1;
    }
    signed_at(octets, span) < bound
}

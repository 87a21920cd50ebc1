//! Whole numbers without an upper bound (X.691 11.6 to 11.8).

ghost use Rattle.std.specs.Prelude.{◌≡◌, ℕ, Bool, pos, negsuc, ◌+◌, ◌-◌, ◌*◌, ◌/◌, ◌^◌, ◌<◌, ◌≤◌, ◌⊎◌, length, replicate};
ghost use Rattle.asn1_bits.specs.Bits.{bits, digits, number};
ghost use Rattle.asn1_schema.specs.PiecesOfParts.{bits_of, signed_number};
ghost use Rattle.asn1_schema.specs.Encodings.{anywhere};
ghost use Rattle.asn1_x691.specs.Fields.{minimal_octets, semi_constrained, signed_octets, unconstrained, small_number};
ghost use Rattle.asn1_x691_fields.specs.Numbers.{distance};
ghost use Rattle.asn1_x691_writers.specs.Written.{IsWritten};

use crate::bits::{put_bits, put_number, put_wide};
use crate::heads::put_start;
use crate::held::bit_at;
use crate::lengths::put_length;
use crate::numbers::{octets_of, put_minimal};
use asn1_schema::Span;
use asn1_x691_fields::width_to;

/// Writes a whole number from 0 on, in the minimal number of octets after their number (X.691
/// 11.7). Returns the index after it.
pub fn put_semi_constrained(octets: &mut [u8], at: usize, is_aligned: bool, n: u128) -> usize
    requires size { 8 * length octets.old < 2 ^ 64 }
    ensures { (node : ℕ) → IsWritten is_aligned (semi_constrained is_aligned node) n octets.old at octets.new result }
{
    let count = octets_of(n);
    let after = put_length(octets, at, is_aligned, count);
    let start = put_start(octets, after, is_aligned);
    put_minimal(octets, start, n, count)
}

/// Writes a whole number from 0 on with the digits of a span, in the minimal number of octets after
/// their number (X.691 11.7). Returns the index after it.
///
/// The span must be inside the source, begin with a 1, and have at most 131,064 bits.
pub fn put_semi_constrained_span(
    octets: &mut [u8],
    at: usize,
    is_aligned: bool,
    source: &[u8],
    span: Span,
) -> usize
    requires size { 8 * length octets.old < 2 ^ 64 }
    requires inside { span.at + span.count ≤ 8 * length source.now }
    requires some { 0 < span.count }
    requires few { span.count ≤ 131064 }
    requires first { 2 ^ (span.count - 1) ≤ number (bits_of (bits source.now) span) }
    ensures { (node : ℕ) → IsWritten is_aligned (semi_constrained is_aligned node) (number (bits_of (bits source.now) span))
        octets.old at octets.new result }
{
    let count = (span.count + 7) / 8;
    let after = put_length(octets, at, is_aligned, count);
    let start = put_start(octets, after, is_aligned);
    put_minimal_span(octets, start, source, span, count)
}

/// Writes a number, whose digits are those of a span that begins with a 1, in the minimal number of
/// octets.
fn put_minimal_span(octets: &mut [u8], at: usize, source: &[u8], span: Span, count: usize) -> usize
    requires size { 8 * length octets.old < 2 ^ 64 }
    requires inside { span.at + span.count ≤ 8 * length source.now }
    requires some { 0 < span.count }
    requires count { count ≡ (span.count + 7) / 8 }
    requires first { 2 ^ (span.count - 1) ≤ number (bits_of (bits source.now) span) }
    ensures { (is_aligned : Bool) (node : ℕ)
        → IsWritten is_aligned (anywhere (minimal_octets count node)) (number (bits_of (bits source.now) span)) octets.old at octets.new result }
{
    let zeros = put_number(octets, at, 0, (8 - span.count % 8) % 8);
    put_bits(octets, zeros, source, span.at, span.count)
}

/// Writes a normally small whole number from 0 on (X.691 11.6). Returns the index after it.
pub fn put_small_number(octets: &mut [u8], at: usize, is_aligned: bool, n: u128) -> usize
    requires size { 8 * length octets.old < 2 ^ 64 }
    ensures { (node : ℕ) → IsWritten is_aligned (small_number is_aligned node) n octets.old at octets.new result }
{
    if n < 64 {
        return put_number(octets, at, n as u64, 7);
    }
    let after = put_number(octets, at, 1, 1);
    put_semi_constrained(octets, after, is_aligned, n)
}

/// Returns how far a number is from 0, or below 0 from -1.
#[inline(always)]
fn distance_of(z: i128) -> u128
    ensures value { result ≡ distance z }
    ensures few { result < 2 ^ 127 }
{
    if z < 0 {
        return (-1 - z) as u128;
    }
    z as u128
}

/// Returns how many octets of two's complement a number takes (X.690 8.3.2).
fn signed_octets_of(z: i128) -> usize
    ensures some { 0 < result }
    ensures few { result ≤ 16 }
    ensures below { distance z < 2 ^ (8 * result - 1) }
    ensures fewest { (result ≤ 1) ⊎ (2 ^ (8 * result - 9) ≤ distance z) }
{
    width_to(distance_of(z)) / 8 + 1
}

/// Returns the number whose digits are the `count` octets of two's complement of a number.
fn signed_digits(z: i128, count: usize) -> u128
    requires some { 0 < count }
    requires few { count ≤ 16 }
    requires below { distance z < 2 ^ (8 * count - 1) }
    ensures positive { (u : ℕ) → z ≡ pos u → result ≡ u }
    ensures negative { (u : ℕ) → z ≡ negsuc u → result ≡ 2 ^ (8 * count) - 1 - u }
    ensures digits { result < 2 ^ (8 * count) }
{
    if z < 0 {
        return (u128::MAX >> (128 - 8 * count)) - distance_of(z);
    }
    z as u128
}

/// Writes a number in `count` octets of two's complement, the minimal number.
fn put_signed(octets: &mut [u8], at: usize, z: i128, count: usize) -> usize
    requires size { 8 * length octets.old < 2 ^ 64 }
    requires some { 0 < count }
    requires few { count ≤ 16 }
    requires below { distance z < 2 ^ (8 * count - 1) }
    requires fewest { (count ≤ 1) ⊎ (2 ^ (8 * count - 9) ≤ distance z) }
    ensures { (is_aligned : Bool) (node : ℕ)
        → IsWritten is_aligned (anywhere (signed_octets count node)) z octets.old at octets.new result }
{
    put_wide(octets, at, signed_digits(z, count), 8 * count)
}

/// Writes a whole number in the minimal number of octets of two's complement, after their number
/// (X.691 11.8). Returns the index after it.
pub fn put_unconstrained(octets: &mut [u8], at: usize, is_aligned: bool, z: i128) -> usize
    requires size { 8 * length octets.old < 2 ^ 64 }
    ensures { (node : ℕ) → IsWritten is_aligned (unconstrained is_aligned node) z octets.old at octets.new result }
{
    let count = signed_octets_of(z);
    let after = put_length(octets, at, is_aligned, count);
    let start = put_start(octets, after, is_aligned);
    put_signed(octets, start, z, count)
}

/// Writes a whole number with the two's complement of a span, in the minimal number of octets after
/// their number (X.691 11.8). Returns the index after it.
///
/// The span must be inside the source, begin with two different bits, and have at most 131,064
/// bits.
pub fn put_unconstrained_span(
    octets: &mut [u8],
    at: usize,
    is_aligned: bool,
    source: &[u8],
    span: Span,
) -> usize
    requires size { 8 * length octets.old < 2 ^ 64 }
    requires inside { span.at + span.count ≤ 8 * length source.now }
    requires some { 1 < span.count }
    requires few { span.count ≤ 131064 }
    requires first { 2 ^ (span.count - 2) ≤ distance (signed_number (bits_of (bits source.now) span)) }
    ensures { (node : ℕ) → IsWritten is_aligned (unconstrained is_aligned node) (signed_number (bits_of (bits source.now) span))
        octets.old at octets.new result }
{
    let count = (span.count + 7) / 8;
    let after = put_length(octets, at, is_aligned, count);
    let start = put_start(octets, after, is_aligned);
    put_signed_span(octets, start, source, span, count)
}

/// Writes a number of two's complement, whose first two bits differ, in the minimal number of
/// octets.
fn put_signed_span(octets: &mut [u8], at: usize, source: &[u8], span: Span, count: usize) -> usize
    requires size { 8 * length octets.old < 2 ^ 64 }
    requires inside { span.at + span.count ≤ 8 * length source.now }
    requires some { 1 < span.count }
    requires count { count ≡ (span.count + 7) / 8 }
    requires first { 2 ^ (span.count - 2) ≤ distance (signed_number (bits_of (bits source.now) span)) }
    ensures { (is_aligned : Bool) (node : ℕ) → IsWritten is_aligned (anywhere (signed_octets count node))
        (signed_number (bits_of (bits source.now) span)) octets.old at octets.new result }
{
    let pad = (8 - span.count % 8) % 8;
    let signs = put_number(octets, at, sign_bits(bit_at(source, span.at), pad), pad);
    put_bits(octets, signs, source, span.at, span.count)
}

/// Returns the number whose `count` digits are all the sign.
fn sign_bits(sign: bool, count: usize) -> u64
    requires { count < 8 }
    ensures digits { digits result count ≡ replicate count sign }
    ensures below { result < 2 ^ count }
{
    if sign {
        return (1 << count) - 1;
    }
    0
}

//! The number that a part holds.

ghost use Rattle.std.specs.Prelude.{◌≡◌, pos, negsuc, ◌+ℤ◌, ◌≤ℤ◌, ◌∷◌, [], ◌+◌, ◌-◌, ◌*◌, ◌^◌, ◌<◌, ◌≤◌, length, List};
ghost use Rattle.asn1_bits.specs.Bits.{bits, number};
ghost use Rattle.asn1_schema.specs.declared.tables.Range.{Range};
ghost use Rattle.asn1_schema.specs.Pieces.{Integer};
ghost use Rattle.asn1_schema.specs.PiecesOfParts.{bits_of, bits_at, signed_number};
ghost use Rattle.asn1_x691_fields.specs.Numbers.{distance};
ghost use Rattle.asn1_x691_writers.specs.Held.{IsHeld};
ghost use Rattle.asn1_x691_writers.specs.Put.{piece_in};

use crate::bits::read_few;
use crate::spans::clip;
use asn1_bits::read_wide;
use asn1_schema::{Part, Span};
use asn1_x691_fields::above;

/// The number that a part holds.
#[derive(Clone, Copy, Debug)]
pub enum Held {
    /// A number from -2^127 to 2^127 - 1.
    Number(i128),
    /// A number of 2^127 or more.
    FarAbove,
    /// A number less than -2^127.
    FarBelow,
    /// No number.
    Other,
}

/// Returns the number that a part holds.
pub fn integer_of(source: &[u8], part: Part) -> Held
    requires { 8 * length source.now < 2 ^ 64 }
    ensures { (ranges : List Range) → IsHeld (piece_in ranges source.now part) result }
{
    match part {
        Part::Integer(z) => Held::Number(z),
        Part::Above { least, at, count } => {
            let span = Span {
                at,
                count: count as usize,
            };
            above_of(source, least, clip(source, span))
        }
        Part::Signed(span) => signed_of(source, clip(source, span)),
        _ => Held::Other,
    }
}

/// Returns the bit at an index, which must be inside the source.
pub fn bit_at(source: &[u8], at: usize) -> bool
    requires { at + 1 ≤ 8 * length source.now }
    ensures { bits_at (bits source.now) at 1 ≡ result ∷ [] }
{
    read_few(source, at, 1) == 1
}

/// Returns a span without the zeros at its begin.
pub(crate) fn strip_zeros(source: &[u8], span: Span) -> Span
    requires source { 8 * length source.now < 2 ^ 64 }
    requires inside { span.at + span.count ≤ 8 * length source.now }
    ensures inside { result.at + result.count ≤ 8 * length source.now }
    ensures same { number (bits_of (bits source.now) result) ≡ number (bits_of (bits source.now) span) }
    ensures first { 0 < result.count → 2 ^ (result.count - 1) ≤ number (bits_of (bits source.now) result) }
{
    let mut at = span.at;
    let mut count = span.count;
    while count > 0 {
        if bit_at(source, at) {
            return Span { at, count };
        }
        at += 1;
        count -= 1;
    }
    Span { at, count }
}

/// Returns the number that is so far above another.
fn above_of(source: &[u8], least: i128, span: Span) -> Held
    requires source { 8 * length source.now < 2 ^ 64 }
    requires inside { span.at + span.count ≤ 8 * length source.now }
    ensures { IsHeld (Integer (least +ℤ pos (number (bits_of (bits source.now) span)))) result }
{
    let digits = strip_zeros(source, span);
    if digits.count > 128 {
        return Held::FarAbove;
    }
    let n = read_wide(source, digits.at, digits.count);
    if n > i128::MAX.abs_diff(least) {
        return Held::FarAbove;
    }
    Held::Number(above(least, n))
}

/// Returns a span of two's complement without the first bits that repeat the sign. The span must be
/// inside the source.
pub fn strip_signs(source: &[u8], span: Span) -> Span
    requires source { 8 * length source.now < 2 ^ 64 }
    requires inside { span.at + span.count ≤ 8 * length source.now }
    ensures inside { result.at + result.count ≤ 8 * length source.now }
    ensures same { signed_number (bits_of (bits source.now) result) ≡ signed_number (bits_of (bits source.now) span) }
    ensures first { 1 < result.count → 2 ^ (result.count - 2) ≤ distance (signed_number (bits_of (bits source.now) result)) }
{
    let mut at = span.at;
    let mut count = span.count;
    while count > 1 {
        if bit_at(source, at) != bit_at(source, at + 1) {
            return Span { at, count };
        }
        at += 1;
        count -= 1;
    }
    Span { at, count }
}

/// Returns the number of two's complement.
fn signed_of(source: &[u8], span: Span) -> Held
    requires source { 8 * length source.now < 2 ^ 64 }
    requires inside { span.at + span.count ≤ 8 * length source.now }
    ensures { IsHeld (Integer (signed_number (bits_of (bits source.now) span))) result }
{
    let digits = strip_signs(source, span);
    if digits.count == 0 {
        return Held::Number(0);
    }
    if digits.count > 128 {
        return far_by_sign(source, digits);
    }
    Held::Number(signed_at(source, digits))
}

/// Returns on which side of 0 a number is that is far from it.
fn far_by_sign(source: &[u8], span: Span) -> Held
    requires inside { span.at + span.count ≤ 8 * length source.now }
    requires some { 0 < span.count }
    requires far { 2 ^ 127 ≤ distance (signed_number (bits_of (bits source.now) span)) }
    ensures { IsHeld (Integer (signed_number (bits_of (bits source.now) span))) result }
{
    if bit_at(source, span.at) {
        return Held::FarBelow;
    }
    Held::FarAbove
}

/// Returns the least number of `count` digits whose first digit is 1.
fn half_of(count: usize) -> u128
    requires some { 0 < count }
    requires few { count ≤ 128 }
    ensures { result ≡ 2 ^ (count - 1) }
{
    1 << (count - 1)
}

/// Returns the number that is so far below -1.
fn below_minus_one(n: u128) -> i128
    requires { n < 2 ^ 127 }
    ensures { result ≡ negsuc n }
{
    -1 - n as i128
}

/// Returns the number that at most 128 digits of two's complement are.
fn signed_at(octets: &[u8], span: Span) -> i128
    requires size { 8 * length octets.now < 2 ^ 64 }
    requires some { 0 < span.count }
    requires few { span.count ≤ 128 }
    requires inside { span.at + span.count ≤ 8 * length octets.now }
    ensures { result ≡ signed_number (bits_of (bits octets.now) span) }
{
    let half = half_of(span.count);
    let digits = read_wide(octets, span.at, span.count);
    if digits < half {
        return digits as i128;
    }
    below_minus_one(half - 1 - (digits - half))
}

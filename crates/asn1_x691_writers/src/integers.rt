//! INTEGER (X.691 13).

ghost use Rattle.std.specs.Prelude.{◌≡◌, pos, ◌+ℤ◌, ◌<ℤ◌, ◌≤ℤ◌, ◌+◌, ◌-◌, ◌*◌, ◌^◌, ◌<◌, ◌≤◌, true, length, List};
ghost use Rattle.asn1_bits.specs.Bits.{bits, number};
ghost use Rattle.asn1_schema.specs.declared.tables.Range.{Range};
ghost use Rattle.asn1_schema.specs.Pieces.{Integer};
ghost use Rattle.asn1_schema.specs.PiecesOfParts.{bits_of, signed_number};
ghost use Rattle.asn1_x691_fields.specs.Numbers.{distance};
ghost use Rattle.asn1_x691.specs.Leaves.{integer, integer_between, integer_at_least, integer_between_by, integer_at_least_by};
ghost use Rattle.asn1_x691_writers.specs.Held.{IsHeld};
ghost use Rattle.asn1_x691_writers.specs.Put.{IsPut, IsFarInteger, piece_in};

use crate::booleans::put_bit;
use crate::held::{Held, integer_of, strip_signs, strip_zeros};
use crate::numbers::put_constrained;
use crate::spans::clip;
use crate::state::{Writer, leave, reject};
use crate::unbounded::{
    put_semi_constrained, put_semi_constrained_span, put_unconstrained, put_unconstrained_span,
};
use asn1_schema::{Bounds, LowerBound, MisfitKind, Part, Span};

/// Returns how far a number is above the least.
#[inline(always)]
fn distance_above(z: i128, least: i128) -> u128
    requires { least ≤ℤ z }
    ensures { z ≡ least +ℤ pos result }
{
    z.abs_diff(least)
}

/// Writes an INTEGER without a lower bound, in octets of two's complement (X.691 13.2.4).
pub fn put_integer(
    octets: &mut [u8],
    is_aligned: bool,
    source: &[u8],
    part: Part,
    node: usize,
    state: &mut Writer,
) -> bool
    requires size { 8 * length octets.old < 2 ^ 64 }
    requires source { 8 * length source.now < 2 ^ 64 }
    ensures { (ranges : List Range) → IsPut is_aligned (integer is_aligned node) (piece_in ranges source.now part) octets.old state.old octets.new state.new result }
{
    match integer_of(source, part) {
        Held::Number(z) => {
            state.at = put_unconstrained(octets, state.at, is_aligned, z);
            true
        }
        Held::FarAbove => put_far(octets, is_aligned, source, part, node, state),
        Held::FarBelow => put_far(octets, is_aligned, source, part, node, state),
        Held::Other => reject(state, node, MisfitKind::OtherPart),
    }
}

/// Writes a number that 128 bits do not hold, where the part has its octets of two's complement.
fn put_far(
    octets: &mut [u8],
    is_aligned: bool,
    source: &[u8],
    part: Part,
    node: usize,
    state: &mut Writer,
) -> bool
    requires size { 8 * length octets.old < 2 ^ 64 }
    requires source { 8 * length source.now < 2 ^ 64 }
    requires far { (ranges : List Range) → IsFarInteger (piece_in ranges source.now part) }
    ensures { (ranges : List Range) → IsPut is_aligned (integer is_aligned node) (piece_in ranges source.now part) octets.old state.old octets.new state.new result }
{
    match part {
        Part::Signed(span) => {
            let digits = strip_signs(source, clip(source, span));
            put_far_span(octets, is_aligned, source, digits, node, state)
        }
        _ => leave(state, node),
    }
}

/// Writes octets of two's complement that begin with two different bits.
fn put_far_span(
    octets: &mut [u8],
    is_aligned: bool,
    source: &[u8],
    span: Span,
    node: usize,
    state: &mut Writer,
) -> bool
    requires size { 8 * length octets.old < 2 ^ 64 }
    requires inside { span.at + span.count ≤ 8 * length source.now }
    requires some { 1 < span.count }
    requires first { 2 ^ (span.count - 2) ≤ distance (signed_number (bits_of (bits source.now) span)) }
    ensures { IsPut is_aligned (integer is_aligned node) (Integer (signed_number (bits_of (bits source.now) span))) octets.old state.old
        octets.new state.new result }
{
    if span.count > 131_064 {
        return reject(state, node, MisfitKind::NoEncoding);
    }
    state.at = put_unconstrained_span(octets, state.at, is_aligned, source, span);
    true
}

/// Writes an INTEGER between two bounds, which may have an extension marker (X.691 13.1, 13.2.2).
pub fn put_integer_between(
    octets: &mut [u8],
    is_aligned: bool,
    bounds: Bounds,
    is_extensible: bool,
    source: &[u8],
    part: Part,
    node: usize,
    state: &mut Writer,
) -> bool
    requires size { 8 * length octets.old < 2 ^ 64 }
    requires source { 8 * length source.now < 2 ^ 64 }
    ensures { (ranges : List Range) → IsPut is_aligned (integer_between_by is_aligned node is_extensible bounds.least bounds.range) (piece_in ranges source.now part)
        octets.old state.old octets.new state.new result }
{
    match integer_of(source, part) {
        Held::Number(z) => {
            if is_extensible {
                return put_between_by_bit(octets, is_aligned, bounds, z, node, state);
            }
            put_between(octets, is_aligned, bounds, z, node, state)
        }
        Held::FarAbove => {
            if is_extensible {
                return leave(state, node);
            }
            reject(state, node, MisfitKind::NoEncoding)
        }
        Held::FarBelow => {
            if is_extensible {
                return leave(state, node);
            }
            reject(state, node, MisfitKind::OtherPart)
        }
        Held::Other => reject(state, node, MisfitKind::OtherPart),
    }
}

/// Writes a number between two bounds, by its distance from the least (X.691 13.2.2).
fn put_between(
    octets: &mut [u8],
    is_aligned: bool,
    bounds: Bounds,
    z: i128,
    node: usize,
    state: &mut Writer,
) -> bool
    requires { 8 * length octets.old < 2 ^ 64 }
    ensures { IsPut is_aligned (integer_between is_aligned node bounds.least bounds.range) (Integer z) octets.old state.old octets.new
        state.new result }
{
    if z < bounds.least {
        return reject(state, node, MisfitKind::OtherPart);
    }
    let distance = distance_above(z, bounds.least);
    if distance > bounds.range {
        return reject(state, node, MisfitKind::NoEncoding);
    }
    state.at = put_constrained(octets, state.at, is_aligned, bounds.range, distance);
    true
}

/// Writes a number after an extension bit: 0 where it is between the bounds.
fn put_between_by_bit(
    octets: &mut [u8],
    is_aligned: bool,
    bounds: Bounds,
    z: i128,
    node: usize,
    state: &mut Writer,
) -> bool
    requires { 8 * length octets.old < 2 ^ 64 }
    ensures { IsPut is_aligned (integer_between_by is_aligned node true bounds.least bounds.range) (Integer z) octets.old state.old
        octets.new state.new result }
{
    if z < bounds.least {
        let added = put_bit(octets, state.at, true);
        state.at = put_unconstrained(octets, added, is_aligned, z);
        return true;
    }
    let distance = distance_above(z, bounds.least);
    if distance > bounds.range {
        let added = put_bit(octets, state.at, true);
        state.at = put_unconstrained(octets, added, is_aligned, z);
        return true;
    }
    let root = put_bit(octets, state.at, false);
    state.at = put_constrained(octets, root, is_aligned, bounds.range, distance);
    true
}

/// Writes an INTEGER with a lower bound alone, which may have an extension marker (X.691 13.1,
/// 13.2.3).
pub fn put_integer_at_least(
    octets: &mut [u8],
    is_aligned: bool,
    bound: LowerBound,
    is_extensible: bool,
    source: &[u8],
    part: Part,
    node: usize,
    state: &mut Writer,
) -> bool
    requires size { 8 * length octets.old < 2 ^ 64 }
    requires source { 8 * length source.now < 2 ^ 64 }
    ensures { (ranges : List Range) → IsPut is_aligned (integer_at_least_by is_aligned node is_extensible bound.least) (piece_in ranges source.now part)
        octets.old state.old octets.new state.new result }
{
    match integer_of(source, part) {
        Held::Number(z) => {
            if is_extensible {
                return put_at_least_by_bit(octets, is_aligned, bound, z, node, state);
            }
            put_at_least(octets, is_aligned, bound, z, node, state)
        }
        Held::FarAbove => {
            if is_extensible {
                return leave(state, node);
            }
            put_far_above(octets, is_aligned, bound, source, part, node, state)
        }
        Held::FarBelow => {
            if is_extensible {
                return leave(state, node);
            }
            reject(state, node, MisfitKind::OtherPart)
        }
        Held::Other => reject(state, node, MisfitKind::OtherPart),
    }
}

/// Writes a number that 128 bits do not hold, where the part has its distance from the least value.
fn put_far_above(
    octets: &mut [u8],
    is_aligned: bool,
    bound: LowerBound,
    source: &[u8],
    part: Part,
    node: usize,
    state: &mut Writer,
) -> bool
    requires size { 8 * length octets.old < 2 ^ 64 }
    requires source { 8 * length source.now < 2 ^ 64 }
    requires far { (ranges : List Range) → IsFarInteger (piece_in ranges source.now part) }
    ensures { (ranges : List Range) → IsPut is_aligned (integer_at_least is_aligned node bound.least) (piece_in ranges source.now part) octets.old state.old octets.new
        state.new result }
{
    match part {
        Part::Above { least, at, count } => {
            if least != bound.least {
                return leave(state, node);
            }
            let span = Span {
                at,
                count: count as usize,
            };
            let digits = strip_zeros(source, clip(source, span));
            put_above_span(octets, is_aligned, least, source, digits, node, state)
        }
        _ => leave(state, node),
    }
}

/// Writes the digits of a distance from the least value, the first of them 1.
fn put_above_span(
    octets: &mut [u8],
    is_aligned: bool,
    least: i128,
    source: &[u8],
    span: Span,
    node: usize,
    state: &mut Writer,
) -> bool
    requires size { 8 * length octets.old < 2 ^ 64 }
    requires inside { span.at + span.count ≤ 8 * length source.now }
    requires some { 0 < span.count }
    requires first { 2 ^ (span.count - 1) ≤ number (bits_of (bits source.now) span) }
    ensures { IsPut is_aligned (integer_at_least is_aligned node least)
        (Integer (least +ℤ pos (number (bits_of (bits source.now) span)))) octets.old state.old octets.new state.new result }
{
    if span.count > 131_064 {
        return reject(state, node, MisfitKind::NoEncoding);
    }
    state.at = put_semi_constrained_span(octets, state.at, is_aligned, source, span);
    true
}

/// Writes a number by its distance from the least (X.691 13.2.3).
fn put_at_least(
    octets: &mut [u8],
    is_aligned: bool,
    bound: LowerBound,
    z: i128,
    node: usize,
    state: &mut Writer,
) -> bool
    requires { 8 * length octets.old < 2 ^ 64 }
    ensures { IsPut is_aligned (integer_at_least is_aligned node bound.least) (Integer z) octets.old state.old octets.new
        state.new result }
{
    if z < bound.least {
        return reject(state, node, MisfitKind::OtherPart);
    }
    state.at = put_semi_constrained(octets, state.at, is_aligned, distance_above(z, bound.least));
    true
}

/// Writes a number after an extension bit: 0 where it is not below the least.
fn put_at_least_by_bit(
    octets: &mut [u8],
    is_aligned: bool,
    bound: LowerBound,
    z: i128,
    node: usize,
    state: &mut Writer,
) -> bool
    requires { 8 * length octets.old < 2 ^ 64 }
    ensures { IsPut is_aligned (integer_at_least_by is_aligned node true bound.least) (Integer z) octets.old state.old
        octets.new state.new result }
{
    if z < bound.least {
        let added = put_bit(octets, state.at, true);
        state.at = put_unconstrained(octets, added, is_aligned, z);
        return true;
    }
    let root = put_bit(octets, state.at, false);
    state.at = put_semi_constrained(octets, root, is_aligned, distance_above(z, bound.least));
    true
}

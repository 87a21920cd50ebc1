//! INTEGER (X.690 8.3).

ghost use Rattle.std.specs.Prelude.{◌≡◌, pos, negsuc, ◌+◌, ◌-◌, ◌*◌, ◌^◌, ◌<◌, ◌≤◌, true, false, List, length};
ghost use Rattle.asn1_number.specs.Shortest.{residue_at};
ghost use Rattle.asn1_schema.specs.declared.tables.Range.{Range};
ghost use Rattle.asn1_schema.specs.Pieces.{Integer};
ghost use Rattle.asn1_x690.specs.Der.{always};
ghost use Rattle.asn1_x690.specs.Leaves.{IsAtLeast, IsBetween, IsInteger, leaf_of};
ghost use Rattle.asn1_x690_writers.specs.Numbers.{IsNumberWritten, mag_of};
ghost use Rattle.asn1_x690_writers.specs.Put.{IsFarWithout, IsPut, LeftAt};
ghost use Rattle.asn1_x691_writers.specs.Put.{IsFarInteger, piece_in};

use crate::octets::put_span;
use asn1_schema::{Bounds, LowerBound, MisfitKind, Part};
use asn1_x690_leaves::is_minimal;
use asn1_x691_writers::{Held, Writer, clip, integer_of, leave, put_wide, reject};

/// Returns a number, or how far it is below -1.
fn magnitude_of(z: i128) -> u128
    ensures value { result ≡ mag_of z }
    ensures few { result < 2 ^ 127 }
{
    if z >= 0 { z as u128 } else { (-1 - z) as u128 }
}

/// Returns how many octets a number needs after the first.
fn octets_past_first(magnitude: u128) -> usize
    requires { magnitude < 2 ^ 127 }
    ensures few { result ≤ 15 }
    ensures holds { magnitude < 2 ^ (8 * result + 7) }
    ensures least { 0 < result → 2 ^ (8 * (result - 1) + 7) ≤ magnitude }
{
    for count in 0..15usize {
        if magnitude < 1u128 << (8 * count + 7) {
            return count;
        }
    }
    15
}

/// Returns the digits of a number in `count` octets of two's complement.
fn digits_of(z: i128, count: usize) -> u128
    requires some { 0 < count }
    requires few { count ≤ 16 }
    requires holds { mag_of z < 2 ^ (8 * count - 1) }
    ensures value { result ≡ residue_at count z }
    ensures below { result < 2 ^ (8 * count) }
{
    if z >= 0 {
        return z as u128;
    }
    (u128::MAX >> (128 - 8 * count)) - magnitude_of(z)
}

/// Writes a number in two's complement of minimal length. Returns the index after it.
pub(crate) fn put_number_octets(octets: &mut [u8], at: usize, z: i128) -> usize
    requires { 8 * length octets.old < 2 ^ 64 }
    ensures { IsNumberWritten z octets.old at octets.new result }
{
    let count = octets_past_first(magnitude_of(z)) + 1;
    put_wide(octets, at, digits_of(z, count), 8 * count)
}

/// Returns whether a number is within bounds. Those of a type with an extension marker do not count.
fn is_between(z: i128, bounds: Bounds, is_extensible: bool) -> bool
    ensures yes { result ≡ true → IsBetween is_extensible bounds.least bounds.range z }
    ensures no { result ≡ false → IsBetween is_extensible bounds.least bounds.range z → ⊥ }
{
    if is_extensible {
        return true;
    }
    z >= bounds.least && z.abs_diff(bounds.least) <= bounds.range
}

/// Returns whether a number is from a bound on. That of a type with an extension marker does not
/// count.
fn is_at_least(z: i128, bound: LowerBound, is_extensible: bool) -> bool
    ensures yes { result ≡ true → IsAtLeast is_extensible bound.least z }
    ensures no { result ≡ false → IsAtLeast is_extensible bound.least z → ⊥ }
{
    if is_extensible {
        return true;
    }
    z >= bound.least
}

/// Writes a number outside -2^127 to 2^127 - 1, if its octets of two's complement are in the source, in
/// minimal length.
fn put_far(octets: &mut [u8], source: &[u8], part: Part, node: usize, state: &mut Writer) -> bool
    requires size { 8 * length octets.old < 2 ^ 64 }
    requires source { 8 * length source.now < 2 ^ 64 }
    requires far { (ranges : List Range) → IsFarInteger (piece_in ranges source.now part) }
    ensures { (ranges : List Range) → IsPut (LeftAt (IsFarWithout source.now part (piece_in ranges source.now part)) node state.new) (leaf_of IsInteger always Integer node) (piece_in ranges source.now part)
        octets.old state.old octets.new state.new result }
{
    let Part::Signed(span) = part else {
        return leave(state, node);
    };
    let inside = clip(source, span);
    if inside.count % 8 > 0 {
        return leave(state, node);
    }
    if !is_minimal(source, inside) {
        return leave(state, node);
    }
    state.at = put_span(octets, state.at, source, inside.at, inside.count);
    true
}

/// Writes an INTEGER without a lower bound. A number outside -2^127 to 2^127 - 1 is left unless its
/// octets of two's complement are in the source, in minimal length.
pub(crate) fn put_integer(
    octets: &mut [u8],
    source: &[u8],
    part: Part,
    node: usize,
    state: &mut Writer,
) -> bool
    requires size { 8 * length octets.old < 2 ^ 64 }
    requires source { 8 * length source.now < 2 ^ 64 }
    ensures { (ranges : List Range) → IsPut (LeftAt (IsFarWithout source.now part (piece_in ranges source.now part)) node state.new) (leaf_of IsInteger always Integer node) (piece_in ranges source.now part)
        octets.old state.old octets.new state.new result }
{
    match integer_of(source, part) {
        Held::Number(z) => {
            state.at = put_number_octets(octets, state.at, z);
            true
        }
        Held::Other => reject(state, node, MisfitKind::OtherPart),
        Held::FarAbove => put_far(octets, source, part, node, state),
        Held::FarBelow => put_far(octets, source, part, node, state),
    }
}

/// Writes an INTEGER within both bounds. With an extension marker, a number outside -2^127 to 2^127 - 1
/// is left unless its octets of two's complement are in the source, in minimal length.
pub(crate) fn put_integer_between(
    octets: &mut [u8],
    bounds: Bounds,
    is_extensible: bool,
    source: &[u8],
    part: Part,
    node: usize,
    state: &mut Writer,
) -> bool
    requires size { 8 * length octets.old < 2 ^ 64 }
    requires source { 8 * length source.now < 2 ^ 64 }
    ensures { (ranges : List Range) → IsPut (LeftAt (IsFarWithout source.now part (piece_in ranges source.now part)) node state.new) (leaf_of IsInteger (IsBetween is_extensible bounds.least bounds.range) Integer node) (piece_in ranges source.now part)
        octets.old state.old octets.new state.new result }
{
    match integer_of(source, part) {
        Held::Number(z) => {
            if !is_between(z, bounds, is_extensible) {
                return reject(state, node, MisfitKind::NoEncoding);
            }
            state.at = put_number_octets(octets, state.at, z);
            true
        }
        Held::Other => reject(state, node, MisfitKind::OtherPart),
        Held::FarAbove => {
            if is_extensible {
                return put_far(octets, source, part, node, state);
            }
            reject(state, node, MisfitKind::NoEncoding)
        }
        Held::FarBelow => {
            if is_extensible {
                return put_far(octets, source, part, node, state);
            }
            reject(state, node, MisfitKind::NoEncoding)
        }
    }
}

/// Writes an INTEGER from a lower bound on. A number above 2^127 - 1, or with an extension marker below
/// -2^127, is left unless its octets of two's complement are in the source, in minimal length.
pub(crate) fn put_integer_at_least(
    octets: &mut [u8],
    bound: LowerBound,
    is_extensible: bool,
    source: &[u8],
    part: Part,
    node: usize,
    state: &mut Writer,
) -> bool
    requires size { 8 * length octets.old < 2 ^ 64 }
    requires source { 8 * length source.now < 2 ^ 64 }
    ensures { (ranges : List Range) → IsPut (LeftAt (IsFarWithout source.now part (piece_in ranges source.now part)) node state.new) (leaf_of IsInteger (IsAtLeast is_extensible bound.least) Integer node) (piece_in ranges source.now part)
        octets.old state.old octets.new state.new result }
{
    match integer_of(source, part) {
        Held::Number(z) => {
            if !is_at_least(z, bound, is_extensible) {
                return reject(state, node, MisfitKind::NoEncoding);
            }
            state.at = put_number_octets(octets, state.at, z);
            true
        }
        Held::Other => reject(state, node, MisfitKind::OtherPart),
        Held::FarAbove => put_far(octets, source, part, node, state),
        Held::FarBelow => {
            if is_extensible {
                return put_far(octets, source, part, node, state);
            }
            reject(state, node, MisfitKind::NoEncoding)
        }
    }
}

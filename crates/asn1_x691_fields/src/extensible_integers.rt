//! INTEGER with an extension marker (X.691 13.1): a value outside the root is as without bounds.

ghost use Rattle.std.specs.Prelude.{◌≡◌, ◌≤◌, ◌<◌, ◌^◌, ◌*◌, ◌∷◌, [], pos, ◌+ℤ◌, ◌<ℤ◌, ◌≤ℤ◌, List, length};
ghost use Rattle.asn1_bits.specs.Bits.{bits};
ghost use Rattle.asn1_schema.specs.Encodings.{permitted};
ghost use Rattle.asn1_schema.specs.Pieces.{Integer};
ghost use Rattle.asn1_schema.specs.declared.tables.Range.{Range};
ghost use Rattle.asn1_schema.specs.PiecesOfParts.{piece_of};
ghost use Rattle.asn1_schema.specs.TypeEncodings.{leaf, by_bit};
ghost use Rattle.asn1_x691.specs.declared.fault.FaultKind.TheVariants.{InRoot};
ghost use Rattle.asn1_x691.specs.Fields.{unconstrained};
ghost use Rattle.asn1_x691.specs.Leaves.{IsBetween, IsOutside, integer_between, integer_at_least, integer_between_by, integer_at_least_by};
ghost use Rattle.asn1_x691_fields.specs.Outcomes.{IsWithin, IsOnward, IsRead, IsPlaced};

use crate::heads::next_bit;
use crate::integers::{next_integer_at_least, next_integer_between};
use crate::signed::{is_below, is_between};
use crate::state::{State, fail};
use crate::unbounded::next_unconstrained;
use asn1_schema::{Bounds, LowerBound, Part};
use asn1_x691::FaultKind;

/// Reads an INTEGER between two bounds, which may have an extension marker (X.691 13.1, 13.2.2).
pub fn next_integer_between_by(
    octets: &[u8],
    is_aligned: bool,
    bounds: Bounds,
    is_extensible: bool,
    node: usize,
    state: &mut State,
) -> Option<Part>
    requires size { 8 * length octets.now < 2 ^ 64 }
    requires within { IsWithin (bits octets.now) state.old }
    requires placed { IsPlaced is_aligned state.old }
    ensures onward { IsOnward (bits octets.now) state.old state.new }
    ensures read { (ranges : List Range) → IsRead (λ at. (integer_between_by is_aligned node is_extensible bounds.least bounds.range at).encoding)
        (λ p. piece_of ranges (bits octets.now) p ∷ []) (bits octets.now) state.old state.new result }
{
    if !is_extensible {
        return next_integer_between(octets, is_aligned, bounds, node, state);
    }
    let is_added = next_bit(octets, node, state)?;
    next_between_by_bit(octets, is_aligned, bounds, is_added, node, state)
}

/// Reads a value between two bounds, or outside them, after the extension bit.
fn next_between_by_bit(
    octets: &[u8],
    is_aligned: bool,
    bounds: Bounds,
    is_added: bool,
    node: usize,
    state: &mut State,
) -> Option<Part>
    requires size { 8 * length octets.now < 2 ^ 64 }
    requires within { IsWithin (bits octets.now) state.old }
    requires placed { IsPlaced is_aligned state.old }
    ensures onward { IsOnward (bits octets.now) state.old state.new }
    ensures read { (ranges : List Range) → IsRead (λ at. by_bit (integer_between is_aligned node bounds.least bounds.range at)
        (leaf (permitted (IsOutside bounds.least bounds.range) (IsBetween bounds.least bounds.range) InRoot node
        (unconstrained is_aligned node)) Integer node at) is_added)
        (λ p. piece_of ranges (bits octets.now) p ∷ []) (bits octets.now) state.old state.new result }
{
    if is_added {
        return next_outside(octets, is_aligned, bounds.least, bounds.range, node, state);
    }
    next_integer_between(octets, is_aligned, bounds, node, state)
}

/// Reads a value that is not between two bounds.
fn next_outside(
    octets: &[u8],
    is_aligned: bool,
    least: i128,
    range: u128,
    node: usize,
    state: &mut State,
) -> Option<Part>
    requires size { 8 * length octets.now < 2 ^ 64 }
    requires fits { (least +ℤ pos range) <ℤ pos (2 ^ 127) }
    requires within { IsWithin (bits octets.now) state.old }
    requires placed { IsPlaced is_aligned state.old }
    ensures onward { IsOnward (bits octets.now) state.old state.new }
    ensures read { (ranges : List Range) → IsRead (λ at. (leaf (permitted (IsOutside least range) (IsBetween least range) InRoot node
        (unconstrained is_aligned node)) Integer node at).encoding)
        (λ p. piece_of ranges (bits octets.now) p ∷ []) (bits octets.now) state.old state.new result }
{
    let span = next_unconstrained(octets, is_aligned, node, state)?;
    if is_between(octets, span, least, range) {
        fail(state, node, FaultKind::InRoot);
        return None;
    }
    Some(Part::Signed(span))
}

/// Reads an INTEGER with a lower bound alone, which may have an extension marker (X.691 13.1,
/// 13.2.3).
pub fn next_integer_at_least_by(
    octets: &[u8],
    is_aligned: bool,
    bound: LowerBound,
    is_extensible: bool,
    node: usize,
    state: &mut State,
) -> Option<Part>
    requires size { 8 * length octets.now < 2 ^ 64 }
    requires within { IsWithin (bits octets.now) state.old }
    requires placed { IsPlaced is_aligned state.old }
    ensures onward { IsOnward (bits octets.now) state.old state.new }
    ensures read { (ranges : List Range) → IsRead (λ at. (integer_at_least_by is_aligned node is_extensible bound.least at).encoding)
        (λ p. piece_of ranges (bits octets.now) p ∷ []) (bits octets.now) state.old state.new result }
{
    if !is_extensible {
        return next_integer_at_least(octets, is_aligned, bound, node, state);
    }
    let is_added = next_bit(octets, node, state)?;
    next_at_least_by_bit(octets, is_aligned, bound, is_added, node, state)
}

/// Reads a value from a least one on, or below it, after the extension bit.
fn next_at_least_by_bit(
    octets: &[u8],
    is_aligned: bool,
    bound: LowerBound,
    is_added: bool,
    node: usize,
    state: &mut State,
) -> Option<Part>
    requires size { 8 * length octets.now < 2 ^ 64 }
    requires within { IsWithin (bits octets.now) state.old }
    requires placed { IsPlaced is_aligned state.old }
    ensures onward { IsOnward (bits octets.now) state.old state.new }
    ensures read { (ranges : List Range) → IsRead (λ at. by_bit (integer_at_least is_aligned node bound.least at)
        (leaf (permitted (λ n. n <ℤ bound.least) (λ n. bound.least ≤ℤ n) InRoot node (unconstrained is_aligned node)) Integer node at) is_added)
        (λ p. piece_of ranges (bits octets.now) p ∷ []) (bits octets.now) state.old state.new result }
{
    if is_added {
        return next_below(octets, is_aligned, bound.least, node, state);
    }
    next_integer_at_least(octets, is_aligned, bound, node, state)
}

/// Reads a value below the least of the root.
fn next_below(
    octets: &[u8],
    is_aligned: bool,
    least: i128,
    node: usize,
    state: &mut State,
) -> Option<Part>
    requires size { 8 * length octets.now < 2 ^ 64 }
    requires within { IsWithin (bits octets.now) state.old }
    requires placed { IsPlaced is_aligned state.old }
    ensures onward { IsOnward (bits octets.now) state.old state.new }
    ensures read { (ranges : List Range) → IsRead (λ at. (leaf (permitted (λ n. n <ℤ least) (λ n. least ≤ℤ n) InRoot node
        (unconstrained is_aligned node)) Integer node at).encoding)
        (λ p. piece_of ranges (bits octets.now) p ∷ []) (bits octets.now) state.old state.new result }
{
    let span = next_unconstrained(octets, is_aligned, node, state)?;
    if !is_below(octets, span, least) {
        fail(state, node, FaultKind::InRoot);
        return None;
    }
    Some(Part::Signed(span))
}

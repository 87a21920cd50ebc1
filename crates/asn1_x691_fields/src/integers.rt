//! INTEGER (X.691 13).

ghost use Rattle.std.specs.Prelude.{◌≡◌, ◌≤◌, ◌<◌, ◌^◌, ◌*◌, ◌∷◌, [], List, length};
ghost use Rattle.asn1_bits.specs.Bits.{bits};
ghost use Rattle.asn1_schema.specs.declared.tables.Range.{Range};
ghost use Rattle.asn1_schema.specs.PiecesOfParts.{piece_of};
ghost use Rattle.asn1_x691.specs.Leaves.{integer, integer_at_least, integer_between};
ghost use Rattle.asn1_x691_fields.specs.Outcomes.{IsWithin, IsOnward, IsRead, IsPlaced};

use crate::numbers::{above, next_constrained};
use crate::state::State;
use crate::unbounded::{next_semi_constrained, next_unconstrained};
use asn1_schema::{Bounds, LowerBound, Part};

/// Reads an INTEGER between two bounds, as its distance from the least value (X.691 13.2.2).
pub fn next_integer_between(
    octets: &[u8],
    is_aligned: bool,
    bounds: Bounds,
    node: usize,
    state: &mut State,
) -> Option<Part>
    requires size { 8 * length octets.now < 2 ^ 64 }
    requires within { IsWithin (bits octets.now) state.old }
    requires placed { IsPlaced is_aligned state.old }
    ensures onward { IsOnward (bits octets.now) state.old state.new }
    ensures read { (ranges : List Range) → IsRead (λ at. (integer_between is_aligned node bounds.least bounds.range at).encoding)
        (λ p. piece_of ranges (bits octets.now) p ∷ []) (bits octets.now) state.old state.new result }
{
    let n = next_constrained(octets, is_aligned, bounds.range, node, state)?;
    Some(Part::Integer(above(bounds.least, n)))
}

/// Reads an INTEGER with a lower bound alone, as its distance from that bound (X.691 13.2.3).
pub fn next_integer_at_least(
    octets: &[u8],
    is_aligned: bool,
    bound: LowerBound,
    node: usize,
    state: &mut State,
) -> Option<Part>
    requires size { 8 * length octets.now < 2 ^ 64 }
    requires within { IsWithin (bits octets.now) state.old }
    requires placed { IsPlaced is_aligned state.old }
    ensures onward { IsOnward (bits octets.now) state.old state.new }
    ensures read { (ranges : List Range) → IsRead (λ at. (integer_at_least is_aligned node bound.least at).encoding)
        (λ p. piece_of ranges (bits octets.now) p ∷ []) (bits octets.now) state.old state.new result }
{
    let span = next_semi_constrained(octets, is_aligned, node, state)?;
    Some(Part::Above {
        least: bound.least,
        at: span.at,
        count: span.count as u32,
    })
}

/// Reads an INTEGER without a lower bound (X.691 13.2.4).
pub fn next_integer(octets: &[u8], is_aligned: bool, node: usize, state: &mut State) -> Option<Part>
    requires size { 8 * length octets.now < 2 ^ 64 }
    requires within { IsWithin (bits octets.now) state.old }
    requires placed { IsPlaced is_aligned state.old }
    ensures onward { IsOnward (bits octets.now) state.old state.new }
    ensures read { (ranges : List Range) → IsRead (λ at. (integer is_aligned node at).encoding)
        (λ p. piece_of ranges (bits octets.now) p ∷ []) (bits octets.now) state.old state.new result }
{
    let span = next_unconstrained(octets, is_aligned, node, state)?;
    Some(Part::Signed(span))
}

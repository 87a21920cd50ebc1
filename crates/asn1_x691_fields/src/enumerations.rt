//! ENUMERATED (X.691 14).

ghost use Rattle.std.specs.Prelude.{◌≡◌, ◌≤◌, ◌<◌, ◌^◌, ◌*◌, ◌+◌, ◌∷◌, [], List, Bool, length};
ghost use Rattle.asn1_bits.specs.Bits.{bits};
ghost use Rattle.asn1_schema.specs.declared.tables.Range.{Range};
ghost use Rattle.asn1_schema.specs.PiecesOfParts.{piece_of, natural_of};
ghost use Rattle.asn1_schema.specs.TypeEncodings.{leaf, by_bit};
ghost use Rattle.asn1_x691.specs.Fields.{small_number};
ghost use Rattle.asn1_x691.specs.Leaves.{enumerated, enumerated_by, value_of_addition as piece_of_addition};
ghost use Rattle.asn1_x691_fields.specs.Numbers.{IsNatural};
ghost use Rattle.asn1_x691_fields.specs.Outcomes.{IsWithin, IsOnward, IsRead, IsPlaced};

use crate::heads::next_bit;
use crate::numbers::next_constrained;
use crate::small::next_small_number;
use crate::state::State;
use asn1_schema::{Natural, Part};

/// Reads an ENUMERATED: the index of the value in the root, or among the additions (X.691 14.2,
/// 14.3).
pub fn next_enumerated(
    octets: &[u8],
    is_aligned: bool,
    last: usize,
    is_extensible: bool,
    additions: usize,
    node: usize,
    state: &mut State,
) -> Option<Part>
    requires size { 8 * length octets.now < 2 ^ 64 }
    requires fits { last + 1 + additions < 2 ^ 64 }
    requires within { IsWithin (bits octets.now) state.old }
    requires placed { IsPlaced is_aligned state.old }
    ensures onward { IsOnward (bits octets.now) state.old state.new }
    ensures read { (ranges : List Range) → IsRead (λ at. (enumerated_by is_aligned node is_extensible last additions at).encoding)
        (λ p. piece_of ranges (bits octets.now) p ∷ []) (bits octets.now) state.old state.new result }
{
    if !is_extensible {
        return next_value_of_root(octets, is_aligned, last, node, state);
    }
    let is_added = next_bit(octets, node, state)?;
    next_value_by_bit(octets, is_aligned, last, is_added, additions, node, state)
}

/// Reads a value after the extension bit.
fn next_value_by_bit(
    octets: &[u8],
    is_aligned: bool,
    last: usize,
    is_added: bool,
    additions: usize,
    node: usize,
    state: &mut State,
) -> Option<Part>
    requires size { 8 * length octets.now < 2 ^ 64 }
    requires fits { last + 1 + additions < 2 ^ 64 }
    requires within { IsWithin (bits octets.now) state.old }
    requires placed { IsPlaced is_aligned state.old }
    ensures onward { IsOnward (bits octets.now) state.old state.new }
    ensures read { (ranges : List Range) → IsRead (λ at. by_bit (enumerated is_aligned node last at)
        (leaf (small_number is_aligned node) (piece_of_addition last additions) node at) is_added)
        (λ p. piece_of ranges (bits octets.now) p ∷ []) (bits octets.now) state.old state.new result }
{
    if is_added {
        return next_added_value(octets, is_aligned, last, additions, node, state);
    }
    next_value_of_root(octets, is_aligned, last, node, state)
}

/// Reads the index of a value of the root (X.691 14.2).
fn next_value_of_root(
    octets: &[u8],
    is_aligned: bool,
    last: usize,
    node: usize,
    state: &mut State,
) -> Option<Part>
    requires size { 8 * length octets.now < 2 ^ 64 }
    requires within { IsWithin (bits octets.now) state.old }
    requires placed { IsPlaced is_aligned state.old }
    ensures onward { IsOnward (bits octets.now) state.old state.new }
    ensures read { (ranges : List Range) → IsRead (λ at. (enumerated is_aligned node last at).encoding)
        (λ p. piece_of ranges (bits octets.now) p ∷ []) (bits octets.now) state.old state.new result }
{
    let index = next_constrained(octets, is_aligned, last as u128, node, state)?;
    Some(Part::Enumerated(index as usize))
}

/// Reads the index of a value among the additions (X.691 14.3).
fn next_added_value(
    octets: &[u8],
    is_aligned: bool,
    last: usize,
    additions: usize,
    node: usize,
    state: &mut State,
) -> Option<Part>
    requires size { 8 * length octets.now < 2 ^ 64 }
    requires fits { last + 1 + additions < 2 ^ 64 }
    requires within { IsWithin (bits octets.now) state.old }
    requires placed { IsPlaced is_aligned state.old }
    ensures onward { IsOnward (bits octets.now) state.old state.new }
    ensures read { (ranges : List Range) → IsRead (λ at. (leaf (small_number is_aligned node) (piece_of_addition last additions) node at).encoding)
        (λ p. piece_of ranges (bits octets.now) p ∷ []) (bits octets.now) state.old state.new result }
{
    let index = next_small_number(octets, is_aligned, node, state)?;
    Some(value_of_addition(last, additions, index))
}

/// Returns an addition by its index: the value of that index after the root, where it is known.
fn value_of_addition(last: usize, additions: usize, index: Natural) -> Part
    requires fits { last + 1 + additions < 2 ^ 64 }
    ensures { (ranges : List Range) (list : List Bool) (s : State) → IsNatural list s index
        → piece_of ranges list result ≡ piece_of_addition last additions (natural_of list index) }
{
    match index {
        Natural::Small(i) => {
            if (i as usize) < additions {
                return Part::Enumerated(last + 1 + i as usize);
            }
            Part::UnknownEnumerated(index)
        }
        Natural::Large(_) => Part::UnknownEnumerated(index),
    }
}

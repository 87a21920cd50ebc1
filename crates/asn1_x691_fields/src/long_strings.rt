//! Bits or octets after their number, which has a least or is none of the root (X.691 16.6, 16.11, 17.3, 17.8).

ghost use Rattle.std.specs.Prelude.{◌≡◌, ℕ, ◌≤◌, ◌<◌, ◌^◌, ◌*◌, List, Bool, true, length};
ghost use Rattle.asn1_bits.specs.Bits.{bits};
ghost use Rattle.asn1_schema.specs.declared.tables.Range.{Range};
ghost use Rattle.asn1_schema.specs.Pieces.{Bits, Octets};
ghost use Rattle.asn1_schema.specs.PiecesOfParts.{piece_of, bits_of, joined};
ghost use Rattle.asn1_x691.specs.Strings.{long_string, added_string};
ghost use Rattle.asn1_x691.specs.Fragments.{most_fragments};
ghost use Rattle.asn1_x691_fields.specs.Outcomes.{IsWithin, IsOnward, IsRead, IsPlaced};

use crate::fragments::next_in_fragments;
use crate::sizes::is_of_root;
use crate::state::{State, fail};
use asn1_schema::{Fragments, Length, Part};
use asn1_x691::FaultKind;

/// Reads units of `unit` bits after their number, which is not below the least (X.691 16.11, 17.8). `unit`
/// must be 1 to 64.
pub(crate) fn next_long_units(
    octets: &[u8],
    is_aligned: bool,
    unit: usize,
    least: usize,
    node: usize,
    state: &mut State,
) -> Option<Fragments>
    requires size { 8 * length octets.now < 2 ^ 64 }
    requires unit { (1 ≤ unit) × (unit ≤ 64) }
    requires within { IsWithin (bits octets.now) state.old }
    requires placed { IsPlaced is_aligned state.old }
    ensures onward { IsOnward (bits octets.now) state.old state.new }
    ensures read { IsRead (long_string most_fragments is_aligned unit least node) (λ f. joined unit (bits octets.now) f) (bits octets.now)
        state.old state.new result }
{
    let (count, fragments) = next_in_fragments(octets, is_aligned, unit, node, state)?;
    if count < least {
        fail(state, node, FaultKind::BelowLeast);
        return None;
    }
    Some(fragments)
}

/// Reads units of `unit` bits, of a number that is none of the root (X.691 16.6, 17.3). `unit` must be 1 to
/// 64.
pub(crate) fn next_other_units(
    octets: &[u8],
    is_aligned: bool,
    unit: usize,
    size: Length,
    node: usize,
    state: &mut State,
) -> Option<Fragments>
    requires size { 8 * length octets.now < 2 ^ 64 }
    requires unit { (1 ≤ unit) × (unit ≤ 64) }
    requires within { IsWithin (bits octets.now) state.old }
    requires placed { IsPlaced is_aligned state.old }
    ensures onward { IsOnward (bits octets.now) state.old state.new }
    ensures read { IsRead (added_string most_fragments is_aligned unit size node) (λ f. joined unit (bits octets.now) f) (bits octets.now)
        state.old state.new result }
{
    let (count, fragments) = next_in_fragments(octets, is_aligned, unit, node, state)?;
    if is_of_root(size, count) {
        fail(state, node, FaultKind::InRoot);
        return None;
    }
    Some(fragments)
}

/// Returns whether units are in no fragments.
#[inline(always)]
pub(crate) fn are_in_one_piece(fragments: Fragments) -> bool
    ensures { (unit : ℕ) (list : List Bool) → result ≡ true → bits_of list fragments.last ≡ joined unit list fragments }
{
    fragments.whole == 0 && fragments.middle.count == 0
}

/// Returns the part of octets that may be in fragments.
#[inline(always)]
pub(crate) fn part_of_octets(fragments: Fragments) -> Part
    ensures { (ranges : List Range) (list : List Bool) → piece_of ranges list result ≡ Octets (joined 8 list fragments) }
{
    if are_in_one_piece(fragments) {
        return Part::Octets(fragments.last);
    }
    Part::OctetsInFragments(fragments)
}

/// Returns the part of bits that may be in fragments.
#[inline(always)]
pub(crate) fn part_of_bits(fragments: Fragments) -> Part
    ensures { (ranges : List Range) (list : List Bool) → piece_of ranges list result ≡ Bits (joined 1 list fragments) }
{
    if are_in_one_piece(fragments) {
        return Part::Bits(fragments.last);
    }
    Part::BitsInFragments(fragments)
}

//! Whole numbers without an upper bound (X.691 11.7, 11.8): they stay in the message.

ghost use Rattle.std.specs.Prelude.{◌≡◌, ◌+◌, ◌-◌, ◌*◌, ◌^◌, ◌<◌, ◌≤◌, length, IfSome};
ghost use Rattle.asn1_bits.specs.Bits.{bits, number};
ghost use Rattle.asn1_schema.specs.Encodings.{anywhere, invalid, in_case};
ghost use Rattle.asn1_schema.specs.PiecesOfParts.{bits_of, signed_number};
ghost use Rattle.asn1_x691.specs.declared.fault.FaultKind.TheVariants.{NotMinimal};
ghost use Rattle.asn1_x691.specs.Fields.{on_octet, minimal_octets, semi_constrained, signed_octets, unconstrained};
ghost use Rattle.asn1_x691_fields.specs.Numbers.{AreOctets, distance};
ghost use Rattle.asn1_x691_fields.specs.Outcomes.{IsWithin, IsOnward, IsRead, IsPlaced};

use crate::bits::number_at;
use crate::heads::{next_bits, next_start};
use crate::lengths::next_length;
use crate::state::{State, fail};
use asn1_schema::Span;
use asn1_x691::FaultKind;

/// Reads a whole number from 0 on, in the minimal number of octets after their number (X.691 11.7).
/// Returns its octets.
pub fn next_semi_constrained(
    octets: &[u8],
    is_aligned: bool,
    node: usize,
    state: &mut State,
) -> Option<Span>
    requires size { 8 * length octets.now < 2 ^ 64 }
    requires within { IsWithin (bits octets.now) state.old }
    requires placed { IsPlaced is_aligned state.old }
    ensures onward { IsOnward (bits octets.now) state.old state.new }
    ensures octets { IfSome result (λ s. AreOctets s state.new) }
    ensures fewest { IfSome result (λ s. 8 < s.count → 2 ^ (s.count - 8) ≤ number (bits_of (bits octets.now) s)) }
    ensures read { IsRead (semi_constrained is_aligned node) (λ s. number (bits_of (bits octets.now) s)) (bits octets.now)
        state.old state.new result }
{
    let count = next_length(octets, is_aligned, node, state)?;
    next_after_count(octets, is_aligned, count, node, state)
}

/// Reads a number from 0 on in `count` octets, at least one, and no fewer than it needs.
#[inline(always)]
fn next_after_count(
    octets: &[u8],
    is_aligned: bool,
    count: usize,
    node: usize,
    state: &mut State,
) -> Option<Span>
    requires size { 8 * length octets.now < 2 ^ 64 }
    requires count { count < 16384 }
    requires within { IsWithin (bits octets.now) state.old }
    requires placed { IsPlaced is_aligned state.old }
    ensures onward { IsOnward (bits octets.now) state.old state.new }
    ensures octets { IfSome result (λ s. AreOctets s state.new) }
    ensures fewest { IfSome result (λ s. 8 < s.count → 2 ^ (s.count - 8) ≤ number (bits_of (bits octets.now) s)) }
    ensures read { IsRead (in_case (0 < count) (on_octet is_aligned node (minimal_octets count node))
        (count ≡ 0) (anywhere (invalid NotMinimal node))) (λ s. number (bits_of (bits octets.now) s)) (bits octets.now) state.old state.new result }
{
    if count == 0 {
        fail(state, node, FaultKind::NotMinimal);
        return None;
    }
    next_start(octets, is_aligned, node, state)?;
    next_minimal_octets(octets, count, node, state)
}

/// Reads a number in `count` octets, and no fewer (X.691 11.3.6).
#[inline(always)]
fn next_minimal_octets(octets: &[u8], count: usize, node: usize, state: &mut State) -> Option<Span>
    requires size { 8 * length octets.now < 2 ^ 64 }
    requires some { 0 < count }
    requires count { count < 16384 }
    requires within { IsWithin (bits octets.now) state.old }
    ensures onward { IsOnward (bits octets.now) state.old state.new }
    ensures octets { IfSome result (λ s. AreOctets s state.new) }
    ensures fewest { IfSome result (λ s. 8 < s.count → 2 ^ (s.count - 8) ≤ number (bits_of (bits octets.now) s)) }
    ensures read { IsRead (anywhere (minimal_octets count node)) (λ s. number (bits_of (bits octets.now) s)) (bits octets.now)
        state.old state.new result }
{
    let at = next_bits(octets, 8 * count, node, state)?;
    if count > 1 && number_at(octets, at, 8) == 0 {
        fail(state, node, FaultKind::NotMinimal);
        return None;
    }
    Some(Span {
        at,
        count: 8 * count,
    })
}

/// Reads a whole number in the minimal number of octets of two's complement, after their number
/// (X.691 11.8). Returns its octets.
pub fn next_unconstrained(
    octets: &[u8],
    is_aligned: bool,
    node: usize,
    state: &mut State,
) -> Option<Span>
    requires size { 8 * length octets.now < 2 ^ 64 }
    requires within { IsWithin (bits octets.now) state.old }
    requires placed { IsPlaced is_aligned state.old }
    ensures onward { IsOnward (bits octets.now) state.old state.new }
    ensures octets { IfSome result (λ s. AreOctets s state.new) }
    ensures fewest { IfSome result (λ s. 8 < s.count → 2 ^ (s.count - 9) ≤ distance (signed_number (bits_of (bits octets.now) s))) }
    ensures read { IsRead (unconstrained is_aligned node) (λ s. signed_number (bits_of (bits octets.now) s)) (bits octets.now)
        state.old state.new result }
{
    let count = next_length(octets, is_aligned, node, state)?;
    next_signed_after_count(octets, is_aligned, count, node, state)
}

/// Reads a number in `count` octets of two's complement, at least one, and no fewer than it needs.
#[inline(always)]
fn next_signed_after_count(
    octets: &[u8],
    is_aligned: bool,
    count: usize,
    node: usize,
    state: &mut State,
) -> Option<Span>
    requires size { 8 * length octets.now < 2 ^ 64 }
    requires count { count < 16384 }
    requires within { IsWithin (bits octets.now) state.old }
    requires placed { IsPlaced is_aligned state.old }
    ensures onward { IsOnward (bits octets.now) state.old state.new }
    ensures octets { IfSome result (λ s. AreOctets s state.new) }
    ensures fewest { IfSome result (λ s. 8 < s.count → 2 ^ (s.count - 9) ≤ distance (signed_number (bits_of (bits octets.now) s))) }
    ensures read { IsRead (in_case (0 < count) (on_octet is_aligned node (signed_octets count node))
        (count ≡ 0) (anywhere (invalid NotMinimal node))) (λ s. signed_number (bits_of (bits octets.now) s)) (bits octets.now) state.old state.new result }
{
    if count == 0 {
        fail(state, node, FaultKind::NotMinimal);
        return None;
    }
    next_start(octets, is_aligned, node, state)?;
    next_signed_octets(octets, count, node, state)
}

/// Reads a number in `count` octets of two's complement, and no fewer: where there are two or more,
/// the first nine bits differ (X.690 8.3.2).
#[inline(always)]
fn next_signed_octets(octets: &[u8], count: usize, node: usize, state: &mut State) -> Option<Span>
    requires size { 8 * length octets.now < 2 ^ 64 }
    requires some { 0 < count }
    requires count { count < 16384 }
    requires within { IsWithin (bits octets.now) state.old }
    ensures onward { IsOnward (bits octets.now) state.old state.new }
    ensures octets { IfSome result (λ s. AreOctets s state.new) }
    ensures fewest { IfSome result (λ s. 8 < s.count → 2 ^ (s.count - 9) ≤ distance (signed_number (bits_of (bits octets.now) s))) }
    ensures read { IsRead (anywhere (signed_octets count node)) (λ s. signed_number (bits_of (bits octets.now) s)) (bits octets.now)
        state.old state.new result }
{
    let at = next_bits(octets, 8 * count, node, state)?;
    if count > 1 {
        let first = number_at(octets, at, 9);
        if first == 0 || first == 511 {
            fail(state, node, FaultKind::NotMinimal);
            return None;
        }
    }
    Some(Span {
        at,
        count: 8 * count,
    })
}

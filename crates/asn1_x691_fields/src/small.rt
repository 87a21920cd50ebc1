//! Whole numbers from 0 on, where most are below 64 (X.691 11.6).

ghost use Rattle.std.specs.Prelude.{◌≡◌, ◌+◌, ◌-◌, ◌*◌, ◌^◌, ◌<◌, ◌≤◌, length, IfSome};
ghost use Rattle.asn1_bits.specs.Bits.{bits, number};
ghost use Rattle.asn1_schema.specs.Encodings.{anywhere, in_case, number as number_in};
ghost use Rattle.asn1_schema.specs.PiecesOfParts.{bits_of, natural_of};
ghost use Rattle.asn1_x691.specs.declared.fault.FaultKind.TheVariants.{Short};
ghost use Rattle.asn1_x691.specs.Fields.{at_least_64, large_number, small_number};
ghost use Rattle.asn1_x691_fields.specs.Numbers.{AreOctets, IsNatural};
ghost use Rattle.asn1_x691_fields.specs.Outcomes.{IsWithin, IsOnward, IsRead, IsPlaced};

use crate::bits::last_number;
use crate::heads::next_word;
use crate::state::{State, fail};
use crate::unbounded::next_semi_constrained;
use asn1_schema::{Natural, Span};
use asn1_x691::FaultKind;

/// Reads a normally small whole number from 0 on (X.691 11.6).
pub fn next_small_number(
    octets: &[u8],
    is_aligned: bool,
    node: usize,
    state: &mut State,
) -> Option<Natural>
    requires size { 8 * length octets.now < 2 ^ 64 }
    requires within { IsWithin (bits octets.now) state.old }
    requires placed { IsPlaced is_aligned state.old }
    ensures onward { IsOnward (bits octets.now) state.old state.new }
    ensures natural { IfSome result (λ n. IsNatural (bits octets.now) state.new n) }
    ensures read { IsRead (small_number is_aligned node) (λ n. natural_of (bits octets.now) n) (bits octets.now)
        state.old state.new result }
{
    let bit = next_word(octets, 1, node, state)?;
    next_small_or_large(octets, is_aligned, bit, node, state)
}

/// Reads a number after the bit for its form: 0 below 64, and 1 from 64 on.
#[inline(always)]
fn next_small_or_large(
    octets: &[u8],
    is_aligned: bool,
    bit: u64,
    node: usize,
    state: &mut State,
) -> Option<Natural>
    requires size { 8 * length octets.now < 2 ^ 64 }
    requires within { IsWithin (bits octets.now) state.old }
    requires placed { IsPlaced is_aligned state.old }
    ensures onward { IsOnward (bits octets.now) state.old state.new }
    ensures natural { IfSome result (λ n. IsNatural (bits octets.now) state.new n) }
    ensures read { IsRead (in_case (bit ≡ 0) (anywhere (number_in 6 Short node)) (0 < bit) (large_number is_aligned node))
        (λ n. natural_of (bits octets.now) n) (bits octets.now) state.old state.new result }
{
    if bit == 0 {
        return next_below_64(octets, node, state);
    }
    next_large_number(octets, is_aligned, node, state)
}

/// Reads a number below 64.
#[inline(always)]
fn next_below_64(octets: &[u8], node: usize, state: &mut State) -> Option<Natural>
    requires size { 8 * length octets.now < 2 ^ 64 }
    requires within { IsWithin (bits octets.now) state.old }
    ensures onward { IsOnward (bits octets.now) state.old state.new }
    ensures natural { IfSome result (λ n. IsNatural (bits octets.now) state.new n) }
    ensures read { IsRead (anywhere (number_in 6 Short node)) (λ n. natural_of (bits octets.now) n) (bits octets.now)
        state.old state.new result }
{
    let n = next_word(octets, 6, node, state)?;
    Some(Natural::Small(n))
}

/// Reads a number from 64 on.
fn next_large_number(
    octets: &[u8],
    is_aligned: bool,
    node: usize,
    state: &mut State,
) -> Option<Natural>
    requires size { 8 * length octets.now < 2 ^ 64 }
    requires within { IsWithin (bits octets.now) state.old }
    requires placed { IsPlaced is_aligned state.old }
    ensures onward { IsOnward (bits octets.now) state.old state.new }
    ensures natural { IfSome result (λ n. IsNatural (bits octets.now) state.new n) }
    ensures read { IsRead (large_number is_aligned node) (λ n. natural_of (bits octets.now) n) (bits octets.now)
        state.old state.new result }
{
    let span = next_semi_constrained(octets, is_aligned, node, state)?;
    next_at_least_64(octets, span, node, state)
}

/// Returns the number that was read last, unless it is below 64.
fn next_at_least_64(octets: &[u8], span: Span, node: usize, state: &mut State) -> Option<Natural>
    requires size { 8 * length octets.now < 2 ^ 64 }
    requires within { IsWithin (bits octets.now) state.old }
    requires octets { AreOctets span state.old }
    requires fewest { 8 < span.count → 2 ^ (span.count - 8) ≤ number (bits_of (bits octets.now) span) }
    ensures onward { IsOnward (bits octets.now) state.old state.new }
    ensures natural { IfSome result (λ n. IsNatural (bits octets.now) state.new n) }
    ensures read { IsRead (anywhere (at_least_64 node (number (bits_of (bits octets.now) span)))) (λ n. natural_of (bits octets.now) n)
        (bits octets.now) state.old state.new result }
{
    if span.count > 64 {
        return Some(Natural::Large(span));
    }
    let n = last_number(octets, span.at, span.count);
    if n < 64 {
        fail(state, node, FaultKind::NotMinimal);
        return None;
    }
    Some(Natural::Small(n))
}

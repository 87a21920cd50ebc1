//! Strings of units by their size constraint (X.691 16, 17): bits, or octets.

ghost use Rattle.std.specs.Prelude.{◌≡◌, ◌≤◌, ◌<◌, ◌^◌, ◌*◌, ◌+◌, true, false, length, IfSome};
ghost use Rattle.asn1_bits.specs.Bits.{bits};
ghost use Rattle.asn1_schema.specs.Encodings.{anywhere};
ghost use Rattle.asn1_schema.specs.Fields.{raw_bits};
ghost use Rattle.asn1_schema.specs.PiecesOfParts.{bits_of};
ghost use Rattle.asn1_x691.specs.declared.fault.FaultKind.TheVariants.{Short};
ghost use Rattle.asn1_x691.specs.Strings.{string_of, added_string, long_string, sized_string, units_of, IsInline, IsOnOctet};
ghost use Rattle.asn1_x691_fields.specs.Outcomes.{IsWithin, IsOnward, IsRead, IsPlaced};

use crate::heads::{next_bits, next_start};
use crate::numbers::next_constrained;
use crate::sizes::is_of_root;
use crate::state::{State, fail};
use crate::strings::next_units;
use asn1_schema::{Length, Span};
use asn1_x691::FaultKind;

/// Reads a string of units of `unit` bits, of a size of the root. `unit` is at most 64.
pub(crate) fn next_string_of(
    octets: &[u8],
    is_aligned: bool,
    unit: usize,
    size: Length,
    node: usize,
    state: &mut State,
) -> Option<Span>
    requires size { 8 * length octets.now < 2 ^ 64 }
    requires unit { unit ≤ 64 }
    requires within { IsWithin (bits octets.now) state.old }
    requires placed { IsPlaced is_aligned state.old }
    ensures onward { IsOnward (bits octets.now) state.old state.new }
    ensures inside { IfSome result (λ s. s.at + s.count ≤ 8 * length octets.now) }
    ensures read { IsRead (string_of 0 is_aligned unit size node) (λ s. bits_of (bits octets.now) s) (bits octets.now)
        state.old state.new result }
{
    match size {
        Length::AtLeast { least } => next_long_string(octets, is_aligned, unit, least, node, state),
        Length::Between { least, range } => {
            next_sized_string(
                octets,
                is_aligned,
                unit,
                least as usize,
                range as usize,
                node,
                state,
            )
        }
    }
}

/// Reads a string of units of `unit` bits, of a size that is none of the root (X.691 16.6, 17.3).
/// `unit` is at most 64.
pub(crate) fn next_added_string(
    octets: &[u8],
    is_aligned: bool,
    unit: usize,
    size: Length,
    node: usize,
    state: &mut State,
) -> Option<Span>
    requires size { 8 * length octets.now < 2 ^ 64 }
    requires unit { unit ≤ 64 }
    requires within { IsWithin (bits octets.now) state.old }
    requires placed { IsPlaced is_aligned state.old }
    ensures onward { IsOnward (bits octets.now) state.old state.new }
    ensures inside { IfSome result (λ s. s.at + s.count ≤ 8 * length octets.now) }
    ensures read { IsRead (added_string 0 is_aligned unit size node) (λ s. bits_of (bits octets.now) s) (bits octets.now)
        state.old state.new result }
{
    let (count, at) = next_units(octets, is_aligned, unit, node, state)?;
    if is_of_root(size, count) {
        fail(state, node, FaultKind::InRoot);
        return None;
    }
    Some(Span {
        at,
        count: unit * count,
    })
}

/// Reads units after their number, which is not below the least (X.691 16.11, 17.8).
fn next_long_string(
    octets: &[u8],
    is_aligned: bool,
    unit: usize,
    least: usize,
    node: usize,
    state: &mut State,
) -> Option<Span>
    requires size { 8 * length octets.now < 2 ^ 64 }
    requires unit { unit ≤ 64 }
    requires within { IsWithin (bits octets.now) state.old }
    requires placed { IsPlaced is_aligned state.old }
    ensures onward { IsOnward (bits octets.now) state.old state.new }
    ensures inside { IfSome result (λ s. s.at + s.count ≤ 8 * length octets.now) }
    ensures read { IsRead (long_string 0 is_aligned unit least node) (λ s. bits_of (bits octets.now) s) (bits octets.now)
        state.old state.new result }
{
    let (count, at) = next_units(octets, is_aligned, unit, node, state)?;
    if count < least {
        fail(state, node, FaultKind::BelowLeast);
        return None;
    }
    Some(Span {
        at,
        count: unit * count,
    })
}

/// Reads units whose number has an upper bound: where the number is not fixed, it precedes them
/// (X.691 16.8 to 16.11, 17.5 to 17.8).
pub(crate) fn next_sized_string(
    octets: &[u8],
    is_aligned: bool,
    unit: usize,
    least: usize,
    range: usize,
    node: usize,
    state: &mut State,
) -> Option<Span>
    requires size { 8 * length octets.now < 2 ^ 64 }
    requires unit { unit ≤ 64 }
    requires within { IsWithin (bits octets.now) state.old }
    requires placed { IsPlaced is_aligned state.old }
    ensures onward { IsOnward (bits octets.now) state.old state.new }
    ensures inside { IfSome result (λ s. s.at + s.count ≤ 8 * length octets.now) }
    ensures read { IsRead (sized_string is_aligned unit least range node) (λ s. bits_of (bits octets.now) s) (bits octets.now)
        state.old state.new result }
{
    let more = next_constrained(octets, is_aligned, range as u128, node, state)?;
    next_units_of(
        octets,
        is_aligned,
        unit,
        least,
        range,
        more as usize,
        node,
        state,
    )
}

/// Reads `least + more` units. They begin at an octet in the ALIGNED variant, unless their number is
/// fixed and small, or there are none (X.691 16.9, 16.10, 17.6, 17.7).
fn next_units_of(
    octets: &[u8],
    is_aligned: bool,
    unit: usize,
    least: usize,
    range: usize,
    more: usize,
    node: usize,
    state: &mut State,
) -> Option<Span>
    requires size { 8 * length octets.now < 2 ^ 64 }
    requires unit { unit ≤ 64 }
    requires more { more ≤ range }
    requires within { IsWithin (bits octets.now) state.old }
    requires placed { IsPlaced is_aligned state.old }
    ensures onward { IsOnward (bits octets.now) state.old state.new }
    ensures inside { IfSome result (λ s. s.at + s.count ≤ 8 * length octets.now) }
    ensures read { IsRead (units_of is_aligned unit least range node (least + more)) (λ s. bits_of (bits octets.now) s)
        (bits octets.now) state.old state.new result }
{
    if is_inline(unit, least, range, more) {
        return next_run(octets, unit, least, more, node, state);
    }
    next_start(octets, is_aligned, node, state)?;
    next_run(octets, unit, least, more, node, state)
}

/// Returns whether `least + more` units begin where they are.
fn is_inline(unit: usize, least: usize, range: usize, more: usize) -> bool
    requires unit { unit ≤ 64 }
    requires more { more ≤ range }
    ensures is { result ≡ true → IsInline unit least range (least + more) }
    ensures not { result ≡ false → IsOnOctet unit least range (least + more) }
{
    if range == 0 {
        return least == 0 || unit as u128 * least as u128 <= 16;
    }
    least == 0 && more == 0
}

/// Reads `least + more` units of `unit` bits. Where these are more bits than a `usize` counts, the
/// message has fewer.
fn next_run(
    octets: &[u8],
    unit: usize,
    least: usize,
    more: usize,
    node: usize,
    state: &mut State,
) -> Option<Span>
    requires size { 8 * length octets.now < 2 ^ 64 }
    requires unit { unit ≤ 64 }
    requires within { IsWithin (bits octets.now) state.old }
    ensures onward { IsOnward (bits octets.now) state.old state.new }
    ensures inside { IfSome result (λ s. s.at + s.count ≤ 8 * length octets.now) }
    ensures read { IsRead (anywhere (raw_bits (unit * (least + more)) Short node)) (λ s. bits_of (bits octets.now) s)
        (bits octets.now) state.old state.new result }
{
    let count = unit as u128 * (least as u128 + more as u128);
    if count > (state.end - state.at) as u128 {
        fail(state, node, FaultKind::Short);
        return None;
    }
    let count = count as usize;
    let at = next_bits(octets, count, node, state)?;
    Some(Span { at, count })
}

//! Units of a string in fragments (X.691 11.9.3.8): bits, or octets.

ghost use Rattle.std.specs.Prelude.{◌≡◌, ◌≤◌, ◌<◌, ◌^◌, ◌*◌, ◌+◌, ◌%◌, ◌++◌, ℕ, true, length, IfSome};
ghost use Rattle.asn1_bits.specs.Bits.{bits};
ghost use Rattle.asn1_schema.specs.Encodings.{anywhere};
ghost use Rattle.asn1_schema.specs.PiecesOfParts.{bits_of, joined};
ghost use Rattle.asn1_x691.specs.Fragments.{most_fragments, units_octets, units_next, string, last_units, bits_of_units};
ghost use Rattle.asn1_x691_fields.specs.Outcomes.{IsWithin, IsOnward, IsRead, IsPlaced};
ghost use Rattle.asn1_x691_fields.specs.FragmentSteps.{after_number};
ghost use Rattle.asn1_x691_fields.specs.Fragments.{AreInside, AreUnitsOf};

use crate::heads::{next_bits, next_start, next_word};
use crate::state::{State, fail};
use asn1_schema::{Fragments, Span};
use asn1_x691::FaultKind;

/// The units after the last fragment of 65,536.
#[derive(Clone, Copy, Debug)]
struct Tail {
    /// How many units there are.
    count: usize,
    /// A fragment of fewer than 65,536 units; no bits where there is no such one.
    middle: Span,
    /// The last units, fewer than 16,384.
    last: Span,
}

/// Reads the number of the units that follow: fewer than 16,384, or those of a fragment.
#[inline(always)]
fn next_number_octets(octets: &[u8], node: usize, state: &mut State) -> Option<usize>
    requires size { 8 * length octets.now < 2 ^ 64 }
    requires within { IsWithin (bits octets.now) state.old }
    ensures onward { IsOnward (bits octets.now) state.old state.new }
    ensures most { IfSome result (λ n. n ≤ 65536) }
    ensures at { IfSome result (λ n. 16384 ≤ n → state.new.at ≡ state.old.at + 8) }
    ensures moved { IfSome result (λ n. state.old.at + 8 ≤ state.new.at) }
    ensures octets { IfSome result (λ n. state.new.at % 8 ≡ state.old.at % 8) }
    ensures read { IsRead (anywhere (units_octets node)) (λ n. n) (bits octets.now) state.old state.new result }
{
    let first = next_word(octets, 8, node, state)? as usize;
    if first < 128 {
        return Some(first);
    }
    if first >= 192 {
        let times = first - 192;
        if times < 1 || times > 4 {
            fail(state, node, FaultKind::Fragment);
            return None;
        }
        return Some(16384 * times);
    }
    let second = next_word(octets, 8, node, state)? as usize;
    let count = 256 * (first - 128) + second;
    if count < 128 {
        fail(state, node, FaultKind::NotMinimal);
        return None;
    }
    Some(count)
}

/// Reads the number of the units that follow, fewer than 16,384 or those of a fragment, at an octet in
/// the ALIGNED variant (X.691 11.9.3.5 to 11.9.3.8).
#[inline(always)]
pub fn next_number_of_units(
    octets: &[u8],
    is_aligned: bool,
    node: usize,
    state: &mut State,
) -> Option<usize>
    requires size { 8 * length octets.now < 2 ^ 64 }
    requires within { IsWithin (bits octets.now) state.old }
    requires placed { IsPlaced is_aligned state.old }
    ensures onward { IsOnward (bits octets.now) state.old state.new }
    ensures most { IfSome result (λ n. n ≤ 65536) }
    ensures octet { IfSome result (λ n. is_aligned ≡ true → state.new.at % 8 ≡ 0) }
    ensures moved { IfSome result (λ n. state.old.at + 8 ≤ state.new.at) }
    ensures at { IfSome result (λ n. 16384 ≤ n → (is_aligned ≡ true → state.old.at % 8 ≡ 0) → state.new.at ≡ state.old.at + 8) }
    ensures read { IsRead (units_next is_aligned node) (λ n. n) (bits octets.now) state.old state.new result }
{
    next_start(octets, is_aligned, node, state)?;
    next_number_octets(octets, node, state)
}

/// Reads the last units of `unit` bits, fewer than 16,384, after their number. `unit` must be 1 to 64.
fn next_last(
    octets: &[u8],
    is_aligned: bool,
    unit: usize,
    node: usize,
    state: &mut State,
) -> Option<(usize, Span)>
    requires size { 8 * length octets.now < 2 ^ 64 }
    requires unit { (1 ≤ unit) × (unit ≤ 64) }
    requires within { IsWithin (bits octets.now) state.old }
    requires placed { IsPlaced is_aligned state.old }
    ensures onward { IsOnward (bits octets.now) state.old state.new }
    ensures few { IfSome result (λ p. p.0 < 16384) }
    ensures moved { IfSome result (λ p. state.old.at + p.0 ≤ state.new.at) }
    ensures inside { IfSome result (λ p. AreUnitsOf unit (bits octets.now) p.1) }
    ensures read { IsRead (last_units (bits_of_units unit node) (λ a b. a ++ b) is_aligned node) (λ p. (p.0, bits_of (bits octets.now) p.1))
        (bits octets.now) state.old state.new result }
{
    let count = next_number_of_units(octets, is_aligned, node, state)?;
    if count >= 16384 {
        fail(state, node, FaultKind::NotMinimal);
        return None;
    }
    let at = next_bits(octets, unit * count, node, state)?;
    Some((
        count,
        Span {
            at,
            count: unit * count,
        },
    ))
}

/// Reads units, `count` of them in the first fragment, fewer than 65,536.
fn next_tail(
    octets: &[u8],
    is_aligned: bool,
    unit: usize,
    count: usize,
    node: usize,
    state: &mut State,
) -> Option<Tail>
    requires size { 8 * length octets.now < 2 ^ 64 }
    requires few { count < 65536 }
    requires unit { (1 ≤ unit) × (unit ≤ 64) }
    requires within { IsWithin (bits octets.now) state.old }
    requires placed { IsPlaced is_aligned state.old }
    ensures onward { IsOnward (bits octets.now) state.old state.new }
    ensures few { IfSome result (λ t. t.count < 131072) }
    ensures moved { IfSome result (λ t. state.old.at + t.count ≤ state.new.at) }
    ensures inside { IfSome result (λ t. AreUnitsOf unit (bits octets.now) t.middle × AreUnitsOf unit (bits octets.now) t.last) }
    ensures read { (more : ℕ) → IsRead (after_number unit is_aligned node more count)
        (λ t. (t.count, bits_of (bits octets.now) t.middle ++ bits_of (bits octets.now) t.last))
        (bits octets.now) state.old state.new result }
{
    let at = next_bits(octets, unit * count, node, state)?;
    let first = Span {
        at,
        count: unit * count,
    };
    if count < 16384 {
        return Some(Tail {
            count,
            middle: Span { at, count: 0 },
            last: first,
        });
    }
    let (more, last) = next_last(octets, is_aligned, unit, node, state)?;
    Some(Tail {
        count: count + more,
        middle: first,
        last,
    })
}

/// Reads units after their number, in fragments from 16,384 units on. Returns their number too.
pub(crate) fn next_in_fragments(
    octets: &[u8],
    is_aligned: bool,
    unit: usize,
    node: usize,
    state: &mut State,
) -> Option<(usize, Fragments)>
    requires size { 8 * length octets.now < 2 ^ 64 }
    requires unit { (1 ≤ unit) × (unit ≤ 64) }
    requires within { IsWithin (bits octets.now) state.old }
    requires placed { IsPlaced is_aligned state.old }
    ensures onward { IsOnward (bits octets.now) state.old state.new }
    ensures inside { IfSome result (λ p. AreInside unit (bits octets.now) p.1) }
    ensures all { IfSome result (λ p. unit * p.0 ≡ length (joined unit (bits octets.now) p.1)) }
    ensures read { IsRead (string most_fragments is_aligned unit node) (λ p. (p.0, joined unit (bits octets.now) p.1)) (bits octets.now)
        state.old state.new result }
{
    let mut count = next_number_of_units(octets, is_aligned, node, state)?;
    let at = state.at;
    let mut whole = 0;
    while count >= 65536 {
        next_bits(octets, unit * count, node, state)?;
        whole += 1;
        count = next_number_of_units(octets, is_aligned, node, state)?;
    }
    let tail = next_tail(octets, is_aligned, unit, count, node, state)?;
    Some((
        65536 * whole + tail.count,
        Fragments {
            at,
            whole,
            middle: tail.middle,
            last: tail.last,
        },
    ))
}

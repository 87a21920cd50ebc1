//! Units after their number (X.691 11.9.3.6 to 11.9.3.8). Fragments exceed the limit of the readers.

ghost use Rattle.std.specs.Prelude.{◌≡◌, ◌≤◌, ◌<◌, ◌^◌, ◌*◌, ◌+◌, ◌%◌, ◌⊎◌, true, length, IfSome, None};
ghost use Rattle.asn1_bits.specs.Bits.{bits};
ghost use Rattle.asn1_schema.specs.PiecesOfParts.{bits_at, bits_of};
ghost use Rattle.asn1_x691.specs.Fragments.{units_octets, units_next, string, octets};
ghost use Rattle.asn1_x691.specs.declared.fault.FaultKind.TheVariants.{Fragment};
ghost use Rattle.asn1_x691_fields.specs.Outcomes.{IsWithin, IsOnward, IsRead, IsPlaced};

use crate::heads::{next_bits, next_start, next_word};
use crate::state::{State, fail};
use asn1_schema::Span;
use asn1_x691::FaultKind;

/// Reads the number of the units that follow, which is in one or two octets.
#[inline(always)]
fn next_count_octets(octets: &[u8], node: usize, state: &mut State) -> Option<usize>
    requires size { 8 * length octets.now < 2 ^ 64 }
    requires within { IsWithin (bits octets.now) state.old }
    ensures onward { IsOnward (bits octets.now) state.old state.new }
    ensures octets { IfSome result (λ n. state.new.at % 8 ≡ state.old.at % 8) }
    ensures read { IsRead (λ at. units_octets node) (λ n. n) (bits octets.now) state.old state.new result }
{
    let first = next_word(octets, 8, node, state)? as usize;
    if first < 128 {
        return Some(first);
    }
    if first >= 192 {
        return fragment_of(first - 192, node, state);
    }
    let second = next_word(octets, 8, node, state)? as usize;
    let count = 256 * (first - 128) + second;
    if count < 128 {
        fail(state, node, FaultKind::NotMinimal);
        return None;
    }
    Some(count)
}

/// Returns how many units a fragment of `times` times 16,384 units has.
#[cold]
fn fragment_of(times: usize, node: usize, state: &mut State) -> Option<usize>
    ensures at { state.new.at ≡ state.old.at }
    ensures first { state.new.first ≡ state.old.first }
    ensures end { state.new.end ≡ state.old.end }
    ensures count { state.new.count ≡ state.old.count }
    ensures some { IfSome result (λ n. (1 ≤ times) × (times ≤ 4) × (n ≡ 16384 * times)) }
    ensures none { result ≡ None → ((times < 1) ⊎ (4 < times)) × (state.new.node ≡ node) × (state.new.kind ≡ Fragment) }
{
    if times >= 1 && times <= 4 {
        return Some(16384 * times);
    }
    fail(state, node, FaultKind::Fragment);
    None
}

/// Reads the number of the units that follow (X.691 11.9.3.6 to 11.9.3.8).
#[inline(always)]
pub fn next_count(octets: &[u8], is_aligned: bool, node: usize, state: &mut State) -> Option<usize>
    requires size { 8 * length octets.now < 2 ^ 64 }
    requires within { IsWithin (bits octets.now) state.old }
    requires placed { IsPlaced is_aligned state.old }
    ensures onward { IsOnward (bits octets.now) state.old state.new }
    ensures octet { IfSome result (λ n. is_aligned ≡ true → state.new.at % 8 ≡ 0) }
    ensures read { IsRead (units_next is_aligned node) (λ n. n) (bits octets.now) state.old state.new result }
{
    next_start(octets, is_aligned, node, state)?;
    next_count_octets(octets, node, state)
}

/// Reads units of `unit` bits each after their number. `unit` must be at most 64.
#[inline(always)]
pub fn next_units(
    octets: &[u8],
    is_aligned: bool,
    unit: usize,
    node: usize,
    state: &mut State,
) -> Option<(usize, usize)>
    requires size { 8 * length octets.now < 2 ^ 64 }
    requires unit { unit ≤ 64 }
    requires within { IsWithin (bits octets.now) state.old }
    requires placed { IsPlaced is_aligned state.old }
    ensures onward { IsOnward (bits octets.now) state.old state.new }
    ensures below { IfSome result (λ p. p.0 < 16384) }
    ensures index { IfSome result (λ p. state.new.at ≡ p.1 + unit * p.0) }
    ensures after { IfSome result (λ p. state.old.at ≤ p.1) }
    ensures octet { IfSome result (λ p. is_aligned ≡ true → p.1 % 8 ≡ 0) }
    ensures read { IsRead (string 0 is_aligned unit node) (λ p. (p.0, bits_at (bits octets.now) p.1 (unit * p.0))) (bits octets.now)
        state.old state.new result }
{
    let count = next_count(octets, is_aligned, node, state)?;
    if count >= 16384 {
        fail(state, node, FaultKind::Unsupported);
        return None;
    }
    let at = next_bits(octets, unit * count, node, state)?;
    Some((count, at))
}

/// Reads octets after their number (X.691 17.8).
#[inline(always)]
pub fn next_octets(message: &[u8], is_aligned: bool, node: usize, state: &mut State) -> Option<Span>
    requires size { 8 * length message.now < 2 ^ 64 }
    requires within { IsWithin (bits message.now) state.old }
    requires placed { IsPlaced is_aligned state.old }
    ensures onward { IsOnward (bits message.now) state.old state.new }
    ensures index { IfSome result (λ s. state.new.at ≡ s.at + s.count) }
    ensures after { IfSome result (λ s. state.old.at ≤ s.at) }
    ensures whole { IfSome result (λ s. s.count % 8 ≡ 0) }
    ensures octet { IfSome result (λ s. is_aligned ≡ true → s.at % 8 ≡ 0) }
    ensures read { IsRead (octets 0 is_aligned node) (λ s. bits_of (bits message.now) s) (bits message.now)
        state.old state.new result }
{
    let (count, at) = next_units(message, is_aligned, 8, node, state)?;
    Some(Span {
        at,
        count: 8 * count,
    })
}

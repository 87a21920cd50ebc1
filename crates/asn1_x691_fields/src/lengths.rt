//! Lengths without an upper bound (X.691 11.9.3).

ghost use Rattle.std.specs.Prelude.{◌≡◌, ◌≤◌, ◌<◌, ◌^◌, ◌*◌, length, IfSome};
ghost use Rattle.asn1_bits.specs.Bits.{bits};
ghost use Rattle.asn1_schema.specs.Encodings.{anywhere, in_case};
ghost use Rattle.asn1_x691.specs.Fields.{length_after, length_octets, length_of, distance_from_one, large_length, small_length};
ghost use Rattle.asn1_x691_fields.specs.Outcomes.{IsWithin, IsOnward, IsRead, IsPlaced};

use crate::heads::{next_start, next_word};
use crate::state::{State, fail};
use asn1_x691::FaultKind;

/// Reads a length below 16,384, which begins at an octet in the ALIGNED variant (X.691 11.9.3.5).
#[inline(always)]
pub fn next_length(octets: &[u8], is_aligned: bool, node: usize, state: &mut State) -> Option<usize>
    requires size { 8 * length octets.now < 2 ^ 64 }
    requires within { IsWithin (bits octets.now) state.old }
    requires placed { IsPlaced is_aligned state.old }
    ensures onward { IsOnward (bits octets.now) state.old state.new }
    ensures below { IfSome result (λ n. n < 16384) }
    ensures read { IsRead (length_of is_aligned node) (λ n. n) (bits octets.now) state.old state.new result }
{
    next_start(octets, is_aligned, node, state)?;
    next_length_octets(octets, node, state)
}

/// Reads the octets of a length (X.691 11.9.3.6).
#[inline(always)]
fn next_length_octets(octets: &[u8], node: usize, state: &mut State) -> Option<usize>
    requires size { 8 * length octets.now < 2 ^ 64 }
    requires within { IsWithin (bits octets.now) state.old }
    ensures onward { IsOnward (bits octets.now) state.old state.new }
    ensures below { IfSome result (λ n. n < 16384) }
    ensures read { IsRead (anywhere (length_octets node)) (λ n. n) (bits octets.now) state.old state.new result }
{
    let first = next_word(octets, 8, node, state)?;
    if first < 128 {
        return Some(first as usize);
    }
    next_length_after(octets, first, node, state)
}

/// Reads what follows the first octet of a length from 128 on (X.691 11.9.3.7, 11.9.3.8).
fn next_length_after(octets: &[u8], first: u64, node: usize, state: &mut State) -> Option<usize>
    requires size { 8 * length octets.now < 2 ^ 64 }
    requires within { IsWithin (bits octets.now) state.old }
    requires first { 128 ≤ first }
    ensures onward { IsOnward (bits octets.now) state.old state.new }
    ensures below { IfSome result (λ n. n < 16384) }
    ensures read { IsRead (anywhere (length_after node first)) (λ n. n) (bits octets.now) state.old state.new result }
{
    if first >= 192 {
        fail(state, node, FaultKind::Fragment);
        return None;
    }
    let second = next_word(octets, 8, node, state)?;
    let count = 256 * (first - 128) + second;
    if count < 128 {
        fail(state, node, FaultKind::NotMinimal);
        return None;
    }
    Some(count as usize)
}

/// Reads a normally small length, below 16,384 (X.691 11.9.3.4).
pub fn next_small_length(
    octets: &[u8],
    is_aligned: bool,
    node: usize,
    state: &mut State,
) -> Option<usize>
    requires size { 8 * length octets.now < 2 ^ 64 }
    requires within { IsWithin (bits octets.now) state.old }
    requires placed { IsPlaced is_aligned state.old }
    ensures onward { IsOnward (bits octets.now) state.old state.new }
    ensures below { IfSome result (λ n. n < 16384) }
    ensures read { IsRead (small_length is_aligned node) (λ n. n) (bits octets.now) state.old state.new result }
{
    let bit = next_word(octets, 1, node, state)?;
    next_small_or_large(octets, is_aligned, bit, node, state)
}

/// Reads a length after the bit for its form: 0 up to 64, and 1 above.
#[inline(always)]
fn next_small_or_large(
    octets: &[u8],
    is_aligned: bool,
    bit: u64,
    node: usize,
    state: &mut State,
) -> Option<usize>
    requires size { 8 * length octets.now < 2 ^ 64 }
    requires within { IsWithin (bits octets.now) state.old }
    requires placed { IsPlaced is_aligned state.old }
    ensures onward { IsOnward (bits octets.now) state.old state.new }
    ensures below { IfSome result (λ n. n < 16384) }
    ensures read { IsRead (in_case (bit ≡ 0) (anywhere (distance_from_one node)) (0 < bit) (large_length is_aligned node)) (λ n. n)
        (bits octets.now) state.old state.new result }
{
    if bit == 0 {
        return next_distance_from_one(octets, node, state);
    }
    next_large_length(octets, is_aligned, node, state)
}

/// Reads a length from 1 to 64.
#[inline(always)]
fn next_distance_from_one(octets: &[u8], node: usize, state: &mut State) -> Option<usize>
    requires size { 8 * length octets.now < 2 ^ 64 }
    requires within { IsWithin (bits octets.now) state.old }
    ensures onward { IsOnward (bits octets.now) state.old state.new }
    ensures below { IfSome result (λ n. n ≤ 64) }
    ensures read { IsRead (anywhere (distance_from_one node)) (λ n. n) (bits octets.now) state.old state.new result }
{
    let distance = next_word(octets, 6, node, state)?;
    Some(distance as usize + 1)
}

/// Reads a length above 64.
fn next_large_length(
    octets: &[u8],
    is_aligned: bool,
    node: usize,
    state: &mut State,
) -> Option<usize>
    requires size { 8 * length octets.now < 2 ^ 64 }
    requires within { IsWithin (bits octets.now) state.old }
    requires placed { IsPlaced is_aligned state.old }
    ensures onward { IsOnward (bits octets.now) state.old state.new }
    ensures below { IfSome result (λ n. n < 16384) }
    ensures read { IsRead (large_length is_aligned node) (λ n. n) (bits octets.now) state.old state.new result }
{
    let count = next_length(octets, is_aligned, node, state)?;
    if count <= 64 {
        fail(state, node, FaultKind::NotMinimal);
        return None;
    }
    Some(count)
}

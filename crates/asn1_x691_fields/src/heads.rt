//! Bits, and numbers of a given width.

ghost use Rattle.std.specs.Prelude.{◌≡◌, ◌≤◌, ◌<◌, ◌^◌, ◌*◌, ◌+◌, ◌%◌, Bool, true, length, take, drop, IfSome, ⊤};
ghost use Rattle.asn1_bits.specs.Bits.{bits};
ghost use Rattle.asn1_schema.specs.Encodings.{number, anywhere, constant};
ghost use Rattle.asn1_schema.specs.Fields.{raw_bits};
ghost use Rattle.asn1_x691.specs.declared.fault.FaultKind.TheVariants.{Short};
ghost use Rattle.asn1_x691.specs.Fields.{on_octet};
ghost use Rattle.asn1_x691.specs.Strings.{bit};
ghost use Rattle.asn1_x691_fields.specs.Outcomes.{IsWithin, IsOnward, IsRead, IsPlaced};

use crate::bits::{bit_number, number_at};
use crate::state::{State, fail};
use asn1_bits::read_wide;
use asn1_x691::FaultKind;

/// Reads a number of `width` bits, which must be at most 57 (X.691 11.3).
#[inline(always)]
pub fn next_word(octets: &[u8], width: usize, node: usize, state: &mut State) -> Option<u64>
    requires size { 8 * length octets.now < 2 ^ 64 }
    requires width { width ≤ 57 }
    requires within { IsWithin (bits octets.now) state.old }
    ensures onward { IsOnward (bits octets.now) state.old state.new }
    ensures at { IfSome result (λ n. state.new.at ≡ state.old.at + width) }
    ensures below { IfSome result (λ n. n < 2 ^ width) }
    ensures read { IsRead (anywhere (number width Short node)) (λ n. n) (bits octets.now) state.old state.new result }
{
    if width > state.end - state.at {
        fail(state, node, FaultKind::Short);
        return None;
    }
    let at = state.at;
    state.at = at + width;
    Some(number_at(octets, at, width))
}

/// Reads a number of `width` bits, at most 128.
pub fn next_wide(octets: &[u8], width: usize, node: usize, state: &mut State) -> Option<u128>
    requires size { 8 * length octets.now < 2 ^ 64 }
    requires width { width ≤ 128 }
    requires within { IsWithin (bits octets.now) state.old }
    ensures onward { IsOnward (bits octets.now) state.old state.new }
    ensures below { IfSome result (λ n. n < 2 ^ width) }
    ensures read { IsRead (anywhere (number width Short node)) (λ n. n) (bits octets.now) state.old state.new result }
{
    if width > state.end - state.at {
        fail(state, node, FaultKind::Short);
        return None;
    }
    let at = state.at;
    state.at = at + width;
    Some(read_wide(octets, at, width))
}

/// Reads `count` bits, and returns the index of the first.
#[inline(always)]
pub fn next_bits(octets: &[u8], count: usize, node: usize, state: &mut State) -> Option<usize>
    requires size { 8 * length octets.now < 2 ^ 64 }
    requires within { IsWithin (bits octets.now) state.old }
    ensures onward { IsOnward (bits octets.now) state.old state.new }
    ensures at { IfSome result (λ at. (at ≡ state.old.at) × (state.new.at ≡ at + count)) }
    ensures inside { IfSome result (λ at. at + count ≤ 8 * length octets.now) }
    ensures read { IsRead (anywhere (raw_bits count Short node)) (λ at. take count (drop at (bits octets.now))) (bits octets.now)
        state.old state.new result }
{
    if count > state.end - state.at {
        fail(state, node, FaultKind::Short);
        return None;
    }
    let at = state.at;
    state.at = at + count;
    Some(at)
}

/// Reads one bit as a number.
#[inline(always)]
fn next_one(octets: &[u8], node: usize, state: &mut State) -> Option<u64>
    requires size { 8 * length octets.now < 2 ^ 64 }
    requires within { IsWithin (bits octets.now) state.old }
    ensures onward { IsOnward (bits octets.now) state.old state.new }
    ensures read { IsRead (anywhere (number 1 Short node)) (λ n. n) (bits octets.now) state.old state.new result }
{
    let at = state.at;
    if at >= state.end {
        fail(state, node, FaultKind::Short);
        return None;
    }
    state.at = at + 1;
    Some(bit_number(octets, at))
}

/// Reads one bit (X.691 12.2).
#[inline(always)]
pub fn next_bit(octets: &[u8], node: usize, state: &mut State) -> Option<bool>
    requires size { 8 * length octets.now < 2 ^ 64 }
    requires within { IsWithin (bits octets.now) state.old }
    ensures onward { IsOnward (bits octets.now) state.old state.new }
    ensures read { IsRead (anywhere (bit node)) (λ b. b) (bits octets.now) state.old state.new result }
{
    match next_one(octets, node, state) {
        None => None,
        Some(n) => Some(n == 1),
    }
}

/// Reads the zeros before the next octet in the ALIGNED variant (X.691 11.2.6, 11.5.7, 11.9.3.3).
#[inline(always)]
pub fn next_start(octets: &[u8], is_aligned: bool, node: usize, state: &mut State) -> Option<()>
    requires size { 8 * length octets.now < 2 ^ 64 }
    requires within { IsWithin (bits octets.now) state.old }
    requires placed { IsPlaced is_aligned state.old }
    ensures onward { IsOnward (bits octets.now) state.old state.new }
    ensures octet { IfSome result (λ u. is_aligned ≡ true → state.new.at % 8 ≡ 0) }
    ensures stays { IfSome result (λ u. (is_aligned ≡ true → state.old.at % 8 ≡ 0) → state.new.at ≡ state.old.at) }
    ensures read { IsRead (on_octet is_aligned node (constant (tt {0}))) (λ u. tt) (bits octets.now) state.old state.new result }
{
    if !is_aligned {
        return Some(());
    }
    let count = (8 - state.at % 8) % 8;
    let zeros = next_word(octets, count, node, state)?;
    if zeros != 0 {
        fail(state, node, FaultKind::NotZero);
        return None;
    }
    Some(())
}

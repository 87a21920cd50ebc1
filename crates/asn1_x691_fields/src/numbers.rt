//! Constrained whole numbers (X.691 11.5): each is read as its distance from the least.

ghost use Rattle.std.specs.Prelude.{◌≡◌, ◌≢◌, ◌≤◌, ◌<◌, ◌^◌, ◌*◌, pos, ◌+ℤ◌, ◌<ℤ◌, length, true, IfSome};
ghost use Rattle.asn1_bits.specs.Bits.{bits};
ghost use Rattle.asn1_schema.specs.Encodings.{anywhere, number, in_case};
ghost use Rattle.asn1_x691.specs.declared.fault.FaultKind.TheVariants.{Short};
ghost use Rattle.asn1_x691.specs.Fields.{on_octet, width_to, in_bits, octets_needed, minimal_octets, minimal_up_to, octet_count, indefinite, constrained};
ghost use Rattle.asn1_x691_fields.specs.Outcomes.{IsWithin, IsOnward, IsRead, IsPlaced};

use crate::heads::{next_start, next_wide, next_word};
use crate::state::{State, fail};
use asn1_x691::FaultKind;

/// Returns the least width in which the numbers from 0 to `range` have encodings of their own
/// (X.691 11.5.7.1).
#[inline(always)]
pub fn width_to(range: u128) -> usize
    ensures value { result ≡ width_to range }
    ensures most { result ≤ 128 }
{
    (128 - range.leading_zeros()) as usize
}

/// Returns the same of a range of up to 32 bits.
#[inline(always)]
pub fn width_to_few(range: u32) -> usize
    ensures value { result ≡ width_to range }
    ensures most { result ≤ 32 }
{
    (32 - range.leading_zeros()) as usize
}

/// Returns the same of a range of up to 64 bits.
#[inline(always)]
pub(crate) fn width_to_many(range: u64) -> usize
    ensures value { result ≡ width_to range }
    ensures most { result ≤ 64 }
{
    (64 - range.leading_zeros()) as usize
}

/// Returns the sum of the least value and `n`. It must be less than 2^127.
#[inline(always)]
pub fn above(least: i128, n: u128) -> i128
    requires { (least +ℤ pos n) <ℤ pos (2 ^ 127) }
    ensures { result ≡ least +ℤ pos n }
{
    least.wrapping_add_unsigned(n)
}

/// Reads a number of `width` bits, which must be at most 128 (X.691 11.3).
#[inline(always)]
pub fn next_number(octets: &[u8], width: usize, node: usize, state: &mut State) -> Option<u128>
    requires size { 8 * length octets.now < 2 ^ 64 }
    requires width { width ≤ 128 }
    requires within { IsWithin (bits octets.now) state.old }
    ensures onward { IsOnward (bits octets.now) state.old state.new }
    ensures below { IfSome result (λ n. n < 2 ^ width) }
    ensures read { IsRead (anywhere (number width Short node)) (λ n. n) (bits octets.now) state.old state.new result }
{
    if width > 57 {
        return next_wide(octets, width, node, state);
    }
    match next_word(octets, width, node, state) {
        None => None,
        Some(n) => Some(n as u128),
    }
}

/// Reads a number from 0 to `most` of `width` bits, which must be at most 128 (X.691 11.3).
#[inline(always)]
pub fn next_in_bits(
    octets: &[u8],
    width: usize,
    most: u128,
    node: usize,
    state: &mut State,
) -> Option<u128>
    requires size { 8 * length octets.now < 2 ^ 64 }
    requires width { width ≤ 128 }
    requires within { IsWithin (bits octets.now) state.old }
    ensures onward { IsOnward (bits octets.now) state.old state.new }
    ensures most { IfSome result (λ n. n ≤ most) }
    ensures read { IsRead (anywhere (in_bits width most node)) (λ n. n) (bits octets.now) state.old state.new result }
{
    let n = next_number(octets, width, node, state)?;
    if n > most {
        fail(state, node, FaultKind::AboveMost);
        return None;
    }
    Some(n)
}

/// Reads a constrained whole number from 0 to `range`, the difference of the greatest and the least
/// value (X.691 11.5.6, 11.5.7).
#[inline(always)]
pub fn next_constrained(
    octets: &[u8],
    is_aligned: bool,
    range: u128,
    node: usize,
    state: &mut State,
) -> Option<u128>
    requires size { 8 * length octets.now < 2 ^ 64 }
    requires within { IsWithin (bits octets.now) state.old }
    requires placed { IsPlaced is_aligned state.old }
    ensures onward { IsOnward (bits octets.now) state.old state.new }
    ensures most { IfSome result (λ n. n ≤ range) }
    ensures read { IsRead (constrained is_aligned range node) (λ n. n) (bits octets.now) state.old state.new result }
{
    if is_aligned && range >= 255 {
        return next_on_octet(octets, range, node, state);
    }
    next_in_bits(octets, width_to(range), range, node, state)
}

/// Reads one of 256 numbers or more in the ALIGNED variant (X.691 11.5.7.2 to 11.5.7.4).
fn next_on_octet(octets: &[u8], range: u128, node: usize, state: &mut State) -> Option<u128>
    requires size { 8 * length octets.now < 2 ^ 64 }
    requires within { IsWithin (bits octets.now) state.old }
    requires placed { IsPlaced true state.old }
    ensures onward { IsOnward (bits octets.now) state.old state.new }
    ensures most { IfSome result (λ n. n ≤ range) }
    ensures read { IsRead (in_case (range ≡ 255) (on_octet true node (in_bits 8 range node)) (range ≢ 255)
        (in_case (range < 65536) (on_octet true node (in_bits 16 range node)) (65536 ≤ range) (indefinite range node)))
        (λ n. n) (bits octets.now) state.old state.new result }
{
    if range >= 65536 {
        return next_indefinite(octets, range, node, state);
    }
    next_start(octets, true, node, state)?;
    if range == 255 {
        return next_in_bits(octets, 8, range, node, state);
    }
    next_in_bits(octets, 16, range, node, state)
}

/// Reads one of more than 65,536 numbers: how many octets it has, then the number in them
/// (X.691 11.5.7.4).
fn next_indefinite(octets: &[u8], range: u128, node: usize, state: &mut State) -> Option<u128>
    requires size { 8 * length octets.now < 2 ^ 64 }
    requires within { IsWithin (bits octets.now) state.old }
    requires placed { IsPlaced true state.old }
    ensures onward { IsOnward (bits octets.now) state.old state.new }
    ensures most { IfSome result (λ n. n ≤ range) }
    ensures read { IsRead (indefinite range node) (λ n. n) (bits octets.now) state.old state.new result }
{
    let most = width_to(range).saturating_sub(1) / 8 + 1;
    let count = next_octet_count(octets, most, node, state)?;
    next_counted(octets, count, range, node, state)
}

/// Reads a number from 0 to `most` in `count` octets, and no fewer, from an octet on (X.691 11.3.6).
fn next_counted(
    octets: &[u8],
    count: usize,
    most: u128,
    node: usize,
    state: &mut State,
) -> Option<u128>
    requires size { 8 * length octets.now < 2 ^ 64 }
    requires count { count ≤ 16 }
    requires within { IsWithin (bits octets.now) state.old }
    requires placed { IsPlaced true state.old }
    ensures onward { IsOnward (bits octets.now) state.old state.new }
    ensures most { IfSome result (λ n. n ≤ most) }
    ensures read { IsRead (on_octet true node (minimal_up_to count most node)) (λ n. n) (bits octets.now) state.old state.new result }
{
    next_start(octets, true, node, state)?;
    next_minimal_up_to(octets, count, most, node, state)
}

/// Reads a number of octets from 1 to `most` (X.691 13.2.6 a).
fn next_octet_count(octets: &[u8], most: usize, node: usize, state: &mut State) -> Option<usize>
    requires size { 8 * length octets.now < 2 ^ 64 }
    requires most { most ≤ 16 }
    requires within { IsWithin (bits octets.now) state.old }
    ensures onward { IsOnward (bits octets.now) state.old state.new }
    ensures most { IfSome result (λ n. n ≤ 16) }
    ensures read { IsRead (anywhere (octet_count most node)) (λ n. n) (bits octets.now) state.old state.new result }
{
    let greatest = most.saturating_sub(1) as u128;
    let distance = next_in_bits(octets, width_to(greatest), greatest, node, state)?;
    Some(distance as usize + 1)
}

/// Reads a number from 0 to `most` in `count` octets, and no fewer (X.691 11.3.6).
fn next_minimal_up_to(
    octets: &[u8],
    count: usize,
    most: u128,
    node: usize,
    state: &mut State,
) -> Option<u128>
    requires size { 8 * length octets.now < 2 ^ 64 }
    requires count { count ≤ 16 }
    requires within { IsWithin (bits octets.now) state.old }
    ensures onward { IsOnward (bits octets.now) state.old state.new }
    ensures most { IfSome result (λ n. n ≤ most) }
    ensures read { IsRead (anywhere (minimal_up_to count most node)) (λ n. n) (bits octets.now) state.old state.new result }
{
    let n = next_minimal(octets, count, node, state)?;
    if n > most {
        fail(state, node, FaultKind::AboveMost);
        return None;
    }
    Some(n)
}

/// Reads a number in `count` octets, and no fewer (X.691 11.3.6).
fn next_minimal(octets: &[u8], count: usize, node: usize, state: &mut State) -> Option<u128>
    requires size { 8 * length octets.now < 2 ^ 64 }
    requires count { count ≤ 16 }
    requires within { IsWithin (bits octets.now) state.old }
    ensures onward { IsOnward (bits octets.now) state.old state.new }
    ensures read { IsRead (anywhere (minimal_octets count node)) (λ n. n) (bits octets.now) state.old state.new result }
{
    let n = next_number(octets, 8 * count, node, state)?;
    if count > 1 && n >> (8 * (count - 1)) == 0 {
        fail(state, node, FaultKind::NotMinimal);
        return None;
    }
    Some(n)
}

//! Lengths (X.690 8.1.3, 10.1).

ghost use Rattle.std.specs.Prelude.{◌≡◌, ◌≢◌, ◌≤◌, ◌<◌, ◌^◌, ◌*◌, length};
ghost use Rattle.asn1_bits.specs.Bits.{bits};
ghost use Rattle.asn1_x690.specs.Elements.{length_octets, long_length};
ghost use Rattle.asn1_x690_fields.specs.Outcomes.{IsWithin, IsOnward, IsReadAs, IsLength};

use crate::heads::{next_octet, next_octets};
use crate::state::{State, fail};
use asn1_bits::{read_bits, read_wide};
use asn1_x690::FaultKind;

/// Returns the least first octet of a length of `count` octets: one alone is from 128 on, and of
/// others the first is not 0.
#[inline(always)]
fn least_first(count: usize) -> u32
    ensures one { count ≡ 1 → result ≡ 128 }
    ensures more { count ≢ 1 → result ≡ 1 }
{
    if count == 1 { 128 } else { 1 }
}

/// Reads a length of `count` octets, one at least.
fn next_long_length(octets: &[u8], count: usize, node: usize, state: &mut State) -> Option<usize>
    requires size { 8 * length octets.now < 2 ^ 64 }
    requires count { 0 < count }
    requires within { IsWithin (bits octets.now) state.old }
    ensures onward { IsOnward (bits octets.now) state.old state.new }
    ensures read { IsReadAs (long_length node count) IsLength (bits octets.now) state.old state.new result }
{
    let at = next_octets(octets, count, node, state)?;
    let first = read_bits(octets, at, 8);
    if first < least_first(count) {
        fail(state, node, FaultKind::NotMinimal);
        return None;
    }
    if count > 8 {
        return Some(usize::MAX);
    }
    Some(read_wide(octets, at, 8 * count) as usize)
}

/// Reads a length (X.690 8.1.3, 10.1). Returns `usize::MAX` if the length exceeds it.
#[inline(always)]
pub fn next_length(octets: &[u8], node: usize, state: &mut State) -> Option<usize>
    requires size { 8 * length octets.now < 2 ^ 64 }
    requires within { IsWithin (bits octets.now) state.old }
    ensures onward { IsOnward (bits octets.now) state.old state.new }
    ensures read { IsReadAs (length_octets node) IsLength (bits octets.now) state.old state.new result }
{
    let first = next_octet(octets, node, state)?;
    if first < 128 {
        return Some(first as usize);
    }
    if first == 128 {
        fail(state, node, FaultKind::Indefinite);
        return None;
    }
    if first == 255 {
        fail(state, node, FaultKind::Reserved);
        return None;
    }
    next_long_length(octets, (first - 128) as usize, node, state)
}

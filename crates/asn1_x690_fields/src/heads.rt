//! Octets.

ghost use Rattle.std.specs.Prelude.{◌≡◌, ◌≤◌, ◌<◌, ◌^◌, ◌*◌, ◌+◌, length, take, drop, IfSome};
ghost use Rattle.asn1_bits.specs.Bits.{bits};
ghost use Rattle.asn1_schema.specs.Encodings.{number};
ghost use Rattle.asn1_schema.specs.Fields.{raw_bits};
ghost use Rattle.asn1_x690.specs.declared.fault.FaultKind.TheVariants.{Short};
ghost use Rattle.asn1_x690_fields.specs.Outcomes.{IsWithin, IsOnward, IsRead};

use crate::state::{State, fail};
use asn1_bits::read_bits;
use asn1_x690::FaultKind;

/// Reads an octet.
#[inline(always)]
pub fn next_octet(octets: &[u8], node: usize, state: &mut State) -> Option<u32>
    requires size { 8 * length octets.now < 2 ^ 64 }
    requires within { IsWithin (bits octets.now) state.old }
    ensures onward { IsOnward (bits octets.now) state.old state.new }
    ensures at { IfSome result (λ n. state.new.at ≡ state.old.at + 8) }
    ensures below { IfSome result (λ n. n < 256) }
    ensures read { IsRead (number 8 Short node) (λ n. n) (bits octets.now) state.old state.new result }
{
    if 8 > state.end - state.at {
        fail(state, node, FaultKind::Short);
        return None;
    }
    let at = state.at;
    state.at = at + 8;
    Some(read_bits(octets, at, 8))
}

/// Reads `count` octets, and returns the index of their first bit.
#[inline(always)]
pub fn next_octets(octets: &[u8], count: usize, node: usize, state: &mut State) -> Option<usize>
    requires size { 8 * length octets.now < 2 ^ 64 }
    requires within { IsWithin (bits octets.now) state.old }
    ensures onward { IsOnward (bits octets.now) state.old state.new }
    ensures at { IfSome result (λ at. (at ≡ state.old.at) × (state.new.at ≡ at + 8 * count)) }
    ensures read { IsRead (raw_bits (8 * count) Short node) (λ at. take (8 * count) (drop at (bits octets.now))) (bits octets.now)
        state.old state.new result }
{
    if count > (state.end - state.at) / 8 {
        fail(state, node, FaultKind::Short);
        return None;
    }
    let at = state.at;
    state.at = at + 8 * count;
    Some(at)
}

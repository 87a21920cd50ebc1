//! The end of a complete encoding (X.691 11.1).

ghost use Rattle.std.specs.Prelude.{◌≡◌, ◌≤◌, ◌<◌, ◌^◌, ◌*◌, length};
ghost use Rattle.asn1_bits.specs.Bits.{bits};
ghost use Rattle.asn1_x691.specs.OpenTypes.{padding_of};
ghost use Rattle.asn1_x691_fields.specs.Outcomes.{IsWithin, IsOnward};
ghost use Rattle.asn1_x691_decode.specs.Decoding.{IsEnd};

use asn1_bits::read_bits;
use asn1_x691::FaultKind;
use asn1_x691_fields::{State, fail};

/// Returns how many zeros follow a value of `count` bits: to whole octets, of which there is one at
/// least (X.691 11.1.3).
fn padding_of(count: usize) -> usize
    ensures value { result ≡ padding_of count }
    ensures few { result ≤ 8 }
{
    if count == 0 {
        return 8;
    }
    (8 - count % 8) % 8
}

/// Tests that zeros follow a value up to the end of its complete encoding, and no octet more.
pub(crate) fn at_end(octets: &[u8], node: usize, state: &mut State) -> bool
    requires size { 8 * length octets.now < 2 ^ 64 }
    requires within { IsWithin (bits octets.now) state.old }
    ensures onward { IsOnward (bits octets.now) state.old state.new }
    ensures ends { IsEnd (bits octets.now) node state.old state.new result }
{
    let zeros = padding_of(state.at - state.first);
    if state.end - state.at != zeros {
        fail(state, node, FaultKind::ExtraOctets);
        return false;
    }
    if read_bits(octets, state.at, zeros) != 0 {
        fail(state, node, FaultKind::NotZero);
        return false;
    }
    true
}

//! Headers of elements (X.690 8.1.1).

ghost use Rattle.std.specs.Prelude.{◌≡◌, ◌≤◌, ◌<◌, ◌^◌, ◌*◌, ℕ, length, take, drop, IfSome};
ghost use Rattle.asn1_bits.specs.Bits.{bits};
ghost use Rattle.asn1_x690.specs.Elements.{any_element};
ghost use Rattle.asn1_x690_fields.specs.Outcomes.{rest, IsWithin, IsOnward, IsReadAs, IsHeader, IsElement};

use crate::heads::next_octets;
use crate::identifier::{FoundIdentifier, next_identifier, short_identifier};
use crate::length::next_length;
use crate::state::State;
use asn1_bits::read_bits;

/// The header of an element.
#[derive(Clone, Copy, Debug, PartialEq, Eq)]
pub struct Header {
    /// The identifier.
    pub identifier: FoundIdentifier,
    /// The index of the first bit of the contents octets.
    pub from: usize,
    /// The index of the bit after them.
    pub to: usize,
}

/// Reads an element: its header (X.690 8.1.1), and as many contents octets as its length has. Returns
/// the header.
#[inline(always)]
pub fn next_header(octets: &[u8], node: usize, state: &mut State) -> Option<Header>
    requires size { 8 * length octets.now < 2 ^ 64 }
    requires within { IsWithin (bits octets.now) state.old }
    ensures onward { IsOnward (bits octets.now) state.old state.new }
    ensures begins { IfSome result (λ h. state.old.at < h.from) }
    ensures ordered { IfSome result (λ h. h.from ≤ h.to) }
    ensures ends { IfSome result (λ h. h.to ≡ state.new.at) }
    ensures read { IsReadAs (any_element node) (IsHeader (bits octets.now)) (bits octets.now) state.old state.new result }
{
    match short_header(octets, state) {
        None => next_long_header(octets, node, state),
        Some(header) => {
            state.at = header.to;
            Some(header)
        }
    }
}

/// Returns the header of an element if it has two octets: an identifier with a number below 31, and a
/// length below 128.
#[inline(always)]
fn short_header(octets: &[u8], state: &State) -> Option<Header>
    requires size { 8 * length octets.now < 2 ^ 64 }
    requires within { IsWithin (bits octets.now) state.now }
    ensures begins { IfSome result (λ h. state.now.at < h.from) }
    ensures ordered { IfSome result (λ h. h.from ≤ h.to) }
    ensures ends { IfSome result (λ h. h.to ≤ state.now.end) }
    ensures read { IfSome result (λ h. (node : ℕ)
        → IsElement (bits octets.now) (rest (bits octets.now) state.now) node h (drop h.to (take state.now.end (bits octets.now)))) }
{
    let at = state.at;
    let left = state.end - at;
    if left < 16 {
        return None;
    }
    let both = read_bits(octets, at, 16);
    let first = both / 256;
    let count = (both % 256) as usize;
    if first % 32 == 31 || count >= 128 || 8 * count > left - 16 {
        return None;
    }
    let from = at + 16;
    Some(Header {
        identifier: short_identifier(first),
        from,
        to: from + 8 * count,
    })
}

/// Reads an element as [`next_header`] does. The octets of the header may be any number.
#[inline(always)]
fn next_long_header(octets: &[u8], node: usize, state: &mut State) -> Option<Header>
    requires size { 8 * length octets.now < 2 ^ 64 }
    requires within { IsWithin (bits octets.now) state.old }
    ensures onward { IsOnward (bits octets.now) state.old state.new }
    ensures begins { IfSome result (λ h. state.old.at < h.from) }
    ensures ordered { IfSome result (λ h. h.from ≤ h.to) }
    ensures ends { IfSome result (λ h. h.to ≡ state.new.at) }
    ensures read { IsReadAs (any_element node) (IsHeader (bits octets.now)) (bits octets.now) state.old state.new result }
{
    // The fields of the result need no memory after this call.
    match next_fields(octets, node, state) {
        None => None,
        Some(header) => Some(Header {
            identifier: header.identifier,
            from: header.from,
            to: header.to,
        }),
    }
}

/// Reads the identifier, the length and the contents octets of an element.
#[inline(never)]
fn next_fields(octets: &[u8], node: usize, state: &mut State) -> Option<Header>
    requires size { 8 * length octets.now < 2 ^ 64 }
    requires within { IsWithin (bits octets.now) state.old }
    ensures onward { IsOnward (bits octets.now) state.old state.new }
    ensures begins { IfSome result (λ h. state.old.at < h.from) }
    ensures ordered { IfSome result (λ h. h.from ≤ h.to) }
    ensures ends { IfSome result (λ h. h.to ≡ state.new.at) }
    ensures read { IsReadAs (any_element node) (IsHeader (bits octets.now)) (bits octets.now) state.old state.new result }
{
    let identifier = next_identifier(octets, node, state)?;
    let count = next_length(octets, node, state)?;
    match next_octets(octets, count, node, state) {
        None => None,
        Some(from) => Some(Header {
            identifier,
            from,
            to: state.at,
        }),
    }
}

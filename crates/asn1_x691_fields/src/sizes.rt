//! Sizes: numbers of units or of items, by their constraint (X.691 11.9, 20).

ghost use Rattle.std.specs.Prelude.{◌≡◌, ◌≤◌, ◌<◌, ◌^◌, ◌*◌, true, false, length, IfSome};
ghost use Rattle.asn1_bits.specs.Bits.{bits};
ghost use Rattle.asn1_x691.specs.Strings.{IsOfRoot, IsAddedSize};
ghost use Rattle.asn1_x691.specs.Types.{length_at_least, added_length};
ghost use Rattle.asn1_x691_fields.specs.Outcomes.{IsWithin, IsOnward, IsRead, IsPlaced};

use crate::lengths::next_length;
use crate::state::{State, fail};
use asn1_schema::Length;
use asn1_x691::FaultKind;

/// Returns whether a size constraint permits `count`, without its extension marker.
pub fn is_of_root(size: Length, count: usize) -> bool
    ensures of_root { result ≡ true → IsOfRoot size count }
    ensures added { result ≡ false → IsAddedSize size count }
{
    match size {
        Length::AtLeast { least } => count >= least,
        Length::Between { least, range } => {
            count >= least as usize && count - least as usize <= range as usize
        }
    }
}

/// Reads a length below 16,384 that is at least the least (X.691 11.9.3.5).
pub fn next_length_at_least(
    octets: &[u8],
    is_aligned: bool,
    least: usize,
    node: usize,
    state: &mut State,
) -> Option<usize>
    requires size { 8 * length octets.now < 2 ^ 64 }
    requires within { IsWithin (bits octets.now) state.old }
    requires placed { IsPlaced is_aligned state.old }
    ensures onward { IsOnward (bits octets.now) state.old state.new }
    ensures below { IfSome result (λ n. n < 16384) }
    ensures read { IsRead (length_at_least is_aligned least node) (λ n. n) (bits octets.now) state.old state.new result }
{
    let count = next_length(octets, is_aligned, node, state)?;
    if count < least {
        fail(state, node, FaultKind::BelowLeast);
        return None;
    }
    Some(count)
}

/// Reads a length below 16,384 that is not in the root (X.691 20.4).
pub fn next_added_length(
    octets: &[u8],
    is_aligned: bool,
    size: Length,
    node: usize,
    state: &mut State,
) -> Option<usize>
    requires size { 8 * length octets.now < 2 ^ 64 }
    requires within { IsWithin (bits octets.now) state.old }
    requires placed { IsPlaced is_aligned state.old }
    ensures onward { IsOnward (bits octets.now) state.old state.new }
    ensures below { IfSome result (λ n. n < 16384) }
    ensures read { IsRead (added_length is_aligned size node) (λ n. n) (bits octets.now) state.old state.new result }
{
    let count = next_length(octets, is_aligned, node, state)?;
    if is_of_root(size, count) {
        fail(state, node, FaultKind::InRoot);
        return None;
    }
    Some(count)
}

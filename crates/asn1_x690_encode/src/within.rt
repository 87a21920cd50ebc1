//! Whether octets have the bits that were written, and what a comparison of bits in octets of their
//! own shows.

ghost use Rattle.std.specs.Prelude.{◌≡◌, ◌+◌, ◌*◌, ◌^◌, ◌<◌, Bool, List, Some, false, true, length};
ghost use Rattle.std.specs.Bool.{Decides};
ghost use Rattle.asn1_x691_fields.specs.Defaults.{default_in};
ghost use Rattle.asn1_x691_writers.specs.declared.state.Rejection.TheVariants.{NoRoom};
ghost use Rattle.asn1_x691_writers.specs.Written.{IsIndex};
ghost use Rattle.asn1_x690_encode.specs.Compared.{IsIn};

use asn1_x691_fields::Defaults;
use asn1_x691_writers::{Rejection, Writer};

/// The number of the octets in which bits are compared where the octets of the message are too few.
pub(crate) const WINDOW: usize = 64;

/// Returns whether octets have all bits from one index to another.
pub(crate) fn is_in(octets: &[u8], from: usize, to: usize) -> bool
    requires { 8 * length octets.now < 2 ^ 64 }
    ensures { Decides result (IsIn octets.now from to) }
{
    from <= to && to <= 8 * octets.len() && to < usize::MAX - 7
}

/// Returns whether bits from one index to another may be those of a default value, of which there are as
/// many.
pub(crate) fn may_be_default(defaults: Defaults<'_>, value: usize, from: usize, to: usize) -> bool
    ensures { (list : List Bool) → IsIndex to (from + length list) → default_in defaults.entry false value 0 ≡ Some list → result ≡ true }
{
    if value >= defaults.spans.len() {
        return false;
    }
    to >= usize::MAX - 7 || to.saturating_sub(from) == defaults.spans[value].count
}

/// Stops where another writer has stopped. Returns false.
pub(crate) fn stop(state: &mut Writer, other: Writer) -> bool
    ensures result { result ≡ false }
    ensures next { state.new.next ≡ other.next }
    ensures node { state.new.node ≡ other.node }
    ensures reason { state.new.reason ≡ other.reason }
{
    *state = other;
    false
}

/// Leaves the part at an index, whose value, of the type at a node, does not fit the octets in which
/// it is compared. Returns false.
#[cold]
pub(crate) fn leave_unread(state: &mut Writer, node: usize, next: usize) -> bool
    ensures result { result ≡ false }
    ensures next { state.new.next ≡ next }
    ensures node { state.new.node ≡ node }
    ensures reason { state.new.reason ≡ NoRoom }
{
    state.next = next;
    state.node = node;
    state.reason = Rejection::NoRoom;
    false
}

//! The items of a SET OF, which are in ascending order (X.691 22.1).

ghost use Rattle.std.specs.Prelude.{◌≡◌, ℕ, Bool, List, ◌+◌, ◌-◌, ◌*◌, ◌^◌, ◌<◌, ◌≤◌, ◌++◌, true, length};
ghost use Rattle.std.specs.Bool.{Decides};
ghost use Rattle.asn1_bits.specs.Bits.{bits};
ghost use Rattle.asn1_schema.specs.Pieces.{Parts};
ghost use Rattle.asn1_schema.specs.PiecesOfParts.{bits_at};
ghost use Rattle.asn1_x691.specs.Limits.{IsOffOctet};
ghost use Rattle.asn1_x691_writers.specs.Written.{IsAlike};
ghost use Rattle.asn1_x691_encode.specs.Encoding.{Outcome, tape, types, in_order_in, items_in};
ghost use Rattle.asn1_x691_encode.specs.Sets.{IsPrevious, IsPreviousIn, IsOrdered, IsOrderedOrLeft};
ghost use Rattle.asn1_x691_encode.specs.Compared.{IsIn};

use crate::context::Context;
use crate::encoder::encode_node;
use crate::within::{WINDOW, is_in, leave_unread, stop};
use asn1_schema::MisfitKind;
use asn1_x691_fields::is_before;
use asn1_x691_writers::{Rejection, Writer, leave, reject};

/// Where an item begins: the indexes of its first bit and of its first part.
#[derive(Clone, Copy, Debug)]
pub(crate) struct Place {
    pub(crate) at: usize,
    pub(crate) next: usize,
}

/// Encodes `count` items, each of which is not before the one that it follows.
#[cycle(encoding)]
pub(crate) fn encode_set_items(
    context: &Context<'_>,
    depth: usize,
    node: usize,
    item: usize,
    count: usize,
    octets: &mut [u8],
    state: &mut Writer,
) -> bool
    requires size { 8 * length octets.old < 2 ^ 64 }
    requires source { 8 * length context.now.source.now < 2 ^ 64 }
    requires parts { length context.now.parts.now < 2 ^ 64 - 1 }
    ensures { Outcome context.now (items_in context.now depth node true item count) octets.old state.old octets.new state.new result }
{
    let mut left = count;
    let mut previous = None;
    while left > 0 {
        left -= 1;
        let place = Place {
            at: state.at,
            next: state.next,
        };
        if !encode_item(context, depth, node, item, previous, octets, state) {
            return false;
        }
        previous = Some(place);
    }
    true
}

/// Encodes an item that is not before the one that it follows, if it follows one.
#[cycle(encoding)]
fn encode_item(
    context: &Context<'_>,
    depth: usize,
    node: usize,
    item: usize,
    previous: Option<Place>,
    octets: &mut [u8],
    state: &mut Writer,
) -> bool
    requires size { 8 * length octets.old < 2 ^ 64 }
    requires source { 8 * length context.now.source.now < 2 ^ 64 }
    requires parts { length context.now.parts.now < 2 ^ 64 - 1 }
    ensures { (before : List Bool) → IsPreviousIn context.now depth item previous before octets.old state.old
        → Outcome context.now (in_order_in context.now depth node item before) octets.old state.old octets.new state.new result }
{
    match previous {
        None => encode_node(context, depth, item, octets, state),
        Some(place) => encode_next(context, depth, node, item, place, octets, state),
    }
}

/// Encodes an item that is not before the one that it follows, which begins at an index. Where the
/// octets are too few for both, they are compared in octets of their own.
#[cycle(encoding)]
fn encode_next(
    context: &Context<'_>,
    depth: usize,
    node: usize,
    item: usize,
    place: Place,
    octets: &mut [u8],
    state: &mut Writer,
) -> bool
    requires size { 8 * length octets.old < 2 ^ 64 }
    requires source { 8 * length context.now.source.now < 2 ^ 64 }
    requires parts { length context.now.parts.now < 2 ^ 64 - 1 }
    ensures { (before : List Bool) → IsPrevious context.now depth item place before octets.old state.old
        → Outcome context.now (in_order_in context.now depth node item before) octets.old state.old octets.new state.new result }
{
    let (from, first) = (state.at, state.next);
    if !encode_node(context, depth, item, octets, state) {
        return false;
    }
    let to = state.at;
    if are_in(octets, place.at, from, to) {
        return is_ordered(
            context.is_aligned,
            node,
            octets,
            place.at,
            from,
            to,
            first,
            state,
        );
    }
    are_ordered_alone(context, depth, node, item, place, first, state)
}

/// Encodes an item and the one that it follows once more, in octets of their own. Returns whether the
/// second, whose first part has the index `first`, is not before the first, which begins at an index.
/// Otherwise the state has the reason.
#[cycle(encoding)]
fn are_ordered_alone(
    context: &Context<'_>,
    depth: usize,
    node: usize,
    item: usize,
    place: Place,
    first: usize,
    state: &mut Writer,
) -> bool
    requires source { 8 * length context.now.source.now < 2 ^ 64 }
    requires parts { length context.now.parts.now < 2 ^ 64 - 1 }
    ensures kept { result ≡ true → state.new ≡ state.old }
    ensures ordered { (at : ℕ) (xs ys rest : Parts) (before list : List Bool)
        → IsAlike context.now.is_aligned at (place.at + length before)
        → (types context.now depth item place.at).encoding.encodes xs before → tape context.now place.next ≡ xs ++ tape context.now first
        → (types context.now depth item at).encoding.encodes ys list → tape context.now first ≡ ys ++ rest
        → IsOrderedOrLeft context.now node first before at list state.new result }
{
    let mut window = [0; WINDOW];
    let start = place.at % 8;
    let mut copy = Writer {
        at: start,
        next: place.next,
        node,
        reason: Rejection::NoRoom,
    };
    if !encode_node(context, depth, item, &mut window, &mut copy) {
        return stop(state, copy);
    }
    let middle = copy.at;
    if !encode_node(context, depth, item, &mut window, &mut copy) {
        return stop(state, copy);
    }
    if !are_in(&window, start, middle, copy.at) {
        return leave_unread(state, place.next);
    }
    is_ordered(
        context.is_aligned,
        node,
        &window,
        start,
        middle,
        copy.at,
        first,
        state,
    )
}

/// Returns whether octets have all bits from one index to a second, and from there to a third.
fn are_in(octets: &[u8], before: usize, from: usize, to: usize) -> bool
    requires { 8 * length octets.now < 2 ^ 64 }
    ensures first { result ≡ true → before ≤ from }
    ensures second { result ≡ true → IsIn octets.now from to }
    ensures both { before ≤ from → IsIn octets.now from to → result ≡ true }
{
    before <= from && is_in(octets, from, to)
}

/// Returns whether an item is not before the one that it follows, which begins at `before`. It begins
/// at `from` and ends at `to`, and its first part has the index `first`. Otherwise the state has the
/// reason.
fn is_ordered(
    is_aligned: bool,
    node: usize,
    octets: &[u8],
    before: usize,
    from: usize,
    to: usize,
    first: usize,
    state: &mut Writer,
) -> bool
    requires begins { before ≤ from }
    requires order { from ≤ to }
    requires inside { to ≤ 8 * length octets.now }
    ensures kept { result ≡ true → state.new ≡ state.old }
    ensures ordered { IsOrdered is_aligned node first (bits_at (bits octets.now) before (from - before)) from
        (bits_at (bits octets.now) from (to - from)) state.new result }
{
    if is_off_octet(is_aligned, from - before, from) {
        state.next = first;
        return leave(state, node);
    }
    if is_before(octets, before, from, to) {
        state.next = first;
        return reject(state, node, MisfitKind::NotAscending);
    }
    true
}

/// Returns whether an item at a position, or the one of `count` bits that it follows, does not begin
/// at an octet in the ALIGNED variant, where its bits in place do not show the order.
fn is_off_octet(is_aligned: bool, count: usize, position: usize) -> bool
    ensures { (list : List Bool) → length list ≡ count → Decides result (IsOffOctet true is_aligned list position) }
{
    is_aligned && count > 0 && (position % 8 != 0 || count % 8 != 0)
}

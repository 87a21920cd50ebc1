//! The items of a SET OF, which are in ascending order (X.690 11.6).

ghost use Rattle.std.specs.Prelude.{◌≡◌, ℕ, Bool, List, ◌+◌, ◌-◌, ◌*◌, ◌%◌, ◌^◌, ◌<◌, ◌≤◌, ◌++◌, true, length};
ghost use Rattle.asn1_bits.specs.Bits.{bits};
ghost use Rattle.asn1_schema.specs.Pieces.{Parts};
ghost use Rattle.asn1_schema.specs.PiecesOfParts.{bits_at};
ghost use Rattle.asn1_x690_encode.specs.Compared.{IsIn};
ghost use Rattle.asn1_x690_encode.specs.Encoding.{FillsItems, ItemsMisfit, Outcome, element_in, in_order_in, tape};
ghost use Rattle.asn1_x690_encode.specs.Sets.{IsOrdered, IsOrderedOrLeft, IsPrevious, IsPreviousIn};

use crate::context::Context;
use crate::node::encode_node;
use crate::within::{WINDOW, is_in, leave_unread, stop};
use asn1_schema::MisfitKind;
use asn1_x691_fields::is_before;
use asn1_x691_writers::{Rejection, Writer, reject};

/// Where an item begins: the indexes of its first bit and of its first part.
#[derive(Clone, Copy, Debug)]
pub(crate) struct ItemStart {
    pub(crate) at: usize,
    pub(crate) next: usize,
}

/// Encodes `count` items, each of which is not before the one that it follows.
#[cycle(encoding)]
pub(crate) fn encode_set_items(
    context: &Context<'_>,
    depth: usize,
    node: usize,
    item: usize,
    count: usize,
    octets: &mut [u8],
    state: &mut Writer,
) -> bool
    requires size { 8 * length octets.old < 2 ^ 64 }
    requires source { 8 * length context.now.source.now < 2 ^ 64 }
    requires parts { length context.now.parts.now < 2 ^ 64 - 1 }
    requires whole { state.old.at % 8 ≡ 0 }
    ensures { Outcome context.now (FillsItems context.now depth node true item count) (ItemsMisfit context.now depth node true item count) octets.old
        state.old octets.new state.new result }
{
    let mut left = count;
    let mut previous = None;
    while left > 0 {
        left -= 1;
        let start = ItemStart {
            at: state.at,
            next: state.next,
        };
        if !encode_item(context, depth, node, item, previous, octets, state) {
            return false;
        }
        previous = Some(start);
    }
    true
}

/// Encodes an item that is not before the one that it follows, if it follows one.
#[cycle(encoding)]
fn encode_item(
    context: &Context<'_>,
    depth: usize,
    node: usize,
    item: usize,
    previous: Option<ItemStart>,
    octets: &mut [u8],
    state: &mut Writer,
) -> bool
    requires size { 8 * length octets.old < 2 ^ 64 }
    requires source { 8 * length context.now.source.now < 2 ^ 64 }
    requires parts { length context.now.parts.now < 2 ^ 64 - 1 }
    requires whole { state.old.at % 8 ≡ 0 }
    ensures { (before : List Bool) → IsPreviousIn context.now depth item previous before octets.old state.old
        → Outcome context.now (in_order_in context.now depth node item before).encoding.encodes (in_order_in context.now depth node item before).misfit
        octets.old state.old octets.new state.new result }
{
    match previous {
        None => encode_node(context, depth, item, octets, state).is_some(),
        Some(start) => encode_next(context, depth, node, item, start, octets, state),
    }
}

/// Encodes an item that is not before the one that it follows. Where the octets are too few for both,
/// they are compared in octets of their own.
#[cycle(encoding)]
fn encode_next(
    context: &Context<'_>,
    depth: usize,
    node: usize,
    item: usize,
    previous: ItemStart,
    octets: &mut [u8],
    state: &mut Writer,
) -> bool
    requires size { 8 * length octets.old < 2 ^ 64 }
    requires source { 8 * length context.now.source.now < 2 ^ 64 }
    requires parts { length context.now.parts.now < 2 ^ 64 - 1 }
    requires whole { state.old.at % 8 ≡ 0 }
    ensures { (before : List Bool) → IsPrevious context.now depth item previous before octets.old state.old
        → Outcome context.now (in_order_in context.now depth node item before).encoding.encodes (in_order_in context.now depth node item before).misfit
        octets.old state.old octets.new state.new result }
{
    let (from, first) = (state.at, state.next);
    if encode_node(context, depth, item, octets, state).is_none() {
        return false;
    }
    let to = state.at;
    if are_in(octets, previous.at, from, to) {
        return is_ordered(node, octets, previous.at, from, to, first, state);
    }
    are_ordered_alone(context, depth, node, item, previous.next, first, state)
}

/// Encodes an item and the one that it follows once more, in octets of their own. Returns whether the
/// second, whose first part has the index `first`, is not before the first, whose first part has the
/// index `next`. Otherwise the state has the reason.
#[cycle(encoding)]
fn are_ordered_alone(
    context: &Context<'_>,
    depth: usize,
    node: usize,
    item: usize,
    next: usize,
    first: usize,
    state: &mut Writer,
) -> bool
    requires source { 8 * length context.now.source.now < 2 ^ 64 }
    requires parts { length context.now.parts.now < 2 ^ 64 - 1 }
    ensures kept { result ≡ true → state.new ≡ state.old }
    ensures ordered { (xs ys rest : Parts) (before list : List Bool)
        → (element_in context.now depth item).encoding.encodes xs before → tape context.now next ≡ xs ++ tape context.now first
        → (element_in context.now depth item).encoding.encodes ys list → tape context.now first ≡ ys ++ rest
        → IsOrderedOrLeft context.now node first before list state.new result }
{
    let mut window = [0; WINDOW];
    let mut copy = Writer {
        at: 0,
        next,
        node,
        reason: Rejection::NoRoom,
    };
    if encode_node(context, depth, item, &mut window, &mut copy).is_none() {
        return stop(state, copy);
    }
    let middle = copy.at;
    if encode_node(context, depth, item, &mut window, &mut copy).is_none() {
        return stop(state, copy);
    }
    if !are_in(&window, 0, middle, copy.at) {
        return leave_unread(state, item, next);
    }
    is_ordered(node, &window, 0, middle, copy.at, first, state)
}

/// Returns whether octets have all bits from one index to a second, and from there to a third.
fn are_in(octets: &[u8], before: usize, from: usize, to: usize) -> bool
    requires { 8 * length octets.now < 2 ^ 64 }
    ensures first { result ≡ true → before ≤ from }
    ensures second { result ≡ true → IsIn octets.now from to }
    ensures both { before ≤ from → IsIn octets.now from to → result ≡ true }
{
    before <= from && is_in(octets, from, to)
}

/// Returns whether an item is not before the one that it follows, which begins at `before`. It begins
/// at `from` and ends at `to`, and its first part has the index `first`. Otherwise the state has the
/// reason.
fn is_ordered(
    node: usize,
    octets: &[u8],
    before: usize,
    from: usize,
    to: usize,
    first: usize,
    state: &mut Writer,
) -> bool
    requires begins { before ≤ from }
    requires order { from ≤ to }
    requires inside { to ≤ 8 * length octets.now }
    ensures kept { result ≡ true → state.new ≡ state.old }
    ensures ordered { IsOrdered node first (bits_at (bits octets.now) before (from - before)) (bits_at (bits octets.now) from (to - from)) state.new result }
{
    if is_before(octets, before, from, to) {
        state.next = first;
        return reject(state, node, MisfitKind::NotAscending);
    }
    true
}

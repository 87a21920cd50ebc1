//! Decodes the items of a SET OF, which are in ascending order (X.691 22.1).

ghost use Rattle.std.specs.Prelude.{◌≡◌, ◌≤◌, ◌<◌, ◌^◌, ◌*◌, ◌-◌, List, Bool, [], true, length};
ghost use Rattle.std.specs.Bool.{Decides};
ghost use Rattle.asn1_bits.specs.Bits.{bits};
ghost use Rattle.asn1_schema.specs.PiecesOfParts.{bits_at};
ghost use Rattle.asn1_x691.specs.Limits.{IsOffOctet};
ghost use Rattle.asn1_x691_fields.specs.Outcomes.{IsWithin, IsMoved, IsPlaced, position};
ghost use Rattle.asn1_x691_decode.specs.Decoding.{Outcome, set_items_in, in_order_in, IsItemBefore};

use crate::context::Context;
use crate::decoder::decode_node;
use asn1_schema::Part;
use asn1_x691::FaultKind;
use asn1_x691_fields::{State, fail, is_before};

/// Decodes `count` items, each of which is not before the one that it follows.
#[cycle(decoding)]
pub(crate) fn decode_set_items(
    context: &Context<'_>,
    depth: usize,
    node: usize,
    item: usize,
    count: usize,
    state: &mut State,
    parts: &mut [Part],
) -> bool
    requires size { 8 * length context.now.octets.now < 2 ^ 64 }
    requires within { IsWithin (bits context.now.octets.now) state.old }
    requires placed { IsPlaced context.now.is_aligned state.old }
    ensures moved { IsMoved (bits context.now.octets.now) state.old state.new }
    ensures did { Outcome context.now (λ at. (set_items_in context.now depth node item [] count at).encoding)
        state.old state.new parts.old parts.new result }
{
    let mut left = count;
    let mut before = state.at;
    while left > 0 {
        left -= 1;
        let from = state.at;
        if !decode_item(context, depth, node, item, before, state, parts) {
            return false;
        }
        before = from;
    }
    true
}

/// Decodes an item that is not before the one that it follows, which begins at an index.
#[cycle(decoding)]
fn decode_item(
    context: &Context<'_>,
    depth: usize,
    node: usize,
    item: usize,
    before: usize,
    state: &mut State,
    parts: &mut [Part],
) -> bool
    requires size { 8 * length context.now.octets.now < 2 ^ 64 }
    requires within { IsWithin (bits context.now.octets.now) state.old }
    requires placed { IsPlaced context.now.is_aligned state.old }
    requires before { IsItemBefore context.now depth item before state.old }
    ensures moved { IsMoved (bits context.now.octets.now) state.old state.new }
    ensures did { Outcome context.now (λ at. (in_order_in context.now depth node item
        (bits_at (bits context.now.octets.now) before (state.old.at - before)) at).encoding)
        state.old state.new parts.old parts.new result }
{
    let (first, from, count) = (state.first, state.at, state.count);
    if !decode_node(context, depth, item, state, parts) {
        return false;
    }
    if is_off_octet(context.is_aligned, from - before, from - first) {
        state.at = from;
        state.count = count;
        fail(state, node, FaultKind::Unsupported);
        return false;
    }
    if is_before(context.octets, before, from, state.at) {
        state.at = from;
        state.count = count;
        fail(state, node, FaultKind::NotAscending);
        return false;
    }
    true
}

/// Returns whether an item at a position, or the one of `count` bits that it follows, does not begin
/// at an octet, which exceeds the limit of the decoder in the ALIGNED variant.
fn is_off_octet(is_aligned: bool, count: usize, position: usize) -> bool
    ensures { (list : List Bool) → length list ≡ count → Decides result (IsOffOctet true is_aligned list position) }
{
    is_aligned && count > 0 && (position % 8 != 0 || count % 8 != 0)
}

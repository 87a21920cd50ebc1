//! Decodes items of a SEQUENCE OF after their number, in fragments from 16,384 items on (X.691
//! 11.9.3.8, 20.6).

ghost use Rattle.std.specs.Prelude.{◌≡◌, ◌≤◌, ◌<◌, ◌^◌, ◌*◌, ◌+◌, ◌-◌, List, Bool, true, length, IfSome};
ghost use Rattle.std.specs.Bool.{Decides};
ghost use Rattle.asn1_bits.specs.Bits.{bits};
ghost use Rattle.asn1_x691.specs.Limits.{IsEmptyFragment};
ghost use Rattle.asn1_x691_fields.specs.Outcomes.{IsWithin, IsMoved, IsPlaced};
ghost use Rattle.asn1_x691_decode.specs.Decoding.{Outcome, OutcomeOfItems, OutcomeOfList, fragment_in, numbered_in, last_items_in, most_item_fragments};

use crate::context::Context;
use crate::list::decode_items;
use crate::room::push;
use asn1_schema::{Part, replace_part};
use asn1_x691::FaultKind;
use asn1_x691_fields::{State, fail, next_number_of_units};

/// The most fragments of 65,536 items that a list may have.
const MOST_FRAGMENTS: usize = 1 << 32;

/// Decodes a list of any number of items, and returns their number. The parts of a list that is not
/// whole begin with the number `usize::MAX`.
#[inline(never)]
#[cycle(decoding)]
pub(crate) fn decode_numbered_list(
    context: &Context<'_>,
    depth: usize,
    node: usize,
    item: usize,
    state: &mut State,
    parts: &mut [Part],
) -> Option<usize>
    requires size { 8 * length context.now.octets.now < 2 ^ 64 }
    requires within { IsWithin (bits context.now.octets.now) state.old }
    requires placed { IsPlaced context.now.is_aligned state.old }
    ensures moved { IsMoved (bits context.now.octets.now) state.old state.new }
    ensures did { OutcomeOfList context.now (numbered_in context.now depth node item most_item_fragments)
        state.old state.new parts.old parts.new result }
{
    let first = state.count;
    push(parts, state, Part::Count(usize::MAX));
    let Some(count) = decode_numbered_items(context, depth, node, item, state, parts) else {
        return None;
    };
    replace_part(parts, first, Part::Count(count));
    Some(count)
}

/// Decodes items after their number, and returns the number.
#[cycle(decoding)]
fn decode_numbered_items(
    context: &Context<'_>,
    depth: usize,
    node: usize,
    item: usize,
    state: &mut State,
    parts: &mut [Part],
) -> Option<usize>
    requires size { 8 * length context.now.octets.now < 2 ^ 64 }
    requires within { IsWithin (bits context.now.octets.now) state.old }
    requires placed { IsPlaced context.now.is_aligned state.old }
    ensures moved { IsMoved (bits context.now.octets.now) state.old state.new }
    ensures did { OutcomeOfItems context.now (numbered_in context.now depth node item most_item_fragments)
        state.old state.new parts.old parts.new result }
{
    let mut whole: usize = 0;
    while whole < MOST_FRAGMENTS {
        let Some(count) = next_number_of_units(context.octets, context.is_aligned, node, state)
        else {
            return None;
        };
        if !decode_fragment(context, depth, node, item, count, state, parts) {
            return None;
        }
        if count < 16384 {
            return Some(65536 * whole + count);
        }
        if count < 65536 {
            let kind = FaultKind::NotMinimal;
            let Some(last) = decode_last_items(context, depth, node, kind, item, state, parts)
            else {
                return None;
            };
            return Some(65536 * whole + count + last);
        }
        whole += 1;
    }
    let kind = FaultKind::Unsupported;
    let Some(last) = decode_last_items(context, depth, node, kind, item, state, parts) else {
        return None;
    };
    Some(65536 * whole + last)
}

/// Decodes fewer than 16,384 items after their number, and returns the number. A fragment is a fault
/// of this kind.
#[cycle(decoding)]
fn decode_last_items(
    context: &Context<'_>,
    depth: usize,
    node: usize,
    kind: FaultKind,
    item: usize,
    state: &mut State,
    parts: &mut [Part],
) -> Option<usize>
    requires size { 8 * length context.now.octets.now < 2 ^ 64 }
    requires within { IsWithin (bits context.now.octets.now) state.old }
    requires placed { IsPlaced context.now.is_aligned state.old }
    ensures moved { IsMoved (bits context.now.octets.now) state.old state.new }
    ensures few { IfSome result (λ n. n < 16384) }
    ensures did { OutcomeOfItems context.now (last_items_in context.now depth node item kind)
        state.old state.new parts.old parts.new result }
{
    let Some(count) = next_number_of_units(context.octets, context.is_aligned, node, state) else {
        return None;
    };
    if count >= 16384 {
        fail(state, node, kind);
        return None;
    }
    if !decode_fragment(context, depth, node, item, count, state, parts) {
        return None;
    }
    Some(count)
}

/// Decodes the items after a number. A fragment whose items have no bits exceeds a limit: each octet of
/// a message could announce 65,536 items.
#[cycle(decoding)]
fn decode_fragment(
    context: &Context<'_>,
    depth: usize,
    node: usize,
    item: usize,
    count: usize,
    state: &mut State,
    parts: &mut [Part],
) -> bool
    requires size { 8 * length context.now.octets.now < 2 ^ 64 }
    requires within { IsWithin (bits context.now.octets.now) state.old }
    requires placed { IsPlaced context.now.is_aligned state.old }
    ensures moved { IsMoved (bits context.now.octets.now) state.old state.new }
    ensures did { Outcome context.now (λ at. (fragment_in context.now depth node item count at).encoding)
        state.old state.new parts.old parts.new result }
{
    let (from, before) = (state.at, state.count);
    if !decode_items(context, depth, item, count, state, parts) {
        return false;
    }
    if is_empty_fragment(count, state.at - from) {
        state.count = before;
        fail(state, node, FaultKind::Unsupported);
        return false;
    }
    true
}

/// Returns whether `count` items, of `size` bits together, are a fragment of items without bits.
fn is_empty_fragment(count: usize, size: usize) -> bool
    ensures { (list : List Bool) → length list ≡ size → Decides result (IsEmptyFragment true count list) }
{
    count >= 16384 && size == 0
}

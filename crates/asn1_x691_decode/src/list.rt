//! Decodes a SEQUENCE OF (X.691 20) and a SET OF (X.691 22).

ghost use Rattle.std.specs.Prelude.{◌≡◌, ◌<◌, ◌^◌, ◌*◌, ◌+◌, length, true, false};
ghost use Rattle.asn1_bits.specs.Bits.{bits};
ghost use Rattle.asn1_x691_fields.specs.Outcomes.{IsWithin, IsMoved, IsPlaced};
ghost use Rattle.asn1_x691_decode.specs.Decoding.{Outcome, sequence_of_in, root_list_in, at_least_in, added_list_in, all_items_in, items_in};

use crate::context::Context;
use crate::decoder::decode_node;
use crate::fragments::decode_numbered_list;
use crate::room::push;
use crate::set::decode_set_items;
use asn1_schema::{Length, Part};
use asn1_x691::FaultKind;
use asn1_x691_fields::{
    State, fail, is_of_root, next_added_length, next_bit, next_constrained, next_length_at_least,
};

/// Decodes a SEQUENCE OF, or a SET OF.
#[inline(never)]
#[cycle(decoding)]
pub(crate) fn decode_list(
    context: &Context<'_>,
    depth: usize,
    node: usize,
    size: &Length,
    is_extensible: bool,
    is_set: bool,
    item: usize,
    state: &mut State,
    parts: &mut [Part],
) -> bool
    requires size { 8 * length context.now.octets.now < 2 ^ 64 }
    requires within { IsWithin (bits context.now.octets.now) state.old }
    requires placed { IsPlaced context.now.is_aligned state.old }
    ensures moved { IsMoved (bits context.now.octets.now) state.old state.new }
    ensures did { Outcome context.now (λ at. (sequence_of_in context.now depth node is_extensible is_set size.now item at).encoding)
        state.old state.new parts.old parts.new result }
{
    if !is_extensible {
        return decode_root_list(context, depth, node, *size, is_set, item, state, parts);
    }
    match next_bit(context.octets, node, state) {
        None => false,
        Some(false) => decode_root_list(context, depth, node, *size, is_set, item, state, parts),
        Some(true) => decode_added_list(context, depth, node, *size, is_set, item, state, parts),
    }
}

/// Decodes as many items as the size constraint permits.
#[cycle(decoding)]
fn decode_root_list(
    context: &Context<'_>,
    depth: usize,
    node: usize,
    size: Length,
    is_set: bool,
    item: usize,
    state: &mut State,
    parts: &mut [Part],
) -> bool
    requires size { 8 * length context.now.octets.now < 2 ^ 64 }
    requires within { IsWithin (bits context.now.octets.now) state.old }
    requires placed { IsPlaced context.now.is_aligned state.old }
    ensures moved { IsMoved (bits context.now.octets.now) state.old state.new }
    ensures did { Outcome context.now (λ at. (root_list_in context.now depth node is_set size item at).encoding)
        state.old state.new parts.old parts.new result }
{
    match size {
        Length::AtLeast { least } => {
            if is_set {
                return decode_set_at_least(context, depth, node, least, item, state, parts);
            }
            decode_at_least(context, depth, node, least, item, state, parts)
        }
        Length::Between { least, range } => {
            match next_constrained(
                context.octets,
                context.is_aligned,
                range as u128,
                node,
                state,
            ) {
                None => false,
                Some(more) => {
                    let count = least as usize + more as usize;
                    push(parts, state, Part::Count(count));
                    decode_each(context, depth, node, is_set, item, count, state, parts)
                }
            }
        }
    }
}

/// Decodes the items of a SEQUENCE OF that has no upper bound.
#[cycle(decoding)]
fn decode_at_least(
    context: &Context<'_>,
    depth: usize,
    node: usize,
    least: usize,
    item: usize,
    state: &mut State,
    parts: &mut [Part],
) -> bool
    requires size { 8 * length context.now.octets.now < 2 ^ 64 }
    requires within { IsWithin (bits context.now.octets.now) state.old }
    requires placed { IsPlaced context.now.is_aligned state.old }
    ensures moved { IsMoved (bits context.now.octets.now) state.old state.new }
    ensures did { Outcome context.now (λ at. (at_least_in context.now depth node false least item at).encoding)
        state.old state.new parts.old parts.new result }
{
    let first = state.count;
    let Some(count) = decode_numbered_list(context, depth, node, item, state, parts) else {
        return false;
    };
    if count < least {
        state.count = first;
        fail(state, node, FaultKind::BelowLeast);
        return false;
    }
    true
}

/// Decodes the items of a SET OF that has no upper bound.
#[cycle(decoding)]
fn decode_set_at_least(
    context: &Context<'_>,
    depth: usize,
    node: usize,
    least: usize,
    item: usize,
    state: &mut State,
    parts: &mut [Part],
) -> bool
    requires size { 8 * length context.now.octets.now < 2 ^ 64 }
    requires within { IsWithin (bits context.now.octets.now) state.old }
    requires placed { IsPlaced context.now.is_aligned state.old }
    ensures moved { IsMoved (bits context.now.octets.now) state.old state.new }
    ensures did { Outcome context.now (λ at. (at_least_in context.now depth node true least item at).encoding)
        state.old state.new parts.old parts.new result }
{
    let Some(count) = next_length_at_least(context.octets, context.is_aligned, least, node, state)
    else {
        return false;
    };
    push(parts, state, Part::Count(count));
    decode_each(context, depth, node, true, item, count, state, parts)
}

/// Decodes as many items as the size constraint does not permit (X.691 20.4).
#[cycle(decoding)]
fn decode_added_list(
    context: &Context<'_>,
    depth: usize,
    node: usize,
    size: Length,
    is_set: bool,
    item: usize,
    state: &mut State,
    parts: &mut [Part],
) -> bool
    requires size { 8 * length context.now.octets.now < 2 ^ 64 }
    requires within { IsWithin (bits context.now.octets.now) state.old }
    requires placed { IsPlaced context.now.is_aligned state.old }
    ensures moved { IsMoved (bits context.now.octets.now) state.old state.new }
    ensures did { Outcome context.now (λ at. (added_list_in context.now depth node is_set size item at).encoding)
        state.old state.new parts.old parts.new result }
{
    if is_set {
        return decode_added_set(context, depth, node, size, item, state, parts);
    }
    let first = state.count;
    let Some(count) = decode_numbered_list(context, depth, node, item, state, parts) else {
        return false;
    };
    if is_of_root(size, count) {
        state.count = first;
        fail(state, node, FaultKind::InRoot);
        return false;
    }
    true
}

/// Decodes as many items of a SET OF as the size constraint does not permit (X.691 20.4).
#[cycle(decoding)]
fn decode_added_set(
    context: &Context<'_>,
    depth: usize,
    node: usize,
    size: Length,
    item: usize,
    state: &mut State,
    parts: &mut [Part],
) -> bool
    requires size { 8 * length context.now.octets.now < 2 ^ 64 }
    requires within { IsWithin (bits context.now.octets.now) state.old }
    requires placed { IsPlaced context.now.is_aligned state.old }
    ensures moved { IsMoved (bits context.now.octets.now) state.old state.new }
    ensures did { Outcome context.now (λ at. (added_list_in context.now depth node true size item at).encoding)
        state.old state.new parts.old parts.new result }
{
    let Some(count) = next_added_length(context.octets, context.is_aligned, size, node, state)
    else {
        return false;
    };
    push(parts, state, Part::Count(count));
    decode_each(context, depth, node, true, item, count, state, parts)
}

/// Decodes `count` items of a SEQUENCE OF or of a SET OF.
#[cycle(decoding)]
fn decode_each(
    context: &Context<'_>,
    depth: usize,
    node: usize,
    is_set: bool,
    item: usize,
    count: usize,
    state: &mut State,
    parts: &mut [Part],
) -> bool
    requires size { 8 * length context.now.octets.now < 2 ^ 64 }
    requires within { IsWithin (bits context.now.octets.now) state.old }
    requires placed { IsPlaced context.now.is_aligned state.old }
    ensures moved { IsMoved (bits context.now.octets.now) state.old state.new }
    ensures did { Outcome context.now (λ at. (all_items_in context.now depth node is_set item count at).encoding)
        state.old state.new parts.old parts.new result }
{
    if is_set {
        return decode_set_items(context, depth, node, item, count, state, parts);
    }
    decode_items(context, depth, item, count, state, parts)
}

/// Decodes `count` items of a SEQUENCE OF.
#[cycle(decoding)]
pub(crate) fn decode_items(
    context: &Context<'_>,
    depth: usize,
    item: usize,
    count: usize,
    state: &mut State,
    parts: &mut [Part],
) -> bool
    requires size { 8 * length context.now.octets.now < 2 ^ 64 }
    requires within { IsWithin (bits context.now.octets.now) state.old }
    requires placed { IsPlaced context.now.is_aligned state.old }
    ensures moved { IsMoved (bits context.now.octets.now) state.old state.new }
    ensures did { Outcome context.now (λ at. (items_in context.now depth item count at).encoding)
        state.old state.new parts.old parts.new result }
{
    let mut left = count;
    while left > 0 {
        left -= 1;
        if !decode_node(context, depth, item, state, parts) {
            return false;
        }
    }
    true
}

//! Decodes open types and complete encodings (X.691 11.1, 11.2).

ghost use Rattle.std.specs.Prelude.{◌≡◌, ◌<◌, ◌^◌, ◌*◌, ◌+◌, ◌-◌, true, length, Some};
ghost use Rattle.asn1_bits.specs.Bits.{bits};
ghost use Rattle.asn1_x691.specs.Fragments.{octets};
ghost use Rattle.asn1_x691_fields.specs.Outcomes.{IsWithin, IsMoved, IsPlaced};
ghost use Rattle.asn1_schema.specs.declared.tables.Presence.TheVariants as presence;
ghost use Rattle.asn1_x691_decode.specs.Decoding.{Outcome, types, value_in, OutcomeOfContents, complete_in, enclosed_in};

use crate::compare::is_default;
use crate::complete::at_end;
use crate::context::Context;
use crate::decoder::decode_node;
use asn1_schema::{Member, Part, Presence};
use asn1_x691::FaultKind;
use asn1_x691_fields::{State, fail, next_octets};

/// Decodes an open type (X.691 11.2): octets that are a complete encoding, after their number.
#[inline(never)]
#[cycle(decoding)]
pub(crate) fn decode_enclosed(
    context: &Context<'_>,
    depth: usize,
    node: usize,
    member: Member,
    state: &mut State,
    parts: &mut [Part],
) -> bool
    requires size { 8 * length context.now.octets.now < 2 ^ 64 }
    requires within { IsWithin (bits context.now.octets.now) state.old }
    requires placed { IsPlaced context.now.is_aligned state.old }
    ensures moved { IsMoved (bits context.now.octets.now) state.old state.new }
    ensures did { Outcome context.now (λ at. (enclosed_in context.now depth node member.presence member.node at).encoding)
        state.old state.new parts.old parts.new result }
{
    let contents = match next_octets(context.octets, context.is_aligned, node, state) {
        None => return false,
        Some(span) => span,
    };
    let after = *state;
    state.at = contents.at;
    state.first = contents.at;
    state.end = contents.at + contents.count;
    let is_complete = decode_complete(context, depth, node, member, state, parts);
    state.first = after.first;
    state.end = after.end;
    if !is_complete {
        return false;
    }
    state.at = after.at;
    true
}

/// Decodes a value of an open type that is no component, so that it has no default value.
#[inline(never)]
#[cycle(decoding)]
pub(crate) fn decode_open(
    context: &Context<'_>,
    depth: usize,
    node: usize,
    inner: usize,
    state: &mut State,
    parts: &mut [Part],
) -> bool
    requires size { 8 * length context.now.octets.now < 2 ^ 64 }
    requires within { IsWithin (bits context.now.octets.now) state.old }
    requires placed { IsPlaced context.now.is_aligned state.old }
    ensures moved { IsMoved (bits context.now.octets.now) state.old state.new }
    ensures did { Outcome context.now (λ at. (enclosed_in context.now depth node presence.Mandatory inner at).encoding)
        state.old state.new parts.old parts.new result }
{
    let member = Member {
        node: inner,
        presence: Presence::Mandatory,
    };
    decode_enclosed(context, depth, node, member, state, parts)
}

/// Decodes a complete encoding (X.691 11.1), from its first bit to its last.
#[cycle(decoding)]
pub(crate) fn decode_complete(
    context: &Context<'_>,
    depth: usize,
    node: usize,
    member: Member,
    state: &mut State,
    parts: &mut [Part],
) -> bool
    requires size { 8 * length context.now.octets.now < 2 ^ 64 }
    requires within { IsWithin (bits context.now.octets.now) state.old }
    requires placed { IsPlaced context.now.is_aligned state.old }
    requires begins { state.old.at ≡ state.old.first }
    ensures moved { IsMoved (bits context.now.octets.now) state.old state.new }
    ensures did { OutcomeOfContents context.now (complete_in context.now depth node member.presence member.node)
        state.old state.new parts.old parts.new result }
{
    if !decode_value(context, depth, node, member, state, parts) {
        return false;
    }
    at_end(context.octets, node, state)
}

/// Decodes a value that is not the default value of the component.
#[inline(always)]
#[cycle(decoding)]
pub(crate) fn decode_value(
    context: &Context<'_>,
    depth: usize,
    node: usize,
    member: Member,
    state: &mut State,
    parts: &mut [Part],
) -> bool
    requires size { 8 * length context.now.octets.now < 2 ^ 64 }
    requires within { IsWithin (bits context.now.octets.now) state.old }
    requires placed { IsPlaced context.now.is_aligned state.old }
    ensures moved { IsMoved (bits context.now.octets.now) state.old state.new }
    ensures did { Outcome context.now (λ at. (value_in context.now depth node member.presence member.node at).encoding)
        state.old state.new parts.old parts.new result }
{
    match member.presence {
        Presence::Default { value } => {
            decode_other_than(context, depth, node, value, member.node, state, parts)
        }
        Presence::Mandatory => decode_node(context, depth, member.node, state, parts),
        Presence::Optional => decode_node(context, depth, member.node, state, parts),
    }
}

/// Decodes a value that is not a default value (X.691 19.5).
#[inline(never)]
#[cycle(decoding)]
fn decode_other_than(
    context: &Context<'_>,
    depth: usize,
    node: usize,
    value: usize,
    inner: usize,
    state: &mut State,
    parts: &mut [Part],
) -> bool
    requires size { 8 * length context.now.octets.now < 2 ^ 64 }
    requires within { IsWithin (bits context.now.octets.now) state.old }
    requires placed { IsPlaced context.now.is_aligned state.old }
    ensures moved { IsMoved (bits context.now.octets.now) state.old state.new }
    ensures did { Outcome context.now (λ at. (value_in context.now depth node (presence.Default value) inner at).encoding)
        state.old state.new parts.old parts.new result }
{
    let (first, from, count) = (state.first, state.at, state.count);
    if !decode_node(context, depth, inner, state, parts) {
        return false;
    }
    if is_default(context, value, first, from, state.at) {
        state.at = from;
        state.count = count;
        fail(state, node, FaultKind::DefaultValue);
        return false;
    }
    true
}

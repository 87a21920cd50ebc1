//! Decodes the additions of a SEQUENCE (X.691 19.7 to 19.9).

ghost use Rattle.std.specs.Prelude.{◌≡◌, ◌≤◌, ◌<◌, ◌^◌, ◌*◌, ◌+◌, ◌-◌, true, length, slice_get, Some};
ghost use Rattle.asn1_bits.specs.Bits.{bits};
ghost use Rattle.asn1_schema.specs.Pieces.{Unknown};
ghost use Rattle.asn1_schema.specs.TypeEncodings.{leaf};
ghost use Rattle.asn1_x691.specs.Fragments.{octets};
ghost use Rattle.asn1_x691_fields.specs.Outcomes.{IsWithin, IsMoved, IsPlaced};
ghost use Rattle.asn1_x691_decode.specs.Decoding.{Outcome, bits_after_one, by_presence, told_by, extension_in, additions_in, addition_in, known_in};

use crate::context::Context;
use crate::open_type::decode_enclosed;
use crate::presence::{PresenceBits, has_one, member_from, next_presence};
use crate::room::push;
use asn1_schema::{Part, Rows};
use asn1_x691::FaultKind;
use asn1_x691_fields::{State, fail, next_bits, next_octets, next_small_length};

/// Decodes the additions of a SEQUENCE: their number, their presence bits,
/// and these (X.691 19.7 to 19.9).
#[inline(never)]
#[cycle(decoding)]
pub(crate) fn decode_extension(
    context: &Context<'_>,
    depth: usize,
    node: usize,
    known: Rows,
    state: &mut State,
    parts: &mut [Part],
) -> bool
    requires size { 8 * length context.now.octets.now < 2 ^ 64 }
    requires within { IsWithin (bits context.now.octets.now) state.old }
    requires placed { IsPlaced context.now.is_aligned state.old }
    ensures moved { IsMoved (bits context.now.octets.now) state.old state.new }
    ensures did { Outcome context.now (λ at. (extension_in context.now depth node known at).encoding)
        state.old state.new parts.old parts.new result }
{
    let count = match next_small_length(context.octets, context.is_aligned, node, state) {
        None => return false,
        Some(count) => count,
    };
    push(parts, state, Part::Additions(count));
    let at = match next_bits(context.octets, count, node, state) {
        None => return false,
        Some(at) => at,
    };
    let presence = PresenceBits { at, left: count };
    if !has_one(context.octets, presence) {
        fail(state, node, FaultKind::NoAddition);
        return false;
    }
    decode_additions(context, depth, node, known, presence, state, parts)
}

/// Decodes additions, whose presence bits were read.
#[cycle(decoding)]
pub(crate) fn decode_additions(
    context: &Context<'_>,
    depth: usize,
    node: usize,
    known: Rows,
    presence: PresenceBits,
    state: &mut State,
    parts: &mut [Part],
) -> bool
    requires size { 8 * length context.now.octets.now < 2 ^ 64 }
    requires within { IsWithin (bits context.now.octets.now) state.old }
    requires placed { IsPlaced context.now.is_aligned state.old }
    requires bits { presence.at + presence.left ≤ 8 * length context.now.octets.now }
    ensures moved { IsMoved (bits context.now.octets.now) state.old state.new }
    ensures did { Outcome context.now (λ at. (additions_in context.now depth node presence.left known.count known.from at).after
        (told_by (bits context.now.octets.now) presence)) state.old state.new parts.old parts.new result }
{
    let mut presence = presence;
    let count = presence.left;
    for index in 0..count {
        if !decode_optional_addition(
            context,
            depth,
            node,
            known,
            index,
            &mut presence,
            state,
            parts,
        ) {
            return false;
        }
    }
    true
}

/// Decodes an addition, where it is present.
#[cycle(decoding)]
pub(crate) fn decode_optional_addition(
    context: &Context<'_>,
    depth: usize,
    node: usize,
    known: Rows,
    index: usize,
    presence: &mut PresenceBits,
    state: &mut State,
    parts: &mut [Part],
) -> bool
    requires size { 8 * length context.now.octets.now < 2 ^ 64 }
    requires within { IsWithin (bits context.now.octets.now) state.old }
    requires placed { IsPlaced context.now.is_aligned state.old }
    requires bits { presence.old.at + presence.old.left ≤ 8 * length context.now.octets.now }
    requires some { 0 < presence.old.left }
    ensures moved { IsMoved (bits context.now.octets.now) state.old state.new }
    ensures bits { presence.new.at + presence.new.left ≤ 8 * length context.now.octets.now }
    ensures fewer { presence.new.left + 1 ≡ presence.old.left }
    ensures did { Outcome context.now (by_presence context.now depth node (told_by (bits context.now.octets.now) presence.old)
        (addition_in context.now depth node (known.count - index) (known.from + index))) state.old state.new
        parts.old parts.new result }
    ensures told { told_by (bits context.now.octets.now) presence.new
        ≡ bits_after_one (told_by (bits context.now.octets.now) presence.old) }
{
    match next_presence(context.octets, presence) {
        None => {
            fail(state, node, FaultKind::NoNode);
            false
        }
        Some(false) => {
            push(parts, state, Part::Absent);
            true
        }
        Some(true) => decode_addition(context, depth, node, known, index, state, parts),
    }
}

/// Decodes an addition: an open type, or its octets where it is not known (X.691 19.9).
#[cycle(decoding)]
pub(crate) fn decode_addition(
    context: &Context<'_>,
    depth: usize,
    node: usize,
    known: Rows,
    index: usize,
    state: &mut State,
    parts: &mut [Part],
) -> bool
    requires size { 8 * length context.now.octets.now < 2 ^ 64 }
    requires within { IsWithin (bits context.now.octets.now) state.old }
    requires placed { IsPlaced context.now.is_aligned state.old }
    ensures moved { IsMoved (bits context.now.octets.now) state.old state.new }
    ensures did { Outcome context.now (λ at. (addition_in context.now depth node (known.count - index) (known.from + index) at).encoding)
        state.old state.new parts.old parts.new result }
{
    if index >= known.count as usize {
        return keep_octets(context, node, state, parts);
    }
    decode_known(context, depth, node, known.from, index, state, parts)
}

/// Decodes a known addition, which is an open type. It is the member of an index among those from
/// another index on.
#[cycle(decoding)]
pub(crate) fn decode_known(
    context: &Context<'_>,
    depth: usize,
    node: usize,
    from: usize,
    index: usize,
    state: &mut State,
    parts: &mut [Part],
) -> bool
    requires size { 8 * length context.now.octets.now < 2 ^ 64 }
    requires within { IsWithin (bits context.now.octets.now) state.old }
    requires placed { IsPlaced context.now.is_aligned state.old }
    ensures moved { IsMoved (bits context.now.octets.now) state.old state.new }
    ensures did { Outcome context.now (λ at. (known_in context.now depth node
        (slice_get context.now.tables.members.now (from + index)) at).encoding) state.old state.new parts.old parts.new result }
{
    match member_from(context.tables.members, from, index) {
        None => {
            fail(state, node, FaultKind::NoNode);
            false
        }
        Some(member) => decode_enclosed(context, depth, node, member, state, parts),
    }
}

/// Decodes the octets of a value that the schema does not know.
pub(crate) fn keep_octets(
    context: &Context<'_>,
    node: usize,
    state: &mut State,
    parts: &mut [Part],
) -> bool
    requires size { 8 * length context.now.octets.now < 2 ^ 64 }
    requires within { IsWithin (bits context.now.octets.now) state.old }
    requires placed { IsPlaced context.now.is_aligned state.old }
    ensures moved { IsMoved (bits context.now.octets.now) state.old state.new }
    ensures did { Outcome context.now (λ at. (leaf (octets 0 context.now.is_aligned node) Unknown node at).encoding)
        state.old state.new parts.old parts.new result }
{
    match next_octets(context.octets, context.is_aligned, node, state) {
        None => false,
        Some(span) => {
            push(parts, state, Part::Unknown(span));
            true
        }
    }
}

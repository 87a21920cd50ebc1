//! Decodes a SEQUENCE (X.691 19).

ghost use Rattle.std.specs.Prelude.{◌≡◌, ◌≤◌, ◌<◌, ◌^◌, ◌*◌, ◌+◌, ◌-◌, true, length, Some};
ghost use Rattle.asn1_bits.specs.Bits.{bits};
ghost use Rattle.asn1_x691.specs.Fragments.{octets};
ghost use Rattle.asn1_x691_fields.specs.Outcomes.{IsWithin, IsMoved, IsPlaced};
ghost use Rattle.asn1_x691_decode.specs.Decoding.{Outcome, component_in, components_in, root_in, sequence_in, bits_after, told_by};

use crate::additions::decode_extension;
use crate::context::Context;
use crate::open_type::decode_value;
use crate::presence::{PresenceBits, count_optional, known_of, member_in, next_presence};
use crate::room::push;
use asn1_schema::{Member, Part, Presence, Rows};
use asn1_x691::FaultKind;
use asn1_x691_fields::{State, fail, next_bit, next_bits};

/// Decodes a SEQUENCE (X.691 19).
#[inline(always)]
#[cycle(decoding)]
pub(crate) fn decode_sequence(
    context: &Context<'_>,
    depth: usize,
    node: usize,
    root: Rows,
    is_extensible: bool,
    additions: Rows,
    state: &mut State,
    parts: &mut [Part],
) -> bool
    requires size { 8 * length context.now.octets.now < 2 ^ 64 }
    requires within { IsWithin (bits context.now.octets.now) state.old }
    requires placed { IsPlaced context.now.is_aligned state.old }
    ensures moved { IsMoved (bits context.now.octets.now) state.old state.new }
    ensures did { Outcome context.now (λ at. (sequence_in context.now depth node is_extensible root additions at).encoding)
        state.old state.new parts.old parts.new result }
{
    if !is_extensible {
        push(
            parts,
            state,
            Part::Sequence {
                count: root.count as usize,
                is_extended: false,
            },
        );
        return decode_root(context, depth, node, root, state, parts);
    }
    let is_extended = match next_bit(context.octets, node, state) {
        None => return false,
        Some(bit) => bit,
    };
    push(
        parts,
        state,
        Part::Sequence {
            count: root.count as usize,
            is_extended,
        },
    );
    if !is_extended {
        return decode_root(context, depth, node, root, state, parts);
    }
    if !decode_root(context, depth, node, root, state, parts) {
        return false;
    }
    decode_extension(context, depth, node, additions, state, parts)
}

/// Decodes the root of a SEQUENCE: the presence bits of its components, and these
/// (X.691 19.2 to 19.4).
#[inline(always)]
#[cycle(decoding)]
pub(crate) fn decode_root(
    context: &Context<'_>,
    depth: usize,
    node: usize,
    root: Rows,
    state: &mut State,
    parts: &mut [Part],
) -> bool
    requires size { 8 * length context.now.octets.now < 2 ^ 64 }
    requires within { IsWithin (bits context.now.octets.now) state.old }
    requires placed { IsPlaced context.now.is_aligned state.old }
    ensures moved { IsMoved (bits context.now.octets.now) state.old state.new }
    ensures did { Outcome context.now (λ at. (root_in context.now depth node root at).encoding)
        state.old state.new parts.old parts.new result }
{
    let left = count_optional(context.tables.members, root);
    match next_bits(context.octets, left, node, state) {
        None => false,
        Some(at) => decode_components(
            context,
            depth,
            node,
            root,
            PresenceBits { at, left },
            state,
            parts,
        ),
    }
}

/// Decodes components, whose presence bits were read.
#[inline(always)]
#[cycle(decoding)]
pub(crate) fn decode_components(
    context: &Context<'_>,
    depth: usize,
    node: usize,
    root: Rows,
    presence: PresenceBits,
    state: &mut State,
    parts: &mut [Part],
) -> bool
    requires size { 8 * length context.now.octets.now < 2 ^ 64 }
    requires within { IsWithin (bits context.now.octets.now) state.old }
    requires placed { IsPlaced context.now.is_aligned state.old }
    requires bits { presence.at + presence.left ≤ 8 * length context.now.octets.now }
    ensures moved { IsMoved (bits context.now.octets.now) state.old state.new }
    ensures did { Outcome context.now (λ at. (components_in context.now depth node root.count root.from at).after
        (told_by (bits context.now.octets.now) presence)) state.old state.new parts.old parts.new result }
{
    let mut presence = presence;
    let known = known_of(context.tables.members, root);
    for index in 0..known {
        let at = root.from + index;
        let member = member_in(context.tables.members, at);
        if !decode_component(context, depth, node, member, &mut presence, state, parts) {
            return false;
        }
    }
    if known < root.count as usize {
        fail(state, node, FaultKind::NoNode);
        return false;
    }
    if presence.left > 0 {
        fail(state, node, FaultKind::NoNode);
        return false;
    }
    true
}

/// Decodes a component, where it is present.
#[inline(always)]
#[cycle(decoding)]
pub(crate) fn decode_component(
    context: &Context<'_>,
    depth: usize,
    node: usize,
    member: Member,
    presence: &mut PresenceBits,
    state: &mut State,
    parts: &mut [Part],
) -> bool
    requires size { 8 * length context.now.octets.now < 2 ^ 64 }
    requires within { IsWithin (bits context.now.octets.now) state.old }
    requires placed { IsPlaced context.now.is_aligned state.old }
    requires bits { presence.old.at + presence.old.left ≤ 8 * length context.now.octets.now }
    ensures moved { IsMoved (bits context.now.octets.now) state.old state.new }
    ensures bits { presence.new.at + presence.new.left ≤ 8 * length context.now.octets.now }
    ensures did { Outcome context.now (component_in context.now depth node member.presence member.node
        (told_by (bits context.now.octets.now) presence.old)) state.old state.new parts.old parts.new result }
    ensures told { result ≡ true → told_by (bits context.now.octets.now) presence.new
        ≡ bits_after member.presence (told_by (bits context.now.octets.now) presence.old) }
{
    if let Presence::Mandatory = member.presence {
        return decode_value(context, depth, node, member, state, parts);
    }
    match next_presence(context.octets, presence) {
        None => {
            fail(state, node, FaultKind::NoNode);
            false
        }
        Some(false) => {
            push(parts, state, Part::Absent);
            true
        }
        Some(true) => decode_value(context, depth, node, member, state, parts),
    }
}

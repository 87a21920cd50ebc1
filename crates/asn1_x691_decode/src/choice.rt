//! Decodes a CHOICE (X.691 23).

ghost use Rattle.std.specs.Prelude.{◌<◌, ◌^◌, ◌*◌, ◌+◌, ◌-◌, List, Bool, true, length, Some};
ghost use Rattle.asn1_bits.specs.Bits.{bits};
ghost use Rattle.asn1_x691.specs.Fragments.{octets};
ghost use Rattle.asn1_x691_fields.specs.Outcomes.{IsWithin, IsMoved, IsPlaced};
ghost use Rattle.asn1_x691_fields.specs.declared.state.State as the_state;
ghost use Rattle.asn1_x691_fields.specs.Numbers.{IsNatural};
ghost use Rattle.asn1_x691_decode.specs.Decoding.{Outcome, choice_in, alternatives_in, choice_extension_in, IsIndex};

use crate::additions::{decode_known, keep_octets};
use crate::context::Context;
use crate::decoder::decode_node;
use crate::presence::member_from;
use crate::room::push;
use asn1_schema::{Natural, Part, Rows};
use asn1_x691::FaultKind;
use asn1_x691_fields::{State, fail, next_bit, next_constrained, next_small_number};

/// Decodes a CHOICE (X.691 23).
#[inline(never)]
#[cycle(decoding)]
pub(crate) fn decode_choice(
    context: &Context<'_>,
    depth: usize,
    node: usize,
    rows: Rows,
    is_extensible: bool,
    known: Rows,
    state: &mut State,
    parts: &mut [Part],
) -> bool
    requires size { 8 * length context.now.octets.now < 2 ^ 64 }
    requires within { IsWithin (bits context.now.octets.now) state.old }
    requires placed { IsPlaced context.now.is_aligned state.old }
    ensures moved { IsMoved (bits context.now.octets.now) state.old state.new }
    ensures did { Outcome context.now (λ at. (choice_in context.now depth node is_extensible rows known at).encoding)
        state.old state.new parts.old parts.new result }
{
    if !is_extensible {
        return decode_alternative(context, depth, node, rows, state, parts);
    }
    match next_bit(context.octets, node, state) {
        None => false,
        Some(false) => decode_alternative(context, depth, node, rows, state, parts),
        Some(true) => decode_added(context, depth, node, rows, known, state, parts),
    }
}

/// Decodes an alternative of the root after its index (X.691 23.6).
#[cycle(decoding)]
pub(crate) fn decode_alternative(
    context: &Context<'_>,
    depth: usize,
    node: usize,
    rows: Rows,
    state: &mut State,
    parts: &mut [Part],
) -> bool
    requires size { 8 * length context.now.octets.now < 2 ^ 64 }
    requires within { IsWithin (bits context.now.octets.now) state.old }
    requires placed { IsPlaced context.now.is_aligned state.old }
    ensures moved { IsMoved (bits context.now.octets.now) state.old state.new }
    ensures did { Outcome context.now (λ at. (alternatives_in context.now depth node rows at).encoding)
        state.old state.new parts.old parts.new result }
{
    let last = (rows.count as usize).saturating_sub(1);
    let index = match next_constrained(
        context.octets,
        context.is_aligned,
        last as u128,
        node,
        state,
    ) {
        None => return false,
        Some(index) => index as usize,
    };
    push(parts, state, Part::Chosen(index));
    if index >= rows.count as usize {
        fail(state, node, FaultKind::NoNode);
        return false;
    }
    match member_from(context.tables.members, rows.from, index) {
        None => {
            fail(state, node, FaultKind::NoNode);
            false
        }
        Some(member) => decode_node(context, depth, member.node, state, parts),
    }
}

/// Decodes an addition of a CHOICE after its index: an open type, or its octets where it is not
/// known (X.691 23.8).
#[cycle(decoding)]
pub(crate) fn decode_added(
    context: &Context<'_>,
    depth: usize,
    node: usize,
    rows: Rows,
    known: Rows,
    state: &mut State,
    parts: &mut [Part],
) -> bool
    requires size { 8 * length context.now.octets.now < 2 ^ 64 }
    requires within { IsWithin (bits context.now.octets.now) state.old }
    requires placed { IsPlaced context.now.is_aligned state.old }
    ensures moved { IsMoved (bits context.now.octets.now) state.old state.new }
    ensures did { Outcome context.now (λ at. (choice_extension_in context.now depth node rows known at).encoding)
        state.old state.new parts.old parts.new result }
{
    let index = match next_small_number(context.octets, context.is_aligned, node, state) {
        None => return false,
        Some(index) => index,
    };
    match known_index(index, known.count as usize) {
        None => {
            push(parts, state, Part::UnknownChosen(index));
            keep_octets(context, node, state, parts)
        }
        Some(index) => {
            push(
                parts,
                state,
                Part::Chosen((rows.count as usize).max(1) + index),
            );
            decode_known(context, depth, node, known.from, index, state, parts)
        }
    }
}

/// Returns the number of an addition, where it is known.
fn known_index(index: Natural, count: usize) -> Option<usize>
    ensures { (list : List Bool) (s : the_state.State) → IsNatural list s index → IsIndex list index count result }
{
    match index {
        Natural::Small(index) if index < count as u64 => Some(index as usize),
        _ => None,
    }
}

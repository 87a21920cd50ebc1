//! Decodes a value of any type.

ghost use Rattle.std.specs.Prelude.{◌≡◌, ◌≤◌, ◌<◌, ◌^◌, ◌*◌, ◌+◌, ◌-◌, true, false, length, slice_get, Some, None, MatchOption};
ghost use Rattle.asn1_bits.specs.Bits.{bits};
ghost use Rattle.asn1_x691.specs.Fragments.{octets};
ghost use Rattle.asn1_x691_fields.specs.Outcomes.{IsWithin, IsMoved, IsPlaced};
ghost use Rattle.asn1_x691_decode.specs.Decoding.{Outcome, types};

use crate::choice::decode_choice;
use crate::context::Context;
use crate::leaves::{
    decode_bit_string, decode_boolean, decode_enumerated, decode_integer, decode_integer_at_least,
    decode_integer_between, decode_object_identifier, decode_octet_string, decode_real,
    decode_relative_identifier, decode_text, decode_time, decode_utf8_string,
};
use crate::list::decode_list;
use crate::open_type::decode_open;
use crate::room::push;
use crate::sequence::decode_sequence;
use asn1_schema::{Node, Part};
use asn1_x691::FaultKind;
use asn1_x691_fields::{State, fail};

/// Returns the type at a node.
#[inline(always)]
fn node_at(nodes: &[Node], node: usize) -> Option<&Node>
    ensures { MatchOption result (None ≡ slice_get nodes.now node) (λ row. Some row.now ≡ slice_get nodes.now node) }
{
    if node < nodes.len() {
        Some(&nodes[node])
    } else {
        None
    }
}

/// Decodes a value of the type at a node.
#[cycle(decoding)]
pub(crate) fn decode_node(
    context: &Context<'_>,
    depth: usize,
    node: usize,
    state: &mut State,
    parts: &mut [Part],
) -> bool
    requires size { 8 * length context.now.octets.now < 2 ^ 64 }
    requires within { IsWithin (bits context.now.octets.now) state.old }
    requires placed { IsPlaced context.now.is_aligned state.old }
    ensures moved { IsMoved (bits context.now.octets.now) state.old state.new }
    ensures did { Outcome context.now (λ at. (types context.now depth node at).encoding) state.old state.new
        parts.old parts.new result }
{
    if depth == 0 {
        fail(state, node, FaultKind::TooDeep);
        return false;
    }
    let Some(row) = node_at(context.tables.nodes, node) else {
        fail(state, node, FaultKind::NoNode);
        return false;
    };
    match *row {
        Node::Null => {
            push(parts, state, Part::Null);
            true
        }
        Node::Boolean => decode_boolean(context, node, state, parts),
        Node::Sequence {
            root,
            is_extensible,
            additions,
        } => {
            decode_sequence(
                context,
                depth - 1,
                node,
                root,
                is_extensible,
                additions,
                state,
                parts,
            )
        }
        Node::Open { inner } => { decode_open(context, depth - 1, node, inner, state, parts) }
        Node::Choice {
            alternatives,
            is_extensible,
            additions,
        } => {
            decode_choice(
                context,
                depth - 1,
                node,
                alternatives,
                is_extensible,
                additions,
                state,
                parts,
            )
        }
        Node::SequenceOf {
            ref length,
            is_extensible,
            item,
        } => {
            decode_list(
                context,
                depth - 1,
                node,
                length,
                is_extensible,
                false,
                item,
                state,
                parts,
            )
        }
        Node::SetOf {
            ref length,
            is_extensible,
            item,
        } => {
            decode_list(
                context,
                depth - 1,
                node,
                length,
                is_extensible,
                true,
                item,
                state,
                parts,
            )
        }
        Node::IntegerBetween {
            ref bounds,
            is_extensible,
        } => decode_integer_between(context, bounds, is_extensible, node, state, parts),
        Node::IntegerAtLeast {
            bound,
            is_extensible,
        } => decode_integer_at_least(context, bound, is_extensible, node, state, parts),
        Node::Integer => decode_integer(context, node, state, parts),
        Node::Enumerated {
            last,
            is_extensible,
            additions,
        } => decode_enumerated(context, last, is_extensible, additions, node, state, parts),
        Node::BitString {
            ref length,
            is_extensible,
            has_names,
        } => decode_bit_string(
            context,
            length,
            is_extensible,
            has_names,
            node,
            state,
            parts,
        ),
        Node::OctetString {
            ref length,
            is_extensible,
        } => decode_octet_string(context, length, is_extensible, node, state, parts),
        Node::Text {
            ref length,
            is_extensible,
            alphabet,
            whole,
        } => decode_text(
            context,
            length,
            is_extensible,
            alphabet,
            whole,
            node,
            state,
            parts,
        ),
        Node::ObjectIdentifier => decode_object_identifier(context, node, state, parts),
        Node::RelativeIdentifier => decode_relative_identifier(context, node, state, parts),
        Node::Utf8String => decode_utf8_string(context, node, state, parts),
        Node::Real => decode_real(context, node, state, parts),
        Node::Time { kind } => decode_time(context, kind, node, state, parts),
    }
}

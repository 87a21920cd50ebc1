//! Encodes a value of any type.

ghost use Rattle.std.specs.Prelude.{Option, Some, None, MatchOption, ◌≡◌, ℕ, Bool, List, ◌-◌, ◌*◌, ◌^◌, ◌<◌, length, slice_get};
ghost use Rattle.asn1_x691_encode.specs.Encoding.{Outcome, types};

use crate::choice::{encode_choice, encode_extensible_choice};
use crate::contents::encode_contents;
use crate::context::Context;
use crate::leaves::{
    encode_at_least, encode_between, encode_bits, encode_boolean, encode_enumerated,
    encode_integer, encode_null, encode_octets,
};
use crate::list::encode_list_by;
use crate::open_type::encode_open;
use crate::sequence::{encode_extensible_sequence, encode_sequence};
use crate::texts::{encode_text, encode_time};
use asn1_schema::{MisfitKind, Node};
use asn1_x691_writers::{ContentsKind, Writer, reject};

/// Returns the type at a node.
#[inline(always)]
fn node_at(nodes: &[Node], node: usize) -> Option<&Node>
    ensures { MatchOption result (None ≡ slice_get nodes.now node) (λ row. Some row.now ≡ slice_get nodes.now node) }
{
    if node < nodes.len() {
        Some(&nodes[node])
    } else {
        None
    }
}

/// Encodes the next parts as a value of the type at a node. Returns whether it did.
///
/// It writes to `octets` from the next bit of the state on, and reads from the next part of the
/// state on. If it returns `false`, the state has the reason, and its next part is the one that does
/// not fit. A value that is nested `depth` levels or deeper is a misfit. `octets` and the source
/// must each have fewer than 2^61 octets, and there must be fewer than 2^64 - 1 parts.
#[cycle(encoding)]
pub fn encode_node(
    context: &Context<'_>,
    depth: usize,
    node: usize,
    octets: &mut [u8],
    state: &mut Writer,
) -> bool
    requires size { 8 * length octets.old < 2 ^ 64 }
    requires source { 8 * length context.now.source.now < 2 ^ 64 }
    requires parts { length context.now.parts.now < 2 ^ 64 - 1 }
    ensures { Outcome context.now (types context.now depth node) octets.old state.old
        octets.new state.new result }
{
    if depth == 0 {
        return reject(state, node, MisfitKind::TooDeep);
    }
    let Some(row) = node_at(context.tables.nodes, node) else {
        return reject(state, node, MisfitKind::NoNode);
    };
    match *row {
        Node::Null => encode_null(context, node, octets, state),
        Node::Boolean => encode_boolean(context, node, octets, state),
        Node::IntegerBetween {
            ref bounds,
            is_extensible,
        } => { encode_between(context, bounds, is_extensible, node, octets, state) }
        Node::IntegerAtLeast {
            bound,
            is_extensible,
        } => { encode_at_least(context, bound, is_extensible, node, octets, state) }
        Node::Integer => encode_integer(context, node, octets, state),
        Node::Enumerated {
            last,
            is_extensible,
            additions,
        } => {
            encode_enumerated(
                context,
                last as usize,
                is_extensible,
                additions as usize,
                node,
                octets,
                state,
            )
        }
        Node::BitString {
            ref length,
            is_extensible,
            has_names,
        } => {
            encode_bits(
                context,
                length,
                is_extensible,
                has_names,
                node,
                octets,
                state,
            )
        }
        Node::OctetString {
            ref length,
            is_extensible,
        } => { encode_octets(context, length, is_extensible, node, octets, state) }
        Node::Text {
            ref length,
            is_extensible,
            alphabet,
            whole,
        } => {
            encode_text(
                context,
                length,
                is_extensible,
                alphabet,
                whole,
                node,
                octets,
                state,
            )
        }
        Node::ObjectIdentifier => {
            encode_contents(context, ContentsKind::ObjectIdentifier, node, octets, state)
        }
        Node::RelativeIdentifier => {
            encode_contents(
                context,
                ContentsKind::RelativeIdentifier,
                node,
                octets,
                state,
            )
        }
        Node::Utf8String => { encode_contents(context, ContentsKind::Utf8, node, octets, state) }
        Node::Real => encode_contents(context, ContentsKind::Real, node, octets, state),
        Node::Time { kind } => encode_time(context, kind, node, octets, state),
        Node::Sequence {
            root,
            is_extensible,
            additions,
        } => {
            if is_extensible {
                return encode_extensible_sequence(
                    context,
                    depth - 1,
                    node,
                    root,
                    additions,
                    octets,
                    state,
                );
            }
            encode_sequence(context, depth - 1, node, root, octets, state)
        }
        Node::SequenceOf {
            ref length,
            is_extensible,
            item,
        } => {
            encode_list_by(
                context,
                depth - 1,
                node,
                is_extensible,
                false,
                length,
                item,
                octets,
                state,
            )
        }
        Node::SetOf {
            ref length,
            is_extensible,
            item,
        } => {
            encode_list_by(
                context,
                depth - 1,
                node,
                is_extensible,
                true,
                length,
                item,
                octets,
                state,
            )
        }
        Node::Choice {
            alternatives,
            is_extensible,
            additions,
        } => {
            if is_extensible {
                return encode_extensible_choice(
                    context,
                    depth - 1,
                    node,
                    alternatives,
                    additions,
                    octets,
                    state,
                );
            }
            encode_choice(context, depth - 1, node, alternatives, octets, state)
        }
        Node::Open { inner } => { encode_open(context, depth - 1, node, inner, octets, state) }
    }
}

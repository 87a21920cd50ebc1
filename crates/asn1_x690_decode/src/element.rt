//! Decodes an element, and its contents octets by their type.

ghost use Rattle.std.specs.Prelude.{◌≡◌, ◌≤◌, ◌<◌, ◌^◌, ◌*◌, true, length, slice_get, Some, None, MatchOption};
ghost use Rattle.asn1_bits.specs.Bits.{bits};
ghost use Rattle.asn1_x690.specs.declared.tables.Identifier.{Identifier};
ghost use Rattle.asn1_x690_fields.specs.Outcomes.{IsWithin};
ghost use Rattle.asn1_x690_decode.specs.Tables.{types, elements};
ghost use Rattle.asn1_x690_decode.specs.Decoding.{AreContents, IsMoved, IsInside, ElementOutcome, ContentsOutcome};

use crate::context::Context;
use crate::tagged::{Element, Type, decode_by_tags};
use asn1_schema::{Node, Part};
use asn1_x690::{FaultKind, TypeTags};
use asn1_x690_fields::{State, fail, next_header, tags_in};

/// Returns the type at a node.
#[inline(always)]
fn node_at(nodes: &[Node], node: usize) -> Option<&Node>
    ensures { MatchOption result (None ≡ slice_get nodes.now node) (λ is. Some is.now ≡ slice_get nodes.now node) }
{
    if node < nodes.len() {
        Some(&nodes[node])
    } else {
        None
    }
}

/// Returns the tags of the type at a node.
#[inline(always)]
fn tags_at(types: &[TypeTags], node: usize) -> Option<&TypeTags>
    ensures { MatchOption result (None ≡ slice_get types.now node) (λ tags. Some tags.now ≡ slice_get types.now node) }
{
    if node < types.len() {
        Some(&types[node])
    } else {
        None
    }
}

/// Decodes an element that encodes a value of the type at a node. The value may be nested less deep
/// than `depth`.
#[inline(always)]
#[cycle(decoding)]
pub(crate) fn decode_element(
    context: &Context<'_>,
    depth: usize,
    node: usize,
    state: &mut State,
    parts: &mut [Part],
) -> bool
    requires size { 8 * length context.now.octets.now < 2 ^ 64 }
    requires within { IsWithin (bits context.now.octets.now) state.old }
    ensures moved { IsMoved (bits context.now.octets.now) state.old state.new }
    ensures some { result ≡ true → state.old.at < state.new.at }
    ensures did { ElementOutcome context.now (elements context.now depth node).encoding state.old state.new
        parts.old parts.new result }
{
    let start = state.at;
    let end = state.end;
    match next_header(context.octets, node, state) {
        None => false,
        Some(header) => {
            state.at = header.from;
            state.end = header.to;
            let element = Element {
                identifier: header.identifier,
                start,
            };
            let is_decoded = decode_contents(context, depth, node, &element, state, parts);
            state.end = end;
            is_decoded
        }
    }
}

/// Decodes the contents octets of an element as those of the type at a node. The value may be nested
/// less deep than `depth`.
#[inline(always)]
#[cycle(decoding)]
pub(crate) fn decode_contents(
    context: &Context<'_>,
    depth: usize,
    node: usize,
    element: &Element,
    state: &mut State,
    parts: &mut [Part],
) -> bool
    requires size { 8 * length context.now.octets.now < 2 ^ 64 }
    requires contents { AreContents (bits context.now.octets.now) state.old }
    requires before { element.now.start ≤ state.old.at }
    ensures moved { IsMoved (bits context.now.octets.now) state.old state.new }
    ensures all { result ≡ true → state.new.at ≡ state.old.end }
    ensures did { (id : Identifier)
        → IsInside (bits context.now.octets.now) element.now.start element.now.identifier id state.old
        → ContentsOutcome context.now ((types context.now depth node).contents id) state.old state.new
        parts.old parts.new result }
{
    if depth == 0 {
        fail(state, node, FaultKind::TooDeep);
        return false;
    }
    match node_at(context.tables.nodes, node) {
        None => {
            fail(state, node, FaultKind::NoNode);
            false
        }
        Some(is) => match tags_at(context.tags.types, node) {
            None => {
                fail(state, node, FaultKind::NoNode);
                false
            }
            Some(tags) => {
                let rows = tags_in(context.tags.tags, tags.tags);
                decode_by_tags(
                    context,
                    depth - 1,
                    &Type { node, is, tags },
                    rows,
                    element,
                    state,
                    parts,
                )
            }
        },
    }
}

//! Encodes a value of any type.

ghost use Rattle.std.specs.Prelude.{Option, ◌≡◌, ℕ, Bool, List, ◌-◌, ◌*◌, ◌%◌, ◌^◌, ◌<◌, length, true};
ghost use Rattle.asn1_x690_encode.specs.Encoding.{ContentsOutcome, ElementOutcome, HasType, contents_in, headed_in, types};
ghost use Rattle.asn1_x690_encode.specs.Kinds.{is_headed};

use crate::any::{AnyPart, encode_any};
use crate::choice::encode_choice;
use crate::context::{Context, node_at, tags_in, type_tags_at};
use crate::element::{encode_around, encode_tagged};
use crate::leaf::encode_leaf;
use crate::list::encode_list;
use crate::sequence::{encode_extensible_sequence, encode_sequence};
use asn1_schema::{MisfitKind, Node};
use asn1_x690::TypeTags;
use asn1_x690_fields::FoundIdentifier;
use asn1_x691_writers::{Writer, reject};

/// Returns whether the tags of a type are around a value that has its own header.
fn is_headed(is_any: bool, kind: &Node) -> bool
    ensures { result ≡ is_headed is_any kind.now }
{
    if is_any {
        return true;
    }
    match *kind {
        Node::Choice { .. } => true,
        Node::Open { .. } => true,
        _ => false,
    }
}

/// Encodes a value of the type at a node: writes an element to `octets` from the next bit of the
/// state on, which is the first of an octet, and takes its parts from the next one on. Returns its
/// identifier. Otherwise the state has the reason, and the next part is the one that does not fit. A
/// value may be nested less deep than `depth`.
#[inline(never)]
#[cycle(encoding)]
pub(crate) fn encode_node(
    context: &Context<'_>,
    depth: usize,
    node: usize,
    octets: &mut [u8],
    state: &mut Writer,
) -> Option<FoundIdentifier>
    requires size { 8 * length octets.old < 2 ^ 64 }
    requires source { 8 * length context.now.source.now < 2 ^ 64 }
    requires parts { length context.now.parts.now < 2 ^ 64 - 1 }
    requires whole { state.old.at % 8 ≡ 0 }
    ensures { ElementOutcome context.now (types context.now depth node) octets.old state.old octets.new state.new result }
{
    encode_node_here(context, depth, node, octets, state)
}

/// Encodes a value as [`encode_node`] does, inlined.
#[inline(always)]
#[cycle(encoding)]
pub(crate) fn encode_node_here(
    context: &Context<'_>,
    depth: usize,
    node: usize,
    octets: &mut [u8],
    state: &mut Writer,
) -> Option<FoundIdentifier>
    requires size { 8 * length octets.old < 2 ^ 64 }
    requires source { 8 * length context.now.source.now < 2 ^ 64 }
    requires parts { length context.now.parts.now < 2 ^ 64 - 1 }
    requires whole { state.old.at % 8 ≡ 0 }
    ensures { ElementOutcome context.now (types context.now depth node) octets.old state.old octets.new state.new result }
{
    if depth == 0 {
        reject(state, node, MisfitKind::TooDeep);
        return None;
    }
    let Some(kind) = node_at(context.tables.nodes, node) else {
        reject(state, node, MisfitKind::NoNode);
        return None;
    };
    let Some(types) = type_tags_at(context.tags.types, node) else {
        reject(state, node, MisfitKind::NoNode);
        return None;
    };
    let tags = tags_in(context.tags.tags, types.tags);
    if is_headed(types.is_any, kind) {
        return encode_around(context, depth - 1, node, kind, types, tags, octets, state);
    }
    encode_tagged(context, depth - 1, node, kind, types, tags, octets, state)
}

/// Encodes a value that has its own header.
#[cycle(encoding)]
pub(crate) fn encode_headed(
    context: &Context<'_>,
    depth: usize,
    node: usize,
    kind: &Node,
    types: &TypeTags,
    octets: &mut [u8],
    state: &mut Writer,
) -> Option<FoundIdentifier>
    requires size { 8 * length octets.old < 2 ^ 64 }
    requires source { 8 * length context.now.source.now < 2 ^ 64 }
    requires parts { length context.now.parts.now < 2 ^ 64 - 1 }
    requires whole { state.old.at % 8 ≡ 0 }
    requires kind { HasType context.now node kind.now types.now }
    ensures { ElementOutcome context.now (headed_in context.now depth node types.now kind.now) octets.old state.old octets.new state.new result }
{
    if types.is_any {
        return encode_any(context, node, AnyPart::Octets, octets, state);
    }
    match *kind {
        Node::Choice {
            alternatives,
            is_extensible,
            additions,
        } => encode_choice(
            context,
            depth,
            node,
            alternatives,
            is_extensible,
            additions,
            octets,
            state,
        ),
        Node::Open { inner } => encode_node(context, depth, inner, octets, state),
        _ => {
            reject(state, node, MisfitKind::NoNode);
            None
        }
    }
}

/// Encodes the contents of a type.
#[inline(always)]
#[cycle(encoding)]
pub(crate) fn encode_contents(
    context: &Context<'_>,
    depth: usize,
    node: usize,
    kind: &Node,
    types: &TypeTags,
    octets: &mut [u8],
    state: &mut Writer,
) -> bool
    requires size { 8 * length octets.old < 2 ^ 64 }
    requires source { 8 * length context.now.source.now < 2 ^ 64 }
    requires parts { length context.now.parts.now < 2 ^ 64 - 1 }
    requires whole { state.old.at % 8 ≡ 0 }
    requires kind { HasType context.now node kind.now types.now }
    ensures { ContentsOutcome context.now (contents_in context.now depth node types.now kind.now) octets.old state.old octets.new state.new result }
{
    match *kind {
        Node::Sequence {
            root,
            is_extensible,
            additions,
        } => {
            if is_extensible {
                return encode_extensible_sequence(
                    context, depth, node, root, additions, octets, state,
                );
            }
            encode_sequence(context, depth, node, root, octets, state)
        }
        Node::SequenceOf {
            length,
            is_extensible,
            item,
        } => encode_list(
            context,
            depth,
            node,
            false,
            is_extensible,
            length,
            item,
            octets,
            state,
        ),
        Node::SetOf {
            length,
            is_extensible,
            item,
        } => encode_list(
            context,
            depth,
            node,
            context.is_ordered,
            is_extensible,
            length,
            item,
            octets,
            state,
        ),
        _ => encode_leaf(context, node, kind, types, octets, state),
    }
}

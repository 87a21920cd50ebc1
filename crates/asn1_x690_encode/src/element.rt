//! Elements: identifier octets, a length, and contents octets (X.690 8.1), of the tags of a type
//! (8.14).

ghost use Rattle.std.specs.Prelude.{Option, ◌≡◌, ℕ, Bool, List, ◌+◌, ◌-◌, ◌*◌, ◌%◌, ◌^◌, ◌<◌, ◌≤◌, length};
ghost use Rattle.asn1_x690_encode.specs.Encoding.{BodyOutcome, ContentsOutcome, ElementOutcome, HasType, IsInnerOf, around_in, enclosed_in, headed_in, inner_in, inner_size, tagged_in};
ghost use Rattle.asn1_x690_encode.specs.Kinds.{is_structured};

use crate::context::{Context, first_tag};
use crate::first_tags::found;
use crate::inner::Inner;
use crate::lengths::{clear, is_cut, keep, reserved_at};
use crate::node::{encode_contents, encode_headed};
use asn1_schema::{MisfitKind, Node};
use asn1_x690::{Identifier, Tag, TypeTags};
use asn1_x690_fields::FoundIdentifier;
use asn1_x690_writers::{put_identifier, put_length_before};
use asn1_x691_writers::{Writer, after, leave, reject};

/// The number of bits from which on contents are not encoded: 2^64 - 136.
const MOST: usize = usize::MAX - 135;

/// Returns whether the contents of a type are elements.
fn is_structured(kind: &Node) -> bool
    ensures { result ≡ is_structured kind.now }
{
    match *kind {
        Node::Sequence { .. } => true,
        Node::SequenceOf { .. } => true,
        Node::SetOf { .. } => true,
        _ => false,
    }
}

/// Encodes an element of tags, the last of which is the type's own.
#[inline(always)]
#[cycle(encoding)]
pub(crate) fn encode_tagged(
    context: &Context<'_>,
    depth: usize,
    node: usize,
    kind: &Node,
    types: &TypeTags,
    tags: &[Tag],
    octets: &mut [u8],
    state: &mut Writer,
) -> Option<FoundIdentifier>
    requires size { 8 * length octets.old < 2 ^ 64 }
    requires source { 8 * length context.now.source.now < 2 ^ 64 }
    requires parts { length context.now.parts.now < 2 ^ 64 - 1 }
    requires whole { state.old.at % 8 ≡ 0 }
    requires kind { HasType context.now node kind.now types.now }
    requires few { length tags.now < 2 ^ 32 }
    ensures { ElementOutcome context.now (tagged_in context.now depth node types.now kind.now tags.now) octets.old state.old octets.new state.new result }
{
    match first_tag(tags) {
        None => {
            reject(state, node, MisfitKind::NoNode);
            None
        }
        Some((tag, rest)) => {
            if rest.is_empty() {
                let id = Identifier {
                    tag,
                    is_constructed: is_structured(kind),
                };
                return encode_enclosed(
                    context,
                    depth,
                    node,
                    id,
                    Inner::Own(kind, types),
                    octets,
                    state,
                );
            }
            let id = Identifier {
                tag,
                is_constructed: true,
            };
            encode_enclosed(
                context,
                depth,
                node,
                id,
                Inner::Tagged(kind, types, rest),
                octets,
                state,
            )
        }
    }
}

/// Encodes an element of tags, the last of which is the type's own, within an element of another tag.
#[inline(never)]
#[cycle(encoding)]
fn encode_tagged_within(
    context: &Context<'_>,
    depth: usize,
    node: usize,
    kind: &Node,
    types: &TypeTags,
    tags: &[Tag],
    octets: &mut [u8],
    state: &mut Writer,
) -> Option<FoundIdentifier>
    requires size { 8 * length octets.old < 2 ^ 64 }
    requires source { 8 * length context.now.source.now < 2 ^ 64 }
    requires parts { length context.now.parts.now < 2 ^ 64 - 1 }
    requires whole { state.old.at % 8 ≡ 0 }
    requires kind { HasType context.now node kind.now types.now }
    requires few { length tags.now < 2 ^ 32 }
    ensures { ElementOutcome context.now (tagged_in context.now depth node types.now kind.now tags.now) octets.old state.old octets.new state.new result }
{
    encode_tagged(context, depth, node, kind, types, tags, octets, state)
}

/// Encodes an element of tags around a value that has its own header.
#[inline(never)]
#[cycle(encoding)]
pub(crate) fn encode_around(
    context: &Context<'_>,
    depth: usize,
    node: usize,
    kind: &Node,
    types: &TypeTags,
    tags: &[Tag],
    octets: &mut [u8],
    state: &mut Writer,
) -> Option<FoundIdentifier>
    requires size { 8 * length octets.old < 2 ^ 64 }
    requires source { 8 * length context.now.source.now < 2 ^ 64 }
    requires parts { length context.now.parts.now < 2 ^ 64 - 1 }
    requires whole { state.old.at % 8 ≡ 0 }
    requires kind { HasType context.now node kind.now types.now }
    requires few { length tags.now < 2 ^ 32 }
    ensures { ElementOutcome context.now (around_in context.now depth node types.now kind.now tags.now) octets.old state.old octets.new state.new result }
{
    match first_tag(tags) {
        None => encode_headed(context, depth, node, kind, types, octets, state),
        Some((tag, rest)) => {
            let id = Identifier {
                tag,
                is_constructed: true,
            };
            encode_enclosed(
                context,
                depth,
                node,
                id,
                Inner::Around(kind, types, rest),
                octets,
                state,
            )
        }
    }
}

/// Encodes an element of an identifier.
#[inline(always)]
#[cycle(encoding)]
fn encode_enclosed(
    context: &Context<'_>,
    depth: usize,
    node: usize,
    id: Identifier,
    inner: Inner<'_>,
    octets: &mut [u8],
    state: &mut Writer,
) -> Option<FoundIdentifier>
    requires size { 8 * length octets.old < 2 ^ 64 }
    requires source { 8 * length context.now.source.now < 2 ^ 64 }
    requires parts { length context.now.parts.now < 2 ^ 64 - 1 }
    requires whole { state.old.at % 8 ≡ 0 }
    requires kind { IsInnerOf context.now node inner }
    requires few { inner_size inner < 2 ^ 32 }
    ensures { ElementOutcome context.now (enclosed_in context.now depth node id inner.entry) octets.old state.old octets.new state.new result }
{
    let start = put_identifier(octets, state.at, &id);
    let before = (start / 8).min(octets.len());
    let (_, tail) = octets.split_at_mut(before);
    match encode_body(context, depth, node, inner, tail, state) {
        None => None,
        Some(size) => {
            state.at = after(start, size);
            Some(found(id))
        }
    }
}

/// Encodes contents and their length before them. Returns how many bits both have.
#[inline(always)]
#[cycle(encoding)]
fn encode_body(
    context: &Context<'_>,
    depth: usize,
    node: usize,
    inner: Inner<'_>,
    octets: &mut [u8],
    state: &mut Writer,
) -> Option<usize>
    requires size { 8 * length octets.old < 2 ^ 64 }
    requires source { 8 * length context.now.source.now < 2 ^ 64 }
    requires parts { length context.now.parts.now < 2 ^ 64 - 1 }
    requires kind { IsInnerOf context.now node inner }
    requires few { inner_size inner < 2 ^ 32 }
    ensures { BodyOutcome context.now (inner_in context.now depth node inner.entry) state.old octets.new state.new result }
{
    if context.lengths.is_empty() {
        return encode_body_after_one(context, depth, node, inner, octets, state);
    }
    encode_body_by_lengths(context, depth, node, inner, octets, state)
}

/// Encodes contents after one octet, and their length before them.
#[inline(always)]
#[cycle(encoding)]
fn encode_body_after_one(
    context: &Context<'_>,
    depth: usize,
    node: usize,
    inner: Inner<'_>,
    octets: &mut [u8],
    state: &mut Writer,
) -> Option<usize>
    requires size { 8 * length octets.old < 2 ^ 64 }
    requires source { 8 * length context.now.source.now < 2 ^ 64 }
    requires parts { length context.now.parts.now < 2 ^ 64 - 1 }
    requires kind { IsInnerOf context.now node inner }
    requires few { inner_size inner < 2 ^ 32 }
    ensures { BodyOutcome context.now (inner_in context.now depth node inner.entry) state.old octets.new state.new result }
{
    let first = state.next;
    state.at = 8;
    if !encode_inner(context, depth, node, inner, octets, state) {
        return None;
    }
    let bits = state.at.saturating_sub(8);
    if bits >= MOST {
        state.next = first;
        leave(state, node);
        return None;
    }
    let width = put_length_before(octets, 1, bits / 8);
    Some(width + bits)
}

/// Encodes contents and their length, for which as many octets are reserved as an earlier run has found.
#[inline(always)]
#[cycle(encoding)]
fn encode_body_by_lengths(
    context: &Context<'_>,
    depth: usize,
    node: usize,
    inner: Inner<'_>,
    octets: &mut [u8],
    state: &mut Writer,
) -> Option<usize>
    requires size { 8 * length octets.old < 2 ^ 64 }
    requires source { 8 * length context.now.source.now < 2 ^ 64 }
    requires parts { length context.now.parts.now < 2 ^ 64 - 1 }
    requires kind { IsInnerOf context.now node inner }
    requires few { inner_size inner < 2 ^ 32 }
    ensures { BodyOutcome context.now (inner_in context.now depth node inner.entry) state.old octets.new state.new result }
{
    let reserved = reserved_at(context.lengths, state.next);
    encode_body_after(context, depth, node, inner, reserved, octets, state)
}

/// Encodes contents after `reserved` octets, and their length before them. The contents are moved if their
/// length takes another number of octets, which `lengths` receives.
#[inline(never)]
#[cycle(encoding)]
fn encode_body_after(
    context: &Context<'_>,
    depth: usize,
    node: usize,
    inner: Inner<'_>,
    reserved: usize,
    octets: &mut [u8],
    state: &mut Writer,
) -> Option<usize>
    requires size { 8 * length octets.old < 2 ^ 64 }
    requires source { 8 * length context.now.source.now < 2 ^ 64 }
    requires parts { length context.now.parts.now < 2 ^ 64 - 1 }
    requires kind { IsInnerOf context.now node inner }
    requires few { inner_size inner < 2 ^ 32 }
    requires some { 1 ≤ reserved }
    requires most { reserved ≤ 9 }
    ensures { BodyOutcome context.now (inner_in context.now depth node inner.entry) state.old octets.new state.new result }
{
    let first = state.next;
    state.at = 8 * reserved;
    if !encode_inner(context, depth, node, inner, octets, state) {
        return None;
    }
    let count = state.at.saturating_sub(8 * reserved);
    if count >= MOST {
        state.next = first;
        leave(state, node);
        return None;
    }
    let width = put_length_before(octets, reserved, count / 8);
    if is_cut(octets.len(), reserved, width / 8, count / 8) {
        state.next = first;
        return encode_body_again(context, depth, node, inner, octets, state);
    }
    keep(context.lengths, first, width / 8);
    Some(width + count)
}

/// Encodes contents and their length without what an earlier run has found: there is room for both, but
/// not after as many octets as were reserved.
#[cold]
#[inline(never)]
#[cycle(encoding)]
fn encode_body_again(
    context: &Context<'_>,
    depth: usize,
    node: usize,
    inner: Inner<'_>,
    octets: &mut [u8],
    state: &mut Writer,
) -> Option<usize>
    requires size { 8 * length octets.old < 2 ^ 64 }
    requires source { 8 * length context.now.source.now < 2 ^ 64 }
    requires parts { length context.now.parts.now < 2 ^ 64 - 1 }
    requires kind { IsInnerOf context.now node inner }
    requires few { inner_size inner < 2 ^ 32 }
    ensures { BodyOutcome context.now (inner_in context.now depth node inner.entry) state.old octets.new state.new result }
{
    clear(context.lengths);
    encode_body_after(context, depth, node, inner, 1, octets, state)
}

/// Encodes what an element encloses.
#[inline(always)]
#[cycle(encoding)]
fn encode_inner(
    context: &Context<'_>,
    depth: usize,
    node: usize,
    inner: Inner<'_>,
    octets: &mut [u8],
    state: &mut Writer,
) -> bool
    requires size { 8 * length octets.old < 2 ^ 64 }
    requires source { 8 * length context.now.source.now < 2 ^ 64 }
    requires parts { length context.now.parts.now < 2 ^ 64 - 1 }
    requires whole { state.old.at % 8 ≡ 0 }
    requires kind { IsInnerOf context.now node inner }
    requires few { inner_size inner < 2 ^ 32 }
    ensures { ContentsOutcome context.now (inner_in context.now depth node inner.entry) octets.old state.old octets.new state.new result }
{
    match inner {
        Inner::Own(kind, types) => encode_contents(
            context, depth, node, kind, types, octets, state,
        ),
        Inner::Tagged(kind, types, tags) => encode_tagged_within(
            context, depth, node, kind, types, tags, octets, state,
        ).is_some(),
        Inner::Around(kind, types, tags) => encode_around(
            context, depth, node, kind, types, tags, octets, state,
        ).is_some(),
    }
}

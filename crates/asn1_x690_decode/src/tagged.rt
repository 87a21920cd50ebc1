//! Decodes contents octets by the tags of their type (X.690 8.14).

ghost use Rattle.std.specs.Prelude.{◌≡◌, ◌≤◌, ◌<◌, ◌^◌, ◌*◌, true, false, length};
ghost use Rattle.asn1_bits.specs.Bits.{bits};
ghost use Rattle.asn1_x690.specs.declared.fault.FaultKind.TheVariants.{Extra};
ghost use Rattle.asn1_x690.specs.declared.tables.Identifier.{Identifier};
ghost use Rattle.asn1_x690.specs.TypeContents.{only_value};
ghost use Rattle.asn1_x690.specs.Der.{element};
ghost use Rattle.asn1_x690_fields.specs.Outcomes.{IsWithin};
ghost use Rattle.asn1_x690_decode.specs.Tables.{is_bare as is_bare_by, is_structured as is_structured_by, contents_by, bare_by, tagged_by};
ghost use Rattle.asn1_x690_decode.specs.Decoding.{AreContents, IsMoved, IsInside, ContentsOutcome};

use crate::choice::decode_choice;
use crate::context::Context;
use crate::element::decode_contents;
use crate::leaves::{decode_leaf, keep};
use crate::list::decode_list;
use crate::sequence::decode_sequence;
use asn1_schema::{Node, Part, Span};
use asn1_x690::{FaultKind, Tag, TypeTags};
use asn1_x690_fields::{FoundIdentifier, State, fail, is_identifier, next_header};

/// A type of the schema.
#[derive(Clone, Copy, Debug)]
pub(crate) struct Type<'s> {
    /// Its index in the table of nodes.
    pub node: usize,
    /// What it is.
    pub is: &'s Node,
    /// What else the rules require of it.
    pub tags: &'s TypeTags,
}

/// An element whose header was read.
#[derive(Clone, Copy, Debug)]
pub(crate) struct Element {
    /// The identifier.
    pub identifier: FoundIdentifier,
    /// The index of the first bit of the element.
    pub start: usize,
}

/// Returns whether a type has no contents of its own: ANY, an open type or a CHOICE.
#[inline(always)]
fn is_bare(of: &Type<'_>) -> bool
    ensures { result ≡ is_bare_by of.now.tags.now.is_any of.now.is.now }
{
    of.tags.is_any || matches!(*of.is, Node::Choice { .. } | Node::Open { .. })
}

/// Returns whether the contents octets of a type are elements.
#[inline(always)]
fn is_structured(is: &Node) -> bool
    ensures { result ≡ is_structured_by is.now }
{
    matches!(
        *is,
        Node::Sequence { .. } | Node::SequenceOf { .. } | Node::SetOf { .. }
    )
}

/// Decodes the contents octets of an element as those of a type in tags.
#[inline(always)]
#[cycle(decoding)]
pub(crate) fn decode_by_tags(
    context: &Context<'_>,
    depth: usize,
    of: &Type<'_>,
    tags: &[Tag],
    element: &Element,
    state: &mut State,
    parts: &mut [Part],
) -> bool
    requires size { 8 * length context.now.octets.now < 2 ^ 64 }
    requires contents { AreContents (bits context.now.octets.now) state.old }
    requires before { element.now.start ≤ state.old.at }
    ensures moved { IsMoved (bits context.now.octets.now) state.old state.new }
    ensures all { result ≡ true → state.new.at ≡ state.old.end }
    ensures did { (id : Identifier)
        → IsInside (bits context.now.octets.now) element.now.start element.now.identifier id state.old
        → ContentsOutcome context.now ((tagged_by context.now depth of.now.node of.now.tags.now of.now.is.now tags.now).contents id)
        state.old state.new parts.old parts.new result }
{
    match tags.split_first() {
        None => {
            if is_bare(of) {
                return decode_bare(context, depth, of, element, state, parts);
            }
            fail(state, of.node, FaultKind::NoNode);
            false
        }
        Some((tag, others)) => {
            if others.is_empty() && !is_bare(of) {
                if !is_identifier(&element.identifier, *tag, is_structured(of.is)) {
                    fail(state, of.node, FaultKind::OtherTag);
                    return false;
                }
                return decode_own(context, depth, of, state, parts);
            }
            if !is_identifier(&element.identifier, *tag, true) {
                fail(state, of.node, FaultKind::OtherTag);
                return false;
            }
            decode_in_tag(context, depth, of, others, state, parts)
        }
    }
}

/// Decodes the contents octets of an EXPLICIT tag: an element, and nothing after it. Copies the type,
/// so that the caller can keep its own in registers.
#[inline(always)]
#[cycle(decoding)]
fn decode_in_tag(
    context: &Context<'_>,
    depth: usize,
    of: &Type<'_>,
    tags: &[Tag],
    state: &mut State,
    parts: &mut [Part],
) -> bool
    requires size { 8 * length context.now.octets.now < 2 ^ 64 }
    requires contents { AreContents (bits context.now.octets.now) state.old }
    ensures moved { IsMoved (bits context.now.octets.now) state.old state.new }
    ensures all { result ≡ true → state.new.at ≡ state.old.end }
    ensures did { ContentsOutcome context.now
        (only_value Extra of.now.node (element of.now.node
        (tagged_by context.now depth of.now.node of.now.tags.now of.now.is.now tags.now))).contents
        state.old state.new parts.old parts.new result }
{
    let own = *of;
    decode_in_tag_of(context, depth, &own, tags, state, parts)
}

/// Decodes the contents octets of an EXPLICIT tag.
#[inline(never)]
#[cycle(decoding)]
fn decode_in_tag_of(
    context: &Context<'_>,
    depth: usize,
    of: &Type<'_>,
    tags: &[Tag],
    state: &mut State,
    parts: &mut [Part],
) -> bool
    requires size { 8 * length context.now.octets.now < 2 ^ 64 }
    requires within { IsWithin (bits context.now.octets.now) state.old }
    ensures moved { IsMoved (bits context.now.octets.now) state.old state.new }
    ensures all { result ≡ true → state.new.at ≡ state.old.end }
    ensures did { ContentsOutcome context.now
        (only_value Extra of.now.node (element of.now.node
        (tagged_by context.now depth of.now.node of.now.tags.now of.now.is.now tags.now))).contents
        state.old state.new parts.old parts.new result }
{
    let start = state.at;
    let end = state.end;
    match next_header(context.octets, of.node, state) {
        None => false,
        Some(header) => {
            state.at = header.from;
            state.end = header.to;
            let element = Element {
                identifier: header.identifier,
                start,
            };
            let is_decoded = decode_by_tags(context, depth, of, tags, &element, state, parts);
            state.end = end;
            if !is_decoded {
                return false;
            }
            if state.at < end {
                fail(state, of.node, FaultKind::Extra);
                return false;
            }
            true
        }
    }
}

/// Decodes the contents octets of an element as those of a type without contents of its own. An element
/// of ANY is kept. Otherwise copies the type and the element, so that the caller can keep its own in
/// registers.
#[inline(always)]
#[cycle(decoding)]
fn decode_bare(
    context: &Context<'_>,
    depth: usize,
    of: &Type<'_>,
    element: &Element,
    state: &mut State,
    parts: &mut [Part],
) -> bool
    requires size { 8 * length context.now.octets.now < 2 ^ 64 }
    requires contents { AreContents (bits context.now.octets.now) state.old }
    requires before { element.now.start ≤ state.old.at }
    ensures moved { IsMoved (bits context.now.octets.now) state.old state.new }
    ensures all { result ≡ true → state.new.at ≡ state.old.end }
    ensures did { (id : Identifier)
        → IsInside (bits context.now.octets.now) element.now.start element.now.identifier id state.old
        → ContentsOutcome context.now ((bare_by context.now depth of.now.node of.now.tags.now.is_any of.now.is.now).contents id)
        state.old state.new parts.old parts.new result }
{
    if of.tags.is_any {
        let whole = Span {
            at: element.start,
            count: state.end - element.start,
        };
        return keep(Part::Octets(whole), state, parts);
    }
    let own = *of;
    let copy = *element;
    decode_bare_of(context, depth, &own, &copy, state, parts)
}

/// Decodes the contents octets of an element as those of a CHOICE, or of a type in an open type.
#[inline(never)]
#[cycle(decoding)]
fn decode_bare_of(
    context: &Context<'_>,
    depth: usize,
    of: &Type<'_>,
    element: &Element,
    state: &mut State,
    parts: &mut [Part],
) -> bool
    requires size { 8 * length context.now.octets.now < 2 ^ 64 }
    requires contents { AreContents (bits context.now.octets.now) state.old }
    requires before { element.now.start ≤ state.old.at }
    requires known { of.now.tags.now.is_any ≡ false }
    ensures moved { IsMoved (bits context.now.octets.now) state.old state.new }
    ensures all { result ≡ true → state.new.at ≡ state.old.end }
    ensures did { (id : Identifier)
        → IsInside (bits context.now.octets.now) element.now.start element.now.identifier id state.old
        → ContentsOutcome context.now ((bare_by context.now depth of.now.node of.now.tags.now.is_any of.now.is.now).contents id)
        state.old state.new parts.old parts.new result }
{
    match *of.is {
        Node::Choice {
            alternatives,
            is_extensible,
            additions,
        } => {
            decode_choice(
                context,
                depth,
                of.node,
                alternatives,
                is_extensible,
                additions,
                element,
                state,
                parts,
            )
        }
        Node::Open { inner } => decode_contents(context, depth, inner, element, state, parts),
        _ => {
            fail(state, of.node, FaultKind::NoNode);
            false
        }
    }
}

/// Decodes contents octets as those of a type that has its own.
#[inline(always)]
#[cycle(decoding)]
fn decode_own(
    context: &Context<'_>,
    depth: usize,
    of: &Type<'_>,
    state: &mut State,
    parts: &mut [Part],
) -> bool
    requires size { 8 * length context.now.octets.now < 2 ^ 64 }
    requires contents { AreContents (bits context.now.octets.now) state.old }
    ensures moved { IsMoved (bits context.now.octets.now) state.old state.new }
    ensures all { result ≡ true → state.new.at ≡ state.old.end }
    ensures did { ContentsOutcome context.now (contents_by context.now depth of.now.node of.now.tags.now of.now.is.now).contents
        state.old state.new parts.old parts.new result }
{
    match *of.is {
        Node::Sequence {
            root,
            is_extensible,
            additions,
        } => {
            decode_sequence(
                context,
                depth,
                of.node,
                root,
                is_extensible,
                additions,
                state,
                parts,
            )
        }
        Node::SequenceOf {
            length,
            is_extensible,
            item,
        } => {
            decode_list(
                context,
                depth,
                of.node,
                false,
                is_extensible,
                length,
                item,
                state,
                parts,
            )
        }
        Node::SetOf {
            length,
            is_extensible,
            item,
        } => {
            decode_list(
                context,
                depth,
                of.node,
                true,
                is_extensible,
                length,
                item,
                state,
                parts,
            )
        }
        _ => decode_leaf(context, of, state, parts),
    }
}

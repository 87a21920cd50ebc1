//! Decodes a CHOICE (X.690 8.13).

ghost use Rattle.std.specs.Prelude.{◌≡◌, ◌≤◌, ◌<◌, ◌^◌, ◌*◌, ◌+◌, ◌∷◌, ℕ, true, length, slice_get};
ghost use Rattle.asn1_bits.specs.Bits.{bits};
ghost use Rattle.asn1_schema.specs.Pieces.{Chosen, Unknown, Parts};
ghost use Rattle.asn1_schema.specs.Encodings.{mapped};
ghost use Rattle.asn1_schema.specs.declared.misfit.MisfitKind.TheVariants.{OtherPart};
ghost use Rattle.asn1_x690.specs.declared.fault.FaultKind.TheVariants.{OtherTag};
ghost use Rattle.asn1_x690.specs.declared.tables.Identifier.{Identifier};
ghost use Rattle.asn1_x690.specs.Der.{alternatives, any_value, choice_by};
ghost use Rattle.asn1_x690_fields.specs.Outcomes.{IsIdentifier};
ghost use Rattle.asn1_x690_decode.specs.Tables.{tables_of, types};
ghost use Rattle.asn1_x690_decode.specs.Alternatives.{IsAlternative, IsBelow};
ghost use Rattle.asn1_x690_decode.specs.Decoding.{AreContents, IsMoved, IsInside, ContentsOutcome};

use crate::context::Context;
use crate::element::decode_contents;
use crate::leaves::keep;
use crate::members::{first_at, member_at};
use crate::tagged::Element;
use asn1_schema::{Part, Rows, Span, push_part};
use asn1_x690::FaultKind;
use asn1_x690_fields::{FoundIdentifier, State, fail, has_tag};

/// An alternative that an element may be.
#[derive(Clone, Copy, Debug)]
pub(crate) enum Alternative {
    /// This one, and its type.
    Found {
        /// Its index among the alternatives.
        index: usize,
        /// The type.
        node: usize,
    },
    /// One that the tables do not have precedes it.
    Missing,
    /// None.
    Other,
}

/// Returns the first of the alternatives that may begin with the tag of an identifier.
fn find_alternative(context: &Context<'_>, rows: Rows, found: &FoundIdentifier) -> Alternative
    ensures few { IsBelow (2 ^ 32) result }
    ensures is { (id : Identifier) → IsIdentifier found.now id → IsAlternative context.now id rows.from rows.count result }
{
    for index in 0..rows.count as usize {
        let Some(member) = member_at(context.tables.members, rows.from, index) else {
            return Alternative::Missing;
        };
        let Some(first) = first_at(context.tags.members, rows.from, index) else {
            return Alternative::Missing;
        };
        if has_tag(context.tags.tags, *first, found) {
            return Alternative::Found {
                index,
                node: member.node,
            };
        }
    }
    Alternative::Other
}

/// Decodes contents octets as an alternative.
#[cycle(decoding)]
fn decode_alternative(
    context: &Context<'_>,
    depth: usize,
    index: usize,
    node: usize,
    element: &Element,
    state: &mut State,
    parts: &mut [Part],
) -> bool
    requires size { 8 * length context.now.octets.now < 2 ^ 64 }
    requires contents { AreContents (bits context.now.octets.now) state.old }
    requires before { element.now.start ≤ state.old.at }
    ensures moved { IsMoved (bits context.now.octets.now) state.old state.new }
    ensures all { result ≡ true → state.new.at ≡ state.old.end }
    ensures did { (id : Identifier)
        → IsInside (bits context.now.octets.now) element.now.start element.now.identifier id state.old
        → ContentsOutcome context.now
        (mapped (λ (ts : Parts). Chosen index ∷ ts) ((types context.now depth node).contents id))
        state.old state.new parts.old parts.new result }
{
    state.count = push_part(parts, state.count, Part::Chosen(index));
    decode_contents(context, depth, node, element, state, parts)
}

/// Decodes contents octets as an alternative of the root, or otherwise of the additions.
#[cycle(decoding)]
pub(crate) fn decode_choice(
    context: &Context<'_>,
    depth: usize,
    node: usize,
    root: Rows,
    is_extensible: bool,
    known: Rows,
    element: &Element,
    state: &mut State,
    parts: &mut [Part],
) -> bool
    requires size { 8 * length context.now.octets.now < 2 ^ 64 }
    requires contents { AreContents (bits context.now.octets.now) state.old }
    requires before { element.now.start ≤ state.old.at }
    ensures moved { IsMoved (bits context.now.octets.now) state.old state.new }
    ensures all { result ≡ true → state.new.at ≡ state.old.end }
    ensures did { (id : Identifier)
        → IsInside (bits context.now.octets.now) element.now.start element.now.identifier id state.old
        → ContentsOutcome context.now
        ((choice_by (types context.now depth) (tables_of context.now) node is_extensible root known).contents id)
        state.old state.new parts.old parts.new result }
{
    match find_alternative(context, root, &element.identifier) {
        Alternative::Found { index, node: inner } => {
            decode_alternative(context, depth, index, inner, element, state, parts)
        }
        Alternative::Missing => {
            fail(state, node, FaultKind::NoNode);
            false
        }
        Alternative::Other => {
            if !is_extensible {
                fail(state, node, FaultKind::OtherTag);
                return false;
            }
            decode_added(
                context, depth, node, root.count, known, element, state, parts,
            )
        }
    }
}

/// Decodes contents octets as an alternative of the additions, which follow `count` of the root. An
/// element that is none is kept.
#[cycle(decoding)]
fn decode_added(
    context: &Context<'_>,
    depth: usize,
    node: usize,
    count: u32,
    known: Rows,
    element: &Element,
    state: &mut State,
    parts: &mut [Part],
) -> bool
    requires size { 8 * length context.now.octets.now < 2 ^ 64 }
    requires contents { AreContents (bits context.now.octets.now) state.old }
    requires before { element.now.start ≤ state.old.at }
    ensures moved { IsMoved (bits context.now.octets.now) state.old state.new }
    ensures all { result ≡ true → state.new.at ≡ state.old.end }
    ensures did { (id : Identifier)
        → IsInside (bits context.now.octets.now) element.now.start element.now.identifier id state.old
        → ContentsOutcome context.now
        ((alternatives (types context.now depth) (tables_of context.now) node known.count count known.from
        (any_value Unknown node)).contents id)
        state.old state.new parts.old parts.new result }
{
    match find_alternative(context, known, &element.identifier) {
        Alternative::Found { index, node: inner } => {
            let index = count as usize + index;
            decode_alternative(context, depth, index, inner, element, state, parts)
        }
        Alternative::Missing => {
            fail(state, node, FaultKind::NoNode);
            false
        }
        Alternative::Other => {
            let whole = Span {
                at: element.start,
                count: state.end - element.start,
            };
            keep(Part::Unknown(whole), state, parts)
        }
    }
}

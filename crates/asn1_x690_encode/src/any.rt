//! Any element: a value of ANY (X.690 8.15), or one that the schema does not know.

ghost use Rattle.std.specs.Prelude.{◌≡◌, ◌∷◌, ◌+◌, ◌-◌, ◌*◌, ◌^◌, ◌<◌, ◌≤◌, length, MatchOption};
ghost use Rattle.asn1_bits.specs.Bits.{bits};
ghost use Rattle.asn1_schema.specs.PiecesOfParts.{bits_of};
ghost use Rattle.asn1_x690.specs.Der.{any_value};
ghost use Rattle.asn1_x690_encode.specs.Any.{IsAnyOf, IsOneElement, IsNoElement, IsHeldBy, piece_by};
ghost use Rattle.asn1_x690_encode.specs.Encoding.{ElementOutcome, tape};

use crate::context::{Context, part_at};
use asn1_schema::{MisfitKind, Part, Span};
use asn1_x690::FaultKind;
use asn1_x690_fields::{FoundIdentifier, State, next_header};
use asn1_x690_writers::put_span;
use asn1_x691_writers::{Writer, clip, leave, reject};

/// The part that has an element of any type.
#[derive(Clone, Copy, Debug)]
pub(crate) enum AnyPart {
    /// A value of ANY.
    Octets,
    /// A value that the schema does not know.
    Unknown,
}

/// What a part holds of any element.
#[derive(Clone, Copy, Debug)]
enum HeldElement {
    /// Its bits.
    Bits(Span),
    /// Octets in fragments.
    InFragments,
    /// None.
    Other,
}

/// Returns what a part holds of any element.
fn held_by(kind: AnyPart, part: Part) -> HeldElement
    ensures { IsHeldBy kind part result }
{
    match kind {
        AnyPart::Octets => match part {
            Part::Octets(span) => HeldElement::Bits(span),
            Part::OctetsInFragments(_) => HeldElement::InFragments,
            _ => HeldElement::Other,
        },
        AnyPart::Unknown => match part {
            Part::Unknown(span) => HeldElement::Bits(span),
            _ => HeldElement::Other,
        },
    }
}

/// Returns the identifier of the element that bits of a source are, if they are one.
fn element_in(source: &[u8], span: Span) -> Option<FoundIdentifier>
    requires source { 8 * length source.now < 2 ^ 64 }
    requires inside { span.at + span.count ≤ 8 * length source.now }
    ensures { MatchOption result (IsNoElement (bits_of (bits source.now) span)) (λ found. IsOneElement found (bits_of (bits source.now) span)) }
{
    let mut state = State {
        at: span.at,
        end: span.at + span.count,
        count: 0,
        node: 0,
        kind: FaultKind::Short,
    };
    match next_header(source, 0, &mut state) {
        None => None,
        Some(header) => {
            if state.at < state.end {
                return None;
            }
            Some(header.identifier)
        }
    }
}

/// Writes the element that a part holds. Returns its identifier.
#[inline(always)]
pub(crate) fn encode_any(
    context: &Context<'_>,
    node: usize,
    kind: AnyPart,
    octets: &mut [u8],
    state: &mut Writer,
) -> Option<FoundIdentifier>
    requires size { 8 * length octets.old < 2 ^ 64 }
    requires source { 8 * length context.now.source.now < 2 ^ 64 }
    requires parts { length context.now.parts.now < 2 ^ 64 - 1 }
    requires kind { IsAnyOf context.now node kind }
    ensures { ElementOutcome context.now (any_value (piece_by kind) node) octets.old state.old octets.new state.new result }
{
    match part_at(context.parts, state.next) {
        None => {
            reject(state, node, MisfitKind::NoPart);
            None
        }
        Some(part) => match held_by(kind, *part) {
            HeldElement::Bits(span) => { encode_element(context, node, kind, span, octets, state) }
            HeldElement::InFragments => {
                leave(state, node);
                None
            }
            HeldElement::Other => {
                reject(state, node, MisfitKind::OtherPart);
                None
            }
        },
    }
}

/// Writes the element that bits of the source are. Returns its identifier.
fn encode_element(
    context: &Context<'_>,
    node: usize,
    kind: AnyPart,
    span: Span,
    octets: &mut [u8],
    state: &mut Writer,
) -> Option<FoundIdentifier>
    requires size { 8 * length octets.old < 2 ^ 64 }
    requires source { 8 * length context.now.source.now < 2 ^ 64 }
    requires parts { length context.now.parts.now < 2 ^ 64 - 1 }
    requires inside { state.old.next < length context.now.parts.now }
    requires next { tape context.now state.old.next ≡ piece_by kind (bits_of (bits context.now.source.now) span) ∷ tape context.now (state.old.next + 1) }
    ensures { ElementOutcome context.now (any_value (piece_by kind) node) octets.old state.old octets.new state.new result }
{
    let inside = clip(context.source, span);
    match element_in(context.source, inside) {
        None => {
            reject(state, node, MisfitKind::NoEncoding);
            None
        }
        Some(found) => {
            state.at = put_span(octets, state.at, context.source, inside.at, inside.count);
            state.next += 1;
            Some(found)
        }
    }
}

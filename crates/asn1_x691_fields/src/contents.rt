//! Octets that are kept by their contents: identifiers (X.691 24, 25).

ghost use Rattle.std.specs.Prelude.{◌≡◌, ◌≤◌, ◌<◌, ◌^◌, ◌*◌, ◌+◌, ◌%◌, ◌∷◌, [], List, true, false, length};
ghost use Rattle.asn1_bits.specs.Bits.{bits};
ghost use Rattle.asn1_schema.specs.declared.tables.Range.{Range};
ghost use Rattle.asn1_schema.specs.PiecesOfParts.{piece_of, bits_of};
ghost use Rattle.asn1_x691.specs.Contents.{IsObjectIdentifier, IsRelativeIdentifier};
ghost use Rattle.asn1_x691.specs.Leaves.{contents};
ghost use Rattle.asn1_x691_fields.specs.Octets.{octets_in, are_series as are_in_series};
ghost use Rattle.asn1_x691_fields.specs.Outcomes.{IsWithin, IsOnward, IsRead, IsPlaced};

use crate::bits::number_at;
use crate::state::{State, fail};
use crate::strings::next_octets;
use asn1_schema::{Part, Span};
use asn1_x691::FaultKind;

/// Reads an OBJECT IDENTIFIER (X.691 24, X.690 8.19). The part has its contents octets.
pub fn next_object_identifier(
    octets: &[u8],
    is_aligned: bool,
    node: usize,
    state: &mut State,
) -> Option<Part>
    requires size { 8 * length octets.now < 2 ^ 64 }
    requires within { IsWithin (bits octets.now) state.old }
    requires placed { IsPlaced is_aligned state.old }
    ensures onward { IsOnward (bits octets.now) state.old state.new }
    ensures read { (ranges : List Range) → IsRead (λ at. (contents 0 is_aligned node IsObjectIdentifier at).encoding)
        (λ p. piece_of ranges (bits octets.now) p ∷ []) (bits octets.now) state.old state.new result }
{
    let contents = next_octets(octets, is_aligned, node, state)?;
    if !are_subidentifiers(octets, contents) {
        fail(state, node, FaultKind::Contents);
        return None;
    }
    Some(Part::Octets(contents))
}

/// Reads a RELATIVE-OID (X.691 25, X.690 8.20). The part has its contents octets.
pub fn next_relative_identifier(
    octets: &[u8],
    is_aligned: bool,
    node: usize,
    state: &mut State,
) -> Option<Part>
    requires size { 8 * length octets.now < 2 ^ 64 }
    requires within { IsWithin (bits octets.now) state.old }
    requires placed { IsPlaced is_aligned state.old }
    ensures onward { IsOnward (bits octets.now) state.old state.new }
    ensures read { (ranges : List Range) → IsRead (λ at. (contents 0 is_aligned node IsRelativeIdentifier at).encoding)
        (λ p. piece_of ranges (bits octets.now) p ∷ []) (bits octets.now) state.old state.new result }
{
    let span = next_octets(octets, is_aligned, node, state)?;
    if !are_subidentifiers(octets, span) {
        fail(state, node, FaultKind::Contents);
        return None;
    }
    Some(Part::Octets(span))
}

/// Returns whether octets of a message are one or more subidentifiers (X.690 8.19.2, 8.20.2). They
/// may begin at any bit, and must be inside the message.
pub fn are_subidentifiers(message: &[u8], span: Span) -> bool
    requires size { 8 * length message.now < 2 ^ 64 }
    requires inside { span.at + span.count ≤ 8 * length message.now }
    requires whole { span.count % 8 ≡ 0 }
    ensures yes { result ≡ true → IsRelativeIdentifier (bits_of (bits message.now) span) }
    ensures no { result ≡ false → IsRelativeIdentifier (bits_of (bits message.now) span) → ⊥ }
{
    span.count > 0 && are_series(message, span)
}

/// Returns whether octets of a message are subidentifiers one after another.
fn are_series(message: &[u8], span: Span) -> bool
    requires size { 8 * length message.now < 2 ^ 64 }
    requires inside { span.at + span.count ≤ 8 * length message.now }
    requires whole { span.count % 8 ≡ 0 }
    ensures { result ≡ are_in_series false (octets_in (bits message.now) span) }
{
    let mut begun = false;
    let mut at = span.at;
    let mut left = span.count / 8;
    while left > 0 {
        left -= 1;
        let octet = number_at(message, at, 8);
        if !begun && octet == 128 {
            return false;
        }
        begun = octet >= 128;
        at += 8;
    }
    !begun
}

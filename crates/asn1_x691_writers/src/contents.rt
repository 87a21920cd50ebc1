//! Octets that are kept by their contents: REAL, identifiers and UTF-8 (X.691 15, 24, 25, 30.6).

ghost use Rattle.asn1_x691.specs.Fragments.{most_fragments};
ghost use Rattle.std.specs.Prelude.{◌≡◌, ◌≢◌, ◌+◌, ◌*◌, ◌%◌, ◌^◌, ◌<◌, ◌≤◌, true, false, length, List};
ghost use Rattle.asn1_bits.specs.Bits.{bits};
ghost use Rattle.asn1_schema.specs.declared.tables.Range.{Range};
ghost use Rattle.asn1_schema.specs.PiecesOfParts.{bits_of};
ghost use Rattle.asn1_x691.specs.Leaves.{contents};
ghost use Rattle.asn1_x691_writers.specs.declared.contents.ContentsKind.TheVariants.{Utf8};
ghost use Rattle.asn1_x691_writers.specs.Put.{IsInFragments, IsPut, piece_in};
ghost use Rattle.asn1_x691_writers.specs.Validity.{IsValid};

use crate::spans::clip;
use crate::state::{Writer, leave, reject};
use crate::unknown::put_octets;
use crate::utf8_in_fragments::put_utf8_in_fragments;
use asn1_schema::{MisfitKind, Part, Span};
use asn1_x691_fields::{are_subidentifiers, is_real_at, is_utf8};

/// What octets are.
#[derive(Clone, Copy, Debug, PartialEq, Eq)]
pub enum ContentsKind {
    /// The contents octets of an OBJECT IDENTIFIER (X.690 8.19).
    ObjectIdentifier,
    /// The contents octets of a RELATIVE-OID (X.690 8.20).
    RelativeIdentifier,
    /// UTF-8 (X.690 8.23.10).
    Utf8,
    /// The contents octets of a REAL (X.690 8.5, 11.3).
    Real,
}

/// Writes octets of a kind after their number (X.691 15, 24, 25, 30.6). Only UTF-8 may be in fragments.
pub fn put_contents(
    octets: &mut [u8],
    is_aligned: bool,
    kind: ContentsKind,
    source: &[u8],
    part: Part,
    node: usize,
    state: &mut Writer,
) -> bool
    requires size { 8 * length octets.old < 2 ^ 64 }
    requires source { 8 * length source.now < 2 ^ 64 }
    requires whole { kind ≢ Utf8 → IsInFragments part → ⊥ }
    ensures { (ranges : List Range) → IsPut is_aligned (contents most_fragments is_aligned node (IsValid kind)) (piece_in ranges source.now part) octets.old state.old octets.new
        state.new result }
{
    match part {
        Part::Octets(span) => {
            let inside = clip(source, span);
            if !is_valid(kind, source, inside) {
                return reject(state, node, MisfitKind::NoEncoding);
            }
            state.at = put_octets(
                octets,
                state.at,
                is_aligned,
                source,
                inside.at,
                inside.count / 8,
            );
            true
        }
        Part::OctetsInFragments(fragments) => match kind {
            ContentsKind::Utf8 => {
                put_utf8_in_fragments(octets, is_aligned, source, fragments, node, state)
            }
            _ => leave(state, node),
        },
        _ => reject(state, node, MisfitKind::OtherPart),
    }
}

/// Returns whether bits of a source, which must be inside it, are octets of a kind.
pub fn is_valid(kind: ContentsKind, source: &[u8], span: Span) -> bool
    requires source { 8 * length source.now < 2 ^ 64 }
    requires inside { span.at + span.count ≤ 8 * length source.now }
    ensures whole { result ≡ true → span.count % 8 ≡ 0 }
    ensures yes { result ≡ true → IsValid kind (bits_of (bits source.now) span) }
    ensures no { result ≡ false → IsValid kind (bits_of (bits source.now) span) → ⊥ }
{
    if span.count % 8 > 0 {
        return false;
    }
    match kind {
        ContentsKind::ObjectIdentifier => are_subidentifiers(source, span),
        ContentsKind::RelativeIdentifier => are_subidentifiers(source, span),
        ContentsKind::Utf8 => is_utf8(source, span),
        ContentsKind::Real => is_real_at(source, span),
    }
}

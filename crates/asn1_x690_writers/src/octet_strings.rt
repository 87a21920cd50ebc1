//! OCTET STRING (X.690 8.7), and octets that are kept by their contents: identifiers (8.19, 8.20) and
//! UTF-8 (8.23.10).

ghost use Rattle.std.specs.Prelude.{◌≡◌, List, ◌+◌, ◌*◌, ◌%◌, ◌^◌, ◌<◌, ◌≤◌, true, false, length};
ghost use Rattle.asn1_schema.specs.declared.tables.Range.{Range};
ghost use Rattle.asn1_bits.specs.Bits.{bits};
ghost use Rattle.asn1_schema.specs.Pieces.{Octets};
ghost use Rattle.asn1_schema.specs.PiecesOfParts.{bits_of, joined};
ghost use Rattle.asn1_x690.specs.Der.{always};
ghost use Rattle.asn1_x690.specs.Leaves.{AreOctets, AreSized, IsKept, leaf_of};
ghost use Rattle.asn1_x690_writers.specs.Put.{AreTooMany, IsPut, LeftAt};
ghost use Rattle.asn1_x691_writers.specs.Put.{IsInFragments, piece_in};
ghost use Rattle.asn1_x691_writers.specs.Validity.{IsValid};

use crate::octets::put_span;
use crate::sizes::has_size;
use asn1_schema::{Fragments, Length, MisfitKind, Part, Span};
use asn1_x690_leaves::are_subidentifiers_here;
use asn1_x691_writers::{
    ContentsKind, Writer, clip, is_valid, leave, put_fragments, reject, size_of_fragments,
};

/// Writes octets of a size that the constraint permits.
#[inline(always)]
pub(crate) fn put_octet_string(
    octets: &mut [u8],
    size: Length,
    is_extensible: bool,
    source: &[u8],
    part: Part,
    node: usize,
    state: &mut Writer,
) -> bool
    requires size { 8 * length octets.old < 2 ^ 64 }
    requires source { 8 * length source.now < 2 ^ 64 }
    ensures { (ranges : List Range) → IsPut (LeftAt (AreTooMany (piece_in ranges source.now part)) node state.new) (leaf_of AreOctets (AreSized is_extensible size) Octets node) (piece_in ranges source.now part)
        octets.old state.old octets.new state.new result }
{
    match part {
        Part::Octets(span) => {
            let inside = clip(source, span);
            if inside.count % 8 > 0 {
                return reject(state, node, MisfitKind::NoEncoding);
            }
            if !has_size(size, is_extensible, inside.count / 8) {
                return reject(state, node, MisfitKind::NoEncoding);
            }
            state.at = put_span(octets, state.at, source, inside.at, inside.count);
            true
        }
        Part::OctetsInFragments(fragments) => {
            put_joined(octets, size, is_extensible, source, fragments, node, state)
        }
        _ => reject(state, node, MisfitKind::OtherPart),
    }
}

/// Writes octets in fragments, of a size that the constraint permits. They must have fewer than 2^64
/// bits.
fn put_joined(
    octets: &mut [u8],
    size: Length,
    is_extensible: bool,
    source: &[u8],
    fragments: Fragments,
    node: usize,
    state: &mut Writer,
) -> bool
    requires size { 8 * length octets.old < 2 ^ 64 }
    requires source { 8 * length source.now < 2 ^ 64 }
    ensures { IsPut (LeftAt (AreTooMany (Octets (joined 8 (bits source.now) fragments))) node state.new) (leaf_of AreOctets (AreSized is_extensible size) Octets node)
        (Octets (joined 8 (bits source.now) fragments)) octets.old state.old octets.new state.new result }
{
    let count = size_of_fragments(source, 8, fragments);
    if count >= 1u128 << 64 {
        return leave(state, node);
    }
    if count % 8 > 0 {
        return reject(state, node, MisfitKind::NoEncoding);
    }
    if !has_size(size, is_extensible, (count / 8) as usize) {
        return reject(state, node, MisfitKind::NoEncoding);
    }
    state.at = put_fragments(octets, state.at, source, fragments, count as usize);
    true
}

/// Returns whether bits of a source are octets of this kind.
#[inline(always)]
fn is_of_kind(kind: ContentsKind, source: &[u8], span: Span) -> bool
    requires size { 8 * length source.now < 2 ^ 64 }
    requires inside { span.at + span.count ≤ 8 * length source.now }
    ensures whole { result ≡ true → span.count % 8 ≡ 0 }
    ensures yes { result ≡ true → IsValid kind (bits_of (bits source.now) span) }
    ensures no { result ≡ false → IsValid kind (bits_of (bits source.now) span) → ⊥ }
{
    if span.count % 8 > 0 {
        return is_valid(kind, source, span);
    }
    match kind {
        ContentsKind::ObjectIdentifier => are_subidentifiers_here(source, span),
        ContentsKind::RelativeIdentifier => are_subidentifiers_here(source, span),
        ContentsKind::Utf8 => is_valid(kind, source, span),
        ContentsKind::Real => is_valid(kind, source, span),
    }
}

/// Writes octets of this kind.
#[inline(always)]
pub(crate) fn put_kept(
    octets: &mut [u8],
    kind: ContentsKind,
    source: &[u8],
    part: Part,
    node: usize,
    state: &mut Writer,
) -> bool
    requires size { 8 * length octets.old < 2 ^ 64 }
    requires source { 8 * length source.now < 2 ^ 64 }
    ensures { (ranges : List Range) → IsPut (LeftAt (IsInFragments part) node state.new) (leaf_of (IsKept (IsValid kind)) always Octets node) (piece_in ranges source.now part)
        octets.old state.old octets.new state.new result }
{
    match part {
        Part::Octets(span) => {
            let inside = clip(source, span);
            if !is_of_kind(kind, source, inside) {
                return reject(state, node, MisfitKind::NoEncoding);
            }
            state.at = put_span(octets, state.at, source, inside.at, inside.count);
            true
        }
        Part::OctetsInFragments(_) => leave(state, node),
        _ => reject(state, node, MisfitKind::OtherPart),
    }
}

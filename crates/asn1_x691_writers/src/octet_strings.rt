//! OCTET STRING (X.691 17).

ghost use Rattle.asn1_x691.specs.Fragments.{most_fragments};
ghost use Rattle.std.specs.Prelude.{◌≡◌, ◌+◌, ◌*◌, ◌^◌, ◌<◌, ◌≤◌, true, length, List};
ghost use Rattle.asn1_bits.specs.Bits.{bits};
ghost use Rattle.asn1_schema.specs.declared.tables.Range.{Range};
ghost use Rattle.asn1_schema.specs.Pieces.{Octets};
ghost use Rattle.asn1_schema.specs.PiecesOfParts.{bits_of, joined as joined_in};
ghost use Rattle.asn1_schema.specs.TypeEncodings.{leaf};
ghost use Rattle.asn1_x691.specs.Leaves.{octet_string};
ghost use Rattle.asn1_x691.specs.Strings.{string_of};
ghost use Rattle.asn1_x691_writers.specs.Put.{IsPut, piece_in};

use crate::booleans::put_bit;
use crate::joined::{joined_of, size_of};
use crate::joined_strings::{put_added_joined, put_joined_of};
use crate::sized_strings::{is_of_root, put_added_string, put_string_of};
use crate::spans::clip;
use crate::state::{Writer, reject};
use asn1_schema::{Fragments, Length, MisfitKind, Part, Span};

/// Writes an OCTET STRING by its size constraint (X.691 17.2 to 17.8).
pub fn put_octet_string(
    octets: &mut [u8],
    is_aligned: bool,
    size: Length,
    is_extensible: bool,
    source: &[u8],
    part: Part,
    node: usize,
    state: &mut Writer,
) -> bool
    requires size { 8 * length octets.old < 2 ^ 64 }
    requires source { 8 * length source.now < 2 ^ 64 }
    ensures { (ranges : List Range) → IsPut is_aligned (octet_string most_fragments is_aligned node size is_extensible) (piece_in ranges source.now part) octets.old state.old octets.new
        state.new result }
{
    match part {
        Part::Octets(span) => {
            let inside = clip(source, span);
            if is_extensible {
                return put_extensible(octets, is_aligned, size, source, inside, node, state);
            }
            put_octets_of_root(octets, is_aligned, size, source, inside, node, state)
        }
        Part::OctetsInFragments(fragments) => {
            if is_extensible {
                return put_extensible_fragments(
                    octets, is_aligned, size, source, fragments, node, state,
                );
            }
            put_fragments_of_root(octets, is_aligned, size, source, fragments, node, state)
        }
        _ => reject(state, node, MisfitKind::OtherPart),
    }
}

/// Writes octets of a size of the root.
fn put_octets_of_root(
    octets: &mut [u8],
    is_aligned: bool,
    size: Length,
    source: &[u8],
    span: Span,
    node: usize,
    state: &mut Writer,
) -> bool
    requires size { 8 * length octets.old < 2 ^ 64 }
    requires source { 8 * length source.now < 2 ^ 64 }
    requires inside { span.at + span.count ≤ 8 * length source.now }
    ensures { IsPut is_aligned (leaf (string_of most_fragments is_aligned 8 size node) Octets node) (Octets (bits_of (bits source.now) span)) octets.old
        state.old octets.new state.new result }
{
    if span.count % 8 > 0 {
        return reject(state, node, MisfitKind::NoEncoding);
    }
    let count = span.count / 8;
    if !is_of_root(size, count) {
        return reject(state, node, MisfitKind::NoEncoding);
    }
    state.at = put_string_of(
        octets, state.at, is_aligned, 8, size, source, span.at, count,
    );
    true
}

/// Writes octets after their extension bit.
fn put_extensible(
    octets: &mut [u8],
    is_aligned: bool,
    size: Length,
    source: &[u8],
    span: Span,
    node: usize,
    state: &mut Writer,
) -> bool
    requires size { 8 * length octets.old < 2 ^ 64 }
    requires source { 8 * length source.now < 2 ^ 64 }
    requires inside { span.at + span.count ≤ 8 * length source.now }
    ensures { IsPut is_aligned (octet_string most_fragments is_aligned node size true) (Octets (bits_of (bits source.now) span)) octets.old
        state.old octets.new state.new result }
{
    if span.count % 8 > 0 {
        return reject(state, node, MisfitKind::NoEncoding);
    }
    let count = span.count / 8;
    if is_of_root(size, count) {
        let root = put_bit(octets, state.at, false);
        state.at = put_string_of(octets, root, is_aligned, 8, size, source, span.at, count);
        return true;
    }
    let added = put_bit(octets, state.at, true);
    state.at = put_added_string(octets, added, is_aligned, 8, source, span.at, count);
    true
}

/// Writes octets in fragments, of a size of the root.
fn put_fragments_of_root(
    octets: &mut [u8],
    is_aligned: bool,
    size: Length,
    source: &[u8],
    fragments: Fragments,
    node: usize,
    state: &mut Writer,
) -> bool
    requires size { 8 * length octets.old < 2 ^ 64 }
    requires source { 8 * length source.now < 2 ^ 64 }
    ensures { IsPut is_aligned (leaf (string_of most_fragments is_aligned 8 size node) Octets node)
        (Octets (joined_in 8 (bits source.now) fragments)) octets.old state.old octets.new state.new result }
{
    let joined = joined_of(source, 8, fragments);
    let total = size_of(source, &joined);
    if total % 8 > 0 {
        return reject(state, node, MisfitKind::NoEncoding);
    }
    let count = (total / 8) as usize;
    if !is_of_root(size, count) {
        return reject(state, node, MisfitKind::NoEncoding);
    }
    state.at = put_joined_of(octets, state.at, is_aligned, size, source, &joined, count);
    true
}

/// Writes octets in fragments after their extension bit.
fn put_extensible_fragments(
    octets: &mut [u8],
    is_aligned: bool,
    size: Length,
    source: &[u8],
    fragments: Fragments,
    node: usize,
    state: &mut Writer,
) -> bool
    requires size { 8 * length octets.old < 2 ^ 64 }
    requires source { 8 * length source.now < 2 ^ 64 }
    ensures { IsPut is_aligned (octet_string most_fragments is_aligned node size true) (Octets (joined_in 8 (bits source.now) fragments))
        octets.old state.old octets.new state.new result }
{
    let joined = joined_of(source, 8, fragments);
    let total = size_of(source, &joined);
    if total % 8 > 0 {
        return reject(state, node, MisfitKind::NoEncoding);
    }
    let count = (total / 8) as usize;
    if is_of_root(size, count) {
        let root = put_bit(octets, state.at, false);
        state.at = put_joined_of(octets, root, is_aligned, size, source, &joined, count);
        return true;
    }
    let added = put_bit(octets, state.at, true);
    state.at = put_added_joined(octets, added, is_aligned, source, &joined, count);
    true
}

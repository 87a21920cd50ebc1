//! BIT STRING (X.691 16).

ghost use Rattle.asn1_x691.specs.Fragments.{most_fragments};
ghost use Rattle.std.specs.Prelude.{◌≡◌, ◌+◌, ◌-◌, ◌*◌, ◌^◌, ◌<◌, ◌≤◌, true, false, length, List};
ghost use Rattle.asn1_bits.specs.Bits.{bits, number};
ghost use Rattle.asn1_schema.specs.declared.tables.Range.{Range};
ghost use Rattle.asn1_schema.specs.Pieces.{Bits};
ghost use Rattle.asn1_schema.specs.PiecesOfParts.{bits_of, bits_at};
ghost use Rattle.asn1_schema.specs.TypeEncodings.{leaf};
ghost use Rattle.asn1_x691.specs.Leaves.{AreTrimmed, bits_by, bit_string, least_of as least_in};
ghost use Rattle.asn1_x691.specs.Strings.{string_of};
ghost use Rattle.asn1_x691_writers.specs.Put.{HasManyBits, IsPut, piece_in};

use crate::bits::read_few;
use crate::bits_in_fragments::put_bits_in_fragments;
use crate::booleans::put_bit;
use crate::sized_strings::{is_of_root, put_added_string, put_string_of};
use crate::spans::clip;
use crate::state::{Writer, reject};
use asn1_schema::{Length, MisfitKind, Part, Span};

/// Writes a BIT STRING by its size constraint (X.691 16.2 to 16.11). One in fragments must have fewer than
/// 2^64 bits.
pub fn put_bit_string(
    octets: &mut [u8],
    is_aligned: bool,
    size: Length,
    is_extensible: bool,
    has_names: bool,
    source: &[u8],
    part: Part,
    node: usize,
    state: &mut Writer,
) -> bool
    requires size { 8 * length octets.old < 2 ^ 64 }
    requires source { 8 * length source.now < 2 ^ 64 }
    requires few { HasManyBits source.now part → ⊥ }
    ensures { (ranges : List Range) → IsPut is_aligned (bit_string most_fragments is_aligned node size is_extensible has_names) (piece_in ranges source.now part) octets.old state.old
        octets.new state.new result }
{
    match part {
        Part::Bits(span) => {
            let inside = clip(source, span);
            if is_extensible {
                return put_extensible(
                    octets, is_aligned, size, has_names, source, inside, node, state,
                );
            }
            put_bits_of_root(
                octets, is_aligned, size, has_names, source, inside, node, state,
            )
        }
        Part::BitsInFragments(fragments) => put_bits_in_fragments(
            octets,
            is_aligned,
            size,
            is_extensible,
            has_names,
            source,
            fragments,
            node,
            state,
        ),
        _ => reject(state, node, MisfitKind::OtherPart),
    }
}

/// Writes bits of a size of the root.
fn put_bits_of_root(
    octets: &mut [u8],
    is_aligned: bool,
    size: Length,
    has_names: bool,
    source: &[u8],
    span: Span,
    node: usize,
    state: &mut Writer,
) -> bool
    requires size { 8 * length octets.old < 2 ^ 64 }
    requires source { 8 * length source.now < 2 ^ 64 }
    requires inside { span.at + span.count ≤ 8 * length source.now }
    ensures { IsPut is_aligned (leaf (bits_by is_aligned node has_names size (string_of most_fragments is_aligned 1 size node)) Bits node)
        (Bits (bits_of (bits source.now) span)) octets.old state.old octets.new state.new result }
{
    if !is_of_root(size, span.count) {
        return reject(state, node, MisfitKind::NoEncoding);
    }
    if !are_permitted(source, size, has_names, span) {
        return reject(state, node, MisfitKind::NoEncoding);
    }
    state.at = put_string_of(
        octets, state.at, is_aligned, 1, size, source, span.at, span.count,
    );
    true
}

/// Writes bits after their extension bit.
fn put_extensible(
    octets: &mut [u8],
    is_aligned: bool,
    size: Length,
    has_names: bool,
    source: &[u8],
    span: Span,
    node: usize,
    state: &mut Writer,
) -> bool
    requires size { 8 * length octets.old < 2 ^ 64 }
    requires source { 8 * length source.now < 2 ^ 64 }
    requires inside { span.at + span.count ≤ 8 * length source.now }
    ensures { IsPut is_aligned (bit_string most_fragments is_aligned node size true has_names) (Bits (bits_of (bits source.now) span)) octets.old
        state.old octets.new state.new result }
{
    let is_root = is_of_root(size, span.count);
    if !are_permitted(source, size, has_names, span) {
        return reject(state, node, MisfitKind::NoEncoding);
    }
    if is_root {
        let root = put_bit(octets, state.at, false);
        state.at = put_string_of(
            octets, root, is_aligned, 1, size, source, span.at, span.count,
        );
        return true;
    }
    let added = put_bit(octets, state.at, true);
    state.at = put_added_string(octets, added, is_aligned, 1, source, span.at, span.count);
    true
}

/// Returns the least size that a constraint permits.
pub(crate) fn least_of(size: Length) -> usize
    ensures { result ≡ least_in size }
{
    match size {
        Length::AtLeast { least } => least,
        Length::Between { least, range: _ } => least as usize,
    }
}

/// Returns whether bits have no names, or are as few as their names permit (X.691 16.2, 16.3).
fn are_permitted(source: &[u8], size: Length, has_names: bool, span: Span) -> bool
    requires source { 8 * length source.now < 2 ^ 64 }
    requires inside { span.at + span.count ≤ 8 * length source.now }
    ensures permitted { result ≡ true → has_names ≡ true → AreTrimmed size (bits_of (bits source.now) span) }
    ensures forbidden { result ≡ false → (has_names ≡ true) × (AreTrimmed size (bits_of (bits source.now) span) → ⊥) }
{
    if !has_names {
        return true;
    }
    are_trimmed(source, size, span)
}

/// Returns whether bits are as few as the size permits, or end in a 1.
fn are_trimmed(source: &[u8], size: Length, span: Span) -> bool
    requires source { 8 * length source.now < 2 ^ 64 }
    requires inside { span.at + span.count ≤ 8 * length source.now }
    ensures yes { result ≡ true → AreTrimmed size (bits_of (bits source.now) span) }
    ensures no { result ≡ false → AreTrimmed size (bits_of (bits source.now) span) → ⊥ }
{
    let least = least_of(size);
    if span.count <= least {
        return span.count == least;
    }
    last_bit(source, span) == 1
}

/// Returns the last bit of a span.
fn last_bit(source: &[u8], span: Span) -> u64
    requires source { 8 * length source.now < 2 ^ 64 }
    requires some { 0 < span.count }
    requires inside { span.at + span.count ≤ 8 * length source.now }
    ensures { result ≡ number (bits_at (bits source.now) (span.at + span.count - 1) 1) }
{
    read_few(source, span.at + (span.count - 1), 1)
}

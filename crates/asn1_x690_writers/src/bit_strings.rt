//! BIT STRING (X.690 8.6, 11.2).

ghost use Rattle.std.specs.Prelude.{List, ◌+◌, ◌*◌, ◌^◌, ◌<◌, ◌≤◌, length};
ghost use Rattle.asn1_bits.specs.Bits.{bits};
ghost use Rattle.asn1_schema.specs.declared.tables.Range.{Range};
ghost use Rattle.asn1_schema.specs.Pieces.{Bits};
ghost use Rattle.asn1_schema.specs.PiecesOfParts.{bits_of};
ghost use Rattle.asn1_x690.specs.Leaves.{AreTrimmed, HasSize, IsBitString, leaf_of};
ghost use Rattle.asn1_x690_writers.specs.Put.{AreTooManyBits, IsPut, LeftAt};
ghost use Rattle.asn1_x690_writers.specs.Strings.{IsStringWritten};
ghost use Rattle.asn1_x691_writers.specs.Put.{piece_in};

use crate::bits_in_fragments::put_bits_in_fragments;
use crate::octets::put_span;
use crate::sizes::has_size;
use asn1_schema::{Length, MisfitKind, Part, Span};
use asn1_x690_leaves::are_bits_permitted;
use asn1_x691_writers::{Writer, clip, put_number, reject};

/// Writes how many bits of the last octet are unused, the bits, and zeros for the unused ones.
/// Returns the index after them.
fn put_string(octets: &mut [u8], at: usize, source: &[u8], span: Span) -> usize
    requires size { 8 * length octets.old < 2 ^ 64 }
    requires inside { span.at + span.count ≤ 8 * length source.now }
    ensures { IsStringWritten (bits_of (bits source.now) span) octets.old at octets.new result }
{
    let unused = (8 - span.count % 8) % 8;
    let first = put_number(octets, at, unused as u64, 8);
    let end = put_span(octets, first, source, span.at, span.count);
    put_number(octets, end, 0, unused)
}

/// Writes bits of a size that the constraint permits, which are as few as their names permit.
pub(crate) fn put_bit_string(
    octets: &mut [u8],
    size: Length,
    is_extensible: bool,
    has_names: bool,
    source: &[u8],
    part: Part,
    node: usize,
    state: &mut Writer,
) -> bool
    requires size { 8 * length octets.old < 2 ^ 64 }
    requires source { 8 * length source.now < 2 ^ 64 }
    ensures { (ranges : List Range) → IsPut (LeftAt (AreTooManyBits (piece_in ranges source.now part)) node state.new) (leaf_of IsBitString (λ bits. HasSize is_extensible size (length bits) × AreTrimmed has_names size bits) Bits node)
        (piece_in ranges source.now part) octets.old state.old octets.new state.new result }
{
    match part {
        Part::Bits(span) => {
            let inside = clip(source, span);
            if !has_size(size, is_extensible, inside.count) {
                return reject(state, node, MisfitKind::NoEncoding);
            }
            if !are_bits_permitted(source, has_names, size, inside) {
                return reject(state, node, MisfitKind::NoEncoding);
            }
            state.at = put_string(octets, state.at, source, inside);
            true
        }
        Part::BitsInFragments(fragments) => {
            put_bits_in_fragments(
                octets,
                size,
                is_extensible,
                has_names,
                source,
                fragments,
                node,
                state,
            )
        }
        _ => reject(state, node, MisfitKind::OtherPart),
    }
}

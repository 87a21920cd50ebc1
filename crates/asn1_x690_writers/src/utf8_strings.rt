//! UTF8String (X.690 8.23.10).

ghost use Rattle.std.specs.Prelude.{◌≡◌, List, ◌+◌, ◌*◌, ◌^◌, ◌<◌, ◌≤◌, true, false, length};
ghost use Rattle.std.specs.Str.{IsUtf8};
ghost use Rattle.asn1_bits.specs.Bits.{bits};
ghost use Rattle.asn1_schema.specs.declared.tables.Range.{Range};
ghost use Rattle.asn1_schema.specs.CharactersOfParts.{numbers_in};
ghost use Rattle.asn1_schema.specs.Pieces.{Octets};
ghost use Rattle.asn1_schema.specs.PiecesOfParts.{joined};
ghost use Rattle.asn1_x690.specs.Der.{always};
ghost use Rattle.asn1_x690.specs.Leaves.{IsKept, IsUtf8Text, leaf_of};
ghost use Rattle.asn1_x690_writers.specs.Fragments.{bits_left};
ghost use Rattle.asn1_x690_writers.specs.Put.{AreTooMany, IsPut, LeftAt};
ghost use Rattle.asn1_x691_writers.specs.Put.{piece_in};

use crate::fragments::{Rest, all_of, put_first, skip};
use crate::octets::put_span;
use asn1_schema::{Fragments, MisfitKind, Part};
use asn1_x691_fields::text_len;
use asn1_x691_writers::{
    ContentsKind, Writer, clip, is_valid, leave, put_fragments, reject, size_of_fragments,
};

/// The number of octets that are examined together. A character has at most four.
const WINDOW: usize = 64;

/// Writes UTF-8.
pub(crate) fn put_utf8_string(
    octets: &mut [u8],
    source: &[u8],
    part: Part,
    node: usize,
    state: &mut Writer,
) -> bool
    requires size { 8 * length octets.old < 2 ^ 64 }
    requires source { 8 * length source.now < 2 ^ 64 }
    ensures { (ranges : List Range) → IsPut (LeftAt (AreTooMany (piece_in ranges source.now part)) node state.new) (leaf_of (IsKept IsUtf8Text) always Octets node) (piece_in ranges source.now part)
        octets.old state.old octets.new state.new result }
{
    match part {
        Part::Octets(span) => {
            let inside = clip(source, span);
            if !is_valid(ContentsKind::Utf8, source, inside) {
                return reject(state, node, MisfitKind::NoEncoding);
            }
            state.at = put_span(octets, state.at, source, inside.at, inside.count);
            true
        }
        Part::OctetsInFragments(fragments) => put_joined(octets, source, fragments, node, state),
        _ => reject(state, node, MisfitKind::OtherPart),
    }
}

/// Writes UTF-8 in fragments. It must have fewer than 2^64 bits.
fn put_joined(
    octets: &mut [u8],
    source: &[u8],
    fragments: Fragments,
    node: usize,
    state: &mut Writer,
) -> bool
    requires size { 8 * length octets.old < 2 ^ 64 }
    requires source { 8 * length source.now < 2 ^ 64 }
    ensures { IsPut (LeftAt (AreTooMany (Octets (joined 8 (bits source.now) fragments))) node state.new) (leaf_of (IsKept IsUtf8Text) always Octets node)
        (Octets (joined 8 (bits source.now) fragments)) octets.old state.old octets.new state.new result }
{
    let count = size_of_fragments(source, 8, fragments);
    if count >= 1u128 << 64 {
        return leave(state, node);
    }
    if count % 8 > 0 {
        return reject(state, node, MisfitKind::NoEncoding);
    }
    if !are_utf8(source, fragments, (count / 8) as usize) {
        return reject(state, node, MisfitKind::NoEncoding);
    }
    state.at = put_fragments(octets, state.at, source, fragments, count as usize);
    true
}

/// Returns whether `count` octets in fragments are UTF-8.
fn are_utf8(source: &[u8], fragments: Fragments, count: usize) -> bool
    requires source { 8 * length source.now < 2 ^ 64 }
    requires all { 8 * count ≡ length (joined 8 (bits source.now) fragments) }
    requires few { 8 * count < 2 ^ 64 }
    ensures yes { result ≡ true → IsUtf8Text (joined 8 (bits source.now) fragments) }
    ensures no { result ≡ false → IsUtf8Text (joined 8 (bits source.now) fragments) → ⊥ }
{
    let mut rest = all_of(source, 8, fragments);
    let mut at = 0;
    while at < count {
        let text = front_len(source, rest, count - at);
        if text == 0 {
            return false;
        }
        rest = skip(source, 8, rest, 8 * text);
        at += text;
    }
    true
}

/// Returns how many of `count` octets that are left are UTF-8, of those that a window holds. Returns
/// 0 if they do not begin with a character.
fn front_len(source: &[u8], rest: Rest, count: usize) -> usize
    requires source { 8 * length source.now < 2 ^ 64 }
    requires inside { rest.head.at + rest.head.count ≤ 8 * length source.now }
    requires all { 8 * count ≡ length (bits_left 8 (bits source.now) rest) }
    requires some { 0 < count }
    ensures few { result ≤ count }
    ensures text { IsUtf8 (numbers_in 8 result (bits_left 8 (bits source.now) rest)) }
    ensures none { result ≡ 0 → IsUtf8 (numbers_in 8 count (bits_left 8 (bits source.now) rest)) → ⊥ }
{
    let mut window = [0u8; WINDOW];
    let (octets, _) = window.split_at_mut(count.min(WINDOW));
    copy_octets(source, rest, octets);
    text_len(octets)
}

/// Copies the first octets that are left. There must be as many.
fn copy_octets(source: &[u8], rest: Rest, octets: &mut [u8])
    requires size { 8 * length octets.old < 2 ^ 64 }
    requires source { 8 * length source.now < 2 ^ 64 }
    requires inside { rest.head.at + rest.head.count ≤ 8 * length source.now }
    requires within { 8 * length octets.old ≤ length (bits_left 8 (bits source.now) rest) }
    ensures { octets.new ≡ numbers_in 8 (length octets.old) (bits_left 8 (bits source.now) rest) }
{
    let count = 8 * octets.len();
    put_first(octets, 0, source, 8, rest, count);
}

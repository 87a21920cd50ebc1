//! UTF-8 in fragments (X.691 11.9.3.8, 30.6).

ghost use Rattle.std.specs.Prelude.{◌≡◌, ◌+◌, ◌-◌, ◌*◌, ◌%◌, ◌^◌, ◌<◌, ◌≤◌, true, false, length, drop};
ghost use Rattle.std.specs.Str.{IsUtf8};
ghost use Rattle.asn1_bits.specs.Bits.{bits};
ghost use Rattle.asn1_schema.specs.CharactersOfParts.{numbers_in};
ghost use Rattle.asn1_schema.specs.Pieces.{Octets};
ghost use Rattle.asn1_schema.specs.PiecesOfParts.{joined as joined_in};
ghost use Rattle.asn1_x691.specs.Contents.{IsUtf8Text};
ghost use Rattle.asn1_x691.specs.Fragments.{most_fragments};
ghost use Rattle.asn1_x691.specs.Leaves.{contents};
ghost use Rattle.asn1_x691_writers.specs.Joined.{IsInside, bits_in};
ghost use Rattle.asn1_x691_writers.specs.Put.{IsPut};

use crate::joined::{Joined, joined_of, put_joined, size_of};
use crate::joined_strings::put_joined_units;
use crate::state::{Writer, reject};
use asn1_schema::{Fragments, MisfitKind};
use asn1_x691_fields::text_len;

/// The number of octets that are examined together. A character has at most four.
const WINDOW: usize = 64;

/// Writes UTF-8 in fragments after the number of its octets (X.691 30.6).
pub fn put_utf8_in_fragments(
    octets: &mut [u8],
    is_aligned: bool,
    source: &[u8],
    fragments: Fragments,
    node: usize,
    state: &mut Writer,
) -> bool
    requires size { 8 * length octets.old < 2 ^ 64 }
    requires source { 8 * length source.now < 2 ^ 64 }
    ensures { IsPut is_aligned (contents most_fragments is_aligned node IsUtf8Text) (Octets (joined_in 8 (bits source.now) fragments)) octets.old state.old
        octets.new state.new result }
{
    let joined = joined_of(source, 8, fragments);
    let total = size_of(source, &joined);
    if !is_utf8(source, &joined, total) {
        return reject(state, node, MisfitKind::NoEncoding);
    }
    let count = (total / 8) as usize;
    state.at = put_joined_units(octets, state.at, is_aligned, source, &joined, count);
    true
}

/// Returns whether `total` bits are octets that are UTF-8.
fn is_utf8(source: &[u8], joined: &Joined, total: u128) -> bool
    requires source { 8 * length source.now < 2 ^ 64 }
    requires inside { IsInside (bits source.now) joined.now }
    requires few { total < 2 ^ 67 }
    requires all { total ≡ length (bits_in (bits source.now) joined.now) }
    ensures whole { result ≡ true → total % 8 ≡ 0 }
    ensures yes { result ≡ true → IsUtf8Text (bits_in (bits source.now) joined.now) }
    ensures no { result ≡ false → IsUtf8Text (bits_in (bits source.now) joined.now) → ⊥ }
{
    if total % 8 > 0 {
        return false;
    }
    are_utf8(source, joined, (total / 8) as usize)
}

/// Returns whether `count` octets are UTF-8.
fn are_utf8(source: &[u8], joined: &Joined, count: usize) -> bool
    requires source { 8 * length source.now < 2 ^ 64 }
    requires inside { IsInside (bits source.now) joined.now }
    requires all { 8 * count ≡ length (bits_in (bits source.now) joined.now) }
    ensures yes { result ≡ true → IsUtf8Text (bits_in (bits source.now) joined.now) }
    ensures no { result ≡ false → IsUtf8Text (bits_in (bits source.now) joined.now) → ⊥ }
{
    let mut at = 0;
    while at < count {
        let text = front_len(source, joined, count, at);
        if text == 0 {
            return false;
        }
        at += text;
    }
    true
}

/// Returns how many of the octets from an index on are UTF-8, of those that a window holds. Returns 0 if they do
/// not begin with a character.
fn front_len(source: &[u8], joined: &Joined, count: usize, at: usize) -> usize
    requires source { 8 * length source.now < 2 ^ 64 }
    requires inside { IsInside (bits source.now) joined.now }
    requires all { 8 * count ≡ length (bits_in (bits source.now) joined.now) }
    requires some { at < count }
    ensures few { at + result ≤ count }
    ensures text { IsUtf8 (numbers_in 8 result (drop (8 * at) (bits_in (bits source.now) joined.now))) }
    ensures none { result ≡ 0 → IsUtf8 (numbers_in 8 (count - at) (drop (8 * at) (bits_in (bits source.now) joined.now))) → ⊥ }
{
    let mut window = [0u8; WINDOW];
    let (octets, _) = window.split_at_mut((count - at).min(WINDOW));
    copy_octets(source, joined, at, octets);
    text_len(octets)
}

/// Copies octets from an index on. They must be within the fragments, and fewer than 2^61.
fn copy_octets(source: &[u8], joined: &Joined, at: usize, octets: &mut [u8])
    requires size { 8 * length octets.old < 2 ^ 64 }
    requires source { 8 * length source.now < 2 ^ 64 }
    requires inside { IsInside (bits source.now) joined.now }
    requires within { 8 * at + 8 * length octets.old ≤ length (bits_in (bits source.now) joined.now) }
    ensures { octets.new ≡ numbers_in 8 (length octets.old) (drop (8 * at) (bits_in (bits source.now) joined.now)) }
{
    let count = 8 * octets.len();
    put_joined(octets, 0, source, joined, 8 * at as u128, count);
}

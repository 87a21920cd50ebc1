//! UTF-8 of a message in fragments (X.691 11.9.3.8). A character may begin in one fragment and end in the next.

ghost use Rattle.std.specs.Prelude.{◌≡◌, ◌≤◌, ◌<◌, ◌^◌, ◌*◌, ◌+◌, ◌-◌, true, false, length, drop};
ghost use Rattle.std.specs.Str.{IsUtf8};
ghost use Rattle.asn1_bits.specs.Bits.{bits};
ghost use Rattle.asn1_schema.specs.CharactersOfParts.{numbers_in};
ghost use Rattle.asn1_schema.specs.PiecesOfParts.{joined};
ghost use Rattle.asn1_x691.specs.Contents.{IsUtf8Text};
ghost use Rattle.asn1_x691_fields.specs.Fragments.{AreInside};

use crate::fragment_octets::FragmentOctets;
use crate::long_strings::are_in_one_piece;
use crate::utf8_texts::{WINDOW, is_utf8, text_len};
use asn1_schema::Fragments;

/// Returns whether `count` octets of a message, which may be in fragments, are UTF-8.
#[inline(always)]
pub(crate) fn is_utf8_in_fragments(message: &[u8], fragments: Fragments, count: usize) -> bool
    requires size { 8 * length message.now < 2 ^ 64 }
    requires inside { AreInside 8 (bits message.now) fragments }
    requires all { 8 * count ≡ length (joined 8 (bits message.now) fragments) }
    ensures yes { result ≡ true → IsUtf8Text (joined 8 (bits message.now) fragments) }
    ensures no { result ≡ false → IsUtf8Text (joined 8 (bits message.now) fragments) → ⊥ }
{
    if are_in_one_piece(fragments) {
        return is_utf8(message, fragments.last);
    }
    are_utf8(&FragmentOctets {
        octets: message,
        fragments,
        count,
    })
}

/// Returns whether octets in fragments are UTF-8.
fn are_utf8(source: &FragmentOctets<'_>) -> bool
    ensures yes { result ≡ true → IsUtf8Text (joined 8 (bits source.now.octets.now) source.now.fragments) }
    ensures no { result ≡ false → IsUtf8Text (joined 8 (bits source.now.octets.now) source.now.fragments) → ⊥ }
{
    let mut at = 0;
    while at < source.count {
        let count = front_len(source, at);
        if count == 0 {
            return false;
        }
        at += count;
    }
    true
}

/// Returns how many of the octets from an index on are UTF-8, of those that a window holds. Returns 0 if they do
/// not begin with a character.
fn front_len(source: &FragmentOctets<'_>, at: usize) -> usize
    requires { at < source.now.count }
    ensures few { at + result ≤ source.now.count }
    ensures text { IsUtf8 (numbers_in 8 result (drop (8 * at) (joined 8 (bits source.now.octets.now) source.now.fragments))) }
    ensures none { result ≡ 0 → IsUtf8 (numbers_in 8 (source.now.count - at) (drop (8 * at) (joined 8 (bits source.now.octets.now) source.now.fragments))) → ⊥ }
{
    let mut window = [0u8; WINDOW];
    let (octets, _) = window.split_at_mut((source.count - at).min(WINDOW));
    copy_octets(source, at, octets);
    text_len(octets)
}

/// Copies octets from an index on.
fn copy_octets(source: &FragmentOctets<'_>, at: usize, octets: &mut [u8])
    requires { at + length octets.old ≤ source.now.count }
    ensures { octets.new ≡ numbers_in 8 (length octets.old) (drop (8 * at) (joined 8 (bits source.now.octets.now) source.now.fragments)) }
{
    for i in 0..octets.len() {
        octets[i] = source.octet(at + i) as u8;
    }
}

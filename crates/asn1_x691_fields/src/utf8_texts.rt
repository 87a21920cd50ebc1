//! UTF8String (X.691 30.6).

ghost use Rattle.std.specs.Prelude.{◌≡◌, ◌≤◌, ◌<◌, ◌^◌, ◌*◌, ◌+◌, ◌%◌, ◌∷◌, [], ℕ, List, true, false, length, take, drop};
ghost use Rattle.std.specs.Str.{IsUtf8};
ghost use Rattle.asn1_bits.specs.Bits.{bits};
ghost use Rattle.asn1_schema.specs.declared.tables.Range.{Range};
ghost use Rattle.asn1_schema.specs.CharactersOfParts.{numbers_in};
ghost use Rattle.asn1_schema.specs.PiecesOfParts.{piece_of, bits_of};
ghost use Rattle.asn1_x691.specs.Contents.{IsUtf8Text};
ghost use Rattle.asn1_x691.specs.Fragments.{most_fragments};
ghost use Rattle.asn1_x691.specs.Leaves.{contents};
ghost use Rattle.asn1_x691_fields.specs.Outcomes.{IsWithin, IsOnward, IsRead, IsPlaced};

use crate::bits::number_at;
use crate::fragments::next_in_fragments;
use crate::long_strings::part_of_octets;
use crate::state::{State, fail};
use crate::utf8_fragments::is_utf8_in_fragments;
use asn1_schema::{Part, Span};
use asn1_x691::FaultKind;

/// The number of octets that are examined together. A character has at most four.
pub(crate) const WINDOW: usize = 64;

/// Reads a UTF8String (X.691 30.6, X.690 8.23.10). The part has its octets.
pub fn next_utf8_string(
    octets: &[u8],
    is_aligned: bool,
    node: usize,
    state: &mut State,
) -> Option<Part>
    requires size { 8 * length octets.now < 2 ^ 64 }
    requires within { IsWithin (bits octets.now) state.old }
    requires placed { IsPlaced is_aligned state.old }
    ensures onward { IsOnward (bits octets.now) state.old state.new }
    ensures read { (ranges : List Range) → IsRead (λ at. (contents most_fragments is_aligned node IsUtf8Text at).encoding)
        (λ p. piece_of ranges (bits octets.now) p ∷ []) (bits octets.now) state.old state.new result }
{
    let (count, fragments) = next_in_fragments(octets, is_aligned, 8, node, state)?;
    if !is_utf8_in_fragments(octets, fragments, count) {
        fail(state, node, FaultKind::Contents);
        return None;
    }
    Some(part_of_octets(fragments))
}

/// Returns whether octets of a message are UTF-8. They may begin at any bit, and must be inside the
/// message.
pub fn is_utf8(message: &[u8], span: Span) -> bool
    requires size { 8 * length message.now < 2 ^ 64 }
    requires inside { span.at + span.count ≤ 8 * length message.now }
    requires whole { span.count % 8 ≡ 0 }
    ensures yes { result ≡ true → IsUtf8Text (bits_of (bits message.now) span) }
    ensures no { result ≡ false → IsUtf8Text (bits_of (bits message.now) span) → ⊥ }
{
    let mut at = span.at;
    let mut left = span.count / 8;
    while left > 0 {
        let count = front_len(message, at, left);
        if count == 0 {
            return false;
        }
        at += 8 * count;
        left -= count;
    }
    true
}

/// Returns how many of the octets from bit `at` on are UTF-8, where as many are examined as a window
/// holds; none where they begin with no character.
fn front_len(message: &[u8], at: usize, left: usize) -> usize
    requires size { 8 * length message.now < 2 ^ 64 }
    requires some { 0 < left }
    requires inside { at + 8 * left ≤ 8 * length message.now }
    ensures few { result ≤ left }
    ensures text { IsUtf8 (numbers_in 8 result (drop at (bits message.now))) }
    ensures none { result ≡ 0 → IsUtf8 (numbers_in 8 left (drop at (bits message.now))) → ⊥ }
{
    let mut window = [0u8; WINDOW];
    let (octets, _) = window.split_at_mut(left.min(WINDOW));
    copy_octets(message, at, octets);
    text_len(octets)
}

/// Copies octets of a message from bit `at` on.
fn copy_octets(message: &[u8], at: usize, octets: &mut [u8])
    requires size { 8 * length message.now < 2 ^ 64 }
    requires inside { at + 8 * length octets.old ≤ 8 * length message.now }
    ensures { octets.new ≡ numbers_in 8 (length octets.old) (drop at (bits message.now)) }
{
    for i in 0..octets.len() {
        octets[i] = number_at(message, at + 8 * i, 8) as u8;
    }
}

/// Returns how many of the first octets are UTF-8.
pub fn text_len(octets: &[u8]) -> usize
    ensures few { result ≤ length octets.now }
    ensures text { IsUtf8 (take result octets.now) }
    ensures none { result ≡ 0 → (k : ℕ) → 0 < k → k ≤ length octets.now → IsUtf8 (take k octets.now) → ⊥ }
{
    match std::str::from_utf8(octets) {
        Ok(_) => octets.len(),
        Err(error) => error.valid_up_to(),
    }
}

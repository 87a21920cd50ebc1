//! BIT STRING whose bits have names (X.691 16.2, 16.3). They are in no fragments.

ghost use Rattle.std.specs.Prelude.{◌≡◌, ◌≤◌, ◌<◌, ◌^◌, ◌*◌, ◌+◌, ◌∷◌, [], true, false, List, length, IfSome};
ghost use Rattle.asn1_bits.specs.Bits.{bits};
ghost use Rattle.asn1_schema.specs.Pieces.{Bits};
ghost use Rattle.asn1_schema.specs.declared.tables.Range.{Range};
ghost use Rattle.asn1_schema.specs.PiecesOfParts.{piece_of, bits_of};
ghost use Rattle.asn1_schema.specs.TypeEncodings.{leaf, by_bit};
ghost use Rattle.asn1_x691.specs.Strings.{string_of, added_string};
ghost use Rattle.asn1_x691.specs.Leaves.{AreTrimmed, bits_by, bit_string, least_of as least_in};
ghost use Rattle.asn1_x691_fields.specs.Outcomes.{IsWithin, IsOnward, IsRead, IsPlaced};

use crate::bits::number_at;
use crate::heads::next_bit;
use crate::sized_strings::{next_added_string, next_string_of};
use crate::state::{State, fail};
use asn1_schema::{Length, Part, Span};
use asn1_x691::FaultKind;

/// Reads a BIT STRING whose bits have names, by its size constraint (X.691 16.2 to 16.11).
pub(crate) fn next_named_bit_string(
    octets: &[u8],
    is_aligned: bool,
    size: Length,
    is_extensible: bool,
    node: usize,
    state: &mut State,
) -> Option<Part>
    requires size { 8 * length octets.now < 2 ^ 64 }
    requires within { IsWithin (bits octets.now) state.old }
    requires placed { IsPlaced is_aligned state.old }
    ensures onward { IsOnward (bits octets.now) state.old state.new }
    ensures read { (ranges : List Range) → IsRead (λ at. (bit_string 0 is_aligned node size is_extensible true at).encoding)
        (λ p. piece_of ranges (bits octets.now) p ∷ []) (bits octets.now) state.old state.new result }
{
    if !is_extensible {
        return next_named_of_root(octets, is_aligned, size, node, state);
    }
    let is_added = next_bit(octets, node, state)?;
    next_named_by_bit(octets, is_aligned, size, is_added, node, state)
}

/// Reads bits after the extension bit.
fn next_named_by_bit(
    octets: &[u8],
    is_aligned: bool,
    size: Length,
    is_added: bool,
    node: usize,
    state: &mut State,
) -> Option<Part>
    requires size { 8 * length octets.now < 2 ^ 64 }
    requires within { IsWithin (bits octets.now) state.old }
    requires placed { IsPlaced is_aligned state.old }
    ensures onward { IsOnward (bits octets.now) state.old state.new }
    ensures read { (ranges : List Range) → IsRead (λ at. by_bit
        (leaf (bits_by is_aligned node true size (string_of 0 is_aligned 1 size node)) Bits node at)
        (leaf (bits_by is_aligned node true size (added_string 0 is_aligned 1 size node)) Bits node at) is_added)
        (λ p. piece_of ranges (bits octets.now) p ∷ []) (bits octets.now) state.old state.new result }
{
    if is_added {
        return next_added_named(octets, is_aligned, size, node, state);
    }
    next_named_of_root(octets, is_aligned, size, node, state)
}

/// Reads bits of a size of the root.
fn next_named_of_root(
    octets: &[u8],
    is_aligned: bool,
    size: Length,
    node: usize,
    state: &mut State,
) -> Option<Part>
    requires size { 8 * length octets.now < 2 ^ 64 }
    requires within { IsWithin (bits octets.now) state.old }
    requires placed { IsPlaced is_aligned state.old }
    ensures onward { IsOnward (bits octets.now) state.old state.new }
    ensures read { (ranges : List Range) → IsRead (λ at. (leaf (bits_by is_aligned node true size (string_of 0 is_aligned 1 size node)) Bits node at).encoding)
        (λ p. piece_of ranges (bits octets.now) p ∷ []) (bits octets.now) state.old state.new result }
{
    let span = next_string_of(octets, is_aligned, 1, size, node, state)?;
    if !are_trimmed(octets, size, span) {
        fail(state, node, FaultKind::NotTrimmed);
        return None;
    }
    Some(Part::Bits(span))
}

/// Reads bits of a size that is none of the root (X.691 16.6).
fn next_added_named(
    octets: &[u8],
    is_aligned: bool,
    size: Length,
    node: usize,
    state: &mut State,
) -> Option<Part>
    requires size { 8 * length octets.now < 2 ^ 64 }
    requires within { IsWithin (bits octets.now) state.old }
    requires placed { IsPlaced is_aligned state.old }
    ensures onward { IsOnward (bits octets.now) state.old state.new }
    ensures read { (ranges : List Range) → IsRead (λ at. (leaf (bits_by is_aligned node true size (added_string 0 is_aligned 1 size node)) Bits node at).encoding)
        (λ p. piece_of ranges (bits octets.now) p ∷ []) (bits octets.now) state.old state.new result }
{
    let span = next_added_string(octets, is_aligned, 1, size, node, state)?;
    if !are_trimmed(octets, size, span) {
        fail(state, node, FaultKind::NotTrimmed);
        return None;
    }
    Some(Part::Bits(span))
}

/// Returns the least size that a constraint permits.
fn least_of(size: Length) -> usize
    ensures { result ≡ least_in size }
{
    match size {
        Length::AtLeast { least } => least,
        Length::Between { least, range: _ } => least as usize,
    }
}

/// Returns whether bits are as few as the size permits, or end in a 1.
fn are_trimmed(octets: &[u8], size: Length, span: Span) -> bool
    requires size { 8 * length octets.now < 2 ^ 64 }
    requires inside { span.at + span.count ≤ 8 * length octets.now }
    ensures yes { result ≡ true → AreTrimmed size (bits_of (bits octets.now) span) }
    ensures no { result ≡ false → AreTrimmed size (bits_of (bits octets.now) span) → ⊥ }
{
    let least = least_of(size);
    if span.count <= least {
        return span.count == least;
    }
    number_at(octets, span.at + span.count - 1, 1) == 1
}

//! BIT STRING (X.691 16).

ghost use Rattle.std.specs.Prelude.{◌≡◌, ◌≤◌, ◌<◌, ◌^◌, ◌*◌, ◌∷◌, [], false, List, length};
ghost use Rattle.asn1_bits.specs.Bits.{bits};
ghost use Rattle.asn1_schema.specs.Pieces.{Bits};
ghost use Rattle.asn1_schema.specs.declared.tables.Range.{Range};
ghost use Rattle.asn1_schema.specs.PiecesOfParts.{piece_of};
ghost use Rattle.asn1_schema.specs.TypeEncodings.{leaf, by_bit};
ghost use Rattle.asn1_x691.specs.Strings.{string_of, added_string};
ghost use Rattle.asn1_x691.specs.Leaves.{bit_string};
ghost use Rattle.asn1_x691.specs.Fragments.{most_fragments};
ghost use Rattle.asn1_x691.specs.Limits.{by_names};
ghost use Rattle.asn1_x691_fields.specs.Outcomes.{IsWithin, IsOnward, IsRead, IsPlaced};

use crate::heads::next_bit;
use crate::long_strings::{next_long_units, next_other_units, part_of_bits};
use crate::named_bits::next_named_bit_string;
use crate::sized_strings::next_sized_string;
use crate::state::State;
use asn1_schema::{Length, Part};

/// Reads a BIT STRING by its size constraint (X.691 16.2 to 16.11). One whose bits have names is in no
/// fragments.
pub fn next_bit_string(
    octets: &[u8],
    is_aligned: bool,
    size: Length,
    is_extensible: bool,
    has_names: bool,
    node: usize,
    state: &mut State,
) -> Option<Part>
    requires size { 8 * length octets.now < 2 ^ 64 }
    requires within { IsWithin (bits octets.now) state.old }
    requires placed { IsPlaced is_aligned state.old }
    ensures onward { IsOnward (bits octets.now) state.old state.new }
    ensures read { (ranges : List Range) → IsRead (λ at. (bit_string (by_names has_names 0 most_fragments) is_aligned node size is_extensible has_names at).encoding)
        (λ p. piece_of ranges (bits octets.now) p ∷ []) (bits octets.now) state.old state.new result }
{
    if has_names {
        return next_named_bit_string(octets, is_aligned, size, is_extensible, node, state);
    }
    next_plain_bit_string(octets, is_aligned, size, is_extensible, node, state)
}

/// Reads a BIT STRING whose bits have no names, by its size constraint (X.691 16.6 to 16.11).
fn next_plain_bit_string(
    octets: &[u8],
    is_aligned: bool,
    size: Length,
    is_extensible: bool,
    node: usize,
    state: &mut State,
) -> Option<Part>
    requires size { 8 * length octets.now < 2 ^ 64 }
    requires within { IsWithin (bits octets.now) state.old }
    requires placed { IsPlaced is_aligned state.old }
    ensures onward { IsOnward (bits octets.now) state.old state.new }
    ensures read { (ranges : List Range) → IsRead (λ at. (bit_string most_fragments is_aligned node size is_extensible false at).encoding)
        (λ p. piece_of ranges (bits octets.now) p ∷ []) (bits octets.now) state.old state.new result }
{
    if !is_extensible {
        return next_bits_of_root(octets, is_aligned, size, node, state);
    }
    let is_added = next_bit(octets, node, state)?;
    next_bits_by_bit(octets, is_aligned, size, is_added, node, state)
}

/// Reads bits after the extension bit.
fn next_bits_by_bit(
    octets: &[u8],
    is_aligned: bool,
    size: Length,
    is_added: bool,
    node: usize,
    state: &mut State,
) -> Option<Part>
    requires size { 8 * length octets.now < 2 ^ 64 }
    requires within { IsWithin (bits octets.now) state.old }
    requires placed { IsPlaced is_aligned state.old }
    ensures onward { IsOnward (bits octets.now) state.old state.new }
    ensures read { (ranges : List Range) → IsRead (λ at. by_bit (leaf (string_of most_fragments is_aligned 1 size node) Bits node at)
        (leaf (added_string most_fragments is_aligned 1 size node) Bits node at) is_added)
        (λ p. piece_of ranges (bits octets.now) p ∷ []) (bits octets.now) state.old state.new result }
{
    if is_added {
        return next_added_bits(octets, is_aligned, size, node, state);
    }
    next_bits_of_root(octets, is_aligned, size, node, state)
}

/// Reads bits of a size of the root.
fn next_bits_of_root(
    octets: &[u8],
    is_aligned: bool,
    size: Length,
    node: usize,
    state: &mut State,
) -> Option<Part>
    requires size { 8 * length octets.now < 2 ^ 64 }
    requires within { IsWithin (bits octets.now) state.old }
    requires placed { IsPlaced is_aligned state.old }
    ensures onward { IsOnward (bits octets.now) state.old state.new }
    ensures read { (ranges : List Range) → IsRead (λ at. (leaf (string_of most_fragments is_aligned 1 size node) Bits node at).encoding)
        (λ p. piece_of ranges (bits octets.now) p ∷ []) (bits octets.now) state.old state.new result }
{
    match size {
        Length::AtLeast { least } => {
            let fragments = next_long_units(octets, is_aligned, 1, least, node, state)?;
            Some(part_of_bits(fragments))
        }
        Length::Between { least, range } => {
            let span = next_sized_string(
                octets,
                is_aligned,
                1,
                least as usize,
                range as usize,
                node,
                state,
            )?;
            Some(Part::Bits(span))
        }
    }
}

/// Reads bits of a size that is none of the root (X.691 16.6).
fn next_added_bits(
    octets: &[u8],
    is_aligned: bool,
    size: Length,
    node: usize,
    state: &mut State,
) -> Option<Part>
    requires size { 8 * length octets.now < 2 ^ 64 }
    requires within { IsWithin (bits octets.now) state.old }
    requires placed { IsPlaced is_aligned state.old }
    ensures onward { IsOnward (bits octets.now) state.old state.new }
    ensures read { (ranges : List Range) → IsRead (λ at. (leaf (added_string most_fragments is_aligned 1 size node) Bits node at).encoding)
        (λ p. piece_of ranges (bits octets.now) p ∷ []) (bits octets.now) state.old state.new result }
{
    let fragments = next_other_units(octets, is_aligned, 1, size, node, state)?;
    Some(part_of_bits(fragments))
}

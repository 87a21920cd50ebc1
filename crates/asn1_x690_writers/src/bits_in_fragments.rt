//! BIT STRING in fragments (X.690 8.6, 11.2).

ghost use Rattle.std.specs.Prelude.{◌≡◌, List, Bool, ◌*◌, ◌^◌, ◌<◌, true, false, length};
ghost use Rattle.asn1_bits.specs.Bits.{bits};
ghost use Rattle.asn1_schema.specs.Pieces.{Bits};
ghost use Rattle.asn1_schema.specs.PiecesOfParts.{joined};
ghost use Rattle.asn1_x690.specs.Leaves.{AreTrimmed, HasSize, IsBitString, leaf_of, least_of as least_in};
ghost use Rattle.asn1_x690_writers.specs.Put.{AreTooManyBits, IsPut, LeftAt};
ghost use Rattle.asn1_x690_writers.specs.Strings.{IsStringWritten};

use crate::fragments::{all_of, put_first, skip, with_head};
use crate::sizes::has_size;
use asn1_schema::{Fragments, Length, MisfitKind};
use asn1_x691_writers::{Writer, bit_at, leave, put_number, reject, size_of_fragments};

/// Writes bits in fragments of a size that the constraint permits, which are as few as their names
/// permit. They must be fewer than 2^64.
pub(crate) fn put_bits_in_fragments(
    octets: &mut [u8],
    size: Length,
    is_extensible: bool,
    has_names: bool,
    source: &[u8],
    fragments: Fragments,
    node: usize,
    state: &mut Writer,
) -> bool
    requires size { 8 * length octets.old < 2 ^ 64 }
    requires source { 8 * length source.now < 2 ^ 64 }
    ensures { IsPut (LeftAt (AreTooManyBits (Bits (joined 1 (bits source.now) fragments))) node state.new) (leaf_of IsBitString (λ bits. HasSize is_extensible size (length bits) × AreTrimmed has_names size bits) Bits node)
        (Bits (joined 1 (bits source.now) fragments)) octets.old state.old octets.new state.new result }
{
    let total = size_of_fragments(source, 1, fragments);
    if total >= 1u128 << 64 {
        return leave(state, node);
    }
    let count = total as usize;
    if !has_size(size, is_extensible, count) {
        return reject(state, node, MisfitKind::NoEncoding);
    }
    if !are_permitted(source, has_names, size, fragments, count) {
        return reject(state, node, MisfitKind::NoEncoding);
    }
    state.at = put_joined(octets, state.at, source, fragments, count);
    true
}

/// Returns whether bits have no names, or are as few as their names and the size permit
/// (X.690 11.2.2).
fn are_permitted(
    source: &[u8],
    has_names: bool,
    size: Length,
    fragments: Fragments,
    count: usize,
) -> bool
    requires source { 8 * length source.now < 2 ^ 64 }
    requires all { count ≡ length (joined 1 (bits source.now) fragments) }
    ensures yes { result ≡ true → AreTrimmed has_names size (joined 1 (bits source.now) fragments) }
    ensures no { result ≡ false → AreTrimmed has_names size (joined 1 (bits source.now) fragments) → ⊥ }
{
    if has_names {
        return are_trimmed(source, size, fragments, count);
    }
    true
}

/// Returns whether bits are as few as the size permits, or end in a 1.
fn are_trimmed(source: &[u8], size: Length, fragments: Fragments, count: usize) -> bool
    requires source { 8 * length source.now < 2 ^ 64 }
    requires all { count ≡ length (joined 1 (bits source.now) fragments) }
    ensures yes { result ≡ true → AreTrimmed true size (joined 1 (bits source.now) fragments) }
    ensures no { result ≡ false → AreTrimmed true size (joined 1 (bits source.now) fragments) → ⊥ }
{
    let least = least_of(size);
    if count <= least {
        return count == least;
    }
    let all = all_of(source, 1, fragments);
    let end = skip(source, 1, all, count - 1);
    let last = with_head(source, 1, end);
    bit_at(source, last.head.at)
}

/// Returns the least size that a constraint permits.
fn least_of(size: Length) -> usize
    ensures { result ≡ least_in size }
{
    match size {
        Length::AtLeast { least } => least as usize,
        Length::Between { least, range: _ } => least as usize,
    }
}

/// Writes how many bits of the last octet are unused, the bits, and zeros for the unused ones.
/// Returns the index after them.
fn put_joined(
    octets: &mut [u8],
    at: usize,
    source: &[u8],
    fragments: Fragments,
    count: usize,
) -> usize
    requires size { 8 * length octets.old < 2 ^ 64 }
    requires source { 8 * length source.now < 2 ^ 64 }
    requires all { count ≡ length (joined 1 (bits source.now) fragments) }
    ensures { IsStringWritten (joined 1 (bits source.now) fragments) octets.old at octets.new result }
{
    let unused = (8 - count % 8) % 8;
    let first = put_number(octets, at, unused as u64, 8);
    let all = all_of(source, 1, fragments);
    let end = put_first(octets, first, source, 1, all, count);
    put_number(octets, end, 0, unused)
}

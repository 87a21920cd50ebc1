//! BIT STRING in fragments (X.691 16.11).

ghost use Rattle.std.specs.Prelude.{◌≡◌, ◌*◌, ◌^◌, ◌<◌, true, false, length};
ghost use Rattle.asn1_bits.specs.Bits.{bits};
ghost use Rattle.asn1_schema.specs.Pieces.{Bits};
ghost use Rattle.asn1_schema.specs.PiecesOfParts.{joined as joined_in};
ghost use Rattle.asn1_schema.specs.TypeEncodings.{leaf};
ghost use Rattle.asn1_x691.specs.Fragments.{most_fragments};
ghost use Rattle.asn1_x691.specs.Leaves.{AreTrimmed, bits_by, bit_string};
ghost use Rattle.asn1_x691.specs.Strings.{string_of};
ghost use Rattle.asn1_x691_writers.specs.Joined.{IsInside, bits_in};
ghost use Rattle.asn1_x691_writers.specs.Put.{IsPut};

use crate::bit_strings::least_of;
use crate::bits::read_few;
use crate::booleans::put_bit;
use crate::joined::{Joined, joined_of, run_at, size_of};
use crate::joined_strings::{put_added_joined, put_joined_of};
use crate::sized_strings::is_of_root;
use crate::state::{Writer, reject};
use asn1_schema::{Fragments, Length, MisfitKind};

/// Writes a BIT STRING in fragments by its size constraint (X.691 16.2 to 16.11). It must have fewer
/// than 2^64 bits.
pub(crate) fn put_bits_in_fragments(
    octets: &mut [u8],
    is_aligned: bool,
    size: Length,
    is_extensible: bool,
    has_names: bool,
    source: &[u8],
    fragments: Fragments,
    node: usize,
    state: &mut Writer,
) -> bool
    requires size { 8 * length octets.old < 2 ^ 64 }
    requires source { 8 * length source.now < 2 ^ 64 }
    requires few { length (joined_in 1 (bits source.now) fragments) < 2 ^ 64 }
    ensures { IsPut is_aligned (bit_string most_fragments is_aligned node size is_extensible has_names) (Bits (joined_in 1 (bits source.now) fragments)) octets.old
        state.old octets.new state.new result }
{
    let joined = joined_of(source, 1, fragments);
    let count = size_of(source, &joined) as usize;
    if is_extensible {
        return put_extensible(
            octets, is_aligned, size, has_names, source, &joined, count, node, state,
        );
    }
    put_of_root(
        octets, is_aligned, size, has_names, source, &joined, count, node, state,
    )
}

/// Writes bits of a size of the root.
fn put_of_root(
    octets: &mut [u8],
    is_aligned: bool,
    size: Length,
    has_names: bool,
    source: &[u8],
    joined: &Joined,
    count: usize,
    node: usize,
    state: &mut Writer,
) -> bool
    requires size { 8 * length octets.old < 2 ^ 64 }
    requires source { 8 * length source.now < 2 ^ 64 }
    requires inside { IsInside (bits source.now) joined.now }
    requires unit { joined.now.unit ≡ 1 }
    requires all { count ≡ length (bits_in (bits source.now) joined.now) }
    ensures { IsPut is_aligned (leaf (bits_by is_aligned node has_names size (string_of most_fragments is_aligned 1 size node)) Bits node)
        (Bits (bits_in (bits source.now) joined.now)) octets.old state.old octets.new state.new result }
{
    if !is_of_root(size, count) {
        return reject(state, node, MisfitKind::NoEncoding);
    }
    if !are_permitted(source, size, has_names, joined, count) {
        return reject(state, node, MisfitKind::NoEncoding);
    }
    state.at = put_joined_of(octets, state.at, is_aligned, size, source, joined, count);
    true
}

/// Writes bits after their extension bit.
fn put_extensible(
    octets: &mut [u8],
    is_aligned: bool,
    size: Length,
    has_names: bool,
    source: &[u8],
    joined: &Joined,
    count: usize,
    node: usize,
    state: &mut Writer,
) -> bool
    requires size { 8 * length octets.old < 2 ^ 64 }
    requires source { 8 * length source.now < 2 ^ 64 }
    requires inside { IsInside (bits source.now) joined.now }
    requires unit { joined.now.unit ≡ 1 }
    requires all { count ≡ length (bits_in (bits source.now) joined.now) }
    ensures { IsPut is_aligned (bit_string most_fragments is_aligned node size true has_names) (Bits (bits_in (bits source.now) joined.now)) octets.old
        state.old octets.new state.new result }
{
    let is_root = is_of_root(size, count);
    if !are_permitted(source, size, has_names, joined, count) {
        return reject(state, node, MisfitKind::NoEncoding);
    }
    if is_root {
        let root = put_bit(octets, state.at, false);
        state.at = put_joined_of(octets, root, is_aligned, size, source, joined, count);
        return true;
    }
    let added = put_bit(octets, state.at, true);
    state.at = put_added_joined(octets, added, is_aligned, source, joined, count);
    true
}

/// Returns whether bits have no names, or are as few as their names permit (X.691 16.2, 16.3).
fn are_permitted(
    source: &[u8],
    size: Length,
    has_names: bool,
    joined: &Joined,
    count: usize,
) -> bool
    requires source { 8 * length source.now < 2 ^ 64 }
    requires inside { IsInside (bits source.now) joined.now }
    requires all { count ≡ length (bits_in (bits source.now) joined.now) }
    ensures permitted { result ≡ true → has_names ≡ true → AreTrimmed size (bits_in (bits source.now) joined.now) }
    ensures forbidden { result ≡ false → (has_names ≡ true) × (AreTrimmed size (bits_in (bits source.now) joined.now) → ⊥) }
{
    if !has_names {
        return true;
    }
    are_trimmed(source, size, joined, count)
}

/// Returns whether bits are as few as the size permits, or end in a 1.
fn are_trimmed(source: &[u8], size: Length, joined: &Joined, count: usize) -> bool
    requires source { 8 * length source.now < 2 ^ 64 }
    requires inside { IsInside (bits source.now) joined.now }
    requires all { count ≡ length (bits_in (bits source.now) joined.now) }
    ensures yes { result ≡ true → AreTrimmed size (bits_in (bits source.now) joined.now) }
    ensures no { result ≡ false → AreTrimmed size (bits_in (bits source.now) joined.now) → ⊥ }
{
    let least = least_of(size);
    if count <= least {
        return count == least;
    }
    let last = run_at(source, joined, (count - 1) as u128);
    read_few(source, last.at, 1) == 1
}

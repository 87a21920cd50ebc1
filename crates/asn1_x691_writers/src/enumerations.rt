//! ENUMERATED (X.691 14).

ghost use Rattle.std.specs.Prelude.{◌≡◌, ◌+◌, ◌*◌, ◌^◌, ◌<◌, ◌≤◌, true, length, MatchOption, List};
ghost use Rattle.asn1_bits.specs.Bits.{bits};
ghost use Rattle.asn1_schema.specs.declared.tables.Range.{Range};
ghost use Rattle.asn1_schema.specs.Pieces.{Enumerated, UnknownEnumerated};
ghost use Rattle.asn1_schema.specs.PiecesOfParts.{natural_of};
ghost use Rattle.asn1_x691.specs.Leaves.{enumerated, enumerated_by};
ghost use Rattle.asn1_x691_writers.specs.Put.{IsPut, piece_in};

use crate::booleans::put_bit;
use crate::held::strip_zeros;
use crate::numbers::put_constrained;
use crate::spans::clip;
use crate::state::{Writer, leave, reject};
use crate::unbounded::put_small_number;
use asn1_bits::read_wide;
use asn1_schema::{MisfitKind, Natural, Part};

/// Writes an ENUMERATED: the index of the value in the root, or among the additions (X.691 14.2,
/// 14.3).
pub fn put_enumerated(
    octets: &mut [u8],
    is_aligned: bool,
    last: usize,
    is_extensible: bool,
    additions: usize,
    source: &[u8],
    part: Part,
    node: usize,
    state: &mut Writer,
) -> bool
    requires size { 8 * length octets.old < 2 ^ 64 }
    requires source { 8 * length source.now < 2 ^ 64 }
    ensures { (ranges : List Range) → IsPut is_aligned (enumerated_by is_aligned node is_extensible last additions) (piece_in ranges source.now part) octets.old state.old
        octets.new state.new result }
{
    match part {
        Part::Enumerated(index) => {
            if is_extensible {
                return put_value_by_bit(octets, is_aligned, last, additions, index, node, state);
            }
            put_value_of_root(octets, is_aligned, last, index, node, state)
        }
        Part::UnknownEnumerated(index) => {
            if !is_extensible {
                return reject(state, node, MisfitKind::OtherPart);
            }
            match natural(source, index) {
                Some(n) => put_unknown_value(octets, is_aligned, last, additions, n, node, state),
                None => leave(state, node),
            }
        }
        _ => reject(state, node, MisfitKind::OtherPart),
    }
}

/// Returns a number. `None` if it is 2^128 or more.
pub fn natural(source: &[u8], n: Natural) -> Option<u128>
    requires { 8 * length source.now < 2 ^ 64 }
    ensures { MatchOption result (2 ^ 128 ≤ natural_of (bits source.now) n) (λ m. m ≡ natural_of (bits source.now) n) }
{
    match n {
        Natural::Small(m) => Some(u128::from(m)),
        Natural::Large(span) => {
            let digits = strip_zeros(source, clip(source, span));
            if digits.count > 128 {
                return None;
            }
            Some(read_wide(source, digits.at, digits.count))
        }
    }
}

/// Writes the index of a value of the root (X.691 14.2).
fn put_value_of_root(
    octets: &mut [u8],
    is_aligned: bool,
    last: usize,
    index: usize,
    node: usize,
    state: &mut Writer,
) -> bool
    requires { 8 * length octets.old < 2 ^ 64 }
    ensures { IsPut is_aligned (enumerated is_aligned node last) (Enumerated index) octets.old state.old octets.new state.new result }
{
    if index > last {
        return reject(state, node, MisfitKind::NoEncoding);
    }
    state.at = put_constrained(octets, state.at, is_aligned, last as u128, index as u128);
    true
}

/// Writes the index of a known value after the extension bit (X.691 14.3).
fn put_value_by_bit(
    octets: &mut [u8],
    is_aligned: bool,
    last: usize,
    additions: usize,
    index: usize,
    node: usize,
    state: &mut Writer,
) -> bool
    requires { 8 * length octets.old < 2 ^ 64 }
    ensures { IsPut is_aligned (enumerated_by is_aligned node true last additions) (Enumerated index) octets.old state.old octets.new
        state.new result }
{
    if index <= last {
        let root = put_bit(octets, state.at, false);
        state.at = put_constrained(octets, root, is_aligned, last as u128, index as u128);
        return true;
    }
    let among = index - last - 1;
    if among >= additions {
        return reject(state, node, MisfitKind::OtherPart);
    }
    let added = put_bit(octets, state.at, true);
    state.at = put_small_number(octets, added, is_aligned, among as u128);
    true
}

/// Writes the index of an unknown value (X.691 14.3).
fn put_unknown_value(
    octets: &mut [u8],
    is_aligned: bool,
    last: usize,
    additions: usize,
    n: u128,
    node: usize,
    state: &mut Writer,
) -> bool
    requires { 8 * length octets.old < 2 ^ 64 }
    ensures { IsPut is_aligned (enumerated_by is_aligned node true last additions) (UnknownEnumerated n) octets.old state.old octets.new
        state.new result }
{
    if n < additions as u128 {
        return reject(state, node, MisfitKind::OtherPart);
    }
    let added = put_bit(octets, state.at, true);
    state.at = put_small_number(octets, added, is_aligned, n);
    true
}

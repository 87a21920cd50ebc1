//! ENUMERATED (X.690 8.4).

ghost use Rattle.std.specs.Prelude.{ℤ, true, false, ◌≡◌, ◌+◌, ◌*◌, ◌<◌, ◌^◌, ℕ, List, IfSome, None, length, slice_range};
ghost use Rattle.asn1_bits.specs.Bits.{bits};
ghost use Rattle.asn1_schema.specs.declared.tables.Node.TheVariants.{Enumerated};
ghost use Rattle.asn1_schema.specs.declared.tables.Range.{Range};
ghost use Rattle.asn1_schema.specs.Pieces.{Unknown};
ghost use Rattle.asn1_schema.specs.PiecesOfParts.{bits_of};
ghost use Rattle.asn1_x690.specs.declared.fault.FaultKind.TheVariants.{NotPermitted};
ghost use Rattle.asn1_x690.specs.Leaves.{IsEnumerated, IsFirst, IsPermittedValue, leaf_of};
ghost use Rattle.asn1_x690_leaves.specs.Told.{AreOctetsOf};
ghost use Rattle.asn1_x690_writers.specs.Leaf.{leaf_in};
ghost use Rattle.asn1_x690_writers.specs.Put.{IsPut};
ghost use Rattle.asn1_x691_writers.specs.Put.{piece_in};

use crate::integers::put_number_octets;
use crate::octets::put_span;
use asn1_schema::{MisfitKind, Part, Span};
use asn1_x690::{FaultKind, TypeTags};
use asn1_x690_leaves::enumerated;
use asn1_x691_writers::{Writer, clip, reject};

/// Returns the number at an index, unless it is at an earlier one too.
fn first_at(numbers: &[i128], index: usize) -> Option<i128>
    ensures some { IfSome result (λ n. IsFirst numbers.now index n) }
    ensures none { result ≡ None → (n : ℤ) → IsFirst numbers.now index n → ⊥ }
{
    let number = *numbers.get(index)?;
    for (i, other) in numbers.iter().enumerate() {
        if i >= index {
            return Some(number);
        }
        if *other == number {
            return None;
        }
    }
    Some(number)
}

/// Returns whether a fault is that of a value outside the type.
fn is_outside(kind: FaultKind) -> bool
    ensures yes { result ≡ true → kind ≡ NotPermitted }
    ensures no { result ≡ false → kind ≡ NotPermitted → ⊥ }
{
    kind == FaultKind::NotPermitted
}

/// Returns whether octets are a number that is none of these.
fn is_unknown(source: &[u8], span: Span, numbers: &[i128]) -> bool
    requires source { 8 * length source.now < 2 ^ 64 }
    requires contents { AreOctetsOf (bits source.now) span }
    ensures yes { result ≡ true → IsEnumerated numbers.now (Unknown (bits_of (bits source.now) span)) (bits_of (bits source.now) span) }
    ensures no { result ≡ false → IsEnumerated numbers.now (Unknown (bits_of (bits source.now) span)) (bits_of (bits source.now) span) → ⊥ }
{
    match enumerated(source, span, numbers, false) {
        Ok(_) => false,
        Err(kind) => is_outside(kind),
    }
}

/// Writes the number of a value, or one that the type does not know.
fn put_value(
    octets: &mut [u8],
    numbers: &[i128],
    is_extensible: bool,
    source: &[u8],
    part: Part,
    node: usize,
    state: &mut Writer,
) -> bool
    requires size { 8 * length octets.old < 2 ^ 64 }
    requires source { 8 * length source.now < 2 ^ 64 }
    ensures { (ranges : List Range) → IsPut ⊥ (leaf_of (IsEnumerated numbers.now) (IsPermittedValue is_extensible) (λ p. p) node) (piece_in ranges source.now part)
        octets.old state.old octets.new state.new result }
{
    match part {
        Part::Enumerated(index) => {
            match first_at(numbers, index) {
                None => reject(state, node, MisfitKind::NoEncoding),
                Some(number) => {
                    state.at = put_number_octets(octets, state.at, number);
                    true
                }
            }
        }
        Part::Unknown(span) => {
            let inside = clip(source, span);
            if !is_extensible {
                return reject(state, node, MisfitKind::NoEncoding);
            }
            if inside.count % 8 > 0 {
                return reject(state, node, MisfitKind::NoEncoding);
            }
            if !is_unknown(source, inside, numbers) {
                return reject(state, node, MisfitKind::NoEncoding);
            }
            state.at = put_span(octets, state.at, source, inside.at, inside.count);
            true
        }
        _ => reject(state, node, MisfitKind::NoEncoding),
    }
}

/// Returns `count` numbers of the table from an index on, those that it has.
fn numbers_in(numbers: &[i128], from: usize, count: usize) -> &[i128]
    requires { count < 2 ^ 34 }
    ensures { result.now ≡ slice_range numbers.now from (from + count) }
{
    let (_, rest) = numbers.split_at(from.min(numbers.len()));
    let (found, _) = rest.split_at(count.min(rest.len()));
    found
}

/// Writes the number of a value of an ENUMERATED, which has its numbers in the table.
pub(crate) fn put_enumerated(
    octets: &mut [u8],
    numbers: &[i128],
    tags: TypeTags,
    last: u32,
    is_extensible: bool,
    additions: u32,
    source: &[u8],
    part: Part,
    node: usize,
    state: &mut Writer,
) -> bool
    requires size { 8 * length octets.old < 2 ^ 64 }
    requires source { 8 * length source.now < 2 ^ 64 }
    ensures { (ranges : List Range) → IsPut ⊥ (leaf_in ranges numbers.now node tags (Enumerated last is_extensible additions)) (piece_in ranges source.now part)
        octets.old state.old octets.new state.new result }
{
    let additions = if is_extensible { additions as usize } else { 0 };
    let values = numbers_in(numbers, tags.numbers, last as usize + 1 + additions);
    put_value(octets, values, is_extensible, source, part, node, state)
}

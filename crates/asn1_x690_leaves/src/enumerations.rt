//! ENUMERATED (X.690 8.4).

ghost use Rattle.std.specs.Prelude.{ℤ, true, false, ◌≡◌, ◌*◌, ◌-◌, ◌<◌, ◌≤◌, ◌^◌, ℕ, List, IfSome, Some, None, length, slice_get};
ghost use Rattle.asn1_bits.specs.Bits.{bits};
ghost use Rattle.asn1_schema.specs.declared.tables.Range.{Range};
ghost use Rattle.asn1_schema.specs.PiecesOfParts.{bits_of, signed_number};
ghost use Rattle.asn1_x691_fields.specs.Numbers.{distance};
ghost use Rattle.asn1_x690.specs.Leaves.{IsFirst, IsEnumerated, IsPermittedValue};
ghost use Rattle.asn1_x690_leaves.specs.Told.{AreOctetsOf, IsTold};
ghost use Rattle.asn1_x690_leaves.specs.Values.{IsValue};

use crate::integers::is_minimal;
use asn1_schema::{Part, Span};
use asn1_x690::FaultKind;
use asn1_x691_fields::signed_at;

/// Returns whether a number is a value, of which 128 bits may not hold it.
fn is_value(number: i128, value: Option<i128>) -> bool
    ensures yes { result ≡ true → (z : ℤ) → IsValue value z → number ≡ z }
    ensures no { result ≡ false → (z : ℤ) → IsValue value z → number ≡ z → ⊥ }
{
    match value {
        Some(n) => number == n,
        None => false,
    }
}

/// Returns the index of the first of the numbers that is the value.
fn index_in(numbers: &[i128], value: Option<i128>) -> Option<usize>
    ensures some { (z : ℤ) → IsValue value z → IfSome result (λ i. IsFirst numbers.now i z) }
    ensures none { result ≡ None → (z : ℤ) → IsValue value z → (i : ℕ) → slice_get numbers.now i ≡ Some z → ⊥ }
{
    for (i, number) in numbers.iter().enumerate() {
        if is_value(*number, value) {
            return Some(i);
        }
    }
    None
}

/// Returns the number that octets are, no more than it needs, if 128 bits hold it.
fn value_of(octets: &[u8], span: Span) -> Option<i128>
    requires size { 8 * length octets.now < 2 ^ 64 }
    requires contents { AreOctetsOf (bits octets.now) span }
    requires some { 0 < span.count }
    requires fewest { 8 < span.count → 2 ^ (span.count - 9) ≤ distance (signed_number (bits_of (bits octets.now) span)) }
    ensures { IsValue result (signed_number (bits_of (bits octets.now) span)) }
{
    if span.count > 128 {
        return None;
    }
    Some(signed_at(octets, span))
}

/// Reads an ENUMERATED (X.690 8.4). The part has the index of the number among those of the type,
/// or, if the type has an extension marker, any other number.
///
/// # Errors
///
/// Returns [`FaultKind::Contents`] if there is no octet, or if the number is not in the minimal
/// number of octets. Otherwise, it returns [`FaultKind::NotPermitted`] if the type has neither the
/// number nor an extension marker.
pub fn enumerated(
    octets: &[u8],
    span: Span,
    numbers: &[i128],
    is_extensible: bool,
) -> Result<Part, FaultKind>
    requires size { 8 * length octets.now < 2 ^ 64 }
    requires contents { AreOctetsOf (bits octets.now) span }
    ensures { (ranges : List Range) → IsTold (IsEnumerated numbers.now) (IsPermittedValue is_extensible) (λ p. p) ranges
        (bits octets.now) (bits_of (bits octets.now) span) result }
{
    if !is_minimal(octets, span) {
        return Err(FaultKind::Contents);
    }
    match index_in(numbers, value_of(octets, span)) {
        Some(i) => Ok(Part::Enumerated(i)),
        None => {
            if is_extensible {
                Ok(Part::Unknown(span))
            } else {
                Err(FaultKind::NotPermitted)
            }
        }
    }
}

//! INTEGER (X.690 8.3).

ghost use Rattle.std.specs.Prelude.{◌≡◌, ◌*◌, ◌+◌, ◌-◌, ◌<◌, ◌≤◌, ◌^◌, ◌<ℤ◌, ◌+ℤ◌, pos, ℤ, List, true, false, length};
ghost use Rattle.asn1_bits.specs.Bits.{bits};
ghost use Rattle.asn1_schema.specs.declared.tables.Range.{Range};
ghost use Rattle.asn1_schema.specs.Pieces.{Integer};
ghost use Rattle.asn1_schema.specs.PiecesOfParts.{piece_of, bits_of, signed_number};
ghost use Rattle.asn1_x691_fields.specs.Numbers.{distance};
ghost use Rattle.asn1_x690.specs.Leaves.{IsInteger, IsBetween, IsAtLeast};
ghost use Rattle.asn1_x690.specs.Der.{always};
ghost use Rattle.asn1_x690_leaves.specs.Told.{AreOctetsOf, IsTold};

use asn1_bits::read_bits;
use asn1_schema::{Bounds, LowerBound, Part, Span};
use asn1_x690::FaultKind;
use asn1_x691_fields::{is_below, is_between, signed_at};

/// Returns whether octets are a number in the minimal number of octets: there is one, or the first
/// nine bits of several differ (X.690 8.3.2).
pub fn is_minimal(octets: &[u8], span: Span) -> bool
    requires size { 8 * length octets.now < 2 ^ 64 }
    requires contents { AreOctetsOf (bits octets.now) span }
    ensures yes { result ≡ true → IsInteger (signed_number (bits_of (bits octets.now) span)) (bits_of (bits octets.now) span) }
    ensures some { result ≡ true → 0 < span.count }
    ensures fewest { result ≡ true → 8 < span.count
        → 2 ^ (span.count - 9) ≤ distance (signed_number (bits_of (bits octets.now) span)) }
    ensures no { result ≡ false → (n : ℤ) → IsInteger n (bits_of (bits octets.now) span) → ⊥ }
{
    if span.count <= 8 {
        return span.count == 8;
    }
    let first = read_bits(octets, span.at, 9);
    if first == 0 {
        return false;
    }
    if first == 511 {
        return false;
    }
    true
}

/// Returns the part of a number. It is in the part where it has at most 16 octets.
fn part_of(octets: &[u8], span: Span) -> Part
    requires size { 8 * length octets.now < 2 ^ 64 }
    requires contents { AreOctetsOf (bits octets.now) span }
    requires some { 0 < span.count }
    ensures { (ranges : List Range) → piece_of ranges (bits octets.now) result ≡ Integer (signed_number (bits_of (bits octets.now) span)) }
{
    if span.count > 128 {
        return Part::Signed(span);
    }
    Part::Integer(signed_at(octets, span))
}

/// Reads an INTEGER (X.690 8.3).
///
/// # Errors
///
/// Returns [`FaultKind::Contents`] if there is no octet, or if the number is not in the minimal
/// number of octets.
pub fn integer(octets: &[u8], span: Span) -> Result<Part, FaultKind>
    requires size { 8 * length octets.now < 2 ^ 64 }
    requires contents { AreOctetsOf (bits octets.now) span }
    ensures { (ranges : List Range) → IsTold IsInteger always Integer ranges (bits octets.now) (bits_of (bits octets.now) span) result }
{
    if !is_minimal(octets, span) {
        return Err(FaultKind::Contents);
    }
    Ok(part_of(octets, span))
}

/// Reads an INTEGER within two bounds. With an extension marker it may be any number.
///
/// # Errors
///
/// Returns [`FaultKind::Contents`] as [`integer`] does. Otherwise, it returns
/// [`FaultKind::NotPermitted`] if the number is outside the bounds and there is no extension
/// marker.
pub fn integer_between(
    octets: &[u8],
    span: Span,
    bounds: Bounds,
    is_extensible: bool,
) -> Result<Part, FaultKind>
    requires size { 8 * length octets.now < 2 ^ 64 }
    requires contents { AreOctetsOf (bits octets.now) span }
    ensures { (ranges : List Range) → IsTold IsInteger (IsBetween is_extensible bounds.least bounds.range) Integer ranges
        (bits octets.now) (bits_of (bits octets.now) span) result }
{
    if !is_minimal(octets, span) {
        return Err(FaultKind::Contents);
    }
    if !is_extensible && !is_between(octets, span, bounds.least, bounds.range) {
        return Err(FaultKind::NotPermitted);
    }
    Ok(part_of(octets, span))
}

/// Reads an INTEGER from a lower bound on. With an extension marker it may be any number.
///
/// # Errors
///
/// Returns [`FaultKind::Contents`] as [`integer`] does. Otherwise, it returns
/// [`FaultKind::NotPermitted`] if the number is below the bound and there is no extension marker.
pub fn integer_at_least(
    octets: &[u8],
    span: Span,
    bound: LowerBound,
    is_extensible: bool,
) -> Result<Part, FaultKind>
    requires size { 8 * length octets.now < 2 ^ 64 }
    requires contents { AreOctetsOf (bits octets.now) span }
    ensures { (ranges : List Range) → IsTold IsInteger (IsAtLeast is_extensible bound.least) Integer ranges
        (bits octets.now) (bits_of (bits octets.now) span) result }
{
    if !is_minimal(octets, span) {
        return Err(FaultKind::Contents);
    }
    if !is_extensible && is_below(octets, span, bound.least) {
        return Err(FaultKind::NotPermitted);
    }
    Ok(part_of(octets, span))
}

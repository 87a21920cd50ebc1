//! OBJECT IDENTIFIER (X.690 8.19) and RELATIVE-OID (8.20).

ghost use Rattle.std.specs.Prelude.{◌≡◌, ◌*◌, ◌<◌, ◌^◌, List, true, false, length};
ghost use Rattle.asn1_bits.specs.Bits.{bits};
ghost use Rattle.asn1_schema.specs.declared.tables.Range.{Range};
ghost use Rattle.asn1_schema.specs.Pieces.{Octets};
ghost use Rattle.asn1_schema.specs.PiecesOfParts.{bits_of};
ghost use Rattle.asn1_x690.specs.Leaves.{IsKept, IsObjectIdentifier, IsRelativeIdentifier};
ghost use Rattle.asn1_x690.specs.Der.{always};
ghost use Rattle.asn1_x691_fields.specs.Octets.{are_series as are_in_series};
ghost use Rattle.asn1_x690_leaves.specs.Told.{AreOctetsOf, IsTold};

use crate::octets::octets_at;
use asn1_schema::{Part, Span};
use asn1_x690::FaultKind;
use asn1_x691_fields::are_subidentifiers as are_at_any_bit;

/// Returns whether octets are subidentifiers one after another (8.19.2).
#[inline(always)]
fn are_series(octets: &[u8]) -> bool
    ensures { result ≡ are_in_series false octets.now }
{
    let mut begun = false;
    let mut index = 0;
    while index < octets.len() {
        let octet = octets[index];
        if octet < 128 {
            begun = false;
        } else {
            if octet == 128 && !begun {
                return false;
            }
            begun = true;
        }
        index += 1;
    }
    !begun
}

/// Returns whether octets are one or more subidentifiers (X.690 8.19.2, 8.20.2).
#[inline(never)]
pub fn are_subidentifiers(octets: &[u8], span: Span) -> bool
    requires size { 8 * length octets.now < 2 ^ 64 }
    requires contents { AreOctetsOf (bits octets.now) span }
    ensures yes { result ≡ true → IsRelativeIdentifier (bits_of (bits octets.now) span) }
    ensures no { result ≡ false → IsRelativeIdentifier (bits_of (bits octets.now) span) → ⊥ }
{
    are_subidentifiers_here(octets, span)
}

/// Returns what [`are_subidentifiers`] does, inlined.
#[inline(always)]
pub fn are_subidentifiers_here(octets: &[u8], span: Span) -> bool
    requires size { 8 * length octets.now < 2 ^ 64 }
    requires contents { AreOctetsOf (bits octets.now) span }
    ensures yes { result ≡ true → IsRelativeIdentifier (bits_of (bits octets.now) span) }
    ensures no { result ≡ false → IsRelativeIdentifier (bits_of (bits octets.now) span) → ⊥ }
{
    if span.at % 8 > 0 {
        return are_between_octets(octets, span);
    }
    span.count > 0 && are_series(octets_at(octets, span))
}

/// Returns the same of octets that begin at any bit.
#[cold]
#[inline(never)]
fn are_between_octets(octets: &[u8], span: Span) -> bool
    requires size { 8 * length octets.now < 2 ^ 64 }
    requires contents { AreOctetsOf (bits octets.now) span }
    ensures yes { result ≡ true → IsRelativeIdentifier (bits_of (bits octets.now) span) }
    ensures no { result ≡ false → IsRelativeIdentifier (bits_of (bits octets.now) span) → ⊥ }
{
    are_at_any_bit(octets, span)
}

/// Reads an OBJECT IDENTIFIER (X.690 8.19). Its arcs may be of any size.
///
/// # Errors
///
/// Returns [`FaultKind::Contents`] if the octets are not one or more subidentifiers.
#[inline(always)]
pub fn object_identifier(octets: &[u8], span: Span) -> Result<Part, FaultKind>
    requires size { 8 * length octets.now < 2 ^ 64 }
    requires contents { AreOctetsOf (bits octets.now) span }
    ensures { (ranges : List Range) → IsTold (IsKept IsObjectIdentifier) always Octets ranges
        (bits octets.now) (bits_of (bits octets.now) span) result }
{
    if !are_subidentifiers(octets, span) {
        return Err(FaultKind::Contents);
    }
    Ok(Part::Octets(span))
}

/// Reads a RELATIVE-OID (X.690 8.20). Its arcs may be of any size.
///
/// # Errors
///
/// Returns [`FaultKind::Contents`] if the octets are not one or more subidentifiers.
pub fn relative_identifier(octets: &[u8], span: Span) -> Result<Part, FaultKind>
    requires size { 8 * length octets.now < 2 ^ 64 }
    requires contents { AreOctetsOf (bits octets.now) span }
    ensures { (ranges : List Range) → IsTold (IsKept IsRelativeIdentifier) always Octets ranges
        (bits octets.now) (bits_of (bits octets.now) span) result }
{
    if are_subidentifiers(octets, span) {
        return Ok(Part::Octets(span));
    }
    Err(FaultKind::Contents)
}

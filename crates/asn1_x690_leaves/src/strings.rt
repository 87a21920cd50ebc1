//! OCTET STRING (X.690 8.7) and UTF8String (8.23.10).

ghost use Rattle.std.specs.Prelude.{◌*◌, ◌<◌, ◌^◌, List, length};
ghost use Rattle.asn1_bits.specs.Bits.{bits};
ghost use Rattle.asn1_schema.specs.declared.tables.Range.{Range};
ghost use Rattle.asn1_schema.specs.Pieces.{Octets};
ghost use Rattle.asn1_schema.specs.PiecesOfParts.{bits_of};
ghost use Rattle.asn1_x690.specs.Leaves.{AreOctets, AreSized, IsKept, IsUtf8Text};
ghost use Rattle.asn1_x690.specs.Der.{always};
ghost use Rattle.asn1_x690_leaves.specs.Told.{AreOctetsOf, IsTold};

use crate::sizes::has_size;
use asn1_schema::{Length, Part, Span};
use asn1_x690::FaultKind;
use asn1_x691_fields::is_utf8;

/// Reads an OCTET STRING (X.690 8.7).
///
/// # Errors
///
/// Returns [`FaultKind::NotPermitted`] if the constraint does not permit its size.
#[inline(always)]
pub fn octet_string(
    octets: &[u8],
    span: Span,
    size: Length,
    is_extensible: bool,
) -> Result<Part, FaultKind>
    requires { AreOctetsOf (bits octets.now) span }
    ensures { (ranges : List Range) → IsTold AreOctets (AreSized is_extensible size) Octets ranges
        (bits octets.now) (bits_of (bits octets.now) span) result }
{
    let _len = octets.len();
    if !has_size(is_extensible, size, span.count / 8) {
        return Err(FaultKind::NotPermitted);
    }
    Ok(Part::Octets(span))
}

/// Reads a UTF8String (X.690 8.23.10).
///
/// # Errors
///
/// Returns [`FaultKind::Contents`] if the octets are no UTF-8.
pub fn utf8_string(octets: &[u8], span: Span) -> Result<Part, FaultKind>
    requires size { 8 * length octets.now < 2 ^ 64 }
    requires contents { AreOctetsOf (bits octets.now) span }
    ensures { (ranges : List Range) → IsTold (IsKept IsUtf8Text) always Octets ranges
        (bits octets.now) (bits_of (bits octets.now) span) result }
{
    if !is_utf8(octets, span) {
        return Err(FaultKind::Contents);
    }
    Ok(Part::Octets(span))
}

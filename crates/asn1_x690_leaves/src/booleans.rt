//! BOOLEAN (X.690 8.2, 11.1) and NULL (8.8).

ghost use Rattle.std.specs.Prelude.{◌*◌, ◌<◌, ◌^◌, List, length};
ghost use Rattle.asn1_bits.specs.Bits.{bits};
ghost use Rattle.asn1_schema.specs.declared.tables.Range.{Range};
ghost use Rattle.asn1_schema.specs.Pieces.{Truth, Null};
ghost use Rattle.asn1_schema.specs.PiecesOfParts.{bits_of};
ghost use Rattle.asn1_x690.specs.Leaves.{IsBoolean, IsNull};
ghost use Rattle.asn1_x690.specs.Der.{always};
ghost use Rattle.asn1_x690_leaves.specs.Told.{AreOctetsOf, IsTold};

use asn1_bits::read_bits;
use asn1_schema::{Part, Span};
use asn1_x690::FaultKind;

/// Reads a BOOLEAN: one octet, 0 or 255 (X.690 8.2, 11.1).
///
/// # Errors
///
/// Returns [`FaultKind::Contents`] if the contents are other octets.
#[inline(always)]
pub fn boolean(octets: &[u8], span: Span) -> Result<Part, FaultKind>
    requires size { 8 * length octets.now < 2 ^ 64 }
    requires contents { AreOctetsOf (bits octets.now) span }
    ensures { (ranges : List Range) → IsTold IsBoolean always Truth ranges (bits octets.now) (bits_of (bits octets.now) span) result }
{
    if span.count != 8 {
        return Err(FaultKind::Contents);
    }
    let octet = read_bits(octets, span.at, 8);
    if octet == 0 {
        return Ok(Part::Truth(false));
    }
    if octet == 255 {
        return Ok(Part::Truth(true));
    }
    Err(FaultKind::Contents)
}

/// Reads a NULL: no octets (X.690 8.8).
///
/// # Errors
///
/// Returns [`FaultKind::Contents`] if there are octets.
pub fn null(octets: &[u8], span: Span) -> Result<Part, FaultKind>
    requires { AreOctetsOf (bits octets.now) span }
    ensures { (ranges : List Range) → IsTold IsNull always (λ u. Null) ranges (bits octets.now) (bits_of (bits octets.now) span) result }
{
    let _len = octets.len();
    if span.count != 0 {
        return Err(FaultKind::Contents);
    }
    Ok(Part::Null)
}

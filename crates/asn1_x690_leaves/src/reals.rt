//! REAL (X.690 8.5, 11.3).

ghost use Rattle.std.specs.Prelude.{◌*◌, ◌<◌, ◌^◌, List, length};
ghost use Rattle.asn1_bits.specs.Bits.{bits};
ghost use Rattle.asn1_schema.specs.declared.tables.Range.{Range};
ghost use Rattle.asn1_schema.specs.Pieces.{Octets};
ghost use Rattle.asn1_schema.specs.PiecesOfParts.{bits_of};
ghost use Rattle.asn1_schema.specs.Reals.{IsReal};
ghost use Rattle.asn1_x690.specs.Leaves.{IsKept};
ghost use Rattle.asn1_x690.specs.Der.{always};
ghost use Rattle.asn1_x690_leaves.specs.Told.{AreOctetsOf, IsTold};

use asn1_schema::{Part, Span};
use asn1_x690::FaultKind;
use asn1_x691_fields::is_real_at;

/// Reads a REAL (X.690 8.5, 11.3). The part has its contents octets.
///
/// # Errors
///
/// Returns [`FaultKind::Contents`] if the octets are no REAL in canonical form.
pub fn real(octets: &[u8], span: Span) -> Result<Part, FaultKind>
    requires size { 8 * length octets.now < 2 ^ 64 }
    requires contents { AreOctetsOf (bits octets.now) span }
    ensures { (ranges : List Range) → IsTold (IsKept IsReal) always Octets ranges
        (bits octets.now) (bits_of (bits octets.now) span) result }
{
    if is_real_at(octets, span) {
        return Ok(Part::Octets(span));
    }
    Err(FaultKind::Contents)
}

//! UTCTime (X.690 8.25, 11.8) and GeneralizedTime (8.25, 11.7).

ghost use Rattle.std.specs.Prelude.{◌*◌, ◌<◌, ◌^◌, List, length};
ghost use Rattle.asn1_bits.specs.Bits.{bits};
ghost use Rattle.asn1_schema.specs.declared.tables.Range.{Range};
ghost use Rattle.asn1_schema.specs.Pieces.{Text};
ghost use Rattle.asn1_schema.specs.PiecesOfParts.{bits_of};
ghost use Rattle.asn1_x690.specs.Leaves.{IsTimeText};
ghost use Rattle.asn1_x690.specs.Der.{always};
ghost use Rattle.asn1_x690_leaves.specs.Told.{AreOctetsOf, IsTold};

use asn1_schema::{Characters, Codes, Part, Span, TimeKind};
use asn1_x690::FaultKind;
use asn1_x691_fields::is_time_at;

/// Reads a UTCTime or a GeneralizedTime (X.690 8.25, 11.7, 11.8).
///
/// # Errors
///
/// Returns [`FaultKind::Contents`] if the octets are no time in canonical form, or if the day or
/// the time of day does not exist.
pub fn time(octets: &[u8], span: Span, kind: TimeKind) -> Result<Part, FaultKind>
    requires size { 8 * length octets.now < 2 ^ 64 }
    requires contents { AreOctetsOf (bits octets.now) span }
    ensures { (ranges : List Range) → IsTold (IsTimeText kind) always Text ranges
        (bits octets.now) (bits_of (bits octets.now) span) result }
{
    let count = span.count / 8;
    if !is_time_at(octets, span.at, 8, count, kind) {
        return Err(FaultKind::Contents);
    }
    Ok(Part::Text(Characters {
        at: span.at,
        count,
        width: 8,
        codes: Codes::Numbers,
    }))
}

//! Octets of a message.

ghost use Rattle.std.specs.Prelude.{◌≡◌, ◌*◌, ◌<◌, ◌^◌, ◌%◌, All, length};
ghost use Rattle.asn1_bits.specs.Bits.{bits};
ghost use Rattle.asn1_schema.specs.PiecesOfParts.{bits_of};
ghost use Rattle.asn1_x690_leaves.specs.Told.{AreOctetsOf};

use asn1_schema::Span;

/// Returns the octets that a span of a message is. It must begin at an octet.
#[inline(always)]
pub fn octets_at(octets: &[u8], span: Span) -> &[u8]
    requires contents { AreOctetsOf (bits octets.now) span }
    requires begins { span.at % 8 ≡ 0 }
    ensures bits { bits result.now ≡ bits_of (bits octets.now) span }
    ensures octets { All (λ octet. octet < 256) result.now }
{
    let (_, rest) = octets.split_at(span.at / 8);
    let (own, _) = rest.split_at(span.count / 8);
    own
}

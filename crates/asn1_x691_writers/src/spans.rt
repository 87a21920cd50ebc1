//! Spans of a source.

ghost use Rattle.std.specs.Prelude.{◌≡◌, ◌+◌, ◌*◌, ◌^◌, ◌<◌, ◌≤◌, length};
ghost use Rattle.asn1_bits.specs.Bits.{bits};
ghost use Rattle.asn1_schema.specs.PiecesOfParts.{bits_of};

use asn1_schema::Span;

/// Returns the part of a span that is inside the source. It has the same bits.
pub fn clip(source: &[u8], span: Span) -> Span
    requires source { 8 * length source.now < 2 ^ 64 }
    ensures same { bits_of (bits source.now) result ≡ bits_of (bits source.now) span }
    ensures inside { result.at + result.count ≤ 8 * length source.now }
{
    let size = 8 * source.len();
    if span.at > size {
        return Span { at: 0, count: 0 };
    }
    if span.count > size - span.at {
        return Span {
            at: span.at,
            count: size - span.at,
        };
    }
    span
}

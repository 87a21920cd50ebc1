//! Octets of a message.

ghost use Rattle.std.specs.Prelude.{◌≡◌, All, ◌<◌, IfSome};
ghost use Rattle.asn1_bits.specs.Bits.{bits};
ghost use Rattle.asn1_schema.specs.PiecesOfParts.{bits_of};

use asn1_bits::{BitStr, aligned_octets};
use asn1_schema::Span;

/// Returns the octets that bits of a message are, if these begin and end at octets of it.
#[tactic(auto, unfolding(asn1_bits::specs::View::list_of))]
pub fn whole_octets(octets: &[u8], span: Span) -> Option<&[u8]>
    ensures bits { IfSome result (λ own. bits own.now ≡ bits_of (bits octets.now) span) }
    ensures octets { IfSome result (λ own. All (λ octet. octet < 256) own.now) }
{
    match BitStr::new(octets, span.at, span.count) {
        None => None,
        Some(view) => aligned_octets(view),
    }
}

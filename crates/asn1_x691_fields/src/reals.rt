//! REAL, by its contents octets (X.691 15, X.690 8.5, 11.3).

ghost use Rattle.std.specs.Prelude.{◌≡◌, ◌≤◌, ◌<◌, ◌^◌, ◌*◌, ◌+◌, ◌%◌, ◌∷◌, [], List, true, false, length};
ghost use Rattle.asn1_bits.specs.Bits.{bits};
ghost use Rattle.asn1_schema.specs.declared.tables.Range.{Range};
ghost use Rattle.asn1_schema.specs.PiecesOfParts.{piece_of, bits_of};
ghost use Rattle.asn1_schema.specs.Reals.{IsReal};
ghost use Rattle.asn1_x691.specs.Leaves.{contents};
ghost use Rattle.asn1_x691_fields.specs.Outcomes.{IsWithin, IsOnward, IsRead, IsPlaced};

use crate::number_sources::NumbersAt;
use crate::state::{State, fail};
use crate::strings::next_octets;
use asn1_schema::{Part, Span, is_real};
use asn1_x691::FaultKind;

/// Returns whether octets of a message are the contents of a REAL (X.690 8.5, 11.3). They may begin
/// at any bit, and must be inside the message.
pub fn is_real_at(message: &[u8], span: Span) -> bool
    requires size { 8 * length message.now < 2 ^ 64 }
    requires inside { span.at + span.count ≤ 8 * length message.now }
    requires whole { span.count % 8 ≡ 0 }
    ensures yes { result ≡ true → IsReal (bits_of (bits message.now) span) }
    ensures no { result ≡ false → IsReal (bits_of (bits message.now) span) → ⊥ }
{
    let octets = NumbersAt::new(message, span.at, 8, span.count / 8);
    is_real(&octets)
}

/// Reads a REAL (X.691 15). The part has its contents octets.
pub fn next_real(octets: &[u8], is_aligned: bool, node: usize, state: &mut State) -> Option<Part>
    requires size { 8 * length octets.now < 2 ^ 64 }
    requires within { IsWithin (bits octets.now) state.old }
    requires placed { IsPlaced is_aligned state.old }
    ensures onward { IsOnward (bits octets.now) state.old state.new }
    ensures read { (ranges : List Range) → IsRead (λ at. (contents 0 is_aligned node IsReal at).encoding)
        (λ p. piece_of ranges (bits octets.now) p ∷ []) (bits octets.now) state.old state.new result }
{
    let span = next_octets(octets, is_aligned, node, state)?;
    if !is_real_at(octets, span) {
        fail(state, node, FaultKind::Contents);
        return None;
    }
    Some(Part::Octets(span))
}

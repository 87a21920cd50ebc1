//! UTCTime and GeneralizedTime, which are VisibleStrings (X.691 30, X.680 46, 47).

ghost use Rattle.std.specs.Prelude.{◌≡◌, ◌≤◌, ◌<◌, ◌^◌, ◌*◌, ◌+◌, ◌∷◌, [], List, true, length, drop};
ghost use Rattle.std.specs.Bool.{Decides};
ghost use Rattle.asn1_bits.specs.Bits.{bits};
ghost use Rattle.asn1_schema.specs.declared.tables.Range as the_range;
ghost use Rattle.asn1_schema.specs.CharactersOfParts.{numbers_in};
ghost use Rattle.asn1_schema.specs.PiecesOfParts.{piece_of};
ghost use Rattle.asn1_schema.specs.Times.{IsTime};
ghost use Rattle.asn1_x691.specs.Leaves.{visible as visible_ranges, time};
ghost use Rattle.asn1_x691_fields.specs.Characters.{IsAlphabet};
ghost use Rattle.asn1_x691_fields.specs.Outcomes.{IsWithin, IsOnward, IsRead, IsPlaced};

use crate::alphabets::{Alphabet, alphabet_of};
use crate::number_sources::{NumbersAt, OctetNumbers};
use crate::octets::whole_octets;
use crate::sized_texts::next_long_text;
use crate::state::{State, fail};
use asn1_schema::{Characters, Codes, Part, Range, Span, TimeKind, is_time};
use asn1_x691::FaultKind;

/// The characters of a VisibleString (X.680 41).
const VISIBLE: [Range; 1] = [Range {
    first: 32,
    last: 126,
}];

/// Returns the alphabet of a VisibleString.
pub fn visible(is_aligned: bool) -> Alphabet<'static>
    ensures is { IsAlphabet result }
    ensures ranges { result.ranges.now ≡ visible_ranges }
    ensures variant { result.is_aligned ≡ is_aligned }
    ensures numbers { result.are_numbers ≡ true }
    ensures width { result.width ≤ 8 }
{
    alphabet_of(&VISIBLE, is_aligned)
}

/// Returns whether characters of a message are a time of a kind. The code of each is its number, in
/// `width` bits, which must be at most 32.
pub fn is_time_at(message: &[u8], at: usize, width: usize, count: usize, kind: TimeKind) -> bool
    requires size { 8 * length message.now < 2 ^ 64 }
    requires width { width ≤ 32 }
    requires inside { at + width * count ≤ 8 * length message.now }
    ensures { Decides result (IsTime kind (numbers_in width count (drop at (bits message.now)))) }
{
    if width == 8 {
        let span = Span {
            at,
            count: 8 * count,
        };
        if let Some(own) = whole_octets(message, span) {
            return is_time(&OctetNumbers { octets: own }, kind);
        }
    }
    let characters = NumbersAt::new(message, at, width, count);
    is_time(&characters, kind)
}

/// Reads a UTCTime or a GeneralizedTime (X.691 30).
pub fn next_time(
    octets: &[u8],
    is_aligned: bool,
    kind: TimeKind,
    node: usize,
    state: &mut State,
) -> Option<Part>
    requires size { 8 * length octets.now < 2 ^ 64 }
    requires within { IsWithin (bits octets.now) state.old }
    requires placed { IsPlaced is_aligned state.old }
    ensures onward { IsOnward (bits octets.now) state.old state.new }
    ensures read { (ranges : List the_range.Range) → IsRead (λ at. (time 0 is_aligned node (IsTime kind) at).encoding)
        (λ p. piece_of ranges (bits octets.now) p ∷ []) (bits octets.now) state.old state.new result }
{
    let alphabet = visible(is_aligned);
    let (count, at) = next_long_text(octets, &alphabet, 0, node, state)?;
    if !is_time_at(octets, at, alphabet.width, count, kind) {
        fail(state, node, FaultKind::Contents);
        return None;
    }
    Some(Part::Text(Characters {
        at,
        count,
        width: alphabet.width,
        codes: Codes::Numbers,
    }))
}

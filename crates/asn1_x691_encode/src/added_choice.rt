//! The additions of a CHOICE (X.691 23.8).

ghost use Rattle.std.specs.Prelude.{Option, ◌≡◌, ℕ, Bool, List, ◌+◌, ◌-◌, ◌*◌, ◌^◌, ◌<◌, true, length, slice_get, Some};
ghost use Rattle.asn1_schema.specs.declared.tables.Range.{Range};
ghost use Rattle.asn1_bits.specs.Bits.{bits};
ghost use Rattle.asn1_schema.specs.Pieces.{Chosen, UnknownChosen};
ghost use Rattle.asn1_schema.specs.PiecesOfParts.{natural_of};
ghost use Rattle.asn1_x691_writers.specs.Put.{piece_in};
ghost use Rattle.asn1_x691_encode.specs.Alternatives.{IsAlternative};
ghost use Rattle.asn1_x691_encode.specs.Encoding.{Outcome, choice_extension_in};

use crate::additions::encode_known;
use crate::context::Context;
use crate::leaves::encode_unknown;
use asn1_schema::{MisfitKind, Natural, Part, Rows};
use asn1_x691_writers::{Writer, leave, natural, put_small_number, reject};

/// An addition of a CHOICE.
#[derive(Clone, Copy, Debug)]
pub(crate) enum Alternative {
    /// A known one, by its index among the additions.
    Known(usize),
    /// An unknown one, by its index among the additions.
    Unknown(u128),
    /// An unknown one of an index of 2^128 or more.
    Far,
    /// None.
    Other,
}

/// Returns the addition that follows a part, where `last` is the index of the last alternative of
/// the root and the first `known` additions are known.
fn alternative_of(source: &[u8], last: usize, known: usize, part: Part) -> Alternative
    requires { 8 * length source.now < 2 ^ 64 }
    ensures { (ranges : List Range) → IsAlternative last known (piece_in ranges source.now part) result }
{
    match part {
        Part::Chosen(index) => known_alternative(last, known, index),
        Part::UnknownChosen(index) => unknown_alternative(source, known, index),
        _ => Alternative::Other,
    }
}

/// Returns the addition that is the alternative of an index.
fn known_alternative(last: usize, known: usize, index: usize) -> Alternative
    ensures { IsAlternative last known (Chosen index) result }
{
    if index <= last {
        return Alternative::Other;
    }
    let among = index - last - 1;
    if among >= known {
        return Alternative::Other;
    }
    Alternative::Known(among)
}

/// Returns the addition of an index that is not known.
fn unknown_alternative(source: &[u8], known: usize, index: Natural) -> Alternative
    requires { 8 * length source.now < 2 ^ 64 }
    ensures { (last : ℕ) → IsAlternative last known (UnknownChosen (natural_of (bits source.now) index)) result }
{
    match natural(source, index) {
        None => Alternative::Far,
        Some(n) => {
            if n < known as u128 {
                return Alternative::Other;
            }
            Alternative::Unknown(n)
        }
    }
}

/// Encodes the index of an addition, and the addition (X.691 23.8). `part` is the next part.
#[cycle(encoding)]
pub(crate) fn encode_added(
    context: &Context<'_>,
    depth: usize,
    node: usize,
    rows: Rows,
    known: Rows,
    part: Part,
    octets: &mut [u8],
    state: &mut Writer,
) -> bool
    requires size { 8 * length octets.old < 2 ^ 64 }
    requires source { 8 * length context.now.source.now < 2 ^ 64 }
    requires parts { length context.now.parts.now < 2 ^ 64 - 1 }
    requires next { slice_get context.now.parts.now state.old.next ≡ Some part }
    ensures { Outcome context.now (choice_extension_in context.now depth node rows known)
        octets.old state.old octets.new state.new result }
{
    let last = (rows.count as usize).saturating_sub(1);
    match alternative_of(context.source, last, known.count as usize, part) {
        Alternative::Other => reject(state, node, MisfitKind::OtherPart),
        Alternative::Far => leave(state, node),
        Alternative::Known(index) => {
            state.at = put_small_number(octets, state.at, context.is_aligned, index as u128);
            state.next += 1;
            encode_known(context, depth, node, known.from, index, octets, state)
        }
        Alternative::Unknown(index) => {
            state.at = put_small_number(octets, state.at, context.is_aligned, index);
            state.next += 1;
            encode_unknown(context, node, octets, state)
        }
    }
}

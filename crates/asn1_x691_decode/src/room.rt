//! Room for parts.

ghost use Rattle.std.specs.Prelude.{◌≡◌, List, Bool, false, ◌∷◌, []};
ghost use Rattle.asn1_schema.specs.declared.tables.Range.{Range};
ghost use Rattle.asn1_schema.specs.PiecesOfParts.{piece_of};
ghost use Rattle.asn1_schema.specs.Room.{IsGrown};
ghost use Rattle.asn1_x691_decode.specs.Room.{IsKept};

use asn1_schema::{Part, push_part};
use asn1_x691_fields::State;

/// Counts a part, and stores it where there is room.
#[inline(always)]
pub(crate) fn push(parts: &mut [Part], state: &mut State, part: Part)
    ensures at { state.new.at ≡ state.old.at }
    ensures first { state.new.first ≡ state.old.first }
    ensures end { state.new.end ≡ state.old.end }
    ensures grown { (ranges : List Range) (list : List Bool) → IsGrown ranges list parts.old state.old.count parts.new state.new.count
        (piece_of ranges list part ∷ []) }
{
    state.count = push_part(parts, state.count, part);
}

/// Stores a part that was read, if one was.
#[inline(always)]
pub(crate) fn keep(part: Option<Part>, parts: &mut [Part], state: &mut State) -> bool
    ensures at { state.new.at ≡ state.old.at }
    ensures first { state.new.first ≡ state.old.first }
    ensures end { state.new.end ≡ state.old.end }
    ensures kept { IsKept part state.old state.new parts.old parts.new result }
{
    match part {
        None => false,
        Some(part) => {
            push(parts, state, part);
            true
        }
    }
}

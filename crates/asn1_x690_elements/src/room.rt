//! Room for headers.

ghost use Rattle.std.specs.Prelude.{◌≡◌, List, Bool, ◌∷◌, []};
ghost use Rattle.asn1_x690_elements.specs.Room.{IsGrown, shown};

use asn1_x690_fields::{Header, State};

/// Counts a header, and stores it where there is room.
#[inline(always)]
pub(crate) fn push(room: &mut [Header], state: &mut State, header: Header)
    ensures at { state.new.at ≡ state.old.at }
    ensures end { state.new.end ≡ state.old.end }
    ensures grown { (list : List Bool) → IsGrown list room.old state.old.count room.new state.new.count (shown list header ∷ []) }
{
    let count = state.count;
    if count < room.len() {
        room[count] = header;
        state.count = count + 1;
        return;
    }
    state.count = count.saturating_add(1);
}

//! Room for the parts of a value.

ghost use Rattle.std.specs.Prelude.{◌≡◌, ℕ, List, Bool, ◌∷◌, [], ◌≤◌, length};
ghost use Rattle.asn1_schema.specs.declared.tables.Range.{Range};
ghost use Rattle.asn1_schema.specs.declared.part.Part.{Part};
ghost use Rattle.asn1_schema.specs.Pieces.{Piece, Parts};
ghost use Rattle.asn1_schema.specs.PiecesOfParts.{piece_of};
ghost use Rattle.asn1_schema.specs.Room.{IsGrown};

use crate::part::Part;

/// Stores a part after `count` others, if there is room for it. Returns the new count, or
/// `usize::MAX` if it would exceed that.
#[inline(always)]
pub fn push_part(parts: &mut [Part], count: usize, part: Part) -> usize
    ensures more { count ≤ result }
    ensures grown { (ranges : List Range) (list : List Bool)
        → IsGrown ranges list parts.old count parts.new result (piece_of ranges list part ∷ []) }
{
    if count < parts.len() {
        parts[count] = part;
        return count + 1;
    }
    count.saturating_add(1)
}

/// Replaces the part at an index, if there was room for it.
#[inline(always)]
pub fn replace_part(parts: &mut [Part], index: usize, part: Part)
    ensures { (ranges : List Range) (list : List Bool) (was : List Part) (count : ℕ) (p : Piece) (more : Parts)
        → IsGrown ranges list was index parts.old count (p ∷ more)
        → IsGrown ranges list was index parts.new count (piece_of ranges list part ∷ more) }
{
    if index < parts.len() {
        parts[index] = part;
    }
}

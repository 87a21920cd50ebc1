//! What the definitions keep.

ghost use Rattle.std.specs.Prelude.{◌≡◌, ◌≤◌, ℕ, List, Bool, length, map, take};
ghost use Rattle.asn1_schema.specs.declared.tables.Range as range;
ghost use Rattle.asn1_schema.specs.PiecesOfParts.{piece_of};
ghost use Rattle.asn1_schema.specs.Values.{AreValues};
ghost use Rattle.asn1_schema_values.specs.Extents.{HasValues};
ghost use Rattle.asn1_schema_values.specs.Tables.{AreWellFormed, IsClosed};

use asn1_schema::{Part, Tables};

/// States that `n` values that begin at an index end at one index at most. It does nothing.
pub fn laws_of_extents(parts: &[Part])
    ensures { (at n end other : ℕ) → HasValues parts.now at n end → HasValues parts.now at n other
        → end ≡ other }
{}

/// States that the first `count` parts are `n` values if their pieces are. It does nothing.
///
/// So the parts that a decoder returns are one value, which ends after the last of them.
pub fn laws_of_pieces(parts: &[Part])
    ensures { (ranges : List range.Range) (list : List Bool) (n count : ℕ) → count ≤ length parts.now
        → AreValues n (map (piece_of ranges list) (take count parts.now)) → HasValues parts.now 0 n count }
{}

/// States that well-formed tables have each row and each type that one of their types names. It does
/// nothing.
pub fn laws_of_tables(tables: &Tables<'_>)
    ensures { AreWellFormed tables.now → IsClosed tables.now }
{}

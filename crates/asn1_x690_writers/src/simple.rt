//! NULL (X.690 8.8) and BOOLEAN (8.2, 11.1).

ghost use Rattle.std.specs.Prelude.{ℕ, List, ◌*◌, ◌^◌, ◌<◌, length};
ghost use Rattle.asn1_schema.specs.declared.tables.Range.{Range};
ghost use Rattle.asn1_schema.specs.Pieces.{Null, Truth};
ghost use Rattle.asn1_x690.specs.Der.{always};
ghost use Rattle.asn1_x690.specs.Leaves.{IsBoolean, IsNull, leaf_of};
ghost use Rattle.asn1_x690_writers.specs.Put.{IsPut};
ghost use Rattle.asn1_x691_writers.specs.Put.{piece_in};

use asn1_schema::{MisfitKind, Part};
use asn1_x691_writers::{Writer, put_number, reject};

/// Writes the contents of NULL, which are empty.
pub(crate) fn put_null(octets: &mut [u8], part: Part, node: usize, state: &mut Writer) -> bool
    ensures { (ranges : List Range) (source : List ℕ) → IsPut ⊥ (leaf_of IsNull always (λ u. Null) node) (piece_in ranges source part)
        octets.old state.old octets.new state.new result }
{
    match part {
        Part::Null => true,
        _ => reject(state, node, MisfitKind::OtherPart),
    }
}

/// Writes the octet of a BOOLEAN.
#[inline(always)]
pub(crate) fn put_boolean(octets: &mut [u8], part: Part, node: usize, state: &mut Writer) -> bool
    requires size { 8 * length octets.old < 2 ^ 64 }
    ensures { (ranges : List Range) (source : List ℕ) → IsPut ⊥ (leaf_of IsBoolean always Truth node) (piece_in ranges source part)
        octets.old state.old octets.new state.new result }
{
    match part {
        Part::Truth(is_true) => {
            let octet = if is_true { 255 } else { 0 };
            state.at = put_number(octets, state.at, octet, 8);
            true
        }
        _ => reject(state, node, MisfitKind::OtherPart),
    }
}

//! BOOLEAN (X.691 12), and bits.

ghost use Rattle.std.specs.Prelude.{◌≡◌, ℕ, Bool, List, ◌*◌, ◌^◌, ◌<◌, length};
ghost use Rattle.asn1_schema.specs.declared.tables.Range.{Range};
ghost use Rattle.asn1_schema.specs.Encodings.{anywhere};
ghost use Rattle.asn1_schema.specs.Pieces.{Truth};
ghost use Rattle.asn1_schema.specs.TypeEncodings.{leaf};
ghost use Rattle.asn1_x691.specs.Strings.{bit};
ghost use Rattle.asn1_x691_writers.specs.Put.{IsPut, piece_in};
ghost use Rattle.asn1_x691_writers.specs.Written.{IsWritten};

use crate::bits::put_number;
use crate::state::{Writer, reject};
use asn1_schema::{MisfitKind, Part};

/// Writes a bit, 1 for true. Returns the index after it.
#[inline(always)]
pub fn put_bit(octets: &mut [u8], at: usize, is_one: bool) -> usize
    requires size { 8 * length octets.old < 2 ^ 64 }
    ensures { (is_aligned : Bool) (node : ℕ) → IsWritten is_aligned (anywhere (bit node)) is_one octets.old at octets.new result }
{
    if is_one {
        return put_number(octets, at, 1, 1);
    }
    put_number(octets, at, 0, 1)
}

/// Writes a BOOLEAN (X.691 12).
pub fn put_boolean(octets: &mut [u8], part: Part, node: usize, state: &mut Writer) -> bool
    requires size { 8 * length octets.old < 2 ^ 64 }
    ensures { (is_aligned : Bool) (ranges : List Range) (source : List ℕ) → IsPut is_aligned (leaf (anywhere (bit node)) Truth node) (piece_in ranges source part)
        octets.old state.old octets.new state.new result }
{
    match part {
        Part::Truth(is_one) => {
            state.at = put_bit(octets, state.at, is_one);
            true
        }
        _ => reject(state, node, MisfitKind::OtherPart),
    }
}

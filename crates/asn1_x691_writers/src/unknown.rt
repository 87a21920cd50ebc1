//! Octets after their number (X.691 17.8), and values that the schema does not know (19.9, 23.8).

ghost use Rattle.asn1_x691.specs.Fragments.{most_fragments};
ghost use Rattle.std.specs.Prelude.{ℕ, ◌+◌, ◌*◌, ◌^◌, ◌<◌, ◌≤◌, length, List};
ghost use Rattle.asn1_bits.specs.Bits.{bits};
ghost use Rattle.asn1_schema.specs.declared.tables.Range.{Range};
ghost use Rattle.asn1_schema.specs.Pieces.{Unknown};
ghost use Rattle.asn1_schema.specs.PiecesOfParts.{bits_at};
ghost use Rattle.asn1_schema.specs.TypeEncodings.{leaf};
ghost use Rattle.asn1_x691.specs.Fragments.{octets as octets_in};
ghost use Rattle.asn1_x691_writers.specs.Put.{IsPut, piece_in};
ghost use Rattle.asn1_x691_writers.specs.Written.{IsWritten};

use crate::spans::clip;
use crate::state::{Writer, reject};
use crate::strings::put_units;
use asn1_schema::{MisfitKind, Part};

/// Writes `count` octets of a source, from bit `from` on, after their number (X.691 17.8). Returns
/// the index after them. The octets must be inside the source.
pub fn put_octets(
    octets: &mut [u8],
    at: usize,
    is_aligned: bool,
    source: &[u8],
    from: usize,
    count: usize,
) -> usize
    requires size { 8 * length octets.old < 2 ^ 64 }
    requires source { 8 * length source.now < 2 ^ 64 }
    requires within { from + 8 * count ≤ 8 * length source.now }
    ensures { (node : ℕ) → IsWritten is_aligned (octets_in most_fragments is_aligned node) (bits_at (bits source.now) from (8 * count))
        octets.old at octets.new result }
{
    put_units(octets, at, is_aligned, 8, source, from, count)
}

/// Writes the octets of a value that the schema does not know (X.691 19.9, 23.8).
pub fn put_unknown(
    octets: &mut [u8],
    is_aligned: bool,
    source: &[u8],
    part: Part,
    node: usize,
    state: &mut Writer,
) -> bool
    requires size { 8 * length octets.old < 2 ^ 64 }
    requires source { 8 * length source.now < 2 ^ 64 }
    ensures { (ranges : List Range) → IsPut is_aligned (leaf (octets_in most_fragments is_aligned node) Unknown node) (piece_in ranges source.now part) octets.old state.old
        octets.new state.new result }
{
    match part {
        Part::Unknown(span) => {
            let inside = clip(source, span);
            if inside.count % 8 > 0 {
                return reject(state, node, MisfitKind::NoEncoding);
            }
            state.at = put_octets(
                octets,
                state.at,
                is_aligned,
                source,
                inside.at,
                inside.count / 8,
            );
            true
        }
        _ => reject(state, node, MisfitKind::OtherPart),
    }
}

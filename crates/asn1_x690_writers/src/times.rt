//! UTCTime (X.690 8.25, 11.8) and GeneralizedTime (8.25, 11.7).

ghost use Rattle.std.specs.Prelude.{◌*◌, ◌<◌, ◌^◌, length};
ghost use Rattle.std.specs.Bool.{Decides};
ghost use Rattle.asn1_bits.specs.Bits.{bits};
ghost use Rattle.asn1_schema.specs.CharactersOfParts.{characters_of};
ghost use Rattle.asn1_schema.specs.Pieces.{Text};
ghost use Rattle.asn1_schema.specs.Times.{IsTime};
ghost use Rattle.asn1_x690.specs.Der.{always};
ghost use Rattle.asn1_x690.specs.Leaves.{IsTimeText, leaf_of};
ghost use Rattle.asn1_x690_writers.specs.Put.{IsPut};
ghost use Rattle.asn1_x691_writers.specs.Put.{piece_in};

use crate::texts::{are_plain, put_characters};
use asn1_schema::{Characters, MisfitKind, Part, Range, TimeKind};
use asn1_x691_fields::is_time_at;
use asn1_x691_writers::{Writer, is_time_in, reject};

/// Returns whether the characters of a part are a time of this kind. Numbers of one octet each are read
/// where they are.
fn is_time(source: &[u8], table: &[Range], text: Characters, kind: TimeKind) -> bool
    requires { 8 * length source.now < 2 ^ 64 }
    ensures { Decides result (IsTime kind (characters_of table.now (bits source.now) text)) }
{
    if are_plain(source, 8, text) {
        return is_time_at(source, text.at, 8, text.count, kind);
    }
    is_time_in(source, table, text, kind)
}

/// Writes a time of this kind, a character in each octet.
pub(crate) fn put_time(
    octets: &mut [u8],
    table: &[Range],
    kind: TimeKind,
    source: &[u8],
    part: Part,
    node: usize,
    state: &mut Writer,
) -> bool
    requires size { 8 * length octets.old < 2 ^ 64 }
    requires source { 8 * length source.now < 2 ^ 64 }
    ensures { IsPut ⊥ (leaf_of (IsTimeText kind) always Text node) (piece_in table.now source.now part)
        octets.old state.old octets.new state.new result }
{
    match part {
        Part::Text(text) => {
            if !is_time(source, table, text, kind) {
                return reject(state, node, MisfitKind::NoEncoding);
            }
            state.at = put_characters(octets, state.at, 8, source, table, text);
            true
        }
        _ => reject(state, node, MisfitKind::OtherPart),
    }
}

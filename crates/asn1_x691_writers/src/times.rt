//! UTCTime and GeneralizedTime, which are VisibleStrings (X.691 30, X.680 46, 47).

ghost use Rattle.std.specs.Prelude.{◌≡◌, ◌*◌, ◌^◌, ◌<◌, length};
ghost use Rattle.std.specs.Bool.{Decides};
ghost use Rattle.asn1_bits.specs.Bits.{bits};
ghost use Rattle.asn1_schema.specs.CharactersOfParts.{characters_of};
ghost use Rattle.asn1_schema.specs.Pieces.{Text};
ghost use Rattle.asn1_schema.specs.Times.{IsTime};
ghost use Rattle.asn1_x691.specs.Fragments.{most_fragments};
ghost use Rattle.asn1_x691.specs.Leaves.{time};
ghost use Rattle.asn1_x691_writers.specs.Put.{IsPut, piece_in};

use crate::characters::{PartCharacters, are_in};
use crate::copied::are_copied;
use crate::sized_texts::put_text_of;
use crate::state::{Writer, reject};
use asn1_schema::{Characters, Length, MisfitKind, Part, Range, TimeKind, is_time};
use asn1_x691_fields::visible;

/// Returns whether the characters of a part are a time of a kind.
pub fn is_time_in(source: &[u8], table: &[Range], text: Characters, kind: TimeKind) -> bool
    requires { 8 * length source.now < 2 ^ 64 }
    ensures { Decides result (IsTime kind (characters_of table.now (bits source.now) text)) }
{
    let characters = PartCharacters::new(source, table, text);
    is_time(&characters, kind)
}

/// Writes a UTCTime or a GeneralizedTime (X.691 30).
pub fn put_time(
    octets: &mut [u8],
    is_aligned: bool,
    table: &[Range],
    kind: TimeKind,
    source: &[u8],
    part: Part,
    node: usize,
    state: &mut Writer,
) -> bool
    requires size { 8 * length octets.old < 2 ^ 64 }
    requires source { 8 * length source.now < 2 ^ 64 }
    ensures { IsPut is_aligned (time most_fragments is_aligned node (IsTime kind)) (piece_in table.now source.now part)
        octets.old state.old octets.new state.new result }
{
    match part {
        Part::Text(text) => {
            put_characters_of_time(octets, is_aligned, table, kind, source, text, node, state)
        }
        _ => reject(state, node, MisfitKind::OtherPart),
    }
}

/// Writes characters that are to be a time of this kind.
fn put_characters_of_time(
    octets: &mut [u8],
    is_aligned: bool,
    table: &[Range],
    kind: TimeKind,
    source: &[u8],
    text: Characters,
    node: usize,
    state: &mut Writer,
) -> bool
    requires size { 8 * length octets.old < 2 ^ 64 }
    requires source { 8 * length source.now < 2 ^ 64 }
    ensures { IsPut is_aligned (time most_fragments is_aligned node (IsTime kind))
        (Text (characters_of table.now (bits source.now) text)) octets.old state.old octets.new state.new result }
{
    if !is_time_in(source, table, text, kind) {
        return reject(state, node, MisfitKind::NoEncoding);
    }
    let alphabet = visible(is_aligned);
    let is_copied = are_copied(&alphabet, source, table, text);
    if !are_in(&alphabet, source, table, text, is_copied) {
        return reject(state, node, MisfitKind::NoEncoding);
    }
    state.at = put_text_of(
        octets,
        state.at,
        &alphabet,
        Length::AtLeast { least: 0 },
        source,
        table,
        text,
        is_copied,
    );
    true
}
